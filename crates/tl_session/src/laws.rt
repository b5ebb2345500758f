//! The laws of what sessions are answered with: from what each session says by its replies to the
//! transcript of them all, and to the play where nobody is at once. Each function's contract is its
//! law; calling it does nothing.
ghost use Rattle.std.specs.Prelude.{◌≡◌, ◌+◌, ◌++◌, ◌∷◌, [], ℕ, IsTrue, List, None, false, map};
ghost use mathlib.Core.List.{IsPrefix};
ghost use Rattle.tl_types.specs.declared.commits.Entry.{Entry};
ghost use Rattle.tl_types.specs.Entries.{commits_of, has_break};
ghost use Rattle.tl_types.specs.Legality.{are_legal};
ghost use Rattle.tl_engine.specs.Counting.{news};
ghost use Rattle.tl_jobs.specs.Jobs.{Job};
ghost use Rattle.tl_session.specs.Phases.{HaveRun, TakesTurns};
ghost use Rattle.tl_session.specs.Plain.{SharedAccess};
ghost use Rattle.tl_jobs.specs.Turns.{Turn, meant, break_of, all_turns};
ghost use Rattle.tl_session.specs.Promises.{Promised};
ghost use Rattle.tl_session.specs.Transcript.{Transcript};
ghost use Rattle.tl_jobs.specs.Play.{AreLone, AreLonePhases, IsPlay};
ghost use Rattle.tl_jobs.specs.Written.{IsPlayOf, all_jobs, jobs_of, transcript_bytes};

/// What each session's replies say by themselves makes a transcript of them all.
pub fn sessions_make_a_transcript()
    ensures { (opening last : List Entry) (phases : List (List Turn))
        → Promised meant opening last phases
        → Transcript meant (commits_of opening) (commits_of last) (break_of last) phases }
{}

/// Where each phase has jobs of one session and nothing broke, the jobs were done one after the
/// other.
pub fn lone_sessions_play()
    ensures { (opening last : List Entry) (phases : List (List Turn))
        → Promised meant opening last phases → break_of last ≡ None → AreLone phases
        → IsPlay meant (commits_of opening) (all_turns phases) (commits_of last) }
{}

/// The same of the jobs: where each phase has jobs of one session and nothing broke, the bytes are
/// those of all jobs done one after the other.
pub fn lone_phases_play()
    ensures { (names : List (List ℕ)) (jobs : List (List Job)) (phases : List (List Turn))
        (opening last : List Entry)
        → Promised meant opening last phases → map jobs_of phases ≡ jobs
        → break_of last ≡ None → AreLonePhases jobs
        → IsPlayOf names (all_jobs jobs) (commits_of opening) (commits_of last)
        (transcript_bytes names phases) }
{}

/// Before the first phase the opening's entries are seen, and nothing is counted. What the sessions
/// do in a phase is one phase more.
pub fn phases_go_on()
    ensures none { (opening : List Entry) → HaveRun opening [] opening 0 }
    ensures more { (opening : List Entry) (phases : List (List Turn)) (turns : List Turn)
        (old new : SharedAccess) → HaveRun opening phases old.seen old.amount
        → TakesTurns turns old new
        → HaveRun opening (phases ++ turns ∷ []) new.seen new.amount }
{}

/// Once the engine is closed, with a share that counts the entries of all phases, what the sessions
/// say by their replies is what is promised of them all.
pub fn phases_are_promised()
    ensures { (opening seen last : List Entry) (phases : List (List Turn)) (amount : ℕ)
        → HaveRun opening phases seen amount → IsPrefix seen last
        → news opening + amount ≡ news last → IsTrue (are_legal last) → has_break opening ≡ false
        → Promised meant opening last phases }
{}
