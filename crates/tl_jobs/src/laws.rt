//! The laws of jobs: what a job is over a list of commits, and what jobs make that are done one
//! after the other, is one thing. Each function's contract is its law; calling it does nothing.
ghost use Rattle.std.specs.Prelude.{◌≡◌, ℕ, ◌<◌, ◌≤◌, nat_abs, IsTrue, List, Some, Ok, Err};
ghost use Rattle.tl_types.specs.declared.commits.Commit.{Commit};
ghost use Rattle.tl_types.specs.declared.limits.Limits.{Limits};
ghost use Rattle.tl_types.specs.History.{after_commit, fits, open_end, table_after};
ghost use Rattle.tl_types.specs.Plain as plain;
ghost use Rattle.tl_types.specs.Resolving.{sync_change};
ghost use Rattle.tl_query.specs.declared.ast.Query.{Query};
ghost use Rattle.tl_query.specs.declared.ast.Stamp.{Stamp};
ghost use Rattle.tl_query.specs.declared.ast.Statement.{Statement};
ghost use Rattle.tl_query.specs.declared.check_faults.CheckFault.TheVariants as check_fault;
ghost use Rattle.tl_query.specs.declared.faults.TextFault.{TextFault};
ghost use Rattle.tl_query.specs.declared.typed_queries.Typed.{Typed};
ghost use Rattle.tl_query.specs.Answers.{answer_of};
ghost use Rattle.tl_query.specs.CheckingQueries.{query_floor};
ghost use Rattle.tl_query.specs.Texts.{Spells, IsFault, text_read};
ghost use Rattle.tl_jobs.specs.Forgetting.{IsAnsweredAs, IsForget, IsReachedBy, asked, stated_at, tables_without_floors};
ghost use Rattle.tl_jobs.specs.Jobs.{Job};
ghost use Rattle.tl_jobs.specs.Reading.{HasOneReading};
ghost use Rattle.tl_jobs.specs.Synced.{AreOpenRows};
ghost use Rattle.tl_jobs.specs.Written.{IsPlayOf};

/// A job is one thing over a list of commits: a batch that reads well, a query with its answer, or
/// its first fault.
pub fn each_job_has_one_reading()
    ensures { (commits : List Commit) (job : Job) → HasOneReading commits job }
{}

/// The jobs done one after the other write one text and end with one list of commits; and there
/// always is such a text and such a list.
pub fn a_play_is_one()
    ensures one { (names : List (List ℕ)) (jobs : List Job) (opening all other : List Commit)
        (bytes others : List ℕ)
        → IsPlayOf names jobs opening all bytes → IsPlayOf names jobs opening other others
        → (all ≡ other) × (bytes ≡ others) }
    ensures there { (names : List (List ℕ)) (jobs : List Job) (opening : List Commit)
        → (all : List Commit) × (bytes : List ℕ) × IsPlayOf names jobs opening all bytes }
{}

/// What is read of a text is what it spells, or its fault: a text spells a statement exactly where
/// that is read, and has a fault exactly where that is told.
pub fn texts_are_read()
    ensures spelled { (text : List ℕ) (s : Statement) → Spells text s → text_read text ≡ Ok s }
    ensures read { (text : List ℕ) (s : Statement) → text_read text ≡ Ok s → Spells text s }
    ensures fault { (text : List ℕ) (f : TextFault) → IsFault text f → text_read text ≡ Err f }
    ensures told { (text : List ℕ) (f : TextFault) → text_read text ≡ Err f → IsFault text f }
{}

/// A query has one answer over all databases with the same tables but for their floors, whatever
/// their versions and their stamps. So a query that gives its versions as numbers has after a
/// FORGET, where it may still be asked, the answer that it had before it; and before the FORGET it
/// could be asked, and had that answer, where its versions are none after the last one of then. A
/// query that could be asked and asks for a version below the floors of its tables is `Forgotten`,
/// at that number, with the greatest of these floors.
pub fn forgetting_keeps_answers()
    ensures tables { (db other : plain.Database) (t : Typed)
        → tables_without_floors db ≡ tables_without_floors other
        → answer_of db t ≡ answer_of other t }
    ensures after { (db : plain.Database) (commit : Commit) (q : Query) (t : Typed) (stamp : Stamp)
        → IsForget commit → stated_at q ≡ Some stamp → asked db q ≡ Ok t
        → query_floor (after_commit db commit) q ≤ nat_abs stamp.value
        → IsAnsweredAs db (after_commit db commit) q t }
    ensures before { (limits : Limits) (db : plain.Database) (commit : Commit) (q : Query)
        (t : Typed) (stamp : Stamp) → IsForget commit → IsTrue (fits limits db commit)
        → stated_at q ≡ Some stamp → IsReachedBy db.version q
        → asked (after_commit db commit) q ≡ Ok t
        → IsAnsweredAs (after_commit db commit) db q t }
    ensures forgotten { (db : plain.Database) (commit : Commit) (q : Query) (t : Typed)
        (stamp : Stamp) → IsForget commit → stated_at q ≡ Some stamp → asked db q ≡ Ok t
        → nat_abs stamp.value < query_floor (after_commit db commit) q
        → asked (after_commit db commit) q
        ≡ Err (check_fault.Forgotten stamp.at (query_floor (after_commit db commit) q)) }
{}

/// After the commit that a SYNC becomes, the open rows of its table are the rows of its block,
/// each as often as the block has it: with the same cells and, where the table has valid time, the
/// same period.
pub fn a_sync_says_all()
    ensures { (version number : ℕ) (table : plain.Table) (rows : List plain.Opened)
        → version < open_end
        → AreOpenRows (table_after version (sync_change number table rows) table) rows }
{}
