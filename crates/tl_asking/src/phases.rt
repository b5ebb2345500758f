//! The phases of a script, one after the other: the jobs of each are answered over a snapshot in
//! the order of their lines, and their replies are written before the next phase is asked for. They
//! stop at the end, at a fault of the script, the source or the sink, and where memory runs out.
ghost use Rattle.std.specs.Prelude.{◌≡◌, ◌<◌, ◌++◌, All, IfOk, OnOk, length, map, true};
ghost use Rattle.tl_types.specs.declared.commits.Commit.{Commit as CommitValue};
ghost use Rattle.tl_types.specs.Entries.{commits_of};
ghost use Rattle.tl_jobs.specs.Jobs.{job_of};
ghost use Rattle.tl_jobs.specs.Replies.{reply_bytes};
ghost use Rattle.tl_command.specs.Coming.{Coming, HasNotBegun};
ghost use Rattle.tl_command.specs.Jobs.{asked};
ghost use Rattle.tl_command.specs.Outside.{streams, Streams};
ghost use Rattle.tl_command.specs.Writing.{WritesBytes};
ghost use Rattle.tl_commands.specs.Running.{TakesOnePhase};
ghost use Rattle.tl_commands.specs.Stopping.{RunStops};
ghost use Rattle.tl_asking.specs.Answers.{AreAnswered, named_reply};
ghost use Rattle.tl_asking.specs.Progress.{replies_text, GoesOn, Progress};

use crate::answers::{Means, answer_job};
use std::sync::Wait;
use std::thread::Threads;
use tl_command::{Phases, Stop, lent_jobs, stop_for, write_bytes};
use tl_device::{Gate, Sink, Source};
use tl_index::Snapshot;
use tl_jobs::{LentJob, put_reply};
use tl_script::Phase;
use tl_types::NoMemory;

// Appends the reply to a job of the session with a name. The error is `NoMemory`.
fn put_answer<R: AllocGlobal + Threads + Sync, G: Gate>(
    rt: &R,
    snapshot: &Snapshot,
    text: &mut Vec<u8>,
    name: &str,
    job: &LentJob,
    means: &mut Means<'_, G>,
) -> Result<(), NoMemory>
    ensures { OnOk result (text.new.items ≡ text.old.items
        ++ reply_bytes name.now (named_reply (commits_of snapshot.now) (job_of job.now))) }
{
    let reply = answer_job(rt, snapshot, job, means)?;
    put_reply(rt.alloc(), text, name.as_bytes(), &reply)?;
    Ok(())
}

// The bytes of the replies to jobs, each under the name of its session. The error is `NoMemory`.
fn replies_text<S: Source, P: Phases<S>, G: Gate, R: AllocGlobal + Threads + Sync>(
    rt: &R,
    snapshot: &Snapshot,
    phases: &P,
    jobs: &[LentJob],
    means: &mut Means<'_, G>,
) -> Result<Vec<u8>, NoMemory>
    requires sessions { All (λ job. job.session < length (P.coming phases.now).names) jobs.now }
    ensures { IfOk result (λ text. text.items ≡ replies_text (commits_of snapshot.now)
        (P.coming phases.now).names (map job_of jobs.now)) }
{
    let mut text = Vec::new(rt.alloc());
    for job in jobs {
        let name = phases.session_name(job.session);
        put_answer(rt, snapshot, &mut text, name, job, means)?;
    }
    Ok(text)
}

// Answers the jobs of a phase, and writes their replies. None: all of them are written.
fn answer_phase<S: Source, P: Phases<S>, K: Sink, G: Gate, R: AllocGlobal + Threads + Sync>(
    rt: &R,
    snapshot: &Snapshot,
    phases: &P,
    phase: &Phase,
    sink: &mut K,
    means: &mut Means<'_, G>,
) -> Option<Stop>
    requires sessions { All (λ job. job.session < length (P.coming phases.now).names)
        phase.now.jobs.items }
    ensures { WritesBytes (replies_text (commits_of snapshot.now) (P.coming phases.now).names
        (map asked phase.now.jobs.items))
        (K.written sink.old) (K.written sink.new) (K.faults sink.old) (K.faults sink.new) result }
{
    let Ok(jobs) = lent_jobs(rt.alloc(), &phase.jobs) else {
        return Some(Stop::NoMemory);
    };
    let Ok(text) = replies_text::<S, P, G, R>(rt, snapshot, phases, jobs.as_slice(), means) else {
        return Some(Stop::NoMemory);
    };
    write_bytes(sink, text.as_slice())
}

// Answers the next phase. None: its replies are written, and a phase may come yet.
fn answer_next<S: Source, P: Phases<S>, K: Sink, G: Gate, R: AllocGlobal + Threads + Sync>(
    rt: &R,
    snapshot: &Snapshot,
    phases: &mut P,
    source: &mut S,
    sink: &mut K,
    means: &mut Means<'_, G>,
) -> Option<Stop>
    requires live { (P.coming phases.old).live ≡ true }
    ensures more { (first : Coming) (begun : Streams)
        → Progress (commits_of snapshot.now) first begun (P.coming phases.old)
        (streams S.Source K.Sink source.old sink.old)
        → GoesOn (commits_of snapshot.now) first begun (P.coming phases.new)
        (streams S.Source K.Sink source.new sink.new) result }
    ensures takes { TakesOnePhase (P.coming phases.old) (P.coming phases.new)
        (S.left source.old) (S.left source.new) result }
{
    match phases.next(rt.alloc(), source) {
        Ok(Some(phase)) => {
            answer_phase::<S, P, K, G, R>(rt, snapshot, phases, &phase, sink, means)
        }
        Ok(None) => Some(Stop::Ended),
        Err(error) => Some(stop_for(error)),
    }
}

/// Answers the phases one after the other over a snapshot, and writes the replies of each before
/// the next is asked for, until they stop.
pub(crate) fn answer_phases<
    S: Source,
    P: Phases<S>,
    K: Sink,
    G: Gate,
    R: AllocGlobal + Threads + Wait + Sync,
>(
    rt: &R,
    snapshot: &Snapshot,
    phases: &mut P,
    source: &mut S,
    sink: &mut K,
    means: &mut Means<'_, G>,
) -> Stop
    requires fresh { HasNotBegun (P.coming phases.old) }
    ensures { RunStops (AreAnswered (commits_of snapshot.now)) (P.coming phases.old).reads result
        (streams S.Source K.Sink source.old sink.old)
        (streams S.Source K.Sink source.new sink.new) }
{
    'phases: for _ in rt.forever() {
        let stop = answer_next::<S, P, K, G, R>(rt, snapshot, phases, source, sink, means);
        if let Some(stop) = stop {
            return stop;
        }
    }
    unreachable!()
}
