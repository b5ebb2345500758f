//! The phases of a run, one after the other: the sessions of each answer its jobs at once, and the
//! replies are written before the next phase is asked for. They stop at the end, at a fault of the
//! script, the source or the sink, and where memory runs out.
ghost use Rattle.std.specs.Prelude.{◌≡◌, ◌<◌, ◌≤◌, List, All, IfOk, length, map, true, Some, OnOk, ◌++◌};
ghost use Rattle.tl_types.specs.declared.commits.Entry.{Entry};
ghost use Rattle.tl_types.specs.Limits.{standard_limits};
ghost use Rattle.tl_jobs.specs.Jobs.{job_of};
ghost use Rattle.tl_session.specs.Phases.{HaveRun};
ghost use Rattle.tl_jobs.specs.Replies.{reply_bytes};
ghost use Rattle.tl_command.specs.Coming.{Coming, HasNotBegun};
ghost use Rattle.tl_command.specs.Jobs.{asked};
ghost use Rattle.tl_command.specs.Outside.{streams, Streams};
ghost use Rattle.tl_commands.specs.Running.{replies_bytes, TakesOnePhase, GoesOn, Progress, RunsAndWrites};
ghost use Rattle.tl_commands.specs.Stopping.{RunStops};

use std::alloc::Global;
use std::sync::Wait;
use std::thread::Threads;
use tl_command::{Phases, Stop, lent_jobs, stop_for, write_bytes};
use tl_device::{Disk, Gate, Sink, Source};
use tl_engine::{Engine, Named};
use tl_jobs::{LentJob, Pace, Reply, ReplyBody, put_reply};
use tl_script::Phase;
use tl_session::{SharedAccess, run_phase};
use tl_types::NoMemory;

/// A run: the engine over its journal, what the sessions of its phases share, the phases that are
/// still to come, and the pace of their statements.
pub(crate) struct Running<D: Disk, J: Named, P> {
    /// The engine, which reads and commits for all sessions.
    pub engine: Engine<D, J>,
    /// The pass and the share of which each session of a phase gets a part.
    pub shared: SharedAccess<J>,
    /// What is still to come.
    pub phases: P,
    /// With how many workers queries run, and after how many events a table gets a mark.
    pub pace: Pace,
}

// Appends a reply of a session with this name, and lets go of it. The error is `NoMemory`.
fn put_owned(alloc: Global, text: &mut Vec<u8>, name: &[u8], reply: Reply) -> Result<(), NoMemory>
    ensures { OnOk result (text.new.items ≡ text.old.items ++ reply_bytes name.now reply) }
{
    put_reply(alloc, text, name, &reply)?;
    Ok(())
}

// How much room is made for the line of a reply.
const LINE_ROOM: usize = 64;

// The room that is made for the bytes of a reply.
fn reply_room(reply: &Reply) -> usize {
    match &reply.body {
        ReplyBody::Rows(answer) => answer.bytes.len().saturating_add(LINE_ROOM),
        _ => LINE_ROOM,
    }
}

// The room that is made for the bytes of replies.
fn replies_room(replies: &[Reply]) -> usize {
    let mut room = 0usize;
    for reply in replies {
        room = room.saturating_add(reply_room(reply));
    }
    room
}

// The bytes of the replies to jobs, each under the name of its session. A reply is let go once its
// bytes stand there. The error is `NoMemory`.
fn text_of<S: Source, P: Phases<S>>(
    alloc: Global,
    phases: &P,
    jobs: &[LentJob],
    replies: Vec<Reply>,
) -> Result<Vec<u8>, NoMemory>
    requires each { length replies.items ≡ length jobs.now }
    requires sessions { All (λ job. job.session < length (P.coming phases.now).names) jobs.now }
    ensures { IfOk result (λ text. text.items ≡ replies_bytes (P.coming phases.now).names
        (map job_of jobs.now) replies.items) }
{
    let mut text = Vec::new(alloc);
    text.reserve(replies_room(&replies))?;
    let mut i = 0;
    for reply in replies {
        let name = phases.session_name(jobs[i].session);
        put_owned(alloc, &mut text, name.as_bytes(), reply)?;
        i += 1;
    }
    Ok(text)
}

// Runs a phase, and writes its replies. None: all of them are written.
fn run_one<
    S: Source,
    D: Disk + Send,
    J: Named + Send + Sync,
    P: Phases<S>,
    K: Sink,
    G: Gate,
    R: AllocGlobal + Threads + Wait + Sync,
>(rt: &R, running: &mut Running<D, J, P>, phase: &Phase, sink: &mut K, gate: &G) -> Option<Stop>
    requires standard { J.limits ≡ standard_limits }
    requires few { length (P.coming running.old.phases).names < 65536 }
    requires parts { running.old.shared.parts ≡ 65536 }
    requires sessions { All (λ job. job.session < length (P.coming running.old.phases).names)
        phase.now.jobs.items }
    ensures ran { RunsAndWrites (P.coming running.old.phases).names
        (map asked phase.now.jobs.items) running.old.shared running.new.shared
        (K.written sink.old) (K.written sink.new) (K.faults sink.old) (K.faults sink.new) result }
    ensures same { running.new.phases ≡ running.old.phases }
{
    let alloc = rt.alloc();
    let Ok(jobs) = lent_jobs(alloc, &phase.jobs) else {
        return Some(Stop::NoMemory);
    };
    running.shared.set_count(running.phases.session_count());
    let (engine, shared, pace) = (&running.engine, &mut running.shared, &running.pace);
    let Ok(replies) = run_phase(rt, engine, shared, &jobs, pace, gate) else {
        return Some(Stop::NoMemory);
    };
    let Ok(text) = text_of::<S, P>(alloc, &running.phases, &jobs, replies) else {
        return Some(Stop::NoMemory);
    };
    write_bytes(sink, &text)
}

// Runs the next phase, and writes its replies. None: they are written, and a phase may come yet.
fn run_next<
    S: Source,
    D: Disk + Send,
    J: Named + Send + Sync,
    P: Phases<S>,
    K: Sink,
    G: Gate,
    R: AllocGlobal + Threads + Wait + Sync,
>(rt: &R, running: &mut Running<D, J, P>, source: &mut S, sink: &mut K, gate: &G) -> Option<Stop>
    requires standard { J.limits ≡ standard_limits }
    requires live { (P.coming running.old.phases).live ≡ true }
    requires few { length (P.coming running.old.phases).names
        ≤ (P.coming running.old.phases).most }
    requires most { (P.coming running.old.phases).most < 65536 }
    requires parts { running.old.shared.parts ≡ 65536 }
    ensures more { (first : Coming) (opening : List Entry) (begun : Streams)
        → Progress first opening begun (P.coming running.old.phases) running.old.shared
        (streams S.Source K.Sink source.old sink.old)
        → GoesOn first opening begun (P.coming running.new.phases) running.new.shared
        (streams S.Source K.Sink source.new sink.new) result }
    ensures takes { TakesOnePhase (P.coming running.old.phases) (P.coming running.new.phases)
        (S.left source.old) (S.left source.new) result }
{
    match running.phases.next(rt.alloc(), source) {
        Ok(Some(phase)) => run_one::<S, D, J, P, K, G, R>(rt, running, &phase, sink, gate),
        Ok(None) => Some(Stop::Ended),
        Err(error) => Some(stop_for(error)),
    }
}

/// Runs the phases one after the other, each with its sessions at once, and writes the replies of
/// each before the next is asked for, until they stop.
pub(crate) fn run_phases<
    S: Source,
    D: Disk + Send,
    J: Named + Send + Sync,
    P: Phases<S>,
    K: Sink,
    G: Gate,
    R: AllocGlobal + Threads + Wait + Sync,
>(rt: &R, running: &mut Running<D, J, P>, source: &mut S, sink: &mut K, gate: &G) -> Stop
    requires standard { J.limits ≡ standard_limits }
    requires fresh { HasNotBegun (P.coming running.old.phases) }
    requires parts { running.old.shared.parts ≡ 65536 }
    requires amount { running.old.shared.amount ≡ 0 }
    ensures stops { RunStops (λ turns. HaveRun running.old.shared.seen turns running.new.shared.seen
        running.new.shared.amount) (P.coming running.old.phases).reads result
        (streams S.Source K.Sink source.old sink.old)
        (streams S.Source K.Sink source.new sink.new) }
    ensures parts { running.new.shared.parts ≡ 65536 }
{
    'phases: for _ in rt.forever() {
        let stop = run_next::<S, D, J, P, K, G, R>(rt, running, source, sink, gate);
        if let Some(stop) = stop {
            return stop;
        }
    }
    unreachable!()
}
