//! The call that asks: a journal is opened, the queries of a script are answered over its commits,
//! and the disk is handed back with just these commits.
ghost use Rattle.std.specs.Prelude.{false};
ghost use Rattle.tl_types.specs.Entries.{commits_of};
ghost use Rattle.tl_command.specs.Coming.{script_reads};
ghost use Rattle.tl_command.specs.Outside.{outside, streams};
ghost use Rattle.tl_commands.specs.Runs.{PhasesEnd};
ghost use Rattle.tl_asking.specs.Answers.{AreAnswered};
ghost use Rattle.tl_asking.specs.Asking.{AskEnds};

use crate::answers::Means;
use crate::phases::answer_phases;
use std::sync::Wait;
use std::thread::Threads;
use tl_command::{Ending, Status, close_run, end_refused};
use tl_csv::AnswerWriter;
use tl_device::{Disk, Gate, Sink, Source};
use tl_history::History;
use tl_index::Snapshot;
use tl_jobs::Pace;
use tl_journal::Refused;
use tl_script::Script;
use tl_types::Limits;

// Answers the script that the source has over a snapshot, and closes the run.
fn ask_over<R: AllocGlobal + Threads + Wait + Sync, S: Source, K: Sink, G: Gate>(
    rt: &R,
    snapshot: &Snapshot,
    pace: &Pace,
    source: &mut S,
    sink: &mut K,
    gate: &G,
) -> Status
    ensures { PhasesEnd (AreAnswered (commits_of snapshot.now)) script_reads false 0
        (streams S.Source K.Sink source.old sink.old)
        (streams S.Source K.Sink source.new sink.new) result }
{
    let mut script = Script::new(rt.alloc(), &Limits::standard());
    let writer = AnswerWriter::new();
    let mut means = Means { pace, gate, writer };
    let stop = answer_phases::<S, Script, K, G, R>(
        rt,
        snapshot,
        &mut script,
        source,
        sink,
        &mut means,
    );
    close_run(rt.alloc(), sink, stop, false, 0)
}

/// Answers the queries of the script that the source has, over the journal on the disk, each with a
/// line of its columns' names before its rows: it opens the journal, and then reads and answers one
/// phase after the other, the jobs of each in the order of their lines. Another statement than a
/// query is refused as a text that is `Unexpected` at 0, and the journal keeps its commits. How it
/// ends, and what is then written and on the disk, by status, is what `AskEnds` says. `pace` tells
/// by how many workers the work of a query may be shared, and after how many events a table gets a
/// mark.
pub fn ask<R: AllocGlobal + Threads + Wait + Sync, S: Source, K: Sink, D: Disk, G: Gate>(
    rt: &R,
    pace: &Pace,
    source: &mut S,
    sink: &mut K,
    disk: D,
    gate: &G,
) -> Ending<D>
    ensures { AskEnds script_reads
        (outside S.Source K.Sink D.Disk source.old sink.old disk)
        (outside S.Source K.Sink D.Disk source.new sink.new result.disk) result.status }
{
    match History::open(rt.alloc(), disk, &Limits::standard(), pace.every()) {
        Err(Refused { fault, disk }) => Ending {
            status: end_refused(rt.alloc(), sink, fault),
            disk,
        },
        Ok(history) => {
            let status = ask_over(rt, history.snapshot(), pace, source, sink, gate);
            let closed = history.close();
            Ending {
                status,
                disk: closed.disk,
            }
        }
    }
}
