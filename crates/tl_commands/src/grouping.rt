//! The commands `group` and `transact`: the journal is opened, the script is played, and all its
//! commits are appended at once before the first reply is written. At a statement that is refused
//! `group` goes on, and `transact` ends and appends nothing.
ghost use Rattle.std.specs.Prelude.{◌≡◌, []};
ghost use Rattle.std.specs.declared.option.Option.{Option};
ghost use Rattle.tl_types.specs.Limits.{standard_limits};
ghost use Rattle.tl_command.specs.Coming.{HasNotBegun, script_reads};
ghost use Rattle.tl_command.specs.Outside.{outside};
ghost use Rattle.tl_group.specs.Keeping.{commits_in};
ghost use Rattle.tl_commands.specs.Appending.{AppendsAndWrites, ClosesPlay, IsAttached};
ghost use Rattle.tl_commands.specs.Grouping.{GroupEnds, GroupEndsBy, ScriptEnds, TransactEnds};
ghost use Rattle.tl_commands.specs.Telling.{IsWatched, WatchesFor};
ghost use Rattle.tl_watch.specs.declared.plans.WatchPlan.{WatchPlan};

use crate::playing::{Cause, Means, Stopped, play_phases};
use crate::steps::{Playing, Replies};
use std::alloc::Global;
use std::sync::Wait;
use std::thread::Threads;
use tl_command::{Ending, Phases, Status, close_after, close_run, end_refused, write_ready};
use tl_device::{Disk, Gate, Sink, Source};
use tl_group::{Finished, Group, Waiting};
use tl_jobs::Pace;
use tl_journal::Refused;
use tl_script::Script;
use tl_types::Limits;

// The line that is written where the disk fails while the group is appended.
const DEVICE_LINE: &str = "! device\n";

// The room that the sink needs for that line.
const LINE_ROOM: u64 = 9;

/// Appends all that waits as one group, once the sink's room is taken for a text and for the line
/// of a disk that fails, and writes the text, or the line where the disk failed. `NoMemory`: there
/// was no memory for the room, and the disk is as it was. `SinkFault`: the sink failed behind some
/// prefix of what was to be written.
pub fn append<K: Sink, D: Disk>(group: Waiting<D>, text: &[u8], sink: &mut K) -> Ending<D>
    ensures { AppendsAndWrites K.Sink D.Disk group text.now sink.old sink.new result.disk
        result.status }
{
    if sink.room(text.len() as u64 + LINE_ROOM).is_err() {
        return Ending {
            status: Status::NoMemory,
            disk: group.into_disk(),
        };
    }
    let Finished { faults, disk } = group.finish();
    match faults {
        None => Ending {
            status: write_ready(sink, text, Status::Done),
            disk,
        },
        Some(faults) => Ending {
            status: write_ready(sink, DEVICE_LINE.as_bytes(), Status::DiskFault { faults }),
            disk,
        },
    }
}

// Closes a play that was given up for this cause, with the replies of one that a refusal ended.
fn close_play<K: Sink>(alloc: Global, sink: &mut K, cause: Cause) -> Status
    ensures { ClosesPlay cause (K.written sink.old) (K.written sink.new) (K.faults sink.old)
        (K.faults sink.new) result }
{
    match cause {
        Cause::Stop(stop) => close_run(alloc, sink, stop, false, 0),
        Cause::Refusal(replies) => {
            let number = replies.count;
            close_after(
                alloc,
                sink,
                replies.text,
                Status::StatementRefused { number },
            )
        }
    }
}

/// Plays phases over a group as it was opened, of which a plan is told where one is watched, and
/// appends what waits then; where the script has a fault, its source fails, a statement is refused
/// that ends the play, or memory runs out, the group is given up.
pub(crate) fn play_group<
    R: AllocGlobal + Threads + Wait + Sync,
    S: Source,
    K: Sink,
    D: Disk,
    P: Phases<S>,
    G: Gate,
>(
    rt: &R,
    playing: Playing<D>,
    phases: P,
    source: &mut S,
    sink: &mut K,
    means: &Means<'_, G>,
) -> Ending<D>
    requires fresh { HasNotBegun (P.coming phases) }
    requires standard { playing.group.limits ≡ standard_limits }
    requires watched { IsWatched (commits_in playing.group) playing.watching }
    requires silent { playing.replies.text.items ≡ [] }
    requires uncounted { playing.replies.count ≡ 0 }
    ensures { (plan : Option WatchPlan) (begun : D)
        → WatchesFor plan (commits_in playing.group) playing.watching
        → IsAttached D.Disk begun playing.group → GroupEndsBy means.now.stops_at_refusal plan
        (P.coming phases).reads (commits_in playing.group)
        (outside S.Source K.Sink D.Disk source.old sink.old begun)
        (outside S.Source K.Sink D.Disk source.new sink.new result.disk) result.status }
{
    let mut phases = phases;
    match play_phases::<S, D, P, G, R>(rt, playing, &mut phases, source, means) {
        Ok(Playing { group, replies, .. }) => {
            append(group.without_keys(), replies.text.as_slice(), sink)
        }
        Err(Stopped { cause, disk }) => Ending {
            status: close_play(rt.alloc(), sink, cause),
            disk,
        },
    }
}

// Opens the journal on the disk, and plays the script that the source has over it.
fn play_script<R: AllocGlobal + Threads + Wait + Sync, S: Source, K: Sink, D: Disk, G: Gate>(
    rt: &R,
    source: &mut S,
    sink: &mut K,
    disk: D,
    means: &Means<'_, G>,
) -> Ending<D>
    ensures { ScriptEnds means.now.stops_at_refusal script_reads
        (outside S.Source K.Sink D.Disk source.old sink.old disk)
        (outside S.Source K.Sink D.Disk source.new sink.new result.disk) result.status }
{
    let alloc = rt.alloc();
    let limits = Limits::standard();
    match Group::attach(alloc, disk, &limits) {
        Err(Refused { fault, disk }) => Ending {
            status: end_refused(alloc, sink, fault),
            disk,
        },
        Ok(group) => {
            let playing = Playing {
                group,
                replies: Replies::none(alloc),
                watching: None,
            };
            let phases = Script::new(alloc, &limits);
            play_group::<R, S, K, D, Script, G>(rt, playing, phases, source, sink, means)
        }
    }
}

/// Plays the script that the source has over the journal on the disk, and appends the commits that
/// its jobs make as one group: all of them or none. The replies are written once the commits are on
/// the disk. How it ends, and what is then written and on the disk, by status, is what `GroupEnds`
/// says. `pace` tells by how many workers the work of a query may be shared; no table gets a mark.
pub fn group<R: AllocGlobal + Threads + Wait + Sync, S: Source, K: Sink, D: Disk, G: Gate>(
    rt: &R,
    pace: &Pace,
    source: &mut S,
    sink: &mut K,
    disk: D,
    gate: &G,
) -> Ending<D>
    ensures { GroupEnds script_reads
        (outside S.Source K.Sink D.Disk source.old sink.old disk)
        (outside S.Source K.Sink D.Disk source.new sink.new result.disk) result.status }
{
    let means = Means {
        pace,
        gate,
        stops_at_refusal: false,
    };
    play_script(rt, source, sink, disk, &means)
}

/// Does what `group` does, but ends at the first statement that is refused: the replies up to its
/// own are written, then the closing line with the statement's number in the script, from 1, and
/// the disk keeps the journal that it had. No more of the script is read then. How it ends, and
/// what is then written and on the disk, by status, is what `TransactEnds` says. `pace` is as of
/// `group`. `StatementRefused`: a statement is refused.
pub fn transact<R: AllocGlobal + Threads + Wait + Sync, S: Source, K: Sink, D: Disk, G: Gate>(
    rt: &R,
    pace: &Pace,
    source: &mut S,
    sink: &mut K,
    disk: D,
    gate: &G,
) -> Ending<D>
    ensures { TransactEnds script_reads
        (outside S.Source K.Sink D.Disk source.old sink.old disk)
        (outside S.Source K.Sink D.Disk source.new sink.new result.disk) result.status }
{
    let means = Means {
        pace,
        gate,
        stops_at_refusal: true,
    };
    play_script(rt, source, sink, disk, &means)
}
