//! The command `watch`: the journal is opened, a text names a plan over its commits, and the script
//! is played as by `group`, with the plan's value told behind each reply that is done.
ghost use Rattle.std.specs.Prelude.{◌≡◌, IfOk, Ok, Err, false};
ghost use Rattle.tl_types.specs.Entries.{commits_of};
ghost use Rattle.tl_types.specs.History.{database_of};
ghost use Rattle.tl_types.specs.Limits.{standard_limits};
ghost use Rattle.tl_jobs.specs.declared.replies.Refusal.{Refusal as RefusalValue};
ghost use Rattle.tl_watch.specs.Watches.{IsOfQuery};
ghost use Rattle.tl_command.specs.Coming.{script_reads};
ghost use Rattle.tl_command.specs.Outside.{outside};
ghost use Rattle.tl_group.specs.Keeping.{commits_in};
ghost use Rattle.tl_commands.specs.Appending.{IsAttached};
ghost use Rattle.tl_commands.specs.Watching.{BeginsRead, BeginsWatch, WatchEnds, WatchEndsBy};
ghost use Rattle.tl_commands.specs.Plans.{plan_reading};

use crate::grouping::play_group;
use crate::plans::read_plan;
use crate::playing::Means;
use crate::steps::{Playing, Replies};
use crate::watches::Watching;
use std::alloc::Global;
use std::sync::Wait;
use std::thread::Threads;
use tl_command::{Ending, Status, close, end_refused};
use tl_device::{Disk, Gate, Sink, Source};
use tl_group::Group;
use tl_index::Snapshot;
use tl_jobs::{Pace, Refusal};
use tl_journal::Refused;
use tl_script::Script;
use tl_types::{Limits, NoMemory};
use tl_watch::WatchPlan;

/// What is watched, and how the statements meanwhile are done.
#[derive(Drop)]
pub struct WatchText<'a> {
    /// The text that names the plan: an aggregate `OVER SYSTEM ALL`.
    pub text: &'a str,
    /// By how many workers the work of a query may be shared; no table gets a mark.
    pub pace: &'a Pace,
}

// The watch of the plan that was read of a text over the commits of a snapshot, or the refusal of
// the text. The outer error is `NoMemory`, which a text that was refused never has.
fn begin_read(
    alloc: Global,
    snapshot: &Snapshot,
    read: Result<WatchPlan, Refusal>,
) -> Result<Result<Watching, Refusal>, NoMemory>
    requires { IfOk read (λ plan. IsOfQuery plan (database_of (commits_of snapshot.now))) }
    ensures begins { IfOk result (BeginsRead (commits_of snapshot.now) read) }
    ensures told { (why : RefusalValue) → read ≡ Err why → result ≡ Ok (Err why) }
{
    match read {
        Ok(plan) => {
            let watching = Watching::begin(alloc, snapshot, plan)?;
            Ok(Ok(watching))
        }
        Err(refusal) => Ok(Err(refusal)),
    }
}

// The watch of the plan that a text names over the commits of a snapshot, or the text's fault. The
// outer error is `NoMemory`.
fn begin(
    alloc: Global,
    snapshot: &Snapshot,
    text: &str,
) -> Result<Result<Watching, Refusal>, NoMemory>
    ensures { IfOk result (BeginsWatch (commits_of snapshot.now) text.now) }
{
    let read = read_plan(alloc, snapshot.store(), text)?;
    begin_read(alloc, snapshot, read)
}

// Watches a plan while a script is played over a group as it was opened.
fn watch_group<R: AllocGlobal + Threads + Wait + Sync, S: Source, K: Sink, D: Disk, G: Gate>(
    rt: &R,
    group: Group<D>,
    text: &str,
    source: &mut S,
    sink: &mut K,
    means: &Means<'_, G>,
) -> Ending<D>
    requires standard { group.limits ≡ standard_limits }
    requires goes_on { means.now.stops_at_refusal ≡ false }
    ensures { (begun : D) → IsAttached D.Disk begun group → WatchEndsBy
        (plan_reading (commits_in group) text.now) script_reads (commits_in group)
        (outside S.Source K.Sink D.Disk source.old sink.old begun)
        (outside S.Source K.Sink D.Disk source.new sink.new result.disk) result.status }
{
    let alloc = rt.alloc();
    match begin(alloc, group.snapshot(), text) {
        Ok(Ok(watching)) => {
            let playing = Playing {
                group,
                replies: Replies::none(alloc),
                watching: Some(watching),
            };
            let phases = Script::new(alloc, &Limits::standard());
            play_group::<R, S, K, D, Script, G>(rt, playing, phases, source, sink, means)
        }
        Ok(Err(refusal)) => Ending {
            status: close(alloc, sink, Status::WatchFault(refusal)),
            disk: group.into_disk(),
        },
        Err(_) => Ending {
            status: Status::NoMemory,
            disk: group.into_disk(),
        },
    }
}

/// Watches the plan that a text names over the journal on the disk, while the script that the
/// source has is played over it and its commits are appended, as by `group`: behind each reply `ok`
/// stand the line `watch @V rows N`, V being the reply's version, and the N rows of the plan's
/// value over the first V commits. The text is parsed, then its kind is looked at, then it is
/// checked, all before anything of the source is read. How it ends, and what is then written and on
/// the disk, by status, is what `WatchEnds` says. `WatchFault`: the text has this fault.
pub fn watch<R: AllocGlobal + Threads + Wait + Sync, S: Source, K: Sink, D: Disk, G: Gate>(
    rt: &R,
    watched: &WatchText<'_>,
    source: &mut S,
    sink: &mut K,
    disk: D,
    gate: &G,
) -> Ending<D>
    ensures { WatchEnds watched.now.text.now script_reads
        (outside S.Source K.Sink D.Disk source.old sink.old disk)
        (outside S.Source K.Sink D.Disk source.new sink.new result.disk) result.status }
{
    let alloc = rt.alloc();
    match Group::attach(alloc, disk, &Limits::standard()) {
        Err(Refused { fault, disk }) => Ending {
            status: end_refused(alloc, sink, fault),
            disk,
        },
        Ok(group) => {
            let means = Means {
                pace: watched.pace,
                gate,
                stops_at_refusal: false,
            };
            watch_group(rt, group, watched.text, source, sink, &means)
        }
    }
}
