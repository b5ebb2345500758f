//! Runs over a journal: of the script that a source gives, of one block that loads a table, and of
//! a sample over a journal of its own in memory. Each opens its journal, runs its phases, and hands
//! the disk back; one whose journal is refused writes its closing line alone.
ghost use Rattle.std.specs.Prelude.{◌≡◌, IfOk};
ghost use Rattle.std.specs.String.{string_bytes};
ghost use Rattle.tl_command.specs.Coming.{HasNotBegun, block_reads, script_reads};
ghost use Rattle.tl_command.specs.Outside.{outside};
ghost use Rattle.tl_commands.specs.Runs.{RunEnds, SampleEnds, put_text};
ghost use Rattle.tl_commands.specs.Sample.{sample_reading};

use crate::alone::empty_disk;
use crate::no_source::NoSource;
use crate::opened::{Attached, Finished, run_opened};
use crate::samples::SamplePhases;
use std::alloc::Global;
use std::marker::Brand;
use std::snapshot::Snapshot;
use std::sync::Wait;
use std::thread::Threads;
use tl_command::{BlockPhase, Ending, Phases, Status, close_run, end_refused};
use tl_device::{Disk, Gate, Sink, Source, SureDisk};
use tl_engine::Engine;
use tl_jobs::Pace;
use tl_journal::Refused;
use tl_script::Script;
use tl_types::{Limits, NoMemory};

// The text of the statement that loads a table.
fn put_text(alloc: Global, table: &str) -> Result<String, NoMemory>
    ensures { IfOk result (λ text. string_bytes text ≡ put_text table.now) }
{
    format!(in alloc; "PUT {table}")
}

/// What is run, and the pace of its statements.
#[derive(Drop)]
pub struct Paced<T> {
    /// What is run: the phases, or the name of the table that is loaded.
    pub of: T,
    /// With how many workers queries run, and after how many events a table gets a mark.
    pub pace: Pace,
}

// Runs phases over the journal on the disk.
fn run<
    R: AllocGlobal + Threads + Wait + Sync,
    S: Source,
    K: Sink,
    D: Disk + Send,
    P: Phases<S>,
    G: Gate,
>(rt: &R, paced: Paced<P>, source: &mut S, sink: &mut K, disk: D, gate: &G) -> Ending<D>
    requires { HasNotBegun (P.coming paced.of) }
    ensures { RunEnds (P.coming paced.of).reads
        (outside S.Source K.Sink D.Disk source.old sink.old disk)
        (outside S.Source K.Sink D.Disk source.new sink.new result.disk) result.status }
{
    let alloc = rt.alloc();
    let begun = Snapshot::of(&disk);
    let Paced { of: phases, pace } = paced;
    match Engine::<D, Brand>::attach(alloc, disk, &Limits::standard(), pace.every()) {
        Err(Refused { fault, disk }) => Ending {
            status: end_refused(alloc, sink, fault),
            disk,
        },
        Ok(opening) => {
            let attached = Attached {
                opening,
                begun,
                pace,
            };
            let Finished { stop, broke, disk } = run_opened::<S, D, Brand, P, K, G, R>(
                rt, attached, phases, source, sink, gate,
            );
            let faults = disk.faults();
            Ending {
                status: close_run(alloc, sink, stop, broke, faults),
                disk,
            }
        }
    }
}

/// Runs the script that the source has, over the journal on the disk: it opens the journal, and
/// then reads, runs and answers one phase after the other. How it ends, and what is then written
/// and on the disk, by status, is what `RunEnds` says.
pub fn run_script<
    R: AllocGlobal + Threads + Wait + Sync,
    S: Source,
    K: Sink,
    D: Disk + Send,
    G: Gate,
>(rt: &R, pace: Pace, source: &mut S, sink: &mut K, disk: D, gate: &G) -> Ending<D>
    ensures { RunEnds script_reads
        (outside S.Source K.Sink D.Disk source.old sink.old disk)
        (outside S.Source K.Sink D.Disk source.new sink.new result.disk) result.status }
{
    let script = Script::new(rt.alloc(), &Limits::standard());
    let paced = Paced { of: script, pace };
    run::<R, S, K, D, Script, G>(rt, paced, source, sink, disk, gate)
}

/// Loads the table of a name with what the source has, as one block of rows, which a session `load`
/// puts by one statement. How it ends is what `RunEnds` says.
pub fn load<R: AllocGlobal + Threads + Wait + Sync, S: Source, K: Sink, D: Disk + Send, G: Gate>(
    rt: &R,
    table: Paced<&str>,
    source: &mut S,
    sink: &mut K,
    disk: D,
    gate: &G,
) -> Ending<D>
    ensures { RunEnds (block_reads (put_text table.entry.of.now))
        (outside S.Source K.Sink D.Disk source.old sink.old disk)
        (outside S.Source K.Sink D.Disk source.new sink.new result.disk) result.status }
{
    let Paced { of: name, pace } = table;
    let Ok(text) = put_text(rt.alloc(), name) else {
        return Ending {
            status: Status::NoMemory,
            disk,
        };
    };
    let phase = BlockPhase {
        text: text.as_str(),
        given: false,
    };
    let paced = Paced { of: phase, pace };
    run::<R, S, K, D, BlockPhase, G>(rt, paced, source, sink, disk, gate)
}

/// Runs the sample of so many lines, 1 to 1,000,000, whose generator begins with `start`, over a
/// journal of its own in memory. How it ends is what `SampleEnds` says.
pub fn run_sample<R: AllocGlobal + Threads + Wait + Sync, K: Sink, G: Gate>(
    rt: &R,
    lines: u32,
    start: u64,
    pace: Pace,
    sink: &mut K,
    gate: &G,
) -> Status
    ensures { SampleEnds (sample_reading lines start) (K.written sink.old) (K.written sink.new)
        (K.faults sink.old) (K.faults sink.new) result }
{
    let Ok(disk) = empty_disk(rt.alloc()) else {
        return Status::NoMemory;
    };
    let paced = Paced {
        of: SamplePhases::new(lines, start),
        pace,
    };
    let mut source = NoSource;
    let ending = run::<R, NoSource, K, SureDisk, SamplePhases, G>(
        rt,
        paced,
        &mut source,
        sink,
        disk,
        gate,
    );
    ending.status
}
