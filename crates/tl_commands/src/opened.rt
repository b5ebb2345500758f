//! A run over a journal that is opened: its engine is started, the phases are run, and the engine
//! is closed. The disk is handed back with all commits of the run on it.
ghost use Rattle.std.specs.Prelude.{◌≡◌, ℕ, List, Some, is_some, false};
ghost use Rattle.tl_types.specs.Entries.{has_break};
ghost use Rattle.tl_types.specs.Limits.{standard_limits};
ghost use Rattle.tl_engine.specs.Naming.{IsNameOf};
ghost use Rattle.tl_history.specs.Standing.{DiskStandsForHistory};
ghost use Rattle.tl_commands.specs.Finishing.{Finishes};
ghost use Rattle.tl_command.specs.Outside.{streams};
ghost use Rattle.tl_command.specs.Coming.{HasNotBegun};

use crate::running::{Running, run_phases};
use std::snapshot::Snapshot;
use std::sync::Wait;
use std::thread::Threads;
use tl_command::{Phases, Stop};
use tl_device::{Disk, Gate, Sink, Source};
use tl_engine::{Closed, Named, Opening, Started};
use tl_jobs::Pace;
use tl_session::laws::{lone_sessions_play, sessions_make_a_transcript};
use tl_session::{AccessParts, SharedAccess};

/// A journal that is opened, its disk as it was before that, and the pace of what is run over it.
pub(crate) struct Attached<D: Disk> {
    /// The history that the journal has, before its engine starts.
    pub opening: Opening<D>,
    /// The disk before it was opened, which clauses alone see.
    pub begun: Snapshot<D>,
    /// With how many workers queries run, and after how many events a table gets a mark.
    pub pace: Pace,
}

/// Why the phases of a run stopped, whether the history has a break then, and the disk.
#[derive(Drop)]
pub(crate) struct Finished<D> {
    /// Why no further phase was run.
    pub stop: Stop,
    /// Whether the disk failed at a commit, of which it did not say whether it keeps it.
    pub broke: bool,
    /// The disk, of which nothing holds on to anything.
    pub disk: D,
}

// What is left of a run whose phases stopped for this, once its engine is closed.
fn finish<D: Disk>(stop: Stop, closed: Closed<D>) -> Finished<D>
    ensures stop { result.stop ≡ stop }
    ensures broke { result.broke ≡ has_break closed.snapshot }
    ensures disk { result.disk ≡ closed.disk }
{
    let broke = closed.snapshot.has_break();
    Finished {
        stop,
        broke,
        disk: closed.disk,
    }
}

/// Runs the phases over a journal that is opened, under this name, and closes it.
pub(crate) fn run_opened<
    S: Source,
    D: Disk + Send,
    J: Named + Send + Sync,
    P: Phases<S>,
    K: Sink,
    G: Gate,
    R: AllocGlobal + Threads + Wait + Sync,
>(rt: &R, attached: Attached<D>, phases: P, source: &mut S, sink: &mut K, gate: &G) -> Finished<D>
    requires names { IsNameOf J.table J.first_entries J.first_count J.limits attached.opening }
    requires ledger { (attached.opening.ledger ≡ J.name) × (attached.opening.parts ≡ J.parts) }
    requires told { J.told ≡ is_some (D.reads attached.begun.value) }
    requires stands { (b : List ℕ) → D.reads attached.begun.value ≡ Some b
        → DiskStandsForHistory D.reads D.may_leave attached.opening.history }
    requires standard { J.limits ≡ standard_limits }
    requires whole { has_break J.first_entries ≡ false }
    requires fresh { HasNotBegun (P.coming phases) }
    ensures { Finishes D.Disk attached.begun.value
        attached.opening.history.entries attached.opening.history.first_count
        (P.coming phases).reads
        (streams S.Source K.Sink source.old sink.old)
        (streams S.Source K.Sink source.new sink.new)
        result.stop result.broke result.disk }
{
    sessions_make_a_transcript();
    lone_sessions_play();
    let Attached {
        opening,
        begun: _,
        pace,
    } = attached;
    let Started {
        engine,
        pass,
        share,
    } = opening.start::<J>();
    let mut running = Running {
        engine,
        shared: SharedAccess::new(pass, share, 0),
        phases,
        pace,
    };
    let stop = run_phases::<S, D, J, P, K, G, R>(rt, &mut running, source, sink, gate);
    let Running {
        engine,
        shared,
        phases: _,
        pace: _,
    } = running;
    let AccessParts { pass, share } = shared.into_parts();
    let closed = engine.close(rt, pass, share);
    finish(stop, closed)
}
