//! The events of valid time at a version: those of the nearest mark that is not after it, corrected
//! by the events of versions since.
ghost use Rattle.std.specs.Prelude.{◌≡◌, ◌+◌, ◌-◌, ◌*◌, ◌≤◌, IsTrue, length, IfOk};
ghost use Rattle.tl_types.specs.Checkpoints.{valid_events_in};
ghost use Rattle.tl_types.specs.Entries.{commits_of};
ghost use Rattle.tl_types.specs.Events.{place_of};
ghost use Rattle.tl_types.specs.History.{database_of, rows_of};
ghost use Rattle.tl_events.specs.Timeline.{ends_of, binary_digits};
ghost use Rattle.tl_lanes.specs.Masks.{words_for};
ghost use Rattle.tl_store.specs.Reading.{has_periods};
ghost use Rattle.tl_index.specs.Snapshots.{mark_before};

use std::alloc::Global;
use std::sync::ledger::Ledger;
use tl_ckpt::ValidEvents;
use tl_index::Snapshot;
use tl_types::{NoMemory, Steps};

/// The events of valid time of the rows of a table that stand at a version: both ends of their
/// periods, in order of time, ends before beginnings at one time, and then by row. The rows of the
/// table have valid periods, and the version is not after the snapshot's. They are those of the
/// nearest mark that is not after the version, corrected by the events since.
///
/// With e events from that mark's version up to this one, w begun 64s of rows, and as many versions
/// with events, and one more, as a number of s binary digits tells, it takes at most 4e + w + 2s
/// steps, also where it fails. The error is `NoMemory`.
pub fn valid_events<L: Ledger>(
    alloc: Global,
    snapshot: &Snapshot,
    table: u16,
    version: u32,
    steps: &mut Steps<L>,
) -> Result<ValidEvents, NoMemory>
    requires valid { IsTrue (has_periods (database_of (commits_of snapshot.now)) table) }
    requires version { version ≤ (database_of (commits_of snapshot.now)).version }
    ensures events { let rows = rows_of (database_of (commits_of snapshot.now)) table in
        IfOk result (λ events. events ≡ valid_events_in rows version) }
    ensures steps { let db = database_of (commits_of snapshot.now) in
        let rows = rows_of db table in
        let e = place_of rows version - place_of rows (mark_before snapshot.now table version) in
        let w = words_for (length rows) in
        let s = binary_digits (length (ends_of rows db.version) + 1) in
        steps.new ≤ steps.old + (4 * e + w + 2 * s) }
{
    let events = snapshot.valid_events(alloc, table, version, steps)?;
    Ok(events)
}
