//! The events of valid time of the rows in a set, in order: chosen before they are put in order, or
//! left of a list of all.
ghost use Rattle.std.specs.Prelude.{◌≡◌, ◌+◌, ◌-◌, ◌*◌, ◌≤◌, ◌<◌, IsTrue, length, IfOk};
ghost use Rattle.std.specs.List.{All};
ghost use Rattle.tl_types.specs.Checkpoints.{valid_events_in};
ghost use Rattle.tl_types.specs.Entries.{commits_of};
ghost use Rattle.tl_types.specs.Events.{place_of};
ghost use Rattle.tl_types.specs.History.{database_of, rows_of};
ghost use Rattle.tl_events.specs.Timeline.{ends_of, binary_digits};
ghost use Rattle.tl_lanes.specs.Masks.{words_for};
ghost use Rattle.tl_store.specs.Reading.{has_periods};
ghost use Rattle.tl_index.specs.Snapshots.{mark_before};
ghost use Rattle.tl_app.specs.Parts.{kept_events};

use std::alloc::Global;
use std::sync::ledger::Ledger;
use tl_bits::RowSet;
use tl_ckpt::Choice;
use tl_index::Snapshot;
use tl_types::{NoMemory, Steps, ValidEvent};

/// The events of valid time of the rows of a table that stand at a version and are in a set, in
/// order. They are those of the nearest mark that is not after the version, corrected by the events
/// since; those of other rows are left out before they are put in order. The rows of the table have
/// valid periods, and the version is not after the snapshot's.
///
/// With e events from that mark's version up to this one, w begun 64s of rows, and as many versions
/// with events, and one more, as a number of s binary digits tells, it takes at most 3e + w + s
/// steps, also where it fails. The error is `NoMemory`.
pub(crate) fn events_kept_at<L: Ledger>(
    alloc: Global,
    snapshot: &Snapshot,
    table: u16,
    version: u32,
    keep: &RowSet,
    steps: &mut Steps<L>,
) -> Result<Vec<ValidEvent>, NoMemory>
    requires valid { IsTrue (has_periods (database_of (commits_of snapshot.now)) table) }
    requires version { version ≤ (database_of (commits_of snapshot.now)).version }
    ensures list { let rows = rows_of (database_of (commits_of snapshot.now)) table in
        IfOk result (λ list. list.items ≡ kept_events keep.now (valid_events_in rows version)) }
    ensures steps { let db = database_of (commits_of snapshot.now) in
        let rows = rows_of db table in
        let e = place_of rows version - place_of rows (mark_before snapshot.now table version) in
        let w = words_for (length keep.now) in
        let s = binary_digits (length (ends_of rows db.version) + 1) in
        steps.new ≤ steps.old + (3 * e + w + s) }
{
    let choice = Choice::of(alloc, keep, steps)?;
    let list = snapshot.valid_list(alloc, table, version, &choice, steps)?;
    Ok(list)
}

/// The events of the rows in a set, in order. It takes a step for each event, and no memory.
pub(crate) fn kept_events<L: Ledger>(
    events: Vec<ValidEvent>,
    keep: &RowSet,
    steps: &mut Steps<L>,
) -> Vec<ValidEvent>
    requires { All (λ event. event.row < length keep.now) events.items }
    ensures list { result.items ≡ kept_events keep.now events.items }
    ensures steps { steps.new ≤ steps.old + length events.items }
{
    let mut events = events;
    let mut kept = 0;
    for i in 0..events.len() {
        let event = events[i];
        if keep.test(event.row, steps) {
            events[kept] = event;
            kept += 1;
        }
    }
    events.truncate(kept);
    events
}
