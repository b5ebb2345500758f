//! The events of valid time of a table at a version, all of them or those of chosen rows: those of
//! a mark with the changes since, or the changes from the first event on.
ghost use Rattle.std.specs.Prelude.{◌≡◌, ◌+◌, ◌*◌, ◌≤◌, IsTrue, IfOk};
ghost use Rattle.tl_types.specs.Checkpoints.{checkpoint_at, valid_events_in};
ghost use Rattle.tl_types.specs.Events.{place_of};
ghost use Rattle.tl_store.specs.Reading.{has_periods};
ghost use Rattle.tl_ckpt.specs.Choices.{chosen};
ghost use Rattle.tl_ckpt.specs.Valid.{Rises, merged};
ghost use Rattle.tl_index.specs.Tables.{rows_in, search_steps};
ghost use Rattle.tl_index.specs.Changes.{IsLapseOf};

use crate::changes::{Lapse, changes_between};
use crate::tables::TimedTable;
use std::alloc::Global;
use std::sync::ledger::Ledger;
use tl_ckpt::{Checkpoint, Choice, ValidEvents};
use tl_types::{NoMemory, Steps, ValidEvent};

// The lapse from the version of a mark to one that is not before it.
fn lapse_after<L: Ledger>(
    table: &TimedTable<'_>,
    mark: &Checkpoint,
    version: u32,
    steps: &mut Steps<L>,
) -> Lapse
    requires version { version ≤ table.now.db.version }
    requires before { mark.now.version ≤ version }
    requires mark { mark.now ≡ checkpoint_at table.now.db table.now.number mark.now.version }
    ensures lapse { IsLapseOf table.now result }
    ensures old { result.old ≡ mark.now.version }
    ensures new { result.new ≡ version }
    ensures valid { IsTrue (has_periods table.now.db table.now.number)
        → mark.now.valid_events ≡ valid_events_in (rows_in table.now) mark.now.version }
    ensures steps { steps.new ≤ steps.old + search_steps table.now }
{
    let _ = table.rows(); // says that the table is there
    Lapse {
        old: mark.version(),
        from: mark.place(),
        new: version,
        to: table.place(version, steps),
    }
}

// The changes of the events of valid time of chosen rows from a mark to a version that is not
// before it.
fn changes_after<L: Ledger>(
    alloc: Global,
    table: &TimedTable<'_>,
    mark: &Checkpoint,
    version: u32,
    choice: &Choice,
    steps: &mut Steps<L>,
) -> Result<Vec<ValidEvent>, NoMemory>
    requires version { version ≤ table.now.db.version }
    requires valid { IsTrue (has_periods table.now.db table.now.number) }
    requires before { mark.now.version ≤ version }
    requires mark { mark.now ≡ checkpoint_at table.now.db table.now.number mark.now.version }
    ensures rises { IfOk result (λ changes. Rises changes.items) }
    ensures chosen { IfOk result (λ changes. chosen choice.now changes.items ≡ changes.items) }
    ensures lead { IfOk result (λ changes.
        merged (chosen choice.now mark.now.valid_events) changes.items
        ≡ chosen choice.now (valid_events_in (rows_in table.now) version)) }
    ensures steps { steps.new + 3 * place_of (rows_in table.now) mark.now.version
        ≤ steps.old + 3 * place_of (rows_in table.now) version + search_steps table.now }
{
    let lapse = lapse_after(table, mark, version, steps);
    let changes = changes_between(alloc, table, &lapse, choice, steps)?;
    Ok(changes)
}

/// The events of valid time at a version, from those of a mark that is not after it.
pub(crate) fn events_after<L: Ledger>(
    alloc: Global,
    table: &TimedTable<'_>,
    mark: &Checkpoint,
    version: u32,
    steps: &mut Steps<L>,
) -> Result<ValidEvents, NoMemory>
    requires version { version ≤ table.now.db.version }
    requires valid { IsTrue (has_periods table.now.db table.now.number) }
    requires before { mark.now.version ≤ version }
    requires mark { mark.now ≡ checkpoint_at table.now.db table.now.number mark.now.version }
    ensures events { IfOk result (λ events. events
        ≡ valid_events_in (rows_in table.now) version) }
    ensures steps { steps.new + 3 * place_of (rows_in table.now) mark.now.version
        ≤ steps.old + 3 * place_of (rows_in table.now) version + search_steps table.now }
{
    let all = Choice::all(alloc);
    let changes = changes_after(alloc, table, mark, version, &all, steps)?;
    let events = mark.valid_events().with_changes(alloc, changes)?;
    Ok(events)
}

/// Those of chosen rows as one list.
pub(crate) fn list_after<L: Ledger>(
    alloc: Global,
    table: &TimedTable<'_>,
    mark: &Checkpoint,
    version: u32,
    choice: &Choice,
    steps: &mut Steps<L>,
) -> Result<Vec<ValidEvent>, NoMemory>
    requires version { version ≤ table.now.db.version }
    requires valid { IsTrue (has_periods table.now.db table.now.number) }
    requires before { mark.now.version ≤ version }
    requires mark { mark.now ≡ checkpoint_at table.now.db table.now.number mark.now.version }
    ensures list { IfOk result (λ list. list.items
        ≡ chosen choice.now (valid_events_in (rows_in table.now) version)) }
    ensures steps { steps.new + 3 * place_of (rows_in table.now) mark.now.version
        ≤ steps.old + 3 * place_of (rows_in table.now) version + search_steps table.now }
{
    let changes = changes_after(alloc, table, mark, version, choice, steps)?;
    let list = mark.valid_events().list_with(alloc, changes, choice)?;
    Ok(list)
}

/// The events of valid time of chosen rows at a version as one list, from the first event of the
/// table on.
pub(crate) fn list_from_first<L: Ledger>(
    alloc: Global,
    table: &TimedTable<'_>,
    version: u32,
    choice: &Choice,
    steps: &mut Steps<L>,
) -> Result<Vec<ValidEvent>, NoMemory>
    requires version { version ≤ table.now.db.version }
    requires valid { IsTrue (has_periods table.now.db table.now.number) }
    ensures rises { IfOk result (λ list. Rises list.items) }
    ensures list { IfOk result (λ list. list.items
        ≡ chosen choice.now (valid_events_in (rows_in table.now) version)) }
    ensures steps { steps.new
        ≤ steps.old + 3 * place_of (rows_in table.now) version + search_steps table.now }
{
    let _ = table.events(); // says that the rows are those of a history
    let to = table.place(version, steps);
    let lapse = Lapse {
        old: 0,
        from: 0,
        new: version,
        to,
    };
    let changes = changes_between(alloc, table, &lapse, choice, steps)?;
    Ok(changes)
}

/// The events of valid time at a version, from the first event of the table on.
pub(crate) fn events_from_first<L: Ledger>(
    alloc: Global,
    table: &TimedTable<'_>,
    version: u32,
    steps: &mut Steps<L>,
) -> Result<ValidEvents, NoMemory>
    requires version { version ≤ table.now.db.version }
    requires valid { IsTrue (has_periods table.now.db table.now.number) }
    ensures events { IfOk result (λ events. events
        ≡ valid_events_in (rows_in table.now) version) }
    ensures steps { steps.new
        ≤ steps.old + 3 * place_of (rows_in table.now) version + search_steps table.now }
{
    let all = Choice::all(alloc);
    let list = list_from_first(alloc, table, version, &all, steps)?;
    let events = ValidEvents::none(alloc).with_changes(alloc, list)?;
    Ok(events)
}
