//! How the events of valid time of a table change from one version to a later one: both ends of
//! the period of each chosen row that stands at one of the two alone. Rows that came and went
//! between them change nothing.
ghost use Rattle.std.specs.Prelude.{◌≡◌, ℕ, ◌+◌, ◌*◌, ◌≤◌, ◌<◌, ◌++◌, IsTrue, length, drop, take, IfOk, OnOk, All, Some, option_map, slice_get};
ghost use Rattle.std.specs.List.{flat_map};
ghost use Rattle.tl_types.specs.Plain as plain;
ghost use Rattle.tl_types.specs.History.{is_visible};
ghost use Rattle.tl_types.specs.Checkpoints.{ends_of, valid_events_in};
ghost use Rattle.tl_types.specs.Walks.{events_between};
ghost use Rattle.tl_store.specs.Reading.{has_periods};
ghost use Rattle.tl_ckpt.specs.Choices.{chosen};
ghost use Rattle.tl_ckpt.specs.Valid.{Rises, merged};
ghost use Rattle.tl_index.specs.Tables.{rows_in};
ghost use Rattle.tl_index.specs.Changes.{differs, change_of, chosen_change_of, IsLapseOf};

use crate::tables::TimedTable;
use std::alloc::Global;
use std::sync::ledger::Ledger;
use tl_ckpt::Choice;
use tl_events::PackedEvent;
use tl_types::{Event, NoMemory, Period, Steps, ValidEvent};

/// What lies between two versions of a table: the older and the newer one, and the places at which
/// their events end.
#[derive(Clone, Copy)]
pub(crate) struct Lapse {
    /// The older version: the number of commits that it stands for, from 0.
    pub old: u32,
    /// How many events there are up to it.
    pub from: u32,
    /// The newer version, which is the older one or a later one.
    pub new: u32,
    /// How many events there are up to it.
    pub to: u32,
}

// Whether a row that stands at versions from one on and before another stands at this one.
fn is_between(from: u32, version: u32, to: u32) -> bool
    ensures { (row : plain.Row) → row.from ≡ from → row.to ≡ to → result ≡ is_visible version row }
{
    from <= version && version < to
}

// Whether the row stands at one of the two versions alone.
fn differs<L: Ledger>(table: &TimedTable<'_>, row: u32, lapse: &Lapse, steps: &mut Steps<L>) -> bool
    requires { row < length (rows_in table.now) }
    ensures value { Some result
        ≡ option_map (differs lapse.now.old lapse.now.new) (slice_get (rows_in table.now) row) }
    ensures steps { steps.new ≡ steps.old + 1 }
{
    let period = table.period_at(row, steps);
    is_between(period.from, lapse.old, period.to) != is_between(period.from, lapse.new, period.to)
}

// Puts both ends of the period behind the events.
fn push_ends(ends: &mut Vec<ValidEvent>, row: u32, period: Period) -> Result<(), NoMemory>
    ensures { OnOk result (ends.new.items ≡ ends.old.items ++ ends_of row (Some period)) }
{
    ends.push(ValidEvent {
        time: period.from(),
        opens: true,
        row,
    })?;
    ends.push(ValidEvent {
        time: period.to(),
        opens: false,
        row,
    })?;
    Ok(())
}

// Puts both ends of the period of the event's row behind the others, where it stands at one of
// the two versions alone.
fn push_change<L: Ledger>(
    changes: &mut Vec<ValidEvent>,
    table: &TimedTable<'_>,
    event: Event,
    lapse: &Lapse,
    steps: &mut Steps<L>,
) -> Result<(), NoMemory>
    requires row { event.row < length (rows_in table.now) }
    requires valid { IsTrue (has_periods table.now.db table.now.number) }
    ensures list { OnOk result (changes.new.items ≡ changes.old.items
        ++ change_of (rows_in table.now) lapse.now.old lapse.now.new event) }
    ensures steps { steps.new ≤ steps.old + 2 }
{
    if differs(table, event.row, lapse, steps) {
        let period = table.valid_at(event.row, steps);
        push_ends(changes, event.row, period)?;
    }
    Ok(())
}

// The same where the event's row is chosen.
fn push_chosen<L: Ledger>(
    changes: &mut Vec<ValidEvent>,
    table: &TimedTable<'_>,
    event: Event,
    lapse: &Lapse,
    choice: &Choice,
    steps: &mut Steps<L>,
) -> Result<(), NoMemory>
    requires row { event.row < length (rows_in table.now) }
    requires valid { IsTrue (has_periods table.now.db table.now.number) }
    ensures list { OnOk result (changes.new.items ≡ changes.old.items
        ++ chosen_change_of choice.now (rows_in table.now) lapse.now.old lapse.now.new event) }
    ensures steps { steps.new ≤ steps.old + 2 }
{
    if choice.has(event.row) {
        push_change(changes, table, event, lapse, steps)?;
    }
    Ok(())
}

// The same for each event of a run.
fn push_changes<L: Ledger>(
    changes: &mut Vec<ValidEvent>,
    table: &TimedTable<'_>,
    events: &[PackedEvent],
    lapse: &Lapse,
    choice: &Choice,
    steps: &mut Steps<L>,
) -> Result<(), NoMemory>
    requires rows { All (λ event. event.row < length (rows_in table.now)) events.now }
    requires valid { IsTrue (has_periods table.now.db table.now.number) }
    ensures list { OnOk result (changes.new.items ≡ changes.old.items
        ++ flat_map (chosen_change_of choice.now (rows_in table.now) lapse.now.old lapse.now.new)
        events.now) }
    ensures steps { steps.new ≤ steps.old + 2 * length events.now }
{
    for packed in events {
        push_chosen(changes, table, packed.event(), lapse, choice, steps)?;
    }
    Ok(())
}

// The ends of the periods of the chosen rows of the events of a lapse that stand at one of its
// versions alone.
fn changes_of<L: Ledger>(
    alloc: Global,
    table: &TimedTable<'_>,
    lapse: &Lapse,
    choice: &Choice,
    steps: &mut Steps<L>,
) -> Result<Vec<ValidEvent>, NoMemory>
    requires lapse { IsLapseOf table.now lapse.now }
    requires valid { IsTrue (has_periods table.now.db table.now.number) }
    ensures list { IfOk result (λ changes. changes.items
        ≡ flat_map (chosen_change_of choice.now (rows_in table.now) lapse.now.old lapse.now.new)
        (events_between (rows_in table.now) lapse.now.old lapse.now.new)) }
    ensures steps { steps.new + 3 * lapse.now.from ≤ steps.old + 3 * lapse.now.to }
{
    let events = table.events();
    let mut changes = Vec::new(alloc);
    let mut at = lapse.from;
    'runs: while at < lapse.to {
        let run = events.run(at, lapse.to, steps);
        push_changes(&mut changes, table, run, lapse, choice, steps)?;
        at += run.len() as u32;
    }
    Ok(changes)
}

// The changes of chosen rows from a version to a later one, in order: with them their events at the
// one are those at the other. It reads the versions of the row of each event between them that is
// of a chosen row, and the valid period of such a row that stands at one of the two versions alone.
pub(crate) fn changes_between<L: Ledger>(
    alloc: Global,
    table: &TimedTable<'_>,
    lapse: &Lapse,
    choice: &Choice,
    steps: &mut Steps<L>,
) -> Result<Vec<ValidEvent>, NoMemory>
    requires lapse { IsLapseOf table.now lapse.now }
    requires valid { IsTrue (has_periods table.now.db table.now.number) }
    ensures rises { IfOk result (λ changes. Rises changes.items) }
    ensures chosen { IfOk result (λ changes. chosen choice.now changes.items ≡ changes.items) }
    ensures lead { IfOk result (λ changes.
        merged (chosen choice.now (valid_events_in (rows_in table.now) lapse.now.old)) changes.items
        ≡ chosen choice.now (valid_events_in (rows_in table.now) lapse.now.new)) }
    ensures steps { steps.new + 3 * lapse.now.from ≤ steps.old + 3 * lapse.now.to }
{
    let mut changes = changes_of(alloc, table, lapse, choice, steps)?;
    changes.sort_unstable();
    changes.dedup();
    Ok(changes)
}
