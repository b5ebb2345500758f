//! Events by the value that their rows have in a column: each distinct value gets a number once,
//! and an event is dealt to the group of its value's number. Groups come in order of their values.
ghost use Rattle.std.specs.Prelude.{◌≡◌, ◌+◌, ◌-◌, ◌^◌, ◌≤◌, ◌<◌, ◌++◌, ◌∷◌, [], List, length, IfOk, OnOk};
ghost use Rattle.std.specs.List.{All, filter};
ghost use Rattle.tl_types.specs.declared.events.ValidEvent.{ValidEvent};
ghost use Rattle.tl_store.specs.Reading.{cell_shown, IsShort};
ghost use Rattle.tl_keys.specs.Keys.{AreApart};
ghost use Rattle.tl_app.specs.Groups.{column_rows, has_events, value_with, HasColumn, HasOneMore, AreDealt, IsDealt, AreGroupsOf};

use std::alloc::Global;
use std::sync::ledger::Ledger;
use tl_keys::Keys;
use tl_store::{CellRef, Store};
use tl_types::{Cell, NoMemory, Steps, ValidEvent};

/// The events of the rows that have one value in a column.
#[derive(Drop)]
pub(crate) struct KeyGroup {
    /// The value that the rows have in the column.
    pub key: Cell,
    /// The events of these rows, in order of time.
    pub events: Vec<ValidEvent>,
}

/// The column of a table by which events are dealt to groups.
#[derive(Clone, Copy)]
pub(crate) struct KeyColumn<'a> {
    /// The store that has the rows.
    pub store: &'a Store,
    /// The table's number: its place in the order of creation, from 0.
    pub table: u16,
    /// The place of the column, from 0.
    pub column: u8,
}

// A group without events, whose value is not known yet.
fn no_events(alloc: Global) -> KeyGroup
    ensures { result.events.items ≡ [] }
{
    KeyGroup {
        key: Cell::Int(0),
        events: Vec::new(alloc),
    }
}

// Whether the group has an event.
fn has_events(group: &KeyGroup) -> bool
    ensures { result ≡ has_events group.now }
{
    match group.events.as_slice() {
        [] => false,
        [..] => true,
    }
}

// One group more, where there are fewer than so many.
fn reach_number(alloc: Global, groups: &mut Vec<KeyGroup>, count: u32) -> Result<(), NoMemory>
    ensures more { OnOk result (length groups.old.items < count
        → HasOneMore groups.old.items groups.new.items) }
    ensures same { OnOk result (count ≤ length groups.old.items
        → groups.new.items ≡ groups.old.items) }
    ensures enough { OnOk result (count ≤ length groups.old.items + 1
        → count ≤ length groups.new.items) }
{
    if groups.len() < count as usize {
        groups.push(no_events(alloc))?;
    }
    Ok(())
}

// Gives a group without events its value.
fn name_group(alloc: Global, group: &mut KeyGroup, key: CellRef<'_>) -> Result<(), NoMemory>
    requires { IsShort key }
    ensures key { OnOk result (group.new.key ≡ value_with group.old (cell_shown key.entry)) }
    ensures events { OnOk result (group.new.events ≡ group.old.events) }
{
    if has_events(group) {
        return Ok(());
    }
    group.key = key.to_cell(alloc)?;
    Ok(())
}

// Puts an event behind those of its value's group.
fn put_event(
    alloc: Global,
    group: &mut KeyGroup,
    key: CellRef<'_>,
    event: ValidEvent,
) -> Result<(), NoMemory>
    requires { IsShort key }
    ensures key { OnOk result (group.new.key ≡ value_with group.old (cell_shown key.entry)) }
    ensures events { OnOk result
        (group.new.events.items ≡ group.old.events.items ++ event ∷ []) }
{
    name_group(alloc, group, key)?;
    group.events.push(event)?;
    Ok(())
}

// Deals one event more. It takes a step.
fn deal<'a, L: Ledger>(
    alloc: Global,
    by: &KeyColumn<'a>,
    keys: &mut Keys<'a>,
    groups: &mut Vec<KeyGroup>,
    event: ValidEvent,
    steps: &mut Steps<L>,
) -> Result<(), NoMemory>
    requires column { HasColumn by.now }
    requires row { event.row < length (column_rows by.now) }
    requires apart { AreApart keys.old }
    requires count { keys.old.count ≤ length groups.old.items }
    requires room { length groups.old.items + 1 < 2 ^ 32 }
    ensures dealt { OnOk result ((done : List ValidEvent)
        → AreDealt (column_rows by.now) by.now.column keys.old groups.old.items done
        → AreDealt (column_rows by.now) by.now.column keys.new groups.new.items
        (done ++ event ∷ [])) }
    ensures steps { steps.new ≡ steps.old + 1 }
{
    let key = by.store.cell(by.table, event.row, by.column, steps);
    let number = keys.number(key)?;
    reach_number(alloc, groups, keys.count())?;
    put_event(alloc, &mut groups[number as usize], key, event)?;
    Ok(())
}

// The groups to which the events are dealt, by the numbers of their values. It takes a step for
// each event.
fn dealt<L: Ledger>(
    alloc: Global,
    by: &KeyColumn<'_>,
    events: &[ValidEvent],
    steps: &mut Steps<L>,
) -> Result<Vec<KeyGroup>, NoMemory>
    requires column { HasColumn by.now }
    requires rows { All (λ event. event.row < length (column_rows by.now)) events.now }
    requires few { length events.now + 1 < 2 ^ 32 }
    ensures dealt { IfOk result (λ groups. IsDealt (column_rows by.now) by.now.column
        groups.items events.now) }
    ensures steps { steps.new ≤ steps.old + length events.now }
{
    let mut keys = Keys::none(alloc);
    let mut groups = Vec::new(alloc);
    for event in events {
        deal(alloc, by, &mut keys, &mut groups, *event, steps)?;
    }
    Ok(groups)
}

// The groups that have an event.
fn with_events(alloc: Global, groups: Vec<KeyGroup>) -> Result<Vec<KeyGroup>, NoMemory>
    ensures { IfOk result (λ kept. kept.items ≡ filter has_events groups.items) }
{
    let mut kept = Vec::with_capacity(alloc, groups.len())?;
    for group in groups {
        if has_events(&group) {
            kept.push(group)?;
        }
    }
    Ok(kept)
}

/// The events of each value that their rows have in the column, in order of the values, those of a
/// value in their order. It takes a step for each event. The error is `NoMemory`.
pub(crate) fn groups_of<L: Ledger>(
    alloc: Global,
    by: &KeyColumn<'_>,
    events: &[ValidEvent],
    steps: &mut Steps<L>,
) -> Result<Vec<KeyGroup>, NoMemory>
    requires column { HasColumn by.now }
    requires rows { All (λ event. event.row < length (column_rows by.now)) events.now }
    requires few { length events.now + 1 < 2 ^ 32 }
    ensures groups { IfOk result (λ groups. AreGroupsOf (column_rows by.now) by.now.column
        events.now groups.items) }
    ensures steps { steps.new ≤ steps.old + length events.now }
{
    let all = dealt(alloc, by, events, steps)?;
    let mut groups = with_events(alloc, all)?;
    groups.sort_by(|first, second| first.key.cmp(&second.key))?;
    Ok(groups)
}
