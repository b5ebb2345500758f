//! One side of a join over valid time: an entry for each event that begins the period of a row that
//! passes, unless the plan's range has no moment of it.
ghost use Rattle.std.specs.Prelude.{◌≡◌, ◌+◌, ◌*◌, ◌<◌, ◌≤◌, ◌^◌, ◌++◌, All, IsTrue, Some, length, IfOk, OnOk};
ghost use Rattle.std.specs.Option.{option_to_list};
ghost use Rattle.tl_types.specs.declared.events.ValidEvent.{ValidEvent};
ghost use Rattle.tl_types.specs.Checkpoints.{AreEventsOf};
ghost use Rattle.tl_types.specs.Entries.{commits_of};
ghost use Rattle.tl_types.specs.History.{database_of, rows_of};
ghost use Rattle.tl_store.specs.Reading.{cell_of, columns_of, has_periods};
ghost use Rattle.tl_keys.specs.Keys.{AreApart, KeepsNumbers, number_at};
ghost use Rattle.tl_join.specs.ValidEntries.{begins_kept};
ghost use Rattle.tl_join.specs.ValidSides.{IsSide, IsRowEntry, IsEventEntry, AreEntries, side_rows};

use crate::entries::Entry;
use std::alloc::Global;
use std::sync::ledger::Ledger;
use tl_bits::RowSet;
use tl_ckpt::ValidEvents;
use tl_index::Snapshot;
use tl_keys::Keys;
use tl_query::JoinPlan;
use tl_store::Store;
use tl_types::{NoMemory, Steps, ValidEvent};

/// One side of a join: the table, the column whose cells are compared, and the rows that may stand
/// in a pair.
#[derive(Clone, Copy)]
pub(crate) struct Side<'a> {
    /// The store that has the rows.
    pub store: &'a Store,
    /// The table's number: its place in the order of creation, from 0.
    pub table: u16,
    /// The place of the column, from 0.
    pub column: u8,
    /// The rows that pass.
    pub keep: &'a RowSet,
}

/// The side of a table of a snapshot.
pub(crate) fn side_of<'a>(
    snapshot: &'a Snapshot,
    table: u16,
    column: u8,
    keep: &'a RowSet,
) -> Side<'a>
    requires periods { IsTrue (has_periods (database_of (commits_of snapshot.now)) table) }
    requires column { column < length
        (columns_of (database_of (commits_of snapshot.now)) table) }
    requires keep { length keep.now
        ≡ length (rows_of (database_of (commits_of snapshot.now)) table) }
    ensures side { IsSide result }
    ensures store { result.store.now ≡ commits_of snapshot.now }
    ensures table { result.table ≡ table }
    ensures column { result.column ≡ column }
    ensures keep { result.keep.now ≡ keep.now }
{
    Side {
        store: snapshot.store(),
        table,
        column,
        keep,
    }
}

// Whether an event begins the period of a row in the set. It takes at most one step.
fn begins_kept<L: Ledger>(event: ValidEvent, keep: &RowSet, steps: &mut Steps<L>) -> bool
    requires { event.row < length keep.now }
    ensures kept { result ≡ begins_kept keep.now event }
    ensures steps { steps.new ≤ steps.old + 1 }
{
    if !event.opens {
        return false;
    }
    keep.test(event.row, steps)
}

// The number of a row's key. It takes one step. The error is `NoMemory`.
fn key_number<'a, L: Ledger>(
    side: &Side<'a>,
    id: u32,
    keys: &mut Keys<'a>,
    steps: &mut Steps<L>,
) -> Result<u32, NoMemory>
    requires side { IsSide side.now }
    requires row { id < length (side_rows side.now) }
    requires apart { AreApart keys.old }
    requires room { keys.old.count + 1 < 2 ^ 32 }
    ensures number { IfOk result (λ n. number_at keys.new
        (cell_of (database_of side.now.store.now) side.now.table id side.now.column) ≡ Some n) }
    ensures apart { OnOk result (AreApart keys.new) }
    ensures kept { OnOk result (KeepsNumbers keys.old keys.new) }
    ensures count { OnOk result (keys.new.count ≤ keys.old.count + 1) }
    ensures steps { steps.new ≤ steps.old + 1 }
{
    let key = side.store.cell(side.table, id, side.column, steps);
    let code = keys.number(key)?;
    Ok(code)
}

// What a row's period and the plan's range have in common, with the number of its key, where that
// is not empty. It takes at most two steps. The error is `NoMemory`.
fn row_entry<'a, L: Ledger>(
    side: &Side<'a>,
    plan: &JoinPlan,
    id: u32,
    keys: &mut Keys<'a>,
    steps: &mut Steps<L>,
) -> Result<Option<Entry>, NoMemory>
    requires side { IsSide side.now }
    requires row { id < length (side_rows side.now) }
    requires apart { AreApart keys.old }
    requires room { keys.old.count + 1 < 2 ^ 32 }
    ensures entry { IfOk result (IsRowEntry side.now plan.now keys.new id) }
    ensures apart { OnOk result (AreApart keys.new) }
    ensures kept { OnOk result (KeepsNumbers keys.old keys.new) }
    ensures count { OnOk result (keys.new.count ≤ keys.old.count + 1) }
    ensures steps { steps.new ≤ steps.old + 2 }
{
    let period = side.store.valid_at(side.table, id, steps);
    let begin = period.from().max(plan.from);
    let end = period.to().min(plan.to);
    let lasts = begin < end;
    if !lasts {
        return Ok(None);
    }
    let code = key_number(side, id, keys, steps)?;
    Ok(Some(Entry {
        id,
        code,
        begin,
        end,
    }))
}

// What the row of an event has of the plan's range, where the event begins its period and the row
// passes. It takes at most three steps. The error is `NoMemory`.
fn event_entry<'a, L: Ledger>(
    side: &Side<'a>,
    plan: &JoinPlan,
    event: ValidEvent,
    keys: &mut Keys<'a>,
    steps: &mut Steps<L>,
) -> Result<Option<Entry>, NoMemory>
    requires side { IsSide side.now }
    requires row { event.row < length (side_rows side.now) }
    requires apart { AreApart keys.old }
    requires room { keys.old.count + 1 < 2 ^ 32 }
    ensures entry { IfOk result (IsEventEntry side.now plan.now keys.new event) }
    ensures apart { OnOk result (AreApart keys.new) }
    ensures kept { OnOk result (KeepsNumbers keys.old keys.new) }
    ensures count { OnOk result (keys.new.count ≤ keys.old.count + 1) }
    ensures steps { steps.new ≤ steps.old + 3 }
{
    let begins = begins_kept(event, side.keep, steps);
    if !begins {
        return Ok(None);
    }
    let entry = row_entry(side, plan, event.row, keys, steps)?;
    Ok(entry)
}

// Appends the entry, where there is one.
fn push_some(entries: &mut Vec<Entry>, entry: Option<Entry>) -> Result<(), NoMemory>
    ensures { OnOk result (entries.new.items ≡ entries.old.items ++ option_to_list entry) }
{
    match entry {
        Some(entry) => {
            entries.push(entry)?;
            Ok(())
        }
        None => Ok(()),
    }
}

// The entries of these events, in their order. It takes at most three steps for each. The error is
// `NoMemory`.
fn entries_of<'a, L: Ledger>(
    alloc: Global,
    side: &Side<'a>,
    plan: &JoinPlan,
    events: &[ValidEvent],
    keys: &mut Keys<'a>,
    steps: &mut Steps<L>,
) -> Result<Vec<Entry>, NoMemory>
    requires side { IsSide side.now }
    requires rows { All (λ (e : ValidEvent). e.row < length (side_rows side.now)) events.now }
    requires apart { AreApart keys.old }
    requires room { keys.old.count + length events.now + 1 < 2 ^ 32 }
    ensures entries { IfOk result
        (λ entries. AreEntries side.now plan.now keys.new events.now entries.items) }
    ensures apart { OnOk result (AreApart keys.new) }
    ensures kept { OnOk result (KeepsNumbers keys.old keys.new) }
    ensures count { OnOk result (keys.new.count ≤ keys.old.count + length events.now) }
    ensures steps { steps.new ≤ steps.old + 3 * length events.now }
{
    let mut entries = Vec::new(alloc);
    for event in events {
        let entry = event_entry(side, plan, *event, keys, steps)?;
        push_some(&mut entries, entry)?;
    }
    Ok(entries)
}

/// The entries of the events of the side's rows at a version, in their order. It takes at most
/// three steps for each. The error is `NoMemory`. A side has at most 33,554,432 events, two
/// for each of 16,777,216 rows, and so many keys.
pub(crate) fn side_entries<'a, L: Ledger>(
    alloc: Global,
    side: &Side<'a>,
    plan: &JoinPlan,
    events: &ValidEvents,
    keys: &mut Keys<'a>,
    steps: &mut Steps<L>,
) -> Result<Vec<Entry>, NoMemory>
    requires side { IsSide side.now }
    requires events { AreEventsOf (side_rows side.now) events.now }
    requires apart { AreApart keys.old }
    requires room { keys.old.count ≤ 33554432 }
    ensures entries { IfOk result
        (λ entries. AreEntries side.now plan.now keys.new events.now entries.items) }
    ensures apart { OnOk result (AreApart keys.new) }
    ensures kept { OnOk result (KeepsNumbers keys.old keys.new) }
    ensures count { OnOk result (keys.new.count ≤ keys.old.count + 33554432) }
    ensures steps { steps.new ≤ steps.old + 3 * length events.now }
{
    let _rows = side.store.rows(side.table); // says that rows are few
    let list = events.list(alloc)?;
    let entries = entries_of(alloc, side, plan, &list, keys, steps)?;
    Ok(entries)
}
