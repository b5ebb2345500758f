//! One side of a join over a piece of versions: the rows that are there, each as an entry with what
//! its versions and the plan's range have in common, and the number of its key.
ghost use Rattle.std.specs.Prelude.{◌≡◌, ◌+◌, ◌-◌, ◌*◌, ◌<◌, ◌≤◌, ◌^◌, All, length, IfOk, OnOk};
ghost use Rattle.std.specs.List.{AllByRecursion};
ghost use Rattle.tl_types.specs.Entries.{commits_of};
ghost use Rattle.tl_types.specs.History.{database_of, rows_of};
ghost use Rattle.tl_store.specs.Reading.{columns_of};
ghost use Rattle.tl_keys.specs.Keys.{AreApart, KeepsNumbers};
ghost use Rattle.tl_join.specs.Sides.{IsSide, IsEntryOf, ids_in, side_rows, last_in};
ghost use Rattle.tl_join.specs.There.{ids_there, side_bound, there_bound};

use crate::entries::Entry;
use crate::there::{add_opened, start_ids};
use std::alloc::Global;
use std::sync::ledger::Ledger;
use tl_bits::RowSet;
use tl_events::{EventList, VersionMap};
use tl_index::Snapshot;
use tl_keys::Keys;
use tl_query::JoinPlan;
use tl_store::Store;
use tl_types::{NoMemory, Piece, Steps};

/// One side of a join: the table with its timeline, the column whose cells are compared, the rows
/// that stand at the piece's first version, and the rows that may stand in a pair.
#[derive(Clone, Copy)]
pub(crate) struct Side<'a> {
    /// The store that has the rows.
    pub store: &'a Store,
    /// The table's number: its place in the order of creation, from 0.
    pub table: u16,
    /// The place of the column, from 0.
    pub column: u8,
    /// The table's events, version by version: its rows begin to stand, or end.
    pub events: &'a EventList,
    /// The versions that have events, with where these end.
    pub ends: &'a VersionMap,
    /// The rows that stand at the piece's first version and pass.
    pub start: &'a RowSet,
    /// The rows that pass.
    pub keep: &'a RowSet,
}

/// The side of a table of a snapshot.
pub(crate) fn side_of<'a>(
    snapshot: &'a Snapshot,
    table: u16,
    column: u8,
    start: &'a RowSet,
    keep: &'a RowSet,
) -> Side<'a>
    requires table { table < length (database_of (commits_of snapshot.now)).tables }
    requires column { column < length
        (columns_of (database_of (commits_of snapshot.now)) table) }
    requires start { length start.now
        ≡ length (rows_of (database_of (commits_of snapshot.now)) table) }
    requires keep { length keep.now
        ≡ length (rows_of (database_of (commits_of snapshot.now)) table) }
    ensures side { IsSide result }
    ensures store { result.store.now ≡ commits_of snapshot.now }
    ensures table { result.table ≡ table }
    ensures column { result.column ≡ column }
    ensures start { result.start.now ≡ start.now }
    ensures keep { result.keep.now ≡ keep.now }
{
    Side {
        store: snapshot.store(),
        table,
        column,
        events: snapshot.events(table),
        ends: snapshot.version_map(table),
        start,
        keep,
    }
}

// The ids of the rows that are there in the piece. The error is `NoMemory`.
fn there_ids<L: Ledger>(
    alloc: Global,
    side: &Side,
    piece: Piece,
    steps: &mut Steps<L>,
) -> Result<Vec<u32>, NoMemory>
    requires side { IsSide side.now }
    requires versions { piece.to ≤ last_in side.now + 1 }
    ensures ids { IfOk result (λ ids. ids.items ≡ ids_there (side_rows side.now) (last_in side.now)
        piece.from piece.to side.now.start.now side.now.keep.now) }
    ensures steps { steps.new ≤ steps.old + there_bound (side_rows side.now) (last_in side.now)
        piece.from piece.to side.now.start.now }
{
    let first = side.ends.end_of(piece.from, steps);
    let last = side.ends.end_of(piece.to - 1, steps);
    let mut ids = start_ids(alloc, side.start, steps)?;
    add_opened(&mut ids, side.events, first, last, side.keep, steps)?;
    Ok(ids)
}

// What a row has of the plan's range, with the number of its key. It takes two steps. The error is
// `NoMemory`.
fn entry_of<'a, L: Ledger>(
    side: &Side<'a>,
    plan: &JoinPlan,
    id: u32,
    keys: &mut Keys<'a>,
    steps: &mut Steps<L>,
) -> Result<Entry, NoMemory>
    requires side { IsSide side.now }
    requires row { id < length (side_rows side.now) }
    requires apart { AreApart keys.old }
    requires room { keys.old.count + 1 < 2 ^ 32 }
    ensures id { IfOk result (λ entry. entry.id ≡ id) }
    ensures entry { IfOk result (IsEntryOf side.now plan.now keys.new) }
    ensures apart { OnOk result (AreApart keys.new) }
    ensures kept { OnOk result (KeepsNumbers keys.old keys.new) }
    ensures count { OnOk result (keys.new.count ≤ keys.old.count + 1) }
    ensures steps { steps.new ≤ steps.old + 2 }
{
    let period = side.store.period_at(side.table, id, steps);
    let key = side.store.cell(side.table, id, side.column, steps);
    let code = keys.number(key)?;
    Ok(Entry {
        id,
        code,
        begin: i64::from(period.from).max(plan.from),
        end: i64::from(period.to).min(plan.to),
    })
}

// The entries of these rows, in their order. It takes two steps for each. The error is `NoMemory`.
fn entries_of<'a, L: Ledger>(
    alloc: Global,
    side: &Side<'a>,
    plan: &JoinPlan,
    ids: &[u32],
    keys: &mut Keys<'a>,
    steps: &mut Steps<L>,
) -> Result<Vec<Entry>, NoMemory>
    requires side { IsSide side.now }
    requires rows { All (λ id. id < length (side_rows side.now)) ids.now }
    requires apart { AreApart keys.old }
    requires room { keys.old.count + length ids.now + 1 < 2 ^ 32 }
    ensures ids { IfOk result (λ entries. ids_in entries.items ≡ ids.now) }
    ensures entries { IfOk result
        (λ entries. AllByRecursion (IsEntryOf side.now plan.now keys.new) entries.items) }
    ensures apart { OnOk result (AreApart keys.new) }
    ensures kept { OnOk result (KeepsNumbers keys.old keys.new) }
    ensures count { OnOk result (keys.new.count ≤ keys.old.count + length ids.now) }
    ensures steps { steps.new ≤ steps.old + 2 * length ids.now }
{
    let mut entries = Vec::new(alloc);
    for id in ids {
        let entry = entry_of(side, plan, *id, keys, steps)?;
        entries.push(entry)?;
    }
    Ok(entries)
}

/// The entries of the rows that are there in the piece, in order of id. The error is `NoMemory`.
pub(crate) fn side_entries<'a, L: Ledger>(
    alloc: Global,
    side: &Side<'a>,
    plan: &JoinPlan,
    piece: Piece,
    keys: &mut Keys<'a>,
    steps: &mut Steps<L>,
) -> Result<Vec<Entry>, NoMemory>
    requires side { IsSide side.now }
    requires versions { piece.to ≤ last_in side.now + 1 }
    requires apart { AreApart keys.old }
    requires room { keys.old.count ≤ 50331648 }
    ensures ids { IfOk result (λ entries. ids_in entries.items
        ≡ ids_there (side_rows side.now) (last_in side.now) piece.from piece.to
        side.now.start.now side.now.keep.now) }
    ensures entries { IfOk result
        (λ entries. AllByRecursion (IsEntryOf side.now plan.now keys.new) entries.items) }
    ensures apart { OnOk result (AreApart keys.new) }
    ensures kept { OnOk result (KeepsNumbers keys.old keys.new) }
    ensures count { OnOk result (keys.new.count ≤ keys.old.count + 50331648) }
    ensures steps { steps.new ≤ steps.old + side_bound (side_rows side.now) (last_in side.now)
        piece.from piece.to side.now.start.now }
{
    let _rows = side.store.rows(side.table); // says that rows are few
    let ids = there_ids(alloc, side, piece, steps)?;
    let entries = entries_of(alloc, side, plan, &ids, keys, steps)?;
    Ok(entries)
}
