//! How the ids by key of a table follow a change of it: those of the opened rows are added, and
//! those of the closed rows taken away. Without memory all ids stay as they were.
ghost use Rattle.std.specs.Prelude.{◌≡◌, ◌||◌, ◌&&◌, not, ◌+◌, ◌<◌, ◌≤◌, ◌^◌, ℕ, true, false, OnOk, OnErr, IfOk, All, length, slice_get};
ghost use Rattle.tl_types.specs.declared.cells.Cell.{Cell};
ghost use Rattle.tl_types.specs.History.{database_of, rows_of, has_id};
ghost use Rattle.tl_store.specs.Reading.{columns_of, IsIntColumn};
ghost use Rattle.tl_batch.specs.ClosedRows.{AreKnown, closes_number, has_closed, has_keyed};
ghost use Rattle.tl_batch.specs.KeyIndex.{has_row};
ghost use Rattle.tl_batch.specs.Standing.{has_key, opens_with};

use crate::key_index::KeyIndex;
use std::alloc::Global;
use std::marker::Brand;
use std::sync::ledger::{Blank, Ledger};
use tl_store::{IntsRef, Store};
use tl_types::{Cell, Change, Column, ColumnKind, NoMemory, Opened, Steps};

/// A row that is closed: its key, and its id.
#[derive(Drop)]
pub(crate) struct KeyedRow {
    key: Cell,
    id: u32,
}

/// The keys of the rows that a change closes.
#[derive(Drop)]
pub(crate) enum ClosedKeys<'a> {
    /// The numbers of all rows of the table.
    Numbers(IntsRef<'a>),
    /// The closed rows, each with its key.
    Keyed(Vec<KeyedRow>),
}

// As `closed_rows`, by a ledger of its caller's.
fn closed_from<L: Ledger>(
    alloc: Global,
    store: &Store,
    change: &Change,
    place: u8,
    blank: Blank,
) -> Result<Vec<KeyedRow>, NoMemory>
    requires name { blank.name ≡ L.name }
    requires parts { blank.parts ≡ L.parts }
    requires some { 0 < blank.parts }
    requires rows { All (λ id. id < length (rows_of (database_of store.now) change.now.table))
        change.now.closes }
    requires column { place < length (columns_of (database_of store.now) change.now.table) }
    ensures { IfOk result (λ closed. (x : Cell) (n : ℕ) → has_keyed closed.items x n
        ≡ (has_id change.now.closes n && has_key place x
        (slice_get (rows_of (database_of store.now) change.now.table) n))) }
{
    let mut steps = Steps::<L>::new(blank);
    let mut closed = Vec::new(alloc);
    for id in change.closes() {
        let cell = store.cell(change.table(), *id, place, &mut steps);
        let key = cell.to_cell(alloc)?;
        closed.push(KeyedRow { key, id: *id })?;
    }
    Ok(closed)
}

// The rows that a change of a table closes; the key stands at a place among the cells. The error is
// `NoMemory`.
fn closed_rows(
    alloc: Global,
    store: &Store,
    change: &Change,
    place: u8,
) -> Result<Vec<KeyedRow>, NoMemory>
    requires rows { All (λ id. id < length (rows_of (database_of store.now) change.now.table))
        change.now.closes }
    requires column { place < length (columns_of (database_of store.now) change.now.table) }
    ensures { IfOk result (λ closed. (x : Cell) (n : ℕ) → has_keyed closed.items x n
        ≡ (has_id change.now.closes n && has_key place x
        (slice_get (rows_of (database_of store.now) change.now.table) n))) }
{
    closed_from::<Brand>(alloc, store, change, place, Blank::new(1))
}

// Whether the column at a place is one of numbers.
fn is_int(columns: &[Column], place: u8) -> bool
    ensures { result ≡ true → IsIntColumn columns.now place }
{
    match columns.get(place as usize) {
        Some(column) => match column.kind {
            ColumnKind::IntKind => true,
            ColumnKind::TextKind => false,
        },
        None => false,
    }
}

/// The keys of the rows that a change of a table closes; the key stands at a place among the cells.
/// The error is `NoMemory`.
pub(crate) fn closed_keys<'a>(
    alloc: Global,
    store: &'a Store,
    change: &Change,
    place: u8,
) -> Result<ClosedKeys<'a>, NoMemory>
    requires there { change.now.table < length (database_of store.now).tables }
    requires rows { All (λ id. id < length (rows_of (database_of store.now) change.now.table))
        change.now.closes }
    requires column { place < length (columns_of (database_of store.now) change.now.table) }
    ensures keys { IfOk result (λ closed. (x : Cell) (n : ℕ)
        → has_closed closed change.now.closes x n
        ≡ (has_id change.now.closes n && has_key place x
        (slice_get (rows_of (database_of store.now) change.now.table) n))) }
    ensures known { IfOk result (λ closed. AreKnown closed change.now.closes) }
{
    let number = change.table();
    let numbers = is_int(store.schema(number).columns(), place);
    if numbers {
        let keys = store.int_column(number, place);
        return Ok(ClosedKeys::Numbers(keys));
    }
    let rows = closed_rows(alloc, store, change, place)?;
    Ok(ClosedKeys::Keyed(rows))
}

// As `remove_numbers`, by a ledger of its caller's.
fn remove_numbers_from<L: Ledger>(
    index: &mut KeyIndex,
    closes: &[u32],
    keys: &IntsRef<'_>,
    blank: Blank,
)
    requires name { blank.name ≡ L.name }
    requires parts { blank.parts ≡ L.parts }
    requires some { 0 < blank.parts }
    requires known { All (λ id. id < length keys.now) closes.now }
    ensures { (x : Cell) (n : ℕ) → has_row index.new x n
        ≡ (not (closes_number closes.now keys.now x n) && has_row index.old x n) }
{
    let mut steps = Steps::<L>::new(blank);
    for id in closes {
        let key = keys.at(*id, &mut steps);
        index.remove_number(key, *id);
    }
}

// Takes away the ids of closed rows, whose keys are numbers of a column.
fn remove_numbers(index: &mut KeyIndex, closes: &[u32], keys: &IntsRef<'_>)
    requires { All (λ id. id < length keys.now) closes.now }
    ensures { (x : Cell) (n : ℕ) → has_row index.new x n
        ≡ (not (closes_number closes.now keys.now x n) && has_row index.old x n) }
{
    remove_numbers_from::<Brand>(index, closes, keys, Blank::new(1))
}

// Takes away the ids of closed rows.
fn remove_keyed(index: &mut KeyIndex, closed: &[KeyedRow])
    ensures { (x : Cell) (n : ℕ) → has_row index.new x n
        ≡ (not (has_keyed closed.now x n) && has_row index.old x n) }
{
    for row in closed {
        index.remove(&row.key, row.id);
    }
}

// Takes away the ids of the rows that a change closes.
fn remove_closed(index: &mut KeyIndex, closes: &[u32], keys: &ClosedKeys<'_>)
    requires { AreKnown keys.now closes.now }
    ensures { (x : Cell) (n : ℕ) → has_row index.new x n
        ≡ (not (has_closed keys.now closes.now x n) && has_row index.old x n) }
{
    match keys {
        ClosedKeys::Numbers(numbers) => remove_numbers(index, closes, numbers),
        ClosedKeys::Keyed(rows) => remove_keyed(index, rows.as_slice()),
    }
}

// Takes away the ids of opened rows, of which the first has this id.
fn remove_opened(index: &mut KeyIndex, rows: &[Opened], place: u8, first: u32)
    requires few { first + length rows.now < 2 ^ 32 }
    requires keyed { All (λ o. place < length o.cells) rows.now }
    ensures { (x : Cell) (n : ℕ) → has_row index.new x n
        ≡ (not (opens_with place first rows.now x n) && has_row index.old x n) }
{
    for (i, row) in rows.iter().enumerate() {
        let cells = row.cells();
        index.remove(&cells[place as usize], first + i as u32);
    }
}

// As `add_opened`, but the error leaves the ids of some of the rows.
fn push_opened(
    index: &mut KeyIndex,
    alloc: Global,
    rows: &[Opened],
    place: u8,
    first: u32,
) -> Result<(), NoMemory>
    requires few { first + length rows.now < 2 ^ 32 }
    requires keyed { All (λ o. place < length o.cells) rows.now }
    ensures added { OnOk result ((x : Cell) (n : ℕ) → has_row index.new x n
        ≡ (opens_with place first rows.now x n || has_row index.old x n)) }
    ensures most { (x : Cell) (n : ℕ) → has_row index.new x n ≡ true
        → (opens_with place first rows.now x n || has_row index.old x n) ≡ true }
    ensures least { (x : Cell) (n : ℕ) → has_row index.old x n ≡ true → has_row index.new x n
        ≡ true }
{
    for (i, row) in rows.iter().enumerate() {
        let cells = row.cells();
        index.add(alloc, &cells[place as usize], first + i as u32)?;
    }
    Ok(())
}

// Adds the ids of opened rows, of which the first has this id: no id from it on is there before.
// The key stands at a place among the cells. The error is `NoMemory`, and leaves the ids as they
// were.
fn add_opened(
    index: &mut KeyIndex,
    alloc: Global,
    rows: &[Opened],
    place: u8,
    first: u32,
) -> Result<(), NoMemory>
    requires few { first + length rows.now < 2 ^ 32 }
    requires keyed { All (λ o. place < length o.cells) rows.now }
    requires below { (x : Cell) (n : ℕ) → first ≤ n → has_row index.old x n ≡ false }
    ensures ok { OnOk result ((x : Cell) (n : ℕ) → has_row index.new x n
        ≡ (opens_with place first rows.now x n || has_row index.old x n)) }
    ensures err { OnErr result ((x : Cell) (n : ℕ) → has_row index.new x n
        ≡ has_row index.old x n) }
{
    match push_opened(index, alloc, rows, place, first) {
        Ok(()) => Ok(()),
        Err(error) => {
            remove_opened(index, rows, place, first);
            Err(error)
        }
    }
}

// Makes room for the keys of opened rows, of which the first has this id and so many take the place
// of others. The key stands at a place among the cells. The error is `NoMemory`; no id changes,
// then either.
fn make_room(
    index: &mut KeyIndex,
    opens: &[Opened],
    place: u8,
    closed: usize,
    first: u32,
) -> Result<(), NoMemory>
    requires few { first + length opens.now < 2 ^ 32 }
    requires keyed { All (λ o. place < length o.cells) opens.now }
    ensures { (x : Cell) (n : ℕ) → has_row index.new x n ≡ has_row index.old x n }
{
    let [opened, ..] = opens else {
        return Ok(());
    };
    let cells = opened.cells();
    index.reserve(
        opens.len().saturating_sub(closed),
        &cells[place as usize],
        first + opens.len() as u32,
    )?;
    Ok(())
}

/// Adds the ids of the rows that a change opens, of which the first has this id, and takes away
/// those of the rows that it closes. The key stands at a place among the cells. The error is
/// `NoMemory`, and leaves the ids as they were.
pub(crate) fn change_index(
    index: &mut KeyIndex,
    alloc: Global,
    change: &Change,
    keys: &ClosedKeys<'_>,
    place: u8,
    first: u32,
) -> Result<(), NoMemory>
    requires few { first + length change.now.opens < 2 ^ 32 }
    requires keyed { All (λ o. place < length o.cells) change.now.opens }
    requires below { (x : Cell) (n : ℕ) → first ≤ n → has_row index.old x n ≡ false }
    requires known { AreKnown keys.now change.now.closes }
    ensures ok { OnOk result ((x : Cell) (n : ℕ) → has_row index.new x n
        ≡ (not (has_closed keys.now change.now.closes x n)
        && (opens_with place first change.now.opens x n || has_row index.old x n))) }
    ensures err { OnErr result ((x : Cell) (n : ℕ) → has_row index.new x n
        ≡ has_row index.old x n) }
{
    let opens = change.opens();
    let closes = change.closes();
    make_room(index, opens, place, closes.len(), first)?;
    add_opened(index, alloc, opens, place, first)?;
    remove_closed(index, closes, keys);
    Ok(())
}
