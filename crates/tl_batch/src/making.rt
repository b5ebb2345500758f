//! How the ids by key of a table are made where they are not: from the rows of the store that are
//! open, by one pass over them, with room for all. Without memory they are not made.
ghost use Rattle.std.specs.Prelude.{◌≡◌, ◌||◌, ◌&&◌, ◌==◌, ◌<◌, ◌+◌, ℕ, true, false, if◌then◌else◌, length, slice_get, IfOk, IfSome, OnOk};
ghost use Rattle.std.specs.List.{filter};
ghost use Rattle.tl_types.specs.declared.cells.Cell.{Cell};
ghost use Rattle.tl_types.specs.History.{database_of, is_open, is_open_at, rows_of};
ghost use Rattle.tl_store.specs.Reading.{columns_of, row_of};
ghost use Rattle.tl_batch.specs.KeyIndex.{has_row};
ghost use Rattle.tl_batch.specs.Making.{is_key};
ghost use Rattle.tl_batch.specs.Standing.{IsIndexOfTable, StandFor, StandStill, is_made, is_open_with, number_of};

use crate::key_index::KeyIndex;
use std::alloc::Global;
use std::marker::Brand;
use std::sync::ledger::{Blank, Ledger};
use tl_store::Store;
use tl_types::{Batch, Cell, NoMemory, Steps};

// The system end of a row that is open.
const OPEN: u32 = 4_294_967_295;

// Whether a row of a table is open.
#[inline(always)]
fn is_open_row<L: Ledger>(store: &Store, number: u16, row: u32, steps: &mut Steps<L>) -> bool
    requires { row < length (rows_of (database_of store.now) number) }
    ensures { result ≡ is_open_at (rows_of (database_of store.now) number) row }
{
    store.period_at(number, row, steps).to == OPEN
}

// A count, with one more where there is one.
#[inline(always)]
fn with_one(count: u32, more: bool) -> u32
    requires { count < 16777216 }
    ensures { result ≡ (if more then count + 1 else count) }
{
    if more { count + 1 } else { count }
}

// As `open_rows`, by a ledger of its caller's.
fn open_rows_from<L: Ledger>(store: &Store, number: u16, blank: Blank) -> u32
    requires there { number < length (database_of store.now).tables }
    requires name { blank.name ≡ L.name }
    requires parts { blank.parts ≡ L.parts }
    requires some { 0 < blank.parts }
    ensures { result ≡ length (filter is_open (rows_of (database_of store.now) number)) }
{
    let mut steps = Steps::<L>::new(blank);
    let mut count = 0;
    for row in 0..store.rows(number) {
        let is_open = is_open_row(store, number, row, &mut steps);
        count = with_one(count, is_open);
    }
    count
}

// How many rows of a table are open.
fn open_rows(store: &Store, number: u16) -> u32
    requires { number < length (database_of store.now).tables }
    ensures { result ≡ length (filter is_open (rows_of (database_of store.now) number)) }
{
    open_rows_from::<Brand>(store, number, Blank::new(1))
}

// The key of a row of a table, which stands at a place among the cells, where the row is open. The
// error is `NoMemory`.
#[inline(always)]
fn open_key<L: Ledger>(
    alloc: Global,
    store: &Store,
    number: u16,
    place: u8,
    row: u32,
    steps: &mut Steps<L>,
) -> Result<Option<Cell>, NoMemory>
    requires row { row < length (rows_of (database_of store.now) number) }
    requires column { place < length (columns_of (database_of store.now) number) }
    ensures { IfOk result (λ key. (x : Cell) → is_key key x
        ≡ is_open_with place x (row_of (database_of store.now) number row)) }
{
    let is_open = is_open_row(store, number, row, steps);
    if !is_open {
        return Ok(None);
    }
    let key = store.cell(number, row, place, steps).to_cell(alloc)?;
    Ok(Some(key))
}

// Adds the id of a row under its key, where there is one. The error is `NoMemory`.
#[inline(always)]
fn add_key(
    index: &mut KeyIndex,
    alloc: Global,
    key: &Option<Cell>,
    row: u32,
) -> Result<(), NoMemory>
    ensures { OnOk result ((x : Cell) (n : ℕ) → has_row index.new x n
        ≡ ((is_key key.now x && (n == row)) || has_row index.old x n)) }
{
    match key {
        Some(key) => {
            index.add(alloc, key, row)?;
            Ok(())
        }
        None => Ok(()),
    }
}

// As `add_open`, by a ledger of its caller's.
fn add_open_from<L: Ledger>(
    index: &mut KeyIndex,
    alloc: Global,
    store: &Store,
    number: u16,
    place: u8,
    blank: Blank,
) -> Result<(), NoMemory>
    requires none { (x : Cell) (n : ℕ) → has_row index.old x n ≡ false }
    requires there { number < length (database_of store.now).tables }
    requires column { place < length (columns_of (database_of store.now) number) }
    requires name { blank.name ≡ L.name }
    requires parts { blank.parts ≡ L.parts }
    requires some { 0 < blank.parts }
    ensures { OnOk result ((x : Cell) (n : ℕ) → has_row index.new x n
        ≡ is_open_with place x (row_of (database_of store.now) number n)) }
{
    let mut steps = Steps::<L>::new(blank);
    for row in 0..store.rows(number) {
        let key = open_key(alloc, store, number, place, row, &mut steps)?;
        add_key(index, alloc, &key, row)?;
    }
    Ok(())
}

// Adds the ids of the open rows of a table, where there is none before. The key stands at a place
// among the cells. The error is `NoMemory`.
fn add_open(
    index: &mut KeyIndex,
    alloc: Global,
    store: &Store,
    number: u16,
    place: u8,
) -> Result<(), NoMemory>
    requires none { (x : Cell) (n : ℕ) → has_row index.old x n ≡ false }
    requires there { number < length (database_of store.now).tables }
    requires column { place < length (columns_of (database_of store.now) number) }
    ensures { OnOk result ((x : Cell) (n : ℕ) → has_row index.new x n
        ≡ is_open_with place x (row_of (database_of store.now) number n)) }
{
    add_open_from::<Brand>(index, alloc, store, number, place, Blank::new(1))
}

// As `make_room`, by a ledger of its caller's.
fn make_room_from<L: Ledger>(
    index: &mut KeyIndex,
    alloc: Global,
    store: &Store,
    number: u16,
    place: u8,
    blank: Blank,
) -> Result<(), NoMemory>
    requires there { number < length (database_of store.now).tables }
    requires column { place < length (columns_of (database_of store.now) number) }
    requires name { blank.name ≡ L.name }
    requires parts { blank.parts ≡ L.parts }
    requires some { 0 < blank.parts }
    ensures { (x : Cell) (n : ℕ) → has_row index.new x n ≡ has_row index.old x n }
{
    let rows = store.rows(number);
    if rows == 0 {
        return Ok(());
    }
    let mut steps = Steps::<L>::new(blank);
    let last = store
        .cell(number, rows - 1, place, &mut steps)
        .to_cell(alloc)?;
    index.reserve(open_rows(store, number) as usize, &last, rows)?;
    Ok(())
}

// Makes room for the keys of the open rows of a table, of the kind of the last row's. The key
// stands at a place among the cells. The error is `NoMemory`; no id changes, then either.
fn make_room(
    index: &mut KeyIndex,
    alloc: Global,
    store: &Store,
    number: u16,
    place: u8,
) -> Result<(), NoMemory>
    requires there { number < length (database_of store.now).tables }
    requires column { place < length (columns_of (database_of store.now) number) }
    ensures { (x : Cell) (n : ℕ) → has_row index.new x n ≡ has_row index.old x n }
{
    make_room_from::<Brand>(index, alloc, store, number, place, Blank::new(1))
}

// The ids of the open rows of a table by their keys. The error is `NoMemory`.
fn index_of(alloc: Global, store: &Store, number: u16) -> Result<KeyIndex, NoMemory>
    requires { number < length (database_of store.now).tables }
    ensures { IfOk result (λ index.
        IsIndexOfTable index (slice_get (database_of store.now).tables number)) }
{
    let place = store.schema(number).key();
    let mut index = KeyIndex::new(alloc);
    make_room(&mut index, alloc, store, number, place)?;
    add_open(&mut index, alloc, store, number, place)?;
    Ok(index)
}

// Makes the ids by key of a table where they are not made. The error is `NoMemory`, and leaves the
// keys as they were.
fn make(
    keys: &mut Vec<Option<KeyIndex>>,
    alloc: Global,
    store: &Store,
    number: u16,
) -> Result<(), NoMemory>
    requires stands { StandFor keys.old.items (database_of store.now) }
    requires there { number < length (database_of store.now).tables }
    ensures same { StandStill keys.old.items keys.new.items (database_of store.now) }
    ensures made { OnOk result (is_made keys.new.items number ≡ true) }
{
    if keys[number as usize].is_some() {
        return Ok(());
    }
    let index = index_of(alloc, store, number)?;
    keys[number as usize] = Some(index);
    Ok(())
}

// The number of the table whose rows a batch puts, removes or syncs, where there is one of its
// name.
fn number_of(store: &Store, batch: &Batch) -> Option<u16>
    ensures { result ≡ number_of (database_of store.now) batch.now }
{
    match batch {
        Batch::Put { table, .. } => store.find(table.as_str()),
        Batch::Remove { table, .. } => store.find(table.as_str()),
        Batch::Sync { table, .. } => store.find(table.as_str()),
        Batch::Create(_) => None,
        Batch::Moment { .. } => None,
        Batch::Forget { .. } => None,
    }
}

/// Makes the ids by key that a batch wants, where they are not made: those of the table whose rows
/// it puts, removes or syncs. Answers the number of that table, where there is one of its name. The
/// error is `NoMemory`, and leaves the keys as they were.
pub(crate) fn make_for(
    keys: &mut Vec<Option<KeyIndex>>,
    alloc: Global,
    store: &Store,
    batch: &Batch,
) -> Result<Option<u16>, NoMemory>
    requires stands { StandFor keys.old.items (database_of store.now) }
    ensures same { StandStill keys.old.items keys.new.items (database_of store.now) }
    ensures found { IfOk result (λ found. found ≡ number_of (database_of store.now) batch.now) }
    ensures made { IfOk result (λ found.
        IfSome found (λ number. is_made keys.new.items number ≡ true)) }
{
    let Some(number) = number_of(store, batch) else {
        return Ok(None);
    };
    make(keys, alloc, store, number)?;
    Ok(Some(number))
}
