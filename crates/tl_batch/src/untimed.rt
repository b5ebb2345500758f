//! Lines for a table without valid time: the first fault of their keys, and the rows that they
//! close. A key that stands twice is refused, and so is the removal of a key that no open row has.
ghost use Rattle.std.specs.Prelude.{◌≡◌, ◌+◌, ◌<◌, ◌^◌, ℕ, List, [], All, IsTrue, false, true, IfOk, Some, length, map, slice_get};
ghost use Rattle.std.specs.List.{list_any};
ghost use Rattle.tl_types.specs.Plain as plain;
ghost use Rattle.tl_types.specs.Facts.{AscendFrom};
ghost use Rattle.tl_types.specs.History.{has_id};
ghost use Rattle.tl_batch.specs.KeyIndex.{has_row};
ghost use Rattle.tl_batch.specs.OpenTables.{IsIndexOf};
ghost use Rattle.tl_types.specs.Resolving.{BatchLine};
ghost use Rattle.tl_batch.specs.Made.{IsClosed};
ghost use Rattle.tl_batch.specs.Standing.{rows_match};
ghost use Rattle.tl_batch.specs.Untimed.{has_open, fault_of_key, row_fault, key_fault, AreFresh};

use crate::id_list::IdList;
use crate::key_flags::stand_once;
use crate::key_index::KeyIndex;
use crate::key_set::KeySet;
use crate::open_table::OpenTable;
use std::alloc::Global;
use tl_types::{BatchFault, Cell, KeyLine, NoMemory, Opened, Seq};

// Whether an open row has the key.
fn has_open_row(index: &KeyIndex, key: &Cell) -> bool
    ensures { (place : ℕ) (rows : List plain.Row) → IsIndexOf index.now place rows → result
        ≡ has_open place key.now rows }
{
    index.find(key).is_some()
}

// The fault of a line with a record number, whose key is fresh or not.
fn fault_of_key(
    index: &KeyIndex,
    removes: bool,
    fresh: bool,
    key: &Cell,
    rec: u32,
) -> Option<BatchFault>
    ensures { (place : ℕ) (rows : List plain.Row) → IsIndexOf index.now place rows → result
        ≡ fault_of_key removes fresh (has_open place key.now rows) rec }
{
    if !fresh {
        return Some(BatchFault::KeyTwice { rec });
    }
    if removes && !has_open_row(index, key) {
        return Some(BatchFault::NoRow { rec });
    }
    None
}

// Whether each key comes after the one before it, in the order of cells.
fn rise(keys: &[&Cell]) -> bool
    ensures { IsTrue result → AreFresh [] (map (λ k. k.now) keys.now) }
{
    let [first, behind @ ..] = keys else {
        return true;
    };
    let mut last = *first;
    for key in behind {
        if !last.cmp(*key).is_lt() {
            return false;
        }
        last = *key;
    }
    true
}

// The first fault of lines whose keys are fresh: a line removes and no open row has its key.
fn first_missing_row(index: &KeyIndex, removes: bool, keys: &[&Cell]) -> Option<BatchFault>
    requires { length keys.now + 1 < 2 ^ 32 }
    ensures { (place : ℕ) (rows : List plain.Row) → IsIndexOf index.now place rows → result
        ≡ row_fault removes place rows 2 (map (λ k. k.now) keys.now) }
{
    if !removes {
        return None;
    }
    for (i, key) in keys.iter().enumerate() {
        if !has_open_row(index, key) {
            return Some(BatchFault::NoRow { rec: i as u32 + 2 });
        }
    }
    None
}

// A set without keys, with room for these. The error is `NoMemory`.
fn set_for<'a>(alloc: Global, keys: &[&'a Cell]) -> Result<KeySet<'a>, NoMemory>
    ensures { IfOk result (λ set. set ≡ []) }
{
    let [first, ..] = keys else {
        return Ok(KeySet::new(alloc));
    };
    let set = KeySet::with_room(alloc, keys.len(), *first)?;
    Ok(set)
}

/// The first fault of lines with these keys, which remove rows or put them. Keys that rise stand
/// once each, and are not collected; nor are small numbers, each of which has a flag, unless one of
/// them stands twice. The error is `NoMemory`.
pub(crate) fn first_key_fault(
    alloc: Global,
    index: &KeyIndex,
    removes: bool,
    keys: &[&Cell],
) -> Result<Option<BatchFault>, NoMemory>
    requires few { length keys.now + 1 < 2 ^ 32 }
    ensures { IfOk result (λ found. (place : ℕ) (rows : List plain.Row)
        → IsIndexOf index.now place rows → found
        ≡ key_fault removes place rows 2 [] (map (λ k. k.now) keys.now)) }
{
    if rise(keys) {
        return Ok(first_missing_row(index, removes, keys));
    }
    let once = stand_once(alloc, keys)?;
    if once {
        return Ok(first_missing_row(index, removes, keys));
    }
    let mut earlier = set_for(alloc, keys)?;
    for (i, key) in keys.iter().enumerate() {
        let fresh = earlier.add(key)?;
        let found = fault_of_key(index, removes, fresh, key, i as u32 + 2);
        if found.is_some() {
            return Ok(found);
        }
    }
    Ok(None)
}

/// The ids of the open rows of these keys, ascending. The error is `NoMemory`.
pub(crate) fn ids_of_keys(
    alloc: Global,
    index: &KeyIndex,
    keys: &[&Cell],
) -> Result<Seq<u32>, NoMemory>
    ensures ascending { IfOk result (λ ids. AscendFrom 0 ids) }
    ensures members { IfOk result (λ ids. (n : ℕ) → has_id ids n
        ≡ list_any (λ k. has_row index.now k.now n) keys.now) }
{
    let mut ids = IdList::new(alloc);
    for key in keys {
        index.add_to(key, &mut ids)?;
    }
    let listed = ids.listed();
    Ok(listed)
}

/// The keys of rows, which stand at a place among the cells. The error is `NoMemory`.
pub(crate) fn keys_of_rows<'a>(
    alloc: Global,
    rows: &'a [Opened],
    place: u8,
) -> Result<Vec<&'a Cell>, NoMemory>
    requires { All (λ o. place < length o.cells) rows.now }
    ensures { IfOk result (λ keys. map (λ k. Some k.now) keys.items
        ≡ map (λ o. slice_get o.cells place) rows.now) }
{
    let mut keys = Vec::new(alloc);
    for row in rows {
        let cells = row.cells();
        keys.push(&cells[place as usize])?;
    }
    Ok(keys)
}

/// The keys of the lines of a removal. The error is `NoMemory`.
pub(crate) fn keys_of_lines<'a>(
    alloc: Global,
    lines: &'a [KeyLine],
) -> Result<Vec<&'a Cell>, NoMemory>
    ensures { IfOk result (λ keys. map (λ k. Some k.now) keys.items
        ≡ map (λ l. Some l.key) lines.now) }
{
    let mut keys = Vec::new(alloc);
    for line in lines {
        keys.push(&line.key)?;
    }
    Ok(keys)
}

/// The rows that lines with these keys close in a table without valid time, or their first fault.
/// The error is `NoMemory`.
pub(crate) fn closes_of_keys(
    alloc: Global,
    table: &OpenTable<'_>,
    removes: bool,
    keys: &[&Cell],
) -> Result<Result<Seq<u32>, BatchFault>, NoMemory>
    requires few { length keys.now + 1 < 2 ^ 32 }
    requires untimed { table.now.schema.valid ≡ false }
    ensures matching { rows_match (Some table.now) ≡ true }
    ensures made { IfOk result (λ made. (lines : List BatchLine) → map (λ l. l.key) lines
        ≡ map (λ k. Some k.now) keys.now → IsClosed removes table.now.schema table.now.rows lines
        made) }
{
    let index = table.index();
    let found = first_key_fault(alloc, index, removes, keys)?;
    if let Some(fault) = found {
        return Ok(Err(fault));
    }
    let closes = ids_of_keys(alloc, index, keys)?;
    Ok(Ok(closes))
}
