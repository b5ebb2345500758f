//! Opened rows of a record: their cells, and their periods. A row of one to four cells is read by a
//! function of its own, whose list of cells takes no memory; a row that is cut is `Short`, and one
//! with another kind of cell, an empty period or no cell is `Bad`.
ghost use Rattle.std.specs.Prelude.{◌≡◌, ◌≤◌, ◌+◌, ◌++◌, ◌∷◌, [], length, Ok, IfOk, IfSome, OnOk, vec_len, vec_capacity};
ghost use Rattle.tl_record.specs.Reading.{
  Gives,
  IsBetween,
  mapped,
  several,
  prepended,
  byte_between,
  cell_of,
  cell_at,
  period_if,
  period_at,
  row_of_cells,
  row_at,
};

use crate::faults::{Fault, ReadError, rare_error};
use crate::{numbers, texts};
use std::alloc::Global;
use tl_types::{Cell, NoMemory, Opened, Period, SmallSeq};

// What was read. An error ends the function that asks: it comes by a cold call, so that LLVM takes
// that for the rare way.
macro_rules! read {
    ($read:expr) => {
        match $read {
            Ok(read) => read,
            Err(error) => return Err(rare_error(error)),
        }
    };
}

// A number as a cell, and what follows it.
#[inline(always)]
fn int(bytes: &[u8]) -> Result<(Cell, &[u8]), ReadError>
    ensures { Gives (λ x. (x.0, x.1.now)) result (cell_of 1 bytes.now) }
{
    match numbers::signed(i64::MIN, i64::MAX, bytes) {
        Ok((value, rest)) => Ok((Cell::Int(value), rest)),
        Err(error) => Err(rare_error(error)),
    }
}

// A text as a cell, and what follows it.
#[inline(always)]
fn text(alloc: Global, bytes: &[u8]) -> Result<(Cell, &[u8]), ReadError>
    ensures { Gives (λ x. (x.0, x.1.now)) result (cell_of 2 bytes.now) }
{
    match texts::text(alloc, bytes) {
        Ok((text, rest)) => Ok((Cell::Text(text), rest)),
        Err(error) => Err(rare_error(error)),
    }
}

// A cell, and what follows it, however many bytes there are.
#[tactic(auto, unfolding(crate::specs::Reading::cell_at))]
#[inline(always)]
fn any_cell(alloc: Global, bytes: &[u8]) -> Result<(Cell, &[u8]), ReadError>
    ensures { Gives (λ x. (x.0, x.1.now)) result (cell_at bytes.now) }
{
    match bytes {
        [] => Err(ReadError::Fault(Fault::Short)),
        [1, rest @ ..] => int(rest),
        [2, rest @ ..] => text(alloc, rest),
        _ => Err(ReadError::Fault(Fault::Bad)),
    }
}

// A cell of which the bytes are few, as at the end of a journal, and what follows it.
#[cold]
#[inline(never)]
fn cell_of_few(alloc: Global, bytes: &[u8]) -> Result<(Cell, &[u8]), ReadError>
    ensures { Gives (λ x. (x.0, x.1.now)) result (cell_at bytes.now) }
{
    any_cell(alloc, bytes)
}

// The same; its errors come by a cold call, so that LLVM takes this for the rare way.
#[inline(always)]
fn cell_at_end(alloc: Global, bytes: &[u8]) -> Result<(Cell, &[u8]), ReadError>
    ensures { Gives (λ x. (x.0, x.1.now)) result (cell_at bytes.now) }
{
    match cell_of_few(alloc, bytes) {
        Ok((cell, rest)) => Ok((cell, rest)),
        Err(error) => Err(rare_error(error)),
    }
}

// A cell, and what follows it. Where more than 8 bytes are there, one test of their number is
// enough for a number, and for the length of a text.
#[inline(always)]
fn cell(alloc: Global, bytes: &[u8]) -> Result<(Cell, &[u8]), ReadError>
    ensures { Gives (λ x. (x.0, x.1.now)) result (cell_at bytes.now) }
{
    if bytes.len() > 8 {
        return any_cell(alloc, bytes);
    }
    cell_at_end(alloc, bytes)
}

// Reads so many cells and puts them behind the others; gives what follows them.
fn push_cells<'a>(
    alloc: Global,
    cells: &mut Vec<Cell>,
    count: u8,
    bytes: &'a [u8],
) -> Result<&'a [u8], ReadError>
    ensures { Gives (λ rest. (cells.new.items, rest.now)) result
        (prepended cells.old.items (several cell_at count bytes.now)) }
{
    let mut rest = bytes;
    for _ in 0..count {
        let (cell, behind) = cell(alloc, rest)?;
        cells.push(cell)?;
        rest = behind;
    }
    Ok(rest)
}

// Reads so many cells, which take memory of their own; gives what follows them.
#[tactic(auto, using(crate::proofs::Loops::so_many, crate::proofs::Loops::unstarted))]
fn cells_of(alloc: Global, count: u8, bytes: &[u8]) -> Result<(Vec<Cell>, &[u8]), ReadError>
    ensures read { Gives (λ x. (x.0.items, x.1.now)) result (several cell_at count bytes.now) }
    ensures within { IfOk result (λ x. length x.0.items ≡ count) }
{
    let mut cells = Vec::with_capacity(alloc, count as usize)?;
    let rest = push_cells(alloc, &mut cells, count, bytes)?;
    Ok((cells, rest))
}

#[tactic(auto, using(crate::proofs::Loops::ends_behind))]
#[inline(always)]
fn period_if(flag: u8, bytes: &[u8]) -> Result<(Option<Period>, &[u8]), ReadError>
    ensures { Gives (λ x. (x.0, x.1.now)) result (period_if flag bytes.now) }
{
    if flag == 0 {
        return Ok((None, bytes));
    }
    let (from, rest) = numbers::signed(i64::MIN, i64::MAX - 1, bytes)?;
    let (to, rest) = numbers::signed(from + 1, i64::MAX, rest)?;
    Ok((Some(Period::new(from, to)), rest))
}

#[tactic(auto, unfolding(crate::specs::Reading::period_at))]
#[inline(always)]
fn period(bytes: &[u8]) -> Result<(Option<Period>, &[u8]), ReadError>
    ensures { Gives (λ x. (x.0, x.1.now)) result (period_at bytes.now) }
{
    match numbers::byte(0, 1, bytes) {
        Ok((flag, rest)) => period_if(flag, rest),
        Err(error) => Err(rare_error(error)),
    }
}

// Reads a period, and takes memory for a row more.
#[inline(always)]
fn period_and_room<'a>(
    rows: &mut Vec<Opened>,
    bytes: &'a [u8],
) -> Result<(Option<Period>, &'a [u8]), ReadError>
    ensures read { Gives (λ x. (x.0, x.1.now)) result (period_at bytes.now) }
    ensures same { rows.new.items ≡ rows.old.items }
    ensures room { OnOk result (vec_len rows.new + 1 ≤ vec_capacity rows.new) }
{
    match period(bytes) {
        Ok((period, behind)) => match rows.reserve(1) {
            Ok(()) => Ok((period, behind)),
            Err(_) => Err(rare_error(ReadError::Memory)),
        },
        Err(error) => Err(rare_error(error)),
    }
}

// One cell as a list. This and the next three have `inline` and not `inline(always)`: LLVM then
// makes each small by itself, where it sees that the list is new, and no push tests for room.
#[inline]
fn list_of_one(alloc: Global, first: Cell) -> Result<SmallSeq<Cell>, NoMemory>
    ensures { IfOk result (λ cells. cells ≡ first ∷ []) }
{
    let mut cells = SmallSeq::new(alloc);
    cells.push(first)?;
    Ok(cells)
}

// Two cells as a list.
#[inline]
fn list_of_two(alloc: Global, first: Cell, second: Cell) -> Result<SmallSeq<Cell>, NoMemory>
    ensures { IfOk result (λ cells. cells ≡ first ∷ second ∷ []) }
{
    let mut cells = SmallSeq::new(alloc);
    cells.push(first)?;
    cells.push(second)?;
    Ok(cells)
}

// Three cells as a list.
#[inline]
fn list_of_three(
    alloc: Global,
    first: Cell,
    second: Cell,
    third: Cell,
) -> Result<SmallSeq<Cell>, NoMemory>
    ensures { IfOk result (λ cells. cells ≡ first ∷ second ∷ third ∷ []) }
{
    let mut cells = SmallSeq::new(alloc);
    cells.push(first)?;
    cells.push(second)?;
    cells.push(third)?;
    Ok(cells)
}

// Four cells as a list.
#[inline]
fn list_of_four(
    alloc: Global,
    first: Cell,
    second: Cell,
    third: Cell,
    fourth: Cell,
) -> Result<SmallSeq<Cell>, NoMemory>
    ensures { IfOk result (λ cells. cells ≡ first ∷ second ∷ third ∷ fourth ∷ []) }
{
    let mut cells = SmallSeq::new(alloc);
    cells.push(first)?;
    cells.push(second)?;
    cells.push(third)?;
    cells.push(fourth)?;
    Ok(cells)
}

// Reads the cell of a row and its period, and puts the row behind the others; gives what
// follows it.
#[tactic(auto, unfolding(crate::specs::Reading::row_of_cells, crate::specs::Reading::several))]
#[inline(always)]
fn push_row_of_one<'a>(
    alloc: Global,
    rows: &mut Vec<Opened>,
    bytes: &'a [u8],
) -> Result<&'a [u8], ReadError>
    ensures { Gives (λ rest. (rows.new.items, rest.now)) result
        (mapped (λ r. rows.old.items ++ r ∷ []) (row_of_cells 1 bytes.now)) }
{
    let (first, rest) = read!(cell(alloc, bytes));
    let (period, behind) = read!(period_and_room(rows, rest));
    let Ok(cells) = list_of_one(alloc, first) else {
        return Err(rare_error(ReadError::Memory));
    };
    rows.push_reserved(Opened::new(cells, period));
    Ok(behind)
}

// Reads the two cells of a row and its period, and puts the row behind the others; gives what
// follows it.
#[tactic(auto, unfolding(crate::specs::Reading::row_of_cells, crate::specs::Reading::several))]
#[inline(always)]
fn push_row_of_two<'a>(
    alloc: Global,
    rows: &mut Vec<Opened>,
    bytes: &'a [u8],
) -> Result<&'a [u8], ReadError>
    ensures { Gives (λ rest. (rows.new.items, rest.now)) result
        (mapped (λ r. rows.old.items ++ r ∷ []) (row_of_cells 2 bytes.now)) }
{
    let (first, rest) = read!(cell(alloc, bytes));
    let (second, rest) = read!(cell(alloc, rest));
    let (period, behind) = read!(period_and_room(rows, rest));
    let Ok(cells) = list_of_two(alloc, first, second) else {
        return Err(rare_error(ReadError::Memory));
    };
    rows.push_reserved(Opened::new(cells, period));
    Ok(behind)
}

// Reads the three cells of a row and its period, and puts the row behind the others; gives what
// follows it.
#[tactic(auto, unfolding(crate::specs::Reading::row_of_cells, crate::specs::Reading::several))]
#[inline(always)]
fn push_row_of_three<'a>(
    alloc: Global,
    rows: &mut Vec<Opened>,
    bytes: &'a [u8],
) -> Result<&'a [u8], ReadError>
    ensures { Gives (λ rest. (rows.new.items, rest.now)) result
        (mapped (λ r. rows.old.items ++ r ∷ []) (row_of_cells 3 bytes.now)) }
{
    let (first, rest) = read!(cell(alloc, bytes));
    let (second, rest) = read!(cell(alloc, rest));
    let (third, rest) = read!(cell(alloc, rest));
    let (period, behind) = read!(period_and_room(rows, rest));
    let Ok(cells) = list_of_three(alloc, first, second, third) else {
        return Err(rare_error(ReadError::Memory));
    };
    rows.push_reserved(Opened::new(cells, period));
    Ok(behind)
}

// Reads the four cells of a row and its period, and puts the row behind the others; gives what
// follows it.
#[tactic(auto, unfolding(crate::specs::Reading::row_of_cells, crate::specs::Reading::several))]
#[inline(always)]
fn push_row_of_four<'a>(
    alloc: Global,
    rows: &mut Vec<Opened>,
    bytes: &'a [u8],
) -> Result<&'a [u8], ReadError>
    ensures { Gives (λ rest. (rows.new.items, rest.now)) result
        (mapped (λ r. rows.old.items ++ r ∷ []) (row_of_cells 4 bytes.now)) }
{
    let (first, rest) = read!(cell(alloc, bytes));
    let (second, rest) = read!(cell(alloc, rest));
    let (third, rest) = read!(cell(alloc, rest));
    let (fourth, rest) = read!(cell(alloc, rest));
    let (period, behind) = read!(period_and_room(rows, rest));
    let Ok(cells) = list_of_four(alloc, first, second, third, fourth) else {
        return Err(rare_error(ReadError::Memory));
    };
    rows.push_reserved(Opened::new(cells, period));
    Ok(behind)
}

// Reads the cells of a row, so many, and its period, and puts the row behind the others; gives what
// follows it. The cells take memory of their own.
#[tactic(auto, unfolding(crate::specs::Reading::row_of_cells))]
#[inline(never)]
fn push_row_of<'a>(
    alloc: Global,
    rows: &mut Vec<Opened>,
    count: u8,
    bytes: &'a [u8],
) -> Result<&'a [u8], ReadError>
    requires { IsBetween 1 16 count }
    ensures { Gives (λ rest. (rows.new.items, rest.now)) result
        (mapped (λ r. rows.old.items ++ r ∷ []) (row_of_cells count bytes.now)) }
{
    let (cells, rest) = cells_of(alloc, count, bytes)?;
    match period_and_room(rows, rest) {
        Ok((period, behind)) => {
            rows.push_reserved(Opened::new(SmallSeq::from_vec(cells), period));
            Ok(behind)
        }
        Err(error) => Err(error),
    }
}

// Reads an opened row of any number of cells, and puts it behind the others; gives what follows it.
#[tactic(auto, using(crate::proofs::Loops::row_behind, crate::proofs::Loops::no_row))]
#[inline(never)]
fn push_any_row<'a>(
    alloc: Global,
    rows: &mut Vec<Opened>,
    bytes: &'a [u8],
) -> Result<&'a [u8], ReadError>
    ensures { Gives (λ rest. (rows.new.items, rest.now)) result
        (mapped (λ r. rows.old.items ++ r ∷ []) (row_at bytes.now)) }
{
    match numbers::byte(1, 16, bytes) {
        Ok((count, rest)) => match count {
            1 => push_row_of_one(alloc, rows, rest),
            2 => push_row_of_two(alloc, rows, rest),
            3 => push_row_of_three(alloc, rows, rest),
            _ => push_row_of(alloc, rows, count, rest),
        },
        Err(error) => Err(rare_error(error)),
    }
}

// The same; its errors come by a cold call, so that LLVM takes this for the rare way.
#[inline(always)]
fn push_other_row<'a>(
    alloc: Global,
    rows: &mut Vec<Opened>,
    bytes: &'a [u8],
) -> Result<&'a [u8], ReadError>
    ensures { Gives (λ rest. (rows.new.items, rest.now)) result
        (mapped (λ r. rows.old.items ++ r ∷ []) (row_at bytes.now)) }
{
    match push_any_row(alloc, rows, bytes) {
        Ok(rest) => Ok(rest),
        Err(error) => Err(rare_error(error)),
    }
}

// What follows the number of a row's cells, where they are four.
#[inline(always)]
fn behind_four(bytes: &[u8]) -> Option<&[u8]>
    ensures { IfSome result (λ rest. byte_between 1 16 bytes.now ≡ Ok (4, rest.now)) }
{
    match bytes {
        [4, rest @ ..] => Some(rest),
        _ => None,
    }
}

/// Reads an opened row and puts it behind the others; gives what follows it. Cells of which there
/// are at most four stand in the row itself: they are read first, and the row is then made where it
/// stays.
#[tactic(auto, using(crate::proofs::Loops::row_behind))]
#[inline(always)]
pub fn push_row<'a>(
    alloc: Global,
    rows: &mut Vec<Opened>,
    bytes: &'a [u8],
) -> Result<&'a [u8], ReadError>
    ensures { Gives (λ rest. (rows.new.items, rest.now)) result
        (mapped (λ r. rows.old.items ++ r ∷ []) (row_at bytes.now)) }
{
    match behind_four(bytes) {
        Some(rest) => push_row_of_four(alloc, rows, rest),
        None => push_other_row(alloc, rows, bytes),
    }
}
