//! Lines that say all of a table, as the rows that stand are matched with them, one after the
//! other. It refuses nothing but memory, and copies the lines alone that no row is matched with.
ghost use Rattle.std.specs.Prelude.{◌≡◌, ◌<◌, ◌^◌, All, IfOk, Some, false, length, replicate, slice_get};
ghost use Rattle.std.specs.List.{list_any};
ghost use Rattle.tl_types.specs.Plain as plain;
ghost use Rattle.tl_types.specs.Resolving.{same_row};
ghost use Rattle.tl_batch.specs.Syncing.{HaveOwnStarts, as_opened, unmarked_lines, without_line};

use crate::line_places::{LinePlaces, places_of};
use crate::open_table::OpenTable;
use std::alloc::Global;
use std::marker::Model;
use std::sync::ledger::Ledger;
use tl_types::{NoMemory, Opened, Steps};

/// Lines, of which those have a mark that a row is matched with. A contract sees the others, and
/// the place of the key among their cells.
#[derive(Drop)]
pub(crate) struct LineMatching<'a> {
    lines: &'a [Opened],
    place: u8,
    places: LinePlaces,
    marks: Vec<bool>,
}

impl<'a> Model for LineMatching<'a> {
    ghost use Rattle.tl_batch.specs.Syncing.{AreMarked, UnmatchedLines, unmarked_lines};

    ghost Value = { UnmatchedLines };

    ghost view = { λ m. record { key = m.place; lines = unmarked_lines m.lines.now m.marks.items } };

    ghost invariant = { λ m. AreMarked m.place m.lines.now m.places m.marks.items };
}

// So many marks, of which none is set. The error is `NoMemory`.
fn no_marks(alloc: Global, count: usize) -> Result<Vec<bool>, NoMemory>
    ensures { IfOk result (λ marks. marks.items ≡ replicate count false) }
{
    Ok(vec![in alloc; false; count]?)
}

// The lines that have no mark, copied. The error is `NoMemory`.
fn unmarked_lines(alloc: Global, lines: &[Opened], marks: &[bool]) -> Result<Vec<Opened>, NoMemory>
    requires { length marks.now ≡ length lines.now }
    ensures { IfOk result (λ left. left.items ≡ unmarked_lines lines.now marks.now) }
{
    let mut left = Vec::new(alloc);
    for (i, line) in lines.iter().enumerate() {
        if marks[i] {
            continue;
        }
        left.push(line.clone()?)?;
    }
    Ok(left)
}

impl<'a> LineMatching<'a> {
    /// Lines that no row is matched with yet. None has the key, which is the cell at a place, and
    /// the start of an earlier one. The error is `NoMemory`.
    pub(crate) fn new(
        alloc: Global,
        lines: &'a [Opened],
        place: u8,
    ) -> Result<LineMatching<'a>, NoMemory>
        requires few { length lines.now < 2 ^ 32 }
        requires keyed { All (λ o. place < length o.cells) lines.now }
        requires own { HaveOwnStarts place lines.now }
        ensures { IfOk result (λ left. left ≡ record { key = place; lines = lines.now }) }
    {
        let places = places_of(alloc, lines, place)?;
        let marks = no_marks(alloc, lines.len())?;
        Ok(LineMatching {
            lines,
            place,
            places,
            marks,
        })
    }

    /// Matches a row with the first line that is the same and that no row is matched with, where
    /// there is one, and says whether there was. The error is `NoMemory`.
    pub(crate) fn match_row<L: Ledger>(
        &mut self,
        alloc: Global,
        table: &OpenTable<'_>,
        row: u32,
        steps: &mut Steps<L>,
    ) -> Result<bool, NoMemory>
        requires row { row < length table.now.rows }
        requires key { self.old.key ≡ table.now.schema.key }
        ensures matched { IfOk result (λ matched. (r : plain.Row)
            → slice_get table.now.rows row ≡ Some r → matched
            ≡ list_any (same_row (as_opened r)) self.old.lines) }
        ensures left { IfOk result (λ _. (r : plain.Row) → slice_get table.now.rows row ≡ Some r
            → self.new
            ≡ record { key = self.old.key; lines = without_line (as_opened r) self.old.lines }) }
    {
        let key = table.key(alloc, row, steps)?;
        let start = table.start(row, steps);
        let Some(place) = self.places.find(key, start) else {
            return Ok(false);
        };
        let place = place as usize;
        if place >= self.lines.len() {
            return Ok(false);
        }
        if self.marks[place] {
            return Ok(false);
        }
        let same = table.is_same(row, &self.lines[place], steps);
        if !same {
            return Ok(false);
        }
        self.marks[place] = true;
        Ok(true)
    }

    /// The lines that no row is matched with. The error is `NoMemory`.
    pub(crate) fn unmatched_lines(&self, alloc: Global) -> Result<Vec<Opened>, NoMemory>
        ensures { IfOk result (λ left. left.items ≡ self.now.lines) }
    {
        let left = unmarked_lines(alloc, self.lines, self.marks.as_slice())?;
        Ok(left)
    }
}
