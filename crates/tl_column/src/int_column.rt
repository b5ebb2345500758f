//! A column of whole numbers, in chunks that further columns share. A row that is not there cannot
//! be asked for.
ghost use Rattle.std.specs.Prelude.{◌≡◌, ◌-◌, ◌%◌, ◌<◌, ◌++◌, [], pos, length, map, take, drop, slice_index_or, IfOk};
ghost use Rattle.tl_lanes.specs.Masks.{passes, word_of, IsWordOf};
ghost use Rattle.tl_column.specs.Masks.{lane_cmp};

use crate::masks::{items_of_word, lane_cmp};
use std::alloc::Global;
use std::marker::Model;
use tl_lanes::compare_word;
use tl_shared::{CHUNK, Shareable, SharedList};
use tl_types::{Cmp, NoMemory};

/// A column of signed whole numbers of 64 bits. Contracts see it as the list of its cells.
#[derive(Drop)]
pub struct IntColumn {
    cells: SharedList<i64>,
}

impl Model for IntColumn {
    ghost use Rattle.std.specs.Prelude.{List, ℤ};

    ghost Value = { List ℤ };

    ghost view = { λ c. c.cells };
}

impl IntColumn {
    /// The column of no cells. `alloc` is the memory that it will take, none as yet.
    pub fn none(alloc: Global) -> IntColumn
        ensures { result ≡ [] }
    {
        IntColumn {
            cells: SharedList::none(alloc),
        }
    }

    /// How many cells there are.
    pub fn len(&self) -> u64
        ensures { result ≡ length self.now }
    {
        self.cells.len()
    }

    /// The column followed by `cells`. It shares with this one, which stays as it was. The error is
    /// `NoMemory`.
    pub fn push_all(&self, alloc: Global, cells: &[i64]) -> Result<IntColumn, NoMemory>
        ensures { IfOk result (λ column. column ≡ self.now ++ cells.now) }
    {
        Ok(IntColumn {
            cells: self.cells.push_all(alloc, cells)?,
        })
    }

    /// The column followed by `cells`, which takes this one over: what has no other owner is not
    /// copied. The error is `NoMemory`.
    pub fn append(self, alloc: Global, cells: &[i64]) -> Result<IntColumn, NoMemory>
        ensures { IfOk result (λ column. column ≡ self ++ cells.now) }
    {
        Ok(IntColumn {
            cells: self.cells.append(alloc, cells)?,
        })
    }

    /// The cell of row `row`, counted from 0.
    pub fn at(&self, row: u32) -> i64
        requires { row < length self.now }
        ensures { result ≡ slice_index_or self.now row (pos 0) }
    {
        *self.cells.at(row as u64)
    }

    /// The cells from row `row` on, counted from 0, as far as they stand in one piece: at least
    /// one, and up to the next row whose number 1,024 divides. A scan asks for those behind them
    /// next.
    pub fn ints_from(&self, row: u32) -> &[i64]
        requires { row < length self.now }
        ensures cells { result.now ≡ take (CHUNK - row % CHUNK) (drop row self.now) }
        ensures some { 0 < length result.now }
    {
        self.cells.chunk_from(row as u64)
    }

    /// Word `i` of the mask of the cells that pass the comparison with the bound: bit j tells of
    /// row 64 i + j. Bits past the rows are 0.
    pub fn mask_word(&self, i: u32, cmp: Cmp, bound: i64) -> u64
        ensures word { result
            ≡ word_of (map (λ cell. passes (lane_cmp cmp) cell bound) self.now) i }
        ensures bits { IsWordOf (map (λ cell. passes (lane_cmp cmp) cell bound) self.now) i result }
    {
        compare_word(items_of_word(&self.cells, i), lane_cmp(cmp), bound)
    }
}

impl Shareable for IntColumn {
    fn share(&self, alloc: Global) -> Result<IntColumn, NoMemory> {
        Ok(IntColumn {
            cells: self.cells.share(alloc)?,
        })
    }
}
