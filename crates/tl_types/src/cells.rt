//! Cells, whole numbers of 64 bits or texts, and what a column holds. Their order and their
//! equality are derived: numbers by size, before texts, which go by their bytes.
ghost use Rattle.std.specs.Prelude.{◌≡◌};

use crate::NoMemory;
use crate::texts::Text;

/// One value of a row.
#[derive(Debug, Drop, PartialEq, Eq, PartialOrd, Ord, Hash)]
pub enum Cell {
    /// A signed whole number of 64 bits.
    Int(i64),
    /// A text of at most 65,535 bytes.
    Text(Text),
}

// What stands in the places of a short list that no cell has.
impl Default for Cell {
    fn default() -> Self {
        Cell::Int(0)
    }
}

impl Clone for Cell {
    ghost is_clone = { λ v w. w ≡ v };

    fn clone(&self) -> Result<Self, NoMemory> {
        match self {
            Cell::Int(number) => Ok(Cell::Int(*number)),
            Cell::Text(text) => Ok(Cell::Text(text.clone()?)),
        }
    }
}

/// What the cells of a column are.
#[derive(Clone, Copy, Debug, PartialEq, Eq)]
pub enum ColumnKind {
    /// Signed whole numbers of 64 bits.
    IntKind,
    /// Texts of at most 65,535 bytes each.
    TextKind,
}

/// A comparison of a cell with a constant. Texts are compared by `Eq` and `Ne` alone.
#[derive(Clone, Copy, Debug, PartialEq, Eq)]
pub enum Cmp {
    /// `=`: the cell is equal to the constant.
    Eq,
    /// `<>`: the cell is not equal to the constant.
    Ne,
    /// `<`: the cell is less than the constant.
    Lt,
    /// `<=`: the cell is less than the constant or equal to it.
    Le,
    /// `>`: the cell is greater than the constant.
    Gt,
    /// `>=`: the cell is greater than the constant or equal to it.
    Ge,
}
