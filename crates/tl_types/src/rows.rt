//! Rows as commits open them: 1 to 16 cells, and a valid period where the table has valid time. A
//! row keeps its number of cells; that they match a schema is asked where a commit is made.
ghost use Rattle.std.specs.Prelude.{◌≡◌};
ghost use Rattle.tl_types.specs.Plain as plain;
ghost use Rattle.tl_types.specs.Facts.{IsOpened};

use crate::NoMemory;
use crate::cells::Cell;
use crate::periods::Period;
use crate::small_sequences::SmallSeq;
use std::marker::Model;

/// The system end of a row that is current: an open end, the greatest version.
pub const OPEN: u32 = u32::MAX;

/// A row as a commit opens it: 1 to 16 cells, and a valid period where its table has them.
#[derive(Debug, Drop, PartialEq, Eq)]
pub struct Opened {
    cells: SmallSeq<Cell>,
    period: Option<Period>,
}

impl Model for Opened {
    ghost use Rattle.tl_types.specs.Plain as plain;
    ghost use Rattle.tl_types.specs.Facts.{IsOpened};

    ghost Value = { plain.Opened };

    ghost view = { λ o. record { cells = o.cells; period = o.period } };

    ghost invariant = { λ o. IsOpened (record { cells = o.cells; period = o.period }) };

    ghost inverse = { λ o. record { cells = o.cells; period = o.period } };
}

impl Opened {
    /// A row of these cells, of which there are 1 to 16, and this period.
    pub fn new(cells: SmallSeq<Cell>, period: Option<Period>) -> Opened
        requires { IsOpened (record { cells = cells; period = period }) }
        ensures { result ≡ record { cells = cells; period = period } }
    {
        Opened { cells, period }
    }

    /// The cells, in the order of the columns.
    pub fn cells(&self) -> &[Cell]
        ensures value { result.now ≡ self.now.cells }
        ensures number { IsOpened self.now }
    {
        self.cells.as_slice()
    }

    /// The valid period, where the row's table has them.
    pub fn period(&self) -> Option<Period>
        ensures { result ≡ self.now.period }
    {
        self.period
    }
}

impl Clone for Opened {
    ghost is_clone = { λ v w. w ≡ v };

    fn clone(&self) -> Result<Self, NoMemory> {
        Ok(Opened {
            cells: self.cells.clone()?,
            period: self.period,
        })
    }
}
