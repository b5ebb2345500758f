//! The rows of a table that are kept. They are counted once, and where they turn out to be all no
//! row is looked at again.
ghost use Rattle.std.specs.Prelude.{◌≡◌, ◌+◌, ◌<◌, ◌≤◌, length};
ghost use Rattle.tl_bits.specs.Sets.{is_member};
ghost use Rattle.tl_lanes.specs.Masks.{words_for};

use std::marker::Model;
use std::sync::ledger::Ledger;
use tl_bits::RowSet;
use tl_types::Steps;

/// The rows of a table that are kept, and whether these are all. It is made once for all pieces of
/// a query. A contract sees the set of the rows.
#[derive(Drop)]
pub struct KeptRows<'a> {
    rows: &'a RowSet,
    all: bool,
}

impl<'a> Model for KeptRows<'a> {
    ghost use Rattle.std.specs.Prelude.{◌≡◌, Bool, true, List};
    ghost use Rattle.tl_agg.specs.Kept.{IsWhole};

    ghost Value = { List Bool };

    ghost view = { λ k. k.rows.now };

    ghost invariant = { λ k. k.all ≡ true → IsWhole k.rows.now };
}

impl<'a> KeptRows<'a> {
    /// The rows of a set. It takes one step for each begun 64 rows.
    pub fn new<L: Ledger>(rows: &'a RowSet, steps: &mut Steps<L>) -> KeptRows<'a>
        ensures rows { result ≡ rows.now }
        ensures steps { steps.new ≡ steps.old + words_for (length rows.now) }
    {
        let all = rows.count(steps) == rows.rows();
        KeptRows { rows, all }
    }

    /// The set of the kept rows, by id.
    pub fn rows(&self) -> &'a RowSet
        ensures { result.now ≡ self.now }
    {
        self.rows
    }

    /// The same rows once more, for a piece.
    pub(crate) fn share(&self) -> KeptRows<'a>
        ensures { result ≡ self.now }
    {
        KeptRows {
            rows: self.rows,
            all: self.all,
        }
    }

    /// Whether the row with this id is kept. It takes at most one step.
    pub(crate) fn test<L: Ledger>(&self, row: u32, steps: &mut Steps<L>) -> bool
        requires { row < length self.now }
        ensures member { result ≡ is_member self.now row }
        ensures steps { steps.new ≤ steps.old + 1 }
    {
        if self.all {
            return true;
        }
        self.rows.test(row, steps)
    }
}
