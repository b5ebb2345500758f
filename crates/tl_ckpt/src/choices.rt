//! Rows that are chosen: all of a table, or those of a set, whose words were read once, a step
//! each. A row past the words is not chosen.
ghost use Rattle.std.specs.Prelude.{◌≡◌, ℕ, ◌+◌, ◌≤◌, true, length, IfOk};
ghost use Rattle.tl_lanes.specs.Masks.{bit_of, words_for};
ghost use Rattle.tl_bits.specs.Sets.{is_member};
ghost use Rattle.tl_ckpt.specs.Choices.{is_chosen};

use std::alloc::Global;
use std::marker::Model;
use std::sync::ledger::Ledger;
use tl_bits::RowSet;
use tl_types::{NoMemory, Steps};

/// Which rows of a table are chosen: all of them, or those of a set, whose words it has read.
#[derive(Drop)]
pub struct Choice {
    all: bool,
    mask: Vec<u64>,
}

impl Model for Choice {
    ghost use Rattle.tl_ckpt.specs.Choices as plain;

    ghost Value = { plain.Choice };

    ghost view = { λ c. record { all = c.all; mask = c.mask.items } };
}

// How many words the set of so many rows has.
fn word_count(rows: u32) -> u32
    ensures { result ≡ words_for rows }
{
    ((u64::from(rows) + 63) / 64) as u32
}

// The words of a set, from the first on. It takes a step for each.
fn words_of<L: Ledger>(
    alloc: Global,
    set: &RowSet,
    steps: &mut Steps<L>,
) -> Result<Vec<u64>, NoMemory>
    ensures bits { IfOk result
        (λ words. (row : ℕ) → bit_of words.items row ≡ is_member set.now row) }
    ensures steps { steps.new ≤ steps.old + words_for (length set.now) }
{
    let count = word_count(set.rows());
    let mut words = Vec::with_capacity(alloc, count as usize)?;
    for i in 0..count {
        words.push(set.word(i, steps))?;
    }
    Ok(words)
}

/// Whether the bit of this row is set; not where there is no word for it.
pub(crate) fn has_bit(mask: &[u64], row: u32) -> bool
    ensures { result ≡ bit_of mask.now row }
{
    let at = (row / 64) as usize;
    if at < mask.len() {
        (mask[at] >> (row % 64)) & 1 == 1
    } else {
        false
    }
}

impl Choice {
    /// All rows are chosen. It takes no memory.
    pub fn all(alloc: Global) -> Choice
        ensures { result.all ≡ true }
    {
        Choice {
            all: true,
            mask: Vec::new(alloc),
        }
    }

    /// The rows of a set are chosen. It takes a step for each 64 rows that the set may hold. The
    /// error is `NoMemory`.
    pub fn of<L: Ledger>(
        alloc: Global,
        set: &RowSet,
        steps: &mut Steps<L>,
    ) -> Result<Choice, NoMemory>
        ensures rows { IfOk result
            (λ choice. (row : ℕ) → is_chosen choice row ≡ is_member set.now row) }
        ensures steps { steps.new ≤ steps.old + words_for (length set.now) }
    {
        let mask = words_of(alloc, set, steps)?;
        Ok(Choice { all: false, mask })
    }

    /// Whether all rows are chosen without a look at a set.
    pub fn is_all(&self) -> bool
        ensures { result ≡ self.now.all }
    {
        self.all
    }

    /// The words that say which rows are chosen, where not all are.
    pub(crate) fn mask(&self) -> &[u64]
        ensures { result.now ≡ self.now.mask }
    {
        &self.mask
    }

    /// Whether the row with this id is chosen.
    pub fn has(&self, row: u32) -> bool
        ensures { result ≡ is_chosen self.now row }
    {
        self.all || has_bit(&self.mask, row)
    }
}
