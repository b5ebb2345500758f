//! What is gathered of the numbers of rows while they only come: they are counted and added, and
//! where the kind asks for their order put into a list. None goes out of it.
ghost use Rattle.std.specs.Prelude.{◌≡◌, ◌+◌, ◌-◌, ◌^◌, ◌<◌, ◌+ℤ◌, ◌≤ℤ◌, pos, neg_ℤ, ◌++◌, ◌∷◌, [], true, false, ℕ, Option, IfOk, OnOk};
ghost use Rattle.tl_running.specs.Standing.{is_ordered, StandsFor, HasRoom, Enters};
ghost use Rattle.tl_watch.specs.Gathering.{KeepsAs};

use crate::numbers::{Numbers, is_ordered};
use std::alloc::Global;
use std::marker::Model;
use tl_query::AggKind;
use tl_types::NoMemory;

/// What is gathered of the numbers of rows for an aggregate of one kind. A contract sees how many
/// there are, their sum, and where the kind asks for their order all of them; else none of them is
/// kept.
#[derive(Drop)]
pub(crate) struct Gathered {
    kind: AggKind,
    count: u32,
    sum: i128,
    numbers: Vec<i64>,
}

impl Model for Gathered {
    ghost use Rattle.tl_running.specs.Standing.{Kept};
    ghost use Rattle.tl_watch.specs.Gathering.{gathered_of};
    ghost use Rattle.tl_watch.specs.Numbers.{IsListFor};

    ghost Value = { Kept };

    ghost view = { λ g. gathered_of g.kind g.count g.sum g.numbers.items };

    ghost invariant = { λ g. IsListFor g.kind g.numbers.items };
}

// Puts a number behind the others, where the kind asks for their order.
#[inline]
fn put_behind(numbers: &mut Vec<i64>, kind: AggKind, number: i64) -> Result<(), NoMemory>
    ensures puts { OnOk result (is_ordered kind ≡ true
        → numbers.new.items ≡ numbers.old.items ++ number ∷ []) }
    ensures same { is_ordered kind ≡ false → numbers.new.items ≡ numbers.old.items }
{
    if !is_ordered(kind) {
        return Ok(());
    }
    numbers.push(number)?;
    Ok(())
}

// One number more is counted and added.
#[inline]
fn count_in(count: &mut u32, sum: &mut i128, number: i64)
    requires count { count.old < 2 ^ 32 - 1 }
    requires low { neg_ℤ (pos (2 ^ 96)) ≤ℤ sum.old }
    requires high { sum.old ≤ℤ pos (2 ^ 96) }
    ensures count { count.new ≡ count.old + 1 }
    ensures sum { sum.new ≡ sum.old +ℤ number }
{
    *count += 1;
    *sum += i128::from(number);
}

impl Gathered {
    /// What is gathered of no number for a kind. It takes no memory.
    pub(crate) fn none(alloc: Global, kind: AggKind) -> Gathered
        ensures kind { result.kind ≡ kind }
        ensures stands { (column : Option ℕ) → StandsFor result column [] }
    {
        Gathered {
            kind,
            count: 0,
            sum: 0,
            numbers: Vec::new(alloc),
        }
    }

    /// A number comes. The error is `NoMemory`.
    #[inline]
    pub(crate) fn enter(&mut self, number: i64) -> Result<(), NoMemory>
        requires { HasRoom self.old }
        ensures { OnOk result (Enters self.old self.new number) }
    {
        put_behind(&mut self.numbers, self.kind, number)?;
        count_in(&mut self.count, &mut self.sum, number);
        Ok(())
    }

    /// What is kept of the numbers, which then may go too. The error is `NoMemory`.
    pub(crate) fn into_numbers(self, alloc: Global) -> Result<Numbers, NoMemory>
        ensures { IfOk result (λ kept. KeepsAs self kept) }
    {
        let kept = Numbers::of_gathered(alloc, self.kind, self.count, self.sum, self.numbers)?;
        Ok(kept)
    }
}
