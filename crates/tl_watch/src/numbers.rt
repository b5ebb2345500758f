//! What is kept of the numbers of rows: how many there are, their sum, and for a least or greatest
//! number each of them with how often it is there, so that the memory is in proportion to the rows
//! that stand. A number that is not there cannot go.
ghost use Rattle.std.specs.Prelude.{◌≡◌, ℕ, ◌+◌, ◌-◌, ◌^◌, ◌<◌, ℤ, pos, neg_ℤ, ◌+ℤ◌, ◌≤ℤ◌, true, false, Option, List, [], length, map, IfOk, OnOk};
ghost use Rattle.std.specs.List.{count_by};
ghost use Rattle.std.specs.Ordering.{int_eq};
ghost use Rattle.tl_types.specs.declared.answers.Field.TheVariants as field;
ghost use Rattle.tl_types.specs.Plain as plain;
ghost use Rattle.tl_bits.specs.Bags.{times, AddsOne};
ghost use Rattle.tl_query.specs.Aggregates.{least_field, greatest_field};
ghost use Rattle.tl_running.specs.Standing.{is_ordered, number_in, StandsFor, HasRoom, CanLeave, Enters, summing};
ghost use Rattle.tl_watch.specs.Gathering.{gathered_of, KeepsAs};
ghost use Rattle.tl_watch.specs.Groups.{TellsValue};
ghost use Rattle.tl_watch.specs.Numbers.{IsBagFor, counted_as};
ghost use Rattle.tl_watch.specs.Sums.{AddsUp};

use std::alloc::Global;
use std::marker::Model;
use tl_bits::Bag;
use tl_query::AggKind;
use tl_running::Running;
use tl_types::{Field, NoMemory};

/// What is kept of the numbers of rows for an aggregate of one kind. A contract sees how many there
/// are, their sum, and where the kind asks for their order all of them; else none of them is kept.
#[derive(Drop)]
pub(crate) struct Numbers {
    kind: AggKind,
    counted: Running,
    bag: Bag,
}

impl Model for Numbers {
    ghost use Rattle.std.specs.Prelude.{◌≡◌};
    ghost use Rattle.tl_running.specs.Standing.{Kept};
    ghost use Rattle.tl_watch.specs.Numbers.{IsBagFor, counted_as, kept_of};

    ghost Value = { Kept };

    ghost view = { λ n. kept_of n.kind n.counted n.bag };

    ghost invariant = { λ n. (n.counted.kind ≡ counted_as n.kind) × IsBagFor n.kind n.bag };
}

// The kind as which numbers are counted and added.
fn counted_as(kind: AggKind) -> AggKind
    ensures { result ≡ counted_as kind }
{
    match kind {
        AggKind::Count => AggKind::Count,
        AggKind::Sum => AggKind::Sum,
        AggKind::Avg => AggKind::Avg,
        AggKind::Min => AggKind::Count,
        AggKind::Max => AggKind::Count,
    }
}

/// Whether the kind asks for the order of the numbers.
#[inline]
pub(crate) fn is_ordered(kind: AggKind) -> bool
    ensures { result ≡ is_ordered kind }
{
    matches!(kind, AggKind::Min | AggKind::Max)
}

// Puts a number in, where the kind asks for the order of the numbers.
fn put_in(bag: &mut Bag, kind: AggKind, number: i64) -> Result<(), NoMemory>
    ensures adds { OnOk result (is_ordered kind ≡ true → AddsOne bag.old bag.new number) }
    ensures same { is_ordered kind ≡ false → bag.new ≡ bag.old }
{
    if !is_ordered(kind) {
        return Ok(());
    }
    bag.add(number)?;
    Ok(())
}

// Takes a number out, where the kind asks for the order of the numbers.
fn take_out(bag: &mut Bag, kind: AggKind, number: i64)
    requires { is_ordered kind ≡ true → 0 < times bag.old number }
    ensures takes { is_ordered kind ≡ true → AddsOne bag.new bag.old number }
    ensures same { is_ordered kind ≡ false → bag.new ≡ bag.old }
{
    if is_ordered(kind) {
        bag.remove(number);
    }
}

// A number as a field.
fn number_field(number: i64) -> Field
    ensures { result ≡ field.Number number }
{
    Field::Number(i128::from(number))
}

// The least of numbers.
fn least_field(bag: &Bag) -> Field
    ensures { (ns : List ℤ) → ((v : ℤ) → times bag.now v ≡ count_by (int_eq v) ns)
        → result ≡ least_field ns }
{
    match bag.least() {
        Some(number) => number_field(number),
        None => Field::Empty,
    }
}

// The greatest of numbers.
fn greatest_field(bag: &Bag) -> Field
    ensures { (ns : List ℤ) → ((v : ℤ) → times bag.now v ≡ count_by (int_eq v) ns)
        → result ≡ greatest_field ns }
{
    match bag.greatest() {
        Some(number) => number_field(number),
        None => Field::Empty,
    }
}

// One number more is counted and added.
fn count_in(counted: &mut Running, number: i64)
    requires count { counted.old.count < 2 ^ 32 - 1 }
    requires low { neg_ℤ (pos (2 ^ 96)) ≤ℤ counted.old.sum }
    requires high { counted.old.sum ≤ℤ pos (2 ^ 96) }
    ensures { counted.new
        ≡ summing counted.old (counted.old.count + 1) (counted.old.sum +ℤ number) }
{
    let count = counted.count() + 1;
    let sum = counted.sum() + i128::from(number);
    counted.set_sums(count, sum);
}

// The numbers as a bag, where the kind asks for their order, else the bag of none.
fn bag_of(alloc: Global, kind: AggKind, numbers: Vec<i64>) -> Result<Bag, NoMemory>
    ensures bag { IfOk result (λ bag. is_ordered kind ≡ true
        → (v : ℤ) → times bag v ≡ count_by (int_eq v) numbers.items) }
    ensures none { IfOk result (IsBagFor kind) }
{
    if !is_ordered(kind) {
        return Ok(Bag::none(alloc));
    }
    let bag = Bag::of_numbers(alloc, numbers)?;
    Ok(bag)
}

impl Numbers {
    /// What is kept of no number for a kind. It takes no memory.
    pub(crate) fn none(alloc: Global, kind: AggKind) -> Numbers
        ensures kind { result.kind ≡ kind }
        ensures stands { (column : Option ℕ) → StandsFor result column [] }
    {
        Numbers {
            kind,
            counted: Running::none(alloc, counted_as(kind)),
            bag: Bag::none(alloc),
        }
    }

    /// What is kept of numbers that were counted and added elsewhere, for a kind that asks for no
    /// order of them. It takes no memory.
    #[tactic(auto, using(crate::proofs::NumberLemmas::kind_counted))]
    pub(crate) fn of_sums(alloc: Global, kind: AggKind, count: u32, sum: i128) -> Numbers
        requires { is_ordered kind ≡ false }
        ensures kind { result.kind ≡ kind }
        ensures stands { (column : Option ℕ) (rows : List plain.Row) → count ≡ length rows
            → AddsUp (map (number_in column) rows) sum → StandsFor result column rows }
    {
        let mut counted = Running::none(alloc, counted_as(kind));
        counted.set_sums(count, sum);
        Numbers {
            kind,
            counted,
            bag: Bag::none(alloc),
        }
    }

    /// What is kept of numbers that were counted and added elsewhere, and put into a list where the
    /// kind asks for their order. The error is `NoMemory`.
    #[tactic(auto, using(crate::proofs::NumberLemmas::kind_counted))]
    pub(crate) fn of_gathered(
        alloc: Global,
        kind: AggKind,
        count: u32,
        sum: i128,
        numbers: Vec<i64>,
    ) -> Result<Numbers, NoMemory>
        ensures { IfOk result
            (λ kept. KeepsAs (gathered_of kind count sum numbers.items) kept) }
    {
        let bag = bag_of(alloc, kind, numbers)?;
        let mut counted = Running::none(alloc, counted_as(kind));
        counted.set_sums(count, sum);
        Ok(Numbers { kind, counted, bag })
    }

    /// A number comes. The error is `NoMemory`, and leaves all as it was.
    #[tactic(auto, using(crate::proofs::NumberLemmas::counts_more))]
    pub(crate) fn enter(&mut self, number: i64) -> Result<(), NoMemory>
        requires { HasRoom self.old }
        ensures { OnOk result (Enters self.old self.new number) }
    {
        put_in(&mut self.bag, self.kind, number)?;
        count_in(&mut self.counted, number);
        Ok(())
    }

    /// A number goes, which is there.
    pub(crate) fn leave(&mut self, number: i64)
        requires { CanLeave self.old number }
        ensures { Enters self.new self.old number }
    {
        take_out(&mut self.bag, self.kind, number);
        self.counted.leave(number);
    }

    /// How many numbers there are.
    pub(crate) fn count(&self) -> u32
        ensures { result ≡ self.now.count }
    {
        self.counted.count()
    }

    /// The value of the aggregate.
    pub(crate) fn value(&self) -> Field
        ensures { TellsValue self.now result }
    {
        match self.kind {
            AggKind::Min => least_field(&self.bag),
            AggKind::Max => greatest_field(&self.bag),
            AggKind::Count => self.counted.value(),
            AggKind::Sum => self.counted.value(),
            AggKind::Avg => self.counted.value(),
        }
    }
}
