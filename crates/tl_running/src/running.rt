//! An aggregate that is kept while rows come and go: how many they are, the sum of their numbers,
//! and for a least or greatest number all of them. A row that is not there cannot go, and no more
//! than 2^32 - 1 rows can be there.
ghost use Rattle.std.specs.Prelude.{◌≡◌, ◌+◌, ◌-◌, ◌<◌, ◌^◌, ℕ, ℤ, pos, neg_ℤ, ◌+ℤ◌, ◌-ℤ◌, ◌≤ℤ◌, true, false, Option, List, [], length, OnOk};
ghost use Rattle.std.specs.List.{count_by};
ghost use Rattle.std.specs.Ordering.{int_eq};
ghost use Rattle.tl_types.specs.declared.answers.Field.TheVariants as field;
ghost use Rattle.tl_types.specs.Plain as plain;
ghost use Rattle.tl_bits.specs.Bags.{times, AddsOne};
ghost use Rattle.tl_query.specs.declared.ast.AggKind.TheVariants as kind;
ghost use Rattle.tl_running.specs.Heaps.{bag_of, turned};
ghost use Rattle.tl_query.specs.Aggregates.{total_of, sum_field, average_field, least_field, greatest_field, aggregate_of};
ghost use Rattle.tl_running.specs.Standing.{is_ordered, Suits, Counts, StandsFor, HasRoom, CanLeave, Enters, Changes, CanChange, counting, summing};

use crate::heaps::Heaps;
use std::alloc::Global;
use std::marker::Model;
use tl_query::AggKind;
use tl_types::{Field, NoMemory};

/// What is kept of the numbers of rows for an aggregate of one kind: how many there are, their sum,
/// and for a least or greatest one all of them by size. A contract sees these.
#[derive(Drop)]
pub struct Running {
    kind: AggKind,
    count: u32,
    sum: i128,
    heaps: Heaps,
}

impl Model for Running {
    ghost use Rattle.tl_running.specs.Standing.{Kept};
    ghost use Rattle.tl_running.specs.Heaps.{bag_of};

    ghost Value = { Kept };

    ghost view = { λ r. record {
      kind = r.kind;
      count = r.count;
      sum = r.sum;
      bag = bag_of r.kind r.heaps;
    } };
}

// The sum of so many numbers.
fn sum_field(count: u32, sum: i128) -> Field
    ensures { (ns : List ℤ) → count ≡ length ns → sum ≡ total_of ns → result ≡ sum_field ns }
{
    if count == 0 {
        return Field::Empty;
    }
    Field::Number(sum)
}

// The sum of so many numbers, over their count.
fn average_field(count: u32, sum: i128) -> Field
    ensures { (ns : List ℤ) → count ≡ length ns → sum ≡ total_of ns → result ≡ average_field ns }
{
    if count == 0 {
        return Field::Empty;
    }
    Field::Ratio { sum, count }
}

// A number as a field.
fn number_field(number: i64) -> Field
    ensures { result ≡ field.Number number }
{
    Field::Number(i128::from(number))
}

// A number as one in the opposite order.
fn turned(number: i64) -> i64
    ensures { result ≡ turned number }
{
    -1 - number
}

// The least of numbers that are kept turned.
fn least_field(heaps: &Heaps) -> Field
    ensures { (ns : List ℤ) → ((v : ℤ) → times (bag_of kind.Min heaps.now) v
        ≡ count_by (int_eq v) ns) → result ≡ least_field ns }
{
    match heaps.greatest() {
        Some(number) => number_field(turned(number)),
        None => Field::Empty,
    }
}

// The greatest of numbers.
fn greatest_field(heaps: &Heaps) -> Field
    ensures { (ns : List ℤ) → ((v : ℤ) → times heaps.now v ≡ count_by (int_eq v) ns)
        → result ≡ greatest_field ns }
{
    match heaps.greatest() {
        Some(number) => number_field(number),
        None => Field::Empty,
    }
}

// Whether the kind asks for the order of the numbers.
fn is_ordered(kind: AggKind) -> bool
    ensures { result ≡ is_ordered kind }
{
    matches!(kind, AggKind::Min | AggKind::Max)
}

// Puts the number in, where the kind asks for the order of the numbers.
fn put_in(heaps: &mut Heaps, kind: AggKind, number: i64) -> Result<(), NoMemory>
    ensures { OnOk result (is_ordered kind ≡ true
        → AddsOne (bag_of kind heaps.old) (bag_of kind heaps.new) number) }
{
    match kind {
        AggKind::Min => {
            heaps.add(turned(number))?;
            Ok(())
        }
        AggKind::Max => {
            heaps.add(number)?;
            Ok(())
        }
        _ => Ok(()),
    }
}

// May put the number in, where the kind asks for the order of the numbers, there is room, and it is
// far behind the first; whether it is in.
#[inline]
fn put_in_far(heaps: &mut Heaps, kind: AggKind, number: i64) -> bool
    ensures adds { result ≡ true
        → AddsOne (bag_of kind heaps.old) (bag_of kind heaps.new) number }
    ensures same { result ≡ false → heaps.new ≡ heaps.old }
{
    match kind {
        AggKind::Min => heaps.add_far(turned(number)),
        AggKind::Max => heaps.add_far(number),
        _ => false,
    }
}

// May take the number out, where the kind asks for the order of the numbers and it is far behind
// the first; whether it is out.
#[inline]
fn take_out_far(heaps: &mut Heaps, kind: AggKind, number: i64) -> bool
    requires { is_ordered kind ≡ true → 0 < times (bag_of kind heaps.old) number }
    ensures takes { result ≡ true
        → AddsOne (bag_of kind heaps.new) (bag_of kind heaps.old) number }
    ensures same { result ≡ false → heaps.new ≡ heaps.old }
{
    match kind {
        AggKind::Min => heaps.remove_far(turned(number)),
        AggKind::Max => heaps.remove_far(number),
        _ => false,
    }
}

// Takes the number out, where the kind asks for the order of the numbers.
fn take_out(heaps: &mut Heaps, kind: AggKind, number: i64)
    requires { is_ordered kind ≡ true → 0 < times (bag_of kind heaps.old) number }
    ensures { is_ordered kind ≡ true
        → AddsOne (bag_of kind heaps.new) (bag_of kind heaps.old) number }
{
    match kind {
        AggKind::Min => heaps.remove(turned(number)),
        AggKind::Max => heaps.remove(number),
        _ => {}
    }
}

impl Running {
    /// What is kept of no number for this kind. It takes no memory.
    pub fn none(alloc: Global, kind: AggKind) -> Running
        ensures kind { result.kind ≡ kind }
        ensures stands { (column : Option ℕ) → StandsFor result column [] }
    {
        Running {
            kind,
            count: 0,
            sum: 0,
            heaps: Heaps::none(alloc),
        }
    }

    // Counts a number that comes; what is kept by size stays.
    #[inline]
    fn count_in(&mut self, number: i64)
        requires { HasRoom self.old }
        ensures { self.new ≡ record self.old {
          count = self.old.count + 1;
          sum = self.old.sum +ℤ number;
        } }
    {
        self.count += 1;
        self.sum += i128::from(number);
    }

    // Counts a number that goes; what is kept by size stays.
    #[inline]
    fn count_out(&mut self, number: i64)
        requires some { 0 < self.old.count }
        requires low { neg_ℤ (pos (2 ^ 96)) ≤ℤ self.old.sum }
        requires high { self.old.sum ≤ℤ pos (2 ^ 96) }
        ensures { self.new ≡ record self.old {
          count = self.old.count - 1;
          sum = self.old.sum -ℤ number;
        } }
    {
        self.count -= 1;
        self.sum -= i128::from(number);
    }

    /// The number of a row comes. Where this stood for rows, it then stands for them and that row.
    /// The error is `NoMemory`.
    pub fn enter(&mut self, number: i64) -> Result<(), NoMemory>
        requires { HasRoom self.old }
        ensures { OnOk result (Enters self.old self.new number) }
    {
        put_in(&mut self.heaps, self.kind, number)?;
        self.count_in(number);
        Ok(())
    }

    /// The number of a row goes, which is there. Where this stood for rows, it then stands for them
    /// without that row.
    pub fn leave(&mut self, number: i64)
        requires { CanLeave self.old number }
        ensures { Enters self.new self.old number }
    {
        take_out(&mut self.heaps, self.kind, number);
        self.count_out(number);
    }

    // The number of a row may come, where it is far behind the first; whether it came.
    #[inline]
    fn enter_far(&mut self, number: i64) -> bool
        requires { HasRoom self.old }
        ensures enters { result ≡ true → Enters self.old self.new number }
        ensures same { result ≡ false → self.new ≡ self.old }
    {
        let is_in = put_in_far(&mut self.heaps, self.kind, number);
        if is_in {
            self.count_in(number);
        }
        is_in
    }

    // The number of a row may go, where it is far behind the first; whether it went.
    #[inline]
    fn leave_far(&mut self, number: i64) -> bool
        requires { CanLeave self.old number }
        ensures leaves { result ≡ true → Enters self.new self.old number }
        ensures same { result ≡ false → self.new ≡ self.old }
    {
        let is_out = take_out_far(&mut self.heaps, self.kind, number);
        if is_out {
            self.count_out(number);
        }
        is_out
    }

    // The number of a row may come where `opens`, and else go, where it is far behind the first;
    // whether that was done.
    #[inline]
    fn change_far(&mut self, opens: bool, number: i64) -> bool
        requires { CanChange opens self.old number }
        ensures changes { result ≡ true → Changes opens self.old self.new number }
        ensures same { result ≡ false → self.new ≡ self.old }
    {
        if opens {
            self.enter_far(number)
        } else {
            self.leave_far(number)
        }
    }

    // The number of a row comes where `opens`, else it goes, for any kind.
    #[inline(never)]
    fn change_near(&mut self, opens: bool, number: i64) -> Result<(), NoMemory>
        requires { CanChange opens self.old number }
        ensures { OnOk result (Changes opens self.old self.new number) }
    {
        if opens {
            return self.enter(number);
        }
        self.leave(number);
        Ok(())
    }

    // The number of a row comes where `opens`, else it goes, for a kind that asks for the order.
    #[inline(never)]
    fn change_in_order(&mut self, opens: bool, number: i64) -> Result<(), NoMemory>
        requires { CanChange opens self.old number }
        ensures { OnOk result (Changes opens self.old self.new number) }
    {
        let is_done = self.change_far(opens, number);
        if is_done {
            return Ok(());
        }
        self.change_near(opens, number)
    }

    // The number of a row comes where `opens`, else it goes, for a kind that asks for no order.
    #[inline(always)]
    fn change_sum(&mut self, opens: bool, number: i64)
        requires kind { is_ordered self.old.kind ≡ false }
        requires can { CanChange opens self.old number }
        ensures { Changes opens self.old self.new number }
    {
        if opens {
            self.count_in(number);
        } else {
            self.count_out(number);
        }
    }

    /// The number of a row comes where `opens`, else it goes. The error is `NoMemory`.
    #[inline(always)]
    pub fn change(&mut self, opens: bool, number: i64) -> Result<(), NoMemory>
        requires { CanChange opens self.old number }
        ensures { OnOk result (Changes opens self.old self.new number) }
    {
        if is_ordered(self.kind) {
            return self.change_in_order(opens, number);
        }
        self.change_sum(opens, number);
        Ok(())
    }

    /// For how many rows this stands.
    pub fn count(&self) -> u32
        ensures { result ≡ self.now.count }
    {
        self.count
    }

    /// Puts a number of rows that was counted elsewhere. The sum and the numbers stay.
    pub fn set_count(&mut self, count: u32)
        ensures { self.new ≡ counting self.old count }
    {
        self.count = count;
    }

    /// The sum of the numbers of the rows for which this stands.
    pub fn sum(&self) -> i128
        ensures { result ≡ self.now.sum }
    {
        self.sum
    }

    /// Puts a number of rows and a sum that were made elsewhere. The numbers by size stay.
    pub fn set_sums(&mut self, count: u32, sum: i128)
        ensures { self.new ≡ summing self.old count sum }
    {
        self.count = count;
        self.sum = sum;
    }

    /// The value of the aggregate over the rows for which this stands.
    pub fn value(&self) -> Field
        ensures { (column : Option ℕ) (rows : List plain.Row) → StandsFor self.now column rows
            → Suits self.now.kind column rows → result ≡ aggregate_of self.now.kind column rows }
    {
        match self.kind {
            AggKind::Count => Field::Number(i128::from(self.count)),
            AggKind::Sum => sum_field(self.count, self.sum),
            AggKind::Avg => average_field(self.count, self.sum),
            AggKind::Min => least_field(&self.heaps),
            AggKind::Max => greatest_field(&self.heaps),
        }
    }
}
