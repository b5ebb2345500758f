//! The least or greatest number of rows whose ends are known when they come, at moments that never
//! fall. No row has to be taken out: one that has ended does not count.
ghost use Rattle.std.specs.Prelude.{◌≡◌, ℕ, ℤ, ◌≤ℤ◌, true, Option, List, [], OnOk, map};
ghost use Rattle.tl_types.specs.declared.answers.Field.TheVariants as field;
ghost use Rattle.tl_types.specs.Plain as plain;
ghost use Rattle.tl_query.specs.Aggregates.{least_field, greatest_field, aggregate_of};
ghost use Rattle.tl_running.specs.Heaps.{turned};
ghost use Rattle.tl_running.specs.Standing.{number_in, is_ordered, Suits};
ghost use Rattle.tl_running.specs.Lasting.{ordered, Comes, StandsFrom, IsGreatestOf, TellsExtreme};

use crate::lasting::Lasting;
use crate::lasting_heap::LastingHeap;
use std::alloc::Global;
use std::marker::Model;
use tl_query::AggKind;
use tl_types::{Field, NoMemory};

/// What is kept of the numbers of rows for a least or greatest one, where the end of each row is
/// known when it comes. A contract sees it from the last moment on that was asked for.
#[derive(Drop)]
pub struct Extreme {
    kind: AggKind,
    kept: LastingHeap,
}

impl Model for Extreme {
    ghost use Rattle.tl_running.specs.Lasting.{ExtremeOf};

    ghost Value = { ExtremeOf };

    ghost view = { λ e. record { kind = e.kind; kept = e.kept } };
}

// A number by its order for a kind.
#[inline(always)]
fn ordered(kind: AggKind, number: i64) -> i64
    ensures { result ≡ ordered kind number }
{
    match kind {
        AggKind::Min => -1 - number,
        _ => number,
    }
}

// A number as a field.
fn number_field(number: i64) -> Field
    ensures { result ≡ field.Number number }
{
    Field::Number(i128::from(number))
}

// The greatest of numbers, which is told.
fn greatest_field(value: Option<i64>) -> Field
    ensures { (ns : List ℤ) → IsGreatestOf ns value → result ≡ greatest_field ns }
{
    match value {
        Some(value) => number_field(value),
        None => Field::Empty,
    }
}

// A number as one in the opposite order, as a field.
fn turned_field(value: i64) -> Field
    ensures { result ≡ field.Number (turned value) }
{
    Field::Number(i128::from(-1 - value))
}

// The least of numbers, whose greatest in the opposite order is told.
fn least_field(value: Option<i64>) -> Field
    ensures { (ns : List ℤ) → IsGreatestOf (map turned ns) value → result ≡ least_field ns }
{
    match value {
        Some(value) => turned_field(value),
        None => Field::Empty,
    }
}

// The value of an aggregate, whose greatest number by the order of its kind is told; a kind that
// asks for no order has none.
fn field_of(kind: AggKind, value: Option<i64>) -> Field
    ensures { (column : Option ℕ) (rows : List plain.Row) → is_ordered kind ≡ true
        → IsGreatestOf (map (ordered kind) (map (number_in column) rows)) value
        → Suits kind column rows → result ≡ aggregate_of kind column rows }
{
    match kind {
        AggKind::Min => least_field(value),
        AggKind::Max => greatest_field(value),
        AggKind::Count => Field::Empty,
        AggKind::Sum => Field::Empty,
        AggKind::Avg => Field::Empty,
    }
}

impl Extreme {
    /// What is kept of no row for a kind. It takes no memory.
    pub fn none(alloc: Global, kind: AggKind) -> Extreme
        ensures kind { result.kind ≡ kind }
        ensures stands { (floor : ℤ) (column : Option ℕ) (ends : plain.Row → ℤ)
            → StandsFrom result floor column ends [] }
    {
        Extreme {
            kind,
            kept: LastingHeap::none(alloc),
        }
    }

    /// Whether a row with a number changes nothing, if it ends at a moment or before it.
    #[inline(always)]
    pub fn covers(&self, number: i64, end: i64) -> bool
        ensures { result ≡ true → (sooner : ℤ) → sooner ≤ℤ end
            → Comes self.now self.now number sooner }
    {
        let value = ordered(self.kind, number);
        self.kept.covers(Lasting { value, end })
    }

    /// A row comes with its number and its end. The error is `NoMemory`.
    #[inline(always)]
    pub fn put(&mut self, number: i64, end: i64) -> Result<(), NoMemory>
        ensures { OnOk result (Comes self.old self.new number end) }
    {
        let value = ordered(self.kind, number);
        self.kept.put(Lasting { value, end })?;
        Ok(())
    }

    /// The value of the aggregate at a moment, over the rows that have not ended. No moment before
    /// it may be asked for from then on.
    pub fn value(&mut self, now: i64) -> Field
        ensures tells { TellsExtreme self.old now result }
        ensures kept { (floor : ℤ) (column : Option ℕ) (ends : plain.Row → ℤ)
            (rows : List plain.Row) → StandsFrom self.old floor column ends rows → floor ≤ℤ now
            → StandsFrom self.new now column ends rows }
        ensures kind { self.new.kind ≡ self.old.kind }
    {
        let value = self.kept.greatest(now);
        field_of(self.kind, value)
    }
}
