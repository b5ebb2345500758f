//! Aggregates of the rows that are there at a moment: how many, and of the numbers that they have
//! in a column the sum, the average, the least and the greatest.
ghost use Rattle.std.specs.Prelude.{◌≡◌, ◌<◌, ◌≤◌, ◌^◌, None, Some, length, IfOk, if◌then◌else◌};
ghost use Rattle.std.specs.List.{fold};
ghost use Rattle.std.specs.Int.{int_min, int_max};
ghost use Rattle.tl_query.specs.Aggregates.{number_of, number_at, numbers_of, total_of, sum_field, average_field, least_field, greatest_field, aggregate_of};
ghost use Rattle.tl_plain.specs.Counted.{numbers_field};
ghost use Rattle.tl_plain.specs.Choosing.{lent, is_there, there_at};

use crate::rows::Row;
use crate::times::is_there;
use std::alloc::Global;
use tl_query::{AggKind, AggPlan, Span};
use tl_types::{Cell, Field, NoMemory};

fn number_of(cell: &Cell) -> Option<i64>
    ensures { result ≡ number_of (Some cell.now) }
{
    match cell {
        Cell::Int(number) => Some(*number),
        Cell::Text(_) => None,
    }
}

fn number_in(column: u8, row: &Row) -> Option<i64>
    ensures { result ≡ number_at (Some column) row.now }
{
    match row.cells().get(column as usize) {
        Some(cell) => number_of(cell),
        None => None,
    }
}

fn number_at(column: Option<u8>, row: &Row) -> Option<i64>
    ensures { result ≡ number_at column row.now }
{
    match column {
        Some(column) => number_in(column, row),
        None => None,
    }
}

/// The number of rows that are there at a moment.
pub(crate) fn count(span: Span, rows: &[&Row], moment: i64) -> usize
    ensures { result ≡ length (there_at span (lent rows.now) moment) }
{
    let mut count = 0;
    for row in rows {
        if is_there(span, moment, row) {
            count += 1;
        }
    }
    count
}

fn number_there(span: Span, moment: i64, column: Option<u8>, row: &Row) -> Option<i64>
    ensures { result ≡ (if is_there span moment row.now then number_at column row.now else None) }
{
    if is_there(span, moment, row) {
        number_at(column, row)
    } else {
        None
    }
}

// The numbers of the rows that are there at a moment. The error is out of memory.
fn numbers(
    alloc: Global,
    span: Span,
    rows: &[&Row],
    column: Option<u8>,
    moment: i64,
) -> Result<Vec<i64>, NoMemory>
    ensures few { IfOk result (λ numbers. length numbers.items ≤ length rows.now) }
    ensures ok { IfOk result (λ numbers. numbers.items ≡
        numbers_of column (there_at span (lent rows.now) moment)) }
{
    let mut numbers = Vec::new(alloc);
    for row in rows {
        if let Some(number) = number_there(span, moment, column, row) {
            numbers.push(number)?;
        }
    }
    Ok(numbers)
}

fn total(numbers: &[i64]) -> i128
    requires { length numbers.now < 2 ^ 32 }
    ensures { result ≡ total_of numbers.now }
{
    let mut total = 0i128;
    for number in numbers {
        total += i128::from(*number);
    }
    total
}

fn least(first: i64, numbers: &[i64]) -> i64
    ensures { result ≡ fold int_min first numbers.now }
{
    let mut least = first;
    for number in numbers {
        least = least.min(*number);
    }
    least
}

fn greatest(first: i64, numbers: &[i64]) -> i64
    ensures { result ≡ fold int_max first numbers.now }
{
    let mut greatest = first;
    for number in numbers {
        greatest = greatest.max(*number);
    }
    greatest
}

fn sum_field(numbers: &[i64]) -> Field
    requires { length numbers.now < 2 ^ 32 }
    ensures { result ≡ sum_field numbers.now }
{
    if numbers.is_empty() {
        Field::Empty
    } else {
        Field::Number(total(numbers))
    }
}

fn average_field(numbers: &[i64]) -> Field
    requires { length numbers.now < 2 ^ 32 }
    ensures { result ≡ average_field numbers.now }
{
    if numbers.is_empty() {
        Field::Empty
    } else {
        Field::Ratio {
            sum: total(numbers),
            count: numbers.len() as u32,
        }
    }
}

fn least_field(numbers: &[i64]) -> Field
    ensures { result ≡ least_field numbers.now }
{
    match numbers {
        [] => Field::Empty,
        [first, behind @ ..] => Field::Number(i128::from(least(*first, behind))),
    }
}

fn greatest_field(numbers: &[i64]) -> Field
    ensures { result ≡ greatest_field numbers.now }
{
    match numbers {
        [] => Field::Empty,
        [first, behind @ ..] => Field::Number(i128::from(greatest(*first, behind))),
    }
}

fn numbers_field(kind: AggKind, numbers: &[i64]) -> Field
    requires { length numbers.now < 2 ^ 32 }
    ensures { result ≡ numbers_field kind numbers.now }
{
    match kind {
        AggKind::Count => Field::Empty,
        AggKind::Sum => sum_field(numbers),
        AggKind::Avg => average_field(numbers),
        AggKind::Min => least_field(numbers),
        AggKind::Max => greatest_field(numbers),
    }
}

/// The value of an aggregate over the rows that are there at a moment. The error is out of memory.
pub(crate) fn value_at(
    alloc: Global,
    plan: AggPlan,
    span: Span,
    rows: &[&Row],
    moment: i64,
) -> Result<Field, NoMemory>
    requires { length rows.now < 2 ^ 32 }
    ensures { IfOk result (λ field. field ≡
        aggregate_of plan.kind plan.column (there_at span (lent rows.now) moment)) }
{
    if plan.kind == AggKind::Count {
        return Ok(Field::Number(count(span, rows, moment) as i128));
    }
    let numbers = numbers(alloc, span, rows, plan.column, moment)?;
    Ok(numbers_field(plan.kind, numbers.as_slice()))
}
