//! The tests of a query's predicate: their faults, and the tests by the places of their columns. An
//! order of texts and a constant of another kind than its column are refused.
ghost use Rattle.std.specs.Prelude.{◌≡◌, IfOk, flat_map, map};
ghost use Rattle.tl_types.specs.History.{is_of_kind};
ghost use Rattle.tl_query.specs.Checking.{first_of};
ghost use Rattle.tl_query.specs.CheckingQueries.{
  constant_fault,
  order_fault,
  pred_faults,
  test_faults,
  tests_faults,
  typed_pred_of,
  typed_test_of,
  where_known,
};
ghost use Rattle.tl_query.specs.TypedFor.{is_ordered};
ghost use Rattle.tl_check.specs.Known.{known};

use crate::columns::{column_fault, column_place, kind_of};
use crate::first_fault::{earlier, first_of};
use std::alloc::Global;
use tl_query::{CheckFault, Pred, Test, TypedPred, TypedTest};
use tl_types::{Cell, Cmp, ColumnKind, NoMemory, Schema, Seq};

fn is_ordered(comparison: Cmp) -> bool
    ensures { result ≡ is_ordered comparison }
{
    match comparison {
        Cmp::Eq | Cmp::Ne => false,
        Cmp::Lt | Cmp::Le | Cmp::Gt | Cmp::Ge => true,
    }
}

fn is_of_kind(kind: ColumnKind, cell: &Cell) -> bool
    ensures { result ≡ is_of_kind kind cell.now }
{
    match (kind, cell) {
        (ColumnKind::IntKind, Cell::Int(_)) => true,
        (ColumnKind::IntKind, Cell::Text(_)) => false,
        (ColumnKind::TextKind, Cell::Int(_)) => false,
        (ColumnKind::TextKind, Cell::Text(_)) => true,
    }
}

// `WrongType` at an order that is asked of texts.
fn order_fault(kind: Option<ColumnKind>, test: &Test) -> Option<CheckFault>
    ensures { result ≡ order_fault kind test.now }
{
    match kind {
        None | Some(ColumnKind::IntKind) => None,
        Some(ColumnKind::TextKind) => {
            if is_ordered(test.cmp) {
                Some(CheckFault::WrongType { at: test.cmp_at })
            } else {
                None
            }
        }
    }
}

// `WrongType` at a constant that is not of its column's kind.
fn constant_fault(kind: Option<ColumnKind>, test: &Test) -> Option<CheckFault>
    ensures { result ≡ constant_fault kind test.now }
{
    match kind {
        None => None,
        Some(kind) => {
            if is_of_kind(kind, &test.value) {
                None
            } else {
                Some(CheckFault::WrongType { at: test.value_at })
            }
        }
    }
}

fn test_fault(schema: &Schema, test: &Test) -> Option<CheckFault>
    ensures { result ≡ first_of (test_faults schema.now test.now) }
{
    let kind = kind_of(schema, &test.column);
    let column = column_fault(schema, &test.column);
    first_of([column, order_fault(kind, test), constant_fault(kind, test)].as_slice())
}

fn tests_fault(schema: &Schema, tests: &[Test]) -> Option<CheckFault>
    ensures { result ≡ first_of (tests_faults schema.now tests.now) }
{
    let mut first = None;
    for test in tests {
        first = earlier(first, test_fault(schema, test));
    }
    first
}

fn any_fault(schema: &Schema, any: &[Seq<Test>]) -> Option<CheckFault>
    ensures { result ≡ first_of (flat_map (tests_faults schema.now) any.now) }
{
    let mut first = None;
    for tests in any {
        first = earlier(first, tests_fault(schema, tests.as_slice()));
    }
    first
}

/// The first fault of a predicate over a table, where the table is known: at a column that the
/// table lacks, at an order that is asked of texts, or at a constant that is not of its column's
/// kind.
pub(crate) fn pred_fault(table: Option<(u16, &Schema)>, pred: &Pred) -> Option<CheckFault>
    ensures { result ≡ first_of (where_known (known table.entry) (λ s. pred_faults s pred.now)) }
{
    match table {
        None => None,
        Some((_, schema)) => any_fault(schema, pred.any.as_slice()),
    }
}

fn typed_test(schema: &Schema, test: &Test) -> Result<TypedTest, NoMemory>
    ensures { IfOk result (λ typed. typed ≡ typed_test_of schema.now test.now) }
{
    Ok(TypedTest {
        column: column_place(schema, &test.column),
        cmp: test.cmp,
        value: test.value.clone()?,
    })
}

fn typed_tests(alloc: Global, schema: &Schema, tests: &[Test]) -> Result<Seq<TypedTest>, NoMemory>
    ensures { IfOk result (λ typed. typed ≡ map (typed_test_of schema.now) tests.now) }
{
    let mut typed = Vec::with_capacity(alloc, tests.len())?;
    for test in tests {
        typed.push(typed_test(schema, test)?)?;
    }
    Ok(Seq::from_vec(typed))
}

/// A predicate with its columns by their places. The error is that memory ran out.
pub(crate) fn typed_pred(alloc: Global, schema: &Schema, pred: &Pred) -> Result<TypedPred, NoMemory>
    ensures { IfOk result (λ typed. typed ≡ typed_pred_of schema.now pred.now) }
{
    let mut any = Vec::with_capacity(alloc, pred.any.len())?;
    for tests in pred.any.as_slice() {
        any.push(typed_tests(alloc, schema, tests.as_slice())?)?;
    }
    Ok(TypedPred {
        any: Seq::from_vec(any),
    })
}
