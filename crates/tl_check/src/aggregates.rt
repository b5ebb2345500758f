//! The check of a query for an aggregate over time: its column, its table, its predicate, its
//! groups and its range. It refuses what it finds wrong furthest to the left.
ghost use Rattle.std.specs.Prelude.{◌≡◌, option_map};
ghost use Rattle.tl_query.specs.Checking.{first_of, IsUnlessMemory};
ghost use Rattle.tl_query.specs.CheckingQueries.{
  agg_checked,
  agg_faults,
  by_faults,
  column_place,
  measure_faults,
  number_fault,
  where_known,
};
ghost use Rattle.tl_query.specs.Parsed.{HasVersions};
ghost use Rattle.tl_check.specs.Known.{known};

use crate::columns::{column_fault, column_place, is_timeless, kind_of, table_fault};
use crate::first_fault::first_of;
use crate::predicates::{pred_fault, typed_pred};
use crate::ranges::{over_fault, span_of};
use crate::times::StoreTimes;
use std::alloc::Global;
use tl_query::{AggForm, CheckFault, Name, Typed};
use tl_types::{ColumnKind, Schema};

fn number_fault(kind: Option<ColumnKind>, name: &Name) -> Option<CheckFault>
    ensures { result ≡ number_fault kind name.now }
{
    match kind {
        None | Some(ColumnKind::IntKind) => None,
        Some(ColumnKind::TextKind) => Some(CheckFault::WrongType { at: name.at }),
    }
}

// The first fault at the column that the aggregate works on, where the table is known.
fn measure_fault(table: Option<(u16, &Schema)>, form: &AggForm) -> Option<CheckFault>
    ensures { result ≡ first_of
        (where_known (known table.entry) (λ s. measure_faults s form.now.column)) }
{
    match (table, &form.column) {
        (Some((_, schema)), Some(name)) => {
            let number = number_fault(kind_of(schema, name), name);
            first_of([column_fault(schema, name), number].as_slice())
        }
        _ => None,
    }
}

// The fault at the column after BY, where the table is known.
fn by_fault(table: Option<(u16, &Schema)>, form: &AggForm) -> Option<CheckFault>
    ensures { result ≡ first_of (where_known (known table.entry) (λ s. by_faults s form.now.by)) }
{
    match (table, &form.by) {
        (Some((_, schema)), Some(name)) => column_fault(schema, name),
        _ => None,
    }
}

#[tactic(auto, using(crate::proofs::FirstLemmas::parts_of_agg))]
fn agg_fault(
    times: &StoreTimes<'_>,
    table: Option<(u16, &Schema)>,
    form: &AggForm,
) -> Option<CheckFault>
    requires { HasVersions form.now.over }
    ensures { result ≡ first_of (agg_faults times.now (known table.entry) form.now) }
{
    let measure = measure_fault(table, form);
    let name = table_fault(table, &form.table);
    let pred = pred_fault(table, &form.pred);
    let by = by_fault(table, form);
    let over = over_fault(times, is_timeless(table), form.over);
    first_of([measure, name, pred, by, over].as_slice())
}

fn column_place_of(schema: &Schema, name: &Option<Name>) -> Option<u8>
    ensures { result ≡ option_map (column_place schema.now) name.now }
{
    match name {
        None => None,
        Some(name) => Some(column_place(schema, name)),
    }
}

/// The aggregate by numbers over the table that its name means, if it means one, or its first
/// fault. `NoMemory` says that memory ran out.
pub(crate) fn check_agg(
    alloc: Global,
    times: &StoreTimes<'_>,
    table: Option<(u16, &Schema)>,
    form: &AggForm,
) -> Result<Typed, CheckFault>
    requires { HasVersions form.now.over }
    ensures { IsUnlessMemory result (agg_checked times.now (known table.entry) form.now) }
{
    match (agg_fault(times, table, form), table) {
        (Some(fault), _) => Err(fault),
        (None, None) => Err(CheckFault::UnknownTable { at: form.table.at }),
        (None, Some((number, schema))) => Ok(Typed::Agg {
            table: number,
            kind: form.kind,
            column: column_place_of(schema, &form.column),
            by: column_place_of(schema, &form.by),
            pred: typed_pred(alloc, schema, &form.pred)?,
            span: span_of(times, is_timeless(table), form.over),
        }),
    }
}
