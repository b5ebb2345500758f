//! The check of a query for a join over time: both tables with their predicates, the columns after
//! ON and the range. It refuses what it finds wrong furthest to the left.
ghost use Rattle.std.specs.Prelude.{◌≡◌, ◌∷◌, ◌||◌, [], Some};
ghost use Rattle.tl_query.specs.Checking.{first_of, IsUnlessMemory};
ghost use Rattle.tl_query.specs.CheckingQueries.{
  column_fault,
  is_timeless,
  join_checked,
  join_faults,
  kinds_fault,
  on_faults,
  where_known,
};
ghost use Rattle.tl_query.specs.TypedFor.{same_kinds};
ghost use Rattle.tl_query.specs.Parsed.{HasVersions};
ghost use Rattle.tl_check.specs.Known.{known};

use crate::columns::{column_fault, column_place, is_timeless, known_kind, table_fault};
use crate::first_fault::first_of;
use crate::predicates::{pred_fault, typed_pred};
use crate::ranges::{over_fault, span_of};
use crate::times::StoreTimes;
use std::alloc::Global;
use tl_query::{CheckFault, JoinForm, Name, Typed};
use tl_types::{ColumnKind, Schema};

fn is_same_kind(left: ColumnKind, right: ColumnKind) -> bool
    ensures { result ≡ same_kinds (Some left) (Some right) }
{
    match (left, right) {
        (ColumnKind::IntKind, ColumnKind::IntKind) => true,
        (ColumnKind::IntKind, ColumnKind::TextKind) => false,
        (ColumnKind::TextKind, ColumnKind::IntKind) => false,
        (ColumnKind::TextKind, ColumnKind::TextKind) => true,
    }
}

// `WrongType` at the right column after ON, where both are known and of two kinds.
fn kinds_fault(left: Option<ColumnKind>, right: Option<ColumnKind>, at: u32) -> Option<CheckFault>
    ensures { result ≡ kinds_fault left right at }
{
    match (left, right) {
        (Some(one), Some(other)) => {
            if is_same_kind(one, other) {
                None
            } else {
                Some(CheckFault::WrongType { at })
            }
        }
        _ => None,
    }
}

// The fault at a column after ON, where its table is known.
fn on_fault(table: Option<(u16, &Schema)>, name: &Name) -> Option<CheckFault>
    ensures { result ≡ first_of
        (where_known (known table.entry) (λ s. column_fault s name.now ∷ [])) }
{
    match table {
        None => None,
        Some((_, schema)) => column_fault(schema, name),
    }
}

// The first fault at the columns after ON.
fn columns_fault(
    left: Option<(u16, &Schema)>,
    right: Option<(u16, &Schema)>,
    form: &JoinForm,
) -> Option<CheckFault>
    ensures { result ≡ first_of (on_faults (known left.entry) (known right.entry) form.now) }
{
    let left_on = on_fault(left, &form.left_on);
    let right_on = on_fault(right, &form.right_on);
    let left_kind = known_kind(left, &form.left_on);
    let right_kind = known_kind(right, &form.right_on);
    let kinds = kinds_fault(left_kind, right_kind, form.right_on.at);
    first_of([left_on, right_on, kinds].as_slice())
}

fn is_either_timeless(left: Option<(u16, &Schema)>, right: Option<(u16, &Schema)>) -> bool
    ensures { result ≡ (is_timeless (known left.entry) || is_timeless (known right.entry)) }
{
    is_timeless(left) || is_timeless(right)
}

#[tactic(auto, using(crate::proofs::FirstLemmas::parts_of_join))]
fn join_fault(
    times: &StoreTimes<'_>,
    left: Option<(u16, &Schema)>,
    right: Option<(u16, &Schema)>,
    form: &JoinForm,
) -> Option<CheckFault>
    requires { HasVersions form.now.over }
    ensures { result ≡ first_of
        (join_faults times.now (known left.entry) (known right.entry) form.now) }
{
    let left_name = table_fault(left, &form.left);
    let left_pred = pred_fault(left, &form.left_pred);
    let right_name = table_fault(right, &form.right);
    let right_pred = pred_fault(right, &form.right_pred);
    let columns = columns_fault(left, right, form);
    let over = over_fault(times, is_either_timeless(left, right), form.over);
    first_of([left_name, left_pred, right_name, right_pred, columns, over].as_slice())
}

/// The join by numbers over the tables that its names mean, if they mean any, or its first fault.
/// `NoMemory` says that memory ran out.
pub(crate) fn check_join(
    alloc: Global,
    times: &StoreTimes<'_>,
    left: Option<(u16, &Schema)>,
    right: Option<(u16, &Schema)>,
    form: &JoinForm,
) -> Result<Typed, CheckFault>
    requires { HasVersions form.now.over }
    ensures { IsUnlessMemory result
        (join_checked times.now (known left.entry) (known right.entry) form.now) }
{
    if let Some(fault) = join_fault(times, left, right, form) {
        return Err(fault);
    }
    let timeless = is_either_timeless(left, right);
    match (left, right) {
        (Some((left, left_schema)), Some((right, right_schema))) => Ok(Typed::Join {
            left,
            left_pred: typed_pred(alloc, left_schema, &form.left_pred)?,
            right,
            right_pred: typed_pred(alloc, right_schema, &form.right_pred)?,
            left_on: column_place(left_schema, &form.left_on),
            right_on: column_place(right_schema, &form.right_on),
            span: span_of(times, timeless, form.over),
        }),
        _ => Err(CheckFault::UnknownTable { at: form.left.at }),
    }
}
