//! The rows that are asked for: those that stand at a version, are valid at a moment where there is
//! one, and pass, in order of id.
ghost use Rattle.std.specs.Prelude.{◌≡◌, IfOk, map};
ghost use Rattle.std.specs.List.{filter};
ghost use Rattle.tl_types.specs.History.{is_within};
ghost use Rattle.tl_query.specs.Fields.{row_fields};
ghost use Rattle.tl_plain.specs.Choosing.{is_valid_at, is_selected};

use crate::fields::row_fields;
use crate::passing::passes;
use crate::rows::Row;
use std::alloc::Global;
use tl_query::{TypedItem, TypedPred};
use tl_types::{Field, NoMemory, Period, Seq};

fn is_within(moment: i64, period: Option<Period>) -> bool
    ensures { result ≡ is_within moment period }
{
    match period {
        Some(period) => period.from() <= moment && moment < period.to(),
        None => false,
    }
}

fn is_valid_at(valid_at: Option<i64>, row: &Row) -> bool
    ensures { result ≡ is_valid_at valid_at row.now }
{
    match valid_at {
        Some(moment) => is_within(moment, row.period()),
        None => true,
    }
}

fn is_selected(pred: &TypedPred, valid_at: Option<i64>, version: u32, row: &Row) -> bool
    ensures { result ≡ is_selected pred.now valid_at version row.now }
{
    row.is_visible(version) && is_valid_at(valid_at, row) && passes(pred, row)
}

/// Of the rows that stand at the version, are valid at the moment where one is given, and pass the
/// predicate, in order, each item. The error is out of memory.
pub(crate) fn select(
    alloc: Global,
    rows: &[Row],
    items: &[TypedItem],
    pred: &TypedPred,
    valid_at: Option<i64>,
    version: u32,
) -> Result<Vec<Seq<Field>>, NoMemory>
    ensures { IfOk result (λ answer. answer.items ≡
        map (row_fields items.now) (filter (is_selected pred.now valid_at version) rows.now)) }
{
    let mut answer = Vec::new(alloc);
    for row in rows {
        if is_selected(pred, valid_at, version, row) {
            answer.push(row_fields(alloc, items, row)?)?;
        }
    }
    Ok(answer)
}
