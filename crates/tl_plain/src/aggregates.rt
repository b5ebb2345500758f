//! Answers to queries for aggregates over time: the runs over all rows that pass, or those of each
//! value of a column. Of a group the runs without a row are left out.
ghost use Rattle.std.specs.Prelude.{◌≡◌, ◌++◌, ◌<◌, ◌^◌, ◌==◌, ℕ, List, not, length, map, IfOk, OnOk};
ghost use Rattle.std.specs.List.{filter, flat_map};
ghost use Rattle.std.specs.List.Sorted.{IsSortedBy};
ghost use Rattle.tl_types.specs.Plain as plain;
ghost use Rattle.tl_query.specs.Fields.{cell_field};
ghost use Rattle.tl_query.specs.Ordered.{values_of};
ghost use Rattle.tl_query.specs.Passing.{passes};
ghost use Rattle.tl_query.specs.Aggregates.{in_group, with_rows, runs_in, group_runs};
ghost use Rattle.tl_query.specs.Answers.{group_fields, run_fields};
ghost use Rattle.tl_plain.specs.Choosing.{lent, there_at};
ghost use Rattle.tl_plain.specs.Grouping.{group_rows, runs_of_group, runs_over_rows};
ghost use Rattle.tl_plain.specs.Keyed.{key_before, AreByKey};

use crate::counting::count;
use crate::fields::moment_field;
use crate::keyed_rows::{KeyedRow, rows_by_key, rows_with_key};
use crate::passing::{passing_keyed, passing_rows};
use crate::rows::Row;
use crate::stretches::runs_in;
use crate::values::values_of;
use std::alloc::Global;
use tl_query::{AggPlan, Span, TypedPred};
use tl_types::{Cell, Field, NoMemory, Run, Seq};

fn into_field(cell: Cell) -> Field
    ensures { result ≡ cell_field cell }
{
    match cell {
        Cell::Int(number) => Field::Number(i128::from(number)),
        Cell::Text(text) => Field::Text(text),
    }
}

fn group_fields(alloc: Global, group: Option<Cell>) -> Result<Vec<Field>, NoMemory>
    ensures { IfOk result (λ fields. fields.items ≡ group_fields group) }
{
    let mut fields = Vec::new(alloc);
    if let Some(cell) = group {
        fields.push(into_field(cell))?;
    }
    Ok(fields)
}

// A run as a row: its group where it has one, its bounds, its value.
fn run_fields(alloc: Global, run: Run) -> Result<Seq<Field>, NoMemory>
    ensures { IfOk result (λ fields. fields ≡ run_fields run) }
{
    let Run {
        group,
        from,
        to,
        value,
    } = run;
    let mut fields = group_fields(alloc, group)?;
    fields.push(moment_field(from))?;
    fields.push(moment_field(to))?;
    fields.push(value)?;
    Ok(Seq::from_vec(fields))
}

fn all_fields(alloc: Global, runs: Vec<Run>) -> Result<Vec<Seq<Field>>, NoMemory>
    ensures { IfOk result (λ answer. answer.items ≡ map run_fields runs.items) }
{
    let mut answer = Vec::new(alloc);
    for run in runs {
        answer.push(run_fields(alloc, run)?)?;
    }
    Ok(answer)
}

fn has_row(span: Span, rows: &[&Row], moment: i64) -> bool
    ensures { result ≡ not (length (there_at span (lent rows.now) moment) == 0) }
{
    count(span, rows, moment) != 0
}

fn in_group(value: &Cell, run: Run) -> Result<Run, NoMemory>
    ensures { IfOk result (λ r. r ≡ in_group value.now run) }
{
    Ok(Run {
        group: Some(value.clone()?),
        from: run.from,
        to: run.to,
        value: run.value,
    })
}

// Appends the runs of a group that have a row. The error is out of memory.
fn add_runs(
    alloc: Global,
    answer: &mut Vec<Seq<Field>>,
    runs: Vec<Run>,
    value: &Cell,
    span: Span,
    rows: &[&Row],
) -> Result<(), NoMemory>
    ensures { OnOk result (answer.new.items ≡ answer.old.items ++
        map run_fields (map (in_group value.now)
        (with_rows (there_at span (lent rows.now)) runs.items))) }
{
    for run in runs {
        if has_row(span, rows, run.from) {
            answer.push(run_fields(alloc, in_group(value, run)?)?)?;
        }
    }
    Ok(())
}

// Appends the answer for one value of the grouping column, over the rows of its group. The error
// is out of memory.
fn add_group(
    alloc: Global,
    answer: &mut Vec<Seq<Field>>,
    plan: AggPlan,
    span: Span,
    rows: &[&Row],
    value: &Cell,
) -> Result<(), NoMemory>
    requires { length rows.now < 2 ^ 32 }
    ensures { OnOk result (answer.new.items ≡ answer.old.items ++
        map run_fields (group_runs plan.kind plan.column span
        (there_at span (lent rows.now)) value.now)) }
{
    let runs = runs_in(alloc, plan, span, rows)?;
    add_runs(alloc, answer, runs, value, span, rows)
}

// The rows that have the value and pass, in order. The error is out of memory.
fn group_rows<'a>(
    alloc: Global,
    pred: &TypedPred,
    by_key: &[KeyedRow<'a>],
    value: &Cell,
) -> Result<Vec<&'a Row>, NoMemory>
    requires { IsSortedBy key_before by_key.now }
    ensures { (by : ℕ) (rows : List plain.Row) → AreByKey by rows by_key.now →
        IfOk result (λ group. lent group.items ≡ group_rows pred.now by value.now rows) }
{
    let group = passing_keyed(alloc, pred, rows_with_key(by_key, value))?;
    Ok(group)
}

// The answer for each value of a column, in order. The error is out of memory.
fn groups(
    alloc: Global,
    plan: AggPlan,
    pred: &TypedPred,
    span: Span,
    rows: &[Row],
    by: u8,
) -> Result<Vec<Seq<Field>>, NoMemory>
    requires { length rows.now < 2 ^ 32 }
    ensures { IfOk result (λ answer. answer.items ≡
        map run_fields (flat_map (runs_of_group plan.kind plan.column pred.now span rows.now by)
        (values_of by rows.now))) }
{
    let values = values_of(alloc, by, rows)?;
    let by_key = rows_by_key(alloc, by, rows)?;
    let mut answer = Vec::new(alloc);
    for value in values {
        let group = group_rows(alloc, pred, by_key.as_slice(), value)?;
        add_group(alloc, &mut answer, plan, span, group.as_slice(), value)?;
    }
    Ok(answer)
}

// The answer over all rows. The error is out of memory.
fn ungrouped(
    alloc: Global,
    plan: AggPlan,
    pred: &TypedPred,
    span: Span,
    rows: &[Row],
) -> Result<Vec<Seq<Field>>, NoMemory>
    requires { length rows.now < 2 ^ 32 }
    ensures { IfOk result (λ answer. answer.items ≡
        map run_fields (runs_in plan.kind plan.column span
        (there_at span (filter (passes pred.now) rows.now)))) }
{
    let passing = passing_rows(alloc, pred, rows)?;
    let runs = runs_in(alloc, plan, span, passing.as_slice())?;
    all_fields(alloc, runs)
}

/// The answer to a query for an aggregate over time. The error is out of memory.
pub(crate) fn aggregate(
    alloc: Global,
    plan: AggPlan,
    pred: &TypedPred,
    span: Span,
    rows: &[Row],
) -> Result<Vec<Seq<Field>>, NoMemory>
    requires { length rows.now < 2 ^ 32 }
    ensures { IfOk result (λ answer. answer.items ≡
        map run_fields (runs_over_rows plan.kind plan.column plan.by pred.now span rows.now)) }
{
    match plan.by {
        Some(by) => groups(alloc, plan, pred, span, rows, by),
        None => ungrouped(alloc, plan, pred, span, rows),
    }
}
