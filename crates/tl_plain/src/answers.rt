//! The answer to a query over the tables: each kind of query has a slow function of its own, and
//! the answer is the definition's. Nothing is refused but for memory.
ghost use Rattle.std.specs.Prelude.{◌≡◌, ◌<◌, ◌^◌, IfOk, length};
ghost use Rattle.tl_types.specs.History.{rows_of};
ghost use Rattle.tl_query.specs.Answers.{answer_of};

use crate::aggregates::aggregate;
use crate::database::Tables;
use crate::joins::{Side, Sides, join_rows};
use crate::selects::select;
use std::alloc::Global;
use tl_query::{AggKind, AggPlan, Typed, TypedPred};
use tl_types::{Answer, Field, NoMemory, Seq};

// What an aggregate over the table with a number works out: its kind, its column, and the column
// of its groups.
fn plan_of(table: u16, kind: AggKind, column: Option<u8>, by: Option<u8>) -> AggPlan
    ensures { result ≡ record { table = table; kind = kind; column = column; by = by } }
{
    AggPlan {
        table,
        kind,
        column,
        by,
    }
}

// The side of a join that the table with a number stands on.
fn side_of<'a>(tables: &'a Tables, table: u16, pred: &'a TypedPred, on: u8) -> Side<'a>
    ensures rows { result.rows.now ≡ rows_of tables.now table }
    ensures few { length result.rows.now < 2 ^ 32 }
    ensures pred { result.pred.now ≡ pred.now }
    ensures on { result.on ≡ on }
{
    let rows = tables.rows(table);
    Side { rows, pred, on }
}

// The rows of the answer to a query. The error is out of memory.
fn answer_rows(alloc: Global, tables: &Tables, query: &Typed) -> Result<Vec<Seq<Field>>, NoMemory>
    ensures { IfOk result (λ rows. rows.items ≡ answer_of tables.now query.now) }
{
    let rows = match query {
        Typed::Select {
            table,
            items,
            pred,
            valid_at,
            version,
        } => {
            let rows = tables.rows(*table);
            select(alloc, rows, items.as_slice(), pred, *valid_at, *version)?
        }
        Typed::Agg {
            table,
            kind,
            column,
            by,
            pred,
            span,
        } => {
            let plan = plan_of(*table, *kind, *column, *by);
            aggregate(alloc, plan, pred, *span, tables.rows(*table))?
        }
        Typed::Join {
            left,
            left_pred,
            right,
            right_pred,
            left_on,
            right_on,
            span,
        } => {
            let left = side_of(tables, *left, left_pred, *left_on);
            let right = side_of(tables, *right, right_pred, *right_on);
            let span = *span;
            join_rows(alloc, &Sides { left, right, span })?
        }
    };
    Ok(rows)
}

/// The answer to a query over these tables. A SELECT gives its items of each row that stands at its
/// version, is valid at its valid time where it has one, and passes, in order of id. An aggregate
/// gives the maximal runs of its value over its range, for each value of its grouping column in
/// order where it has one, and there those that have a row. A join gives the pairs of rows that
/// pass, have equal cells, and hold at one time of its range, in order of their first moments, left
/// ids and right ids. A table that is not there has no rows, and what a row lacks is an empty
/// field. The error is out of memory.
pub fn answer_plain(alloc: Global, tables: &Tables, query: &Typed) -> Result<Answer, NoMemory>
    ensures { IfOk result (λ answer. answer.rows ≡ answer_of tables.now query.now) }
{
    let rows = answer_rows(alloc, tables, query)?;
    Ok(Answer {
        rows: Seq::from_vec(rows),
    })
}
