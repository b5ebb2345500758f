//! The plan that a text names over the commits of a store, or the text's first fault. Nothing is
//! kept of the text.
ghost use Rattle.std.specs.Prelude.{◌≡◌, IfOk, length};
ghost use Rattle.tl_types.specs.History.{database_of};
ghost use Rattle.tl_types.specs.Plain.{Database};
ghost use Rattle.tl_query.specs.CheckingQueries.{checked};
ghost use Rattle.tl_query.specs.Parsed.{IsParsed, IsQuery};
ghost use Rattle.tl_query.specs.TypedFor.{IsTypedFor};
ghost use Rattle.tl_watch.specs.Watches.{IsOfQuery};
ghost use Rattle.tl_commands.specs.Plans.{is_all, is_over_all, no_plan, plan_of, plan_checked, plan_reading, query_plan, statement_plan};

use std::alloc::Global;
use tl_check::check;
use tl_jobs::{Refusal, check_refusal, text_refusal};
use tl_query::{Over, Query, Statement, TextFault, Typed, parse};
use tl_store::Store;
use tl_types::NoMemory;
use tl_watch::WatchPlan;

// Whether a range is of all versions.
fn is_all(over: &Over) -> bool
    ensures { result ≡ is_all over.now }
{
    match over {
        Over::SystemAll => true,
        Over::System { from: _, to: _ } => false,
        Over::Valid {
            pos: _,
            from: _,
            to: _,
            as_of: _,
        } => false,
    }
}

// Whether a query is an aggregate over all versions.
fn is_over_all(query: &Query) -> bool
    ensures { result ≡ is_over_all query.now }
{
    match query {
        Query::Select(_) => false,
        Query::Agg(form) => is_all(&form.over),
        Query::Join(_) => false,
    }
}

// The refusal of a statement that is no aggregate over all versions.
fn no_plan() -> Refusal
    ensures { result ≡ no_plan }
{
    Refusal::TextFault(TextFault::Unexpected { at: 0 })
}

// The plan of a checked query, which is an aggregate. It is of a query where that suits a database.
fn plan_of(typed: Typed) -> Result<WatchPlan, Refusal>
    ensures reads { result ≡ plan_of typed }
    ensures typed { (db : Database) → IsTypedFor db typed
        → IfOk result (λ plan. IsOfQuery plan db) }
{
    match typed {
        Typed::Agg {
            table,
            kind,
            column,
            by,
            pred,
            span: _,
        } => {
            let plan = WatchPlan {
                table,
                kind,
                column,
                by,
                pred,
            };
            Ok(plan)
        }
        Typed::Select {
            table: _,
            items: _,
            pred: _,
            valid_at: _,
            version: _,
        } => Err(no_plan()),
        Typed::Join {
            left: _,
            left_pred: _,
            right: _,
            right_pred: _,
            left_on: _,
            right_on: _,
            span: _,
        } => Err(no_plan()),
    }
}

// The plan of a query, or the fault of its check. The error is `NoMemory`.
fn checked_plan(
    alloc: Global,
    store: &Store,
    query: &Query,
) -> Result<Result<WatchPlan, Refusal>, NoMemory>
    requires { IsQuery query.now }
    ensures reads { IfOk result (λ read. read
        ≡ plan_checked (checked (length store.now) (database_of store.now) query.now)) }
    ensures typed { IfOk result (λ read. IfOk read
        (λ plan. IsOfQuery plan (database_of store.now))) }
{
    match check(alloc, query, store) {
        Ok(typed) => Ok(plan_of(typed)),
        Err(fault) => Ok(Err(check_refusal(fault)?)),
    }
}

// The plan of a query: its kind is looked at before it is checked. The error is `NoMemory`.
fn query_plan(
    alloc: Global,
    store: &Store,
    query: &Query,
) -> Result<Result<WatchPlan, Refusal>, NoMemory>
    requires { IsQuery query.now }
    ensures reads { IfOk result (λ read. read
        ≡ query_plan (database_of store.now) (length store.now) query.now) }
    ensures typed { IfOk result (λ read. IfOk read
        (λ plan. IsOfQuery plan (database_of store.now))) }
{
    let is_over_all = is_over_all(query);
    if !is_over_all {
        return Ok(Err(no_plan()));
    }
    let read = checked_plan(alloc, store, query)?;
    Ok(read)
}

// The plan of a statement. The error is `NoMemory`.
fn statement_plan(
    alloc: Global,
    store: &Store,
    statement: &Statement,
) -> Result<Result<WatchPlan, Refusal>, NoMemory>
    requires { IsParsed statement.now }
    ensures reads { IfOk result (λ read. read
        ≡ statement_plan (database_of store.now) (length store.now) statement.now) }
    ensures typed { IfOk result (λ read. IfOk read
        (λ plan. IsOfQuery plan (database_of store.now))) }
{
    match statement {
        Statement::Create(_) => Ok(Err(no_plan())),
        Statement::Put(_) => Ok(Err(no_plan())),
        Statement::Remove(_) => Ok(Err(no_plan())),
        Statement::Sync(_) => Ok(Err(no_plan())),
        Statement::Ask(query) => {
            let read = query_plan(alloc, store, query)?;
            Ok(read)
        }
        Statement::Moment(_) => Ok(Err(no_plan())),
        Statement::Forget { table: _, floor: _ } => Ok(Err(no_plan())),
    }
}

/// The plan that a text names, or its first fault. The text is parsed first; then it has to be an
/// aggregate `OVER SYSTEM ALL`, and is `Unexpected` at 0 where it is another statement; then it is
/// checked over the commits of the store. The plan has the aggregate's table, kind, column, groups
/// and predicate; its range is not used. The error is `NoMemory`.
pub fn read_plan(
    alloc: Global,
    store: &Store,
    text: &str,
) -> Result<Result<WatchPlan, Refusal>, NoMemory>
    ensures reads { IfOk result (λ read. read ≡ plan_reading store.now text.now) }
    ensures typed { IfOk result (λ read. IfOk read
        (λ plan. IsOfQuery plan (database_of store.now))) }
{
    match parse(alloc, text) {
        Ok(statement) => {
            let read = statement_plan(alloc, store, &statement)?;
            Ok(read)
        }
        Err(fault) => Ok(Err(text_refusal(fault)?)),
    }
}
