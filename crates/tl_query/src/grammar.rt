//! Reading the tokens of a statement, from left to right and with one token ahead: one function
//! for each kind of statement, chosen by its first word.
ghost use Rattle.std.specs.Prelude.{◌≡◌, ◌-◌, ◌<◌, Some, None, Ok, true, false};
ghost use Rattle.tl_query.specs.Reading.{Gives, after, expect, column_at, columns_at, valid_at, create_at, put_at, remove_at, items_at, asked_at, parse_select, agg_at, join_at, moment_stated_at, forget_at, sync_at, agg_or_soft_at, statement_at};

use crate::ast::{AggForm, ColumnForm, CreateForm, Item, JoinForm, Query, SelectForm, Statement};
use crate::clauses::{
    as_of_at, by_at, column_name_at, on_at, over_at, side_at, valid_point_at, where_at,
};
use crate::terminals::{SoftWord, Terminal};
use crate::token_parsers::{
    Stop, after, after_keyword, agg_kind_at, expect, expect_keyword, item_at, kind_at, name_at,
    number_at, soft_word, soft_word_at, statement_end, version_at,
};
use crate::tokens::Placed;
use std::alloc::Global;
use tl_types::{Keyword, Seq};

/// How many columns a table can have.
const MOST_COLUMNS: usize = 16;

#[tactic(auto, unfolding(crate::specs::Reading::column_at))]
fn column_at(tokens: &[Placed]) -> Result<(ColumnForm, &[Placed]), Stop>
    ensures { Gives (λ x. (x.0, x.1.now)) result (column_at tokens.now) }
{
    let (name, rest) = name_at(tokens)?;
    let (kind, rest) = kind_at(rest)?;
    Ok((ColumnForm { name, kind }, rest))
}

// The columns of a new table that begin here, at most as many as a table can have.
#[tactic(auto, unfolding(crate::specs::Reading::columns_at))]
fn columns_at(alloc: Global, tokens: &[Placed]) -> Result<(Seq<ColumnForm>, &[Placed]), Stop>
    ensures { Gives (λ x. (x.0, x.1.now)) result (columns_at tokens.now) }
{
    let (first, mut rest) = column_at(tokens)?;
    let mut columns = Vec::new(alloc);
    columns.push(first)?;
    while columns.len() < MOST_COLUMNS {
        let Some(next) = after(rest, Terminal::Comma) else {
            break;
        };
        let (column, left) = column_at(next)?;
        columns.push(column)?;
        rest = left;
    }
    Ok((Seq::from_vec(columns), rest))
}

#[tactic(auto, unfolding(crate::specs::Reading::valid_at))]
fn valid_at(tokens: &[Placed]) -> (bool, &[Placed])
    ensures { valid_at tokens.now ≡ Ok (result.0, result.1.now) }
{
    match after_keyword(tokens, Keyword::Valid) {
        Some(rest) => (true, rest),
        None => (false, tokens),
    }
}

// The statement behind `CREATE`.
#[tactic(auto, unfolding(crate::specs::Reading::create_at))]
fn create_at(alloc: Global, tokens: &[Placed]) -> Result<Statement, Stop>
    ensures { Gives (λ s. s) result (create_at tokens.now) }
{
    let rest = expect_keyword(tokens, Keyword::Table)?;
    let (name, rest) = name_at(rest)?;
    let rest = expect(rest, Terminal::Open)?;
    let (columns, rest) = columns_at(alloc, rest)?;
    let rest = expect(rest, Terminal::Close)?;
    let rest = expect_keyword(rest, Keyword::Key)?;
    let (key, rest) = name_at(rest)?;
    let (valid, rest) = valid_at(rest);
    statement_end(
        Statement::Create(CreateForm {
            name,
            columns,
            key,
            valid,
        }),
        rest,
    )
}

#[tactic(auto, unfolding(crate::specs::Reading::put_at))]
fn put_at(tokens: &[Placed]) -> Result<Statement, Stop>
    ensures { Gives (λ s. s) result (put_at tokens.now) }
{
    let (name, rest) = name_at(tokens)?;
    statement_end(Statement::Put(name), rest)
}

#[tactic(auto, unfolding(crate::specs::Reading::remove_at))]
fn remove_at(tokens: &[Placed]) -> Result<Statement, Stop>
    ensures { Gives (λ s. s) result (remove_at tokens.now) }
{
    let (name, rest) = name_at(tokens)?;
    statement_end(Statement::Remove(name), rest)
}

fn items_at(alloc: Global, tokens: &[Placed]) -> Result<(Seq<Item>, &[Placed]), Stop>
    ensures { Gives (λ x. (x.0, x.1.now)) result (items_at tokens.now) }
{
    let (first, mut rest) = item_at(tokens)?;
    let mut items = Vec::new(alloc);
    items.push(first)?;
    while let Some(next) = after(rest, Terminal::Comma) {
        let (item, left) = item_at(next)?;
        items.push(item)?;
        rest = left;
    }
    Ok((Seq::from_vec(items), rest))
}

#[tactic(auto, unfolding(crate::specs::Reading::asked_at))]
fn asked_at(alloc: Global, tokens: &[Placed]) -> Result<(bool, Seq<Item>, &[Placed]), Stop>
    ensures { Gives (λ x. ((x.0, x.1), x.2.now)) result (asked_at tokens.now) }
{
    if let Some(rest) = after(tokens, Terminal::Star) {
        return Ok((true, Seq::new(alloc), rest));
    }
    let (items, rest) = items_at(alloc, tokens)?;
    Ok((false, items, rest))
}

// The statement behind `SELECT`.
#[tactic(auto, unfolding(crate::specs::Reading::parse_select))]
fn parse_select(alloc: Global, tokens: &[Placed]) -> Result<Statement, Stop>
    ensures { Gives (λ s. s) result (parse_select tokens.now) }
{
    let (all, items, rest) = asked_at(alloc, tokens)?;
    let rest = expect_keyword(rest, Keyword::From)?;
    let (table, rest) = name_at(rest)?;
    let (pred, rest) = where_at(alloc, rest)?;
    let (valid_at, rest) = valid_point_at(rest)?;
    let (as_of, rest) = as_of_at(rest)?;
    let form = SelectForm {
        all,
        items,
        table,
        pred,
        valid_at,
        as_of,
    };
    statement_end(Statement::Ask(Query::Select(form)), rest)
}

// The statement that begins with the name of an aggregate.
#[tactic(auto, unfolding(crate::specs::Reading::agg_at))]
fn agg_at(alloc: Global, tokens: &[Placed]) -> Result<Statement, Stop>
    ensures { Gives (λ s. s) result (agg_at tokens.now) }
{
    let (kind, rest) = agg_kind_at(tokens)?;
    let (column, rest) = column_name_at(kind, rest)?;
    let rest = expect_keyword(rest, Keyword::From)?;
    let (table, rest) = name_at(rest)?;
    let (pred, rest) = where_at(alloc, rest)?;
    let (by, rest) = by_at(rest)?;
    let (over, rest) = over_at(rest)?;
    let form = AggForm {
        kind,
        column,
        table,
        pred,
        by,
        over,
    };
    statement_end(Statement::Ask(Query::Agg(form)), rest)
}

// The statement behind `JOIN`.
#[tactic(auto, unfolding(crate::specs::Reading::join_at))]
fn join_at(alloc: Global, tokens: &[Placed]) -> Result<Statement, Stop>
    ensures { Gives (λ s. s) result (join_at tokens.now) }
{
    let (left, left_pred, rest) = side_at(alloc, tokens)?;
    let rest = expect_keyword(rest, Keyword::With)?;
    let (right, right_pred, rest) = side_at(alloc, rest)?;
    let (left_on, right_on, rest) = on_at(rest)?;
    let (over, rest) = over_at(rest)?;
    let form = JoinForm {
        left,
        left_pred,
        right,
        right_pred,
        left_on,
        right_on,
        over,
    };
    statement_end(Statement::Ask(Query::Join(form)), rest)
}

// What follows `MOMENT`.
#[tactic(auto, unfolding(crate::specs::Reading::moment_stated_at))]
fn moment_stated_at(tokens: &[Placed]) -> Result<Statement, Stop>
    ensures { Gives (λ s. s) result (moment_stated_at tokens.now) }
{
    let (moment, rest) = number_at(tokens)?;
    statement_end(Statement::Moment(moment), rest)
}

// What follows `FORGET`.
#[tactic(auto, unfolding(crate::specs::Reading::forget_at))]
fn forget_at(tokens: &[Placed]) -> Result<Statement, Stop>
    ensures { Gives (λ s. s) result (forget_at tokens.now) }
{
    let (table, rest) = name_at(tokens)?;
    let (_, rest) = soft_word_at(rest, SoftWord::Before)?;
    let (floor, rest) = version_at(rest)?;
    statement_end(Statement::Forget { table, floor }, rest)
}

// What follows `SYNC`.
#[tactic(auto, unfolding(crate::specs::Reading::sync_at))]
fn sync_at(tokens: &[Placed]) -> Result<Statement, Stop>
    ensures { Gives (λ s. s) result (sync_at tokens.now) }
{
    let (name, rest) = name_at(tokens)?;
    statement_end(Statement::Sync(name), rest)
}

// A statement that begins with `MOMENT`, `FORGET` or `SYNC`, or an aggregate.
#[tactic(auto, unfolding(crate::specs::Reading::agg_or_soft_at))]
fn agg_or_soft_at(alloc: Global, tokens: &[Placed]) -> Result<Statement, Stop>
    ensures { Gives (λ s. s) result (agg_or_soft_at tokens.now) }
{
    if let Some((_, rest)) = soft_word(tokens, SoftWord::Moment) {
        return moment_stated_at(rest);
    }
    if let Some((_, rest)) = soft_word(tokens, SoftWord::Forget) {
        return forget_at(rest);
    }
    if let Some((_, rest)) = soft_word(tokens, SoftWord::Sync) {
        return sync_at(rest);
    }
    agg_at(alloc, tokens)
}

/// The statement that the tokens spell, or where reading it stops.
#[tactic(auto, unfolding(crate::specs::Reading::statement_at))]
pub(crate) fn statement_at(alloc: Global, tokens: &[Placed]) -> Result<Statement, Stop>
    ensures { Gives (λ s. s) result (statement_at tokens.now) }
{
    if let Some(rest) = after_keyword(tokens, Keyword::Create) {
        return create_at(alloc, rest);
    }
    if let Some(rest) = after_keyword(tokens, Keyword::Put) {
        return put_at(rest);
    }
    if let Some(rest) = after_keyword(tokens, Keyword::Remove) {
        return remove_at(rest);
    }
    if let Some(rest) = after_keyword(tokens, Keyword::Select) {
        return parse_select(alloc, rest);
    }
    if let Some(rest) = after_keyword(tokens, Keyword::Join) {
        return join_at(alloc, rest);
    }
    agg_or_soft_at(alloc, tokens)
}
