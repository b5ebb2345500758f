//! Answers to queries for the pairs of rows that hold at one time: the rows of both sides that pass
//! and have equal cells, each pair with the moments that both have in common.
ghost use Rattle.std.specs.Prelude.{◌≡◌, ◌++◌, ◌<◌, ◌^◌, ℕ, length, map, IfOk, OnOk};
ghost use Rattle.std.specs.List.{filter_map};
ghost use Rattle.tl_types.specs.History.{with_ids, cell_at};
ghost use Rattle.tl_query.specs.Fields.{cell_field};
ghost use Rattle.tl_types.specs.Resolving.{same_key};
ghost use Rattle.tl_query.specs.Joins.{pair_from, common_pair};
ghost use Rattle.tl_query.specs.Answers.{cells_with};
ghost use Rattle.tl_plain.specs.Keyed.{row_with_id, AreByKey};
ghost use Rattle.tl_plain.specs.Pairing.{match_sides, pair_on, pairs_by_row, pairs_on, fields_on};

use crate::fields::{add_cells, moment_field};
use crate::keyed_rows::{KeyedRow, rows_by_key, rows_with_key, same_cell};
use crate::passing::passes;
use crate::rows::Row;
use crate::stretches::{span_end, span_start};
use crate::times::{Times, times_of};
use crate::values::cell_in;
use std::alloc::Global;
use tl_query::{Span, TypedPred};
use tl_types::{Field, NoMemory, Pair, Seq};

/// One side of a join: the rows of a table, what they pass, and a column.
#[derive(Clone, Copy)]
pub(crate) struct Side<'a> {
    /// All rows of the table, ended ones too, each at the place that is its id.
    pub rows: &'a [Row],
    /// What a row has to pass to stand in a pair.
    pub pred: &'a TypedPred,
    /// The place of the column whose cells are equal to the other side's.
    pub on: u8,
}

/// What is joined: two sides, and the range of time.
#[derive(Clone, Copy)]
pub(crate) struct Sides<'a> {
    /// The side whose ids come first in a pair.
    pub left: Side<'a>,
    /// The side whose ids come second.
    pub right: Side<'a>,
    /// The range of time.
    pub span: Span,
}

fn pair_from(left: u32, right: u32, from: i64, to: i64) -> Option<Pair>
    ensures { result ≡ pair_from left right from to }
{
    if from < to {
        Some(Pair {
            from,
            to,
            left,
            right,
        })
    } else {
        None
    }
}

// The pair of two rows over the times at which both hold, where there are any.
fn common_pair(
    span: Span,
    left: u32,
    right: u32,
    first: Option<Times>,
    second: Option<Times>,
) -> Option<Pair>
    ensures { result ≡ common_pair span left right first second }
{
    match first {
        None => None,
        Some(first) => match second {
            None => None,
            Some(second) => {
                let from = first.from().max(second.from()).max(span_start(span));
                let to = first.to().min(second.to()).min(span_end(span));
                pair_from(left, right, from, to)
            }
        },
    }
}

fn same_key(left: &Row, left_on: u8, right: &Row, right_on: u8) -> bool
    ensures { result ≡
        same_key (cell_at left.now.cells left_on) (cell_at right.now.cells right_on) }
{
    match left.cells().get(left_on as usize) {
        None => false,
        Some(first) => match right.cells().get(right_on as usize) {
            None => false,
            Some(second) => same_cell(first, second),
        },
    }
}

fn match_rows(sides: &Sides, left: &Row, right: &Row) -> bool
    ensures { result ≡ match_sides sides.now left.now right.now }
{
    passes(sides.left.pred, left)
        && passes(sides.right.pred, right)
        && same_key(left, sides.left.on, right, sides.right.on)
}

fn pair_of(sides: &Sides, left_id: u32, left: &Row, right_id: u32, right: &Row) -> Option<Pair>
    ensures { result ≡ pair_on sides.now (left_id, left.now) (right_id, right.now) }
{
    if match_rows(sides, left, right) {
        let first = times_of(sides.span, left);
        let second = times_of(sides.span, right);
        common_pair(sides.span, left_id, right_id, first, second)
    } else {
        None
    }
}

// The right rows that have the left row's cell, in order of id.
fn matching_rows<'a, 'b>(
    sides: &Sides,
    left: &Row,
    by_key: &'b [KeyedRow<'a>],
) -> &'b [KeyedRow<'a>]
    requires { AreByKey sides.now.right.on sides.now.right.rows.now by_key.now }
    ensures { (id : ℕ) →
        filter_map (pair_on sides.now (id, left.now)) (map row_with_id result.now) ≡
        filter_map (pair_on sides.now (id, left.now)) (with_ids sides.now.right.rows.now) }
{
    match cell_in(sides.left.on, left) {
        Some(key) => rows_with_key(by_key, key),
        None => &[],
    }
}

// Appends the pairs of one left row. The error is out of memory.
fn add_pairs(
    pairs: &mut Vec<Pair>,
    sides: &Sides,
    left_id: u32,
    left: &Row,
    rights: &[KeyedRow],
) -> Result<(), NoMemory>
    ensures { OnOk result (pairs.new.items ≡ pairs.old.items ++
        filter_map (pair_on sides.now (left_id, left.now)) (map row_with_id rights.now)) }
{
    for right in rights {
        if let Some(pair) = pair_of(sides, left_id, left, right.id, right.row) {
            pairs.push(pair)?;
        }
    }
    Ok(())
}

// The pairs of all rows, left row by left row. The error is out of memory.
fn pairs_by_row(alloc: Global, sides: &Sides) -> Result<Vec<Pair>, NoMemory>
    requires lefts { length sides.now.left.rows.now < 2 ^ 32 }
    requires rights { length sides.now.right.rows.now < 2 ^ 32 }
    ensures { IfOk result (λ pairs. pairs.items ≡ pairs_by_row sides.now) }
{
    let by_key = rows_by_key(alloc, sides.right.on, sides.right.rows)?;
    let mut pairs = Vec::new(alloc);
    for (left_id, left) in sides.left.rows.iter().enumerate() {
        let rights = matching_rows(sides, left, by_key.as_slice());
        add_pairs(&mut pairs, sides, left_id as u32, left, rights)?;
    }
    Ok(pairs)
}

// The pairs of all rows, in order. The error is out of memory.
fn joined_pairs(alloc: Global, sides: &Sides) -> Result<Vec<Pair>, NoMemory>
    requires lefts { length sides.now.left.rows.now < 2 ^ 32 }
    requires rights { length sides.now.right.rows.now < 2 ^ 32 }
    ensures { IfOk result (λ pairs. pairs.items ≡ pairs_on sides.now) }
{
    let mut pairs = pairs_by_row(alloc, sides)?;
    pairs.sort_by_key(|pair| (pair.from, pair.left, pair.right))?;
    Ok(pairs)
}

// Appends the cells of the row with an id. The error is out of memory.
fn add_row(fields: &mut Vec<Field>, rows: &[Row], id: u32) -> Result<(), NoMemory>
    ensures { OnOk result (fields.new.items ≡ fields.old.items ++
        map cell_field (cells_with rows.now id)) }
{
    if (id as usize) < rows.len() {
        add_cells(fields, rows[id as usize].cells())?;
    }
    Ok(())
}

fn pair_fields(alloc: Global, sides: &Sides, pair: Pair) -> Result<Seq<Field>, NoMemory>
    ensures { IfOk result (λ fields. fields ≡ fields_on sides.now pair) }
{
    let mut fields = Vec::new(alloc);
    fields.push(moment_field(pair.from))?;
    fields.push(moment_field(pair.to))?;
    add_row(&mut fields, sides.left.rows, pair.left)?;
    add_row(&mut fields, sides.right.rows, pair.right)?;
    Ok(Seq::from_vec(fields))
}

/// The answer to a query for pairs of rows. The error is out of memory.
pub(crate) fn join_rows(alloc: Global, sides: &Sides) -> Result<Vec<Seq<Field>>, NoMemory>
    requires lefts { length sides.now.left.rows.now < 2 ^ 32 }
    requires rights { length sides.now.right.rows.now < 2 ^ 32 }
    ensures { IfOk result (λ answer.
        answer.items ≡ map (fields_on sides.now) (pairs_on sides.now)) }
{
    let pairs = joined_pairs(alloc, sides)?;
    let mut answer = Vec::with_capacity(alloc, pairs.len())?;
    for pair in &pairs {
        answer.push(pair_fields(alloc, sides, *pair)?)?;
    }
    Ok(answer)
}
