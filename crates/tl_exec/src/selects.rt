//! Rows of one table that are asked for: those of a set that are valid at a moment, each with the
//! items in order. An item that the table has not got is refused.
ghost use Rattle.std.specs.Prelude.{◌≡◌, ℕ, ◌+◌, ◌*◌, ◌/◌, ◌<◌, ◌≤◌, ◌++◌, ◌&&◌, [], IfOk, OnOk, Some, length, map};
ghost use Rattle.tl_types.specs.Entries.{commits_of};
ghost use Rattle.tl_types.specs.History.{database_of, rows_of};
ghost use Rattle.tl_types.specs.Plain as plain;
ghost use Rattle.tl_query.specs.Answers.{selected};
ghost use Rattle.tl_filter.specs.Selecting.{IsTypedPredFor};
ghost use Rattle.tl_exec.specs.Bounds.{select_steps};
ghost use Rattle.tl_store.specs.Reading.{row_of};
ghost use Rattle.tl_lanes.specs.Masks.{is_bit, words_for};
ghost use Rattle.tl_bits.specs.Sets.{is_member};
ghost use Rattle.tl_exec.specs.Shown.{HasItems, HasMoment, TellsAsked, TellsValid, is_valid_at, rows_in_set, fields_in_set, fields_if_valid};

use crate::fields::push_items;
use crate::sets::chosen_rows;
use std::alloc::Global;
use std::sync::ledger::Ledger;
use tl_bits::RowSet;
use tl_index::Snapshot;
use tl_query::{TypedItem, TypedPred};
use tl_rows::{AnswerRows, RowsWriter};
use tl_store::Store;
use tl_types::{NoMemory, Steps};

/// What is asked of rows of a table: some items, of the rows that are valid at a moment where one
/// is given.
#[derive(Clone, Copy)]
pub(crate) struct AskedFields<'a> {
    /// The store that keeps the rows.
    pub(crate) store: &'a Store,
    /// The table's number, from 0.
    pub(crate) table: u16,
    /// What is shown of each row, in order.
    pub(crate) items: &'a [TypedItem],
    /// The moment of valid time at which the rows hold, where one is given.
    pub(crate) valid_at: Option<i64>,
}

// A word of the mask of the rows that are valid at a moment: that of the rows from id 64 `at` on.
#[derive(Clone, Copy)]
struct ValidWord {
    at: u32,
    bits: u64,
}

// The word of rows that no table has.
fn no_word(asked: AskedFields<'_>) -> ValidWord
    requires { length (rows_of (database_of asked.store.now) asked.table) ≤ 16777216 }
    ensures { TellsAsked (database_of asked.entry.store.now) asked.entry.table
        asked.entry.valid_at result.at result.bits }
{
    ValidWord {
        at: u32::MAX,
        bits: 0,
    }
}

// Whether bit k of a word is set.
fn has_bit(word: u64, k: u32) -> bool
    requires { k < 64 }
    ensures { result ≡ is_bit word k }
{
    (word >> k) & 1 == 1
}

// The word of the rows that are valid at a moment in which a row stands: the one that was looked at
// last, or one that is looked at now, which takes a step.
fn word_with<L: Ledger>(
    asked: AskedFields<'_>,
    moment: i64,
    last: ValidWord,
    row: u32,
    steps: &mut Steps<L>,
) -> ValidWord
    requires row { row < length (rows_of (database_of asked.store.now) asked.table) }
    requires last { TellsValid (database_of asked.store.now) asked.table moment
        last.at last.bits }
    ensures at { result.at ≡ row / 64 }
    ensures tells { TellsValid (database_of asked.entry.store.now) asked.entry.table moment
        result.at result.bits }
    ensures steps { steps.new ≤ steps.old + 1 }
{
    let at = row / 64;
    if last.at == at {
        return last;
    }
    let bits = asked.store.valid_word(asked.table, row, moment, steps);
    ValidWord { at, bits }
}

// Whether a row is valid at the moment, where one is given, and which word was looked at. It takes
// at most one step.
fn is_valid_at<L: Ledger>(
    asked: AskedFields<'_>,
    last: ValidWord,
    row: u32,
    steps: &mut Steps<L>,
) -> (bool, ValidWord)
    requires row { row < length (rows_of (database_of asked.store.now) asked.table) }
    requires last { TellsAsked (database_of asked.store.now) asked.table asked.valid_at
        last.at last.bits }
    ensures value { (r : plain.Row)
        → row_of (database_of asked.entry.store.now) asked.entry.table row ≡ Some r
        → result.0 ≡ is_valid_at asked.entry.valid_at r }
    ensures tells { TellsAsked (database_of asked.entry.store.now) asked.entry.table
        asked.entry.valid_at result.1.at result.1.bits }
    ensures steps { steps.new ≤ steps.old + 1 }
{
    match asked.valid_at {
        Some(moment) => {
            let word = word_with(asked, moment, last, row, steps);
            (has_bit(word.bits, row % 64), word)
        }
        None => (true, last),
    }
}

// Appends the row of the items of a row, where it is valid at the moment, and answers which word of
// the valid rows was looked at. It takes at most a step for each item and one more. The error is
// out of memory.
fn add_row<L: Ledger>(
    rows: &mut RowsWriter,
    asked: AskedFields<'_>,
    last: ValidWord,
    row: u32,
    steps: &mut Steps<L>,
) -> Result<ValidWord, NoMemory>
    requires row { row < length (rows_of (database_of asked.store.now) asked.table) }
    requires items { HasItems (database_of asked.store.now) asked.table asked.items.now }
    requires last { TellsAsked (database_of asked.store.now) asked.table asked.valid_at
        last.at last.bits }
    requires between { rows.old.row ≡ [] }
    ensures value { (r : plain.Row)
        → row_of (database_of asked.entry.store.now) asked.entry.table row ≡ Some r
        → OnOk result (rows.new.rows ≡ rows.old.rows
        ++ fields_if_valid asked.entry.items.now asked.entry.valid_at r) }
    ensures tells { IfOk result (λ word. TellsAsked (database_of asked.entry.store.now)
        asked.entry.table asked.entry.valid_at word.at word.bits) }
    ensures between { OnOk result (rows.new.row ≡ []) }
    ensures steps { steps.new ≤ steps.old + length asked.entry.items.now + 1 }
{
    let (is_valid, word) = is_valid_at(asked, last, row, steps);
    if is_valid {
        push_items(rows, asked.store, asked.table, row, asked.items, steps)?;
        rows.end_row()?;
    }
    Ok(word)
}

/// The items of the rows of a set that are valid at the moment where one is given, in order of id.
/// It takes at most a step for each begun 64 of rows, and for each row of the set two and one for
/// each item. The error is out of memory.
pub(crate) fn fields_of_set<L: Ledger>(
    alloc: Global,
    asked: AskedFields<'_>,
    set: &RowSet,
    steps: &mut Steps<L>,
) -> Result<AnswerRows, NoMemory>
    requires rows { length set.now
        ≡ length (rows_of (database_of asked.store.now) asked.table) }
    requires few { length set.now ≤ 16777216 }
    requires items { HasItems (database_of asked.store.now) asked.table asked.items.now }
    requires moment { HasMoment (database_of asked.store.now) asked.table asked.valid_at }
    ensures rows { IfOk result (λ answer. answer.rows
        ≡ fields_in_set asked.entry.items.now asked.entry.valid_at set.now
        (rows_of (database_of asked.entry.store.now) asked.entry.table)) }
    ensures steps { let chosen = rows_in_set set.now
        (rows_of (database_of asked.entry.store.now) asked.entry.table) in
        steps.new ≤ steps.old + words_for (length set.now)
        + (length asked.entry.items.now + 2) * length chosen }
{
    let mut rows = RowsWriter::new(alloc);
    let mut word = no_word(asked);
    let mut from = 0;
    'members: while let Some(row) = set.next(from, steps) {
        let seen = add_row(&mut rows, asked, word, row, steps)?;
        word = seen;
        from = row + 1;
    }
    Ok(rows.finish())
}

/// The items of the rows of a table that are visible at a version, are valid at the moment where
/// one is given, and pass a predicate, in order of id. The error is out of memory.
pub(crate) fn select_fields<L: Ledger>(
    alloc: Global,
    snapshot: &Snapshot,
    asked: AskedFields<'_>,
    pred: &TypedPred,
    version: u32,
    steps: &mut Steps<L>,
) -> Result<AnswerRows, NoMemory>
    requires store { asked.store.now ≡ commits_of snapshot.now }
    requires table { asked.table < length (database_of (commits_of snapshot.now)).tables }
    requires version { version ≤ (database_of (commits_of snapshot.now)).version }
    requires typed { IsTypedPredFor (database_of (commits_of snapshot.now)) asked.table pred.now }
    requires items { HasItems (database_of (commits_of snapshot.now)) asked.table asked.items.now }
    requires moment { HasMoment (database_of (commits_of snapshot.now)) asked.table
        asked.valid_at }
    ensures rows { IfOk result (λ answer. answer.rows
        ≡ selected (database_of (commits_of snapshot.now)) asked.entry.table
        asked.entry.items.now pred.now asked.entry.valid_at version) }
    ensures steps { steps.new ≤ steps.old + select_steps snapshot.now asked.entry.table
        asked.entry.items.now pred.now version }
{
    let set = chosen_rows(alloc, snapshot, asked.table, version, pred, steps)?;
    fields_of_set(alloc, asked, &set, steps)
}
