//! The sum of the numbers of the rows of a set, by the kernel over lanes: word by word of the set,
//! and 64 rows of the column at a time. It keeps nothing; a column that is not of numbers may not
//! be given.
ghost use Rattle.std.specs.Prelude.{◌≡◌, ◌+◌, ◌*◌, ◌^◌, ◌<◌, ◌≤◌, pos, neg_ℤ, ◌≤ℤ◌, length, take};
ghost use Rattle.tl_types.specs.History.{database_of, rows_of};
ghost use Rattle.tl_lanes.specs.Masks.{words_for};
ghost use Rattle.tl_store.specs.Reading.{columns_of, IsIntColumn};
ghost use Rattle.tl_running.specs.Standing.{IsShort, AreShort};
ghost use Rattle.tl_watch.specs.Sums.{AddsUp, piece, numbers_in};

use std::sync::ledger::Ledger;
use tl_bits::RowSet;
use tl_lanes::masked_sum;
use tl_store::Store;
use tl_types::Steps;

// The number that is lent.
fn number(value: &i64) -> i64
    ensures value { result ≡ value.now }
    ensures short { IsShort result }
{
    *value
}

// That each of the numbers is of 64 bits. It does nothing.
fn all_short(values: &[i64])
    ensures { AreShort values.now }
{
    for value in values {
        let _read = number(value); // says that it fits
    }
}

// The first 64 numbers, or all where there are fewer.
fn first_word(values: &[i64]) -> &[i64]
    ensures { result.now ≡ take 64 values.now }
{
    if values.len() <= 64 {
        return values;
    }
    &values[..64]
}

// The sum of the numbers of the rows of a word of the set. It takes two steps.
fn word_sum<L: Ledger>(
    store: &Store,
    table: u16,
    column: u8,
    set: &RowSet,
    i: u32,
    steps: &mut Steps<L>,
) -> i128
    requires kind { IsIntColumn (columns_of (database_of store.now) table) column }
    requires long { length set.now ≡ length (rows_of (database_of store.now) table) }
    requires few { length set.now ≤ 16777216 }
    requires word { i < words_for (length set.now) }
    ensures sum { AddsUp (numbers_in column (piece i set.now)
        (piece i (rows_of (database_of store.now) table))) result }
    ensures low { neg_ℤ (pos (2 ^ 96)) ≤ℤ result }
    ensures high { result ≤ℤ pos (2 ^ 96) }
    ensures steps { steps.new ≡ steps.old + 2 }
{
    let word = set.word(i, steps);
    let run = store.ints_from(table, 64 * i, column, steps);
    let values = first_word(run);
    all_short(values);
    let mask = [word];
    masked_sum(values, &mask)
}

/// The sum of the numbers of the rows of a set in a column of numbers. The set is of the rows of a
/// table. It takes at most two steps for each begun 64 of rows.
pub(crate) fn set_sum<L: Ledger>(
    store: &Store,
    table: u16,
    column: u8,
    set: &RowSet,
    steps: &mut Steps<L>,
) -> i128
    requires kind { IsIntColumn (columns_of (database_of store.now) table) column }
    requires long { length set.now ≡ length (rows_of (database_of store.now) table) }
    requires few { length set.now ≤ 16777216 }
    ensures sum { AddsUp
        (numbers_in column set.now (rows_of (database_of store.now) table)) result }
    ensures steps { steps.new ≤ steps.old + 2 * words_for (length set.now) }
{
    let words = (set.rows() + 63) / 64;
    let mut sum = 0;
    for i in 0..words {
        sum += word_sum(store, table, column, set, i, steps);
    }
    sum
}
