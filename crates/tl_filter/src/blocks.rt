//! Blocks of words of one table, worked out together: a test is prepared once for a block. A list
//! of tests is asked only of the rows that no list before it let pass.
ghost use Rattle.std.specs.Prelude.{◌≡◌, ℕ, ◌+◌, ◌*◌, ◌-◌, ◌^◌, ◌/◌, ◌%◌, ◌<◌, ◌≤◌, Bool, ◌&&◌, ◌||◌, length, map, slice_index, sum_by};
ghost use Rattle.std.specs.List.{All, list_any};
ghost use Rattle.tl_types.specs.Plain as plain;
ghost use Rattle.tl_types.specs.History.{database_of, rows_of};
ghost use Rattle.tl_query.specs.Passing.{passes_all};
ghost use Rattle.tl_lanes.specs.Masks.{is_bit, words_for};
ghost use Rattle.tl_bits.specs.Sets.{is_member};
ghost use Rattle.tl_filter.specs.Selecting.{rows_that_pass, tests_in};
ghost use Rattle.tl_filter.specs.Words.{is_asked, word_cost, AreNarrowed, AreZero, HaveColumns, HaveNonePast};

use crate::words::{asked_words, join, leave, narrow, put_words};
use std::sync::ledger::Ledger;
use tl_bits::RowSet;
use tl_query::{TypedPred, TypedTest};
use tl_store::Store;
use tl_types::{Seq, Steps};

/// How many words are worked out together.
pub(crate) const WORDS: usize = 128;

/// Where a block stands: in the masks of a table, from a word on, and which of its rows are asked.
#[derive(Clone, Copy)]
pub(crate) struct Block {
    /// The table's number: its place in the order of creation, from 0.
    pub(crate) table: u16,
    /// How many rows the table has.
    pub(crate) rows: u32,
    /// The place of the block's first word in the masks, from 0; a word has 64 rows.
    pub(crate) first: u32,
    /// Whether all of its rows are asked, and not only those in a set.
    pub(crate) whole: bool,
}

// Leaves the bits whose rows pass all of the tests. It takes at most a step for each word and test.
fn narrow_all<L: Ledger>(
    store: &Store,
    block: Block,
    tests: &[TypedTest],
    words: &mut [u64],
    steps: &mut Steps<L>,
)
    requires columns { HaveColumns (database_of store.now) block.table tests.now }
    requires small { 64 * (block.first + length words.old) < 2 ^ 32 }
    requires inside { let rows = rows_of (database_of store.now) block.table in
        HaveNonePast (length rows) block.first words.old }
    ensures bits { let rows = rows_of (database_of store.now) block.table in
        AreNarrowed (map (λ r. passes_all r tests.now) rows) block.first words.old words.new }
    ensures steps { steps.new ≤ steps.old + length tests.now * length words.old }
{
    for test in tests {
        narrow(
            &store.ready_test(block.table, test),
            words,
            block.first,
            steps,
        );
    }
}

// Adds to the words `done` those bits of `base` whose rows pass all of the tests. These are asked
// of the rows that are not done yet.
fn pass_list<L: Ledger>(
    store: &Store,
    block: Block,
    base: &[u64],
    tests: &[TypedTest],
    done: &mut [u64],
    steps: &mut Steps<L>,
)
    requires columns { HaveColumns (database_of store.now) block.table tests.now }
    requires small { 64 * (block.first + length base.now) < 2 ^ 32 }
    requires room { length base.now ≤ WORDS }
    requires long { length done.old ≡ length base.now }
    requires inside { let rows = rows_of (database_of store.now) block.table in
        HaveNonePast (length rows) block.first base.now }
    ensures long { length done.new ≡ length done.old }
    ensures bits { let rows = rows_of (database_of store.now) block.table in
        (f : plain.Row → Bool) → AreNarrowed (map f rows) block.first base.now done.old
        → AreNarrowed (map (λ r. f r || passes_all r tests.now) rows) block.first
        base.now done.new }
    ensures steps { steps.new ≤ steps.old + length tests.now * length base.now }
{
    let mut left = [0; WORDS];
    let left = &mut left[..base.len()];
    leave(left, base, done);
    narrow_all(store, block, tests, left, steps);
    join(done, left);
}

// Adds to the words `done`, which have no bit yet, those bits of `base` whose rows pass all tests
// of one of the lists. A list is asked of the rows that no list before it let pass.
fn pass_lists<L: Ledger>(
    store: &Store,
    block: Block,
    base: &[u64],
    lists: &[Seq<TypedTest>],
    done: &mut [u64],
    steps: &mut Steps<L>,
)
    requires columns { All (HaveColumns (database_of store.now) block.table) lists.now }
    requires small { 64 * (block.first + length base.now) < 2 ^ 32 }
    requires room { length base.now ≤ WORDS }
    requires long { length done.old ≡ length base.now }
    requires inside { let rows = rows_of (database_of store.now) block.table in
        HaveNonePast (length rows) block.first base.now }
    requires none { AreZero done.old }
    ensures bits { let rows = rows_of (database_of store.now) block.table in
        AreNarrowed (map (λ r. list_any (passes_all r) lists.now) rows) block.first
        base.now done.new }
    ensures steps { steps.new ≤ steps.old + sum_by length lists.now * length base.now }
{
    for tests in lists {
        pass_list(store, block, base, tests.as_slice(), done, steps);
    }
}

// Puts into the words `done`, which have no bit yet, those bits of `base` whose rows pass.
fn pass<L: Ledger>(
    store: &Store,
    block: Block,
    base: &[u64],
    pred: &TypedPred,
    done: &mut [u64],
    steps: &mut Steps<L>,
)
    requires columns { All (HaveColumns (database_of store.now) block.table) pred.now.any }
    requires small { 64 * (block.first + length base.now) < 2 ^ 32 }
    requires room { length base.now ≤ WORDS }
    requires long { length done.old ≡ length base.now }
    requires inside { let rows = rows_of (database_of store.now) block.table in
        HaveNonePast (length rows) block.first base.now }
    requires none { AreZero done.old }
    ensures fits { (i : ℕ) → slice_index done.new i < 2 ^ 64 }
    ensures bits { AreNarrowed
        (rows_that_pass (database_of store.now) block.table pred.now) block.first
        base.now done.new }
    ensures steps { steps.new ≤ steps.old + tests_in pred.now * length base.now }
{
    if pred.any.is_empty() {
        join(done, base);
    } else {
        pass_lists(store, block, base, pred.any.as_slice(), done, steps);
    }
}

// Puts into the set of the rows of a block those of the bits of `base` that pass, and takes the
// others out. It takes at most a step for each word and test.
fn pass_block<L: Ledger>(
    store: &Store,
    block: Block,
    base: &[u64],
    pred: &TypedPred,
    into: &mut RowSet,
    steps: &mut Steps<L>,
)
    requires columns { All (HaveColumns (database_of store.now) block.table) pred.now.any }
    requires rows { block.rows ≡ length (rows_of (database_of store.now) block.table) }
    requires set { length into.old ≡ block.rows }
    requires within { block.first + length base.now ≤ words_for block.rows }
    requires few { block.rows ≤ 16777216 }
    requires room { length base.now ≤ WORDS }
    requires inside { HaveNonePast block.rows block.first base.now }
    ensures rows { length into.new ≡ length into.old }
    ensures kept { (row : ℕ) → row / 64 < block.first
        → is_member into.new row ≡ is_member into.old row }
    ensures behind { (row : ℕ) → block.first + length base.now ≤ row / 64
        → is_member into.new row ≡ is_member into.old row }
    ensures put { (row : ℕ) → block.first ≤ row / 64 → row / 64 < block.first + length base.now
        → is_member into.new row
        ≡ (is_bit (slice_index base.now (row / 64 - block.first)) (row % 64)
        && is_member (rows_that_pass (database_of store.now) block.table pred.now) row) }
    ensures steps { steps.new ≤ steps.old + tests_in pred.now * length base.now }
{
    let mut done = [0; WORDS];
    let done = &mut done[..base.len()];
    pass(store, block, base, pred, done, steps);
    put_words(into, done, block.first);
}

/// Leaves in the set, of the rows of a block that are asked, those that pass, and no others: of
/// `count` words, up to 128. It takes at most a step for each word and test, and one more for each
/// word that is read off the set.
pub(crate) fn narrow_block<L: Ledger>(
    store: &Store,
    block: Block,
    count: usize,
    pred: &TypedPred,
    set: &mut RowSet,
    steps: &mut Steps<L>,
)
    requires columns { All (HaveColumns (database_of store.now) block.table) pred.now.any }
    requires rows { block.rows ≡ length (rows_of (database_of store.now) block.table) }
    requires set { length set.old ≡ block.rows }
    requires within { block.first + count ≤ words_for block.rows }
    requires few { block.rows ≤ 16777216 }
    requires room { count ≤ WORDS }
    ensures rows { length set.new ≡ length set.old }
    ensures kept { (row : ℕ) → row / 64 < block.first
        → is_member set.new row ≡ is_member set.old row }
    ensures behind { (row : ℕ) → block.first + count ≤ row / 64
        → is_asked block.whole set.new row ≡ is_asked block.whole set.old row }
    ensures left { (row : ℕ) → block.first ≤ row / 64 → row / 64 < block.first + count
        → is_member set.new row ≡ (is_asked block.whole set.old row
        && is_member (rows_that_pass (database_of store.now) block.table pred.now) row) }
    ensures steps { steps.new
        ≤ steps.old + tests_in pred.now * count + word_cost block.whole * count }
{
    let mut base = [0; WORDS];
    let base = &mut base[..count];
    asked_words(set, block.whole, base, block.first, steps);
    pass_block(store, block, base, pred, set, steps);
}
