//! Sets of rows of one table: the meet of two, and the rows that are visible at a version and pass
//! a predicate. Sets of tables of different lengths are refused.
ghost use Rattle.std.specs.Prelude.{◌≡◌, ℕ, ◌+◌, ◌*◌, ◌<◌, ◌≤◌, ◌&&◌, IfOk, length, map};
ghost use Rattle.tl_types.specs.Entries.{commits_of};
ghost use Rattle.tl_types.specs.History.{database_of, rows_of, is_visible};
ghost use Rattle.tl_query.specs.Passing.{passes};
ghost use Rattle.tl_lanes.specs.Masks.{words_for};
ghost use Rattle.tl_bits.specs.Sets.{is_member};
ghost use Rattle.tl_travel.specs.Bounds.{events_after_mark, begun_words, map_digits};
ghost use Rattle.tl_filter.specs.Selecting.{tests_in, IsTypedPredFor};

use std::alloc::Global;
use std::sync::ledger::Ledger;
use tl_bits::RowSet;
use tl_filter::select_within;
use tl_index::Snapshot;
use tl_query::TypedPred;
use tl_travel::visible;
use tl_types::{NoMemory, Steps};

/// Leaves in a set the rows that are in another too, of as many rows. It takes two steps for each
/// begun 64 of them.
pub(crate) fn meet<L: Ledger>(set: &mut RowSet, other: &RowSet, steps: &mut Steps<L>)
    requires rows { length set.old ≡ length other.now }
    requires few { length set.old ≤ 16777216 }
    ensures rows { length set.new ≡ length set.old }
    ensures members { (row : ℕ) → is_member set.new row
        ≡ (is_member set.old row && is_member other.now row) }
    ensures steps { steps.new ≡ steps.old + 2 * words_for (length set.old) }
{
    let words = (set.rows() + 63) / 64;
    for i in 0..words {
        let both = set.word(i, steps) & other.word(i, steps);
        set.put_word(i, both);
    }
}

/// The rows of a table that are visible at a version and pass a predicate. The error is out of
/// memory.
pub(crate) fn chosen_rows<L: Ledger>(
    alloc: Global,
    snapshot: &Snapshot,
    table: u16,
    version: u32,
    pred: &TypedPred,
    steps: &mut Steps<L>,
) -> Result<RowSet, NoMemory>
    requires table { table < length (database_of (commits_of snapshot.now)).tables }
    requires version { version ≤ (database_of (commits_of snapshot.now)).version }
    requires typed { IsTypedPredFor (database_of (commits_of snapshot.now)) table pred.now }
    ensures set { IfOk result (λ set. set ≡ map (λ r. is_visible version r && passes pred.now r)
        (rows_of (database_of (commits_of snapshot.now)) table)) }
    ensures few { IfOk result (λ set. length set ≤ 16777216) }
    ensures steps { let db = database_of (commits_of snapshot.now) in
        let p = tests_in pred.now in
        let w = begun_words db table in
        let e = events_after_mark snapshot.now table version in
        let s = map_digits db table in
        steps.new ≤ steps.old + p * w + e + 3 * w + 2 * s }
{
    let _rows = snapshot.store().rows(table); // says that rows are few
    let mut set = visible(alloc, snapshot, table, version, steps)?;
    select_within(snapshot, table, pred, &mut set, steps);
    Ok(set)
}
