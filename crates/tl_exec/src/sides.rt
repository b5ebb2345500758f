//! The rows of one side of a join that are visible where a piece begins, of those that are kept. A
//! version that is not there is refused.
ghost use Rattle.std.specs.Prelude.{◌≡◌, ◌+◌, ◌*◌, ◌<◌, ◌≤◌, IfOk, length};
ghost use Rattle.tl_types.specs.Entries.{commits_of};
ghost use Rattle.tl_types.specs.History.{database_of, rows_of};
ghost use Rattle.tl_query.specs.declared.typed_queries.TypedPred.{TypedPred as Pred};
ghost use Rattle.tl_travel.specs.Bounds.{events_after_mark, begun_words, map_digits};
ghost use Rattle.tl_join.specs.Pieces.{starting};
ghost use Rattle.tl_query.specs.Passing.{passing};

use crate::sets::meet;
use std::alloc::Global;
use std::sync::ledger::Ledger;
use tl_bits::RowSet;
use tl_index::Snapshot;
use tl_travel::visible;
use tl_types::{NoMemory, Steps};

/// The rows among those that pass a predicate that are visible at a version. The error is out of
/// memory.
pub(crate) fn starting_rows<L: Ledger>(
    alloc: Global,
    snapshot: &Snapshot,
    table: u16,
    version: u32,
    keep: &RowSet,
    steps: &mut Steps<L>,
) -> Result<RowSet, NoMemory>
    requires table { table < length (database_of (commits_of snapshot.now)).tables }
    requires version { version ≤ (database_of (commits_of snapshot.now)).version }
    requires keep { length keep.now
        ≡ length (rows_of (database_of (commits_of snapshot.now)) table) }
    ensures set { (pred : Pred)
        → keep.now ≡ passing pred (rows_of (database_of (commits_of snapshot.now)) table)
        → IfOk result (λ set. set
        ≡ starting version pred (rows_of (database_of (commits_of snapshot.now)) table)) }
    ensures steps { let db = database_of (commits_of snapshot.now) in
        let e = events_after_mark snapshot.now table version in
        let w = begun_words db table in
        let s = map_digits db table in
        steps.new ≤ steps.old + e + 3 * w + 2 * s }
{
    let _rows = snapshot.store().rows(table); // says that rows are few
    let mut set = visible(alloc, snapshot, table, version, steps)?;
    meet(&mut set, keep, steps);
    Ok(set)
}
