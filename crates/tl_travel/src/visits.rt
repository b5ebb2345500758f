//! The rows that are visible at a version: the set of the nearest mark before it, and the events
//! behind that. A version that is not there is refused.
ghost use Rattle.std.specs.Prelude.{◌≡◌, ◌+◌, ◌*◌, ◌<◌, ◌≤◌, IfOk, length, map};
ghost use Rattle.tl_types.specs.Entries.{commits_of};
ghost use Rattle.tl_types.specs.History.{database_of, rows_of, visible_rows};
ghost use Rattle.tl_types.specs.Walks.{standing};
ghost use Rattle.tl_bits.specs.Sets.{members};
ghost use Rattle.tl_travel.specs.Bounds.{events_after_mark, begun_words, map_digits};

use std::alloc::Global;
use std::sync::ledger::Ledger;
use tl_bits::RowSet;
use tl_index::Snapshot;
use tl_types::{NoMemory, Steps};

/// The rows of a table that are visible at a version, from 0 up to the snapshot's: those that began
/// at it or before and end after it. `table` is the table's number, and the set has as many rows as
/// the table. It is worked out from the mark that is nearest before the version: it takes at most a
/// step for each event behind the mark and up to the version, one for each begun 64 of rows, and
/// those of two searches for a version. The error is `NoMemory`.
#[tactic(auto, using(crate::proofs::VisibleLemmas::visible_at))]
pub fn visible<L: Ledger>(
    alloc: Global,
    snapshot: &Snapshot,
    table: u16,
    version: u32,
    steps: &mut Steps<L>,
) -> Result<RowSet, NoMemory>
    requires table { table < length (database_of (commits_of snapshot.now)).tables }
    requires version { version ≤ (database_of (commits_of snapshot.now)).version }
    ensures set { IfOk result (λ set. set
        ≡ standing (rows_of (database_of (commits_of snapshot.now)) table) version) }
    ensures ids { IfOk result (λ set. members set
        ≡ map (λ r. r.0) (visible_rows (database_of (commits_of snapshot.now)) table version)) }
    ensures steps { let db = database_of (commits_of snapshot.now) in
        let e = events_after_mark snapshot.now table version in
        let w = begun_words db table in
        let s = map_digits db table in
        steps.new ≤ steps.old + e + w + 2 * s }
{
    snapshot.standing(alloc, table, version, steps)
}
