//! The rows that stand at a version, by a walk along the events of their table from a mark or from
//! the first event. Each event takes a step.
ghost use Rattle.std.specs.Prelude.{◌≡◌, ℕ, ◌+◌, ◌-◌, ◌<◌, ◌≤◌, List, length, take, drop, IfOk, All};
ghost use Rattle.tl_types.specs.Events.{place_of};
ghost use Rattle.tl_types.specs.Checkpoints.{checkpoint_at};
ghost use Rattle.tl_types.specs.Walks.{standing, after_events};
ghost use Rattle.tl_index.specs.Tables.{rows_in, search_steps};
ghost use Rattle.tl_index.specs.Walking.{IsStart};

use crate::tables::TimedTable;
use std::alloc::Global;
use std::sync::ledger::Ledger;
use tl_bits::RowSet;
use tl_ckpt::Checkpoint;
use tl_events::{EventList, PackedEvent};
use tl_types::{NoMemory, Steps};

// Puts each row that begins into the set, and takes each that ends out of it, event by event.
#[tactic(auto, using(crate::proofs::WalkLemmas::one_more, crate::proofs::WalkLemmas::row_in))]
fn put_events(set: &mut RowSet, events: &[PackedEvent])
    requires { All (λ event. event.row < length set.old) events.now }
    ensures { set.new ≡ after_events set.old events.now }
{
    for packed in events {
        let event = packed.event();
        set.put(event.row, event.opens);
    }
}

// What the events from one place up to another make of the set. It takes a step for each.
fn walk<L: Ledger>(set: &mut RowSet, events: &EventList, from: u32, to: u32, steps: &mut Steps<L>)
    requires ordered { from ≤ to }
    requires within { to ≤ length events.now }
    requires rows { All (λ event. event.row < length set.old) events.now }
    ensures set { set.new ≡ after_events set.old (drop from (take to events.now)) }
    ensures steps { steps.new + from ≡ steps.old + to }
{
    let mut at = from;
    'runs: while at < to {
        let run = events.run(at, to, steps);
        put_events(set, run);
        at += run.len() as u32;
    }
}

// The rows that stand at the version, from those of an earlier one and the place where its events
// end.
fn rows_walked<L: Ledger>(
    set: RowSet,
    from: u32,
    table: &TimedTable<'_>,
    version: u32,
    steps: &mut Steps<L>,
) -> RowSet
    requires version { version ≤ table.now.db.version }
    requires start { IsStart (rows_in table.now) set from version }
    ensures set { result ≡ standing (rows_in table.now) version }
    ensures steps { steps.new + from ≤ steps.old + place_of (rows_in table.now) version
        + search_steps table.now }
{
    let mut set = set;
    let to = table.place(version, steps);
    walk(&mut set, table.events(), from, to, steps);
    set
}

// The rows of a mark, in a set for all rows that are there now. The mark's place is that of its
// version.
fn marked_rows(alloc: Global, table: &TimedTable<'_>, mark: &Checkpoint) -> Result<RowSet, NoMemory>
    requires { mark.now ≡ checkpoint_at table.now.db table.now.number mark.now.version }
    ensures set { IfOk result (λ set. set ≡ standing (rows_in table.now) mark.now.version) }
    ensures place { mark.now.place ≡ place_of (rows_in table.now) mark.now.version }
{
    mark.rows().grown(alloc, table.rows())
}

// The rows that stand at a version, from those of a mark that is not after it.
pub(crate) fn rows_after<L: Ledger>(
    alloc: Global,
    table: &TimedTable<'_>,
    mark: &Checkpoint,
    version: u32,
    steps: &mut Steps<L>,
) -> Result<RowSet, NoMemory>
    requires version { version ≤ table.now.db.version }
    requires before { mark.now.version ≤ version }
    requires mark { mark.now ≡ checkpoint_at table.now.db table.now.number mark.now.version }
    ensures set { IfOk result (λ set. set ≡ standing (rows_in table.now) version) }
    ensures steps { steps.new + place_of (rows_in table.now) mark.now.version
        ≤ steps.old + place_of (rows_in table.now) version + search_steps table.now }
{
    let set = marked_rows(alloc, table, mark)?;
    Ok(rows_walked(set, mark.place(), table, version, steps))
}

// The rows that stand at a version, from the first event on.
pub(crate) fn rows_from_first<L: Ledger>(
    alloc: Global,
    table: &TimedTable<'_>,
    version: u32,
    steps: &mut Steps<L>,
) -> Result<RowSet, NoMemory>
    requires version { version ≤ table.now.db.version }
    ensures set { IfOk result (λ set. set ≡ standing (rows_in table.now) version) }
    ensures steps { steps.new
        ≤ steps.old + place_of (rows_in table.now) version + search_steps table.now }
{
    let _ = table.events(); // says that the rows are those of a history
    let set = RowSet::none(alloc, table.rows())?;
    Ok(rows_walked(set, 0, table, version, steps))
}
