//! Counts over valid time by a list of events, beside the program's answers to the same queries.
ghost use Rattle.std.specs.Prelude.{◌≡◌, ◌+◌, ◌*◌, ◌<◌, ◌≤◌, length, IsTrue};
ghost use Rattle.tl_types.specs.Checkpoints.{AreEventsOf};
ghost use Rattle.tl_types.specs.Entries.{commits_of};
ghost use Rattle.tl_types.specs.History.{database_of, rows_of};
ghost use Rattle.tl_store.specs.Reading.{has_periods};

use crate::looks::snapshot_on;
use crate::runs::{EMPTY, Wanted, disk_of, run, words_of};
use std::alloc::Global;
use std::marker::Brand;
use std::sync::Wait;
use std::sync::ledger::{Blank, Ledger};
use std::test::Fail;
use std::thread::Threads;
use tl_app::valid_runs;
use tl_bits::RowSet;
use tl_ckpt::ValidEvents;
use tl_device::MemoryDisk;
use tl_index::Snapshot;
use tl_query::{AggKind, AggPlan};
use tl_travel::visible;
use tl_types::{Field, Run, Steps};

// Two rows with valid periods, the second within the first, which is taken out again: at version 3
// both stand, at version 4 the first alone. Version 3 is asked of both rows, and of the first.
const SCRIPT: &str = "a> CREATE TABLE q (k INT) KEY k VALID\n\
    a> PUT q\nk,valid_from,valid_to\n1,0,100\n\\.\n\
    a> PUT q\nk,valid_from,valid_to\n2,10,20\n\\.\n\
    a> REMOVE q\nk,valid_from,valid_to\n2,10,20\n\\.\n\
    a> COUNT FROM q OVER VALID 0 TO 120 AS OF 3\n\
    a> COUNT FROM q WHERE k = 1 OVER VALID 0 TO 120 AS OF 3\n";

const REPLIES: Wanted = (
    0,
    "a @1 ok\na @2 ok\na @3 ok\na @4 ok\n\
     a @4 rows 4\n0,10,1\n10,20,2\n20,100,1\n100,120,0\na @4 rows 2\n0,100,1\n100,120,0\n",
);

// The first moment of a run, the one after the last, and how many rows there are.
type Counted = (i64, i64, i128);

// The runs of the answers.
const OF_BOTH: &[Counted] = &[(0, 10, 1), (10, 20, 2), (20, 100, 1), (100, 120, 0)];

const OF_FIRST: &[Counted] = &[(0, 100, 1), (100, 120, 0)];

// Whether a run is this one, of no group.
fn run_is(run: &Run, wanted: Counted) -> bool {
    let (from, to, value) = wanted;
    run.group.is_none() && run.from == from && run.to == to && run.value == Field::Number(value)
}

// Whether the runs are these.
fn are_runs(runs: &[Run], wanted: &[Counted]) -> bool {
    if runs.len() != wanted.len() {
        return false;
    }
    for i in 0..runs.len() {
        if !run_is(&runs[i], wanted[i]) {
            return false;
        }
    }
    true
}

// Whether counting the rows that are kept, by a list of n events of the first table, gives these
// runs. It takes at most 4 n + 2 steps.
fn counts_of_list<L: Ledger>(
    alloc: Global,
    snapshot: &Snapshot,
    events: &ValidEvents,
    keep: &RowSet,
    wanted: &[Counted],
    steps: &mut Steps<L>,
) -> bool
    requires valid { IsTrue (has_periods (database_of (commits_of snapshot.now)) 0) }
    requires events { AreEventsOf (rows_of (database_of (commits_of snapshot.now)) 0) events.now }
    requires keep { length keep.now ≡ length (rows_of (database_of (commits_of snapshot.now)) 0) }
    ensures steps { steps.new ≤ steps.old + (4 * length events.now + 2) }
{
    let plan = AggPlan {
        table: 0,
        kind: AggKind::Count,
        column: None,
        by: None,
    };
    match valid_runs(alloc, snapshot, &plan, 0, 120, events, keep, steps) {
        Ok(runs) => are_runs(runs.as_slice(), wanted),
        Err(_) => false,
    }
}

// The same of both rows, and of the first one alone, at version 3.
fn counts_at_three<L: Ledger>(alloc: Global, snapshot: &Snapshot, blank: Blank) -> bool
    requires name { blank.name ≡ L.name }
    requires parts { blank.parts ≡ L.parts }
    requires some { 0 < blank.parts }
{
    let store = snapshot.store();
    if store.tables() != 1 || store.versions() != 4 || !store.schema(0).valid() {
        return false;
    }
    let mut steps = Steps::<L>::new(blank);
    let Ok(mut keep) = visible(alloc, snapshot, 0, 3, &mut steps) else {
        return false;
    };
    let Ok(events) = snapshot.valid_events(alloc, 0, 3, &mut steps) else {
        return false;
    };
    if keep.rows() != 2 || store.rows(0) != 2 {
        return false;
    }
    let is_of_both = counts_of_list(alloc, snapshot, &events, &keep, OF_BOTH, &mut steps);
    keep.clear(1);
    if keep.rows() != 2 {
        return false;
    }
    is_of_both & counts_of_list(alloc, snapshot, &events, &keep, OF_FIRST, &mut steps)
}

// The same of what a disk's journal has.
fn counts_on<R: AllocGlobal + Wait>(rt: &R, disk: MemoryDisk) -> bool {
    match snapshot_on(rt, disk) {
        Some(snapshot) => counts_at_three::<Brand>(rt.alloc(), &snapshot, Blank::new(1)),
        None => false,
    }
}

// The same of the disk that a run of the script leaves, which answers as it should.
fn counts_as_the_program<R: AllocGlobal + Threads + Wait + Sync>(rt: &R, words: &[String]) -> bool {
    match disk_of(rt.alloc(), EMPTY, &[]) {
        Ok(disk) => {
            let (is_run, disk) = run(rt, words, SCRIPT, disk, REPLIES);
            is_run & counts_on(rt, disk)
        }
        Err(_) => false,
    }
}

#[test]
fn a_count_of_a_list_of_events(rt: HostRuntime) -> Result<(), Fail> {
    let words = words_of(rt.alloc(), &["run", "--every", "1"])?;
    assert!(rt; counts_as_the_program(&rt, &words));
    Ok(())
}
