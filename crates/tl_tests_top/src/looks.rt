//! How many steps a look at a version takes that has a mark.
ghost use Rattle.std.specs.Prelude.{◌≡◌, ◌+◌, ◌<◌, ◌≤◌, false, length};
ghost use Rattle.std.specs.Bool.{OnTrue};
ghost use Rattle.tl_types.specs.Entries.{commits_of};
ghost use Rattle.tl_types.specs.History.{database_of};
ghost use Rattle.tl_index.specs.Snapshots.{mark_before};
ghost use Rattle.tl_engine.specs.Naming.{IsNameOf};

use crate::runs::{EMPTY, Wanted, disk_of, run, words_of};
use std::alloc::Global;
use std::marker::Brand;
use std::sync::Wait;
use std::sync::ledger::{Blank, Ledger};
use std::test::Fail;
use std::thread::Threads;
use tl_bits::RowSet;
use tl_csv::Sample;
use tl_device::MemoryDisk;
use tl_engine::{Closed, Engine, Named, Opening, Started};
use tl_index::Snapshot;
use tl_travel::visible;
use tl_types::{Limits, NoMemory, Steps};

// How the sample's script is run.
const REPLIES: Wanted = (0, "a @1 ok\na @2 ok\na @3 ok\na @4 ok\na @5 ok\n");

// Whether the first table has a mark of version 5.
fn has_mark_of_five(snapshot: &Snapshot) -> bool
    ensures { OnTrue result (mark_before snapshot.now 0 5 ≡ 5) }
{
    match snapshot.marks().nearest(0, 5) {
        Some(mark) => mark.version() == 5,
        None => false,
    }
}

// The rows of the sample that are visible at version 5, which has a mark. It takes at most 631
// steps: one for each of 625 words of 64 rows, and three for each of two searches among the
// versions.
fn visible_at_five<L: Ledger>(
    alloc: Global,
    snapshot: &Snapshot,
    steps: &mut Steps<L>,
) -> Option<RowSet>
    requires table { 0 < length (database_of (commits_of snapshot.now)).tables }
    ensures steps { steps.new ≤ steps.old + 631 }
{
    let store = snapshot.store();
    if store.versions() != 5 {
        return None;
    }
    if store.rows(0) != 40_000 {
        return None;
    }
    if snapshot.version_map(0).len() != 4 {
        return None;
    }
    if !has_mark_of_five(snapshot) {
        return None;
    }
    match visible(alloc, snapshot, 0, 5, steps) {
        Ok(rows) => Some(rows),
        Err(_) => None,
    }
}

// Whether 25,000 rows of the sample are visible at version 5.
fn sees_rows<L: Ledger>(alloc: Global, snapshot: &Snapshot, blank: Blank) -> bool
    requires name { blank.name ≡ L.name }
    requires parts { blank.parts ≡ L.parts }
    requires some { 0 < blank.parts }
{
    if snapshot.store().tables() == 0 {
        return false;
    }
    let mut steps = Steps::<L>::new(blank);
    match visible_at_five(alloc, snapshot, &mut steps) {
        Some(rows) => rows.count(&mut steps) == 25_000,
        None => false,
    }
}

// The snapshot of what an opening finds, once its engine is closed.
fn opened<J: Named, R: AllocGlobal + Wait>(rt: &R, opening: Opening<MemoryDisk>) -> Snapshot
    requires names { IsNameOf J.table J.first_entries J.first_count J.limits opening }
    requires ledger { (opening.ledger ≡ J.name) × (opening.parts ≡ J.parts) }
    requires untold { J.told ≡ false }
{
    let Started {
        engine,
        pass,
        share,
    } = opening.start::<J>();
    let Closed { snapshot, .. } = engine.close(rt, pass, share);
    snapshot
}

// The same of an opening whose names are picked here.
fn opened_by_brand<R: AllocGlobal + Wait>(rt: &R, opening: Opening<MemoryDisk>) -> Snapshot
    requires { opening.parts ≡ 65536 }
{
    opened::<Brand, R>(rt, opening)
}

/// The snapshot of what a disk's journal has, which is opened with a mark at each version. `None`
/// where it is not opened.
pub(crate) fn snapshot_on<R: AllocGlobal + Wait>(rt: &R, disk: MemoryDisk) -> Option<Snapshot> {
    match Engine::attach(rt.alloc(), disk, &Limits::standard(), 1) {
        Ok(opening) => Some(opened_by_brand(rt, opening)),
        Err(_) => None,
    }
}

// Whether 25,000 rows of the sample are visible at version 5 of what a disk's journal has.
fn sees_on<R: AllocGlobal + Wait>(rt: &R, disk: MemoryDisk) -> bool {
    match snapshot_on(rt, disk) {
        Some(snapshot) => sees_rows::<Brand>(rt.alloc(), &snapshot, Blank::new(1)),
        None => false,
    }
}

// Appends a statement that puts a block of the sample.
fn push_block(script: &mut String, block: &[u8]) -> Result<(), NoMemory> {
    let Ok(lines) = str::from_utf8(block) else {
        return Ok(());
    };
    script.push_str("a> PUT sample\n")?;
    script.push_str(lines)?;
    script.push_str("\\.\n")?;
    Ok(())
}

// A script that puts the 40,000 lines of the sample into a table, 10,000 at a time.
fn sample_script(alloc: Global) -> Result<String, NoMemory> {
    let create = "a> CREATE TABLE sample (id INT, grp INT, val INT) KEY id\n";
    let mut script = String::from_str(alloc, create)?;
    let mut sample = Sample::new(40_000, 7);
    for _ in 0..4 {
        if let Some(block) = sample.next_block(alloc)? {
            push_block(&mut script, block.as_slice())?;
        }
    }
    Ok(script)
}

// The same of the disk that a run of the script leaves, which answers as it should.
fn sees_sample<R: AllocGlobal + Threads + Wait + Sync>(
    rt: &R,
    words: &[String],
    script: &str,
) -> bool {
    match disk_of(rt.alloc(), EMPTY, &[]) {
        Ok(disk) => {
            let (is_run, disk) = run(rt, words, script, disk, REPLIES);
            is_run & sees_on(rt, disk)
        }
        Err(_) => false,
    }
}

#[test]
fn a_look_at_a_mark_of_the_sample(rt: HostRuntime) -> Result<(), Fail> {
    let words = words_of(rt.alloc(), &["run", "--every", "1"])?;
    let script = sample_script(rt.alloc())?;
    assert!(rt; sees_sample(&rt, &words, script.as_str()));
    Ok(())
}
