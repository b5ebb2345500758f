//! Two threads that commit at once on one engine, and what is opened again of its journal.
ghost use Rattle.std.specs.Prelude.{◌≡◌, ◌<◌, false};
ghost use Rattle.tl_engine.specs.Naming.{IsNameOf};

use crate::marks::made_on;
use crate::offers::{Committed, Kind, Left, answer_to, holds};
use std::marker::Brand;
use std::sync::Wait;
use std::test::Fail;
use std::thread;
use std::thread::Threads;
use tl_device::SureDisk;
use tl_engine::{Closed, Engine, Named, Opening, Pass, Share, Started};
use tl_index::Snapshot;
use tl_journal::Journal;
use tl_types::Limits;

// The version of a batch for the table, 0 where it becomes none.
fn version_of<J: Named, R: AllocGlobal + Wait>(
    rt: &R,
    engine: &Engine<SureDisk, J>,
    pass: &mut Pass<Snapshot>,
    share: &mut Share<J>,
    kind: Kind,
) -> u32
    requires own { pass.old.table ≡ J.table }
    requires part { 0 < share.old.parts }
    ensures own { pass.new.table ≡ J.table }
    ensures parts { share.new.parts ≡ share.old.parts }
{
    match answer_to(rt, engine, pass, share, kind, "t") {
        Some(Ok(version)) => version,
        _ => 0,
    }
}

// Commits a batch a hundred times; it is right where each version is greater than the one before.
fn commit_each<J: Named, R: AllocGlobal + Wait>(
    rt: &R,
    engine: &Engine<SureDisk, J>,
    mut pass: Pass<Snapshot>,
    mut share: Share<J>,
    kind: Kind,
) -> Committed<J>
    requires own { pass.table ≡ J.table }
    requires part { 0 < share.parts }
    ensures own { result.pass.table ≡ J.table }
    ensures parts { result.share.parts ≡ share.parts }
{
    let mut last = 1;
    let mut is_right = true;
    'committing: for _ in 0..100u32 {
        let version = version_of(rt, engine, &mut pass, &mut share, kind);
        is_right &= last < version;
        last = version;
    }
    Committed {
        pass,
        share,
        is_right,
    }
}

// What an engine leaves on which two threads commit: one puts a row each time, the other two.
fn both_commit<J: Named + Send + Sync, R: AllocGlobal + Threads + Wait + Sync>(
    rt: &R,
    opening: Opening<SureDisk>,
) -> Left
    requires names { IsNameOf J.table J.first_entries J.first_count J.limits opening }
    requires ledger { (opening.ledger ≡ J.name) × (opening.parts ≡ J.parts) }
    requires untold { J.told ≡ false }
{
    let Started {
        engine,
        mut pass,
        mut share,
    } = opening.start::<J>();
    let case = (Kind::Create, "t", Ok(1));
    let is_made = holds(rt, &engine, &mut pass, &mut share, &case);
    let other_pass = pass.copy(&engine.head);
    let other_share = share.split_off(1, 0);
    let (one, other) = thread::join(
        rt,
        || commit_each(rt, &engine, pass, share, Kind::Put(1)),
        || commit_each(rt, &engine, other_pass, other_share, Kind::Put(2)),
    );
    let Committed {
        mut pass,
        mut share,
        is_right,
    } = one;
    let Committed {
        pass: other_pass,
        share: other_share,
        is_right: other_is_right,
    } = other;
    pass.learn(&engine.head, other_pass);
    // The share has all parts again, so it counts what both committed: `close` says so.
    share.merge(other_share);
    let closed = engine.close(rt, pass, share);
    Left {
        closed,
        is_right: is_made & is_right & other_is_right,
    }
}

// The same of an opening whose names are picked here.
fn both_by_brand<R: AllocGlobal + Threads + Wait + Sync>(rt: &R, opening: Opening<SureDisk>) -> Left
    requires { opening.parts ≡ 65536 }
{
    both_commit::<Brand, R>(rt, opening)
}

fn both_on<R: AllocGlobal + Threads + Wait + Sync>(rt: &R, disk: SureDisk) -> Option<Left> {
    match Engine::attach(rt.alloc(), disk, &Limits::standard(), 0) {
        Ok(opening) => Some(both_by_brand(rt, opening)),
        Err(_) => None,
    }
}

// Whether a snapshot has the table's commit and 200 more: a hundred of one row, a hundred of two.
fn has_all(snapshot: &Snapshot) -> bool {
    let store = snapshot.store();
    if store.tables() != 1 {
        return false;
    }
    store.versions() == 201 && store.rows(0) == 300 && !snapshot.has_break()
}

// Whether another opening of the disk has all.
fn are_found<R: AllocGlobal + Wait>(rt: &R, disk: SureDisk) -> bool {
    match made_on(rt, disk, 1) {
        Some(left) => has_all(&left.closed.snapshot),
        None => false,
    }
}

fn both_over_none<R: AllocGlobal + Threads + Wait + Sync>(rt: &R) -> bool {
    let run = Journal::init(SureDisk::new(rt.alloc(), Vec::new(rt.alloc())));
    match both_on(rt, run.disk) {
        Some(left) => {
            let Left { closed, is_right } = left;
            let Closed { snapshot, disk } = closed;
            is_right & has_all(&snapshot) & are_found(rt, disk)
        }
        None => false,
    }
}

#[test]
fn two_threads_commit_a_hundred_each(rt: HostRuntime) -> Result<(), Fail> {
    assert!(rt; both_over_none(&rt));
    Ok(())
}
