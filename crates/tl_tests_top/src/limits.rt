//! What an engine refuses past limits that are lower than the program's.
ghost use Rattle.std.specs.Prelude.{◌≡◌, false};
ghost use Rattle.tl_types.specs.Limits.{standard_limits};
ghost use Rattle.tl_batch.specs.Made.{AreWithin};
ghost use Rattle.tl_engine.specs.Naming.{IsNameOf};

use crate::offers::{Case, Kind, Times, each_holds, times_of};
use std::marker::Brand;
use std::sync::Wait;
use std::test::Fail;
use tl_device::SureDisk;
use tl_engine::{Closed, CommitFault, Engine, Named, Opening, Started};
use tl_journal::Journal;
use tl_types::{BatchFault, Limits};

// Cases, and what a store tells after them.
#[derive(Clone, Copy)]
struct Trial<'a> {
    cases: &'a [Case],
    times: Times,
}

// Whether all cases of a trial hold over an opening, and end as it says.
fn all_hold<J: Named, R: AllocGlobal + Wait>(
    rt: &R,
    opening: Opening<SureDisk>,
    trial: &Trial<'_>,
) -> bool
    requires names { IsNameOf J.table J.first_entries J.first_count J.limits opening }
    requires ledger { (opening.ledger ≡ J.name) × (opening.parts ≡ J.parts) }
    requires untold { J.told ≡ false }
{
    let Started {
        engine,
        mut pass,
        mut share,
    } = opening.start::<J>();
    let all = each_holds(rt, &engine, &mut pass, &mut share, trial.cases);
    let Closed { snapshot, .. } = engine.close(rt, pass, share);
    all & (times_of(snapshot.store()) == trial.times)
}

// The same of an opening whose names are picked here.
fn all_hold_over<R: AllocGlobal + Wait>(
    rt: &R,
    opening: Opening<SureDisk>,
    trial: &Trial<'_>,
) -> bool
    requires { opening.parts ≡ 65536 }
{
    all_hold::<Brand, R>(rt, opening, trial)
}

// At most 3 commits, 1 table and 2 rows.
fn low_limits() -> Limits
    ensures { AreWithin result standard_limits }
{
    Limits {
        versions: 3,
        tables: 1,
        rows: 2,
        ..Limits::standard()
    }
}

// Whether a trial holds over an empty journal on this disk.
fn all_hold_on<R: AllocGlobal + Wait>(rt: &R, disk: SureDisk, trial: &Trial<'_>) -> bool {
    match Engine::attach(rt.alloc(), disk, &low_limits(), 0) {
        Ok(opening) => all_hold_over(rt, opening, trial),
        Err(_) => false,
    }
}

fn refused(version: u32, fault: BatchFault) -> Result<u32, CommitFault> {
    Err(CommitFault::Refused { version, fault })
}

// A fault of the table comes before one of the number of commits, and that one before one of the
// number of rows.
fn cases() -> [Case; 13] {
    [
        (Kind::Create, "t", Ok(1)),
        (Kind::Create, "t", refused(1, BatchFault::TableExists)),
        (Kind::Create, "u", refused(1, BatchFault::TablesFull)),
        (Kind::Put(3), "t", refused(1, BatchFault::RowsFull)),
        (Kind::Put(2), "t", Ok(2)),
        (Kind::Put(1), "t", refused(2, BatchFault::RowsFull)),
        (Kind::Sync(3), "t", refused(2, BatchFault::RowsFull)),
        (Kind::Remove(0), "t", Ok(3)),
        (Kind::Remove(0), "t", refused(3, BatchFault::VersionsFull)),
        (Kind::Put(1), "t", refused(3, BatchFault::VersionsFull)),
        (Kind::Sync(2), "t", refused(3, BatchFault::VersionsFull)),
        (Kind::Create, "t", refused(3, BatchFault::TableExists)),
        (Kind::Create, "u", refused(3, BatchFault::TablesFull)),
    ]
}

// A moment that falls and a floor that is ahead or falls; no table comes before the number of
// commits, and that one before a moment or a floor that falls.
fn times_cases() -> [Case; 13] {
    [
        (Kind::Create, "t", Ok(1)),
        (Kind::Moment(10), "", Ok(2)),
        (
            Kind::Moment(10),
            "",
            refused(2, BatchFault::MomentFalls { now: 10 }),
        ),
        (
            Kind::Moment(-3),
            "",
            refused(2, BatchFault::MomentFalls { now: 10 }),
        ),
        (
            Kind::Forget(3),
            "t",
            refused(2, BatchFault::FloorAhead { now: 2 }),
        ),
        (
            Kind::Forget(0),
            "t",
            refused(2, BatchFault::FloorFalls { floor: 0 }),
        ),
        (Kind::Forget(2), "u", refused(2, BatchFault::UnknownTable)),
        (Kind::Forget(2), "t", Ok(3)),
        (Kind::Moment(9), "", refused(3, BatchFault::VersionsFull)),
        (Kind::Moment(11), "", refused(3, BatchFault::VersionsFull)),
        (Kind::Forget(9), "t", refused(3, BatchFault::VersionsFull)),
        (Kind::Forget(1), "t", refused(3, BatchFault::VersionsFull)),
        (Kind::Forget(1), "u", refused(3, BatchFault::UnknownTable)),
    ]
}

fn meets_limits<R: AllocGlobal + Wait>(rt: &R, cases: &[Case], times: Times) -> bool {
    let run = Journal::init(SureDisk::new(rt.alloc(), Vec::new(rt.alloc())));
    run.done.is_ok() && all_hold_on(rt, run.disk, &Trial { cases, times })
}

#[test]
fn limits_that_are_met(rt: HostRuntime) -> Result<(), Fail> {
    assert!(rt; meets_limits(&rt, &cases(), (3, None, Some(0))));
    assert!(rt; meets_limits(&rt, &times_cases(), (3, Some(10), Some(2))));
    Ok(())
}
