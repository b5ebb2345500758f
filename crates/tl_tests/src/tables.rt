//! The store over the worked history with moments and a floor.
ghost use Rattle.std.specs.Prelude.{◌≡◌, ◌<◌};

use crate::worked::{commits, store_of, timed_commits};
use std::alloc::Global;
use std::marker::Brand;
use std::sync::ledger::{Blank, Ledger};
use std::test::Fail;
use tl_store::Store;
use tl_types::{Commit, Steps};

// Whether a commit is read again at its version.
fn is_read<L: Ledger>(
    alloc: Global,
    store: &Store,
    version: u32,
    commit: &Commit,
    steps: &mut Steps<L>,
) -> bool {
    if version == 0 || version > store.versions() {
        return false;
    }
    match store.commit_at(alloc, version, steps) {
        Ok(read) => read == *commit,
        Err(_) => false,
    }
}

// Whether each of the commits is.
fn are_read<L: Ledger>(alloc: Global, blank: Blank, store: &Store, commits: &[Commit]) -> bool
    requires name { blank.name ≡ L.name }
    requires parts { blank.parts ≡ L.parts }
    requires some { 0 < blank.parts }
{
    let mut steps: Steps<L> = Steps::new(blank);
    let mut version = 0u32;
    for commit in commits {
        version = version.saturating_add(1);
        if !is_read(alloc, store, version, commit, &mut steps) {
            return false;
        }
    }
    store.versions() == version && store.find("emp") == Some(0) && store.find("emps").is_none()
}

fn are_kept(alloc: Global, commits: &[Commit]) -> bool {
    match store_of(alloc, commits) {
        Some(store) => are_read::<Brand>(alloc, Blank::new(1), &store, commits),
        None => false,
    }
}

#[test]
fn each_commit_is_read_again(rt: HostRuntime) -> Result<(), Fail> {
    let commits = timed_commits(rt.alloc())?;
    assert!(rt; are_kept(rt.alloc(), &commits));
    Ok(())
}

// Moments, and the last version before a greater one was stated.
const MOMENTS: [(i64, u32); 8] = [
    (i64::MIN, 5),
    (-1, 5),
    (999, 5),
    (1000, 7),
    (1999, 7),
    (2000, 9),
    (5000, 9),
    (i64::MAX, 9),
];

// Whether the store has these versions at these moments.
fn has_versions(store: &Store, moments: &[(i64, u32)]) -> bool {
    for (moment, version) in moments {
        if store.version_at(*moment) != *version {
            return false;
        }
    }
    true
}

// Whether the floor of the first table and the last moment are these.
fn has_last(store: &Store, floor: u32, moment: Option<i64>) -> bool {
    if store.tables() == 0 {
        return false;
    }
    store.floor(0) == floor && store.last_moment() == moment
}

// Whether the store of these commits has a floor, a last moment and versions at moments.
fn has_times(
    alloc: Global,
    commits: &[Commit],
    floor: u32,
    moment: Option<i64>,
    moments: &[(i64, u32)],
) -> bool {
    match store_of(alloc, commits) {
        Some(store) => has_last(&store, floor, moment) && has_versions(&store, moments),
        None => false,
    }
}

#[test]
fn moments_and_a_floor(rt: HostRuntime) -> Result<(), Fail> {
    let timed = timed_commits(rt.alloc())?;
    let untimed = commits(rt.alloc())?;
    assert!(rt; has_times(rt.alloc(), &timed, 3, Some(2000), &MOMENTS));
    assert!(rt; has_times(rt.alloc(), &untimed, 0, None, &[(-1, 5), (i64::MAX, 5)]));
    Ok(())
}
