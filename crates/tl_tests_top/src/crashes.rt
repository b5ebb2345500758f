//! A disk that fails at each call of an append, of making a journal and of opening one in turn; and
//! what is found then on each disk that a crash may leave.
use crate::runs::{EMPTY, Wanted, disk_of, run, words};
use std::alloc::Global;
use std::sync::Wait;
use std::test::Fail;
use std::thread::Threads;
use tl_device::MemoryDisk;
use tl_types::NoMemory;

// The worked history in one phase, and a query.
pub(crate) const WORKED: &str = "a> CREATE TABLE emp (id INT, dept TEXT, pay INT) KEY id\n\
                      a> PUT emp\nid,dept,pay\n1,ops,100\n2,dev,50\n\\.\n\
                      a> PUT emp\nid,dept,pay\n1,ops,150\n\\.\n\
                      a> REMOVE emp\nid\n2\n\\.\n\
                      a> PUT emp\nid,dept,pay\n2,dev,50\n\\.\n\
                      a> SELECT id, pay FROM emp\n";

// A query whose reply tells how many commits there are.
const QUERY: &str = "a> SELECT id, pay FROM emp\n";

// The replies to it over no commit, and over all of the worked history.
const NONE: Wanted = (0, "a @0 ! UnknownTable 20\n");

const FIVE: Wanted = (0, "a @5 rows 2\n1,150\n2,50\n");

// Whether a script over the disk that this choice of a crash leaves has this reply.
fn leaves<R: AllocGlobal + Threads + Wait + Sync>(
    rt: &R,
    run_words: &[String],
    disk: &MemoryDisk,
    choice: u32,
    asked: &str,
    found: Wanted,
) -> bool {
    if choice > 3 {
        return false;
    }
    match disk.crash(rt.alloc(), choice) {
        Ok(left) => {
            let (is_found, _) = run(rt, run_words, asked, left, found);
            is_found
        }
        Err(_) => false,
    }
}

// The same for each choice.
fn leaves_each<R: AllocGlobal + Threads + Wait + Sync>(
    rt: &R,
    run_words: &[String],
    disk: &MemoryDisk,
    asked: &str,
    found: &[Wanted; 4],
) -> bool {
    leaves(rt, run_words, disk, 0, asked, found[0])
        && leaves(rt, run_words, disk, 1, asked, found[1])
        && leaves(rt, run_words, disk, 2, asked, found[2])
        && leaves(rt, run_words, disk, 3, asked, found[3])
}

// An append of a script over an empty journal that fails, by `run` or by `group`: the number of its
// first call of the disk, how it ends, and what another script then replies over the commits before
// it, or over these and the new ones.
struct Append {
    by_group: bool,
    script: &'static str,
    first: u64,
    ends: Wanted,
    asked: &'static str,
    before: Wanted,
    after: Wanted,
}

// What is found where a call of the append fails, on the disk that each choice of a crash leaves:
// the bytes of the last sync, what a read gives, and these with 0 or with 255 where a write was not
// synced. An append has four calls: the record is written, a sync, the gate is written, a sync.
fn found(append: &Append, call: u64) -> [Wanted; 4] {
    let (before, after) = (append.before, append.after);
    match call {
        2 => [before, before, before, after],
        3 => [before, after, before, after],
        _ => [before, before, before, before],
    }
}

// Whether all is right where this call of the append fails.
fn fails_at<R: AllocGlobal + Threads + Wait + Sync>(
    rt: &R,
    run_words: &[String],
    own_words: &[String],
    append: &Append,
    call: u64,
) -> bool {
    match disk_of(rt.alloc(), EMPTY, &[append.first.wrapping_add(call)]) {
        Ok(disk) => {
            let (ends, disk) = run(rt, own_words, append.script, disk, append.ends);
            ends && leaves_each(rt, run_words, &disk, append.asked, &found(append, call))
        }
        Err(_) => false,
    }
}

// Opening has three calls: so a first append begins at call 4, a second at 8, a third at 12.
const APPENDS: [Append; 6] = [
    Append {
        by_group: false,
        script: "a> CREATE TABLE emp (id INT, pay INT) KEY id\n\
                 a> PUT emp\nid,pay\n1,5\n\\.\n\
                 a> CREATE TABLE emp (id INT, pay INT) KEY id\n\
                 a> SELECT id, pay FROM emp\n",
        first: 4,
        ends: (
            5,
            "a @0 ! device\na @0 ! UnknownTable\na @0 ! broken\na @0 ! UnknownTable 20\n\
             ! device\n",
        ),
        asked: QUERY,
        before: NONE,
        after: (0, "a @1 rows 0\n"),
    },
    Append {
        by_group: false,
        script: "a> CREATE TABLE emp (id INT, pay INT) KEY id\n\
                 a> PUT emp\nid,pay\n1,5\n\\.\n\
                 a> PUT emp\nid,pay\n2,5\n\\.\n\
                 a> SELECT * FROM emp\n",
        first: 8,
        ends: (
            5,
            "a @1 ok\na @1 ! device\na @1 ! broken\na @1 rows 0\n! device\n",
        ),
        asked: QUERY,
        before: (0, "a @1 rows 0\n"),
        after: (0, "a @2 rows 1\n1,5\n"),
    },
    Append {
        by_group: false,
        script: WORKED,
        first: 12,
        ends: (
            5,
            "a @1 ok\na @2 ok\na @2 ! device\na @2 ! broken\na @2 ! broken\n\
             a @2 rows 2\n1,100\n2,50\n! device\n",
        ),
        asked: QUERY,
        before: (0, "a @2 rows 2\n1,100\n2,50\n"),
        after: (0, "a @3 rows 2\n2,50\n1,150\n"),
    },
    Append {
        by_group: false,
        script: "a> CREATE TABLE emp (id INT) KEY id\na> MOMENT 1000\na> MOMENT 2000\n",
        first: 8,
        ends: (5, "a @1 ok\na @1 ! device\na @1 ! broken\n! device\n"),
        asked: "a> MOMENT 1000\n",
        before: (0, "a @2 ok\n"),
        after: (0, "a @2 ! MomentFalls 1000\n"),
    },
    Append {
        by_group: false,
        script: "a> CREATE TABLE emp (id INT) KEY id\na> FORGET emp BEFORE 1\na> MOMENT 2000\n",
        first: 8,
        ends: (5, "a @1 ok\na @1 ! device\na @1 ! broken\n! device\n"),
        asked: "a> FORGET emp BEFORE 1\n",
        before: (0, "a @2 ok\n"),
        after: (0, "a @2 ! FloorFalls 1\n"),
    },
    Append {
        by_group: true,
        script: WORKED,
        first: 4,
        ends: DEVICE,
        asked: QUERY,
        before: NONE,
        after: FIVE,
    },
];

#[test]
fn each_call_of_an_append_fails(rt: HostRuntime) -> Result<(), Fail> {
    let run_words = words(rt.alloc(), "run")?;
    let group_words = words(rt.alloc(), "group")?;
    for append in &APPENDS {
        let own_words = if append.by_group {
            &group_words
        } else {
            &run_words
        };
        for call in 0..4u64 {
            assert!(rt;
                fails_at(&rt, &run_words, own_words, append, call),
                "call {call} of the append at {}",
                append.first
            );
        }
    }
    Ok(())
}

// Whether a journal can be made on the disk that this choice of a crash leaves, and has no commit.
fn is_made_again<R: AllocGlobal + Threads + Wait + Sync>(
    rt: &R,
    init_words: &[String],
    run_words: &[String],
    disk: &MemoryDisk,
    choice: u32,
) -> bool {
    if choice > 3 {
        return false;
    }
    match disk.crash(rt.alloc(), choice) {
        Ok(left) => {
            let (is_made, made) = run(rt, init_words, "", left, (0, ""));
            let (is_empty, _) = run(rt, run_words, QUERY, made, NONE);
            is_made && is_empty
        }
        Err(_) => false,
    }
}

// Whether making a journal fails where this call does, and is done again after each crash.
fn making_fails<R: AllocGlobal + Threads + Wait + Sync>(
    rt: &R,
    init_words: &[String],
    run_words: &[String],
    call: u64,
) -> bool {
    match disk_of(rt.alloc(), &[9; 12], &[call]) {
        Ok(disk) => {
            let (ends, disk) = run(rt, init_words, "", disk, DEVICE);
            ends && is_made_again(rt, init_words, run_words, &disk, 0)
                && is_made_again(rt, init_words, run_words, &disk, 1)
                && is_made_again(rt, init_words, run_words, &disk, 2)
                && is_made_again(rt, init_words, run_words, &disk, 3)
        }
        Err(_) => false,
    }
}

// How a command ends that has not run anything.
const DEVICE: Wanted = (5, "! device\n");

// The length, a sync, a cut, a write, a sync.
#[test]
fn each_call_of_making_a_journal_fails(rt: HostRuntime) -> Result<(), Fail> {
    let init_words = words(rt.alloc(), "init")?;
    let run_words = words(rt.alloc(), "run")?;
    for call in 1..6 {
        assert!(rt;
            making_fails(&rt, &init_words, &run_words, call),
            "call {call}"
        );
    }
    Ok(())
}

// Whether opening fails where this call does, and all five commits are found after each crash.
fn opening_fails<R: AllocGlobal + Threads + Wait + Sync>(
    rt: &R,
    run_words: &[String],
    bytes: &[u8],
    call: u64,
) -> bool {
    match disk_of(rt.alloc(), bytes, &[call]) {
        Ok(disk) => {
            let (ends, disk) = run(rt, run_words, QUERY, disk, DEVICE);
            ends && leaves_each(rt, run_words, &disk, QUERY, &[FIVE, FIVE, FIVE, FIVE])
        }
        Err(_) => false,
    }
}

// The bytes of a disk, and one behind its journal.
fn followed(alloc: Global, disk: &MemoryDisk) -> Result<Vec<u8>, NoMemory> {
    let mut bytes = disk.bytes().to_vec(alloc)?;
    bytes.push(9)?;
    Ok(bytes)
}

// Whether opening the journal on a disk, with a byte behind it, fails at each of its calls: the
// length, a sync, a read, a cut, a sync.
fn each_opening_fails<R: AllocGlobal + Threads + Wait + Sync>(
    rt: &R,
    run_words: &[String],
    disk: &MemoryDisk,
) -> bool {
    match followed(rt.alloc(), disk) {
        Ok(bytes) => {
            bytes.len() == 222
                && opening_fails(rt, run_words, &bytes, 1)
                && opening_fails(rt, run_words, &bytes, 2)
                && opening_fails(rt, run_words, &bytes, 3)
                && opening_fails(rt, run_words, &bytes, 4)
                && opening_fails(rt, run_words, &bytes, 5)
        }
        Err(_) => false,
    }
}

const ALL: Wanted = (
    0,
    "a @1 ok\na @2 ok\na @3 ok\na @4 ok\na @5 ok\na @5 rows 2\n1,150\n2,50\n",
);

fn worked_opening_fails<R: AllocGlobal + Threads + Wait + Sync>(
    rt: &R,
    run_words: &[String],
    disk: MemoryDisk,
) -> bool {
    let (is_done, disk) = run(rt, run_words, WORKED, disk, ALL);
    is_done
        && leaves_each(rt, run_words, &disk, QUERY, &[FIVE, FIVE, FIVE, FIVE])
        && each_opening_fails(rt, run_words, &disk)
}

#[test]
fn each_call_of_opening_fails(rt: HostRuntime) -> Result<(), Fail> {
    let run_words = words(rt.alloc(), "run")?;
    let disk = disk_of(rt.alloc(), EMPTY, &[])?;
    assert!(rt; worked_opening_fails(&rt, &run_words, disk));
    Ok(())
}
