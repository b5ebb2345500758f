//! The pieces of a query over versions: the first of two is held until the second has come; and
//! which pieces there are, by the number of workers and by the marks that a run makes and finds.
use crate::meetings::Meeting;
use crate::runs::{EMPTY, Wanted, disk_of, run, run_by, words_of};
use std::alloc::Global;
use std::sync::Wait;
use std::sync::atomic::{AtomicU32, Ordering};
use std::test::Fail;
use std::thread::Threads;
use tl_device::{Gate, MemoryDisk, Place};

// A gate that holds piece 0 until piece 1 has come.
#[derive(Drop)]
struct PieceGate {
    meeting: Meeting,
}

impl Gate for PieceGate {
    fn pass(&self, place: Place) {
        match place {
            Place::Piece(0) => self.meeting.hold(),
            Place::Piece(1) => self.meeting.come(),
            _ => (),
        }
    }
}

// The worked history, whose one mark at every 3 events is at version 3, and an aggregate over it:
// with two workers its pieces are the versions before the mark and those from it on.
const SCRIPT: &str = concat!(
    "a> CREATE TABLE emp (id INT, dept TEXT, pay INT) KEY id\n",
    "a> PUT emp\nid,dept,pay\n1,ops,100\n2,dev,50\n\\.\n",
    "a> PUT emp\nid,dept,pay\n1,ops,150\n\\.\n",
    "a> REMOVE emp\nid\n2\n\\.\n",
    "a> PUT emp\nid,dept,pay\n2,dev,50\n\\.\n",
    "GO\n",
    "a> COUNT FROM emp OVER SYSTEM 1 TO 6\n",
);

const REPLIES: Wanted = (
    0,
    "a @1 ok\na @2 ok\na @3 ok\na @4 ok\na @5 ok\na @5 rows 4\n1,2,0\n2,4,2\n4,5,1\n5,6,2\n",
);

// Whether the first piece is held until the second comes, and the answer is right.
fn meet<R: AllocGlobal + Threads + Wait + Sync>(
    rt: &R,
    words: &[String],
    disk: MemoryDisk,
    gate: PieceGate,
) -> bool {
    let (ends, _) = run_by(rt, words, SCRIPT, disk, REPLIES, &gate);
    ends && gate.meeting.has_met()
}

#[test]
fn two_pieces_run_at_once(rt: HostRuntime) -> Result<(), Fail> {
    let words = words_of(rt.alloc(), &["run", "--every", "3", "--workers", "2"])?;
    let disk = disk_of(rt.alloc(), EMPTY, &[])?;
    let meeting = Meeting::new();
    assert!(rt; meet(&rt, &words, disk, PieceGate { meeting }));
    Ok(())
}

// A gate that counts the pieces which pass it, each in a decimal digit of its own number.
#[derive(Drop)]
struct DigitGate {
    digits: AtomicU32,
}

impl DigitGate {
    fn new() -> DigitGate {
        DigitGate {
            digits: AtomicU32::new(0),
        }
    }

    fn shows(&self, digits: u32) -> bool {
        self.digits.load(Ordering::SeqCst) == digits
    }
}

// One in the digit of a piece.
fn digit_of(number: u32) -> u32 {
    match number {
        0 => 1,
        1 => 10,
        2 => 100,
        _ => 1000,
    }
}

impl Gate for DigitGate {
    fn pass(&self, place: Place) {
        if let Place::Piece(number) = place {
            let _before = self.digits.fetch_add(digit_of(number), Ordering::SeqCst);
        }
    }
}

// The commits of the worked history, and the aggregate over it in a run of its own.
const COMMITS: &str = concat!(
    "a> CREATE TABLE emp (id INT, dept TEXT, pay INT) KEY id\n",
    "a> PUT emp\nid,dept,pay\n1,ops,100\n2,dev,50\n\\.\n",
    "a> PUT emp\nid,dept,pay\n1,ops,150\n\\.\n",
    "a> REMOVE emp\nid\n2\n\\.\n",
    "a> PUT emp\nid,dept,pay\n2,dev,50\n\\.\n",
);

const COMMITTED: Wanted = (0, "a @1 ok\na @2 ok\na @3 ok\na @4 ok\na @5 ok\n");

const ASKED: &str = "a> COUNT FROM emp OVER SYSTEM 1 TO 6\n";

const COUNTED: Wanted = (0, "a @5 rows 4\n1,2,0\n2,4,2\n4,5,1\n5,6,2\n");

// Two tables of which the left one alone has events enough for a mark at every 3, at version 4.
const JOINED: &str = concat!(
    "a> CREATE TABLE l (k INT, x INT) KEY k\n",
    "a> CREATE TABLE r (y INT) KEY y\n",
    "a> PUT r\ny\n7\n\\.\n",
    "a> PUT l\nk,x\n1,7\n2,8\n3,7\n\\.\n",
    "a> REMOVE l\nk\n1\n\\.\n",
    "GO\n",
    "a> JOIN l WITH r ON x = y OVER SYSTEM ALL\n",
);

const PAIRS: Wanted = (
    0,
    "a @1 ok\na @2 ok\na @3 ok\na @4 ok\na @5 ok\na @5 rows 2\n4,5,1,7,7\n4,6,3,7,7\n",
);

// Whether a run of a script over a disk ends as it should, and just these pieces passed the gate.
fn passes<R: AllocGlobal + Threads + Wait + Sync>(
    rt: &R,
    words: &[String],
    script: &str,
    disk: MemoryDisk,
    wanted: Wanted,
    digits: u32,
) -> bool {
    let gate = DigitGate::new();
    let (ends, _) = run_by(rt, words, script, disk, wanted, &gate);
    ends && gate.shows(digits)
}

// The words of a run with these options, and an empty journal.
fn begun(alloc: Global, options: &[&str]) -> Option<(Vec<String>, MemoryDisk)> {
    match (words_of(alloc, options), disk_of(alloc, EMPTY, &[])) {
        (Ok(words), Ok(disk)) => Some((words, disk)),
        _ => None,
    }
}

// Whether the pieces of a script's one query over versions are these.
fn divides<R: AllocGlobal + Threads + Wait + Sync>(
    rt: &R,
    options: &[&str],
    script: &str,
    wanted: Wanted,
    digits: u32,
) -> bool {
    match begun(rt.alloc(), options) {
        Some((words, disk)) => passes(rt, &words, script, disk, wanted, digits),
        None => false,
    }
}

// The same of a run that opens a journal whose commits another run left without marks.
fn divides_opened<R: AllocGlobal + Threads + Wait + Sync>(
    rt: &R,
    options: &[&str],
    digits: u32,
) -> bool {
    match begun(rt.alloc(), options) {
        Some((words, disk)) => {
            let (is_run, disk) = run(rt, &words, COMMITS, disk, COMMITTED);
            is_run & passes(rt, &words, ASKED, disk, COUNTED, digits)
        }
        None => false,
    }
}

#[test]
fn pieces_are_as_many_as_workers(rt: HostRuntime) -> Result<(), Fail> {
    let three = ["run", "--every", "1", "--workers", "3"];
    assert!(rt; divides(&rt, &three, SCRIPT, REPLIES, 111));
    let one = ["run", "--every", "1", "--workers", "1"];
    assert!(rt; divides(&rt, &one, SCRIPT, REPLIES, 0));
    let unmarked = ["run", "--every", "0", "--workers", "3"];
    assert!(rt; divides(&rt, &unmarked, SCRIPT, REPLIES, 1));
    Ok(())
}

#[test]
fn a_join_is_divided_at_the_marks_of_its_left_table(rt: HostRuntime) -> Result<(), Fail> {
    let options = ["run", "--every", "3", "--workers", "4"];
    assert!(rt; divides(&rt, &options, JOINED, PAIRS, 11));
    Ok(())
}

#[test]
fn an_opening_makes_the_marks_of_a_run(rt: HostRuntime) -> Result<(), Fail> {
    let options = ["run", "--every", "3", "--workers", "4"];
    assert!(rt; divides_opened(&rt, &options, 11));
    Ok(())
}
