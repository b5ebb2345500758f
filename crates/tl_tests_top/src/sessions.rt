//! Two sessions of a phase, of which one is held at its statement until the other has come to its
//! own.
use crate::meetings::Meeting;
use crate::runs::{EMPTY, Wanted, disk_of, run_by, words};
use std::sync::Wait;
use std::sync::atomic::{AtomicU32, Ordering};
use std::test::Fail;
use std::thread::Threads;
use tl_device::{Gate, MemoryDisk, Place};

// A gate that holds a session at its statement until another has come, and counts how often it was
// passed.
#[derive(Drop)]
struct SessionGate {
    held: u32,
    other: u32,
    passes: AtomicU32,
    meeting: Meeting,
}

impl SessionGate {
    fn of(held: u32, other: u32) -> SessionGate {
        SessionGate {
            held,
            other,
            passes: AtomicU32::new(0),
            meeting: Meeting::new(),
        }
    }

    // Whether the two met, and the gate was passed once for each of two statements.
    fn has_met(&self) -> bool {
        self.meeting.has_met() && self.passes.load(Ordering::SeqCst) == 2
    }
}

impl Gate for SessionGate {
    fn pass(&self, place: Place) {
        let _before = self.passes.fetch_add(1, Ordering::SeqCst);
        match place {
            Place::Statement(session) if session == self.held => self.meeting.hold(),
            Place::Statement(session) if session == self.other => self.meeting.come(),
            _ => (),
        }
    }
}

// A phase of the sessions 0 and 1, and the replies to it over no commit.
const SCRIPT: &str = "a> SELECT k FROM t\nb> SELECT k FROM t\n";

const REPLIES: Wanted = (0, "a @0 ! UnknownTable 14\nb @0 ! UnknownTable 14\n");

// Whether a session is held until the other comes, and both are answered.
fn meets<R: AllocGlobal + Threads + Wait + Sync>(
    rt: &R,
    words: &[String],
    held: u32,
    other: u32,
) -> bool {
    match disk_of(rt.alloc(), EMPTY, &[]) {
        Ok(disk) => meets_over(rt, words, disk, SessionGate::of(held, other)),
        Err(_) => false,
    }
}

fn meets_over<R: AllocGlobal + Threads + Wait + Sync>(
    rt: &R,
    words: &[String],
    disk: MemoryDisk,
    gate: SessionGate,
) -> bool {
    let (ends, _) = run_by(rt, words, SCRIPT, disk, REPLIES, &gate);
    ends && gate.has_met()
}

#[test]
fn two_sessions_run_at_once(rt: HostRuntime) -> Result<(), Fail> {
    let run_words = words(rt.alloc(), "run")?;
    assert!(rt; meets(&rt, &run_words, 0, 1));
    assert!(rt; meets(&rt, &run_words, 1, 0));
    Ok(())
}
