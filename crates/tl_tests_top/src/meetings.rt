//! A meeting of two threads: one is held until the other comes.
use std::hint;
use std::sync::atomic::{AtomicBool, Ordering};

// Holds a thread until another has come, for at most 100,000,000 turns, and remembers whether it
// went on then and whether the turns ran out.
#[derive(Drop)]
pub(crate) struct Meeting {
    has_come: AtomicBool,
    has_passed: AtomicBool,
    ran_out: AtomicBool,
}

impl Meeting {
    pub(crate) fn new() -> Meeting {
        Meeting {
            has_come: AtomicBool::new(false),
            has_passed: AtomicBool::new(false),
            ran_out: AtomicBool::new(false),
        }
    }

    // Holds the thread that calls it.
    pub(crate) fn hold(&self) {
        for _ in 0..100_000_000u32 {
            if self.has_come.load(Ordering::SeqCst) {
                self.has_passed.store(true, Ordering::SeqCst);
                return;
            }
            hint::spin_loop();
        }
        self.ran_out.store(true, Ordering::SeqCst);
    }

    // Lets the other go on.
    pub(crate) fn come(&self) {
        self.has_come.store(true, Ordering::SeqCst)
    }

    // Whether both met.
    pub(crate) fn has_met(&self) -> bool {
        self.has_passed.load(Ordering::SeqCst) && !self.ran_out.load(Ordering::SeqCst)
    }
}
