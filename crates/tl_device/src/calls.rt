//! The calls of a form in memory: which are to fail, by their numbers, and how many did. The count
//! of faults never falls.
ghost use Rattle.std.specs.Prelude.{◌≡◌};
ghost use Rattle.std.specs.Bool.{OnTrue, OnFalse};
ghost use Rattle.tl_device.specs.Known.{Rose};
ghost use Rattle.tl_device.specs.Calls.{next_fails, after_call};

use std::marker::Model;

// `failing` holds numbers of calls, counted from 1.
#[derive(Drop)]
pub struct Calls {
    failing: Vec<u64>,
    made: u64,
    faults: u64,
}

impl Model for Calls {
    ghost use Rattle.tl_device.specs.Plain as plain;

    ghost Value = { plain.Calls };

    ghost view = { λ c. record { failing = c.failing.items; made = c.made; faults = c.faults } };
}

impl Calls {
    /// No call so far; `failing` has the numbers, from 1, of the calls that are to fail.
    pub fn new(failing: Vec<u64>) -> Calls
        ensures failing { result.failing ≡ failing.items }
        ensures made { result.made ≡ 0 }
        ensures faults { result.faults ≡ 0 }
    {
        Calls {
            failing,
            made: 0,
            faults: 0,
        }
    }

    /// Counts one more call, and answers whether it is to fail.
    pub fn next_fails(&mut self) -> bool
        ensures fails { result ≡ next_fails self.old }
        ensures after { self.new ≡ after_call self.old }
        ensures rose { OnTrue result (Rose self.old.faults self.new.faults) }
        ensures sure { OnFalse result (self.new.faults ≡ self.old.faults) }
    {
        self.made = self.made.saturating_add(1);
        let fails = self.failing.contains(&self.made);
        if fails {
            self.faults = self.faults.saturating_add(1);
        }
        fails
    }

    /// How many calls failed.
    pub fn faults(&self) -> u64
        ensures { result ≡ self.now.faults }
    {
        self.faults
    }
}
