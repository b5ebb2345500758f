//! A sink in memory with a list of the calls that are to fail. It keeps the bytes written; a call
//! that fails writes none.
ghost use Rattle.std.specs.Prelude.{◌≡◌, ◌-◌, ◌<◌, ◌≤◌, ◌++◌, [], length, max, Some, IfOk, OnOk, OnErr, is_err};
ghost use Rattle.tl_device.specs.Known.{Rose};
ghost use Rattle.tl_device.specs.Calls.{next_fails, after_call};

use crate::calls::Calls;
use crate::failed::{Failed, NoMemory};
use crate::sink::Sink;
use crate::written::Written;
use std::alloc::Global;
use std::marker::Model;

/// A sink in memory with a list of the numbers of the calls that are to fail. Contracts see the
/// bytes written, the room that is left, and the calls.
#[derive(Drop)]
pub struct MemorySink {
    written: Written,
    calls: Calls,
}

impl Model for MemorySink {
    ghost use Rattle.tl_device.specs.Plain as plain;

    ghost Value = { plain.MemorySink };

    ghost view = { λ s.
        record { bytes = s.written.bytes; spare = s.written.spare; calls = s.calls } };
}

impl MemorySink {
    /// A sink with no byte written and no room. `failing` holds the numbers of the calls that fail,
    /// counted from 1; `room` is not counted.
    pub fn new(alloc: Global, failing: Vec<u64>) -> MemorySink
        ensures bytes { result.bytes ≡ [] }
        ensures spare { result.spare ≡ 0 }
        ensures failing { result.calls.failing ≡ failing.items }
        ensures made { result.calls.made ≡ 0 }
        ensures faults { result.calls.faults ≡ 0 }
    {
        MemorySink {
            written: Written::none(alloc),
            calls: Calls::new(failing),
        }
    }

    /// All bytes written so far, in the order of the writes; none at first.
    pub fn bytes(&self) -> &[u8]
        ensures { result.now ≡ self.now.bytes }
    {
        self.written.bytes()
    }
}

impl Sink for MemorySink {
    ghost written = { λ s. Some s.bytes };

    ghost spare = { λ s. Some s.spare };

    ghost faults = { λ s. s.calls.faults };

    /// Appends the whole of `from`. It fails exactly where the number of this call is among those
    /// that are to fail.
    fn write(&mut self, from: &[u8]) -> Result<usize, Failed>
        requires { length from.now ≤ self.old.spare }
        ensures whole { IfOk result (λ n. n ≡ length from.now) }
        ensures bytes { OnOk result (self.new.bytes ≡ self.old.bytes ++ from.now) }
        ensures spare { OnOk result (self.new.spare ≡ self.old.spare - length from.now) }
        ensures fails { is_err result ≡ next_fails self.old.calls }
        ensures unwritten { OnErr result (self.new.bytes ≡ self.old.bytes) }
        ensures unspent { OnErr result (self.new.spare ≡ self.old.spare) }
        ensures rose { OnErr result (Rose self.old.calls.faults self.new.calls.faults) }
        ensures calls { self.new.calls ≡ after_call self.old.calls }
    {
        if self.calls.next_fails() {
            return Err(Failed);
        }
        self.written.append(from);
        Ok(from.len())
    }

    /// Makes room for `bytes` bytes more, and keeps the room that there is.
    /// `NoMemory`: memory ran out, and nothing has changed.
    fn room(&mut self, bytes: u64) -> Result<(), NoMemory>
        ensures bytes { self.new.bytes ≡ self.old.bytes }
        ensures ok { OnOk result (self.new.spare ≡ max self.old.spare bytes) }
        ensures err { OnErr result (self.new.spare ≡ self.old.spare) }
        ensures calls { self.new.calls ≡ self.old.calls }
    {
        self.written.room(bytes)
    }

    fn faults(&self) -> u64 {
        self.calls.faults()
    }
}
