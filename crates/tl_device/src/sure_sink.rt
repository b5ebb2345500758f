//! A sink in memory that never fails: it takes each write whole, as far as room was made for it.
ghost use Rattle.std.specs.Prelude.{◌≡◌, ◌-◌, ◌<◌, ◌≤◌, ◌++◌, [], length, max, Some, Ok, OnOk, OnErr};

use crate::failed::{Failed, NoMemory};
use crate::sink::Sink;
use crate::written::Written;
use std::alloc::Global;
use std::marker::Model;

/// A sink in memory that never fails. Contracts see the bytes written and the room that is left.
#[derive(Drop)]
pub struct SureSink {
    written: Written,
}

impl Model for SureSink {
    ghost use Rattle.tl_device.specs.Plain as plain;

    ghost Value = { plain.SureSink };

    ghost view = { λ s. s.written };
}

impl SureSink {
    /// A sink with no byte written and no room.
    pub fn none(alloc: Global) -> SureSink
        ensures bytes { result.bytes ≡ [] }
        ensures spare { result.spare ≡ 0 }
    {
        SureSink {
            written: Written::none(alloc),
        }
    }

    /// All bytes written so far, in the order of the writes; none at first.
    pub fn bytes(&self) -> &[u8]
        ensures { result.now ≡ self.now.bytes }
    {
        self.written.bytes()
    }
}

impl Sink for SureSink {
    ghost written = { λ s. Some s.bytes };

    ghost spare = { λ s. Some s.spare };

    ghost faults = { λ _. 0 };

    /// Appends the whole of `from`. It never fails.
    fn write(&mut self, from: &[u8]) -> Result<usize, Failed>
        requires { length from.now ≤ self.old.spare }
        ensures whole { result ≡ Ok (length from.now) }
        ensures bytes { self.new.bytes ≡ self.old.bytes ++ from.now }
        ensures spare { self.new.spare ≡ self.old.spare - length from.now }
    {
        self.written.append(from);
        Ok(from.len())
    }

    /// Makes room for `bytes` bytes more, and keeps the room that there is.
    /// `NoMemory`: memory ran out, and nothing has changed.
    fn room(&mut self, bytes: u64) -> Result<(), NoMemory>
        ensures bytes { self.new.bytes ≡ self.old.bytes }
        ensures ok { OnOk result (self.new.spare ≡ max self.old.spare bytes) }
        ensures err { OnErr result (self.new.spare ≡ self.old.spare) }
    {
        self.written.room(bytes)
    }

    fn faults(&self) -> u64 {
        0
    }
}
