//! A source over std's reader. An error of the reader is a fault that counts.
ghost use Rattle.std.specs.Prelude.{◌≡◌, ◌≤◌, length, None, IfOk, OnOk, OnErr};
ghost use Rattle.std.specs.Io.KnownBytes.{ReadConsumes};
ghost use Rattle.tl_device.specs.Known.{Rose};

use crate::failed::Failed;
use crate::source::Source;
use std::io::Read;

/// A source over a reader of std, such as standard input. It tells nothing of what it has left;
/// what its reader tells of that stands in the clause `moved` of `read`.
#[derive(Drop)]
pub struct RealSource<R> {
    reader: R,
    faults: u64,
}

impl<R: Read> RealSource<R> {
    /// A source that reads from `reader`, with no fault so far.
    pub fn new(reader: R) -> RealSource<R>
        ensures reader { result.reader ≡ reader }
        ensures faults { result.faults ≡ 0 }
    {
        RealSource { reader, faults: 0 }
    }
}

impl<R: Read> Source for RealSource<R> {
    ghost left = { λ _. None };

    ghost faults = { λ s. s.faults };

    /// One read of the reader. What it moves into the prefix of `into` left the reader and nothing
    /// else did; 0 bytes of a buffer that is not empty are the reader's end. `Failed` is an error
    /// of the reader, which then has left what it had; the count of faults rose.
    fn read(&mut self, into: &mut [u8]) -> Result<usize, Failed>
        ensures bound { IfOk result (λ n. n ≤ length into.old) }
        ensures moved { ReadConsumes (R.remaining self.old.reader)
            (R.remaining self.new.reader) result into.new }
        ensures sure { OnOk result (self.new.faults ≡ self.old.faults) }
        ensures rose { OnErr result (Rose self.old.faults self.new.faults) }
    {
        match self.reader.read(into) {
            Ok(number) => Ok(number),
            Err(_) => {
                self.faults = self.faults.saturating_add(1);
                Err(Failed)
            }
        }
    }

    fn faults(&self) -> u64 {
        self.faults
    }
}
