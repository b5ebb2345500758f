//! A sink over std's writer, flushed after each write. An error of the writer is a fault that
//! counts, and so is a write that takes no byte.
ghost use Rattle.std.specs.Prelude.{◌≡◌, ◌<◌, ◌≤◌, length, take, None, IfOk, OnOk, OnErr};
ghost use Rattle.std.specs.Io.KnownBytes.{Appends};
ghost use Rattle.tl_device.specs.Known.{Rose, AppendsPrefix};

use crate::failed::{Failed, NoMemory};
use crate::sink::Sink;
use std::io;
use std::io::Write;

/// A sink over a writer of std, such as standard output. It flushes after each write, is always
/// ready, and tells nothing of what was written; what its writer tells of that stands in the
/// clauses of `write`.
#[derive(Drop)]
pub struct RealSink<W> {
    writer: W,
    faults: u64,
}

impl<W: Write> RealSink<W> {
    /// A sink that writes to `writer`, with no fault so far.
    pub fn new(writer: W) -> RealSink<W>
        ensures writer { result.writer ≡ writer }
        ensures faults { result.faults ≡ 0 }
    {
        RealSink { writer, faults: 0 }
    }

    // Writes a prefix of `from` and flushes. Taking no byte of a piece that is not empty is a
    // fault.
    fn write_and_flush(&mut self, from: &[u8]) -> io::Result<usize>
        ensures bound { IfOk result (λ n. n ≤ length from.now) }
        ensures some { IfOk result (λ n. 0 < length from.now → 0 < n) }
        ensures appended { IfOk result (λ n. Appends (W.contents self.old.writer)
            (W.contents self.new.writer) (take n from.now)) }
        ensures unanswered { OnErr result (AppendsPrefix (W.contents self.old.writer)
            (W.contents self.new.writer) from.now) }
        ensures faults { self.new.faults ≡ self.old.faults }
    {
        let number = self.writer.write(from)?;
        if number == 0 && !from.is_empty() {
            return Err(io::Error::from(io::ErrorKind::WriteZero));
        }
        self.writer.flush()?;
        Ok(number)
    }
}

impl<W: Write> Sink for RealSink<W> {
    ghost written = { λ _. None };

    ghost spare = { λ _. None };

    ghost faults = { λ s. s.faults };

    /// One write to the writer, and a flush. The prefix of `from` whose length it answers was
    /// appended to the writer. `Failed` is an error of the writer, or that it took no byte of a
    /// piece that is not empty; the count of faults rose. Some prefix of `from` may then have been
    /// appended, where it was the flush that failed.
    fn write(&mut self, from: &[u8]) -> Result<usize, Failed>
        ensures bound { IfOk result (λ n. n ≤ length from.now) }
        ensures some { IfOk result (λ n. 0 < length from.now → 0 < n) }
        ensures appended { IfOk result (λ n. Appends (W.contents self.old.writer)
            (W.contents self.new.writer) (take n from.now)) }
        ensures unanswered { OnErr result (AppendsPrefix (W.contents self.old.writer)
            (W.contents self.new.writer) from.now) }
        ensures sure { OnOk result (self.new.faults ≡ self.old.faults) }
        ensures rose { OnErr result (Rose self.old.faults self.new.faults) }
    {
        match self.write_and_flush(from) {
            Ok(number) => Ok(number),
            Err(_) => {
                self.faults = self.faults.saturating_add(1);
                Err(Failed)
            }
        }
    }

    /// The writer is always ready: nothing is done.
    fn room(&mut self, _bytes: u64) -> Result<(), NoMemory> {
        Ok(())
    }

    fn faults(&self) -> u64 {
        self.faults
    }
}
