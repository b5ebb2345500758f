//! What is written to a sink: bytes for which room is taken first. So where memory runs out nothing
//! is written, and where the sink fails a prefix.
ghost use Rattle.tl_command.specs.Writing.{WritesBytes};

use crate::stops::Stop;
use tl_device::{Failed, Sink, write_all};

/// Writes bytes, for which room is taken first, and answers None. `NoMemory`: memory ran out, and
/// nothing is written. `Sink`: the sink failed, and some prefix of the bytes is written.
pub fn write_bytes<K: Sink>(sink: &mut K, bytes: &[u8]) -> Option<Stop>
    ensures { WritesBytes bytes.now (K.written sink.old) (K.written sink.new) (K.faults sink.old)
        (K.faults sink.new) result }
{
    if sink.room(bytes.len() as u64).is_err() {
        return Some(Stop::NoMemory);
    }
    match write_all(sink, bytes) {
        Ok(()) => None,
        Err(Failed) => Some(Stop::Sink {
            faults: sink.faults(),
        }),
    }
}
