//! Bytes that are written to a sink, for which room is taken first. A sink that fails is told with
//! its count of faults.
ghost use Rattle.std.specs.Prelude.{◌≡◌, IfErr, OnErr, OnOk};
ghost use Rattle.tl_device.specs.Known.{append_known};
ghost use Rattle.tl_log.specs.Writing.{CountsWritten, LeavesUnwritten, WritesPart};

use tl_device::{Failed, Sink, write_all};

/// Why a text is not written to its end.
pub enum WriteFault {
    /// The sink failed, with this count of faults.
    Sink {
        /// Its count of faults.
        faults: u64,
    },
    /// Memory ran out.
    NoMemory,
}

/// Writes bytes. `Sink`: the sink failed; `faults` is its count of faults, which rose in this call,
/// and some first part of the bytes is written. `NoMemory`: memory ran out, and nothing is written.
pub(crate) fn write_bytes<K: Sink>(sink: &mut K, bytes: &[u8]) -> Result<(), WriteFault>
    ensures all { OnOk result (K.written sink.new ≡ append_known (K.written sink.old) bytes.now) }
    ensures sure { OnOk result (K.faults sink.new ≡ K.faults sink.old) }
    ensures part { OnErr result (WritesPart bytes.now (K.written sink.old) (K.written sink.new)) }
    ensures faults { IfErr result (λ e.
        CountsWritten e (K.faults sink.old) (K.faults sink.new)) }
    ensures unwritten { IfErr result (λ e.
        LeavesUnwritten e (K.written sink.old) (K.written sink.new)) }
{
    if sink.room(bytes.len() as u64).is_err() {
        return Err(WriteFault::NoMemory);
    }
    match write_all(sink, bytes) {
        Ok(()) => Ok(()),
        Err(Failed) => Err(WriteFault::Sink {
            faults: sink.faults(),
        }),
    }
}
