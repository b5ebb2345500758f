//! How a run is closed: by its closing line, behind all replies. Where the sink failed or memory
//! ran out nothing more is written.
ghost use Rattle.std.specs.Prelude.{◌≡◌, [], Ok, Err, length};
ghost use Rattle.tl_device.specs.Known.{HasRoom};
ghost use Rattle.tl_command.specs.Closing.{ended_by, status_for, wanted_by, Closes, ClosesAfter, EndsFor, Writes, WritesReady};

use crate::statuses::{Status, closing_line};
use crate::stops::Stop;
use crate::writing::write_bytes;
use std::alloc::Global;
use tl_device::{Failed, Sink, write_all};
use tl_journal::JournalFault;

// How a run ends that was to end so, once its closing line is written or not.
fn ended_by(stop: Option<Stop>, wanted: Status) -> Status
    ensures { result ≡ ended_by stop wanted }
{
    match stop {
        None => wanted,
        Some(Stop::Sink { faults }) => Status::SinkFault { faults },
        Some(_) => Status::NoMemory,
    }
}

/// Writes the closing line of a run, for which the sink's room is taken first, and ends the run as
/// it was to. `NoMemory`: memory ran out, and nothing is written. `SinkFault`: the sink failed, and
/// some prefix of the line is written.
pub fn close<K: Sink>(alloc: Global, sink: &mut K, wanted: Status) -> Status
    ensures { Closes [] wanted (K.written sink.old) (K.written sink.new) (K.faults sink.old)
        (K.faults sink.new) result }
{
    match closing_line(alloc, &wanted) {
        Ok(line) => write_text(sink, line.as_bytes(), wanted),
        Err(_) => Status::NoMemory,
    }
}

/// Writes replies and, after them, the closing line of a run, for all of which the sink's room is
/// taken first, and ends the run as it was to. `NoMemory`: memory ran out, and nothing is written.
/// `SinkFault`: the sink failed, and some prefix of the replies and the line is written.
pub fn close_after<K: Sink>(alloc: Global, sink: &mut K, replies: Vec<u8>, wanted: Status) -> Status
    ensures { Closes replies.items wanted (K.written sink.old) (K.written sink.new)
        (K.faults sink.old) (K.faults sink.new) result }
{
    let Ok(line) = closing_line(alloc, &wanted) else {
        return Status::NoMemory;
    };
    let mut bytes = replies;
    match bytes.extend_from_slice(line.as_bytes()) {
        Ok(()) => write_text(sink, bytes.as_slice(), wanted),
        Err(_) => Status::NoMemory,
    }
}

/// Writes bytes, for which the sink's room is taken first, and ends as it was to. `NoMemory`:
/// memory ran out, and nothing is written. `SinkFault`: the sink failed, and some prefix of the
/// bytes is written.
pub fn write_text<K: Sink>(sink: &mut K, bytes: &[u8], wanted: Status) -> Status
    ensures { Writes bytes.now wanted (K.written sink.old) (K.written sink.new)
        (K.faults sink.old) (K.faults sink.new) result }
{
    ended_by(write_bytes(sink, bytes), wanted)
}

/// Writes bytes for which the sink has room, and ends as it was to. It takes no memory.
/// `SinkFault`: the sink failed, and some prefix of the bytes is written.
pub fn write_ready<K: Sink>(sink: &mut K, bytes: &[u8], wanted: Status) -> Status
    requires { HasRoom (K.spare sink.old) (length bytes.now) }
    ensures { WritesReady bytes.now wanted (K.written sink.old) (K.written sink.new)
        (K.faults sink.old) (K.faults sink.new) result }
{
    match write_all(sink, bytes) {
        Ok(()) => wanted,
        Err(Failed) => Status::SinkFault {
            faults: sink.faults(),
        },
    }
}

// How a run is to end whose phases were all run, by whether a break came and the disk's count of
// faults.
fn wanted_by(broke: bool, faults: u64) -> Status
    ensures { result ≡ wanted_by broke faults }
{
    if broke {
        return Status::DiskFault { faults };
    }
    Status::Done
}

/// Closes a run whose phases stopped for this cause, by whether a break came and the disk's count
/// of faults. Where the sink failed or memory ran out nothing more is written.
pub fn close_run<K: Sink>(
    alloc: Global,
    sink: &mut K,
    stop: Stop,
    broke: bool,
    faults: u64,
) -> Status
    ensures { ClosesAfter stop broke faults (K.written sink.old) (K.written sink.new)
        (K.faults sink.old) (K.faults sink.new) result }
{
    match stop {
        Stop::Ended => close(alloc, sink, wanted_by(broke, faults)),
        Stop::Fault(fault) => close(alloc, sink, Status::ScriptFault(fault)),
        Stop::Source { faults } => close(alloc, sink, Status::SourceFault { faults }),
        Stop::Sink { faults } => Status::SinkFault { faults },
        Stop::NoMemory => Status::NoMemory,
    }
}

fn status_for(fault: &JournalFault) -> Status
    ensures { result ≡ status_for fault.now }
{
    match fault {
        JournalFault::NoMemory => Status::NoMemory,
        JournalFault::Device { faults } => Status::DiskFault { faults: *faults },
        JournalFault::NotInitialised { len } => Status::NotInitialised { len: *len },
        JournalFault::AlreadyInitialised { len } => Status::AlreadyInitialised { len: *len },
        JournalFault::Damaged { at } => Status::Damaged { at: *at },
    }
}

/// Ends a run whose journal is not opened or made: its closing line is written, unless memory ran
/// out.
#[tactic(auto)]
pub fn end_refused<K: Sink>(alloc: Global, sink: &mut K, fault: JournalFault) -> Status
    ensures { EndsFor fault (K.written sink.old) (K.written sink.new) (K.faults sink.old)
        (K.faults sink.new) result }
{
    match fault {
        JournalFault::NoMemory => Status::NoMemory,
        _ => close(alloc, sink, status_for(&fault)),
    }
}
