//! The outside of the engine: where bytes come from (a source), where they go (a sink), what is
//! kept (a disk), and a gate that calls pass. Sources, sinks and disks have a form in memory that
//! fails where it is told to, one that never fails, and an adapter over std. A call answers
//! `Failed` only where the object's count of faults rose in that call.
#![tactic(auto)]

mod call;
mod calls;
mod crash;
mod disk;
mod failed;
mod file_disk;
mod gate;
mod kept;
mod locking;
mod memory_disk;
mod memory_sink;
mod memory_source;
mod named_file;
mod real_sink;
mod real_source;
mod sink;
mod source;
mod sure_disk;
mod sure_sink;
mod sure_source;
mod unread;
mod whole;
mod written;

pub use call::Call;
pub use disk::Disk;
pub use failed::{Failed, NoMemory};
pub use file_disk::FileDisk;
pub use gate::{Gate, OpenGate, Place};
pub use locking::Lockable;
pub use memory_disk::MemoryDisk;
pub use memory_sink::MemorySink;
pub use memory_source::MemorySource;
pub use real_sink::RealSink;
pub use real_source::RealSource;
pub use sink::Sink;
pub use source::Source;
pub use sure_disk::SureDisk;
pub use sure_sink::SureSink;
pub use sure_source::SureSource;
pub use whole::write_all;
