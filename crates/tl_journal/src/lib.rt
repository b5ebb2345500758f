//! The journal: the commits of a history, kept on a disk so that a crash at any moment leaves each
//! commit whole or not at all, and of a group of commits that are appended at once all or none.
//!
//! A journal is 16 bytes that name it, then gates. A gate is one byte. A gate of 0 is closed and
//! ends the journal; what stands past it is not looked at. Any other gate is open and is followed
//! by the record of one commit and the next gate.
//!
//! An append writes the body of a group of one or more commits behind the journal's last gate: the
//! records, each with an open gate behind it, but for the last, which has a closed one. It syncs,
//! then opens the gate before the body and syncs. So what a crash leaves holds the whole group if
//! that gate stands open, and is the old journal if it stands closed. An append of one commit is
//! the case of a group of one. Opening a journal reads it and cuts off what stands past its closed
//! gate; it never writes a gate.
//!
//! A disk may tell nothing of its bytes, as a file does. Then the clauses say nothing of what it
//! holds, and those on what was read from it hold all the same.
#![tactic(auto)]

mod appending;
mod attached;
mod creation;
mod faults;
mod found;
mod journal;
mod opening;
mod reading;
mod records;
mod trimming;

pub use attached::Attached;
pub use creation::InitRun;
pub use faults::{AppendFault, JournalFault};
pub use found::{Found, FoundCommits};
pub use journal::Journal;
pub use opening::Refused;
