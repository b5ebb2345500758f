//! What all commands of the program share: the phases that they read, the bytes that they write,
//! how they end, and what they leave outside.
//!
//! A command has a source, a sink and a disk. `Phases` come one after the other, of a script or of
//! one block; `lent_jobs` hands the jobs of one on to those who do them. A command ends with a
//! `Status`, which is the exit status of the program; `close` writes the line that belongs to it,
//! for which room is taken first. `Ending` hands the disk back.
//!
//! The definitions say what is seen from outside: what was read and written, what a read of the
//! disk gives and what a crash may leave of it (`Outside`), why a journal was not opened or made
//! (`EndsRefused`, `MakingFails`), and that the disk holds the journal of some commits
//! (`HoldsJournal`).
#![tactic(auto)]

mod closing;
mod endings;
mod lending;
mod phases;
mod statuses;
mod stops;
mod writing;

pub use closing::{close, close_after, close_run, end_refused, write_ready, write_text};
pub use endings::Ending;
pub use lending::lent_jobs;
pub use phases::{BlockPhase, Phases};
pub use statuses::Status;
pub use stops::{Stop, stop_for};
pub use writing::write_bytes;
