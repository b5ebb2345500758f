//! The snapshot: what a history of entries is at one moment. Contracts see it as its list of
//! entries, and it stands for that list where it is published. It keeps a store of the commits; of
//! each table a list of its events and a map of the versions that have some; the checkpoints of the
//! marks; and the commit of the break where there is one, all shared with the snapshots before and
//! after it. What a snapshot keeps is of that one list, and the contracts speak of the list alone.
//!
//! From what it keeps it tells which rows of a table stand at a version, and the events of their
//! valid time: it begins at the nearest mark and walks along the events behind it. `timed` gives a
//! table with its timeline to those who walk by themselves.
#![tactic(auto)]

mod changes;
mod marked;
mod readings;
mod snapshots;
mod tables;
mod timelines;
mod valid_times;
mod walks;

pub use snapshots::Snapshot;
pub use tables::TimedTable;
