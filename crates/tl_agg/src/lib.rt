//! Aggregates over the versions of a table: one walk along the events of a piece of the versions,
//! in which each row that begins or ends changes the running value of its group, and each change
//! closes a stretch of versions with one value.
#![tactic(auto)]

mod aggregates;
mod all_groups;
pub mod columns;
mod extremes;
mod groups;
mod kept;
pub mod laws;
mod scans;
mod seams;
mod tallies;
mod value_groups;

pub use aggregates::aggregate;
pub use kept::KeptRows;
pub use seams::seam;
