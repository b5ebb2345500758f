//! The index of valid time: the events of the periods of a table's rows at a version, and
//! aggregates over valid time, which one scan of such events gives.
#![tactic(auto)]

mod aggregates;
mod corrected;
mod groups;
mod kept;
mod keyed;
pub mod laws;
mod scans;

pub use aggregates::{valid_runs, valid_runs_at};
pub use corrected::valid_events;
