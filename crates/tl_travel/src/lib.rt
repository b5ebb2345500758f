//! The rows of a table that are visible at a version, present or past.
#![tactic(auto)]

mod visits;

pub use visits::visible;
