//! Answers to queries over a snapshot, by its index: rows of a version, and aggregates and joins
//! over versions and over valid time. The contract speaks of the definition alone, and of how many
//! steps an answer takes.
#![tactic(auto)]

mod aggregate_answers;
mod aggregates;
mod answers;
mod fields;
mod join_answers;
mod joins;
mod moment_joins;
mod moments;
mod pieces;
mod ranges;
mod selects;
mod sets;
mod shown_pairs;
mod sides;

pub use answers::answer;
