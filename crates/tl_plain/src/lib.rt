//! The tables of a history as plain lists of rows: what a commit makes of them, and whether it
//! fits. It is the plain counterpart of the engine's store, and answers queries over its rows; its
//! clauses are the definitions themselves.
#![tactic(auto)]

mod aggregates;
mod answers;
mod contents;
mod counting;
mod database;
mod fields;
mod joins;
mod keyed_rows;
mod passing;
mod rows;
mod selects;
mod stamps;
mod stretches;
mod times;
mod values;

pub use answers::answer_plain;
pub use database::Tables;
pub use rows::Row;
