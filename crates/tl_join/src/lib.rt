//! Joins of two tables, over their versions and over valid time: of each side the rows that are
//! there, as entries with a number for each key, and the pairs that one walk over both sides finds.
//!
//! The walk goes over both sides in order of the moments at which rows begin. The rows that still
//! stand wait in a chain for each key; ends are not walked, since a chain drops the rows that have
//! ended when it is asked.
#![tactic(auto)]

mod chains;
mod entries;
mod joining;
pub mod laws;
mod sides;
mod sweeping;
mod there;
mod valid_joining;
mod valid_sides;

pub use joining::join_piece;
pub use valid_joining::valid_join;
