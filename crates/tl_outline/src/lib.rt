//! The outline of a database: of each table its schema, its floor, and of each row whether it is
//! current; the number of commits, and the last moment. It tells whether a commit fits, as the
//! whole database would, and keeps no cell.
#![tactic(auto)]

mod outlines;
mod tables;

pub use outlines::Outline;
