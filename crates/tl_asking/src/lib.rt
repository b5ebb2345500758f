//! Queries of a script over a journal that is opened once, each answered with the names of its
//! columns before its rows. Phase by phase the queries are answered one after the other, and their
//! replies are written before more of the source is read. Another statement than a query is
//! refused, so the journal keeps its commits, and each reply is over just these.
//!
//! No thread but those of a query is started, and no lock is taken.
#![tactic(auto)]

mod answers;
mod asking;
mod laws;
mod names;
mod phases;

pub use asking::ask;
pub use laws::rows_have_their_names;
