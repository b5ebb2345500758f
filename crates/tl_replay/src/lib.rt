//! Opening a journal for whoever applies its commits: the journal is read, its commits are applied
//! one after the other to a value, and then the journal goes on.
//!
//! What applies the commits says what it makes of them (`Applies`): the tables of a history, or
//! less where less is wanted. It is handed each commit with its record as it stands in the journal,
//! and tells whether the commit fits those before it. Where one does not, the journal is damaged at
//! its gate; where the bytes are no journal's, at the first open gate that no record follows.
//! Nothing is written but the cut behind the closed gate.
#![tactic(auto)]

mod applying;
mod opening;
mod replaying;

pub use applying::Applies;
pub use opening::{Opened, open_journal};
