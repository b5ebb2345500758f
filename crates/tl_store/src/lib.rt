//! The store of commits. A store stands for the list of the commits that were applied, and
//! contracts see it as that list; its tables are what those commits make of no table. A further
//! commit gives a further store, which shares with the older one all that the commit leaves as it
//! was, and the older one stays as it was.
//!
//! Inside, a table is kept by columns, with the first and the last version of each row; a log
//! says for each commit what it did, and which closed and which opened rows of its table are its
//! own, so that each commit can be read again. The stamps of the moments that were stated stand
//! beside the log.
#![tactic(auto)]

mod columns;
mod log;
mod periods;
mod ready;
mod shown;
mod stamps;
mod store;
mod table;

pub use ready::ReadyTest;
pub use shown::{CellRef, IntsRef, SystemPeriod};
pub use store::Store;
