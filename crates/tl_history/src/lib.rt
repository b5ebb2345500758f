//! The history of commits over its journal, for one caller at a time: what is committed is on the
//! disk before it is seen.
//!
//! A `History` has the journal, the snapshot of its entries, and the keys of the open rows. A
//! commit is resolved over what is there; all memory that it needs is taken before its first byte
//! is written; then the journal appends it; then the new snapshot is put in place. `draft` and
//! `write` are these two halves of `commit`, for those who share what `draft` made before it is
//! written. Where the disk fails in an append, the history ends with the break of that commit: its
//! tables can still be read, and nothing more is committed. Opening a history reads its journal and
//! applies the commits one by one, each with a mark of its table where that is due; where one does
//! not fit those before it, the journal is damaged there.
//!
//! A history keeps that its keys stand for its tables and that its journal is not broken while
//! there is no break, and that the disk's count of faults rose with the break and not else. It
//! takes no lock, and starts no thread.
#![tactic(auto)]

mod building;
mod committing;
mod faults;
mod histories;
mod replaying;

pub use building::build_checkpoint;
pub use committing::Draft;
pub use faults::CommitFault;
pub use histories::{Closed, History, Parts};
