//! Group commit: commits that wait together and are appended to a journal as one group, all of
//! them or none.
//!
//! A `Group` has a journal, the keys, the snapshot of the journal's commits and of those that
//! wait, and the body with which these are appended. `attach` opens a journal with no commit
//! waiting. `add`, `push` and `follow` make the commits that wait one more, and change no byte of
//! the disk, nor what a crash leaves of it; `finish` appends them all, with two syncs for any
//! number, and hands the disk back. A batch that becomes no commit, and want of memory, are told by
//! `add` and `push` and leave the commits as they are; so `finish` takes no memory, and only the
//! disk's fault can stand in its way. `follow` takes the group over, and where memory runs out it
//! hands the disk back. What waits is lost where a group is dropped or taken apart.
//!
//! A `Waiting` is a group without its keys: who puts no batch more extends it by many commits at
//! once, with the snapshot that they make, or finishes it.
#![tactic(auto)]

mod attaching;
mod bodies;
mod groups;
mod waiting;
mod writing;

pub use groups::Group;
pub use waiting::{Finished, Waiting};
