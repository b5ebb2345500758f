//! One history for many threads.
//!
//! An `Engine` has a history of tl_history behind a lock. Threads read from its head, each with a
//! pass, and commit under its lock. What is committed is published on the head with the same
//! entries, and counted in a ledger of which each thread has a share: so at the end all shares
//! together count the commits and the breaks since the opening. `attach` opens a history, and
//! `start` gives it the name that its passes and shares carry. `tend` builds a checkpoint beside
//! the commits, over a snapshot and without the lock, and then publishes its mark under it; marks
//! are not counted.
//!
//! An engine keeps that what is published is what its history has, so that nobody sees a commit
//! that is not on the disk; behind a break it commits nothing more, and what was published can
//! still be read.
//!
//! The laws say that the calls of an engine are steps of the world of tl_core, by what they
//! promise.
#![tactic(auto)]

mod attaching;
mod committer;
mod engines;
mod faults;
mod laws;
mod locks;
mod names;

pub use attaching::Opening;
pub use engines::{Engine, Started};
pub use faults::{TendFault, Tended};
pub use laws::{
    every_answer_is_of_a_call, every_call_is_allowed, every_door_shows_a_world,
    every_locked_commit_is_allowed, every_locked_mark_is_allowed, every_run_is_of_the_world,
};
pub use names::Named;
pub use std::sync::ledger::Share;
pub use tl_head::Pass;
pub use tl_history::{Closed, CommitFault, History};
