//! The world as a machine: the entries of a history, how many of them each pass has seen, and the
//! checkpoints that passes build. A step is allowed or it is not, and an allowed step has one
//! effect. Whatever steps come, in whatever order, the world stays legal, its entries are only
//! appended to, no pass comes to have seen less, and what was built on older entries stands for the
//! present ones.
#![tactic(auto)]

mod entries;
mod laws;
mod legality;
mod passes;
mod steps;
mod worlds;

pub use laws::every_run_goes_on;
pub use legality::is_legal;
pub use passes::{Build, PassState};
pub use steps::Step;
pub use worlds::World;
