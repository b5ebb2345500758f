//! Scripts: the jobs that sessions put one after the other, and the phases that these make.
//! Contracts see what is read of a script as the names of its sessions, the phases before its first
//! fault, and the fault where it has one. A `Script` reads its phases from a source, one after the
//! other: what is read from its place is the phase that it gives, and then what is read from its
//! next place. `load_phase` reads a whole input as one block.
#![tactic(auto)]

mod jobs;
mod lines_in_hand;
mod loading;
mod open_phase;
mod pending;
mod phases;
mod plain_lines;
mod reader;
mod script;
mod session_names;
mod texts;

pub use jobs::ScriptFault;
pub use loading::{load_phase, read_block};
pub use phases::{Job, NextError, Phase};
pub use script::Script;
pub use texts::{as_text, is_utf8};
