//! All that the program does, as one call: it opens a journal of commits, reads a script, runs its
//! statements over the tables of the commits, appends those that it makes, and writes one reply for
//! each statement. The call `timeline` carries what is proved of it all.
#![tactic(auto)]

mod commands;
mod top;
mod words;

pub use tl_command::{Ending, Status};
pub use top::timeline;
pub use words::{EnvWords, Words, given_words, words_of};
