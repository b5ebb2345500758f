//! Which rows of a table pass a predicate, told 64 rows at a time over the words of the store's
//! masks: a test looks only at words in which rows are left to tell.
#![tactic(auto)]

mod blocks;
mod selects;
mod words;

pub use selects::{select, select_within};
