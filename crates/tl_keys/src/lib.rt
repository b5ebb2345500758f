//! Numbers for keys, as of both sides of a join or of groups: equal keys have one number, and other
//! keys have others.
#![tactic(auto)]

mod int_keys;
mod keys;
mod text_keys;

pub use keys::Keys;
