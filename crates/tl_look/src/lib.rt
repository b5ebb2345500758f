//! A look at a journal: its file is read whole, and what the program does is done over a disk in
//! memory that has these bytes, or queries are answered with the names of their columns. So nothing
//! is written to the file, no lock of it is wanted, and what a script commits is forgotten.
#![tactic(auto)]

mod looking;

pub use looking::look;
