//! The check of queries against the tables of a store, and of new tables. A query is checked place
//! by place; of the faults that it has, the one that stands furthest to the left is its fault, and
//! of several at one place the one of the least number. A query without faults comes with its
//! tables and columns by number.
#![tactic(auto)]

mod aggregates;
mod checking;
mod columns;
mod creates;
mod first_fault;
mod joins;
mod predicates;
mod ranges;
mod selects;
mod times;

pub use checking::check;
pub use creates::check_create;
