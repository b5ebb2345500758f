//! Sets of row ids, a bit a row in words of 64, and multisets of whole numbers that tell their
//! least and their greatest. A set is seen as the list that says of each row, from 0 on, whether
//! the row is in it.
#![tactic(auto)]

mod bags;
mod row_sets;

pub use bags::Bag;
pub use row_sets::RowSet;
