//! Columns of a table: a list of whole numbers, and a list of texts over a dictionary. A longer
//! column is made from a column and more cells, shares what the two have in common, and leaves
//! the older one as it was. In a column of texts each distinct text has a code, its number in the
//! order of first appearance, so two cells are equal exactly where their codes are.
#![tactic(auto)]

mod dictionary;
mod int_column;
mod masks;
mod runs;
mod text_column;
mod text_list;

pub use int_column::IntColumn;
pub use text_column::TextColumn;
