//! The rows of an answer, with no allocation for each: the fields of all rows stand one behind the
//! other in one list, with the place where each row ends, and their texts in one list of bytes; or
//! the rows are the runs of an aggregate, kept as they are. Definitions see the rows as the answer
//! of tl_types that they are.
#![tactic(auto)]

mod answers;
mod field_rows;
mod fields;
mod packed;
mod writers;

pub use answers::{AnswerRows, RowsRef};
pub use field_rows::FieldRows;
pub use fields::FieldRef;
pub use packed::RowFields;
pub use writers::RowsWriter;
