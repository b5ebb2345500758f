//! Blocks of CSV as batches: the records that csv's default reader gives for a block, without its
//! byte order marks, are a header and the rows or removals of a batch, or have a first fault.
//! Answers are written as rows of CSV.
#![tactic(auto)]

mod answer_writers;
mod answers;
mod batches;
mod block_readers;
mod bound_texts;
mod byte_order_marks;
mod cells;
mod faults;
mod field_texts;
mod headers;
mod layouts;
mod lent_blocks;
mod needs;
mod numbers;
mod reading;
mod records;
mod rows;
mod samples;
mod sources;

pub use answer_writers::AnswerWriter;
pub use answers::answer_bytes;
pub use batches::read_batch;
pub use block_readers::BlockReader;
pub use faults::CsvFault;
pub use needs::BatchKind;
pub use samples::Sample;
