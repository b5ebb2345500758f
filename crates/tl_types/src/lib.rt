//! The types that every crate of the engine shares: texts, cells and periods, schemas and commits,
//! batches and answers, and the limits they keep. Their definitions in specs/ say what a history of
//! commits means: its tables, the rows visible at a version, the events of a table and its
//! checkpoints, the commit that a batch becomes, and which lists of entries are legal.
#![tactic(auto)]

mod answers;
mod batches;
mod bytes;
mod cells;
mod commits;
mod events;
mod keywords;
pub mod laws;
mod limits;
mod lines;
mod matching;
mod periods;
mod published;
mod rows;
mod runs;
mod schemas;
mod sequences;
mod small_sequences;
mod steps;
mod texts;

pub use answers::{Answer, Field};
pub use batches::{Batch, BatchFault, KeyLine};
pub use bytes::Bytes;
pub use cells::{Cell, Cmp, ColumnKind};
pub use commits::{Body, Change, Commit, Entry, has_break};
pub use events::{Event, ValidEvent};
pub use keywords::{Keyword, begins_word, continues_word, is_keyword, is_name};
pub use limits::Limits;
pub use lines::Line;
pub use matching::all_match;
pub use periods::Period;
pub use published::Published;
pub use rows::{OPEN, Opened};
pub use runs::{Pair, Piece, Run, add_stretch};
pub use schemas::{Column, Schema};
pub use sequences::Seq;
pub use small_sequences::SmallSeq;
pub use steps::Steps;
pub use texts::{Text, as_text, ascii_text, text_place};

/// Out of memory, where that is the whole error of a call.
pub type NoMemory = std::alloc::AllocError;
