//! Lists that share their parts: a list is kept in chunks and its chunks in blocks of 64, a chunk
//! or a block has any number of owners, and a longer or changed list shares each one that it has in
//! common with the list that it was made from. No call changes a list that stands, so an older list
//! stays as it was; a call that takes a list over changes where they stand those parts of it that
//! have no other owner. A chunk of a `SharedList` has 1,024 items, and one of a `FineList` 64.
//! Beside them, one value with any number of owners.
#![tactic(auto)]

mod chunk;
mod chunk_list;
mod list;
mod shareable;
mod shared;

pub use chunk::Chunk;
pub use list::{CHUNK, FINE_CHUNK, FineList, ListInChunks, SharedList};
pub use shareable::{Shareable, share_all};
pub use shared::Shared;
