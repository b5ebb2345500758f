//! Lists of chunks, which are kept in blocks of chunks, so that a longer or changed list copies few
//! pointers.
ghost use Rattle.std.specs.Prelude.{◌≡◌, ◌+◌, ◌%◌, ◌<◌, ◌≤◌, ◌^◌, ◌++◌, ◌∷◌, [], length, take, slice_set, All, IfOk};
ghost use Rattle.tl_shared.specs.Chunks.{flatten, IsChunked, piece_or_nil, set_within};

use crate::chunk::{Chunk, items_of_chunk};
use crate::shareable::{Shareable, share_all};
use std::alloc::Global;
use std::marker::Model;
use tl_types::NoMemory;

// How many chunks a full block has.
const BLOCK: usize = 64;

// Chunks in their order. Contracts see the list of what each of them holds.
#[derive(Drop)]
pub(crate) struct ChunkList<T> {
    blocks: Vec<Chunk<Chunk<T>>>,
}

impl<T> Model for ChunkList<T> {
    ghost use Rattle.std.specs.Prelude.{List};
    ghost use Rattle.tl_shared.specs.Chunks.{flatten, IsChunked};

    ghost Value = { List (List T) };

    ghost view = { λ l. flatten l.blocks.items };

    ghost invariant = { λ l. IsChunked 64 l.blocks.items };
}

impl<T: Shareable> ChunkList<T> {
    /// No chunks. `alloc` is the memory that it will take, none as yet.
    pub fn none(alloc: Global) -> ChunkList<T>
        ensures { result ≡ [] }
    {
        ChunkList {
            blocks: Vec::new(alloc),
        }
    }

    /// The items of chunk `i`, none where there is no such chunk.
    pub fn chunk(&self, i: usize) -> &[T]
        ensures { result.now ≡ piece_or_nil i self.now }
    {
        let block = items_of_chunk(self.blocks.as_slice(), i / BLOCK);
        items_of_chunk(block, i % BLOCK)
    }

    /// The list followed by `chunk`. What this list owns alone is not copied.
    pub fn push(self, alloc: Global, chunk: Chunk<T>) -> Result<ChunkList<T>, NoMemory>
        ensures { IfOk result (λ list. list ≡ self ++ chunk ∷ []) }
    {
        let ChunkList { mut blocks } = self;
        push_chunk(alloc, &mut blocks, chunk)?;
        Ok(ChunkList { blocks })
    }

    /// The list with `chunk` in place of chunk `i`. It copies the block of that chunk unless it
    /// owns it alone.
    pub fn with(self, alloc: Global, i: usize, chunk: Chunk<T>) -> Result<ChunkList<T>, NoMemory>
        requires there { i < length self }
        requires same { length chunk ≡ length (piece_or_nil i self) }
        ensures { IfOk result (λ list. list ≡ slice_set self i chunk) }
    {
        let ChunkList { mut blocks } = self;
        blocks[i / BLOCK].set(alloc, i % BLOCK, chunk)?;
        Ok(ChunkList { blocks })
    }

    /// The list with the item at the place within its chunk of each of these places of a list in
    /// chunks of `SIZE`, which are in chunk `i`. What this list owns alone is not copied.
    pub fn set_within<const SIZE: usize>(
        self,
        alloc: Global,
        i: usize,
        places: &[u32],
        item: &T,
    ) -> Result<ChunkList<T>, NoMemory>
        requires size { 0 < SIZE }
        requires there { i < length self }
        requires places { All (λ place. place % SIZE < length (piece_or_nil i self)) places.now }
        ensures { IfOk result (λ list. list
            ≡ slice_set self i (set_within SIZE item.now (piece_or_nil i self) places.now)) }
    {
        let ChunkList { mut blocks } = self;
        blocks[i / BLOCK].set_within_chunk::<SIZE>(alloc, i % BLOCK, places, item)?;
        Ok(ChunkList { blocks })
    }

    /// The list with items behind those of chunk `i`, which may have `size` in all. What this list
    /// owns alone is not copied.
    pub fn extend_chunk(
        self,
        alloc: Global,
        size: usize,
        i: usize,
        more: &[T],
    ) -> Result<ChunkList<T>, NoMemory>
        requires there { i < length self }
        requires room { length (piece_or_nil i self) + length more.now ≤ size }
        requires small { size < 2 ^ 63 }
        ensures { IfOk result (λ list. list ≡ slice_set self i (piece_or_nil i self ++ more.now)) }
    {
        let ChunkList { mut blocks } = self;
        blocks[i / BLOCK].extend_chunk(alloc, size, i % BLOCK, more)?;
        Ok(ChunkList { blocks })
    }
}

impl<T: Shareable> Shareable for ChunkList<T> {
    fn share(&self, alloc: Global) -> Result<ChunkList<T>, NoMemory> {
        Ok(ChunkList {
            blocks: share_all(alloc, self.blocks.as_slice())?,
        })
    }
}

// Puts a chunk behind those of the blocks. What these own alone is not copied.
fn push_chunk<T: Shareable>(
    alloc: Global,
    blocks: &mut Vec<Chunk<Chunk<T>>>,
    chunk: Chunk<T>,
) -> Result<(), NoMemory>
    requires { IsChunked 64 blocks.old.items }
    ensures list { IfOk result
        (λ _. flatten blocks.new.items ≡ flatten blocks.old.items ++ chunk ∷ []) }
    ensures chunked { IfOk result (λ _. IsChunked 64 blocks.new.items) }
{
    match blocks.pop() {
        None => {
            blocks.push(block_of(alloc, chunk)?)?;
            Ok(())
        }
        Some(last) if last.as_slice().len() < BLOCK => {
            let mut last = last;
            last.extend(alloc, BLOCK, [chunk].as_slice())?;
            blocks.push(last)?;
            Ok(())
        }
        Some(last) => {
            blocks.push(last)?;
            blocks.push(block_of(alloc, chunk)?)?;
            Ok(())
        }
    }
}

// A block of one chunk.
fn block_of<T: Drop>(alloc: Global, chunk: Chunk<T>) -> Result<Chunk<Chunk<T>>, NoMemory>
    ensures { IfOk result (λ block. block ≡ chunk ∷ []) }
{
    Ok(Chunk::new(alloc, vec![in alloc; chunk]?)?)
}
