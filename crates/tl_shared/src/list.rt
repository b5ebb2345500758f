//! Lists in chunks of one size, of which each but the last is full. A longer or changed list
//! shares with the older one the chunks that both have, and a list that is taken over changes in
//! place what has no other owner. Only want of memory, or 2^64 items, refuses a list.
ghost use Rattle.std.specs.Prelude.{◌≡◌, ◌+◌, ◌-◌, ◌*◌, ◌/◌, ◌%◌, ◌<◌, ◌≤◌, ◌^◌, ◌++◌, [], length, take, drop, slice_index, slice_index_or, slice_set, All, IfOk};
ghost use Rattle.tl_shared.specs.Chunks.{flatten, AreFull, IsChunked, piece_or_nil, set_each, set_within};

use crate::chunk::Chunk;
use crate::chunk_list::ChunkList;
use crate::shareable::{Shareable, share_all};
use std::alloc::{AllocError, Global};
use std::marker::Model;
use tl_types::NoMemory;

/// How many items a full chunk of a `SharedList` has.
pub const CHUNK: usize = 1024;

/// How many items a full chunk of a `FineList` has.
pub const FINE_CHUNK: usize = 64;

/// A list of which large parts stay as they are: a change of an item copies up to 1,024 items.
pub type SharedList<T> = ListInChunks<T, CHUNK>;

/// A list whose items change all over: a change of an item copies up to 64 items.
pub type FineList<T> = ListInChunks<T, FINE_CHUNK>;

/// A list of items in chunks of `SIZE`, of which each but the last is full. Its parts may have
/// other owners. Contracts see it as the list of its items.
#[derive(Drop)]
pub struct ListInChunks<T, const SIZE: usize> {
    chunks: ChunkList<T>,
    len: u64,
}

impl<T, const SIZE: usize> Model for ListInChunks<T, SIZE> {
    ghost use Rattle.std.specs.Prelude.{◌≡◌, ◌<◌, ◌^◌, List, length};
    ghost use Rattle.tl_shared.specs.Chunks.{flatten, IsList};

    ghost Value = { List T };

    ghost view = { λ l. flatten l.chunks };

    ghost invariant = { λ l. IsList SIZE l.chunks l.len };
}

impl<T: Shareable, const SIZE: usize> ListInChunks<T, SIZE> {
    /// The list of no items. `alloc` is the memory that it will take, none as yet.
    pub fn none(alloc: Global) -> ListInChunks<T, SIZE>
        requires some { 0 < SIZE }
        requires few { SIZE < 2 ^ 63 }
        ensures { result ≡ [] }
    {
        ListInChunks {
            chunks: ChunkList::none(alloc),
            len: 0,
        }
    }

    /// How many items there are.
    pub fn len(&self) -> u64
        ensures { result ≡ length self.now }
    {
        self.len
    }

    /// The list followed by `items`. It shares every full chunk with this one, and this one stays
    /// as it was. `NoMemory` comes only where memory is out, or where the items would be 2^64 or
    /// more.
    pub fn push_all(&self, alloc: Global, items: &[T]) -> Result<ListInChunks<T, SIZE>, NoMemory>
        ensures { IfOk result (λ list. list ≡ self.now ++ items.now) }
    {
        self.share(alloc)?.append(alloc, items)
    }

    /// The list with `item` in place of the item at `at`, counted from 0. It shares every other
    /// chunk with this one, and this one stays as it was. The error is `NoMemory`.
    pub fn with(&self, alloc: Global, at: u64, item: T) -> Result<ListInChunks<T, SIZE>, NoMemory>
        requires { at < length self.now }
        ensures { IfOk result (λ list. list ≡ slice_set self.now at item) }
    {
        let chunks = &self.chunks;
        let i = (at / SIZE as u64) as usize;
        let mut items = share_all(alloc, chunks.chunk(i))?;
        items[(at % SIZE as u64) as usize] = item;
        let chunk = Chunk::new(alloc, items)?;
        let chunks = chunks.share(alloc)?.with(alloc, i, chunk)?;
        Ok(ListInChunks {
            chunks,
            len: self.len,
        })
    }

    /// The list with `item` at each of these places, counted from 0. It shares with this one each
    /// chunk that has none of the places, and copies a chunk once. This one stays as it was. The
    /// error is `NoMemory`.
    pub fn with_each(
        &self,
        alloc: Global,
        places: &[u32],
        item: &T,
    ) -> Result<ListInChunks<T, SIZE>, NoMemory>
        requires { All (λ place. place < length self.now) places.now }
        ensures { IfOk result (λ list. list ≡ set_each item.now self.now places.now) }
    {
        self.share(alloc)?.set_each(alloc, places, item)
    }

    /// The list with `item` at each of these places, counted from 0, which takes this one over: a
    /// chunk of which it is the only owner is changed where it stands, and another one is copied
    /// once. The error is `NoMemory`.
    pub fn set_each(
        self,
        alloc: Global,
        places: &[u32],
        item: &T,
    ) -> Result<ListInChunks<T, SIZE>, NoMemory>
        requires { All (λ place. place < length self) places.now }
        ensures { IfOk result (λ list. list ≡ set_each item.now self places.now) }
    {
        let ListInChunks { chunks, len } = self;
        let chunks = set_in_chunks::<T, SIZE>(alloc, chunks, places, item)?;
        Ok(ListInChunks { chunks, len })
    }

    // The list followed by items for which its last chunk has room.
    fn fill(self, alloc: Global, items: &[T]) -> Result<ListInChunks<T, SIZE>, NoMemory>
        requires begun { 0 < length self % SIZE }
        requires room { length self % SIZE + length items.now ≤ SIZE }
        ensures { IfOk result (λ list. list ≡ self ++ items.now) }
    {
        let Some(len) = self.len.checked_add(items.len() as u64) else {
            return Err(AllocError);
        };
        let full = (self.len / SIZE as u64) as usize;
        let chunks = self.chunks.extend_chunk(alloc, SIZE, full, items)?;
        Ok(ListInChunks { chunks, len })
    }

    // The list, whose chunks are full, followed by items in chunks of their own.
    fn append_chunks(self, alloc: Global, items: &[T]) -> Result<ListInChunks<T, SIZE>, NoMemory>
        requires full { length self % SIZE ≡ 0 }
        ensures { IfOk result (λ list. list ≡ self ++ items.now) }
    {
        let Some(len) = self.len.checked_add(items.len() as u64) else {
            return Err(AllocError);
        };
        let chunks = push_chunks::<T, SIZE>(alloc, self.chunks, items)?;
        Ok(ListInChunks { chunks, len })
    }

    /// The list followed by `items`, which takes this one over: what of it has no other owner is
    /// not copied. `NoMemory` comes only where memory is out, or where the items would be 2^64 or
    /// more.
    pub fn append(self, alloc: Global, items: &[T]) -> Result<ListInChunks<T, SIZE>, NoMemory>
        ensures { IfOk result (λ list. list ≡ self ++ items.now) }
    {
        if items.is_empty() {
            return Ok(self);
        }
        let last = (self.len % SIZE as u64) as usize;
        if last == 0 {
            return self.append_chunks(alloc, items);
        }
        let room = SIZE - last;
        if items.len() <= room {
            return self.fill(alloc, items);
        }
        let (first, rest) = items.split_at(room);
        self.fill(alloc, first)?.append_chunks(alloc, rest)
    }

    /// The item at `at`, counted from 0.
    pub fn at(&self, at: u64) -> &T
        requires { at < length self.now }
        ensures { result.now ≡ slice_index_or self.now at result.now }
    {
        let chunk = self.chunks.chunk((at / SIZE as u64) as usize);
        &chunk[(at % SIZE as u64) as usize]
    }

    /// The items from `at` on, counted from 0, that stand in one chunk: at least one, and at most
    /// `SIZE`.
    pub fn chunk_from(&self, at: u64) -> &[T]
        requires { at < length self.now }
        ensures items { result.now ≡ take (SIZE - at % SIZE) (drop at self.now) }
        ensures some { 0 < length result.now }
    {
        let whole = self.chunks.chunk((at / SIZE as u64) as usize);
        let (_before, from) = whole.split_at((at % SIZE as u64) as usize);
        from
    }

    /// Chunk `i`, counted from 0: the items from `SIZE i` on, at most `SIZE` of them.
    pub fn chunk(&self, i: u64) -> &[T]
        requires { SIZE * i < length self.now }
        ensures { result.now ≡ take SIZE (drop (SIZE * i) self.now) }
    {
        self.chunks.chunk(i as usize)
    }
}

impl<T: Shareable, const SIZE: usize> Shareable for ListInChunks<T, SIZE> {
    fn share(&self, alloc: Global) -> Result<ListInChunks<T, SIZE>, NoMemory> {
        Ok(ListInChunks {
            chunks: self.chunks.share(alloc)?,
            len: self.len,
        })
    }
}

// The chunks, which are full, followed by those of the items.
fn push_chunks<T: Shareable, const SIZE: usize>(
    alloc: Global,
    chunks: ChunkList<T>,
    items: &[T],
) -> Result<ChunkList<T>, NoMemory>
    requires size { 0 < SIZE }
    requires small { SIZE < 2 ^ 63 }
    requires chunked { IsChunked SIZE chunks }
    requires full { AreFull SIZE chunks }
    ensures list { IfOk result (λ longer. flatten longer ≡ flatten chunks ++ items.now) }
    ensures chunked { IfOk result (λ longer. IsChunked SIZE longer) }
{
    let mut chunks = chunks;
    let mut rest = items;
    while !rest.is_empty() {
        let (piece, after) = rest.split_at(rest.len().min(SIZE));
        let chunk = Chunk::new(alloc, share_all(alloc, piece)?)?;
        chunks = chunks.push(alloc, chunk)?;
        rest = after;
    }
    Ok(chunks)
}

// How many of the places, from the first on, are in chunk `i`.
fn places_in_chunk<const SIZE: usize>(places: &[u32], i: usize) -> usize
    requires { 0 < SIZE }
    ensures within { result ≤ length places.now }
    ensures inside { All (λ place. place / SIZE ≡ i) (take result places.now) }
    ensures some { 0 < length places.now → slice_index places.now 0 / SIZE ≡ i → 0 < result }
{
    for (count, place) in places.iter().enumerate() {
        if *place as usize / SIZE != i {
            return count;
        }
    }
    places.len()
}

// The chunks with the item at each of these places of the list.
fn set_in_chunks<T: Shareable, const SIZE: usize>(
    alloc: Global,
    chunks: ChunkList<T>,
    places: &[u32],
    item: &T,
) -> Result<ChunkList<T>, NoMemory>
    requires size { 0 < SIZE }
    requires chunked { IsChunked SIZE chunks }
    requires places { All (λ place. place < length (flatten chunks)) places.now }
    ensures list { IfOk result
        (λ changed. flatten changed ≡ set_each item.now (flatten chunks) places.now) }
    ensures chunked { IfOk result (λ changed. IsChunked SIZE changed) }
{
    let mut chunks = chunks;
    let mut rest = places;
    while let [first, ..] = rest {
        let i = *first as usize / SIZE;
        let (group, after) = rest.split_at(places_in_chunk::<SIZE>(rest, i));
        chunks = chunks.set_within::<SIZE>(alloc, i, group, item)?;
        rest = after;
    }
    Ok(chunks)
}
