//! Chunks: parts of a list, each of which may be a part of further lists. Who shares a chunk takes
//! no copy of its items; a change copies a chunk that has further owners, and is made where the
//! items stand in one that has not.
ghost use Rattle.std.specs.Prelude.{◌≡◌, ◌+◌, ◌-◌, ◌%◌, ◌<◌, ◌≤◌, ◌^◌, ◌++◌, [], length, slice_set, All, IfOk, IfErr};
ghost use Rattle.tl_shared.specs.Chunks.{piece_or_nil, set_within};

use crate::shareable::{Shareable, share_all};
use std::alloc::Global;
use std::marker::Model;
use std::sync::Arc;
use tl_types::NoMemory;

/// Items of which further owners take no copy. Contracts see it as the list of its items.
#[derive(Drop)]
pub struct Chunk<T> {
    items: Arc<Vec<T>>,
}

impl<T> Model for Chunk<T> {
    ghost use Rattle.std.specs.Prelude.{List};
    ghost use Rattle.std.specs.Arc.{arc_value};

    ghost Value = { List T };

    ghost view = { λ c. (arc_value c.items).items };
}

impl<T: Drop> Chunk<T> {
    /// The items, for sharing. The error is `NoMemory`.
    pub fn new(alloc: Global, items: Vec<T>) -> Result<Chunk<T>, NoMemory>
        ensures { IfOk result (λ chunk. chunk ≡ items.items) }
    {
        Ok(Chunk {
            items: Arc::new(alloc, items)?,
        })
    }

    /// The items, lent.
    pub fn as_slice(&self) -> &[T]
        ensures { result.now ≡ self.now }
    {
        self.items.as_slice()
    }
}

impl<T: Shareable> Chunk<T> {
    // Puts an item in place of the one at `at`. A chunk with further owners is copied first; one
    // that has this owner alone is not. After an error it is as it was.
    pub(crate) fn set(&mut self, alloc: Global, at: usize, item: T) -> Result<(), NoMemory>
        requires { at < length self.old }
        ensures ok { IfOk result (λ _. self.new ≡ slice_set self.old at item) }
        ensures err { IfErr result (λ _. self.new ≡ self.old) }
    {
        if let Some(items) = Arc::get_mut(&mut self.items) {
            items[at] = item;
            return Ok(());
        }
        let mut items = share_all(alloc, self.items.as_slice())?;
        items[at] = item;
        self.items = Arc::new(alloc, items)?;
        Ok(())
    }
}

impl<T: Shareable> Chunk<T> {
    // Puts the item at the place within this chunk of each of these places of a list in chunks of
    // `SIZE`. A chunk with further owners is copied first; one that has this owner alone is not,
    // and after an error may be changed in part. The error is `NoMemory`.
    pub(crate) fn set_within<const SIZE: usize>(
        &mut self,
        alloc: Global,
        places: &[u32],
        item: &T,
    ) -> Result<(), NoMemory>
        requires size { 0 < SIZE }
        requires places { All (λ place. place % SIZE < length self.old) places.now }
        ensures { IfOk result
            (λ _. self.new ≡ set_within SIZE item.now self.old places.now) }
    {
        if let Some(items) = Arc::get_mut(&mut self.items) {
            set_within::<T, SIZE>(alloc, items, places, item)?;
            return Ok(());
        }
        let mut items = share_all(alloc, self.items.as_slice())?;
        set_within::<T, SIZE>(alloc, &mut items, places, item)?;
        self.items = Arc::new(alloc, items)?;
        Ok(())
    }

    // Puts items behind those of this chunk, which may have `size` in all. A chunk with further
    // owners is copied first; one that has this owner alone is not, and after an error may be
    // changed in part. The error is `NoMemory`.
    pub(crate) fn extend(&mut self, alloc: Global, size: usize, more: &[T]) -> Result<(), NoMemory>
        requires room { length self.old + length more.now ≤ size }
        requires small { size < 2 ^ 63 }
        ensures { IfOk result (λ _. self.new ≡ self.old ++ more.now) }
    {
        if let Some(items) = Arc::get_mut(&mut self.items) {
            items.reserve_exact(size - items.len())?;
            T::share_onto(alloc, more, items)?;
            return Ok(());
        }
        *self = joined_chunk(alloc, self.as_slice(), more)?;
        Ok(())
    }
}

impl<T: Shareable> Chunk<Chunk<T>> {
    // Puts the item at the place within its chunk of each of these places of a list in chunks of
    // `SIZE`, which are in the chunk at `at`. The error is `NoMemory`; after it what has this owner
    // alone may be changed in part.
    pub(crate) fn set_within_chunk<const SIZE: usize>(
        &mut self,
        alloc: Global,
        at: usize,
        places: &[u32],
        item: &T,
    ) -> Result<(), NoMemory>
        requires size { 0 < SIZE }
        requires there { at < length self.old }
        requires places { All (λ place. place % SIZE < length (piece_or_nil at self.old))
            places.now }
        ensures { IfOk result (λ _. self.new ≡ slice_set self.old at
            (set_within SIZE item.now (piece_or_nil at self.old) places.now)) }
    {
        if let Some(chunks) = Arc::get_mut(&mut self.items) {
            chunks[at].set_within::<SIZE>(alloc, places, item)?;
            return Ok(());
        }
        let mut chunks = share_all(alloc, self.items.as_slice())?;
        chunks[at].set_within::<SIZE>(alloc, places, item)?;
        self.items = Arc::new(alloc, chunks)?;
        Ok(())
    }

    // Puts items behind those of the chunk at `at`, which may have `size` in all. The error is
    // `NoMemory`; after it what has this owner alone may be changed in part.
    pub(crate) fn extend_chunk(
        &mut self,
        alloc: Global,
        size: usize,
        at: usize,
        more: &[T],
    ) -> Result<(), NoMemory>
        requires there { at < length self.old }
        requires room { length (piece_or_nil at self.old) + length more.now ≤ size }
        requires small { size < 2 ^ 63 }
        ensures { IfOk result (λ _. self.new
            ≡ slice_set self.old at (piece_or_nil at self.old ++ more.now)) }
    {
        if let Some(chunks) = Arc::get_mut(&mut self.items) {
            chunks[at].extend(alloc, size, more)?;
            return Ok(());
        }
        let mut chunks = share_all(alloc, self.items.as_slice())?;
        chunks[at].extend(alloc, size, more)?;
        self.items = Arc::new(alloc, chunks)?;
        Ok(())
    }
}

// Puts the item at the place within its chunk of each of these places of a list.
fn set_within<T: Shareable, const SIZE: usize>(
    alloc: Global,
    items: &mut Vec<T>,
    places: &[u32],
    item: &T,
) -> Result<(), NoMemory>
    requires size { 0 < SIZE }
    requires places { All (λ place. place % SIZE < length items.old.items) places.now }
    ensures { IfOk result
        (λ _. items.new.items ≡ set_within SIZE item.now items.old.items places.now) }
{
    for place in places {
        items[*place as usize % SIZE] = item.share(alloc)?;
    }
    Ok(())
}

impl<T: Drop> Shareable for Chunk<T> {
    fn share(&self, _alloc: Global) -> Result<Chunk<T>, NoMemory> {
        Ok(Chunk {
            items: Arc::try_clone(&self.items)?,
        })
    }
}

// The items of chunk `i`, none where there is no such chunk.
pub(crate) fn items_of_chunk<T: Drop>(chunks: &[Chunk<T>], i: usize) -> &[T]
    ensures { result.now ≡ piece_or_nil i chunks.now }
{
    match chunks.get(i) {
        Some(chunk) => chunk.as_slice(),
        None => &[],
    }
}

// One chunk of the items of `unfilled` and then those of `more`.
fn joined_chunk<T: Shareable>(
    alloc: Global,
    unfilled: &[T],
    more: &[T],
) -> Result<Chunk<T>, NoMemory>
    requires { length unfilled.now + length more.now < 2 ^ 63 }
    ensures { IfOk result (λ chunk. chunk ≡ unfilled.now ++ more.now) }
{
    let mut items = Vec::with_capacity(alloc, unfilled.len() + more.len())?;
    T::share_onto(alloc, unfilled, &mut items)?;
    T::share_onto(alloc, more, &mut items)?;
    Chunk::new(alloc, items)
}
