//! The ids of the open rows of each key of a table: of small keys in lists by their place, of
//! others in maps. Without memory all ids stay as they were.
ghost use Rattle.std.specs.Prelude.{◌≡◌, ◌||◌, ◌&&◌, not, ◌==◌, ℕ, true, false, OnOk, OnErr, IfOk, IfSome, IfNone, Some, None, is_some};
ghost use Rattle.std.specs.Map.{lookup};
ghost use Rattle.tl_types.specs.declared.cells.Cell.{Cell};
ghost use Rattle.tl_types.specs.declared.cells.Cell.TheVariants as cell;
ghost use Rattle.tl_types.specs.History.{has_id, same_cell};
ghost use Rattle.tl_batch.specs.KeyIndex.{Changes, any_row, has_further, has_row, no_ids, is_among_few};

use crate::few_by_key::FewByKey;
use crate::further_ids::FurtherIds;
use crate::id_list::IdList;
use crate::small_keys::SmallKeys;
use std::alloc::Global;
use std::marker::Model;
use tl_types::{Cell, NoMemory};

/// The ids of rows by their keys: those of small keys in lists, as far as these have a place; else
/// one or two ids of a key in a map, and its further ones, which a key has only where its rows have
/// valid periods, in sets. A contract sees whether an id stands there under a key, by `has_row`.
#[derive(Drop)]
pub(crate) struct KeyIndex {
    small: SmallKeys,
    few: FewByKey,
    further: FurtherIds,
}

impl Model for KeyIndex {
    ghost use Rattle.tl_batch.specs.KeyIndex.{IdsByKey};

    ghost Value = { IdsByKey };

    ghost view = { λ k. record { small = k.small; few = k.few; further = k.further } };
}

impl KeyIndex {
    /// No ids.
    pub(crate) fn new(alloc: Global) -> KeyIndex
        ensures { result ≡ no_ids }
    {
        KeyIndex {
            small: SmallKeys::new(alloc),
            few: FewByKey::new(alloc),
            further: FurtherIds::new(alloc),
        }
    }

    /// Makes room for so many further keys of the kind of one, in a table that is to have so many
    /// rows. The error is `NoMemory`; no id changes, then either.
    pub(crate) fn reserve(&mut self, keys: usize, like: &Cell, rows: u32) -> Result<(), NoMemory>
        ensures { (x : Cell) (n : ℕ) → has_row self.new x n ≡ has_row self.old x n }
    {
        self.small.set_rows(rows);
        if self.small.takes(like) {
            return Ok(());
        }
        self.few.reserve(keys, like)?;
        Ok(())
    }

    // Adds the id of a row of a key, for which the lists of small keys have no place. The error is
    // `NoMemory`, and leaves the ids as they were.
    #[inline(never)]
    fn add_large(&mut self, alloc: Global, key: &Cell, id: u32) -> Result<(), NoMemory>
        ensures ok { OnOk result ((x : Cell) (n : ℕ) → has_row self.new x n
            ≡ ((same_cell x key.now && (n == id)) || has_row self.old x n)) }
        ensures err { OnErr result ((x : Cell) (n : ℕ) → has_row self.new x n
            ≡ has_row self.old x n) }
    {
        let room = self.few.add(key, id)?;
        if room {
            return Ok(());
        }
        self.further.add(alloc, key, id)?;
        Ok(())
    }

    /// Adds the id of a row of a key. The error is `NoMemory`, and leaves the ids as they were.
    #[inline(always)]
    pub(crate) fn add(&mut self, alloc: Global, key: &Cell, id: u32) -> Result<(), NoMemory>
        ensures ok { OnOk result ((x : Cell) (n : ℕ) → has_row self.new x n
            ≡ ((same_cell x key.now && (n == id)) || has_row self.old x n)) }
        ensures err { OnErr result ((x : Cell) (n : ℕ) → has_row self.new x n
            ≡ has_row self.old x n) }
    {
        let added = self.small.add(alloc, key, id)?;
        if added {
            return Ok(());
        }
        self.add_large(alloc, key, id)?;
        Ok(())
    }

    /// Takes the id of a row away whose key is a number.
    #[inline(always)]
    pub(crate) fn remove_number(&mut self, key: i64, id: u32)
        ensures { (x : Cell) (n : ℕ) → has_row self.new x n
            ≡ (not (same_cell x (cell.Int key) && (n == id)) && has_row self.old x n) }
    {
        self.small.remove(key, id);
        self.few.remove_number(key, id);
        self.further.remove_number(key, id);
    }

    /// Takes the id of a row of a key away.
    #[inline(always)]
    pub(crate) fn remove(&mut self, key: &Cell, id: u32)
        ensures { (x : Cell) (n : ℕ) → has_row self.new x n
            ≡ (not (same_cell x key.now && (n == id)) && has_row self.old x n) }
    {
        self.small.remove_key(key, id);
        self.few.remove(key, id);
        self.further.remove(key, id);
    }

    /// The id of a row of a key, where there is one.
    #[inline(always)]
    pub(crate) fn find(&self, key: &Cell) -> Option<u32>
        ensures some { IfSome result (λ id. has_row self.now key.now id ≡ true) }
        ensures none { IfNone result ((n : ℕ) → has_row self.now key.now n ≡ false) }
    {
        if let Some(id) = self.small.find(key) {
            return Some(id);
        }
        match self.few.ids(key) {
            Some(ids) => Some(ids.any()),
            None => self.further.find(key),
        }
    }

    /// Adds the ids of the rows of a key to a list. The error is `NoMemory`.
    #[inline(always)]
    pub(crate) fn add_to(&self, key: &Cell, ids: &mut IdList) -> Result<(), NoMemory>
        ensures { OnOk result ((n : ℕ) → has_id ids.new n
            ≡ (has_row self.now key.now n || has_id ids.old n)) }
    {
        self.small.add_to(key, ids)?;
        if let Some(few) = self.few.ids(key) {
            few.add_to(ids)?;
        }
        self.further.add_to(key, ids)?;
        Ok(())
    }

    /// Makes a list that of the ids of the rows of a key, in any order: what the list had is gone,
    /// and its room is used again. The error is `NoMemory`.
    pub(crate) fn fill(&self, key: &Cell, ids: &mut IdList) -> Result<(), NoMemory>
        ensures { OnOk result ((n : ℕ) → has_id ids.new n ≡ has_row self.now key.now n) }
    {
        ids.clear();
        self.add_to(key, ids)?;
        Ok(())
    }

    /// Adds the ids of the rows of all keys to a list. The error is `NoMemory`.
    pub(crate) fn add_all_to(&self, ids: &mut IdList) -> Result<(), NoMemory>
        ensures ids { OnOk result ((n : ℕ) → has_id ids.new n
            ≡ (any_row self.now n || has_id ids.old n)) }
        ensures keys { OnOk result ((n : ℕ) → any_row self.now n ≡ true
            → (x : Cell) × (has_row self.now x n ≡ true)) }
    {
        self.small.add_all_to(ids)?;
        self.few.add_all_to(ids)?;
        self.further.add_all_to(ids)?;
        Ok(())
    }
}
