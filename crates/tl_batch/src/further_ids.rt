//! The ids of a key beyond those that stand beside it: a set for each key, of which none stays
//! empty. Without memory all ids stay as they were.
ghost use Rattle.std.specs.Prelude.{◌≡◌, ◌||◌, ◌&&◌, not, ◌==◌, ℕ, [], true, false, OnOk, OnErr, IfOk, IfSome, IfNone, IsTrue, Some, is_some};
ghost use Rattle.std.specs.Map.{lookup};
ghost use Rattle.tl_types.specs.declared.cells.Cell.{Cell};
ghost use Rattle.tl_types.specs.declared.cells.Cell.TheVariants as cell;
ghost use Rattle.tl_types.specs.History.{has_id, same_cell};
ghost use Rattle.tl_batch.specs.KeyIndex.{any_further, has_further, Changes};

use crate::id_list::IdList;
use crate::ids::IdSet;
use std::alloc::Global;
use std::collections::HashMap;
use std::marker::Model;
use tl_types::{Cell, NoMemory};

/// Sets of ids by key, of which none stays empty. A contract sees the list of the keys with their
/// ids.
#[derive(Drop)]
pub(crate) struct FurtherIds {
    ids: HashMap<Cell, IdSet>,
}

impl Model for FurtherIds {
    ghost use Rattle.std.specs.Prelude.{ℕ, List};
    ghost use Rattle.tl_types.specs.declared.cells.Cell.{Cell};

    ghost Value = { List (Cell × List ℕ) };

    ghost view = { λ f. f.ids.entries };
}

// A set of one id. The error is `NoMemory`.
fn one_id(alloc: Global, id: u32) -> Result<IdSet, NoMemory>
    ensures { IfOk result (λ ids. (n : ℕ) → has_id ids n ≡ (n == id)) }
{
    let mut ids = IdSet::new(alloc);
    ids.add(id)?;
    Ok(ids)
}

impl FurtherIds {
    /// No ids.
    pub(crate) fn new(alloc: Global) -> FurtherIds
        ensures { result ≡ [] }
    {
        FurtherIds {
            ids: HashMap::new(alloc),
        }
    }

    /// Adds an id of a key. The error is `NoMemory`, and leaves the ids as they were.
    pub(crate) fn add(&mut self, alloc: Global, key: &Cell, id: u32) -> Result<(), NoMemory>
        ensures ok { OnOk result ((x : Cell) (n : ℕ) → has_further self.new x n
            ≡ ((same_cell x key.now && (n == id)) || has_further self.old x n)) }
        ensures err { OnErr result ((x : Cell) (n : ℕ) → has_further self.new x n
            ≡ has_further self.old x n) }
    {
        let Some(ids) = self.ids.get_mut(key) else {
            let set = one_id(alloc, id)?;
            self.put(key, set)?;
            return Ok(());
        };
        ids.add(id)?;
        Ok(())
    }

    // Gives a key that has no set of ids one.
    fn put(&mut self, key: &Cell, set: IdSet) -> Result<(), NoMemory>
        requires { is_some (lookup (same_cell key.now) self.old) ≡ false }
        ensures ok { OnOk result (Changes key.now (Some set) self.old self.new) }
        ensures err { OnErr result (self.new ≡ self.old) }
    {
        let copy = key.clone()?;
        self.ids.insert(copy, set)?;
        Ok(())
    }

    // Takes an id of a key away, and leaves the set of its ids, also where it is empty.
    fn cut(&mut self, key: &Cell, id: u32)
        ensures { (x : Cell) (n : ℕ) → has_further self.new x n
            ≡ (not (same_cell x key.now && (n == id)) && has_further self.old x n) }
    {
        let Some(ids) = self.ids.get_mut(key) else {
            return;
        };
        ids.remove(id);
    }

    // Whether there is an empty set of ids of a key.
    fn is_spent(&self, key: &Cell) -> bool
        ensures { IsTrue result → (n : ℕ) → has_further self.now key.now n ≡ false }
    {
        match self.ids.get(key) {
            Some(ids) => ids.is_empty(),
            None => false,
        }
    }

    // Takes the set of ids of a key away where it is empty.
    fn shed(&mut self, key: &Cell)
        ensures { (x : Cell) (n : ℕ) → has_further self.new x n ≡ has_further self.old x n }
    {
        if self.is_spent(key) {
            self.ids.remove(key);
        }
    }

    // Takes an id of a key away.
    #[inline(never)]
    fn take(&mut self, key: &Cell, id: u32)
        ensures { (x : Cell) (n : ℕ) → has_further self.new x n
            ≡ (not (same_cell x key.now && (n == id)) && has_further self.old x n) }
    {
        self.cut(key, id);
        self.shed(key);
    }

    /// Takes an id of a key away.
    #[inline(always)]
    pub(crate) fn remove(&mut self, key: &Cell, id: u32)
        ensures { (x : Cell) (n : ℕ) → has_further self.new x n
            ≡ (not (same_cell x key.now && (n == id)) && has_further self.old x n) }
    {
        if self.ids.is_empty() {
            return;
        }
        self.take(key, id);
    }

    /// Takes an id of a number away.
    #[inline(always)]
    pub(crate) fn remove_number(&mut self, key: i64, id: u32)
        ensures { (x : Cell) (n : ℕ) → has_further self.new x n
            ≡ (not (same_cell x (cell.Int key) && (n == id)) && has_further self.old x n) }
    {
        if self.ids.is_empty() {
            return;
        }
        let key = Cell::Int(key);
        self.take(&key, id);
    }

    /// One of the ids of a key, where there is one.
    #[inline(always)]
    pub(crate) fn find(&self, key: &Cell) -> Option<u32>
        ensures some { IfSome result (λ id. has_further self.now key.now id ≡ true) }
        ensures none { IfNone result ((n : ℕ) → has_further self.now key.now n ≡ false) }
    {
        if self.ids.is_empty() {
            return None;
        }
        match self.ids.get(key) {
            Some(ids) => ids.any(),
            None => None,
        }
    }

    /// Adds the ids of a key to a list. The error is `NoMemory`.
    #[inline(always)]
    pub(crate) fn add_to(&self, key: &Cell, list: &mut IdList) -> Result<(), NoMemory>
        ensures { OnOk result ((n : ℕ) → has_id list.new n
            ≡ (has_further self.now key.now n || has_id list.old n)) }
    {
        if self.ids.is_empty() {
            return Ok(());
        }
        match self.ids.get(key) {
            Some(ids) => {
                ids.add_to(list)?;
                Ok(())
            }
            None => Ok(()),
        }
    }

    /// Adds the ids of all keys to a list. The error is `NoMemory`.
    pub(crate) fn add_all_to(&self, list: &mut IdList) -> Result<(), NoMemory>
        ensures ids { OnOk result ((n : ℕ) → has_id list.new n
            ≡ (any_further self.now n || has_id list.old n)) }
        ensures keys { OnOk result ((n : ℕ) → any_further self.now n ≡ true
            → (x : Cell) × (has_further self.now x n ≡ true)) }
    {
        let mut entries = self.ids.iter();
        'keys: while let Some((_, ids)) = entries.next() {
            ids.add_to(list)?;
        }
        Ok(())
    }
}
