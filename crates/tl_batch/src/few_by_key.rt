//! One or two ids of each key, in a map for numbers and one for texts. A third id of a key is not
//! taken, and says so; without memory all ids stay as they were.
ghost use Rattle.std.specs.Prelude.{◌≡◌, ◌||◌, ◌&&◌, not, ◌==◌, ℕ, ℤ, List, false, true, is_some, OnOk, OnErr, IfOk};
ghost use Rattle.std.specs.Ordering.{int_eq};
ghost use Rattle.std.specs.Map.{lookup};
ghost use Rattle.tl_types.specs.declared.cells.Cell.{Cell};
ghost use Rattle.tl_types.specs.declared.cells.Cell.TheVariants as cell;
ghost use Rattle.tl_types.specs.Names.{same_bytes};
ghost use Rattle.tl_types.specs.History.{has_id, same_cell};
ghost use Rattle.tl_batch.specs.KeyIndex.{any_at, any_few, has_few, is_among_few, is_at_key, no_ids};

use crate::few_ids::FewIds;
use crate::id_list::IdList;
use std::alloc::Global;
use std::collections::HashMap;
use std::hash::Hash;
use std::marker::Model;
use tl_types::{Cell, NoMemory, Text};

/// One or two ids of each key that has any. Keys that are numbers stand apart from those that are
/// texts. A contract sees the entries of both.
#[derive(Drop)]
pub(crate) struct FewByKey {
    numbers: HashMap<i64, FewIds>,
    texts: HashMap<Text, FewIds>,
}

impl Model for FewByKey {
    ghost use Rattle.tl_batch.specs.KeyIndex.{FewIdsByKey};

    ghost Value = { FewIdsByKey };

    ghost view = { λ f. record { numbers = f.numbers.entries; texts = f.texts.entries } };
}

// Gives a number that has no ids one.
#[inline(always)]
fn insert_number(few: &mut HashMap<i64, FewIds>, key: i64, id: u32) -> Result<(), NoMemory>
    requires { is_some (lookup (int_eq key) few.old.entries) ≡ false }
    ensures ok { OnOk result ((x : ℤ) (n : ℕ) → is_at_key int_eq few.new.entries x n
        ≡ ((int_eq x key && (n == id)) || is_at_key int_eq few.old.entries x n)) }
    ensures err { OnErr result (few.new.entries ≡ few.old.entries) }
{
    few.insert(key, FewIds::one(id))?;
    Ok(())
}

// Adds an id to those of a number where they are fewer than two, and says whether they were.
#[inline(always)]
fn add_number(few: &mut HashMap<i64, FewIds>, key: i64, id: u32) -> Result<bool, NoMemory>
    ensures ok { IfOk result (λ room. (x : ℤ) (n : ℕ) → is_at_key int_eq few.new.entries x n
        ≡ ((room && (int_eq x key && (n == id))) || is_at_key int_eq few.old.entries x n)) }
    ensures err { OnErr result (few.new.entries ≡ few.old.entries) }
{
    let Some(ids) = few.get_mut(&key) else {
        insert_number(few, key, id)?;
        return Ok(true);
    };
    let Some(more) = ids.with(id) else {
        return Ok(false);
    };
    *ids = more;
    Ok(true)
}

// Gives a text that has no ids one.
fn insert_text(few: &mut HashMap<Text, FewIds>, key: &Text, id: u32) -> Result<(), NoMemory>
    requires { is_some (lookup (same_bytes key.now) few.old.entries) ≡ false }
    ensures ok { OnOk result ((x : List ℕ) (n : ℕ) → is_at_key same_bytes few.new.entries x n
        ≡ ((same_bytes x key.now && (n == id)) || is_at_key same_bytes few.old.entries x n)) }
    ensures err { OnErr result (few.new.entries ≡ few.old.entries) }
{
    let copy = key.clone()?;
    few.insert(copy, FewIds::one(id))?;
    Ok(())
}

// Adds an id to those of a text where they are fewer than two, and says whether they were.
fn add_text(few: &mut HashMap<Text, FewIds>, key: &Text, id: u32) -> Result<bool, NoMemory>
    ensures ok { IfOk result (λ room. (x : List ℕ) (n : ℕ)
        → is_at_key same_bytes few.new.entries x n ≡ ((room && (same_bytes x key.now && (n == id)))
        || is_at_key same_bytes few.old.entries x n)) }
    ensures err { OnErr result (few.new.entries ≡ few.old.entries) }
{
    let Some(ids) = few.get_mut(key) else {
        insert_text(few, key, id)?;
        return Ok(true);
    };
    let Some(more) = ids.with(id) else {
        return Ok(false);
    };
    *ids = more;
    Ok(true)
}

// Takes an id of a key away.
#[inline(never)]
fn take_from<K: Eq + Hash + Drop>(few: &mut HashMap<K, FewIds>, key: &K, id: u32)
    ensures { (x : _) (n : ℕ) → is_at_key K.eq few.new.entries x n
        ≡ (not (K.eq x key.now && (n == id)) && is_at_key K.eq few.old.entries x n) }
{
    let Some(ids) = few.get_mut(key) else {
        return;
    };
    let Some(left) = ids.without(id) else {
        few.remove(key);
        return;
    };
    *ids = left;
}

// Takes an id of a key away, where there are keys.
#[inline(always)]
fn remove_from<K: Eq + Hash + Drop>(few: &mut HashMap<K, FewIds>, key: &K, id: u32)
    ensures { (x : _) (n : ℕ) → is_at_key K.eq few.new.entries x n
        ≡ (not (K.eq x key.now && (n == id)) && is_at_key K.eq few.old.entries x n) }
{
    if few.is_empty() {
        return;
    }
    take_from(few, key, id);
}

// The ids of a key.
#[inline(always)]
fn few_of<K: Eq + Hash>(few: &HashMap<K, FewIds>, key: &K) -> Option<FewIds>
    ensures { (n : ℕ) → is_among_few result n ≡ is_at_key K.eq few.now.entries key.now n }
{
    if few.is_empty() {
        return None;
    }
    match few.get(key) {
        Some(ids) => Some(*ids),
        None => None,
    }
}

// Adds the ids of all keys to a list. The error is `NoMemory`.
fn add_all_of<K: Eq + Hash>(few: &HashMap<K, FewIds>, list: &mut IdList) -> Result<(), NoMemory>
    ensures ids { OnOk result ((n : ℕ) → has_id list.new n
        ≡ (any_at few.now.entries n || has_id list.old n)) }
    ensures keys { OnOk result ((n : ℕ) → any_at few.now.entries n ≡ true
        → (x : _) × (is_at_key K.eq few.now.entries x n ≡ true)) }
{
    let mut entries = few.iter();
    'keys: while let Some((_, ids)) = entries.next() {
        ids.add_to(list)?;
    }
    Ok(())
}

impl FewByKey {
    /// No ids.
    pub(crate) fn new(alloc: Global) -> FewByKey
        ensures { result ≡ no_ids.few }
    {
        FewByKey {
            numbers: HashMap::new(alloc),
            texts: HashMap::new(alloc),
        }
    }

    /// Makes room for so many further keys of the kind of one. The error is `NoMemory`; no id
    /// changes, then either.
    pub(crate) fn reserve(&mut self, keys: usize, like: &Cell) -> Result<(), NoMemory>
        ensures { (x : Cell) (n : ℕ) → has_few self.new x n ≡ has_few self.old x n }
    {
        match like {
            Cell::Int(_) => self.numbers.reserve(keys)?,
            Cell::Text(_) => self.texts.reserve(keys)?,
        }
        Ok(())
    }

    /// The ids of a key.
    #[inline(always)]
    pub(crate) fn ids(&self, key: &Cell) -> Option<FewIds>
        ensures { (n : ℕ) → is_among_few result n ≡ has_few self.now key.now n }
    {
        match key {
            Cell::Int(number) => few_of(&self.numbers, number),
            Cell::Text(text) => few_of(&self.texts, text),
        }
    }

    /// Adds an id to those of a key where they are fewer than two, and says whether they were. The
    /// error is `NoMemory`, and leaves the ids as they were.
    #[inline(always)]
    pub(crate) fn add(&mut self, key: &Cell, id: u32) -> Result<bool, NoMemory>
        ensures ok { IfOk result (λ room. (x : Cell) (n : ℕ) → has_few self.new x n
            ≡ ((room && (same_cell x key.now && (n == id))) || has_few self.old x n)) }
        ensures err { OnErr result ((x : Cell) (n : ℕ) → has_few self.new x n
            ≡ has_few self.old x n) }
    {
        match key {
            Cell::Int(number) => add_number(&mut self.numbers, *number, id),
            Cell::Text(text) => add_text(&mut self.texts, text, id),
        }
    }

    /// Takes an id of a number away.
    #[inline(always)]
    pub(crate) fn remove_number(&mut self, key: i64, id: u32)
        ensures { (x : Cell) (n : ℕ) → has_few self.new x n
            ≡ (not (same_cell x (cell.Int key) && (n == id)) && has_few self.old x n) }
    {
        remove_from(&mut self.numbers, &key, id);
    }

    /// Takes an id of a key away.
    #[inline(always)]
    pub(crate) fn remove(&mut self, key: &Cell, id: u32)
        ensures { (x : Cell) (n : ℕ) → has_few self.new x n
            ≡ (not (same_cell x key.now && (n == id)) && has_few self.old x n) }
    {
        match key {
            Cell::Int(number) => remove_from(&mut self.numbers, number, id),
            Cell::Text(text) => remove_from(&mut self.texts, text, id),
        }
    }

    /// Adds the ids of all keys to a list. The error is `NoMemory`.
    pub(crate) fn add_all_to(&self, list: &mut IdList) -> Result<(), NoMemory>
        ensures ids { OnOk result ((n : ℕ) → has_id list.new n
            ≡ (any_few self.now n || has_id list.old n)) }
        ensures keys { OnOk result ((n : ℕ) → any_few self.now n ≡ true
            → (x : Cell) × (has_few self.now x n ≡ true)) }
    {
        add_all_of(&self.numbers, list)?;
        add_all_of(&self.texts, list)?;
        Ok(())
    }
}
