//! The ids of each small key, in lists by the key's number. A key that is not small, and an id for
//! which there is no place, are not taken, and say so; without memory all ids stay as they were.
ghost use Rattle.std.specs.Prelude.{◌≡◌, ◌||◌, ◌&&◌, not, ◌==◌, ◌<◌, ◌+◌, ◌^◌, ℕ, ℤ, List, pos, [], true, false, length, OnOk, OnErr, IfOk, IfSome, IfNone};
ghost use Rattle.std.specs.List.{list_any};
ghost use Rattle.tl_types.specs.declared.cells.Cell.{Cell};
ghost use Rattle.tl_types.specs.declared.cells.Cell.TheVariants as cell;
ghost use Rattle.tl_types.specs.History.{has_id, same_cell};
ghost use Rattle.tl_batch.specs.declared.two_ids.TwoIds.{TwoIds};
ghost use Rattle.tl_batch.specs.KeyIndex.{has_number, in_set_of, has_set, has_small, has_two, any_small, is_of_two, no_ids};

use crate::id_list::IdList;
use crate::ids::IdSet;
use crate::two_ids::TwoIds;
use std::alloc::Global;
use std::marker::Model;
use tl_types::{Cell, NoMemory};

// So many keys, from 0 on, are small also where a table has few rows.
const LEAST: usize = 1024;

/// The ids of each small key, that is, of a number that is not much greater than the number of the
/// rows of its table: one or two, and a set of further ones, which a key has only where its rows
/// have valid periods. Each number has its own place in two lists, so that it is found without a
/// hash. A contract sees the lists.
#[derive(Drop)]
pub(crate) struct SmallKeys {
    two: Vec<TwoIds>,
    sets: Vec<IdSet>,
    rows: u32,
}

impl Model for SmallKeys {
    ghost use Rattle.tl_batch.specs.KeyIndex.{SmallIds};

    ghost Value = { SmallIds };

    ghost view = { λ s. record { two = s.two.items; sets = s.sets.items } };
}

// Whether a key is small in a table that has so many rows.
#[inline(always)]
fn is_small(key: usize, rows: u32) -> bool
    ensures { result ≡ true → key < 2 ^ 34 }
{
    key < rows as usize * 2 + LEAST
}

// The place of a number, from 0 on.
#[inline(always)]
fn place_of(key: i64) -> Option<usize>
    ensures some { IfSome result (λ place. key ≡ pos place) }
    ensures none { IfNone result ((ids : List TwoIds) (n : ℕ) → has_number ids key n ≡ false) }
    ensures no_set { IfNone result ((sets : List (List ℕ)) (n : ℕ) → in_set_of sets key n ≡ false) }
{
    if key < 0 {
        return None;
    }
    Some(key as usize)
}

// Makes a list longer, so that it has a place. The error is `NoMemory`, and leaves the list as it
// was.
#[inline(never)]
fn lengthen(ids: &mut Vec<TwoIds>, place: usize) -> Result<(), NoMemory>
    requires place { place < 2 ^ 34 }
    requires past { length ids.old.items < place + 1 }
    ensures same { (x : ℤ) (n : ℕ) → has_number ids.new.items x n ≡ has_number ids.old.items x n }
    ensures place { OnOk result (place < length ids.new.items) }
{
    ids.resize(place + place / 8 + 64, TwoIds::none())?;
    Ok(())
}

// The ids of a number, none where the list has no place for it.
#[inline(always)]
fn ids_of(ids: &[TwoIds], key: i64) -> TwoIds
    ensures { (n : ℕ) → is_of_two result n ≡ has_number ids.now key n }
{
    match place_of(key) {
        Some(place) if place < ids.len() => ids[place],
        _ => TwoIds::none(),
    }
}

// Adds an id to those at a place, where there is room for it, and says whether there was.
#[inline(always)]
fn add_at(ids: &mut [TwoIds], place: usize, id: u32) -> bool
    requires { place < length ids.old }
    ensures { (x : Cell) (n : ℕ) → has_two ids.new x n
        ≡ ((result && (same_cell x (cell.Int (pos place)) && (n == id))) || has_two ids.old x n) }
{
    let Some(more) = ids[place].with(id) else {
        return false;
    };
    ids[place] = more;
    true
}

// Takes an id from those at a place.
#[inline(always)]
fn remove_at(ids: &mut [TwoIds], place: usize, id: u32)
    requires { place < length ids.old }
    ensures { (x : Cell) (n : ℕ) → has_two ids.new x n
        ≡ (not (same_cell x (cell.Int (pos place)) && (n == id)) && has_two ids.old x n) }
{
    ids[place] = ids[place].without(id);
}

// Takes an id from those at a place, where there is such a place.
#[inline(always)]
fn remove_two(ids: &mut [TwoIds], place: usize, id: u32)
    ensures { (x : Cell) (n : ℕ) → has_two ids.new x n
        ≡ (not (same_cell x (cell.Int (pos place)) && (n == id)) && has_two ids.old x n) }
{
    if place < ids.len() {
        remove_at(ids, place, id);
    }
}

// Adds an id to those at a place, for which the list is made longer where the key is small in a
// table with so many rows, and says whether it did. The error is `NoMemory`, and leaves the ids as
// they were.
#[inline(always)]
fn add_small(ids: &mut Vec<TwoIds>, place: usize, id: u32, rows: u32) -> Result<bool, NoMemory>
    ensures ok { IfOk result (λ added. (x : Cell) (n : ℕ) → has_two ids.new.items x n
        ≡ ((added && (same_cell x (cell.Int (pos place)) && (n == id)))
        || has_two ids.old.items x n)) }
    ensures err { OnErr result ((x : Cell) (n : ℕ) → has_two ids.new.items x n
        ≡ has_two ids.old.items x n) }
{
    if place < ids.len() {
        return Ok(add_at(ids.as_mut_slice(), place, id));
    }
    if !is_small(place, rows) {
        return Ok(false);
    }
    lengthen(ids, place)?;
    Ok(add_at(ids.as_mut_slice(), place, id))
}

// Whether a key may have a set in a table that has so many rows.
#[inline(always)]
fn may_have_set(key: usize, rows: u32) -> bool
    ensures { result ≡ true → key < 2 ^ 32 }
{
    key < rows as usize / 8 + LEAST
}

// Makes a list of sets longer, so that it has a place. The error is `NoMemory`, and leaves the ids
// as they were.
#[inline(never)]
fn lengthen_sets(alloc: Global, sets: &mut Vec<IdSet>, place: usize) -> Result<(), NoMemory>
    requires { place < 2 ^ 32 }
    ensures same { (x : Cell) (n : ℕ) → has_set sets.new.items x n ≡ has_set sets.old.items x n }
    ensures place { OnOk result (place < length sets.new.items) }
{
    'lengthening: while sets.len() <= place {
        sets.push(IdSet::new(alloc))?;
    }
    Ok(())
}

// Adds an id to the set at a place. The error is `NoMemory`, and leaves the ids as they were.
fn add_at_set(sets: &mut [IdSet], place: usize, id: u32) -> Result<(), NoMemory>
    requires { place < length sets.old }
    ensures ok { OnOk result ((x : Cell) (n : ℕ) → has_set sets.new x n
        ≡ ((same_cell x (cell.Int (pos place)) && (n == id)) || has_set sets.old x n)) }
    ensures err { OnErr result ((x : Cell) (n : ℕ) → has_set sets.new x n ≡ has_set sets.old x n) }
{
    sets[place].add(id)?;
    Ok(())
}

// Takes an id from the set at a place.
fn remove_at_set(sets: &mut [IdSet], place: usize, id: u32)
    requires { place < length sets.old }
    ensures { (x : Cell) (n : ℕ) → has_set sets.new x n
        ≡ (not (same_cell x (cell.Int (pos place)) && (n == id)) && has_set sets.old x n) }
{
    sets[place].remove(id);
}

// Takes an id from the set at a place, where there is such a place.
#[inline(always)]
fn remove_further(sets: &mut [IdSet], place: usize, id: u32)
    ensures { (x : Cell) (n : ℕ) → has_set sets.new x n
        ≡ (not (same_cell x (cell.Int (pos place)) && (n == id)) && has_set sets.old x n) }
{
    if place < sets.len() {
        remove_at_set(sets, place, id);
    }
}

// Adds an id to the set at a place, for which the list is made longer where the key may have a set,
// and says whether it did. The error is `NoMemory`, and leaves the ids as they were.
fn add_further(
    alloc: Global,
    sets: &mut Vec<IdSet>,
    place: usize,
    id: u32,
) -> Result<bool, NoMemory>
    ensures ok { IfOk result (λ added. (x : Cell) (n : ℕ) → has_set sets.new.items x n
        ≡ ((added && (same_cell x (cell.Int (pos place)) && (n == id)))
        || has_set sets.old.items x n)) }
    ensures err { OnErr result ((x : Cell) (n : ℕ) → has_set sets.new.items x n
        ≡ has_set sets.old.items x n) }
{
    if place < sets.len() {
        add_at_set(sets.as_mut_slice(), place, id)?;
        return Ok(true);
    }
    if !may_have_set(place, id) {
        return Ok(false);
    }
    lengthen_sets(alloc, sets, place)?;
    add_at_set(sets.as_mut_slice(), place, id)?;
    Ok(true)
}

// One of the ids in the set of a number, where there is one.
#[inline(always)]
fn find_in(sets: &[IdSet], key: i64) -> Option<u32>
    ensures some { IfSome result (λ id. in_set_of sets.now key id ≡ true) }
    ensures none { IfNone result ((n : ℕ) → in_set_of sets.now key n ≡ false) }
{
    match place_of(key) {
        Some(place) if place < sets.len() => sets[place].any(),
        _ => None,
    }
}

// Adds the ids in the set of a number to a list. The error is `NoMemory`.
#[inline(always)]
fn add_set_to(sets: &[IdSet], key: i64, list: &mut IdList) -> Result<(), NoMemory>
    ensures { OnOk result ((n : ℕ) → has_id list.new n
        ≡ (in_set_of sets.now key n || has_id list.old n)) }
{
    match place_of(key) {
        Some(place) if place < sets.len() => {
            sets[place].add_to(list)?;
            Ok(())
        }
        _ => Ok(()),
    }
}

// Adds the ids of all places to a list. The error is `NoMemory`.
fn add_all_two(ids: &[TwoIds], list: &mut IdList) -> Result<(), NoMemory>
    ensures { OnOk result ((n : ℕ) → has_id list.new n
        ≡ (list_any (λ two. is_of_two two n) ids.now || has_id list.old n)) }
{
    for two in ids {
        two.add_to(list)?;
    }
    Ok(())
}

// Adds the ids of all sets to a list. The error is `NoMemory`.
fn add_all_sets(sets: &[IdSet], list: &mut IdList) -> Result<(), NoMemory>
    ensures { OnOk result ((n : ℕ) → has_id list.new n
        ≡ (list_any (λ set. has_id set n) sets.now || has_id list.old n)) }
{
    for set in sets {
        set.add_to(list)?;
    }
    Ok(())
}

impl SmallKeys {
    /// No ids.
    pub(crate) fn new(alloc: Global) -> SmallKeys
        ensures { result ≡ no_ids.small }
    {
        SmallKeys {
            two: Vec::new(alloc),
            sets: Vec::new(alloc),
            rows: 0,
        }
    }

    /// The table has so many rows from now on, which says what keys are small.
    pub(crate) fn set_rows(&mut self, rows: u32)
        ensures { self.new ≡ self.old }
    {
        self.rows = rows;
    }

    /// Whether a key has a place here, or gets one once it has an id.
    pub(crate) fn takes(&self, key: &Cell) -> bool {
        match key {
            Cell::Int(number) => match place_of(*number) {
                Some(place) => place < self.two.len() || is_small(place, self.rows),
                None => false,
            },
            Cell::Text(_) => false,
        }
    }

    /// Adds an id to those of a key, where the key is small and there is room for the id, and says
    /// whether it did. The error is `NoMemory`, and leaves the ids as they were.
    #[inline(always)]
    pub(crate) fn add(&mut self, alloc: Global, key: &Cell, id: u32) -> Result<bool, NoMemory>
        ensures ok { IfOk result (λ added. (x : Cell) (n : ℕ) → has_small self.new x n
            ≡ ((added && (same_cell x key.now && (n == id))) || has_small self.old x n)) }
        ensures err { OnErr result ((x : Cell) (n : ℕ) → has_small self.new x n
            ≡ has_small self.old x n) }
    {
        let Cell::Int(number) = key else {
            return Ok(false);
        };
        let Some(place) = place_of(*number) else {
            return Ok(false);
        };
        let added = add_small(&mut self.two, place, id, self.rows)?;
        if added {
            return Ok(true);
        }
        let added = add_further(alloc, &mut self.sets, place, id)?;
        Ok(added)
    }

    /// Takes an id of a number away.
    #[inline(always)]
    pub(crate) fn remove(&mut self, key: i64, id: u32)
        ensures { (x : Cell) (n : ℕ) → has_small self.new x n
            ≡ (not (same_cell x (cell.Int key) && (n == id)) && has_small self.old x n) }
    {
        let Some(place) = place_of(key) else {
            return;
        };
        remove_two(self.two.as_mut_slice(), place, id);
        remove_further(self.sets.as_mut_slice(), place, id);
    }

    /// Takes an id of a key away.
    pub(crate) fn remove_key(&mut self, key: &Cell, id: u32)
        ensures { (x : Cell) (n : ℕ) → has_small self.new x n
            ≡ (not (same_cell x key.now && (n == id)) && has_small self.old x n) }
    {
        match key {
            Cell::Int(number) => self.remove(*number, id),
            Cell::Text(_) => {}
        }
    }

    /// One of the ids of a key, where there is one.
    #[inline(always)]
    pub(crate) fn find(&self, key: &Cell) -> Option<u32>
        ensures some { IfSome result (λ id. has_small self.now key.now id ≡ true) }
        ensures none { IfNone result ((n : ℕ) → has_small self.now key.now n ≡ false) }
    {
        let Cell::Int(number) = key else {
            return None;
        };
        if let Some(id) = ids_of(self.two.as_slice(), *number).any() {
            return Some(id);
        }
        find_in(self.sets.as_slice(), *number)
    }

    /// Adds the ids of a key to a list. The error is `NoMemory`.
    #[inline(always)]
    pub(crate) fn add_to(&self, key: &Cell, list: &mut IdList) -> Result<(), NoMemory>
        ensures { OnOk result ((n : ℕ) → has_id list.new n
            ≡ (has_small self.now key.now n || has_id list.old n)) }
    {
        let Cell::Int(number) = key else {
            return Ok(());
        };
        ids_of(self.two.as_slice(), *number).add_to(list)?;
        add_set_to(self.sets.as_slice(), *number, list)?;
        Ok(())
    }

    /// Adds the ids of all keys to a list. The error is `NoMemory`.
    pub(crate) fn add_all_to(&self, list: &mut IdList) -> Result<(), NoMemory>
        ensures ids { OnOk result ((n : ℕ) → has_id list.new n
            ≡ (any_small self.now n || has_id list.old n)) }
        ensures keys { OnOk result ((n : ℕ) → any_small self.now n ≡ true
            → (x : Cell) × (has_small self.now x n ≡ true)) }
    {
        add_all_two(self.two.as_slice(), list)?;
        add_all_sets(self.sets.as_slice(), list)?;
        Ok(())
    }
}
