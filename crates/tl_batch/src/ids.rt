//! Sets of ids: a few that ascend in a list, and the others in a tree. An id stands once, however
//! often it is added.
ghost use Rattle.std.specs.Prelude.{◌≡◌, ◌<◌, ◌||◌, ◌&&◌, not, true, false, ◌==◌, IsTrue, ℕ, ◌++◌, ◌∷◌, [], Some, OnOk, OnErr, IfSome, IfNone, length, slice_get};
ghost use Rattle.tl_types.specs.Facts.{AscendFrom};
ghost use Rattle.tl_types.specs.History.{has_id};

use crate::id_list::IdList;
use std::alloc::Global;
use std::collections::BTreeSet;
use std::marker::Model;
use tl_types::NoMemory;

// So many ids stand in a list at most.
const MOST: usize = 64;

/// A set of ids, which contracts see as the list of them: a few that ascend in a list that is gone
/// through, and the others in a tree.
#[derive(Drop)]
pub(crate) struct IdSet {
    few: Vec<u32>,
    further: BTreeSet<u32>,
}

impl Model for IdSet {
    ghost use Rattle.std.specs.Prelude.{ℕ, List, ◌++◌};
    ghost use Rattle.tl_types.specs.Facts.{AscendFrom};

    ghost Value = { List ℕ };

    ghost view = { λ s. s.few.items ++ s.further.keys };

    ghost invariant = { λ s. AscendFrom 0 s.few.items };
}

// Adds an id to a list.
fn push_id(few: &mut Vec<u32>, id: u32) -> Result<(), NoMemory>
    ensures ok { OnOk result ((n : ℕ) → has_id few.new.items n
        ≡ ((n == id) || has_id few.old.items n)) }
    ensures pushed { OnOk result (few.new.items ≡ few.old.items ++ id ∷ []) }
    ensures err { OnErr result (few.new.items ≡ few.old.items) }
{
    few.push(id)?;
    Ok(())
}

// Adds an id to a tree.
fn insert_id(further: &mut BTreeSet<u32>, id: u32) -> Result<(), NoMemory>
    ensures ok { OnOk result ((n : ℕ) → has_id further.new.keys n
        ≡ ((n == id) || has_id further.old.keys n)) }
    ensures err { OnErr result (further.new.keys ≡ further.old.keys) }
{
    further.insert(id)?;
    Ok(())
}

// The place of an id in a list, where it is there.
fn place_of(few: &[u32], id: u32) -> Option<usize>
    ensures some { IfSome result (λ at. slice_get few.now at ≡ Some id) }
    ensures within { IfSome result (λ at. at < length few.now) }
    ensures none { IfNone result (has_id few.now id ≡ false) }
{
    for (i, other) in few.iter().enumerate() {
        if *other == id {
            return Some(i);
        }
    }
    None
}

// Takes an id out of a list, in which it stands once at most.
fn take_out(few: &mut Vec<u32>, id: u32)
    requires { AscendFrom 0 few.old.items }
    ensures ascending { AscendFrom 0 few.new.items }
    ensures ids { (n : ℕ) → has_id few.new.items n ≡ (not (n == id) && has_id few.old.items n) }
{
    let Some(at) = place_of(few.as_slice(), id) else {
        return;
    };
    few.remove(at);
}

// Whether a list has room for an id, which is greater than those in it.
fn has_room(few: &[u32], id: u32) -> bool
    ensures { result ≡ true → AscendFrom 0 few.now → AscendFrom 0 (few.now ++ id ∷ []) }
{
    match few.last() {
        Some(last) => *last < id && few.len() < MOST,
        None => true,
    }
}

// Takes an id out of a tree.
fn take_key(further: &mut BTreeSet<u32>, id: u32)
    ensures { (n : ℕ) → has_id further.new.keys n ≡ (not (n == id) && has_id further.old.keys n) }
{
    further.remove(&id);
}

// The first of the ids in a list.
fn first_id(few: &[u32]) -> Option<u32>
    ensures some { IfSome result (λ id. has_id few.now id ≡ true) }
    ensures none { IfNone result (few.now ≡ []) }
{
    match few {
        [first, ..] => Some(*first),
        [] => None,
    }
}

// The least of the ids in a tree.
fn first_key(further: &BTreeSet<u32>) -> Option<u32>
    ensures some { IfSome result (λ id. has_id further.now.keys id ≡ true) }
    ensures none { IfNone result (further.now.keys ≡ []) }
{
    further.first().copied()
}

// Adds the ids of a tree to a list.
fn add_keys(further: &BTreeSet<u32>, list: &mut IdList) -> Result<(), NoMemory>
    ensures { OnOk result ((n : ℕ) → has_id list.new n
        ≡ (has_id further.now.keys n || has_id list.old n)) }
{
    for id in further {
        list.add(*id)?;
    }
    Ok(())
}

impl IdSet {
    /// No ids.
    pub(crate) fn new(alloc: Global) -> IdSet
        ensures { result ≡ [] }
    {
        IdSet {
            few: Vec::new(alloc),
            further: BTreeSet::new(alloc),
        }
    }

    /// Adds an id. The error is `NoMemory`.
    pub(crate) fn add(&mut self, id: u32) -> Result<(), NoMemory>
        ensures ok { OnOk result ((n : ℕ) → has_id self.new n ≡ ((n == id) || has_id self.old n)) }
        ensures err { OnErr result (self.new ≡ self.old) }
    {
        let room = has_room(self.few.as_slice(), id);
        if room {
            push_id(&mut self.few, id)?;
            return Ok(());
        }
        insert_id(&mut self.further, id)?;
        Ok(())
    }

    /// Adds the ids to a list. The error is `NoMemory`.
    pub(crate) fn add_to(&self, list: &mut IdList) -> Result<(), NoMemory>
        ensures { OnOk result ((n : ℕ) → has_id list.new n
            ≡ (has_id self.now n || has_id list.old n)) }
    {
        list.add_all(self.few.as_slice())?;
        add_keys(&self.further, list)?;
        Ok(())
    }

    /// Takes an id away.
    pub(crate) fn remove(&mut self, id: u32)
        ensures { (n : ℕ) → has_id self.new n ≡ (not (n == id) && has_id self.old n) }
    {
        take_out(&mut self.few, id);
        take_key(&mut self.further, id);
    }

    /// One of the ids, where there is one.
    pub(crate) fn any(&self) -> Option<u32>
        ensures some { IfSome result (λ id. has_id self.now id ≡ true) }
        ensures none { IfNone result (self.now ≡ []) }
    {
        if let Some(id) = first_id(self.few.as_slice()) {
            return Some(id);
        }
        first_key(&self.further)
    }

    /// Whether there is no id.
    pub(crate) fn is_empty(&self) -> bool
        ensures { IsTrue result → self.now ≡ [] }
    {
        self.few.is_empty() && self.further.is_empty()
    }
}
