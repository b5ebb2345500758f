//! No id, one, or two, in eight bytes. A third one is not taken.
ghost use Rattle.std.specs.Prelude.{◌≡◌, ◌||◌, ◌&&◌, not, ◌==◌, ℕ, true, false, OnOk, IfSome, IfNone};
ghost use Rattle.tl_types.specs.History.{has_id};
ghost use Rattle.tl_batch.specs.KeyIndex.{is_of_two, stands_for_id};

use crate::id_list::IdList;
use tl_types::NoMemory;

// What stands in the place of an id where there is none.
const NONE: u32 = u32::MAX;

/// No id, one, or two: a row of a table without valid time, and the row that takes its place. The
/// greatest number of 32 bits stands for no id.
#[derive(Clone, Copy, Drop)]
pub(crate) struct TwoIds {
    one: u32,
    other: u32,
}

// The id, or none where it is the one that goes.
#[inline(always)]
fn unless(id: u32, gone: u32) -> u32
    ensures { (n : ℕ) → stands_for_id result n ≡ (not (n == gone) && stands_for_id id n) }
{
    if id == gone { NONE } else { id }
}

// Adds an id to a list, where it is one. The error is `NoMemory`.
#[inline(always)]
fn add_one(id: u32, ids: &mut IdList) -> Result<(), NoMemory>
    ensures { OnOk result ((n : ℕ) → has_id ids.new n
        ≡ (stands_for_id id n || has_id ids.old n)) }
{
    if id == NONE {
        return Ok(());
    }
    ids.add(id)?;
    Ok(())
}

impl TwoIds {
    /// No id.
    #[inline(always)]
    pub(crate) fn none() -> TwoIds
        ensures { (n : ℕ) → is_of_two result n ≡ false }
    {
        TwoIds {
            one: NONE,
            other: NONE,
        }
    }

    /// One of the ids, where there is one.
    #[inline(always)]
    pub(crate) fn any(self) -> Option<u32>
        ensures some { IfSome result (λ id. is_of_two self id ≡ true) }
        ensures none { IfNone result ((n : ℕ) → is_of_two self n ≡ false) }
    {
        if self.one != NONE {
            return Some(self.one);
        }
        if self.other != NONE {
            return Some(self.other);
        }
        None
    }

    /// The ids and one more, where there is room for it.
    #[inline(always)]
    pub(crate) fn with(self, id: u32) -> Option<TwoIds>
        ensures { IfSome result (λ ids. (n : ℕ) → is_of_two ids n
            ≡ ((n == id) || is_of_two self n)) }
    {
        if id == NONE {
            return None;
        }
        if self.one == NONE {
            return Some(TwoIds {
                one: id,
                other: self.other,
            });
        }
        if self.other == NONE {
            return Some(TwoIds {
                one: self.one,
                other: id,
            });
        }
        None
    }

    /// The ids but for one.
    #[inline(always)]
    pub(crate) fn without(self, gone: u32) -> TwoIds
        ensures { (n : ℕ) → is_of_two result n ≡ (not (n == gone) && is_of_two self n) }
    {
        let one = unless(self.one, gone);
        let other = unless(self.other, gone);
        TwoIds { one, other }
    }

    /// Adds the ids to a list. The error is `NoMemory`.
    #[inline(always)]
    pub(crate) fn add_to(self, ids: &mut IdList) -> Result<(), NoMemory>
        ensures { OnOk result ((n : ℕ) → has_id ids.new n
            ≡ (is_of_two self n || has_id ids.old n)) }
    {
        add_one(self.one, ids)?;
        add_one(self.other, ids)?;
        Ok(())
    }
}
