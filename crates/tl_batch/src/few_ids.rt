//! One id, or two, without memory of their own. A third one is not taken.
ghost use Rattle.std.specs.Prelude.{◌≡◌, ◌||◌, ◌&&◌, not, ◌==◌, ℕ, true, OnOk, IfSome};
ghost use Rattle.tl_types.specs.History.{has_id};
ghost use Rattle.tl_batch.specs.KeyIndex.{is_among_few, is_of};

use crate::id_list::IdList;
use tl_types::NoMemory;

/// One id, or two. A row of a table without valid time and the row that takes its place stand
/// beside each other while a commit is followed: so many ids take no memory of their own. One id
/// stands as the first and as the last.
#[derive(Clone, Copy, Drop)]
pub(crate) struct FewIds {
    first: u32,
    last: u32,
}

// The id, unless it is this one.
fn unless(id: u32, gone: u32) -> Option<FewIds>
    ensures { (n : ℕ) → is_among_few result n ≡ (not (n == gone) && (n == id)) }
{
    if id == gone {
        None
    } else {
        Some(FewIds::one(id))
    }
}

impl FewIds {
    /// One id.
    #[inline(always)]
    pub(crate) fn one(id: u32) -> FewIds
        ensures { (n : ℕ) → is_of result n ≡ (n == id) }
    {
        FewIds {
            first: id,
            last: id,
        }
    }

    /// One of the ids.
    #[inline(always)]
    pub(crate) fn any(&self) -> u32
        ensures { is_of self.now result ≡ true }
    {
        self.first
    }

    /// The ids and one more, where there is room for it.
    #[inline(always)]
    pub(crate) fn with(self, id: u32) -> Option<FewIds>
        ensures { IfSome result (λ ids. (n : ℕ) → is_of ids n ≡ ((n == id) || is_of self n)) }
    {
        if self.first == self.last {
            Some(FewIds {
                first: self.first,
                last: id,
            })
        } else {
            None
        }
    }

    /// The ids but for one, where there are any.
    #[inline(always)]
    pub(crate) fn without(self, gone: u32) -> Option<FewIds>
        ensures { (n : ℕ) → is_among_few result n ≡ (not (n == gone) && is_of self n) }
    {
        if self.first == gone {
            return unless(self.last, gone);
        }
        if self.last == gone {
            return Some(FewIds::one(self.first));
        }
        Some(self)
    }

    /// Adds the ids to a list. The error is `NoMemory`.
    #[inline(always)]
    pub(crate) fn add_to(&self, ids: &mut IdList) -> Result<(), NoMemory>
        ensures { OnOk result ((n : ℕ) → has_id ids.new n
            ≡ (is_of self.now n || has_id ids.old n)) }
    {
        ids.add(self.first)?;
        if self.last != self.first {
            ids.add(self.last)?;
        }
        Ok(())
    }
}
