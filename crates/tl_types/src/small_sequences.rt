//! A short list of items, which stand in the value itself while they are at most four. Contracts
//! see the list.
ghost use Rattle.std.specs.Prelude.{◌≡◌, List, [], ◌∷◌, ◌++◌, OnOk, OnErr, IfOk};
ghost use Rattle.std.specs.List.{AllZip};
ghost use Rattle.std.specs.Cmp.Lexicographic.{pointwise, lists_per, lists_equiv};
ghost use Rattle.std.specs.Cmp.{on_per, on_equiv};

use crate::NoMemory;
use smallvec::SmallVec;
use std::alloc::Global;
use std::marker::Model;

/// A list of items, of which up to 4 stand in the value itself; more take memory of their own. A
/// contract sees it as the list.
#[derive(Debug, Drop)]
pub struct SmallSeq<T> {
    items: SmallVec<T, 4>,
}

impl<T> Model for SmallSeq<T> {
    ghost use Rattle.std.specs.Prelude.{List};

    ghost Value = { List T };

    ghost view = { λ s. s.items.items };
}

impl<T> SmallSeq<T> {
    /// The items, lent.
    pub fn as_slice(&self) -> &[T]
        ensures { result.now ≡ self.now }
    {
        self.items.as_slice()
    }
}

impl<T: Default + Drop> SmallSeq<T> {
    /// The list without items. It takes no memory.
    #[inline]
    pub fn new(alloc: Global) -> SmallSeq<T>
        ensures { result ≡ [] }
    {
        SmallSeq {
            items: SmallVec::new(alloc),
        }
    }

    /// The list without items, with room for so many, which takes memory where that is more than 4.
    /// The error is `NoMemory`.
    pub fn with_capacity(alloc: Global, count: usize) -> Result<SmallSeq<T>, NoMemory>
        ensures { IfOk result (λ list. list ≡ []) }
    {
        Ok(SmallSeq {
            items: SmallVec::with_capacity(alloc, count)?,
        })
    }

    /// The items of a `Vec`. Where it has room for at most 4 they move into the value itself, else
    /// it is taken over.
    pub fn from_vec(items: Vec<T>) -> SmallSeq<T>
        ensures { result ≡ items.items }
    {
        SmallSeq {
            items: SmallVec::from_vec(items),
        }
    }

    /// Appends an item. The error is `NoMemory`, and then nothing changes.
    #[inline(always)]
    pub fn push(&mut self, item: T) -> Result<(), NoMemory>
        ensures ok { OnOk result (self.new ≡ self.old ++ item ∷ []) }
        ensures err { OnErr result (self.new ≡ self.old) }
    {
        self.items.push(item)?;
        Ok(())
    }
}

impl<T: Default + Clone> SmallSeq<T> {
    /// A copy of items. The error is `NoMemory`.
    pub fn from_slice(alloc: Global, items: &[T]) -> Result<SmallSeq<T>, NoMemory>
        ensures { IfOk result (λ copy. AllZip T.is_clone items.now copy) }
    {
        Ok(SmallSeq {
            items: SmallVec::from_clones(alloc, items)?,
        })
    }
}

impl<T: Default + Clone> Clone for SmallSeq<T> {
    ghost is_clone = { λ v w. AllZip T.is_clone v w };

    fn clone(&self) -> Result<Self, NoMemory> {
        Ok(SmallSeq {
            items: self.items.clone()?,
        })
    }
}

impl<T: PartialEq> PartialEq for SmallSeq<T> {
    ghost eq = { λ x y. pointwise T.eq x y };

    ghost laws = { on_per (λ (x : List T). x) (lists_per T.laws) };

    fn eq(&self, other: &SmallSeq<T>) -> bool {
        self.items == other.items
    }
}

impl<T: Eq> Eq for SmallSeq<T> {
    ghost laws = { on_equiv (λ (x : List T). x) (lists_equiv T.Eq.laws) };
}
