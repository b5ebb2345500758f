//! Multisets of whole numbers that tell their greatest. Equal numbers are kept as often as they
//! came; one that is not there cannot be taken out.
ghost use Rattle.std.specs.Prelude.{◌≡◌, ℤ, ◌+◌, ◌<◌, ◌≤◌, true, false, length, IfSome, IfNone, OnOk};
ghost use Rattle.tl_bits.specs.Bags.{times, AddsOne, IsGreatest};
ghost use Rattle.tl_running.specs.Heaps.{count_in, IsTop, JoinsHeap, AreBelow, SettleTo};

use crate::pile::Pile;
use std::alloc::Global;
use std::marker::Model;
use tl_types::NoMemory;

/// A multiset of whole numbers that tells its greatest: a pile of what came, one of what went of
/// it; a number that is the greatest of both is taken out of both, so the greatest of what came did
/// not go. A contract sees the list of its values, each with how often it is there.
#[derive(Drop)]
pub(crate) struct Heaps {
    came: Pile,
    gone: Pile,
}

impl Model for Heaps {
    ghost use Rattle.std.specs.Prelude.{ℕ, ℤ, List};
    ghost use Rattle.tl_running.specs.Heaps.{AreHeaps, left_of};

    ghost Value = { List (ℤ × ℕ) };

    ghost view = { λ h. left_of h.came.numbers h.gone.numbers };

    ghost invariant = { λ h. AreHeaps h.came h.gone };
}

// The greatest number of both piles, where that is one number.
fn common_top(came: &Pile, gone: &Pile) -> Option<i64>
    requires { AreBelow came.now.numbers gone.now.numbers }
    ensures came { IfSome result (IsTop came.now.numbers) }
    ensures gone { IfSome result (IsTop gone.now.numbers) }
    ensures none { IfNone result ((x : ℤ) → IsTop came.now.numbers x
        → count_in x gone.now.numbers ≡ 0) }
{
    let first = came.top()?;
    let second = gone.top()?;
    if first == second {
        return Some(first);
    }
    None
}

// Takes the greatest number out of a pile.
fn drop_top(pile: &mut Pile, top: i64)
    requires { IsTop pile.old.numbers top }
    ensures joins { JoinsHeap pile.new pile.old top }
    ensures room { pile.new.room ≡ pile.old.room }
{
    let _top = top; // says that it is of 64 bits
    let _ = pile.pop(); // the top, which is known
}

// Takes out of both piles what is the greatest of both.
fn settle(came: &mut Pile, gone: &mut Pile)
    requires { AreBelow came.old.numbers gone.old.numbers }
    ensures { SettleTo came.old gone.old came.new gone.new }
{
    'tops: while let Some(top) = common_top(came, gone) {
        drop_top(came, top);
        drop_top(gone, top);
    }
}

// Makes room for more numbers than so many. The error is `NoMemory`.
#[inline]
fn make_room(pile: &mut Pile, many: usize) -> Result<(), NoMemory>
    requires { many < 18446744073709551615 }
    ensures numbers { pile.new.numbers ≡ pile.old.numbers }
    ensures room { pile.old.room ≤ pile.new.room }
    ensures ok { OnOk result (many < pile.new.room) }
{
    if pile.room() > many {
        return Ok(());
    }
    pile.reserve(many + 1)
}

impl Heaps {
    /// The multiset of no number. It takes no memory.
    pub(crate) fn none(alloc: Global) -> Heaps
        ensures { (v : ℤ) → times result v ≡ 0 }
    {
        Heaps {
            came: Pile::none(alloc),
            gone: Pile::none(alloc),
        }
    }

    /// Puts a number in. The error is `NoMemory`.
    pub(crate) fn add(&mut self, number: i64) -> Result<(), NoMemory>
        ensures { OnOk result (AddsOne self.old self.new number) }
    {
        let many = self.came.len();
        make_room(&mut self.came, many)?;
        make_room(&mut self.gone, many)?;
        self.came.push(number);
        Ok(())
    }

    /// May put a number in, where there is room for it and it is far below the greatest; whether it
    /// is in.
    #[inline]
    pub(crate) fn add_far(&mut self, number: i64) -> bool
        ensures adds { result ≡ true → AddsOne self.old self.new number }
        ensures same { result ≡ false → self.new ≡ self.old }
    {
        let many = self.came.len();
        if many >= self.came.room() || many >= self.gone.room() {
            return false;
        }
        self.came.push_far(number)
    }

    /// May take a number out once, where it is far below the greatest; whether it is out.
    #[inline]
    pub(crate) fn remove_far(&mut self, number: i64) -> bool
        requires { 0 < times self.old number }
        ensures takes { result ≡ true → AddsOne self.new self.old number }
        ensures same { result ≡ false → self.new ≡ self.old }
    {
        self.gone.push_far(number)
    }

    /// Takes a number out once.
    pub(crate) fn remove(&mut self, number: i64)
        requires { 0 < times self.old number }
        ensures { AddsOne self.new self.old number }
    {
        self.gone.push(number);
        settle(&mut self.came, &mut self.gone);
    }

    /// The greatest number; `None` exactly where there is none.
    pub(crate) fn greatest(&self) -> Option<i64>
        ensures greatest { IfSome result (IsGreatest self.now) }
        ensures none { IfNone result ((v : ℤ) → times self.now v ≡ 0) }
    {
        self.came.top()
    }
}
