//! Heaps of whole numbers. Each keeps that its first number is the greatest, and takes no memory
//! for a number for which room was made.
ghost use Rattle.std.specs.Prelude.{◌≡◌, ◌+◌, ◌<◌, ◌≤◌, length, IfSome, IfNone, OnSome, OnOk};
ghost use Rattle.tl_running.specs.Heaps.{IsTop, JoinsHeap, none_in};

use std::alloc::Global;
use std::collections::BinaryHeap;
use std::marker::Model;
use tl_types::NoMemory;

/// A heap of whole numbers. A contract sees them in some order, and how many there is room for.
#[derive(Drop)]
pub(crate) struct Heap {
    numbers: BinaryHeap<i64>,
}

impl Model for Heap {
    ghost use Rattle.std.specs.BinaryHeap.{IsHeap, heap_items, heap_capacity};
    ghost use Rattle.std.specs.Ordering.{int_cmp};
    ghost use Rattle.tl_running.specs.Heaps.{HeapOf};

    ghost Value = { HeapOf };

    ghost view = { λ h. record {
      numbers = heap_items h.numbers;
      room = heap_capacity h.numbers;
    } };

    ghost invariant = { λ h. IsHeap int_cmp (heap_items h.numbers) };
}

// The number that is lent.
fn number(number: &i64) -> i64
    ensures { result ≡ number.now }
{
    *number
}

impl Heap {
    /// The heap of no number. It takes no memory.
    pub(crate) fn none(alloc: Global) -> Heap
        ensures { length result.numbers ≡ 0 }
    {
        Heap {
            numbers: BinaryHeap::new(alloc),
        }
    }

    /// How many numbers there are.
    pub(crate) fn len(&self) -> usize
        ensures len { result ≡ length self.now.numbers }
        ensures few { result < 9223372036854775808 }
    {
        self.numbers.len()
    }

    /// How many numbers there is room for.
    pub(crate) fn room(&self) -> usize
        ensures { result ≡ self.now.room }
    {
        self.numbers.capacity()
    }

    /// The greatest number.
    pub(crate) fn top(&self) -> Option<i64>
        ensures some { IfSome result (IsTop self.now.numbers) }
        ensures none { IfNone result (none_in self.now.numbers) }
    {
        let top = self.numbers.peek()?;
        Some(number(top))
    }

    /// Makes room for so many numbers. The error is `NoMemory`.
    pub(crate) fn make_room(&mut self, room: usize) -> Result<(), NoMemory>
        ensures numbers { self.new.numbers ≡ self.old.numbers }
        ensures kept { self.old.room ≤ self.new.room }
        ensures ok { OnOk result (room ≤ self.new.room) }
    {
        let many = self.numbers.len();
        if room > many {
            self.numbers.reserve_exact(room - many)?;
        }
        Ok(())
    }

    /// Puts a number in, for which there is room.
    pub(crate) fn push(&mut self, number: i64)
        requires { length self.old.numbers < self.old.room }
        ensures joins { JoinsHeap self.old self.new number }
        ensures room { self.old.room ≤ self.new.room }
    {
        let Ok(()) = self.numbers.push(number) else {
            unreachable!()
        };
    }

    /// Takes the greatest number out.
    pub(crate) fn pop(&mut self) -> Option<i64>
        ensures top { IfSome result (IsTop self.old.numbers) }
        ensures some { IfSome result (JoinsHeap self.new self.old) }
        ensures none { IfNone result (none_in self.old.numbers) }
        ensures room { self.new.room ≡ self.old.room }
        ensures empty { IfNone result (length self.new.numbers ≡ 0) }
        ensures spare { OnSome result (length self.new.numbers < self.new.room) }
    {
        let top = self.numbers.pop()?;
        Some(top)
    }
}
