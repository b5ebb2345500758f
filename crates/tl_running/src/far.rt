//! Whole numbers in no order: a list with room that was taken before, of which any number is taken
//! out at once. It keeps no order, and tells nothing of the greatest.
ghost use Rattle.std.specs.Prelude.{◌≡◌, ℕ, ℤ, ◌<◌, ◌≤◌, max, Some, length, slice_get, OnOk};
ghost use Rattle.tl_running.specs.Heaps.{JoinsHeap, none_in};

use std::alloc::Global;
use std::marker::Model;
use tl_types::NoMemory;

/// Whole numbers in no order. A contract sees the list of them, and how many there is room for.
#[derive(Drop)]
pub(crate) struct Far {
    numbers: Vec<i64>,
}

impl Model for Far {
    ghost use Rattle.tl_running.specs.Heaps.{HeapOf};

    ghost Value = { HeapOf };

    ghost view = { λ f. record { numbers = f.numbers.items; room = f.numbers.cap } };
}

// The number at a place.
fn number_at(numbers: &[i64], place: usize) -> i64
    requires { place < length numbers.now }
    ensures { slice_get numbers.now place ≡ Some result }
{
    numbers[place]
}

impl Far {
    /// No number. It takes no memory.
    pub(crate) fn none(alloc: Global) -> Far
        ensures numbers { length result.numbers ≡ 0 }
        ensures room { result.room ≡ 0 }
    {
        Far {
            numbers: Vec::new(alloc),
        }
    }

    /// How many numbers there are.
    pub(crate) fn len(&self) -> usize
        ensures len { result ≡ length self.now.numbers }
        ensures few { result < 9223372036854775808 }
    {
        self.numbers.len()
    }

    /// How many numbers there is room for.
    pub(crate) fn room(&self) -> usize
        ensures { result ≡ self.now.room }
    {
        self.numbers.capacity()
    }

    /// The number at a place.
    pub(crate) fn at(&self, place: usize) -> i64
        requires { place < length self.now.numbers }
        ensures { slice_get self.now.numbers place ≡ Some result }
    {
        number_at(self.numbers.as_slice(), place)
    }

    /// Makes room for so many numbers, and not for more. The error is `NoMemory`.
    pub(crate) fn make_room(&mut self, room: usize) -> Result<(), NoMemory>
        ensures numbers { self.new.numbers ≡ self.old.numbers }
        ensures kept { self.old.room ≤ self.new.room }
        ensures ok { OnOk result (room ≤ self.new.room) }
        ensures most { self.new.room ≤ max self.old.room room }
    {
        let many = self.numbers.len();
        if room > many {
            self.numbers.reserve_exact(room - many)?;
        }
        Ok(())
    }

    /// Puts a number in, for which there is room.
    pub(crate) fn push(&mut self, number: i64)
        requires { length self.old.numbers < self.old.room }
        ensures joins { JoinsHeap self.old self.new number }
        ensures room { self.new.room ≡ self.old.room }
    {
        self.numbers.push_reserved(number);
    }

    /// Takes the number at a place out; those before it stay where they are.
    pub(crate) fn take(&mut self, place: usize) -> i64
        requires { place < length self.old.numbers }
        ensures joins { JoinsHeap self.new self.old result }
        ensures there { slice_get self.old.numbers place ≡ Some result }
        ensures before { (k : ℕ) → k < place
            → slice_get self.new.numbers k ≡ slice_get self.old.numbers k }
        ensures room { self.new.room ≡ self.old.room }
    {
        self.numbers.swap_remove(place)
    }
}
