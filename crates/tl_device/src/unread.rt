//! Bytes in memory that are read in order, with the place up to which they were read.
ghost use Rattle.std.specs.Prelude.{◌≡◌, ℕ, ◌≤◌, ◌++◌, List, length, take, drop, min, vec_len};

use std::marker::Model;

// The bytes from `place` on are left.
#[derive(Drop)]
pub struct Unread {
    bytes: Vec<u8>,
    place: usize,
}

impl Model for Unread {
    ghost Value = { List ℕ };

    ghost view = { λ u. drop u.place u.bytes.items };

    ghost invariant = { λ u. u.place ≤ vec_len u.bytes };
}

impl Unread {
    /// All of these bytes, none of them read.
    pub fn new(bytes: Vec<u8>) -> Unread
        ensures { result ≡ bytes.items }
    {
        Unread { bytes, place: 0 }
    }

    /// Moves the next bytes into a prefix of `into`, and answers their number: as many as are left,
    /// as it has room for, and as `most` allows.
    pub fn read(&mut self, into: &mut [u8], most: usize) -> usize
        ensures number { result ≡ min (min (length self.old) (length into.old)) most }
        ensures moved { into.new ≡ take result self.old ++ drop result into.old }
        ensures rest { self.new ≡ drop result self.old }
    {
        let rest = &self.bytes[self.place..];
        let number = rest.len().min(into.len()).min(most);
        into[..number].copy_from_slice(&rest[..number]);
        self.place += number;
        number
    }
}
