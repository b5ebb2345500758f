//! A source in memory that never fails: each read takes as many bytes as are left and have room.
ghost use Rattle.std.specs.Prelude.{◌≡◌, ℕ, ◌<◌, ◌++◌, List, length, take, drop, min, Some, Ok, IfOk};

use crate::failed::Failed;
use crate::source::Source;
use crate::unread::Unread;
use std::marker::Model;

/// A source in memory that never fails. Contracts see the bytes left.
#[derive(Drop)]
pub struct SureSource {
    unread: Unread,
}

impl Model for SureSource {
    ghost Value = { List ℕ };

    ghost view = { λ s. s.unread };
}

impl SureSource {
    /// A source that has these bytes left.
    pub fn new(bytes: Vec<u8>) -> SureSource
        ensures { result ≡ bytes.items }
    {
        SureSource {
            unread: Unread::new(bytes),
        }
    }
}

impl Source for SureSource {
    ghost left = { λ s. Some s };

    ghost faults = { λ _. 0 };

    /// Moves as many bytes as are left and as `into` has room for. It never fails.
    fn read(&mut self, into: &mut [u8]) -> Result<usize, Failed>
        ensures number { result ≡ Ok (min (length self.old) (length into.old)) }
        ensures moved { IfOk result (λ n. into.new ≡ take n self.old ++ drop n into.old) }
        ensures rest { IfOk result (λ n. self.new ≡ drop n self.old) }
    {
        Ok(self.unread.read(into, usize::MAX))
    }

    fn faults(&self) -> u64 {
        0
    }
}
