//! A source in memory with a list of the calls that are to fail. It keeps the bytes left; a call
//! that fails takes none.
ghost use Rattle.std.specs.Prelude.{◌≡◌, ◌↔◌, ◌-◌, ◌^◌, ◌<◌, ◌++◌, [], length, take, drop, min, Some, IfOk, OnErr, is_err};
ghost use Rattle.tl_device.specs.Known.{Rose};
ghost use Rattle.tl_device.specs.Calls.{next_fails, after_call};

use crate::calls::Calls;
use crate::failed::Failed;
use crate::source::Source;
use crate::unread::Unread;
use std::marker::Model;

/// A source in memory with a list of the numbers of the calls that are to fail. Contracts see the
/// bytes left, the most that one read gives, and the calls.
#[derive(Drop)]
pub struct MemorySource {
    unread: Unread,
    most: usize,
    calls: Calls,
}

impl Model for MemorySource {
    ghost use Rattle.std.specs.Prelude.{◌<◌};
    ghost use Rattle.tl_device.specs.Plain as plain;

    ghost Value = { plain.MemorySource };

    ghost view = { λ s. record { left = s.unread; most = s.most; calls = s.calls } };

    ghost invariant = { λ s. 0 < s.most };
}

impl MemorySource {
    /// A source that has these bytes left. `failing` holds the numbers of the calls that fail,
    /// counted from 1.
    pub fn new(bytes: Vec<u8>, failing: Vec<u64>) -> MemorySource
        ensures left { result.left ≡ bytes.items }
        ensures most { result.most ≡ 2 ^ 64 - 1 }
        ensures failing { result.calls.failing ≡ failing.items }
        ensures made { result.calls.made ≡ 0 }
        ensures faults { result.calls.faults ≡ 0 }
    {
        MemorySource::in_pieces(bytes, failing, usize::MAX)
    }

    /// A source that has these bytes left and gives at most `most` of them in one read. `failing`
    /// holds the numbers of the calls that fail, counted from 1.
    pub fn in_pieces(bytes: Vec<u8>, failing: Vec<u64>, most: usize) -> MemorySource
        requires { 0 < most }
        ensures left { result.left ≡ bytes.items }
        ensures most { result.most ≡ most }
        ensures failing { result.calls.failing ≡ failing.items }
        ensures made { result.calls.made ≡ 0 }
        ensures faults { result.calls.faults ≡ 0 }
    {
        MemorySource {
            unread: Unread::new(bytes),
            most,
            calls: Calls::new(failing),
        }
    }
}

impl Source for MemorySource {
    ghost left = { λ s. Some s.left };

    ghost faults = { λ s. s.calls.faults };

    /// Moves as many bytes as are left, as `into` has room for and as one read gives. It fails
    /// exactly where the number of this call is among those that are to fail.
    fn read(&mut self, into: &mut [u8]) -> Result<usize, Failed>
        ensures number { IfOk result (λ n. n ≡ min (min (length self.old.left)
            (length into.old)) self.old.most) }
        ensures end { IfOk result (λ n. 0 < length into.old → (n ≡ 0) ↔ (self.old.left ≡ [])) }
        ensures moved { IfOk result (λ n. into.new ≡ take n self.old.left ++ drop n into.old) }
        ensures rest { IfOk result (λ n. self.new.left ≡ drop n self.old.left) }
        ensures fails { is_err result ≡ next_fails self.old.calls }
        ensures untaken { OnErr result (self.new.left ≡ self.old.left) }
        ensures rose { OnErr result (Rose self.old.calls.faults self.new.calls.faults) }
        ensures most { self.new.most ≡ self.old.most }
        ensures calls { self.new.calls ≡ after_call self.old.calls }
    {
        if self.calls.next_fails() {
            return Err(Failed);
        }
        Ok(self.unread.read(into, self.most))
    }

    fn faults(&self) -> u64 {
        self.calls.faults()
    }
}
