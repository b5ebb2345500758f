//! Where bytes come from: a source as its callers see it, by the bytes left. 0 bytes are the end
//! of input, and a failed call takes none.
ghost use Rattle.std.specs.Prelude.{◌≡◌, ◌↔◌, ℕ, ◌<◌, ◌≤◌, List, [], length, take, IfOk, OnOk, OnErr, IfSome};
ghost use Rattle.std.specs.declared.option.Option.{Option};
ghost use Rattle.tl_device.specs.Known.{prepend_known, Rose};

use crate::failed::Failed;

/// Bytes that are read in order to the end of input, such as standard input.
pub trait Source {
    // The bytes left, or None where the source does not tell.
    ghost left: { Self → Option (List ℕ) };

    // The count of faults so far.
    ghost faults: { Self → ℕ };

    /// Moves the next bytes into a prefix of `into`, and answers their number, at most its length.
    /// Where `into` is not empty, 0 is the end of input. What lies in `into` past that number may
    /// be anything. `Failed` takes no byte, and comes only where the count of faults rose in this
    /// call.
    fn read(&mut self, into: &mut [u8]) -> Result<usize, Failed>
        ensures bound { IfOk result (λ n. n ≤ length into.old) }
        ensures taken { IfOk result (λ n. left self.old
            ≡ prepend_known (take n into.new) (left self.new)) }

        // 0 comes exactly where none is left.
        ensures end { IfOk result (λ n. 0 < length into.old
            → IfSome (left self.old) (λ bytes. (n ≡ 0) ↔ (bytes ≡ []))) }
        ensures sure { OnOk result (faults self.new ≡ faults self.old) }
        ensures untaken { OnErr result (left self.new ≡ left self.old) }
        ensures rose { OnErr result (Rose (faults self.old) (faults self.new)) };

    /// The count of faults so far. It never falls, and stays at the greatest u64 once it is there.
    fn faults(&self) -> u64
        ensures { result ≡ faults self.now };
}
