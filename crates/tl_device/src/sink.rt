//! Where bytes go: a sink as its callers see it, by what was written and the room that is left. It
//! writes no more than there is room for.
ghost use Rattle.std.specs.Prelude.{◌≡◌, ℕ, ◌<◌, ◌≤◌, List, length, take, IfOk, OnOk, OnErr};
ghost use Rattle.std.specs.declared.option.Option.{Option};
ghost use Rattle.tl_device.specs.Known.{append_known, spend_room, HasRoom, Rose};

use crate::failed::{Failed, NoMemory};

/// A place that bytes are appended to, such as standard output.
pub trait Sink {
    // The bytes written, or None where the sink does not tell.
    ghost written: { Self → Option (List ℕ) };

    // The room that is left, in bytes, or None where the sink is always ready.
    ghost spare: { Self → Option ℕ };

    // The count of faults so far.
    ghost faults: { Self → ℕ };

    /// Appends a prefix of `from`, and answers its length in bytes, which is above 0 unless `from`
    /// is empty. The room falls by that. It takes no memory: `from` is not longer than the room
    /// that is left. `Failed` appends nothing, and comes only where the count of faults rose in
    /// this call.
    fn write(&mut self, from: &[u8]) -> Result<usize, Failed>
        requires { HasRoom (spare self.old) (length from.now) }
        ensures bound { IfOk result (λ n. n ≤ length from.now) }
        ensures some { IfOk result (λ n. 0 < length from.now → 0 < n) }
        ensures appended { IfOk result (λ n. written self.new
            ≡ append_known (written self.old) (take n from.now)) }
        ensures spent { IfOk result (λ n. spare self.new ≡ spend_room (spare self.old) n) }
        ensures sure { OnOk result (faults self.new ≡ faults self.old) }
        ensures unwritten { OnErr result (written self.new ≡ written self.old) }
        ensures unspent { OnErr result (spare self.new ≡ spare self.old) }
        ensures rose { OnErr result (Rose (faults self.old) (faults self.new)) };

    /// Makes the sink ready to take `bytes` bytes more.
    /// `NoMemory`: memory ran out, and nothing has changed.
    fn room(&mut self, bytes: u64) -> Result<(), NoMemory>
        ensures ready { OnOk result (HasRoom (spare self.new) bytes) }
        ensures refused { OnErr result (spare self.new ≡ spare self.old) }
        ensures unwritten { written self.new ≡ written self.old }
        ensures sure { faults self.new ≡ faults self.old };

    /// The count of faults so far. It never falls, and stays at the greatest u64 once it is there.
    fn faults(&self) -> u64
        ensures { result ≡ faults self.now };
}
