//! What is kept: a disk as its callers see it, by what a read gives and what a crash may leave now
//! or may have left. A call fails only where the count of faults rose in it.
ghost use Rattle.std.specs.Prelude.{◌≡◌, ℕ, ◌+◌, ◌^◌, ◌<◌, ◌≤◌, List, length, take, Some, IfOk, OnOk, OnErr, IfSome};
ghost use Rattle.std.specs.declared.option.Option.{Option};
ghost use Rattle.tl_device.specs.Known.{Rose};
ghost use Rattle.tl_device.specs.Disk.{Holds, Torn, Follows, Only, Elapses, MayCut, Fills};

use crate::failed::{Failed, NoMemory};

/// Bytes that outlive the program, such as a file. A disk has what a read gives, what a crash now
/// may leave, and what a crash at a moment since an earlier one may have left. Until a sync
/// answers Ok a crash may leave any bytes where a write wrote, and may undo a cut.
pub trait Disk {
    // What a read of the whole disk gives, or None where the disk does not tell.
    ghost reads: { Self → Option (List ℕ) };

    // The bytes that a crash now may leave.
    ghost may_leave: { Self → List ℕ → Type 0 };

    // The number of the moment, which never falls.
    ghost moment: { Self → ℕ };

    // The bytes that a crash at some moment from the given one on may have left.
    ghost left_since: { Self → ℕ → List ℕ → Type 0 };

    // The count of faults so far.
    ghost faults: { Self → ℕ };

    // The disk is ready to write so many bytes together, in so many calls.
    ghost ready: { Self → ℕ → ℕ → Type 0 };

    /// The number of bytes.
    /// `Failed` comes only where the count of faults rose in this call.
    fn len(&mut self) -> Result<u64, Failed>
        ensures len { IfOk result (λ n. IfSome (reads self.old) (λ bytes. n ≡ length bytes)) }
        ensures reads { reads self.new ≡ reads self.old }
        ensures crash { (c : List ℕ) → may_leave self.new c → may_leave self.old c }
        ensures back { (c : List ℕ) → may_leave self.old c → may_leave self.new c }
        ensures time { Elapses (moment self.old) (moment self.new)
            (left_since self.old) (left_since self.new) (may_leave self.new) }
        ensures ready { (b : ℕ) (n : ℕ) → ready self.old b n → ready self.new b n }
        ensures sure { OnOk result (faults self.new ≡ faults self.old) }
        ensures rose { OnErr result (Rose (faults self.old) (faults self.new)) };

    /// Fills `into` from byte `at` on, and answers how many bytes it filled: fewer than `into` has
    /// only where the disk ends.
    /// `Failed` comes only where the count of faults rose in this call; `into` may hold any bytes.
    fn read_at(&mut self, at: u64, into: &mut [u8]) -> Result<usize, Failed>
        ensures size { length into.new ≡ length into.old }
        ensures filled { IfOk result (λ n. (n ≤ length into.old) ×
            IfSome (reads self.old) (λ bytes. Fills at bytes into.old into.new n)) }
        ensures reads { reads self.new ≡ reads self.old }
        ensures crash { (c : List ℕ) → may_leave self.new c → may_leave self.old c }
        ensures back { (c : List ℕ) → may_leave self.old c → may_leave self.new c }
        ensures time { Elapses (moment self.old) (moment self.new)
            (left_since self.old) (left_since self.new) (may_leave self.new) }
        ensures ready { (b : ℕ) (n : ℕ) → ready self.old b n → ready self.new b n }
        ensures sure { OnOk result (faults self.new ≡ faults self.old) }
        ensures rose { OnErr result (Rose (faults self.old) (faults self.new)) };

    /// Writes `from` over the bytes from `at` on, which is not past the end, and further where it
    /// passes the end. It spends one call and the bytes of `from`, and takes no memory.
    /// `Failed` comes only where the count of faults rose in this call; the bytes in the range of
    /// the write are then any, and where it passes the end so is the length, from the end before
    /// up to the end of the range.
    fn write_at(&mut self, at: u64, from: &[u8]) -> Result<(), Failed>
        requires at { IfSome (reads self.old) (λ bytes. at ≤ length bytes) }
        requires ready { ready self.old (length from.now) 1 }
        ensures spends { (b : ℕ) (n : ℕ) →
            ready self.old (length from.now + b) (n + 1) → ready self.new b n }
        ensures end { OnOk result (at + length from.now < 2 ^ 64) }
        ensures written { OnOk result (IfSome (reads self.old) (λ bytes.
            IfSome (reads self.new) (Holds bytes at from.now))) }
        ensures torn { OnErr result (IfSome (reads self.old) (λ bytes.
            IfSome (reads self.new) (Torn at (length from.now) bytes))) }
        ensures back { IfSome (reads self.new) (λ c. (b : List ℕ) × (reads self.old ≡ Some b)) }
        ensures tells { (b : List ℕ) → reads self.old ≡ Some b →
            (c : List ℕ) × (reads self.new ≡ Some c) }
        ensures crash { Follows (Torn at (length from.now))
            (may_leave self.old) (may_leave self.new) }
        ensures time { Elapses (moment self.old) (moment self.new)
            (left_since self.old) (left_since self.new) (may_leave self.new) }
        ensures sure { OnOk result (faults self.new ≡ faults self.old) }
        ensures rose { OnErr result (Rose (faults self.old) (faults self.new)) };

    /// Cuts the disk to its first `len` bytes, where it is no shorter. It spends one call, and
    /// takes no memory.
    /// `Failed` comes only where the count of faults rose in this call; the cut may or may not have
    /// happened.
    fn cut(&mut self, len: u64) -> Result<(), Failed>
        requires at { IfSome (reads self.old) (λ bytes. len ≤ length bytes) }
        requires ready { ready self.old 0 1 }
        ensures spends { (b : ℕ) (n : ℕ) → ready self.old b (n + 1) → ready self.new b n }
        ensures cut { OnOk result (IfSome (reads self.old) (λ bytes.
            IfSome (reads self.new) (λ c. c ≡ take len bytes))) }
        ensures either { OnErr result (IfSome (reads self.old) (λ bytes.
            IfSome (reads self.new) (MayCut len bytes))) }
        ensures back { IfSome (reads self.new) (λ c. (b : List ℕ) × (reads self.old ≡ Some b)) }
        ensures tells { (b : List ℕ) → reads self.old ≡ Some b →
            (c : List ℕ) × (reads self.new ≡ Some c) }
        ensures crash { Follows (MayCut len) (may_leave self.old) (may_leave self.new) }
        ensures time { Elapses (moment self.old) (moment self.new)
            (left_since self.old) (left_since self.new) (may_leave self.new) }
        ensures sure { OnOk result (faults self.new ≡ faults self.old) }
        ensures rose { OnErr result (Rose (faults self.old) (faults self.new)) };

    /// Makes what was written outlive a crash: after an Ok a crash leaves what a read gives. It
    /// spends one call, and takes no memory.
    /// `Failed` comes only where the count of faults rose in this call, and nothing else changes.
    fn sync(&mut self) -> Result<(), Failed>
        requires ready { ready self.old 0 1 }
        ensures spends { (b : ℕ) (n : ℕ) → ready self.old b (n + 1) → ready self.new b n }
        ensures reads { reads self.new ≡ reads self.old }
        ensures durable { OnOk result (IfSome (reads self.old) (λ bytes.
            Only bytes (may_leave self.new))) }
        ensures crash { (c : List ℕ) → may_leave self.new c → may_leave self.old c }
        ensures back { OnErr result ((c : List ℕ) → may_leave self.old c → may_leave self.new c) }
        ensures time { Elapses (moment self.old) (moment self.new)
            (left_since self.old) (left_since self.new) (may_leave self.new) }
        ensures sure { OnOk result (faults self.new ≡ faults self.old) }
        ensures rose { OnErr result (Rose (faults self.old) (faults self.new)) };

    /// Makes the disk ready for `calls` further calls of `write_at`, `cut` and `sync` that write at
    /// most `bytes` bytes together. Neither the bytes nor what a crash may leave changes.
    /// `NoMemory`: memory ran out, and nothing has changed.
    fn room(&mut self, bytes: u64, calls: u32) -> Result<(), NoMemory>
        ensures made { OnOk result (ready self.new bytes calls) }
        ensures ready { (b : ℕ) (n : ℕ) → ready self.old b n → ready self.new b n }
        ensures reads { reads self.new ≡ reads self.old }
        ensures crash { (c : List ℕ) → may_leave self.new c → may_leave self.old c }
        ensures back { (c : List ℕ) → may_leave self.old c → may_leave self.new c }
        ensures time { Elapses (moment self.old) (moment self.new)
            (left_since self.old) (left_since self.new) (may_leave self.new) }
        ensures sure { faults self.new ≡ faults self.old };

    /// The count of faults so far. It never falls, and stays at the greatest u64 once it is there.
    fn faults(&self) -> u64
        ensures { result ≡ faults self.now };

    // A crash since this moment leaves only what a crash now may leave.
    ghost only_now: { (disk : Self) (c : List ℕ) →
        left_since disk (moment disk) c → may_leave disk c };

    // What a crash now may leave, one since an earlier moment may have left.
    ghost also_now: { (disk : Self) (t : ℕ) (c : List ℕ) →
        t ≤ moment disk → may_leave disk c → left_since disk t c };

    // A crash may leave the disk as it reads.
    ghost an_image: { (disk : Self) (c : List ℕ) → reads disk ≡ Some c → may_leave disk c };

    // A disk that is ready for more is ready for less.
    ghost fewer: { (disk : Self) (b : ℕ) (n : ℕ) (less : ℕ) (few : ℕ) →
        less ≤ b → few ≤ n → ready disk b n → ready disk less few };
}
