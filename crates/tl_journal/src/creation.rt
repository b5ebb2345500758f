//! Making the journal of no commit: a disk of more than 17 bytes is refused, and stays as it is; of
//! any other a crash leaves what it had, or at most 17 bytes.
ghost use Rattle.std.specs.Prelude.{◌≡◌, ◌≤◌, ◌<◌, ℕ, List, length, Some, IfSome, IfErr, OnOk, OnErr, Err};
ghost use Rattle.tl_device.specs.Known.{Rose};
ghost use Rattle.tl_device.specs.Disk.{IsStored};
ghost use Rattle.tl_journal.specs.Moments.{EachMoment, EachMomentBySync, IsUntouched, LosesNothing, IsAsBefore, TellsStill, IsShort, OldOr};
ghost use Rattle.tl_journal.specs.Stands.{empty_journal};
ghost use Rattle.tl_journal.specs.Answers.{CountsFaults, IsTooLong};
ghost use Rattle.tl_journal.specs.declared.faults.JournalFault.TheVariants as fault;

use crate::faults::JournalFault;
use crate::reading::{device_fault, length_of, settle};
use tl_device::{Disk, Failed};

/// What making a journal answers, with the disk that was handed in.
#[derive(Drop)]
pub struct InitRun<D> {
    /// Whether the journal was made.
    pub done: Result<(), JournalFault>,
    /// The disk that was handed in. It has the journal of no commit where that was made.
    pub disk: D,
}

// Cuts all away, writes the journal of no commit, and syncs.
fn write_empty<D: Disk>(disk: &mut D) -> Result<(), Failed>
    requires ready { D.ready disk.old 17 3 }
    ensures stored { (b : List ℕ) → IsStored D.reads D.may_leave disk.old b → length b ≤ 17 →
        OnOk result (IsStored D.reads D.may_leave disk.new empty_journal) }
    ensures any_moment { (b : List ℕ) → IsStored D.reads D.may_leave disk.old b →
        length b ≤ 17 → EachMoment D.moment D.left_since disk.old disk.new IsShort }
    ensures now { (b : List ℕ) → IsStored D.reads D.may_leave disk.old b → length b ≤ 17 →
        (c : List ℕ) → D.may_leave disk.new c → IsShort c }
    ensures tells { TellsStill D.reads disk.old disk.new }
    ensures sure { OnOk result (D.faults disk.new ≡ D.faults disk.old) }
    ensures rose { OnErr result (Rose (D.faults disk.old) (D.faults disk.new)) }
{
    disk.cut(0)?;
    disk.write_at(
        0,
        &[
            116, 105, 109, 101, 108, 105, 110, 101, 32, 106, 111, 117, 114, 110, 97, 108, 0,
        ],
    )?;
    disk.sync()
}

// Makes the journal of no commit on a disk of at most 17 bytes.
pub(crate) fn create<D: Disk>(disk: &mut D) -> Result<(), JournalFault>
    ensures stored { (b : List ℕ) → D.reads disk.old ≡ Some b →
        OnOk result (IsStored D.reads D.may_leave disk.new empty_journal) }
    ensures short { (b : List ℕ) → D.reads disk.old ≡ Some b → OnOk result (length b ≤ 17) }
    ensures too_long { (len : ℕ) → result ≡ Err (fault.AlreadyInitialised len) →
        (17 < len) × IfSome (D.reads disk.old) (IsTooLong len) }
    ensures kept { (len : ℕ) → result ≡ Err (fault.AlreadyInitialised len) →
        IsUntouched D.reads D.may_leave disk.old disk.new }
    ensures no_memory { result ≡ Err fault.NoMemory →
        IsAsBefore D.reads D.may_leave disk.old disk.new }
    ensures tells { TellsStill D.reads disk.old disk.new }
    ensures no_less { (len : ℕ) → result ≡ Err (fault.AlreadyInitialised len) →
        LosesNothing D.reads D.may_leave disk.old disk.new }
    ensures not_short { (len : ℕ) → result ≡ Err (fault.NotInitialised len) → ⊥ }
    ensures not_damaged { (at : ℕ) → result ≡ Err (fault.Damaged at) → ⊥ }
    ensures any_moment { (b : List ℕ) → D.reads disk.old ≡ Some b →
        EachMomentBySync D.reads D.may_leave D.moment D.left_since disk.old disk.new IsShort }
    ensures now { (b : List ℕ) → D.reads disk.old ≡ Some b →
        (c : List ℕ) → D.may_leave disk.new c → OldOr (D.may_leave disk.old) IsShort c }
    ensures sure { OnOk result (D.faults disk.new ≡ D.faults disk.old) }
    ensures faults { IfErr result (λ e. CountsFaults e (D.faults disk.old) (D.faults disk.new)) }
{
    let len = length_of(disk)?;
    if len > 17 {
        return Err(JournalFault::AlreadyInitialised { len });
    }
    settle(disk, 17, 3)?;
    let Ok(()) = write_empty(disk) else {
        return Err(device_fault(disk));
    };
    Ok(())
}
