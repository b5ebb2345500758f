//! How the opening of a journal begins: the bytes are read and synced before they are judged. Bytes
//! that begin no journal are refused.
ghost use Rattle.std.specs.Prelude.{◌≡◌, ◌<◌, ℕ, List, Some, Err, IfSome, IfOk, IfErr, OnOk};
ghost use Rattle.tl_device.specs.Disk.{IsStored};
ghost use Rattle.tl_journal.specs.Image.{BeginsAsJournal, HasAnotherName};
ghost use Rattle.tl_journal.specs.Moments.{EachMoment, IsUntouched, LosesNothing, IsAsBefore, IsDurable};
ghost use Rattle.tl_journal.specs.Answers.{CountsFaults, IsTooShort, IsNoJournal};
ghost use Rattle.tl_journal.specs.declared.faults.JournalFault.TheVariants as fault;

use crate::faults::JournalFault;
use crate::reading::{length_of, make_ready, read_settled};
use crate::records::has_header;
use std::alloc::Global;
use tl_device::Disk;

/// A disk that was not opened as a journal, and why.
#[derive(Drop)]
pub struct Refused<D> {
    /// Why it was not opened.
    pub fault: JournalFault,
    /// The disk that was to be opened, handed back.
    pub disk: D,
}

// Whether the bytes begin as a journal: there are at least 17, and the first 16 are its name.
fn check_begin(bytes: &[u8]) -> Result<(), JournalFault>
    ensures begins { OnOk result (BeginsAsJournal bytes.now) }
    ensures kinds { IfErr result (IsNoJournal bytes.now) }
{
    if bytes.len() < 17 {
        return Err(JournalFault::NotInitialised {
            len: bytes.len() as u64,
        });
    }
    if !has_header(bytes) {
        return Err(JournalFault::Damaged { at: 0 });
    }
    Ok(())
}

// The bytes of the disk, which begin as a journal. What a read gives is then just what a crash
// leaves, and the room is taken for a cut and a sync.
pub(crate) fn image_of<D: Disk>(alloc: Global, disk: &mut D) -> Result<Vec<u8>, JournalFault>
    ensures image { (b : List ℕ) → D.reads disk.old ≡ Some b → IfOk result (λ v. v.items ≡ b) }
    ensures told { IfOk result (λ v. IfSome (D.reads disk.new) (λ b. v.items ≡ b)) }
    ensures begins { IfOk result (λ v. BeginsAsJournal v.items) }
    ensures stored { (b : List ℕ) → D.reads disk.old ≡ Some b →
        OnOk result (IsStored D.reads D.may_leave disk.new b) }
    ensures ready { OnOk result (D.ready disk.new 0 2) }
    ensures untouched { IsUntouched D.reads D.may_leave disk.old disk.new }
    ensures any_moment { EachMoment D.moment D.left_since disk.old disk.new
        (D.may_leave disk.old) }
    ensures sure { OnOk result (D.faults disk.new ≡ D.faults disk.old) }
    ensures faults { IfErr result (λ e. CountsFaults e (D.faults disk.old) (D.faults disk.new)) }
    ensures too_short { (len : ℕ) → result ≡ Err (fault.NotInitialised len) →
        (len < 17) × IfSome (D.reads disk.old) (IsTooShort len) }
    ensures no_less { (len : ℕ) → result ≡ Err (fault.NotInitialised len) →
        LosesNothing D.reads D.may_leave disk.old disk.new }
    ensures damaged { (at : ℕ) → result ≡ Err (fault.Damaged at) →
        (at ≡ 0) × IfSome (D.reads disk.old) HasAnotherName }
    ensures durable { (at : ℕ) → result ≡ Err (fault.Damaged at) →
        IsDurable D.reads D.may_leave disk.old disk.new }
    ensures no_memory { result ≡ Err fault.NoMemory →
        IsAsBefore D.reads D.may_leave disk.old disk.new }
    ensures not_long { (len : ℕ) → result ≡ Err (fault.AlreadyInitialised len) → ⊥ }
{
    let len = length_of(disk)?;
    if len < 17 {
        return Err(JournalFault::NotInitialised { len });
    }
    let buffer = make_ready(alloc, disk, len, 3)?;
    let bytes = read_settled(disk, buffer)?;
    check_begin(&bytes)?;
    Ok(bytes)
}
