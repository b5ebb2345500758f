//! The calls with which a journal is opened that change nothing of the disk: its length, its bytes,
//! a sync, room. Each failure is told by the disk's count of faults.
ghost use Rattle.std.specs.Prelude.{◌≡◌, ◌+◌, ◌≤◌, ◌<◌, ◌^◌, ℕ, List, length, Some, Err, IfSome, IfOk, OnOk, IfErr};
ghost use Rattle.tl_journal.specs.Moments.{EachMoment, IsUntouched, LosesNothing, IsAsBefore, IsDurable};
ghost use Rattle.tl_journal.specs.Answers.{CountsFaults, IsDevice, IsDeviceOrMemory};
ghost use Rattle.tl_journal.specs.declared.faults.JournalFault.TheVariants as fault;

use crate::faults::JournalFault;
use std::alloc::Global;
use tl_device::Disk;
use tl_types::NoMemory;

// The fault of a call of the disk that has just failed.
pub(crate) fn device_fault<D: Disk>(disk: &D) -> JournalFault
    ensures { result ≡ fault.Device (D.faults disk.now) }
{
    JournalFault::Device {
        faults: disk.faults(),
    }
}

// The number of bytes that the disk has.
pub(crate) fn length_of<D: Disk>(disk: &mut D) -> Result<u64, JournalFault>
    ensures len { (b : List ℕ) → D.reads disk.old ≡ Some b → IfOk result (λ n. length b ≡ n) }
    ensures at { IfOk result (λ n. IfSome (D.reads disk.new) (λ b. n ≤ length b)) }
    ensures untouched { IsUntouched D.reads D.may_leave disk.old disk.new }
    ensures no_less { LosesNothing D.reads D.may_leave disk.old disk.new }
    ensures any_moment { EachMoment D.moment D.left_since disk.old disk.new
        (D.may_leave disk.old) }
    ensures sure { OnOk result (D.faults disk.new ≡ D.faults disk.old) }
    ensures faults { IfErr result (λ e. CountsFaults e (D.faults disk.old) (D.faults disk.new)) }
    ensures kinds { IfErr result IsDevice }
{
    let Ok(len) = disk.len() else {
        return Err(device_fault(disk));
    };
    Ok(len)
}

// Takes room for so many calls that write so many bytes. Nothing else changes.
pub(crate) fn take_room<D: Disk>(disk: &mut D, bytes: u64, calls: u32) -> Result<(), JournalFault>
    ensures ready { OnOk result (D.ready disk.new bytes calls) }
    ensures as_before { IsAsBefore D.reads D.may_leave disk.old disk.new }
    ensures any_moment { EachMoment D.moment D.left_since disk.old disk.new
        (D.may_leave disk.old) }
    ensures sure { D.faults disk.new ≡ D.faults disk.old }
    ensures kinds { IfErr result (λ e. e ≡ fault.NoMemory) }
{
    if disk.room(bytes, calls).is_err() {
        return Err(JournalFault::NoMemory);
    }
    Ok(())
}

// Syncs. What a read gives is then just what a crash leaves.
pub(crate) fn sync_all<D: Disk>(disk: &mut D) -> Result<(), JournalFault>
    requires { D.ready disk.old 0 1 }
    ensures stored { OnOk result (IsDurable D.reads D.may_leave disk.old disk.new) }
    ensures spends { (b : ℕ) (n : ℕ) → D.ready disk.old b (n + 1) → D.ready disk.new b n }
    ensures untouched { IsUntouched D.reads D.may_leave disk.old disk.new }
    ensures any_moment { EachMoment D.moment D.left_since disk.old disk.new
        (D.may_leave disk.old) }
    ensures sure { OnOk result (D.faults disk.new ≡ D.faults disk.old) }
    ensures faults { IfErr result (λ e. CountsFaults e (D.faults disk.old) (D.faults disk.new)) }
    ensures kinds { IfErr result IsDevice }
{
    if disk.sync().is_err() {
        return Err(device_fault(disk));
    }
    Ok(())
}

// Takes room for so many calls that write so many bytes, and for one sync, and syncs. What a read
// gives is then just what a crash leaves.
pub(crate) fn settle<D: Disk>(disk: &mut D, bytes: u64, calls: u32) -> Result<(), JournalFault>
    requires { calls + 1 < 2 ^ 32 }
    ensures stored { OnOk result (IsDurable D.reads D.may_leave disk.old disk.new) }
    ensures ready { OnOk result (D.ready disk.new bytes calls) }
    ensures untouched { IsUntouched D.reads D.may_leave disk.old disk.new }
    ensures no_memory { result ≡ Err fault.NoMemory →
        IsAsBefore D.reads D.may_leave disk.old disk.new }
    ensures any_moment { EachMoment D.moment D.left_since disk.old disk.new
        (D.may_leave disk.old) }
    ensures sure { OnOk result (D.faults disk.new ≡ D.faults disk.old) }
    ensures faults { IfErr result (λ e. CountsFaults e (D.faults disk.old) (D.faults disk.new)) }
    ensures kinds { IfErr result IsDeviceOrMemory }
{
    take_room(disk, bytes, calls + 1)?;
    sync_all(disk)?;
    Ok(())
}

// How many bytes are cleared at a time: few enough that the compiler's stores of vectors do it.
const PIECE: usize = 1024;

// So many bytes, cleared piece by piece.
fn cleared(alloc: Global, len: usize) -> Result<Vec<u8>, NoMemory>
    ensures { IfOk result (λ v. length v.items ≡ len) }
{
    let mut bytes = Vec::with_capacity(alloc, len)?;
    let mut left = len;
    while left > 0 {
        let piece = left.min(PIECE);
        bytes.resize(bytes.len() + piece, 0)?;
        left -= piece;
    }
    Ok(bytes)
}

// So many bytes, to be read into.
fn buffer(alloc: Global, len: u64) -> Result<Vec<u8>, JournalFault>
    ensures len { IfOk result (λ v. length v.items ≡ len) }
    ensures kinds { IfErr result (λ e. e ≡ fault.NoMemory) }
{
    let Ok(bytes) = cleared(alloc, len as usize) else {
        return Err(JournalFault::NoMemory);
    };
    Ok(bytes)
}

// Takes the disk's room for so many syncs and cuts, and the memory for so many bytes of it. Nothing
// else changes.
pub(crate) fn make_ready<D: Disk>(
    alloc: Global,
    disk: &mut D,
    len: u64,
    calls: u32,
) -> Result<Vec<u8>, JournalFault>
    ensures len { IfOk result (λ v. length v.items ≡ len) }
    ensures ready { OnOk result (D.ready disk.new 0 calls) }
    ensures as_before { IsAsBefore D.reads D.may_leave disk.old disk.new }
    ensures any_moment { EachMoment D.moment D.left_since disk.old disk.new
        (D.may_leave disk.old) }
    ensures sure { D.faults disk.new ≡ D.faults disk.old }
    ensures kinds { IfErr result (λ e. e ≡ fault.NoMemory) }
{
    take_room(disk, 0, calls)?;
    buffer(alloc, len)
}

// Reads all that the disk has, where these bytes are as many.
pub(crate) fn read_into<D: Disk>(disk: &mut D, bytes: Vec<u8>) -> Result<Vec<u8>, JournalFault>
    ensures bytes { (b : List ℕ) → D.reads disk.old ≡ Some b → length b ≡ length bytes.items →
        IfOk result (λ v. v.items ≡ b) }
    ensures as_before { IsAsBefore D.reads D.may_leave disk.old disk.new }
    ensures any_moment { EachMoment D.moment D.left_since disk.old disk.new
        (D.may_leave disk.old) }
    ensures ready { (b : ℕ) (n : ℕ) → D.ready disk.old b n → D.ready disk.new b n }
    ensures sure { OnOk result (D.faults disk.new ≡ D.faults disk.old) }
    ensures faults { IfErr result (λ e. CountsFaults e (D.faults disk.old) (D.faults disk.new)) }
    ensures kinds { IfErr result IsDevice }
{
    let mut bytes = bytes;
    let Ok(n) = disk.read_at(0, bytes.as_mut_slice()) else {
        return Err(device_fault(disk));
    };
    bytes.truncate(n);
    Ok(bytes)
}

// Syncs, and reads all that the disk has, where these bytes are as many. What a read gives is then
// just what a crash leaves.
pub(crate) fn read_settled<D: Disk>(disk: &mut D, bytes: Vec<u8>) -> Result<Vec<u8>, JournalFault>
    requires { D.ready disk.old 0 3 }
    ensures bytes { (b : List ℕ) → D.reads disk.old ≡ Some b → length b ≡ length bytes.items →
        IfOk result (λ v. v.items ≡ b) }
    ensures stored { OnOk result (IsDurable D.reads D.may_leave disk.old disk.new) }
    ensures ready { OnOk result (D.ready disk.new 0 2) }
    ensures untouched { IsUntouched D.reads D.may_leave disk.old disk.new }
    ensures any_moment { EachMoment D.moment D.left_since disk.old disk.new
        (D.may_leave disk.old) }
    ensures sure { OnOk result (D.faults disk.new ≡ D.faults disk.old) }
    ensures faults { IfErr result (λ e. CountsFaults e (D.faults disk.old) (D.faults disk.new)) }
    ensures kinds { IfErr result IsDevice }
{
    sync_all(disk)?;
    read_into(disk, bytes)
}
