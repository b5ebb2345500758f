//! Cutting off what stands past the closed gate, and syncing. No byte up to the gate changes.
ghost use Rattle.std.specs.Prelude.{◌≡◌, ◌≤◌, ◌<◌, ℕ, List, length, take, Some, IfSome, OnOk, OnErr};
ghost use Rattle.tl_device.specs.Known.{Rose};
ghost use Rattle.tl_device.specs.Disk.{IsStored, MayCut};
ghost use Rattle.tl_journal.specs.Moments.{EachMoment};

use tl_device::{Disk, Failed};

// Cuts the disk to so many bytes, and syncs.
fn cut_behind<D: Disk>(disk: &mut D, len: u64) -> Result<(), Failed>
    requires at { IfSome (D.reads disk.old) (λ b. len ≤ length b) }
    requires ready { D.ready disk.old 0 2 }
    ensures stored { (b : List ℕ) → IsStored D.reads D.may_leave disk.old b →
        OnOk result (IsStored D.reads D.may_leave disk.new (take len b)) }
    ensures any_moment { (b : List ℕ) → IsStored D.reads D.may_leave disk.old b →
        EachMoment D.moment D.left_since disk.old disk.new (MayCut len b) }
    ensures now { (b : List ℕ) → IsStored D.reads D.may_leave disk.old b →
        (c : List ℕ) → D.may_leave disk.new c → MayCut len b c }
    ensures reads { (b : List ℕ) → D.reads disk.old ≡ Some b →
        (c : List ℕ) × (D.reads disk.new ≡ Some c) × MayCut len b c }
    ensures back { IfSome (D.reads disk.new) (λ c. (b : List ℕ) × (D.reads disk.old ≡ Some b)) }
    ensures within { IfSome (D.reads disk.new) (λ c. len ≤ length c) }
    ensures sure { OnOk result (D.faults disk.new ≡ D.faults disk.old) }
    ensures rose { OnErr result (Rose (D.faults disk.old) (D.faults disk.new)) }
{
    disk.cut(len)?;
    disk.sync()
}

// Cuts off what stands behind the first bytes, so many, of the disk, which has `len`, if anything
// does.
pub(crate) fn trim<D: Disk>(disk: &mut D, keep: u64, len: u64) -> Result<(), Failed>
    requires at { IfSome (D.reads disk.old) (λ b. len ≤ length b) }
    requires ready { D.ready disk.old 0 2 }
    ensures stored { (b : List ℕ) → IsStored D.reads D.may_leave disk.old b →
        length b ≡ len → OnOk result (IsStored D.reads D.may_leave disk.new (take keep b)) }
    ensures any_moment { (b : List ℕ) → IsStored D.reads D.may_leave disk.old b →
        EachMoment D.moment D.left_since disk.old disk.new (MayCut keep b) }
    ensures now { (b : List ℕ) → IsStored D.reads D.may_leave disk.old b →
        (c : List ℕ) → D.may_leave disk.new c → MayCut keep b c }
    ensures reads { (b : List ℕ) → D.reads disk.old ≡ Some b →
        (c : List ℕ) × (D.reads disk.new ≡ Some c) × MayCut keep b c }
    ensures back { IfSome (D.reads disk.new) (λ c. (b : List ℕ) × (D.reads disk.old ≡ Some b)) }
    ensures within { keep ≤ len → IfSome (D.reads disk.new) (λ c. keep ≤ length c) }
    ensures sure { OnOk result (D.faults disk.new ≡ D.faults disk.old) }
    ensures rose { OnErr result (Rose (D.faults disk.old) (D.faults disk.new)) }
{
    if keep >= len {
        return Ok(());
    }
    cut_behind(disk, keep)?;
    Ok(())
}
