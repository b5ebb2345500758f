//! The calls of the disk with which a group of commits is appended: its body behind the closed
//! gate, a sync, the gate opened, a sync. Where one fails, the later ones are left out.
ghost use Rattle.std.specs.Prelude.{◌≡◌, ◌+◌, ◌^◌, ◌<◌, ◌≤◌, ◌++◌, ◌∷◌, [], ℕ, List, length, IfSome, OnOk, OnErr};
ghost use Rattle.tl_types.specs.declared.commits.Commit.{Commit};
ghost use Rattle.tl_device.specs.Known.{Rose};
ghost use Rattle.tl_device.specs.Disk.{IsStored};
ghost use Rattle.tl_journal.specs.Image.{Ends, NoneOrAll, IsBodyOfAll};
ghost use Rattle.tl_journal.specs.Gates.{EndsGated};
ghost use Rattle.tl_journal.specs.Stands.{DiskStandsFor};
ghost use Rattle.tl_journal.specs.Moments.{EachMoment, TellsStill};

use tl_device::{Disk, Failed};

// Writes the body behind the closed gate, and syncs.
fn stage<D: Disk>(disk: &mut D, at: u64, body: &[u8]) -> Result<(), Failed>
    requires at { IfSome (D.reads disk.old) (λ b. at ≤ length b) }
    requires ready { D.ready disk.old (length body.now + 1) 4 }
    ensures ready { OnOk result (D.ready disk.new 1 2) }
    ensures end { OnOk result (at + length body.now < 2 ^ 64) }
    ensures stored { (front : List ℕ) →
        IsStored D.reads D.may_leave disk.old (front ++ 0 ∷ []) → at ≡ length front + 1 →
        OnOk result (IsStored D.reads D.may_leave disk.new (front ++ 0 ∷ body.now)) }
    ensures any_moment { (front : List ℕ) →
        IsStored D.reads D.may_leave disk.old (front ++ 0 ∷ []) → at ≡ length front + 1 →
        EachMoment D.moment D.left_since disk.old disk.new (Ends front) }
    ensures now { (front : List ℕ) →
        IsStored D.reads D.may_leave disk.old (front ++ 0 ∷ []) → at ≡ length front + 1 →
        (c : List ℕ) → D.may_leave disk.new c → Ends front c }
    ensures longer { OnOk result (IfSome (D.reads disk.new) (λ b.
        at + length body.now ≤ length b)) }
    ensures tells { TellsStill D.reads disk.old disk.new }
    ensures sure { OnOk result (D.faults disk.new ≡ D.faults disk.old) }
    ensures rose { OnErr result (Rose (D.faults disk.old) (D.faults disk.new)) }
{
    disk.write_at(at, body)?;
    disk.sync()
}

// Opens the gate before the body, and syncs.
fn open_gate<D: Disk>(disk: &mut D, at: u64) -> Result<(), Failed>
    requires at { IfSome (D.reads disk.old) (λ b. at ≤ length b) }
    requires ready { D.ready disk.old 1 2 }
    ensures longer { (n : ℕ) → IfSome (D.reads disk.old) (λ b. n ≤ length b) →
        OnOk result (IfSome (D.reads disk.new) (λ b. n ≤ length b)) }
    ensures stored { (front : List ℕ) (rest : List ℕ) →
        IsStored D.reads D.may_leave disk.old (front ++ 0 ∷ rest) → at ≡ length front →
        OnOk result (IsStored D.reads D.may_leave disk.new (front ++ 1 ∷ rest)) }
    ensures any_moment { (front : List ℕ) (r : List ℕ) →
        IsStored D.reads D.may_leave disk.old (front ++ 0 ∷ (r ++ 0 ∷ [])) →
        at ≡ length front →
        EachMoment D.moment D.left_since disk.old disk.new (EndsGated front r) }
    ensures now { (front : List ℕ) (r : List ℕ) →
        IsStored D.reads D.may_leave disk.old (front ++ 0 ∷ (r ++ 0 ∷ [])) →
        at ≡ length front → (c : List ℕ) → D.may_leave disk.new c → EndsGated front r c }
    ensures tells { TellsStill D.reads disk.old disk.new }
    ensures sure { OnOk result (D.faults disk.new ≡ D.faults disk.old) }
    ensures rose { OnErr result (Rose (D.faults disk.old) (D.faults disk.new)) }
{
    disk.write_at(at, &[1])?;
    disk.sync()?;
    Ok(())
}

// Appends the group of commits whose body this is.
pub(crate) fn put<D: Disk>(disk: &mut D, gate: u64, body: &[u8]) -> Result<(), Failed>
    requires gate { (gate + 1 < 2 ^ 64)
        × IfSome (D.reads disk.old) (λ b. gate + 1 ≤ length b) }
    requires ready { D.ready disk.old (length body.now + 1) 4 }
    ensures end { OnOk result (gate + 1 + length body.now < 2 ^ 64) }
    ensures longer { OnOk result (IfSome (D.reads disk.new) (λ b.
        gate + 1 + length body.now ≤ length b)) }
    ensures written { (front : List ℕ) →
        IsStored D.reads D.may_leave disk.old (front ++ 0 ∷ []) → gate ≡ length front →
        OnOk result (IsStored D.reads D.may_leave disk.new (front ++ 1 ∷ body.now)) }
    ensures stored { (cs group : List Commit) → IsBodyOfAll group body.now →
        DiskStandsFor D.reads D.may_leave disk.old cs gate →
        OnOk result (DiskStandsFor D.reads D.may_leave disk.new (cs ++ group)
        (gate + length body.now)) }
    ensures any_moment { (cs group : List Commit) → IsBodyOfAll group body.now →
        DiskStandsFor D.reads D.may_leave disk.old cs gate →
        EachMoment D.moment D.left_since disk.old disk.new (NoneOrAll cs group) }
    ensures now { (cs group : List Commit) → IsBodyOfAll group body.now →
        DiskStandsFor D.reads D.may_leave disk.old cs gate →
        (image : List ℕ) → D.may_leave disk.new image → NoneOrAll cs group image }
    ensures tells { TellsStill D.reads disk.old disk.new }
    ensures sure { OnOk result (D.faults disk.new ≡ D.faults disk.old) }
    ensures rose { OnErr result (Rose (D.faults disk.old) (D.faults disk.new)) }
{
    stage(disk, gate + 1, body)?;
    open_gate(disk, gate)?;
    Ok(())
}
