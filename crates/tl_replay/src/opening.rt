//! The opening of a journal over what applies its commits: the journal is read, its commits are
//! applied, and what stands past its closed gate is cut off. A journal that is damaged, or a commit
//! that does not fit, is refused with the disk.
ghost use Rattle.std.specs.Prelude.{◌≡◌, ◌<◌, [], ℕ, List, Some, None, IfSome, IfOk, IfErr};
ghost use Rattle.tl_types.specs.declared.commits.Commit.{Commit as CommitValue};
ghost use Rattle.tl_device.specs.Disk.{IsStored};
ghost use Rattle.tl_journal.specs.Answers.{CountsFaults, IsDevice, IsTooShort};
ghost use Rattle.tl_journal.specs.Image.{ImageStandsFor};
ghost use Rattle.tl_journal.specs.Moments.{EachMoment, IsUntouched, LosesNothing, IsDurable, IsAsBeforeOrDurable};
ghost use Rattle.tl_journal.specs.Opening.{HasRead, IsAtClosedGate};
ghost use Rattle.tl_journal.specs.Stands.{JournalStandsFor, SameOrTrimmed};
ghost use Rattle.tl_journal.specs.declared.faults.JournalFault.TheVariants as journal_fault;
ghost use Rattle.tl_replay.specs.Applying.{AppliesAll};
ghost use Rattle.tl_replay.specs.Fitting.{IsDamaged};
ghost use Rattle.tl_replay.specs.Opening.{disk_begun, disk_opened, HasImage, Opens};

use crate::applying::Applies;
use crate::replaying::apply_all;
use std::alloc::Global;
use tl_device::Disk;
use tl_journal::{FoundCommits, Journal, Refused};
use tl_types::Limits;

/// A journal that was opened, and what was made of its commits.
#[derive(Drop)]
pub struct Opened<D: Disk, A> {
    /// The journal, which is not broken and has no room for an append yet.
    pub journal: Journal<D>,
    /// What was made of its commits.
    pub applied: A,
}

/// A journal all of whose commits were read, and what was made of them.
#[derive(Drop)]
pub(crate) struct Begun<D: Disk, A> {
    /// The journal while it is opened.
    pub found_commits: FoundCommits<D>,
    /// What was made of its commits.
    pub applied: A,
}

// Reads the journal on a disk and applies its commits. The refusals are those of `open_journal`,
// but for those of the cut. The disk stays as it is.
fn begin<D: Disk, A: Applies>(
    alloc: Global,
    disk: D,
    first: A,
    limits: &Limits,
) -> Result<Begun<D, A>, Refused<D>>
    requires limits { A.can_apply limits.now }
    requires first { A.makes first [] first }
    ensures applied { IfOk result (λ o.
        AppliesAll A.makes limits.now first o.found_commits o.applied) }
    ensures image { (b : List ℕ) → D.reads disk ≡ Some b →
        IfOk result (λ o. HasImage D.reads D.may_leave b o.found_commits) }
    ensures untouched { IsUntouched D.reads D.may_leave disk (disk_begun result) }
    ensures any_moment { EachMoment D.moment D.left_since disk (disk_begun result)
        (D.may_leave disk) }
    ensures sure { IfOk result (λ o. D.faults o.found_commits.disk ≡ D.faults disk) }
    ensures faults { IfErr result (λ r.
        CountsFaults r.fault (D.faults disk) (D.faults r.disk)) }
    ensures too_short { (len : ℕ) → IfErr result (λ r.
        r.fault ≡ journal_fault.NotInitialised len →
        (len < 17) × IfSome (D.reads disk) (IsTooShort len)) }
    ensures no_less { (len : ℕ) → IfErr result (λ r.
        r.fault ≡ journal_fault.NotInitialised len →
        LosesNothing D.reads D.may_leave disk r.disk) }
    ensures damaged { (at : ℕ) → IfErr result (λ r. r.fault ≡ journal_fault.Damaged at →
        IfSome (D.reads disk) (IsDamaged limits.now at)) }
    ensures durable { (at : ℕ) → IfErr result (λ r. r.fault ≡ journal_fault.Damaged at →
        IsDurable D.reads D.may_leave disk r.disk) }
    ensures no_memory { IfErr result (λ r. r.fault ≡ journal_fault.NoMemory →
        IsAsBeforeOrDurable D.reads D.may_leave disk r.disk) }
    ensures not_long { (len : ℕ) → IfErr result (λ r.
        r.fault ≡ journal_fault.AlreadyInitialised len → ⊥) }
{
    let mut found_commits = match Journal::open(alloc, disk) {
        Ok(found_commits) => found_commits,
        Err(refused) => return Err(refused),
    };
    match apply_all(alloc, &mut found_commits, first, limits) {
        Ok(applied) => Ok(Begun {
            found_commits,
            applied,
        }),
        Err(fault) => Err(Refused {
            fault,
            disk: found_commits.into_disk(),
        }),
    }
}

// The journal once all its commits were applied: what stands past the closed gate is cut off the
// disk.
fn finish<D: Disk, A: Drop>(begun: Begun<D, A>) -> Result<Opened<D, A>, Refused<D>>
    requires { IsAtClosedGate begun.found_commits }
    ensures applied { IfOk result (λ o. o.applied ≡ begun.applied) }
    ensures whole { IfOk result (λ o. o.journal.broken ≡ None) }
    ensures stands { (commits : List CommitValue) → HasRead commits begun.found_commits →
        IsStored D.reads D.may_leave begun.found_commits.disk begun.found_commits.image →
        IfOk result (λ o. JournalStandsFor D.reads D.may_leave o.journal commits) }
    ensures any_moment { (commits : List CommitValue) → HasRead commits begun.found_commits →
        IsStored D.reads D.may_leave begun.found_commits.disk begun.found_commits.image →
        EachMoment D.moment D.left_since begun.found_commits.disk (disk_opened result)
        (ImageStandsFor commits) }
    ensures now { (commits : List CommitValue) → HasRead commits begun.found_commits →
        IsStored D.reads D.may_leave begun.found_commits.disk begun.found_commits.image →
        (c : List ℕ) → D.may_leave (disk_opened result) c → ImageStandsFor commits c }
    ensures reads { (commits : List CommitValue) (b : List ℕ) →
        HasRead commits begun.found_commits → D.reads begun.found_commits.disk ≡ Some b →
        (c : List ℕ) × (D.reads (disk_opened result) ≡ Some c) × SameOrTrimmed b c }
    ensures sure { IfOk result (λ o.
        D.faults o.journal.disk ≡ D.faults begun.found_commits.disk) }
    ensures faults { IfErr result (λ r.
        CountsFaults r.fault (D.faults begun.found_commits.disk) (D.faults r.disk)) }
    ensures kinds { IfErr result (λ r. IsDevice r.fault) }
{
    let Begun {
        found_commits,
        applied,
    } = begun;
    match found_commits.finish() {
        Ok(journal) => Ok(Opened { journal, applied }),
        Err(refused) => Err(refused),
    }
}

/// Opens the journal on a disk and applies its commits to a first value, one by one, each of which
/// is dropped once it is applied. What stands past the closed gate is cut off. Every refusal hands
/// the disk back.
///
/// `NotInitialised`: the disk has fewer than 17 bytes. `Damaged`: its bytes are no journal, and
/// `at` is the offset where they are damaged; or they are one, and `at` is the offset of the first
/// gate whose commit does not fit those before it with the limits. Both leave the disk as it reads,
/// and after `Damaged` that is durable. `Device`: the disk failed in this call. `NoMemory`: memory
/// ran out; the disk stays as it is, or what it reads as is then durable. After both a journal
/// stands for the same commits. A journal whose commits fit one after the other meets no other
/// refusal.
pub fn open_journal<D: Disk, A: Applies>(
    alloc: Global,
    disk: D,
    first: A,
    limits: &Limits,
) -> Result<Opened<D, A>, Refused<D>>
    requires limits { A.can_apply limits.now }
    requires first { A.makes first [] first }
    ensures { Opens D.reads D.may_leave D.moment D.left_since D.faults A.makes limits.now first
        disk result }
{
    match begin(alloc, disk, first, limits) {
        Ok(begun) => finish(begun),
        Err(refused) => Err(refused),
    }
}
