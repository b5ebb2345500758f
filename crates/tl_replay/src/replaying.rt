//! The commits of a journal, applied one after the other while it is opened. The first that does
//! not fit those before it ends this, with the offset of its gate.
ghost use Rattle.std.specs.Prelude.{◌≡◌, ◌++◌, [], ℕ, List, Err, None, IfOk, IfErr, OnOk};
ghost use Rattle.tl_types.specs.declared.commits.Commit.{Commit as CommitValue};
ghost use Rattle.tl_journal.specs.Answers.{IsDamagedOrMemoryThere};
ghost use Rattle.tl_journal.specs.Image.{ImageStandsOnlyFor, IsDamagedOnlyAt};
ghost use Rattle.tl_journal.specs.Opening.{HasRead};
ghost use Rattle.tl_journal.specs.declared.faults.JournalFault.TheVariants as journal_fault;
ghost use Rattle.tl_replay.specs.Applying.{StopsAt, AppliesAll};
ghost use Rattle.tl_replay.specs.Fitting.{IsDamaged};

use crate::applying::Applies;
use std::alloc::Global;
use tl_device::Disk;
use tl_journal::{FoundCommits, JournalFault};
use tl_types::Limits;

// Applies the commits, up to the first one that does not fit with the limits, and answers what was
// made of the first value and the offset of that one's gate, or `None` where all are applied.
fn apply_fitting<D: Disk, A: Applies>(
    alloc: Global,
    found_commits: &mut FoundCommits<D>,
    first: A,
    limits: &Limits,
) -> Result<(A, Option<u64>), JournalFault>
    requires limits { A.can_apply limits.now }
    requires first { A.makes first [] first }
    requires read { HasRead [] found_commits.old }
    ensures disk { found_commits.new.disk ≡ found_commits.old.disk }
    ensures image { found_commits.new.image ≡ found_commits.old.image }
    ensures stops { IfOk result (λ r.
        StopsAt A.makes limits.now first found_commits.new r.0 r.1) }
    ensures damaged { (at : ℕ) → result ≡ Err (journal_fault.Damaged at) →
        IsDamagedOnlyAt at found_commits.old.image }
    ensures kinds { IfErr result IsDamagedOrMemoryThere }
{
    let mut applied = first;
    'commits: while let Some(found) = found_commits.next(alloc)? {
        let spelled = found_commits.record_behind(found.at);
        let Ok((next, fits)) = applied.apply(alloc, &found.commit, spelled, limits) else {
            return Err(JournalFault::NoMemory);
        };
        applied = next;
        if !fits {
            return Ok((applied, Some(found.at)));
        }
    }
    Ok((applied, None))
}

// Passes over the commits that are left, so that a gate that no record follows is found.
fn pass_over<D: Disk>(
    alloc: Global,
    found_commits: &mut FoundCommits<D>,
) -> Result<(), JournalFault>
    requires { (found : List CommitValue) × HasRead found found_commits.old }
    ensures disk { found_commits.new.disk ≡ found_commits.old.disk }
    ensures image { found_commits.new.image ≡ found_commits.old.image }
    ensures whole { (found : List CommitValue) → HasRead found found_commits.old →
        OnOk result ((later : List CommitValue)
        × ImageStandsOnlyFor (found ++ later) found_commits.old.image) }
    ensures damaged { (at : ℕ) → result ≡ Err (journal_fault.Damaged at) →
        IsDamagedOnlyAt at found_commits.old.image }
    ensures kinds { IfErr result IsDamagedOrMemoryThere }
{
    'commits: while let Some(found) = found_commits.next(alloc)? {
        let _at = found.at; // says that it is of 64 bits
    }
    Ok(())
}

/// Applies all commits of the journal that is opened to a first value. `Damaged` comes where a gate
/// is damaged, and else where a commit does not fit those before it with the limits, at the first
/// such gate. `NoMemory`: memory ran out. The disk stays as it is.
pub(crate) fn apply_all<D: Disk, A: Applies>(
    alloc: Global,
    found_commits: &mut FoundCommits<D>,
    first: A,
    limits: &Limits,
) -> Result<A, JournalFault>
    requires limits { A.can_apply limits.now }
    requires first { A.makes first [] first }
    requires read { HasRead [] found_commits.old }
    ensures disk { found_commits.new.disk ≡ found_commits.old.disk }
    ensures image { found_commits.new.image ≡ found_commits.old.image }
    ensures applied { IfOk result (AppliesAll A.makes limits.now first found_commits.new) }
    ensures damaged { (at : ℕ) → result ≡ Err (journal_fault.Damaged at) →
        IsDamaged limits.now at found_commits.old.image }
    ensures kinds { IfErr result IsDamagedOrMemoryThere }
{
    let (applied, unfit) = apply_fitting(alloc, found_commits, first, limits)?;
    match unfit {
        None => Ok(applied),
        Some(at) => {
            pass_over(alloc, found_commits)?;
            Err(JournalFault::Damaged { at })
        }
    }
}
