//! A journal that was opened with all its commits, each with the offset of its gate.
ghost use Rattle.std.specs.Prelude.{◌≡◌, ℕ, [], Err, IfOk, IfErr};
ghost use Rattle.tl_journal.specs.Image.{ImageStandsOnlyFor, IsDamagedOnlyAt};
ghost use Rattle.tl_journal.specs.Opening.{HasRead, IsAtClosedGate, commits_found, HaveGatesFrom};
ghost use Rattle.tl_journal.specs.Answers.{IsDamagedOrMemoryThere};
ghost use Rattle.tl_journal.specs.declared.faults.JournalFault.TheVariants as fault;

use crate::faults::JournalFault;
use crate::found::{Found, FoundCommits};
use crate::journal::Journal;
use std::alloc::Global;
use tl_device::Disk;
use tl_types::Seq;

/// A journal, and the commits that it holds.
#[derive(Drop)]
pub struct Attached<D: Disk> {
    /// The journal, which is not broken and has no room for an append yet.
    pub journal: Journal<D>,
    /// Its commits, in order, each with the offset of its gate.
    pub found: Seq<Found>,
}

// All commits that the opening hands out.
pub(crate) fn all_found<D: Disk>(
    alloc: Global,
    opening: &mut FoundCommits<D>,
) -> Result<Seq<Found>, JournalFault>
    requires { HasRead [] opening.old }
    ensures disk { opening.new.disk ≡ opening.old.disk }
    ensures image { opening.new.image ≡ opening.old.image }
    ensures found { IfOk result (λ found. HasRead (commits_found found) opening.new) }
    ensures end { IfOk result (λ found. IsAtClosedGate opening.new) }
    ensures gates { IfOk result (λ found. HaveGatesFrom opening.old.at found) }
    ensures all { IfOk result (λ found.
        ImageStandsOnlyFor (commits_found found) opening.old.image) }
    ensures damaged { (at : ℕ) → result ≡ Err (fault.Damaged at) →
        IsDamagedOnlyAt at opening.old.image }
    ensures kinds { IfErr result IsDamagedOrMemoryThere }
{
    let mut found = Seq::new(alloc);
    'reading: while let Some(commit) = opening.next(alloc)? {
        if found.push(commit).is_err() {
            return Err(JournalFault::NoMemory);
        }
    }
    Ok(found)
}
