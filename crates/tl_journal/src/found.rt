//! The commits of a journal, handed out one by one while it is opened; the disk stays as it is
//! until the last was handed out. An open gate that no record follows is refused, and so once more.
ghost use Rattle.std.specs.Prelude.{◌≡◌, ◌+◌, ◌<◌, ◌++◌, ◌∷◌, [], ℕ, List, length, Ok, Err, Some, None, IfSome, IfOk, IfErr, OnErr};
ghost use Rattle.tl_types.specs.declared.commits.Commit.{Commit as CommitValue};
ghost use Rattle.tl_record.specs.Spelling.{spelling};
ghost use Rattle.tl_device.specs.Disk.{IsStored};
ghost use Rattle.tl_journal.specs.Image.{ImageStandsFor, ImageStandsOnlyFor, IsDamagedOnlyAt};
ghost use Rattle.tl_journal.specs.Moments.{EachMoment};
ghost use Rattle.tl_journal.specs.Opening.{HasRead, IsAtClosedGate, IsOpening, HasRecordAt};
ghost use Rattle.tl_journal.specs.Stands.{JournalStandsFor, SameOrTrimmed};
ghost use Rattle.tl_journal.specs.Answers.{disk_opened, CountsFaults, IsDevice, IsDeviceOrMemory, IsDamagedOrMemory};
ghost use Rattle.tl_journal.specs.declared.faults.JournalFault.TheVariants as fault;

use crate::faults::JournalFault;
use crate::journal::Journal;
use crate::opening::Refused;
use crate::reading::device_fault;
use crate::records::{bytes_between, commit_at};
use crate::trimming::trim;
use std::alloc::Global;
use std::marker::Model;
use tl_device::Disk;
use tl_types::Commit;

/// A commit of the journal.
#[derive(Drop)]
pub struct Found {
    /// The commit that its record spells. Whether it fits is not asked.
    pub commit: Commit,
    /// The byte offset in the journal, from 0, of the gate before its record.
    pub at: u64,
}

/// A journal while it is opened: its disk, the bytes that were read from it, and the place of the
/// next gate. It hands out the commits in order, each read when it is asked for. Until it ends, the
/// disk stays as it is.
#[derive(Drop)]
pub struct FoundCommits<D: Disk> {
    disk: D,
    image: Vec<u8>,
    at: usize,
}

impl<D: Disk> Model for FoundCommits<D> {
    ghost use Rattle.tl_journal.specs.Plain as plain;
    ghost use Rattle.tl_journal.specs.Opening.{IsOpening};

    ghost Value = { plain.FoundCommits D };

    ghost view = { λ o. record { disk = o.disk; image = o.image.items; at = o.at } };

    ghost invariant = { λ o. IsOpening D.reads D.ready (record {
      disk = o.disk;
      image = o.image.items;
      at = o.at;
    }) };
}

impl<D: Disk> FoundCommits<D> {
    // The opening of a journal on this disk, from which these bytes were read, and whose first gate
    // stands at this offset.
    pub(crate) fn new(disk: D, image: Vec<u8>, at: usize) -> FoundCommits<D>
        requires { IsOpening D.reads D.ready (record {
          disk = disk;
          image = image.items;
          at = at;
        }) }
        ensures { result ≡ record { disk = disk; image = image.items; at = at } }
    {
        FoundCommits { disk, image, at }
    }

    /// The next commit, with the offset of its gate, or `None` where the closed gate comes next.
    ///
    /// `Damaged` comes where the gate is open and no record and further byte follow it; `at` is its
    /// offset. `NoMemory`: memory ran out. Either leaves everything as it was.
    pub fn next(&mut self, alloc: Global) -> Result<Option<Found>, JournalFault>
        ensures disk { self.new.disk ≡ self.old.disk }
        ensures image { self.new.image ≡ self.old.image }
        ensures gate { IfOk result (λ o. IfSome o (λ f. f.at ≡ self.old.at)) }
        ensures on { IfOk result (λ o. IfSome o (λ f.
            self.new.at ≡ self.old.at + (1 + length (spelling f.commit)))) }
        ensures within { IfOk result (λ o. IfSome o (λ f. self.new.at < length self.new.image)) }
        ensures found { (found : List CommitValue) → HasRead found self.old →
            IfOk result (λ o. IfSome o (λ f. HasRead (found ++ f.commit ∷ []) self.new)) }
        ensures recorded { IfOk result (λ o. IfSome o (λ f. HasRecordAt f.at f.commit self.new)) }
        ensures end { result ≡ Ok None → (self.new ≡ self.old) × IsAtClosedGate self.new }
        ensures all { (found : List CommitValue) → HasRead found self.old → result ≡ Ok None →
            ImageStandsOnlyFor found self.old.image }
        ensures damaged { (found : List CommitValue) (at : ℕ) → HasRead found self.old →
            result ≡ Err (fault.Damaged at) → IsDamagedOnlyAt at self.old.image }
        ensures kept { OnErr result (self.new ≡ self.old) }
        ensures faults { IfErr result (λ e. IsDamagedOrMemory self.old.at e) }
    {
        let at = self.at as u64;
        let Some(decoded) = commit_at(alloc, &self.image, self.at)? else {
            return Ok(None);
        };
        self.at = decoded.end;
        Ok(Some(Found {
            commit: decoded.commit,
            at,
        }))
    }

    /// The record of the commit that was handed out last, whose gate is at this offset, as it
    /// stands among the bytes: the commit's spelling.
    pub fn record_behind(&self, at: u64) -> &[u8]
        requires { (c : CommitValue) × HasRecordAt at c self.now }
        ensures { (c : CommitValue) → HasRecordAt at c self.now → result.now ≡ spelling c }
    {
        bytes_between(&self.image, at as usize + 1, self.at)
    }

    /// The journal, once all its commits were handed out: the closed gate comes next. What stands
    /// past that gate is cut off the disk.
    ///
    /// `Device`: the disk failed in this call; it still stands for the same commits.
    pub fn finish(self) -> Result<Journal<D>, Refused<D>>
        requires { IsAtClosedGate self }
        ensures stands { (found : List CommitValue) → HasRead found self →
            IsStored D.reads D.may_leave self.disk self.image →
            IfOk result (λ j. JournalStandsFor D.reads D.may_leave j found) }
        ensures shape { IfOk result (λ j.
            (j.gate ≡ self.at) × (j.spare ≡ 0) × (j.broken ≡ None)) }
        ensures any_moment { (found : List CommitValue) → HasRead found self →
            IsStored D.reads D.may_leave self.disk self.image →
            EachMoment D.moment D.left_since self.disk (disk_opened result) (ImageStandsFor found) }
        ensures now { (found : List CommitValue) → HasRead found self →
            IsStored D.reads D.may_leave self.disk self.image →
            (c : List ℕ) → D.may_leave (disk_opened result) c → ImageStandsFor found c }
        ensures reads { (found : List CommitValue) (b : List ℕ) → HasRead found self →
            D.reads self.disk ≡ Some b →
            (c : List ℕ) × (D.reads (disk_opened result) ≡ Some c) × SameOrTrimmed b c }
        ensures sure { IfOk result (λ j. D.faults j.disk ≡ D.faults self.disk) }
        ensures faults { IfErr result (λ r.
            CountsFaults r.fault (D.faults self.disk) (D.faults r.disk)) }
        ensures kinds { IfErr result (λ r. IsDeviceOrMemory r.fault) }
        ensures device { IfErr result (λ r. IsDevice r.fault) }
    {
        let FoundCommits {
            mut disk,
            image,
            at,
        } = self;
        let gate = at as u64;
        let Ok(()) = trim(&mut disk, gate + 1, image.len() as u64) else {
            let fault = device_fault(&disk);
            return Err(Refused { fault, disk });
        };
        Ok(Journal::<D>::at_gate(disk, gate))
    }

    /// The disk, as it is, without a journal.
    pub fn into_disk(self) -> D
        ensures { result ≡ self.disk }
    {
        let FoundCommits { disk, .. } = self;
        disk
    }
}
