//! A journal on a disk: made, opened, appended to, by one commit or by a group of commits at once.
//! What a crash leaves stands for each commit that was acknowledged, and for all of a group or none
//! of it; a journal whose disk failed in an append refuses all further ones.
ghost use Rattle.std.specs.Prelude.{◌≡◌, ◌+◌, ◌^◌, ◌<◌, ◌≤◌, ◌++◌, ◌∷◌, [], ℕ, List, length, Some, None, Err, IfSome, IfOk, OnOk, OnErr, IfErr};
ghost use Rattle.tl_types.specs.declared.commits.Commit.{Commit as CommitValue};
ghost use Rattle.tl_device.specs.Known.{Rose};
ghost use Rattle.tl_device.specs.Disk.{IsStored};
ghost use Rattle.tl_journal.specs.Image.{ImageStandsFor, NoneOrAll, BeforeOrAfter, IsBodyOf, IsBodyOfAll, ImageStandsOnlyFor, IsDamagedOnlyAt};
ghost use Rattle.tl_journal.specs.Moments.{EachMoment, EachMomentBySync, IsUntouched, LosesNothing, IsAsBefore, IsDurable, IsAsBeforeOrDurable, TellsStill, IsShort, OldOr};
ghost use Rattle.tl_journal.specs.Opening.{HasRead, commits_found, HaveGatesFrom};
ghost use Rattle.tl_journal.specs.Stands.{JournalStandsFor, IsReady, SameOrTrimmed, empty_journal};
ghost use Rattle.tl_journal.specs.Answers.{disk_begun, disk_attached, CountsFaults, IsTooShort, IsTooLong};
ghost use Rattle.tl_journal.specs.declared.faults.JournalFault.TheVariants as fault;
ghost use Rattle.tl_journal.specs.declared.faults.AppendFault.TheVariants as failure;

use crate::appending::put;
use crate::attached::{Attached, all_found};
use crate::creation::{InitRun, create};
use crate::faults::AppendFault;
use crate::found::FoundCommits;
use crate::opening::{Refused, image_of};
use std::alloc::Global;
use std::marker::Model;
use tl_device::Disk;
use tl_types::{Bytes, NoMemory};

/// A journal on a disk, with the offset of its closed gate, the length of the longest body for
/// which there is room, and, once the disk failed in an append, its count of faults then.
#[derive(Drop)]
pub struct Journal<D: Disk> {
    disk: D,
    gate: u64,
    spare: u64,
    broken: Option<u64>,
}

impl<D: Disk> Model for Journal<D> {
    ghost use Rattle.tl_journal.specs.Plain as plain;
    ghost use Rattle.tl_journal.specs.Stands.{IsReady};

    ghost Value = { plain.Journal D };

    ghost view = { λ j. record {
      disk = j.disk;
      gate = j.gate;
      spare = j.spare;
      broken = j.broken;
    } };

    ghost invariant = { λ j. IsReady D.reads D.ready (record {
      disk = j.disk;
      gate = j.gate;
      spare = j.spare;
      broken = j.broken;
    }) };
}

impl<D: Disk> Journal<D> {
    /// Makes the journal of no commit on a disk of at most 17 bytes. It syncs, cuts the disk to
    /// nothing, writes the journal and syncs. A crash up to the first sync leaves what it could
    /// before, and from then on at most 17 bytes, of which a journal can be made again.
    ///
    /// `AlreadyInitialised`: the disk has more than 17 bytes, and stays as it is. `Device`: the
    /// disk failed in this call. `NoMemory`: memory ran out, and the disk stays as it is.
    pub fn init(disk: D) -> InitRun<D>
        ensures stored { (b : List ℕ) → D.reads disk ≡ Some b →
            OnOk result.done (IsStored D.reads D.may_leave result.disk empty_journal) }
        ensures short { (b : List ℕ) → D.reads disk ≡ Some b →
            OnOk result.done (length b ≤ 17) }
        ensures too_long { (len : ℕ) → result.done ≡ Err (fault.AlreadyInitialised len) →
            (17 < len) × IfSome (D.reads disk) (IsTooLong len) }
        ensures kept { (len : ℕ) → result.done ≡ Err (fault.AlreadyInitialised len) →
            IsUntouched D.reads D.may_leave disk result.disk }
        ensures no_less { (len : ℕ) → result.done ≡ Err (fault.AlreadyInitialised len) →
            LosesNothing D.reads D.may_leave disk result.disk }
        ensures not_short { (len : ℕ) → result.done ≡ Err (fault.NotInitialised len) → ⊥ }
        ensures not_damaged { (at : ℕ) → result.done ≡ Err (fault.Damaged at) → ⊥ }
        ensures no_memory { result.done ≡ Err fault.NoMemory →
            IsAsBefore D.reads D.may_leave disk result.disk }
        ensures tells { TellsStill D.reads disk result.disk }
        ensures any_moment { (b : List ℕ) → D.reads disk ≡ Some b →
            EachMomentBySync D.reads D.may_leave D.moment D.left_since disk result.disk IsShort }
        ensures now { (b : List ℕ) → D.reads disk ≡ Some b →
            (c : List ℕ) → D.may_leave result.disk c → OldOr (D.may_leave disk) IsShort c }
        ensures sure { OnOk result.done (D.faults result.disk ≡ D.faults disk) }
        ensures faults { IfErr result.done (λ e.
            CountsFaults e (D.faults disk) (D.faults result.disk)) }
    {
        let mut disk = disk;
        let done = create(&mut disk);
        InitRun { done, disk }
    }

    /// Begins to open the journal on a disk: it takes the disk's length, syncs, and reads it. The
    /// commits are then handed out one by one, and after them the journal.
    ///
    /// `NotInitialised`: the disk has fewer than 17 bytes. `Damaged`: its first 16 bytes are not a
    /// journal's; `at` is 0, and what the disk reads as is then durable. `Device`: the disk failed
    /// in this call. `NoMemory`: memory ran out, and the disk stays as it is. A disk that is handed
    /// back reads as before.
    pub fn open(alloc: Global, disk: D) -> Result<FoundCommits<D>, Refused<D>>
        ensures image { (b : List ℕ) → D.reads disk ≡ Some b → IfOk result (λ o. o.image ≡ b) }
        ensures start { IfOk result (λ o. HasRead [] o) }
        ensures gate { IfOk result (λ o. o.at ≡ 16) }
        ensures stored { (b : List ℕ) → D.reads disk ≡ Some b →
            IfOk result (λ o. IsStored D.reads D.may_leave o.disk o.image) }
        ensures untouched { IsUntouched D.reads D.may_leave disk (disk_begun result) }
        ensures any_moment { EachMoment D.moment D.left_since disk (disk_begun result)
            (D.may_leave disk) }
        ensures sure { IfOk result (λ o. D.faults o.disk ≡ D.faults disk) }
        ensures faults { IfErr result (λ r.
            CountsFaults r.fault (D.faults disk) (D.faults r.disk)) }
        ensures too_short { (len : ℕ) → IfErr result (λ r. r.fault ≡ fault.NotInitialised len →
            (len < 17) × IfSome (D.reads disk) (IsTooShort len)) }
        ensures no_less { (len : ℕ) → IfErr result (λ r. r.fault ≡ fault.NotInitialised len →
            LosesNothing D.reads D.may_leave disk r.disk) }
        ensures damaged { (at : ℕ) → IfErr result (λ r. r.fault ≡ fault.Damaged at →
            (at ≡ 0) × IfSome (D.reads disk) (IsDamagedOnlyAt at)) }
        ensures durable { (at : ℕ) → IfErr result (λ r. r.fault ≡ fault.Damaged at →
            IsDurable D.reads D.may_leave disk r.disk) }
        ensures no_memory { IfErr result (λ r. r.fault ≡ fault.NoMemory →
            IsAsBefore D.reads D.may_leave disk r.disk) }
        ensures not_long { (len : ℕ) → IfErr result (λ r.
            r.fault ≡ fault.AlreadyInitialised len → ⊥) }
    {
        let mut disk = disk;
        match image_of(alloc, &mut disk) {
            Ok(image) => Ok(FoundCommits::new(disk, image, 16)),
            Err(fault) => Err(Refused { fault, disk }),
        }
    }

    /// Opens the journal on a disk, with all its commits: it takes the disk's length, syncs, reads
    /// it, and cuts off what stands past its closed gate. It never writes a gate. A journal that it
    /// gives is not broken, and has no room for an append.
    ///
    /// `NotInitialised`: the disk has fewer than 17 bytes. `Damaged`: its bytes are no journal;
    /// `at` is the offset where they are damaged, and what the disk reads as is then durable. Both
    /// leave the disk as it reads. `Device`: the disk failed in this call; a journal stands for the
    /// same commits. `NoMemory`: memory ran out; the disk stays as it is, or what it reads as is
    /// then durable.
    pub fn attach(alloc: Global, disk: D) -> Result<Attached<D>, Refused<D>>
        ensures stands { (b : List ℕ) → D.reads disk ≡ Some b →
            IfOk result (λ a.
            JournalStandsFor D.reads D.may_leave a.journal (commits_found a.found)) }
        ensures all { (b : List ℕ) → D.reads disk ≡ Some b →
            IfOk result (λ a. ImageStandsOnlyFor (commits_found a.found) b) }
        ensures gates { IfOk result (λ a. HaveGatesFrom 16 a.found) }
        ensures whole { IfOk result (λ a. (a.journal.broken ≡ None) × (a.journal.spare ≡ 0)) }
        ensures any_moment { (b : List ℕ) (cs : List CommitValue) → D.reads disk ≡ Some b →
            ImageStandsFor cs b → EachMomentBySync D.reads D.may_leave D.moment D.left_since
            disk (disk_attached result) (ImageStandsFor cs) }
        ensures no_journal { (b : List ℕ) → D.reads disk ≡ Some b →
            ((cs : List CommitValue) → ImageStandsFor cs b → ⊥) →
            EachMoment D.moment D.left_since disk (disk_attached result) (D.may_leave disk) }
        ensures no_journal_now { (b : List ℕ) → D.reads disk ≡ Some b →
            ((cs : List CommitValue) → ImageStandsFor cs b → ⊥) →
            IsUntouched D.reads D.may_leave disk (disk_attached result) }
        ensures now { (b : List ℕ) (cs : List CommitValue) → D.reads disk ≡ Some b →
            ImageStandsFor cs b → (c : List ℕ) → D.may_leave (disk_attached result) c →
            OldOr (D.may_leave disk) (ImageStandsFor cs) c }
        ensures reads { (b : List ℕ) → D.reads disk ≡ Some b → (c : List ℕ)
            × (D.reads (disk_attached result) ≡ Some c) × SameOrTrimmed b c }
        ensures sure { IfOk result (λ a. D.faults a.journal.disk ≡ D.faults disk) }
        ensures faults { IfErr result (λ r.
            CountsFaults r.fault (D.faults disk) (D.faults r.disk)) }
        ensures too_short { (len : ℕ) → IfErr result (λ r. r.fault ≡ fault.NotInitialised len →
            (len < 17) × IfSome (D.reads disk) (IsTooShort len)
            × IsUntouched D.reads D.may_leave disk r.disk) }
        ensures no_less { (len : ℕ) → IfErr result (λ r. r.fault ≡ fault.NotInitialised len →
            LosesNothing D.reads D.may_leave disk r.disk) }
        ensures damaged { (at : ℕ) → IfErr result (λ r. r.fault ≡ fault.Damaged at →
            IfSome (D.reads disk) (IsDamagedOnlyAt at)
            × IsUntouched D.reads D.may_leave disk r.disk) }
        ensures durable { (at : ℕ) → IfErr result (λ r. r.fault ≡ fault.Damaged at →
            IsDurable D.reads D.may_leave disk r.disk) }
        ensures no_memory { IfErr result (λ r. r.fault ≡ fault.NoMemory →
            IsAsBeforeOrDurable D.reads D.may_leave disk r.disk) }
        ensures not_long { (len : ℕ) → IfErr result (λ r.
            r.fault ≡ fault.AlreadyInitialised len → ⊥) }
    {
        let mut opening = match Journal::<D>::open(alloc, disk) {
            Ok(opening) => opening,
            Err(refused) => return Err(refused),
        };
        match all_found(alloc, &mut opening) {
            Ok(found) => match opening.finish() {
                Ok(journal) => Ok(Attached { journal, found }),
                Err(refused) => Err(refused),
            },
            Err(fault) => Err(Refused {
                fault,
                disk: opening.into_disk(),
            }),
        }
    }

    // The journal on this disk whose closed gate stands there.
    pub(crate) fn at_gate(disk: D, gate: u64) -> Journal<D>
        requires bound { gate + 1 < 2 ^ 64 }
        requires within { IfSome (D.reads disk) (λ b. gate + 1 ≤ length b) }
        ensures { result ≡ record { disk = disk; gate = gate; spare = 0; broken = None } }
    {
        Journal {
            disk,
            gate,
            spare: 0,
            broken: None,
        }
    }

    /// Takes the disk's room for one append of a body of so many bytes, fewer than 2^63: the
    /// journal's spare. Nothing else changes. The error is `NoMemory`, and changes nothing.
    pub fn reserve(&mut self, bytes: u64) -> Result<(), NoMemory>
        requires { bytes < 2 ^ 63 }
        ensures made { OnOk result (self.new.spare ≡ bytes) }
        ensures refused { OnErr result (self.new.spare ≡ self.old.spare) }
        ensures gate { self.new.gate ≡ self.old.gate }
        ensures broken { self.new.broken ≡ self.old.broken }
        ensures untouched { IsUntouched D.reads D.may_leave self.old.disk self.new.disk }
        ensures back { (c : List ℕ) → D.may_leave self.old.disk c → D.may_leave self.new.disk c }
        ensures any_moment { EachMoment D.moment D.left_since self.old.disk self.new.disk
            (D.may_leave self.old.disk) }
        ensures faults { D.faults self.new.disk ≡ D.faults self.old.disk }
        ensures stands { (cs : List CommitValue) →
            JournalStandsFor D.reads D.may_leave self.old cs →
            JournalStandsFor D.reads D.may_leave self.new cs }
    {
        self.disk.room(bytes + 1, 4)?;
        self.spare = bytes;
        Ok(())
    }

    /// Appends a commit. `body` is its record with a closed gate behind it, and no longer than the
    /// spare that `reserve` made. It writes the body behind the journal's closed gate, syncs,
    /// writes 1 into that gate and syncs. It takes no memory, and leaves no spare.
    ///
    /// `Device`: the disk failed in this call. It then stands for the commits before, or for these
    /// and this one, and the journal is broken. `Broken`: an earlier append answered `Device`, with
    /// this count; nothing but the spare has changed.
    pub fn append(&mut self, body: &Bytes) -> Result<(), AppendFault>
        requires body { (c : CommitValue) × IsBodyOf c body.now }
        requires fits { length body.now ≤ self.old.spare }
        ensures stored { (cs : List CommitValue) (c : CommitValue) →
            JournalStandsFor D.reads D.may_leave self.old cs → IsBodyOf c body.now →
            OnOk result (JournalStandsFor D.reads D.may_leave self.new (cs ++ c ∷ [])) }
        ensures written { (front : List ℕ) → self.old.gate ≡ length front →
            IsStored D.reads D.may_leave self.old.disk (front ++ 0 ∷ []) →
            OnOk result (IsStored D.reads D.may_leave self.new.disk (front ++ 1 ∷ body.now)) }
        ensures any_moment { (cs : List CommitValue) (c : CommitValue) →
            JournalStandsFor D.reads D.may_leave self.old cs → IsBodyOf c body.now →
            EachMoment D.moment D.left_since self.old.disk self.new.disk (BeforeOrAfter cs c) }
        ensures now { (cs : List CommitValue) (c : CommitValue) →
            JournalStandsFor D.reads D.may_leave self.old cs → IsBodyOf c body.now →
            (image : List ℕ) → D.may_leave self.new.disk image → BeforeOrAfter cs c image }
        ensures reads { (cs : List CommitValue) (c : CommitValue) →
            JournalStandsFor D.reads D.may_leave self.old cs → IsBodyOf c body.now →
            (image : List ℕ) → D.reads self.new.disk ≡ Some image → BeforeOrAfter cs c image }
        ensures tells { TellsStill D.reads self.old.disk self.new.disk }
        ensures sure { OnOk result (D.faults self.new.disk ≡ D.faults self.old.disk) }
        ensures whole { OnOk result ((self.old.broken ≡ None) × (self.new.broken ≡ None)) }
        ensures spent { self.new.spare ≡ 0 }
        ensures device { (faults : ℕ) → result ≡ Err (failure.Device faults) →
            (faults ≡ D.faults self.new.disk) × (self.old.broken ≡ None)
            × (self.new.broken ≡ Some faults)
            × Rose (D.faults self.old.disk) (D.faults self.new.disk) }
        ensures broken { (faults : ℕ) → result ≡ Err (failure.Broken faults) →
            (self.old.broken ≡ Some faults) × (self.new ≡ record self.old { spare = 0 }) }
        ensures from_broken { (faults : ℕ) → self.old.broken ≡ Some faults →
            result ≡ Err (failure.Broken faults) }
    {
        self.append_all(body)
    }

    /// Appends a group of one or more commits, all of them or none. `body` has their records, each
    /// with an open gate behind it, but for the last, which has a closed one; it is no longer than
    /// the spare that `reserve` made. It writes the body behind the journal's closed gate, syncs,
    /// writes 1 into that gate and syncs. It takes no memory, and leaves no spare.
    ///
    /// `Device`: the disk failed in this call. It then stands for the commits before, or for these
    /// and all of the group, and the journal is broken. `Broken`: an earlier append answered
    /// `Device`, with this count; nothing but the spare has changed.
    pub fn append_all(&mut self, body: &Bytes) -> Result<(), AppendFault>
        requires body { (group : List CommitValue) × IsBodyOfAll group body.now }
        requires fits { length body.now ≤ self.old.spare }
        ensures stored { (cs group : List CommitValue) →
            JournalStandsFor D.reads D.may_leave self.old cs → IsBodyOfAll group body.now →
            OnOk result (JournalStandsFor D.reads D.may_leave self.new (cs ++ group)) }
        ensures written { (front : List ℕ) → self.old.gate ≡ length front →
            IsStored D.reads D.may_leave self.old.disk (front ++ 0 ∷ []) →
            OnOk result (IsStored D.reads D.may_leave self.new.disk (front ++ 1 ∷ body.now)) }
        ensures any_moment { (cs group : List CommitValue) →
            JournalStandsFor D.reads D.may_leave self.old cs → IsBodyOfAll group body.now →
            EachMoment D.moment D.left_since self.old.disk self.new.disk (NoneOrAll cs group) }
        ensures now { (cs group : List CommitValue) →
            JournalStandsFor D.reads D.may_leave self.old cs → IsBodyOfAll group body.now →
            (image : List ℕ) → D.may_leave self.new.disk image → NoneOrAll cs group image }
        ensures reads { (cs group : List CommitValue) →
            JournalStandsFor D.reads D.may_leave self.old cs → IsBodyOfAll group body.now →
            (image : List ℕ) → D.reads self.new.disk ≡ Some image → NoneOrAll cs group image }
        ensures tells { TellsStill D.reads self.old.disk self.new.disk }
        ensures sure { OnOk result (D.faults self.new.disk ≡ D.faults self.old.disk) }
        ensures whole { OnOk result ((self.old.broken ≡ None) × (self.new.broken ≡ None)) }
        ensures spent { self.new.spare ≡ 0 }
        ensures device { (faults : ℕ) → result ≡ Err (failure.Device faults) →
            (faults ≡ D.faults self.new.disk) × (self.old.broken ≡ None)
            × (self.new.broken ≡ Some faults)
            × Rose (D.faults self.old.disk) (D.faults self.new.disk) }
        ensures broken { (faults : ℕ) → result ≡ Err (failure.Broken faults) →
            (self.old.broken ≡ Some faults) × (self.new ≡ record self.old { spare = 0 }) }
        ensures from_broken { (faults : ℕ) → self.old.broken ≡ Some faults →
            result ≡ Err (failure.Broken faults) }
    {
        self.spare = 0;
        if let Some(faults) = self.broken {
            return Err(AppendFault::Broken { faults });
        }
        let Ok(()) = put(&mut self.disk, self.gate, body.as_slice()) else {
            let faults = self.disk.faults();
            self.broken = Some(faults);
            return Err(AppendFault::Device { faults });
        };
        self.gate += body.len() as u64;
        Ok(())
    }

    /// The disk that the journal is on, lent.
    pub fn disk(&self) -> &D
        ensures { result.now ≡ self.now.disk }
    {
        &self.disk
    }

    /// The disk, as it is.
    pub fn into_disk(self) -> D
        ensures { result ≡ self.disk }
    {
        let Journal { disk, .. } = self;
        disk
    }
}
