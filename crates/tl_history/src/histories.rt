//! The history: a journal, the snapshot of its entries and the keys of the open rows, which stand
//! for the same commits. What is committed is on the disk before it is seen; behind a break nothing
//! is committed.
ghost use Rattle.std.specs.Prelude.{◌≡◌, ◌+◌, ◌<◌, ◌++◌, ◌∷◌, [], ℕ, List, Some, None, false, Ok, IsTrue, IfOk, IfErr};
ghost use Rattle.tl_types.specs.Entries.{commits_of, has_break};
ghost use Rattle.tl_types.specs.History.{database_of};
ghost use Rattle.tl_types.specs.Limits.{standard_limits};
ghost use Rattle.tl_types.specs.Marks.{paced};
ghost use Rattle.tl_types.specs.Resolving.{resolved};
ghost use Rattle.tl_batch.specs.Made.{AreWithin, batch_matches};
ghost use Rattle.tl_batch.specs.Standing.{StandFor};
ghost use Rattle.tl_index.specs.Snapshots.{commit_entry, mark_entry};
ghost use Rattle.tl_types.specs.Legality.{are_legal};
ghost use Rattle.tl_journal.specs.Answers.{CountsFaults, IsDevice};
ghost use Rattle.tl_journal.specs.Image.{ImageStandsFor};
ghost use Rattle.tl_device.specs.Disk.{IsStored};
ghost use Rattle.tl_journal.specs.Opening.{HasRead, IsAtClosedGate};
ghost use Rattle.tl_journal.specs.Moments.{EachMoment};
ghost use Rattle.tl_journal.specs.Stands.{DiskStandsFor, SameOrTrimmed};
ghost use Rattle.tl_history.specs.Answers.{disk_opened, IsOpened, Opens, Appends, Fails, version_of};
ghost use Rattle.tl_history.specs.Writing.{IsDraft, DraftFails, WriteFails};
ghost use Rattle.tl_types.specs.Legality.{FitInTurn};
ghost use Rattle.tl_history.specs.Standing.{IsCount, ImageStandsForEntries, HasRoomAlone, ImageStandsForEither, DiskStandsForHistory};

use crate::committing::{Draft, append, draft_of, resolve};
use crate::faults::CommitFault;
use crate::replaying::{PacedReplay, Replay};
use std::alloc::Global;
use std::marker::Model;
use tl_batch::Keys;
use tl_device::Disk;
use tl_index::Snapshot;
use tl_journal::{Journal, JournalFault, Refused};
use tl_replay::{Opened, open_journal};
use tl_store::Store;
use tl_types::{Batch, Limits};

/// The commits so far over the journal that keeps them, with the tables that they make and the
/// open rows of each key of these. Contracts see its entries, its journal, the count of faults
/// that the disk had when the journal was opened, and the limits.
///
/// While there is no break the keys stand for the tables, the journal is not broken, and the count
/// of faults is as it was at the opening; once there is a break it is above that.
#[derive(Drop)]
pub struct History<D: Disk> {
    journal: Journal<D>,
    snapshot: Snapshot,
    keys: Keys,
    first_count: u64,
    limits: Limits,
}

impl<D: Disk> Model for History<D> {
    ghost use Rattle.tl_history.specs.Plain as plain;
    ghost use Rattle.tl_history.specs.Standing.{IsHistory};

    ghost Value = { plain.History D };

    ghost view = { λ h. record {
      entries = h.snapshot;
      journal = h.journal;
      first_count = h.first_count;
      limits = h.limits;
    } };

    ghost invariant = { λ h. IsHistory D.faults h.keys (record {
      entries = h.snapshot;
      journal = h.journal;
      first_count = h.first_count;
      limits = h.limits;
    }) };
}

/// What is left of a history that is closed: its snapshot and its disk.
#[derive(Drop)]
pub struct Closed<D: Disk> {
    /// The snapshot of its entries.
    pub snapshot: Snapshot,
    /// The disk, with the journal on it.
    pub disk: D,
}

/// What a history is made of, for those who go on without it.
#[derive(Drop)]
pub struct Parts<D: Disk> {
    /// The journal on its disk.
    pub journal: Journal<D>,
    /// The snapshot of the entries.
    pub snapshot: Snapshot,
    /// The open rows of each key of the tables that the commits make.
    pub keys: Keys,
}

impl<D: Disk> History<D> {
    /// Opens the history whose journal is on a disk. It opens the journal and applies its commits
    /// one by one, each of which is dropped once it is applied; behind a commit comes the mark of
    /// its table, where this has `k` events or more after its last mark, and none where `k` is 0.
    /// What stands past the closed gate is cut off. Every refusal hands the disk back.
    ///
    /// `NotInitialised`: the disk has fewer than 17 bytes. `Damaged`: its bytes are no journal, and
    /// `at` is the offset where they are damaged; or they are one, and `at` is the offset of the
    /// first gate whose commit does not fit those before it with the limits. Both leave the disk as
    /// it reads, and after `Damaged` that is durable. `Device`: the disk failed in this call.
    /// `NoMemory`: memory ran out; the disk stays as it is, or what it then reads as is durable.
    /// After both a journal stands for the same commits. A journal whose commits fit one after the
    /// other, with these limits or smaller ones, meets no other refusal.
    pub fn open(alloc: Global, disk: D, limits: &Limits, k: u32) -> Result<History<D>, Refused<D>>
        requires { AreWithin limits.now standard_limits }
        ensures { Opens D.reads D.may_leave D.moment D.left_since D.faults limits.now k disk
            result }
    {
        let Ok(replay) = Replay::new(alloc) else {
            return Err(Refused {
                fault: JournalFault::NoMemory,
                disk,
            });
        };
        match open_journal(alloc, disk, PacedReplay { replay, k }, limits) {
            Ok(opened) => {
                let Opened { journal, applied } = opened;
                Ok(History::over(journal, applied.replay, *limits))
            }
            Err(refused) => Err(refused),
        }
    }

    // The history of a journal that is not broken, whose commits were applied.
    fn over(journal: Journal<D>, replay: Replay, limits: Limits) -> History<D>
        requires unbroken { journal.broken ≡ None }
        requires within { AreWithin limits standard_limits }
        ensures value { result ≡ record {
          entries = replay;
          journal = journal;
          first_count = D.faults journal.disk;
          limits = limits;
        } }
        ensures whole { has_break result.entries ≡ false }
    {
        let first_count = journal.disk().faults();
        let Replay { snapshot, keys } = replay;
        History {
            journal,
            snapshot,
            keys,
            first_count,
            limits,
        }
    }

    /// Commits a batch of an author, and answers the version that it makes: the number of the
    /// commits with it. The batch is resolved over the tables that the commits so far make. All
    /// memory is taken before the first byte is written; the commit is on the disk before it is
    /// among the entries.
    ///
    /// The rows of the batch match the schema of the table that it names, where there is one. The
    /// faults are tried in this order. `Broken`: there is a break. `Refused`: the batch becomes no
    /// commit over the tables, by this fault. `NoMemory`: memory ran out. These leave the history
    /// as it is. `Device`: the disk failed in this call; the history then ends with the break of
    /// the commit, and its tables are as before.
    pub fn commit(&mut self, alloc: Global, author: u32, batch: Batch) -> Result<u32, CommitFault>
        requires { IsTrue (batch_matches (database_of (commits_of self.old.entries)) batch) }
        ensures ok { IfOk result (λ version.
            Appends author batch commit_entry self.old self.new
            × (version ≡ version_of self.old + 1)) }
        ensures err { IfErr result
            (Fails D.reads D.may_leave D.faults author batch self.old self.new) }
        ensures settings { (self.new.limits ≡ self.old.limits)
            × (self.new.first_count ≡ self.old.first_count) }
        ensures stands { DiskStandsForHistory D.reads D.may_leave self.old →
            DiskStandsForHistory D.reads D.may_leave self.new }
        ensures any_moment { DiskStandsForHistory D.reads D.may_leave self.old →
            EachMoment D.moment D.left_since self.old.journal.disk self.new.journal.disk
            (ImageStandsForEither self.old.entries self.new.entries) }
    {
        let draft = self.draft(alloc, author, batch)?;
        self.write(alloc, draft)
    }

    /// The first half of `commit`: makes a commit of a batch of an author, which `write` can then
    /// write. The batch is resolved over the tables that the commits so far make, and the memory is
    /// taken for all but the keys. At most the disk's room and the journal's spare change, and
    /// nothing is written.
    ///
    /// The rows of the batch match the schema of the table that it names, where there is one. The
    /// faults are tried in this order. `Broken`: there is a break. `Refused`: the batch becomes no
    /// commit over the tables, by this fault. `NoMemory`: memory ran out.
    pub fn draft(&mut self, alloc: Global, author: u32, batch: Batch) -> Result<Draft, CommitFault>
        requires { IsTrue (batch_matches (database_of (commits_of self.old.entries)) batch) }
        ensures ok { IfOk result (IsDraft self.new.entries self.new.journal.spare) }
        ensures resolves { IfOk result (λ draft. resolved self.old.limits
            (database_of (commits_of self.old.entries)) author batch ≡ Ok draft.commit) }
        ensures err { IfErr result
            (DraftFails D.reads D.may_leave D.faults author batch self.old self.new) }
        ensures room { HasRoomAlone D.reads D.may_leave D.faults self.old self.new }
        ensures settings { (self.new.limits ≡ self.old.limits)
            × (self.new.first_count ≡ self.old.first_count) }
        ensures stands { DiskStandsForHistory D.reads D.may_leave self.old →
            DiskStandsForHistory D.reads D.may_leave self.new }
        ensures any_moment { EachMoment D.moment D.left_since self.old.journal.disk
            self.new.journal.disk (D.may_leave self.old.journal.disk) }
    {
        let version = self.snapshot.store().versions();
        if self.snapshot.has_break() {
            return Err(CommitFault::Broken { version });
        }
        let History {
            journal,
            snapshot,
            keys,
            limits,
            ..
        } = self;
        let commit = resolve(alloc, snapshot, keys, author, batch, limits)?;
        let Ok(draft) = draft_of(alloc, snapshot, journal, commit) else {
            return Err(CommitFault::NoMemory);
        };
        Ok(draft)
    }

    /// The second half of `commit`: writes a commit that `draft` made over these entries, and
    /// answers the version that it makes, the number of the commits with it. The memory for the
    /// keys is taken first; the commit is on the disk before it is among the entries.
    ///
    /// `NoMemory`: memory ran out, and the history stays as it is. `Device`: the disk failed in
    /// this call; the history then ends with the break of the commit, and its tables are as before.
    pub fn write(&mut self, alloc: Global, draft: Draft) -> Result<u32, CommitFault>
        requires { IsDraft self.old.entries self.old.journal.spare draft }
        ensures ok { IfOk result (λ version.
            (self.new.entries ≡ self.old.entries ++ commit_entry draft.commit ∷ [])
            × (version ≡ version_of self.old + 1)) }
        ensures err { IfErr result (WriteFails D.faults draft.commit self.old self.new) }
        ensures settings { (self.new.limits ≡ self.old.limits)
            × (self.new.first_count ≡ self.old.first_count) }
        ensures stands { DiskStandsForHistory D.reads D.may_leave self.old →
            DiskStandsForHistory D.reads D.may_leave self.new }
        ensures any_moment { DiskStandsForHistory D.reads D.may_leave self.old →
            EachMoment D.moment D.left_since self.old.journal.disk self.new.journal.disk
            (ImageStandsForEither self.old.entries self.new.entries) }
    {
        let version = self.snapshot.store().versions();
        let History {
            journal,
            snapshot,
            keys,
            ..
        } = self;
        let Draft {
            commit,
            next,
            broken,
            body,
        } = draft;
        let Ok(()) = keys.follow(alloc, snapshot.store(), commit.get()) else {
            return Err(CommitFault::NoMemory);
        };
        if let Err(faults) = append(journal, &body) {
            *snapshot = broken;
            return Err(CommitFault::Device { version, faults });
        }
        *snapshot = next;
        Ok(version + 1)
    }

    /// Puts a snapshot in place that has the entries and one mark behind them. The journal stays as
    /// it is, since marks are not written. It takes no memory.
    pub fn take_mark(&mut self, marked: Snapshot)
        requires { (t v : ℕ) × (marked ≡ self.old.entries ++ mark_entry t v ∷ []) }
        ensures entries { self.new.entries ≡ marked }
        ensures settings { (self.new.limits ≡ self.old.limits)
            × (self.new.first_count ≡ self.old.first_count) }
        ensures journal { self.new.journal ≡ self.old.journal }
        ensures stands { DiskStandsForHistory D.reads D.may_leave self.old →
            DiskStandsForHistory D.reads D.may_leave self.new }
    {
        self.snapshot = marked;
    }

    /// The snapshot of the entries.
    pub fn snapshot(&self) -> &Snapshot
        ensures value { result.now ≡ self.now.entries }
        ensures count { IsCount
            (has_break self.now.entries) self.now.first_count (D.faults self.now.journal.disk) }
    {
        &self.snapshot
    }

    /// The store of the commits.
    pub fn store(&self) -> &Store
        ensures { result.now ≡ commits_of self.now.entries }
    {
        self.snapshot.store()
    }

    /// Whether the history ends with a break.
    pub fn has_break(&self) -> bool
        ensures value { result ≡ has_break self.now.entries }
        ensures legal { IsTrue (are_legal self.now.entries) }
    {
        self.snapshot.has_break()
    }

    /// Takes the history apart, for those who go on with its journal, its snapshot and its keys.
    /// While there is no break the keys stand for the tables that the commits make, and the journal
    /// is not broken. It takes no memory and makes no call of the disk.
    pub fn into_parts(self) -> Parts<D>
        ensures journal { result.journal ≡ self.journal }
        ensures snapshot { result.snapshot ≡ self.entries }
        ensures keys { has_break self.entries ≡ false →
            StandFor result.keys (database_of (commits_of self.entries)) }
        ensures unbroken { has_break self.entries ≡ false → result.journal.broken ≡ None }
        ensures within { AreWithin self.limits standard_limits }
        ensures count { IsCount
            (has_break self.entries) self.first_count (D.faults self.journal.disk) }
    {
        let History {
            journal,
            snapshot,
            keys,
            ..
        } = self;
        Parts {
            journal,
            snapshot,
            keys,
        }
    }

    /// Ends with the history: its snapshot and its disk. It takes no memory.
    pub fn close(self) -> Closed<D>
        ensures snapshot { result.snapshot ≡ self.entries }
        ensures disk { result.disk ≡ self.journal.disk }
        ensures whole { DiskStandsForHistory D.reads D.may_leave self →
            has_break self.entries ≡ false → DiskStandsFor D.reads D.may_leave result.disk
            (commits_of self.entries) self.journal.gate }
        ensures leaves { DiskStandsForHistory D.reads D.may_leave self → (image : List ℕ) →
            D.may_leave result.disk image → ImageStandsForEntries self.entries image }
        ensures reads { DiskStandsForHistory D.reads D.may_leave self → (image : List ℕ)
            × (D.reads result.disk ≡ Some image) × ImageStandsForEntries self.entries image }
        ensures count { IsCount
            (has_break self.entries) self.first_count (D.faults result.disk) }
    {
        let History {
            journal,
            snapshot,
            ..
        } = self;
        Closed {
            snapshot,
            disk: journal.into_disk(),
        }
    }
}
