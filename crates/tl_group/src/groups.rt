//! The group: a journal and the commits that wait to be appended to it, with the snapshot and the
//! keys of both. The snapshot has the journal's commits and then those that wait, and no mark; the
//! keys stand for its tables. No call but `finish` changes what the disk reads as or what a crash
//! leaves of it; no batch or commit is taken that has no room in memory and on the disk.
ghost use Rattle.std.specs.Prelude.{◌≡◌, ◌⊎◌, [], ℕ, List, length, false, None, Some, Ok, Err, IsTrue, IfOk, IfErr, IfSome, OnOk, OnErr};
ghost use Rattle.tl_types.specs.declared.batches.BatchFault.TheVariants as fault;
ghost use Rattle.tl_types.specs.declared.commits.Commit.{Commit as CommitValue};
ghost use Rattle.tl_types.specs.Entries.{commits_of, has_break};
ghost use Rattle.tl_types.specs.History.{database_of, fits};
ghost use Rattle.tl_types.specs.Limits.{standard_limits};
ghost use Rattle.tl_types.specs.Resolving.{resolved};
ghost use Rattle.tl_device.specs.Known.{Rose};
ghost use Rattle.tl_batch.specs.Made.{AreWithin, batch_matches};
ghost use Rattle.tl_batch.specs.Standing.{StandFor};
ghost use Rattle.tl_journal.specs.Image.{ImageStandsFor, NoneOrAll};
ghost use Rattle.tl_journal.specs.Moments.{EachMoment};
ghost use Rattle.tl_journal.specs.Stands.{DiskStandsFor};
ghost use Rattle.tl_history.specs.Answers.{Opens};
ghost use Rattle.tl_history.specs.Committing.{TakesRoom};
ghost use Rattle.tl_group.specs.Attaching.{as_history};
ghost use Rattle.tl_group.specs.Keeping.{commits_in, journal_commits, waiting_commits, AreCommitsAlone};
ghost use Rattle.tl_group.specs.Standing.{DiskStandsForGroup, IsGivenBack, WaitsWith, WaitsAsBefore};

use crate::attaching::group_of;
use crate::waiting::{Finished, Waiting};
use std::alloc::Global;
use std::marker::Model;
use tl_batch::Keys;
use tl_device::Disk;
use tl_history::History;
use tl_index::Snapshot;
use tl_journal::{Journal, Refused};
use tl_types::{Batch, BatchFault, Commit, Limits, NoMemory};

/// A journal with the commits that wait to be appended to it, and the keys of the tables that all
/// of them make. Contracts see the journal, the entries of the snapshot, how many commits the
/// journal has, and the limits.
#[derive(Drop)]
pub struct Group<D: Disk> {
    keys: Keys,
    waiting: Waiting<D>,
}

impl<D: Disk> Model for Group<D> {
    ghost use Rattle.tl_types.specs.Entries.{commits_of};
    ghost use Rattle.tl_types.specs.History.{database_of};
    ghost use Rattle.tl_batch.specs.Standing.{StandFor};
    ghost use Rattle.tl_group.specs.Plain as plain;

    ghost Value = { plain.Group D };

    ghost view = { λ g. g.waiting };

    ghost invariant = { λ g. StandFor g.keys (database_of (commits_of g.waiting.entries)) };
}

impl<D: Disk> Group<D> {
    /// Opens the group of the journal on a disk, with no commit waiting: as `History::open` opens
    /// a history, but with no mark, so its snapshot has the journal's commits alone. What stands
    /// past the journal's closed gate is cut off. Every refusal hands the disk back.
    ///
    /// `NotInitialised`: the disk has fewer than 17 bytes. `Damaged`: its bytes are no journal, and
    /// `at` is the offset where they are damaged; or they are one, and `at` is the offset of the
    /// first gate whose commit does not fit those before it with the limits. Both leave the disk as
    /// it reads, and after `Damaged` that is durable. `Device`: the disk failed in this call.
    /// `NoMemory`: memory ran out; the disk stays as it is, or what it then reads as is durable.
    /// After both a journal stands for the same commits.
    pub fn attach(alloc: Global, disk: D, limits: &Limits) -> Result<Group<D>, Refused<D>>
        requires { AreWithin limits.now standard_limits }
        ensures opens { Opens D.reads D.may_leave D.moment D.left_since D.faults limits.now 0 disk
            (as_history D.faults result) }
        ensures limits { IfOk result (λ group. group.limits ≡ limits.now) }
        ensures alone { IfOk result (λ group. AreCommitsAlone group.entries) }
        ensures none_waits { IfOk result (λ group. waiting_commits group ≡ []) }
        ensures stands { (bytes : List ℕ) → D.reads disk ≡ Some bytes →
            IfOk result (DiskStandsForGroup D.reads D.may_leave) }
    {
        match History::open(alloc, disk, limits, 0) {
            Ok(history) => Ok(group_of(alloc, history, *limits)),
            Err(refused) => Err(refused),
        }
    }

    // The group of a journal that is not broken, of its commits, with none that waits.
    pub(crate) fn over(
        alloc: Global,
        journal: Journal<D>,
        snapshot: Snapshot,
        keys: Keys,
        limits: Limits,
    ) -> Group<D>
        requires unbroken { journal.broken ≡ None }
        requires within { AreWithin limits standard_limits }
        requires alone { AreCommitsAlone snapshot }
        requires whole { has_break snapshot ≡ false }
        requires stands { StandFor keys (database_of (commits_of snapshot)) }
        ensures value { result ≡ record {
          journal = journal;
          entries = snapshot;
          first = length (commits_of snapshot);
          limits = limits;
        } }
        ensures journal { journal_commits result ≡ commits_of snapshot }
        ensures waiting { waiting_commits result ≡ [] }
    {
        let waiting = Waiting::over(alloc, journal, snapshot, limits);
        Group { keys, waiting }
    }

    /// The commit that a batch of an author becomes over the tables that the snapshot's commits
    /// make, under the limits that `attach` was given. It fits these tables. The batch's rows match
    /// the schema of the table that it names, where there is one. What contracts see of the group
    /// stays as it is; the keys of the table whose rows the batch puts, removes or syncs are made
    /// where they are not.
    ///
    /// The faults are those of a batch that becomes no commit over these tables, and `NoMemory`:
    /// memory ran out.
    pub fn resolve(
        &mut self,
        alloc: Global,
        batch: &Batch,
        author: u32,
    ) -> Result<Commit, BatchFault>
        requires { IsTrue (batch_matches (database_of (commits_in self.old)) batch.now) }
        ensures ok { IfOk result (λ commit. resolved self.old.limits
            (database_of (commits_in self.old)) author batch.now ≡ Ok commit) }
        ensures fit { IfOk result (λ commit. IsTrue (fits self.old.limits
            (database_of (commits_in self.old)) commit)) }
        ensures err { IfErr result (λ e. (e ≡ fault.NoMemory)
            ⊎ (resolved self.old.limits (database_of (commits_in self.old)) author batch.now
            ≡ Err e)) }
        ensures same { self.new ≡ self.old }
    {
        let Group { keys, waiting } = self;
        let store = waiting.snapshot().store();
        keys.resolve(alloc, store, batch, author, waiting.limits())
    }

    /// As `resolve`, of a batch that is handed over: a commit of rows takes the rows over and makes
    /// no copies of them.
    pub fn resolve_owned(
        &mut self,
        alloc: Global,
        batch: Batch,
        author: u32,
    ) -> Result<Commit, BatchFault>
        requires { IsTrue (batch_matches (database_of (commits_in self.old)) batch) }
        ensures ok { IfOk result (λ commit. resolved self.old.limits
            (database_of (commits_in self.old)) author batch ≡ Ok commit) }
        ensures fit { IfOk result (λ commit. IsTrue (fits self.old.limits
            (database_of (commits_in self.old)) commit)) }
        ensures err { IfErr result (λ e. (e ≡ fault.NoMemory)
            ⊎ (resolved self.old.limits (database_of (commits_in self.old)) author batch
            ≡ Err e)) }
        ensures same { self.new ≡ self.old }
    {
        let Group { keys, waiting } = self;
        let store = waiting.snapshot().store();
        keys.resolve_owned(alloc, store, batch, author, waiting.limits())
    }

    /// Makes a batch of an author one commit more that waits, and answers its version: the number
    /// of the snapshot's commits with it, of which it is the last. The batch is resolved over the
    /// tables that the snapshot's commits make, under the limits that `attach` was given; its rows
    /// match the schema of the table that it names, where there is one. No byte of the disk
    /// changes, nor what a crash leaves, nor its count of faults.
    ///
    /// The faults are those of a batch that becomes no commit over these tables, and `NoMemory`:
    /// memory ran out. Each leaves the commits as they are.
    pub fn add(&mut self, alloc: Global, batch: &Batch, author: u32) -> Result<u32, BatchFault>
        requires { IsTrue (batch_matches (database_of (commits_in self.old)) batch.now) }
        ensures ok { IfOk result (λ version. (commit : CommitValue)
            × (resolved self.old.limits (database_of (commits_in self.old)) author batch.now
            ≡ Ok commit)
            × WaitsWith commit self.old self.new
            × (version ≡ length (commits_in self.new))) }
        ensures err { IfErr result (λ e. (e ≡ fault.NoMemory)
            ⊎ (resolved self.old.limits (database_of (commits_in self.old)) author batch.now
            ≡ Err e)) }
        ensures kept { OnErr result (WaitsAsBefore self.old self.new) }
        ensures limits { self.new.limits ≡ self.old.limits }
        ensures journal { TakesRoom D.reads D.may_leave D.moment D.left_since D.faults
            self.old.journal self.new.journal }
        ensures back { (image : List ℕ) → D.may_leave self.old.journal.disk image →
            D.may_leave self.new.journal.disk image }
        ensures stands { DiskStandsForGroup D.reads D.may_leave self.old →
            DiskStandsForGroup D.reads D.may_leave self.new }
    {
        let commit = self.resolve(alloc, batch, author)?;
        let Ok(()) = self.push(alloc, &commit) else {
            return Err(BatchFault::NoMemory);
        };
        Ok(self.snapshot().store().versions())
    }

    /// Makes a commit that fits the tables of the snapshot's commits, under the limits that
    /// `attach` was given, one more that waits. No byte of the disk changes, nor what a crash
    /// leaves, nor its count of faults. The error is `NoMemory`, and leaves the commits as they
    /// are.
    pub fn push(&mut self, alloc: Global, commit: &Commit) -> Result<(), NoMemory>
        requires { IsTrue (fits self.old.limits (database_of (commits_in self.old)) commit.now) }
        ensures ok { OnOk result (WaitsWith commit.now self.old self.new) }
        ensures err { OnErr result (WaitsAsBefore self.old self.new) }
        ensures limits { self.new.limits ≡ self.old.limits }
        ensures journal { TakesRoom D.reads D.may_leave D.moment D.left_since D.faults
            self.old.journal self.new.journal }
        ensures back { (image : List ℕ) → D.may_leave self.old.journal.disk image →
            D.may_leave self.new.journal.disk image }
        ensures stands { DiskStandsForGroup D.reads D.may_leave self.old →
            DiskStandsForGroup D.reads D.may_leave self.new }
    {
        let Group { keys, waiting } = self;
        waiting.push(alloc, keys, commit)?;
        Ok(())
    }

    /// Makes a commit that fits the tables of the snapshot's commits, under the limits that
    /// `attach` was given, one more that waits, as `push`, but takes the group over: what of its
    /// snapshot nobody else has is not copied. No byte of the disk changes, nor what a crash
    /// leaves, nor its count of faults. The error is the disk, where memory ran out: what waited is
    /// dropped.
    pub fn follow(self, alloc: Global, commit: &Commit) -> Result<Group<D>, D>
        requires { IsTrue (fits self.limits (database_of (commits_in self)) commit.now) }
        ensures ok { IfOk result (WaitsWith commit.now self) }
        ensures limits { IfOk result (λ group. group.limits ≡ self.limits) }
        ensures journal { IfOk result (λ group. TakesRoom D.reads D.may_leave D.moment D.left_since
            D.faults self.journal group.journal) }
        ensures stands { DiskStandsForGroup D.reads D.may_leave self →
            IfOk result (DiskStandsForGroup D.reads D.may_leave) }
        ensures err { IfErr result (IsGivenBack D.reads D.may_leave D.faults self) }
    {
        let Group { mut keys, waiting } = self;
        match waiting.follow(alloc, &mut keys, commit) {
            Ok(waiting) => Ok(Group { keys, waiting }),
            Err(disk) => Err(disk),
        }
    }

    /// The journal with the commits that wait, without the keys: for those who put no batch more.
    pub fn without_keys(self) -> Waiting<D>
        ensures { result ≡ self }
    {
        let Group { waiting, .. } = self;
        waiting
    }

    /// The snapshot of the journal's commits and of those that wait, without a mark.
    pub fn snapshot(&self) -> &Snapshot
        ensures value { result.now ≡ self.now.entries }
        ensures alone { AreCommitsAlone result.now }
        ensures whole { has_break result.now ≡ false }
    {
        self.waiting.snapshot()
    }

    /// How many commits wait.
    pub fn waiting(&self) -> u32
        ensures { result ≡ length (waiting_commits self.now) }
    {
        self.waiting.waiting()
    }

    /// Appends all commits that wait as one group, and hands the disk back. It takes no memory.
    /// Where none waits it makes no call of the disk. At each moment of the call, and once it has
    /// ended, a crash leaves the journal of the commits before, or of these and all that waited;
    /// and where the disk did not fail, of all.
    ///
    /// `faults` is the disk's count of faults where the disk failed in this call, and `None` where
    /// it did not.
    pub fn finish(self) -> Finished<D>
        ensures nothing { waiting_commits self ≡ [] →
            (result.faults ≡ None) × (result.disk ≡ self.journal.disk) }
        ensures any_moment { DiskStandsForGroup D.reads D.may_leave self →
            EachMoment D.moment D.left_since self.journal.disk result.disk
            (NoneOrAll (journal_commits self) (waiting_commits self)) }
        ensures all { DiskStandsForGroup D.reads D.may_leave self → result.faults ≡ None →
            (image : List ℕ) → D.may_leave result.disk image →
            ImageStandsFor (commits_in self) image }
        ensures stands { DiskStandsForGroup D.reads D.may_leave self → result.faults ≡ None →
            (gate : ℕ) × DiskStandsFor D.reads D.may_leave result.disk (commits_in self) gate }
        ensures now { DiskStandsForGroup D.reads D.may_leave self →
            (image : List ℕ) → D.may_leave result.disk image →
            NoneOrAll (journal_commits self) (waiting_commits self) image }
        ensures reads { DiskStandsForGroup D.reads D.may_leave self → (image : List ℕ)
            × (D.reads result.disk ≡ Some image)
            × NoneOrAll (journal_commits self) (waiting_commits self) image }
        ensures sure { result.faults ≡ None → D.faults result.disk ≡ D.faults self.journal.disk }
        ensures device { IfSome result.faults (λ count. (count ≡ D.faults result.disk)
            × Rose (D.faults self.journal.disk) count) }
    {
        self.without_keys().finish()
    }

    /// The disk, as it is, without a call of it. What waits is dropped. It takes no memory.
    pub fn into_disk(self) -> D
        ensures { result ≡ self.journal.disk }
    {
        self.without_keys().into_disk()
    }
}
