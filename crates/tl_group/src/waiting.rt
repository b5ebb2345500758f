//! A journal and the commits that wait to be appended to it, without keys: with the snapshot of
//! both and the body with which they will be appended. No call but `finish` changes what the disk
//! reads as or what a crash leaves of it; where memory runs out in a call that takes it over, the
//! disk is handed back.
ghost use Rattle.std.specs.Prelude.{◌≡◌, [], ◌++◌, ℕ, List, length, map, false, None, IsTrue, IfOk, IfErr, IfSome, OnOk, OnErr};
ghost use Rattle.tl_types.specs.Entries.{commits_of, has_break};
ghost use Rattle.tl_types.specs.History.{database_of, fits};
ghost use Rattle.tl_types.specs.Legality.{FitFrom};
ghost use Rattle.tl_types.specs.Limits.{standard_limits};
ghost use Rattle.tl_device.specs.Known.{Rose};
ghost use Rattle.tl_batch.specs.Made.{AreWithin};
ghost use Rattle.tl_batch.specs.Standing.{StandFor};
ghost use Rattle.tl_index.specs.Snapshots.{commit_entry};
ghost use Rattle.tl_journal.specs.Image.{ImageStandsFor, NoneOrAll};
ghost use Rattle.tl_journal.specs.Moments.{EachMoment};
ghost use Rattle.tl_journal.specs.Stands.{DiskStandsFor};
ghost use Rattle.tl_history.specs.Committing.{TakesRoom};
ghost use Rattle.tl_group.specs.Keeping.{commits_in, journal_commits, waiting_commits, AreCommitsAlone};
ghost use Rattle.tl_group.specs.Standing.{DiskStandsForGroup, IsGivenBack, WaitsWith, WaitsWithAll, WaitsAsBefore};

use crate::bodies::GroupBody;
use crate::writing::append;
use std::alloc::Global;
use std::marker::Model;
use tl_batch::Keys;
use tl_device::Disk;
use tl_index::Snapshot;
use tl_journal::Journal;
use tl_record::encode_with_gate;
use tl_types::{Commit, Limits, NoMemory};

/// A journal, the snapshot of its commits and of those that wait to be appended behind them, and
/// the body with which these will be appended. Contracts see what they see of a group.
#[derive(Drop)]
pub struct Waiting<D: Disk> {
    journal: Journal<D>,
    snapshot: Snapshot,
    first: u32,
    body: GroupBody,
    limits: Limits,
}

impl<D: Disk> Model for Waiting<D> {
    ghost use Rattle.tl_group.specs.Plain as plain;
    ghost use Rattle.tl_group.specs.Keeping.{IsKept};

    ghost Value = { plain.Group D };

    ghost view = { λ w. record {
      journal = w.journal;
      entries = w.snapshot;
      first = w.first;
      limits = w.limits;
    } };

    ghost invariant = { λ w. IsKept w.body (record {
      journal = w.journal;
      entries = w.snapshot;
      first = w.first;
      limits = w.limits;
    }) };
}

/// What is left of a group that is finished.
#[derive(Drop)]
pub struct Finished<D> {
    /// The disk's count of faults, where the disk failed in the append.
    pub faults: Option<u64>,
    /// The disk that the journal was on, handed back.
    pub disk: D,
}

impl<D: Disk> Waiting<D> {
    /// A journal that is not broken, with the snapshot of its commits, and none that waits.
    pub(crate) fn over(
        alloc: Global,
        journal: Journal<D>,
        snapshot: Snapshot,
        limits: Limits,
    ) -> Waiting<D>
        requires unbroken { journal.broken ≡ None }
        requires within { AreWithin limits standard_limits }
        requires alone { AreCommitsAlone snapshot }
        requires whole { has_break snapshot ≡ false }
        ensures value { result ≡ record {
          journal = journal;
          entries = snapshot;
          first = length (commits_of snapshot);
          limits = limits;
        } }
        ensures journal { journal_commits result ≡ commits_of snapshot }
        ensures waiting { waiting_commits result ≡ [] }
    {
        let first = snapshot.store().versions();
        Waiting {
            journal,
            snapshot,
            first,
            body: GroupBody::empty(alloc),
            limits,
        }
    }

    /// Makes a commit that fits one more that waits, and lets the keys of the snapshot's tables
    /// follow it. The error is `NoMemory`, and leaves the commits as they are; the keys then stand
    /// for these.
    pub(crate) fn push(
        &mut self,
        alloc: Global,
        keys: &mut Keys,
        commit: &Commit,
    ) -> Result<(), NoMemory>
        requires stand { StandFor keys.old (database_of (commits_in self.old)) }
        requires fit { IsTrue (fits self.old.limits
            (database_of (commits_in self.old)) commit.now) }
        ensures keys { StandFor keys.new (database_of (commits_in self.new)) }
        ensures ok { OnOk result (WaitsWith commit.now self.old self.new) }
        ensures err { OnErr result (WaitsAsBefore self.old self.new) }
        ensures limits { self.new.limits ≡ self.old.limits }
        ensures journal { TakesRoom D.reads D.may_leave D.moment D.left_since D.faults
            self.old.journal self.new.journal }
        ensures back { (image : List ℕ) → D.may_leave self.old.journal.disk image →
            D.may_leave self.new.journal.disk image }
        ensures stands { DiskStandsForGroup D.reads D.may_leave self.old →
            DiskStandsForGroup D.reads D.may_leave self.new }
    {
        let Waiting {
            journal,
            snapshot,
            body,
            ..
        } = self;
        let next = snapshot.apply(alloc, commit)?;
        let spelled = encode_with_gate(alloc, commit)?;
        body.take_room(journal, spelled.as_slice())?;
        keys.follow(alloc, snapshot.store(), commit)?;
        body.put_record(spelled.as_slice());
        *snapshot = next;
        Ok(())
    }

    /// Makes a commit that fits one more that waits, and lets the keys of the snapshot's tables
    /// follow it; what of the snapshot nobody else has is not copied. The error is the disk, where
    /// memory ran out.
    pub(crate) fn follow(
        self,
        alloc: Global,
        keys: &mut Keys,
        commit: &Commit,
    ) -> Result<Waiting<D>, D>
        requires stand { StandFor keys.old (database_of (commits_in self)) }
        requires fit { IsTrue (fits self.limits (database_of (commits_in self)) commit.now) }
        ensures keys { IfOk result (λ next. StandFor keys.new (database_of (commits_in next))) }
        ensures ok { IfOk result (WaitsWith commit.now self) }
        ensures limits { IfOk result (λ next. next.limits ≡ self.limits) }
        ensures journal { IfOk result (λ next. TakesRoom D.reads D.may_leave D.moment D.left_since
            D.faults self.journal next.journal) }
        ensures stands { DiskStandsForGroup D.reads D.may_leave self →
            IfOk result (DiskStandsForGroup D.reads D.may_leave) }
        ensures err { IfErr result (IsGivenBack D.reads D.may_leave D.faults self) }
    {
        let Waiting {
            mut journal,
            snapshot,
            first,
            mut body,
            limits,
        } = self;
        let Ok(()) = keys.follow(alloc, snapshot.store(), commit) else {
            return Err(journal.into_disk());
        };
        let Ok(()) = body.put_commit(alloc, &mut journal, commit) else {
            return Err(journal.into_disk());
        };
        let Ok(snapshot) = snapshot.follow(alloc, commit) else {
            return Err(journal.into_disk());
        };
        Ok(Waiting {
            journal,
            snapshot,
            first,
            body,
            limits,
        })
    }

    /// Makes commits that fit one after the other wait behind the others; `next` is the snapshot
    /// with them, so no table is touched. No byte of the disk changes, nor what a crash leaves, nor
    /// its count of faults. The error is the disk, where memory ran out: what waited is dropped.
    pub fn extend(self, alloc: Global, commits: &[Commit], next: Snapshot) -> Result<Waiting<D>, D>
        requires next { next ≡ self.entries ++ map commit_entry commits.now }
        requires fit { FitFrom self.limits (database_of (commits_in self)) commits.now }
        ensures ok { IfOk result (WaitsWithAll commits.now self) }
        ensures limits { IfOk result (λ later. later.limits ≡ self.limits) }
        ensures journal { IfOk result (λ later. TakesRoom D.reads D.may_leave D.moment D.left_since
            D.faults self.journal later.journal) }
        ensures stands { DiskStandsForGroup D.reads D.may_leave self →
            IfOk result (DiskStandsForGroup D.reads D.may_leave) }
        ensures err { IfErr result (IsGivenBack D.reads D.may_leave D.faults self) }
    {
        let Waiting {
            mut journal,
            snapshot: _,
            first,
            mut body,
            limits,
        } = self;
        let Ok(()) = body.put_commits(alloc, &mut journal, commits) else {
            return Err(journal.into_disk());
        };
        Ok(Waiting {
            journal,
            snapshot: next,
            first,
            body,
            limits,
        })
    }

    /// The snapshot of the journal's commits and of those that wait, without a mark.
    pub fn snapshot(&self) -> &Snapshot
        ensures value { result.now ≡ self.now.entries }
        ensures alone { AreCommitsAlone result.now }
        ensures whole { has_break result.now ≡ false }
    {
        &self.snapshot
    }

    /// The limits by which commits fit.
    pub(crate) fn limits(&self) -> &Limits
        ensures value { result.now ≡ self.now.limits }
        ensures within { AreWithin self.now.limits standard_limits }
    {
        &self.limits
    }

    /// How many commits wait.
    pub fn waiting(&self) -> u32
        ensures { result ≡ length (waiting_commits self.now) }
    {
        self.snapshot.store().versions() - self.first
    }

    /// Appends all commits that wait as one group, and hands the disk back. It takes no memory.
    /// Where none waits it makes no call of the disk. At each moment of the call, and once it has
    /// ended, a crash leaves the journal of the commits before, or of these and all that waited;
    /// and where the disk did not fail, of all.
    ///
    /// `faults` is the disk's count of faults where the disk failed in this call, and `None` where
    /// it did not.
    pub fn finish(self) -> Finished<D>
        ensures nothing { waiting_commits self ≡ [] →
            (result.faults ≡ None) × (result.disk ≡ self.journal.disk) }
        ensures any_moment { DiskStandsForGroup D.reads D.may_leave self →
            EachMoment D.moment D.left_since self.journal.disk result.disk
            (NoneOrAll (journal_commits self) (waiting_commits self)) }
        ensures all { DiskStandsForGroup D.reads D.may_leave self → result.faults ≡ None →
            (image : List ℕ) → D.may_leave result.disk image →
            ImageStandsFor (commits_in self) image }
        ensures stands { DiskStandsForGroup D.reads D.may_leave self → result.faults ≡ None →
            (gate : ℕ) × DiskStandsFor D.reads D.may_leave result.disk (commits_in self) gate }
        ensures now { DiskStandsForGroup D.reads D.may_leave self →
            (image : List ℕ) → D.may_leave result.disk image →
            NoneOrAll (journal_commits self) (waiting_commits self) image }
        ensures reads { DiskStandsForGroup D.reads D.may_leave self → (image : List ℕ)
            × (D.reads result.disk ≡ Some image)
            × NoneOrAll (journal_commits self) (waiting_commits self) image }
        ensures sure { result.faults ≡ None → D.faults result.disk ≡ D.faults self.journal.disk }
        ensures device { IfSome result.faults (λ count. (count ≡ D.faults result.disk)
            × Rose (D.faults self.journal.disk) count) }
    {
        let Waiting {
            mut journal,
            body,
            ..
        } = self;
        if body.is_empty() {
            return Finished {
                faults: None,
                disk: journal.into_disk(),
            };
        }
        let body = body.into_bytes();
        let faults = append(&mut journal, &body);
        Finished {
            faults,
            disk: journal.into_disk(),
        }
    }

    /// The disk, as it is, without a call of it. What waits is dropped. It takes no memory.
    pub fn into_disk(self) -> D
        ensures { result ≡ self.journal.disk }
    {
        let Waiting { journal, .. } = self;
        journal.into_disk()
    }
}
