//! The commits of a journal, applied one by one to a snapshot and the keys while it is opened, each
//! with its mark where that is due.
ghost use Rattle.std.specs.Prelude.{◌≡◌, ◌<◌, ◌++◌, ◌∷◌, [], length, List, false, IsTrue, IfOk, Some};
ghost use Rattle.tl_types.specs.declared.commits.Entry.{Entry};
ghost use Rattle.tl_types.specs.Entries.{commits_of, has_break};
ghost use Rattle.tl_types.specs.History.{database_of, fits};
ghost use Rattle.tl_types.specs.Legality.{has_mark};
ghost use Rattle.tl_types.specs.Limits.{standard_limits};
ghost use Rattle.tl_types.specs.Marks.{paced_step, table_in, with_due};
ghost use Rattle.tl_batch.specs.Made.{AreWithin};
ghost use Rattle.tl_index.specs.Snapshots.{mark_entry};
ghost use Rattle.tl_history.specs.Replaying.{IsApplied, IsPaced};

use crate::building::build_checkpoint;
use std::alloc::Global;
use std::marker::Model;
use tl_batch::Keys;
use tl_index::Snapshot;
use tl_replay::Applies;
use tl_store::Store;
use tl_types::{Body, Commit, Limits, NoMemory};

/// A snapshot of commits and marks, and the keys of the tables that the commits make. Contracts see
/// the entries.
#[derive(Drop)]
pub(crate) struct Replay {
    pub(crate) snapshot: Snapshot,
    pub(crate) keys: Keys,
}

impl Model for Replay {
    ghost use Rattle.std.specs.Prelude.{List};
    ghost use Rattle.tl_types.specs.declared.commits.Entry.{Entry};
    ghost use Rattle.tl_history.specs.Replaying.{IsReplay};

    ghost Value = { List Entry };

    ghost view = { λ r. r.snapshot };

    ghost invariant = { λ r. IsReplay r.snapshot r.keys };
}

// The number of the table that a commit makes, changes or sets the floor of. A moment has none.
fn table_in(store: &Store, commit: &Commit) -> Option<u16>
    ensures { (entries : List Entry) → commits_of entries ≡ store.now →
        result ≡ table_in entries commit.now.body }
{
    match &commit.body {
        Body::Create(_) => Some(store.tables()),
        Body::Change(change) => Some(change.table()),
        Body::Moment { .. } => None,
        Body::Forget { table, .. } => Some(*table),
    }
}

// The snapshot with a mark of a table at its version. The error is `NoMemory`.
fn with_mark(alloc: Global, snapshot: &Snapshot, table: u16) -> Result<Snapshot, NoMemory>
    requires whole { has_break snapshot.now ≡ false }
    requires table { table < length (database_of (commits_of snapshot.now)).tables }
    requires fresh { has_mark snapshot.now table (length (commits_of snapshot.now)) ≡ false }
    ensures { IfOk result (λ s.
        s ≡ snapshot.now ++ mark_entry table (length (commits_of snapshot.now)) ∷ []) }
{
    let checkpoint = build_checkpoint(alloc, snapshot, table)?;
    snapshot.mark(alloc, checkpoint)
}

// The snapshot, and behind it a mark of a table at its version where that is due. The error is
// `NoMemory`.
fn with_due(alloc: Global, next: Snapshot, table: u16, k: u32) -> Result<Snapshot, NoMemory>
    requires whole { has_break next ≡ false }
    requires table { table < length (database_of (commits_of next)).tables }
    ensures { IfOk result (λ s. s ≡ with_due k (Some table) next) }
{
    let is_due = next.due(table, k);
    if !is_due {
        return Ok(next);
    }
    with_mark(alloc, &next, table)
}

// The snapshot after a commit that fits, with the mark of its table, if it has one, where that is
// due. The error is `NoMemory`.
fn stepped(alloc: Global, snapshot: Snapshot, commit: &Commit, k: u32) -> Result<Snapshot, NoMemory>
    requires whole { has_break snapshot ≡ false }
    requires fit { IsTrue (fits standard_limits (database_of (commits_of snapshot)) commit.now) }
    ensures { IfOk result (λ s. s ≡ paced_step k snapshot commit.now) }
{
    let number = table_in(snapshot.store(), commit);
    let next = snapshot.follow(alloc, commit)?;
    let Some(table) = number else {
        return Ok(next);
    };
    with_due(alloc, next, table, k)
}

impl Replay {
    /// No commits. The error is `NoMemory`.
    pub(crate) fn new(alloc: Global) -> Result<Replay, NoMemory>
        ensures { IfOk result (λ r. r ≡ []) }
    {
        Ok(Replay {
            snapshot: Snapshot::empty(alloc)?,
            keys: Keys::empty(alloc),
        })
    }

    // Appends a commit that fits, and its mark where that is due. The error is `NoMemory`.
    fn push(self, alloc: Global, commit: &Commit, k: u32) -> Result<Replay, NoMemory>
        requires { IsTrue (fits standard_limits (database_of (commits_of self)) commit.now) }
        ensures { IfOk result (λ r. r ≡ paced_step k self commit.now) }
    {
        let Replay { snapshot, mut keys } = self;
        keys.follow(alloc, snapshot.store(), commit)?;
        let snapshot = stepped(alloc, snapshot, commit, k)?;
        Ok(Replay { snapshot, keys })
    }

    // Appends a commit, with its mark where that is due, if it fits with the limits, and answers
    // whether it does. The error is `NoMemory`.
    fn push_fitting(
        self,
        alloc: Global,
        commit: &Commit,
        limits: &Limits,
        k: u32,
    ) -> Result<(Replay, bool), NoMemory>
        requires { AreWithin limits.now standard_limits }
        ensures { IfOk result (λ r. IsApplied limits.now k self r.0 commit.now r.1) }
    {
        if !self.snapshot.store().fits(commit, limits) {
            return Ok((self, false));
        }
        let replay = self.push(alloc, commit, k)?;
        Ok((replay, true))
    }
}

/// A replay at a pace: behind a commit comes the mark of its table, where this has `k` events or
/// more after its last mark, and none where `k` is 0.
#[derive(Drop)]
pub(crate) struct PacedReplay {
    pub(crate) replay: Replay,
    pub(crate) k: u32,
}

impl Applies for PacedReplay {
    ghost can_apply = { λ limits. AreWithin limits standard_limits };

    ghost makes = { λ first commits last. IsPaced first.k commits last.replay last.k };

    fn apply(
        self,
        alloc: Global,
        commit: &Commit,
        _spelled: &[u8],
        limits: &Limits,
    ) -> Result<(PacedReplay, bool), NoMemory> {
        let PacedReplay { replay, k } = self;
        let (replay, fits) = replay.push_fitting(alloc, commit, limits, k)?;
        Ok((PacedReplay { replay, k }, fits))
    }
}
