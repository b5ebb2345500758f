//! The steps of a commit: what the batch becomes, all memory, and the append. Why a batch is
//! refused, and want of memory, come before the first byte is written.
ghost use Rattle.std.specs.Prelude.{◌≡◌, ◌≤◌, ◌++◌, ◌∷◌, [], ℕ, List, length, None, Ok, Some, false, IsTrue, IfOk, IfErr, OnOk};
ghost use Rattle.tl_types.specs.declared.commits.Commit.{Commit as CommitValue};
ghost use Rattle.tl_types.specs.Entries.{commits_of, has_break};
ghost use Rattle.tl_types.specs.History.{database_of, fits};
ghost use Rattle.tl_types.specs.Limits.{standard_limits};
ghost use Rattle.tl_types.specs.Resolving.{resolved};
ghost use Rattle.tl_batch.specs.Made.{AreWithin, batch_matches};
ghost use Rattle.tl_batch.specs.Standing.{StandFor, StandStill};
ghost use Rattle.tl_journal.specs.Image.{BeforeOrAfter, IsBodyOf};
ghost use Rattle.tl_journal.specs.Moments.{EachMoment};
ghost use Rattle.tl_journal.specs.Stands.{JournalStandsFor};
ghost use Rattle.tl_history.specs.Committing.{IsRefusal, TakesRoom, HasFailed};
ghost use Rattle.tl_history.specs.Writing.{IsDraft};

use crate::faults::CommitFault;
use std::alloc::Global;
use tl_batch::Keys;
use tl_device::Disk;
use tl_index::Snapshot;
use tl_journal::{AppendFault, Journal};
use tl_record::encode_with_gate;
use tl_shared::{Shareable, Shared};
use tl_types::{Batch, BatchFault, Bytes, Commit, Limits, NoMemory};

/// What a batch of an author becomes over the commits of a snapshot, or why it becomes none. The
/// keys stand for the same commits then.
pub(crate) fn resolve(
    alloc: Global,
    snapshot: &Snapshot,
    keys: &mut Keys,
    author: u32,
    batch: Batch,
    limits: &Limits,
) -> Result<Commit, CommitFault>
    requires stands { StandFor keys.old (database_of (commits_of snapshot.now)) }
    requires matching { IsTrue (batch_matches (database_of (commits_of snapshot.now)) batch) }
    requires within { AreWithin limits.now standard_limits }
    ensures ok { IfOk result (λ c.
        resolved limits.now (database_of (commits_of snapshot.now)) author batch ≡ Ok c) }
    ensures fit { IfOk result (λ c.
        IsTrue (fits standard_limits (database_of (commits_of snapshot.now)) c)) }
    ensures err { IfErr result
        (IsRefusal limits.now (commits_of snapshot.now) author batch) }
    ensures same { StandStill keys.old keys.new (database_of (commits_of snapshot.now)) }
{
    let store = snapshot.store();
    let version = store.versions();
    match keys.resolve_owned(alloc, store, batch, author, limits) {
        Ok(commit) => Ok(commit),
        Err(BatchFault::NoMemory) => Err(CommitFault::NoMemory),
        Err(fault) => Err(CommitFault::Refused { version, fault }),
    }
}

/// A commit that is ready: all that it needs but its keys, made before its first byte is written.
#[derive(Drop)]
pub struct Draft {
    /// The commit, which the break shares.
    pub commit: Shared<Commit>,
    /// The snapshot with the commit.
    pub next: Snapshot,
    /// The snapshot with the break of the commit.
    pub broken: Snapshot,
    /// The record of the commit and a closed gate.
    pub body: Bytes,
}

// The record of a commit with a closed gate, for which the journal takes room.
fn body_for<D: Disk>(
    alloc: Global,
    journal: &mut Journal<D>,
    commit: &Commit,
) -> Result<Bytes, NoMemory>
    ensures body { IfOk result (IsBodyOf commit.now) }
    ensures room { IfOk result (λ body. length body ≤ journal.new.spare) }
    ensures journal { TakesRoom D.reads D.may_leave D.moment D.left_since D.faults
        journal.old journal.new }
{
    let body = encode_with_gate(alloc, commit)?;
    journal.reserve(body.len() as u64)?;
    Ok(body)
}

/// Takes the memory for a commit that fits: for the store, the break, the record and the disk's
/// room. The error is `NoMemory`.
pub(crate) fn draft_of<D: Disk>(
    alloc: Global,
    snapshot: &Snapshot,
    journal: &mut Journal<D>,
    commit: Commit,
) -> Result<Draft, NoMemory>
    requires whole { has_break snapshot.now ≡ false }
    requires fit { IsTrue (fits standard_limits (database_of (commits_of snapshot.now)) commit) }
    ensures draft { IfOk result (IsDraft snapshot.now journal.new.spare) }
    ensures commit { IfOk result (λ draft. draft.commit ≡ commit) }
    ensures journal { TakesRoom D.reads D.may_leave D.moment D.left_since D.faults
        journal.old journal.new }
{
    let next = snapshot.apply(alloc, &commit)?;
    let commit = Shared::new(alloc, commit)?;
    let broken = snapshot.broken(alloc, commit.share(alloc)?)?;
    let body = body_for(alloc, journal, commit.get())?;
    Ok(Draft {
        commit,
        next,
        broken,
        body,
    })
}

/// Appends a record for which there is room to a journal that is not broken. The error is the
/// disk's count of faults, which rose.
pub(crate) fn append<D: Disk>(journal: &mut Journal<D>, body: &Bytes) -> Result<(), u64>
    requires body { (c : CommitValue) × IsBodyOf c body.now }
    requires fits { length body.now ≤ journal.old.spare }
    requires whole { journal.old.broken ≡ None }
    ensures stored { (cs : List CommitValue) (c : CommitValue) →
        JournalStandsFor D.reads D.may_leave journal.old cs → IsBodyOf c body.now →
        OnOk result (JournalStandsFor D.reads D.may_leave journal.new (cs ++ c ∷ [])) }
    ensures any_moment { (cs : List CommitValue) (c : CommitValue) →
        JournalStandsFor D.reads D.may_leave journal.old cs → IsBodyOf c body.now →
        EachMoment D.moment D.left_since journal.old.disk journal.new.disk (BeforeOrAfter cs c) }
    ensures now { (cs : List CommitValue) (c : CommitValue) →
        JournalStandsFor D.reads D.may_leave journal.old cs → IsBodyOf c body.now →
        (image : List ℕ) → D.may_leave journal.new.disk image → BeforeOrAfter cs c image }
    ensures reads { (cs : List CommitValue) (c : CommitValue) →
        JournalStandsFor D.reads D.may_leave journal.old cs → IsBodyOf c body.now →
        (image : List ℕ) × (D.reads journal.new.disk ≡ Some image) × BeforeOrAfter cs c image }
    ensures ok { OnOk result ((journal.new.broken ≡ None)
        × (D.faults journal.new.disk ≡ D.faults journal.old.disk)) }
    ensures err { IfErr result
        (HasFailed (D.faults journal.old.disk) (D.faults journal.new.disk)) }
{
    match journal.append(body) {
        Ok(()) => Ok(()),
        Err(AppendFault::Device { faults }) => Err(faults),
        Err(AppendFault::Broken { faults }) => Err(faults),
    }
}
