//! The lock of an engine, by what takes it: a commit, which has a share of the engine's ledger, and
//! the mark of a checkpoint. A read has neither, and so cannot take it.

use crate::committer::Committer;
use crate::names::Named;
use std::sync::ledger::Share;
use std::sync::{Mutex, MutexGuard, Wait};
use tl_ckpt::Checkpoint;
use tl_device::Disk;

/// The lock round what commits. It is held for one commit or one mark.
pub(crate) struct CommitLock<D: Disk, J: Named> {
    committer: Mutex<Committer<D, J>>,
}

impl<D: Disk, J: Named> CommitLock<D, J> {
    /// The lock round a committer.
    pub fn new(committer: Committer<D, J>) -> CommitLock<D, J> {
        CommitLock {
            committer: Mutex::new(committer),
        }
    }

    /// The committer, locked, for who has a share in which the commit is counted.
    pub fn for_commit<R: Wait>(
        &self,
        rt: &R,
        _share: &Share<J>,
    ) -> MutexGuard<'_, Committer<D, J>> {
        self.committer.lock(rt)
    }

    /// The committer, locked, for who has a checkpoint that is to be marked.
    pub fn for_mark<R: Wait>(
        &self,
        rt: &R,
        _checkpoint: &Checkpoint,
    ) -> MutexGuard<'_, Committer<D, J>> {
        self.committer.lock(rt)
    }

    /// The committer, once the engine ends.
    pub fn into_committer(self) -> Committer<D, J> {
        let CommitLock { committer } = self;
        committer.into_inner()
    }
}
