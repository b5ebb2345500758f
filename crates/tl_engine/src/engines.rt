//! The engine: threads read from its head, each by a pass of its own, and commit or mark under its
//! lock. What each call says, it says of the entries that its pass had seen and then has seen.
ghost use Rattle.std.specs.Prelude.{◌≡◌, ◌≢◌, ◌+◌, ◌<◌, ℕ, length, List, Some, true, false, IsTrue, IfOk, Err};
ghost use mathlib.Core.List.{IsPrefix};
ghost use Rattle.tl_types.specs.Entries.{commits_of, has_break};
ghost use Rattle.tl_types.specs.History.{database_of};
ghost use Rattle.tl_batch.specs.Made.{batch_matches, names_table};
ghost use Rattle.tl_types.specs.Legality.{are_legal};
ghost use Rattle.tl_journal.specs.Stands.{DiskStandsFor};
ghost use Rattle.tl_history.specs.Building.{IsCheckpoint};
ghost use Rattle.tl_history.specs.Standing.{IsCount, ImageStandsForEntries};
ghost use Rattle.tl_history.specs.declared.faults.CommitFault.TheVariants as commit_fault;
ghost use Rattle.tl_engine.specs.Counting.{news};
ghost use Rattle.tl_engine.specs.Naming.{WereWritten};
ghost use Rattle.tl_engine.specs.Saying.{CommitSays, becomes};
ghost use Rattle.tl_engine.specs.Tending.{MarkSays, TendSays};

use crate::committer::{Committer, Offer, Publisher};
use crate::faults::{TendFault, Tended};
use crate::locks::CommitLock;
use crate::names::Named;
use std::alloc::Global;
use std::sync::Wait;
use std::sync::ledger::Share;
use tl_ckpt::Checkpoint;
use tl_device::Disk;
use tl_head::{Head, Pass};
use tl_history::{Closed, CommitFault, build_checkpoint};
use tl_index::Snapshot;
use tl_types::{Batch, NoMemory, Published};

/// One history for many threads: a head, from which they read, and behind a lock what commits.
/// It is not let go but by `close`, which hands the disk back.
pub struct Engine<D: Disk, J: Named> {
    /// The head, by which passes are copied and taken in.
    pub head: Head<Snapshot>,
    lock: CommitLock<D, J>,
    pub ghost named: { head ≡ J.table },
}

/// An engine, with its first pass and the share that has all parts.
pub struct Started<D: Disk, J: Named> {
    /// The engine, over what is written on its head.
    pub engine: Engine<D, J>,
    /// A pass that has seen the entries at the opening.
    pub pass: Pass<Snapshot>,
    /// The share, which counts nothing yet.
    pub share: Share<J>,
}

impl<D: Disk, J: Named> Engine<D, J> {
    // The engine of this head, which is the named one.
    pub(crate) fn new(head: Head<Snapshot>, lock: CommitLock<D, J>) -> Engine<D, J>
        requires { head ≡ J.table }
    {
        Engine { head, lock }
    }

    /// A snapshot of what the pass has then seen; what it had seen is a prefix of that. It takes a
    /// turn, and has no share with which it could take the lock. The error is `NoMemory`, and the
    /// latter holds after it too.
    pub fn read<R: Wait>(&self, rt: &R, pass: &mut Pass<Snapshot>) -> Result<Snapshot, NoMemory>
        requires own { pass.old.table ≡ J.table }
        ensures own { pass.new.table ≡ J.table }
        ensures value { IfOk result (λ snapshot. snapshot ≡ pass.new.seen) }
        ensures later { IsPrefix pass.old.seen pass.new.seen }
    {
        self.head.read(rt, pass)
    }

    /// Commits a batch of an author over all that is written, and answers the version that it
    /// makes: the number of the commits with it. It takes the lock. In every answer but `NoMemory`
    /// the pass has then seen all that was written while the call had the lock, and a disk that
    /// told its contents at the opening stood for just that; what it has seen is legal.
    ///
    /// Rows that the batch puts match the schema of the table that it names, which is among those
    /// of what the pass has seen. The faults are tried in this order. `Broken`: there is a break.
    /// `Refused`: the batch becomes no commit over the tables, by this fault. `NoMemory`: memory
    /// ran out, and nothing was written. These leave the share as it is. `Device`: the disk failed
    /// in this call; the break of the commit is then the last entry, and the share counts it, as it
    /// counts a commit.
    pub fn commit<R: AllocGlobal + Wait>(
        &self,
        rt: &R,
        pass: &mut Pass<Snapshot>,
        share: &mut Share<J>,
        author: u32,
        batch: Batch,
    ) -> Result<u32, CommitFault>
        requires own { pass.old.table ≡ J.table }
        requires part { 0 < share.old.parts }
        requires known { IsTrue (names_table (database_of (commits_of pass.old.seen)) batch) }
        requires matching { IsTrue
            (batch_matches (database_of (commits_of pass.old.seen)) batch) }
        ensures own { pass.new.table ≡ J.table }
        ensures legal { IsTrue (are_legal pass.new.seen) }
        ensures written { result ≢ Err commit_fault.NoMemory → WereWritten D.reads D.may_leave
            J.told J.first_entries J.first_count J.limits pass.new.seen }
        ensures parts { share.new.parts ≡ share.old.parts }
        ensures says { CommitSays (becomes J.limits author batch) J.first_count
            pass.old.seen pass.new.seen share.old.amount share.new.amount result }
    {
        let mut committer = self.lock.for_commit(rt, share);
        let offer = Offer { author, batch };
        committer.commit(rt, &self.head, pass, share, offer)
    }

    /// Reads a snapshot and, where a mark of a table is due in it by `k`, builds the checkpoint of
    /// the table at its version without any lock, and publishes the mark under the lock. A mark is
    /// due where the table has `k` events or more after its last mark, and none is where `k` is 0.
    /// The table is among those of what the pass has seen. No share counts a mark.
    ///
    /// The answer names the number of the commits and of the entries that were read. `NotDue`: no
    /// mark is due there, and the pass has seen just that. `Built`: the mark is the last entry
    /// that the pass has seen. `Had`: the mark is there already. The faults are `Broken`, there is
    /// a break once the lock is taken, which is tried before `Had`; and `NoMemory`, memory ran out
    /// and nothing was published.
    pub fn tend<R: AllocGlobal + Wait>(
        &self,
        rt: &R,
        pass: &mut Pass<Snapshot>,
        table: u16,
        k: u32,
    ) -> Result<Tended, TendFault>
        requires own { pass.old.table ≡ J.table }
        requires known { table < length (database_of (commits_of pass.old.seen)).tables }
        ensures own { pass.new.table ≡ J.table }
        ensures says { TendSays table k pass.old.seen pass.new.seen result }
    {
        let Ok(snapshot) = self.head.read(rt, pass) else {
            return Err(TendFault::NoMemory);
        };
        let is_due = snapshot.due(table, k);
        if !is_due {
            return Ok(Tended::NotDue);
        }
        let Ok(checkpoint) = build_checkpoint(rt.alloc(), &snapshot, table) else {
            return Err(TendFault::NoMemory);
        };
        self.publish_mark(rt, pass, checkpoint, snapshot.len())
    }

    /// Publishes the mark of a checkpoint that is right over what the pass has seen, as `tend` does
    /// once it has built one. `read` is how many entries were read for it, and is named in the
    /// answer, as the version of the checkpoint is. It takes the lock. In every answer but
    /// `NoMemory` the pass has then seen all that is written; the answers are those of `tend`, but
    /// for `NotDue`.
    pub fn publish_mark<R: AllocGlobal + Wait>(
        &self,
        rt: &R,
        pass: &mut Pass<Snapshot>,
        checkpoint: Checkpoint,
        read: u32,
    ) -> Result<Tended, TendFault>
        requires own { pass.old.table ≡ J.table }
        requires checkpoint { IsCheckpoint pass.old.seen checkpoint }
        ensures own { pass.new.table ≡ J.table }
        ensures legal { IsTrue (are_legal pass.new.seen) }
        ensures says { MarkSays checkpoint.table checkpoint.version read
            pass.old.seen pass.new.seen result }
    {
        let mut committer = self.lock.for_mark(rt, &checkpoint);
        committer.mark(rt, &self.head, pass, checkpoint, read)
    }

    /// Ends with the engine: a snapshot of all that is written, and the disk. The share that has
    /// all parts counts the commits and the breaks since the opening. It takes no memory.
    pub fn close<R: Wait>(self, rt: &R, pass: Pass<Snapshot>, mut share: Share<J>) -> Closed<D>
        requires own { pass.table ≡ J.table }
        requires whole { share.parts ≡ 65536 }
        ensures seen { IsPrefix pass.seen result.snapshot }
        ensures first_entries { IsPrefix J.first_entries result.snapshot }
        ensures counted { news J.first_entries + share.amount ≡ news result.snapshot }
        ensures legal { IsTrue (are_legal result.snapshot) }
        ensures whole { J.told ≡ true → has_break result.snapshot ≡ false →
            (gate : ℕ) × DiskStandsFor D.reads D.may_leave result.disk
            (commits_of result.snapshot) gate }
        ensures leaves { J.told ≡ true → (image : List ℕ) →
            D.may_leave result.disk image → ImageStandsForEntries result.snapshot image }
        ensures reads { J.told ≡ true → (image : List ℕ)
            × (D.reads result.disk ≡ Some image) × ImageStandsForEntries result.snapshot image }
        ensures count { IsCount (has_break result.snapshot) J.first_count (D.faults result.disk) }
    {
        let Engine { head, lock } = self;
        let Committer { history, publisher } = lock.into_committer();
        let Publisher { writer, mut book } = publisher;
        book.audit(&mut share);
        drop(head.close(rt, writer, pass));
        let closed = history.close();
        let _legal = closed.snapshot.has_break(); // says that the entries are legal
        closed
    }
}
