//! What lies behind the lock of an engine: the history, the pass that writes the head, and the
//! book. A commit or a mark is in the history, on the head and, where it counts, in the book, or in
//! none of them; whoever comes is first shown all that is written.
ghost use Rattle.std.specs.Prelude.{◌≡◌, ◌≢◌, ◌+◌, ◌<◌, ◌≤◌, ◌++◌, ◌∷◌, [], false, length, IsTrue, IfOk, Err};
ghost use mathlib.Core.List.{IsPrefix};
ghost use Rattle.tl_types.specs.declared.commits.Entry.{Entry};
ghost use Rattle.tl_types.specs.Checkpoints.{checkpoint_at};
ghost use Rattle.tl_types.specs.Entries.{commits_of, has_break};
ghost use Rattle.tl_types.specs.History.{database_of};
ghost use Rattle.tl_types.specs.Legality.{are_legal, has_mark};
ghost use Rattle.tl_batch.specs.Made.{batch_matches, names_table};
ghost use Rattle.tl_index.specs.Snapshots.{mark_entry};
ghost use Rattle.tl_history.specs.Building.{IsCheckpoint};
ghost use Rattle.tl_history.specs.declared.faults.CommitFault.TheVariants as commit_fault;
ghost use Rattle.tl_engine.specs.Calls.{MarkTakesEffect, TakesEffect};
ghost use Rattle.tl_engine.specs.Naming.{WereWritten};
ghost use Rattle.tl_engine.specs.Saying.{CommitSays, becomes, shown_at, shown_by};
ghost use Rattle.tl_engine.specs.Tending.{MarkSays};

use crate::faults::{TendFault, Tended};
use crate::names::Named;
use std::alloc::Global;
use std::marker::Model;
use std::mem;
use std::sync::Wait;
use std::sync::ledger::{Book, Share};
use tl_ckpt::Checkpoint;
use tl_device::Disk;
use tl_head::{Head, Pass, WriterPass};
use tl_history::{CommitFault, Draft, History};
use tl_index::Snapshot;
use tl_types::{Batch, NoMemory, Published};

/// The pass with which entries are published, and the book in which they are counted.
#[derive(Drop)]
pub(crate) struct Publisher<J: Named> {
    /// The one pass that writes the head.
    pub writer: WriterPass<Snapshot>,
    /// The book of the commits and breaks since the opening.
    pub book: Book<J>,
}

impl<J: Named> Publisher<J> {
    // Lets a pass of the head see all that is written.
    fn show(&mut self, head: &Head<Snapshot>, pass: &mut Pass<Snapshot>)
        requires own { (self.old.writer.table ≡ head.now) × (pass.old.table ≡ head.now) }
        ensures same { self.new ≡ self.old }
        ensures own { pass.new.table ≡ head.now }
        ensures seen { pass.new.seen ≡ self.old.writer.written }
        ensures begins { IsPrefix pass.old.seen self.old.writer.written }
    {
        let old = mem::replace(pass, self.writer.reader(head));
        self.writer.meet(head, old);
    }

    // Publishes a snapshot with one entry more, and lets the pass see it.
    fn publish_uncounted<R: Wait>(
        &mut self,
        rt: &R,
        head: &Head<Snapshot>,
        pass: &mut Pass<Snapshot>,
        next: Snapshot,
    )
        requires own { (self.old.writer.table ≡ head.now) × (pass.old.table ≡ head.now) }
        requires one_more { (e : Entry) × (next ≡ self.old.writer.written ++ e ∷ []) }
        ensures own { (self.new.writer.table ≡ head.now) × (pass.new.table ≡ head.now) }
        ensures written { (self.new.writer.written ≡ next) × (pass.new.seen ≡ next) }
        ensures book { self.new.book ≡ self.old.book }
    {
        drop(head.publish(rt, &mut self.writer, next));
        self.show(head, pass);
    }

    // Publishes a snapshot with one commit or break more, counts it, and lets the pass see it.
    fn publish<R: Wait>(
        &mut self,
        rt: &R,
        head: &Head<Snapshot>,
        pass: &mut Pass<Snapshot>,
        share: &mut Share<J>,
        next: Snapshot,
    )
        requires own { (self.old.writer.table ≡ head.now) × (pass.old.table ≡ head.now) }
        requires one_more { (e : Entry) × (next ≡ self.old.writer.written ++ e ∷ []) }
        requires part { 0 < share.old.parts }
        ensures own { (self.new.writer.table ≡ head.now) × (pass.new.table ≡ head.now) }
        ensures written { (self.new.writer.written ≡ next) × (pass.new.seen ≡ next) }
        ensures counted { (self.new.book.total ≡ self.old.book.total + 1)
            × (share.new.amount ≡ share.old.amount + 1) }
        ensures parts { share.new.parts ≡ share.old.parts }
    {
        self.publish_uncounted(rt, head, pass, next);
        self.book.add(share, 1);
    }
}

/// The history that commits, with what publishes it. Contracts see the entries that are written.
///
/// The history has just these entries; they begin with those at the opening, and the book counts
/// the commits and the breaks past them. Count and limits are the named ones. Where the disk told
/// its contents at the opening, it stands for the history.
#[derive(Drop)]
pub(crate) struct Committer<D: Disk, J: Named> {
    /// The history, which has the entries that are written.
    pub history: History<D>,
    /// What publishes and counts them.
    pub publisher: Publisher<J>,
}

impl<D: Disk, J: Named> Model for Committer<D, J> {
    ghost use Rattle.std.specs.Prelude.{◌≡◌, List, true};
    ghost use Rattle.tl_types.specs.declared.commits.Entry.{Entry};
    ghost use Rattle.tl_engine.specs.Naming.{IsCommitting};
    ghost use Rattle.tl_history.specs.Standing.{DiskStandsForHistory};

    ghost Value = { List Entry };

    ghost view = { λ c. c.publisher.writer.written };

    ghost invariant = { λ c. (c.publisher.writer.table ≡ J.table) × (J.parts ≡ 65536)
        × IsCommitting J.first_entries J.first_count J.limits
        c.publisher.writer.written c.publisher.book.total c.history
        × (J.told ≡ true → DiskStandsForHistory D.reads D.may_leave c.history) };
}

/// The snapshots of which one is published, made before the first byte is written.
struct Copies {
    next: Snapshot,
    broken: Snapshot,
}

// Further snapshots of what is ready.
fn copies_of(draft: &Draft) -> Result<Copies, NoMemory>
    ensures { IfOk result (λ c. (c.next ≡ draft.now.next) × (c.broken ≡ draft.now.broken)) }
{
    let next = draft.next.share()?;
    let broken = draft.broken.share()?;
    Ok(Copies { next, broken })
}

// The snapshot with the break, where the disk failed.
fn shown_at(fault: CommitFault, broken: Snapshot) -> Option<Snapshot>
    ensures { result ≡ shown_at fault broken }
{
    match fault {
        CommitFault::Broken { .. } => None,
        CommitFault::Refused { .. } => None,
        CommitFault::NoMemory => None,
        CommitFault::Device { .. } => Some(broken),
    }
}

impl Copies {
    // The one that is published where the commit is answered so.
    fn shown_by(self, answer: &Result<u32, CommitFault>) -> Option<Snapshot>
        ensures { result ≡ shown_by answer.now self.next self.broken }
    {
        let Copies { next, broken } = self;
        match answer {
            Ok(_) => Some(next),
            Err(fault) => shown_at(*fault, broken),
        }
    }
}

// The snapshots with a mark: one is kept, and one is published.
struct MarkedCopies {
    kept: Snapshot,
    shown: Snapshot,
}

// The snapshots with the mark of a checkpoint. The error is `NoMemory`.
fn marked_copies(
    alloc: Global,
    snapshot: &Snapshot,
    checkpoint: Checkpoint,
) -> Result<MarkedCopies, NoMemory>
    requires whole { has_break snapshot.now ≡ false }
    requires table { checkpoint.table < length (database_of (commits_of snapshot.now)).tables }
    requires version { checkpoint.version ≤ (database_of (commits_of snapshot.now)).version }
    requires fresh { has_mark snapshot.now checkpoint.table checkpoint.version ≡ false }
    requires checkpoint { checkpoint ≡ checkpoint_at (database_of (commits_of snapshot.now))
        checkpoint.table checkpoint.version }
    ensures kept { IfOk result (λ c.
        c.kept ≡ snapshot.now ++ mark_entry checkpoint.table checkpoint.version ∷ []) }
    ensures shown { IfOk result (λ c. c.shown ≡ c.kept) }
{
    let kept = snapshot.mark(alloc, checkpoint)?;
    let shown = kept.share()?;
    Ok(MarkedCopies { kept, shown })
}

/// What an author wants to commit.
#[derive(Drop)]
pub(crate) struct Offer {
    /// The author: the number of a session, which the commit keeps.
    pub author: u32,
    /// The batch, not resolved yet.
    pub batch: Batch,
}

impl<D: Disk, J: Named> Committer<D, J> {
    /// Commits, publishes and counts, as `Engine::commit` says.
    pub fn commit<R: AllocGlobal + Wait>(
        &mut self,
        rt: &R,
        head: &Head<Snapshot>,
        pass: &mut Pass<Snapshot>,
        share: &mut Share<J>,
        offer: Offer,
    ) -> Result<u32, CommitFault>
        requires own { (head.now ≡ J.table) × (pass.old.table ≡ J.table) }
        requires part { 0 < share.old.parts }
        requires known { IsTrue
            (names_table (database_of (commits_of pass.old.seen)) offer.batch) }
        requires matching { IsTrue
            (batch_matches (database_of (commits_of pass.old.seen)) offer.batch) }
        ensures own { pass.new.table ≡ J.table }
        ensures written { pass.new.seen ≡ self.new }
        ensures were { result ≢ Err commit_fault.NoMemory → WereWritten D.reads D.may_leave J.told
            J.first_entries J.first_count J.limits pass.new.seen }
        ensures effect { TakesEffect (becomes J.limits offer.author offer.batch) J.first_count
            self.old self.new pass.old.seen pass.new.seen result }
        ensures legal { IsTrue (are_legal pass.new.seen) }
        ensures parts { share.new.parts ≡ share.old.parts }
        ensures says { CommitSays (becomes J.limits offer.author offer.batch) J.first_count
            pass.old.seen pass.new.seen share.old.amount share.new.amount result }
    {
        let alloc = rt.alloc();
        let Committer { history, publisher } = self;
        publisher.show(head, pass);
        let _legal = history.has_break(); // says that the entries are legal
        let Offer { author, batch } = offer;
        let draft = history.draft(alloc, author, batch)?;
        let Ok(copies) = copies_of(&draft) else {
            return Err(CommitFault::NoMemory);
        };
        let answer = history.write(alloc, draft);
        let Some(shown) = copies.shown_by(&answer) else {
            return answer;
        };
        let _legal = shown.has_break(); // says that the entries are legal
        publisher.publish(rt, head, pass, share, shown);
        answer
    }

    /// Publishes the mark of a checkpoint that was built of so many entries, as
    /// `Engine::publish_mark` says.
    pub fn mark<R: AllocGlobal + Wait>(
        &mut self,
        rt: &R,
        head: &Head<Snapshot>,
        pass: &mut Pass<Snapshot>,
        checkpoint: Checkpoint,
        read: u32,
    ) -> Result<Tended, TendFault>
        requires own { (head.now ≡ J.table) × (pass.old.table ≡ J.table) }
        requires checkpoint { IsCheckpoint pass.old.seen checkpoint }
        ensures own { pass.new.table ≡ J.table }
        ensures written { pass.new.seen ≡ self.new }
        ensures effect { MarkTakesEffect checkpoint.table checkpoint.version read
            self.old self.new pass.old.seen pass.new.seen result }
        ensures legal { IsTrue (are_legal pass.new.seen) }
        ensures says { MarkSays checkpoint.table checkpoint.version read
            pass.old.seen pass.new.seen result }
    {
        let table = checkpoint.table();
        let version = checkpoint.version();
        let Committer { history, publisher } = self;
        publisher.show(head, pass);
        if history.has_break() {
            return Err(TendFault::Broken { version, read });
        }
        if history.snapshot().has_mark(table, version) {
            return Ok(Tended::Had { version, read });
        }
        let Ok(copies) = marked_copies(rt.alloc(), history.snapshot(), checkpoint) else {
            return Err(TendFault::NoMemory);
        };
        let MarkedCopies { kept, shown } = copies;
        let _legal = shown.has_break(); // says that the entries are legal
        history.take_mark(kept);
        publisher.publish_uncounted(rt, head, pass, shown);
        Ok(Tended::Built { version, read })
    }
}
