//! A history that is opened to become an engine's: `attach` reads the journal and hands the disk
//! back where it refuses; `start` gives the engine its name, once, with the first pass and the
//! share that has all parts.
ghost use Rattle.std.specs.Prelude.{◌≡◌, ◌<◌, true, IfOk, IfErr};
ghost use Rattle.tl_types.specs.Limits.{standard_limits};
ghost use Rattle.tl_batch.specs.Made.{AreWithin};
ghost use Rattle.tl_journal.specs.declared.faults.JournalFault.TheVariants as journal_fault;
ghost use Rattle.tl_history.specs.Answers.{disk_opened, Opens};
ghost use Rattle.tl_history.specs.Standing.{DiskStandsForHistory};
ghost use Rattle.tl_engine.specs.Naming.{history_attached, IsNameOf};

use crate::committer::{Committer, Publisher};
use crate::engines::{Engine, Started};
use crate::locks::CommitLock;
use crate::names::Named;
use std::alloc::Global;
use std::marker::{Brand, Model};
use std::sync::ledger::Blank;
use tl_device::Disk;
use tl_head::{Head, NewHead, WriterPass};
use tl_history::{Closed, History};
use tl_index::Snapshot;
use tl_journal::{JournalFault, Refused};
use tl_types::{Limits, NoMemory, Published};

/// A history that is opened, with a head on which its entries are written and the blank of a
/// ledger of 65,536 parts. It has no name yet. Contracts see the history, the table of the head,
/// and the ledger's name and parts.
pub struct Opening<D: Disk> {
    history: History<D>,
    head: Head<Snapshot>,
    writer: WriterPass<Snapshot>,
    blank: Blank,
}

impl<D: Disk> Model for Opening<D> {
    ghost use Rattle.std.specs.Prelude.{◌≡◌};
    ghost use Rattle.tl_engine.specs.Plain as plain;

    ghost Value = { plain.Opening D };

    ghost view = { λ o. record {
      history = o.history;
      table = o.head;
      ledger = o.blank.name;
      parts = o.blank.parts;
    } };

    ghost invariant = { λ o. (o.writer.table ≡ o.head)
        × (o.writer.written ≡ o.history.entries) × (o.blank.parts ≡ 65536) };
}

// The opening of a history, whose entries are written on this head.
fn opening_of<D: Disk>(history: History<D>, new: NewHead<Snapshot>) -> Opening<D>
    requires own { new.writer.table ≡ new.head }
    requires written { new.writer.written ≡ history.entries }
    ensures history { result.history ≡ history }
    ensures parts { result.parts ≡ 65536 }
{
    let NewHead { head, writer } = new;
    let blank = Blank::new(65536);
    Opening {
        history,
        head,
        writer,
        blank,
    }
}

// A head on which the entries of a snapshot are written.
fn head_of(alloc: Global, snapshot: &Snapshot) -> Result<NewHead<Snapshot>, NoMemory>
    ensures own { IfOk result (λ n. n.writer.table ≡ n.head) }
    ensures written { IfOk result (λ n. n.writer.written ≡ snapshot.now) }
{
    Head::new(alloc, snapshot.share()?)
}

// The disk of a history for which there was no memory.
fn refused<D: Disk>(history: History<D>) -> Refused<D>
    ensures disk { result.disk ≡ history.journal.disk }
    ensures fault { result.fault ≡ journal_fault.NoMemory }
{
    let Closed { snapshot: _, disk } = history.close();
    Refused {
        fault: JournalFault::NoMemory,
        disk,
    }
}

// The opening of a history, or its disk.
fn opening_over<D: Disk>(alloc: Global, history: History<D>) -> Result<Opening<D>, Refused<D>>
    ensures history { IfOk result (λ o. o.history ≡ history) }
    ensures parts { IfOk result (λ o. o.parts ≡ 65536) }
    ensures disk { disk_opened (history_attached result) ≡ history.journal.disk }
    ensures fault { IfErr result (λ r. r.fault ≡ journal_fault.NoMemory) }
{
    match head_of(alloc, history.snapshot()) {
        Ok(new) => Ok(opening_of(history, new)),
        Err(_) => Err(refused(history)),
    }
}

impl<D: Disk> Engine<D, Brand> {
    /// Opens the history whose journal is on a disk, as `History::open` does, and makes the head
    /// on which its entries are written: the commits, each with the mark of its table where that
    /// has `k` events or more after its last mark, and none where `k` is 0. Every refusal hands the
    /// disk back.
    ///
    /// `NotInitialised`: the disk has fewer than 17 bytes. `Damaged`: its bytes are no journal, and
    /// `at` is the offset where they are damaged; or they are one, and `at` is the offset of the
    /// first gate whose commit does not fit those before it with the limits. Both leave the disk as
    /// it reads, and after `Damaged` that is durable. `Device`: the disk failed in this call.
    /// `NoMemory`: memory ran out; the disk stays as it is, or what it then reads as is durable.
    /// After both a journal stands for the same commits. A journal whose commits fit one after the
    /// other, with these limits or smaller ones, meets no other refusal.
    pub fn attach(alloc: Global, disk: D, limits: &Limits, k: u32) -> Result<Opening<D>, Refused<D>>
        requires { AreWithin limits.now standard_limits }
        ensures opens { Opens D.reads D.may_leave D.moment D.left_since D.faults limits.now k disk
            (history_attached result) }
        ensures parts { IfOk result (λ o. o.parts ≡ 65536) }
    {
        match History::open(alloc, disk, limits, k) {
            Ok(history) => opening_over(alloc, history),
            Err(refused) => Err(refused),
        }
    }
}

impl<D: Disk> Opening<D> {
    /// Starts the engine of this name, with a pass that has seen the opening's entries and the
    /// share that has all parts and counts nothing. It takes no memory.
    pub fn start<J: Named>(self) -> Started<D, J>
        requires names { IsNameOf J.table J.first_entries J.first_count J.limits self }
        requires ledger { (self.ledger ≡ J.name) × (self.parts ≡ J.parts) }
        requires told { J.told ≡ true → DiskStandsForHistory D.reads D.may_leave self.history }
        ensures pass { (result.pass.table ≡ J.table) × (result.pass.seen ≡ J.first_entries) }
        ensures share { (result.share.parts ≡ 65536) × (result.share.amount ≡ 0) }
    {
        let Opening {
            history,
            head,
            mut writer,
            blank,
        } = self;
        let pass = writer.reader(&head);
        let (book, share) = blank.open::<J>();
        let publisher = Publisher { writer, book };
        let lock = CommitLock::new(Committer { history, publisher });
        Started {
            engine: Engine::new(head, lock),
            pass,
            share,
        }
    }
}
