//! What a session has of an engine. Only here its head is read, a batch committed and a table
//! tended, so that a job takes one look at the head: the look uses up what the gate gave for the
//! job. What is read where a table is tended is handed to nobody.
ghost use Rattle.std.specs.Prelude.{◌≡◌, ◌<◌, IfOk, IsTrue, length};
ghost use Rattle.tl_types.specs.Entries.{commits_of};
ghost use Rattle.tl_types.specs.History.{database_of};
ghost use Rattle.tl_batch.specs.Made.{batch_matches, names_table};
ghost use Rattle.tl_engine.specs.Saying.{CommitSays, becomes};
ghost use Rattle.tl_engine.specs.Tending.{TendSays};
ghost use Rattle.tl_session.specs.Statements.{IsSame, SeesMore};

use std::marker::Model;
use std::sync::Wait;
use std::sync::ledger::Share;
use tl_device::{Disk, Gate, Place};
use tl_engine::{CommitFault, Engine, Named, TendFault, Tended};
use tl_head::Pass;
use tl_index::Snapshot;
use tl_types::{Batch, NoMemory};

/// A pass and a share, with which an engine is closed, or further sessions are made.
pub struct AccessParts<J: Named> {
    /// The pass of the engine's head, with what was seen by it.
    pub pass: Pass<Snapshot>,
    /// The share of the engine's ledger, with what it counts.
    pub share: Share<J>,
}

/// What a session gets at the gate for one job: it may look at the engine's head once.
#[derive(Drop)]
pub(crate) struct Admission {
    author: u32,
}

impl Admission {
    /// The gate lets the session whose batches have this author pass.
    pub(crate) fn at<G: Gate>(gate: &G, author: u32) -> Admission
        ensures { result.author ≡ author }
    {
        gate.pass(Place::Statement(author));
        Admission { author }
    }
}

/// What a session has of an engine: the author of its batches, a pass over the engine's head and a
/// share of its ledger. Contracts see the entries that the pass has seen and what the share counts.
#[derive(Drop)]
pub(crate) struct Access<J: Named> {
    author: u32,
    pass: Pass<Snapshot>,
    share: Share<J>,
}

impl<J: Named> Model for Access<J> {
    ghost use Rattle.std.specs.Prelude.{◌≡◌, ◌<◌};
    ghost use Rattle.tl_session.specs.Plain as plain;

    ghost Value = { plain.Access };

    ghost view = { λ a. record {
      author = a.author;
      table = a.pass.table;
      seen = a.pass.seen;
      parts = a.share.parts;
      amount = a.share.amount;
    } };

    ghost invariant = { λ a. (a.pass.table ≡ J.table) × (0 < a.share.parts) };
}

impl<J: Named> Access<J> {
    /// The access of a session whose batches have this author, by a pass of the engine's head and a
    /// share that has a part of its ledger.
    pub(crate) fn new(author: u32, pass: Pass<Snapshot>, share: Share<J>) -> Access<J>
        requires own { pass.table ≡ J.table }
        requires part { 0 < share.parts }
        ensures { result ≡ record {
          author = author;
          table = pass.table;
          seen = pass.seen;
          parts = share.parts;
          amount = share.amount;
        } }
    {
        Access {
            author,
            pass,
            share,
        }
    }

    /// The author of the session's batches.
    pub(crate) fn author(&self) -> u32
        ensures { result ≡ self.now.author }
    {
        self.author
    }

    /// A snapshot of what the session then has seen. The error is `NoMemory`.
    pub(crate) fn look<D: Disk, R: Wait>(
        &mut self,
        rt: &R,
        engine: &Engine<D, J>,
        admission: Admission,
    ) -> Result<Snapshot, NoMemory>
        requires own { admission.author ≡ self.old.author }
        ensures sees { SeesMore self.old self.new }
        ensures value { IfOk result (λ snapshot. snapshot ≡ self.new.seen) }
    {
        drop(admission);
        engine.read(rt, &mut self.pass)
    }

    /// Commits a batch by the session's author, as `Engine::commit` does.
    pub(crate) fn commit<D: Disk, R: AllocGlobal + Wait>(
        &mut self,
        rt: &R,
        engine: &Engine<D, J>,
        batch: Batch,
    ) -> Result<u32, CommitFault>
        requires known { IsTrue (names_table (database_of (commits_of self.old.seen)) batch) }
        requires matching { IsTrue (batch_matches (database_of (commits_of self.old.seen)) batch) }
        ensures same { IsSame self.old self.new }
        ensures says { CommitSays (becomes J.limits self.old.author batch) J.first_count
            self.old.seen self.new.seen self.old.amount self.new.amount result }
    {
        let (pass, share) = (&mut self.pass, &mut self.share);
        engine.commit(rt, pass, share, self.author, batch)
    }

    /// Tends a table, as `Engine::tend` does.
    #[tactic(auto, using(crate::proofs::TendingLemmas::tend_later))]
    pub(crate) fn tend<D: Disk, R: AllocGlobal + Wait>(
        &mut self,
        rt: &R,
        engine: &Engine<D, J>,
        table: u16,
        k: u32,
    ) -> Result<Tended, TendFault>
        requires known { table < length (database_of (commits_of self.old.seen)).tables }
        ensures sees { SeesMore self.old self.new }
        ensures says { TendSays table k self.old.seen self.new.seen result }
    {
        engine.tend(rt, &mut self.pass, table, k)
    }

    /// The pass and the share.
    pub(crate) fn into_parts(self) -> AccessParts<J>
        ensures own { result.pass.table ≡ self.table }
        ensures seen { result.pass.seen ≡ self.seen }
        ensures parts { result.share.parts ≡ self.parts }
        ensures amount { result.share.amount ≡ self.amount }
    {
        let Access { pass, share, .. } = self;
        AccessParts { pass, share }
    }
}
