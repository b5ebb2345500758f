//! Phases: sessions are made of what they share, answer the jobs of a phase at once, and are taken
//! in again, so that pass and share have all that they saw and counted, also where memory ran out.
ghost use Rattle.std.specs.Prelude.{◌≡◌, ◌+◌, ◌<◌, All, List, false, length, map, IfOk, OnOk, OnErr};
ghost use mathlib.Core.List.{IsPrefix};
ghost use Rattle.tl_types.specs.Limits.{standard_limits};
ghost use Rattle.tl_jobs.specs.Jobs.{job_of};
ghost use Rattle.tl_session.specs.Phases.{Runs, AllFresh, AllSeenIn, HaveReplies, KeepAll, LosesReply, NoneRanOut, TakesLast, amounts_of, parts_of, replies_of};
ghost use Rattle.tl_session.specs.Tending.{WereTended};
ghost use Rattle.tl_jobs.specs.Turns.{Turn};
ghost use Rattle.tl_jobs.specs.Written.{jobs_of};

use crate::access::AccessParts;
use crate::runs::run_all;
use crate::sessions::Session;
use std::alloc::{AllocError, Global};
use std::marker::Model;
use std::sync::Wait;
use std::sync::ledger::Share;
use std::thread::Threads;
use tl_device::{Disk, Gate};
use tl_engine::{Engine, Named};
use tl_head::Pass;
use tl_index::Snapshot;
use tl_jobs::{LentJob, Pace, Reply};
use tl_types::NoMemory;

/// What the sessions of all phases share: a pass that has seen what each of them saw in the phases
/// before, the engine's share, which counts their commits and breaks, and the number of sessions.
#[derive(Drop)]
pub struct SharedAccess<J: Named> {
    pass: Pass<Snapshot>,
    share: Share<J>,
    count: u32,
}

impl<J: Named> Model for SharedAccess<J> {
    ghost use Rattle.std.specs.Prelude.{◌≡◌, ◌<◌};
    ghost use Rattle.tl_session.specs.Plain as plain;

    ghost Value = { plain.SharedAccess };

    ghost view = { λ c. record {
      table = c.pass.table;
      seen = c.pass.seen;
      parts = c.share.parts;
      amount = c.share.amount;
      count = c.count;
    } };

    ghost invariant = { λ c. (c.pass.table ≡ J.table) × (c.count < c.share.parts) };
}

impl<J: Named> SharedAccess<J> {
    /// What `count` sessions share, whose authors are 0 and so on: a pass of the engine's head, and
    /// a share of its ledger that has more parts than there are sessions.
    pub fn new(pass: Pass<Snapshot>, share: Share<J>, count: u32) -> SharedAccess<J>
        requires own { pass.table ≡ J.table }
        requires parts { count < share.parts }
        ensures table { result.table ≡ pass.table }
        ensures seen { result.seen ≡ pass.seen }
        ensures parts { result.parts ≡ share.parts }
        ensures amount { result.amount ≡ share.amount }
        ensures count { result.count ≡ count }
    {
        SharedAccess { pass, share, count }
    }

    /// `count` sessions share it from now on, fewer than its share has parts.
    pub fn set_count(&mut self, count: u32)
        requires parts { count < self.old.parts }
        ensures table { self.new.table ≡ self.old.table }
        ensures seen { self.new.seen ≡ self.old.seen }
        ensures parts { self.new.parts ≡ self.old.parts }
        ensures amount { self.new.amount ≡ self.old.amount }
        ensures count { self.new.count ≡ count }
    {
        self.count = count;
    }

    /// The pass and the share, with which the engine is closed.
    pub fn into_parts(self) -> AccessParts<J>
        ensures own { result.pass.table ≡ J.table }
        ensures seen { result.pass.seen ≡ self.seen }
        ensures parts { result.share.parts ≡ self.parts }
        ensures amount { result.share.amount ≡ self.amount }
    {
        let SharedAccess { pass, share, .. } = self;
        AccessParts { pass, share }
    }
}

// New sessions, whose authors are 0 and so on, each with a copy of the pass and one part of the
// share. Without memory there are none, and pass and share are as before.
fn sessions_of<D: Disk, J: Named>(
    alloc: Global,
    engine: &Engine<D, J>,
    pass: &mut Pass<Snapshot>,
    share: &mut Share<J>,
    count: u32,
) -> Result<Vec<Session<J>>, NoMemory>
    requires own { pass.old.table ≡ J.table }
    requires parts { count < share.old.parts }
    ensures pass { pass.new ≡ pass.old }
    ensures amount { share.new.amount ≡ share.old.amount }
    ensures fresh { IfOk result (λ v. AllFresh pass.old.seen v.items) }
    ensures count { IfOk result (λ v. length v.items ≡ count) }
    ensures parts { IfOk result (λ v. share.new.parts + parts_of v.items ≡ share.old.parts) }
    ensures err { OnErr result (share.new.parts ≡ share.old.parts) }
{
    let mut sessions = Vec::new(alloc);
    sessions.reserve(count as usize)?;
    for author in 0..count {
        let session = Session::new(
            alloc,
            author,
            pass.copy(&engine.head),
            share.split_off(1, 0),
        );
        sessions.push_reserved(session);
    }
    Ok(sessions)
}

// Takes the passes and the shares of sessions in. It takes no memory.
fn take_in<D: Disk, J: Named>(
    engine: &Engine<D, J>,
    pass: &mut Pass<Snapshot>,
    share: &mut Share<J>,
    mut sessions: Vec<Session<J>>,
)
    requires own { pass.old.table ≡ J.table }
    ensures own { pass.new.table ≡ pass.old.table }
    ensures later { IsPrefix pass.old.seen pass.new.seen }
    ensures seen { AllSeenIn pass.new.seen sessions.items }
    ensures parts { share.new.parts ≡ share.old.parts + parts_of sessions.items }
    ensures amount { share.new.amount ≡ share.old.amount + amounts_of sessions.items }
{
    while let Some(session) = sessions.pop() {
        let AccessParts {
            pass: theirs,
            share: counted,
        } = session.into_parts();
        pass.learn(&engine.head, theirs);
        share.merge(counted);
    }
}

// Whether memory ran out in one of the sessions.
#[tactic(auto, using(crate::proofs::SharedLemmas::none_more))]
fn has_run_out<J: Named>(sessions: &[Session<J>]) -> bool
    ensures { result ≡ false → NoneRanOut sessions.now }
{
    for session in sessions {
        if session.has_run_out() {
            return true;
        }
    }
    false
}

// Takes the last reply of a session out, where it has one.
fn take_reply<J: Named>(session: &mut Session<J>) -> Option<Reply>
    ensures { LosesReply session.old session.new result }
{
    session.replies.pop()
}

// Takes the last reply of the session at a place out, where it has one.
fn last_reply<J: Named>(sessions: &mut [Session<J>], place: u32) -> Option<Reply>
    ensures { TakesLast place sessions.old sessions.new result }
{
    if place as usize >= sessions.len() {
        return None;
    }
    take_reply(&mut sessions[place as usize])
}

// Hands the replies of all sessions out, in the order of the jobs that they answer. Without memory,
// or where one is missing, none is handed out.
fn replies_in_order<J: Named>(
    alloc: Global,
    sessions: &mut [Session<J>],
    jobs: &[LentJob],
) -> Result<Vec<Reply>, NoMemory>
    ensures kept { KeepAll sessions.old sessions.new }
    ensures told { (turns : List Turn) → jobs_of turns ≡ map job_of jobs.now →
        HaveReplies sessions.old turns → IfOk result (λ r. r.items ≡ replies_of turns) }
{
    let mut replies = Vec::new(alloc);
    let mut left = jobs.len();
    while left > 0 {
        left -= 1;
        let Some(reply) = last_reply(sessions, jobs[left].session) else {
            return Err(AllocError);
        };
        replies.push(reply)?;
    }
    replies.reverse();
    Ok(replies)
}

// Hands the replies out as above, unless memory ran out in one of the sessions.
fn hand_out<J: Named>(
    alloc: Global,
    sessions: &mut [Session<J>],
    jobs: &[LentJob],
) -> Result<Vec<Reply>, NoMemory>
    ensures kept { KeepAll sessions.old sessions.new }
    ensures whole { OnOk result (NoneRanOut sessions.old) }
    ensures told { (turns : List Turn) → jobs_of turns ≡ map job_of jobs.now →
        HaveReplies sessions.old turns → IfOk result (λ r. r.items ≡ replies_of turns) }
{
    if has_run_out(sessions) {
        return Err(AllocError);
    }
    replies_in_order(alloc, sessions, jobs)
}

/// Sessions answer the jobs of a phase at once, each its own ones in order, and the replies are
/// handed out in the order of the jobs; queries and marks go by the pace. Each session begins with
/// what the shared pass has seen; afterwards that pass has seen what each of them saw, and the
/// shared share counts their commits and breaks, also where memory ran out.
///
/// Behind each commit of rows its table was tended, by the pace's number of events.
///
/// The error is `NoMemory`: each session answered some of the first of its jobs.
pub fn run_phase<
    D: Disk + Send,
    J: Named + Send + Sync,
    G: Gate,
    R: AllocGlobal + Threads + Wait + Sync,
>(
    rt: &R,
    engine: &Engine<D, J>,
    shared: &mut SharedAccess<J>,
    jobs: &[LentJob],
    pace: &Pace,
    gate: &G,
) -> Result<Vec<Reply>, NoMemory>
    requires standard { J.limits ≡ standard_limits }
    requires sessions { All (λ job. job.session < shared.old.count) jobs.now }
    ensures runs { Runs (map job_of jobs.now) shared.old shared.new result }
    ensures tended { IfOk result
        (λ replies. WereTended pace.now.every shared.new.seen replies.items) }
{
    let alloc = rt.alloc();
    let SharedAccess { pass, share, count } = shared;
    let Ok(mut sessions) = sessions_of(alloc, engine, pass, share, *count) else {
        return Err(AllocError);
    };
    let (workers, k) = (pace.workers(), pace.every());
    run_all(rt, engine, &mut sessions, jobs, workers, k, gate);
    let replies = hand_out(alloc, sessions.as_mut_slice(), jobs);
    take_in(engine, pass, share, sessions);
    replies
}
