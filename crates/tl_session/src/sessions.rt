//! A session: its access to the engine and its replies so far. It has one reply for each commit and
//! each break of its own; where memory ran out it says so.
ghost use Rattle.std.specs.Prelude.{◌≡◌, ◌<◌, [], false};

use crate::access::{Access, AccessParts};
use std::alloc::Global;
use std::marker::Model;
use std::sync::ledger::Share;
use tl_engine::Named;
use tl_head::Pass;
use tl_index::Snapshot;
use tl_jobs::Reply;

/// A session of a phase: its access to the engine, its replies in the order of their jobs, and
/// whether memory ran out before its last job.
#[derive(Drop)]
pub struct Session<J: Named> {
    pub(crate) access: Access<J>,
    pub(crate) replies: Vec<Reply>,
    pub(crate) ran_out: bool,
}

impl<J: Named> Model for Session<J> {
    ghost use Rattle.tl_session.specs.Plain as plain;

    ghost Value = { plain.Session };

    ghost view = { λ s. record {
      access = s.access;
      replies = s.replies.items;
      ran_out = s.ran_out;
    } };
}

impl<J: Named> Session<J> {
    /// A session that has answered no job. Its batches have this author; `pass` is of the engine's
    /// head, and `share` has a part of its ledger.
    pub fn new(alloc: Global, author: u32, pass: Pass<Snapshot>, share: Share<J>) -> Session<J>
        requires own { pass.table ≡ J.table }
        requires part { 0 < share.parts }
        ensures author { result.access.author ≡ author }
        ensures table { result.access.table ≡ pass.table }
        ensures seen { result.access.seen ≡ pass.seen }
        ensures parts { result.access.parts ≡ share.parts }
        ensures amount { result.access.amount ≡ share.amount }
        ensures replies { result.replies ≡ [] }
        ensures whole { result.ran_out ≡ false }
    {
        Session {
            access: Access::new(author, pass, share),
            replies: Vec::new(alloc),
            ran_out: false,
        }
    }

    /// The replies so far, in the order of their jobs.
    pub fn replies(&self) -> &[Reply]
        ensures { result.now ≡ self.now.replies }
    {
        self.replies.as_slice()
    }

    /// Whether memory ran out before its last job.
    pub fn has_run_out(&self) -> bool
        ensures { result ≡ self.now.ran_out }
    {
        self.ran_out
    }

    /// The pass and the share that the session ends with. Its replies are dropped.
    pub fn into_parts(self) -> AccessParts<J>
        ensures own { result.pass.table ≡ self.access.table }
        ensures seen { result.pass.seen ≡ self.access.seen }
        ensures parts { result.share.parts ≡ self.access.parts }
        ensures amount { result.share.amount ≡ self.access.amount }
    {
        let Session { access, .. } = self;
        access.into_parts()
    }
}
