//! A watch of one plan, which is followed commit by commit and told as the rows of an answer. A
//! watch that was refused memory is let go.
ghost use Rattle.std.specs.Prelude.{◌≡◌, ◌<◌, ◌++◌, ◌∷◌, [], true, IsTrue, List, length, codes, IfOk, OnOk};
ghost use Rattle.tl_types.specs.declared.commits.Commit.{Commit};
ghost use Rattle.tl_types.specs.Entries.{commits_of};
ghost use Rattle.tl_types.specs.History.{database_of, fits};
ghost use Rattle.tl_types.specs.Limits.{standard_limits};
ghost use Rattle.tl_jobs.specs.declared.replies.ReplyBody.TheVariants as body;
ghost use Rattle.tl_jobs.specs.Reading.{text_of_answer};
ghost use Rattle.tl_jobs.specs.Replies.{body_bytes};
ghost use Rattle.tl_watch.specs.declared.plans.WatchPlan.{WatchPlan};
ghost use Rattle.tl_watch.specs.Standings.{standing_of};
ghost use Rattle.tl_watch.specs.Watches.{IsOfQuery, StandsForCommits};
ghost use Rattle.tl_commands.specs.WatchRows.{standing_answer, watch_bytes};
ghost use Rattle.tl_commands.specs.Watches.{WatchesPlan};

use crate::watch_rows::rows_of;
use std::alloc::Global;
use std::marker::{Brand, Model};
use std::sync::ledger::{Blank, Ledger};
use tl_csv::AnswerWriter;
use tl_index::Snapshot;
use tl_jobs::{AnswerText, Reply, ReplyBody, put_reply};
use tl_rows::AnswerRows;
use tl_types::{Commit, NoMemory, Steps};
use tl_watch::{Watch, WatchPlan};

/// A watch of one plan, which is live. A contract sees it as the watch.
#[derive(Drop)]
pub struct Watching {
    watch: Watch,
}

impl Model for Watching {
    ghost use Rattle.std.specs.Prelude.{◌≡◌, true, length};
    ghost use Rattle.tl_watch.specs.Watches.{Watch};

    ghost Value = { Watch };

    ghost view = { λ w. w.watch };

    ghost invariant = { λ w. (w.watch.live ≡ true) × (length w.watch.plans ≡ 1) };
}

// Registers the plan, with steps of this ledger. The error is `NoMemory`.
fn begin_by<L: Ledger>(
    alloc: Global,
    snapshot: &Snapshot,
    plan: WatchPlan,
    blank: Blank,
) -> Result<Watching, NoMemory>
    requires plan { IsOfQuery plan (database_of (commits_of snapshot.now)) }
    requires name { blank.name ≡ L.name }
    requires parts { blank.parts ≡ L.parts }
    requires some { 0 < blank.parts }
    ensures { IfOk result (WatchesPlan plan (commits_of snapshot.now)) }
{
    let mut steps: Steps<L> = Steps::new(blank);
    let mut watch = Watch::start(alloc, snapshot);
    watch.register(snapshot, plan, &mut steps)?;
    Ok(Watching::new(watch))
}

// Follows the commit, with steps of this ledger. The error is `NoMemory`.
fn follow_by<L: Ledger>(
    watching: Watching,
    before: &Snapshot,
    commit: &Commit,
    blank: Blank,
) -> Result<Watching, NoMemory>
    requires stands { StandsForCommits watching (commits_of before.now) }
    requires fits { IsTrue (fits standard_limits (database_of (commits_of before.now)) commit.now) }
    requires name { blank.name ≡ L.name }
    requires parts { blank.parts ≡ L.parts }
    requires some { 0 < blank.parts }
    ensures { (plan : WatchPlan) → WatchesPlan plan (commits_of before.now) watching
        → IfOk result (WatchesPlan plan (commits_of before.now ++ commit.now ∷ [])) }
{
    let mut steps: Steps<L> = Steps::new(blank);
    let Watching { mut watch } = watching;
    watch.follow(before, commit, &mut steps)?;
    Ok(Watching::new(watch))
}

// Appends the rows of an answer behind the line that names them and the version. The error is
// `NoMemory`.
fn put_rows(
    alloc: Global,
    out: &mut Vec<u8>,
    version: u32,
    rows: &AnswerRows,
    writer: &mut AnswerWriter,
) -> Result<(), NoMemory>
    ensures { OnOk result (out.new.items ≡ out.old.items
        ++ body_bytes (codes "watch") version (body.Rows (text_of_answer rows.now))) }
{
    let bytes = writer.bytes_of(alloc, rows)?;
    let answer = AnswerText {
        rows: rows.len(),
        bytes,
    };
    let reply = Reply {
        line: 1,
        version,
        body: ReplyBody::Rows(answer),
    };
    put_reply(alloc, out, b"watch".as_slice(), &reply)?;
    Ok(())
}

impl Watching {
    // A watch that is live and has one plan.
    fn new(watch: Watch) -> Watching
        requires live { watch.live ≡ true }
        requires one { length watch.plans ≡ 1 }
        ensures { result ≡ watch }
    {
        Watching { watch }
    }

    /// The watch of a plan over the commits of a snapshot, for which the plan is of a query that
    /// was checked. Nobody counts its steps. The error is `NoMemory`.
    pub fn begin(alloc: Global, snapshot: &Snapshot, plan: WatchPlan) -> Result<Watching, NoMemory>
        requires { IsOfQuery plan (database_of (commits_of snapshot.now)) }
        ensures { IfOk result (WatchesPlan plan (commits_of snapshot.now)) }
    {
        begin_by::<Brand>(alloc, snapshot, plan, Blank::new(1))
    }

    /// Takes a commit in that fits the commits of a snapshot, for which the watch stands: it then
    /// stands for these and the commit. Nobody counts its steps. The error is `NoMemory`.
    pub fn follow(self, before: &Snapshot, commit: &Commit) -> Result<Watching, NoMemory>
        requires stands { StandsForCommits self (commits_of before.now) }
        requires fits { IsTrue
            (fits standard_limits (database_of (commits_of before.now)) commit.now) }
        ensures { (plan : WatchPlan) → WatchesPlan plan (commits_of before.now) self
            → IfOk result (WatchesPlan plan (commits_of before.now ++ commit.now ∷ [])) }
    {
        follow_by::<Brand>(self, before, commit, Blank::new(1))
    }

    // The values of the plan as the rows of an answer. The error is `NoMemory`.
    fn rows(&self, alloc: Global) -> Result<AnswerRows, NoMemory>
        ensures { IfOk result (λ rows. (plan : WatchPlan) (commits : List Commit)
            → WatchesPlan plan commits self.now
            → rows ≡ standing_answer (standing_of (database_of commits) plan)) }
    {
        let standings = self.watch.values(0)?;
        let rows = rows_of(alloc, standings.as_slice())?;
        Ok(rows)
    }

    /// Appends what the watch tells after a commit, with the commit's version: the line
    /// `watch @V rows N`, and the N values as rows of an answer, which the writer writes. A row has
    /// the group where there is one, the value and the number of rows. After `NoMemory` a part of
    /// it may stand there.
    pub fn tell(
        &self,
        alloc: Global,
        out: &mut Vec<u8>,
        version: u32,
        writer: &mut AnswerWriter,
    ) -> Result<(), NoMemory>
        ensures { OnOk result ((plan : WatchPlan) (commits : List Commit)
            → WatchesPlan plan commits self.now → version ≡ length commits
            → out.new.items ≡ out.old.items ++ watch_bytes plan commits) }
    {
        let rows = self.rows(alloc)?;
        put_rows(alloc, out, version, &rows, writer)?;
        Ok(())
    }
}
