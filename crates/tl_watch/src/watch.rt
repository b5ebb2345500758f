//! The watch: plans that follow a history commit by commit. A call that is refused memory ends it:
//! what it keeps of its plans may then stand for no commits, and no further call may be made.
ghost use Rattle.std.specs.Prelude.{◌≡◌, ◌+◌, ◌^◌, ◌<◌, ◌≤◌, ◌++◌, ◌∷◌, [], true, false, IsTrue, List, length, OnOk, OnErr, IfOk, Some, sum_by};
ghost use Rattle.tl_types.specs.declared.commits.Commit.{Commit};
ghost use Rattle.tl_types.specs.declared.commits.Body.TheVariants as body;
ghost use Rattle.tl_types.specs.Entries.{commits_of};
ghost use Rattle.tl_types.specs.History.{database_of, fits};
ghost use Rattle.tl_types.specs.Legality.{FitInTurn};
ghost use Rattle.tl_types.specs.Limits.{standard_limits};
ghost use Rattle.tl_watch.specs.declared.plans.WatchPlan.{WatchPlan};
ghost use Rattle.tl_watch.specs.Standings.{standing_of};
ghost use Rattle.tl_watch.specs.Watches.{IsOfQuery, AllStand, StandsForCommits, FollowsAt, StandsAt, StepsAt, plan_at, plans_of, most_steps, most_steps_for, start_steps};

use crate::plans::WatchPlan;
use crate::standings::Standing;
use crate::starts::start;
use crate::watched::Watched;
use std::alloc::{AllocError, Global};
use std::marker::Model;
use std::sync::ledger::Ledger;
use tl_index::Snapshot;
use tl_store::Store;
use tl_types::{Body, Change, Commit, NoMemory, Seq, Steps};

// How many plans there are at most.
const MOST_PLANS: usize = 4294967295;

/// Plans whose values are kept while commits come. A contract sees whether it is live, and the
/// plans with what is kept of each.
#[derive(Drop)]
pub struct Watch {
    alloc: Global,
    live: bool,
    plans: Vec<Watched>,
}

impl Model for Watch {
    ghost use Rattle.std.specs.Prelude.{◌<◌, ◌^◌, length};
    ghost use Rattle.tl_watch.specs.Watches.{Watch};

    ghost Value = { Watch };

    ghost view = { λ w. record { live = w.live; plans = w.plans.items } };

    ghost invariant = { λ w. length w.plans.items < 2 ^ 32 };
}

// Takes a change of an author in at the plan with a number.
fn follow_at<L: Ledger>(
    plans: &mut Vec<Watched>,
    i: usize,
    before: &Store,
    author: u32,
    change: &Change,
    steps: &mut Steps<L>,
) -> Result<(), NoMemory>
    requires place { i < length plans.old.items }
    requires fit { FitInTurn standard_limits before.now }
    requires fits { IsTrue (fits standard_limits (database_of before.now)
        (record { author = author; body = body.Change change.now })) }
    requires stands { StandsAt plans.old.items i (database_of before.now) }
    ensures ok { OnOk result (FollowsAt plans.old.items plans.new.items i (database_of
        (before.now ++ record { author = author; body = body.Change change.now } ∷ []))) }
    ensures plans { plans_of plans.new.items ≡ plans_of plans.old.items }
    ensures steps { StepsAt plans.old.items i (body.Change change.now) steps.old steps.new }
{
    plans[i].follow(before, author, change, steps)?;
    Ok(())
}

// Takes a change of an author in at each plan.
fn follow_all<L: Ledger>(
    plans: &mut Vec<Watched>,
    before: &Store,
    author: u32,
    change: &Change,
    steps: &mut Steps<L>,
) -> Result<(), NoMemory>
    requires fit { FitInTurn standard_limits before.now }
    requires fits { IsTrue (fits standard_limits (database_of before.now)
        (record { author = author; body = body.Change change.now })) }
    requires stands { AllStand plans.old.items (database_of before.now) }
    ensures ok { OnOk result (AllStand plans.new.items (database_of
        (before.now ++ record { author = author; body = body.Change change.now } ∷ []))) }
    ensures plans { plans_of plans.new.items ≡ plans_of plans.old.items }
    ensures steps { steps.new
        ≤ steps.old + sum_by (most_steps_for (body.Change change.now)) plans.old.items }
{
    for i in 0..plans.len() {
        follow_at(plans, i, before, author, change, steps)?;
    }
    Ok(())
}

// Takes a commit in at each plan.
fn follow_commit<L: Ledger>(
    plans: &mut Vec<Watched>,
    before: &Store,
    commit: &Commit,
    steps: &mut Steps<L>,
) -> Result<(), NoMemory>
    requires fit { FitInTurn standard_limits before.now }
    requires fits { IsTrue (fits standard_limits (database_of before.now) commit.now) }
    requires stands { AllStand plans.old.items (database_of before.now) }
    ensures ok { OnOk result
        (AllStand plans.new.items (database_of (before.now ++ commit.now ∷ []))) }
    ensures plans { plans_of plans.new.items ≡ plans_of plans.old.items }
    ensures steps { steps.new
        ≤ steps.old + sum_by (most_steps_for commit.now.body) plans.old.items }
{
    match &commit.body {
        Body::Create(_) => Ok(()),
        Body::Change(change) => {
            follow_all(plans, before, commit.author, change, steps)?;
            Ok(())
        }
        Body::Moment { moment: _ } => Ok(()),
        Body::Forget { table: _, floor: _ } => Ok(()),
    }
}

// Takes a plan in behind the others, with what is kept of it over a snapshot, where there is room.
fn add_plan<L: Ledger>(
    plans: &mut Vec<Watched>,
    alloc: Global,
    snapshot: &Snapshot,
    plan: WatchPlan,
    steps: &mut Steps<L>,
) -> Result<u32, NoMemory>
    requires few { length plans.old.items < 2 ^ 32 }
    requires plan { IsOfQuery plan (database_of (commits_of snapshot.now)) }
    requires stands { AllStand plans.old.items (database_of (commits_of snapshot.now)) }
    ensures few { length plans.new.items < 2 ^ 32 }
    ensures number { IfOk result (λ number. number ≡ length plans.old.items) }
    ensures plans { OnOk result (plans_of plans.new.items ≡ plans_of plans.old.items ++ plan ∷ []) }
    ensures stands { OnOk result
        (AllStand plans.new.items (database_of (commits_of snapshot.now))) }
    ensures err { OnErr result (plans.new.items ≡ plans.old.items) }
    ensures steps { steps.new ≤ steps.old + start_steps snapshot.now plan }
{
    if plans.len() >= MOST_PLANS {
        return Err(AllocError);
    }
    let number = plans.len() as u32;
    let state = start(alloc, snapshot, &plan, steps)?;
    plans.push(Watched::new(plan, state))?;
    Ok(number)
}

impl Watch {
    /// A watch without a plan, which stands for the commits of a snapshot.
    pub fn start(alloc: Global, snapshot: &Snapshot) -> Watch
        ensures live { result.live ≡ true }
        ensures plans { result.plans ≡ [] }
        ensures stands { StandsForCommits result (commits_of snapshot.now) }
    {
        let _has_break = snapshot.has_break(); // says that the entries are legal
        Watch {
            alloc,
            live: true,
            plans: Vec::new(alloc),
        }
    }

    /// Takes a plan in, which is of a query that was checked for the commits of a snapshot, for
    /// which the watch stands, and tells its number, counted from 0. The watch still stands for
    /// them. With e events of the plan's table behind its last mark, w begun 64s of its rows, p
    /// tests, r rows that stand and pass, and as many versions with events, and one more, as a
    /// number of s binary digits tells, it takes at most e + (p + 5)w + 2s + 3r steps. `NoMemory`
    /// comes where memory is out, or where there are 2^32 - 1 plans; the plans are then as before,
    /// and the watch is no longer live.
    pub fn register<L: Ledger>(
        &mut self,
        snapshot: &Snapshot,
        plan: WatchPlan,
        steps: &mut Steps<L>,
    ) -> Result<u32, NoMemory>
        requires live { self.old.live ≡ true }
        requires stands { StandsForCommits self.old (commits_of snapshot.now) }
        requires plan { IsOfQuery plan (database_of (commits_of snapshot.now)) }
        ensures number { IfOk result (λ number. number ≡ length self.old.plans) }
        ensures ok { OnOk result (self.new.live ≡ true) }
        ensures err { OnErr result (self.new.live ≡ false) }
        ensures plans { OnOk result
            (plans_of self.new.plans ≡ plans_of self.old.plans ++ plan ∷ []) }
        ensures same { OnErr result (self.new.plans ≡ self.old.plans) }
        ensures stands { OnOk result (StandsForCommits self.new (commits_of snapshot.now)) }
        ensures steps { steps.new ≤ steps.old + start_steps snapshot.now plan }
    {
        self.live = false;
        let number = add_plan(&mut self.plans, self.alloc, snapshot, plan, steps)?;
        self.live = true;
        Ok(number)
    }

    /// Takes a commit in that fits the commits of a snapshot, for which the watch stands: it then
    /// stands for these and the commit. For each plan of the table that the commit changes it takes
    /// at most two steps and one for each test, for each row that the commit closes, and none for
    /// other plans, also where it fails. The error is `NoMemory`; the watch is then no longer live.
    pub fn follow<L: Ledger>(
        &mut self,
        before: &Snapshot,
        commit: &Commit,
        steps: &mut Steps<L>,
    ) -> Result<(), NoMemory>
        requires live { self.old.live ≡ true }
        requires stands { StandsForCommits self.old (commits_of before.now) }
        requires fits { IsTrue
            (fits standard_limits (database_of (commits_of before.now)) commit.now) }
        ensures ok { OnOk result (self.new.live ≡ true) }
        ensures err { OnErr result (self.new.live ≡ false) }
        ensures plans { plans_of self.new.plans ≡ plans_of self.old.plans }
        ensures stands { OnOk result
            (StandsForCommits self.new (commits_of before.now ++ commit.now ∷ [])) }
        ensures steps { steps.new ≤ steps.old + most_steps self.old commit.now.body }
    {
        self.live = false;
        follow_commit(&mut self.plans, before.store(), commit, steps)?;
        self.live = true;
        Ok(())
    }

    /// The values of the plan with a number, from 0: over the rows of its table that stand after
    /// the commits for which the watch stands, and pass. With a column that separates the rows
    /// there is one for each value that such a row has, in order of the values, and without one
    /// exactly one. It takes no step. The error is `NoMemory`, and leaves all as it was.
    pub fn values(&self, plan: u32) -> Result<Seq<Standing>, NoMemory>
        requires live { self.now.live ≡ true }
        requires there { plan < length self.now.plans }
        ensures { IfOk result (λ values. (commits : List Commit) (asked : WatchPlan)
            → StandsForCommits self.now commits → plan_at self.now plan ≡ Some asked
            → values ≡ standing_of (database_of commits) asked) }
    {
        let values = self.plans[plan as usize].values()?;
        Ok(values)
    }

    /// The number of plans.
    pub fn plans(&self) -> u32
        ensures { result ≡ length self.now.plans }
    {
        self.plans.len() as u32
    }

    /// Whether the watch is live: no earlier call was refused memory.
    pub fn live(&self) -> bool
        ensures { result ≡ self.now.live }
    {
        self.live
    }
}
