//! A plan with what is kept of it. A change of another table changes nothing here and takes no
//! step; a plan that is not one for its table may not be given.
ghost use Rattle.std.specs.Prelude.{◌≡◌, ◌+◌, ◌≤◌, ◌++◌, ◌∷◌, [], IsTrue, OnOk, IfOk};
ghost use Rattle.tl_types.specs.declared.commits.Body.TheVariants as body;
ghost use Rattle.tl_types.specs.History.{database_of, fits};
ghost use Rattle.tl_types.specs.Legality.{FitInTurn};
ghost use Rattle.tl_types.specs.Limits.{standard_limits};
ghost use Rattle.tl_types.specs.Plain as plain;
ghost use Rattle.tl_watch.specs.Standings.{standing_of};
ghost use Rattle.tl_watch.specs.Watches.{StandsOver, most_steps_for};

use crate::follows::follow_change;
use crate::plans::WatchPlan;
use crate::standings::Standing;
use crate::states::State;
use std::marker::Model;
use std::sync::ledger::Ledger;
use tl_store::Store;
use tl_types::{Change, NoMemory, Seq, Steps};

/// A plan, and what is kept of it. A contract sees both.
#[derive(Drop)]
pub(crate) struct Watched {
    plan: WatchPlan,
    state: State,
}

impl Model for Watched {
    ghost use Rattle.tl_watch.specs.Watches.{Watched};

    ghost Value = { Watched };

    ghost view = { λ w. record { plan = w.plan; state = w.state } };
}

impl Watched {
    /// A plan, with what is kept of it.
    pub(crate) fn new(plan: WatchPlan, state: State) -> Watched
        ensures { result ≡ record { plan = plan; state = state } }
    {
        Watched { plan, state }
    }

    /// Takes the change of an author in, which fits commits over which this stands. It takes at
    /// most two steps and one for each test, for each row that the change closes, and none where
    /// the change is of another table. The error is `NoMemory`.
    pub(crate) fn follow<L: Ledger>(
        &mut self,
        before: &Store,
        author: u32,
        change: &Change,
        steps: &mut Steps<L>,
    ) -> Result<(), NoMemory>
        requires fit { FitInTurn standard_limits before.now }
        requires fits { IsTrue (fits standard_limits (database_of before.now)
            (record { author = author; body = body.Change change.now })) }
        requires stands { StandsOver self.old (database_of before.now) }
        ensures stands { OnOk result (StandsOver self.new (database_of
            (before.now ++ record { author = author; body = body.Change change.now } ∷ []))) }
        ensures plan { self.new.plan ≡ self.old.plan }
        ensures steps { steps.new
            ≤ steps.old + most_steps_for (body.Change change.now) self.old }
    {
        let _author = author; // says that it is of 32 bits
        let _closes = change.closes(); // says that ids are few
        if self.plan.table != change.table() {
            return Ok(());
        }
        follow_change(&mut self.state, &self.plan, before, change, steps)?;
        Ok(())
    }

    /// The values of the plan. The error is `NoMemory`.
    pub(crate) fn values(&self) -> Result<Seq<Standing>, NoMemory>
        ensures { IfOk result (λ values. (db : plain.Database) → StandsOver self.now db
            → values ≡ standing_of db self.now.plan) }
    {
        let values = self.state.tell(&self.plan)?;
        Ok(values)
    }
}
