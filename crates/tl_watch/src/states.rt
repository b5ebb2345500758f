//! What is kept of a plan: without a column that separates the rows, of all rows at once, and else
//! of each group; the other part holds nothing then. A row that is not there cannot go.
ghost use Rattle.std.specs.Prelude.{◌≡◌, false, None, List, [], length, map, IfOk, OnOk};
ghost use Rattle.tl_types.specs.Plain as plain;
ghost use Rattle.tl_watch.specs.declared.plans.WatchPlan.{WatchPlan};
ghost use Rattle.tl_watch.specs.Groups.{TellsAll};
ghost use Rattle.tl_watch.specs.Standings.{values_over};
ghost use Rattle.tl_running.specs.Standing.{is_ordered, number_in, Suits};
ghost use Rattle.tl_watch.specs.Sums.{AddsUp};
ghost use Rattle.tl_watch.specs.States.{State, Stands, CanCome, CanGo, Comes, Goes};

use crate::groups::Groups;
use crate::numbers::Numbers;
use crate::plans::WatchPlan;
use crate::standings::Standing;
use std::alloc::Global;
use std::marker::Model;
use tl_query::AggKind;
use tl_types::{Cell, NoMemory, Seq};

/// What is kept of a plan: of all rows, or where a column separates them, of each group. A contract
/// sees both.
#[derive(Drop)]
pub(crate) struct State {
    alloc: Global,
    all: Numbers,
    groups: Groups,
}

impl Model for State {
    ghost use Rattle.tl_watch.specs.States.{State};

    ghost Value = { State };

    ghost view = { λ s. record { all = s.all; groups = s.groups } };
}

// What is told of all rows.
fn tell_one(alloc: Global, numbers: &Numbers) -> Result<Vec<Standing>, NoMemory>
    ensures { IfOk result (λ told. TellsAll numbers.now told.items) }
{
    let mut told = Vec::new(alloc);
    told.push(Standing {
        group: None,
        value: numbers.value(),
        count: numbers.count(),
    })?;
    Ok(told)
}

impl State {
    /// What is kept of all rows at once, and of each group.
    pub(crate) fn of_parts(alloc: Global, all: Numbers, groups: Groups) -> State
        ensures { result ≡ record { all = all; groups = groups } }
    {
        State { alloc, all, groups }
    }

    /// What is kept of all rows at once, whose number and sum of numbers were made elsewhere, for a
    /// kind that asks for no order of them. It takes no memory.
    pub(crate) fn of_sums(alloc: Global, kind: AggKind, count: u32, sum: i128) -> State
        requires { is_ordered kind ≡ false }
        ensures { (plan : WatchPlan) (rows : List plain.Row) → plan.kind ≡ kind → plan.by ≡ None
            → Suits plan.kind plan.column rows → count ≡ length rows
            → AddsUp (map (number_in plan.column) rows) sum → Stands plan result rows }
    {
        State {
            alloc,
            all: Numbers::of_sums(alloc, kind, count, sum),
            groups: Groups::none(alloc),
        }
    }

    /// Where its memory comes from.
    pub(crate) fn alloc(&self) -> Global {
        self.alloc
    }

    /// A row of this key and number comes. The error is `NoMemory`.
    pub(crate) fn enter(
        &mut self,
        kind: AggKind,
        key: &Option<Cell>,
        number: i64,
    ) -> Result<(), NoMemory>
        requires { CanCome key.now self.old }
        ensures { OnOk result (Comes kind key.now self.old self.new number) }
    {
        match key {
            None => {
                self.all.enter(number)?;
                Ok(())
            }
            Some(value) => {
                self.groups.enter(self.alloc, value, kind, number)?;
                Ok(())
            }
        }
    }

    /// A row of this key and number goes.
    pub(crate) fn leave(&mut self, key: &Option<Cell>, number: i64)
        requires { CanGo key.now self.old number }
        ensures { Goes key.now self.old self.new number }
    {
        match key {
            None => self.all.leave(number),
            Some(value) => self.groups.leave(value, number),
        }
    }

    /// What is told of the rows for which this stands by a plan. The error is `NoMemory`.
    pub(crate) fn tell(&self, plan: &WatchPlan) -> Result<Seq<Standing>, NoMemory>
        ensures { IfOk result (λ told. (rows : List plain.Row) → Stands plan.now self.now rows
            → told ≡ values_over plan.now.kind plan.now.column plan.now.by rows) }
    {
        match plan.by {
            None => {
                let told = tell_one(self.alloc, &self.all)?;
                Ok(Seq::from_vec(told))
            }
            Some(_) => {
                let told = self.groups.tell(self.alloc)?;
                Ok(Seq::from_vec(told))
            }
        }
    }
}
