//! What is gathered of the rows of a plan when it begins: of all rows at once, and of those of each
//! value, by the number that the value gets at its first turn. It keeps no order of the values; a
//! group that no row has is not there.
ghost use Rattle.std.specs.Prelude.{◌≡◌, [], None, Some, List, IfOk, OnOk};
ghost use Rattle.tl_types.specs.Plain as plain;
ghost use Rattle.tl_store.specs.Reading.{IsShort, cell_shown};
ghost use Rattle.tl_watch.specs.declared.plans.WatchPlan.{WatchPlan};
ghost use Rattle.tl_keys.specs.Numbered.{AreNumbered};
ghost use Rattle.tl_watch.specs.Gathering.{HasPlace, CanEnterAt, EntersAt, Gathers, IsGathering};
ghost use Rattle.tl_watch.specs.States.{Stands, CanCome};

use crate::gathered::Gathered;
use crate::groups::Groups;
use crate::states::State;
use crate::value_numbers::ValueNumbers;
use std::alloc::{AllocError, Global};
use std::marker::Model;
use tl_keys::Keys;
use tl_query::AggKind;
use tl_store::CellRef;
use tl_types::NoMemory;

/// What is gathered of rows: of all, or where a column separates them, of those of each value that
/// came so far, at the number of the value. A contract sees both, and the numbers of the values.
#[derive(Drop)]
pub(crate) struct Gathering<'a> {
    alloc: Global,
    kind: AggKind,
    all: Gathered,
    keys: Keys<'a>,
    by: Vec<ValueNumbers<'a>>,
}

impl<'a> Model for Gathering<'a> {
    ghost use Rattle.tl_watch.specs.Gathering.{GatheringOf};

    ghost Value = { GatheringOf };

    ghost view = { λ g. record {
      kind = g.kind;
      state = record { all = g.all; groups = g.by.items };
      keys = g.keys;
    } };
}

// A number comes into the group with this number.
#[inline]
fn enter_at(groups: &mut Vec<ValueNumbers<'_>>, n: u32, number: i64) -> Result<(), NoMemory>
    requires { CanEnterAt groups.old.items n }
    ensures { OnOk result (EntersAt groups.old.items groups.new.items n number) }
{
    groups[n as usize].enter(number)
}

impl<'a> Gathering<'a> {
    /// What is gathered of no row.
    pub(crate) fn none(alloc: Global, kind: AggKind) -> Gathering<'a>
        ensures { (plan : WatchPlan) → plan.kind ≡ kind → IsGathering plan result [] }
    {
        Gathering {
            alloc,
            kind,
            all: Gathered::none(alloc, kind),
            keys: Keys::none(alloc),
            by: Vec::new(alloc),
        }
    }

    /// A row of this number comes, and is among all. The error is `NoMemory`.
    #[inline]
    pub(crate) fn enter(&mut self, number: i64) -> Result<(), NoMemory>
        requires room { CanCome None self.old.state }
        requires numbered { AreNumbered self.old.keys self.old.state.groups }
        ensures { OnOk result (Gathers None self.old self.new number) }
    {
        self.all.enter(number)
    }

    // The number of a value, which gets one, and a group of no rows, where it has none. The error
    // is `NoMemory`, which comes at 2^31 values too.
    #[inline(always)]
    fn number(&mut self, value: CellRef<'a>) -> Result<u32, NoMemory>
        requires short { IsShort value }
        requires numbered { AreNumbered self.old.keys self.old.state.groups }
        ensures { IfOk result (λ n. HasPlace self.old self.new (cell_shown value.entry) n) }
    {
        if self.keys.count() >= 2147483648 {
            return Err(AllocError);
        }
        let n = self.keys.number(value)?;
        if n as usize >= self.by.len() {
            let group = Gathered::none(self.alloc, self.kind);
            self.by.push(ValueNumbers::new(value, group))?;
        }
        Ok(n)
    }

    /// A row of this value and number comes, and is among those of its value. The error is
    /// `NoMemory`, which comes at 2^31 values too.
    #[inline(always)]
    pub(crate) fn enter_by(&mut self, value: CellRef<'a>, number: i64) -> Result<(), NoMemory>
        requires short { IsShort value }
        requires room { CanCome (Some (cell_shown value)) self.old.state }
        requires numbered { AreNumbered self.old.keys self.old.state.groups }
        ensures { OnOk result
            (Gathers (Some (cell_shown value.entry)) self.old self.new number) }
    {
        let n = self.number(value)?;
        enter_at(&mut self.by, n, number)?;
        Ok(())
    }

    /// What is kept of the rows, which then may go too. The error is `NoMemory`.
    pub(crate) fn into_state(self) -> Result<State, NoMemory>
        ensures { IfOk result (λ state. (plan : WatchPlan) (rows : List plain.Row)
            → IsGathering plan self.entry rows → Stands plan state rows) }
    {
        let all = self.all.into_numbers(self.alloc)?;
        let groups = Groups::of_values(self.alloc, self.by)?;
        Ok(State::of_parts(self.alloc, all, groups))
    }
}
