//! The groups of a plan: of each value that a row has, what is kept of the rows that have it. A
//! group that loses its last row is left out; a number that a group has not cannot go.
ghost use Rattle.std.specs.Prelude.{◌≡◌, [], None, IfOk, OnOk, map};
ghost use Rattle.tl_types.specs.declared.cells.Cell.{Cell};
ghost use Rattle.tl_watch.specs.Gathering.{KeepsAsAt};
ghost use Rattle.tl_watch.specs.Groups.{group_of, HasRoomAt, CanLeaveAt, EntersGroup, LessensGroup, LeavesGroup, TellsGroup, TellGroups};
ghost use Rattle.tl_query.specs.Ordered.{Rises};
ghost use Rattle.tl_running.specs.Standing.{Enters};

use crate::numbers::Numbers;
use crate::standings::Standing;
use crate::value_numbers::ValueNumbers;
use std::alloc::Global;
use std::collections::BTreeMap;
use std::marker::Model;
use tl_query::AggKind;
use tl_types::{Cell, NoMemory};

/// Of each value of a column that separates rows, what is kept of the rows that have it; a value
/// that no row has is left out. A contract sees the list of values, each with what is kept.
#[derive(Drop)]
pub(crate) struct Groups {
    by: BTreeMap<Cell, Numbers>,
}

impl Model for Groups {
    ghost use Rattle.std.specs.Prelude.{List};
    ghost use Rattle.tl_types.specs.declared.cells.Cell.{Cell};
    ghost use Rattle.tl_running.specs.Standing.{Kept};

    ghost Value = { List (Cell × Kept) };

    ghost view = { λ g. g.by.entries };
}

// A number comes into the group of a value that has none yet.
fn enter_new(
    by: &mut BTreeMap<Cell, Numbers>,
    alloc: Global,
    value: &Cell,
    kind: AggKind,
    number: i64,
) -> Result<(), NoMemory>
    requires { group_of by.old.entries value.now ≡ None }
    ensures { OnOk result (EntersGroup kind value.now by.old.entries by.new.entries number) }
{
    let key = value.clone()?;
    let mut numbers = Numbers::none(alloc, kind);
    numbers.enter(number)?;
    by.insert(key, numbers)?;
    Ok(())
}

// A number comes into the group of a value.
fn enter_in(
    by: &mut BTreeMap<Cell, Numbers>,
    alloc: Global,
    value: &Cell,
    kind: AggKind,
    number: i64,
) -> Result<(), NoMemory>
    requires { HasRoomAt (group_of by.old.entries value.now) }
    ensures { OnOk result (EntersGroup kind value.now by.old.entries by.new.entries number) }
{
    let Some(numbers) = by.get_mut(value) else {
        enter_new(by, alloc, value, kind, number)?;
        return Ok(());
    };
    numbers.enter(number)?;
    Ok(())
}

// A number goes out of the group of a value, and how many are left is told; the group stays also
// where that is none.
fn lessen(by: &mut BTreeMap<Cell, Numbers>, value: &Cell, number: i64) -> u32
    requires { CanLeaveAt (group_of by.old.entries value.now) number }
    ensures { LessensGroup value.now by.old.entries by.new.entries number result }
{
    let Some(numbers) = by.get_mut(value) else {
        unreachable!()
    };
    numbers.leave(number);
    numbers.count()
}

// A number goes out of the group of a value, which is left out where no row is left.
fn leave_in(by: &mut BTreeMap<Cell, Numbers>, value: &Cell, number: i64)
    requires { CanLeaveAt (group_of by.old.entries value.now) number }
    ensures { LeavesGroup value.now by.old.entries by.new.entries number }
{
    if lessen(by, value, number) > 0 {
        return;
    }
    let _ = by.remove(value); // the value's group before
}

// The groups by their values. Where two are of one value, the first of them counts.
fn sorted(alloc: Global, values: Vec<ValueNumbers<'_>>) -> Result<BTreeMap<Cell, Numbers>, NoMemory>
    ensures { IfOk result (λ sorted. (x : Cell)
        → KeepsAsAt (group_of values.entry.items x) (group_of sorted.entries x)) }
{
    let mut values = values;
    let mut sorted = BTreeMap::new(alloc);
    'values: while let Some(group) = values.pop() {
        let (value, numbers) = group.into_parts(alloc)?;
        sorted.insert(value, numbers)?;
    }
    Ok(sorted)
}

// What is told of the group of a value.
fn told(value: &Cell, numbers: &Numbers) -> Result<Standing, NoMemory>
    ensures { IfOk result (TellsGroup (value.now, numbers.now)) }
{
    Ok(Standing {
        group: Some(value.clone()?),
        value: numbers.value(),
        count: numbers.count(),
    })
}

// What is told of each group, in order of their values.
fn tell_all(alloc: Global, by: &BTreeMap<Cell, Numbers>) -> Result<Vec<Standing>, NoMemory>
    ensures tells { IfOk result (λ all. TellGroups by.now.entries all.items) }
    ensures order { IfOk result (λ _. Rises (map (λ group. group.0) by.now.entries)) }
{
    let mut all = Vec::with_capacity(alloc, by.len())?;
    for (value, numbers) in by {
        all.push(told(value, numbers)?)?;
    }
    Ok(all)
}

impl Groups {
    /// No group. It takes no memory.
    pub(crate) fn none(alloc: Global) -> Groups
        ensures { result ≡ [] }
    {
        Groups {
            by: BTreeMap::new(alloc),
        }
    }

    /// The groups of these values, of which the first counts where two are of one value. The error
    /// is `NoMemory`.
    pub(crate) fn of_values(
        alloc: Global,
        values: Vec<ValueNumbers<'_>>,
    ) -> Result<Groups, NoMemory>
        ensures { IfOk result (λ groups. (x : Cell)
            → KeepsAsAt (group_of values.entry.items x) (group_of groups x)) }
    {
        let by = sorted(alloc, values)?;
        Ok(Groups { by })
    }

    /// A number comes into the group of a value. The error is `NoMemory`.
    pub(crate) fn enter(
        &mut self,
        alloc: Global,
        value: &Cell,
        kind: AggKind,
        number: i64,
    ) -> Result<(), NoMemory>
        requires { HasRoomAt (group_of self.old value.now) }
        ensures { OnOk result (EntersGroup kind value.now self.old self.new number) }
    {
        enter_in(&mut self.by, alloc, value, kind, number)
    }

    /// A number goes out of the group of a value, which is left out where no row is left.
    pub(crate) fn leave(&mut self, value: &Cell, number: i64)
        requires { CanLeaveAt (group_of self.old value.now) number }
        ensures { LeavesGroup value.now self.old self.new number }
    {
        leave_in(&mut self.by, value, number);
    }

    /// What is told of each group, in order of their values. The error is `NoMemory`.
    pub(crate) fn tell(&self, alloc: Global) -> Result<Vec<Standing>, NoMemory>
        ensures tells { IfOk result (λ all. TellGroups self.now all.items) }
        ensures order { IfOk result (λ _. Rises (map (λ group. group.0) self.now)) }
    {
        let all = tell_all(alloc, &self.by)?;
        Ok(all)
    }
}
