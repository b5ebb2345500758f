//! All groups of a scan: that of all rows, and that of each value of a column by the number of the
//! value. It keeps that each group stands at the number of its value; a group that never had a row
//! is not there.
ghost use Rattle.std.specs.Prelude.{◌≡◌, ◌++◌, ◌<◌, map, OnOk, IfOk};
ghost use Rattle.std.specs.Map.{lookup};
ghost use Rattle.tl_types.specs.declared.cells.Cell.{Cell};
ghost use Rattle.tl_types.specs.History.{same_cell};
ghost use Rattle.tl_store.specs.Reading.{IsShort, cell_shown};
ghost use Rattle.tl_running.specs.Standing.{CanChange};
ghost use Rattle.tl_agg.specs.Groups.{IsAdvanced, AreAdvanced, Advances, Shifts};
ghost use Rattle.tl_query.specs.Aggregates.{in_group};
ghost use Rattle.tl_keys.specs.Numbered.{AreNumbered};
ghost use Rattle.tl_agg.specs.Scans.{AreNone, HasPlace, CanMoveAt, MovesAt, AreAllAdvanced, all_recounted, all_summed};
ghost use Rattle.tl_query.specs.Ordered.{Rises};

use crate::groups::Group;
use crate::value_groups::ValueGroup;
use std::alloc::{AllocError, Global};
use std::collections::BTreeMap;
use std::marker::Model;
use tl_keys::Keys;
use tl_query::AggKind;
use tl_store::CellRef;
use tl_types::{Cell, NoMemory, Run};

/// All groups of a scan: that of all rows, or where a column separates them, one for each value
/// that came so far, at the number of the value.
#[derive(Drop)]
pub(crate) struct Groups<'a> {
    all: Group,
    keys: Keys<'a>,
    by: Vec<ValueGroup<'a>>,
}

impl<'a> Model for Groups<'a> {
    ghost use Rattle.tl_agg.specs.Scans.{Groups};

    ghost Value = { Groups };

    ghost view = { λ g. record { all = g.all; keys = g.keys; by = g.by.items } };
}

// A number comes into the group with this number at a version where `opens`, else it goes.
fn change_at(
    groups: &mut Vec<ValueGroup<'_>>,
    n: u32,
    at: u32,
    opens: bool,
    number: i64,
) -> Result<(), NoMemory>
    requires { CanMoveAt groups.old.items n opens number }
    ensures { OnOk result (MovesAt groups.old.items groups.new.items n at opens number) }
{
    groups[n as usize].change(at, opens, number)
}

// A run as one of the group of a value.
fn in_group(value: &Cell, run: Run) -> Result<Run, NoMemory>
    ensures { IfOk result (λ grouped. grouped ≡ in_group value.now run) }
{
    Ok(Run {
        group: Some(value.clone()?),
        from: run.from,
        to: run.to,
        value: run.value,
    })
}

// Puts runs, as those of the group of a value, behind others.
fn push_runs(all: &mut Vec<Run>, value: &Cell, runs: Vec<Run>) -> Result<(), NoMemory>
    ensures { OnOk result (all.new.items ≡ all.old.items ++ map (in_group value.now) runs.items) }
{
    for run in runs {
        all.push(in_group(value, run)?)?;
    }
    Ok(())
}

// The runs of a group when it is advanced to a version.
fn advanced(group: Group, to: u32) -> Result<Vec<Run>, NoMemory>
    ensures { IfOk result (λ runs. IsAdvanced group to runs.items) }
{
    let mut group = group;
    group.advance(to)?;
    Ok(group.into_runs())
}

// The groups by their values. Where two are of one value, the first of them counts.
fn sorted(alloc: Global, groups: Vec<ValueGroup<'_>>) -> Result<BTreeMap<Cell, Group>, NoMemory>
    ensures { IfOk result (λ sorted. (x : Cell) → lookup (same_cell x) sorted.entries
        ≡ lookup (same_cell x) groups.entry.items) }
{
    let mut groups = groups;
    let mut sorted = BTreeMap::new(alloc);
    'groups: while let Some(group) = groups.pop() {
        let (value, group) = group.into_parts(alloc)?;
        sorted.insert(value, group)?;
    }
    Ok(sorted)
}

// How many runs the groups have at most when they are advanced to a version, which is only a hint.
fn most_runs(groups: &BTreeMap<Cell, Group>) -> usize {
    let mut most = 0usize;
    for group in groups.values() {
        most = most.saturating_add(group.most_runs());
    }
    most
}

// The runs of the groups of all values when they are advanced to a version.
fn all_runs(alloc: Global, groups: BTreeMap<Cell, Group>, to: u32) -> Result<Vec<Run>, NoMemory>
    ensures runs { IfOk result (λ runs. AreAdvanced groups.entries to runs.items) }
    ensures order { IfOk result (λ _. Rises (map (λ group. group.0) groups.entries)) }
{
    let mut all = Vec::with_capacity(alloc, most_runs(&groups))?;
    for (value, group) in groups {
        push_runs(&mut all, &value, advanced(group, to)?)?;
    }
    Ok(all)
}

impl<'a> Groups<'a> {
    /// Groups of no rows since a version.
    pub(crate) fn none(alloc: Global, kind: AggKind, gaps: bool, since: u32) -> Groups<'a>
        ensures { AreNone result kind gaps since }
    {
        Groups {
            all: Group::none(alloc, kind, gaps, since),
            keys: Keys::none(alloc),
            by: Vec::new(alloc),
        }
    }

    /// Makes the runs of the group of all rows reach up to a version, which is not before those of
    /// its last change. The error is `NoMemory`.
    pub(crate) fn advance(&mut self, to: u32) -> Result<(), NoMemory>
        ensures { OnOk result (Advances self.old.all self.new.all to) }
    {
        self.all.advance(to)
    }

    /// A number comes into the group of all rows where `opens`, else it goes, at the version up to
    /// which its runs reach. The error is `NoMemory`.
    pub(crate) fn shift(&mut self, opens: bool, number: i64) -> Result<(), NoMemory>
        requires { CanChange opens self.old.all.running number }
        ensures { OnOk result (Shifts self.old.all self.new.all opens number) }
    {
        self.all.shift(opens, number)
    }

    /// How many rows the group of all rows has.
    pub(crate) fn count(&self) -> u32
        ensures { result ≡ self.now.all.running.count }
    {
        self.all.count()
    }

    /// Says how many rows the group of all rows has, where they are only counted.
    pub(crate) fn set_count(&mut self, count: u32)
        ensures { self.new ≡ all_recounted self.old count }
    {
        self.all.set_count(count);
    }

    /// The sum of the numbers of the group of all rows.
    pub(crate) fn sum(&self) -> i128
        ensures { result ≡ self.now.all.running.sum }
    {
        self.all.sum()
    }

    /// Says how many rows the group of all rows has, and the sum of their numbers, where these have
    /// no order.
    pub(crate) fn set_sums(&mut self, count: u32, sum: i128)
        ensures { self.new ≡ all_summed self.old count sum }
    {
        self.all.set_sums(count, sum);
    }

    /// The number of a value, which gets one, and a group of no rows since a version, where it has
    /// none. The error is `NoMemory`, which comes at 2^31 values too.
    #[inline(always)]
    pub(crate) fn number(
        &mut self,
        alloc: Global,
        value: CellRef<'a>,
        kind: AggKind,
        since: u32,
    ) -> Result<u32, NoMemory>
        requires short { IsShort value }
        requires numbered { AreNumbered self.old.keys self.old.by }
        ensures { IfOk result
            (λ n. HasPlace self.old self.new (cell_shown value.entry) kind since n) }
    {
        if self.keys.count() >= 2147483648 {
            return Err(AllocError);
        }
        let n = self.keys.number(value)?;
        if n as usize >= self.by.len() {
            let group = Group::none(alloc, kind, true, since);
            self.by.push(ValueGroup::new(value, group))?;
        }
        Ok(n)
    }

    /// A number comes into the group with this number at a version where `opens`, else it goes. The
    /// error is `NoMemory`.
    pub(crate) fn change_at(
        &mut self,
        n: u32,
        at: u32,
        opens: bool,
        number: i64,
    ) -> Result<(), NoMemory>
        requires { CanMoveAt self.old.by n opens number }
        ensures keys { OnOk result (self.new.keys ≡ self.old.keys) }
        ensures moves { OnOk result (MovesAt self.old.by self.new.by n at opens number) }
    {
        change_at(&mut self.by, n, at, opens, number)
    }

    /// The runs of all rows up to a version. The error is `NoMemory`.
    pub(crate) fn into_runs(self, to: u32) -> Result<Vec<Run>, NoMemory>
        ensures { IfOk result (λ runs. IsAdvanced self.entry.all to runs.items) }
    {
        let runs = advanced(self.all, to)?;
        Ok(runs)
    }

    /// The runs of each value up to a version, in order of the values. The error is `NoMemory`.
    pub(crate) fn into_runs_by(self, alloc: Global, to: u32) -> Result<Vec<Run>, NoMemory>
        ensures { IfOk result (λ runs. AreAllAdvanced self.entry.by to runs.items) }
    {
        let sorted = sorted(alloc, self.by)?;
        let runs = all_runs(alloc, sorted, to)?;
        Ok(runs)
    }
}
