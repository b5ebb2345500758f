//! The runs of groups of rows, each with one value in a column, one group behind the other. A run
//! that has no row is left out.
ghost use Rattle.std.specs.Prelude.{◌≡◌, ◌+◌, ◌*◌, ◌≤◌, ◌++◌, ◌∷◌, [], length, IfOk, OnOk};
ghost use Rattle.std.specs.List.{All};
ghost use Rattle.tl_types.specs.History.{database_of};
ghost use Rattle.tl_query.specs.Aggregates.{in_group};
ghost use Rattle.tl_query.specs.declared.ast.AggKind.TheVariants as kind;
ghost use Rattle.tl_running.specs.Telling.{has_rows};
ghost use Rattle.tl_app.specs.Groups.{runs_with, grouped_runs, event_count, runs_of_groups};
ghost use Rattle.tl_app.specs.Opening.{Alternate};
ghost use Rattle.tl_app.specs.Scans.{IsValidTimePlanFor, plan_rows};

use crate::keyed::KeyGroup;
use crate::scans::{AT_ONCE, ValidScan, scanned_runs};
use std::alloc::Global;
use std::sync::ledger::Ledger;
use tl_query::{AggKind, AggPlan};
use tl_store::Store;
use tl_types::{Cell, Field, NoMemory, Run, Steps};

/// What is scanned group by group: the groups of events of valid time, in order of their values,
/// and what a plan asks of these rows.
#[derive(Clone, Copy)]
pub(crate) struct KeyGroups<'a> {
    /// The store that has the rows.
    pub store: &'a Store,
    /// What is asked: the kind of aggregate, and its column.
    pub plan: &'a AggPlan,
    /// The groups, in order of their values, no two of one value.
    pub groups: &'a [KeyGroup],
    /// How many events they have together.
    pub events: usize,
}

// Whether a count is not 0: is that of some rows.
fn counts_some(value: &Field) -> bool
    ensures { result ≡ has_rows kind.Count value.now }
{
    match value {
        Field::Number(number) => *number != 0,
        Field::Empty => false,
        _ => true,
    }
}

// Whether a field is not empty: as a value that is no count, is that of some rows.
fn is_there(value: &Field) -> bool
    ensures { result ≡ has_rows kind.Sum value.now }
{
    match value {
        Field::Empty => false,
        _ => true,
    }
}

// Whether a value of an aggregate is that of some rows.
fn has_rows(kind: AggKind, value: &Field) -> bool
    ensures { result ≡ has_rows kind value.now }
{
    match kind {
        AggKind::Count => counts_some(value),
        _ => is_there(value),
    }
}

// Puts a run behind others, as one of the group of a value.
fn push_in_group(runs: &mut Vec<Run>, value: &Cell, run: Run) -> Result<(), NoMemory>
    ensures { OnOk result (runs.new.items ≡ runs.old.items ++ in_group value.now run ∷ []) }
{
    let group = Some(value.clone()?);
    runs.push(Run {
        group,
        from: run.from,
        to: run.to,
        value: run.value,
    })?;
    Ok(())
}

// Puts those of the runs of the group of a value that have a row behind others.
fn add_runs(
    runs: &mut Vec<Run>,
    kind: AggKind,
    value: &Cell,
    more: Vec<Run>,
) -> Result<(), NoMemory>
    ensures { OnOk result
        (runs.new.items ≡ runs.old.items ++ runs_with kind value.now more.items) }
{
    for run in more {
        if has_rows(kind, &run.value) {
            push_in_group(runs, value, run)?;
        }
    }
    Ok(())
}

// The runs of the rows of a group. It takes at most two steps for each of its events.
fn runs_of_group<L: Ledger>(
    alloc: Global,
    groups: &KeyGroups<'_>,
    group: &KeyGroup,
    from: i64,
    to: i64,
    steps: &mut Steps<L>,
) -> Result<Vec<Run>, NoMemory>
    requires plan { IsValidTimePlanFor (database_of groups.now.store.now) groups.now.plan.now }
    requires events { Alternate (plan_rows groups.now.store.now groups.now.plan.now)
        group.now.events.items }
    ensures runs { IfOk result (λ runs. runs_with groups.now.plan.now.kind group.now.key runs.items
        ≡ grouped_runs (plan_rows groups.now.store.now groups.now.plan.now) groups.now.plan.now
        from to group.now.key group.now.events.items) }
    ensures steps { steps.new ≤ steps.old + 2 * length group.now.events.items }
{
    let scan = ValidScan {
        store: groups.store,
        plan: groups.plan,
        events: group.events.as_slice(),
    };
    let runs = scanned_runs(alloc, &scan, from, to, steps)?;
    Ok(runs)
}

/// The runs of all groups, in their order, without those that have no row. It takes at most two
/// steps for each event. The error is `NoMemory`.
pub(crate) fn runs_of_groups<L: Ledger>(
    alloc: Global,
    groups: &KeyGroups<'_>,
    from: i64,
    to: i64,
    steps: &mut Steps<L>,
) -> Result<Vec<Run>, NoMemory>
    requires plan { IsValidTimePlanFor (database_of groups.now.store.now) groups.now.plan.now }
    requires events { All (λ group. Alternate (plan_rows groups.now.store.now groups.now.plan.now)
        group.events.items) groups.now.groups.now }
    ensures runs { IfOk result (λ runs. runs.items ≡ runs_of_groups
        (plan_rows groups.now.store.now groups.now.plan.now) groups.now.plan.now from to
        groups.now.groups.now) }
    ensures steps { steps.new ≤ steps.old + 2 * event_count groups.now.groups.now }
{
    let mut runs = Vec::with_capacity(alloc, groups.events.min(AT_ONCE))?;
    for group in groups.groups {
        let more = runs_of_group(alloc, groups, group, from, to, steps)?;
        add_runs(&mut runs, groups.plan.kind, &group.key, more)?;
    }
    Ok(runs)
}
