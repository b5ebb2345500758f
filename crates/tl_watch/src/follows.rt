//! What is kept of a plan, while a change of its table is taken in: first each row that it closes
//! goes where it passes, which takes steps, and then each row that it opens comes where it passes,
//! which takes none. After an error what is kept may stand for no rows.
ghost use Rattle.std.specs.Prelude.{◌≡◌, ◌+◌, ◌*◌, ◌<◌, ◌≤◌, length, OnOk};
ghost use Rattle.tl_types.specs.History.{database_of};
ghost use Rattle.tl_store.specs.Reading.{columns_of};
ghost use Rattle.tl_watch.specs.Follows.{IsReady, rows_closing, rows_opening, IsLeaving, LeavesRow, IsRoomy, EntersRow};
ghost use Rattle.tl_watch.specs.Reading.{IsWithin};
ghost use Rattle.tl_watch.specs.Standings.{tests_in};
ghost use Rattle.tl_watch.specs.States.{Stands};

use crate::closing::RowAt;
use crate::opening;
use crate::plans::WatchPlan;
use crate::states::State;
use std::sync::ledger::Ledger;
use tl_store::Store;
use tl_types::{Change, NoMemory, Opened, Steps};

// Takes out a row that passes. It takes at most two steps.
fn take_out<L: Ledger>(
    state: &mut State,
    plan: &WatchPlan,
    row: &RowAt<'_>,
    steps: &mut Steps<L>,
) -> Result<(), NoMemory>
    requires column { IsWithin plan.now.column (length (columns_of row.now.db row.now.table)) }
    requires by { IsWithin plan.now.by (length (columns_of row.now.db row.now.table)) }
    requires leaving { IsLeaving plan.now state.old row.now }
    ensures leaves { OnOk result (LeavesRow plan.now state.old state.new row.now) }
    ensures steps { steps.new ≤ steps.old + 2 }
{
    let number = row.number(plan.column, steps);
    let key = row.key(state.alloc(), plan.by, steps)?;
    state.leave(&key, number);
    Ok(())
}

// Closes the row whose id stands at a place of the change's list. It takes at most two steps and
// one for each test.
fn close_at<L: Ledger>(
    state: &mut State,
    plan: &WatchPlan,
    before: &Store,
    change: &Change,
    i: usize,
    steps: &mut Steps<L>,
) -> Result<(), NoMemory>
    requires ready { IsReady plan.now (database_of before.now) change.now }
    requires place { i < length change.now.closes }
    requires stands { Stands plan.now state.old
        (rows_closing plan.now (database_of before.now) change.now i) }
    ensures stands { OnOk result (Stands plan.now state.new
        (rows_closing plan.now (database_of before.now) change.now (i + 1))) }
    ensures steps { steps.new ≤ steps.old + (tests_in plan.now.pred + 2) }
{
    let id = change.closes()[i];
    let row = RowAt::new(before, plan.table, id);
    let passes = row.passes(&plan.pred, steps);
    if !passes {
        return Ok(());
    }
    take_out(state, plan, &row, steps)?;
    Ok(())
}

// Closes all rows of the change's list.
fn close_all<L: Ledger>(
    state: &mut State,
    plan: &WatchPlan,
    before: &Store,
    change: &Change,
    steps: &mut Steps<L>,
) -> Result<(), NoMemory>
    requires ready { IsReady plan.now (database_of before.now) change.now }
    requires stands { Stands plan.now state.old
        (rows_closing plan.now (database_of before.now) change.now 0) }
    ensures stands { OnOk result (Stands plan.now state.new
        (rows_opening plan.now (database_of before.now) change.now 0)) }
    ensures steps { steps.new
        ≤ steps.old + (tests_in plan.now.pred + 2) * length change.now.closes }
{
    for i in 0..change.closes().len() {
        close_at(state, plan, before, change, i, steps)?;
    }
    Ok(())
}

// Puts in a row that is opened and passes.
fn put_in(state: &mut State, plan: &WatchPlan, opened: &Opened) -> Result<(), NoMemory>
    requires by { IsWithin plan.now.by (length opened.now.cells) }
    requires room { IsRoomy plan.now state.old }
    ensures { OnOk result (EntersRow plan.now state.old state.new opened.now) }
{
    let number = opening::number(opened, plan.column);
    let key = opening::key(opened, plan.by)?;
    state.enter(plan.kind, &key, number)?;
    Ok(())
}

// Opens the row at a place of the change's list.
fn open_at(
    state: &mut State,
    plan: &WatchPlan,
    before: &Store,
    change: &Change,
    i: usize,
) -> Result<(), NoMemory>
    requires ready { IsReady plan.now (database_of before.now) change.now }
    requires place { i < length change.now.opens }
    requires stands { Stands plan.now state.old
        (rows_opening plan.now (database_of before.now) change.now i) }
    ensures { OnOk result (Stands plan.now state.new
        (rows_opening plan.now (database_of before.now) change.now (i + 1))) }
{
    let _before = before; // says what holds of each store
    let opened = &change.opens()[i];
    let passes = opening::passes(opened, &plan.pred);
    if !passes {
        return Ok(());
    }
    put_in(state, plan, opened)?;
    Ok(())
}

// Opens all rows of the change's list.
fn open_all(
    state: &mut State,
    plan: &WatchPlan,
    before: &Store,
    change: &Change,
) -> Result<(), NoMemory>
    requires ready { IsReady plan.now (database_of before.now) change.now }
    requires stands { Stands plan.now state.old
        (rows_opening plan.now (database_of before.now) change.now 0) }
    ensures { OnOk result (Stands plan.now state.new
        (rows_opening plan.now (database_of before.now) change.now (length change.now.opens))) }
{
    for i in 0..change.opens().len() {
        open_at(state, plan, before, change, i)?;
    }
    Ok(())
}

/// Takes a change of the plan's table in: what is kept then stands for the rows that stand after it
/// and pass. It takes at most two steps and one for each test, for each row that is closed. The
/// error is `NoMemory`.
pub(crate) fn follow_change<L: Ledger>(
    state: &mut State,
    plan: &WatchPlan,
    before: &Store,
    change: &Change,
    steps: &mut Steps<L>,
) -> Result<(), NoMemory>
    requires ready { IsReady plan.now (database_of before.now) change.now }
    requires stands { Stands plan.now state.old
        (rows_closing plan.now (database_of before.now) change.now 0) }
    ensures stands { OnOk result (Stands plan.now state.new
        (rows_opening plan.now (database_of before.now) change.now (length change.now.opens))) }
    ensures steps { steps.new
        ≤ steps.old + (tests_in plan.now.pred + 2) * length change.now.closes }
{
    close_all(state, plan, before, change, steps)?;
    open_all(state, plan, before, change)?;
    Ok(())
}
