//! Pairs of rows, as the rows of an answer: the cells of the left row, then those of the right one,
//! then from when to when the pair holds. Both rows are there.
ghost use Rattle.std.specs.Prelude.{◌≡◌, ◌+◌, ◌*◌, ◌<◌, ◌≤◌, ◌++◌, ◌∷◌, [], IfOk, OnOk, Some, length, map};
ghost use Rattle.tl_types.specs.Entries.{commits_of};
ghost use Rattle.tl_types.specs.History.{database_of, rows_of};
ghost use Rattle.tl_types.specs.Legality.{FitInTurn};
ghost use Rattle.tl_types.specs.Limits.{standard_limits};
ghost use Rattle.tl_types.specs.Plain as plain;
ghost use Rattle.tl_query.specs.Answers.{cells_with, pair_fields};
ghost use Rattle.tl_query.specs.Fields.{cell_field};
ghost use Rattle.tl_store.specs.Reading.{columns_of, row_of};

use crate::fields::{cell_field, moment_field};
use std::alloc::Global;
use std::sync::ledger::Ledger;
use tl_index::Snapshot;
use tl_query::JoinPlan;
use tl_rows::{AnswerRows, RowsWriter};
use tl_store::Store;
use tl_types::{NoMemory, Pair, Seq, Steps};

// Appends the cells of a row, by its id, to the row that is being written. It takes at most a step
// for each column. The error is out of memory.
fn push_cells<L: Ledger>(
    rows: &mut RowsWriter,
    store: &Store,
    table: u16,
    row: u32,
    steps: &mut Steps<L>,
) -> Result<(), NoMemory>
    requires fitting { FitInTurn standard_limits store.now }
    requires table { table < length (database_of store.now).tables }
    requires row { row < length (rows_of (database_of store.now) table) }
    ensures rows { OnOk result (rows.new.rows ≡ rows.old.rows) }
    ensures cells { (r : plain.Row) → row_of (database_of store.now) table row ≡ Some r
        → OnOk result (rows.new.row ≡ rows.old.row ++ map cell_field r.cells) }
    ensures steps { steps.new
        ≤ steps.old + length (columns_of (database_of store.now) table) }
{
    let columns = store.schema(table).columns().len() as u8;
    for column in 0..columns {
        let cell = store.cell(table, row, column, steps);
        rows.push(cell_field(cell))?;
    }
    Ok(())
}

// Appends the cells of the row with an id, where there is one, to the row that is being written. It
// takes at most a step for each column. The error is out of memory.
fn add_cells<L: Ledger>(
    rows: &mut RowsWriter,
    store: &Store,
    table: u16,
    row: u32,
    steps: &mut Steps<L>,
) -> Result<(), NoMemory>
    requires fitting { FitInTurn standard_limits store.now }
    requires table { table < length (database_of store.now).tables }
    ensures rows { OnOk result (rows.new.rows ≡ rows.old.rows) }
    ensures cells { OnOk result (rows.new.row ≡ rows.old.row
        ++ map cell_field (cells_with (rows_of (database_of store.now) table) row)) }
    ensures steps { steps.new
        ≤ steps.old + length (columns_of (database_of store.now) table) }
{
    if row < store.rows(table) {
        push_cells(rows, store, table, row, steps)?;
    }
    Ok(())
}

// Appends a pair as a row: its bounds, the cells of its left row, the cells of its right row. It
// takes at most a step for each column of both tables. The error is out of memory.
fn add_pair<L: Ledger>(
    rows: &mut RowsWriter,
    store: &Store,
    plan: &JoinPlan,
    pair: Pair,
    steps: &mut Steps<L>,
) -> Result<(), NoMemory>
    requires fitting { FitInTurn standard_limits store.now }
    requires left { plan.now.left < length (database_of store.now).tables }
    requires right { plan.now.right < length (database_of store.now).tables }
    requires between { rows.old.row ≡ [] }
    ensures rows { OnOk result (rows.new.rows ≡ rows.old.rows
        ++ pair_fields (rows_of (database_of store.now) plan.now.left)
        (rows_of (database_of store.now) plan.now.right) pair ∷ []) }
    ensures between { OnOk result (rows.new.row ≡ []) }
    ensures steps { steps.new ≤ steps.old
        + (length (columns_of (database_of store.now) plan.now.left)
        + length (columns_of (database_of store.now) plan.now.right)) }
{
    rows.push(moment_field(pair.from))?;
    rows.push(moment_field(pair.to))?;
    add_cells(rows, store, plan.left, pair.left, steps)?;
    add_cells(rows, store, plan.right, pair.right, steps)?;
    rows.end_row()
}

// No rows, with room for so many pairs of a join by a plan. The error is out of memory.
fn room_for(
    alloc: Global,
    store: &Store,
    plan: &JoinPlan,
    pairs: usize,
) -> Result<RowsWriter, NoMemory>
    requires left { plan.now.left < length (database_of store.now).tables }
    requires right { plan.now.right < length (database_of store.now).tables }
    ensures { IfOk result (λ rows. rows ≡ record { rows = []; row = [] }) }
{
    let left = store.schema(plan.left).columns().len();
    let right = store.schema(plan.right).columns().len();
    let fields = left.saturating_add(right).saturating_add(2);
    RowsWriter::with_room(alloc, pairs, pairs.saturating_mul(fields))
}

// The pairs of a join by a plan, each as a row. It takes for each at most a step for each column of
// both tables. The error is out of memory.
fn pairs_as_rows<L: Ledger>(
    alloc: Global,
    store: &Store,
    plan: &JoinPlan,
    pairs: &[Pair],
    steps: &mut Steps<L>,
) -> Result<AnswerRows, NoMemory>
    requires fitting { FitInTurn standard_limits store.now }
    requires left { plan.now.left < length (database_of store.now).tables }
    requires right { plan.now.right < length (database_of store.now).tables }
    ensures rows { IfOk result (λ answer. answer.rows
        ≡ map (pair_fields (rows_of (database_of store.now) plan.now.left)
        (rows_of (database_of store.now) plan.now.right)) pairs.now) }
    ensures steps { steps.new ≤ steps.old
        + (length (columns_of (database_of store.now) plan.now.left)
        + length (columns_of (database_of store.now) plan.now.right)) * length pairs.now }
{
    let mut rows = room_for(alloc, store, plan, pairs.len())?;
    for pair in pairs {
        add_pair(&mut rows, store, plan, *pair, steps)?;
    }
    Ok(rows.finish())
}

/// The pairs of a join of two tables of a snapshot, each as a row. It takes for each at most a step
/// for each column of both tables. The error is out of memory.
pub(crate) fn rows_of_pairs<L: Ledger>(
    alloc: Global,
    snapshot: &Snapshot,
    plan: &JoinPlan,
    pairs: &Seq<Pair>,
    steps: &mut Steps<L>,
) -> Result<AnswerRows, NoMemory>
    requires left { plan.now.left < length (database_of (commits_of snapshot.now)).tables }
    requires right { plan.now.right < length (database_of (commits_of snapshot.now)).tables }
    ensures rows { let db = database_of (commits_of snapshot.now) in IfOk result
        (λ answer. answer.rows
        ≡ map (pair_fields (rows_of db plan.now.left) (rows_of db plan.now.right)) pairs.now) }
    ensures steps { let db = database_of (commits_of snapshot.now) in
        steps.new ≤ steps.old
        + (length (columns_of db plan.now.left) + length (columns_of db plan.now.right))
        * length pairs.now }
{
    let _legal = snapshot.has_break(); // says that the entries are legal
    pairs_as_rows(alloc, snapshot.store(), plan, pairs.as_slice(), steps)
}
