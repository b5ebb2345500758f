//! Runs of pieces that follow on each other, put together group by group, in the order of their
//! values. Runs of two groups are never joined, nor runs with a gap between them.
ghost use Rattle.std.specs.Prelude.{◌≡◌, ℕ, ◌≤◌, ◌++◌, ◌||◌, [], None, Bool, List, reverse, OnOk, IfOk};
ghost use Rattle.tl_types.specs.Plain as plain;
ghost use Rattle.tl_types.specs.Runs.{seam};
ghost use Rattle.tl_query.specs.declared.typed_queries.AggPlan.{AggPlan};
ghost use Rattle.tl_running.specs.Standing.{Suits};
ghost use Rattle.tl_agg.specs.Runs.{system_runs};
ghost use Rattle.tl_agg.specs.Seams.{same_group, stands_behind, ends_with_group, add_grouped, front_upto, rest_behind, seam_behind, have_groups, seam_of};

use tl_running::add_touching;
use tl_types::{Cell, NoMemory, Run, Seq, add_stretch};

// Whether two groups are one.
#[tactic(auto, using(tl_query::proofs::CellOrder::same_cells))]
fn same_group(first: &Option<Cell>, second: &Option<Cell>) -> bool
    ensures { result ≡ same_group first.now second.now }
{
    match first {
        None => second.is_none(),
        Some(value) => match second {
            None => false,
            Some(other) => *value == *other,
        },
    }
}

// Whether a group stands behind another.
#[tactic(auto, using(tl_query::proofs::CellOrder::cells_before))]
fn stands_behind(group: &Option<Cell>, other: &Option<Cell>) -> bool
    ensures { result ≡ stands_behind group.now other.now }
{
    match group {
        None => false,
        Some(value) => match other {
            None => false,
            Some(least) => *least < *value,
        },
    }
}

// Whether there are runs, and the last one is of the group.
fn ends_with_group(runs: &[Run], group: &Option<Cell>) -> bool
    ensures { result ≡ ends_with_group runs.now group.now }
{
    match runs {
        [] => false,
        [.., last] => same_group(&last.group, group),
    }
}

// Puts a run behind runs: one of the same group as the last of them is put together with it, where
// that goes on.
fn add_grouped(runs: &mut Vec<Run>, run: Run) -> Result<(), NoMemory>
    ensures { OnOk result (runs.new.items ≡ add_grouped runs.old.items run) }
{
    if ends_with_group(runs.as_slice(), &run.group) {
        return add_touching(runs, run);
    }
    runs.push(run)?;
    Ok(())
}

// Moves the runs at the end of `back`, the last one first, behind those that are done, as long as
// their groups are not behind that of a run.
fn move_upto(done: &mut Vec<Run>, back: &mut Vec<Run>, run: &Run) -> Result<(), NoMemory>
    ensures done { OnOk result (done.new.items
        ≡ done.old.items ++ front_upto run.now (reverse back.old.items)) }
    ensures back { OnOk result (reverse back.new.items
        ≡ rest_behind run.now (reverse back.old.items)) }
{
    'runs: while let Some(next) = back.pop() {
        if stands_behind(&next.group, &run.group) {
            back.push(next)?;
            return Ok(());
        }
        done.push(next)?;
    }
    Ok(())
}

// Takes the runs of the second piece, behind what is done and what the first piece has left, whose
// last run comes first.
fn take_right(done: &mut Vec<Run>, back: &mut Vec<Run>, right: Vec<Run>) -> Result<(), NoMemory>
    ensures { OnOk result ((more : List Run)
        → seam_behind done.new.items (reverse back.new.items) more
        ≡ seam_behind done.old.items (reverse back.old.items) (right.items ++ more)) }
{
    for run in right {
        move_upto(done, back, &run)?;
        add_grouped(done, run)?;
    }
    Ok(())
}

// The runs of two pieces of which the second follows on the first, put together group by group.
fn groups_joined(left: Vec<Run>, right: Vec<Run>) -> Result<Vec<Run>, NoMemory>
    ensures { IfOk result (λ runs. runs.items
        ≡ seam_behind [] left.items right.items) }
{
    let mut done = Vec::new(*left.allocator());
    let mut back = left;
    back.reverse();
    take_right(&mut done, &mut back, right)?;
    back.reverse();
    done.append(&mut back)?;
    Ok(done)
}

// The runs, and behind them those of a range that begins where they end.
fn joined(left: Vec<Run>, right: Vec<Run>) -> Result<Vec<Run>, NoMemory>
    ensures { IfOk result (λ runs. runs.items ≡ seam left.items right.items) }
{
    let mut left = left;
    for run in right {
        add_stretch(&mut left, run)?;
    }
    Ok(left)
}

// Whether the runs have groups.
fn have_groups(runs: &[Run]) -> bool
    ensures { result ≡ have_groups runs.now }
{
    match runs {
        [] => false,
        [run, ..] => run.group.is_some(),
    }
}

// Whether the runs of one of two lists have groups.
fn has_groups(left: &[Run], right: &[Run]) -> bool
    ensures { result ≡ (have_groups left.now || have_groups right.now) }
{
    have_groups(left) || have_groups(right)
}

// The runs of two pieces that follow on each other, put together.
fn put_together(left: Vec<Run>, right: Vec<Run>) -> Result<Vec<Run>, NoMemory>
    ensures { IfOk result (λ runs. runs.items ≡ seam_of left.items right.items) }
{
    if has_groups(left.as_slice(), right.as_slice()) {
        let runs = groups_joined(left, right)?;
        return Ok(runs);
    }
    let runs = joined(left, right)?;
    Ok(runs)
}

/// The runs of two pieces that follow on each other, put together: a run of the one that goes on in
/// the other is one run. Where a column separates the rows into groups, they stay in order of the
/// groups, and two runs of a group are one only where the first ends when the second begins. They
/// are those of one aggregate of all rows together. The error is `NoMemory`.
pub fn seam(left: Seq<Run>, right: Seq<Run>) -> Result<Seq<Run>, NoMemory>
    ensures single { IfOk result (λ runs. (plan : AggPlan) (rows : List plain.Row)
        (keep : List Bool) (from middle to : ℕ) → plan.by ≡ None → from ≤ middle → middle ≤ to
        → left ≡ system_runs plan rows keep from middle
        → right ≡ system_runs plan rows keep middle to
        → runs ≡ system_runs plan rows keep from to) }
    ensures groups { IfOk result (λ runs. (plan : AggPlan) (rows : List plain.Row)
        (keep : List Bool) (from middle to : ℕ) → Suits plan.kind plan.column rows
        → from ≤ middle → middle ≤ to → left ≡ system_runs plan rows keep from middle
        → right ≡ system_runs plan rows keep middle to
        → runs ≡ system_runs plan rows keep from to) }
{
    let runs = put_together(left.into_vec(), right.into_vec())?;
    Ok(Seq::from_vec(runs))
}
