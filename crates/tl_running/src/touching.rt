//! Runs of a group, which may have gaps between them. Two that touch and have one value are put
//! together; a gap is never closed.
ghost use Rattle.std.specs.Prelude.{◌≡◌, OnOk};
ghost use Rattle.tl_types.specs.Runs.{same_field};
ghost use Rattle.tl_running.specs.Touching.{goes_on_as, add_touching, last_goes_on};

use tl_types::{Field, NoMemory, Run};

// Whether two fields are the same.
fn same_field(first: &Field, second: &Field) -> bool
    ensures { result ≡ same_field first.now second.now }
{
    *first == *second
}

// Whether a run goes on as a stretch behind it.
fn goes_on_as(run: &Run, stretch: &Run) -> bool
    ensures { result ≡ goes_on_as run.now stretch.now }
{
    same_field(&run.value, &stretch.value) && run.to == stretch.from
}

// Whether there are runs, and the last one goes on as the stretch.
fn last_goes_on(runs: &[Run], stretch: &Run) -> bool
    ensures { result ≡ last_goes_on runs.now stretch.now }
{
    match runs {
        [] => false,
        [.., last] => goes_on_as(last, stretch),
    }
}

/// Puts a stretch of time behind the runs of its group, which may have gaps between them: the last
/// run goes on up to the stretch's end where it has the same value and ends where the stretch
/// begins, else the stretch becomes a run. The error is `NoMemory`.
#[inline(always)]
pub fn add_touching(runs: &mut Vec<Run>, stretch: Run) -> Result<(), NoMemory>
    ensures { OnOk result (runs.new.items ≡ add_touching runs.old.items stretch) }
{
    if last_goes_on(runs.as_slice(), &stretch) {
        let last = runs.len() - 1;
        runs[last].to = stretch.to;
    } else {
        runs.push(stretch)?;
    }
    Ok(())
}
