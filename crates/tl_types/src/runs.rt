//! Pieces of a version range, and what the operators give over them: runs of one value, and pairs
//! of rows that hold together. A run more is put together with the last one where their values
//! agree.
ghost use Rattle.std.specs.Prelude.{◌≡◌, ◌<◌, OnOk};
ghost use Rattle.tl_types.specs.Runs.{same_field, add_stretch, ends_with_value};

use crate::NoMemory;
use crate::answers::Field;
use crate::cells::Cell;

/// The versions from `from` on and before `to`, where `from` is less than `to`.
#[derive(Clone, Copy, Debug, PartialEq, Eq)]
pub struct Piece {
    /// The first version of the piece.
    pub from: u32,
    /// The version after the last.
    pub to: u32,
    ghost some: { from < to },
}

/// Neighbouring moments at which an aggregate has one value.
#[derive(Debug, Drop, PartialEq, Eq)]
pub struct Run {
    /// The value of the grouping column, where there is one.
    pub group: Option<Cell>,
    /// The first moment: a version or a valid time.
    pub from: i64,
    /// The moment after the last.
    pub to: i64,
    /// The value that the aggregate has at each of them; `Empty` over no row, but a count is 0.
    pub value: Field,
}

/// Two rows that hold together, and the moments at which they do.
#[derive(Clone, Copy, Debug, PartialEq, Eq)]
pub struct Pair {
    /// The first moment: a version or a valid time.
    pub from: i64,
    /// The moment after the last.
    pub to: i64,
    /// The left row's id: its place among all rows of its table, from 0.
    pub left: u32,
    /// The right row's id: its place among all rows of its table, from 0.
    pub right: u32,
}

// Whether two fields are the same.
fn same_field(first: &Field, second: &Field) -> bool
    ensures { result ≡ same_field first.now second.now }
{
    *first == *second
}

// Whether there are runs, and the last one has the value.
fn ends_with_value(runs: &[Run], value: &Field) -> bool
    ensures { result ≡ ends_with_value runs.now value.now }
{
    match runs {
        [] => false,
        [.., last] => same_field(&last.value, value),
    }
}

/// Puts a stretch of time behind runs: the last run goes on up to the stretch's end where it has
/// the same value, else the stretch becomes a run. The runs are of one group, and the stretch
/// begins where they end. The error is `NoMemory`.
#[inline(always)]
pub fn add_stretch(runs: &mut Vec<Run>, stretch: Run) -> Result<(), NoMemory>
    ensures { OnOk result (runs.new.items ≡ add_stretch runs.old.items stretch) }
{
    if ends_with_value(runs.as_slice(), &stretch.value) {
        let last = runs.len() - 1;
        runs[last].to = stretch.to;
    } else {
        runs.push(stretch)?;
    }
    Ok(())
}
