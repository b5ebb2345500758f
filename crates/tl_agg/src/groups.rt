//! The group of rows of one aggregate, while a scan goes on. It keeps the runs up to the last
//! version that changed it; a version before that one cannot be taken any more.
ghost use Rattle.std.specs.Prelude.{◌≡◌, ◌<◌, pos, true, OnOk};
ghost use Rattle.tl_types.specs.Runs.{stretch_of};
ghost use Rattle.tl_running.specs.Standing.{CanChange};
ghost use Rattle.tl_agg.specs.Groups.{State, put_stretch, IsNone, Advances, Shifts, Moves, recounted, summed};

use std::alloc::Global;
use std::marker::Model;
use tl_query::AggKind;
use tl_running::{Running, add_touching};
use tl_types::{Field, NoMemory, Run, add_stretch};

/// What is kept of the rows of a group that stand, the version since which they are the same, and
/// the runs before it. Where the runs have gaps, a stretch without a row makes none.
#[derive(Drop)]
pub(crate) struct Group {
    running: Running,
    since: u32,
    runs: Vec<Run>,
    gaps: bool,
}

impl Model for Group {
    ghost use Rattle.tl_agg.specs.Groups.{State};

    ghost Value = { State };

    ghost view = { λ g. record {
      running = g.running;
      since = g.since;
      runs = g.runs.items;
      gaps = g.gaps;
    } };
}

/// A stretch of versions with one value.
pub(crate) fn stretch_of(from: u32, to: u32, value: Field) -> Run
    ensures { result ≡ stretch_of (pos from) (pos to) value }
{
    Run {
        group: None,
        from: i64::from(from),
        to: i64::from(to),
        value,
    }
}

// Makes room for a list of runs four times as long: a list that is full is copied, and a run is
// large.
#[inline(never)]
fn grow(runs: &mut Vec<Run>) -> Result<(), NoMemory>
    ensures { OnOk result (runs.new.items ≡ runs.old.items) }
{
    runs.reserve(runs.len().saturating_mul(3).max(4))?;
    Ok(())
}

/// Makes room for more runs where there is none.
#[inline(always)]
pub(crate) fn make_room(runs: &mut Vec<Run>) -> Result<(), NoMemory>
    ensures { OnOk result (runs.new.items ≡ runs.old.items) }
{
    if runs.len() == runs.capacity() {
        return grow(runs);
    }
    Ok(())
}

// Puts a stretch of so many rows behind runs that have gaps.
#[inline(always)]
fn put_touching(runs: &mut Vec<Run>, count: u32, stretch: Run) -> Result<(), NoMemory>
    ensures { OnOk result
        (runs.new.items ≡ put_stretch true count runs.old.items stretch) }
{
    if count == 0 {
        return Ok(());
    }
    add_touching(runs, stretch)
}

// Puts a stretch of so many rows behind runs.
#[inline(always)]
fn put_stretch(runs: &mut Vec<Run>, gaps: bool, count: u32, stretch: Run) -> Result<(), NoMemory>
    ensures { OnOk result
        (runs.new.items ≡ put_stretch gaps count runs.old.items stretch) }
{
    if gaps {
        return put_touching(runs, count, stretch);
    }
    add_stretch(runs, stretch)
}

impl Group {
    /// A group of no rows since a version, without runs before it.
    pub(crate) fn none(alloc: Global, kind: AggKind, gaps: bool, since: u32) -> Group
        ensures { IsNone result kind gaps since }
    {
        Group {
            running: Running::none(alloc, kind),
            since,
            runs: Vec::new(alloc),
            gaps,
        }
    }

    // Makes the runs reach up to a version behind that of the last change.
    #[inline(never)]
    fn close(&mut self, to: u32) -> Result<(), NoMemory>
        requires { self.old.since < to }
        ensures { OnOk result (Advances self.old self.new to) }
    {
        make_room(&mut self.runs)?;
        let stretch = stretch_of(self.since, to, self.running.value());
        put_stretch(&mut self.runs, self.gaps, self.running.count(), stretch)?;
        self.since = to;
        Ok(())
    }

    /// Makes the runs reach up to a version, which is not before those of the last change. The
    /// error is `NoMemory`.
    #[inline(always)]
    pub(crate) fn advance(&mut self, to: u32) -> Result<(), NoMemory>
        ensures { OnOk result (Advances self.old self.new to) }
    {
        if self.since >= to {
            return Ok(());
        }
        self.close(to)
    }

    /// A number comes into the group where `opens`, else it goes, at the version up to which its
    /// runs reach. The error is `NoMemory`.
    pub(crate) fn shift(&mut self, opens: bool, number: i64) -> Result<(), NoMemory>
        requires { CanChange opens self.old.running number }
        ensures { OnOk result (Shifts self.old self.new opens number) }
    {
        self.running.change(opens, number)
    }

    /// How many rows there are.
    pub(crate) fn count(&self) -> u32
        ensures { result ≡ self.now.running.count }
    {
        self.running.count()
    }

    /// Says how many rows there are, where they are only counted.
    pub(crate) fn set_count(&mut self, count: u32)
        ensures { self.new ≡ recounted self.old count }
    {
        self.running.set_count(count);
    }

    /// The sum of the numbers.
    pub(crate) fn sum(&self) -> i128
        ensures { result ≡ self.now.running.sum }
    {
        self.running.sum()
    }

    /// Says how many rows there are, and the sum of their numbers, where these have no order.
    pub(crate) fn set_sums(&mut self, count: u32, sum: i128)
        ensures { self.new ≡ summed self.old count sum }
    {
        self.running.set_sums(count, sum);
    }

    /// A number comes into the group at a version where `opens`, else it goes. The error is
    /// `NoMemory`.
    #[inline(always)]
    pub(crate) fn change(&mut self, at: u32, opens: bool, number: i64) -> Result<(), NoMemory>
        requires { CanChange opens self.old.running number }
        ensures { OnOk result (Moves self.old self.new at opens number) }
    {
        self.advance(at)?;
        self.running.change(opens, number)
    }

    /// How many runs there are at most when they are made to reach up to a version.
    pub(crate) fn most_runs(&self) -> usize {
        self.runs.len().saturating_add(1)
    }

    /// The runs.
    pub(crate) fn into_runs(self) -> Vec<Run>
        ensures { result.items ≡ self.runs }
    {
        self.runs
    }
}
