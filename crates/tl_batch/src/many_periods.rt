//! The moments that many periods cover, as stretches with something between neighbours, in a tree
//! by their ends. It refuses nothing but memory.
ghost use Rattle.std.specs.Prelude.{◌≡◌, ◌||◌, ◌++◌, ◌<ℤ◌, ℤ, true, List, Option, [], None, Some, IfOk, OnOk};
ghost use Rattle.std.specs.List.{list_any};
ghost use Rattle.tl_types.specs.Plain as plain;
ghost use Rattle.tl_types.specs.History.{is_within};
ghost use Rattle.tl_batch.specs.Covers.{Full, Beyond, before_all, is_between, is_covered, joining, gaps};
ghost use Rattle.tl_batch.specs.Pieces.{affects_period, cuts};

use crate::parts::{Parts, push_part};
use std::alloc::Global;
use std::collections::BTreeMap;
use std::marker::Model;
use std::ops::Bound;
use tl_types::{NoMemory, Period};

/// The moments that many periods cover: stretches with something between neighbours, each kept as
/// its end and the moment where it begins, in order.
#[derive(Drop)]
pub(crate) struct ManyPeriods {
    stretches: BTreeMap<i64, i64>,
}

impl Model for ManyPeriods {
    ghost use Rattle.std.specs.Prelude.{ℤ, List};
    ghost use Rattle.tl_batch.specs.Covers.{Beyond, before_all};

    ghost Value = { List (ℤ × ℤ) };

    ghost view = { λ c. c.stretches.entries };

    ghost invariant = { λ c. Beyond before_all c.stretches.entries };
}

// A moment that is lent.
fn moment(lent: &i64) -> i64
    ensures { result ≡ lent.now }
{
    *lent
}

// The first of the stretches that overlaps one or is adjacent to it: its end, and where it begins.
fn joining(stretches: &BTreeMap<i64, i64>, from: i64, to: i64) -> Option<(i64, i64)>
    requires { Beyond before_all stretches.now.entries }
    ensures { result ≡ joining from to stretches.now.entries }
{
    match stretches.range(from..).next() {
        Some((end, start)) => {
            let start = moment(start);
            if start <= to {
                Some((moment(end), start))
            } else {
                None
            }
        }
        None => None,
    }
}

// Takes away the stretches that overlap one or are adjacent to it, and gives the stretch of all of
// these.
fn absorbed(stretches: &mut BTreeMap<i64, i64>, period: Period) -> (i64, i64)
    requires { Beyond before_all stretches.old.entries }
    ensures beyond { Beyond before_all stretches.new.entries }
    ensures order { result.0 <ℤ result.1 }
    ensures alone { joining result.0 result.1 stretches.new.entries ≡ None }
    ensures covers { (t : ℤ) → (is_between t result.0 result.1
        || is_covered t stretches.new.entries)
        ≡ (is_between t period.from period.to || is_covered t stretches.old.entries) }
{
    let mut from = period.from();
    let mut to = period.to();
    'absorbing: while let Some((end, start)) = joining(stretches, from, to) {
        stretches.remove(&end);
        from = from.min(start);
        to = to.max(end);
    }
    (from, to)
}

impl ManyPeriods {
    /// No moments.
    pub(crate) fn new(alloc: Global) -> ManyPeriods
        ensures { result ≡ [] }
    {
        ManyPeriods {
            stretches: BTreeMap::new(alloc),
        }
    }

    /// Covers a period too. The error is `NoMemory`.
    pub(crate) fn add(&mut self, period: Period) -> Result<(), NoMemory>
        ensures { OnOk result ((t : ℤ) → is_covered t self.new
            ≡ (is_between t period.from period.to || is_covered t self.old)) }
    {
        let (from, to) = absorbed(&mut self.stretches, period);
        self.stretches.insert(to, from)?;
        Ok(())
    }

    /// Whether a moment of a period is covered.
    #[inline(never)]
    pub(crate) fn overlaps(&self, period: Period) -> bool
        ensures { (lines : List (Option plain.Period)) → Full lines
            → ((t : ℤ) → is_covered t self.now ≡ list_any (is_within t) lines)
            → result ≡ list_any (λ line. affects_period true line (Some period)) lines }
    {
        let behind = (Bound::Excluded(period.from()), Bound::Unbounded);
        match self.stretches.range(behind).next() {
            Some((_, start)) => moment(start) < period.to(),
            None => false,
        }
    }

    /// The parts of a period that are not covered. The error is `NoMemory`.
    pub(crate) fn gaps(&self, alloc: Global, period: Period) -> Result<Parts, NoMemory>
        ensures some { period.from <ℤ period.to }
        ensures value { IfOk result (λ left. left.items ≡ gaps period.from period.to self.now) }
        ensures lines { IfOk result (λ left. (lines : List (Option plain.Period)) → Full lines
            → ((t : ℤ) → is_covered t self.now ≡ list_any (is_within t) lines) → left.items
            ≡ cuts true lines (Some period)) }
    {
        let to = period.to();
        let mut left = Parts::new(alloc);
        let mut from = period.from();
        let behind = (Bound::Excluded(from), Bound::Unbounded);
        for (end, start) in self.stretches.range(behind) {
            let start = moment(start);
            if start >= to {
                push_part(&mut left, from, to)?;
                return Ok(left);
            }
            push_part(&mut left, from, start)?;
            from = moment(end);
        }
        push_part(&mut left, from, to)?;
        Ok(left)
    }
}
