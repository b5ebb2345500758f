//! The moments that few periods cover, as stretches with something between neighbours, in a list
//! that is gone through. A set that is full says so, and is then kept in another way.
ghost use Rattle.std.specs.Prelude.{◌≡◌, ◌+◌, ◌<◌, ◌≤◌, ◌||◌, ◌++◌, ◌<ℤ◌, ℤ, true, List, Option, [], ◌∷◌, None, Some, IfOk, IfSome, IfNone, OnOk, length, nat_le, slice_get};
ghost use Rattle.std.specs.List.{list_any};
ghost use Rattle.tl_types.specs.Plain as plain;
ghost use Rattle.tl_types.specs.History.{is_within};
ghost use Rattle.tl_batch.specs.Covers.{Full, Beyond, before_all, is_between, is_covered, joining, gaps, ended, first_begins};
ghost use Rattle.tl_batch.specs.Pieces.{affects_period, cuts};

use crate::parts::{Parts, push_part};
use smallvec::SmallVec;
use std::alloc::Global;
use std::marker::Model;
use tl_types::{NoMemory, Period};

// The most stretches that the list is for.
const MOST: usize = 32;

/// The moments that few periods cover: stretches with something between neighbours, each kept as
/// its end and the moment where it begins, in order. A call may go through them all, so a set that
/// is full is to be kept in another way.
#[derive(Drop)]
pub(crate) struct FewPeriods {
    stretches: SmallVec<(i64, i64), 2>,
}

impl Model for FewPeriods {
    ghost use Rattle.std.specs.Prelude.{ℤ, List};
    ghost use Rattle.tl_batch.specs.Covers.{Beyond, before_all};

    ghost Value = { List (ℤ × ℤ) };

    ghost view = { λ c. c.stretches.items };

    ghost invariant = { λ c. Beyond before_all c.stretches.items };
}

/// The end of a stretch.
#[inline]
pub(crate) fn end_of(stretch: &(i64, i64)) -> i64
    ensures { result ≡ stretch.now.0 }
{
    stretch.0
}

/// The moment where a stretch begins.
#[inline]
pub(crate) fn start_of(stretch: &(i64, i64)) -> i64
    ensures { result ≡ stretch.now.1 }
{
    stretch.1
}

// The number of stretches at the front that end before a moment.
fn ended(stretches: &[(i64, i64)], from: i64) -> usize
    ensures number { result ≡ ended from stretches.now }
    ensures within { result ≤ length stretches.now }
{
    for (i, stretch) in stretches.iter().enumerate() {
        if from <= end_of(stretch) {
            return i;
        }
    }
    stretches.len()
}

// The place of the first of the stretches that overlaps one or is adjacent to it.
fn joining(stretches: &[(i64, i64)], from: i64, to: i64) -> Option<usize>
    ensures some { IfSome result (λ at. joining from to stretches.now
        ≡ slice_get stretches.now at) }
    ensures within { IfSome result (λ at. at < length stretches.now) }
    ensures none { IfNone result (joining from to stretches.now ≡ None) }
{
    let at = ended(stretches, from);
    if at >= stretches.len() {
        return None;
    }
    if start_of(&stretches[at]) <= to {
        return Some(at);
    }
    None
}

// Takes away the stretches that overlap one or are adjacent to it, and gives the stretch of all of
// these.
fn absorbed(stretches: &mut SmallVec<(i64, i64), 2>, period: Period) -> (i64, i64)
    requires { Beyond before_all stretches.old.items }
    ensures beyond { Beyond before_all stretches.new.items }
    ensures order { result.0 <ℤ result.1 }
    ensures alone { joining result.0 result.1 stretches.new.items ≡ None }
    ensures covers { (t : ℤ) → (is_between t result.0 result.1
        || is_covered t stretches.new.items)
        ≡ (is_between t period.from period.to || is_covered t stretches.old.items) }
{
    let mut from = period.from();
    let mut to = period.to();
    'absorbing: while let Some(at) = joining(stretches.as_slice(), from, to) {
        let taken = stretches.remove(at);
        from = from.min(start_of(&taken));
        to = to.max(end_of(&taken));
    }
    (from, to)
}

// Whether the first of the stretches that end after a moment begins before another.
#[inline(always)]
fn first_begins(stretches: &[(i64, i64)], from: i64, to: i64) -> bool
    ensures { result ≡ first_begins from to stretches.now }
{
    for stretch in stretches {
        if from < end_of(stretch) {
            return start_of(stretch) < to;
        }
    }
    false
}

/// Whether one of stretches, each as its end and the moment where it begins, has a moment of a
/// period. There is something between neighbours.
#[inline(always)]
pub(crate) fn overlap(stretches: &[(i64, i64)], period: Period) -> bool
    requires { Beyond before_all stretches.now }
    ensures { (lines : List (Option plain.Period)) → Full lines
        → ((t : ℤ) → is_covered t stretches.now ≡ list_any (is_within t) lines)
        → result ≡ list_any (λ line. affects_period true line (Some period)) lines }
{
    first_begins(stretches, period.from(), period.to())
}

/// Whether a stretch, given by its end and the moment where it begins, has a moment of a period.
#[inline(always)]
pub(crate) fn meets(end: i64, start: i64, period: Period) -> bool
    requires { Beyond before_all ((end, start) ∷ []) }
    ensures { (lines : List (Option plain.Period)) → Full lines
        → ((t : ℤ) → is_covered t ((end, start) ∷ []) ≡ list_any (is_within t) lines)
        → result ≡ list_any (λ line. affects_period true line (Some period)) lines }
{
    if period.from() < end {
        return start < period.to();
    }
    false
}

// The times between two moments that no stretch covers.
fn gaps_between(
    alloc: Global,
    stretches: &[(i64, i64)],
    from: i64,
    to: i64,
) -> Result<Parts, NoMemory>
    ensures { IfOk result (λ left. left.items ≡ gaps from to stretches.now) }
{
    let mut left = Parts::new(alloc);
    let mut start = from;
    for stretch in stretches {
        if end_of(stretch) <= start {
            continue;
        }
        if start_of(stretch) >= to {
            push_part(&mut left, start, to)?;
            return Ok(left);
        }
        push_part(&mut left, start, start_of(stretch))?;
        start = end_of(stretch);
    }
    push_part(&mut left, start, to)?;
    Ok(left)
}

impl FewPeriods {
    /// No moments.
    pub(crate) fn new(alloc: Global) -> FewPeriods
        ensures { result ≡ [] }
    {
        FewPeriods {
            stretches: SmallVec::new(alloc),
        }
    }

    /// The moments of one period. The error is `NoMemory`.
    pub(crate) fn of(alloc: Global, period: Period) -> Result<FewPeriods, NoMemory>
        ensures { IfOk result (λ set. set ≡ (period.to, period.from) ∷ []) }
    {
        let mut stretches = SmallVec::new(alloc);
        stretches.push((period.to(), period.from()))?;
        Ok(FewPeriods { stretches })
    }

    /// Whether there are as many stretches as few can be.
    pub(crate) fn is_full(&self) -> bool
        ensures { result ≡ nat_le 32 (length self.now) }
    {
        self.stretches.len() >= MOST
    }

    /// The stretches, each as its end and the moment where it begins.
    pub(crate) fn as_slice(&self) -> &[(i64, i64)]
        ensures same { result.now ≡ self.now }
        ensures beyond { Beyond before_all self.now }
    {
        self.stretches.as_slice()
    }

    /// Covers a period too. The error is `NoMemory`.
    pub(crate) fn add(&mut self, period: Period) -> Result<(), NoMemory>
        ensures { OnOk result ((t : ℤ) → is_covered t self.new
            ≡ (is_between t period.from period.to || is_covered t self.old)) }
    {
        let (from, to) = absorbed(&mut self.stretches, period);
        let at = ended(self.stretches.as_slice(), from);
        self.stretches.insert(at, (to, from))?;
        Ok(())
    }

    /// The parts of a period that are not covered. The error is `NoMemory`.
    pub(crate) fn gaps(&self, alloc: Global, period: Period) -> Result<Parts, NoMemory>
        ensures some { period.from <ℤ period.to }
        ensures value { IfOk result (λ left. left.items ≡ gaps period.from period.to self.now) }
        ensures lines { IfOk result (λ left. (lines : List (Option plain.Period)) → Full lines
            → ((t : ℤ) → is_covered t self.now ≡ list_any (is_within t) lines) → left.items
            ≡ cuts true lines (Some period)) }
    {
        let left = gaps_between(alloc, self.stretches.as_slice(), period.from(), period.to())?;
        Ok(left)
    }
}
