//! The moments that periods cover: a list of stretches while these are few, and then a tree. Either
//! keeps something between neighbours, and gives what is left of a period.
ghost use Rattle.std.specs.Prelude.{◌≡◌, ◌||◌, ◌<ℤ◌, ℤ, true, List, Option, [], ◌∷◌, Some, IfOk, IfSome, OnOk};
ghost use Rattle.std.specs.List.{list_any};
ghost use Rattle.tl_types.specs.Plain as plain;
ghost use Rattle.tl_types.specs.History.{is_within};
ghost use Rattle.tl_batch.specs.Covers.{Full, Beyond, before_all, is_between, is_covered, gaps};
ghost use Rattle.tl_batch.specs.Pieces.{affects_period, cuts};
ghost use Rattle.tl_batch.specs.Stretches.{stretches_in};

use crate::few_periods::FewPeriods;
use crate::many_periods::ManyPeriods;
use crate::parts::Parts;
use std::alloc::Global;
use std::marker::Model;
use tl_types::{NoMemory, Period};

/// The moments that periods cover, as stretches with something between neighbours.
#[derive(Drop)]
pub(crate) enum Stretches {
    /// Stretches that stand in a list.
    Few(FewPeriods),
    /// Stretches that stand in a tree.
    Many(ManyPeriods),
}

/// The moments that periods cover: a list of stretches while these are few, as they mostly are, and
/// then a tree. A contract sees the stretches, each as its end and the moment where it begins.
#[derive(Drop)]
pub(crate) struct PeriodSet {
    stretches: Stretches,
}

impl Model for PeriodSet {
    ghost use Rattle.std.specs.Prelude.{ℤ, List};
    ghost use Rattle.tl_batch.specs.Stretches.{stretches_in};

    ghost Value = { List (ℤ × ℤ) };

    ghost view = { λ c. stretches_in c.stretches };
}

// Covers a stretch too, which is not empty.
fn add_stretch(many: &mut ManyPeriods, stretch: &(i64, i64)) -> Result<(), NoMemory>
    requires { stretch.now.1 <ℤ stretch.now.0 }
    ensures { OnOk result ((t : ℤ) → is_covered t many.new
        ≡ (is_between t stretch.now.1 stretch.now.0 || is_covered t many.old)) }
{
    many.add(Period::new(stretch.1, stretch.0))?;
    Ok(())
}

// The moments of a list of stretches, in a tree. The error is `NoMemory`.
fn many_of(alloc: Global, stretches: &[(i64, i64)]) -> Result<ManyPeriods, NoMemory>
    requires { Beyond before_all stretches.now }
    ensures { IfOk result (λ many. (t : ℤ) → is_covered t many
        ≡ is_covered t stretches.now) }
{
    let mut many = ManyPeriods::new(alloc);
    for stretch in stretches {
        add_stretch(&mut many, stretch)?;
    }
    Ok(many)
}

// The tree that takes the place of a list that is full. The error is `NoMemory`.
fn grown(alloc: Global, stretches: &Stretches) -> Result<Option<ManyPeriods>, NoMemory>
    ensures { IfOk result (λ grown. IfSome grown (λ many. (t : ℤ) → is_covered t many
        ≡ is_covered t (stretches_in stretches.now))) }
{
    let Stretches::Few(few) = stretches else {
        return Ok(None);
    };
    if !few.is_full() {
        return Ok(None);
    }
    let many = many_of(alloc, few.as_slice())?;
    Ok(Some(many))
}

// Covers a period too. The error is `NoMemory`.
fn add_to(stretches: &mut Stretches, period: Period) -> Result<(), NoMemory>
    ensures { OnOk result ((t : ℤ) → is_covered t (stretches_in stretches.new)
        ≡ (is_between t period.from period.to || is_covered t (stretches_in stretches.old))) }
{
    match stretches {
        Stretches::Few(few) => {
            few.add(period)?;
            Ok(())
        }
        Stretches::Many(many) => {
            many.add(period)?;
            Ok(())
        }
    }
}

impl PeriodSet {
    /// No moments.
    pub(crate) fn new(alloc: Global) -> PeriodSet
        ensures { result ≡ [] }
    {
        PeriodSet {
            stretches: Stretches::Few(FewPeriods::new(alloc)),
        }
    }

    /// The moments of one period. The error is `NoMemory`.
    pub(crate) fn of(alloc: Global, period: Period) -> Result<PeriodSet, NoMemory>
        ensures { IfOk result (λ set. set ≡ (period.to, period.from) ∷ []) }
    {
        let few = FewPeriods::of(alloc, period)?;
        Ok(PeriodSet {
            stretches: Stretches::Few(few),
        })
    }

    /// Covers a period too. The error is `NoMemory`.
    pub(crate) fn add(&mut self, alloc: Global, period: Period) -> Result<(), NoMemory>
        ensures { OnOk result ((t : ℤ) → is_covered t self.new
            ≡ (is_between t period.from period.to || is_covered t self.old)) }
    {
        if let Some(many) = grown(alloc, &self.stretches)? {
            self.stretches = Stretches::Many(many);
        }
        add_to(&mut self.stretches, period)?;
        Ok(())
    }

    /// The stretches, as they are kept.
    pub(crate) fn stretches(&self) -> &Stretches
        ensures { stretches_in result.now ≡ self.now }
    {
        &self.stretches
    }

    /// The parts of a period that are not covered. The error is `NoMemory`.
    pub(crate) fn gaps(&self, alloc: Global, period: Period) -> Result<Parts, NoMemory>
        ensures some { period.from <ℤ period.to }
        ensures value { IfOk result (λ left. left.items ≡ gaps period.from period.to self.now) }
        ensures lines { IfOk result (λ left. (lines : List (Option plain.Period)) → Full lines
            → ((t : ℤ) → is_covered t self.now ≡ list_any (is_within t) lines) → left.items
            ≡ cuts true lines (Some period)) }
    {
        match &self.stretches {
            Stretches::Few(few) => {
                let left = few.gaps(alloc, period)?;
                Ok(left)
            }
            Stretches::Many(many) => {
                let left = many.gaps(alloc, period)?;
                Ok(left)
            }
        }
    }
}
