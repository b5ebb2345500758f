//! The moments that the lines of one key cover, lent as the one stretch, the list or the tree that
//! they are kept as. It answers whether a period is affected, and changes nothing.
ghost use Rattle.std.specs.Prelude.{◌≡◌, ℤ, true, List, Option, [], ◌∷◌, IfSome, option_map};
ghost use Rattle.std.specs.List.{list_any};
ghost use Rattle.tl_types.specs.Plain as plain;
ghost use Rattle.tl_types.specs.History.{is_within};
ghost use Rattle.tl_batch.specs.Covers.{Beyond, Full, before_all, is_covered, stretches_or};
ghost use Rattle.tl_batch.specs.StretchesRefs.{AreApart, stretches_shown};
ghost use Rattle.tl_batch.specs.Pieces.{affects_period};
ghost use Rattle.tl_batch.specs.Stretches.{stretches_in};

use crate::few_periods::{end_of, meets, overlap, start_of};
use crate::many_periods::ManyPeriods;
use crate::period_set::{PeriodSet, Stretches};
use std::marker::Model;
use tl_types::Period;

/// Stretches that are lent, each as its end and the moment where it begins.
#[derive(Drop)]
pub(crate) enum StretchesRef<'a> {
    /// One stretch.
    One(i64, i64),
    /// Stretches that stand in a list.
    Few(&'a [(i64, i64)]),
    /// Stretches that stand in a tree.
    Many(&'a ManyPeriods),
}

/// The moments that the lines of one key cover: those of a set, or none where the key has no set.
#[derive(Drop)]
pub(crate) struct Cover<'a> {
    stretches: StretchesRef<'a>,
}

impl<'a> Model for Cover<'a> {
    ghost use Rattle.std.specs.Prelude.{ℤ, List};
    ghost use Rattle.tl_batch.specs.StretchesRefs.{AreApart, stretches_shown};

    ghost Value = { List (ℤ × ℤ) };

    ghost view = { λ c. stretches_shown c.stretches };

    ghost invariant = { λ c. AreApart c.stretches };
}

// Stretches of a list, lent. One alone is read off.
#[inline(always)]
fn few_stretches(stretches: &[(i64, i64)]) -> StretchesRef<'_>
    requires { Beyond before_all stretches.now }
    ensures same { stretches_shown result ≡ stretches.now }
    ensures apart { AreApart result }
{
    if stretches.len() == 1 {
        let only = &stretches[0];
        return StretchesRef::One(end_of(only), start_of(only));
    }
    StretchesRef::Few(stretches)
}

// The stretches of a set, lent.
fn stretches_of(stretches: &Stretches) -> StretchesRef<'_>
    ensures same { stretches_shown result ≡ stretches_in stretches.now }
    ensures apart { AreApart result }
{
    match stretches {
        Stretches::Few(few) => few_stretches(few.as_slice()),
        Stretches::Many(many) => StretchesRef::Many(many),
    }
}

// No stretches.
fn none<'a>() -> StretchesRef<'a>
    ensures same { stretches_shown result ≡ [] }
    ensures apart { AreApart result }
{
    StretchesRef::Few(&[])
}

impl<'a> Cover<'a> {
    /// The moments of a set, or none.
    #[inline(always)]
    pub(crate) fn new(moments: Option<&'a PeriodSet>) -> Cover<'a>
        ensures { result ≡ stretches_or (option_map (λ m. m.now) moments.entry) }
    {
        match moments {
            Some(set) => Cover {
                stretches: stretches_of(set.stretches()),
            },
            None => Cover { stretches: none() },
        }
    }

    /// The stretch, where one stands alone: its end, and the moment where it begins.
    #[inline(always)]
    pub(crate) fn one(&self) -> Option<(i64, i64)>
        ensures same { IfSome result (λ s. self.now ≡ s ∷ []) }
        ensures apart { IfSome result (λ s. Beyond before_all (s ∷ [])) }
    {
        match &self.stretches {
            StretchesRef::One(end, start) => Some((*end, *start)),
            StretchesRef::Few(_) => None,
            StretchesRef::Many(_) => None,
        }
    }

    /// Whether a line affects a valid period.
    #[inline(always)]
    pub(crate) fn affects(&self, whole: &Option<Period>) -> bool
        ensures { (lines : List (Option plain.Period)) → Full lines
            → ((t : ℤ) → is_covered t self.now ≡ list_any (is_within t) lines)
            → result ≡ list_any (λ line. affects_period true line whole.now) lines }
    {
        let Some(period) = whole else {
            return false;
        };
        match &self.stretches {
            StretchesRef::One(end, start) => meets(*end, *start, *period),
            StretchesRef::Few(stretches) => overlap(stretches, *period),
            StretchesRef::Many(many) => many.overlaps(*period),
        }
    }
}
