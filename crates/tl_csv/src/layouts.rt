//! How the records behind a header are laid out: what each field is, and where the columns and the
//! ends of the period stand. No place stands twice.
ghost use Rattle.std.specs.Prelude.{◌≡◌, ◌+◌, ◌<◌, ◌^◌, length};
ghost use Rattle.tl_csv.specs.Layouts.{are_places_from, are_in_order, IsLayout};

use crate::needs::FieldKind;
use std::marker::Model;
use tl_types::Seq;

/// Where the ends of a period stand in each record, from 0.
#[derive(Clone, Copy)]
pub struct PeriodPlaces {
    /// The place of the first valid time.
    pub from: usize,
    /// The place of the valid time at which the period has ended.
    pub to: usize,
}

/// How the records behind a header are laid out: what each field is, where the cells of 1 to 16
/// columns stand, each at a place of its own, and where the ends of the period stand.
#[derive(Drop)]
pub struct Layout {
    kinds: Seq<FieldKind>,
    columns: Seq<usize>,
    period: Option<PeriodPlaces>,
    // Whether the columns' cells come first and in the order of the table.
    in_order: bool,
}

// Whether places are those from a number on, in order.
fn are_places_from(first: usize, places: &[usize]) -> bool
    requires { first + length places.now < 2 ^ 64 }
    ensures { result ≡ are_places_from first places.now }
{
    match places {
        [] => true,
        [place, ..] if *place != first => false,
        [_, rest @ ..] => are_places_from(first + 1, rest),
    }
}

fn are_in_order(places: &[usize]) -> bool
    ensures { result ≡ are_in_order places.now }
{
    are_places_from(0, places)
}

impl Model for Layout {
    ghost use Rattle.tl_csv.specs.Layouts as plain;
    ghost use Rattle.std.specs.Prelude.{◌≡◌};
    ghost use Rattle.tl_csv.specs.Layouts.{are_in_order, IsLayout};

    ghost Value = { plain.Layout };

    ghost view = { λ l. record { kinds = l.kinds; columns = l.columns; period = l.period } };

    ghost invariant = { λ l. IsLayout (record {
      kinds = l.kinds;
      columns = l.columns;
      period = l.period;
    }) × (l.in_order ≡ are_in_order l.columns) };
}

impl Layout {
    /// The layout of records whose fields are of these kinds, with the columns' cells at these
    /// places and the ends of the period at these, counted from 0.
    pub fn new(kinds: Seq<FieldKind>, columns: Seq<usize>, period: Option<PeriodPlaces>) -> Layout
        requires { IsLayout (record { kinds = kinds; columns = columns; period = period }) }
        ensures { result ≡ record { kinds = kinds; columns = columns; period = period } }
    {
        let in_order = are_in_order(columns.as_slice());
        Layout {
            kinds,
            columns,
            period,
            in_order,
        }
    }

    /// What each field of a record is, in the order of the header.
    pub fn kinds(&self) -> &[FieldKind]
        ensures value { result.now ≡ self.now.kinds }
        ensures kept { IsLayout self.now }
    {
        self.kinds.as_slice()
    }

    /// The places of the columns' cells in a record, from 0, in the order of the table.
    pub fn columns(&self) -> &[usize]
        ensures value { result.now ≡ self.now.columns }
        ensures kept { IsLayout self.now }
    {
        self.columns.as_slice()
    }

    /// The places of the period's ends, where the table has valid time.
    pub fn period(&self) -> Option<PeriodPlaces>
        ensures value { result ≡ self.now.period }
        ensures kept { IsLayout self.now }
    {
        self.period
    }

    /// Whether the columns' cells come first in each record, in the order of the table.
    pub fn is_in_order(&self) -> bool
        ensures { result ≡ are_in_order self.now.columns }
    {
        self.in_order
    }
}
