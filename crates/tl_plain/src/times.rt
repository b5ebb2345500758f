//! When rows hold in the time of a range: over versions while they stand, over valid time within
//! their valid periods.
ghost use Rattle.std.specs.Prelude.{◌≡◌, ◌<ℤ◌, ◌≤ℤ◌, None, All, if◌then◌else◌};
ghost use Rattle.tl_types.specs.History.{is_visible};
ghost use Rattle.tl_query.specs.Joins.{times_of};
ghost use Rattle.tl_plain.specs.Choosing.{lent, is_there, IsClear, IsSteady};

use crate::rows::Row;
use std::marker::Model;
use tl_query::Span;

/// The moments from one on and before another, versions or valid times.
#[derive(Clone, Copy)]
pub(crate) struct Times {
    from: i64,
    to: i64,
}

impl Model for Times {
    ghost use Rattle.tl_types.specs.Plain as plain;

    ghost Value = { plain.Period };

    ghost view = { λ t. record { from = t.from; to = t.to } };

    ghost inverse = { λ t. record { from = t.from; to = t.to } };
}

impl Times {
    /// The first moment: a version or a valid time.
    pub fn from(&self) -> i64
        ensures { result ≡ self.now.from }
    {
        self.from
    }

    /// The moment that ends them.
    pub fn to(&self) -> i64
        ensures { result ≡ self.now.to }
    {
        self.to
    }
}

/// The times of a row in a range's time: the versions at which it stands, or its valid period where
/// it stands at the range's version.
pub(crate) fn times_of(span: Span, row: &Row) -> Option<Times>
    ensures { result ≡ times_of span row.now }
{
    match span {
        Span::System { from: _, to: _ } => Some(Times {
            from: i64::from(row.from()),
            to: i64::from(row.to()),
        }),
        Span::Valid {
            version,
            from: _,
            to: _,
        } => valid_times(version, row),
    }
}

fn valid_times(version: u32, row: &Row) -> Option<Times>
    ensures { result ≡ (if is_visible version row.now then row.now.period else None) }
{
    if !row.is_visible(version) {
        return None;
    }
    match row.period() {
        Some(period) => Some(Times {
            from: period.from(),
            to: period.to(),
        }),
        None => None,
    }
}

/// Whether a row is there at a moment of a range's time.
pub(crate) fn is_there(span: Span, moment: i64, row: &Row) -> bool
    ensures { result ≡ is_there span moment row.now }
{
    match times_of(span, row) {
        Some(times) => times.from() <= moment && moment < times.to(),
        None => false,
    }
}

// The moment `next`, or the change if it comes before it and after `at`.
fn nearer(at: i64, next: i64, change: i64) -> i64
    requires { at <ℤ next }
    ensures after { at <ℤ result }
    ensures within { result ≤ℤ next }
    ensures clear { IsClear at result change }
{
    if at < change && change < next {
        change
    } else {
        next
    }
}

// The moment `next`, or one before it and after `at` up to which a row changes nothing.
fn quiet_until(span: Span, row: &Row, at: i64, next: i64) -> i64
    requires { at <ℤ next }
    ensures after { at <ℤ result }
    ensures within { result ≤ℤ next }
    ensures quiet { IsSteady span at result row.now }
{
    match times_of(span, row) {
        Some(times) => nearer(at, nearer(at, next, times.from()), times.to()),
        None => next,
    }
}

/// The next moment after `at`, the end at most, at which a row begins or ends.
pub(crate) fn next_change(span: Span, rows: &[&Row], at: i64, end: i64) -> i64
    requires { at <ℤ end }
    ensures after { at <ℤ result }
    ensures within { result ≤ℤ end }
    ensures quiet { All (IsSteady span at result) (lent rows.now) }
{
    let mut next = end;
    for row in rows {
        next = quiet_until(span, row, at, next);
    }
    next
}
