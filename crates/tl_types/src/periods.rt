//! Half-open periods of valid time, in the user's unit. A period keeps that it begins before it
//! ends, and cannot be made otherwise.
ghost use Rattle.std.specs.Prelude.{◌≡◌, ◌<ℤ◌};

use std::marker::Model;

/// The moments of valid time from `from` on and before `to`, where `from` is less than `to`. A `to`
/// of `FOREVER` has no end.
#[derive(Clone, Copy, Debug, PartialEq, Eq)]
pub struct Period {
    from: i64,
    to: i64,
}

impl Model for Period {
    ghost use Rattle.std.specs.Prelude.{◌<ℤ◌};
    ghost use Rattle.tl_types.specs.Plain as plain;

    ghost Value = { plain.Period };

    ghost view = { λ p. record { from = p.from; to = p.to } };

    ghost invariant = { λ p. p.from <ℤ p.to };

    ghost inverse = { λ p. record { from = p.from; to = p.to } };
}

impl Period {
    /// The end of a period that has none.
    pub const FOREVER: i64 = i64::MAX;

    /// The period of two valid times, of which the first is less than the second.
    pub fn new(from: i64, to: i64) -> Period
        requires { from <ℤ to }
        ensures { result ≡ record { from = from; to = to } }
    {
        Period { from, to }
    }

    /// The first valid time of the period.
    pub fn from(&self) -> i64
        ensures value { result ≡ self.now.from }
        ensures some { self.now.from <ℤ self.now.to }
    {
        self.from
    }

    /// The valid time at which the period has ended.
    pub fn to(&self) -> i64
        ensures value { result ≡ self.now.to }
        ensures some { self.now.from <ℤ self.now.to }
    {
        self.to
    }
}
