//! The moments that commits state, each with its version. A moment that is not greater than the
//! last one is no later one.
ghost use Rattle.std.specs.Prelude.{◌≡◌};
ghost use Rattle.tl_types.specs.History.{is_later, last_moment};

use std::marker::Model;

/// A moment, and the version at which it was stated.
#[derive(Clone, Copy)]
pub(crate) struct Stamp {
    version: u32,
    moment: i64,
}

impl Model for Stamp {
    ghost use Rattle.tl_types.specs.Plain as plain;

    ghost Value = { plain.Stamp };

    ghost view = { λ s. record { version = s.version; moment = s.moment } };

    ghost inverse = { λ s. record { version = s.version; moment = s.moment } };
}

impl Stamp {
    /// The stamp of a moment that is stated at this version.
    pub fn new(version: u32, moment: i64) -> Stamp
        ensures { result ≡ record { version = version; moment = moment } }
    {
        Stamp { version, moment }
    }

    fn moment(&self) -> i64
        ensures { result ≡ self.now.moment }
    {
        self.moment
    }
}

/// Whether a moment is greater than that of the last stamp, where there is one.
pub(crate) fn is_later(stamps: &[Stamp], moment: i64) -> bool
    ensures { result ≡ is_later moment (last_moment stamps.now) }
{
    let count = stamps.len();
    if count == 0 {
        return true;
    }
    stamps[count - 1].moment() < moment
}
