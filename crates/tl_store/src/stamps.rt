//! The moments that were stated, each with its version, and the search among them for the version
//! at a moment. They are kept in the order in which they came; that they rise is a fact of the
//! store that has them.
ghost use Rattle.std.specs.Prelude.{◌≡◌, ◌++◌, ◌∷◌, [], None, IfOk};
ghost use Rattle.tl_types.specs.Plain as plain;
ghost use Rattle.tl_types.specs.History.{last_moment, is_later, version_at_moment};
ghost use Rattle.tl_types.specs.WellFormed.{Rise};

use std::alloc::Global;
use std::marker::Model;
use tl_shared::{FineList, Shareable};
use tl_types::NoMemory;

// A moment, and the version at which it was stated.
#[derive(Clone, Copy)]
struct Stamp {
    version: u32,
    moment: i64,
}

impl Model for Stamp {
    ghost use Rattle.tl_types.specs.Plain as plain;

    ghost Value = { plain.Stamp };

    ghost view = { λ s. record { version = s.version; moment = s.moment } };

    ghost inverse = { λ s. record { version = s.version; moment = s.moment } };
}

impl Stamp {
    fn version(&self) -> u32
        ensures { result ≡ self.now.version }
    {
        self.version
    }

    fn moment(&self) -> i64
        ensures { result ≡ self.now.moment }
    {
        self.moment
    }
}

impl Shareable for Stamp {
    fn share(&self, _alloc: Global) -> Result<Stamp, NoMemory> {
        Ok(*self)
    }
}

/// The moments that were stated, each with its version, in order. Longer stamps share their front
/// with those that they were made from.
#[derive(Drop)]
pub(crate) struct Stamps {
    list: FineList<Stamp>,
}

impl Model for Stamps {
    ghost use Rattle.std.specs.Prelude.{List};
    ghost use Rattle.tl_types.specs.Plain as plain;

    ghost Value = { List plain.Stamp };

    ghost view = { λ s. s.list };
}

impl Stamps {
    /// No stamp. It takes no memory.
    pub fn none(alloc: Global) -> Stamps
        ensures { result ≡ [] }
    {
        Stamps {
            list: FineList::none(alloc),
        }
    }

    /// The moment of the last stamp. `None` exactly where there is no stamp.
    pub fn last_moment(&self) -> Option<i64>
        ensures { result ≡ last_moment self.now }
    {
        let count = self.list.len();
        if count == 0 {
            return None;
        }
        Some(self.list.at(count - 1).moment())
    }

    /// Whether a moment is greater than that of the last stamp, where there is one.
    pub fn fits(&self, moment: i64) -> bool
        ensures { result ≡ is_later moment (last_moment self.now) }
    {
        match self.last_moment() {
            Some(last) => last < moment,
            None => true,
        }
    }

    /// The version at a moment, with so many commits: one less than the least version of a stamp of
    /// a greater moment, or the last version where there is none. With n stamps it looks at no more
    /// of them than n has binary digits.
    pub fn version_at(&self, now: u32, moment: i64) -> u32
        requires { Rise None self.now }
        ensures { result ≡ version_at_moment now self.now moment }
    {
        let mut low = 0;
        let mut high = self.list.len();
        let mut found = now;
        'halving: while low < high {
            let middle = low + (high - low) / 2;
            let stamp = self.list.at(middle);
            let there = stamp.moment();
            if moment < there {
                found = stamp.version() - 1;
                high = middle;
            } else {
                low = middle + 1;
            }
        }
        found
    }

    /// The stamps followed by one more. It takes this one over.
    pub fn append(self, alloc: Global, version: u32, moment: i64) -> Result<Stamps, NoMemory>
        ensures { IfOk result
            (λ more. more ≡ self ++ record { version = version; moment = moment } ∷ []) }
    {
        let list = self
            .list
            .append(alloc, [Stamp { version, moment }].as_slice())?;
        Ok(Stamps { list })
    }
}

impl Shareable for Stamps {
    fn share(&self, alloc: Global) -> Result<Stamps, NoMemory> {
        Ok(Stamps {
            list: self.list.share(alloc)?,
        })
    }
}
