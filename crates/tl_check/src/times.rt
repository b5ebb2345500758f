//! What a check knows of versions: how many commits there are, which version a moment stands for,
//! and the least version that may be asked. It keeps no copy of the stamps, but asks the store.
ghost use Rattle.std.specs.Prelude.{◌≡◌, ◌≤◌};
ghost use Rattle.tl_types.specs.History.{database_of, version_at_moment};

use std::marker::Model;
use tl_store::Store;

/// A store, which has the number of commits and their stamps, and the greatest floor of the query's
/// tables, which is the least version that may be asked of them.
#[derive(Drop)]
pub(crate) struct StoreTimes<'a> {
    store: &'a Store,
    floor: u32,
}

impl<'a> Model for StoreTimes<'a> {
    ghost use Rattle.tl_types.specs.History.{database_of};
    ghost use Rattle.tl_query.specs.Checking.{Times};

    ghost Value = { Times };

    ghost view = { λ t. record {
      now = (database_of t.store.now).version;
      stamps = (database_of t.store.now).stamps;
      floor = t.floor;
    } };
}

impl<'a> StoreTimes<'a> {
    /// What a store tells of versions to a query whose tables have this greatest floor.
    pub fn new(store: &'a Store, floor: u32) -> StoreTimes<'a>
        ensures { result ≡ record {
          now = (database_of store.now).version;
          stamps = (database_of store.now).stamps;
          floor = floor;
        } }
    {
        StoreTimes { store, floor }
    }

    /// The number of commits, which is the last version.
    pub fn now(&self) -> u32
        ensures number { result ≡ self.now.now }
        ensures few { result ≤ 16777215 }
    {
        self.store.versions()
    }

    /// The least version that may be asked.
    pub fn floor(&self) -> u32
        ensures { result ≡ self.now.floor }
    {
        self.floor
    }

    /// The version at a moment: the one before the first that states a greater moment, or the last.
    pub fn at(&self, moment: i64) -> u32
        ensures { result ≡ version_at_moment self.now.now self.now.stamps moment }
    {
        self.store.version_at(moment)
    }
}
