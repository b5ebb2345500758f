//! The tables of a store, and the one of them that was found with the ids of its open rows by their
//! keys. They are lent, and nothing changes.
ghost use Rattle.std.specs.Prelude.{◌≡◌, ◌<◌, ℕ, true, List, Some, length, slice_get, IfSome};
ghost use Rattle.tl_types.specs.History.{database_of};
ghost use Rattle.tl_batch.specs.Standing.{StandFor, index_at, is_made, rows_match};

use crate::key_index::KeyIndex;
use crate::open_table::OpenTable;
use std::marker::Model;
use tl_store::Store;

/// A store, with the number of the table that was found in it, where one was, and the ids of the
/// open rows of that table by their keys. A contract sees the store's commits and the number.
#[derive(Drop)]
pub(crate) struct OpenTables<'a> {
    store: &'a Store,
    keys: &'a [Option<KeyIndex>],
    found: Option<u16>,
}

impl<'a> Model for OpenTables<'a> {
    ghost use Rattle.tl_batch.specs.OpenTables.{AreFound, FoundTables};

    ghost Value = { FoundTables };

    ghost view = { λ t. record { commits = t.store.now; found = t.found } };

    ghost invariant = { λ t. AreFound t.store.now t.keys.now t.found };
}

// The ids by key at a number, which are made.
fn index_of(keys: &[Option<KeyIndex>], number: u16) -> &KeyIndex
    requires { is_made keys.now number ≡ true }
    ensures { Some result.now ≡ index_at keys.now number }
{
    match &keys[number as usize] {
        Some(index) => index,
        None => unreachable!(),
    }
}

impl<'a> OpenTables<'a> {
    /// The tables of a store, with the keys that stand for them, of which those of the table that
    /// was found are made.
    pub(crate) fn new(
        store: &'a Store,
        keys: &'a [Option<KeyIndex>],
        found: Option<u16>,
    ) -> OpenTables<'a>
        requires stands { StandFor keys.now (database_of store.now) }
        requires made { IfSome found (λ number. is_made keys.now number ≡ true) }
        ensures commits { result.commits ≡ store.now }
        ensures found { result.found ≡ found }
    {
        OpenTables { store, keys, found }
    }

    /// The store, whose rows match the schemas of their tables.
    pub(crate) fn store(&self) -> &'a Store
        ensures same { result.now ≡ self.now.commits }
        ensures matching { (table : ℕ)
            → rows_match (slice_get (database_of self.now.commits).tables table) ≡ true }
    {
        self.store
    }

    /// The number of the table that was found, where one was.
    pub(crate) fn found(&self) -> Option<u16>
        ensures { result ≡ self.now.found }
    {
        self.found
    }

    /// The table with the number that was found.
    pub(crate) fn table(&self, number: u16) -> OpenTable<'a>
        requires found { self.now.found ≡ Some number }
        requires there { number < length (database_of self.now.commits).tables }
        ensures { Some result ≡ slice_get (database_of self.now.commits).tables number }
    {
        let index = index_of(self.keys, number);
        OpenTable::new(self.store, number, index)
    }
}
