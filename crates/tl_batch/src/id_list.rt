//! Ids that are collected, in any order and maybe more than once, and handed out ascending and once
//! each. It refuses nothing but memory.
ghost use Rattle.std.specs.Prelude.{◌≡◌, ◌||◌, ◌==◌, ℕ, [], OnOk};
ghost use Rattle.tl_types.specs.Facts.{AscendFrom};
ghost use Rattle.tl_types.specs.History.{has_id};

use std::alloc::Global;
use std::marker::Model;
use tl_types::{NoMemory, Seq};

/// Ids in the order in which they were collected, where one may stand more than once.
#[derive(Drop)]
pub(crate) struct IdList {
    ids: Vec<u32>,
}

impl Model for IdList {
    ghost use Rattle.std.specs.Prelude.{ℕ, List};

    ghost Value = { List ℕ };

    ghost view = { λ l. l.ids.items };
}

impl IdList {
    /// No ids.
    pub(crate) fn new(alloc: Global) -> IdList
        ensures { result ≡ [] }
    {
        IdList {
            ids: Vec::new(alloc),
        }
    }

    /// Adds an id. The error is `NoMemory`.
    pub(crate) fn add(&mut self, id: u32) -> Result<(), NoMemory>
        ensures { OnOk result ((n : ℕ) → has_id self.new n ≡ ((n == id) || has_id self.old n)) }
    {
        self.ids.push(id)?;
        Ok(())
    }

    /// Adds ids. The error is `NoMemory`.
    pub(crate) fn add_all(&mut self, ids: &[u32]) -> Result<(), NoMemory>
        ensures { OnOk result ((n : ℕ) → has_id self.new n
            ≡ (has_id ids.now n || has_id self.old n)) }
    {
        self.ids.extend_from_slice(ids)?;
        Ok(())
    }

    /// Takes all ids away, and keeps the room for them.
    pub(crate) fn clear(&mut self)
        ensures { self.new ≡ [] }
    {
        self.ids.clear();
    }

    /// The ids in the order in which they were collected.
    pub(crate) fn as_slice(&self) -> &[u32]
        ensures { result.now ≡ self.now }
    {
        self.ids.as_slice()
    }

    /// The ids, each once and ascending.
    pub(crate) fn listed(self) -> Seq<u32>
        ensures ascending { AscendFrom 0 result }
        ensures members { (n : ℕ) → has_id result n ≡ has_id self n }
    {
        let mut ids = self.ids;
        ids.sort_unstable();
        ids.dedup();
        Seq::from_vec(ids)
    }
}
