//! Sets of keys that are lent: numbers apart from texts. A key that stands already is not added,
//! and says so.
ghost use Rattle.std.specs.Prelude.{◌≡◌, ◌||◌, not, ℕ, ℤ, List, [], IfOk, OnOk};
ghost use Rattle.std.specs.List.{list_any};
ghost use Rattle.std.specs.Ordering.{int_eq};
ghost use Rattle.tl_types.specs.Names.{same_bytes};
ghost use Rattle.tl_types.specs.declared.cells.Cell.{Cell};
ghost use Rattle.tl_types.specs.History.{same_cell};
ghost use Rattle.tl_batch.specs.Untimed.{has_cell};

use std::alloc::Global;
use std::collections::HashSet;
use std::marker::Model;
use tl_types::{Cell, NoMemory, Text};

/// A set of keys. Those that are numbers stand apart from the texts, which are lent. A contract
/// sees a list of both.
#[derive(Drop)]
pub(crate) struct KeySet<'a> {
    numbers: HashSet<i64>,
    texts: HashSet<&'a Text>,
}

impl<'a> Model for KeySet<'a> {
    ghost use Rattle.std.specs.Prelude.{List, map, ◌++◌};
    ghost use Rattle.tl_types.specs.declared.cells.Cell.{Cell};
    ghost use Rattle.tl_types.specs.declared.cells.Cell.TheVariants as cell;

    ghost Value = { List Cell };

    ghost view = { λ s. map cell.Int s.numbers.keys ++ map (λ t. cell.Text t.now) s.texts.keys };
}

// Adds a number, and says whether it is new.
#[inline(always)]
fn add_number(numbers: &mut HashSet<i64>, key: i64) -> Result<bool, NoMemory>
    ensures fresh { IfOk result (λ fresh.
        fresh ≡ not (list_any (int_eq key) numbers.old.keys)) }
    ensures added { OnOk result ((x : ℤ) → list_any (int_eq x) numbers.new.keys
        ≡ (int_eq x key || list_any (int_eq x) numbers.old.keys)) }
{
    let fresh = numbers.insert(key)?;
    Ok(fresh)
}

// Adds a text, and says whether it is new.
fn add_text<'a>(texts: &mut HashSet<&'a Text>, key: &'a Text) -> Result<bool, NoMemory>
    ensures fresh { IfOk result (λ fresh.
        fresh ≡ not (list_any (λ k. same_bytes key.now k.now) texts.old.keys)) }
    ensures added { OnOk result ((x : List ℕ) → list_any (λ k. same_bytes x k.now) texts.new.keys
        ≡ (same_bytes x key.now || list_any (λ k. same_bytes x k.now) texts.old.keys)) }
{
    let fresh = texts.insert(key)?;
    Ok(fresh)
}

impl<'a> KeySet<'a> {
    /// No keys.
    pub(crate) fn new(alloc: Global) -> KeySet<'a>
        ensures { result ≡ [] }
    {
        KeySet {
            numbers: HashSet::new(alloc),
            texts: HashSet::new(alloc),
        }
    }

    /// No keys, and room for so many of the kind of one. The error is `NoMemory`.
    pub(crate) fn with_room(alloc: Global, keys: usize, like: &Cell) -> Result<KeySet<'a>, NoMemory>
        ensures { IfOk result (λ set. set ≡ []) }
    {
        match like {
            Cell::Int(_) => {
                let numbers = HashSet::with_capacity(alloc, keys)?;
                let texts = HashSet::new(alloc);
                Ok(KeySet { numbers, texts })
            }
            Cell::Text(_) => {
                let numbers = HashSet::new(alloc);
                let texts = HashSet::with_capacity(alloc, keys)?;
                Ok(KeySet { numbers, texts })
            }
        }
    }

    /// Adds a key, and says whether it is new. The error is `NoMemory`.
    #[inline(always)]
    pub(crate) fn add(&mut self, key: &'a Cell) -> Result<bool, NoMemory>
        ensures fresh { IfOk result (λ fresh. fresh ≡ not (has_cell self.old key.now)) }
        ensures added { OnOk result ((x : Cell) → has_cell self.new x
            ≡ (same_cell x key.now || has_cell self.old x)) }
    {
        match key {
            Cell::Int(number) => {
                let fresh = add_number(&mut self.numbers, *number)?;
                Ok(fresh)
            }
            Cell::Text(text) => {
                let fresh = add_text(&mut self.texts, text)?;
                Ok(fresh)
            }
        }
    }
}
