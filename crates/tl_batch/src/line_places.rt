//! The places of lines by their key and the moment at which their valid period begins, so that the
//! line that may be the same as a row is found at once. It refuses nothing but memory.
ghost use Rattle.std.specs.Prelude.{◌≡◌, ◌&&◌, ◌<◌, ◌^◌, ℤ, [], if◌then◌else◌, All, IfOk, OnOk, Some, length};
ghost use Rattle.std.specs.Ordering.{int_eq};
ghost use Rattle.tl_types.specs.declared.cells.Cell.{Cell};
ghost use Rattle.tl_types.specs.History.{same_cell};
ghost use Rattle.tl_batch.specs.Syncing.{ArePlaced, HaveOwnStarts, place_at, start_of};

use std::alloc::Global;
use std::collections::HashMap;
use std::marker::Model;
use tl_types::{Cell, NoMemory, Opened, Period};

/// A key, and the moment at which a valid period begins.
#[derive(Drop, PartialEq, Eq, Hash)]
pub(crate) struct LineStart {
    key: Cell,
    from: i64,
}

/// The places of lines, which differ in their keys or in their starts.
#[derive(Drop)]
pub(crate) struct LinePlaces {
    places: HashMap<LineStart, u32>,
}

impl Model for LinePlaces {
    ghost use Rattle.std.specs.Prelude.{ℕ, List};
    ghost use Rattle.tl_batch.specs.declared.line_places.LineStart.{LineStart};

    ghost Value = { List (LineStart × ℕ) };

    ghost view = { λ p. p.places.entries };
}

// The moment at which a period begins, 0 where there is none.
fn start_of(period: &Option<Period>) -> i64
    ensures { result ≡ start_of period.now }
{
    match period {
        Some(period) => period.from(),
        None => 0,
    }
}

impl LinePlaces {
    // No places, and room for so many. The error is `NoMemory`.
    fn with_room(alloc: Global, lines: usize) -> Result<LinePlaces, NoMemory>
        ensures { IfOk result (λ places. places ≡ []) }
    {
        let places = HashMap::with_capacity(alloc, lines)?;
        Ok(LinePlaces { places })
    }

    // Gives a key and a start a place. The error is `NoMemory`.
    fn put(&mut self, key: &Cell, from: i64, place: u32) -> Result<(), NoMemory>
        ensures { OnOk result ((x : Cell) (t : ℤ) → place_at x t self.new
            ≡ (if same_cell x key.now && int_eq t from then Some place else place_at x t self.old)) }
    {
        let key = key.clone()?;
        self.places.insert(LineStart { key, from }, place)?;
        Ok(())
    }

    /// The place that stands at a key and a start.
    pub(crate) fn find(&self, key: Cell, from: i64) -> Option<u32>
        ensures { result ≡ place_at key from self.now }
    {
        let start = LineStart { key, from };
        self.places.get(&start).copied()
    }
}

/// The places of lines, of which none has the key and the start of an earlier one. The key is the
/// cell at a place. The error is `NoMemory`.
pub(crate) fn places_of(alloc: Global, lines: &[Opened], place: u8) -> Result<LinePlaces, NoMemory>
    requires few { length lines.now < 2 ^ 32 }
    requires keyed { All (λ o. place < length o.cells) lines.now }
    requires own { HaveOwnStarts place lines.now }
    ensures { IfOk result (λ places. ArePlaced place lines.now places) }
{
    let mut places = LinePlaces::with_room(alloc, lines.len())?;
    for (i, line) in lines.iter().enumerate() {
        let key = &line.cells()[place as usize];
        let period = line.period();
        places.put(key, start_of(&period), i as u32)?;
    }
    Ok(places)
}
