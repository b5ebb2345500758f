//! The moments that the lines of each key cover. A line's period is cut by what the lines of its
//! key cover already, and then covered too; lines of other keys leave it whole.
ghost use Rattle.std.specs.Prelude.{◌≡◌, ◌&&◌, ◌||◌, ◌<ℤ◌, if◌then◌else◌, ℤ, true, List, Option, [], ◌∷◌, Some, IfOk, OnOk, option_map};
ghost use Rattle.std.specs.List.{list_any};
ghost use Rattle.tl_types.specs.declared.cells.Cell.{Cell};
ghost use Rattle.tl_types.specs.Plain as plain;
ghost use Rattle.tl_types.specs.History.{is_within, same_cell};
ghost use Rattle.tl_types.specs.Resolving.{BatchLine};
ghost use Rattle.tl_batch.specs.Covers.{Full, HoldLines, StandIn, cover_at, is_covered, stretches_or};
ghost use Rattle.tl_batch.specs.Pieces.{cuts, affects_period, periods_with};
ghost use Rattle.tl_batch.specs.Lines.{lines_of};

use crate::cover::Cover;
use crate::parts::{Parts, whole_of};
use crate::period_set::PeriodSet;
use std::alloc::Global;
use std::collections::HashMap;
use std::collections::hash_map::Iter;
use std::marker::Model;
use tl_types::{Cell, KeyLine, NoMemory, Period};

// For how many keys room is taken at once; lines may be many more than their keys.
const MOST_KEYS: usize = 4096;

/// The moments that the lines of each key cover.
#[derive(Drop)]
pub(crate) struct PeriodsByKey {
    covers: HashMap<Cell, PeriodSet>,
}

impl Model for PeriodsByKey {
    ghost use Rattle.std.specs.Prelude.{ℤ, List};
    ghost use Rattle.tl_types.specs.declared.cells.Cell.{Cell};

    ghost Value = { List (Cell × List (ℤ × ℤ)) };

    ghost view = { λ c. c.covers.entries };
}

impl PeriodsByKey {
    /// No moments of any key, and room for so many keys, or for `MOST_KEYS` where these are fewer.
    /// The error is `NoMemory`.
    pub(crate) fn with_room(alloc: Global, keys: usize) -> Result<PeriodsByKey, NoMemory>
        ensures { IfOk result (λ covers. HoldLines covers []) }
    {
        let covers = HashMap::with_capacity(alloc, keys.min(MOST_KEYS))?;
        Ok(PeriodsByKey { covers })
    }

    // Gives a key a cover. The error is `NoMemory`.
    fn put(&mut self, key: &Cell, cover: PeriodSet) -> Result<(), NoMemory>
        ensures { OnOk result ((x : Cell) → cover_at x self.new
            ≡ (if same_cell x key.now then cover else cover_at x self.old)) }
    {
        let key = key.clone()?;
        self.covers.insert(key, cover)?;
        Ok(())
    }

    // Covers a period of a key too. The error is `NoMemory`.
    fn add_period(&mut self, alloc: Global, key: &Cell, period: Period) -> Result<(), NoMemory>
        ensures held { OnOk result ((x : Cell) (t : ℤ) → is_covered t (cover_at x self.new)
            ≡ ((same_cell x key.now && is_within t (Some period))
            || is_covered t (cover_at x self.old))) }
        ensures full { OnOk result (Full (Some period ∷ [])) }
    {
        let Some(cover) = self.covers.get_mut(key) else {
            let cover = PeriodSet::of(alloc, period)?;
            self.put(key, cover)?;
            return Ok(());
        };
        cover.add(alloc, period)?;
        Ok(())
    }

    /// Covers the period of a line of a key too, where it has one. The error is `NoMemory`.
    pub(crate) fn add(
        &mut self,
        alloc: Global,
        key: &Cell,
        period: &Option<Period>,
    ) -> Result<(), NoMemory>
        ensures held { OnOk result ((x : Cell) (t : ℤ) → is_covered t (cover_at x self.new)
            ≡ ((same_cell x key.now && is_within t period.now)
            || is_covered t (cover_at x self.old))) }
        ensures full { OnOk result (Full (period.now ∷ [])) }
    {
        let Some(period) = period else {
            return Ok(());
        };
        self.add_period(alloc, key, *period)?;
        Ok(())
    }

    // What the lines of a key leave of a period, which is covered too from then on. The error is
    // `NoMemory`.
    fn cut_period(&mut self, alloc: Global, key: &Cell, period: Period) -> Result<Parts, NoMemory>
        ensures lines { IfOk result (λ left. (lines : List (Option plain.Period)) → Full lines
            → ((t : ℤ) → is_covered t (cover_at key.now self.old) ≡ list_any (is_within t) lines)
            → left.items ≡ cuts true lines (Some period)) }
        ensures held { OnOk result ((x : Cell) (t : ℤ) → is_covered t (cover_at x self.new)
            ≡ ((same_cell x key.now && is_within t (Some period))
            || is_covered t (cover_at x self.old))) }
        ensures full { OnOk result (Full (Some period ∷ [])) }
    {
        let Some(cover) = self.covers.get_mut(key) else {
            let cover = PeriodSet::of(alloc, period)?;
            self.put(key, cover)?;
            let left = whole_of(alloc, period)?;
            return Ok(left);
        };
        let left = cover.gaps(alloc, period)?;
        cover.add(alloc, period)?;
        Ok(left)
    }

    /// What the lines of a key leave of the valid period of a further line, which is covered too
    /// from then on. The error is `NoMemory`.
    pub(crate) fn cut(
        &mut self,
        alloc: Global,
        key: &Cell,
        whole: &Option<Period>,
    ) -> Result<Parts, NoMemory>
        ensures lines { IfOk result (λ left. (lines : List BatchLine) → HoldLines self.old lines
            → left.items ≡ cuts true (periods_with (Some key.now) lines) whole.now) }
        ensures held { OnOk result ((x : Cell) (t : ℤ) → is_covered t (cover_at x self.new)
            ≡ ((same_cell x key.now && is_within t whole.now)
            || is_covered t (cover_at x self.old))) }
        ensures full { OnOk result (Full (whole.now ∷ [])) }
    {
        let Some(period) = whole else {
            let mut left = Parts::new(alloc);
            left.push(None)?;
            return Ok(left);
        };
        let left = self.cut_period(alloc, key, *period)?;
        Ok(left)
    }

    // The parts of a period that no line of a key covers.
    fn gaps(&self, alloc: Global, key: &Cell, period: Period) -> Result<Parts, NoMemory>
        ensures some { period.from <ℤ period.to }
        ensures lines { IfOk result (λ left. (lines : List (Option plain.Period)) → Full lines
            → ((t : ℤ) → is_covered t (cover_at key.now self.now) ≡ list_any (is_within t) lines)
            → left.items ≡ cuts true lines (Some period)) }
    {
        match self.covers.get(key) {
            Some(cover) => {
                let left = cover.gaps(alloc, period)?;
                Ok(left)
            }
            None => {
                let cover = PeriodSet::new(alloc);
                let left = cover.gaps(alloc, period)?;
                Ok(left)
            }
        }
    }

    /// What the lines of a key leave of a valid period. The error is `NoMemory`.
    pub(crate) fn left(
        &self,
        alloc: Global,
        key: &Cell,
        whole: &Option<Period>,
    ) -> Result<Parts, NoMemory>
        ensures full { IfOk result (λ _. Full (whole.now ∷ [])) }
        ensures periods { IfOk result (λ left. (periods : List (Option plain.Period)) → Full periods
            → ((t : ℤ) → is_covered t (cover_at key.now self.now) ≡ list_any (is_within t) periods)
            → left.items ≡ cuts true periods whole.now) }
        ensures lines { IfOk result (λ left. (lines : List BatchLine) → HoldLines self.now lines
            → left.items ≡ cuts true (periods_with (Some key.now) lines) whole.now) }
    {
        let Some(period) = whole else {
            let mut left = Parts::new(alloc);
            left.push(None)?;
            return Ok(left);
        };
        let left = self.gaps(alloc, key, *period)?;
        Ok(left)
    }

    /// The keys, each with its moments.
    pub(crate) fn entries(&self) -> Iter<'_, Cell, PeriodSet>
        ensures all { result ≡ self.now }
        ensures each { StandIn self.now self.now }
    {
        self.covers.iter()
    }

    /// The moments of a key, where it has any.
    pub(crate) fn moments(&self, key: &Cell) -> Option<&PeriodSet>
        ensures { stretches_or (option_map (λ m. m.now) result) ≡ cover_at key.now self.now }
    {
        self.covers.get(key)
    }

    /// The moments that the lines of a key cover.
    pub(crate) fn cover(&self, key: &Cell) -> Cover<'_>
        ensures { result ≡ cover_at key.now self.now }
    {
        Cover::new(self.covers.get(key))
    }
}

/// The moments that some lines cover, key by key. The error is `NoMemory`.
pub(crate) fn covers_of(alloc: Global, lines: &[KeyLine]) -> Result<PeriodsByKey, NoMemory>
    ensures { IfOk result (λ covers. HoldLines covers (lines_of lines.now)) }
{
    let mut covers = PeriodsByKey::with_room(alloc, lines.len())?;
    for line in lines {
        covers.add(alloc, &line.key, &line.period)?;
    }
    Ok(covers)
}

// Whether a period that is covered has a moment of one of some parts.
fn affects_part(cover: &Cover<'_>, parts: &[Option<Period>]) -> bool
    ensures { (wholes : List (Option plain.Period)) → Full wholes
        → ((t : ℤ) → is_covered t cover.now ≡ list_any (is_within t) wholes)
        → result ≡ list_any (λ g. list_any (λ p. affects_period true p g) wholes) parts.now }
{
    for part in parts {
        if cover.affects(part) {
            return true;
        }
    }
    false
}

/// Whether a line of a key affects what earlier lines left of some periods of the key, by the
/// moments that the earlier lines and the periods cover. The error is `NoMemory`.
pub(crate) fn affects_rest(
    alloc: Global,
    earlier: &PeriodsByKey,
    rows: &PeriodsByKey,
    key: &Cell,
    line: &Option<Period>,
) -> Result<bool, NoMemory>
    ensures { IfOk result (λ affected. (lines : List BatchLine)
        (wholes : List (Option plain.Period)) → HoldLines earlier.now lines → Full wholes
        → ((t : ℤ) → is_covered t (cover_at key.now rows.now) ≡ list_any (is_within t) wholes)
        → affected ≡ list_any (λ p. list_any (λ q. affects_period true line.now q)
        (cuts true (periods_with (Some key.now) lines) p)) wholes) }
{
    let parts = earlier.left(alloc, key, line)?;
    let cover = rows.cover(key);
    let affected = affects_part(&cover, parts.as_slice());
    Ok(affected)
}
