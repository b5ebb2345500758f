//! The valid periods of a table's rows, their two ends each in a column. A table without valid
//! time has none.
ghost use Rattle.std.specs.Prelude.{◌≡◌, ◌+◌, ◌*◌, ◌<◌, ◌++◌, ℕ, Some, [], length, map, slice_get, IfOk};
ghost use Rattle.std.specs.Option.{option_to_list};
ghost use Rattle.tl_types.specs.History.{is_within};
ghost use Rattle.tl_lanes.specs.Masks.{is_bit, passes, IsWordOf};
ghost use Rattle.tl_lanes.specs.declared.masks.LaneCmp.TheVariants.{Le, Gt};
ghost use Rattle.tl_store.specs.Columns.{periods_of, periods_in, AreEnds};

use std::alloc::Global;
use std::marker::Model;
use tl_column::IntColumn;
use tl_shared::Shareable;
use tl_types::{Cmp, NoMemory, Opened, Period};

/// A list of periods, their two ends each in a column of its own. Contracts see the list of
/// periods.
#[derive(Drop)]
pub(crate) struct PeriodList {
    starts: IntColumn,
    ends: IntColumn,
}

impl Model for PeriodList {
    ghost use Rattle.std.specs.Prelude.{List};
    ghost use Rattle.tl_types.specs.Plain as plain;

    ghost Value = { List plain.Period };

    ghost use Rattle.tl_store.specs.Columns.{periods_of, AreEnds};

    ghost view = { λ p. periods_of p.starts p.ends };

    ghost invariant = { λ p. AreEnds p.starts p.ends };
}

impl PeriodList {
    /// The list of no periods. It takes no memory.
    pub fn none(alloc: Global) -> PeriodList
        ensures { result ≡ [] }
    {
        PeriodList {
            starts: IntColumn::none(alloc),
            ends: IntColumn::none(alloc),
        }
    }

    /// The list followed by the periods of those rows that have one.
    pub fn append(self, alloc: Global, opens: &[Opened]) -> Result<PeriodList, NoMemory>
        ensures { IfOk result (λ periods. periods ≡ self ++ periods_in opens.now) }
    {
        let (starts, ends) = ends_in(alloc, opens)?;
        Ok(PeriodList {
            starts: self.starts.append(alloc, starts.as_slice())?,
            ends: self.ends.append(alloc, ends.as_slice())?,
        })
    }

    /// The period at a place, counted from 0.
    pub fn at(&self, place: u32) -> Period
        requires { place < length self.now }
        ensures { Some result ≡ slice_get self.now place }
    {
        let from = self.starts.at(place);
        let to = self.ends.at(place);
        Period::new(from, to)
    }

    /// The period at a place, none where there are not so many.
    pub fn get(&self, place: u32) -> Option<Period>
        ensures { result ≡ slice_get self.now place }
    {
        if (place as u64) < self.starts.len() {
            Some(self.at(place))
        } else {
            None
        }
    }

    /// Word `i` of the mask of the periods that hold a moment: bit j tells of the period at place
    /// 64 i + j, and is 0 where there are not so many.
    pub fn mask_word(&self, i: u32, moment: i64) -> u64
        ensures { (k : ℕ) → k < 64
            → is_bit result k ≡ is_within moment (slice_get self.now (64 * i + k)) }
    {
        begun_word(&self.starts, i, moment) & lasting_word(&self.ends, i, moment)
    }
}

// Word `i` of the mask of the starts that have come at a moment.
fn begun_word(starts: &IntColumn, i: u32, moment: i64) -> u64
    ensures { IsWordOf (map (λ start. passes Le start moment) starts.now) i result }
{
    starts.mask_word(i, Cmp::Le, moment)
}

// Word `i` of the mask of the ends that are still to come at a moment.
fn lasting_word(ends: &IntColumn, i: u32, moment: i64) -> u64
    ensures { IsWordOf (map (λ end. passes Gt end moment) ends.now) i result }
{
    ends.mask_word(i, Cmp::Gt, moment)
}

impl Shareable for PeriodList {
    fn share(&self, alloc: Global) -> Result<PeriodList, NoMemory> {
        Ok(PeriodList {
            starts: self.starts.share(alloc)?,
            ends: self.ends.share(alloc)?,
        })
    }
}

// Puts the ends of a period, where there is one, behind those of others.
fn put_ends(
    starts: &mut Vec<i64>,
    ends: &mut Vec<i64>,
    period: Option<Period>,
) -> Result<(), NoMemory>
    requires { AreEnds starts.old.items ends.old.items }
    ensures periods { IfOk result (λ _. periods_of starts.new.items ends.new.items
        ≡ periods_of starts.old.items ends.old.items ++ option_to_list period) }
    ensures ends { IfOk result (λ _. AreEnds starts.new.items ends.new.items) }
{
    match period {
        None => Ok(()),
        Some(period) => {
            starts.push(period.from())?;
            ends.push(period.to())?;
            Ok(())
        }
    }
}

// The ends of the periods of those rows that have one.
fn ends_in(alloc: Global, opens: &[Opened]) -> Result<(Vec<i64>, Vec<i64>), NoMemory>
    ensures periods { IfOk result
        (λ ends. periods_of ends.0.items ends.1.items ≡ periods_in opens.now) }
    ensures ends { IfOk result (λ ends. AreEnds ends.0.items ends.1.items) }
{
    let mut starts = Vec::new(alloc);
    let mut ends = Vec::new(alloc);
    for opened in opens {
        put_ends(&mut starts, &mut ends, opened.period())?;
    }
    Ok((starts, ends))
}
