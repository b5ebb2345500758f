//! Maps from versions to places among the events, with an entry for each version that has some. A
//! version is found by halving, and each entry that is looked at takes a step.
ghost use Rattle.std.specs.Prelude.{◌≡◌, ℕ, ◌+◌, ◌<◌, ◌≤◌, List, [], ◌∷◌, ◌++◌, length, IfOk, Some, slice_get};
ghost use Rattle.tl_types.specs.Plain as plain;
ghost use Rattle.tl_types.specs.Events.{place_of};
ghost use Rattle.tl_events.specs.declared.version_maps.VersionEnd.{VersionEnd};
ghost use Rattle.tl_events.specs.Timeline.{end_of, IsAfter, binary_digits, Ascend, IsSplit, ends_of};

use crate::ticked::TickedList;
use std::alloc::Global;
use std::marker::Model;
use std::sync::ledger::Ledger;
use tl_shared::{FINE_CHUNK, Shareable};
use tl_types::{NoMemory, Steps};

/// Where the events of a version end.
#[derive(Clone, Copy, Debug, PartialEq, Eq)]
pub struct VersionEnd {
    /// A version that has events, from 1.
    pub version: u32,
    /// How many events there are up to it.
    pub end: u32,
}

impl Shareable for VersionEnd {
    fn share(&self, _alloc: Global) -> Result<VersionEnd, NoMemory> {
        Ok(*self)
    }

    fn share_onto(
        _alloc: Global,
        items: &[VersionEnd],
        values: &mut Vec<VersionEnd>,
    ) -> Result<(), NoMemory> {
        values.extend_from_slice(items)?;
        Ok(())
    }
}

/// The versions that have events, with where these end. A contract sees it as the list of its
/// entries, whose versions ascend.
#[derive(Drop)]
pub struct VersionMap {
    entries: TickedList<VersionEnd, FINE_CHUNK>,
}

impl Model for VersionMap {
    ghost use Rattle.std.specs.Prelude.{List};
    ghost use Rattle.tl_events.specs.declared.version_maps.VersionEnd.{VersionEnd};
    ghost use Rattle.tl_events.specs.Timeline.{Ascend};

    ghost Value = { List VersionEnd };

    ghost view = { λ m. m.entries };

    ghost invariant = { λ m. Ascend m.entries };
}

// Where the entries are parted by a version.
#[derive(Clone, Copy)]
struct Parting {
    // How many entries are not after the version.
    count: u64,
    // The end of the last of these, 0 where there is none.
    end: u32,
}

// Where the entries are parted by the version. It takes a step for each entry that it looks at.
fn search<L: Ledger>(
    entries: &TickedList<VersionEnd, FINE_CHUNK>,
    version: u32,
    steps: &mut Steps<L>,
) -> Parting
    requires { Ascend entries.now }
    ensures split { IsSplit entries.now version result.count }
    ensures end { result.end ≡ end_of entries.now version }
    ensures steps { steps.new ≤ steps.old + binary_digits (length entries.now) }
{
    let mut low = 0;
    let mut high = entries.len();
    let mut end = 0;
    'halving: while low < high {
        let middle = low + (high - low) / 2;
        let entry = *entries.at(middle, steps);
        if entry.version <= version {
            low = middle + 1;
            end = entry.end;
        } else {
            high = middle;
        }
    }
    Parting { count: low, end }
}

impl VersionMap {
    /// The map of no version. It takes no memory.
    pub fn none(alloc: Global) -> VersionMap
        ensures { result ≡ [] }
    {
        VersionMap {
            entries: TickedList::none(alloc),
        }
    }

    /// The map with one more entry: the events of the version end at `end`. This map stays as it
    /// was. The error is `NoMemory`.
    pub fn with(&self, alloc: Global, version: u32, end: u32) -> Result<VersionMap, NoMemory>
        requires { IsAfter self.now version end }
        ensures { IfOk result
            (λ map. map ≡ self.now ++ (record { version = version; end = end }) ∷ []) }
    {
        self.share(alloc)?.followed_by(alloc, version, end)
    }

    /// The same as `with`, which takes this map over: what of it has no other owner is not copied.
    pub fn followed_by(self, alloc: Global, version: u32, end: u32) -> Result<VersionMap, NoMemory>
        requires { IsAfter self version end }
        ensures { IfOk result
            (λ map. map ≡ self ++ (record { version = version; end = end }) ∷ []) }
    {
        Ok(VersionMap {
            entries: self.entries.append(alloc, &[VersionEnd { version, end }])?,
        })
    }

    /// How many events there are up to the version: the end of the last entry that is not after it,
    /// 0 where there is none. Of a table's map it is the version's place among the table's events.
    /// It takes at most as many steps as one more than the number of entries has binary digits.
    pub fn end_of<L: Ledger>(&self, version: u32, steps: &mut Steps<L>) -> u32
        ensures end { result ≡ end_of self.now version }
        ensures history { (rows : List plain.Row) (last : ℕ) → self.now ≡ ends_of rows last
            → version ≤ last → result ≡ place_of rows version }
        ensures steps { steps.new ≤ steps.old + binary_digits (length self.now + 1) }
    {
        search(&self.entries, version, steps).end
    }

    /// How many entries there are.
    pub fn len(&self) -> u64
        ensures { result ≡ length self.now }
    {
        self.entries.len()
    }

    /// Entry `i`, counted from 0. It takes one step.
    pub fn entry_at<L: Ledger>(&self, i: u64, steps: &mut Steps<L>) -> VersionEnd
        requires { i < length self.now }
        ensures entry { slice_get self.now i ≡ Some result }
        ensures steps { steps.new ≡ steps.old + 1 }
    {
        *self.entries.at(i, steps)
    }

    /// How many entries are not after the version: these are the first ones. It takes at most as
    /// many steps as one more than the number of entries has binary digits.
    pub fn entries_to<L: Ledger>(&self, version: u32, steps: &mut Steps<L>) -> u64
        ensures split { IsSplit self.now version result }
        ensures steps { steps.new ≤ steps.old + binary_digits (length self.now + 1) }
    {
        search(&self.entries, version, steps).count
    }
}

impl Shareable for VersionMap {
    fn share(&self, alloc: Global) -> Result<VersionMap, NoMemory> {
        Ok(VersionMap {
            entries: self.entries.share(alloc)?,
        })
    }
}
