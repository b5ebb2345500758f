//! What is kept of the events of each table, and what it becomes with a commit. A table that the
//! commit leaves as it is keeps its timeline, shared; moments and floors change none.
ghost use Rattle.std.specs.Prelude.{◌≡◌, ◌==◌, if◌then◌else◌, ◌+◌, ◌^◌, ◌<◌, length, IfOk, IsTrue, [], ◌++◌, ◌∷◌, slice_index_or};
ghost use Rattle.tl_events.specs.Timeline.{IsAfter};
ghost use Rattle.tl_types.specs.History.{database_of, fits};
ghost use Rattle.tl_types.specs.Limits.{standard_limits};
ghost use Rattle.tl_types.specs.Legality.{FitInTurn};
ghost use Rattle.tl_index.specs.Timelines.{timeline_after, timelines_of};

use std::alloc::Global;
use std::marker::Model;
use tl_events::{EventList, VersionMap};
use tl_shared::{Shareable, Shared, share_all};
use tl_store::Store;
use tl_types::{Body, Commit, NoMemory};

/// The events of a table, and where among them the events of its versions end.
#[derive(Drop)]
pub(crate) struct Timeline {
    pub events: EventList,
    pub ends: VersionMap,
}

impl Timeline {
    /// The timeline of a table without rows.
    pub fn none(alloc: Global) -> Timeline
        ensures { result ≡ record { events = []; ends = [] } }
    {
        Timeline {
            events: EventList::none(alloc),
            ends: VersionMap::none(alloc),
        }
    }

    /// The timeline with the events of one more version: these rows end, and then so many begin. It
    /// takes this one over: what of it has no other owner is not copied.
    pub fn after(
        self,
        alloc: Global,
        version: u32,
        closes: &[u32],
        first: u32,
        opens: u32,
    ) -> Result<Timeline, NoMemory>
        requires ids { first + opens < 2 ^ 32 }
        requires few { length self.events + (length closes.now + opens) < 2 ^ 32 }
        requires later { 0 < length closes.now + opens → IsAfter self.ends version
            (length self.events + (length closes.now + opens)) }
        ensures { IfOk result
            (λ after. after ≡ timeline_after self version closes.now first opens) }
    {
        let Timeline { events, ends } = self;
        let before = events.len();
        let more = closes.len() as u32 + opens;
        let events = events.append(alloc, closes, first, opens)?;
        let ends = ends_after(alloc, ends, version, before, more)?;
        Ok(Timeline { events, ends })
    }
}

impl Shareable for Timeline {
    fn share(&self, alloc: Global) -> Result<Timeline, NoMemory> {
        Ok(Timeline {
            events: self.events.share(alloc)?,
            ends: self.ends.share(alloc)?,
        })
    }
}

// The ends with that of one more version, where it has events.
fn ends_after(
    alloc: Global,
    ends: VersionMap,
    version: u32,
    before: u32,
    more: u32,
) -> Result<VersionMap, NoMemory>
    requires few { before + more < 2 ^ 32 }
    requires later { 0 < more → IsAfter ends version (before + more) }
    ensures { IfOk result (λ after. after ≡ (if more == 0 then ends
        else ends ++ record { version = version; end = before + more } ∷ [])) }
{
    if more == 0 {
        Ok(ends)
    } else {
        ends.followed_by(alloc, version, before + more)
    }
}

/// The timelines of tables, by the tables' numbers. Contracts see the list of them.
#[derive(Drop)]
pub(crate) struct Timelines {
    list: Vec<Shared<Timeline>>,
}

impl Model for Timelines {
    ghost use Rattle.std.specs.Prelude.{List};
    ghost use Rattle.tl_index.specs.declared.timelines.Timeline.{Timeline};

    ghost Value = { List Timeline };

    ghost view = { λ t. t.list.items };
}

impl Timelines {
    /// Those of no tables. They take no memory.
    pub fn none(alloc: Global) -> Timelines
        ensures { result ≡ [] }
    {
        Timelines {
            list: Vec::new(alloc),
        }
    }

    /// The timeline of the table with a number.
    pub fn at(&self, table: usize) -> &Timeline
        requires { table < length self.now }
        ensures { result.now ≡ slice_index_or self.now table result.now }
    {
        self.list[table].get()
    }

    // The timelines with one more, of a table without rows.
    fn with_none(self, alloc: Global) -> Result<Timelines, NoMemory>
        ensures { IfOk result
            (λ after. after ≡ self ++ record { events = []; ends = [] } ∷ []) }
    {
        let Timelines { mut list } = self;
        list.push(Shared::new(alloc, Timeline::none(alloc))?)?;
        Ok(Timelines { list })
    }
}

impl Shareable for Timelines {
    fn share(&self, alloc: Global) -> Result<Timelines, NoMemory> {
        Ok(Timelines {
            list: share_all(alloc, self.list.as_slice())?,
        })
    }
}

/// The timelines of the tables after a commit that fits, which takes these over: what of them has
/// no other owner is not copied.
pub(crate) fn timelines_after(
    alloc: Global,
    store: &Store,
    timelines: Timelines,
    commit: &Commit,
) -> Result<Timelines, NoMemory>
    requires fitting { FitInTurn standard_limits store.now }
    requires fit { IsTrue (fits standard_limits (database_of store.now) commit.now) }
    requires timelines { timelines ≡ timelines_of store.now }
    ensures { IfOk result (λ after. after ≡ timelines_of (store.now ++ commit.now ∷ [])) }
{
    match &commit.body {
        Body::Create(_) => timelines.with_none(alloc),
        Body::Change(change) => {
            let i = change.table() as usize;
            let first = store.rows(change.table());
            let opens = change.opens().len() as u32;
            let Timelines { mut list } = timelines;
            let timeline = list.remove(i).take(alloc)?;
            let after = timeline.after(alloc, store.versions() + 1, change.closes(), first, opens)?;
            list.insert(i, Shared::new(alloc, after)?)?;
            Ok(Timelines { list })
        }
        Body::Moment { .. } => Ok(timelines),
        Body::Forget { .. } => Ok(timelines),
    }
}
