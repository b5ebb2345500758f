//! Lists of the events of a table, 5 bytes each, in order of version. A longer list shares its
//! chunks with the older one, and no event is seen without a step.
ghost use Rattle.std.specs.Prelude.{◌≡◌, ℕ, suc, ◌+◌, ◌-◌, ◌%◌, ◌^◌, ◌<◌, ◌≤◌, List, [], ◌++◌, length, map, take, drop, min, IfOk, Some, slice_get};
ghost use Rattle.std.specs.List.{range_with_len};
ghost use Rattle.tl_types.specs.Plain as plain;
ghost use Rattle.tl_types.specs.Events.{invalidation, activation, events_of};
ghost use Rattle.tl_events.specs.Timeline.{version_events, AreEventsAt};

use crate::ticked::TickedList;
use std::alloc::Global;
use std::marker::Model;
use std::sync::ledger::Ledger;
use tl_shared::{CHUNK, Shareable};
use tl_types::{Event, NoMemory, Seq, Steps};

/// An event as a list keeps it, in 5 bytes: the id of its row, low byte first, and whether the row
/// begins. A contract sees the event.
#[derive(Clone, Copy)]
pub struct PackedEvent {
    row: [u8; 4],
    opens: bool,
}

const _: () = prove!(size_of::<PackedEvent>() == 5);

impl Model for PackedEvent {
    ghost use Rattle.std.specs.Prelude.{◌≡◌};
    ghost use Rattle.std.specs.Int.{from_le_bytes, to_le_bytes, w32};
    ghost use Rattle.std.proofs.Common.{ap};
    ghost use Rattle.tl_types.specs.declared.events.Event.{Event};

    ghost Value = { Event };

    ghost view = { λ e. record { row = from_le_bytes w32 e.row; opens = e.opens } };

    ghost invariant = { λ e. to_le_bytes w32 (from_le_bytes w32 e.row) ≡ e.row };

    ghost inverse = { λ e. record { row = to_le_bytes w32 e.row; opens = e.opens } };

    ghost inverse_ok = { λ e is. ap (λ bytes. record { row = bytes; opens = e.opens }) is };
}

impl PackedEvent {
    // The event of a row, packed.
    fn new(row: u32, opens: bool) -> PackedEvent
        ensures { result ≡ record { row = row; opens = opens } }
    {
        PackedEvent {
            row: row.to_le_bytes(),
            opens,
        }
    }

    /// The event: the id of its row, and whether the row begins there or ends.
    pub fn event(&self) -> Event
        ensures { result ≡ self.now }
    {
        Event {
            row: u32::from_le_bytes(self.row),
            opens: self.opens,
        }
    }
}

impl Shareable for PackedEvent {
    fn share(&self, _alloc: Global) -> Result<PackedEvent, NoMemory> {
        Ok(*self)
    }

    fn share_onto(
        _alloc: Global,
        items: &[PackedEvent],
        values: &mut Vec<PackedEvent>,
    ) -> Result<(), NoMemory> {
        values.extend_from_slice(items)?;
        Ok(())
    }
}

/// The events of a table, in 5 bytes each. A contract sees it as the list of the events; it has
/// fewer than 2^32.
#[derive(Drop)]
pub struct EventList {
    events: TickedList<PackedEvent, CHUNK>,
}

impl Model for EventList {
    ghost use Rattle.std.specs.Prelude.{◌<◌, ◌^◌, List, length};
    ghost use Rattle.tl_types.specs.declared.events.Event.{Event};

    ghost Value = { List Event };

    ghost view = { λ l. l.events };

    ghost invariant = { λ l. length l.events < 2 ^ 32 };
}

// Puts the ends of these rows behind the events.
fn push_closes(events: &mut Vec<PackedEvent>, closes: &[u32]) -> Result<(), NoMemory>
    ensures { IfOk result
        (λ _. events.new.items ≡ events.old.items ++ map invalidation closes.now) }
{
    for row in closes {
        events.push(PackedEvent::new(*row, false))?;
    }
    Ok(())
}

// Puts the beginnings of so many rows from `first` on behind the events.
fn push_opens(events: &mut Vec<PackedEvent>, first: u32, opens: u32) -> Result<(), NoMemory>
    requires { first + opens < 2 ^ 32 }
    ensures { IfOk result (λ _. events.new.items
        ≡ events.old.items ++ map activation (range_with_len first opens)) }
{
    for k in 0..opens {
        events.push(PackedEvent::new(first + k, true))?;
    }
    Ok(())
}

// The events of one version.
fn packed_events(
    alloc: Global,
    closes: &[u32],
    first: u32,
    opens: u32,
) -> Result<Vec<PackedEvent>, NoMemory>
    requires ids { first + opens < 2 ^ 32 }
    requires few { length closes.now < 2 ^ 32 }
    ensures { IfOk result (λ events. events.items ≡ version_events closes.now first opens) }
{
    let mut events = Vec::with_capacity(alloc, closes.len() + opens as usize)?;
    push_closes(&mut events, closes)?;
    push_opens(&mut events, first, opens)?;
    Ok(events)
}

impl EventList {
    /// The list of no event. It takes no memory.
    pub fn none(alloc: Global) -> EventList
        ensures { result ≡ [] }
    {
        EventList {
            events: TickedList::none(alloc),
        }
    }

    /// The list followed by the events of one more version: the ends of the rows `closes`, and then
    /// the beginnings of `opens` rows whose ids follow on each other from `first` on. Where these
    /// are the rows that end and begin at the version after one, a list of the events up to that
    /// one becomes the list up to the next. It costs its own events and a pointer for each chunk of
    /// the older list, which stays as it was. The error is `NoMemory`.
    pub fn extend(
        &self,
        alloc: Global,
        closes: &Seq<u32>,
        first: u32,
        opens: u32,
    ) -> Result<EventList, NoMemory>
        requires ids { first + opens < 2 ^ 32 }
        requires few { length self.now + length closes.now + opens < 2 ^ 32 }
        ensures list { IfOk result
            (λ list. list ≡ self.now ++ version_events closes.now first opens) }
        ensures history { (rows : List plain.Row) (version : ℕ) → self.now ≡ events_of rows version
            → AreEventsAt rows (suc version) closes.now first opens
            → IfOk result (λ list. list ≡ events_of rows (suc version)) }
    {
        self.share(alloc)?
            .append(alloc, closes.as_slice(), first, opens)
    }

    /// The same as `extend`, of rows in a slice, which takes this list over: what of it has no
    /// other owner is not copied.
    pub fn append(
        self,
        alloc: Global,
        closes: &[u32],
        first: u32,
        opens: u32,
    ) -> Result<EventList, NoMemory>
        requires ids { first + opens < 2 ^ 32 }
        requires few { length self + length closes.now + opens < 2 ^ 32 }
        ensures list { IfOk result
            (λ list. list ≡ self ++ version_events closes.now first opens) }
        ensures history { (rows : List plain.Row) (version : ℕ) → self ≡ events_of rows version
            → AreEventsAt rows (suc version) closes.now first opens
            → IfOk result (λ list. list ≡ events_of rows (suc version)) }
    {
        let events = packed_events(alloc, closes, first, opens)?;
        Ok(EventList {
            events: self.events.append(alloc, &events)?,
        })
    }

    /// How many events there are.
    pub fn len(&self) -> u32
        ensures { result ≡ length self.now }
    {
        self.events.len() as u32
    }

    /// Event `i`, counted from 0. It takes one step.
    pub fn event_at<L: Ledger>(&self, i: u32, steps: &mut Steps<L>) -> Event
        requires { i < length self.now }
        ensures event { slice_get self.now i ≡ Some result }
        ensures steps { steps.new ≡ steps.old + 1 }
    {
        self.events.at(u64::from(i), steps).event()
    }

    /// Some of the events from `from` on and before `to`, counted from 0, that stand next to each
    /// other in memory: all of them, or those up to the end of a chunk, at least one. Who goes over
    /// them run by run reads an event faster than by `event_at`. It takes a step for each event
    /// that it lends.
    pub fn run<L: Ledger>(&self, from: u32, to: u32, steps: &mut Steps<L>) -> &[PackedEvent]
        requires some { from < to }
        requires within { to ≤ length self.now }
        ensures run { result.now ≡ take (length result.now) (drop from self.now) }
        ensures len { length result.now ≡ min (to - from) (CHUNK - from % CHUNK) }
        ensures some { 0 < length result.now }
        ensures within { from + length result.now ≤ to }
        ensures steps { steps.new ≡ steps.old + length result.now }
    {
        self.events.run(u64::from(from), u64::from(to), steps)
    }
}

impl Shareable for EventList {
    fn share(&self, alloc: Global) -> Result<EventList, NoMemory> {
        Ok(EventList {
            events: self.events.share(alloc)?,
        })
    }
}
