//! The timeline of a table: rows 0 and 1 begin at version 2; at 3 row 0 ends and row 2 begins.
ghost use Rattle.std.specs.Prelude.{◌≡◌, ◌<◌};

use std::alloc::Global;
use std::marker::Brand;
use std::sync::ledger::{Blank, Ledger};
use std::test::Fail;
use tl_events::{EventList, PackedEvent, VersionEnd, VersionMap};
use tl_types::{Event, Seq, Steps};

// Whether the event at a place is of this row, and begins or ends it.
fn is_event<L: Ledger>(
    list: &EventList,
    at: u32,
    row: u32,
    opens: bool,
    steps: &mut Steps<L>,
) -> bool {
    if at >= list.len() {
        return false;
    }
    list.event_at(at, steps) == Event { row, opens }
}

// Whether the events that are lent end and begin a row.
fn are_events(events: &[PackedEvent], ended: u32, begun: u32) -> bool {
    match events {
        [end, begin] => {
            end.event()
                == Event {
                    row: ended,
                    opens: false,
                }
                && begin.event()
                    == Event {
                        row: begun,
                        opens: true,
                    }
        }
        _ => false,
    }
}

// Whether the list has the events of both versions: what ends comes before what begins.
fn has_both<L: Ledger>(list: &EventList, steps: &mut Steps<L>) -> bool {
    if list.len() != 4 {
        return false;
    }
    is_event(list, 0, 0, true, steps)
        && is_event(list, 1, 1, true, steps)
        && are_events(list.run(2, 4, steps), 0, 2)
}

// Whether a list of the first version, with row 0 closed and row 2 begun, has the events of both.
fn goes_on<L: Ledger>(
    alloc: Global,
    list: &EventList,
    closes: &Seq<u32>,
    steps: &mut Steps<L>,
) -> bool {
    if list.len() != 2 || closes.len() != 1 {
        return false;
    }
    match list.extend(alloc, closes, 2, 1) {
        Ok(longer) => has_both(&longer, steps),
        Err(_) => false,
    }
}

fn begins<L: Ledger>(alloc: Global, closes: &Seq<u32>, steps: &mut Steps<L>) -> bool {
    match EventList::none(alloc).extend(alloc, &Seq::new(alloc), 0, 2) {
        Ok(list) => goes_on(alloc, &list, closes, steps),
        Err(_) => false,
    }
}

// Whether the places of versions in a map of two are where their events end.
fn has_places<L: Ledger>(map: &VersionMap, steps: &mut Steps<L>) -> bool {
    if map.len() != 2 {
        return false;
    }
    map.end_of(1, steps) == 0
        && map.end_of(2, steps) == 2
        && map.end_of(9, steps) == 4
        && map.entries_to(2, steps) == 1
        && map.entry_at(1, steps) == VersionEnd { version: 3, end: 4 }
}

fn map_goes_on<L: Ledger>(alloc: Global, steps: &mut Steps<L>) -> bool {
    match VersionMap::none(alloc).with(alloc, 2, 2) {
        Ok(map) => match map.with(alloc, 3, 4) {
            Ok(longer) => has_places(&longer, steps),
            Err(_) => false,
        },
        Err(_) => false,
    }
}

fn two_versions<L: Ledger>(alloc: Global, blank: Blank, closed: Vec<u32>) -> bool
    requires name { blank.name ≡ L.name }
    requires parts { blank.parts ≡ L.parts }
    requires some { 0 < blank.parts }
{
    let mut steps: Steps<L> = Steps::new(blank);
    let events = begins(alloc, &Seq::from_vec(closed), &mut steps);
    events && map_goes_on(alloc, &mut steps)
}

#[test]
fn events_of_two_versions(rt: HostRuntime) -> Result<(), Fail> {
    let closed = vec![in rt.alloc(); 0]?;
    assert!(rt; two_versions::<Brand>(rt.alloc(), Blank::new(1), closed));
    Ok(())
}
