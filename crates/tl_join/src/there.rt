//! The rows of one side that are there in a piece: those of the start set, and those of the kept
//! ones that begin behind its first version. No other row of the table is looked at.
ghost use Rattle.std.specs.Prelude.{◌≡◌, ◌+◌, ◌-◌, ◌*◌, ◌<◌, ◌≤◌, ◌++◌, All, length, IfOk, OnOk};
ghost use Rattle.std.specs.List.{filter_map};
ghost use Rattle.std.specs.Option.{option_to_list};
ghost use Rattle.tl_lanes.specs.Masks.{words_for};
ghost use Rattle.tl_types.specs.declared.events.Event.{Event};
ghost use Rattle.tl_bits.specs.Sets.{members};
ghost use Rattle.tl_join.specs.There.{opened_in, opened_row};

use std::alloc::Global;
use std::sync::ledger::Ledger;
use tl_bits::RowSet;
use tl_events::{Event, EventList, PackedEvent};
use tl_types::{NoMemory, Steps};

/// The members of a set, ascending. It takes a step for each word and one for each member. The
/// error is `NoMemory`.
pub(crate) fn start_ids<L: Ledger>(
    alloc: Global,
    start: &RowSet,
    steps: &mut Steps<L>,
) -> Result<Vec<u32>, NoMemory>
    ensures ids { IfOk result (λ ids. ids.items ≡ members start.now) }
    ensures steps { steps.new
        ≤ steps.old + words_for (length start.now) + length (members start.now) }
{
    let _rows = start.rows(); // says that rows are few
    let mut ids = Vec::new(alloc);
    let mut at = 0;
    'members: while let Some(row) = start.next(at, steps) {
        ids.push(row)?;
        at = row + 1;
    }
    Ok(ids)
}

// The row that an event opens, where it opens one that is kept. It takes at most one step.
fn opened_row<L: Ledger>(event: Event, keep: &RowSet, steps: &mut Steps<L>) -> Option<u32>
    requires { event.row < length keep.now }
    ensures row { result ≡ opened_row keep.now event }
    ensures steps { steps.new ≤ steps.old + 1 }
{
    if !event.opens {
        return None;
    }
    if keep.test(event.row, steps) {
        Some(event.row)
    } else {
        None
    }
}

// Appends the id, where there is one.
fn push_some(ids: &mut Vec<u32>, id: Option<u32>) -> Result<(), NoMemory>
    ensures { OnOk result (ids.new.items ≡ ids.old.items ++ option_to_list id) }
{
    match id {
        Some(id) => {
            ids.push(id)?;
            Ok(())
        }
        None => Ok(()),
    }
}

// Appends the kept rows that some events open. It takes at most a step for each event.
fn push_opened<L: Ledger>(
    ids: &mut Vec<u32>,
    events: &[PackedEvent],
    keep: &RowSet,
    steps: &mut Steps<L>,
) -> Result<(), NoMemory>
    requires rows { All (λ (e : Event). e.row < length keep.now) events.now }
    ensures ids { OnOk result
        (ids.new.items ≡ ids.old.items ++ filter_map (opened_row keep.now) events.now) }
    ensures steps { steps.new ≤ steps.old + length events.now }
{
    for event in events {
        let row = opened_row(event.event(), keep, steps);
        push_some(ids, row)?;
    }
    Ok(())
}

/// Appends the kept rows that the events from a place up to another open. It takes at most two
/// steps for each event. The error is `NoMemory`.
pub(crate) fn add_opened<L: Ledger>(
    ids: &mut Vec<u32>,
    events: &EventList,
    first: u32,
    last: u32,
    keep: &RowSet,
    steps: &mut Steps<L>,
) -> Result<(), NoMemory>
    requires order { first ≤ last }
    requires inside { last ≤ length events.now }
    requires rows { All (λ (e : Event). e.row < length keep.now) events.now }
    ensures ids { OnOk result
        (ids.new.items ≡ ids.old.items ++ opened_in events.now first last keep.now) }
    ensures steps { steps.new ≤ steps.old + 2 * (last - first) }
{
    let mut at = first;
    'events: while at < last {
        let run = events.run(at, last, steps);
        push_opened(ids, run, keep, steps)?;
        at += run.len() as u32;
    }
    Ok(())
}
