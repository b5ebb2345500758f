//! Merges of events of valid time and changes, both in order: an event that is among the changes
//! goes, and a change that is not among the events comes.
ghost use Rattle.std.specs.Prelude.{◌≡◌, ℕ, ◌≤◌, ◌<◌, ◌++◌, true, false, take, length, IfOk};
ghost use Rattle.tl_ckpt.specs.Valid.{Rises, passed, left_of, merged, lead, stop, beyond};

use std::alloc::Global;
use tl_types::{NoMemory, ValidEvent};

// Whether there are more events than so many, and the last of so many comes before the change.
fn is_short(events: &[ValidEvent], change: &ValidEvent, count: usize) -> bool
    requires { 0 < count }
    ensures short { result ≡ true → count < length events.now }
    ensures enough { result ≡ false
        → lead change.now (take count events.now) ≡ lead change.now events.now }
{
    count < events.len() && events[count - 1].comes_before(change)
}

// So many first events that there are no more before the change; a power of two, or all.
fn reach(events: &[ValidEvent], change: &ValidEvent) -> usize
    ensures { lead change.now (take result events.now) ≡ lead change.now events.now }
{
    let mut count = 1;
    'doubling: while is_short(events, change, count) {
        count *= 2;
    }
    count
}

// First events behind which none comes before the change.
fn front<'a>(events: &'a [ValidEvent], change: &ValidEvent) -> &'a [ValidEvent]
    requires { Rises events.now }
    ensures rises { Rises result.now }
    ensures count { lead change.now result.now ≡ lead change.now events.now }
    ensures within { length result.now ≤ length events.now }
{
    let count = reach(events, change).min(events.len());
    &events[..count]
}

/// How many of the first events come before the change.
pub(crate) fn lead(events: &[ValidEvent], change: &ValidEvent) -> usize
    requires { Rises events.now }
    ensures count { result ≡ lead change.now events.now }
    ensures within { result ≤ length events.now }
{
    let near = front(events, change);
    near.partition_point(|event| event.comes_before(change))
}

// Puts the change behind the events that are out, where it is not the first of those that do not
// come before it; gives those behind it.
fn settle<'a>(
    out: &mut Vec<ValidEvent>,
    behind: &'a [ValidEvent],
    change: &ValidEvent,
) -> Result<&'a [ValidEvent], NoMemory>
    ensures { IfOk result (λ left. (out.new.items ≡ out.old.items ++ stop change.now behind.now)
        × (left.now ≡ beyond change.now behind.now)) }
{
    match behind {
        [] => {
            out.push(*change)?;
            Ok(behind)
        }
        [first, later @ ..] => {
            if change.comes_before(first) {
                out.push(*change)?;
                Ok(behind)
            } else {
                Ok(later)
            }
        }
    }
}

// Goes on behind the change.
fn pass<'a>(
    out: &mut Vec<ValidEvent>,
    rest: &'a [ValidEvent],
    change: &ValidEvent,
) -> Result<&'a [ValidEvent], NoMemory>
    requires { Rises rest.now }
    ensures { IfOk result (λ left. (out.new.items ≡ out.old.items ++ passed change.now rest.now)
        × (left.now ≡ left_of change.now rest.now)) }
{
    let count = lead(rest, change);
    let (front, behind) = rest.split_at(count);
    out.extend_from_slice(front)?;
    let left = settle(out, behind, change)?;
    Ok(left)
}

// The events with the changes, which are looked up in them one after the other.
fn merged_by_lookups(
    alloc: Global,
    events: &[ValidEvent],
    changes: &[ValidEvent],
) -> Result<Vec<ValidEvent>, NoMemory>
    requires { Rises events.now }
    ensures { IfOk result (λ out. out.items ≡ merged events.now changes.now) }
{
    let mut out = Vec::with_capacity(alloc, events.len() + changes.len())?;
    let mut rest = events;
    for change in changes {
        rest = pass(&mut out, rest, change)?;
    }
    out.extend_from_slice(rest)?;
    Ok(out)
}

// The events with the changes, by one step for each of both.
fn merged_by_steps(
    alloc: Global,
    events: &[ValidEvent],
    changes: &[ValidEvent],
) -> Result<Vec<ValidEvent>, NoMemory>
    ensures { IfOk result (λ out. out.items ≡ merged events.now changes.now) }
{
    let mut out = Vec::with_capacity(alloc, events.len() + changes.len())?;
    let mut i = 0;
    let mut j = 0;
    'steps: while i < events.len() && j < changes.len() {
        let event = &events[i];
        let change = &changes[j];
        if event.comes_before(change) {
            out.push(*event)?;
            i += 1;
        } else if change.comes_before(event) {
            out.push(*change)?;
            j += 1;
        } else {
            i += 1;
            j += 1;
        }
    }
    let (_, events_left) = events.split_at(i);
    let (_, changes_left) = changes.split_at(j);
    out.extend_from_slice(events_left)?;
    out.extend_from_slice(changes_left)?;
    Ok(out)
}

// Where the events are so many times as many as the changes, a change is looked up in fewer steps
// than it takes to go over the events before it.
const EVENTS_PER_LOOKUP: usize = 16;

// The events with the changes.
fn merged(
    alloc: Global,
    events: &[ValidEvent],
    changes: &[ValidEvent],
) -> Result<Vec<ValidEvent>, NoMemory>
    requires { Rises events.now }
    ensures { IfOk result (λ out. out.items ≡ merged events.now changes.now) }
{
    if changes.len() < events.len() / EVENTS_PER_LOOKUP {
        merged_by_lookups(alloc, events, changes)
    } else {
        merged_by_steps(alloc, events, changes)
    }
}

/// A run with changes. The shorter of the two is the one that is merged into the other.
#[tactic(auto, using(crate::proofs::RunLemmas::merged_turned))]
pub(crate) fn merged_with(
    alloc: Global,
    run: &[ValidEvent],
    changes: &[ValidEvent],
) -> Result<Vec<ValidEvent>, NoMemory>
    requires run { Rises run.now }
    requires changes { Rises changes.now }
    ensures { IfOk result (λ out. out.items ≡ merged run.now changes.now) }
{
    if run.len() < changes.len() {
        merged(alloc, changes, run)
    } else {
        merged(alloc, run, changes)
    }
}
