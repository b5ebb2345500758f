//! Lists of events of valid time that are put together from runs, of chosen rows alone. What is in
//! an odd number of runs is there; the list is made piece by piece, so that what comes and goes
//! meanwhile stays small.
ghost use Rattle.std.specs.Prelude.{◌≡◌, ◌++◌, ◌∷◌, [], IfOk, OnOk};
ghost use Rattle.tl_ckpt.specs.Choices.{chosen, masked};
ghost use Rattle.tl_ckpt.specs.Valid.{Rises, merged};
ghost use Rattle.tl_ckpt.specs.Runs.{sum_of, AllRise, lent, fronts, backs};

use crate::choices::{Choice, has_bit};
use crate::merges::{lead, merged_with};
use std::alloc::Global;
use tl_shared::Chunk;
use tl_types::{NoMemory, ValidEvent};

// A list is put together in pieces, of which each has so many events of the longest run. The lists
// that come and go meanwhile are then small, and take the same memory again and again.
const PIECE: usize = 4096;

/// The changes and then the runs, all of them lent.
pub(crate) fn all_lent<'a>(
    alloc: Global,
    changes: &'a [ValidEvent],
    runs: &'a [Chunk<ValidEvent>],
) -> Result<Vec<&'a [ValidEvent]>, NoMemory>
    ensures { IfOk result (λ all. lent all.items ≡ changes.now ∷ runs.now) }
{
    let mut all = Vec::new(alloc);
    all.push(changes)?;
    let mut i = 0;
    'runs: while i < runs.len() {
        all.push(runs[i].as_slice())?;
        i += 1;
    }
    Ok(all)
}

// Of each run what comes before the event, and the rest of each.
fn cut<'a>(
    alloc: Global,
    runs: &[&'a [ValidEvent]],
    event: &ValidEvent,
) -> Result<(Vec<&'a [ValidEvent]>, Vec<&'a [ValidEvent]>), NoMemory>
    requires { AllRise (lent runs.now) }
    ensures { IfOk result (λ parts. (lent parts.0.items ≡ fronts event.now (lent runs.now))
        × (lent parts.1.items ≡ backs event.now (lent runs.now))) }
{
    let mut before = Vec::with_capacity(alloc, runs.len())?;
    let mut behind = Vec::with_capacity(alloc, runs.len())?;
    let mut i = 0;
    'runs: while i < runs.len() {
        let run = runs[i];
        let (front, back) = run.split_at(lead(run, event));
        before.push(front)?;
        behind.push(back)?;
        i += 1;
    }
    Ok((before, behind))
}

// Puts the event behind the others, where the bit of its row is set.
fn push_masked(out: &mut Vec<ValidEvent>, event: ValidEvent, mask: &[u64]) -> Result<(), NoMemory>
    ensures { OnOk result (out.new.items ≡ out.old.items ++ masked mask.now (event ∷ [])) }
{
    if has_bit(mask, event.row) {
        out.push(event)?;
    }
    Ok(())
}

// Of the events those of rows whose bits are set.
fn masked_events(
    alloc: Global,
    events: &[ValidEvent],
    mask: &[u64],
) -> Result<Vec<ValidEvent>, NoMemory>
    ensures { IfOk result (λ out. out.items ≡ masked mask.now events.now) }
{
    let mut out = Vec::new(alloc);
    for event in events {
        push_masked(&mut out, *event, mask)?;
    }
    Ok(out)
}

// A part with changes. Where one of them has no event, the other is handed on.
fn joined(
    alloc: Global,
    part: Vec<ValidEvent>,
    changes: Vec<ValidEvent>,
) -> Result<Vec<ValidEvent>, NoMemory>
    requires part { Rises part.items }
    requires changes { Rises changes.items }
    ensures { IfOk result (λ out. out.items ≡ merged part.items changes.items) }
{
    if part.is_empty() {
        return Ok(changes);
    }
    if changes.is_empty() {
        return Ok(part);
    }
    merged_with(alloc, &part, &changes)
}

// The events of a run that are of chosen rows, with changes.
fn chosen_with(
    alloc: Global,
    run: &[ValidEvent],
    choice: &Choice,
    changes: Vec<ValidEvent>,
) -> Result<Vec<ValidEvent>, NoMemory>
    requires run { Rises run.now }
    requires changes { Rises changes.items }
    ensures { IfOk result (λ out. out.items ≡ merged (chosen choice.now run.now) changes.items) }
{
    if choice.is_all() {
        let out = merged_with(alloc, run, &changes)?;
        return Ok(out);
    }
    let part = masked_events(alloc, run, choice.mask())?;
    let out = joined(alloc, part, changes)?;
    Ok(out)
}

// The events of chosen rows of all runs as one list, one run after the other.
fn merged_in_turn(
    alloc: Global,
    runs: &[&[ValidEvent]],
    choice: &Choice,
) -> Result<Vec<ValidEvent>, NoMemory>
    requires { AllRise (lent runs.now) }
    ensures { IfOk result (λ out. out.items ≡ chosen choice.now (sum_of (lent runs.now))) }
{
    let mut out = Vec::new(alloc);
    let mut i = 0;
    'runs: while i < runs.len() {
        out = chosen_with(alloc, runs[i], choice, out)?;
        i += 1;
    }
    Ok(out)
}

// The longest of the runs; no events where there is no run.
fn longest<'a>(runs: &[&'a [ValidEvent]]) -> &'a [ValidEvent] {
    let mut longest: &'a [ValidEvent] = &[];
    for run in runs {
        if longest.len() < run.len() {
            longest = run;
        }
    }
    longest
}

// How many events all runs have.
fn total(runs: &[&[ValidEvent]]) -> usize {
    let mut total: usize = 0;
    for run in runs {
        total = total.saturating_add(run.len());
    }
    total
}

// The events of chosen rows of all runs as one list, piece by piece.
fn merged_in_pieces(
    alloc: Global,
    runs: Vec<&[ValidEvent]>,
    choice: &Choice,
) -> Result<Vec<ValidEvent>, NoMemory>
    requires { AllRise (lent runs.items) }
    ensures { IfOk result (λ out. out.items ≡ chosen choice.now (sum_of (lent runs.entry.items))) }
{
    let longest = longest(&runs);
    let mut out = Vec::with_capacity(alloc, total(&runs))?;
    let mut rests = runs;
    let mut at = PIECE;
    'pieces: while at < longest.len() {
        let (before, behind) = cut(alloc, &rests, &longest[at])?;
        let mut piece = merged_in_turn(alloc, &before, choice)?;
        out.append(&mut piece)?;
        rests = behind;
        at += PIECE;
    }
    let mut piece = merged_in_turn(alloc, &rests, choice)?;
    out.append(&mut piece)?;
    Ok(out)
}

/// The events of chosen rows of all runs as one list.
pub(crate) fn list_of(
    alloc: Global,
    runs: Vec<&[ValidEvent]>,
    choice: &Choice,
) -> Result<Vec<ValidEvent>, NoMemory>
    requires { AllRise (lent runs.items) }
    ensures { IfOk result (λ out. out.items ≡ chosen choice.now (sum_of (lent runs.entry.items))) }
{
    if runs.len() <= 2 {
        merged_in_turn(alloc, &runs, choice)
    } else {
        merged_in_pieces(alloc, runs, choice)
    }
}
