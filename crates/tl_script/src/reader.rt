//! Reading a phase of the bytes in hand and of those that a source has left. The source is asked
//! only while those in hand have neither a whole phase nor a fault; so a fault that was read wins
//! over a source that fails.
ghost use Rattle.std.specs.Prelude.{◌≡◌, ◌<◌, ◌≤◌, length, take, true, false, [], IfOk, IfErr, OnOk, OnErr, MatchOption, None, Some};
ghost use Rattle.tl_script.specs.Script.{stands_in};
ghost use Rattle.tl_script.specs.Phases.{early_fault};
ghost use Rattle.tl_script.specs.Reader.{Grows, NextFaults};
ghost use Rattle.tl_script.specs.InHand.{spot_in, IsBetween, IsNamed, InHandSays, JobsNamed, LastLineSays, LastPhaseSays, TakesToGo, TakesPhase};

use crate::jobs::{ScriptError, ScriptFault};
use crate::lines_in_hand::read_lines;
use crate::open_phase::OpenPhase;
use crate::pending::Pending;
use crate::phases::NextError;
use std::alloc::Global;
use tl_device::Source;

// The fault that the start of a line has whatever follows, where there is one.
fn fault_of_part(phase: &OpenPhase, part: &[u8]) -> Option<ScriptFault>
    ensures { MatchOption result
        (0 < length part.now → early_fault phase.now.limits (spot_in phase.now) part.now ≡ None)
        (λ f. (0 < length part.now)
        × (early_fault phase.now.limits (spot_in phase.now) part.now ≡ Some f)) }
{
    if part.is_empty() {
        return None;
    }
    phase.early_fault(part)
}

// Reads the lines in hand up to a GO line, or all that have their LF; of the last line, whose start
// is left, also a fault that it has whatever follows. The first `searched` bytes have no LF.
fn read_in_hand(
    phase: &mut OpenPhase,
    pending: &mut Pending,
    alloc: Global,
    searched: usize,
) -> Result<bool, ScriptError>
    requires within { searched ≤ length pending.old }
    requires none { stands_in 10 (take searched pending.old) ≡ false }
    ensures says { InHandSays phase.old.limits (spot_in phase.old) pending.old result
        (spot_in phase.new) pending.new }
    ensures limits { phase.new.limits ≡ phase.old.limits }
    ensures before { (spot_in phase.new).before ≡ (spot_in phase.old).before }
    ensures named { IsNamed (spot_in phase.old) → IfOk result (λ _. IsNamed (spot_in phase.new)) }
{
    let found = read_lines(phase, alloc, pending.as_slice(), searched)?;
    pending.pass(found.used);
    if found.ends {
        return Ok(true);
    }
    if let Some(fault) = fault_of_part(phase, pending.as_slice()) {
        return Err(fault.into());
    }
    Ok(false)
}

// Reads up to the GO line that ends the phase, or to the end of the source, where the start of a
// line may be left.
fn read_to_go<S: Source>(
    phase: &mut OpenPhase,
    pending: &mut Pending,
    alloc: Global,
    source: &mut S,
) -> Result<bool, NextError>
    requires between { IsBetween phase.old }
    ensures takes { TakesToGo phase.old.limits (spot_in phase.old) pending.old (S.left source.old)
        result (spot_in phase.new) pending.new (S.left source.new) }
    ensures limits { phase.new.limits ≡ phase.old.limits }
    ensures before { (spot_in phase.new).before ≡ (spot_in phase.old).before }
    ensures named { IsNamed (spot_in phase.old) → IfOk result (λ _. IsNamed (spot_in phase.new)) }
    ensures sure { OnOk result (S.faults source.new ≡ S.faults source.old) }
    ensures faults { IfErr result (λ e. NextFaults e (S.faults source.old)
        (S.faults source.new)) }
{
    let mut searched = 0;
    'reading: loop {
        match read_in_hand(phase, pending, alloc, searched) {
            Ok(true) => return Ok(true),
            Ok(false) => {}
            Err(error) => return Err(error.into()),
        }
        searched = pending.len();
        match pending.refill(alloc, source) {
            Ok(true) => {}
            Ok(false) => return Ok(false),
            Err(error) => return Err(error),
        }
    }
}

// Reads the last line of the input, where there is one without its LF.
fn read_last_line(phase: &mut OpenPhase, alloc: Global, rest: &[u8]) -> Result<bool, ScriptError>
    requires { stands_in 10 rest.now ≡ false }
    ensures says { LastLineSays phase.old.limits (spot_in phase.old) rest.now result
        (spot_in phase.new) }
    ensures limits { phase.new.limits ≡ phase.old.limits }
    ensures before { (spot_in phase.new).before ≡ (spot_in phase.old).before }
    ensures named { IsNamed (spot_in phase.old) → IfOk result (λ _. IsNamed (spot_in phase.new)) }
{
    if rest.is_empty() {
        return Ok(false);
    }
    phase.read_line(alloc, rest)
}

// Reads the last line, and tells whether the input ends with a phase.
fn has_last_phase(phase: &mut OpenPhase, alloc: Global, rest: &[u8]) -> Result<bool, ScriptError>
    requires { stands_in 10 rest.now ≡ false }
    ensures says { LastPhaseSays phase.old.limits (spot_in phase.old) rest.now result phase.new }
    ensures limits { phase.new.limits ≡ phase.old.limits }
    ensures before { (spot_in phase.new).before ≡ (spot_in phase.old).before }
    ensures named { IsNamed (spot_in phase.old) → IfOk result (λ _. JobsNamed phase.new) }
    ensures grown { IsNamed (spot_in phase.old)
        → IfOk result (λ _. Grows (spot_in phase.old).before phase.new.names) }
{
    if read_last_line(phase, alloc, rest)? {
        phase.count_go();
        return Ok(true);
    }
    if let Some(block) = &phase.block {
        return Err(ScriptFault::BlockOpen { line: block.line }.into());
    }
    Ok(!phase.jobs.is_empty())
}

/// Reads the next phase, and answers whether there is one. `at_end` tells afterwards whether the
/// source is at its end; no byte is in hand then.
pub(crate) fn read_phase<S: Source>(
    phase: &mut OpenPhase,
    pending: &mut Pending,
    at_end: &mut bool,
    alloc: Global,
    source: &mut S,
) -> Result<bool, NextError>
    requires between { IsBetween phase.old }
    requires begun { at_end.old ≡ false }
    ensures takes { TakesPhase phase.old.limits (spot_in phase.old) pending.old (S.left source.old)
        result phase.new pending.new at_end.new (S.left source.new) }
    ensures hand { at_end.new ≡ true → pending.new ≡ [] }
    ensures limits { phase.new.limits ≡ phase.old.limits }
    ensures before { IfOk result (λ found. found ≡ false →
        (spot_in phase.new).before ≡ (spot_in phase.old).before) }
    ensures before_err { OnErr result ((spot_in phase.new).before ≡ (spot_in phase.old).before) }
    ensures named { IfOk result (λ _. JobsNamed phase.new) }
    ensures grown { IfOk result (λ _. Grows (spot_in phase.old).before phase.new.names) }
    ensures sure { OnOk result (S.faults source.new ≡ S.faults source.old) }
    ensures faults { IfErr result (λ e. NextFaults e (S.faults source.old)
        (S.faults source.new)) }
{
    match read_to_go(phase, pending, alloc, source) {
        Ok(true) => {
            phase.count_go();
            return Ok(true);
        }
        Ok(false) => {}
        Err(error) => return Err(error),
    }
    *at_end = true;
    let found = has_last_phase(phase, alloc, pending.as_slice());
    pending.clear();
    match found {
        Ok(some) => Ok(some),
        Err(error) => Err(error.into()),
    }
}
