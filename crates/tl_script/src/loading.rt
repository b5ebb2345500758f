//! A whole input as the block of one statement. It is kept as it came, and refused where it has
//! more bytes than a phase may have.
ghost use Rattle.std.specs.Prelude.{◌≡◌, ◌∷◌, [], IfOk, IfErr, OnOk, Some};
ghost use Rattle.tl_script.specs.Reader.{FailsBlock, Loads, NextFaults, TakesBlock};
ghost use Rattle.tl_script.specs.Script.{job_with};

use crate::jobs::ScriptFault;
use crate::pending::Pending;
use crate::phases::{Job, NextError, Phase};
use std::alloc::Global;
use tl_device::Source;
use tl_types::{Bytes, Limits, Line, NoMemory};

// Takes what a source has left, or a prefix of it of more than `most` bytes, where none is in hand.
fn take_block<S: Source>(
    pending: &mut Pending,
    alloc: Global,
    source: &mut S,
    most: u64,
) -> Result<(), NextError>
    requires { pending.old ≡ [] }
    ensures takes { OnOk result (TakesBlock most (S.left source.old) pending.new
        (S.left source.new)) }
    ensures fails { IfErr result (λ e. FailsBlock most (S.left source.old) e
        (S.left source.new)) }
    ensures sure { OnOk result (S.faults source.new ≡ S.faults source.old) }
    ensures faults { IfErr result (λ e. NextFaults e (S.faults source.old)
        (S.faults source.new)) }
{
    'reading: while pending.len() as u64 <= most {
        match pending.refill(alloc, source) {
            Ok(true) => {}
            Ok(false) => return Ok(()),
            Err(error) => return Err(error),
        }
    }
    Ok(())
}

/// Reads what a source has left: to its end, or until more than `most` bytes were taken, which are
/// then at most 65,536 more. Where the answer has more than `most` bytes the source may have more
/// yet, and else that is all. `Source`: a read failed before that; the source's count of faults,
/// which rose in this call, is handed on. `NoMemory`: memory ran out. There is no other error.
pub fn read_block<S: Source>(alloc: Global, source: &mut S, most: u64) -> Result<Bytes, NextError>
    ensures takes { IfOk result (λ block. TakesBlock most (S.left source.old) block
        (S.left source.new)) }
    ensures fails { IfErr result (λ e. FailsBlock most (S.left source.old) e
        (S.left source.new)) }
    ensures sure { OnOk result (S.faults source.new ≡ S.faults source.old) }
    ensures faults { IfErr result (λ e. NextFaults e (S.faults source.old)
        (S.faults source.new)) }
{
    let mut pending = Pending::new(alloc);
    match take_block(&mut pending, alloc, source, most) {
        Ok(()) => {}
        Err(error) => return Err(error),
    }
    match pending.into_vec() {
        Ok(block) => Ok(Bytes::from_vec(block)),
        Err(_) => Err(NextError::NoMemory),
    }
}

// The job that puts a block, of the first session.
fn load_job(text: Line, block: Bytes) -> Job
    ensures { result ≡ job_with 1 text (Some block) }
{
    Job {
        session: 0,
        line: 1,
        text,
        block: Some(block),
    }
}

// The phase of the job that puts a block.
fn load_jobs(alloc: Global, text: &str, pending: Pending) -> Result<Phase, NoMemory>
    ensures { IfOk result (λ phase. phase.jobs.items
        ≡ job_with 1 text.now (Some pending) ∷ []) }
{
    let text = Line::new(alloc, text)?;
    let block = Bytes::from_vec(pending.into_vec()?);
    let mut jobs = Vec::new(alloc);
    jobs.push(load_job(text, block))?;
    Ok(Phase { jobs })
}

/// Reads a whole input as the block of one statement, with this text, on line 1 of the session
/// `load`, number 0: one phase of one job. `Fault`: the input has more than `limits.phase` bytes;
/// the fault is `PhaseTooLong` on line 1, and no other comes. `Source`: a read failed before that
/// was met; the source's count of faults, which rose in this call, is handed on. `NoMemory`: memory
/// ran out. At most 65,536 bytes more than a phase may have are taken.
pub fn load_phase<S: Source>(
    alloc: Global,
    source: &mut S,
    text: &str,
    limits: &Limits,
) -> Result<Phase, NextError>
    ensures loads { Loads limits.now text.now (S.left source.old) result (S.left source.new) }
    ensures sure { OnOk result (S.faults source.new ≡ S.faults source.old) }
    ensures faults { IfErr result (λ e. NextFaults e (S.faults source.old)
        (S.faults source.new)) }
{
    let mut pending = Pending::new(alloc);
    match take_block(&mut pending, alloc, source, limits.phase) {
        Ok(()) => {}
        Err(error) => return Err(error),
    }
    if pending.len() as u64 > limits.phase {
        return Err(NextError::Fault(ScriptFault::PhaseTooLong { line: 1 }));
    }
    match load_jobs(alloc, text, pending) {
        Ok(phase) => Ok(phase),
        Err(_) => Err(NextError::NoMemory),
    }
}
