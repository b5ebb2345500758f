//! The phase that is read, line by line: its jobs so far, the block that is not ended, and the
//! names of the sessions. A line with a fault ends it, and leaves the names of the phases before.
ghost use Rattle.std.specs.Prelude.{◌≡◌, ◌+◌, ◌≤◌, ◌<◌, ◌^◌, [], length, None, Some, OnOk, IfOk, IsTrue, IsUtf8};
ghost use Rattle.tl_script.specs.Phases.{most_sessions, statement, outside, inside, early_fault, after_line, behind, behind_go, phase_start};

use crate::jobs::{ScriptError, ScriptFault};
use crate::phases::{Job, Phase};
use crate::plain_lines::{line_ends, plain_lines};
use crate::session_names::SessionNames;
use crate::texts::{
    as_text, ends_block, has_block, is_passed_over, is_utf8, statement_of, text_of, without_last,
};
use std::alloc::Global;
use std::mem;
use tl_types::{Bytes, Limits, Line, NoMemory};

// A statement whose block is read, and the block's bytes so far.
#[derive(Drop)]
pub(crate) struct OpenBlock {
    pub session: u32,
    pub line: u64,
    pub text: Line,
    pub bytes: Vec<u8>,
}

// The phase that is read: the names of the sessions, of which the first `known` stand in phases
// before it, the number of the next line, how many GO lines there were before, the bytes of its
// lines so far, its jobs, and the block that is not ended.
#[derive(Drop)]
pub(crate) struct OpenPhase {
    pub limits: Limits,
    pub names: SessionNames,
    pub known: usize,
    pub line: u64,
    pub ended: u64,
    pub size: u64,
    pub jobs: Vec<Job>,
    pub block: Option<OpenBlock>,
    ghost fits: { size ≤ limits.phase },
    ghost has_known: { known ≤ length names },
    ghost numbered: { length names < 2 ^ 32 },
}

fn most_sessions(limits: &Limits) -> u64
    ensures { result ≡ most_sessions limits.now }
{
    limits.sessions.min(4_294_967_295)
}

impl OpenPhase {
    ghost use Rattle.tl_script.specs.InHand.{spot_in, StepIs, SaysStep, SaysMemory, SessionIs, with_job_in, IsBetween};
    ghost use Rattle.tl_script.specs.PlainLines.{HasRoom, PassesLines, behind_plain};

    /// The first phase of a script.
    pub fn new(alloc: Global, limits: &Limits) -> OpenPhase
        ensures limits { result.limits ≡ limits.now }
        ensures names { result.names ≡ [] }
        ensures known { result.known ≡ 0 }
        ensures line { result.line ≡ 1 }
        ensures ended { result.ended ≡ 0 }
        ensures size { result.size ≡ 0 }
        ensures jobs { result.jobs.items ≡ [] }
        ensures block { result.block ≡ None }
    {
        OpenPhase {
            limits: *limits,
            names: SessionNames::new(alloc),
            known: 0,
            line: 1,
            ended: 0,
            size: 0,
            jobs: Vec::new(alloc),
            block: None,
        }
    }

    /// The fault that a line has whatever more stands on it.
    pub fn early_fault(&self, line: &[u8]) -> Option<ScriptFault>
        ensures { result ≡ early_fault self.now.limits (spot_in self.now) line.now }
    {
        if self.ended >= self.limits.phases {
            return Some(ScriptFault::PhasesFull { line: self.line });
        }
        if without_last(line, b'\n').len() as u64 > self.limits.line {
            return Some(ScriptFault::LineTooLong { line: self.line });
        }
        None
    }

    // Counts a line.
    fn pass(&mut self, line: &[u8])
        requires { self.old.size + length line.now ≤ self.old.limits.phase }
        ensures spot { spot_in self.new ≡ behind (spot_in self.old) line.now
            self.old.names self.old.jobs.items (spot_in self.old).place }
        ensures limits { self.new.limits ≡ self.old.limits }
        ensures known { self.new.known ≡ self.old.known }
        ensures block { self.new.block ≡ self.old.block }
    {
        self.line = self.line.saturating_add(1);
        self.size += line.len() as u64;
    }

    // The number of a session, whose name is put behind the others where it is new.
    #[tactic(auto, using(crate::proofs::SpotLemmas::with_old_name))]
    fn session(&mut self, alloc: Global, name: &[u8]) -> Result<u32, ScriptError>
        requires { IsUtf8 name.now }
        ensures found { SessionIs self.old.limits (spot_in self.old) name.now result
            (spot_in self.new) }
        ensures limits { self.new.limits ≡ self.old.limits }
        ensures known { self.new.known ≡ self.old.known }
        ensures before { (spot_in self.new).before ≡ (spot_in self.old).before }
        ensures size { self.new.size ≡ self.old.size }
    {
        let name = as_text(name);
        let number = self.names.number_of(name);
        if number as u64 >= most_sessions(&self.limits) {
            return Err(ScriptFault::SessionsFull { line: self.line }.into());
        }
        if number == self.names.len() {
            self.names.add(alloc, name)?;
        }
        Ok(number as u32)
    }

    // Puts a job behind the others.
    fn push_job(
        &mut self,
        session: u32,
        line: u64,
        text: Line,
        block: Option<Bytes>,
    ) -> Result<(), ScriptError>
        ensures done { OnOk result (spot_in self.new
            ≡ with_job_in (spot_in self.old) session line text block) }
        ensures free { SaysMemory result }
        ensures limits { self.new.limits ≡ self.old.limits }
        ensures known { self.new.known ≡ self.old.known }
        ensures names { self.new.names ≡ self.old.names }
    {
        self.jobs.push(Job {
            session,
            line,
            text,
            block,
        })?;
        Ok(())
    }

    // Reads a statement of a session: its job, or the start of the block that it has.
    fn statement(
        &mut self,
        alloc: Global,
        line: &[u8],
        name: &[u8],
        text: &str,
    ) -> Result<(), ScriptError>
        requires text { IsUtf8 name.now }
        requires fits { self.old.size + length line.now ≤ self.old.limits.phase }
        requires place { self.old.block ≡ None }
        ensures step { SaysStep (statement self.old.limits (spot_in self.old) line.now name.now
            text.now) result (spot_in self.new) }
        ensures limits { self.new.limits ≡ self.old.limits }
        ensures known { self.new.known ≡ self.old.known }
        ensures before { (spot_in self.new).before ≡ (spot_in self.old).before }
    {
        let session = self.session(alloc, name)?;
        let begun = self.line;
        let text = Line::new(alloc, text)?;
        self.pass(line);
        if !has_block(text.as_str().as_bytes()) {
            return self.push_job(session, begun, text, None);
        }
        self.block = Some(OpenBlock {
            session,
            line: begun,
            text,
            bytes: Vec::new(alloc),
        });
        Ok(())
    }

    // Reads a line outside a block. It answers whether the line ends the phase.
    fn outside_line(&mut self, alloc: Global, line: &[u8]) -> Result<bool, ScriptError>
        requires fits { self.old.size + length line.now ≤ self.old.limits.phase }
        requires place { self.old.block ≡ None }
        ensures step { StepIs (outside self.old.limits (spot_in self.old) line.now) result
            (spot_in self.old) (spot_in self.new) }
        ensures limits { self.new.limits ≡ self.old.limits }
        ensures known { self.new.known ≡ self.old.known }
        ensures before { (spot_in self.new).before ≡ (spot_in self.old).before }
    {
        let text = text_of(line);
        if !is_utf8(text) {
            return Err(ScriptFault::NotUtf8 { line: self.line }.into());
        }
        if is_passed_over(text) {
            self.pass(line);
            return Ok(false);
        }
        if text == b"GO".as_slice() {
            return Ok(true);
        }
        let Some((name, statement)) = statement_of(text) else {
            return Err(ScriptFault::NoSession { line: self.line }.into());
        };
        self.statement(alloc, line, name, as_text(statement))?;
        Ok(false)
    }

    // Reads a line of the block of a statement.
    fn block_line(&mut self, block: OpenBlock, line: &[u8]) -> Result<(), ScriptError>
        requires fits { self.old.size + length line.now ≤ self.old.limits.phase }
        requires place { self.old.block ≡ None }
        ensures step { SaysStep (inside (spot_in self.old) line.now block.session block.line
            block.text block.bytes.items) result (spot_in self.new) }
        ensures limits { self.new.limits ≡ self.old.limits }
        ensures known { self.new.known ≡ self.old.known }
        ensures before { (spot_in self.new).before ≡ (spot_in self.old).before }
    {
        let mut block = block;
        self.pass(line);
        if ends_block(line) {
            let bytes = Bytes::from_vec(block.bytes);
            return self.push_job(block.session, block.line, block.text, Some(bytes));
        }
        block.bytes.extend_from_slice(line)?;
        self.block = Some(block);
        Ok(())
    }

    /// Reads the next line. It answers whether it is the GO line that ends the phase, which is not
    /// counted yet. A fault or being out of memory leaves the names of the phases before.
    pub fn read_line(&mut self, alloc: Global, line: &[u8]) -> Result<bool, ScriptError>
        ensures step { StepIs (after_line self.old.limits (spot_in self.old) line.now) result
            (spot_in self.old) (spot_in self.new) }
        ensures limits { self.new.limits ≡ self.old.limits }
        ensures before { (spot_in self.new).before ≡ (spot_in self.old).before }
    {
        if let Some(fault) = self.early_fault(line) {
            return Err(fault.into());
        }
        if line.len() as u64 > self.limits.phase - self.size {
            return Err(ScriptFault::PhaseTooLong { line: self.line }.into());
        }
        match self.block.take() {
            None => self.outside_line(alloc, line),
            Some(block) => {
                self.block_line(block, line)?;
                Ok(false)
            }
        }
    }

    // Whether lines of so many bytes in all have no fault for their number or their length.
    fn has_room(&self, number: usize) -> bool
        ensures { IsTrue result → HasRoom self.now.limits (spot_in self.now) number }
    {
        self.ended < self.limits.phases
            && number as u64 <= self.limits.line
            && number as u64 <= self.limits.phase - self.size
    }

    // Puts lines behind the bytes of a block. That a line's number is a u64 is said for its caller,
    // which reads no `self.line` of its own.
    fn extend_block(&mut self, block: OpenBlock, lines: &[u8]) -> Result<(), NoMemory>
        requires fits { self.old.size + length lines.now ≤ self.old.limits.phase }
        ensures step { OnOk result (spot_in self.new ≡ behind_plain (spot_in self.old) lines.now
            block.session block.line block.text block.bytes.items) }
        ensures counted { self.old.line < 2 ^ 64 }
        ensures limits { self.new.limits ≡ self.old.limits }
        ensures known { self.new.known ≡ self.old.known }
        ensures before { (spot_in self.new).before ≡ (spot_in self.old).before }
    {
        let mut block = block;
        let line = self.line;
        self.line = line.saturating_add(line_ends(lines));
        self.size += lines.len() as u64;
        block.bytes.extend_from_slice(lines)?;
        self.block = Some(block);
        Ok(())
    }

    /// Reads lines of the open block together, up to one that may end it, and answers how many
    /// bytes they have: none where no block is open. Being out of memory leaves the names of the
    /// phases before.
    pub fn read_plain_lines(&mut self, bytes: &[u8]) -> Result<usize, NoMemory>
        ensures read { IfOk result (λ number. PassesLines self.old.limits (spot_in self.old)
            bytes.now number (spot_in self.new)) }
        ensures limits { self.new.limits ≡ self.old.limits }
        ensures before { (spot_in self.new).before ≡ (spot_in self.old).before }
    {
        let has_room = self.has_room(bytes.len());
        if !has_room {
            return Ok(0);
        }
        let Some(block) = self.block.take() else {
            return Ok(0);
        };
        let lines = plain_lines(bytes);
        self.extend_block(block, lines)?;
        Ok(lines.len())
    }

    /// The phase that ended. The next line is the first of a new one.
    pub fn end_phase(&mut self, alloc: Global) -> Phase
        ensures jobs { result.jobs.items ≡ self.old.jobs.items }
        ensures between { IsBetween self.new }
        ensures names { self.new.names ≡ self.old.names }
        ensures line { self.new.line ≡ self.old.line }
        ensures ended { self.new.ended ≡ self.old.ended }
        ensures limits { self.new.limits ≡ self.old.limits }
    {
        self.known = self.names.len();
        self.size = 0;
        self.block = None;
        Phase {
            jobs: mem::replace(&mut self.jobs, Vec::new(alloc)),
        }
    }

    /// Counts a GO line.
    pub fn count_go(&mut self)
        ensures spot { behind_go (spot_in self.old)
            ≡ phase_start self.new.names self.new.line self.new.ended }
        ensures jobs { self.new.jobs ≡ self.old.jobs }
        ensures names { self.new.names ≡ self.old.names }
        ensures known { self.new.known ≡ self.old.known }
        ensures limits { self.new.limits ≡ self.old.limits }
    {
        self.line = self.line.saturating_add(1);
        self.ended = self.ended.saturating_add(1);
    }

    /// Leaves out the names of the phase that is read.
    pub fn forget_names(&mut self)
        ensures names { self.new.names ≡ (spot_in self.old).before }
        ensures line { self.new.line ≡ self.old.line }
        ensures ended { self.new.ended ≡ self.old.ended }
        ensures limits { self.new.limits ≡ self.old.limits }
    {
        self.names.truncate(self.known);
    }
}
