//! A script that is read from a source, phase by phase. It keeps the names of its sessions and the
//! bytes that were read ahead, and reads no more once a phase has a fault or the source failed.
ghost use Rattle.std.specs.Prelude.{◌≡◌, ◌<◌, ◌^◌, length, true, get_or, [], OnOk, IfErr};
ghost use Rattle.tl_script.specs.Reader.{new_state, AnswersNext, NextFaults};

use crate::open_phase::OpenPhase;
use crate::pending::Pending;
use crate::phases::{NextError, Phase};
use crate::reader::read_phase;
use std::alloc::Global;
use std::marker::Model;
use tl_device::Source;
use tl_types::Limits;

/// A script that is read from a source, as far as it is read. Contracts see it as the names of its
/// sessions so far, the number of its next line, how many `GO` lines were read, and the bytes that
/// are taken of the source and not read.
#[derive(Drop)]
pub struct Script {
    phase: OpenPhase,
    pending: Pending,
    at_end: bool,
    live: bool,
}

impl Model for Script {
    ghost use Rattle.std.specs.Prelude.{◌≡◌, [], true};
    ghost use Rattle.tl_script.specs.InHand.{state_in, IsBetween};
    ghost use Rattle.tl_script.specs.Reader.{ScriptState};

    ghost Value = { ScriptState };

    ghost view = { λ s. state_in s.phase s.pending s.at_end s.live };

    ghost invariant = { λ s. (s.live ≡ true → IsBetween s.phase)
        × (s.at_end ≡ true → s.pending ≡ []) };
}

impl Script {
    /// A script of which nothing is read yet. `limits` says how much of it there may be: its
    /// session names (at most 2^32 - 1 whatever the limit, since their numbers are u32), the bytes
    /// of a line, those of the lines of a phase, and its `GO` lines.
    pub fn new(alloc: Global, limits: &Limits) -> Script
        ensures { result ≡ new_state limits.now }
    {
        Script {
            phase: OpenPhase::new(alloc, limits),
            pending: Pending::new(alloc),
            at_end: false,
            live: true,
        }
    }

    /// Whether a further phase may come: no call answered None or an error yet.
    pub fn live(&self) -> bool
        ensures { result ≡ self.now.live }
    {
        self.live
    }

    /// How many sessions the phases so far name. They have the numbers from 0 on.
    pub fn session_count(&self) -> u32
        ensures { result ≡ length self.now.names }
    {
        self.phase.names.len() as u32
    }

    /// The name of a session of these, by its number.
    pub fn session_name(&self, number: u32) -> &str
        requires { number < length self.now.names }
        ensures { result.now ≡ get_or self.now.names number [] }
    {
        self.phase.names.name(number as usize)
    }

    /// Reads the next phase of a script that is live, or None where its input ends with no job
    /// left.
    ///
    /// A script is a list of lines, numbered from 1, each ended by LF or by the end of the input.
    /// Outside a block a line is blank, a comment whose first byte is `#`, exactly `GO`, which ends
    /// a phase, or a session's name, `>` and a statement. A statement whose first word is `PUT`,
    /// `REMOVE` or `SYNC` has a block: the lines after it, up to a line `\.`. The lines after the
    /// last `GO` are a phase where they have a job.
    ///
    /// `Fault`: the phase has a fault, that of its least line; at one line the first of
    /// `PhasesFull`, `LineTooLong`, `PhaseTooLong`, `NotUtf8`, `NoSession` and `SessionsFull`.
    /// `BlockOpen` counts as standing after the last line. `Source`: a read failed before the bytes
    /// that were taken had a whole phase or a fault; the source's count of faults, which rose in
    /// this call, is handed on. `NoMemory`: memory ran out.
    ///
    /// After None and after an error the script is not live, and its names are those of the phases
    /// before. The source is asked only while the bytes in hand do not decide the answer: where
    /// those that were read ahead have a phase or a fault nothing is taken, and before the last
    /// read they had none. A call takes at most as many bytes as a phase and a line may have, and
    /// 65,536 more.
    pub fn next_phase<S: Source>(
        &mut self,
        alloc: Global,
        source: &mut S,
    ) -> Result<Option<Phase>, NextError>
        requires { self.old.live ≡ true }
        ensures answers { AnswersNext self.old (S.left source.old) result self.new
            (S.left source.new) }
        ensures sure { OnOk result (S.faults source.new ≡ S.faults source.old) }
        ensures faults { IfErr result (λ e. NextFaults e (S.faults source.old)
            (S.faults source.new)) }
    {
        self.live = false;
        if self.at_end {
            return Ok(None);
        }
        match read_phase(
            &mut self.phase,
            &mut self.pending,
            &mut self.at_end,
            alloc,
            source,
        ) {
            Ok(true) => {
                self.live = true;
                Ok(Some(self.phase.end_phase(alloc)))
            }
            Ok(false) => {
                self.phase.forget_names();
                Ok(None)
            }
            Err(error) => {
                self.phase.forget_names();
                Err(error)
            }
        }
    }
}
