//! The phases that a run goes through: those of a script, or one that puts a whole source. Each is
//! asked for when those before it were run, and the names of its sessions are kept by number; a
//! phase with a fault, a source that fails and memory that runs out are told apart.
ghost use Rattle.std.specs.Prelude.{◌≡◌, ◌<◌, length, get_or, [], true, OnOk, IfErr};
ghost use Rattle.tl_script.specs.Reader.{NextFaults};
ghost use Rattle.tl_command.specs.Coming.{AnswersComing, block_coming, script_coming};

use std::alloc::Global;
use tl_device::Source;
use tl_script::{NextError, Phase, Script, load_phase};
use tl_types::Limits;

/// Phases that come one after the other when they are asked for, of bytes that a source gives.
pub trait Phases<S: Source>: Drop {
    ghost use Rattle.tl_command.specs.Coming.{Coming};

    // What may still come.
    ghost coming: { Self → Coming };

    /// The next phase, None where no more comes. `Fault`: the next phase has this fault. `Source`:
    /// the source failed before the phase was whole; its count of faults rose in this call, and is
    /// handed on. `NoMemory`: memory ran out.
    fn next(&mut self, alloc: Global, source: &mut S) -> Result<Option<Phase>, NextError>
        requires { (coming self.old).live ≡ true }
        ensures answers { AnswersComing (coming self.old) (S.left source.old) result
            (coming self.new) (S.left source.new) }
        ensures sure { OnOk result (S.faults source.new ≡ S.faults source.old) }
        ensures faults { IfErr result (λ e. NextFaults e (S.faults source.old)
            (S.faults source.new)) };

    /// How many sessions the phases so far name. They have the numbers from 0 on.
    fn session_count(&self) -> u32
        ensures { result ≡ length (coming self.now).names };

    /// The name of a session of these, by its number.
    fn session_name(&self, number: u32) -> &str
        requires { number < length (coming self.now).names }
        ensures { result.now ≡ get_or (coming self.now).names number [] };
}

impl<S: Source> Phases<S> for Script {
    ghost coming = { script_coming };

    fn next(&mut self, alloc: Global, source: &mut S) -> Result<Option<Phase>, NextError> {
        self.next_phase(alloc, source)
    }

    fn session_count(&self) -> u32 {
        Script::session_count(self)
    }

    fn session_name(&self, number: u32) -> &str {
        Script::session_name(self, number)
    }
}

// The name of the session that loads a table.
const LOADER: &str = "load";

/// The one phase that puts all that a source gives as the block of a statement.
#[derive(Drop)]
pub struct BlockPhase<'a> {
    /// The text of the statement whose block is all that the source gives: `PUT` and a table's
    /// name.
    pub text: &'a str,
    /// Whether the phase has come.
    pub given: bool,
}

impl<'a, S: Source> Phases<S> for BlockPhase<'a> {
    ghost coming = { λ p. block_coming p.text.now p.given };

    fn next(&mut self, alloc: Global, source: &mut S) -> Result<Option<Phase>, NextError> {
        if self.given {
            return Ok(None);
        }
        let phase = load_phase(alloc, source, self.text, &Limits::standard())?;
        self.given = true;
        Ok(Some(phase))
    }

    fn session_count(&self) -> u32 {
        if self.given { 1 } else { 0 }
    }

    fn session_name(&self, _number: u32) -> &str {
        LOADER
    }
}
