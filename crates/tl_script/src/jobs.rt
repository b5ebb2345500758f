//! Why the jobs of a script are not handed out: its seven faults, each with the number of a line,
//! or that memory ran out.
ghost use Rattle.std.specs.Prelude.{◌≡◌};

use std::alloc::AllocFailed;
use tl_types::NoMemory;

/// Why the rest of a script is not run, with the number of a line. That line is the first at which
/// the fault is met, but for `BlockOpen`.
#[derive(Clone, Copy, Debug, PartialEq, Eq)]
pub enum ScriptFault {
    /// A line stands behind as many `GO` lines as a script may have.
    PhasesFull {
        /// The line's number, from 1.
        line: u64,
    },
    /// A line has too many bytes without its LF.
    LineTooLong {
        /// The line's number, from 1.
        line: u64,
    },
    /// The lines of the phase up to and with this one have too many bytes.
    PhaseTooLong {
        /// The line's number, from 1.
        line: u64,
    },
    /// A line outside a block is not UTF-8.
    NotUtf8 {
        /// The line's number, from 1.
        line: u64,
    },
    /// A line outside a block is neither blank, nor a comment, nor `GO`, nor a statement of a
    /// session.
    NoSession {
        /// The line's number, from 1.
        line: u64,
    },
    /// A line names a session past those that a script may have.
    SessionsFull {
        /// The line's number, from 1.
        line: u64,
    },
    /// The input ends inside the block of the statement on this line.
    BlockOpen {
        /// The line's number, from 1.
        line: u64,
    },
}

// Why the jobs of a phase are not handed out: memory ran out, or the phase has a fault.
#[derive(Clone, Copy, Debug, PartialEq, Eq)]
pub(crate) enum ScriptError {
    NoMemory,
    Fault(ScriptFault),
}

impl From<NoMemory> for ScriptError {
    ghost use Rattle.tl_script.specs.declared.jobs.ScriptError.TheVariants.{NoMemory};

    ghost from_gives = { λ _ e. e ≡ NoMemory };

    fn from(_error: NoMemory) -> ScriptError {
        ScriptError::NoMemory
    }
}

impl<T: Drop> From<AllocFailed<T>> for ScriptError {
    ghost use Rattle.tl_script.specs.declared.jobs.ScriptError.TheVariants.{NoMemory};

    ghost from_gives = { λ _ e. e ≡ NoMemory };

    fn from(_error: AllocFailed<T>) -> ScriptError {
        ScriptError::NoMemory
    }
}

impl From<ScriptFault> for ScriptError {
    ghost use Rattle.tl_script.specs.declared.jobs.ScriptError.TheVariants.{Fault};

    ghost from_gives = { λ fault e. e ≡ Fault fault };

    fn from(fault: ScriptFault) -> ScriptError {
        ScriptError::Fault(fault)
    }
}
