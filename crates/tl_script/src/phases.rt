//! What a script is: phases of jobs, each a statement with its block. Why a reader has no further
//! one is told apart: a fault of the script, one of the source, or memory that ran out.
use crate::jobs::{ScriptError, ScriptFault};
use std::alloc::AllocFailed;
use std::marker::Model;
use tl_types::{Bytes, Line, NoMemory};

/// One statement of a script.
#[derive(Drop)]
pub struct Job {
    /// The number of its session, from 0: the place of its name among those of the script.
    pub session: u32,
    /// The number of the line that it stands on, from 1.
    pub line: u64,
    /// The statement's text, without the session's name and the spaces and tabs around it.
    pub text: Line,
    /// The bytes of its block, where its first word is `PUT`, `REMOVE` or `SYNC`.
    pub block: Option<Bytes>,
}

impl Model for Job {
    ghost use Rattle.tl_script.specs.Script.{Job as PlainJob};

    ghost Value = { PlainJob };

    ghost view = { λ job. record {
      session = job.session;
      line = job.line;
      text = job.text;
      block = job.block;
    } };
}

/// The jobs that are run before the replies to them are written, in the order of their lines.
#[derive(Drop)]
pub struct Phase {
    /// The jobs, in the order of their lines. There is none where a `GO` has no job before it.
    pub jobs: Vec<Job>,
}

/// Why a reader has no further phase.
#[derive(Clone, Copy, Debug, PartialEq, Eq)]
pub enum NextError {
    /// Memory ran out.
    NoMemory,
    /// The source failed. `faults` is its count of faults, which rose.
    Source {
        /// Its count of faults.
        faults: u64,
    },
    /// The next phase has this fault.
    Fault(ScriptFault),
}

impl From<NoMemory> for NextError {
    ghost use Rattle.std.specs.Prelude.{◌≡◌};
    ghost use Rattle.tl_script.specs.declared.phases.NextError.TheVariants.{NoMemory};

    ghost from_gives = { λ _ e. e ≡ NoMemory };

    fn from(_error: NoMemory) -> NextError {
        NextError::NoMemory
    }
}

impl<T: Drop> From<AllocFailed<T>> for NextError {
    ghost use Rattle.std.specs.Prelude.{◌≡◌};
    ghost use Rattle.tl_script.specs.declared.phases.NextError.TheVariants.{NoMemory};

    ghost from_gives = { λ _ e. e ≡ NoMemory };

    fn from(_error: AllocFailed<T>) -> NextError {
        NextError::NoMemory
    }
}

impl From<ScriptError> for NextError {
    ghost use Rattle.std.specs.Prelude.{◌≡◌};
    ghost use Rattle.tl_script.specs.Reader.{next_error};

    ghost from_gives = { λ error e. e ≡ next_error error };

    fn from(error: ScriptError) -> NextError {
        match error {
            ScriptError::NoMemory => NextError::NoMemory,
            ScriptError::Fault(fault) => NextError::Fault(fault),
        }
    }
}

impl From<ScriptFault> for NextError {
    ghost use Rattle.std.specs.Prelude.{◌≡◌};
    ghost use Rattle.tl_script.specs.declared.phases.NextError.TheVariants.{Fault};

    ghost from_gives = { λ fault e. e ≡ Fault fault };

    fn from(fault: ScriptFault) -> NextError {
        NextError::Fault(fault)
    }
}
