//! Why the phases of a run stopped: at their end, or for one of four causes. It keeps the counts of
//! faults with which a source or a sink failed.
ghost use Rattle.std.specs.Prelude.{◌≡◌};
ghost use Rattle.tl_command.specs.Stops.{stop_for};

use tl_script::{NextError, ScriptFault};

/// Why no further phase is run.
#[derive(Clone, Copy)]
pub enum Stop {
    /// All phases were run.
    Ended,
    /// The next phase has this fault.
    Fault(ScriptFault),
    /// The source failed. `faults` is its count of faults.
    Source {
        /// Its count of faults.
        faults: u64,
    },
    /// The sink failed. `faults` is its count of faults.
    Sink {
        /// Its count of faults.
        faults: u64,
    },
    /// Memory ran out.
    NoMemory,
}

/// Why the phases stop where no further one is read, for this cause.
pub fn stop_for(error: NextError) -> Stop
    ensures { result ≡ stop_for error }
{
    match error {
        NextError::NoMemory => Stop::NoMemory,
        NextError::Source { faults } => Stop::Source { faults },
        NextError::Fault(fault) => Stop::Fault(fault),
    }
}
