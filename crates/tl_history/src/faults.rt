//! Why a batch is not committed. The variants stand in the order in which they are tried.
use tl_types::BatchFault;

/// Why a batch is not committed. The first one that applies is answered. `version` is the number
/// of the commits then.
#[derive(Clone, Copy, Debug, PartialEq, Eq)]
pub enum CommitFault {
    /// A commit before this one was answered `Device`. The journal has to be opened again.
    Broken {
        /// How many commits there are.
        version: u32,
    },
    /// The batch becomes no commit over the tables.
    Refused {
        /// How many commits there are.
        version: u32,
        /// Why. Never `NoMemory`.
        fault: BatchFault,
    },
    /// Memory ran out, before anything was written.
    NoMemory,
    /// The disk failed while the commit was written. The disk may hold the commit or not, and the
    /// history ends with its break.
    Device {
        /// How many commits there are, without this one.
        version: u32,
        /// The disk's count of faults, which rose.
        faults: u64,
    },
}
