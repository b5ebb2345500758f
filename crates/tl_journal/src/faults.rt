//! Why a journal cannot be made, opened or appended to: each with what the disk said, or where the
//! bytes are no journal.
use thiserror::Error;

/// Why a journal cannot be made or opened.
#[derive(Debug, Drop, PartialEq, Eq, Error)]
pub enum JournalFault {
    /// The disk failed while the journal was made or opened.
    #[error("the disk failed; it has {faults} faults so far")]
    Device {
        /// The disk's count of faults, which rose.
        faults: u64,
    },
    /// The disk is too short for a journal.
    #[error("the disk has {len} bytes, and a journal has 17 at least")]
    NotInitialised {
        /// How many bytes the disk has, fewer than 17.
        len: u64,
    },
    /// The disk has more than an empty journal.
    #[error("the disk has {len} bytes, and a journal is made only where there are at most 17")]
    AlreadyInitialised {
        /// How many bytes the disk has, more than 17.
        len: u64,
    },
    /// The bytes are no journal.
    #[error("the journal is damaged at byte {at}")]
    Damaged {
        /// The offset of the first open gate that no record and further byte follow, or, where a
        /// history is opened, of the first gate whose commit does not fit those before it; 0 where
        /// the first 16 bytes are not a journal's.
        at: u64,
    },
    /// Memory ran out.
    #[error("out of memory")]
    NoMemory,
}

/// Why a commit was not appended.
#[derive(Debug, Drop, PartialEq, Eq, Error)]
pub enum AppendFault {
    /// The disk failed in this append. The disk may hold the commit or not.
    #[error("the disk failed; it has {faults} faults so far")]
    Device {
        /// The disk's count of faults, which rose in this append.
        faults: u64,
    },
    /// The disk failed in an earlier append. The journal has to be opened again.
    #[error("the journal is broken since the disk failed; it had {faults} faults then")]
    Broken {
        /// The count that the earlier append answered.
        faults: u64,
    },
}
