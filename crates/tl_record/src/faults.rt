//! Why bytes are no record: they are cut off, or no commit is spelled so. Beside these stands that
//! memory ran out.
ghost use Rattle.std.specs.Prelude.{◌≡◌};
ghost use Rattle.tl_record.specs.declared.faults.ReadError.TheVariants.{Memory};

use std::alloc::AllocFailed;
use tl_types::NoMemory;

/// Why no record was read.
#[derive(Clone, Copy, Debug, PartialEq, Eq)]
pub enum RecordFault {
    /// The bytes begin a record, and end before it does.
    Short {
        /// The byte offset at which the record begins.
        at: usize,
    },
    /// The bytes begin with no record, and begin none.
    Bad {
        /// The byte offset at which a record was to begin.
        at: usize,
    },
    /// Out of memory.
    NoMemory,
}

/// What is wrong with the bytes of a record.
#[derive(Clone, Copy, Debug, PartialEq, Eq)]
pub enum Fault {
    /// They end before the record does.
    Short,
    /// Whatever follows them, they are no record.
    Bad,
}

/// Why a part of a record was not read.
#[derive(Clone, Copy, Debug, PartialEq, Eq)]
pub enum ReadError {
    /// Out of memory.
    Memory,
    /// What is wrong with the bytes.
    Fault(Fault),
}

/// An error as it is. The call is cold, which tells LLVM that what leads to it is rare: else it
/// takes the way on which readers stand in each other for the rare one, and does not inline there.
#[cold]
#[inline(never)]
pub fn rare_error(error: ReadError) -> ReadError
    ensures { result ≡ error }
{
    error
}

impl From<NoMemory> for ReadError {
    ghost from_gives = { λ _ e. e ≡ Memory };

    fn from(_error: NoMemory) -> ReadError {
        ReadError::Memory
    }
}

impl<T: Drop> From<AllocFailed<T>> for ReadError {
    ghost from_gives = { λ _ e. e ≡ Memory };

    fn from(_error: AllocFailed<T>) -> ReadError {
        ReadError::Memory
    }
}
