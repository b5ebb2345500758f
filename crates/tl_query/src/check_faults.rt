//! Why a query or a new table does not fit the tables, each with the byte offset in the statement
//! where it shows. Of several, the one of least offset is told.
ghost use Rattle.std.specs.Prelude.{◌≡◌};
ghost use Rattle.tl_query.specs.declared.check_faults.CheckFault.TheVariants.{NoMemory};

use std::alloc::{AllocError, AllocFailed};

/// Why a checked statement does not fit the tables. `at` is a byte offset in the statement's text.
#[derive(Clone, Copy, Debug, PartialEq, Eq)]
pub enum CheckFault {
    /// No table has the name.
    UnknownTable {
        /// The byte offset of the name.
        at: u32,
    },
    /// The table has no such column; for a new table, the key is no column.
    UnknownColumn {
        /// The byte offset of the name.
        at: u32,
    },
    /// A comparison, a constant or a column is not of the kind that is wanted there.
    WrongType {
        /// The byte offset of the comparison, the constant or the column's name.
        at: u32,
    },
    /// The table has no valid time.
    NotValidTable {
        /// The byte offset of the word that asks for it.
        at: u32,
    },
    /// The version is after the last commit.
    VersionAhead {
        /// The byte offset of the version.
        at: u32,
        /// The version that is asked for.
        asked: u64,
        /// The number of commits.
        now: u32,
    },
    /// A range is empty.
    EmptyRange {
        /// The byte offset of its first bound.
        at: u32,
    },
    /// Two columns of a new table have one name.
    ColumnTwice {
        /// The byte offset of the second.
        at: u32,
    },
    /// Out of memory.
    NoMemory,
    /// The version is before the least one that may be asked of the query's tables.
    Forgotten {
        /// The byte offset of the number that is asked for.
        at: u32,
        /// The least version that may be asked.
        floor: u32,
    },
}

impl From<AllocError> for CheckFault {
    ghost from_gives = { λ _ e. e ≡ NoMemory };

    fn from(_error: AllocError) -> CheckFault {
        CheckFault::NoMemory
    }
}

impl<T: Drop> From<AllocFailed<T>> for CheckFault {
    ghost from_gives = { λ _ e. e ≡ NoMemory };

    fn from(_error: AllocFailed<T>) -> CheckFault {
        CheckFault::NoMemory
    }
}
