//! What is kept of a commit beside the rows of its table and the stamps: its author, its table,
//! and which of the closed and opened rows are its own.
use std::alloc::Global;
use tl_shared::Shareable;
use tl_types::NoMemory;

/// What a commit did, but for the cells of the rows, which their table keeps.
#[derive(Clone, Copy)]
pub(crate) enum Deed {
    /// It made the table.
    Create,
    /// It closed and opened rows of its table.
    Change {
        /// Where its closes begin among the table's closed ids.
        first_close: u64,
        /// How many rows it closed.
        closes: u32,
        /// The id of the first row that it opened.
        first_open: u32,
        /// How many rows it opened.
        opens: u32,
    },
    /// It stated a moment. It has no table.
    Moment {
        /// The moment, in the user's unit.
        moment: i64,
    },
    /// It set the floor of its table.
    Forget {
        /// The floor, a version: the least one that may be asked of the table from then on.
        floor: u32,
    },
}

/// One commit: who made it (the session's number), the number of its table (0 where it has none),
/// and what it did.
#[derive(Clone, Copy)]
pub(crate) struct LogEntry {
    pub author: u32,
    pub table: u16,
    pub deed: Deed,
}

impl Shareable for LogEntry {
    fn share(&self, _alloc: Global) -> Result<LogEntry, NoMemory> {
        Ok(*self)
    }

    fn share_onto(
        _alloc: Global,
        items: &[LogEntry],
        values: &mut Vec<LogEntry>,
    ) -> Result<(), NoMemory> {
        values.extend_from_slice(items)?;
        Ok(())
    }
}
