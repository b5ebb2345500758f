//! What a statement loads, before it is clear what becomes of it, and the reasons why it becomes
//! no commit, in the order in which they are tried. A batch keeps its lines as they came.
use crate::cells::Cell;
use crate::periods::Period;
use crate::rows::Opened;
use crate::schemas::Schema;
use crate::sequences::Seq;
use crate::texts::Text;

/// A line of a removal: a key, and the valid period to remove where the table has them.
#[derive(Debug, Drop, PartialEq, Eq)]
pub struct KeyLine {
    /// The cell that the key column has.
    pub key: Cell,
    /// The valid time that the line speaks of; there in a table with valid time alone.
    pub period: Option<Period>,
}

/// One loaded batch, which becomes one commit or one fault.
#[derive(Debug, Drop, PartialEq, Eq)]
pub enum Batch {
    /// A new table with this schema, which has no rows yet.
    Create(Schema),
    /// Rows that take the place of what the open rows of their keys say: of all of it, or, where
    /// the table has valid time, of the part within their valid periods.
    Put {
        /// The name of the table that it is for; `UnknownTable` where no table has it.
        table: Text,
        /// The rows, in order.
        lines: Seq<Opened>,
    },
    /// Keys whose open rows are closed: wholly, or, where the table has valid time, within these
    /// valid periods.
    Remove {
        /// The name of the table that it is for; `UnknownTable` where no table has it.
        table: Text,
        /// The keys, in order.
        lines: Seq<KeyLine>,
    },
    /// Rows that are to be all the open rows of a table. Each row in turn keeps the open row of
    /// least id that has its cells and, where the table has valid time, its period, and that no row
    /// before it keeps; so of two equal open rows one alone stays where the rows have them once.
    /// Each other open row is closed, and the rows that keep none are opened.
    Sync {
        /// The name of the table that it is for; `UnknownTable` where no table has it.
        table: Text,
        /// The rows, in order.
        lines: Seq<Opened>,
    },
    /// Which moment it is.
    Moment {
        /// The moment, in the user's unit.
        moment: i64,
    },
    /// The least version that may be asked of a table from then on.
    Forget {
        /// The name of the table that it is for; `UnknownTable` where no table has it.
        table: Text,
        /// The version before which nothing may be asked of the table from then on.
        floor: i64,
    },
}

/// Why a batch becomes no commit. `rec` is the record number of a line: its place in the batch plus
/// 2.
#[derive(Clone, Copy, Debug, PartialEq, Eq)]
pub enum BatchFault {
    /// No table has the name.
    UnknownTable,
    /// A table has the name already.
    TableExists,
    /// There are as many tables as the limits allow.
    TablesFull,
    /// The key stood in an earlier line of the batch, and the table has no valid time; or, in a
    /// `Sync` of a table with valid time, an earlier line has the key and a period that overlaps the
    /// line's.
    KeyTwice {
        /// The record number of the line: its place in the batch, from 0, plus 2.
        rec: u32,
    },
    /// A removal finds no open row of its key, or, where the table has valid time, none whose valid
    /// period overlaps the line's, after the lines before it.
    NoRow {
        /// The record number of the line: its place in the batch, from 0, plus 2.
        rec: u32,
    },
    /// The table would have more rows than the limits allow.
    RowsFull,
    /// There are as many commits as the limits allow.
    VersionsFull,
    /// Out of memory.
    NoMemory,
    /// The moment is not greater than that of the last statement of one.
    MomentFalls {
        /// The moment that was stated last, in the user's unit.
        now: i64,
    },
    /// The version is greater than the number of commits.
    FloorAhead {
        /// The number of commits.
        now: u32,
    },
    /// The version is not greater than the one that stands for the table.
    FloorFalls {
        /// The least version that may be asked of the table.
        floor: u32,
    },
}
