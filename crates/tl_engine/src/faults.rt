//! What becomes of the mark of a table that is tended, and why none is published. The variants of a
//! fault stand in the order in which they are tried.

/// What became of the mark of a table. `version` is the number of the commits that were read, which
/// is the version of the mark, and `read` that of the entries.
#[derive(Clone, Copy, Debug, PartialEq, Eq)]
pub enum Tended {
    /// No mark is due in what was read.
    NotDue,
    /// The mark is published.
    Built {
        /// The version of the mark.
        version: u32,
        /// How many entries were read.
        read: u32,
    },
    /// The mark is there already: another call published it in between.
    Had {
        /// The version of the mark.
        version: u32,
        /// How many entries were read.
        read: u32,
    },
}

/// Why no mark is published though one is due. The first one that applies is answered, and `Broken`
/// before `Tended::Had`.
#[derive(Clone, Copy, Debug, PartialEq, Eq)]
pub enum TendFault {
    /// There is a break.
    Broken {
        /// How many commits were read.
        version: u32,
        /// How many entries were read.
        read: u32,
    },
    /// Memory ran out, and nothing was published.
    NoMemory,
}
