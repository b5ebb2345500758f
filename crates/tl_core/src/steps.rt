//! The steps of a world: reads, commits, breaks, and checkpoints that begin and end.
ghost use Rattle.std.specs.Prelude.{◌≡◌};

use tl_types::{Commit, NoMemory};

/// A step of a world.
#[derive(Debug, Drop, PartialEq, Eq)]
pub enum Step {
    /// A pass sees all entries.
    Read {
        /// The number of the pass, from 0.
        pass: u32,
    },
    /// A commit is appended.
    Publish {
        /// The commit, which has to fit those before it.
        commit: Commit,
    },
    /// A pass sees all entries, and begins the checkpoint of a table on them. A build that it had
    /// is dropped.
    Begin {
        /// The number of the pass, from 0.
        pass: u32,
        /// The number of the table, from 0.
        table: u16,
    },
    /// The build of a pass ends, and a mark of its table at the version of its base is appended.
    Mark {
        /// The number of the pass, from 0.
        pass: u32,
    },
    /// The break with a commit whose append failed is appended.
    Break {
        /// The commit, which has to fit those before it; the journal may hold it or not.
        commit: Commit,
    },
}

impl Clone for Step {
    ghost is_clone = { λ v w. w ≡ v };

    fn clone(&self) -> Result<Self, NoMemory> {
        match self {
            Step::Read { pass } => Ok(Step::Read { pass: *pass }),
            Step::Publish { commit } => Ok(Step::Publish {
                commit: commit.clone()?,
            }),
            Step::Begin { pass, table } => Ok(Step::Begin {
                pass: *pass,
                table: *table,
            }),
            Step::Mark { pass } => Ok(Step::Mark { pass: *pass }),
            Step::Break { commit } => Ok(Step::Break {
                commit: commit.clone()?,
            }),
        }
    }
}
