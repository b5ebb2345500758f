//! Commits, and the entries of a history. A change keeps that its closed ids ascend and that it
//! has fewer than 2^32 of them and of opened rows, and refuses to be made otherwise.
ghost use Rattle.std.specs.Prelude.{◌≡◌};
ghost use Rattle.tl_types.specs.Plain as plain;
ghost use Rattle.tl_types.specs.Facts.{IsChange};
ghost use Rattle.tl_types.specs.Entries.{is_break, has_break};

use crate::NoMemory;
use crate::rows::Opened;
use crate::schemas::Schema;
use crate::sequences::Seq;
use std::marker::Model;

/// A change of one table: the ids of the rows that it closes, strictly ascending, and the rows that
/// it opens. There are fewer than 2^32 of each.
#[derive(Debug, Drop, PartialEq, Eq)]
pub struct Change {
    table: u16,
    closes: Seq<u32>,
    opens: Seq<Opened>,
}

impl Model for Change {
    ghost use Rattle.tl_types.specs.Plain as plain;
    ghost use Rattle.tl_types.specs.Facts.{IsChange};

    ghost Value = { plain.Change };

    ghost view = { λ c. record { table = c.table; closes = c.closes; opens = c.opens } };

    ghost invariant = { λ c. IsChange (record {
      table = c.table;
      closes = c.closes;
      opens = c.opens;
    }) };

    ghost inverse = { λ c. record { table = c.table; closes = c.closes; opens = c.opens } };
}

impl Change {
    /// The change of the table with this number that closes these rows and opens these.
    pub fn new(table: u16, closes: Seq<u32>, opens: Seq<Opened>) -> Change
        requires { IsChange (record { table = table; closes = closes; opens = opens }) }
        ensures { result ≡ record { table = table; closes = closes; opens = opens } }
    {
        Change {
            table,
            closes,
            opens,
        }
    }

    /// The number of the table, from 0.
    pub fn table(&self) -> u16
        ensures { result ≡ self.now.table }
    {
        self.table
    }

    /// The ids of the rows that are closed.
    pub fn closes(&self) -> &[u32]
        ensures value { result.now ≡ self.now.closes }
        ensures kept { IsChange self.now }
    {
        self.closes.as_slice()
    }

    /// The rows that are opened, in order of their ids.
    pub fn opens(&self) -> &[Opened]
        ensures value { result.now ≡ self.now.opens }
        ensures kept { IsChange self.now }
    {
        self.opens.as_slice()
    }
}

impl Clone for Change {
    ghost is_clone = { λ v w. w ≡ v };

    fn clone(&self) -> Result<Self, NoMemory> {
        Ok(Change {
            table: self.table,
            closes: self.closes.clone()?,
            opens: self.opens.clone()?,
        })
    }
}

/// What a commit does.
#[derive(Debug, Drop, PartialEq, Eq)]
pub enum Body {
    /// It creates a table with this schema. Its number is how many tables there were before it.
    Create(Schema),
    /// It changes a table: it ends rows and opens rows, none or more of each.
    Change(Change),
    /// It states which moment it is. No table changes.
    Moment {
        /// The moment, in the user's unit, greater than that of each earlier statement.
        moment: i64,
    },
    /// It sets the least version that may be asked of a table. No row changes.
    Forget {
        /// The number of the table, from 0.
        table: u16,
        /// The least version that may be asked of it from then on.
        floor: u32,
    },
}

impl Clone for Body {
    ghost is_clone = { λ v w. w ≡ v };

    fn clone(&self) -> Result<Self, NoMemory> {
        match self {
            Body::Create(schema) => Ok(Body::Create(schema.clone()?)),
            Body::Change(change) => Ok(Body::Change(change.clone()?)),
            Body::Moment { moment } => Ok(Body::Moment { moment: *moment }),
            Body::Forget { table, floor } => Ok(Body::Forget {
                table: *table,
                floor: *floor,
            }),
        }
    }
}

/// One step of the history: who made it (the session's number), and what it does.
#[derive(Debug, Drop, PartialEq, Eq)]
pub struct Commit {
    /// The number of the session that made it.
    pub author: u32,
    /// What it does.
    pub body: Body,
}

impl Clone for Commit {
    ghost is_clone = { λ v w. w ≡ v };

    fn clone(&self) -> Result<Self, NoMemory> {
        Ok(Commit {
            author: self.author,
            body: self.body.clone()?,
        })
    }
}

/// An entry of the history.
#[derive(Debug, Drop, PartialEq, Eq)]
pub enum Entry {
    /// A commit. The i-th commit of a history, from 1 on, makes version i.
    Commit(Commit),
    /// A checkpoint of a table at a version.
    Mark {
        /// The number of the table, from 0.
        table: u16,
        /// The version of which the checkpoint is kept.
        version: u32,
    },
    /// The break that a device fault leaves, with the commit whose append failed.
    Break {
        /// The commit, which the journal may hold or not.
        commit: Commit,
    },
}

impl Clone for Entry {
    ghost is_clone = { λ v w. w ≡ v };

    fn clone(&self) -> Result<Self, NoMemory> {
        match self {
            Entry::Commit(commit) => Ok(Entry::Commit(commit.clone()?)),
            Entry::Mark { table, version } => Ok(Entry::Mark {
                table: *table,
                version: *version,
            }),
            Entry::Break { commit } => Ok(Entry::Break {
                commit: commit.clone()?,
            }),
        }
    }
}

impl Entry {
    /// Whether the entry is a break.
    pub fn is_break(&self) -> bool
        ensures { result ≡ is_break self.now }
    {
        matches!(self, Entry::Break { .. })
    }
}

/// Whether a break is among the entries of a history.
pub fn has_break(entries: &[Entry]) -> bool
    ensures { result ≡ has_break entries.now }
{
    entries.iter().any(|entry| entry.is_break())
}
