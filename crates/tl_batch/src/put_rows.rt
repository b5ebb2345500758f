//! The rows that a batch puts, lent or handed over: a commit takes over what was handed over, and
//! copies what is lent.
ghost use Rattle.std.specs.Prelude.{◌≡◌, IfOk};
ghost use Rattle.tl_batch.specs.PutRows.{rows_put};

use std::alloc::Global;
use tl_types::{NoMemory, Opened};

/// The rows that a batch puts, which are lent or handed over.
#[derive(Drop)]
pub(crate) enum PutRows<'a> {
    /// Rows that stay with their owner.
    Lent(&'a [Opened]),
    /// Rows that the commit takes over.
    Owned(Vec<Opened>),
}

impl<'a> PutRows<'a> {
    /// The rows.
    pub(crate) fn as_slice(&self) -> &[Opened]
        ensures { result.now ≡ rows_put self.now }
    {
        match self {
            PutRows::Lent(rows) => rows,
            PutRows::Owned(rows) => rows.as_slice(),
        }
    }

    /// The rows as a list of their own: copies of lent ones, else the rows themselves. The error is
    /// `NoMemory`.
    pub(crate) fn into_vec(self, alloc: Global) -> Result<Vec<Opened>, NoMemory>
        ensures { IfOk result (λ rows. rows.items ≡ rows_put self.entry) }
    {
        match self {
            PutRows::Lent(rows) => {
                let copies = rows.to_vec(alloc)?;
                Ok(copies)
            }
            PutRows::Owned(rows) => Ok(rows),
        }
    }
}
