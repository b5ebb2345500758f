//! A journal of its own in memory, for what needs no file. It keeps the empty journal, and is
//! refused only where memory runs out.
ghost use Rattle.std.specs.Prelude.{◌≡◌, IfOk};
ghost use Rattle.tl_journal.specs.Stands.{empty_journal};

use std::alloc::{AllocError, Global};
use tl_device::SureDisk;
use tl_journal::{InitRun, Journal};
use tl_types::NoMemory;

/// A disk in memory that is the empty journal. The error is `NoMemory`.
pub(crate) fn empty_disk(alloc: Global) -> Result<SureDisk, NoMemory>
    ensures { IfOk result (λ disk. disk.bytes ≡ empty_journal) }
{
    let InitRun { done, disk } = Journal::init(SureDisk::new(alloc, Vec::new(alloc)));
    match done {
        Ok(()) => Ok(disk),
        Err(_) => Err(AllocError),
    }
}
