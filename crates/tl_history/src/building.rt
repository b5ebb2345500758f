//! The checkpoint of a table at the version of a snapshot, built without any lock. It is the one
//! that tl_types defines there; the only refusal is for memory.
ghost use Rattle.std.specs.Prelude.{◌≡◌, ◌<◌, length, IfOk};
ghost use Rattle.tl_types.specs.Checkpoints.{checkpoint_at};
ghost use Rattle.tl_types.specs.Entries.{commits_of};
ghost use Rattle.tl_types.specs.History.{database_of};

use std::alloc::Global;
use std::marker::Brand;
use std::sync::ledger::{Blank, Ledger};
use tl_ckpt::Checkpoint;
use tl_index::Snapshot;
use tl_types::{NoMemory, Steps};

/// The checkpoint of a table, by its number, at the version of a snapshot. It takes no lock, and
/// nobody counts its steps. The error is `NoMemory`.
pub fn build_checkpoint(
    alloc: Global,
    snapshot: &Snapshot,
    table: u16,
) -> Result<Checkpoint, NoMemory>
    requires { table < length (database_of (commits_of snapshot.now)).tables }
    ensures { IfOk result (λ c. c ≡ checkpoint_at (database_of (commits_of snapshot.now)) table
        (length (commits_of snapshot.now))) }
{
    build_by::<Brand>(alloc, snapshot, table, Blank::new(1))
}

// The same, with steps of this ledger.
fn build_by<L: Ledger>(
    alloc: Global,
    snapshot: &Snapshot,
    table: u16,
    blank: Blank,
) -> Result<Checkpoint, NoMemory>
    requires table { table < length (database_of (commits_of snapshot.now)).tables }
    requires name { blank.name ≡ L.name }
    requires parts { blank.parts ≡ L.parts }
    requires some { 0 < blank.parts }
    ensures { IfOk result (λ c. c ≡ checkpoint_at (database_of (commits_of snapshot.now)) table
        (length (commits_of snapshot.now))) }
{
    let mut steps: Steps<L> = Steps::new(blank);
    snapshot.build(alloc, table, &mut steps)
}
