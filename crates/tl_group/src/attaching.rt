//! A group made of a history that was opened without marks: its journal, its snapshot and its keys,
//! with no commit waiting.
ghost use Rattle.std.specs.Prelude.{◌≡◌, []};
ghost use Rattle.tl_types.specs.Entries.{commits_of};
ghost use Rattle.tl_types.specs.Limits.{standard_limits};
ghost use Rattle.tl_batch.specs.Made.{AreWithin};
ghost use Rattle.tl_history.specs.Answers.{IsOpened};
ghost use Rattle.tl_group.specs.Keeping.{journal_commits, waiting_commits, AreCommitsAlone};

use crate::groups::Group;
use std::alloc::Global;
use tl_device::Disk;
use tl_history::{History, Parts};
use tl_types::Limits;

/// The group of a history as it was opened without marks, with these limits.
pub(crate) fn group_of<D: Disk>(alloc: Global, history: History<D>, limits: Limits) -> Group<D>
    requires opened { IsOpened 0 history }
    requires within { AreWithin limits standard_limits }
    ensures journal { result.journal ≡ history.journal }
    ensures entries { result.entries ≡ history.entries }
    ensures limits { result.limits ≡ limits }
    ensures commits { journal_commits result ≡ commits_of history.entries }
    ensures none_waits { waiting_commits result ≡ [] }
    ensures alone { AreCommitsAlone result.entries }
{
    let Parts {
        journal,
        snapshot,
        keys,
    } = history.into_parts();
    Group::over(alloc, journal, snapshot, keys, limits)
}
