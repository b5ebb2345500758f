//! What applies the commits of a journal while it is opened: a value that each commit that fits
//! takes further.
ghost use Rattle.std.specs.Prelude.{◌≡◌, List, IfOk};
ghost use Rattle.tl_types.specs.declared.commits.Commit.{Commit as CommitValue};
ghost use Rattle.tl_types.specs.declared.limits.Limits.{Limits as LimitsValue};
ghost use Rattle.tl_record.specs.Spelling.{spelling};
ghost use Rattle.tl_replay.specs.Applying.{IsAppliedTo};

use std::alloc::Global;
use tl_types::{Commit, Limits, NoMemory};

/// What commits are applied to, one after the other.
pub trait Applies: Drop {
    // The limits with which it can apply commits.
    ghost can_apply: { LimitsValue → Type 0 };

    // What the first value is once these commits are applied to it.
    ghost makes: { Self → List CommitValue → Self → Type 0 };

    /// Applies a commit if it fits, with the limits, those applied before it, and answers the value
    /// with it and true; where it does not fit, the value as it was and false. `spelled` is the
    /// commit's record. The error is `NoMemory`.
    fn apply(
        self,
        alloc: Global,
        commit: &Commit,
        spelled: &[u8],
        limits: &Limits,
    ) -> Result<(Self, bool), NoMemory>
        requires limits { can_apply limits.now }
        requires spelled { spelled.now ≡ spelling commit.now }
        requires made { (first : Self) × (commits : List CommitValue) × makes first commits self }
        ensures { (first : Self) (commits : List CommitValue) → makes first commits self →
            IfOk result (λ r. IsAppliedTo makes limits.now first commits commit.now r.0 r.1) };
}
