//! A follower that is taken over goes on in place: what of its snapshot nobody else has is not
//! copied. Where it fails it is given up.
ghost use Rattle.std.specs.Prelude.{◌≡◌, ◌+◌, ◌++◌, List, Some, Ok, Err, length, map, IfOk, IfErr, IfSome, IsTrue, IsSome};
ghost use Rattle.tl_types.specs.declared.commits.Entry.{Entry};
ghost use Rattle.tl_types.specs.Entries.{commits_of};
ghost use Rattle.tl_types.specs.History.{database_of, fits};
ghost use Rattle.tl_types.specs.Legality.{FitFrom};
ghost use Rattle.tl_index.specs.Snapshots.{commit_entry};
ghost use Rattle.tl_follow.specs.declared.packets.Packet.{Packet};
ghost use Rattle.tl_follow.specs.Following.{IsFollowing, IsWhole, commits_in, next_held};
ghost use Rattle.tl_follow.specs.Calls.{IsAdvanced, IsEndOfAll, IsUnfit, unfit_next, with_commit};

use crate::faults::FollowFault;
use crate::follower::Follower;
use tl_index::Snapshot;
use tl_types::{Commit, NoMemory, Seq};

/// The commits by which a follower went on, and the snapshot with them.
#[derive(Drop)]
pub struct Followed {
    /// The commits, in order.
    pub commits: Seq<Commit>,
    /// The snapshot of the history with them.
    pub snapshot: Snapshot,
}

impl Follower {
    // The follower with the commit that is held of the next version and fits, and that commit. The
    // error is `NoMemory`.
    fn with_next(self, version: u32) -> Result<(Follower, Commit), NoMemory>
        requires next { version ≡ length (commits_in self) + 1 }
        requires held { IsSome (next_held self) }
        requires fit { IfSome (next_held self)
            (λ c. IsTrue (fits self.limits (database_of (commits_in self)) c)) }
        ensures { IfOk result (λ r. (next_held self ≡ Some r.1) × (r.0 ≡ with_commit self r.1)) }
    {
        let Follower {
            snapshot,
            limits,
            mut held,
            alloc,
        } = self;
        let Some(commit) = held.remove(&version) else {
            unreachable!()
        };
        let snapshot = snapshot.follow(alloc, &commit)?;
        let follower = Follower {
            snapshot,
            limits,
            held,
            alloc,
        };
        Ok((follower, commit))
    }

    // Goes on by one commit, as `advance` does.
    fn step_over(self) -> Result<(Follower, Option<Commit>), FollowFault>
        ensures ok { IfOk result (λ r. IsAdvanced self (Ok r.1) r.0) }
        ensures err { IfErr result (λ e. IsAdvanced self (Err e) self) }
        ensures unfit { IsUnfit self → result ≡ Err (unfit_next self) }
    {
        let version = self.snapshot.store().versions() + 1;
        let Some(commit) = self.held.get(&version) else {
            return Ok((self, None));
        };
        if !self.snapshot.store().fits(commit, &self.limits) {
            return Err(FollowFault::Unfit { version });
        }
        let (follower, commit) = self.with_next(version)?;
        Ok((follower, Some(commit)))
    }

    /// Goes on as far as the packets that are held lead, and hands out the commits in order, with
    /// the last snapshot. The error is that of `advance`.
    pub(crate) fn follow_held(self) -> Result<Followed, FollowFault>
        ensures entries { IfOk result
            (λ f. f.snapshot ≡ self.entries ++ map commit_entry f.commits) }
        ensures fit { IfOk result
            (λ f. FitFrom self.limits (database_of (commits_in self)) f.commits) }
        ensures whole { (start : List Entry) (packets : List Packet)
            → IsFollowing start packets self → IfOk result
            (λ f. IsWhole self.limits (commits_of start) packets (commits_of f.snapshot)) }
        ensures halted { (start : List Entry) (packets : List Packet)
            → IsFollowing start packets self → IfErr result
            (IsEndOfAll self.limits (commits_of start) packets) }
    {
        let mut commits = Seq::new(self.alloc);
        let mut follower = self;
        'going: loop {
            let (next, commit) = follower.step_over()?;
            follower = next;
            let Some(commit) = commit else {
                break;
            };
            commits.push(commit)?;
        }
        let Follower { snapshot, .. } = follower;
        Ok(Followed { commits, snapshot })
    }
}
