//! The follower: it keeps a snapshot of its history, and of each version past its commits the first
//! packet that it took. It refuses a commit that does not fit by its limits, and each call that
//! fails leaves it as it was.
ghost use Rattle.std.specs.Prelude.{◌≡◌, ◌≢◌, ◌++◌, ◌∷◌, [], List, Some, None, Ok, Err, map, false, IfOk, OnOk, OnErr, IsTrue};
ghost use Rattle.std.specs.Map.{remove_entry};
ghost use Rattle.std.specs.BTreeMap.{is_at};
ghost use Rattle.std.specs.Ordering.{nat_cmp};
ghost use Rattle.tl_types.specs.declared.commits.Entry.{Entry};
ghost use Rattle.tl_types.specs.Entries.{has_break};
ghost use Rattle.tl_types.specs.History.{database_of};
ghost use Rattle.tl_types.specs.Legality.{FitFrom};
ghost use Rattle.tl_types.specs.Limits.{standard_limits};
ghost use Rattle.tl_batch.specs.Made.{AreWithin};
ghost use Rattle.tl_index.specs.Snapshots.{commit_entry};
ghost use Rattle.tl_follow.specs.declared.packets.Packet.{Packet};
ghost use Rattle.tl_follow.specs.declared.faults.FollowFault.TheVariants as fault;
ghost use Rattle.tl_follow.specs.Following.{IsFollowing, commits_in, held_at, next_held};
ghost use Rattle.tl_follow.specs.Calls.{is_new, taken_as, after_take, follower_of, IsUnfit, IsAdvanced, unfit_next, after_advance, IsEnd, IsDone};

use crate::faults::FollowFault;
use crate::packets::{Packet, Taken};
use std::alloc::Global;
use std::collections::BTreeMap;
use std::marker::Model;
use tl_index::Snapshot;
use tl_types::{Commit, Limits, NoMemory, Seq};

/// A history that is made longer by packets, and the packets held for later: of each version past
/// its commits the first one that was taken. It has no break.
#[derive(Drop)]
pub struct Follower {
    pub(crate) snapshot: Snapshot,
    pub(crate) limits: Limits,
    pub(crate) held: BTreeMap<u32, Commit>,
    pub(crate) alloc: Global,
}

impl Model for Follower {
    ghost use Rattle.tl_follow.specs.Following.{Following};
    ghost use Rattle.tl_follow.specs.Calls.{IsKept};

    ghost Value = { Following };

    ghost view = { λ f. record {
      limits = f.limits;
      entries = f.snapshot;
      held = f.held.entries;
    } };

    ghost invariant = { λ f. IsKept f.limits f.snapshot };
}

impl Follower {
    /// The follower that begins with the history of a snapshot, which has no break, and holds no
    /// packet. The commits that it goes on by fit by these limits, which are within the standard
    /// ones. `alloc` is the memory that it takes.
    pub fn start(alloc: Global, snapshot: Snapshot, limits: &Limits) -> Follower
        requires whole { has_break snapshot ≡ false }
        requires within { AreWithin limits.now standard_limits }
        ensures value { result ≡ follower_of limits.now snapshot }
        ensures follows { IsFollowing snapshot [] result }
    {
        Follower {
            snapshot,
            limits: *limits,
            held: BTreeMap::new(alloc),
            alloc,
        }
    }

    // Whether the packet's version is not reached, and no packet of it is held.
    fn is_new(&self, packet: &Packet) -> bool
        ensures { result ≡ is_new self.now packet.now }
    {
        let reached = self.snapshot.store().versions();
        packet.version > reached && !self.held.contains_key(&packet.version)
    }

    /// Takes a packet. It is held where its version is not reached and no packet of that version is
    /// held; else it is known, and nothing changes. The error is `NoMemory`: the packet is given
    /// up, and nothing changes.
    pub fn take(&mut self, packet: Packet) -> Result<Taken, NoMemory>
        ensures taken { IfOk result (λ t. t ≡ taken_as self.old packet) }
        ensures held { OnOk result (self.new ≡ after_take self.old packet) }
        ensures err { OnErr result (self.new ≡ self.old) }
        ensures entries { self.new.entries ≡ self.old.entries }
        ensures limits { self.new.limits ≡ self.old.limits }
        // Whatever it began with and took, it goes on following with this packet behind them.
        ensures follows { OnOk result ((start : List Entry) (packets : List Packet)
            → IsFollowing start packets self.old
            → IsFollowing start (packets ++ packet ∷ []) self.new) }
    {
        self.put(packet)
    }

    // Takes a packet, as `take` does.
    fn put(&mut self, packet: Packet) -> Result<Taken, NoMemory>
        ensures taken { IfOk result (λ t. t ≡ taken_as self.old packet) }
        ensures held { OnOk result (self.new ≡ after_take self.old packet) }
        ensures err { OnErr result (self.new ≡ self.old) }
    {
        if !self.is_new(&packet) {
            return Ok(Taken::Known);
        }
        self.hold(packet)?;
        Ok(Taken::Held)
    }

    // Holds a packet that is new.
    fn hold(&mut self, packet: Packet) -> Result<(), NoMemory>
        requires { IsTrue (is_new self.old packet) }
        ensures held { OnOk result (self.new ≡ after_take self.old packet) }
        ensures err { OnErr result (self.new ≡ self.old) }
    {
        self.held.insert(packet.version, packet.commit)?;
        Ok(())
    }

    /// Goes on by one commit: that of the packet that is held of the next version. `None` comes
    /// exactly where no packet of that version is held. The error is `Unfit`, with that version,
    /// exactly where the commit does not fit, and `NoMemory`; after it all is as before.
    pub fn advance(&mut self) -> Result<Option<Commit>, FollowFault>
        ensures step { IsAdvanced self.old result self.new }
        ensures none { next_held self.old ≡ None → result ≡ Ok None }
        ensures unfit { IsUnfit self.old → result ≡ Err (unfit_next self.old) }
        ensures moved { result ≢ Err fault.NoMemory → self.new ≡ after_advance self.old }
        // Whatever it began with and took, it goes on following them; and where it can go no
        // further, its commits are all that the packets make.
        ensures follows { (start : List Entry) (packets : List Packet)
            → IsFollowing start packets self.old → IsFollowing start packets self.new }
        ensures end { (start : List Entry) (packets : List Packet)
            → IsFollowing start packets self.old → IsEnd start packets self.old result }
    {
        self.step()
    }

    // Goes on by one commit, as `advance` does.
    fn step(&mut self) -> Result<Option<Commit>, FollowFault>
        ensures step { IsAdvanced self.old result self.new }
        ensures none { next_held self.old ≡ None → result ≡ Ok None }
        ensures unfit { IsUnfit self.old → result ≡ Err (unfit_next self.old) }
    {
        let version = self.snapshot.store().versions() + 1;
        let Some(commit) = self.held.get(&version) else {
            return Ok(None);
        };
        if !self.snapshot.store().fits(commit, &self.limits) {
            return Err(FollowFault::Unfit { version });
        }
        let next = self.snapshot.apply(self.alloc, commit)?;
        Ok(self.go_on(version, next))
    }

    // Puts the snapshot with the next commit in the old one's place, and hands out that commit.
    fn go_on(&mut self, version: u32, next: Snapshot) -> Option<Commit>
        requires { has_break next ≡ false }
        ensures value { result ≡ held_at version self.old }
        ensures state { self.new ≡ record self.old {
          entries = next;
          held = remove_entry (is_at (nat_cmp version)) self.old.held;
        } }
    {
        let commit = self.held.remove(&version);
        self.snapshot = next;
        commit
    }

    /// Goes on as far as the packets that are held lead, and hands out the commits in order. The
    /// error is that of `advance`; by the commits before it, which are not handed out, it has gone
    /// on.
    pub fn advance_all(&mut self) -> Result<Seq<Commit>, FollowFault>
        ensures entries { IfOk result
            (λ cs. self.new.entries ≡ self.old.entries ++ map commit_entry cs) }
        ensures commits { IfOk result (λ cs. commits_in self.new ≡ commits_in self.old ++ cs) }
        ensures fit { IfOk result
            (λ cs. FitFrom self.old.limits (database_of (commits_in self.old)) cs) }
        ensures limits { self.new.limits ≡ self.old.limits }
        ensures follows { (start : List Entry) (packets : List Packet)
            → IsFollowing start packets self.old → IsFollowing start packets self.new }
        ensures end { (start : List Entry) (packets : List Packet)
            → IsFollowing start packets self.old → IsDone start packets self.new result }
    {
        let mut out = Seq::new(self.alloc);
        'going: while let Some(commit) = self.advance()? {
            out.push(commit)?;
        }
        Ok(out)
    }

    /// The snapshot of the history so far.
    pub fn snapshot(&self) -> &Snapshot
        ensures value { result.now ≡ self.now.entries }
        ensures whole { has_break self.now.entries ≡ false }
    {
        &self.snapshot
    }
}
