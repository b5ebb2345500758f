//! A follower that takes the packets of an input, and where each packet that it holds begins: the
//! packet at which it is stuck is named by its place. It keeps a version and an offset a packet.
ghost use Rattle.std.specs.Prelude.{◌≡◌, ◌++◌, List, [], map, false, IfOk, IfErr, OnOk};
ghost use Rattle.tl_types.specs.declared.commits.Entry.{Entry};
ghost use Rattle.tl_types.specs.declared.limits.Limits.{Limits as LimitsValue};
ghost use Rattle.tl_types.specs.Entries.{commits_of, has_break};
ghost use Rattle.tl_types.specs.Limits.{standard_limits};
ghost use Rattle.tl_batch.specs.Made.{AreWithin};
ghost use Rattle.tl_index.specs.Snapshots.{commit_entry};
ghost use Rattle.tl_follow.specs.declared.packets.Packet.{Packet as PacketValue};
ghost use Rattle.tl_follow.specs.Calls.{FollowsAll};
ghost use Rattle.tl_follow.specs.Places.{HasPlace, HasTaken, IsStuckAt, TakesAt, place_fault, place_in};

use crate::faults::{FollowFault, PacketFault};
use crate::follower::Follower;
use crate::in_place::Followed;
use crate::packets::{Packet, Taken};
use std::alloc::Global;
use tl_index::Snapshot;
use tl_types::{Limits, NoMemory, Seq};

/// Where in an input the packet of a version begins.
#[derive(Clone, Copy)]
pub(crate) struct Place {
    /// The version, from 1.
    pub(crate) version: u32,
    /// The byte offset of the packet in the input, from 0.
    pub(crate) at: usize,
}

// The offset of the first place of a version. `None` where there is none.
fn place_in(version: u32, places: &[Place]) -> Option<usize>
    ensures { result ≡ place_in version places.now }
{
    for place in places {
        if place.version == version {
            return Some(place.at);
        }
    }
    None
}

// A fault of a follower as one of the input whose packets it took.
fn place_fault(places: &[Place], fault: FollowFault) -> PacketFault
    requires { HasPlace places.now fault }
    ensures { result ≡ place_fault places.now fault }
{
    match fault {
        FollowFault::Unfit { version } => match place_in(version, places) {
            Some(at) => PacketFault::BadPacket { at },
            None => unreachable!(),
        },
        FollowFault::NoMemory => PacketFault::NoMemory,
    }
}

/// A follower, and where the packets that it holds begin, in the order in which it took them.
#[derive(Drop)]
pub(crate) struct InputFollower {
    follower: Follower,
    places: Seq<Place>,
}

impl InputFollower {
    /// The follower that begins with the history of a snapshot, which has no break, and took no
    /// packet yet. Commits fit by these limits, which are within the standard ones.
    pub(crate) fn start(alloc: Global, snapshot: Snapshot, limits: &Limits) -> InputFollower
        requires whole { has_break snapshot ≡ false }
        requires within { AreWithin limits.now standard_limits }
        ensures { HasTaken limits.now snapshot [] result }
    {
        InputFollower {
            follower: Follower::start(alloc, snapshot, limits),
            places: Seq::new(alloc),
        }
    }

    /// Takes the packet that begins at a byte offset, behind those that it took. The error is
    /// `NoMemory`.
    pub(crate) fn take(&mut self, packet: Packet, at: usize) -> Result<(), NoMemory>
        ensures { OnOk result (TakesAt packet at self.old self.new) }
    {
        let version = packet.version;
        match self.follower.take(packet)? {
            Taken::Known => Ok(()),
            Taken::Held => {
                self.places.push(Place { version, at })?;
                Ok(())
            }
        }
    }

    /// Goes on as far as the packets lead. The error is `BadPacket` with the offset of the first
    /// packet of the version that comes next, where its commit does not fit, and `NoMemory`.
    pub(crate) fn follow(self) -> Result<Followed, PacketFault>
        requires { (limits : LimitsValue) × (start : List Entry) × (packets : List PacketValue)
            × HasTaken limits start packets self }
        ensures ok { (limits : LimitsValue) (start : List Entry) (packets : List PacketValue)
            → HasTaken limits start packets self → IfOk result
            (λ f. FollowsAll limits (commits_of start) packets f.commits) }
        ensures next { (limits : LimitsValue) (start : List Entry) (packets : List PacketValue)
            → HasTaken limits start packets self → IfOk result
            (λ f. f.snapshot ≡ start ++ map commit_entry f.commits) }
        ensures stuck { (limits : LimitsValue) (start : List Entry) (packets : List PacketValue)
            → HasTaken limits start packets self → IfErr result
            (IsStuckAt limits (commits_of start) packets) }
    {
        let InputFollower { follower, places } = self;
        match follower.follow_held() {
            Ok(followed) => Ok(followed),
            Err(fault) => Err(place_fault(places.as_slice(), fault)),
        }
    }
}
