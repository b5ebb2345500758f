//! Why a follower does not go on, and why no packet is read. Beside these stands that memory ran
//! out.
ghost use Rattle.std.specs.Prelude.{◌≡◌};
ghost use Rattle.tl_follow.specs.declared.faults.FollowFault.TheVariants as follow_fault;
ghost use Rattle.tl_follow.specs.declared.faults.PacketFault.TheVariants as packet_fault;

use tl_types::NoMemory;

/// Why a follower did not go on.
#[derive(Clone, Copy, Debug, PartialEq, Eq)]
pub enum FollowFault {
    /// The commit of the packet that is held of this version does not fit the commits before it.
    Unfit {
        /// The version, from 1.
        version: u32,
    },
    /// Out of memory.
    NoMemory,
}

impl From<NoMemory> for FollowFault {
    ghost from_gives = { λ _ e. e ≡ follow_fault.NoMemory };

    fn from(_error: NoMemory) -> FollowFault {
        FollowFault::NoMemory
    }
}

/// Why no packet was read, or why what was read makes no history.
#[derive(Clone, Copy, Debug, PartialEq, Eq)]
pub enum PacketFault {
    /// At this offset no packet begins; or, of a whole input, its commit does not fit.
    BadPacket {
        /// The byte offset in the bytes that are read, or in the whole input, from 0.
        at: usize,
    },
    /// Out of memory.
    NoMemory,
}

impl From<NoMemory> for PacketFault {
    ghost from_gives = { λ _ e. e ≡ packet_fault.NoMemory };

    fn from(_error: NoMemory) -> PacketFault {
        PacketFault::NoMemory
    }
}
