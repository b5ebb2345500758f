//! A follower of a history: it takes packets of commits, in any order and any number of times, and
//! its commits are what those packets make of the commits that it began with. Where the packets are
//! of a leader's commits, these are the first ones of the leader's, and so are the answers.
//!
//! A packet is a commit with its version. As bytes it is the version (4 bytes, big-endian, from 1
//! to 16,777,215) and the commit's record. An input is packets, one behind the other, to its end;
//! a shipment is an input of the commits with versions from one to another.
//!
//! A packet's commit counts only where it fits the commits before it; of several packets of one
//! version the first one counts. What refuses is named: no packet begins at an offset, or the
//! commit of a version does not fit.
#![tactic(auto)]

mod faults;
mod follower;
mod in_place;
mod inputs;
pub mod laws;
mod packets;
mod places;
mod reading;
mod shipping;

pub use faults::{FollowFault, PacketFault};
pub use follower::Follower;
pub use in_place::Followed;
pub use inputs::{INPUT_LIMIT, PacketReader};
pub use packets::{Packet, Taken};
pub use reading::{ReadPacket, read_packet};
pub use shipping::{packet_bytes, put_packet};
