//! Packets from bytes: one packet from an offset on, and where it ends. A packet is its version (4
//! bytes, big-endian, from 1 to 16,777,215) and then the record of its commit; what is neither is
//! refused with its offset. Bytes that are cut within a packet are told from those that no packet
//! begins with, whatever follows.
ghost use Rattle.std.specs.Prelude.{◌≡◌, ◌≢◌, ℕ, ◌+◌, ◌<◌, ◌≤◌, List, ◌++◌, length, drop, IfOk, IfErr, IfSome, IfNone};
ghost use Rattle.tl_record.specs.Spelling.{number};
ghost use Rattle.tl_follow.specs.declared.packets.Packet.{Packet as PacketValue};
ghost use Rattle.tl_follow.specs.Packets.{IsVersion, packet_spelling, BeginsWithPacket, FindsPacket, IsBadAt, IsFront, front_read, packet_read};

use crate::faults::PacketFault;
use crate::packets::Packet;
use std::alloc::{AllocError, Global};
use tl_record::{Decoded, RecordFault, decode};
use tl_types::NoMemory;

/// A packet that was read, and where it ends.
#[derive(Debug, Drop)]
pub struct ReadPacket {
    /// The packet that is spelled there. Whether its commit fits is not asked.
    pub packet: Packet,
    /// The byte offset behind it in the bytes that are read, from 0.
    pub end: usize,
}

// The number that four bytes or more begin with.
#[tactic(auto, using(crate::proofs::Numbers::begins_with_number))]
fn first_number(bytes: &[u8]) -> u32
    requires { 4 ≤ length bytes.now }
    ensures { bytes.now ≡ number result ++ drop 4 bytes.now }
{
    let (front, _) = bytes.split_at(4);
    u32::from_be_bytes([front[0], front[1], front[2], front[3]])
}

// The version that bytes begin with, if they begin with one.
fn version_of(bytes: &[u8]) -> Option<u32>
    ensures range { IfSome result (λ v. IsVersion v) }
    ensures front { IfSome result (λ v. bytes.now ≡ number v ++ drop 4 bytes.now) }
    ensures none { IfNone result ((v : ℕ) (rest : List ℕ) → IsVersion v
        → bytes.now ≢ number v ++ rest) }
{
    if bytes.len() < 4 {
        return None;
    }
    let version = first_number(bytes);
    if version < 1 || version > 16_777_215 {
        return None;
    }
    Some(version)
}

/// What stands at an offset of bytes.
#[derive(Drop)]
pub(crate) enum Front {
    /// A packet, and where it ends.
    Whole(ReadPacket),
    /// The start of a packet, or fewer bytes than its version has; more bytes may complete it.
    Cut,
    /// What no packet begins with, whatever follows.
    Never,
}

// What a version and what was read behind it make.
fn front_read(version: u32, decoded: Result<Decoded, RecordFault>) -> Result<Front, NoMemory>
    ensures { result ≡ front_read version decoded }
{
    match decoded {
        Ok(Decoded { commit, end }) => Ok(Front::Whole(ReadPacket {
            packet: Packet { version, commit },
            end,
        })),
        Err(RecordFault::Short { .. }) => Ok(Front::Cut),
        Err(RecordFault::Bad { .. }) => Ok(Front::Never),
        Err(RecordFault::NoMemory) => Err(AllocError),
    }
}

/// What stands at the byte offset `at`, which is at most the number of bytes. The error is
/// `NoMemory`.
pub(crate) fn read_front(alloc: Global, bytes: &[u8], at: usize) -> Result<Front, NoMemory>
    requires { at ≤ length bytes.now }
    ensures { IfOk result (IsFront bytes.now at) }
{
    let (_, behind) = bytes.split_at(at);
    if behind.len() < 4 {
        return Ok(Front::Cut);
    }
    let Some(version) = version_of(behind) else {
        return Ok(Front::Never);
    };
    front_read(version, decode(alloc, bytes, at + 4))
}

// A packet of what stands at an offset, where it is one.
fn packet_read(at: usize, front: Result<Front, NoMemory>) -> Result<ReadPacket, PacketFault>
    ensures { result ≡ packet_read at front }
{
    match front {
        Ok(Front::Whole(read)) => Ok(read),
        Ok(Front::Cut) => Err(PacketFault::BadPacket { at }),
        Ok(Front::Never) => Err(PacketFault::BadPacket { at }),
        Err(_) => Err(PacketFault::NoMemory),
    }
}

/// The packet that begins at the byte offset `at`, which is at most the number of bytes, and the
/// offset behind it. Bytes may follow it. The error is `BadPacket` with `at` exactly where the
/// bytes from `at` on do not begin with a packet, and `NoMemory`.
pub fn read_packet(alloc: Global, bytes: &[u8], at: usize) -> Result<ReadPacket, PacketFault>
    requires { at ≤ length bytes.now }
    // What is read is spelled so, and ends there.
    ensures ok { IfOk result
        (λ r. (rest : List ℕ) × BeginsWithPacket (drop at bytes.now) r.packet rest) }
    ensures end { IfOk result (λ r. r.end ≡ at + length (packet_spelling r.packet)) }
    ensures within { IfOk result (λ r. r.end ≤ length bytes.now) }
    // What is spelled is read, unless memory runs out; else the fault says that there is none.
    ensures found { (p : PacketValue) (rest : List ℕ) → BeginsWithPacket (drop at bytes.now) p rest
        → FindsPacket p result }
    ensures bad { IfErr result (IsBadAt at (drop at bytes.now)) }
{
    packet_read(at, read_front(alloc, bytes, at))
}
