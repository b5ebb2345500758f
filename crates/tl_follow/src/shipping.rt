//! Packets as bytes. A packet is its version (4 bytes, big-endian, from 1 to 16,777,215) and then
//! the record of its commit. Only memory is wanting.
ghost use Rattle.std.specs.Prelude.{◌≡◌, ◌++◌, IfOk, OnOk, OnErr};
ghost use Rattle.tl_record.specs.Spelling.{number};
ghost use Rattle.tl_follow.specs.Packets.{IsVersion, IsPacket, packet_spelling};

use crate::packets::Packet;
use std::alloc::Global;
use tl_record::encode;
use tl_types::{Bytes, NoMemory};

/// The bytes of a packet, whose version is from 1 to 16,777,215. The error is `NoMemory`.
pub fn packet_bytes(alloc: Global, packet: &Packet) -> Result<Bytes, NoMemory>
    requires { IsVersion packet.now.version }
    ensures spelled { IfOk result (λ b. b ≡ packet_spelling packet.now) }
    ensures fits { IfOk result (λ b. IsPacket packet.now) }
{
    let record = encode(alloc, &packet.commit)?;
    let mut out = Vec::new(alloc);
    put_packet(&mut out, packet.version, record.as_slice())?;
    Ok(Bytes::from_vec(out))
}

/// Puts the packet of a version behind what `out` has: the version, and the record of its commit,
/// which is spelled already. The error is `NoMemory`, and `out` stays as it was.
pub fn put_packet(out: &mut Vec<u8>, version: u32, spelled: &[u8]) -> Result<(), NoMemory>
    ensures ok { OnOk result (out.new.items
        ≡ out.old.items ++ (number version ++ spelled.now)) }
    ensures err { OnErr result (out.new.items ≡ out.old.items) }
{
    out.reserve(4 + spelled.len())?;
    out.extend_from_slice(&version.to_be_bytes()).unwrap();
    out.extend_from_slice(spelled).unwrap();
    Ok(())
}
