//! Whole inputs of packets, as they come piece by piece. Of what it was given a reader holds the
//! packets, each version once, and the bytes behind the last whole one for as long as a packet may
//! begin with them; where none may, the rest of the input is counted alone. It refuses bytes that
//! are not packets to their end, and packets that lead to a commit that does not fit, each with the
//! offset of the packet that is to blame.
ghost use Rattle.std.specs.Prelude.{◌≡◌, ℕ, ◌+◌, ◌^◌, ◌<◌, ◌≤◌, List, [], length, map, drop, false, true, vec_len, ◌++◌, IfOk, IfErr};
ghost use Rattle.tl_types.specs.declared.commits.Entry.{Entry};
ghost use Rattle.tl_types.specs.declared.limits.Limits.{Limits as LimitsValue};
ghost use Rattle.tl_types.specs.Entries.{commits_of, has_break};
ghost use Rattle.tl_types.specs.Limits.{standard_limits};
ghost use Rattle.tl_batch.specs.Made.{AreWithin};
ghost use Rattle.tl_index.specs.Snapshots.{commit_entry};
ghost use Rattle.tl_follow.specs.Inputs.{FollowsInput, IsInputFault};
ghost use Rattle.tl_follow.specs.Readers.{IsRead, IsReader, IsRest, ReadsOn, TakesFront, count_of, next_size};

use crate::faults::PacketFault;
use crate::in_place::Followed;
use crate::places::InputFollower;
use crate::reading::{Front, ReadPacket, read_front};
use std::alloc::Global;
use tl_index::Snapshot;
use tl_types::{Bytes, Limits, NoMemory};

/// The most bytes that an input may have: 2 GiB. Who reads an input refuses a longer one, with this
/// offset.
pub const INPUT_LIMIT: usize = 2_147_483_648;

// The least piece that is asked for where its bytes are kept.
const KEPT_PIECE: usize = 1_048_576;
// The piece that is asked for where its bytes are counted alone: one read of 65,536 is enough.
const COUNTED_PIECE: usize = 65_535;

// Where the packets end that bytes begin with; and whether none begins there, whatever follows.
#[derive(Clone, Copy)]
struct FrontRead {
    end: usize,
    bad: bool,
}

// Takes the packets that bytes begin with, the first of which has this offset in the input. The
// error is `NoMemory`; the follower is given up then.
fn take_packets(
    alloc: Global,
    follower: &mut InputFollower,
    from: usize,
    bytes: &[u8],
) -> Result<FrontRead, NoMemory>
    requires { from + length bytes.now < 2 ^ 64 }
    ensures within { IfOk result (λ s. s.end ≤ length bytes.now) }
    ensures takes { IfOk result
        (λ s. TakesFront from bytes.now s.end follower.old follower.new) }
    ensures rest { IfOk result (λ s. IsRest s.bad (drop s.end bytes.now)) }
{
    let mut at = 0usize;
    'reading: loop {
        match read_front(alloc, bytes, at)? {
            Front::Whole(ReadPacket { packet, end }) => {
                follower.take(packet, from + at)?;
                at = end;
            }
            Front::Cut => {
                return Ok(FrontRead {
                    end: at,
                    bad: false,
                });
            }
            Front::Never => return Ok(FrontRead { end: at, bad: true }),
        }
    }
}

// The bytes with a piece behind them. The error is `NoMemory`.
fn with_piece(bytes: Vec<u8>, piece: Bytes) -> Result<Vec<u8>, NoMemory>
    ensures { IfOk result (λ all. all.items ≡ bytes.items ++ piece) }
{
    let mut all = bytes;
    all.extend_from_slice(piece.as_slice())?;
    Ok(all)
}

// The bytes behind the packets that were read, and none where no packet begins with them, whatever
// follows.
fn rest_behind(alloc: Global, bytes: Vec<u8>, read: FrontRead) -> Vec<u8>
    requires { read.end ≤ vec_len bytes }
    ensures kept { read.bad ≡ false → result.items ≡ drop read.end bytes.items }
    ensures gone { read.bad ≡ true → result.items ≡ [] }
{
    let len = bytes.len();
    if read.bad || read.end == len {
        return Vec::new(alloc);
    }
    let mut rest = bytes;
    rest.copy_within(read.end..len, 0);
    rest.truncate(len - read.end);
    rest
}

/// A reader of an input of packets, which it is given piece by piece.
#[derive(Drop)]
pub struct PacketReader {
    follower: InputFollower,
    // Where the packets end that it took.
    end: usize,
    // The bytes behind them, where a packet may begin with them.
    rest: Vec<u8>,
    // How many bytes it was given.
    count: usize,
    // Whether no packet begins behind those that it took, whatever follows.
    bad: bool,
}

impl PacketReader {
    /// The reader whose packets go on from the history of a snapshot, which has no break. Commits
    /// fit by these limits, which are within the standard ones. It was given no byte.
    pub fn start(alloc: Global, snapshot: Snapshot, limits: &Limits) -> PacketReader
        requires whole { has_break snapshot ≡ false }
        requires within { AreWithin limits.now standard_limits }
        ensures read { IsRead limits.now snapshot [] result }
        ensures count { count_of result ≡ 0 }
    {
        PacketReader {
            follower: InputFollower::start(alloc, snapshot, limits),
            end: 0,
            rest: Vec::new(alloc),
            count: 0,
            bad: false,
        }
    }

    /// How many bytes it was given.
    pub fn count(&self) -> usize
        ensures { result ≡ count_of self.now }
    {
        self.count
    }

    /// How many bytes to ask for next. Any other number does, too: with this one a long packet is
    /// looked at anew only when twice as many bytes of it are there, and bytes that are counted
    /// alone come in small pieces.
    pub fn next_size(&self) -> usize
        ensures { result ≡ next_size self.now }
    {
        if self.bad {
            return COUNTED_PIECE;
        }
        let len = self.rest.len();
        if len < KEPT_PIECE {
            return KEPT_PIECE;
        }
        len
    }

    /// Reads the piece that comes next in the input. It was given at most `INPUT_LIMIT` bytes
    /// before. The error is `NoMemory`; the reader is given up then.
    pub fn read(self, alloc: Global, piece: Bytes) -> Result<PacketReader, NoMemory>
        requires known { IsReader self }
        requires short { count_of self ≤ INPUT_LIMIT }
        ensures read { IfOk result (λ r. ReadsOn piece self r) }
        ensures count { IfOk result (λ r. count_of r ≡ count_of self + length piece) }
    {
        let PacketReader {
            mut follower,
            end,
            rest,
            count,
            bad,
        } = self;
        let count = count + piece.len();
        if bad {
            return Ok(PacketReader {
                follower,
                end,
                rest,
                count,
                bad,
            });
        }
        let bytes = with_piece(rest, piece)?;
        let read = take_packets(alloc, &mut follower, end, bytes.as_slice())?;
        Ok(PacketReader {
            follower,
            end: end + read.end,
            rest: rest_behind(alloc, bytes, read),
            count,
            bad: read.bad,
        })
    }

    /// The commits that the packets of the whole input make behind those of the snapshot, in order,
    /// and the snapshot with them. Each fits those before it. It was given at most `INPUT_LIMIT`
    /// bytes. The error is `BadPacket` with the first offset before the end at which no packet
    /// begins, where there is one; else with the offset of the first packet of the version that
    /// comes next, where its commit does not fit; and `NoMemory`.
    pub fn finish(self) -> Result<Followed, PacketFault>
        requires known { IsReader self }
        requires short { count_of self ≤ INPUT_LIMIT }
        ensures ok { (limits : LimitsValue) (start : List Entry) (bytes : List ℕ)
            → IsRead limits start bytes self
            → IfOk result (λ f. FollowsInput limits (commits_of start) bytes f.commits) }
        ensures next { (limits : LimitsValue) (start : List Entry) (bytes : List ℕ)
            → IsRead limits start bytes self
            → IfOk result (λ f. f.snapshot ≡ start ++ map commit_entry f.commits) }
        ensures bad { (limits : LimitsValue) (start : List Entry) (bytes : List ℕ)
            → IsRead limits start bytes self
            → IfErr result (IsInputFault limits (commits_of start) bytes) }
    {
        if self.end < self.count {
            return Err(PacketFault::BadPacket { at: self.end });
        }
        let PacketReader { follower, .. } = self;
        follower.follow()
    }
}
