//! Packets: commits with their versions, and what becomes of one that is taken.
use tl_types::Commit;

/// A commit and its version.
#[derive(Debug, Drop, PartialEq, Eq)]
pub struct Packet {
    /// The version, from 1.
    pub version: u32,
    /// The commit. It makes this version where it fits the commits before it.
    pub commit: Commit,
}

/// What became of a packet that was taken.
#[derive(Clone, Copy, Debug, PartialEq, Eq)]
pub enum Taken {
    /// Its version was not reached and no packet of that version was held: it is held.
    Held,
    /// Its version was reached, or a packet of that version was held: it changes nothing.
    Known,
}
