//! What is shipped of a journal while it is opened: each commit that fits becomes a packet, where
//! its version is one of those that are wanted. Of the tables an outline is kept, which tells
//! whether a commit fits.
ghost use Rattle.std.specs.Prelude.{◌≡◌, ◌++◌, ◌∷◌, ◌&&◌, [], ℕ, List, nat_le, IsTrue, IfOk, OnOk, if◌then◌else◌};
ghost use Rattle.tl_types.specs.declared.commits.Commit.{Commit as CommitValue};
ghost use Rattle.tl_types.specs.History.{database_of, fits};
ghost use Rattle.tl_types.specs.Limits.{standard_limits};
ghost use Rattle.tl_record.specs.Spelling.{number, spelling};
ghost use Rattle.tl_commands.specs.Shipments.{IsShipment};

use std::alloc::Global;
use tl_follow::put_packet;
use tl_outline::Outline;
use tl_replay::Applies;
use tl_types::{Commit, Limits, NoMemory};

/// The packets of the commits so far with versions from one to another, the outline of the tables
/// that these commits make, and their number.
#[derive(Drop)]
pub(crate) struct Shipment {
    pub(crate) outline: Outline,
    pub(crate) packets: Vec<u8>,
    pub(crate) version: u32,
    pub(crate) from: u32,
    pub(crate) to: u32,
}

// Whether a version is one of those from `from` to `to`.
fn is_wanted(from: u32, to: u32, version: u32) -> bool
    ensures { result ≡ (nat_le from version && nat_le version to) }
{
    from <= version && version <= to
}

// Puts the packet of a version behind the packets where it is one of those from `from` to `to`. The
// error is `NoMemory`.
fn put_wanted(
    packets: &mut Vec<u8>,
    from: u32,
    to: u32,
    version: u32,
    spelled: &[u8],
) -> Result<(), NoMemory>
    ensures { OnOk result (packets.new.items ≡ packets.old.items
        ++ (if nat_le from version && nat_le version to then number version ++ spelled.now
        else [])) }
{
    let wanted = is_wanted(from, to, version);
    if !wanted {
        return Ok(());
    }
    put_packet(packets, version, spelled)?;
    Ok(())
}

impl Shipment {
    /// What is shipped of no commits, of versions from `from` to `to`. It takes no memory.
    pub(crate) fn new(alloc: Global, from: u32, to: u32) -> Shipment
        ensures first { IsShipment from to [] result }
        ensures from { result.from ≡ from }
        ensures to { result.to ≡ to }
    {
        Shipment {
            outline: Outline::empty(alloc),
            packets: Vec::new(alloc),
            version: 0,
            from,
            to,
        }
    }

    // What is shipped with a commit more, which fits. The error is `NoMemory`.
    fn with(self, commit: &Commit, spelled: &[u8]) -> Result<Shipment, NoMemory>
        requires spelled { spelled.now ≡ spelling commit.now }
        requires fits { (commits : List CommitValue) × IsShipment self.from self.to commits self
            × IsTrue (fits standard_limits (database_of commits) commit.now) }
        ensures { (commits : List CommitValue) → IsShipment self.from self.to commits self →
            IfOk result (IsShipment self.from self.to (commits ++ commit.now ∷ [])) }
    {
        let Shipment {
            mut outline,
            mut packets,
            version,
            from,
            to,
        } = self;
        outline.apply(commit)?;
        let version = version + 1;
        put_wanted(&mut packets, from, to, version, spelled)?;
        Ok(Shipment {
            outline,
            packets,
            version,
            from,
            to,
        })
    }
}

impl Applies for Shipment {
    ghost can_apply = { λ limits. limits ≡ standard_limits };

    ghost makes = { λ first commits last. IsShipment first.from first.to commits last };

    fn apply(
        self,
        _alloc: Global,
        commit: &Commit,
        spelled: &[u8],
        limits: &Limits,
    ) -> Result<(Shipment, bool), NoMemory> {
        let fits = self.outline.fits(commit, limits);
        if !fits {
            return Ok((self, false));
        }
        let shipment = self.with(commit, spelled)?;
        Ok((shipment, true))
    }
}
