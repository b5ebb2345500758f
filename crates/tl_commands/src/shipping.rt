//! A journal is opened over what is shipped of its commits with versions from one to another, and
//! the packets are written. The journal keeps its commits.
ghost use Rattle.std.specs.Prelude.{ℕ, List};
ghost use Rattle.std.specs.declared.option.Option.{Option};
ghost use Rattle.tl_command.specs.Outside.{outside_from};
ghost use Rattle.tl_commands.specs.Shipping.{ShipEnds};

use crate::shipments::Shipment;
use std::alloc::Global;
use tl_command::{Ending, Status, end_refused, write_text};
use tl_device::{Disk, Sink};
use tl_journal::Refused;
use tl_replay::{Opened, open_journal};
use tl_types::Limits;

/// Writes the commits of the journal on the disk with versions from `from` to `to`, both among
/// them, as packets in order of version; nothing where there is none. The journal is opened as for
/// a run, and keeps its commits. How it ends, and what is then written and on the disk, by status,
/// is what `ShipEnds` says.
pub fn ship<K: Sink, D: Disk>(alloc: Global, from: u32, to: u32, sink: &mut K, disk: D) -> Ending<D>
    ensures { (left : Option (List ℕ)) (faults : ℕ) → ShipEnds from to
        (outside_from K.Sink D.Disk left faults sink.old disk)
        (outside_from K.Sink D.Disk left faults sink.new result.disk) result.status }
{
    let first = Shipment::new(alloc, from, to);
    match open_journal(alloc, disk, first, &Limits::standard()) {
        Err(Refused { fault, disk }) => Ending {
            status: end_refused(alloc, sink, fault),
            disk,
        },
        Ok(Opened { journal, applied }) => Ending {
            status: write_text(sink, applied.packets.as_slice(), Status::Done),
            disk: journal.into_disk(),
        },
    }
}
