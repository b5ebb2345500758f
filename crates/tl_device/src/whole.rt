//! Writing the whole of a text by as many writes as the sink wants. After a fault some prefix of
//! it was written.
ghost use Rattle.std.specs.Prelude.{◌≡◌, ℕ, ◌≤◌, length, take, OnOk, OnErr};
ghost use Rattle.tl_device.specs.Known.{append_known, spend_room, HasRoom, Rose};

use crate::failed::Failed;
use crate::sink::Sink;

/// Writes the whole of `from`, for which the sink has room. The room falls by its length. `Failed`:
/// the sink failed; its count of faults rose in this call, and some prefix of `from` was written.
pub fn write_all<K: Sink>(sink: &mut K, from: &[u8]) -> Result<(), Failed>
    requires { HasRoom (K.spare sink.old) (length from.now) }
    ensures appended { OnOk result (K.written sink.new
        ≡ append_known (K.written sink.old) from.now) }
    ensures spent { OnOk result (K.spare sink.new ≡ spend_room (K.spare sink.old)
        (length from.now)) }
    ensures sure { OnOk result (K.faults sink.new ≡ K.faults sink.old) }
    ensures prefix { OnErr result ((n : ℕ) × (n ≤ length from.now)
        × (K.written sink.new ≡ append_known (K.written sink.old) (take n from.now))
        × (K.spare sink.new ≡ spend_room (K.spare sink.old) n)) }
    ensures rose { OnErr result (Rose (K.faults sink.old) (K.faults sink.new)) }
{
    let mut at = 0;
    while at < from.len() {
        let (_, rest) = from.split_at(at);
        at += sink.write(rest)?;
    }
    Ok(())
}
