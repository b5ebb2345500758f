//! The lines of the bytes in hand, read one after the other up to a GO line or to the last LF. It
//! keeps how many bytes were read, and stops at the first line with a fault.
ghost use Rattle.std.specs.Prelude.{◌≡◌, ◌≤◌, length, take, true, false, MatchOption, IfOk};
ghost use Rattle.tl_script.specs.Script.{stands_in};
ghost use Rattle.tl_script.specs.InHand.{BeginsLine, IsNamed, ReadsHand, spot_in};

use crate::jobs::ScriptError;
use crate::open_phase::OpenPhase;
use crate::texts::position_of;
use std::alloc::Global;

// How many bytes of those in hand were read, and whether a GO line, the last of them, ends the
// phase.
#[derive(Clone, Copy)]
pub(crate) struct Found {
    pub used: usize,
    pub ends: bool,
}

// How many bytes the first line has that ends with LF, where the first `searched` have none.
fn line_end(bytes: &[u8], searched: usize) -> Option<usize>
    requires within { searched ≤ length bytes.now }
    requires none { stands_in 10 (take searched bytes.now) ≡ false }
    ensures { MatchOption result (stands_in 10 bytes.now ≡ false)
        (λ end. BeginsLine bytes.now end) }
{
    let (_, behind) = bytes.split_at(searched);
    match position_of(behind, b'\n') {
        Some(at) => Some(searched + at + 1),
        None => None,
    }
}

/// Reads the lines of the bytes in hand up to the GO line that ends the phase, or all that end with
/// LF. The first `searched` bytes have no LF.
pub(crate) fn read_lines(
    phase: &mut OpenPhase,
    alloc: Global,
    bytes: &[u8],
    searched: usize,
) -> Result<Found, ScriptError>
    requires within { searched ≤ length bytes.now }
    requires none { stands_in 10 (take searched bytes.now) ≡ false }
    ensures read { ReadsHand phase.old.limits (spot_in phase.old) bytes.now result
        (spot_in phase.new) }
    ensures limits { phase.new.limits ≡ phase.old.limits }
    ensures before { (spot_in phase.new).before ≡ (spot_in phase.old).before }
    ensures named { IsNamed (spot_in phase.old) → IfOk result (λ _. IsNamed (spot_in phase.new)) }
{
    let mut rest = bytes;
    let mut from = searched;
    let mut used = 0;
    'reading: while let Some(end) = line_end(rest, from) {
        let (line, behind) = rest.split_at(end);
        used += end;
        if phase.read_line(alloc, line)? {
            return Ok(Found { used, ends: true });
        }
        let number = phase.read_plain_lines(behind)?;
        rest = behind.split_at(number).1;
        from = 0;
        used += number;
    }
    Ok(Found { used, ends: false })
}
