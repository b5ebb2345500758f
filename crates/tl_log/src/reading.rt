//! The whole of a source, read to its end in pieces of 64 KB. Its bytes are kept as they came, and
//! a source that fails is told with its count of faults.
ghost use Rattle.std.specs.Prelude.{◌≡◌, ◌<◌, ℕ, List, length, Some, IfOk, IfErr, OnOk, vec_len};
ghost use Rattle.tl_log.specs.Taking.{CountsRead, Takes};

use std::alloc::Global;
use tl_device::{Failed, Source};
use tl_types::NoMemory;

// How many bytes one read asks for.
const PIECE: usize = 65536;

/// Why a source is not read to its end.
pub enum ReadFault {
    /// It failed, with this count of faults.
    Source {
        /// Its count of faults.
        faults: u64,
    },
    /// Memory ran out.
    NoMemory,
}

// As many zeros as are asked for.
fn zeros(alloc: Global, number: usize) -> Result<Vec<u8>, NoMemory>
    ensures { IfOk result (λ v. vec_len v ≡ number) }
{
    Ok(vec![in alloc; 0u8; number]?)
}

// Takes further bytes of a source by a buffer that is not empty. It answers false where there are
// none.
fn take_more<S: Source>(
    source: &mut S,
    piece: &mut [u8],
    bytes: &mut Vec<u8>,
) -> Result<bool, ReadFault>
    requires { 0 < length piece.old }
    ensures piece { length piece.new ≡ length piece.old }
    ensures takes { Takes (S.left source.old) bytes.old.items result
        (S.left source.new) bytes.new.items }
    ensures sure { OnOk result (S.faults source.new ≡ S.faults source.old) }
    ensures faults { IfErr result (λ e. CountsRead e (S.faults source.old) (S.faults source.new)) }
{
    match source.read(piece) {
        Ok(0) => Ok(false),
        Ok(number) => match bytes.extend_from_slice(&piece[..number]) {
            Ok(()) => Ok(true),
            Err(_) => Err(ReadFault::NoMemory),
        },
        Err(Failed) => Err(ReadFault::Source {
            faults: source.faults(),
        }),
    }
}

/// All bytes that a source has left; it is read to its end. `Source`: it failed; `faults` is its
/// count of faults, which rose in this call. `NoMemory`: memory ran out. After either some first
/// bytes of the source may be taken.
pub fn read_all<S: Source>(alloc: Global, source: &mut S) -> Result<Vec<u8>, ReadFault>
    ensures whole { (b : List ℕ) → S.left source.old ≡ Some b →
        IfOk result (λ bytes. bytes.items ≡ b) }
    ensures sure { OnOk result (S.faults source.new ≡ S.faults source.old) }
    ensures faults { IfErr result (λ e. CountsRead e (S.faults source.old) (S.faults source.new)) }
{
    let Ok(mut piece) = zeros(alloc, PIECE) else {
        return Err(ReadFault::NoMemory);
    };
    let mut bytes = Vec::new(alloc);
    'reading: loop {
        match take_more(source, &mut piece, &mut bytes) {
            Ok(true) => {}
            Ok(false) => return Ok(bytes),
            Err(fault) => return Err(fault),
        }
    }
}
