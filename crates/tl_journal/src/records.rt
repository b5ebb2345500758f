//! Records among the bytes of a journal: the next one behind an open gate, or none behind a closed
//! one. An open gate without a whole record and a further byte is refused.
ghost use Rattle.std.specs.Prelude.{◌≡◌, ◌≢◌, ◌+◌, ◌≤◌, ◌<◌, ◌++◌, ◌∷◌, ℕ, List, length, take, drop, IfSome, IfOk, IfErr, Ok, Err, None, true, false};
ghost use Rattle.tl_record.specs.Spelling.{spelling};
ghost use Rattle.tl_record.specs.Decoding.{BeginsWith};
ghost use Rattle.tl_journal.specs.Image.{header, NoRecord};
ghost use Rattle.tl_journal.specs.Records.{IsOnlyRecord, IsGateBefore, IsBrokenHere};
ghost use Rattle.tl_journal.specs.Answers.{IsDamagedOrMemory};
ghost use Rattle.tl_journal.specs.declared.faults.JournalFault.TheVariants as fault;

use crate::faults::JournalFault;
use std::alloc::{AllocError, Global};
use tl_record::{Decoded, RecordFault, decode};
use tl_types::NoMemory;

// Whether the bytes begin as a journal.
pub(crate) fn has_header(bytes: &[u8]) -> bool
    requires { 16 ≤ length bytes.now }
    ensures yes { result ≡ true → take 16 bytes.now ≡ header }
    ensures no { result ≡ false → take 16 bytes.now ≢ header }
{
    bytes[..16]
        == [
            116, 105, 109, 101, 108, 105, 110, 101, 32, 106, 111, 117, 114, 110, 97, 108,
        ]
}

// The record at a place, with its end, where a further byte stands behind it.
fn record_at(alloc: Global, bytes: &[u8], at: usize) -> Result<Option<Decoded>, NoMemory>
    requires { at ≤ length bytes.now }
    ensures some { IfOk result (λ o. IfSome o (λ d.
        BeginsWith (drop at bytes.now) d.commit (drop d.end bytes.now))) }
    ensures end { IfOk result (λ o. IfSome o (λ d. (d.end < length bytes.now)
        × (d.end ≡ at + length (spelling d.commit)))) }
    ensures only { IfOk result (λ o. IfSome o (λ d. IsOnlyRecord (drop at bytes.now) d.commit)) }
    ensures none { result ≡ Ok None → NoRecord (drop at bytes.now) }
{
    match decode(alloc, bytes, at) {
        Ok(decoded) => {
            if decoded.end < bytes.len() {
                Ok(Some(decoded))
            } else {
                Ok(None)
            }
        }
        Err(RecordFault::NoMemory) => Err(AllocError),
        Err(_) => Ok(None),
    }
}

// The bytes from one place to another.
pub(crate) fn bytes_between(bytes: &[u8], from: usize, to: usize) -> &[u8]
    requires order { from ≤ to }
    requires within { to ≤ length bytes.now }
    ensures { (r rest : List ℕ) → drop from bytes.now ≡ r ++ rest → to ≡ from + length r →
        result.now ≡ r }
{
    let (_, behind) = bytes.split_at(from);
    let (between, _) = behind.split_at(to - from);
    between
}

// The gate at a place.
fn gate_at(bytes: &[u8], at: usize) -> u8
    requires { at < length bytes.now }
    ensures { drop at bytes.now ≡ result ∷ drop (at + 1) bytes.now }
{
    bytes[at]
}

// The commit behind the gate at a place, with the end of its record, or `None` where the gate is
// closed. `Damaged`: the gate is open, and no record and further byte follow it.
pub(crate) fn commit_at(
    alloc: Global,
    bytes: &[u8],
    at: usize,
) -> Result<Option<Decoded>, JournalFault>
    requires { at < length bytes.now }
    ensures some { IfOk result (λ o. IfSome o (λ d.
        IsGateBefore (drop at bytes.now) d.commit (drop d.end bytes.now))) }
    ensures end { IfOk result (λ o. IfSome o (λ d. (d.end < length bytes.now)
        × (d.end ≡ at + (1 + length (spelling d.commit))))) }
    ensures none { result ≡ Ok None → (tail : List ℕ) × (drop at bytes.now ≡ 0 ∷ tail) }
    ensures damaged { (n : ℕ) → result ≡ Err (fault.Damaged n) →
        (n ≡ at) × IsBrokenHere (drop at bytes.now) }
    ensures faults { IfErr result (IsDamagedOrMemory at) }
{
    let gate = gate_at(bytes, at);
    if gate == 0 {
        return Ok(None);
    }
    let Ok(record) = record_at(alloc, bytes, at + 1) else {
        return Err(JournalFault::NoMemory);
    };
    let Some(decoded) = record else {
        return Err(JournalFault::Damaged { at: at as u64 });
    };
    Ok(Some(decoded))
}
