//! What a crash may leave of bytes in memory, built from the record of the calls: all since the
//! last sync may be undone, and where a write wrote, any bytes may stand.
ghost use Rattle.std.specs.Prelude.{◌≡◌, ℕ, ◌+◌, ◌++◌, List, length, take, drop, reverse, replicate, IfOk};
ghost use Rattle.tl_device.specs.Replay.{undone};
ghost use Rattle.tl_device.specs.Crash.{is_sync, synced_bytes, range_of, with_range, with_ranges};

use crate::call::Call;
use crate::failed::NoMemory;
use std::alloc::Global;

// Whether the call is a sync.
fn is_sync(call: &Call) -> bool
    ensures { result ≡ is_sync call.now }
{
    matches!(call, Call::Synced)
}

// Where a call may have written: the place, and how many bytes.
fn range_of(call: &Call) -> (u64, usize)
    ensures at { result.0 ≡ (range_of call.now).0 }
    ensures number { result.1 ≡ (range_of call.now).1 }
{
    match call {
        Call::Wrote(at, number, _) => (*at, *number),
        Call::Tore(at, number) => (*at, *number),
        _ => (0, 0),
    }
}

// Puts this value everywhere.
fn put_all(bytes: &mut [u8], value: u8)
    ensures { bytes.new ≡ replicate (length bytes.old) value }
{
    for i in 0..bytes.len() {
        bytes[i] = value;
    }
}

// Puts this value into the bytes of a range, as far as they go.
fn put_range(bytes: &mut [u8], value: u8, at: u64, number: usize)
    ensures { bytes.new ≡ with_range value at number bytes.old }
{
    let len = bytes.len();
    let start = at.min(len as u64) as usize;
    let end = at.saturating_add(number as u64).min(len as u64) as usize;
    put_all(&mut bytes[start..end], value);
}

// Puts this value into each range where a call since the last sync may have written.
pub(crate) fn put_ranges(bytes: &mut [u8], value: u8, done: &[Call])
    ensures { bytes.new ≡ with_ranges value (reverse done.now) bytes.old }
{
    let mut rest = done;
    'putting: while let Some((call, before)) = rest.split_last() {
        if is_sync(call) {
            return;
        }
        let (at, number) = range_of(call);
        put_range(bytes, value, at, number);
        rest = before;
    }
}

// The log before a call.
fn log_before<'a>(log: &'a [u8], call: &Call) -> &'a [u8]
    ensures { (bytes : List ℕ) → result.now ≡ (undone bytes log.now call.now).1 }
{
    match call {
        Call::Wrote(_, _, over) => &log[..log.len().saturating_sub(*over)],
        Call::Cut(_, over) => &log[..log.len().saturating_sub(*over)],
        _ => log,
    }
}

// The bytes before a write, over which these were written.
fn before_write(
    alloc: Global,
    bytes: &[u8],
    under: &[u8],
    at: u64,
    number: usize,
) -> Result<Vec<u8>, NoMemory>
    ensures { IfOk result (λ b. b.items
        ≡ take at bytes.now ++ under.now ++ drop (at + number) bytes.now) }
{
    let len = bytes.len();
    let start = at.min(len as u64) as usize;
    let end = at.saturating_add(number as u64).min(len as u64) as usize;
    let mut before = Vec::new(alloc);
    before.extend_from_slice(&bytes[..start])?;
    before.extend_from_slice(under)?;
    before.extend_from_slice(&bytes[end..])?;
    Ok(before)
}

// The bytes before a call, which left this log.
fn bytes_before(alloc: Global, bytes: Vec<u8>, log: &[u8], call: &Call) -> Result<Vec<u8>, NoMemory>
    ensures { IfOk result (λ b. b.items ≡ (undone bytes.items log.now call.now).0) }
{
    match call {
        Call::Wrote(at, number, over) => {
            let under = &log[log.len().saturating_sub(*over)..];
            before_write(alloc, &bytes, under, *at, *number)
        }
        Call::Cut(_, over) => {
            let mut bytes = bytes;
            bytes.extend_from_slice(&log[log.len().saturating_sub(*over)..])?;
            Ok(bytes)
        }
        _ => Ok(bytes),
    }
}

// The bytes of the last sync.
pub(crate) fn last_synced(
    alloc: Global,
    bytes: Vec<u8>,
    log: &[u8],
    done: &[Call],
) -> Result<Vec<u8>, NoMemory>
    ensures { IfOk result (λ b.
        b.items ≡ synced_bytes (reverse done.now) (bytes.items, log.now)) }
{
    let mut undone = bytes;
    let mut left = log;
    let mut rest = done;
    'undoing: while let Some((call, before)) = rest.split_last() {
        if is_sync(call) {
            return Ok(undone);
        }
        undone = bytes_before(alloc, undone, left, call)?;
        left = log_before(left, call);
        rest = before;
    }
    Ok(undone)
}
