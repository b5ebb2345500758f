//! Whether keys stand once each, by a flag for each small number. Where a key is a text or a great
//! number, it does not look, and says no more than that.
ghost use Rattle.std.specs.Prelude.{◌≡◌, ◌<◌, ◌/◌, ℕ, pos, [], true, false, length, map, IfOk, IfSome};
ghost use Rattle.tl_types.specs.declared.cells.Cell.TheVariants as cell;
ghost use Rattle.tl_batch.specs.Flags.{has_flag};
ghost use Rattle.tl_batch.specs.Untimed.{AreFresh};

use std::alloc::Global;
use tl_types::{Cell, NoMemory};

// The flags of a word.
const WORD: usize = 64;

// So many words of flags are made also for few keys.
const LEAST: usize = 256;

// The number that a key is, where it is one from 0 on.
#[inline(always)]
fn number_of(key: &Cell) -> Option<usize>
    ensures { IfSome result (λ number. key.now ≡ cell.Int (pos number)) }
{
    match key {
        Cell::Int(number) => {
            if *number < 0 {
                return None;
            }
            Some(*number as usize)
        }
        Cell::Text(_) => None,
    }
}

// The greatest of the numbers that keys are, and the greatest of all where one of them is no number
// from 0 on.
fn greatest(keys: &[&Cell]) -> usize {
    let mut most = 0;
    for key in keys {
        let Some(number) = number_of(key) else {
            return usize::MAX;
        };
        most = most.max(number);
    }
    most
}

// Sets the flag of a number, and says whether it was not set.
#[inline(always)]
fn set_flag(flags: &mut [u64], number: usize) -> bool
    requires { number / 64 < length flags.old }
    ensures fresh { result ≡ true → has_flag flags.old number ≡ false }
    ensures here { has_flag flags.new number ≡ true }
    ensures kept { (n : ℕ) → has_flag flags.old n ≡ true → has_flag flags.new n ≡ true }
{
    let word = flags[number / WORD];
    flags[number / WORD] = word | 1 << (number % WORD);
    word >> (number % WORD) & 1 == 0
}

// Sets the flags of keys, up to one whose flag is set or that has none, and says whether there is
// no such key.
fn set_flags(flags: &mut [u64], keys: &[&Cell]) -> bool
    ensures { result ≡ true → AreFresh [] (map (λ k. k.now) keys.now) }
{
    for key in keys {
        let Some(number) = number_of(key) else {
            return false;
        };
        if number / WORD >= flags.len() {
            return false;
        }
        let fresh = set_flag(flags, number);
        if !fresh {
            return false;
        }
    }
    true
}

/// Whether keys are small numbers, and each stands once; `false` also where that was not looked at.
/// The error is `NoMemory`.
pub(crate) fn stand_once(alloc: Global, keys: &[&Cell]) -> Result<bool, NoMemory>
    ensures { IfOk result (λ once. once ≡ true → AreFresh [] (map (λ k. k.now) keys.now)) }
{
    let words = greatest(keys) / WORD + 1;
    if words > keys.len().saturating_mul(2).max(LEAST) {
        return Ok(false);
    }
    let mut flags = vec![in alloc; 0u64; words]?;
    let once = set_flags(flags.as_mut_slice(), keys);
    Ok(once)
}
