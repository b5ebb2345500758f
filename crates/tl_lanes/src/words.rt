//! Words of 64 bits: one list into another bit by bit, and how many bits are set. Whole vectors go
//! by lanes, the rest by a plain loop.
ghost use Rattle.std.specs.Prelude.{◌≡◌, ℕ, ◌+◌, ◌*◌, ◌/◌, ◌^◌, ◌<◌, ◌≤◌, length, take, drop, ◌++◌, sum_by, bit_and, bit_or, count_ones};
ghost use Rattle.std.specs.Simd.Lanes.{zip2};
ghost use Rattle.tl_lanes.specs.Words.{and_not};

use std::simd::prelude::*;

/// How many words go into one vector.
const LANES: usize = 8;

// An operation on two words, bit by bit, alone or on lanes of words.
trait WordOperation {
    ghost value: { ℕ → ℕ → ℕ };

    fn lanes(left: u64x8, right: u64x8) -> u64x8
        ensures { result ≡ zip2 value left right };

    fn word(left: u64, right: u64) -> u64
        ensures { result ≡ value left right };
}

struct And;

struct Or;

struct AndNot;

impl WordOperation for And {
    ghost value = { bit_and };

    fn lanes(left: u64x8, right: u64x8) -> u64x8 {
        left & right
    }

    fn word(left: u64, right: u64) -> u64 {
        left & right
    }
}

impl WordOperation for Or {
    ghost value = { bit_or };

    fn lanes(left: u64x8, right: u64x8) -> u64x8 {
        left | right
    }

    fn word(left: u64, right: u64) -> u64 {
        left | right
    }
}

impl WordOperation for AndNot {
    ghost value = { and_not };

    fn lanes(left: u64x8, right: u64x8) -> u64x8 {
        left & !right
    }

    fn word(left: u64, right: u64) -> u64 {
        left & !right
    }
}

// Puts the value at each whole vector, from the first on, and tells how many words these are.
fn combine_lanes<O: WordOperation>(left: &mut [u64], right: &[u64]) -> usize
    requires { length left.old ≡ length right.now }
    ensures within { result ≤ length left.old }
    ensures front { take result left.new
        ≡ zip2 O.value (take result left.old) (take result right.now) }
    ensures back { drop result left.new ≡ drop result left.old }
{
    let mut at = 0;
    while LANES <= left.len() - at {
        let lanes = O::lanes(
            u64x8::from_slice(&left[at..]),
            u64x8::from_slice(&right[at..]),
        );
        lanes.copy_to_slice(&mut left[at..]);
        at += LANES;
    }
    at
}

// Puts the value at each word from `from` on.
fn combine_rest<O: WordOperation>(left: &mut [u64], right: &[u64], from: usize)
    requires lengths { length left.old ≡ length right.now }
    requires within { from ≤ length left.old }
    ensures { left.new
        ≡ take from left.old ++ zip2 O.value (drop from left.old) (drop from right.now) }
{
    let mut at = from;
    while at < left.len() {
        left[at] = O::word(left[at], right[at]);
        at += 1;
    }
}

// Puts the value at each word.
fn combine<O: WordOperation>(left: &mut [u64], right: &[u64])
    requires { length left.old ≡ length right.now }
    ensures { left.new ≡ zip2 O.value left.old right.now }
{
    let from = combine_lanes::<O>(left, right);
    combine_rest::<O>(left, right, from);
}

/// Into each word of `left` puts the bits that it has in common with the word of `right` in its
/// place.
pub fn and_into(left: &mut [u64], right: &[u64])
    requires { length left.old ≡ length right.now }
    ensures { left.new ≡ zip2 bit_and left.old right.now }
{
    combine::<And>(left, right)
}

/// Into each word of `left` puts its bits and those of the word of `right` in its place.
pub fn or_into(left: &mut [u64], right: &[u64])
    requires { length left.old ≡ length right.now }
    ensures { left.new ≡ zip2 bit_or left.old right.now }
{
    combine::<Or>(left, right)
}

/// Into each word of `left` puts the bits that it has and the word of `right` in its place has not.
pub fn and_not_into(left: &mut [u64], right: &[u64])
    requires { length left.old ≡ length right.now }
    ensures { left.new ≡ zip2 and_not left.old right.now }
{
    combine::<AndNot>(left, right)
}

// How many bits of the words of whole vectors are set. Each lane adds up its own.
fn count_lanes(words: &[u64]) -> u64
    requires { length words.now < 2 ^ 32 }
    ensures { result ≡ sum_by count_ones (take (length words.now / 8 * 8) words.now) }
{
    let mut counts = u64x8::splat(0);
    for i in 0..words.len() / LANES {
        counts = counts.strict_add(u64x8::from_slice(&words[LANES * i..]).count_ones());
    }
    counts.strict_reduce_sum()
}

// How many bits of words that do not fill a vector are set.
fn count_rest(words: &[u64]) -> u64
    requires { length words.now < 2 ^ 32 }
    ensures { result ≡ sum_by count_ones words.now }
{
    words.iter().map(|word| u64::from(word.count_ones())).sum()
}

/// How many bits of the words are set.
pub fn count_ones(words: &[u64]) -> u64
    requires { length words.now < 2 ^ 32 }
    ensures { result ≡ sum_by count_ones words.now }
{
    let whole = words.len() / LANES * LANES;
    count_lanes(words) + count_rest(&words[whole..])
}
