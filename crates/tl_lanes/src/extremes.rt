//! The least and the greatest of the values whose bit in a mask is set: whole words of the mask by
//! lanes, the rest by a plain loop. None where no bit is set.
ghost use Rattle.std.specs.Prelude.{◌≡◌, ◌*◌, ◌/◌, ◌<◌, ◌≤◌, [], length, take, All, IfSome, IfNone, FitsSigned, if◌then◌else◌, true, false, int_lt, Contains};
ghost use Rattle.std.specs.Int.{w64};
ghost use Rattle.tl_lanes.specs.Masks.{words_for, picked, IsExtreme, IsUpTo};
ghost use Rattle.tl_lanes.specs.Lanes.{AreLanes, AreLaneBits, ArePicked, AreFirst, AreNext, Reach};

use crate::masked::is_set;
use crate::masks::{all_fit, number};
use std::simd::prelude::*;

/// How many values go into one word of a mask, and into one vector.
const WORD: usize = 64;

// Whether a value comes before the best one so far: the least comes first, or the greatest.
fn comes_before(value: i64, best: i64, least: bool) -> bool
    ensures { result ≡ (if least then int_lt value best else int_lt best value) }
{
    if least { value < best } else { best < value }
}

// The value in place of the best one so far, where it is to be.
fn chosen(best: i64, value: &i64, replaces: bool) -> i64
    ensures value { result ≡ (if replaces then value.now else best) }
    ensures fits { FitsSigned w64 result }
{
    if replaces { *value } else { best }
}

// The bit of each lane.
fn lane_bits() -> [u64; 64]
    ensures bits { AreLaneBits result }
    ensures long { length result ≡ 64 }
{
    let mut bits = [0u64; WORD];
    for l in 0..WORD {
        bits[l] = 1 << l;
    }
    bits
}

// The lanes of one vector where their bit of the word is set, and else those of another.
fn where_set(word: u64, bits: u64x64, set: i64x64, clear: i64x64) -> i64x64
    requires bits { AreLaneBits bits }
    requires long { length bits ≡ 64 }
    requires set { AreLanes set }
    requires clear { AreLanes clear }
    ensures picked { ArePicked word set clear result }
    ensures long { length result ≡ 64 }
{
    let own = u64x64::splat(word) & bits;
    own.simd_ne(u64x64::splat(0)).select(set, clear)
}

// The lane of the left vector where it comes first, and else that of the right.
fn first_lanes(least: bool, left: i64x64, right: i64x64) -> i64x64
    requires left { AreLanes left }
    requires right { AreLanes right }
    ensures first { AreFirst least left right result }
    ensures long { length result ≡ 64 }
{
    if least {
        return left.simd_lt(right).select(left, right);
    }
    right.simd_lt(left).select(left, right)
}

// The lanes after the values of one word of the mask went by them.
fn next_lanes(word: u64, bits: u64x64, values: &[i64], least: bool, lanes: i64x64) -> i64x64
    requires bits { AreLaneBits bits }
    requires ones { length bits ≡ 64 }
    requires lanes { AreLanes lanes }
    requires long { length values.now ≡ 64 }
    ensures next { AreNext least word values.now lanes result }
    ensures fit { AreLanes result }
{
    all_fit(values);
    let set = where_set(word, bits, i64x64::from_slice(values), lanes);
    first_lanes(least, set, lanes)
}

// The values of whole words of the mask by lanes, of which each begins with the seed.
fn best_lanes(values: &[i64], mask: &[u64], least: bool, seed: i64) -> i64x64
    requires long { length mask.now ≡ words_for (length values.now) }
    requires seed { Contains (picked mask.now values.now) seed }
    ensures { Reach least (picked mask.now values.now)
        (picked mask.now (take (64 * (length values.now / 64)) values.now)) result }
{
    let bits = u64x64::from_array(lane_bits());
    let mut lanes = i64x64::splat(seed);
    for i in 0..values.len() / WORD {
        lanes = next_lanes(
            mask[i],
            bits,
            &values[WORD * i..WORD * i + WORD],
            least,
            lanes,
        );
    }
    lanes
}

// The best of the lanes.
fn best_lane(lanes: &[i64], least: bool) -> i64
    requires { 0 < length lanes.now }
    ensures best { IsExtreme least lanes.now result }
    ensures fits { FitsSigned w64 result }
{
    let mut best = number(&lanes[0]);
    for lane in lanes {
        best = chosen(best, lane, comes_before(number(lane), best, least));
    }
    best
}

// The best so far, or one of the values of the last word of the mask that is not whole.
fn best_of_rest(values: &[i64], mask: &[u64], least: bool, seed: i64) -> i64
    requires long { length mask.now ≡ words_for (length values.now) }
    requires among { Contains (picked mask.now values.now) seed }
    requires first { All (IsUpTo least seed)
        (picked mask.now (take (64 * (length values.now / 64)) values.now)) }
    ensures { IsExtreme least (picked mask.now values.now) result }
{
    let mut best = seed;
    for j in WORD * (values.len() / WORD)..values.len() {
        let first = comes_before(number(&values[j]), best, least);
        best = chosen(best, &values[j], is_set(mask, j) & first);
    }
    best
}

// The first of the values whose bit is set. Whole words of 0 are passed at once.
fn some_value(values: &[i64], mask: &[u64]) -> Option<i64>
    requires { length mask.now ≡ words_for (length values.now) }
    ensures some { IfSome result (Contains (picked mask.now values.now)) }
    ensures none { IfNone result (picked mask.now values.now ≡ []) }
{
    for j in first_word(values, mask) * WORD..values.len() {
        if is_set(mask, j) {
            return Some(number(&values[j]));
        }
    }
    None
}

// The first of the whole words of the mask that is not 0, or how many there are.
fn first_word(values: &[i64], mask: &[u64]) -> usize
    requires { length mask.now ≡ words_for (length values.now) }
    ensures within { 64 * result ≤ length values.now }
    ensures none { picked mask.now (take (64 * result) values.now) ≡ [] }
{
    let mut i = 0;
    while i < values.len() / WORD && mask[i] == 0 {
        i += 1;
    }
    i
}

// The least of the values whose bit is set, or the greatest.
fn masked_extreme(values: &[i64], mask: &[u64], least: bool) -> Option<i64>
    requires { length mask.now ≡ words_for (length values.now) }
    ensures some { IfSome result (IsExtreme least (picked mask.now values.now)) }
    ensures none { IfNone result (picked mask.now values.now ≡ []) }
{
    let Some(seed) = some_value(values, mask) else {
        return None;
    };
    let lanes = best_lanes(values, mask, least, seed);
    let best = best_lane(lanes.to_array().as_slice(), least);
    Some(best_of_rest(values, mask, least, best))
}

/// The least of the values whose bit in the mask is set; `None` exactly where there is none. The
/// mask has one word for each 64 values that are begun; bits past the values do not count.
pub fn masked_min(values: &[i64], mask: &[u64]) -> Option<i64>
    requires { length mask.now ≡ words_for (length values.now) }
    ensures least { IfSome result (IsExtreme true (picked mask.now values.now)) }
    ensures none { IfNone result (picked mask.now values.now ≡ []) }
{
    masked_extreme(values, mask, true)
}

/// The greatest of the values whose bit in the mask is set; `None` exactly where there is none. The
/// mask has one word for each 64 values that are begun; bits past the values do not count.
pub fn masked_max(values: &[i64], mask: &[u64]) -> Option<i64>
    requires { length mask.now ≡ words_for (length values.now) }
    ensures greatest { IfSome result (IsExtreme false (picked mask.now values.now)) }
    ensures none { IfNone result (picked mask.now values.now ≡ []) }
{
    masked_extreme(values, mask, false)
}
