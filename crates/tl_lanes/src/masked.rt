//! Sums of the values whose bit in a mask is set: whole vectors by lanes, the rest by a plain
//! loop. The sum has 128 bits, so that none of 64 can leave it.
ghost use Rattle.std.specs.Prelude.{◌≡◌, ◌+◌, ◌*◌, ◌/◌, ◌^◌, ◌<◌, pos, neg_ℤ, ◌+ℤ◌, ◌≤ℤ◌, length, take, fold, slice_index_or, FitsSigned, if◌then◌else◌, ℕ};
ghost use Rattle.std.specs.Int.{w64};
ghost use Rattle.tl_lanes.specs.Masks.{words_for, is_bit, bit_of, picked};

use crate::masks::all_fit;
use std::simd::prelude::*;

/// How many values go into one vector.
const LANES: usize = 8;

// Whether bit `j` of the mask is set.
pub(crate) fn is_set(mask: &[u64], j: usize) -> bool
    requires { j / 64 < length mask.now }
    ensures { result ≡ bit_of mask.now j }
{
    (mask[j / 64] >> (j % 64)) & 1 == 1
}

// The value where its bit is set, and else 0.
fn counted(value: &i64, set: bool) -> i64
    ensures value { result ≡ (if set then value.now else pos 0) }
    ensures fits { FitsSigned w64 result }
{
    if set { *value } else { 0 }
}

// Of each of eight values the value itself where its bit in the word is set, and else 0, with 2^63
// added so that none is negative.
fn offset_lanes(values: &[i64], word: u64) -> u64x8
    requires { length values.now ≡ 8 }
    ensures long { length result ≡ 8 }
    ensures fit { (k : ℕ) → k < 8 → slice_index_or result k 0 < 2 ^ 64 }
    ensures lanes { (k : ℕ) → k < 8 → pos (slice_index_or result k 0)
        ≡ (if is_bit word k then slice_index_or values.now k (pos 0) else pos 0) +ℤ pos (2 ^ 63) }
{
    all_fit(values);
    let places = u64x8::from_array([0, 1, 2, 3, 4, 5, 6, 7]);
    let half = u64x8::splat(1 << 63);
    let lanes = i64x8::from_slice(values);
    let offset = lanes.simd_lt(i64x8::splat(0)).select(u64x8::splat(0), half);
    let all = (lanes & i64x8::splat(i64::MAX)).cast::<u64>() + offset;
    let set = (u64x8::splat(word) >> places) & u64x8::splat(1);
    set.simd_eq(u64x8::splat(1)).select(all, half)
}

// The sum of so many values, of which each with 2^63 added has lower 32 bits that add up to `low`,
// and upper ones that add up to `high`.
fn joined(low: u64, high: u64, count: usize) -> i128
    requires { count < 2 ^ 32 }
    ensures { pos (low + 2 ^ 32 * high) ≡ result +ℤ pos (2 ^ 63 * count) }
{
    let whole = i128::from(low) + i128::from(high) * (1 << 32);
    whole - count as i128 * (1 << 63)
}

// The sum of the values of whole vectors whose bit is set. Each lane adds up the lower and the
// upper 32 bits of its values on their own.
fn sum_lanes(values: &[i64], mask: &[u64]) -> i128
    requires words { length mask.now ≡ words_for (length values.now) }
    requires few { length values.now < 2 ^ 32 }
    ensures value { result
        ≡ fold ◌+ℤ◌ (pos 0) (picked mask.now (take (length values.now / 8 * 8) values.now)) }
    ensures low { neg_ℤ (pos (2 ^ 63 * (length values.now / 8 * 8))) ≤ℤ result }
    ensures high { result ≤ℤ pos (2 ^ 63 * (length values.now / 8 * 8)) }
{
    let mut lows = u64x8::splat(0);
    let mut highs = u64x8::splat(0);
    for i in 0..values.len() / LANES {
        let at = LANES * i;
        let lanes = offset_lanes(&values[at..at + LANES], mask[at / 64] >> (at % 64));
        lows = lows.strict_add(lanes & u64x8::splat(0xffff_ffff));
        highs = highs.strict_add(lanes >> u64x8::splat(32));
    }
    joined(
        lows.strict_reduce_sum(),
        highs.strict_reduce_sum(),
        values.len() / LANES * LANES,
    )
}

/// The sum of the values whose bit in the mask is set. The mask has one word for each 64 values
/// that are begun; bits past the values do not count.
pub fn masked_sum(values: &[i64], mask: &[u64]) -> i128
    requires words { length mask.now ≡ words_for (length values.now) }
    requires few { length values.now < 2 ^ 32 }
    ensures { result ≡ fold ◌+ℤ◌ (pos 0) (picked mask.now values.now) }
{
    let mut sum = sum_lanes(values, mask);
    for j in values.len() / LANES * LANES..values.len() {
        sum += i128::from(counted(&values[j], is_set(mask, j)));
    }
    sum
}
