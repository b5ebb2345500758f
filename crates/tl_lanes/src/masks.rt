//! Masks of values that pass a comparison with a bound, a bit for each value in words of 64: whole
//! words by lanes, the rest by a plain loop. Bits past the values are 0.
ghost use Rattle.std.specs.Prelude.{◌≡◌, ℕ, ◌+◌, ◌*◌, ◌/◌, ◌<◌, ◌≤◌, ◌==◌, not, Bool, length, map, slice_index, slice_index_or, FitsSigned, pos};
ghost use Rattle.std.specs.Int.{w64};
ghost use Rattle.std.specs.Simd.Lanes.{mask_l};
ghost use Rattle.tl_lanes.specs.Masks.{words_for, word_of, mask_of, passes, agrees, AreBits};

use std::simd::prelude::*;

/// How many values go into one word of a mask.
const WORD: usize = 64;

/// A comparison of a value with a bound.
#[derive(Clone, Copy, Debug, PartialEq, Eq)]
pub enum LaneCmp {
    /// The value is the bound.
    Eq,
    /// The value is not the bound.
    Ne,
    /// The value is below the bound.
    Lt,
    /// The value is not above the bound.
    Le,
    /// The value is above the bound.
    Gt,
    /// The value is not below the bound.
    Ge,
}

// A number that is lent, which fits its type.
pub(crate) fn number(value: &i64) -> i64
    ensures value { result ≡ value.now }
    ensures fits { FitsSigned w64 value.now }
{
    *value
}

// That each of the numbers fits its type, which a load of many lanes does not tell. It does
// nothing.
pub(crate) fn all_fit(values: &[i64])
    ensures { (k : ℕ) → k < length values.now
        → FitsSigned w64 (slice_index_or values.now k (pos 0)) }
{
    for value in values {
        let _read = number(value); // says that it fits
    }
}

// The word of which bit i says whether number i of 64 passes.
fn signed_lanes(cmp: LaneCmp, values: &[i64], bound: i64) -> u64
    requires { length values.now ≡ 64 }
    ensures { result ≡ mask_l (map (λ x. passes cmp x bound) values.now) }
{
    all_fit(values);
    let lanes = i64x64::from_slice(values);
    let bounds = i64x64::splat(bound);
    match cmp {
        LaneCmp::Eq => lanes.simd_eq(bounds).to_bitmask(),
        LaneCmp::Ne => lanes.simd_ne(bounds).to_bitmask(),
        LaneCmp::Lt => lanes.simd_lt(bounds).to_bitmask(),
        LaneCmp::Le => lanes.simd_le(bounds).to_bitmask(),
        LaneCmp::Gt => lanes.simd_gt(bounds).to_bitmask(),
        LaneCmp::Ge => lanes.simd_ge(bounds).to_bitmask(),
    }
}

fn code_lanes(equal: bool, values: &[u32], code: u32) -> u64
    requires { length values.now ≡ 64 }
    ensures { result ≡ mask_l (map (λ x. agrees equal x code) values.now) }
{
    let lanes = u32x64::from_slice(values);
    let codes = u32x64::splat(code);
    if equal {
        lanes.simd_eq(codes).to_bitmask()
    } else {
        lanes.simd_ne(codes).to_bitmask()
    }
}

// A test of values, alone or of the 64 of one word at once.
trait Comparison<T> {
    ghost test: { Self → T → Bool };

    fn word(&self, values: &[T]) -> u64
        requires { length values.now ≡ 64 }
        ensures { result ≡ mask_l (map (test self.now) values.now) };

    fn passes(&self, value: &T) -> bool
        ensures { result ≡ test self.now value.now };
}

#[derive(Drop)]
struct SignedTest {
    cmp: LaneCmp,
    bound: i64,
}

impl Comparison<i64> for SignedTest {
    ghost test = { λ t x. passes t.cmp x t.bound };

    fn word(&self, values: &[i64]) -> u64 {
        signed_lanes(self.cmp, values, self.bound)
    }

    fn passes(&self, value: &i64) -> bool {
        signed_passes(self.cmp, *value, self.bound)
    }
}

#[derive(Drop)]
struct CodeTest {
    equal: bool,
    code: u32,
}

impl Comparison<u32> for CodeTest {
    ghost test = { λ t x. agrees t.equal x t.code };

    fn word(&self, values: &[u32]) -> u64 {
        code_lanes(self.equal, values, self.code)
    }

    fn passes(&self, value: &u32) -> bool {
        code_agrees(self.equal, *value, self.code)
    }
}

fn signed_passes(cmp: LaneCmp, value: i64, bound: i64) -> bool
    ensures { result ≡ passes cmp value bound }
{
    match cmp {
        LaneCmp::Eq => value == bound,
        LaneCmp::Ne => value != bound,
        LaneCmp::Lt => value < bound,
        LaneCmp::Le => value <= bound,
        LaneCmp::Gt => value > bound,
        LaneCmp::Ge => value >= bound,
    }
}

fn code_agrees(equal: bool, value: u32, code: u32) -> bool
    ensures { result ≡ agrees equal value code }
{
    if equal { value == code } else { value != code }
}

// The word of values that do not fill one.
fn rest_word<T, C: Comparison<T>>(test: &C, values: &[T]) -> u64
    requires { length values.now ≤ 64 }
    ensures { result ≡ mask_l (map (C.test test.now) values.now) }
{
    let mut word = 0u64;
    let mut at = values.len();
    while at > 0 {
        at -= 1;
        word = 2 * word + u64::from(test.passes(&values[at]));
    }
    word
}

// The word of at most 64 values.
fn word_for<T, C: Comparison<T>>(test: &C, values: &[T]) -> u64
    requires { length values.now ≤ 64 }
    ensures { result ≡ mask_l (map (C.test test.now) values.now) }
{
    if values.len() == WORD {
        test.word(values)
    } else {
        rest_word(test, values)
    }
}

// Puts the words of the values that fill one.
fn fill_whole<T, C: Comparison<T>>(test: &C, values: &[T], out: &mut [u64])
    requires { length out.old ≡ words_for (length values.now) }
    ensures { (i : ℕ) → i < length values.now / 64
        → slice_index out.new i ≡ word_of (map (C.test test.now) values.now) i }
{
    for i in 0..values.len() / WORD {
        out[i] = test.word(&values[WORD * i..WORD * i + WORD]);
    }
}

// Puts the mask of the values that pass.
fn fill<T, C: Comparison<T>>(test: &C, values: &[T], out: &mut [u64])
    requires { length out.old ≡ words_for (length values.now) }
    ensures { out.new ≡ mask_of (map (C.test test.now) values.now) }
{
    fill_whole(test, values, out);
    let whole = values.len() / WORD;
    if values.len() % WORD > 0 {
        out[whole] = rest_word(test, &values[WORD * whole..]);
    }
}

/// Puts into `out` the mask of the values that pass the comparison with the bound: bit j mod 64 of
/// word j div 64 says whether value j does. Bits past the values are 0. `out` has one word for each
/// 64 values that are begun.
pub fn compare_mask(values: &[i64], cmp: LaneCmp, bound: i64, out: &mut [u64])
    requires { length out.old ≡ words_for (length values.now) }
    ensures { out.new ≡ mask_of (map (λ x. passes cmp x bound) values.now) }
{
    fill(&SignedTest { cmp, bound }, values, out)
}

/// Puts into `out` the mask of the values that are the code, where `equal`, or else of those that
/// are not. Its bits stand as in `compare_mask`.
pub fn compare_mask_u32(values: &[u32], equal: bool, code: u32, out: &mut [u64])
    requires { length out.old ≡ words_for (length values.now) }
    ensures { out.new ≡ mask_of (map (λ x. agrees equal x code) values.now) }
{
    fill(&CodeTest { equal, code }, values, out)
}

/// The word of at most 64 values that tells which of them pass the comparison with the bound: bit k
/// is that of value k. Bits past the values are 0.
#[tactic(auto, using(crate::proofs::LaneMasks::word_bits))]
pub fn compare_word(values: &[i64], cmp: LaneCmp, bound: i64) -> u64
    requires { length values.now ≤ 64 }
    ensures word { result ≡ mask_l (map (λ x. passes cmp x bound) values.now) }
    ensures bits { AreBits (map (λ x. passes cmp x bound) values.now) result }
{
    word_for(&SignedTest { cmp, bound }, values)
}

/// The word of at most 64 values that tells which of them are the code, where `equal`, or else
/// which are not. Its bits stand as in `compare_word`.
#[tactic(auto, using(crate::proofs::LaneMasks::word_bits))]
pub fn compare_word_u32(values: &[u32], equal: bool, code: u32) -> u64
    requires { length values.now ≤ 64 }
    ensures word { result ≡ mask_l (map (λ x. agrees equal x code) values.now) }
    ensures bits { AreBits (map (λ x. agrees equal x code) values.now) result }
{
    word_for(&CodeTest { equal, code }, values)
}
