//! Each kernel against a plain loop over words and bits, at lengths about whole vectors and whole
//! words, with the least and the greatest numbers among the values, and with masks that are empty,
//! full and neither.
ghost use Rattle.std.specs.Prelude.{◌≡◌, ◌<◌, ◌≤◌, length};
ghost use Rattle.std.specs.Bool.{OnTrue};
ghost use Rattle.tl_lanes.specs.Masks.{words_for};

use std::alloc::Global;
use std::test::Fail;
use tl_lanes::{
    LaneCmp, and_into, and_not_into, compare_mask, compare_mask_u32, count_ones, masked_max,
    masked_min, masked_sum, or_into,
};
use tl_types::NoMemory;

const LENGTHS: [usize; 8] = [0, 1, 7, 8, 63, 64, 65, 1000];

// Words with all bits, with none, with the two outermost, and with some.
const WORDS: [u64; 4] = [u64::MAX, 0, 0x8000_0000_0000_0001, 0x0123_4567_89ab_cdef];

// What is done to two words at a time.
#[derive(Clone, Copy)]
enum Pairing {
    And,
    Or,
    AndNot,
}

const PAIRINGS: [Pairing; 3] = [Pairing::And, Pairing::Or, Pairing::AndNot];

// Whether a word is what a pairing makes of two others, bit by bit.
fn is_paired(pairing: Pairing, left: u64, right: u64, word: u64) -> bool {
    for k in 0..64u32 {
        let first = (left >> k) & 1 == 1;
        let second = (right >> k) & 1 == 1;
        let both = match pairing {
            Pairing::And => first && second,
            Pairing::Or => first || second,
            Pairing::AndNot => first && !second,
        };
        if both != ((word >> k) & 1 == 1) {
            return false;
        }
    }
    true
}

// Whether each word is what a pairing makes of the words of two lists of patterns.
fn are_paired(pairing: Pairing, words: &[u64]) -> bool {
    for k in 0..words.len() {
        if !is_paired(pairing, WORDS[k % 4], WORDS[k / 4 % 4], words[k]) {
            return false;
        }
    }
    true
}

// How many bits are set, bit by bit.
fn bits_set(words: &[u64]) -> u64 {
    let mut count = 0u64;
    for word in words {
        for k in 0..64u32 {
            count = count.wrapping_add((*word >> k) & 1);
        }
    }
    count
}

// Whether a pairing of two lists of patterns agrees with the plain loop, and so does a count.
fn pairing_agrees(pairing: Pairing, left: &mut [u64], right: &[u64]) -> bool {
    if left.len() != right.len() || left.len() > 1000 {
        return false;
    }
    match pairing {
        Pairing::And => and_into(left, right),
        Pairing::Or => or_into(left, right),
        Pairing::AndNot => and_not_into(left, right),
    }
    are_paired(pairing, left) && left.len() <= 1000 && count_ones(left) == bits_set(left)
}

// So many words by their number divided by a step.
fn words(alloc: Global, step: usize, len: usize) -> Result<Vec<u64>, NoMemory>
    requires { 0 < step }
{
    let mut words = Vec::new(alloc);
    for k in 0..len {
        words.push(WORDS[k / step % 4])?;
    }
    Ok(words)
}

fn pairs_agree(alloc: Global, pairing: Pairing, len: usize, right: &[u64]) -> bool {
    match words(alloc, 1, len) {
        Ok(mut left) => pairing_agrees(pairing, &mut left, right),
        Err(_) => false,
    }
}

fn all_pairs_agree(alloc: Global, len: usize, right: &[u64]) -> bool {
    for pairing in PAIRINGS {
        if !pairs_agree(alloc, pairing, len, right) {
            return false;
        }
    }
    true
}

fn words_agree(alloc: Global, len: usize) -> bool {
    match words(alloc, 4, len) {
        Ok(right) => all_pairs_agree(alloc, len, &right),
        Err(_) => false,
    }
}

#[test]
fn kernels_over_words(rt: HostRuntime) -> Result<(), Fail> {
    for len in LENGTHS {
        assert!(rt; words_agree(rt.alloc(), len));
    }
    Ok(())
}

const CMPS: [LaneCmp; 6] = [
    LaneCmp::Eq,
    LaneCmp::Ne,
    LaneCmp::Lt,
    LaneCmp::Le,
    LaneCmp::Gt,
    LaneCmp::Ge,
];

// The numbers of a list, again and again, and the bounds that they are compared with.
const NUMBERS: [i64; 5] = [i64::MIN, 7, -1, i64::MAX, 3];

const CODES: [u32; 3] = [5, 9, u32::MAX];

fn passes(cmp: LaneCmp, value: i64, bound: i64) -> bool {
    match cmp {
        LaneCmp::Eq => value == bound,
        LaneCmp::Ne => value != bound,
        LaneCmp::Lt => value < bound,
        LaneCmp::Le => value <= bound,
        LaneCmp::Gt => value > bound,
        LaneCmp::Ge => value >= bound,
    }
}

// Bit j of a mask, false past its words.
fn bit(mask: &[u64], j: usize) -> bool {
    match mask.get(j / 64) {
        Some(word) => (*word >> (j % 64)) & 1 == 1,
        None => false,
    }
}

// Whether there are at most 1,000 values, and a word of the mask for each 64 that are begun.
fn has_words(values: usize, mask: &[u64]) -> bool
    ensures few { OnTrue result (values ≤ 1000) }
    ensures words { OnTrue result (length mask.now ≡ words_for values) }
{
    if values > 1000 || mask.len() != (values + 63) / 64 {
        return false;
    }
    true
}

// Whether the mask of a comparison says of each place, and of those past the values, what a plain
// test says. It is put over another one.
fn mask_agrees(values: &[i64], cmp: LaneCmp, bound: i64, mask: &mut [u64]) -> bool {
    if !has_words(values.len(), mask) {
        return false;
    }
    compare_mask(values, cmp, bound, mask);
    for j in 0..1024usize {
        let plain = j < values.len() && passes(cmp, values[j], bound);
        if bit(mask, j) != plain {
            return false;
        }
    }
    true
}

// The same of each comparison and bound.
fn masks_agree(values: &[i64], mask: &mut [u64]) -> bool {
    for cmp in CMPS {
        for bound in NUMBERS {
            if !mask_agrees(values, cmp, bound, mask) {
                return false;
            }
        }
    }
    true
}

// The same of codes that are one, or another.
fn code_mask_agrees(codes: &[u32], equal: bool, code: u32, mask: &mut [u64]) -> bool {
    if !has_words(codes.len(), mask) {
        return false;
    }
    compare_mask_u32(codes, equal, code, mask);
    for j in 0..1024usize {
        let plain = j < codes.len() && (codes[j] == code) == equal;
        if bit(mask, j) != plain {
            return false;
        }
    }
    true
}

fn code_masks_agree(codes: &[u32], mask: &mut [u64]) -> bool {
    for code in CODES {
        if !code_mask_agrees(codes, true, code, mask) {
            return false;
        }
        if !code_mask_agrees(codes, false, code, mask) {
            return false;
        }
    }
    true
}

// The numbers again and again, and the codes, so many of them.
fn numbers(alloc: Global, len: usize) -> Result<Vec<i64>, NoMemory> {
    let mut numbers = Vec::new(alloc);
    for k in 0..len {
        numbers.push(NUMBERS[k % 5])?;
    }
    Ok(numbers)
}

fn codes(alloc: Global, len: usize) -> Result<Vec<u32>, NoMemory> {
    let mut codes = Vec::new(alloc);
    for k in 0..len {
        codes.push(CODES[k % 3])?;
    }
    Ok(codes)
}

// How many words a mask of so many bits has.
fn words_of(len: usize) -> usize {
    len.div_ceil(64)
}

fn comparisons_agree(alloc: Global, len: usize, mask: &mut [u64]) -> bool {
    match numbers(alloc, len) {
        Ok(values) => masks_agree(&values, mask),
        Err(_) => false,
    }
}

fn code_comparisons_agree(alloc: Global, len: usize, mask: &mut [u64]) -> bool {
    match codes(alloc, len) {
        Ok(codes) => code_masks_agree(&codes, mask),
        Err(_) => false,
    }
}

fn all_comparisons_agree(alloc: Global, len: usize) -> bool {
    match words(alloc, 1, words_of(len)) {
        Ok(mut mask) => {
            comparisons_agree(alloc, len, &mut mask)
                && code_comparisons_agree(alloc, len, &mut mask)
        }
        Err(_) => false,
    }
}

#[test]
fn comparisons(rt: HostRuntime) -> Result<(), Fail> {
    for len in LENGTHS {
        assert!(rt; all_comparisons_agree(rt.alloc(), len));
    }
    Ok(())
}

// The sum of the values whose bit is set, one by one.
fn plain_sum(values: &[i64], mask: &[u64]) -> i128 {
    let mut sum = 0i128;
    for j in 0..values.len() {
        if bit(mask, j) {
            sum = sum.wrapping_add(i128::from(values[j]));
        }
    }
    sum
}

// The nearer of two values to an end.
fn nearer(end: Option<i64>, value: i64, least: bool) -> i64 {
    match end {
        Some(other) if (other < value) == least => other,
        _ => value,
    }
}

// The least of the values whose bit is set, or the greatest, one by one.
fn plain_end(values: &[i64], mask: &[u64], least: bool) -> Option<i64> {
    let mut end: Option<i64> = None;
    for j in 0..values.len() {
        if bit(mask, j) {
            end = Some(nearer(end, values[j], least));
        }
    }
    end
}

// Whether sum and ends under a mask agree with the plain loops.
fn masked_agree(values: &[i64], mask: &[u64]) -> bool {
    if !has_words(values.len(), mask) {
        return false;
    }
    masked_sum(values, mask) == plain_sum(values, mask)
        && masked_min(values, mask) == plain_end(values, mask, true)
        && masked_max(values, mask) == plain_end(values, mask, false)
}

// The same under a mask whose words are all this one.
fn agree_under(alloc: Global, values: &[i64], word: u64) -> bool {
    match vec![in alloc; word; words_of(values.len())] {
        Ok(mask) => masked_agree(values, &mask),
        Err(_) => false,
    }
}

fn agree_under_each(alloc: Global, values: &[i64]) -> bool {
    for word in WORDS {
        if !agree_under(alloc, values, word) {
            return false;
        }
    }
    true
}

fn sums_and_ends_agree(alloc: Global, len: usize) -> bool {
    match numbers(alloc, len) {
        Ok(values) => agree_under_each(alloc, &values),
        Err(_) => false,
    }
}

#[test]
fn sums_and_ends_under_a_mask(rt: HostRuntime) -> Result<(), Fail> {
    for len in LENGTHS {
        assert!(rt; sums_and_ends_agree(rt.alloc(), len));
    }
    Ok(())
}
