//! Sets of row ids below a number of rows, a bit a row in words of 64. Bits past the rows are 0,
//! and each word that is looked at takes a step.
ghost use Rattle.std.specs.Prelude.{◌≡◌, ℕ, ◌+◌, ◌-◌, ◌*◌, ◌/◌, ◌%◌, ◌^◌, ◌<◌, ◌≤◌, ◌==◌, ◌++◌, Bool, true, false, length, replicate, slice_set, slice_index, count_by, IfOk, IfSome, IfNone, if◌then◌else◌};
ghost use Rattle.tl_lanes.specs.Masks.{words_for, is_bit, bit_of, bits_of, word_of};
ghost use Rattle.tl_bits.specs.Sets.{is_member, IsFree, IsNext, IsFirstBit, IsNextBit};

use std::alloc::Global;
use std::marker::Model;
use std::sync::ledger::Ledger;
use tl_lanes::count_ones;
use tl_types::{NoMemory, Steps};

/// How many rows a word holds.
const WORD: u32 = 64;

/// A set of row ids below a number of rows, a bit a row. A contract sees it as the list that says
/// of each row, from 0 on, whether the row is in the set; its length is the number of rows.
#[derive(Drop)]
pub struct RowSet {
    rows: u32,
    words: Vec<u64>,
}

impl Model for RowSet {
    ghost use Rattle.std.specs.Prelude.{◌≡◌, ℕ, ◌^◌, ◌<◌, ◌≤◌, Bool, false, List, length};
    ghost use Rattle.tl_lanes.specs.Masks.{words_for, bit_of, bits_of};

    ghost Value = { List Bool };

    ghost view = { λ s. bits_of s.rows s.words.items };

    ghost invariant = { λ s. (length s.words.items ≡ words_for s.rows)
        × ((j : ℕ) → s.rows ≤ j → bit_of s.words.items j ≡ false)
        × (s.rows < 2 ^ 32) };
}

// How many words so many rows take.
fn word_count(rows: u32) -> usize
    ensures { result ≡ words_for rows }
{
    (rows as usize + 63) / 64
}

// How many words are cleared at a time: few enough that stores of vectors do it.
const PIECE: usize = 128;

// So many words with no bit set, cleared piece by piece.
#[tactic(auto, using(crate::proofs::SetLemmas::more_zeros))]
fn zero_words(alloc: Global, count: usize) -> Result<Vec<u64>, NoMemory>
    ensures { IfOk result (λ words. words.items ≡ replicate count 0) }
{
    let mut words = Vec::with_capacity(alloc, count)?;
    let mut done = 0;
    while done < count {
        let next = done + (count - done).min(PIECE);
        words.resize(next, 0)?;
        done = next;
    }
    Ok(words)
}

// The words and then words with no bit set, so many in all.
fn grown_words(alloc: Global, words: &[u64], count: usize) -> Result<Vec<u64>, NoMemory>
    requires { length words.now ≤ count }
    ensures { IfOk result
        (λ grown. grown.items ≡ words.now ++ replicate (count - length words.now) 0) }
{
    let mut grown = Vec::with_capacity(alloc, count)?;
    grown.extend_from_slice(words)?;
    grown.resize(count, 0)?;
    Ok(grown)
}

// Puts the bit of this row at a value.
fn put_bit(words: &mut [u64], row: u32, bit: bool)
    requires { row / 64 < length words.old }
    ensures len { length words.new ≡ length words.old }
    ensures bits { (j : ℕ) → bit_of words.new j ≡ (if j == row then bit else bit_of words.old j) }
{
    let at = (row / WORD) as usize;
    let one = 1 << (row % WORD);
    words[at] = (words[at] & !one) | (u64::from(bit) << (row % WORD));
}

// Whether the bit of this row is set. It takes one step.
fn has_bit<L: Ledger>(words: &[u64], row: u32, steps: &mut Steps<L>) -> bool
    requires { row / 64 < length words.now }
    ensures bit { result ≡ bit_of words.now row }
    ensures steps { steps.new ≡ steps.old + 1 }
{
    steps.tick();
    (words[(row / WORD) as usize] >> (row % WORD)) & 1 == 1
}

// The word at a place. It takes one step.
fn word_at<L: Ledger>(words: &[u64], i: usize, steps: &mut Steps<L>) -> u64
    requires { i < length words.now }
    ensures word { result ≡ slice_index words.now i }
    ensures fits { result < 2 ^ 64 }
    ensures steps { steps.new ≡ steps.old + 1 }
{
    steps.tick();
    words[i]
}

// Puts a word in place of one.
fn put_word(words: &mut [u64], i: usize, word: u64)
    requires { i < length words.old }
    ensures { words.new ≡ slice_set words.old i word }
{
    words[i] = word;
}

// The lowest bit of the word that is set, from bit `from` on.
fn first_bit(word: u64, from: u32) -> Option<u32>
    requires { from < 64 }
    ensures found { IfSome result (IsFirstBit word from) }
    ensures none { IfNone result ((k : ℕ) → from ≤ k → is_bit word k ≡ false) }
{
    let rest = word >> from;
    if rest == 0 {
        None
    } else {
        Some(from + rest.trailing_zeros())
    }
}

// The first bit of the mask that is set, from bit `from` on. It takes one step for each word that
// it looks at.
fn next_bit<L: Ledger>(words: &[u64], from: u32, steps: &mut Steps<L>) -> Option<u32>
    requires { length words.now ≤ 2 ^ 26 }
    ensures found { IfSome result (IsNextBit words.now from) }
    ensures none { IfNone result ((j : ℕ) → from ≤ j → bit_of words.now j ≡ false) }
    ensures steps_found { IfSome result (λ row. steps.new + from / 64 ≡ steps.old + row / 64 + 1) }
    ensures steps_none { IfNone result (steps.new ≡ steps.old + (length words.now - from / 64)) }
{
    let mut at = (from / WORD) as usize;
    let mut low = from % WORD;
    'words: while at < words.len() {
        if let Some(bit) = first_bit(word_at(words, at, steps), low) {
            return Some(at as u32 * WORD + bit);
        }
        low = 0;
        at += 1;
    }
    None
}

// How many bits of the mask are set. It takes one step for each word.
fn count_bits<L: Ledger>(words: &[u64], steps: &mut Steps<L>) -> u64
    requires { length words.now ≤ 2 ^ 26 }
    ensures count { result ≡ count_by (λ bit. bit) (bits_of (64 * length words.now) words.now) }
    ensures steps { steps.new ≡ steps.old + length words.now }
{
    steps.tick_many(words.len() as u64);
    count_ones(words)
}

impl RowSet {
    /// The set of no row, below `rows`. The error is `NoMemory`.
    pub fn none(alloc: Global, rows: u32) -> Result<RowSet, NoMemory>
        ensures { IfOk result (λ set. set ≡ replicate rows false) }
    {
        let words = zero_words(alloc, word_count(rows))?;
        Ok(RowSet::of_words(rows, words))
    }

    // The set of the rows whose bits are set.
    fn of_words(rows: u32, words: Vec<u64>) -> RowSet
        requires len { length words.items ≡ words_for rows }
        requires none_past { (j : ℕ) → rows ≤ j → bit_of words.items j ≡ false }
        ensures { result ≡ bits_of rows words.items }
    {
        RowSet { rows, words }
    }

    /// The set of these rows and of none past them, below `rows`. The error is
    /// `NoMemory`.
    pub fn grown(&self, alloc: Global, rows: u32) -> Result<RowSet, NoMemory>
        requires { length self.now ≤ rows }
        ensures { IfOk result (λ set. set ≡ self.now ++ replicate (rows - length self.now) false) }
    {
        let words = grown_words(alloc, &self.words, word_count(rows))?;
        Ok(RowSet::of_words(rows, words))
    }

    /// The number of rows that the set may hold: its members are ids below it.
    pub fn rows(&self) -> u32
        ensures { result ≡ length self.now }
    {
        self.rows
    }

    /// Puts the row with this id into the set where `member` says so, and else takes it out. It
    /// branches on nothing, so that it is as fast where puts and takings out alternate.
    pub fn put(&mut self, row: u32, member: bool)
        requires { row < length self.old }
        ensures { self.new ≡ slice_set self.old row member }
    {
        put_bit(&mut self.words, row, member);
    }

    /// Puts the row with this id into the set.
    pub fn set(&mut self, row: u32)
        requires { row < length self.old }
        ensures { self.new ≡ slice_set self.old row true }
    {
        self.put(row, true);
    }

    /// Takes the row with this id out of the set.
    pub fn clear(&mut self, row: u32)
        requires { row < length self.old }
        ensures { self.new ≡ slice_set self.old row false }
    {
        self.put(row, false);
    }

    /// Whether the row with this id is in the set. It takes one step.
    pub fn test<L: Ledger>(&self, row: u32, steps: &mut Steps<L>) -> bool
        requires { row < length self.now }
        ensures member { result ≡ is_member self.now row }
        ensures steps { steps.new ≡ steps.old + 1 }
    {
        has_bit(&self.words, row, steps)
    }

    /// Word `i` of the set: its bit k says whether row 64 i + k is in the set, and is 0 past the
    /// rows. It takes one step.
    pub fn word<L: Ledger>(&self, i: u32, steps: &mut Steps<L>) -> u64
        requires { i < words_for (length self.now) }
        ensures value { result ≡ word_of self.now i }
        ensures bits { (k : ℕ) → k < 64 → is_bit result k ≡ is_member self.now (64 * i + k) }
        ensures steps { steps.new ≡ steps.old + 1 }
    {
        word_at(&self.words, i as usize, steps)
    }

    /// Says of all 64 rows of word `i` whether they are in the set: row 64 i + k where bit k is
    /// set.
    pub fn put_word(&mut self, i: u32, bits: u64)
        requires word { i < words_for (length self.old) }
        requires none_past { bits < 2 ^ (length self.old - 64 * i) }
        ensures rows { length self.new ≡ length self.old }
        ensures members { (row : ℕ) → is_member self.new row
            ≡ (if row / 64 == i then is_bit bits (row % 64) else is_member self.old row) }
    {
        put_word(&mut self.words, i as usize, bits);
    }

    /// The least row of the set that is not below `from`; `None` exactly where there is none. It
    /// takes one step for each word that it looks at.
    pub fn next<L: Ledger>(&self, from: u32, steps: &mut Steps<L>) -> Option<u32>
        ensures found { IfSome result (IsNext self.now from) }
        ensures none { IfNone result (IsFree self.now from (length self.now)) }
        ensures steps_found { IfSome result
            (λ row. steps.new + from / 64 ≡ steps.old + row / 64 + 1) }
        ensures steps_none { IfNone result
            (steps.new ≡ steps.old + (words_for (length self.now) - from / 64)) }
    {
        next_bit(&self.words, from, steps)
    }

    /// The number of rows in the set. It takes one step for each word.
    pub fn count<L: Ledger>(&self, steps: &mut Steps<L>) -> u32
        ensures count { result ≡ count_by (λ member. member) self.now }
        ensures steps { steps.new ≡ steps.old + words_for (length self.now) }
    {
        count_bits(&self.words, steps) as u32
    }
}
