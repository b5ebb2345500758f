//! Multisets of whole numbers, each number with how often it is there. The least and the greatest
//! are at hand, and a number that is not there cannot be taken out.
ghost use Rattle.std.specs.Prelude.{◌≡◌, ℕ, ◌+◌, ◌-◌, ◌<◌, ℤ, IfOk, IfSome, IfNone, OnOk, OnErr, Some, None, if◌then◌else◌, length, nat_le, slice_get, unwrap_or};
ghost use Rattle.std.specs.BTreeMap.{get, Updates, IsUnchanged, IsFromIterResult};
ghost use Rattle.std.specs.List.{count_by};
ghost use Rattle.std.specs.List.Sorted.{IsSorted};
ghost use Rattle.std.specs.Ordering.{int_cmp, int_eq};
ghost use Rattle.tl_bits.specs.Bags.{times, AddsOne, AreCounts, IsLeast, IsGreatest};

use std::alloc::{AllocError, Global};
use std::collections::BTreeMap;
use std::collections::btree_map::Entry;
use std::marker::Model;
use tl_types::NoMemory;

/// A multiset of whole numbers that tells its least and its greatest. A contract sees it as the
/// list of its values, each with how often it is there.
#[derive(Drop)]
pub struct Bag {
    counts: BTreeMap<i64, u64>,
}

impl Model for Bag {
    ghost use Rattle.std.specs.Prelude.{◌≢◌, ℕ, ℤ, List, Some};
    ghost use Rattle.std.specs.BTreeMap.{get};
    ghost use Rattle.std.specs.Ordering.{int_cmp};

    ghost Value = { List (ℤ × ℕ) };

    ghost view = { λ b. b.counts.entries };

    ghost invariant = { λ b. (v : ℤ) → get int_cmp b.counts v ≢ Some 0 };
}

// Counts the value once more.
fn count_more(counts: &mut BTreeMap<i64, u64>, value: i64) -> Result<(), NoMemory>
    ensures ok { OnOk result (Updates int_cmp counts.old counts.new value
        (Some (unwrap_or (get int_cmp counts.old value) 0 + 1))) }
    ensures err { OnErr result (IsUnchanged counts.old counts.new) }
{
    match counts.entry(value)? {
        Entry::Occupied(mut entry) => {
            let Some(more) = entry.get().checked_add(1) else {
                return Err(AllocError);
            };
            let _ = entry.insert(more); // the count before
        }
        Entry::Vacant(entry) => {
            let _ = entry.insert(1); // the new count, lent
        }
    }
    Ok(())
}

// Counts the value once less, and tells how often it is counted now, which may be 0.
fn lessen(counts: &mut BTreeMap<i64, u64>, value: i64) -> u64
    requires { 0 < unwrap_or (get int_cmp counts.old value) 0 }
    ensures left { result + 1 ≡ unwrap_or (get int_cmp counts.old value) 0 }
    ensures counts { (q : ℤ) → get int_cmp counts.new q
        ≡ (if int_eq value q then Some result else get int_cmp counts.old q) }
{
    let Some(count) = counts.get_mut(&value) else {
        unreachable!()
    };
    *count -= 1;
    *count
}

// Counts the value once less; one that is counted no more has no count.
fn count_less(counts: &mut BTreeMap<i64, u64>, value: i64)
    requires { 0 < unwrap_or (get int_cmp counts.old value) 0 }
    ensures { let count = unwrap_or (get int_cmp counts.old value) 0 in
        let left = (if nat_le count 1 then None else Some (count - 1)) in
        (q : ℤ) → get int_cmp counts.new q
        ≡ (if int_eq value q then left else get int_cmp counts.old q) }
{
    if lessen(counts, value) > 0 {
        return;
    }
    let _ = counts.remove(&value); // the count before
}

// The value that is lent.
fn number(value: &i64) -> i64
    ensures { result ≡ value.now }
{
    *value
}

// The number at a place.
fn number_at(numbers: &[i64], place: usize) -> i64
    requires { place < length numbers.now }
    ensures { slice_get numbers.now place ≡ Some result }
{
    numbers[place]
}

// Each number of an ascending list once, with how often it is there.
fn counted(alloc: Global, numbers: &[i64]) -> Result<Vec<(i64, u64)>, NoMemory>
    requires { IsSorted int_cmp numbers.now }
    ensures { IfOk result (λ counts. AreCounts counts.items numbers.now) }
{
    let mut counts = Vec::new(alloc);
    if numbers.is_empty() {
        return Ok(counts);
    }
    let mut last = number_at(numbers, 0);
    let mut many = 1;
    'numbers: for i in 1..numbers.len() {
        let value = number_at(numbers, i);
        if value == last {
            many += 1;
        } else {
            counts.push((last, many))?;
            last = value;
            many = 1;
        }
    }
    counts.push((last, many))?;
    Ok(counts)
}

// The map of pairs, of which a later one of a value takes the place of an earlier one.
fn map_of(alloc: Global, counts: Vec<(i64, u64)>) -> Result<BTreeMap<i64, u64>, NoMemory>
    ensures { IfOk result (IsFromIterResult int_cmp counts.items) }
{
    let map = counts.into_iter().collect(alloc)?;
    Ok(map)
}

impl Bag {
    /// The bag of no value. It takes no memory.
    pub fn none(alloc: Global) -> Bag
        ensures { (v : ℤ) → times result v ≡ 0 }
    {
        Bag {
            counts: BTreeMap::new(alloc),
        }
    }

    /// The bag of these numbers, which are put in order here, so that it is made in one go. The
    /// error is `NoMemory`.
    pub fn of_numbers(alloc: Global, numbers: Vec<i64>) -> Result<Bag, NoMemory>
        ensures { IfOk result
            (λ bag. (v : ℤ) → times bag v ≡ count_by (int_eq v) numbers.items) }
    {
        let mut numbers = numbers;
        numbers.sort_unstable();
        let counted = counted(alloc, numbers.as_slice())?;
        let counts = map_of(alloc, counted)?;
        Ok(Bag { counts })
    }

    /// Puts the value into the bag, once more where it is there. `NoMemory` comes where
    /// memory ran out, or where the value is there 2^64 - 1 times, and leaves the bag as it was.
    pub fn add(&mut self, value: i64) -> Result<(), NoMemory>
        ensures ok { OnOk result (AddsOne self.old self.new value) }
        ensures err { OnErr result (self.new ≡ self.old) }
    {
        count_more(&mut self.counts, value)
    }

    /// Takes the value out of the bag once.
    pub fn remove(&mut self, value: i64)
        requires { 0 < times self.old value }
        ensures { AddsOne self.new self.old value }
    {
        count_less(&mut self.counts, value);
    }

    /// The least value of the bag; `None` exactly where it has none.
    pub fn least(&self) -> Option<i64>
        ensures least { IfSome result (IsLeast self.now) }
        ensures none { IfNone result ((v : ℤ) → times self.now v ≡ 0) }
    {
        let (value, _) = self.counts.first_key_value()?;
        Some(number(value))
    }

    /// The greatest value of the bag; `None` exactly where it has none.
    pub fn greatest(&self) -> Option<i64>
        ensures greatest { IfSome result (IsGreatest self.now) }
        ensures none { IfNone result ((v : ℤ) → times self.now v ≡ 0) }
    {
        let (value, _) = self.counts.last_key_value()?;
        Some(number(value))
    }
}
