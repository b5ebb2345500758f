//! Numbers for keys that are whole numbers: by a table of hashes, and for the least keys by their
//! place in a list. It keeps that both tell one number, and takes no key that has one already.
ghost use Rattle.std.specs.Prelude.{◌≡◌, ℕ, ℤ, suc, ◌+◌, ◌-◌, ◌^◌, ◌<◌, List, [], Some, None, if◌then◌else◌, OnOk, OnErr, IfOk};
ghost use Rattle.std.specs.Ordering.{int_eq};
ghost use Rattle.tl_keys.specs.Keys.{int_number};
ghost use Rattle.tl_keys.specs.Small.{AreSmall};

use std::alloc::Global;
use std::collections::HashMap;
use std::marker::Model;
use tl_types::NoMemory;

/// How many keys, from 0 on, are looked up by their place in a list.
const SMALL: usize = 1024;

/// Numbers for keys that are whole numbers. Those of small keys also stand in a list, each at the
/// place of its key, so that they are found without a hash. A contract sees which keys have which
/// number.
#[derive(Drop)]
pub(crate) struct IntKeys {
    numbers: HashMap<i64, u32>,
    small: Vec<u32>,
}

impl Model for IntKeys {
    ghost use Rattle.std.specs.Prelude.{ℕ, ℤ, List};
    ghost use Rattle.tl_keys.specs.Small.{AreSmall};

    ghost Value = { List (ℤ × ℕ) };

    ghost view = { λ k. k.numbers.entries };

    ghost invariant = { λ k. AreSmall k.small.items k.numbers.entries };
}

// One more than the number of a key in the list of small keys, 0 where it has none there.
#[inline(always)]
fn small_number(small: &[u32], key: i64) -> u32
    ensures { (ints : List (ℤ × ℕ)) (n : ℕ) → AreSmall small.now ints → result ≡ suc n
        → int_number ints key ≡ Some n }
{
    match usize::try_from(key) {
        Ok(place) if place < small.len() => small[place],
        _ => 0,
    }
}

// Puts the number of a key into the list of small keys, where that has a place for it.
fn put_small(small: &mut Vec<u32>, key: i64, number: u32)
    requires { number + 1 < 2 ^ 32 }
    ensures { (ints : List (ℤ × ℕ)) → int_number ints key ≡ Some number
        → AreSmall small.old.items ints → AreSmall small.new.items ints }
{
    match usize::try_from(key) {
        Ok(place) if place < small.len() => small[place] = number + 1,
        _ => {}
    }
}

// A list of so many small keys, of which none has a number.
fn no_small(alloc: Global, count: usize) -> Result<Vec<u32>, NoMemory>
    ensures { IfOk result (λ small. (ints : List (ℤ × ℕ)) → AreSmall small.items ints) }
{
    let small = vec![in alloc; 0; count]?;
    Ok(small)
}

// Whether a key is small.
fn is_small(key: i64) -> bool {
    (0..SMALL as i64).contains(&key)
}

// Makes the list of small keys where there is none and the key is small.
fn make_list(small: &mut Vec<u32>, key: i64) -> Result<(), NoMemory>
    ensures { (ints : List (ℤ × ℕ)) → AreSmall small.old.items ints
        → AreSmall small.new.items ints }
{
    if small.is_empty() && is_small(key) {
        *small = no_small(*small.allocator(), SMALL)?;
    }
    Ok(())
}

impl IntKeys {
    /// No key has a number.
    pub(crate) fn none(alloc: Global) -> IntKeys
        ensures { result ≡ [] }
    {
        IntKeys {
            numbers: HashMap::new(alloc),
            small: Vec::new(alloc),
        }
    }

    // The number of a key, by its hash.
    #[inline(never)]
    fn hashed(&self, key: i64) -> Option<u32>
        ensures { result ≡ int_number self.now key }
    {
        match self.numbers.get(&key) {
            Some(number) => Some(*number),
            None => None,
        }
    }

    /// The number of a key, where it has one.
    #[inline(always)]
    pub(crate) fn get(&self, key: i64) -> Option<u32>
        ensures { result ≡ int_number self.now key }
    {
        let after = small_number(self.small.as_slice(), key);
        if after > 0 {
            return Some(after - 1);
        }
        self.hashed(key)
    }

    /// Gives a number to a key that has none. The error is `NoMemory`, and then nothing changes.
    pub(crate) fn insert(&mut self, key: i64, number: u32) -> Result<(), NoMemory>
        requires none { int_number self.old key ≡ None }
        requires room { number + 1 < 2 ^ 32 }
        ensures err { OnErr result (self.new ≡ self.old) }
        ensures ok { OnOk result ((q : ℤ) → int_number self.new q
            ≡ (if int_eq key q then Some number else int_number self.old q)) }
    {
        make_list(&mut self.small, key)?;
        self.numbers.insert(key, number)?;
        put_small(&mut self.small, key, number);
        Ok(())
    }
}
