//! Numbers for keys that are texts, which are lent and compared byte by byte. It takes no key that
//! has a number already.
ghost use Rattle.std.specs.Prelude.{◌≡◌, ℕ, List, [], Some, None, if◌then◌else◌, OnOk, OnErr, IfOk, IfSome};
ghost use Rattle.std.specs.Borrow.{Bor};
ghost use Rattle.tl_types.specs.Names.{same_bytes};
ghost use Rattle.tl_keys.specs.Keys.{text_number};
ghost use Rattle.tl_keys.specs.Placed.{HasNumber, ArePlaced};

use std::alloc::Global;
use std::collections::HashMap;
use std::marker::Model;
use tl_types::{NoMemory, text_place};

// How many places there are for texts that are found without a hash.
const PLACES: usize = 1024;

// How many numbers of 32 bits share a place.
const SHARE: usize = 4194304;

// A text with its number.
#[derive(Clone, Copy)]
pub(crate) struct Placed<'a> {
    text: &'a str,
    number: u32,
}

/// Numbers for keys that are texts, which are lent. Some bytes of a text tell a place, and the last
/// of the texts at a place that got a number also stands there, so that it is found without a hash.
/// A contract sees which keys have which number.
#[derive(Drop)]
pub(crate) struct TextKeys<'a> {
    numbers: HashMap<&'a str, u32>,
    placed: Vec<Placed<'a>>,
}

impl<'a> Model for TextKeys<'a> {
    ghost use Rattle.std.specs.Prelude.{ℕ, List};
    ghost use Rattle.std.specs.Borrow.{Bor};
    ghost use Rattle.tl_keys.specs.Placed.{ArePlaced};

    ghost Value = { List (Bor (List ℕ) × ℕ) };

    ghost view = { λ k. k.numbers.entries };

    ghost invariant = { λ k. ArePlaced k.placed.items k.numbers.entries };
}

// The number of the text at a place, where it is the key.
fn placed_number(placed: &[Placed<'_>], key: &str) -> Option<u32>
    ensures { (texts : List (Bor (List ℕ) × ℕ)) → ArePlaced placed.now texts
        → IfSome result (λ n. text_number texts key.now ≡ Some n) }
{
    match placed.get(text_place(key) as usize / SHARE) {
        Some(there) if there.text == key => Some(there.number),
        _ => None,
    }
}

// So many places with the same text.
fn all_placed<'a>(
    alloc: Global,
    there: Placed<'a>,
    count: usize,
) -> Result<Vec<Placed<'a>>, NoMemory>
    ensures { IfOk result (λ placed. (texts : List (Bor (List ℕ) × ℕ))
        → HasNumber texts there.entry → ArePlaced placed.items texts) }
{
    let placed = vec![in alloc; there; count]?;
    Ok(placed)
}

// Puts a text at its place. Where there are no places yet they are made, and it is put at each;
// where there is no memory for them, texts are found by their hash alone.
fn put_placed<'a>(placed: &mut Vec<Placed<'a>>, there: Placed<'a>)
    ensures { (texts : List (Bor (List ℕ) × ℕ)) → HasNumber texts there.entry
        → ArePlaced placed.old.items texts → ArePlaced placed.new.items texts }
{
    if placed.is_empty() {
        if let Ok(all) = all_placed(*placed.allocator(), there, PLACES) {
            *placed = all;
        }
        return;
    }
    let place = text_place(there.text) as usize / SHARE;
    if place < placed.len() {
        placed[place] = there;
    }
}

impl<'a> TextKeys<'a> {
    /// No key has a number.
    pub(crate) fn none(alloc: Global) -> TextKeys<'a>
        ensures { result ≡ [] }
    {
        TextKeys {
            numbers: HashMap::new(alloc),
            placed: Vec::new(alloc),
        }
    }

    /// The number of a key, where it has one.
    pub(crate) fn get(&self, key: &str) -> Option<u32>
        ensures { result ≡ text_number self.now key.now }
    {
        if let Some(number) = placed_number(self.placed.as_slice(), key) {
            return Some(number);
        }
        match self.numbers.get(key) {
            Some(number) => Some(*number),
            None => None,
        }
    }

    /// Gives a number to a key that has none. The error is `NoMemory`, and then nothing changes.
    pub(crate) fn insert(&mut self, key: &'a str, number: u32) -> Result<(), NoMemory>
        requires { text_number self.old key.now ≡ None }
        ensures err { OnErr result (self.new ≡ self.old) }
        ensures ok { OnOk result ((q : List ℕ) → text_number self.new q
            ≡ (if same_bytes key.now q then Some number else text_number self.old q)) }
    {
        self.numbers.insert(key, number)?;
        put_placed(&mut self.placed, Placed { text: key, number });
        Ok(())
    }
}
