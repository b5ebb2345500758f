//! Numbers for the keys of columns, from 0 on in the order of their first turns. It keeps that
//! different keys have different numbers; there are fewer than 2^32 - 1 of them.
ghost use Rattle.std.specs.Prelude.{◌≡◌, ◌+◌, ◌<◌, ◌≤◌, ◌^◌, Some, None, IfOk, OnOk, OnErr};
ghost use Rattle.tl_store.specs.Reading.{cell_shown};
ghost use Rattle.tl_types.specs.declared.cells.Cell.TheVariants as cell;
ghost use Rattle.tl_keys.specs.Keys.{no_keys, int_number, number_in, AreApart, KeepsNumbers};

use crate::int_keys::IntKeys;
use crate::text_keys::TextKeys;
use std::alloc::Global;
use std::marker::Model;
use tl_store::CellRef;
use tl_types::NoMemory;

/// Numbers for keys, from 0 on, each key's at its first turn. The texts are lent. A contract sees
/// which keys have which number.
#[derive(Drop)]
pub struct Keys<'a> {
    ints: IntKeys,
    texts: TextKeys<'a>,
    count: u32,
}

impl<'a> Model for Keys<'a> {
    ghost use Rattle.tl_keys.specs.Keys.{KeyNumbers};

    ghost Value = { KeyNumbers };

    ghost view = { λ k. record {
      ints = k.ints;
      texts = k.texts;
      count = k.count;
    } };
}

impl<'a> Keys<'a> {
    #[tactic(auto, using(crate::proofs::KeyLemmas::none_apart))]
    /// No key has a number.
    pub fn none(alloc: Global) -> Keys<'a>
        ensures none { result ≡ no_keys }
        ensures apart { AreApart result }
    {
        Keys {
            ints: IntKeys::none(alloc),
            texts: TextKeys::none(alloc),
            count: 0,
        }
    }

    /// How many keys have a number.
    pub fn count(&self) -> u32
        ensures { result ≡ self.now.count }
    {
        self.count
    }

    // The number of a key that is a number and has none yet.
    #[inline(never)]
    fn give_int(&mut self, key: i64) -> Result<u32, NoMemory>
        requires none { int_number self.old.ints key ≡ None }
        requires apart { AreApart self.old }
        requires room { self.old.count + 1 < 2 ^ 32 }
        ensures number { IfOk result (λ n. number_in self.new (cell.Int key) ≡ Some n) }
        ensures apart { OnOk result (AreApart self.new) }
        ensures kept { OnOk result (KeepsNumbers self.old self.new) }
        ensures count { OnOk result (self.new.count ≤ self.old.count + 1) }
        ensures same { IfOk result (λ n. n < self.old.count → self.new ≡ self.old) }
        ensures err { OnErr result (self.new ≡ self.old) }
    {
        let code = self.count;
        self.ints.insert(key, code)?;
        self.count = code + 1;
        Ok(code)
    }

    // The number of a key that is a number.
    #[inline(always)]
    fn number_int(&mut self, key: i64) -> Result<u32, NoMemory>
        requires apart { AreApart self.old }
        requires room { self.old.count + 1 < 2 ^ 32 }
        ensures number { IfOk result (λ n. number_in self.new (cell.Int key) ≡ Some n) }
        ensures apart { OnOk result (AreApart self.new) }
        ensures kept { OnOk result (KeepsNumbers self.old self.new) }
        ensures count { OnOk result (self.new.count ≤ self.old.count + 1) }
        ensures same { IfOk result (λ n. n < self.old.count → self.new ≡ self.old) }
        ensures err { OnErr result (self.new ≡ self.old) }
    {
        if let Some(code) = self.ints.get(key) {
            return Ok(code);
        }
        self.give_int(key)
    }

    // The number of a key that is a text.
    #[inline(never)]
    fn number_text(&mut self, key: &'a str) -> Result<u32, NoMemory>
        requires apart { AreApart self.old }
        requires room { self.old.count + 1 < 2 ^ 32 }
        ensures number { IfOk result (λ n. number_in self.new (cell.Text key.now) ≡ Some n) }
        ensures apart { OnOk result (AreApart self.new) }
        ensures kept { OnOk result (KeepsNumbers self.old self.new) }
        ensures count { OnOk result (self.new.count ≤ self.old.count + 1) }
        ensures same { IfOk result (λ n. n < self.old.count → self.new ≡ self.old) }
        ensures err { OnErr result (self.new ≡ self.old) }
    {
        if let Some(code) = self.texts.get(key) {
            return Ok(code);
        }
        let code = self.count;
        self.texts.insert(key, code)?;
        self.count = code + 1;
        Ok(code)
    }

    /// The number of a key, which it is given here where it has none: then it is as many as had one
    /// before, and else nothing changes. The error is `NoMemory`, and then nothing changes.
    #[inline(always)]
    pub fn number(&mut self, key: CellRef<'a>) -> Result<u32, NoMemory>
        requires apart { AreApart self.old }
        requires room { self.old.count + 1 < 2 ^ 32 }
        ensures number { IfOk result (λ n. number_in self.new (cell_shown key.entry) ≡ Some n) }
        ensures apart { OnOk result (AreApart self.new) }
        ensures kept { OnOk result (KeepsNumbers self.old self.new) }
        ensures count { OnOk result (self.new.count ≤ self.old.count + 1) }
        ensures same { IfOk result (λ n. n < self.old.count → self.new ≡ self.old) }
        ensures err { OnErr result (self.new ≡ self.old) }
    {
        match key {
            CellRef::Int(number) => Ok(self.number_int(number)?),
            CellRef::Text(text) => Ok(self.number_text(text)?),
        }
    }
}
