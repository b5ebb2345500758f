//! A column of texts: a code for each cell, and a dictionary of the texts that the codes stand
//! for. Hints beside it spare look-ups of texts that come often; a hint is tested before it
//! counts.
ghost use Rattle.std.specs.Prelude.{◌≡◌, ℕ, ◌+◌, ◌-◌, ◌%◌, ◌<◌, ◌≤◌, ◌^◌, ◌++◌, [], Some, false, length, map, take, drop, fold, slice_index_or, IfOk, IfSome, IsNone, ◌↔◌};
ghost use Rattle.tl_lanes.specs.Masks.{word_of, IsWordOf};
ghost use Rattle.tl_column.specs.Masks.{code_for, has_code, is_text};
ghost use Rattle.tl_column.specs.Dictionary.{text_of, contains_text, code_in, with_text, dictionary_of, texts_of, AreCodes, lent_texts, KnowsCodes};

use crate::dictionary::Dictionary;
use crate::masks::items_of_word;
use std::alloc::Global;
use std::collections::HashMap;
use std::marker::Model;
use tl_lanes::compare_word_u32;
use tl_shared::{CHUNK, Shareable, SharedList};
use tl_types::{NoMemory, Text, text_place};

/// A column of texts. Contracts see it as the list of its cells.
///
/// Each distinct text has a code, its number among the distinct texts in the order of first
/// appearance, counted from 0.
#[derive(Drop)]
pub struct TextColumn {
    codes: SharedList<u32>,
    dictionary: Dictionary,
    hints: Vec<u32>,
}

impl Model for TextColumn {
    ghost use Rattle.std.specs.Prelude.{List, ℕ};
    ghost use Rattle.tl_lanes.specs.Masks.{word_of, IsWordOf};
    ghost use Rattle.tl_column.specs.Masks.{code_for, has_code, is_text};
    ghost use Rattle.tl_column.specs.Dictionary.{texts_of, IsCoded};

    ghost Value = { List (List ℕ) };

    ghost view = { λ c. texts_of c.dictionary c.codes };

    ghost invariant = { λ c. IsCoded c.dictionary c.codes };
}

impl TextColumn {
    /// The column of no cells. `alloc` is the memory that it will take, none as yet.
    pub fn none(alloc: Global) -> TextColumn
        ensures { result ≡ [] }
    {
        TextColumn {
            codes: SharedList::none(alloc),
            dictionary: Dictionary::none(alloc),
            hints: Vec::new(alloc),
        }
    }

    /// The number of cells, one a row.
    pub fn len(&self) -> u64
        ensures { result ≡ length self.now }
    {
        self.codes.len()
    }

    /// The column followed by `cells`. It shares with this one, which stays as it was. The error is
    /// `NoMemory`.
    pub fn push_all(&self, alloc: Global, cells: &[Text]) -> Result<TextColumn, NoMemory>
        requires { length self.now + length cells.now < 2 ^ 32 }
        ensures { IfOk result (λ column. column ≡ self.now ++ cells.now) }
    {
        let mut lent = Vec::with_capacity(alloc, cells.len())?;
        for cell in cells {
            lent.push(cell)?;
        }
        self.push_lent(alloc, lent.as_slice())
    }

    /// The column followed by cells that are lent. It shares with this one, which stays as it
    /// was, and takes copies of those texts alone that are new in it. The error is `NoMemory`.
    pub fn push_lent(&self, alloc: Global, cells: &[&Text]) -> Result<TextColumn, NoMemory>
        requires { length self.now + length cells.now < 2 ^ 32 }
        ensures { IfOk result (λ column. column ≡ self.now ++ lent_texts cells.now) }
    {
        self.share(alloc)?.append_lent(alloc, cells)
    }

    /// The column followed by cells that are lent, which takes this one over: what has no other
    /// owner is not copied. It takes copies of those texts alone that are new in it. The error is
    /// `NoMemory`.
    pub fn append_lent(self, alloc: Global, cells: &[&Text]) -> Result<TextColumn, NoMemory>
        requires { length self + length cells.now < 2 ^ 32 }
        ensures { IfOk result (λ column. column ≡ self ++ lent_texts cells.now) }
    {
        let TextColumn {
            codes,
            dictionary,
            mut hints,
        } = self;
        make_hints(&mut hints)?;
        let (dictionary, more) = coded(alloc, dictionary, cells, &mut hints)?;
        Ok(TextColumn {
            codes: codes.append(alloc, more.as_slice())?,
            dictionary: dictionary.settle(alloc)?,
            hints,
        })
    }

    /// The cell of row `row`, counted from 0.
    pub fn at(&self, row: u32) -> &str
        requires { row < length self.now }
        ensures cell { result.now ≡ slice_index_or self.now row [] }
        ensures short { length result.now ≤ 65535 }
    {
        self.dictionary.text(*self.codes.at(row as u64))
    }

    /// The code of a text, none where no cell is the text.
    pub fn code_of(&self, text: &str) -> Option<u32>
        ensures code { result ≡ code_in (dictionary_of self.now) text.now }
        ensures text { IfSome result (λ code. text_of (dictionary_of self.now) code ≡ text.now) }
        ensures absent { IsNone result ↔ (contains_text self.now text.now ≡ false) }
    {
        self.dictionary.code(text)
    }

    /// The code of a text, and where no cell is the text a number that is no text's code.
    pub fn code_for(&self, text: &str) -> u32
        ensures { result ≡ code_for (dictionary_of self.now) text.now }
    {
        match self.dictionary.code(text) {
            Some(code) => code,
            None => self.dictionary.len(),
        }
    }

    /// Word `i` of the mask of the cells whose code is this one, where `equal`, or else of those
    /// whose code is another: bit j tells of row 64 i + j. Bits past the rows are 0.
    pub fn mask_word_of(&self, i: u32, equal: bool, code: u32) -> u64
        ensures word { result
            ≡ word_of (map (has_code equal (dictionary_of self.now) code) self.now) i }
        ensures bits { IsWordOf (map (has_code equal (dictionary_of self.now) code) self.now) i
            result }
    {
        compare_word_u32(items_of_word(&self.codes, i), equal, code)
    }

    /// Word `i` of the mask of the cells that are the text, where `equal`, or else of those that
    /// are not: bit j tells of row 64 i + j. Bits past the rows are 0.
    pub fn mask_word(&self, i: u32, equal: bool, text: &str) -> u64
        ensures word { result ≡ word_of (map (is_text equal text.now) self.now) i }
        ensures bits { IsWordOf (map (is_text equal text.now) self.now) i result }
    {
        compare_word_u32(items_of_word(&self.codes, i), equal, self.code_for(text))
    }

    /// The codes of the cells from row `row` on, counted from 0, as far as they stand in one piece:
    /// at least one, and up to the next row whose number 1,024 divides.
    pub fn codes_from(&self, row: u32) -> &[u32]
        requires { row < length self.now }
        ensures codes { result.now
            ≡ take (CHUNK - row % CHUNK)
            (drop row (map (code_for (dictionary_of self.now)) self.now)) }
        ensures some { 0 < length result.now }
    {
        self.codes.chunk_from(row as u64)
    }

    /// The code of the cell of row `row`, counted from 0.
    pub fn code_at(&self, row: u32) -> u32
        requires { row < length self.now }
        ensures code { Some result
            ≡ code_in (dictionary_of self.now) (slice_index_or self.now row []) }
        ensures text { text_of (dictionary_of self.now) result ≡ slice_index_or self.now row [] }
        ensures valid { result < length (dictionary_of self.now) }
    {
        *self.codes.at(row as u64)
    }

    /// The text that a code stands for.
    pub fn text_of(&self, code: u32) -> &str
        requires { code < length (dictionary_of self.now) }
        ensures text { result.now ≡ text_of (dictionary_of self.now) code }
        ensures code { code_in (dictionary_of self.now) result.now ≡ Some code }
        ensures short { length result.now ≤ 65535 }
    {
        self.dictionary.text(code)
    }
}

impl Shareable for TextColumn {
    fn share(&self, alloc: Global) -> Result<TextColumn, NoMemory> {
        Ok(TextColumn {
            codes: self.codes.share(alloc)?,
            dictionary: self.dictionary.share(alloc)?,
            hints: self.hints.clone()?,
        })
    }
}

// How many places there are for codes that are found without a look-up.
const PLACES: usize = 512;

// How many numbers of 32 bits share a place.
const SHARE: usize = 8388608;

// Makes the places where there are none. What stands there is tested before it is used, so any
// codes are right, here and in `put_hint`.
fn make_hints(hints: &mut Vec<u32>) -> Result<(), NoMemory> {
    if hints.is_empty() {
        *hints = vec![in *hints.allocator(); 0; PLACES]?;
    }
    Ok(())
}

// The code at the place of a text, where it is the code of the text.
fn hinted_code(dictionary: &Dictionary, hints: &[u32], text: &str) -> Option<u32>
    requires { length dictionary.now < 2 ^ 32 }
    ensures valid { IfSome result (λ code. code < length dictionary.now) }
    ensures text { IfSome result (λ code. text_of dictionary.now code ≡ text.now) }
{
    let code = match hints.get(text_place(text) as usize / SHARE) {
        Some(code) => *code,
        None => return None,
    };
    if code < dictionary.len() && dictionary.text(code) == text {
        return Some(code);
    }
    None
}

// Puts a code at the place of its text.
fn put_hint(hints: &mut Vec<u32>, text: &str, code: u32) {
    let place = text_place(text) as usize / SHARE;
    if place < hints.len() {
        hints[place] = code;
    }
}

// The code of a text, and the dictionary with it, where some texts of it were looked up already.
fn looked_up<'a>(
    alloc: Global,
    dictionary: Dictionary,
    known: &mut HashMap<&'a str, u32>,
    text: &'a Text,
) -> Result<(Dictionary, u32), NoMemory>
    requires few { length dictionary < 2 ^ 32 }
    requires known { KnowsCodes dictionary known.old }
    ensures texts { IfOk result (λ found. found.0 ≡ with_text dictionary text.now) }
    ensures valid { IfOk result (λ found. found.1 < length found.0) }
    ensures code { IfOk result (λ found. text_of found.0 found.1 ≡ text.now) }
    ensures known { IfOk result (λ found. KnowsCodes found.0 known.new) }
{
    if let Some(code) = known.get(text.as_str()) {
        return Ok((dictionary, *code));
    }
    let (dictionary, code) = dictionary.with(alloc, text)?;
    known.insert(text.as_str(), code)?;
    Ok((dictionary, code))
}

// The code of a text, by its hint or else looked up, and the dictionary with it.
fn coded_text<'a>(
    alloc: Global,
    dictionary: Dictionary,
    hints: &mut Vec<u32>,
    known: &mut HashMap<&'a str, u32>,
    text: &'a Text,
) -> Result<(Dictionary, u32), NoMemory>
    requires few { length dictionary < 2 ^ 32 }
    requires known { KnowsCodes dictionary known.old }
    ensures texts { IfOk result (λ found. found.0 ≡ with_text dictionary text.now) }
    ensures valid { IfOk result (λ found. found.1 < length found.0) }
    ensures code { IfOk result (λ found. text_of found.0 found.1 ≡ text.now) }
    ensures known { IfOk result (λ found. KnowsCodes found.0 known.new) }
{
    if let Some(code) = hinted_code(&dictionary, hints, text.as_str()) {
        return Ok((dictionary, code));
    }
    let (dictionary, code) = looked_up(alloc, dictionary, known, text)?;
    put_hint(hints, text.as_str(), code);
    Ok((dictionary, code))
}

// The dictionary with the texts of some cells, and the code of each cell. A text whose code stands
// at its place is not looked up; another one is looked up in the dictionary at most once.
fn coded(
    alloc: Global,
    dictionary: Dictionary,
    cells: &[&Text],
    hints: &mut Vec<u32>,
) -> Result<(Dictionary, Vec<u32>), NoMemory>
    requires { length dictionary + length cells.now < 2 ^ 32 }
    ensures dictionary { IfOk result
        (λ pair. pair.0 ≡ fold with_text dictionary (lent_texts cells.now)) }
    ensures cells { IfOk result (λ pair. texts_of pair.0 pair.1.items ≡ lent_texts cells.now) }
    ensures valid { IfOk result (λ pair. AreCodes pair.0 pair.1.items) }
{
    let mut dictionary = dictionary;
    let mut known = HashMap::new(alloc);
    let mut codes = Vec::with_capacity(alloc, cells.len())?;
    'coding: for cell in cells {
        let (next, code) = coded_text(alloc, dictionary, hints, &mut known, cell)?;
        dictionary = next;
        codes.push(code)?;
    }
    Ok((dictionary, codes))
}
