//! Names and texts of a record: a length, and bytes in UTF-8. A text that is cut is `Short` where
//! it can still become one, and what is no text or no new name is `Bad`.
ghost use Rattle.std.specs.Prelude.{◌≡◌, ◌≤◌, ◌<◌, ◌++◌, ℕ, true, false, length, replicate, take, slice_index, IsTrue, IfOk, IfSome, IfNone};
ghost use Rattle.std.specs.List.{list_all, list_any};
ghost use Rattle.std.specs.Str.{is_utf8, IsAscii};
ghost use Rattle.tl_types.specs.Names.{continues_word, same_bytes};
ghost use Rattle.tl_types.specs.Facts.{names_of};
ghost use Rattle.tl_record.specs.Reading.{
  Gives,
  Fails,
  block,
  judged,
  is_new_name,
  begins_name,
  name_at,
  goes_on_by,
  begins_text,
  cut_text,
  text_of,
  text_at,
};

use crate::faults::{Fault, ReadError, rare_error};
use crate::numbers;
use std::alloc::Global;
use std::simd::prelude::*;
use tl_types::{Column, NoMemory, Text, as_text, ascii_text, begins_word, continues_word, is_name};

fn all_continue(bytes: &[u8]) -> bool
    ensures { result ≡ list_all continues_word bytes.now }
{
    bytes.iter().all(|byte| continues_word(*byte))
}

#[tactic(auto, unfolding(crate::specs::Reading::begins_name))]
fn begins_name(bytes: &[u8]) -> bool
    ensures { result ≡ begins_name bytes.now }
{
    match bytes {
        [] => true,
        [first, rest @ ..] => begins_word(*first) && all_continue(rest),
    }
}

fn has_name(columns: &[Column], name: &str) -> bool
    ensures { result ≡ list_any (λ c. same_bytes c name.now) (names_of columns.now) }
{
    match columns {
        [] => false,
        [first, rest @ ..] => first.name.as_str() == name || has_name(rest, name),
    }
}

#[tactic(auto, unfolding(crate::specs::Reading::is_new_name))]
fn is_new_name(columns: &[Column], name: &str) -> bool
    ensures { result ≡ is_new_name columns.now name.now }
{
    is_name(name) && !has_name(columns, name)
}

#[tactic(auto, using(crate::proofs::Letters::new_names))]
fn whole_name<'a>(
    alloc: Global,
    columns: &[Column],
    front: &[u8],
    rest: &'a [u8],
) -> Result<(Text, &'a [u8]), ReadError>
    ensures { Gives (λ x. (x.0, x.1.now)) result
        (judged (is_new_name columns.now front.now) front.now rest.now) }
{
    let Ok(name) = str::from_utf8(front) else {
        return Err(ReadError::Fault(Fault::Bad));
    };
    if !is_new_name(columns, name) {
        return Err(ReadError::Fault(Fault::Bad));
    }
    Ok((Text::new(alloc, name)?, rest))
}

fn name_of<'a>(
    alloc: Global,
    columns: &[Column],
    count: usize,
    bytes: &'a [u8],
) -> Result<(Text, &'a [u8]), ReadError>
    ensures { Gives (λ x. (x.0, x.1.now)) result
        (block (is_new_name columns.now) begins_name count bytes.now) }
{
    if count <= bytes.len() {
        let (front, rest) = bytes.split_at(count);
        return whole_name(alloc, columns, front, rest);
    }
    if begins_name(bytes) {
        Err(ReadError::Fault(Fault::Short))
    } else {
        Err(ReadError::Fault(Fault::Bad))
    }
}

/// A name that none of the columns has, behind its length, and what follows it.
#[tactic(auto, unfolding(crate::specs::Reading::name_at))]
pub fn name<'a>(
    alloc: Global,
    columns: &[Column],
    bytes: &'a [u8],
) -> Result<(Text, &'a [u8]), ReadError>
    ensures { Gives (λ x. (x.0, x.1.now)) result (name_at columns.now bytes.now) }
{
    let (count, rest) = numbers::byte(1, 64, bytes)?;
    let (name, rest) = name_of(alloc, columns, count as usize, rest)?;
    Ok((name, rest))
}

#[tactic(auto, using(crate::proofs::Letters::utf8_yes, crate::proofs::Letters::utf8_no))]
fn is_text(bytes: &[u8]) -> bool
    ensures { result ≡ is_utf8 bytes.now }
{
    match str::from_utf8(bytes) {
        Ok(_) => true,
        Err(_) => false,
    }
}

fn is_filled_text(alloc: Global, bytes: &[u8], more: usize, fill: u8) -> Result<bool, NoMemory>
    requires { more ≤ 3 }
    ensures { IfOk result (λ t. t ≡ is_utf8 (bytes.now ++ replicate more fill)) }
{
    let mut filled = Vec::from_slice(alloc, bytes)?;
    filled.resize(bytes.len() + more, fill)?;
    Ok(is_text(&filled))
}

fn goes_on_by(alloc: Global, count: usize, bytes: &[u8], more: usize) -> Result<bool, NoMemory>
    requires { more ≤ 3 }
    ensures { IfOk result (λ t. t ≡ goes_on_by count bytes.now more) }
{
    if bytes.len() + more > count {
        return Ok(false);
    }
    let with_least = is_filled_text(alloc, bytes, more, 128)?;
    let with_greatest = is_filled_text(alloc, bytes, more, 191)?;
    Ok(with_least || with_greatest)
}

#[tactic(auto, unfolding(crate::specs::Reading::begins_text))]
fn begins_text(alloc: Global, count: usize, bytes: &[u8]) -> Result<bool, NoMemory>
    ensures { IfOk result (λ t. t ≡ begins_text count bytes.now) }
{
    let by_none = goes_on_by(alloc, count, bytes, 0)?;
    let by_one = goes_on_by(alloc, count, bytes, 1)?;
    let by_two = goes_on_by(alloc, count, bytes, 2)?;
    let by_three = goes_on_by(alloc, count, bytes, 3)?;
    Ok(by_none || by_one || by_two || by_three)
}

// Whether the first eight bytes are ASCII, by lanes.
#[inline(always)]
fn begins_as_ascii(bytes: &[u8]) -> bool
    requires { 8 ≤ length bytes.now }
    ensures { IsTrue result → (k : ℕ) → k < 8 → slice_index bytes.now k < 128 }
{
    let lanes = u8x8::from_slice(bytes);
    lanes.simd_ge(u8x8::splat(128)).to_bitmask() == 0
}

// Whether so few bytes in front are ASCII, as is seen at once where those behind them are too.
#[tactic(auto, using(crate::proofs::Letters::few_ascii))]
#[inline(always)]
fn are_few_ascii(count: usize, bytes: &[u8]) -> bool
    ensures { IsTrue result → IsAscii (take count bytes.now) }
{
    if count > 8 {
        return false;
    }
    if bytes.len() < 8 {
        return false;
    }
    begins_as_ascii(bytes)
}

// The bytes in front as a text, where they are UTF-8.
#[inline(never)]
fn longer_text(front: &[u8]) -> Option<&str>
    ensures some { IfSome result (λ text. (text.now ≡ front.now) × (is_utf8 front.now ≡ true)) }
    ensures none { IfNone result (is_utf8 front.now ≡ false) }
{
    as_text(front)
}

// The same, of so many bytes in front of others.
#[inline(always)]
fn front_text<'a>(count: usize, bytes: &[u8], front: &'a [u8]) -> Option<&'a str>
    requires { front.now ≡ take count bytes.now }
    ensures some { IfSome result (λ text. (text.now ≡ front.now) × (is_utf8 front.now ≡ true)) }
    ensures none { IfNone result (is_utf8 front.now ≡ false) }
{
    let few_ascii = are_few_ascii(count, bytes);
    if few_ascii {
        return Some(ascii_text(front));
    }
    longer_text(front)
}

// A text of the bytes in front, so many of all, where they are UTF-8, and the rest.
#[inline(always)]
fn whole_text<'a>(
    alloc: Global,
    count: usize,
    bytes: &[u8],
    front: &[u8],
    rest: &'a [u8],
) -> Result<(Text, &'a [u8]), ReadError>
    requires short { length front.now ≤ 65535 }
    requires front { front.now ≡ take count bytes.now }
    ensures { Gives (λ x. (x.0, x.1.now)) result (judged (is_utf8 front.now) front.now rest.now) }
{
    let Some(text) = front_text(count, bytes, front) else {
        return Err(rare_error(ReadError::Fault(Fault::Bad)));
    };
    match Text::new(alloc, text) {
        Ok(text) => Ok((text, rest)),
        Err(_) => Err(rare_error(ReadError::Memory)),
    }
}

// Why no text of `count` bytes is read, where the bytes are fewer.
#[cold]
#[inline(never)]
fn cut_text(alloc: Global, count: usize, bytes: &[u8]) -> ReadError
    ensures { Fails result (cut_text (begins_text count bytes.now)) }
{
    match begins_text(alloc, count, bytes) {
        Ok(true) => ReadError::Fault(Fault::Short),
        Ok(false) => ReadError::Fault(Fault::Bad),
        Err(_) => ReadError::Memory,
    }
}

#[tactic(auto, unfolding(crate::specs::Reading::text_of))]
#[inline(always)]
fn text_of(alloc: Global, count: usize, bytes: &[u8]) -> Result<(Text, &[u8]), ReadError>
    requires { count ≤ 65535 }
    ensures { Gives (λ x. (x.0, x.1.now)) result (text_of count bytes.now) }
{
    if count <= bytes.len() {
        let (front, rest) = bytes.split_at(count);
        return whole_text(alloc, count, bytes, front, rest);
    }
    Err(cut_text(alloc, count, bytes))
}

/// A text behind its length, and what follows it.
#[tactic(auto, unfolding(crate::specs::Reading::text_at))]
#[inline(always)]
pub fn text(alloc: Global, bytes: &[u8]) -> Result<(Text, &[u8]), ReadError>
    ensures { Gives (λ x. (x.0, x.1.now)) result (text_at bytes.now) }
{
    match numbers::short_number(bytes) {
        Ok((count, rest)) => text_of(alloc, count as usize, rest),
        Err(error) => Err(rare_error(error)),
    }
}
