//! Lists of fields, 16 bytes each, with their texts in one list of bytes and the numbers of more
//! than 64 bits in another. A text of 2^32 bytes or more is refused as `NoMemory`.
ghost use Rattle.std.specs.Prelude.{◌≡◌, ◌-◌, ℕ, List, ◌<◌, ◌≤◌, ◌^◌, ◌++◌, ◌∷◌, [], drop, length, take, IfOk, OnOk, OnErr, Some, slice_get};
ghost use Rattle.tl_rows.specs.Fields.{field_shown};
ghost use Rattle.tl_rows.specs.Packed.{field_in, GoesOn, IsWithin, StandsFor};
ghost use Rattle.tl_rows.specs.declared.packed.Packed.TheVariants as packed;
ghost use Rattle.tl_types.specs.declared.answers.Field.TheVariants as field;

use crate::fields::FieldRef;
use std::alloc::{AllocError, Global};
use std::marker::Model;
use tl_types::NoMemory;

// The bounds of what a packed number holds.
const LEAST_I64: i128 = -9_223_372_036_854_775_808;

const GREATEST_I64: i128 = 9_223_372_036_854_775_807;

// The most bytes that a packed text has.
const LONGEST_TEXT: usize = 4_294_967_295;

// A field in 16 bytes, beside the bytes of all texts and the list of wide numbers.
#[derive(Clone, Copy)]
pub(crate) enum Packed {
    // A number that fits.
    Number(i64),
    // The place of a number among the wide ones.
    Wide(usize),
    // A text: its number of bytes, and where it begins.
    Text { len: u32, start: usize },
    // A ratio's count, and the place of its sum among the wide numbers.
    Ratio { count: u32, place: usize },
    Empty,
    Forever,
}

const _: () = prove!(size_of::<Packed>() == 16);

// Appends a text's bytes. The error is `NoMemory`, and comes for a text longer than LONGEST_TEXT.
fn pack_text(texts: &mut Vec<u8>, text: &[u8]) -> Result<Packed, NoMemory>
    ensures packed { IfOk result (λ p. p ≡ packed.Text (length text.now) (length texts.old.items)) }
    ensures ok { OnOk result (texts.new.items ≡ texts.old.items ++ text.now) }
    ensures err { OnErr result (texts.new.items ≡ texts.old.items) }
{
    let start = texts.len();
    if text.len() > LONGEST_TEXT {
        return Err(AllocError);
    }
    texts.extend_from_slice(text)?;
    Ok(Packed::Text {
        len: text.len() as u32,
        start,
    })
}

// Appends a wide number, and gives its place.
fn keep_wide(wide: &mut Vec<i128>, number: i128) -> Result<usize, NoMemory>
    ensures place { IfOk result (λ place. place ≡ length wide.old.items) }
    ensures ok { OnOk result (wide.new.items ≡ wide.old.items ++ number ∷ []) }
    ensures err { OnErr result (wide.new.items ≡ wide.old.items) }
{
    let place = wide.len();
    wide.push(number)?;
    Ok(place)
}

// Packs a number, which is appended to the wide ones where it does not fit 64 bits.
#[tactic(auto, using(crate::proofs::PackedLemmas::number_stands, crate::proofs::PackedLemmas::wide_stands))]
#[inline(always)]
fn pack_number(wide: &mut Vec<i128>, number: i128) -> Result<Packed, NoMemory>
    ensures packed { IfOk result (λ p. (texts : List ℕ) →
        StandsFor texts wide.new.items p (field.Number number)) }
    ensures wide { GoesOn wide.old.items wide.new.items }
{
    if LEAST_I64 <= number && number <= GREATEST_I64 {
        return Ok(Packed::Number(number as i64));
    }
    let place = keep_wide(wide, number)?;
    Ok(Packed::Wide(place))
}

// Packs a ratio, whose sum is appended to the wide numbers.
fn pack_ratio(wide: &mut Vec<i128>, sum: i128, count: u32) -> Result<Packed, NoMemory>
    ensures packed { IfOk result (λ p. (texts : List ℕ) →
        StandsFor texts wide.new.items p (field.Ratio sum count)) }
    ensures wide { GoesOn wide.old.items wide.new.items }
{
    let place = keep_wide(wide, sum)?;
    Ok(Packed::Ratio { count, place })
}

// Packs a field, whose text or wide number is appended.
#[inline(always)]
fn pack(texts: &mut Vec<u8>, wide: &mut Vec<i128>, field: FieldRef<'_>) -> Result<Packed, NoMemory>
    ensures packed { IfOk result (λ p.
        StandsFor texts.new.items wide.new.items p (field_shown field.entry)) }
    ensures texts { GoesOn texts.old.items texts.new.items }
    ensures wide { GoesOn wide.old.items wide.new.items }
{
    match field {
        FieldRef::Number(number) => {
            let packed = pack_number(wide, number)?;
            Ok(packed)
        }
        FieldRef::Text(text) => {
            let packed = pack_text(texts, text)?;
            Ok(packed)
        }
        FieldRef::Ratio { sum, count } => {
            let packed = pack_ratio(wide, sum, count)?;
            Ok(packed)
        }
        FieldRef::Empty => Ok(Packed::Empty),
        FieldRef::Forever => Ok(Packed::Forever),
    }
}

// The field that a packed one stands for, lent.
fn lend<'a>(packed: Packed, texts: &'a [u8], wide: &[i128]) -> FieldRef<'a>
    requires { IsWithin (length texts.now) (length wide.now) packed }
    ensures { field_shown result ≡ field_in texts.now wide.now packed }
{
    match packed {
        Packed::Number(number) => FieldRef::Number(i128::from(number)),
        Packed::Wide(place) => FieldRef::Number(wide[place]),
        Packed::Text { len, start } => FieldRef::Text(&texts[start..start + len as usize]),
        Packed::Ratio { count, place } => FieldRef::Ratio {
            sum: wide[place],
            count,
        },
        Packed::Empty => FieldRef::Empty,
        Packed::Forever => FieldRef::Forever,
    }
}

// Appends a packed field. A list that is full gets room for three times as many more, since it is
// copied then.
#[inline]
fn push_packed(fields: &mut Vec<Packed>, packed: Packed) -> Result<(), NoMemory>
    ensures ok { OnOk result (fields.new.items ≡ fields.old.items ++ packed ∷ []) }
    ensures err { OnErr result (fields.new.items ≡ fields.old.items) }
{
    if fields.len() == fields.capacity() {
        fields.reserve(fields.len().saturating_mul(3).max(16))?;
    }
    fields.push(packed)?;
    Ok(())
}

// A list of fields. A contract sees it as the list.
#[derive(Drop)]
pub(crate) struct PackedFields {
    fields: Vec<Packed>,
    texts: Vec<u8>,
    wide: Vec<i128>,
}

impl Model for PackedFields {
    ghost use Rattle.std.specs.Prelude.{List, All, length, map};
    ghost use Rattle.tl_types.specs.declared.answers.Field.{Field};
    ghost use Rattle.tl_rows.specs.Packed.{field_in, IsWithin};

    ghost Value = { List Field };

    ghost view = { λ f. map (field_in f.texts.items f.wide.items) f.fields.items };

    ghost invariant = { λ f. All (IsWithin (length f.texts.items) (length f.wide.items))
        f.fields.items };
}

impl PackedFields {
    // The list without fields. It takes no memory.
    pub(crate) fn new(alloc: Global) -> PackedFields
        ensures { result ≡ [] }
    {
        PackedFields {
            fields: Vec::new(alloc),
            texts: Vec::new(alloc),
            wide: Vec::new(alloc),
        }
    }

    // The list without fields, with room for so many.
    pub(crate) fn with_room(alloc: Global, fields: usize) -> Result<PackedFields, NoMemory>
        ensures { IfOk result (λ list. list ≡ []) }
    {
        Ok(PackedFields {
            fields: Vec::with_capacity(alloc, fields)?,
            texts: Vec::new(alloc),
            wide: Vec::new(alloc),
        })
    }

    // The number of fields.
    pub(crate) fn len(&self) -> usize
        ensures number { result ≡ length self.now }
        ensures small { result < 2 ^ 63 }
    {
        self.fields.len()
    }

    // Appends a field.
    #[inline(always)]
    pub(crate) fn push(&mut self, field: FieldRef<'_>) -> Result<(), NoMemory>
        ensures ok { OnOk result (self.new ≡ self.old ++ field_shown field.entry ∷ []) }
        ensures err { OnErr result (self.new ≡ self.old) }
    {
        let packed = pack(&mut self.texts, &mut self.wide, field)?;
        push_packed(&mut self.fields, packed)?;
        Ok(())
    }

    // The fields from one place on and before another, lent.
    pub(crate) fn range(&self, start: usize, end: usize) -> RowFields<'_>
        requires { (start ≤ end) × (end ≤ length self.now) }
        ensures { result ≡ take (end - start) (drop start self.now) }
    {
        RowFields {
            fields: &self.fields[start..end],
            texts: self.texts.as_slice(),
            wide: self.wide.as_slice(),
        }
    }
}

/// The fields of a row, lent. A contract sees them as the list.
#[derive(Drop)]
pub struct RowFields<'a> {
    fields: &'a [Packed],
    texts: &'a [u8],
    wide: &'a [i128],
}

impl<'a> Model for RowFields<'a> {
    ghost use Rattle.std.specs.Prelude.{List, All, length, map};
    ghost use Rattle.tl_types.specs.declared.answers.Field.{Field};
    ghost use Rattle.tl_rows.specs.Packed.{field_in, IsWithin};

    ghost Value = { List Field };

    ghost view = { λ r. map (field_in r.texts.now r.wide.now) r.fields.now };

    ghost invariant = { λ r. All (IsWithin (length r.texts.now) (length r.wide.now)) r.fields.now };
}

// The packed field at a place.
fn packed_at(fields: &[Packed], place: usize) -> Packed
    requires { place < length fields.now }
    ensures { slice_get fields.now place ≡ Some result }
{
    fields[place]
}

impl<'a> RowFields<'a> {
    /// The number of fields.
    pub fn len(&self) -> usize
        ensures { result ≡ length self.now }
    {
        self.fields.len()
    }

    /// A field, lent, by its place.
    pub fn at(&self, place: usize) -> FieldRef<'a>
        requires { place < length self.now }
        ensures { slice_get self.now place ≡ Some (field_shown result) }
    {
        lend(packed_at(self.fields, place), self.texts, self.wide)
    }
}
