//! The fields of a record, lent by their places.
ghost use Rattle.std.specs.Prelude.{◌≡◌, ◌<◌, ◌+◌, ◌^◌, ◌∷◌, [], true, false, None, IfSome, length};
ghost use Rattle.std.specs.Prelude.{drop, slice_get};
ghost use Rattle.std.specs.Option.{option_map};
ghost use Rattle.std.specs.Str.{is_utf8};
ghost use Rattle.csv.specs.Records.{fields_of};

use csv::ByteRecord;
use tl_types::as_text;

/// The field at a place (from 0), where the record has so many.
pub fn field(row: &ByteRecord, place: usize) -> Option<&[u8]>
    ensures value { option_map (λ f. f.now) result ≡ slice_get (fields_of row.now) place }
    ensures counted { IfSome result (λ f. place + 1 < 2 ^ 64) }
{
    row.get(place)
}

/// The same, and the fields from there on.
#[tactic(auto, using(crate::proofs::FaultLemmas::at_places))]
pub fn next_field(row: &ByteRecord, place: usize) -> Option<&[u8]>
    ensures found { IfSome result (λ f.
        drop place (fields_of row.now) ≡ f.now ∷ drop (place + 1) (fields_of row.now)) }
    ensures past { result ≡ None → drop place (fields_of row.now) ≡ [] }
    ensures within { IfSome result (λ f. place < length (fields_of row.now)) }
    ensures counted { IfSome result (λ f. place + 1 < 2 ^ 64) }
{
    match field(row, place) {
        Some(found) => Some(found),
        None => None,
    }
}

/// The text of a field, where the field is UTF-8.
pub fn text_of(field: &[u8]) -> Option<&str>
    ensures text { IfSome result (λ text. text.now ≡ field.now) }
    ensures right { IfSome result (λ text. is_utf8 field.now ≡ true) }
    ensures wrong { result ≡ None → is_utf8 field.now ≡ false }
{
    as_text(field)
}
