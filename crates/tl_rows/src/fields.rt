//! The fields of rows, lent: a number, a ratio, a text by its bytes, or one of the two that have
//! no value.
ghost use Rattle.std.specs.Prelude.{◌≡◌};
ghost use Rattle.tl_rows.specs.Fields.{field_shown};

use tl_types::Field;

/// One field of a row, lent.
#[derive(Clone, Copy)]
pub enum FieldRef<'a> {
    /// A whole number of 128 bits.
    Number(i128),
    /// A text, as its bytes in UTF-8.
    Text(&'a [u8]),
    /// A sum over a count, not reduced.
    Ratio {
        /// The sum, a whole number of 128 bits.
        sum: i128,
        /// How many numbers were added.
        count: u32,
    },
    /// The value over no row.
    Empty,
    /// A valid time without end.
    Forever,
}

impl<'a> From<&'a Field> for FieldRef<'a> {
    ghost from_gives = { λ field lent. field_shown lent ≡ field.now };

    fn from(field: &'a Field) -> FieldRef<'a> {
        match field {
            Field::Number(number) => FieldRef::Number(*number),
            Field::Text(text) => FieldRef::Text(text.as_bytes()),
            Field::Ratio { sum, count } => FieldRef::Ratio {
                sum: *sum,
                count: *count,
            },
            Field::Empty => FieldRef::Empty,
            Field::Forever => FieldRef::Forever,
        }
    }
}
