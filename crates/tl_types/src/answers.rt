//! The answer to a query: rows of fields, in the order in which the query asks for them. A field
//! is a number of up to 128 bits, a text, a ratio that is not reduced, empty, or an end of time
//! without end.
use crate::sequences::Seq;
use crate::texts::Text;

/// One field of an answer.
#[derive(Debug, Drop, PartialEq, Eq)]
pub enum Field {
    /// A whole number: an INT cell, a version, a time, a count or a sum.
    Number(i128),
    /// A text: a TEXT cell.
    Text(Text),
    /// A sum over a count, not reduced.
    Ratio {
        /// The sum of the numbers of the rows.
        sum: i128,
        /// How many rows there are, 1 or more.
        count: u32,
    },
    /// The value over no row.
    Empty,
    /// A valid time without end.
    Forever,
}

/// The rows of an answer, in order.
#[derive(Debug, Drop, PartialEq, Eq)]
pub struct Answer {
    /// The rows, each a list of fields.
    pub rows: Seq<Seq<Field>>,
}
