//! The records of the journal: the one spelling of each commit as bytes, and back.
//!
//! A record is the commit's author (4 bytes), then 1 and a new table, 2 and a change, 4 and a
//! moment, or 5 and a floor. Numbers are big-endian, signed ones in two's complement:
//!
//! - a new table: its name, 1 where its rows have a valid period, else 0, the number of its columns
//!   (1 byte), the columns, and the place of its key among them (1 byte);
//! - a name: its length (1 byte), and its bytes; a column: its name, and 1 for numbers, 2 for
//!   texts;
//! - a change: the table's number (2 bytes), the number of closed ids (4 bytes) and the ids (4
//!   bytes each), the number of opened rows (4 bytes) and the rows;
//! - a moment: 8 bytes, signed; a floor: the table's number (2 bytes), and the first version that
//!   may still be asked of it (4 bytes);
//! - a row: the number of its cells (1 byte), the cells, and 0, or 1 and both ends of its valid
//!   period (8 bytes each);
//! - a cell: 1 and a number (8 bytes), or 2, a length (2 bytes) and so many bytes of text.
//!
//! `encode` writes a record and `decode` reads one. What `decode` tells is exact: bytes that end
//! too early are told from bytes that no record begins with.
#![tactic(auto)]

mod changes;
mod decoding;
mod encoding;
mod faults;
mod lengths;
mod numbers;
mod placing;
mod rows;
mod tables;
mod texts;

pub use decoding::{Decoded, decode, one_record};
pub use encoding::{encode, encode_with_gate};
pub use faults::RecordFault;
