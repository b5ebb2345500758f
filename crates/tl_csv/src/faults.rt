//! Why a block is no batch: each fault with the number of its record and the place of its field.
ghost use Rattle.std.specs.Prelude.{◌≡◌};
ghost use Rattle.tl_csv.specs.declared.faults.CsvFault.TheVariants.{NoMemory};

use std::alloc::{AllocError, AllocFailed};

/// Why a block is no batch. `rec` is a record's number, and the header has number 1; `column` is,
/// but for `HeaderMissing`, a field's place in its record from 1.
#[derive(Clone, Copy, Debug, PartialEq, Eq)]
pub enum CsvFault {
    /// A field is not UTF-8.
    NotUtf8 {
        /// The record's number, 1 for the header.
        rec: u32,
        /// The field's place in its record, from 1.
        column: u64,
    },
    /// A column that the batch needs is not named in the header, or there is no record and so no
    /// header.
    HeaderMissing {
        /// The column's place, from 1, among all that the batch needs: the columns of the table or
        /// the key alone, and behind them `valid_from` and `valid_to` where the table has valid
        /// time. It is 1 where there is no record.
        column: u64,
    },
    /// A field of the header names no column that the batch needs.
    HeaderName {
        /// The field's place in the header, from 1.
        column: u64,
    },
    /// A field of the header names the column that a field before it names.
    HeaderTwice {
        /// The field's place in the header, from 1.
        column: u64,
    },
    /// A record has not as many fields as the header.
    FieldCount {
        /// The record's number: its place behind the header, from 0, plus 2.
        rec: u32,
    },
    /// A field of an INT column, or an end of a period, is not a whole number of 64 bits: an
    /// optional `-` or `+` and one or more digits. At `valid_to` `FOREVER` is none of these faults.
    NotInt {
        /// The record's number: its place behind the header, from 0, plus 2.
        rec: u32,
        /// The field's place in its record, from 1.
        column: u64,
    },
    /// A field of a TEXT column has more bytes than `limits.text`.
    TextTooLong {
        /// The record's number: its place behind the header, from 0, plus 2.
        rec: u32,
        /// The field's place in its record, from 1.
        column: u64,
    },
    /// The `valid_from` of a row or a removal is not less than its `valid_to`.
    EmptyPeriod {
        /// The record's number: its place behind the header, from 0, plus 2.
        rec: u32,
    },
    /// There are more records behind the header than `limits.batch`.
    BatchTooLong {
        /// The number of the first record past the limit, `limits.batch` + 2.
        rec: u32,
    },
    /// Memory ran out.
    NoMemory,
}

impl From<AllocError> for CsvFault {
    ghost from_gives = { λ _ e. e ≡ NoMemory };

    fn from(_error: AllocError) -> CsvFault {
        CsvFault::NoMemory
    }
}

impl<T: Drop> From<AllocFailed<T>> for CsvFault {
    ghost from_gives = { λ _ e. e ≡ NoMemory };

    fn from(_error: AllocFailed<T>) -> CsvFault {
        CsvFault::NoMemory
    }
}
