//! The records of a block, one after the other, up to the end of its bytes or to the separator
//! behind it. Records of any length are taken; nothing but memory is refused.
ghost use Rattle.std.specs.Prelude.{◌≡◌, ◌∷◌, [], true, false, IfOk, OnOk, Some};
ghost use Rattle.csv.specs.Records.{fields_of};
ghost use Rattle.csv.specs.Reading.{error_kind, NotLengths, strip_bom};
ghost use Rattle.csv.specs.declared.parser.State.TheVariants as st;
ghost use Rattle.tl_csv.specs.Block.{records_of};
ghost use Rattle.tl_csv.specs.BlockRecords.{block_left, IsBlock, KeepsBlock};
ghost use Rattle.tl_csv.specs.Separators.{is_separator, is_quote};
ghost use Rattle.tl_csv.specs.Reading.{records_left, records_on, IsReading};

use crate::byte_order_marks::past_byte_order_marks;
use crate::sources::BlockBytes;
use csv::{ByteRecord, Error, Reader, ReaderBuilder};
use std::alloc::{AllocError, Global};
use tl_types::NoMemory;

/// A reader of the records of bytes, which may be of any length; a byte order mark at the start is
/// left out. It goes into a box where it is made: its buffer and its tables are 16 KB, which each
/// function that holds a reader among its locals would clear at its start.
pub fn reader_of<'a>(
    alloc: Global,
    bytes: BlockBytes<'a>,
) -> Result<Box<Reader<BlockBytes<'a>>>, NoMemory>
    ensures whole { IfOk result (λ reader.
        records_left reader.value ≡ records_on st.StartRecord (Some (strip_bom bytes.entry))) }
    ensures reading { IfOk result (λ reader. IsReading reader.value) }
{
    let reader = ReaderBuilder::new()
        .has_headers(false)
        .flexible(true)
        .from_reader(alloc, bytes);
    Ok(Box::new(alloc, reader)?)
}

// What an error of a reader over bytes means that takes records of any length: out of memory.
fn out_of_memory(_error: Error) -> NoMemory
    requires { NotLengths (error_kind _error) }
{
    AllocError
}

// Reads the next record into `row`, and answers whether there was one.
#[inline(always)]
fn next_record(reader: &mut Reader<BlockBytes<'_>>, row: &mut ByteRecord) -> Result<bool, NoMemory>
    requires { IsReading reader.old }
    ensures found { IfOk result (λ found. found ≡ true →
        records_left reader.old ≡ fields_of row.new ∷ records_left reader.new) }
    ensures ended { IfOk result (λ found. found ≡ false → records_left reader.old ≡ []) }
    ensures reading { IfOk result (λ found. found ≡ true → IsReading reader.new) }
{
    match reader.read_byte_record(row) {
        Ok(found) => Ok(found),
        Err(error) => Err(out_of_memory(error)),
    }
}

// Whether a field is one quote.
fn is_quote(field: &[u8]) -> bool
    ensures { result ≡ is_quote field.now }
{
    match field {
        [byte] => *byte == b'"',
        _ => false,
    }
}

// Whether a record is that of a separator.
#[inline(always)]
fn is_separator(row: &ByteRecord) -> bool
    ensures { result ≡ is_separator (fields_of row.now) }
{
    if row.len() != 1 {
        return false;
    }
    match row.get(0) {
        Some(field) => is_quote(field),
        None => false,
    }
}

/// The records of a block: all those of a reader, or, where it is one of several, those up to the
/// next separator. When it is over, the separator was read.
#[derive(Drop)]
pub struct BlockRecords<'a> {
    /// What they are read from.
    pub reader: Box<Reader<BlockBytes<'a>>>,
    /// A separator is behind the block.
    pub is_one_of_several: bool,
    /// The last record was read, and the separator behind it.
    pub is_over: bool,
}

impl<'a> BlockRecords<'a> {
    /// The records of a block alone, past its byte order marks.
    pub fn alone(alloc: Global, block: &'a [u8]) -> Result<BlockRecords<'a>, NoMemory>
        ensures whole { IfOk result (λ records. block_left records ≡ records_of block.now) }
        ensures block { IfOk result IsBlock }
    {
        let bytes = BlockBytes::of_one(alloc, past_byte_order_marks(block));
        Ok(BlockRecords {
            reader: reader_of(alloc, bytes)?,
            is_one_of_several: false,
            is_over: false,
        })
    }

    // Reads the next record of the reader into `row`, and answers whether it is one of the block.
    #[tactic(auto, unfolding(crate::specs::BlockRecords::block_left))]
    #[inline(never)]
    fn advance(&mut self, row: &mut ByteRecord) -> Result<bool, NoMemory>
        requires block { IsBlock self.old }
        requires more { self.old.is_over ≡ false }
        ensures found { IfOk result (λ found. found ≡ true →
            block_left self.old ≡ fields_of row.new ∷ block_left self.new) }
        ensures ended { IfOk result (λ found. found ≡ false → block_left self.old ≡ []) }
        ensures over { IfOk result (λ found. found ≡ false → self.new.is_over ≡ true) }
        ensures kept { OnOk result (KeepsBlock self.old self.new) }
    {
        let found = next_record(&mut self.reader, row)?;
        if !found || self.is_one_of_several && is_separator(row) {
            self.is_over = true;
            return Ok(false);
        }
        Ok(true)
    }

    /// Reads the next record into `row`, and answers whether there was one.
    #[tactic(auto, unfolding(crate::specs::BlockRecords::block_left))]
    #[inline(always)]
    pub fn next(&mut self, row: &mut ByteRecord) -> Result<bool, NoMemory>
        requires { IsBlock self.old }
        ensures found { IfOk result (λ found. found ≡ true →
            block_left self.old ≡ fields_of row.new ∷ block_left self.new) }
        ensures ended { IfOk result (λ found. found ≡ false → block_left self.old ≡ []) }
        ensures over { IfOk result (λ found. found ≡ false → self.new.is_over ≡ true) }
        ensures kept { OnOk result (KeepsBlock self.old self.new) }
    {
        if self.is_over {
            return Ok(false);
        }
        self.advance(row)
    }

    /// Reads what is left of the block.
    pub fn pass(&mut self, alloc: Global) -> Result<(), NoMemory>
        requires { IsBlock self.old }
        ensures over { OnOk result (self.new.is_over ≡ true) }
        ensures kept { OnOk result (KeepsBlock self.old self.new) }
    {
        if self.is_over {
            return Ok(());
        }
        let mut row = ByteRecord::new(alloc);
        'records: while self.next(&mut row)? {}
        Ok(())
    }
}
