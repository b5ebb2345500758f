//! One reader for several blocks: each is asked for by its place among them. Those that may stand
//! in one text are read by one reader of CSV, the others each by one of its own.
ghost use Rattle.std.specs.Prelude.{◌≡◌, ◌≢◌, ◌≤◌, ◌+◌, ◌∷◌, List, ℕ, IfOk, IfErr, IfSome, OnOk, Ok, Err, true, drop, length, map};
ghost use Rattle.tl_csv.specs.declared.faults.CsvFault.TheVariants as fault;
ghost use Rattle.tl_csv.specs.Block.{batch_of, records_of, rows_of, IsBatchFor};
ghost use Rattle.tl_csv.specs.BlockRecords.{behind_block, IsBefore, IsBlock, StandsBefore};
ghost use Rattle.tl_csv.specs.Faults.{IsUnlessMemory};
ghost use Rattle.tl_csv.specs.Header.{columns_of};
ghost use Rattle.tl_csv.specs.LentBlocks.{block_at, bytes_of, plain_of};
ghost use Rattle.tl_csv.specs.Separators.{AreOfBlocks, ArePlain};
ghost use Rattle.tl_types.specs.Facts.{are_distinct, names_of};

use crate::batches::{batch_with, rows_alone, rows_of};
use crate::faults::CsvFault;
use crate::lent_blocks::{LentBlock, block_at, is_plain_at, lent_blocks, share_text};
use crate::needs::BatchKind;
use crate::reading::{BlockRecords, reader_of};
use crate::sources::BlockBytes;
use csv::Reader;
use std::alloc::Global;
use std::marker::Model;
use tl_types::{Batch, Limits, NoMemory, Opened, Schema, Seq};

// Goes on to the block behind this one.
fn pass_block(alloc: Global, records: &mut BlockRecords<'_>) -> Result<(), NoMemory>
    requires block { IsBlock records.old }
    requires several { records.old.is_one_of_several ≡ true }
    ensures { OnOk result ((blocks : List (List ℕ)) →
        AreOfBlocks (behind_block records.old) blocks → IsBefore records.new blocks) }
{
    records.pass(alloc)?;
    records.is_over = false;
    Ok(())
}

// Goes on to what is behind the block at a place, which may stand in the text or not.
#[tactic(auto, using(crate::proofs::Lent::first_block_rules))]
fn pass_place(
    alloc: Global,
    records: &mut BlockRecords<'_>,
    blocks: &[LentBlock<'_>],
    place: usize,
) -> Result<(), NoMemory>
    requires { IsBefore records.old (plain_of (drop place blocks.now)) }
    ensures { OnOk result (IsBefore records.new (plain_of (drop (place + 1) blocks.now))) }
{
    if !is_plain_at(blocks, place) {
        return Ok(());
    }
    pass_block(alloc, records)?;
    Ok(())
}

// The records of the block at a place, where a reader stands before those from an earlier one on.
fn records_at<'a>(
    alloc: Global,
    reader: Box<Reader<BlockBytes<'a>>>,
    blocks: &[LentBlock<'a>],
    from: usize,
    place: usize,
) -> Result<BlockRecords<'a>, NoMemory>
    requires stands { StandsBefore reader.value (plain_of (drop from blocks.now)) }
    requires from { from ≤ place }
    ensures { IfOk result (λ records. IsBefore records (plain_of (drop place blocks.now))) }
{
    let mut records = BlockRecords {
        reader,
        is_one_of_several: true,
        is_over: false,
    };
    for at in from..place {
        pass_place(alloc, &mut records, blocks, at)?;
    }
    Ok(records)
}

// A reader of those of the blocks that stand in one text, where they are two or more.
#[tactic(auto, using(crate::proofs::SeparatorLemmas::before_all))]
fn text_reader<'a>(
    alloc: Global,
    blocks: &[LentBlock<'a>],
) -> Result<Option<Box<Reader<BlockBytes<'a>>>>, NoMemory>
    requires { ArePlain (plain_of blocks.now) }
    ensures { IfOk result (λ reader. IfSome reader
        (λ r. StandsBefore r.value (plain_of blocks.now))) }
{
    if !share_text(blocks) {
        return Ok(None);
    }
    let bytes = BlockBytes::of_plain(alloc, blocks)?;
    let reader = reader_of(alloc, bytes)?;
    Ok(Some(reader))
}

/// Reads blocks as batches, each asked for by its place, with one reader for those that can stand
/// in one text: blocks of at most 64 KB without a quote, of which the first byte begins no byte
/// order mark and the last is LF. Any other block, and one whose place is behind that of one that
/// was read, has a reader of its own.
#[derive(Drop)]
pub struct BlockReader<'a> {
    reader: Option<Box<Reader<BlockBytes<'a>>>>,
    blocks: Vec<LentBlock<'a>>,
    next: usize,
}

impl<'a> Model for BlockReader<'a> {
    ghost use Rattle.std.specs.Prelude.{drop, IfSome};
    ghost use Rattle.tl_csv.specs.BlockRecords.{StandsBefore};
    ghost use Rattle.tl_csv.specs.LentBlocks.{BlocksRead, bytes_of, plain_of};

    ghost Value = { BlocksRead };

    ghost view = { λ s. record {
      blocks = bytes_of s.blocks.items;
      to_come = plain_of (drop s.next s.blocks.items);
    } };

    ghost invariant = { λ s. IfSome s.reader
        (λ r. StandsBefore r.value (plain_of (drop s.next s.blocks.items))) };
}

impl<'a> BlockReader<'a> {
    /// A reader for these blocks, best in the order in which they are asked for. The error is
    /// `NoMemory`.
    pub fn over(alloc: Global, blocks: &[&'a [u8]]) -> Result<BlockReader<'a>, NoMemory>
        ensures { IfOk result (λ reader. reader.blocks ≡ map (λ b. b.now) blocks.now) }
    {
        let lent = lent_blocks(alloc, blocks)?;
        let reader = text_reader(alloc, lent.as_slice())?;
        Ok(BlockReader {
            reader,
            blocks: lent,
            next: 0,
        })
    }

    // The bytes of the block at a place.
    fn block(&self, place: usize) -> &'a [u8]
        ensures { result.now ≡ block_at self.now.blocks place }
    {
        block_at(self.blocks.as_slice(), place)
    }

    // The records of the block at a place, where it is one of those to come in the text.
    #[tactic(auto, using(crate::proofs::Lent::first_block_rules))]
    fn take(&mut self, alloc: Global, place: usize) -> Result<Option<BlockRecords<'a>>, NoMemory>
        ensures same { self.new.blocks ≡ self.old.blocks }
        ensures before { IfOk result (λ taken. IfSome taken (λ records.
            IsBefore records (block_at self.old.blocks place ∷ self.new.to_come))) }
    {
        if place < self.next {
            return Ok(None);
        }
        if !is_plain_at(self.blocks.as_slice(), place) {
            return Ok(None);
        }
        let Some(reader) = self.reader.take() else {
            return Ok(None);
        };
        let records = records_at(alloc, reader, self.blocks.as_slice(), self.next, place)?;
        self.next = place + 1;
        Ok(Some(records))
    }

    // Goes on to the block behind the one whose records these are.
    fn put_back(&mut self, alloc: Global, records: BlockRecords<'a>) -> Result<(), NoMemory>
        requires block { IsBlock records }
        requires several { records.is_one_of_several ≡ true }
        requires behind { AreOfBlocks (behind_block records) self.old.to_come }
        ensures { self.new.blocks ≡ self.old.blocks }
    {
        let mut passed = records;
        pass_block(alloc, &mut passed)?;
        self.reader = Some(passed.reader);
        Ok(())
    }

    // The rows of the block at a place.
    #[tactic(auto, using(crate::proofs::Lent::first_block_rules))]
    fn rows_at(
        &mut self,
        alloc: Global,
        place: usize,
        schema: &Schema,
        kind: BatchKind,
        limits: &Limits,
    ) -> Result<Seq<Opened>, CsvFault>
        requires text { limits.now.text ≤ 65535 }
        requires batch { limits.now.batch ≤ 1000000 }
        ensures rows { IsUnlessMemory result
            (rows_of limits.now schema.now kind (records_of (block_at self.old.blocks place))) }
        ensures some { OnOk result (1 ≤ length (columns_of schema.now kind)) }
        ensures distinct { OnOk result
            (are_distinct (names_of (columns_of schema.now kind)) ≡ true) }
        ensures same { self.new.blocks ≡ self.old.blocks }
    {
        let block = self.block(place);
        let Some(records) = self.take(alloc, place)? else {
            return rows_alone(alloc, limits, schema, kind, block);
        };
        let mut first = records;
        match rows_of(alloc, limits, schema, kind, &mut first, block) {
            Ok(rows) => {
                self.put_back(alloc, first)?;
                Ok(rows)
            }
            Err(CsvFault::NoMemory) => Err(CsvFault::NoMemory),
            Err(fault) => {
                self.put_back(alloc, first)?;
                Err(fault)
            }
        }
    }

    /// The batch of the block at a place, or its first fault, as `read_batch` tells it. Where there
    /// is no block, it is one without bytes.
    pub fn read_batch(
        &mut self,
        alloc: Global,
        place: usize,
        schema: &Schema,
        kind: BatchKind,
        limits: &Limits,
    ) -> Result<Batch, CsvFault>
        requires text { limits.now.text ≤ 65535 }
        requires batch { limits.now.batch ≤ 1000000 }
        ensures batch { IfOk result (λ batch.
            batch_of limits.now schema.now kind (block_at self.old.blocks place) ≡ Ok batch) }
        ensures fault { IfErr result (λ e. e ≢ fault.NoMemory →
            batch_of limits.now schema.now kind (block_at self.old.blocks place) ≡ Err e) }
        ensures rows { IfOk result (λ batch. IsBatchFor limits.now schema.now kind batch) }
        ensures same { self.new.blocks ≡ self.old.blocks }
    {
        let rows = self.rows_at(alloc, place, schema, kind, limits)?;
        Ok(batch_with(alloc, schema, kind, rows)?)
    }
}
