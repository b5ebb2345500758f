//! The batch of a block: the header first, then row by row. The first fault ends the reading; a
//! batch that is given matches the schema of its table.
ghost use Rattle.std.specs.Prelude.{◌≡◌, ◌≢◌, ◌≤◌, ◌+◌, IfOk, IfErr, OnOk, Ok, Err, [], true};
ghost use Rattle.std.specs.Prelude.{length, map};
ghost use Rattle.csv.specs.Records.{fields_of};
ghost use Rattle.tl_csv.specs.declared.faults.CsvFault.TheVariants as fault;
ghost use Rattle.tl_csv.specs.Faults.{each_from, with_value, then_one, HoldsUnlessMemory, IsUnlessMemory};
ghost use Rattle.tl_types.specs.Facts.{are_distinct, names_of};
ghost use Rattle.tl_csv.specs.Header.{columns_of};
ghost use Rattle.tl_csv.specs.Block.{batch_of, batch_with, key_line, line_of, records_of, rows_of};
ghost use Rattle.tl_csv.specs.Block.{IsBatchFor};
ghost use Rattle.tl_csv.specs.BlockRecords.{block_left, IsBlock, KeepsBlock};

use crate::faults::CsvFault;
use crate::headers::layout_of;
use crate::layouts::Layout;
use crate::needs::BatchKind;
use crate::reading::BlockRecords;
use crate::rows::{Lines, push_row_of};
use csv::ByteRecord;
use std::alloc::Global;
use tl_types::{Batch, Cell, KeyLine, Limits, NoMemory, Opened, Schema, Seq};

// How many bytes of a block are looked at to tell how long its lines are.
const FRONT: usize = 1024;

// The number of lines of some bytes that are not empty.
fn lines_in(bytes: &[u8]) -> usize
    ensures { result ≤ length bytes.now }
{
    let mut lines = 0;
    let mut last = b'\n';
    for byte in bytes {
        if *byte == b'\n' && last != b'\n' {
            lines += 1;
        }
        last = *byte;
    }
    lines
}

// How many lines a block has if all are as long as the first ones. It only says how much room is
// taken ahead.
fn likely_lines(block: &[u8]) -> usize {
    let (front, rest) = block.split_at(block.len().min(FRONT));
    let lines = lines_in(front) + 1;
    let pieces = rest.len().div_ceil(FRONT);
    lines.saturating_add(lines.saturating_mul(pieces))
}

// A list without rows, with room for as many as the block is likely to have lines, and for no more
// than the limit of records, where there is memory for that.
fn room_for(alloc: Global, limits: &Limits, block: &[u8]) -> Seq<Opened>
    requires { limits.now.batch ≤ 1000000 }
    ensures { result ≡ [] }
{
    let lines = likely_lines(block).min(limits.batch as usize);
    match Vec::with_capacity(alloc, lines) {
        Ok(rows) => Seq::from_vec(rows),
        Err(_) => Seq::new(alloc),
    }
}

// Puts the row of the next record behind those of the records between the header and it.
fn push_line(
    alloc: Global,
    limits: &Limits,
    layout: &Layout,
    row: &ByteRecord,
    lines: &mut Lines,
) -> Result<(), CsvFault>
    requires text { limits.now.text ≤ 65535 }
    requires batch { limits.now.batch ≤ 1000000 }
    requires near { length lines.old.rows.items ≤ limits.now.batch }
    ensures line { IsUnlessMemory (with_value lines.new.rows.items result)
        (then_one lines.old.rows.items
        (line_of limits.now layout.now (length lines.old.rows.items) (fields_of row.now))) }
    ensures within { OnOk result (length lines.old.rows.items + 1 ≤ limits.now.batch) }
{
    let before = lines.rows.len();
    let rec = before as u32 + 2;
    if before as u64 >= limits.batch {
        return Err(CsvFault::BatchTooLong { rec });
    }
    push_row_of(alloc, limits, layout, rec, row, lines)
}

// The rows of the records that are left, put into an empty list.
#[tactic(auto, using(crate::proofs::FaultLemmas::behind_steps))]
fn lines_of(
    alloc: Global,
    limits: &Limits,
    layout: &Layout,
    records: &mut BlockRecords<'_>,
    empty: Seq<Opened>,
) -> Result<Seq<Opened>, CsvFault>
    requires text { limits.now.text ≤ 65535 }
    requires batch { limits.now.batch ≤ 1000000 }
    requires block { IsBlock records.old }
    requires empty { empty ≡ [] }
    ensures lines { IsUnlessMemory result
        (each_from (line_of limits.now layout.now) 0 (block_left records.old)) }
    ensures kept { HoldsUnlessMemory result (KeepsBlock records.old records.new) }
{
    let mut row = ByteRecord::new(alloc);
    let mut lines = Lines {
        rows: empty.into_vec(),
        cells: Vec::new(alloc),
    };
    'records: while records.next(&mut row)? {
        push_line(alloc, limits, layout, &row, &mut lines)?;
    }
    Ok(Seq::from_vec(lines.rows))
}

/// The rows of the records of a block, of which the first is the header; the block's bytes only
/// tell how much room is taken ahead.
pub fn rows_of(
    alloc: Global,
    limits: &Limits,
    schema: &Schema,
    kind: BatchKind,
    records: &mut BlockRecords<'_>,
    block: &[u8],
) -> Result<Seq<Opened>, CsvFault>
    requires text { limits.now.text ≤ 65535 }
    requires batch { limits.now.batch ≤ 1000000 }
    requires block { IsBlock records.old }
    ensures rows { IsUnlessMemory result
        (rows_of limits.now schema.now kind (block_left records.old)) }
    ensures some { OnOk result (1 ≤ length (columns_of schema.now kind)) }
    ensures distinct { OnOk result (are_distinct (names_of (columns_of schema.now kind)) ≡ true) }
    ensures kept { HoldsUnlessMemory result (KeepsBlock records.old records.new) }
{
    let mut header = ByteRecord::new(alloc);
    if !records.next(&mut header)? {
        return Err(CsvFault::HeaderMissing { column: 1 });
    }
    let layout = layout_of(alloc, schema, kind, &header)?;
    let room = room_for(alloc, limits, block);
    lines_of(alloc, limits, &layout, records, room)
}

/// The same of a block alone.
pub fn rows_alone(
    alloc: Global,
    limits: &Limits,
    schema: &Schema,
    kind: BatchKind,
    block: &[u8],
) -> Result<Seq<Opened>, CsvFault>
    requires text { limits.now.text ≤ 65535 }
    requires batch { limits.now.batch ≤ 1000000 }
    ensures rows { IsUnlessMemory result
        (rows_of limits.now schema.now kind (records_of block.now)) }
    ensures some { OnOk result (1 ≤ length (columns_of schema.now kind)) }
    ensures distinct { OnOk result (are_distinct (names_of (columns_of schema.now kind)) ≡ true) }
{
    let mut records = BlockRecords::alone(alloc, block)?;
    rows_of(alloc, limits, schema, kind, &mut records, block)
}

fn key_line(row: &Opened) -> Result<KeyLine, NoMemory>
    ensures { IfOk result (λ line. line ≡ key_line row.now) }
{
    match row.cells() {
        [key, ..] => Ok(KeyLine {
            key: key.clone()?,
            period: row.period(),
        }),
        [] => Ok(KeyLine {
            key: Cell::Int(0),
            period: row.period(),
        }),
    }
}

fn key_lines(alloc: Global, rows: &[Opened]) -> Result<Seq<KeyLine>, NoMemory>
    ensures { IfOk result (λ lines. lines ≡ map key_line rows.now) }
{
    let mut lines = Vec::with_capacity(alloc, rows.len())?;
    for row in rows {
        lines.push(key_line(row)?)?;
    }
    Ok(Seq::from_vec(lines))
}

/// The batch that puts these rows into the schema's table, that makes them all of its rows, or that
/// removes the keys which are their first cells. The error is `NoMemory`.
pub fn batch_with(
    alloc: Global,
    schema: &Schema,
    kind: BatchKind,
    rows: Seq<Opened>,
) -> Result<Batch, NoMemory>
    ensures { IfOk result (λ batch. batch ≡ batch_with schema.now kind rows) }
{
    let table = schema.name().clone()?;
    match kind {
        BatchKind::PutKind => Ok(Batch::Put { table, lines: rows }),
        BatchKind::SyncKind => Ok(Batch::Sync { table, lines: rows }),
        BatchKind::RemoveKind => {
            let lines = key_lines(alloc, rows.as_slice())?;
            Ok(Batch::Remove { table, lines })
        }
    }
}

/// The batch of a block, read as rows, as all rows or as removals for the table of this schema, or
/// the block's first fault. The limits are at most the standard ones: up to `limits.batch` records behind the
/// header, and up to `limits.text` bytes of a text.
///
/// The block's records are those that csv's default reader gives, without its byte order marks (EF
/// BB BF, one or several); the first is the header and has number 1. What is needed is all columns
/// of the table for rows and the key for removals, and behind them `valid_from` and `valid_to`
/// where the table has valid time. The header names each needed column once, in any order, and
/// nothing else, and each record has a field for each. The cells of a row stand in the order of the
/// table; a text is taken as it is, and an empty field is the empty text.
///
/// The faults, in their order: of the header `NotUtf8` at its first such field; then field by field
/// `HeaderName` or `HeaderTwice`; then `HeaderMissing` at the first needed field that is not named,
/// and with 1 where there is no record. Then record by record `BatchTooLong` past the limit of
/// records, `FieldCount`, and field by field `NotUtf8`, `NotInt` and `TextTooLong`, and
/// `EmptyPeriod` where `valid_from` is not less than `valid_to`, which may be `FOREVER`. `NoMemory`
/// says that memory ran out.
pub fn read_batch(
    alloc: Global,
    block: &[u8],
    schema: &Schema,
    kind: BatchKind,
    limits: &Limits,
) -> Result<Batch, CsvFault>
    requires text { limits.now.text ≤ 65535 }
    requires batch { limits.now.batch ≤ 1000000 }
    ensures batch { IfOk result (λ batch.
        batch_of limits.now schema.now kind block.now ≡ Ok batch) }
    ensures fault { IfErr result (λ e. e ≢ fault.NoMemory →
        batch_of limits.now schema.now kind block.now ≡ Err e) }
    ensures rows { IfOk result (λ batch. IsBatchFor limits.now schema.now kind batch) }
{
    let rows = rows_alone(alloc, limits, schema, kind, block)?;
    Ok(batch_with(alloc, schema, kind, rows)?)
}
