//! What a statement is answered with, and how the answer is spelled: a line with the session's name
//! and a version, behind which a query's rows come as CSV.
ghost use Rattle.std.specs.Prelude.{◌≡◌, ◌++◌, IfOk, OnOk};
ghost use Rattle.std.specs.String.{string_bytes};
ghost use Rattle.tl_jobs.specs.Replies.{text_fault_words, check_fault_words, csv_fault_words, batch_fault_words, refusal_words, version_words, reply_bytes};

use std::alloc::Global;
use tl_csv::CsvFault;
use tl_query::{CheckFault, TextFault};
use tl_types::{BatchFault, Bytes, NoMemory};

/// Why a statement is refused.
#[derive(Clone, Copy, Debug, PartialEq, Eq)]
pub enum Refusal {
    /// Its text spells no statement.
    TextFault(TextFault),
    /// It does not fit the tables.
    CheckFault(CheckFault),
    /// Its block is no batch for its table.
    CsvFault(CsvFault),
    /// Its batch becomes no commit.
    BatchFault(BatchFault),
}

/// The rows that answer a query, as CSV.
#[derive(Drop)]
pub struct AnswerText {
    /// The number of rows.
    pub rows: usize,
    /// The bytes of all rows, one behind the other.
    pub bytes: Bytes,
}

/// What a statement is answered with.
#[derive(Drop)]
pub enum ReplyBody {
    /// The rows of a query.
    Rows(AnswerText),
    /// A commit was made.
    Done,
    /// The statement is refused, and nothing has changed.
    Refused(Refusal),
    /// The disk failed when the commit was appended to the journal, which it broke.
    DeviceFault,
    /// The journal was broken before: no commit is made any more.
    BrokenJournal,
}

/// A reply, the line of the statement that it answers, and the version that it names.
#[derive(Drop)]
pub struct Reply {
    /// The number of the statement's line, from 1.
    pub line: u64,
    /// The version, a number of commits: with its own one where a batch is done, and else of those
    /// over which the statement is answered.
    pub version: u32,
    /// What the statement is answered with.
    pub body: ReplyBody,
}

fn text_fault_words(alloc: Global, fault: &TextFault) -> Result<String, NoMemory>
    ensures { IfOk result (λ text. string_bytes text ≡ text_fault_words fault.now) }
{
    match fault {
        TextFault::BadByte { at } => format!(in alloc; "BadByte {at}"),
        TextFault::OpenText { at } => format!(in alloc; "OpenText {at}"),
        TextFault::NumberTooLarge { at } => format!(in alloc; "NumberTooLarge {at}"),
        TextFault::Unexpected { at } => format!(in alloc; "Unexpected {at}"),
        TextFault::QueryTooLong => String::from_str(alloc, "QueryTooLong"),
        TextFault::NoMemory => Ok(String::new(alloc)),
    }
}

// The words of a fault of a query or of a new table.
fn check_fault_words(alloc: Global, fault: &CheckFault) -> Result<String, NoMemory>
    ensures { IfOk result (λ text. string_bytes text ≡ check_fault_words fault.now) }
{
    match fault {
        CheckFault::UnknownTable { at } => format!(in alloc; "UnknownTable {at}"),
        CheckFault::UnknownColumn { at } => format!(in alloc; "UnknownColumn {at}"),
        CheckFault::WrongType { at } => format!(in alloc; "WrongType {at}"),
        CheckFault::NotValidTable { at } => format!(in alloc; "NotValidTable {at}"),
        CheckFault::VersionAhead { at, asked, now } => format!(in alloc;
            "VersionAhead {at} {asked} {now}"
        ),
        CheckFault::EmptyRange { at } => format!(in alloc; "EmptyRange {at}"),
        CheckFault::ColumnTwice { at } => format!(in alloc; "ColumnTwice {at}"),
        CheckFault::NoMemory => Ok(String::new(alloc)),
        CheckFault::Forgotten { at, floor } => format!(in alloc; "Forgotten {at} {floor}"),
    }
}

// The words of a fault of a block.
fn csv_fault_words(alloc: Global, fault: &CsvFault) -> Result<String, NoMemory>
    ensures { IfOk result (λ text. string_bytes text ≡ csv_fault_words fault.now) }
{
    match fault {
        CsvFault::NotUtf8 { rec, column } => format!(in alloc; "NotUtf8 {rec} {column}"),
        CsvFault::HeaderMissing { column } => format!(in alloc; "HeaderMissing {column}"),
        CsvFault::HeaderName { column } => format!(in alloc; "HeaderName {column}"),
        CsvFault::HeaderTwice { column } => format!(in alloc; "HeaderTwice {column}"),
        CsvFault::FieldCount { rec } => format!(in alloc; "FieldCount {rec}"),
        CsvFault::NotInt { rec, column } => format!(in alloc; "NotInt {rec} {column}"),
        CsvFault::TextTooLong { rec, column } => format!(in alloc; "TextTooLong {rec} {column}"),
        CsvFault::EmptyPeriod { rec } => format!(in alloc; "EmptyPeriod {rec}"),
        CsvFault::BatchTooLong { rec } => format!(in alloc; "BatchTooLong {rec}"),
        CsvFault::NoMemory => Ok(String::new(alloc)),
    }
}

// The words of a fault of a batch.
fn batch_fault_words(alloc: Global, fault: &BatchFault) -> Result<String, NoMemory>
    ensures { IfOk result (λ text. string_bytes text ≡ batch_fault_words fault.now) }
{
    match fault {
        BatchFault::UnknownTable => String::from_str(alloc, "UnknownTable"),
        BatchFault::TableExists => String::from_str(alloc, "TableExists"),
        BatchFault::TablesFull => String::from_str(alloc, "TablesFull"),
        BatchFault::KeyTwice { rec } => format!(in alloc; "KeyTwice {rec}"),
        BatchFault::NoRow { rec } => format!(in alloc; "NoRow {rec}"),
        BatchFault::RowsFull => String::from_str(alloc, "RowsFull"),
        BatchFault::VersionsFull => String::from_str(alloc, "VersionsFull"),
        BatchFault::NoMemory => Ok(String::new(alloc)),
        BatchFault::MomentFalls { now } => format!(in alloc; "MomentFalls {now}"),
        BatchFault::FloorAhead { now } => format!(in alloc; "FloorAhead {now}"),
        BatchFault::FloorFalls { floor } => format!(in alloc; "FloorFalls {floor}"),
    }
}

/// The words of a refusal, as a reply has them: the fault's name and its fields. The error is
/// `NoMemory`.
pub fn refusal_words(alloc: Global, refusal: &Refusal) -> Result<String, NoMemory>
    ensures { IfOk result (λ text. string_bytes text ≡ refusal_words refusal.now) }
{
    match refusal {
        Refusal::TextFault(fault) => text_fault_words(alloc, fault),
        Refusal::CheckFault(fault) => check_fault_words(alloc, fault),
        Refusal::CsvFault(fault) => csv_fault_words(alloc, fault),
        Refusal::BatchFault(fault) => batch_fault_words(alloc, fault),
    }
}

fn put_text(out: &mut Vec<u8>, text: &str) -> Result<(), NoMemory>
    ensures { OnOk result (out.new.items ≡ out.old.items ++ text.now) }
{
    out.extend_from_slice(text.as_bytes())?;
    Ok(())
}

// Appends the version of a reply and the words that end its line.
fn put_words(alloc: Global, out: &mut Vec<u8>, version: u32, words: &str) -> Result<(), NoMemory>
    ensures { OnOk result
        (out.new.items ≡ out.old.items ++ version_words version words.now) }
{
    let line = format!(in alloc; " @{version} {words}\n")?;
    put_text(out, line.as_str())
}

/// Appends a reply of the session `name`: its line and, for a query, its rows as CSV. After
/// `NoMemory` a part of it may stand there.
pub fn put_reply(
    alloc: Global,
    out: &mut Vec<u8>,
    name: &[u8],
    reply: &Reply,
) -> Result<(), NoMemory>
    ensures { OnOk result (out.new.items ≡ out.old.items ++ reply_bytes name.now reply.now) }
{
    let version = reply.version;
    out.extend_from_slice(name)?;
    match &reply.body {
        ReplyBody::Rows(answer) => {
            let rows = answer.rows;
            let line = format!(in alloc; " @{version} rows {rows}\n")?;
            put_text(out, line.as_str())?;
            out.extend_from_slice(answer.bytes.as_slice())?;
        }
        ReplyBody::Done => put_words(alloc, out, version, "ok")?,
        ReplyBody::Refused(refusal) => {
            let words = refusal_words(alloc, refusal)?;
            let line = format!(in alloc; " @{version} ! {words}\n")?;
            put_text(out, line.as_str())?;
        }
        ReplyBody::DeviceFault => put_words(alloc, out, version, "! device")?,
        ReplyBody::BrokenJournal => put_words(alloc, out, version, "! broken")?,
    }
    Ok(())
}
