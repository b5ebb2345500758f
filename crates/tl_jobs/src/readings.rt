//! What a job is over the commits of a snapshot: a batch, an answered query, or the first fault.
//! The block of the job is the one at the crew's place among those of its reader, which stays as it
//! is.
ghost use Rattle.std.specs.Prelude.{◌≡◌, ◌≢◌, ◌<◌, ◌≤◌, IfOk, OnOk, OnErr, length, Some};
ghost use Rattle.tl_types.specs.Entries.{commits_of};
ghost use Rattle.tl_types.specs.History.{database_of};
ghost use Rattle.tl_types.specs.Plain.{Database};
ghost use Rattle.tl_types.specs.declared.batches.Batch.TheVariants as batch;
ghost use Rattle.tl_query.specs.Answers.{answer_of};
ghost use Rattle.tl_query.specs.Checking.{checked_create};
ghost use Rattle.tl_query.specs.CheckingQueries.{checked};
ghost use Rattle.tl_query.specs.Parsed.{IsNewTable, IsParsed, IsQuery};
ghost use Rattle.tl_query.specs.TypedFor.{IsTypedFor};
ghost use Rattle.tl_query.specs.declared.check_faults.CheckFault.TheVariants as check_fault;
ghost use Rattle.tl_query.specs.declared.faults.TextFault.TheVariants as text_fault;
ghost use Rattle.tl_csv.specs.LentBlocks.{block_at};
ghost use Rattle.tl_csv.specs.declared.faults.CsvFault.TheVariants as csv_fault;
ghost use Rattle.tl_jobs.specs.declared.readings.JobReading.TheVariants as reading;
ghost use Rattle.tl_jobs.specs.Reading.{IsReading, IsFaultTold, DoesMatch, IsKnown, create_reading, load_reading, query_reading, statement_reading, text_of_answer};
ghost use Rattle.tl_jobs.specs.declared.replies.Refusal.TheVariants as refusal;

use crate::crews::Crew;
use crate::replies::{AnswerText, Refusal};
use std::alloc::{AllocError, Global};
use std::marker::Brand;
use std::sync::ledger::{Blank, Ledger};
use std::thread::Threads;
use tl_check::{check, check_create};
use tl_csv::{AnswerWriter, BatchKind, BlockReader, CsvFault};
use tl_device::Gate;
use tl_exec::answer;
use tl_index::Snapshot;
use tl_query::{CheckFault, CreateForm, Name, Query, Statement, TextFault, Typed, parse};
use tl_rows::AnswerRows;
use tl_store::Store;
use tl_types::{Batch, BatchFault, Limits, NoMemory, Steps};

/// What a job is over a list of commits. What a batch becomes is settled after it.
#[derive(Drop)]
pub enum JobReading {
    /// It is a batch that reads well.
    Loads(Batch),
    /// It is a query, with its answer as CSV.
    Query(AnswerText),
    /// It has this fault, the first one.
    Fault(Refusal),
}

/// The refusal of a query or a new table; being out of memory is none.
pub fn check_refusal(fault: CheckFault) -> Result<Refusal, NoMemory>
    ensures why { IfOk result (λ why. why ≡ refusal.CheckFault fault) }
    ensures told { OnOk result (fault ≢ check_fault.NoMemory) }
    ensures memory { OnErr result (fault ≡ check_fault.NoMemory) }
{
    match fault {
        CheckFault::NoMemory => Err(AllocError),
        _ => Ok(Refusal::CheckFault(fault)),
    }
}

// What a new table is.
fn create(alloc: Global, form: &CreateForm) -> Result<JobReading, NoMemory>
    requires { IsNewTable form.now }
    ensures reads { IfOk result (λ read. read ≡ create_reading (checked_create form.now)) }
    ensures told { IfOk result IsFaultTold }
{
    match check_create(alloc, form) {
        Ok(schema) => Ok(JobReading::Loads(Batch::Create(schema))),
        Err(fault) => Ok(JobReading::Fault(check_refusal(fault)?)),
    }
}

// The refusal of a block; being out of memory is none.
fn csv_refusal(fault: CsvFault) -> Result<Refusal, NoMemory>
    ensures why { IfOk result (λ why. why ≡ refusal.CsvFault fault) }
    ensures told { OnOk result (fault ≢ csv_fault.NoMemory) }
    ensures memory { OnErr result (fault ≡ csv_fault.NoMemory) }
{
    match fault {
        CsvFault::NoMemory => Err(AllocError),
        _ => Ok(Refusal::CsvFault(fault)),
    }
}

// What the block at a place is that is read as a kind of batch for the table with a name.
fn load(
    alloc: Global,
    store: &Store,
    name: &Name,
    kind: BatchKind,
    reader: &mut BlockReader<'_>,
    place: usize,
) -> Result<JobReading, NoMemory>
    ensures reads { IfOk result (λ read.
        read ≡ load_reading store.now name.now.text kind (block_at reader.old.blocks place)) }
    ensures same { reader.new.blocks ≡ reader.old.blocks }
    ensures told { IfOk result IsFaultTold }
    ensures matching { IfOk result (DoesMatch (database_of store.now)) }
    ensures known { IfOk result (IsKnown (database_of store.now)) }
{
    let Some(number) = store.find(name.text.as_str()) else {
        let unknown = Refusal::BatchFault(BatchFault::UnknownTable);
        return Ok(JobReading::Fault(unknown));
    };
    let schema = store.schema(number);
    let limits = Limits::standard();
    match reader.read_batch(alloc, place, schema, kind, &limits) {
        Ok(batch) => Ok(JobReading::Loads(batch)),
        Err(fault) => Ok(JobReading::Fault(csv_refusal(fault)?)),
    }
}

// The answer to a query; its steps are not told.
fn answer_uncounted<L: Ledger, R: AllocGlobal + Threads + Sync, G: Gate>(
    rt: &R,
    snapshot: &Snapshot,
    query: &Typed,
    workers: u32,
    gate: &G,
    blank: Blank,
) -> Result<AnswerRows, NoMemory>
    requires typed { IsTypedFor (database_of (commits_of snapshot.now)) query.now }
    requires some { 0 < workers }
    requires few { workers ≤ 64 }
    requires name { blank.name ≡ L.name }
    requires parts { blank.parts ≡ L.parts }
    requires whole { 0 < blank.parts }
    ensures { IfOk result
        (λ a. a.rows ≡ answer_of (database_of (commits_of snapshot.now)) query.now) }
{
    let mut steps = Steps::<L>::new(blank);
    answer(rt, snapshot, query, workers, gate, &mut steps)
}

// The rows of an answer as CSV. The answer is let go. The error is `NoMemory`.
fn text_of_answer(
    alloc: Global,
    answer: AnswerRows,
    writer: &mut AnswerWriter,
) -> Result<AnswerText, NoMemory>
    ensures { IfOk result (λ text. text ≡ text_of_answer answer) }
{
    let bytes = writer.bytes_of(alloc, &answer)?;
    Ok(AnswerText {
        rows: answer.len(),
        bytes,
    })
}

// What a query is: the rows that answer it over the tables.
fn ask<R: AllocGlobal + Threads + Sync, G: Gate>(
    rt: &R,
    snapshot: &Snapshot,
    query: &Query,
    crew: &mut Crew<'_, '_, G>,
) -> Result<JobReading, NoMemory>
    requires { IsQuery query.now }
    ensures reads { IfOk result (λ read. read ≡ query_reading (commits_of snapshot.now)
        (checked (length (commits_of snapshot.now)) (database_of (commits_of snapshot.now))
        query.now)) }
    ensures told { IfOk result IsFaultTold }
    ensures same { crew.new.reader.blocks ≡ crew.old.reader.blocks }
{
    let typed = match check(rt.alloc(), query, snapshot.store()) {
        Ok(typed) => typed,
        Err(fault) => return Ok(JobReading::Fault(check_refusal(fault)?)),
    };
    let blank = Blank::new(1);
    let (workers, gate) = (crew.pace.workers(), crew.gate);
    let answer = answer_uncounted::<Brand, R, G>(rt, snapshot, &typed, workers, gate, blank)?;
    Ok(JobReading::Query(text_of_answer(rt.alloc(), answer, &mut crew.writer)?))
}

// A batch that states a moment.
fn state(moment: i64) -> JobReading
    ensures reads { result ≡ reading.Loads (batch.Moment moment) }
    ensures told { IsFaultTold result }
    ensures matching { (db : Database) → DoesMatch db result }
    ensures known { (db : Database) → IsKnown db result }
{
    JobReading::Loads(Batch::Moment { moment })
}

// A batch that sets the floor of the table with a name. The error is `NoMemory`.
fn forget(name: &Name, floor: i64) -> Result<JobReading, NoMemory>
    ensures reads { IfOk result (λ read. read ≡ reading.Loads (batch.Forget name.now.text floor)) }
    ensures told { IfOk result IsFaultTold }
    ensures matching { (db : Database) → IfOk result (DoesMatch db) }
    ensures known { (db : Database) → IfOk result (IsKnown db) }
{
    let table = name.text.clone()?;
    Ok(JobReading::Loads(Batch::Forget { table, floor }))
}

// What a statement is.
fn read_statement<R: AllocGlobal + Threads + Sync, G: Gate>(
    rt: &R,
    snapshot: &Snapshot,
    statement: &Statement,
    crew: &mut Crew<'_, '_, G>,
) -> Result<JobReading, NoMemory>
    requires parsed { IsParsed statement.now }
    ensures reads { IfOk result (λ read. read ≡ statement_reading (commits_of snapshot.now)
        statement.now (block_at crew.old.reader.blocks crew.old.place)) }
    ensures told { IfOk result IsFaultTold }
    ensures matching { IfOk result (DoesMatch (database_of (commits_of snapshot.now))) }
    ensures known { IfOk result (IsKnown (database_of (commits_of snapshot.now))) }
    ensures same { crew.new.reader.blocks ≡ crew.old.reader.blocks }
{
    let alloc = rt.alloc();
    let store = snapshot.store();
    let (reader, place) = (&mut crew.reader, crew.place);
    match statement {
        Statement::Create(form) => create(alloc, form),
        Statement::Put(name) => load(alloc, store, name, BatchKind::PutKind, reader, place),
        Statement::Remove(name) => load(alloc, store, name, BatchKind::RemoveKind, reader, place),
        Statement::Sync(name) => load(alloc, store, name, BatchKind::SyncKind, reader, place),
        Statement::Ask(query) => ask(rt, snapshot, query, crew),
        Statement::Moment(stamp) => Ok(state(stamp.value)),
        Statement::Forget { table, floor } => forget(table, floor.value),
    }
}

/// The refusal of a text; being out of memory is none.
pub fn text_refusal(fault: TextFault) -> Result<Refusal, NoMemory>
    ensures why { IfOk result (λ why. why ≡ refusal.TextFault fault) }
    ensures told { OnOk result (fault ≢ text_fault.NoMemory) }
    ensures memory { OnErr result (fault ≡ text_fault.NoMemory) }
{
    match fault {
        TextFault::NoMemory => Err(AllocError),
        _ => Ok(Refusal::TextFault(fault)),
    }
}

/// What a job is over the commits of a snapshot: its text is parsed; a new table or a query is
/// checked, and a query answered; a batch finds its table, and its block is read, which is the one
/// at the crew's place. The version that a query or a fault names is the number of the commits.
/// A batch of rows matches the schema of its table, which is there. The work of a query may be
/// shared by the crew's workers, and its pieces pass the crew's gate. The error is `NoMemory`.
pub fn read_job<R: AllocGlobal + Threads + Sync, G: Gate>(
    rt: &R,
    snapshot: &Snapshot,
    text: &str,
    crew: &mut Crew<'_, '_, G>,
) -> Result<JobReading, NoMemory>
    ensures reads { IfOk result (λ read. IsReading (commits_of snapshot.now) text.now
        (block_at crew.old.reader.blocks crew.old.place) read) }
    ensures told { IfOk result IsFaultTold }
    ensures matching { IfOk result (DoesMatch (database_of (commits_of snapshot.now))) }
    ensures known { IfOk result (IsKnown (database_of (commits_of snapshot.now))) }
    ensures same { crew.new.reader.blocks ≡ crew.old.reader.blocks }
{
    match parse(rt.alloc(), text) {
        Ok(statement) => read_statement(rt, snapshot, &statement, crew),
        Err(fault) => Ok(JobReading::Fault(text_refusal(fault)?)),
    }
}
