//! A session answers one job: one look at the head, a commit where the job is a batch, one reply,
//! and then the table that changed is tended. Room for the reply comes first, so that no commit is
//! without one; only want of memory leaves a job without a reply.
ghost use Rattle.std.specs.Prelude.{◌≡◌, ◌≢◌, ◌<◌, ◌≤◌, Err, length, IfSome, IfOk, OnOk, OnErr, IsTrue};
ghost use Rattle.tl_types.specs.Entries.{commits_of};
ghost use Rattle.tl_types.specs.History.{database_of};
ghost use Rattle.tl_types.specs.Limits.{standard_limits};
ghost use Rattle.tl_batch.specs.Made.{batch_matches, names_table};
ghost use Rattle.tl_engine.specs.declared.faults.TendFault.TheVariants as tend_fault;
ghost use Rattle.tl_jobs.specs.Jobs.{job_of};
ghost use Rattle.tl_jobs.specs.Reading.{DoesMatch, HasBlockAt, IsKnown};
ghost use Rattle.tl_session.specs.Statements.{AnswersJob, IsLook, SeesMore, Settles, Stops, Tells, outcome_of};
ghost use Rattle.tl_session.specs.Tending.{table_of, reading_table, if_done, IsThere, NamesTable, IsTended};

use crate::access::{Access, Admission};
use crate::sessions::Session;
use std::alloc::{AllocError, Global};
use std::sync::Wait;
use std::thread::Threads;
use tl_csv::{AnswerWriter, BlockReader};
use tl_device::{Disk, Gate};
use tl_engine::{CommitFault, Engine, Named, TendFault, Tended};
use tl_jobs::{Crew, JobReading, LentJob, Pace, Refusal, Reply, ReplyBody, read_job};
use tl_store::Store;
use tl_types::{Batch, NoMemory};

// What a job is over the commits that have been seen, their number, and that of the table that a
// batch of rows names.
#[derive(Drop)]
struct Look {
    version: u32,
    reading: JobReading,
    table: Option<u16>,
}

// What a job is answered with, at a version.
#[derive(Drop)]
struct Settled {
    version: u32,
    body: ReplyBody,
}

// What a job is answered with, at a version, and the number of the table that it changed.
#[derive(Drop)]
struct Answered {
    version: u32,
    body: ReplyBody,
    table: Option<u16>,
}

// The number of the table that a batch of rows names.
fn table_of(store: &Store, batch: &Batch) -> Option<u16>
    ensures { result ≡ table_of (database_of store.now) batch.now }
{
    match batch {
        Batch::Create(_) => None,
        Batch::Put { table, .. } => store.find(table.as_str()),
        Batch::Remove { table, .. } => store.find(table.as_str()),
        Batch::Sync { table, .. } => store.find(table.as_str()),
        Batch::Moment { .. } => None,
        Batch::Forget { .. } => None,
    }
}

// The same of a reading.
fn reading_table(store: &Store, reading: &JobReading) -> Option<u16>
    ensures { result ≡ reading_table (database_of store.now) reading.now }
{
    match reading {
        JobReading::Loads(batch) => table_of(store, batch),
        JobReading::Query(_) => None,
        JobReading::Fault(_) => None,
    }
}

// The table where the batch is committed.
fn if_done(body: &ReplyBody, table: Option<u16>) -> Option<u16>
    ensures { result ≡ if_done body.now table }
{
    match body {
        ReplyBody::Rows(_) => None,
        ReplyBody::Refused(_) => None,
        ReplyBody::Done => table,
        ReplyBody::DeviceFault => None,
        ReplyBody::BrokenJournal => None,
    }
}

// Looks at the engine's head, once, and what the job is over what has then been seen.
fn look_at<D: Disk, J: Named, G: Gate, R: AllocGlobal + Threads + Wait + Sync>(
    rt: &R,
    engine: &Engine<D, J>,
    access: &mut Access<J>,
    admission: Admission,
    job: &LentJob,
    crew: &mut Crew<'_, '_, G>,
) -> Result<Look, NoMemory>
    requires admitted { admission.author ≡ access.old.author }
    requires block { HasBlockAt job.now crew.old.reader.blocks crew.old.place }
    ensures sees { SeesMore access.old access.new }
    ensures look { IfOk result (λ l. IsLook (job_of job.now) l.version l.reading access.new) }
    ensures known { IfOk result
        (λ l. IsKnown (database_of (commits_of access.new.seen)) l.reading) }
    ensures matching { IfOk result
        (λ l. DoesMatch (database_of (commits_of access.new.seen)) l.reading) }
    ensures table { IfOk result
        (λ l. l.table ≡ reading_table (database_of (commits_of access.new.seen)) l.reading) }
    ensures same { crew.new.reader.blocks ≡ crew.old.reader.blocks }
{
    let snapshot = access.look(rt, engine, admission)?;
    let version = snapshot.store().versions();
    let reading = read_job(rt, &snapshot, job.text, crew)?;
    let table = reading_table(snapshot.store(), &reading);
    Ok(Look {
        version,
        reading,
        table,
    })
}

// What the engine's answer to a batch is told as; being out of memory is not told.
fn outcome_of(answer: Result<u32, CommitFault>) -> Option<Settled>
    ensures { result ≡ outcome_of answer }
{
    let (version, body) = match answer {
        Ok(version) => (version, ReplyBody::Done),
        Err(CommitFault::Broken { version }) => (version, ReplyBody::BrokenJournal),
        Err(CommitFault::Refused { version, fault }) => {
            (version, ReplyBody::Refused(Refusal::BatchFault(fault)))
        }
        Err(CommitFault::Device { version, .. }) => (version, ReplyBody::DeviceFault),
        Err(CommitFault::NoMemory) => return None,
    };
    Some(Settled { version, body })
}

// Commits a batch of a session.
#[tactic(auto, using(crate::proofs::StatementLemmas::settles_none))]
fn settle<D: Disk, J: Named, R: AllocGlobal + Wait>(
    rt: &R,
    engine: &Engine<D, J>,
    access: &mut Access<J>,
    batch: Batch,
) -> Result<Settled, NoMemory>
    requires standard { J.limits ≡ standard_limits }
    requires known { IsTrue (names_table (database_of (commits_of access.old.seen)) batch) }
    requires matching { IsTrue (batch_matches (database_of (commits_of access.old.seen)) batch) }
    ensures ok { IfOk result (λ s. Settles batch s.version s.body access.old access.new) }
    ensures err { OnErr result (SeesMore access.old access.new) }
{
    let answer = access.commit(rt, engine, batch);
    let Some(settled) = outcome_of(answer) else {
        return Err(AllocError);
    };
    Ok(settled)
}

// What a job is answered with: a batch is committed.
fn answer<D: Disk, J: Named, G: Gate, R: AllocGlobal + Threads + Wait + Sync>(
    rt: &R,
    engine: &Engine<D, J>,
    access: &mut Access<J>,
    admission: Admission,
    job: &LentJob,
    crew: &mut Crew<'_, '_, G>,
) -> Result<Answered, NoMemory>
    requires standard { J.limits ≡ standard_limits }
    requires own { job.now.session ≡ access.old.author }
    requires admitted { admission.author ≡ access.old.author }
    requires block { HasBlockAt job.now crew.old.reader.blocks crew.old.place }
    ensures ok { IfOk result
        (λ s. Tells (job_of job.now) s.version s.body access.old access.new) }
    ensures names { IfOk result (λ s. NamesTable s.table s.version s.body access.new.seen) }
    ensures known { IfOk result (λ s. IsThere s.table access.new.seen) }
    ensures err { OnErr result (SeesMore access.old access.new) }
    ensures same { crew.new.reader.blocks ≡ crew.old.reader.blocks }
{
    let Look {
        version,
        reading,
        table,
    } = look_at(rt, engine, access, admission, job, crew)?;
    match reading {
        JobReading::Loads(batch) => {
            let settled = settle(rt, engine, access, batch)?;
            let table = if_done(&settled.body, table);
            Ok(Answered {
                version: settled.version,
                body: settled.body,
                table,
            })
        }
        JobReading::Query(answer) => Ok(Answered {
            version,
            body: ReplyBody::Rows(answer),
            table: None,
        }),
        JobReading::Fault(refusal) => Ok(Answered {
            version,
            body: ReplyBody::Refused(refusal),
            table: None,
        }),
    }
}

// A reader for the block of one job. The error is `NoMemory`.
fn reader_of<'a>(alloc: Global, job: &LentJob<'a>) -> Result<BlockReader<'a>, NoMemory>
    ensures { IfOk result (λ reader. HasBlockAt job.now reader.blocks 0) }
{
    BlockReader::over(alloc, &[job.block_bytes()])
}

// Whether memory did not run out while a table was tended.
fn was_tended(answer: Result<Tended, TendFault>) -> Result<(), NoMemory>
    ensures tended { OnOk result (answer ≢ Err tend_fault.NoMemory) }
    ensures memory { OnErr result (answer ≡ Err tend_fault.NoMemory) }
{
    match answer {
        Err(TendFault::NoMemory) => Err(AllocError),
        Err(TendFault::Broken { .. }) => Ok(()),
        Ok(_) => Ok(()),
    }
}

// Tends a table, where there is one.
fn tend<D: Disk, J: Named, R: AllocGlobal + Wait>(
    rt: &R,
    engine: &Engine<D, J>,
    access: &mut Access<J>,
    table: Option<u16>,
    k: u32,
) -> Result<(), NoMemory>
    requires known { IsThere table access.old.seen }
    ensures sees { SeesMore access.old access.new }
    ensures tended { OnOk result (IfSome table (λ t.
        IsTended k t (length (commits_of access.old.seen)) access.new.seen)) }
{
    let Some(table) = table else {
        return Ok(());
    };
    was_tended(access.tend(rt, engine, table, k))
}

/// A session answers a job of its own, as `run_statement` does with the crew's workers; its block
/// is the one at the crew's place.
pub(crate) fn run_job<D: Disk, J: Named, G: Gate, R: AllocGlobal + Threads + Wait + Sync>(
    rt: &R,
    engine: &Engine<D, J>,
    session: &mut Session<J>,
    job: &LentJob,
    k: u32,
    crew: &mut Crew<'_, '_, G>,
) -> Result<(), NoMemory>
    requires standard { J.limits ≡ standard_limits }
    requires own { job.now.session ≡ session.old.access.author }
    requires block { HasBlockAt job.now crew.old.reader.blocks crew.old.place }
    ensures ok { OnOk result (AnswersJob k (job_of job.now) session.old session.new) }
    ensures err { OnErr result (Stops (job_of job.now) session.old session.new) }
    ensures same { crew.new.reader.blocks ≡ crew.old.reader.blocks }
{
    let admission = Admission::at(crew.gate, session.access.author());
    session.replies.reserve(1)?;
    let Answered {
        version,
        body,
        table,
    } = answer(rt, engine, &mut session.access, admission, job, crew)?;
    let reply = Reply {
        line: job.line,
        version,
        body,
    };
    session.replies.push_reserved(reply);
    tend(rt, engine, &mut session.access, table, k)?;
    Ok(())
}

/// A session answers a job of its own, once the gate has let it pass: it reads the engine's head
/// once, and a batch is committed. There is exactly one reply more then. Room for it is made before
/// a commit, so no commit and no break is without a reply. Then the table that a commit changed is
/// tended, so that it gets a mark where it has `k` events or more after its last one; for `k` 0 no
/// mark is due. The work of a query may be shared by so many workers, from 1 to 64.
///
/// The error is `NoMemory`: there is no reply more, and nothing was committed; or there is the
/// reply, and the table was not tended.
pub fn run_statement<D: Disk, J: Named, G: Gate, R: AllocGlobal + Threads + Wait + Sync>(
    rt: &R,
    engine: &Engine<D, J>,
    session: &mut Session<J>,
    job: &LentJob,
    workers: u32,
    k: u32,
    gate: &G,
) -> Result<(), NoMemory>
    requires standard { J.limits ≡ standard_limits }
    requires own { job.now.session ≡ session.old.access.author }
    requires some { 0 < workers }
    requires few { workers ≤ 64 }
    ensures ok { OnOk result (AnswersJob k (job_of job.now) session.old session.new) }
    ensures err { OnErr result (Stops (job_of job.now) session.old session.new) }
{
    let pace = Pace::new(workers, k);
    let reader = reader_of(rt.alloc(), job)?;
    let mut crew = Crew {
        pace: &pace,
        gate,
        reader,
        place: 0,
        writer: AnswerWriter::new(),
    };
    run_job(rt, engine, session, job, k, &mut crew)
}
