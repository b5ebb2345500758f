//! Sessions answer their jobs, all sessions at once: each its own ones in order, by one crew, until
//! memory runs out.
ghost use Rattle.std.specs.Prelude.{◌≡◌, ◌<◌, ◌≤◌, IfOk, length, map};
ghost use Rattle.tl_types.specs.Limits.{standard_limits};
ghost use Rattle.tl_jobs.specs.Jobs.{job_of};
ghost use Rattle.tl_session.specs.Phases.{AllRan, AllTendOn, AreNumbered, Ran, TendsOn, own_jobs};
ghost use Rattle.tl_jobs.specs.Reading.{blocks_of};

use crate::sessions::Session;
use crate::statements::run_job;
use std::alloc::Global;
use std::sync::Wait;
use std::thread;
use std::thread::Threads;
use tl_csv::{AnswerWriter, BlockReader};
use tl_device::{Disk, Gate};
use tl_engine::{Engine, Named};
use tl_jobs::{Crew, LentJob, Pace};
use tl_types::NoMemory;

// The blocks of a session's own ones of these jobs, in order; of a job without one no bytes.
fn own_blocks<'a>(
    alloc: Global,
    author: u32,
    jobs: &[LentJob<'a>],
) -> Result<Vec<&'a [u8]>, NoMemory>
    ensures { IfOk result (λ blocks. map (λ b. b.now) blocks.items
        ≡ blocks_of (own_jobs author (map job_of jobs.now))) }
{
    let mut blocks = Vec::new(alloc);
    for job in jobs {
        if job.session == author {
            blocks.push(job.block_bytes())?;
        }
    }
    Ok(blocks)
}

// A reader for the blocks of a session's own ones of these jobs.
fn reader_for<'a>(
    alloc: Global,
    author: u32,
    jobs: &[LentJob<'a>],
) -> Result<BlockReader<'a>, NoMemory>
    ensures { IfOk result
        (λ reader. reader.blocks ≡ blocks_of (own_jobs author (map job_of jobs.now))) }
{
    let blocks = own_blocks(alloc, author, jobs)?;
    BlockReader::over(alloc, blocks.as_slice())
}

// A session answers its own ones of these jobs, in order, until memory runs out, by one crew.
fn run_jobs<D: Disk, J: Named, G: Gate, R: AllocGlobal + Threads + Wait + Sync>(
    rt: &R,
    engine: &Engine<D, J>,
    session: &mut Session<J>,
    jobs: &[LentJob],
    k: u32,
    crew: &mut Crew<'_, '_, G>,
)
    requires standard { J.limits ≡ standard_limits }
    requires blocks { crew.old.reader.blocks
        ≡ blocks_of (own_jobs session.old.access.author (map job_of jobs.now)) }
    ensures ran { Ran (own_jobs session.old.access.author (map job_of jobs.now))
        session.old session.new }
    ensures tends { TendsOn k session.old session.new }
{
    let mut place = 0;
    for job in jobs {
        if job.session != session.access.author() {
            continue;
        }
        crew.place = place;
        place += 1;
        let Ok(()) = run_job(rt, engine, session, job, k, crew) else {
            session.ran_out = true;
            return;
        };
    }
}

/// A session answers its own ones of these jobs, in order, until memory runs out. Those of their
/// blocks that may stand in one text are read by one reader, and their answers written by one
/// writer.
pub(crate) fn run_session<'a, D: Disk, J: Named, G: Gate, R: AllocGlobal + Threads + Wait + Sync>(
    rt: &R,
    engine: &Engine<D, J>,
    session: &mut Session<J>,
    jobs: &[LentJob],
    pace: &'a Pace,
    gate: &'a G,
)
    requires standard { J.limits ≡ standard_limits }
    ensures ran { Ran (own_jobs session.old.access.author (map job_of jobs.now))
        session.old session.new }
    ensures tends { TendsOn pace.now.every session.old session.new }
{
    let Ok(reader) = reader_for(rt.alloc(), session.access.author(), jobs) else {
        session.ran_out = true;
        return;
    };
    let mut crew = Crew {
        pace,
        gate,
        reader,
        place: 0,
        writer: AnswerWriter::new(),
    };
    run_jobs(rt, engine, session, jobs, pace.every(), &mut crew);
}

// How many threads the sessions are run by: one where the jobs are of one session alone, and one
// for each session otherwise.
fn threads_for(jobs: &[LentJob], sessions: usize) -> usize
    requires { 0 < sessions }
    ensures { 0 < result }
{
    let Some(first) = jobs.first() else {
        return 1;
    };
    for job in jobs {
        if job.session != first.session {
            return sessions;
        }
    }
    1
}

/// All sessions answer their own ones of these jobs at once, each in a thread of its own, in order
/// and until memory runs out, as `run_statement` does with so many workers and such a `k`. Where
/// the jobs are of one session alone, no thread is started for them.
pub fn run_all<
    D: Disk + Send,
    J: Named + Send + Sync,
    G: Gate,
    R: AllocGlobal + Threads + Wait + Sync,
>(
    rt: &R,
    engine: &Engine<D, J>,
    sessions: &mut Vec<Session<J>>,
    jobs: &[LentJob],
    workers: u32,
    k: u32,
    gate: &G,
)
    requires standard { J.limits ≡ standard_limits }
    requires some { 0 < workers }
    requires few { workers ≤ 64 }
    requires numbered { AreNumbered sessions.old.items }
    ensures count { length sessions.new.items ≡ length sessions.old.items }
    ensures each { AllRan (map job_of jobs.now) sessions.old.items sessions.new.items }
    ensures tends { AllTendOn k sessions.old.items sessions.new.items }
{
    if sessions.is_empty() {
        return;
    }
    let pace = Pace::new(workers, k);
    let threads = threads_for(jobs, sessions.len());
    let run = |_: usize, session: &mut Session<J>|
        requires { J.limits ≡ standard_limits }
        ensures { Ran (own_jobs session.entry.now.access.author (map job_of jobs.entry.now))
            session.entry.now session.exit.now
            × TendsOn pace.every session.entry.now session.exit.now }
    { run_session(rt, engine, session, jobs, &pace, gate) };
    thread::for_each_mut(rt, sessions.as_mut_slice(), threads, &run);
}
