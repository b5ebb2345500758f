//! What a job is answered with over the commits of a snapshot: the rows of a query, with the names
//! of their columns before them, or a refusal. Nothing but a query is taken, and nothing changes.
ghost use Rattle.std.specs.Prelude.{◌≡◌, ◌<◌, ◌≤◌, ◌++◌, length, IfOk};
ghost use Rattle.tl_types.specs.Entries.{commits_of};
ghost use Rattle.tl_types.specs.History.{database_of};
ghost use Rattle.tl_csv.specs.Answers.{answer_text};
ghost use Rattle.tl_query.specs.Answers.{answer_of};
ghost use Rattle.tl_query.specs.CheckingQueries.{checked};
ghost use Rattle.tl_query.specs.Parsed.{IsParsed, IsQuery};
ghost use Rattle.tl_query.specs.TypedFor.{IsTypedFor};
ghost use Rattle.tl_jobs.specs.Jobs.{job_of};
ghost use Rattle.tl_asking.specs.Answers.{named_answer, named_reply, no_query, query_answer, statement_answer, text_answer};

use crate::names::names_of;
use std::alloc::Global;
use std::marker::Brand;
use std::sync::ledger::{Blank, Ledger};
use std::thread::Threads;
use tl_check::check;
use tl_csv::AnswerWriter;
use tl_device::{Gate, Place};
use tl_exec::answer;
use tl_index::Snapshot;
use tl_jobs::{AnswerText, LentJob, Pace, Refusal, Reply, ReplyBody, check_refusal, text_refusal};
use tl_query::{Query, Statement, TextFault, Typed, parse};
use tl_rows::AnswerRows;
use tl_types::{Bytes, NoMemory, Steps};

/// How queries are answered: the pace, the gate that they and the pieces of their work pass, and
/// the writer of answers.
#[derive(Drop)]
pub(crate) struct Means<'a, G> {
    /// By how many workers the work of a query may be shared.
    pub pace: &'a Pace,
    /// What queries and pieces of their work pass.
    pub gate: &'a G,
    /// What writes answers.
    pub writer: AnswerWriter,
}

// The answer to a query; its steps are not told.
fn answer_uncounted<L: Ledger, R: AllocGlobal + Threads + Sync, G: Gate>(
    rt: &R,
    snapshot: &Snapshot,
    query: &Typed,
    workers: u32,
    gate: &G,
    blank: Blank,
) -> Result<AnswerRows, NoMemory>
    requires typed { IsTypedFor (database_of (commits_of snapshot.now)) query.now }
    requires some { 0 < workers }
    requires few { workers ≤ 64 }
    requires name { blank.name ≡ L.name }
    requires parts { blank.parts ≡ L.parts }
    requires whole { 0 < blank.parts }
    ensures { IfOk result
        (λ a. a.rows ≡ answer_of (database_of (commits_of snapshot.now)) query.now) }
{
    let mut steps = Steps::<L>::new(blank);
    answer(rt, snapshot, query, workers, gate, &mut steps)
}

// Two lists of bytes, the one after the other. The error is `NoMemory`.
fn joined(alloc: Global, first: &[u8], second: &[u8]) -> Result<Bytes, NoMemory>
    ensures { IfOk result (λ bytes. bytes ≡ first.now ++ second.now) }
{
    let mut bytes = Vec::with_capacity(alloc, first.len().saturating_add(second.len()))?;
    bytes.extend_from_slice(first)?;
    bytes.extend_from_slice(second)?;
    Ok(Bytes::from_vec(bytes))
}

// The rows of an answer as CSV, after the line of the names of its columns, which is no row of it.
// The answer is let go. The error is `NoMemory`.
fn named_text(
    alloc: Global,
    names: &AnswerRows,
    answer: AnswerRows,
    writer: &mut AnswerWriter,
) -> Result<AnswerText, NoMemory>
    ensures { IfOk result (λ text. text ≡ record {
      rows = length answer.rows;
      bytes = answer_text names.now ++ answer_text answer;
    }) }
{
    let line = writer.bytes_of(alloc, names)?;
    let rows = writer.bytes_of(alloc, &answer)?;
    let bytes = joined(alloc, line.as_slice(), rows.as_slice())?;
    Ok(AnswerText {
        rows: answer.len(),
        bytes,
    })
}

// The answer to a checked query, with its names. The error is `NoMemory`.
fn named_answer<R: AllocGlobal + Threads + Sync, G: Gate>(
    rt: &R,
    snapshot: &Snapshot,
    query: &Typed,
    means: &mut Means<'_, G>,
) -> Result<AnswerText, NoMemory>
    requires { IsTypedFor (database_of (commits_of snapshot.now)) query.now }
    ensures { IfOk result
        (λ text. text ≡ named_answer (database_of (commits_of snapshot.now)) query.now) }
{
    let alloc = rt.alloc();
    let names = names_of(alloc, snapshot.store(), query)?;
    let blank = Blank::new(1);
    let (workers, gate) = (means.pace.workers(), means.gate);
    let answer = answer_uncounted::<Brand, R, G>(rt, snapshot, query, workers, gate, blank)?;
    let text = named_text(alloc, &names, answer, &mut means.writer)?;
    Ok(text)
}

// What a query is answered with: its rows, or the first fault of its check. The error is
// `NoMemory`.
fn query_answer<R: AllocGlobal + Threads + Sync, G: Gate>(
    rt: &R,
    snapshot: &Snapshot,
    query: &Query,
    means: &mut Means<'_, G>,
) -> Result<ReplyBody, NoMemory>
    requires { IsQuery query.now }
    ensures { IfOk result (λ body. body ≡ query_answer (database_of (commits_of snapshot.now))
        (checked (length (commits_of snapshot.now)) (database_of (commits_of snapshot.now))
        query.now)) }
{
    match check(rt.alloc(), query, snapshot.store()) {
        Ok(typed) => Ok(ReplyBody::Rows(named_answer(rt, snapshot, &typed, means)?)),
        Err(fault) => Ok(ReplyBody::Refused(check_refusal(fault)?)),
    }
}

// The refusal of a statement that is no query.
fn no_query() -> ReplyBody
    ensures { result ≡ no_query }
{
    ReplyBody::Refused(Refusal::TextFault(TextFault::Unexpected { at: 0 }))
}

// What a statement is answered with. The error is `NoMemory`.
fn statement_answer<R: AllocGlobal + Threads + Sync, G: Gate>(
    rt: &R,
    snapshot: &Snapshot,
    statement: &Statement,
    means: &mut Means<'_, G>,
) -> Result<ReplyBody, NoMemory>
    requires { IsParsed statement.now }
    ensures { IfOk result (λ body. body ≡ statement_answer
        (database_of (commits_of snapshot.now)) (length (commits_of snapshot.now))
        statement.now) }
{
    match statement {
        Statement::Create(_) => Ok(no_query()),
        Statement::Put(_) => Ok(no_query()),
        Statement::Remove(_) => Ok(no_query()),
        Statement::Sync(_) => Ok(no_query()),
        Statement::Ask(query) => {
            let body = query_answer(rt, snapshot, query, means)?;
            Ok(body)
        }
        Statement::Moment(_) => Ok(no_query()),
        Statement::Forget { table: _, floor: _ } => Ok(no_query()),
    }
}

// What a text is answered with. The error is `NoMemory`.
fn text_answer<R: AllocGlobal + Threads + Sync, G: Gate>(
    rt: &R,
    snapshot: &Snapshot,
    text: &str,
    means: &mut Means<'_, G>,
) -> Result<ReplyBody, NoMemory>
    ensures { IfOk result (λ body. body ≡ text_answer (commits_of snapshot.now) text.now) }
{
    match parse(rt.alloc(), text) {
        Ok(statement) => {
            let body = statement_answer(rt, snapshot, &statement, means)?;
            Ok(body)
        }
        Err(fault) => Ok(ReplyBody::Refused(text_refusal(fault)?)),
    }
}

/// The reply to a job over a snapshot, once the gate has let it pass: its text is parsed first;
/// then it has to be a query, and is `Unexpected` at 0 where it is another statement; then it is
/// checked, and answered with the names of its columns before its rows. The block of a job is not
/// looked at. The error is `NoMemory`.
pub(crate) fn answer_job<R: AllocGlobal + Threads + Sync, G: Gate>(
    rt: &R,
    snapshot: &Snapshot,
    job: &LentJob,
    means: &mut Means<'_, G>,
) -> Result<Reply, NoMemory>
    ensures { IfOk result
        (λ reply. reply ≡ named_reply (commits_of snapshot.now) (job_of job.now)) }
{
    means.gate.pass(Place::Statement(job.session));
    let body = text_answer(rt, snapshot, job.text, means)?;
    Ok(Reply {
        line: job.line,
        version: snapshot.store().versions(),
        body,
    })
}
