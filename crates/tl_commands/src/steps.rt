//! One job done over a group: it is read and answered as any job, over the snapshot of the group,
//! and a batch becomes a commit that waits. Its reply is put behind the text, and behind a reply
//! that is done the value of the plan, where one is watched. The replies are counted, and of the
//! last one it is known whether it is a refusal. Where memory runs out the group is given up, and
//! its disk handed back.
ghost use Rattle.std.specs.Prelude.{◌≡◌, ◌++◌, ◌∷◌, ◌+◌, [], ℕ, List, IsTrue, IfErr, IfOk, OnOk, length};
ghost use Rattle.std.specs.declared.option.Option.{Option};
ghost use Rattle.tl_types.specs.declared.commits.Commit.{Commit as CommitValue};
ghost use Rattle.tl_types.specs.Entries.{commits_of};
ghost use Rattle.tl_types.specs.History.{database_of, fits};
ghost use Rattle.tl_types.specs.Limits.{standard_limits};
ghost use Rattle.tl_batch.specs.Made.{batch_matches};
ghost use Rattle.tl_group.specs.Keeping.{commits_in};
ghost use Rattle.tl_group.specs.Standing.{IsGivenBack};
ghost use Rattle.tl_jobs.specs.Jobs.{job_of};
ghost use Rattle.tl_jobs.specs.Play.{Acts};
ghost use Rattle.tl_jobs.specs.Reading.{DoesMatch, HasBlockAt};
ghost use Rattle.tl_jobs.specs.Replies.{body_bytes, reply_bytes};
ghost use Rattle.tl_jobs.specs.Turns.{meant};
ghost use Rattle.tl_watch.specs.declared.plans.WatchPlan.{WatchPlan};
ghost use Rattle.tl_commands.specs.Playing.{AddsBatch, Answers, AnswersJob, KeepsDisk};
ghost use Rattle.tl_commands.specs.Refusing.{is_refusal};
ghost use Rattle.tl_commands.specs.Telling.{IsWatched, WatchesFor, told_behind};

use crate::watches::Watching;
use std::alloc::Global;
use std::thread::Threads;
use tl_csv::AnswerWriter;
use tl_device::{Disk, Gate, Place};
use tl_group::Group;
use tl_index::Snapshot;
use tl_jobs::{Crew, JobReading, LentJob, Refusal, Reply, ReplyBody, put_reply, read_job};
use tl_types::{Batch, BatchFault, Commit, NoMemory};

/// The replies so far.
#[derive(Drop)]
pub struct Replies {
    /// Their bytes, in the order of their jobs, with what is told of the plan.
    pub text: Vec<u8>,
    /// How many they are.
    pub count: u64,
    /// Whether the last one is a refusal.
    pub is_refusal: bool,
}

impl Replies {
    /// No reply yet.
    pub(crate) fn none(alloc: Global) -> Replies
        ensures text { result.text.items ≡ [] }
        ensures count { result.count ≡ 0 }
    {
        Replies {
            text: Vec::new(alloc),
            count: 0,
            is_refusal: false,
        }
    }
}

/// What jobs are played over: the group in which their commits wait, the replies so far, and the
/// watch of a plan, where one is told.
#[derive(Drop)]
pub(crate) struct Playing<D: Disk> {
    /// The journal, and the commits that wait.
    pub group: Group<D>,
    /// The replies so far.
    pub replies: Replies,
    /// The watch of the plan, over all commits.
    pub watching: Option<Watching>,
}

// The watch of a plan, where there is one, once a commit is taken in that fits the commits of a
// snapshot. The error is `NoMemory`.
fn followed(
    watching: Option<Watching>,
    before: &Snapshot,
    commit: &Commit,
) -> Result<Option<Watching>, NoMemory>
    requires watched { IsWatched (commits_of before.now) watching }
    requires fits { IsTrue
        (fits standard_limits (database_of (commits_of before.now)) commit.now) }
    ensures { (plan : Option WatchPlan) → WatchesFor plan (commits_of before.now) watching
        → IfOk result (WatchesFor plan (commits_of before.now ++ commit.now ∷ [])) }
{
    let Some(watching) = watching else {
        return Ok(None);
    };
    let watching = watching.follow(before, commit)?;
    Ok(Some(watching))
}

// Makes a commit that fits wait behind the others, and takes it in where a plan is watched. The
// error, for memory, is the disk.
fn take_in<D: Disk>(alloc: Global, playing: Playing<D>, commit: &Commit) -> Result<Playing<D>, D>
    requires standard { playing.group.limits ≡ standard_limits }
    requires watched { IsWatched (commits_in playing.group) playing.watching }
    requires fits { IsTrue
        (fits standard_limits (database_of (commits_in playing.group)) commit.now) }
    ensures replies { IfOk result (λ done. done.replies ≡ playing.replies) }
    ensures commits { IfOk result
        (λ done. commits_in done.group ≡ commits_in playing.group ++ commit.now ∷ []) }
    ensures watches { (plan : Option WatchPlan)
        → WatchesFor plan (commits_in playing.group) playing.watching
        → IfOk result (λ done. WatchesFor plan (commits_in done.group) done.watching) }
    ensures keeps { IfOk result (λ done. KeepsDisk D.Disk playing.group done.group) }
    ensures back { IfErr result (IsGivenBack D.reads D.may_leave D.faults playing.group) }
{
    let Playing {
        group,
        replies,
        watching,
    } = playing;
    let Ok(watching) = followed(watching, group.snapshot(), commit) else {
        return Err(group.into_disk());
    };
    match group.follow(alloc, commit) {
        Ok(group) => Ok(Playing {
            group,
            replies,
            watching,
        }),
        Err(disk) => Err(disk),
    }
}

// Puts behind a text what is told of a plan, where one is watched, behind a reply over as many
// commits as the reply's version says. The error is `NoMemory`.
fn put_value(
    alloc: Global,
    text: &mut Vec<u8>,
    watching: &Option<Watching>,
    reply: &Reply,
    writer: &mut AnswerWriter,
) -> Result<(), NoMemory>
    ensures { OnOk result ((plan : Option WatchPlan) (commits : List CommitValue)
        → WatchesFor plan commits watching.now → reply.now.version ≡ length commits
        → text.new.items ≡ text.old.items ++ told_behind plan reply.now.body commits) }
{
    match watching {
        None => Ok(()),
        Some(watching) => match &reply.body {
            ReplyBody::Done => {
                watching.tell(alloc, text, reply.version, writer)?;
                Ok(())
            }
            ReplyBody::Rows(_) => Ok(()),
            ReplyBody::Refused(_) => Ok(()),
            ReplyBody::DeviceFault => Ok(()),
            ReplyBody::BrokenJournal => Ok(()),
        },
    }
}

// Puts a reply behind a text, under the name of its session, and behind it what is told of a plan.
// The error is `NoMemory`.
fn put_told(
    alloc: Global,
    text: &mut Vec<u8>,
    watching: &Option<Watching>,
    name: &str,
    reply: &Reply,
    writer: &mut AnswerWriter,
) -> Result<(), NoMemory>
    ensures { OnOk result ((plan : Option WatchPlan) (commits : List CommitValue)
        → WatchesFor plan commits watching.now → reply.now.version ≡ length commits
        → text.new.items ≡ text.old.items
        ++ (reply_bytes name.now reply.now ++ told_behind plan reply.now.body commits)) }
{
    put_reply(alloc, text, name.as_bytes(), reply)?;
    put_value(alloc, text, watching, reply, writer)?;
    Ok(())
}

// Whether a reply with this body is a refusal.
fn is_refusal(body: &ReplyBody) -> bool
    ensures { result ≡ is_refusal body.now }
{
    match body {
        ReplyBody::Rows(_) => false,
        ReplyBody::Done => false,
        ReplyBody::Refused(_) => true,
        ReplyBody::DeviceFault => false,
        ReplyBody::BrokenJournal => false,
    }
}

// Puts the reply to a job with this body behind the replies, at the version of the group's
// snapshot, and what is told of the plan. The error, for memory or where there are 2^64 - 1 replies
// already, is the disk.
fn tell<D: Disk>(
    alloc: Global,
    playing: Playing<D>,
    name: &str,
    line: u64,
    body: ReplyBody,
    writer: &mut AnswerWriter,
) -> Result<Playing<D>, D>
    ensures group { IfOk result (λ done. done.group ≡ playing.group) }
    ensures watching { IfOk result (λ done. done.watching ≡ playing.watching) }
    ensures text { (plan : Option WatchPlan)
        → WatchesFor plan (commits_in playing.group) playing.watching
        → IfOk result (λ done. done.replies.text.items ≡ playing.replies.text.items
        ++ (body_bytes name.now (length (commits_in playing.group)) body
        ++ told_behind plan body (commits_in playing.group))) }
    ensures count { IfOk result (λ done. done.replies.count ≡ playing.replies.count + 1) }
    ensures refusal { IfOk result (λ done. done.replies.is_refusal ≡ is_refusal body) }
    ensures back { IfErr result (λ disk. disk ≡ playing.group.journal.disk) }
{
    let Playing {
        group,
        replies,
        watching,
    } = playing;
    let Replies {
        mut text,
        count,
        ..
    } = replies;
    let Some(count) = count.checked_add(1) else {
        return Err(group.into_disk());
    };
    let version = group.snapshot().store().versions();
    let refuses = is_refusal(&body);
    let reply = Reply {
        line,
        version,
        body,
    };
    match put_told(alloc, &mut text, &watching, name, &reply, writer) {
        Ok(()) => Ok(Playing {
            group,
            replies: Replies {
                text,
                count,
                is_refusal: refuses,
            },
            watching,
        }),
        Err(_) => Err(group.into_disk()),
    }
}

// What a job is answered with, before that is told.
#[derive(Drop)]
struct Settled<D: Disk> {
    playing: Playing<D>,
    body: ReplyBody,
}

// What a batch of an author is answered with: it is done, and waits, or it is refused. The error,
// for memory, is the disk.
fn settle<D: Disk>(
    alloc: Global,
    mut playing: Playing<D>,
    author: u32,
    batch: Batch,
) -> Result<Settled<D>, D>
    requires matching { IsTrue
        (batch_matches (database_of (commits_in playing.group)) batch) }
    requires standard { playing.group.limits ≡ standard_limits }
    requires watched { IsWatched (commits_in playing.group) playing.watching }
    ensures ok { IfOk result (λ s. AddsBatch author batch
        (length (commits_in s.playing.group)) s.body
        (commits_in playing.group) (commits_in s.playing.group)) }
    ensures watches { (plan : Option WatchPlan)
        → WatchesFor plan (commits_in playing.group) playing.watching
        → IfOk result (λ s. WatchesFor plan (commits_in s.playing.group) s.playing.watching) }
    ensures replies { IfOk result (λ s. s.playing.replies ≡ playing.replies) }
    ensures keeps { IfOk result (λ s. KeepsDisk D.Disk playing.group s.playing.group) }
    ensures back { IfErr result (IsGivenBack D.reads D.may_leave D.faults playing.group) }
{
    match playing.group.resolve_owned(alloc, batch, author) {
        Ok(commit) => match take_in(alloc, playing, &commit) {
            Ok(playing) => Ok(Settled {
                playing,
                body: ReplyBody::Done,
            }),
            Err(disk) => Err(disk),
        },
        Err(BatchFault::NoMemory) => Err(playing.group.into_disk()),
        Err(fault) => Ok(Settled {
            playing,
            body: ReplyBody::Refused(Refusal::BatchFault(fault)),
        }),
    }
}

// What a reading of a job of an author is answered with. The error, for memory, is the disk.
fn answer<D: Disk>(
    alloc: Global,
    playing: Playing<D>,
    author: u32,
    reading: JobReading,
) -> Result<Settled<D>, D>
    requires matching { DoesMatch (database_of (commits_in playing.group)) reading }
    requires standard { playing.group.limits ≡ standard_limits }
    requires watched { IsWatched (commits_in playing.group) playing.watching }
    ensures ok { IfOk result (λ s. Answers author reading
        (length (commits_in s.playing.group)) s.body
        (commits_in playing.group) (commits_in s.playing.group)) }
    ensures watches { (plan : Option WatchPlan)
        → WatchesFor plan (commits_in playing.group) playing.watching
        → IfOk result (λ s. WatchesFor plan (commits_in s.playing.group) s.playing.watching) }
    ensures replies { IfOk result (λ s. s.playing.replies ≡ playing.replies) }
    ensures keeps { IfOk result (λ s. KeepsDisk D.Disk playing.group s.playing.group) }
    ensures back { IfErr result (IsGivenBack D.reads D.may_leave D.faults playing.group) }
{
    match reading {
        JobReading::Loads(batch) => settle(alloc, playing, author, batch),
        JobReading::Query(answer) => Ok(Settled {
            playing,
            body: ReplyBody::Rows(answer),
        }),
        JobReading::Fault(refusal) => Ok(Settled {
            playing,
            body: ReplyBody::Refused(refusal),
        }),
    }
}

/// Does a job of the session with this name over a group, once the gate has let it pass, and puts
/// its reply behind the replies: a query is answered over the group's snapshot, a batch becomes a
/// commit that waits, and a fault is told at the version of the snapshot. Behind a reply that is
/// done stands the value of the plan, where one is watched. The block of the job is the one at the
/// crew's place. The error, for memory, is the disk, which keeps what it had.
pub(crate) fn play_job<D: Disk, G: Gate, R: AllocGlobal + Threads + Sync>(
    rt: &R,
    playing: Playing<D>,
    name: &str,
    job: &LentJob,
    crew: &mut Crew<'_, '_, G>,
) -> Result<Playing<D>, D>
    requires standard { playing.group.limits ≡ standard_limits }
    requires watched { IsWatched (commits_in playing.group) playing.watching }
    requires block { HasBlockAt job.now crew.old.reader.blocks crew.old.place }
    ensures ok { (plan : Option WatchPlan)
        → WatchesFor plan (commits_in playing.group) playing.watching
        → IfOk result (λ done. AnswersJob plan name.now (Acts meant (job_of job.now))
        (commits_in playing.group) (commits_in done.group)
        playing.replies.text.items done.replies.text.items
        playing.replies.count done.replies.count done.replies.is_refusal done.watching) }
    ensures keeps { IfOk result (λ done. KeepsDisk D.Disk playing.group done.group) }
    ensures back { IfErr result (IsGivenBack D.reads D.may_leave D.faults playing.group) }
    ensures same { crew.new.reader.blocks ≡ crew.old.reader.blocks }
{
    crew.gate.pass(Place::Statement(job.session));
    let Ok(reading) = read_job(rt, playing.group.snapshot(), job.text, crew) else {
        return Err(playing.group.into_disk());
    };
    let (alloc, line) = (rt.alloc(), job.line);
    match answer(alloc, playing, job.session, reading) {
        Ok(Settled { playing, body }) => {
            match tell(alloc, playing, name, line, body, &mut crew.writer) {
                Ok(done) => Ok(done),
                Err(disk) => Err(disk),
            }
        }
        Err(disk) => Err(disk),
    }
}
