//! A script played over a group: its phases as they come, and the jobs of each in the order of
//! their lines. The replies are kept as one text; the disk keeps what it had, and is handed back
//! where the script is given up. A play goes on at a statement that is refused, or it ends there.
ghost use Rattle.std.specs.Prelude.{◌≡◌, ◌<◌, ◌&&◌, All, IfErr, IfOk, length, map, true, []};
ghost use Rattle.std.specs.declared.option.Option.{Option};
ghost use Rattle.tl_types.specs.Limits.{standard_limits};
ghost use Rattle.tl_group.specs.Keeping.{commits_in};
ghost use Rattle.tl_group.specs.Standing.{IsGivenBack};
ghost use Rattle.tl_jobs.specs.Jobs.{job_of};
ghost use Rattle.tl_jobs.specs.Reading.{blocks_of};
ghost use Rattle.tl_watch.specs.declared.plans.WatchPlan.{WatchPlan};
ghost use Rattle.tl_command.specs.Coming.{HasNotBegun};
ghost use Rattle.tl_command.specs.declared.stops.Stop.TheVariants as stop;
ghost use Rattle.tl_command.specs.Jobs.{asked};
ghost use Rattle.tl_commands.specs.declared.playing.Cause.TheVariants as cause;
ghost use Rattle.tl_commands.specs.Playing.{JobsStop, KeepsDisk, PlayGivenUp, PlaysJobs, PlaysScript};
ghost use Rattle.tl_commands.specs.Telling.{IsWatched, WatchesFor};

use crate::steps::{Playing, Replies, play_job};
use std::alloc::Global;
use std::sync::Wait;
use std::thread::Threads;
use tl_command::{Phases, Stop, lent_jobs, stop_for};
use tl_csv::{AnswerWriter, BlockReader};
use tl_device::{Disk, Gate, Source};
use tl_jobs::{Crew, LentJob, Pace};
use tl_script::Phase;
use tl_types::NoMemory;

/// How the statements of a script are done: the pace, and the gate that they and the pieces of the
/// work of a query pass.
#[derive(Drop)]
pub(crate) struct Means<'a, G> {
    /// By how many workers the work of a query may be shared.
    pub pace: &'a Pace,
    /// What statements and pieces of work pass.
    pub gate: &'a G,
    /// Whether a statement that is refused ends the play.
    pub stops_at_refusal: bool,
}

/// Why a script was given up.
#[derive(Drop)]
pub enum Cause {
    /// No further phase is played, for this reason.
    Stop(Stop),
    /// A statement is refused, which ends the play. These are the replies up to its own.
    Refusal(Replies),
}

/// A script that was given up: why, and the disk, which keeps what it had.
#[derive(Drop)]
pub(crate) struct Stopped<D> {
    /// Why it was given up.
    pub cause: Cause,
    /// The disk of the group.
    pub disk: D,
}

// A script that is given up for memory.
fn out_of_memory<D>(disk: D) -> Stopped<D>
    ensures cause { result.cause ≡ cause.Stop stop.NoMemory }
    ensures disk { result.disk ≡ disk }
{
    Stopped {
        cause: Cause::Stop(Stop::NoMemory),
        disk,
    }
}

// A script that is given up at the refusal that is its last reply.
fn given_up<D: Disk>(playing: Playing<D>) -> Stopped<D>
    ensures cause { result.cause ≡ cause.Refusal playing.replies }
    ensures disk { result.disk ≡ playing.group.journal.disk }
{
    let Playing { group, replies, .. } = playing;
    Stopped {
        cause: Cause::Refusal(replies),
        disk: group.into_disk(),
    }
}

// Whether a reply ends a play.
fn ends_play(stops_at_refusal: bool, is_refusal: bool) -> bool
    ensures { result ≡ (stops_at_refusal && is_refusal) }
{
    stops_at_refusal && is_refusal
}

// Does the jobs one after the other. The error: memory ran out, or one is refused, which ends the
// play.
fn play_jobs<S: Source, D: Disk, P: Phases<S>, G: Gate, R: AllocGlobal + Threads + Sync>(
    rt: &R,
    playing: Playing<D>,
    phases: &P,
    jobs: &[LentJob],
    crew: &mut Crew<'_, '_, G>,
    stops_at_refusal: bool,
) -> Result<Playing<D>, Stopped<D>>
    requires standard { playing.group.limits ≡ standard_limits }
    requires watched { IsWatched (commits_in playing.group) playing.watching }
    requires sessions { All (λ job. job.session < length (P.coming phases.now).names) jobs.now }
    requires blocks { crew.old.reader.blocks ≡ blocks_of (map job_of jobs.now) }
    ensures ok { (plan : Option WatchPlan)
        → WatchesFor plan (commits_in playing.group) playing.watching
        → IfOk result (λ done. PlaysJobs stops_at_refusal plan (P.coming phases.now).names
        (map job_of jobs.now) (commits_in playing.group) (commits_in done.group)
        playing.replies.text.items done.replies.text.items
        playing.replies.count done.replies.count done.watching) }
    ensures keeps { IfOk result (λ done. KeepsDisk D.Disk playing.group done.group) }
    ensures stops { (plan : Option WatchPlan)
        → WatchesFor plan (commits_in playing.group) playing.watching
        → IfErr result (λ stopped. JobsStop stops_at_refusal plan (P.coming phases.now).names
        (map job_of jobs.now) (commits_in playing.group) playing.replies.text.items
        playing.replies.count stopped.cause) }
    ensures back { IfErr result
        (λ stopped. IsGivenBack D.reads D.may_leave D.faults playing.group stopped.disk) }
{
    let mut playing = playing;
    let mut place = 0;
    for job in jobs {
        crew.place = place;
        place += 1;
        let name = phases.session_name(job.session);
        match play_job(rt, playing, name, job, crew) {
            Ok(done) => {
                let ends = ends_play(stops_at_refusal, done.replies.is_refusal);
                if ends {
                    return Err(given_up(done));
                }
                playing = done;
            }
            Err(disk) => return Err(out_of_memory(disk)),
        }
    }
    Ok(playing)
}

// The blocks of the jobs, in order; of a job without one no bytes. The error is `NoMemory`.
fn blocks_of<'a>(alloc: Global, jobs: &[LentJob<'a>]) -> Result<Vec<&'a [u8]>, NoMemory>
    ensures { IfOk result (λ blocks. map (λ b. b.now) blocks.items
        ≡ blocks_of (map job_of jobs.now)) }
{
    let mut blocks = Vec::new(alloc);
    for job in jobs {
        blocks.push(job.block_bytes())?;
    }
    Ok(blocks)
}

// Does the jobs of a phase, whose blocks are read by one reader. The error: memory ran out, or one
// is refused, which ends the play.
fn play_phase<S: Source, D: Disk, P: Phases<S>, G: Gate, R: AllocGlobal + Threads + Sync>(
    rt: &R,
    playing: Playing<D>,
    phases: &P,
    phase: &Phase,
    means: &Means<'_, G>,
) -> Result<Playing<D>, Stopped<D>>
    requires standard { playing.group.limits ≡ standard_limits }
    requires watched { IsWatched (commits_in playing.group) playing.watching }
    requires sessions { All (λ job. job.session < length (P.coming phases.now).names)
        phase.now.jobs.items }
    ensures ok { (plan : Option WatchPlan)
        → WatchesFor plan (commits_in playing.group) playing.watching
        → IfOk result (λ done. PlaysJobs means.now.stops_at_refusal plan
        (P.coming phases.now).names (map asked phase.now.jobs.items)
        (commits_in playing.group) (commits_in done.group)
        playing.replies.text.items done.replies.text.items
        playing.replies.count done.replies.count done.watching) }
    ensures keeps { IfOk result (λ done. KeepsDisk D.Disk playing.group done.group) }
    ensures stops { (plan : Option WatchPlan)
        → WatchesFor plan (commits_in playing.group) playing.watching
        → IfErr result (λ stopped. JobsStop means.now.stops_at_refusal plan
        (P.coming phases.now).names (map asked phase.now.jobs.items)
        (commits_in playing.group) playing.replies.text.items playing.replies.count
        stopped.cause) }
    ensures back { IfErr result
        (λ stopped. IsGivenBack D.reads D.may_leave D.faults playing.group stopped.disk) }
{
    let alloc = rt.alloc();
    let Ok(jobs) = lent_jobs(alloc, &phase.jobs) else {
        return Err(out_of_memory(playing.group.into_disk()));
    };
    let Ok(blocks) = blocks_of(alloc, jobs.as_slice()) else {
        return Err(out_of_memory(playing.group.into_disk()));
    };
    let Ok(reader) = BlockReader::over(alloc, blocks.as_slice()) else {
        return Err(out_of_memory(playing.group.into_disk()));
    };
    let mut crew = Crew {
        pace: means.pace,
        gate: means.gate,
        reader,
        place: 0,
        writer: AnswerWriter::new(),
    };
    let stops = means.stops_at_refusal;
    play_jobs::<S, D, P, G, R>(rt, playing, phases, jobs.as_slice(), &mut crew, stops)
}

/// Plays the phases one after the other to their end. The error: why they stopped before that, at a
/// fault of the script or the source, at a statement that is refused where that ends the play, or
/// where memory ran out; with the disk, which keeps what it had.
pub(crate) fn play_phases<
    S: Source,
    D: Disk,
    P: Phases<S>,
    G: Gate,
    R: AllocGlobal + Threads + Wait + Sync,
>(
    rt: &R,
    playing: Playing<D>,
    phases: &mut P,
    source: &mut S,
    means: &Means<'_, G>,
) -> Result<Playing<D>, Stopped<D>>
    requires fresh { HasNotBegun (P.coming phases.old) }
    requires standard { playing.group.limits ≡ standard_limits }
    requires watched { IsWatched (commits_in playing.group) playing.watching }
    requires silent { playing.replies.text.items ≡ [] }
    requires uncounted { playing.replies.count ≡ 0 }
    ensures plays { (plan : Option WatchPlan)
        → WatchesFor plan (commits_in playing.group) playing.watching
        → IfOk result (λ done. PlaysScript means.now.stops_at_refusal plan
        ((P.coming phases.old).reads true) (commits_in playing.group) (commits_in done.group)
        done.replies.text.items (S.left source.old) (S.left source.new)) }
    ensures sure { IfOk result (λ done. S.faults source.new ≡ S.faults source.old) }
    ensures keeps { IfOk result (λ done. KeepsDisk D.Disk playing.group done.group) }
    ensures stops { (plan : Option WatchPlan)
        → WatchesFor plan (commits_in playing.group) playing.watching
        → IfErr result (λ stopped. PlayGivenUp means.now.stops_at_refusal plan
        (P.coming phases.old).reads (commits_in playing.group) stopped.cause
        (S.left source.old) (S.left source.new) (S.faults source.old) (S.faults source.new)) }
    ensures back { IfErr result
        (λ stopped. IsGivenBack D.reads D.may_leave D.faults playing.group stopped.disk) }
{
    let mut playing = playing;
    'phases: for _ in rt.forever() {
        let brought = phases.next(rt.alloc(), source);
        match brought {
            Ok(Some(phase)) => match play_phase::<S, D, P, G, R>(
                rt, playing, phases, &phase, means,
            ) {
                Ok(done) => playing = done,
                Err(stopped) => return Err(stopped),
            },
            Ok(None) => return Ok(playing),
            Err(error) => {
                return Err(Stopped {
                    cause: Cause::Stop(stop_for(error)),
                    disk: playing.group.into_disk(),
                });
            }
        }
    }
    unreachable!()
}
