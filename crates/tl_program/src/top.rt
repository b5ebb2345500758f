//! The top call: the whole of what the program does, by what its words ask for. It hands the disk
//! back, and refuses words that are no command before anything is read.
ghost use Rattle.std.specs.Prelude.{◌≡◌, ℕ, List, false};
ghost use Rattle.std.specs.declared.option.Option.{Option};
ghost use Rattle.tl_command.specs.Closing.{InitEnds};
ghost use Rattle.tl_command.specs.Outside.{outside, outside_from};
ghost use Rattle.tl_program.specs.Commands.{command_of, reads_source, texts_of, uses_disk};
ghost use Rattle.tl_program.specs.Ending.{Ends, EndsBy};
ghost use Rattle.tl_program.specs.Headline.{Completes, Headline};

use crate::commands::{Command, Settings, settings_of};
use std::alloc::Global;
use std::sync::Wait;
use std::thread::Threads;
use tl_command::{Ending, Status, close, end_refused};
use tl_commands::{
    Paced, WatchText, follow, group, load, run_sample, run_script, ship, transact, watch,
};
use tl_device::{Disk, Gate, Sink, Source};
use tl_journal::{InitRun, Journal};

// Makes an empty journal.
fn init<K: Sink, D: Disk>(alloc: Global, sink: &mut K, disk: D) -> Ending<D>
    ensures { (left : Option (List ℕ)) (faults : ℕ) → InitEnds
        (outside_from K.Sink D.Disk left faults sink.old disk)
        (outside_from K.Sink D.Disk left faults sink.new result.disk) result.status }
{
    let InitRun { done, disk } = Journal::init(disk);
    match done {
        Ok(()) => Ending {
            status: Status::Done,
            disk,
        },
        Err(fault) => Ending {
            status: end_refused(alloc, sink, fault),
            disk,
        },
    }
}

// Does what the words ask for.
fn do_command<R: AllocGlobal + Threads + Wait + Sync, S: Source, K: Sink, D: Disk + Send, G: Gate>(
    rt: &R,
    settings: Settings,
    source: &mut S,
    sink: &mut K,
    disk: D,
    gate: &G,
) -> Ending<D>
    ensures ends { EndsBy settings.command
        (outside S.Source K.Sink D.Disk source.old sink.old disk)
        (outside S.Source K.Sink D.Disk source.new sink.new result.disk) result.status }
    ensures unread { reads_source settings.command ≡ false → source.new ≡ source.old }
    ensures unused { uses_disk settings.command ≡ false → result.disk ≡ disk }
{
    let Settings { command, pace } = settings;
    match command {
        None => Ending {
            status: close(rt.alloc(), sink, Status::Usage),
            disk,
        },
        Some(Command::Init) => init(rt.alloc(), sink, disk),
        Some(Command::Run) => run_script(rt, pace, source, sink, disk, gate),
        Some(Command::Load { table }) => {
            let of = table.as_str();
            load(rt, Paced { of, pace }, source, sink, disk, gate)
        }
        Some(Command::Sample { lines, start }) => Ending {
            status: run_sample(rt, lines, start, pace, sink, gate),
            disk,
        },
        Some(Command::Group) => group(rt, &pace, source, sink, disk, gate),
        Some(Command::Ship { from, to }) => ship(rt.alloc(), from, to, sink, disk),
        Some(Command::Follow) => follow(rt.alloc(), source, sink, disk),
        Some(Command::Watch { text }) => {
            let word = text.as_str();
            let watched = WatchText {
                text: word,
                pace: &pace,
            };
            watch(rt, &watched, source, sink, disk, gate)
        }
        Some(Command::Transact) => transact(rt, &pace, source, sink, disk, gate),
    }
}

/// All that the program does: it opens the journal on the disk, runs the statements of a script
/// over the tables of its commits, appends each commit to the journal before it answers it, and
/// writes one reply for each statement to the sink. It hands the disk back.
///
/// `words` are the words after the program's name:
/// - `init` makes an empty journal on a disk of at most 17 bytes, and writes nothing to the sink.
/// - `run` opens the journal and runs the script that the source gives.
/// - `load TABLE` opens the journal and puts all that the source gives as one block of rows, by one
///   statement `PUT TABLE` of a session `load`.
/// - `sample N START` runs jobs that are made from the two numbers, over a journal of its own in
///   memory: a table, N rows in blocks of 10,000, and three queries. Neither the source nor the
///   disk is used.
/// - `group` opens the journal, runs the jobs of the script that the source gives one after the
///   other, appends all their commits at once, and then writes the replies.
/// - `ship V W` opens the journal, and writes its commits with versions from V to W, 0 to
///   16,777,215, as packets. The source is not used.
/// - `follow` opens the journal, reads packets to the end of the source, appends the commits that
///   they make behind the journal's at once, and writes how many there are then.
/// - `watch TEXT` opens the journal and does what `group` does, with one plan: TEXT is an aggregate
///   `OVER SYSTEM ALL`, and behind each reply `ok` stand the line `watch @V rows N` and the N rows
///   of its value at the version V of the reply. The range is not used.
/// - `transact` opens the journal and does what `group` does, but ends at the first statement that
///   is refused, and appends nothing then.
///
/// Behind `run`, `load TABLE` and `sample N START` may stand `--workers W` and `--every K`, in
/// either order, each at most once. The work of a query may be shared by W workers, 1 to 64, and 4
/// where it is not given. A table gets a mark where it has K events or more after its last one, K
/// from 0 to 16,777,216, and 4096 where it is not given; for 0 there are no marks. What is answered
/// and kept is right for each of them.
///
/// The order is, of `group`, `transact`, `follow` and `watch`: the words; opening; the text of
/// `watch`; the source and what it has; the append; writing. `transact` does the jobs of each phase
/// as it comes, so what comes first in the script ends it, a statement that is refused, a phase
/// with a fault, or a source that fails. Of a run it is: the words; opening; then for each phase
/// reading the source, the faults of the script, running, writing. The sessions of a phase run at
/// once, each its own jobs in order; their replies are written, in the order of the jobs' lines,
/// before more of the source is read. The statuses of a run, each with its closing line but for
/// `Done`, `NoMemory` and `SinkFault`:
/// - `Done`: the source was read to its end, and the bytes written are the replies to all jobs, a
///   transcript of the script's phases. The disk holds the journal of the commits that they end
///   with, also in a crash. Where each phase has jobs of one session, the replies are those of the
///   jobs done one after the other.
/// - `NoMemory`: memory ran out. The replies of the phases before that are written; the disk may
///   hold commits of jobs of the phase in which it ran out.
/// - `Usage`: where the words are no command. Neither the source nor the disk is used.
/// - `SourceFault`: only where the source's count of faults rose in this call. The replies are
///   those of the phases whose `GO` lines were among the bytes taken.
/// - `SinkFault`: only where the sink's count of faults rose in this call; what is written is a
///   prefix of the bytes that the run was to write, with all replies of the phases before the last
///   one that was run. The disk holds the commits of its jobs too.
/// - `DiskFault`: only where the disk's count of faults rose in this call. Where it came in opening
///   or in `init`, the closing line alone is written. Where it came in an append, that batch is
///   answered `! device`, and `! broken` each batch without a fault of its own that its session, or
///   any in a later phase, brings after it. Queries are answered still, and the disk holds the
///   commits before the batch, or these and its own.
/// - `ScriptFault`: where the script has that fault. No statement of its phase is run; the replies
///   are those of the phases before it.
/// - `NotInitialised`, `Damaged`: where the disk's bytes are no journal, or one whose commits do
///   not fit one after the other. `AlreadyInitialised`: where `init` finds more than 17 bytes. The
///   closing line alone is written, the source is unread, and the disk reads as it did.
/// - `PacketFault`: where what `follow` read is too long, no packets, or packets that come to a
///   commit that does not fit. The closing line alone is written, and the disk keeps its journal.
/// - `WatchFault`: where the text of `watch` is no statement, another than an aggregate `OVER
///   SYSTEM ALL`, or does not fit the tables that the journal's commits make. The closing line
///   alone is written, the source is unread, and the disk keeps its journal.
/// - `StatementRefused`: where `transact` did the jobs of the script one after the other up to this
///   one, from 1, which is refused, and none before it is. The replies up to its own are written,
///   and the closing line; no more of the script is read, and the disk keeps its journal.
///
/// Of `group`, `transact`, `follow` and `watch` the disk keeps its journal, or holds this and all
/// commits that were to be appended, and never a part of them: all at `Done`, the one or the other
/// at `DiskFault` and `SinkFault`, and the journal alone else. At `Done` the replies are written,
/// with what is told of the plan of `watch`, or the line that tells how many commits there are; at
/// `SinkFault` a prefix of these or of what was to close; else, but for `StatementRefused`, the
/// closing line alone, or nothing. `ship` keeps the journal as it is, and writes all packets at
/// `Done`, and a prefix of them at `SinkFault`.
///
/// With the words of a command, a disk whose bytes are a journal of commits that fit one after the
/// other (for `init` at most 17 bytes), a script, or for `follow` packets, without a fault, for
/// `watch` a text that names a plan over the journal's commits, and no count that rises, the status
/// is `Done` or `NoMemory`. Of `transact` it is `Done` or `NoMemory` where no statement is refused,
/// and else `StatementRefused` or `NoMemory`. The call may wait, and starts threads of its own,
/// which end with it.
pub fn timeline<
    R: AllocGlobal + Threads + Wait + Sync,
    S: Source,
    K: Sink,
    D: Disk + Send,
    G: Gate,
>(rt: &R, words: &[String], source: &mut S, sink: &mut K, disk: D, gate: &G) -> Ending<D>
    ensures ends { Ends (texts_of words.now)
        (outside S.Source K.Sink D.Disk source.old sink.old disk)
        (outside S.Source K.Sink D.Disk source.new sink.new result.disk) result.status }
    ensures headline { Headline (texts_of words.now)
        (outside S.Source K.Sink D.Disk source.old sink.old disk)
        (outside S.Source K.Sink D.Disk source.new sink.new result.disk) result.status }
    ensures complete { Completes (texts_of words.now)
        (outside S.Source K.Sink D.Disk source.old sink.old disk)
        (outside S.Source K.Sink D.Disk source.new sink.new result.disk) result.status }
    ensures unread { reads_source (command_of (texts_of words.now)) ≡ false
        → source.new ≡ source.old }
    ensures unused { uses_disk (command_of (texts_of words.now)) ≡ false
        → result.disk ≡ disk }
{
    match settings_of(rt.alloc(), words) {
        Ok(settings) => do_command(rt, settings, source, sink, disk, gate),
        Err(_) => Ending {
            status: Status::NoMemory,
            disk,
        },
    }
}
