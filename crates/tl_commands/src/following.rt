//! A journal is opened, the packets of the source make commits behind its own, and these are
//! appended as one group. Where the input has a fault or fails, or memory runs out, the disk keeps
//! what it had.
ghost use Rattle.std.specs.Prelude.{◌≡◌, ◌≢◌, ◌++◌, [], length, map, false, IfErr, IfOk, OnOk};
ghost use Rattle.std.specs.String.{string_bytes};
ghost use Rattle.tl_types.specs.Entries.{commits_of, has_break};
ghost use Rattle.tl_types.specs.History.{database_of};
ghost use Rattle.tl_types.specs.Legality.{FitFrom};
ghost use Rattle.tl_types.specs.Limits.{standard_limits};
ghost use Rattle.tl_index.specs.Snapshots.{commit_entry};
ghost use Rattle.tl_script.specs.Reader.{TakesBlock};
ghost use Rattle.tl_command.specs.Closing.{Closes, WritesNothing};
ghost use Rattle.tl_command.specs.Outside.{outside};
ghost use Rattle.tl_command.specs.declared.statuses.Status.TheVariants as status;
ghost use Rattle.tl_group.specs.Keeping.{commits_in};
ghost use Rattle.tl_commands.specs.Appending.{IsAttached};
ghost use Rattle.tl_commands.specs.Following.{Extends, FailsBytes, FailsInput, FailsPiece, FollowEnds, FollowEndsBy, ReadsWhole, TakesCommits, follow_line};

use crate::grouping::append;
use std::alloc::Global;
use tl_command::{Ending, Status, close, end_refused};
use tl_device::{Disk, Sink, Source};
use tl_follow::{Followed, INPUT_LIMIT, PacketFault, PacketReader};
use tl_group::Group;
use tl_index::Snapshot;
use tl_journal::Refused;
use tl_script::{NextError, read_block};
use tl_types::{Bytes, Limits, NoMemory, Published};

// A piece of at most so many bytes that is the rest of the input, or one of more. It answers why
// there is none.
fn next_piece<S: Source>(alloc: Global, source: &mut S, most: usize) -> Result<Bytes, Status>
    ensures takes { IfOk result
        (λ piece. TakesBlock most (S.left source.old) piece (S.left source.new)) }
    ensures err { IfErr result (FailsPiece (S.faults source.old) (S.faults source.new)) }
    ensures sure { OnOk result (S.faults source.new ≡ S.faults source.old) }
{
    match read_block(alloc, source, most as u64) {
        Ok(piece) => Ok(piece),
        Err(NextError::NoMemory) => Err(Status::NoMemory),
        Err(NextError::Source { faults }) => Err(Status::SourceFault { faults }),
        Err(NextError::Fault(_)) => unreachable!(),
    }
}

// A reader that was given the whole input behind a history, or why there is none.
fn read_input<S: Source>(
    alloc: Global,
    snapshot: Snapshot,
    source: &mut S,
) -> Result<PacketReader, Status>
    requires whole { has_break snapshot ≡ false }
    ensures ok { IfOk result (λ r. ReadsWhole snapshot (S.left source.old) r (S.left source.new)) }
    ensures err { IfErr result (FailsBytes (S.left source.old) (S.faults source.old)
        (S.faults source.new)) }
    ensures sure { OnOk result (S.faults source.new ≡ S.faults source.old) }
{
    let mut reader = PacketReader::start(alloc, snapshot, &Limits::standard());
    'reading: loop {
        let room = INPUT_LIMIT - reader.count();
        let most = reader.next_size().min(room);
        let piece = match next_piece(alloc, source, most) {
            Ok(piece) => piece,
            Err(ended) => return Err(ended),
        };
        if piece.len() > room {
            return Err(Status::PacketFault {
                at: INPUT_LIMIT as u64,
            });
        }
        let is_last = piece.len() <= most;
        let Ok(next) = reader.read(alloc, piece) else {
            return Err(Status::NoMemory);
        };
        reader = next;
        if is_last {
            return Ok(reader);
        }
    }
}

// The commits that the packets of the whole input make behind those of a snapshot, with the
// snapshot that they make, or why there are none.
fn follow_source<S: Source>(
    alloc: Global,
    snapshot: Snapshot,
    source: &mut S,
) -> Result<Followed, Status>
    requires whole { has_break snapshot ≡ false }
    ensures ok { IfOk result (λ f. TakesCommits (commits_of snapshot) (S.left source.old)
        (S.left source.new) f.commits) }
    ensures next { IfOk result (λ f. f.snapshot ≡ snapshot ++ map commit_entry f.commits) }
    ensures err { IfErr result (FailsInput (commits_of snapshot) (S.left source.old)
        (S.faults source.old) (S.faults source.new)) }
    ensures sure { OnOk result (S.faults source.new ≡ S.faults source.old) }
{
    let reader = match read_input(alloc, snapshot, source) {
        Ok(reader) => reader,
        Err(ended) => return Err(ended),
    };
    match reader.finish() {
        Ok(followed) => Ok(followed),
        Err(PacketFault::BadPacket { at }) => Err(Status::PacketFault { at: at as u64 }),
        Err(PacketFault::NoMemory) => Err(Status::NoMemory),
    }
}

// The same behind a group, which stays as it is.
fn take_input<S: Source, D: Disk>(
    alloc: Global,
    group: &Group<D>,
    source: &mut S,
) -> Result<Followed, Status>
    ensures ok { IfOk result (λ f. TakesCommits (commits_in group.now) (S.left source.old)
        (S.left source.new) f.commits) }
    ensures next { IfOk result
        (λ f. f.snapshot ≡ group.now.entries ++ map commit_entry f.commits) }
    ensures err { IfErr result (FailsInput (commits_in group.now) (S.left source.old)
        (S.faults source.old) (S.faults source.new)) }
    ensures sure { OnOk result (S.faults source.new ≡ S.faults source.old) }
{
    let Ok(snapshot) = group.snapshot().share() else {
        return Err(Status::NoMemory);
    };
    match follow_source(alloc, snapshot, source) {
        Ok(followed) => Ok(followed),
        Err(ended) => Err(ended),
    }
}

// The line that tells how many commits there are. The error is `NoMemory`.
fn line_of(alloc: Global, followed: &Followed) -> Result<String, NoMemory>
    ensures { IfOk result (λ line. string_bytes line
        ≡ follow_line (length (commits_of followed.now.snapshot))) }
{
    let count = followed.snapshot.store().versions();
    format!(in alloc; "follow @{count}\n")
}

// Appends the commits behind those of a group, and writes how many there are then.
fn extend<K: Sink, D: Disk>(
    alloc: Global,
    group: Group<D>,
    followed: Followed,
    sink: &mut K,
) -> Ending<D>
    requires standard { group.limits ≡ standard_limits }
    requires fit { FitFrom standard_limits (database_of (commits_in group)) followed.commits }
    requires next { followed.snapshot ≡ group.entries ++ map commit_entry followed.commits }
    ensures { Extends K.Sink D.Disk group followed.commits sink.old sink.new
        result.disk result.status }
{
    let Ok(line) = line_of(alloc, &followed) else {
        return Ending {
            status: Status::NoMemory,
            disk: group.into_disk(),
        };
    };
    let Followed { commits, snapshot } = followed;
    match group
        .without_keys()
        .extend(alloc, commits.as_slice(), snapshot)
    {
        Ok(group) => append(group, line.as_bytes(), sink),
        Err(disk) => Ending {
            status: Status::NoMemory,
            disk,
        },
    }
}

// Closes a run whose input made no commits: its closing line is written, unless memory ran out.
fn close_without_commits<K: Sink>(alloc: Global, sink: &mut K, ended: Status) -> Status
    ensures memory { ended ≡ status.NoMemory → WritesNothing status.NoMemory (K.written sink.old)
        (K.written sink.new) (K.faults sink.old) (K.faults sink.new) result }
    ensures line { ended ≢ status.NoMemory → Closes [] ended (K.written sink.old)
        (K.written sink.new) (K.faults sink.old) (K.faults sink.new) result }
{
    match ended {
        Status::NoMemory => Status::NoMemory,
        _ => close(alloc, sink, ended),
    }
}

// Takes the input behind a group as it was opened, and appends what its packets make.
fn follow_over<S: Source, K: Sink, D: Disk>(
    alloc: Global,
    group: Group<D>,
    source: &mut S,
    sink: &mut K,
) -> Ending<D>
    requires standard { group.limits ≡ standard_limits }
    ensures { (begun : D) → IsAttached D.Disk begun group → FollowEndsBy (commits_in group)
        (outside S.Source K.Sink D.Disk source.old sink.old begun)
        (outside S.Source K.Sink D.Disk source.new sink.new result.disk) result.status }
{
    match take_input(alloc, &group, source) {
        Ok(followed) => extend(alloc, group, followed, sink),
        Err(ended) => Ending {
            status: close_without_commits(alloc, sink, ended),
            disk: group.into_disk(),
        },
    }
}

/// Appends the commits that the packets of the source make behind those of the journal on the disk,
/// as one group: all of them or none. The source is read to its end first; it may have its packets
/// in any order, and more than once. How it ends, and what is then written and on the disk, by
/// status, is what `FollowEnds` says.
pub fn follow<S: Source, K: Sink, D: Disk>(
    alloc: Global,
    source: &mut S,
    sink: &mut K,
    disk: D,
) -> Ending<D>
    ensures { FollowEnds
        (outside S.Source K.Sink D.Disk source.old sink.old disk)
        (outside S.Source K.Sink D.Disk source.new sink.new result.disk) result.status }
{
    match Group::attach(alloc, disk, &Limits::standard()) {
        Err(Refused { fault, disk }) => Ending {
            status: end_refused(alloc, sink, fault),
            disk,
        },
        Ok(group) => follow_over(alloc, group, source, sink),
    }
}
