//! The call that looks: it reads a journal's file whole, and over a disk in memory that has its
//! bytes it runs the top call, or asks queries with the names of their columns. A file that fails
//! ends it before anything else is read or run.
ghost use Rattle.std.specs.Prelude.{◌≡◌, ℕ, false};
ghost use Rattle.tl_command.specs.Outside.{streams};
ghost use Rattle.tl_program.specs.Commands.{command_of, reads_source, texts_of};
ghost use Rattle.tl_look.specs.Looking.{asks_names, looks_at_source, AsksOver, DoesOver, Looks, RunsOver};

use std::sync::Wait;
use std::thread::Threads;
use tl_asking::ask;
use tl_command::close;
use tl_device::{Gate, Sink, Source, SureDisk};
use tl_jobs::Pace;
use tl_log::{ReadFault, read_all};
use tl_program::{Status, timeline};

// Runs what the words ask for over a disk in memory that has these bytes, and forgets the disk.
fn run_over<R: AllocGlobal + Threads + Wait + Sync, S: Source, K: Sink, G: Gate>(
    rt: &R,
    words: &[String],
    image: Vec<u8>,
    source: &mut S,
    sink: &mut K,
    gate: &G,
) -> Status
    ensures runs { RunsOver (texts_of words.now) image.items
        (streams S.Source K.Sink source.old sink.old)
        (streams S.Source K.Sink source.new sink.new) result }
    ensures unread { reads_source (command_of (texts_of words.now)) ≡ false
        → source.new ≡ source.old }
{
    let disk = SureDisk::new(rt.alloc(), image);
    let ending = timeline(rt, words, source, sink, disk, gate);
    ending.status
}

// After how many events a table gets a mark where a journal has so many bytes: 4,096, and more
// where the journal is large, since each mark has a bit for each row. An event takes some twenty
// bytes, so a large table gets some 25 marks.
fn events_between_marks(bytes: usize) -> u32 {
    (bytes / 512).max(4096).min(16_777_216) as u32
}

// Asks the queries of the script that the source has over a disk in memory that has these bytes,
// by four workers, with few marks, and forgets the disk.
fn ask_over<R: AllocGlobal + Threads + Wait + Sync, S: Source, K: Sink, G: Gate>(
    rt: &R,
    image: Vec<u8>,
    source: &mut S,
    sink: &mut K,
    gate: &G,
) -> Status
    ensures { AsksOver image.items
        (streams S.Source K.Sink source.old sink.old)
        (streams S.Source K.Sink source.new sink.new) result }
{
    let (alloc, pace) = (rt.alloc(), Pace::new(4, events_between_marks(image.len())));
    let disk = SureDisk::new(alloc, image);
    let ending = ask(rt, &pace, source, sink, disk, gate);
    ending.status
}

// Whether the words ask for the names of an answer's columns.
fn asks_names(words: &[String]) -> bool
    ensures { result ≡ asks_names (texts_of words.now) }
{
    match words {
        [word] => word.as_str() == "--names",
        _ => false,
    }
}

// Does what the words ask for over a disk in memory that has these bytes.
fn do_over<R: AllocGlobal + Threads + Wait + Sync, S: Source, K: Sink, G: Gate>(
    rt: &R,
    words: &[String],
    image: Vec<u8>,
    source: &mut S,
    sink: &mut K,
    gate: &G,
) -> Status
    ensures does { DoesOver (asks_names (texts_of words.now)) (texts_of words.now) image.items
        (streams S.Source K.Sink source.old sink.old)
        (streams S.Source K.Sink source.new sink.new) result }
    ensures unread { looks_at_source (texts_of words.now) ≡ false → source.new ≡ source.old }
{
    let with_names = asks_names(words);
    if with_names {
        return ask_over(rt, image, source, sink, gate);
    }
    run_over(rt, words, image, source, sink, gate)
}

/// Reads all that `file` has left, and does over a disk in memory that has these bytes what the
/// words ask for: `words` are the words after the program's name, and the source, the sink and the
/// gate are those of `timeline`. What is asked is the journal as it was when it was read, and what
/// a script commits is forgotten with the disk. Of `file` nothing but reads is asked, so it stays
/// as it is.
///
/// - `--names` alone: the queries of the script that the source gives are answered, as `ask` does
///   it, each with a line of its columns' names before its rows; no other statement is taken.
/// - Any other words: what `timeline` does, for which they are its words.
///
/// The order is: the file; then what is asked for, with the statuses and closing lines of
/// `timeline`. Before that, with the source unread:
/// - `NoMemory`: memory ran out, and nothing is written.
/// - `DiskFault`: the file failed; its count of faults, which the status has, rose in this call.
///   The closing line `! device` alone is written.
/// - `SinkFault`: the same, and the sink failed too, behind some prefix of that line; its count of
///   faults rose in this call.
///
/// A disk in memory never fails, so once the file is read no `DiskFault` comes. The call may wait,
/// and starts threads of its own, which end with it.
pub fn look<R: AllocGlobal + Threads + Wait + Sync, F: Source, S: Source, K: Sink, G: Gate>(
    rt: &R,
    words: &[String],
    file: &mut F,
    source: &mut S,
    sink: &mut K,
    gate: &G,
) -> Status
    ensures looks { Looks (texts_of words.now) (F.left file.old)
        (F.faults file.old) (F.faults file.new)
        (streams S.Source K.Sink source.old sink.old)
        (streams S.Source K.Sink source.new sink.new) result }
    ensures unread { looks_at_source (texts_of words.now) ≡ false → source.new ≡ source.old }
{
    match read_all(rt.alloc(), file) {
        Ok(image) => do_over(rt, words, image, source, sink, gate),
        Err(ReadFault::NoMemory) => Status::NoMemory,
        Err(ReadFault::Source { faults }) => close(rt.alloc(), sink, Status::DiskFault { faults }),
    }
}
