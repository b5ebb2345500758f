//! Runs of the program's call over a disk in memory.
use std::alloc::Global;
use std::sync::Wait;
use std::thread::Threads;
use tl_device::{Gate, MemoryDisk, MemorySink, OpenGate, RealSource};
use tl_program::{Ending, Status, timeline};
use tl_types::NoMemory;

/// How a run is to end: its status, and what it writes.
pub(crate) type Wanted = (u8, &'static str);

/// The one word of a command.
pub(crate) fn words(alloc: Global, word: &str) -> Result<Vec<String>, NoMemory> {
    let mut words = Vec::new(alloc);
    words.push(String::from_str(alloc, word)?)?;
    Ok(words)
}

/// These words.
pub(crate) fn words_of(alloc: Global, texts: &[&str]) -> Result<Vec<String>, NoMemory> {
    let mut words = Vec::new(alloc);
    for text in texts {
        words.push(String::from_str(alloc, text)?)?;
    }
    Ok(words)
}

/// The journal of no commit.
pub(crate) const EMPTY: &[u8] = b"timeline journal\0";

/// A disk with these bytes, of which the calls with these numbers fail.
pub(crate) fn disk_of(
    alloc: Global,
    bytes: &[u8],
    failing: &[u64],
) -> Result<MemoryDisk, NoMemory> {
    Ok(MemoryDisk::new(alloc, bytes.to_vec(alloc)?, failing.to_vec(alloc)?))
}

fn is_so(status: &Status, sink: &MemorySink, wanted: Wanted) -> bool {
    let (number, text) = wanted;
    status.number() == number && sink.bytes() == text.as_bytes()
}

/// Runs a command over a disk with this script as input. It answers whether it ended so, and the
/// disk.
pub(crate) fn run_by<R: AllocGlobal + Threads + Wait + Sync, G: Gate>(
    rt: &R,
    words: &[String],
    script: &str,
    disk: MemoryDisk,
    wanted: Wanted,
    gate: &G,
) -> (bool, MemoryDisk) {
    let mut source = RealSource::new(script.as_bytes());
    let mut sink = MemorySink::new(rt.alloc(), Vec::new(rt.alloc()));
    let Ending { status, disk } = timeline(rt, words, &mut source, &mut sink, disk, gate);
    (is_so(&status, &sink, wanted), disk)
}

/// The same by a gate that lets all pass.
pub(crate) fn run<R: AllocGlobal + Threads + Wait + Sync>(
    rt: &R,
    words: &[String],
    script: &str,
    disk: MemoryDisk,
    wanted: Wanted,
) -> (bool, MemoryDisk) {
    run_by(rt, words, script, disk, wanted, &OpenGate)
}
