//! Forms of sources and sinks that no other crate's tests use, and the adapters over readers,
//! writers and files of std that work and that fail.

use std::alloc::Global;
use std::io::{ErrorKind, Read, Write};
use std::rt::Files;
use std::test::Fail;
use std::{env, fs, io};
use tl_device::{
    Disk, Failed, FileDisk, Lockable, MemorySink, NoMemory, RealSink, RealSource, Sink, Source,
    SureSink, SureSource, write_all,
};

// A reader that fails.
#[derive(Drop)]
struct Broken;

impl Read for Broken {
    fn read(&mut self, _buf: &mut [u8]) -> io::Result<usize> {
        Err(io::Error::from(ErrorKind::Other))
    }
}

// A writer that takes nothing.
#[derive(Drop)]
struct Full;

impl Write for Full {
    fn write(&mut self, _buf: &[u8]) -> io::Result<usize> {
        Ok(0)
    }

    fn flush(&mut self) -> io::Result<()> {
        Ok(())
    }
}

// A writer that takes all and cannot flush it.
#[derive(Drop)]
struct Unflushed;

impl Write for Unflushed {
    fn write(&mut self, buf: &[u8]) -> io::Result<usize> {
        Ok(buf.len())
    }

    fn flush(&mut self) -> io::Result<()> {
        Err(io::Error::from(ErrorKind::Other))
    }
}

// What a source gives in at most so many reads of up to 16 bytes, and whether one failed.
fn taken<S: Source>(
    alloc: Global,
    source: &mut S,
    reads: usize,
) -> Result<(Vec<u8>, bool), NoMemory> {
    let mut bytes = Vec::new(alloc);
    for _ in 0..reads {
        let mut piece = [0; 16];
        match source.read(&mut piece) {
            Ok(number) => bytes.extend_from_slice(&piece[..number])?,
            Err(Failed) => return Ok((bytes, true)),
        }
    }
    Ok((bytes, false))
}

// Whether the sink took all of `from`, for which room is made first.
fn took<K: Sink>(sink: &mut K, from: &[u8]) -> bool {
    sink.room(from.len() as u64).is_ok() && write_all(sink, from).is_ok()
}

// Whether at most so many reads of a source give these bytes, with a fault or without.
fn gives<S: Source>(alloc: Global, source: &mut S, reads: usize, want: &[u8], fails: bool) -> bool {
    match taken(alloc, source, reads) {
        Ok((bytes, failed)) => bytes.as_slice() == want && failed == fails,
        Err(_) => false,
    }
}

// Whether a source that never fails gives 7 and 8.
fn all_is_read(alloc: Global, bytes: Vec<u8>) -> bool {
    gives(alloc, &mut SureSource::new(bytes), 2, &[7, 8], false)
}

// Whether a sink that never fails takes all.
fn all_is_written(alloc: Global) -> bool {
    let mut sink = SureSink::none(alloc);
    took(&mut sink, &[7, 8]) && sink.bytes() == [7, 8].as_slice()
}

// Whether the second write fails, and takes nothing.
fn one_write_fails(alloc: Global, failing: Vec<u64>) -> bool {
    let mut sink = MemorySink::new(alloc, failing);
    let first = took(&mut sink, b"ab");
    let second = took(&mut sink, b"cd");
    let third = took(&mut sink, b"ef");
    first && !second && third && sink.bytes() == b"abef".as_slice()
}

#[test]
fn sources_and_sinks_in_memory(rt: HostRuntime) -> Result<(), Fail> {
    let alloc = rt.alloc();
    assert!(rt; all_is_read(alloc, vec![in alloc; 7, 8]?));
    assert!(rt; all_is_written(alloc));
    assert!(rt; one_write_fails(alloc, vec![in alloc; 2]?));
    Ok(())
}

// Whether a reader that fails is a source that fails.
fn a_broken_reader_fails(alloc: Global) -> bool {
    let mut broken = RealSource::new(Broken);
    gives(alloc, &mut broken, 2, &[], true) && broken.faults() == 1
}

// Whether a source over a reader gives what the reader has.
fn a_reader_gives_all(alloc: Global) -> bool {
    gives(
        alloc,
        &mut RealSource::new(b"hello".as_slice()),
        2,
        b"hello",
        false,
    )
}

#[test]
fn a_reader_of_std_is_a_source(rt: HostRuntime) -> Result<(), Fail> {
    assert!(rt; a_reader_gives_all(rt.alloc()));
    assert!(rt; a_broken_reader_fails(rt.alloc()));
    Ok(())
}

// Whether all that is written to a writer is appended to it.
fn a_writer_takes_all(alloc: Global) -> bool {
    let mut out = Vec::new(alloc);
    took(&mut RealSink::new(&mut out), b"hello") && out.as_slice() == b"hello".as_slice()
}

// Whether a writer that takes nothing, and one that cannot flush, are sinks that fail.
fn faulty_writers_fail() -> bool {
    let mut full = RealSink::new(Full);
    let nothing = took(&mut full, b"hello");
    let unflushed = took(&mut RealSink::new(Unflushed), b"hello");
    !nothing && full.faults() == 1 && !unflushed
}

#[test]
fn a_writer_of_std_is_a_sink(rt: HostRuntime) -> Result<(), Fail> {
    assert!(rt; a_writer_takes_all(rt.alloc()));
    assert!(rt; faulty_writers_fail());
    Ok(())
}

// Whether the disk took `from` at its front and made it outlive a crash; room is made first.
fn stored<D: Disk>(disk: &mut D, from: &[u8]) -> bool {
    disk.room(from.len() as u64, 2).is_ok() && disk.write_at(0, from).is_ok() && disk.sync().is_ok()
}

// Whether a file that is not there is an empty disk, keeps what is written, and can be cut.
fn a_new_file_keeps<R: Files>(files: &R, path: String) -> bool
where
    R::File: Lockable,
{
    let mut disk = FileDisk::new(files, path);
    let empty = disk.len() == Ok(0);
    empty && stored(&mut disk, b"kept bytes") && disk.cut(7) == Ok(())
}

// Whether the file then holds seven bytes, and a write past the end of all files fails.
fn the_file_is_read_again<R: Files>(files: &R, path: String) -> bool
where
    R::File: Lockable,
{
    let mut disk = FileDisk::new(files, path);
    let mut into = [0; 5];
    let read = disk.read_at(3, &mut into) == Ok(4);
    let bytes = into.as_slice() == [b't', b' ', b'b', b'y', 0].as_slice();
    let failed = disk.write_at(u64::MAX, b"end") == Err(Failed);
    read && bytes && failed && disk.faults() == 1 && disk.len() == Ok(7)
}

// Whether a file in a folder that is not there is a disk that fails.
fn a_lost_file_fails<R: Files>(files: &R, path: String) -> bool
where
    R::File: Lockable,
{
    let mut disk = FileDisk::new(files, path);
    disk.len() == Err(Failed) && disk.sync() == Err(Failed) && disk.faults() == 2
}

#[test]
fn a_file_is_a_disk(rt: HostRuntime) -> Result<(), Fail> {
    let alloc = rt.alloc();
    let folder = env::temp_dir(&rt)?;
    let number = std::process::id(rt.process());
    let path = format!(in alloc; "{}/tl_device_{number}", folder.as_str())?;
    let kept = a_new_file_keeps(&rt, path.clone()?);
    let again = the_file_is_read_again(&rt, path.clone()?);
    fs::remove_file(&rt, path)?;
    let lost = String::from_str(alloc, "/no/such/folder/file")?;
    assert!(rt; kept && again && a_lost_file_fails(&rt, lost));
    Ok(())
}
