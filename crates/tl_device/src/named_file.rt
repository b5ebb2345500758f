//! A file of std that is opened when it is first wanted, under its lock, and is read and written
//! at a place in it. Where the lock is taken the file stays unopened.
ghost use Rattle.std.specs.Prelude.{◌≡◌, ◌+◌, ◌^◌, ◌<◌, ◌≤◌, length, take, drop, true, IfOk, OnOk};
ghost use Rattle.std.specs.Fs.{new_options, with_read, with_write, with_create};
ghost use Rattle.std.specs.Io.KnownBytes.{Consumes, IsAtEnd};

use crate::locking::Lockable;
use std::fs::{File, OpenFile, OpenOptions};
use std::io;
use std::io::{Read, Seek, SeekFrom, Write};
use std::rt::Files;

// The file at a path of a file system, once it is opened.
#[derive(Drop)]
pub struct NamedFile<'a, R: Files> {
    files: &'a R,
    path: String,
    file: Option<R::File>,
}

impl<'a, R: Files> NamedFile<'a, R>
where
    R::File: Lockable,
{
    /// The file at this path, not opened yet.
    pub fn new(files: &'a R, path: String) -> NamedFile<'a, R> {
        NamedFile {
            files,
            path,
            file: None,
        }
    }

    // The file, opened and with its lock taken.
    fn open_locked(&self) -> io::Result<R::File> {
        let file = kept_options().open(self.files, self.path.as_str())?;
        file.take_lock()?;
        Ok(file)
    }

    // The file, which is opened unless it is open.
    fn open(&mut self) -> io::Result<&mut R::File> {
        let file = match self.file.take() {
            Some(file) => file,
            None => self.open_locked()?,
        };
        Ok(self.file.insert(file))
    }

    /// How many bytes the file has. It is opened for that, unless it is open.
    pub fn len(&mut self) -> io::Result<u64> {
        Ok(self.open()?.metadata()?.len())
    }

    /// Fills `into` from byte `at` on, and answers how many bytes it filled: fewer than `into` has
    /// only where the file ends.
    pub fn read_at(&mut self, at: u64, into: &mut [u8]) -> io::Result<usize>
        ensures size { length into.new ≡ length into.old }
        ensures bound { IfOk result (λ n. n ≤ length into.old) }
    {
        let file = self.open()?;
        file.seek(SeekFrom::Start(at))?;
        fill(file, into)
    }

    /// Writes all of `from` from byte `at` on. It is an error where the end passes 2^64.
    pub fn write_at(&mut self, at: u64, from: &[u8]) -> io::Result<()>
        ensures end { OnOk result (at + length from.now < 2 ^ 64) }
    {
        if at.checked_add(from.len() as u64).is_none() {
            return Err(io::Error::from(io::ErrorKind::InvalidInput));
        }
        let file = self.open()?;
        file.seek(SeekFrom::Start(at))?;
        file.write_all(from)?;
        file.flush()
    }

    /// Makes the file end after `len` bytes.
    pub fn cut(&mut self, len: u64) -> io::Result<()> {
        self.open()?.set_len(len)
    }

    /// Hands all that was written to the device.
    pub fn sync(&mut self) -> io::Result<()> {
        self.open()?.sync_all()
    }
}

// For reading and writing, an empty file where it is missing; what is there stays.
fn kept_options() -> OpenOptions
    ensures { result ≡ with_create (with_write (with_read new_options true) true) true }
{
    let mut options = File::options();
    options.read(true).write(true).create(true);
    options
}

// One read into what stands from `at` on, which answers 0 only at the end.
fn read_behind<R: Read>(reader: &mut R, into: &mut [u8], at: usize) -> io::Result<usize>
    requires { at < length into.old }
    ensures size { length into.new ≡ length into.old }
    ensures front { take at into.new ≡ take at into.old }
    ensures bound { IfOk result (λ n. at + n ≤ length into.old) }
    ensures taken { IfOk result (λ n. Consumes (R.remaining reader.old)
        (R.remaining reader.new) (take n (drop at into.new))) }
    ensures end { IfOk result (λ n. n ≡ 0 → IsAtEnd (R.remaining reader.new)) }
{
    reader.read(&mut into[at..])
}

// Reads until `into` is full or the end is come, and answers how many bytes it read.
#[tactic(auto, using(crate::proofs::Filling::filled_more))]
fn fill<R: Read>(reader: &mut R, into: &mut [u8]) -> io::Result<usize>
    ensures size { length into.new ≡ length into.old }
    ensures bound { IfOk result (λ n. n ≤ length into.old) }
    ensures taken { IfOk result (λ n. Consumes (R.remaining reader.old)
        (R.remaining reader.new) (take n into.new)) }
    ensures end { IfOk result (λ n. n < length into.old → IsAtEnd (R.remaining reader.new)) }
{
    let mut filled = 0;
    while filled < into.len() {
        let number = read_behind(reader, into, filled)?;
        if number == 0 {
            return Ok(filled);
        }
        filled += number;
    }
    Ok(filled)
}
