//! A file that is read from its start on, as a source. It is opened for reading alone, with no
//! lock, at the first read; where it is missing no file is made.
ghost use Rattle.std.specs.Prelude.{◌≡◌, ◌≤◌, length, None, IfOk, OnErr};
ghost use Rattle.tl_device.specs.Known.{Rose};

use std::io::{ErrorKind, Read};
use std::rt::Files;
use std::{fs, io};
use tl_device::{Failed, Source};

/// A source over the file at a path. It opens the file at its first read, for reading alone and
/// with no lock. A file that is missing has no bytes, and is not made. A read fails where the
/// system refuses it or the opening, and the count of faults then rose. It tells nothing of what it
/// has left.
#[derive(Drop)]
pub struct FileSource<'a, R: Files> {
    files: &'a R,
    path: &'a str,
    file: Option<R::File>,
    faults: u64,
}

impl<'a, R: Files> FileSource<'a, R> {
    /// A source over the file at `path` of the system `files`, such as the runtime that `main` is
    /// given, with no fault so far. Nothing is opened yet.
    pub fn new(files: &'a R, path: &'a str) -> FileSource<'a, R>
        ensures { result.faults ≡ 0 }
    {
        FileSource {
            files,
            path,
            file: None,
            faults: 0,
        }
    }

    // One read of the file, which is opened unless it is open. A missing file has no bytes.
    fn read_file(&mut self, into: &mut [u8]) -> io::Result<usize>
        ensures bound { IfOk result (λ n. n ≤ length into.old) }
        ensures faults { self.new.faults ≡ self.old.faults }
    {
        let file = match self.file.take() {
            Some(file) => file,
            None => match fs::open(self.files, self.path) {
                Ok(file) => file,
                Err(fault) if matches!(fault.kind(), ErrorKind::NotFound) => return Ok(0),
                Err(fault) => return Err(fault),
            },
        };
        self.file.insert(file).read(into)
    }
}

impl<'a, R: Files> Source for FileSource<'a, R> {
    ghost left = { λ _. None };

    ghost faults = { λ s. s.faults };

    fn read(&mut self, into: &mut [u8]) -> Result<usize, Failed> {
        match self.read_file(into) {
            Ok(number) => Ok(number),
            Err(_) => {
                self.faults = self.faults.saturating_add(1);
                Err(Failed)
            }
        }
    }

    fn faults(&self) -> u64 {
        self.faults
    }
}
