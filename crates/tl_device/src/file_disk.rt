//! A disk over std's file, which it opens and locks at its first call. It tells nothing of
//! content; an error of the system is a fault that counts.
ghost use Rattle.std.specs.Prelude.{◌≡◌, ◌^◌, ◌<◌, None};
ghost use Rattle.tl_device.specs.Known.{Rose};

use crate::disk::Disk;
use crate::failed::{Failed, NoMemory};
use crate::locking::Lockable;
use crate::named_file::NamedFile;
use std::rt::Files;

/// A disk over a file of the system. It opens its file at its first call other than `room`, an
/// empty one where it is missing, keeps what is there, and takes the file's lock, which it has
/// until it is dropped: where another has it the file is not opened, and nothing is read or
/// written. It is always ready, and tells nothing of content: a crash may leave anything. A call is
/// answered `Failed` exactly where the system answers it by an error, the opening and the lock
/// included, or where the end of a write passes 2^64; the count of faults then rose.
#[derive(Drop)]
pub struct FileDisk<'a, R: Files> {
    file: NamedFile<'a, R>,
    faults: u64,
}

impl<'a, R: Files> FileDisk<'a, R>
where
    R::File: Lockable,
{
    /// A disk over the file at `path` of the system `files`, such as the runtime that `main` is
    /// given, with no fault so far.
    pub fn new(files: &'a R, path: String) -> FileDisk<'a, R>
        ensures { result.faults ≡ 0 }
    {
        FileDisk {
            file: NamedFile::new(files, path),
            faults: 0,
        }
    }

    // Counts a fault.
    fn fail(&mut self) -> Failed
        ensures { Rose self.old.faults self.new.faults }
    {
        self.faults = self.faults.saturating_add(1);
        Failed
    }
}

impl<'a, R: Files> Disk for FileDisk<'a, R>
where
    R::File: Lockable,
{
    ghost reads = { λ _. None };

    ghost may_leave = { λ _ _. Unit {0} };

    ghost moment = { λ _. 0 };

    ghost left_since = { λ _ _ _. Unit {0} };

    ghost faults = { λ d. d.faults };

    ghost ready = { λ _ _ _. Unit {0} };

    ghost only_now = { λ _ _ _. tt };

    ghost also_now = { λ _ _ _ _ _. tt };

    ghost an_image = { λ _ _ _. tt };

    ghost fewer = { λ _ _ _ _ _ _ _ _. tt };

    fn len(&mut self) -> Result<u64, Failed> {
        match self.file.len() {
            Ok(number) => Ok(number),
            Err(_) => Err(self.fail()),
        }
    }

    fn read_at(&mut self, at: u64, into: &mut [u8]) -> Result<usize, Failed> {
        match self.file.read_at(at, into) {
            Ok(number) => Ok(number),
            Err(_) => Err(self.fail()),
        }
    }

    fn write_at(&mut self, at: u64, from: &[u8]) -> Result<(), Failed> {
        match self.file.write_at(at, from) {
            Ok(()) => Ok(()),
            Err(_) => Err(self.fail()),
        }
    }

    fn cut(&mut self, len: u64) -> Result<(), Failed> {
        match self.file.cut(len) {
            Ok(()) => Ok(()),
            Err(_) => Err(self.fail()),
        }
    }

    fn sync(&mut self) -> Result<(), Failed> {
        match self.file.sync() {
            Ok(()) => Ok(()),
            Err(_) => Err(self.fail()),
        }
    }

    /// The file is always ready: nothing is done.
    fn room(&mut self, _bytes: u64, _calls: u32) -> Result<(), NoMemory> {
        Ok(())
    }

    fn faults(&self) -> u64 {
        self.faults
    }
}
