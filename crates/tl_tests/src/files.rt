//! A disk over a file that stands in for one of the system: it records what it is asked, and
//! refuses what it is told to.

use std::alloc::{Allocator, Global};
use std::cell::RefCell;
use std::fs::{Metadata, OpenFile, OpenOptions};
use std::io::{ErrorKind, Read, Seek, SeekFrom, Write};
use std::rt::Files;
use std::test::Fail;
use std::{env, fs, io};
use tl_device::{Disk, Failed, FileDisk, Lockable};

// What was asked so far, with a letter for each call, and the letter of the calls that are refused.
#[derive(Drop)]
struct Record {
    asked: RefCell<Vec<u8>>,
    refused: u8,
}

impl Record {
    // Nothing was asked so far.
    fn new(alloc: Global, refused: u8) -> Record {
        Record {
            asked: RefCell::new(Vec::new(alloc)),
            refused,
        }
    }

    // Records a call, and answers whether it is granted.
    fn ask(&self, letter: u8) -> io::Result<()> {
        self.note(&[letter])?;
        if letter == self.refused {
            return Err(io::Error::from(ErrorKind::Other));
        }
        Ok(())
    }

    // Records what belongs to the call before.
    fn note(&self, bytes: &[u8]) -> io::Result<()> {
        let Ok(mut asked) = self.asked.try_borrow_mut() else {
            return Err(io::Error::from(ErrorKind::Other));
        };
        asked.extend_from_slice(bytes)?;
        Ok(())
    }

    // Records a place below 10.
    fn note_place(&self, place: u64) -> io::Result<()> {
        self.note(&[b"0123456789"[(place % 10) as usize]])
    }

    // Whether just this was asked.
    fn was(&self, text: &[u8]) -> bool {
        match self.asked.try_borrow() {
            Ok(asked) => asked.as_slice() == text,
            Err(_) => false,
        }
    }
}

// A file of seven bytes. A read gives three of them at most, and a write takes three at most.
#[derive(Drop)]
struct Stand<'a> {
    record: &'a Record,
    at: u64,
}

impl Read for Stand<'_> {
    fn read(&mut self, buf: &mut [u8]) -> io::Result<usize> {
        self.record.ask(b'r')?;
        let bytes = b"0123456".as_slice();
        let (_, left) = bytes.split_at(self.at.min(7) as usize);
        let number = left.len().min(buf.len()).min(3);
        buf[..number].copy_from_slice(&left[..number]);
        self.at = self.at.saturating_add(number as u64);
        Ok(number)
    }
}

impl Write for Stand<'_> {
    fn write(&mut self, buf: &[u8]) -> io::Result<usize> {
        self.record.ask(b'w')?;
        let number = buf.len().min(3);
        self.record.note(&buf[..number])?;
        Ok(number)
    }

    fn flush(&mut self) -> io::Result<()> {
        self.record.ask(b'f')
    }
}

impl Seek for Stand<'_> {
    fn seek(&mut self, to: SeekFrom) -> io::Result<u64> {
        self.record.ask(b's')?;
        let SeekFrom::Start(at) = to else {
            return Err(io::Error::from(ErrorKind::Unsupported));
        };
        self.record.note_place(at)?;
        self.at = at;
        Ok(at)
    }
}

impl OpenFile for Stand<'_> {
    fn metadata(&self) -> io::Result<Metadata> {
        self.record.ask(b'm')?;
        Ok(Metadata::of_file(7))
    }

    fn set_len(&self, size: u64) -> io::Result<()> {
        self.record.ask(b'c')?;
        self.record.note_place(size)
    }

    fn sync_all(&self) -> io::Result<()> {
        self.record.ask(b'y')
    }

    fn sync_data(&self) -> io::Result<()> {
        Err(io::Error::from(ErrorKind::Unsupported))
    }
}

impl Lockable for Stand<'_> {
    fn take_lock(&self) -> io::Result<()> {
        self.record.ask(b'l')
    }
}

// A system that has that file alone, for reading and writing, made where it is missing, and kept.
#[derive(Drop)]
struct Stands<'a> {
    record: &'a Record,
}

// The error of all that the system does not have.
fn unsupported<T>() -> io::Result<T> {
    Err(io::Error::from(ErrorKind::Unsupported))
}

// The names in a folder, of which there is none.
#[derive(Drop)]
struct NoNames;

impl Read for NoNames {
    fn read(&mut self, _buf: &mut [u8]) -> io::Result<usize> {
        Err(io::Error::from(ErrorKind::Unsupported))
    }
}

impl<'a> Files for Stands<'a> {
    type File = Stand<'a>;

    type Dir = NoNames;

    fn open_file(&self, how: &OpenOptions, _path: &str) -> io::Result<Stand<'a>> {
        self.record.ask(b'o')?;
        let kept = !how.asks_truncate() && !how.asks_create_new() && !how.asks_append();
        if !(kept && how.asks_read() && how.asks_write() && how.asks_create()) {
            return unsupported();
        }
        Ok(Stand {
            record: self.record,
            at: 0,
        })
    }

    fn open_dir(&self, _path: &str) -> io::Result<NoNames> {
        unsupported()
    }

    fn metadata(&self, _path: &str) -> io::Result<Metadata> {
        unsupported()
    }

    fn symlink_metadata(&self, _path: &str) -> io::Result<Metadata> {
        unsupported()
    }

    fn copy(&self, _from: &str, _to: &str) -> io::Result<u64> {
        unsupported()
    }

    fn rename(&self, _from: &str, _to: &str) -> io::Result<()> {
        unsupported()
    }

    fn remove_file(&self, _path: &str) -> io::Result<()> {
        unsupported()
    }

    fn create_dir(&self, _path: &str) -> io::Result<()> {
        unsupported()
    }

    fn remove_dir(&self, _path: &str) -> io::Result<()> {
        unsupported()
    }

    fn remove_dir_all<B: Allocator>(&self, _alloc: B, _path: &str) -> io::Result<()> {
        unsupported()
    }
}

// A call of a disk.
#[derive(Clone, Copy)]
enum Call {
    Len,
    Read,
    End,
    Write,
    Cut,
    Sync,
}

// Whether a call of a disk is answered as the file of seven bytes has it.
fn answers(disk: &mut FileDisk<'_, Stands<'_>>, call: Call) -> bool {
    let mut into = [0; 5];
    match call {
        Call::Len => disk.len() == Ok(7),
        Call::Read => disk.read_at(1, &mut into) == Ok(5) && into.as_slice() == b"12345".as_slice(),
        Call::End => disk.read_at(4, &mut into) == Ok(3) && into[..3] == [b'4', b'5', b'6'],
        Call::Write => disk.write_at(2, b"abcdefg") == Ok(()),
        Call::Cut => disk.cut(3) == Ok(()),
        Call::Sync => disk.sync() == Ok(()),
    }
}

// Whether a call of a disk fails.
fn fails(disk: &mut FileDisk<'_, Stands<'_>>, call: Call) -> bool {
    let mut into = [0; 5];
    match call {
        Call::Len => disk.len() == Err(Failed),
        Call::Read => disk.read_at(1, &mut into) == Err(Failed),
        Call::End => disk.read_at(4, &mut into) == Err(Failed),
        Call::Write => disk.write_at(2, b"abcdefg") == Err(Failed),
        Call::Cut => disk.cut(3) == Err(Failed),
        Call::Sync => disk.sync() == Err(Failed),
    }
}

// Whether the first call of a disk over the file is answered, and just this was then asked.
fn asks(alloc: Global, call: Call, text: &[u8]) -> bool {
    let record = Record::new(alloc, b'-');
    let files = Stands { record: &record };
    let mut disk = FileDisk::new(&files, String::new(alloc));
    answers(&mut disk, call) && disk.faults() == 0 && record.was(text)
}

// Whether the first call of a disk fails where the calls of this letter are refused, and just this
// was then asked.
fn refuses(alloc: Global, refused: u8, call: Call, text: &[u8]) -> bool {
    let record = Record::new(alloc, refused);
    let files = Stands { record: &record };
    let mut disk = FileDisk::new(&files, String::new(alloc));
    fails(&mut disk, call) && disk.faults() == 1 && record.was(text)
}

// Whether a second call finds the file open, and its lock taken: just this was then asked.
fn asks_once(alloc: Global, first: Call, second: Call, text: &[u8]) -> bool {
    let record = Record::new(alloc, b'-');
    let files = Stands { record: &record };
    let mut disk = FileDisk::new(&files, String::new(alloc));
    answers(&mut disk, first) && answers(&mut disk, second) && record.was(text)
}

#[test]
fn a_file_is_asked_in_order(rt: HostRuntime) -> Result<(), Fail> {
    let alloc = rt.alloc();
    assert!(rt; asks(alloc, Call::Len, b"olm"));
    assert!(rt; asks(alloc, Call::Read, b"ols1rr"));
    assert!(rt; asks(alloc, Call::End, b"ols4rr"));
    assert!(rt; asks(alloc, Call::Write, b"ols2wabcwdefwgf"));
    assert!(rt; asks(alloc, Call::Cut, b"olc3"));
    assert!(rt; asks(alloc, Call::Sync, b"oly"));
    Ok(())
}

#[test]
fn a_file_is_opened_once(rt: HostRuntime) -> Result<(), Fail> {
    let alloc = rt.alloc();
    assert!(rt; asks_once(alloc, Call::Sync, Call::Cut, b"olyc3"));
    assert!(rt; asks_once(alloc, Call::Len, Call::Read, b"olms1rr"));
    assert!(rt; asks_once(alloc, Call::Read, Call::Sync, b"ols1rry"));
    assert!(rt; asks_once(alloc, Call::End, Call::Write, b"ols4rrs2wabcwdefwgf"));
    assert!(rt; asks_once(alloc, Call::Write, Call::Len, b"ols2wabcwdefwgfm"));
    Ok(())
}

#[test]
fn each_refusal_fails(rt: HostRuntime) -> Result<(), Fail> {
    let alloc = rt.alloc();
    assert!(rt; refuses(alloc, b'o', Call::Sync, b"o"));
    assert!(rt; refuses(alloc, b'l', Call::Write, b"ol"));
    assert!(rt; refuses(alloc, b'm', Call::Len, b"olm"));
    assert!(rt; refuses(alloc, b's', Call::Read, b"ols"));
    assert!(rt; refuses(alloc, b'r', Call::Read, b"ols1r"));
    assert!(rt; refuses(alloc, b's', Call::Write, b"ols"));
    assert!(rt; refuses(alloc, b'w', Call::Write, b"ols2w"));
    assert!(rt; refuses(alloc, b'f', Call::Write, b"ols2wabcwdefwgf"));
    assert!(rt; refuses(alloc, b'c', Call::Cut, b"olc"));
    assert!(rt; refuses(alloc, b'y', Call::Sync, b"oly"));
    Ok(())
}

// Whether a second disk over a file fails as long as there is a first one, and then does not.
fn one_has_the_file<R: Files>(files: &R, path: String, same: String) -> bool
where
    R::File: Lockable,
{
    let mut second = FileDisk::new(files, path);
    let waits = others_wait(files, same, &mut second);
    waits && second.len() == Ok(0)
}

// Whether the second disk fails after this file was opened by a first one.
fn others_wait<R: Files>(files: &R, path: String, second: &mut FileDisk<'_, R>) -> bool
where
    R::File: Lockable,
{
    let mut first = FileDisk::new(files, path);
    first.len() == Ok(0) && second.len() == Err(Failed) && second.faults() == 1
}

#[test]
fn one_disk_has_a_file(rt: HostRuntime) -> Result<(), Fail> {
    let alloc = rt.alloc();
    let folder = env::temp_dir(&rt)?;
    let number = std::process::id(rt.process());
    let path = format!(in alloc; "{}/tl_lock_{number}", folder.as_str())?;
    let one = one_has_the_file(&rt, path.clone()?, path.clone()?);
    fs::remove_file(&rt, path)?;
    assert!(rt; one);
    Ok(())
}
