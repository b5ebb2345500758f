//! A disk in memory that never fails. It keeps the record from which follows what a crash may
//! leave.
ghost use Rattle.std.specs.Prelude.{◌≡◌, ◌+◌, ◌-◌, ◌^◌, ◌<◌, ◌≤◌, ◌++◌, length, take, drop, min, Some, Ok, IfOk, OnOk, OnErr};
ghost use Rattle.tl_device.specs.Kept.{fresh, after_write, after_cut, after_sync, with_room};
ghost use Rattle.tl_device.specs.Replay.{Leaves, LeftSince, HasRoomFor, since_now, since_then, as_told, fewer_ready};

use crate::disk::Disk;
use crate::failed::{Failed, NoMemory};
use crate::kept::Kept;
use std::alloc::Global;
use std::marker::Model;

/// A disk in memory that never fails. Contracts see what it keeps: the bytes, a record of the calls
/// from which follows what a crash may leave, and the room that is left.
#[derive(Drop)]
pub struct SureDisk {
    kept: Kept,
}

impl Model for SureDisk {
    ghost use Rattle.tl_device.specs.Plain as plain;

    ghost Value = { plain.Kept };

    ghost view = { λ d. d.kept };
}

impl SureDisk {
    /// A disk that reads as these bytes; a crash leaves just them, and it is ready for no call.
    /// `alloc` is the memory that `room` will take.
    pub fn new(alloc: Global, bytes: Vec<u8>) -> SureDisk
        ensures { result ≡ fresh bytes.items }
    {
        SureDisk {
            kept: Kept::new(alloc, bytes),
        }
    }

    /// What a read of the whole disk gives.
    pub fn bytes(&self) -> &[u8]
        ensures { result.now ≡ self.now.bytes }
    {
        self.kept.bytes()
    }
}

impl Disk for SureDisk {
    ghost reads = { λ d. Some d.bytes };

    ghost may_leave = { λ d c. Leaves d c };

    ghost moment = { λ d. length d.done };

    ghost left_since = { λ d t c. LeftSince d t c };

    ghost faults = { λ _. 0 };

    ghost ready = { λ d b n. HasRoomFor d b n };

    ghost only_now = { λ d c left. since_now d c left };

    ghost also_now = { λ d t c _ left. since_then d t c left };

    ghost an_image = { λ d c told. as_told d c told };

    ghost fewer = { λ d b n less few bytes calls ready.
        fewer_ready d b n less few bytes calls ready };

    /// The number of bytes. It never fails.
    fn len(&mut self) -> Result<u64, Failed>
        ensures number { result ≡ Ok (length self.old.bytes) }
        ensures unchanged { self.new ≡ self.old }
    {
        Ok(self.kept.len())
    }

    /// Fills `into` from byte `at` on, as far as the bytes go. It never fails.
    fn read_at(&mut self, at: u64, into: &mut [u8]) -> Result<usize, Failed>
        ensures number { result ≡ Ok (min (length into.old) (length self.old.bytes - at)) }
        ensures moved { IfOk result (λ n.
            into.new ≡ take n (drop at self.old.bytes) ++ drop n into.old) }
        ensures unchanged { self.new ≡ self.old }
    {
        Ok(self.kept.read(at, into))
    }

    /// Writes `from` over the bytes from `at` on, and further past the end. It never fails.
    fn write_at(&mut self, at: u64, from: &[u8]) -> Result<(), Failed>
        requires at { at ≤ length self.old.bytes }
        requires ready { HasRoomFor self.old (length from.now) 1 }
        ensures sure { result ≡ Ok tt }
        ensures end { at + length from.now < 2 ^ 64 }
        ensures wrote { self.new ≡ after_write self.old at from.now }
    {
        self.kept.write(at, from);
        Ok(())
    }

    /// Cuts to the first `len` bytes. It never fails.
    fn cut(&mut self, len: u64) -> Result<(), Failed>
        requires at { len ≤ length self.old.bytes }
        requires ready { HasRoomFor self.old 0 1 }
        ensures sure { result ≡ Ok tt }
        ensures did_cut { self.new ≡ after_cut self.old len }
    {
        self.kept.cut(len);
        Ok(())
    }

    /// Makes a crash leave just what a read gives. It never fails.
    fn sync(&mut self) -> Result<(), Failed>
        requires { HasRoomFor self.old 0 1 }
        ensures sure { result ≡ Ok tt }
        ensures synced { self.new ≡ after_sync self.old }
    {
        self.kept.sync();
        Ok(())
    }

    /// Makes room for `bytes` bytes in `calls` calls, and keeps the room that there is.
    /// `NoMemory`: memory ran out, and nothing has changed.
    fn room(&mut self, bytes: u64, calls: u32) -> Result<(), NoMemory>
        ensures ok { OnOk result (self.new ≡ with_room self.old bytes calls) }
        ensures err { OnErr result (self.new ≡ self.old) }
    {
        self.kept.room(bytes, calls)
    }

    fn faults(&self) -> u64 {
        0
    }
}
