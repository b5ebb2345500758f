//! A disk in memory with a list of the calls that are to fail. It keeps the record from which
//! follows what a crash may leave, torn writes and cuts included.
ghost use Rattle.std.specs.Prelude.{◌≡◌, ◌+◌, ◌-◌, ◌^◌, ◌<◌, ◌≤◌, ◌++◌, length, take, drop, min, Some, IfOk, OnOk, OnErr, is_err};
ghost use Rattle.tl_device.specs.Known.{Rose};
ghost use Rattle.tl_device.specs.Crash.{crash_image, no_calls};
ghost use Rattle.tl_device.specs.Disk.{Only};
ghost use Rattle.tl_device.specs.Calls.{next_fails, after_call};
ghost use Rattle.tl_device.specs.Kept.{fresh, after_write, after_torn, after_cut, after_no_cut, after_sync, after_no_sync, with_room};
ghost use Rattle.tl_device.specs.Replay.{Leaves, LeftSince, HasRoomFor, since_now, since_then, as_told, fewer_ready};

use crate::calls::Calls;
use crate::disk::Disk;
use crate::failed::{Failed, NoMemory};
use crate::kept::Kept;
use std::alloc::Global;
use std::marker::Model;

/// A disk in memory with a list of the numbers of the calls that are to fail. Contracts see what it
/// keeps (the bytes, a record of the calls from which follows what a crash may leave, and the room
/// that is left) and the calls.
#[derive(Drop)]
pub struct MemoryDisk {
    kept: Kept,
    calls: Calls,
}

impl Model for MemoryDisk {
    ghost use Rattle.tl_device.specs.Plain as plain;
    ghost use Rattle.tl_device.specs.Crash.{IsRecorded};

    ghost Value = { plain.MemoryDisk };

    ghost view = { λ d. record { kept = d.kept; calls = d.calls } };

    ghost invariant = { λ d. IsRecorded d.kept };
}

impl MemoryDisk {
    /// A disk that reads as these bytes; a crash leaves just them, and it is ready for no call.
    /// `failing` holds the numbers of the calls that fail, counted from 1; `room` is not counted.
    /// `alloc` is the memory that `room` will take.
    pub fn new(alloc: Global, bytes: Vec<u8>, failing: Vec<u64>) -> MemoryDisk
        ensures kept { result.kept ≡ fresh bytes.items }
        ensures failing { result.calls.failing ≡ failing.items }
        ensures made { result.calls.made ≡ 0 }
        ensures faults { result.calls.faults ≡ 0 }
    {
        MemoryDisk {
            kept: Kept::new(alloc, bytes),
            calls: Calls::new(failing),
        }
    }

    /// What a read of the whole disk gives.
    pub fn bytes(&self) -> &[u8]
        ensures { result.now ≡ self.now.kept.bytes }
    {
        self.kept.bytes()
    }

    /// A disk that reads as one image which a crash now may leave, and as which every crash leaves
    /// it until it is written. No call of it is to fail, and it is ready for none. `alloc` is the
    /// memory that the image, and later `room`, will take.
    ///
    /// Choice 0 is the bytes of the last sync, or those that the disk was made with where there was
    /// none; choice 1 is what a read gives; choices 2 and 3 are as long as that, and have 0 or 255
    /// in each range, as far as the length goes, in which a write since the last sync was to stand,
    /// also one that failed. There a cut since the last sync has happened where it answered Ok, and
    /// has not where it failed. `NoMemory`: memory ran out.
    pub fn crash(&self, alloc: Global, choice: u32) -> Result<MemoryDisk, NoMemory>
        requires { choice < 4 }
        ensures image { IfOk result (λ d. d.kept ≡ fresh (crash_image choice self.now.kept)) }
        ensures left { Leaves self.now.kept (crash_image choice self.now.kept) }
        ensures only { IfOk result (λ d.
            Only (crash_image choice self.now.kept) (Leaves d.kept)) }
        ensures length { 1 ≤ choice →
            length (crash_image choice self.now.kept) ≡ length self.now.kept.bytes }
        ensures calls { IfOk result (λ d. d.calls ≡ no_calls) }
    {
        let image = self.kept.crash_image(alloc, choice)?;
        Ok(MemoryDisk::new(alloc, image, Vec::new(alloc)))
    }
}

impl Disk for MemoryDisk {
    ghost reads = { λ d. Some d.kept.bytes };

    ghost may_leave = { λ d c. Leaves d.kept c };

    ghost moment = { λ d. length d.kept.done };

    ghost left_since = { λ d t c. LeftSince d.kept t c };

    ghost faults = { λ d. d.calls.faults };

    ghost ready = { λ d b n. HasRoomFor d.kept b n };

    ghost only_now = { λ d c left. since_now d.kept c left };

    ghost also_now = { λ d t c _ left. since_then d.kept t c left };

    ghost an_image = { λ d c told. as_told d.kept c told };

    ghost fewer = { λ d b n less few bytes calls ready.
        fewer_ready d.kept b n less few bytes calls ready };

    /// The number of bytes. It fails exactly where the number of this call is among those that are
    /// to fail.
    fn len(&mut self) -> Result<u64, Failed>
        ensures number { IfOk result (λ n. n ≡ length self.old.kept.bytes) }
        ensures fails { is_err result ≡ next_fails self.old.calls }
        ensures kept { self.new.kept ≡ self.old.kept }
        ensures rose { OnErr result (Rose self.old.calls.faults self.new.calls.faults) }
        ensures calls { self.new.calls ≡ after_call self.old.calls }
    {
        if self.calls.next_fails() {
            return Err(Failed);
        }
        Ok(self.kept.len())
    }

    /// Fills `into` from byte `at` on, as far as the bytes go. It fails exactly where the number of
    /// this call is among those that are to fail, and then leaves `into`.
    fn read_at(&mut self, at: u64, into: &mut [u8]) -> Result<usize, Failed>
        ensures number { IfOk result (λ n.
            n ≡ min (length into.old) (length self.old.kept.bytes - at)) }
        ensures moved { IfOk result (λ n.
            into.new ≡ take n (drop at self.old.kept.bytes) ++ drop n into.old) }
        ensures unmoved { OnErr result (into.new ≡ into.old) }
        ensures fails { is_err result ≡ next_fails self.old.calls }
        ensures kept { self.new.kept ≡ self.old.kept }
        ensures rose { OnErr result (Rose self.old.calls.faults self.new.calls.faults) }
        ensures calls { self.new.calls ≡ after_call self.old.calls }
    {
        if self.calls.next_fails() {
            return Err(Failed);
        }
        Ok(self.kept.read(at, into))
    }

    /// Writes `from` over the bytes from `at` on, and further past the end. It fails exactly where
    /// the number of this call is among those that are to fail; a read then gives what it gave,
    /// and a crash may leave any bytes in the range of the write.
    fn write_at(&mut self, at: u64, from: &[u8]) -> Result<(), Failed>
        requires at { at ≤ length self.old.kept.bytes }
        requires ready { HasRoomFor self.old.kept (length from.now) 1 }
        ensures end { OnOk result (at + length from.now < 2 ^ 64) }
        ensures fails { is_err result ≡ next_fails self.old.calls }
        ensures wrote { OnOk result (self.new.kept ≡ after_write self.old.kept at from.now) }
        ensures tore { OnErr result
            (self.new.kept ≡ after_torn self.old.kept at (length from.now)) }
        ensures rose { OnErr result (Rose self.old.calls.faults self.new.calls.faults) }
        ensures calls { self.new.calls ≡ after_call self.old.calls }
    {
        if self.calls.next_fails() {
            self.kept.tear(at, from.len());
            return Err(Failed);
        }
        self.kept.write(at, from);
        Ok(())
    }

    /// Cuts to the first `len` bytes. It fails exactly where the number of this call is among those
    /// that are to fail; a read then gives what it gave, and a crash may leave the bytes cut.
    fn cut(&mut self, len: u64) -> Result<(), Failed>
        requires at { len ≤ length self.old.kept.bytes }
        requires ready { HasRoomFor self.old.kept 0 1 }
        ensures fails { is_err result ≡ next_fails self.old.calls }
        ensures did_cut { OnOk result (self.new.kept ≡ after_cut self.old.kept len) }
        ensures no_cut { OnErr result (self.new.kept ≡ after_no_cut self.old.kept len) }
        ensures rose { OnErr result (Rose self.old.calls.faults self.new.calls.faults) }
        ensures calls { self.new.calls ≡ after_call self.old.calls }
    {
        if self.calls.next_fails() {
            self.kept.miss_cut(len);
            return Err(Failed);
        }
        self.kept.cut(len);
        Ok(())
    }

    /// Makes a crash leave just what a read gives. It fails exactly where the number of this call
    /// is among those that are to fail, and then changes nothing but the room that is left.
    fn sync(&mut self) -> Result<(), Failed>
        requires { HasRoomFor self.old.kept 0 1 }
        ensures fails { is_err result ≡ next_fails self.old.calls }
        ensures synced { OnOk result (self.new.kept ≡ after_sync self.old.kept) }
        ensures no_sync { OnErr result (self.new.kept ≡ after_no_sync self.old.kept) }
        ensures rose { OnErr result (Rose self.old.calls.faults self.new.calls.faults) }
        ensures calls { self.new.calls ≡ after_call self.old.calls }
    {
        if self.calls.next_fails() {
            self.kept.miss_sync();
            return Err(Failed);
        }
        self.kept.sync();
        Ok(())
    }

    /// Makes room for `bytes` bytes in `calls` calls, and keeps the room that there is.
    /// `NoMemory`: memory ran out, and nothing has changed.
    fn room(&mut self, bytes: u64, calls: u32) -> Result<(), NoMemory>
        ensures ok { OnOk result (self.new.kept ≡ with_room self.old.kept bytes calls) }
        ensures err { OnErr result (self.new.kept ≡ self.old.kept) }
        ensures calls { self.new.calls ≡ self.old.calls }
    {
        self.kept.room(bytes, calls)
    }

    fn faults(&self) -> u64 {
        self.calls.faults()
    }
}
