//! Bytes in memory, a record of what changed them, and the room that was made for more. A call
//! that has its room takes no memory.
ghost use Rattle.std.specs.Prelude.{◌≡◌, ◌+◌, ◌-◌, ◌^◌, ◌<◌, ◌≤◌, ◌++◌, length, take, drop, min, IfOk, OnOk, OnErr, vec_len, vec_capacity};
ghost use Rattle.tl_device.specs.Disk.{Holds};
ghost use Rattle.tl_device.specs.Crash.{crash_image};
ghost use Rattle.tl_device.specs.Kept.{fresh, after_write, after_torn, after_cut, after_no_cut, after_sync, after_no_sync, with_room};

use crate::call::Call;
use crate::crash::{last_synced, put_ranges};
use crate::failed::NoMemory;
use std::alloc::Global;
use std::marker::Model;

// `done` has the oldest call first. The room that is left lies within the capacities: of `bytes`
// for what is written, of `log` for all bytes that may be taken away, of `done` for the calls.
#[derive(Drop)]
pub struct Kept {
    bytes: Vec<u8>,
    done: Vec<Call>,
    log: Vec<u8>,
    spare: u64,
    spare_calls: u64,
}

impl Model for Kept {
    ghost use Rattle.std.specs.Prelude.{◌+◌, ◌≤◌, reverse, vec_len, vec_capacity};
    ghost use Rattle.tl_device.specs.Plain as plain;

    ghost Value = { plain.Kept };

    ghost view = { λ k. record {
      bytes = k.bytes.items;
      done = reverse k.done.items;
      log = k.log.items;
      spare = k.spare;
      spare_calls = k.spare_calls;
    } };

    ghost invariant = { λ k. (vec_len k.bytes + k.spare ≤ vec_capacity k.bytes) ×
        ((vec_len k.done + k.spare_calls ≤ vec_capacity k.done) × (1 ≤ k.spare_calls →
        vec_len k.log + (vec_len k.bytes + k.spare) ≤ vec_capacity k.log)) };
}

impl Kept {
    /// These bytes, with no call so far and room for none. `alloc` is the memory that it will take.
    pub fn new(alloc: Global, bytes: Vec<u8>) -> Kept
        ensures { result ≡ fresh bytes.items }
    {
        Kept {
            bytes,
            done: Vec::new(alloc),
            log: Vec::new(alloc),
            spare: 0,
            spare_calls: 0,
        }
    }

    /// The bytes as a read gives them; a crash may leave others.
    pub fn bytes(&self) -> &[u8]
        ensures { result.now ≡ self.now.bytes }
    {
        &self.bytes
    }

    /// How many bytes there are; room for more is not counted.
    pub fn len(&self) -> u64
        ensures { result ≡ length self.now.bytes }
    {
        self.bytes.len() as u64
    }

    /// Moves the bytes from `at` on into a prefix of `into`, and answers their number.
    pub fn read(&self, at: u64, into: &mut [u8]) -> usize
        ensures number { result ≡ min (length into.old) (length self.now.bytes - at) }
        ensures moved { into.new ≡ take result (drop at self.now.bytes) ++ drop result into.old }
    {
        if at >= self.len() {
            return 0;
        }
        let behind = &self.bytes[at as usize..];
        let number = behind.len().min(into.len());
        into[..number].copy_from_slice(&behind[..number]);
        number
    }

    /// The image of this choice among those that a crash now may leave.
    pub fn crash_image(&self, alloc: Global, choice: u32) -> Result<Vec<u8>, NoMemory>
        ensures { IfOk result (λ b. b.items ≡ crash_image choice self.now) }
    {
        let mut bytes = self.bytes.as_slice().to_vec(alloc)?;
        if choice == 0 {
            return last_synced(alloc, bytes, &self.log, &self.done);
        }
        if choice == 1 {
            return Ok(bytes);
        }
        if choice == 2 {
            put_ranges(&mut bytes, 0, &self.done);
            return Ok(bytes);
        }
        put_ranges(&mut bytes, 255, &self.done);
        Ok(bytes)
    }

    /// A write that succeeds.
    pub fn write(&mut self, at: u64, from: &[u8])
        requires at { at ≤ length self.old.bytes }
        requires spare { length from.now ≤ self.old.spare }
        requires calls { 1 ≤ self.old.spare_calls }
        ensures wrote { self.new ≡ after_write self.old at from.now }
        ensures end { at + length from.now < 2 ^ 64 }
    {
        let over = overwrite(&mut self.bytes, &mut self.log, at as usize, from);
        self.done.push_reserved(Call::Wrote(at, from.len(), over));
        self.spare -= from.len() as u64;
        self.spare_calls -= 1;
    }

    /// A write of `number` bytes that fails.
    pub fn tear(&mut self, at: u64, number: usize)
        requires spare { number ≤ self.old.spare }
        requires calls { 1 ≤ self.old.spare_calls }
        ensures { self.new ≡ after_torn self.old at number }
    {
        self.done.push_reserved(Call::Tore(at, number));
        self.spare -= number as u64;
        self.spare_calls -= 1;
    }

    /// A cut that succeeds.
    pub fn cut(&mut self, len: u64)
        requires at { len ≤ length self.old.bytes }
        requires calls { 1 ≤ self.old.spare_calls }
        ensures { self.new ≡ after_cut self.old len }
    {
        let over = shorten(&mut self.bytes, &mut self.log, len as usize);
        self.done.push_reserved(Call::Cut(len, over));
        self.spare_calls -= 1;
    }

    /// A cut that fails.
    pub fn miss_cut(&mut self, len: u64)
        requires { 1 ≤ self.old.spare_calls }
        ensures { self.new ≡ after_no_cut self.old len }
    {
        self.done.push_reserved(Call::MayCut(len));
        self.spare_calls -= 1;
    }

    /// A sync that succeeds.
    pub fn sync(&mut self)
        requires { 1 ≤ self.old.spare_calls }
        ensures { self.new ≡ after_sync self.old }
    {
        self.done.push_reserved(Call::Synced);
        self.spare_calls -= 1;
    }

    /// A sync that fails.
    pub fn miss_sync(&mut self)
        requires { 1 ≤ self.old.spare_calls }
        ensures { self.new ≡ after_no_sync self.old }
    {
        self.spare_calls -= 1;
    }

    /// Makes room for `bytes` bytes in `calls` calls, and keeps what there is.
    /// `NoMemory`: memory ran out, and nothing has changed.
    pub fn room(&mut self, bytes: u64, calls: u32) -> Result<(), NoMemory>
        ensures ok { OnOk result (self.new ≡ with_room self.old bytes calls) }
        ensures err { OnErr result (self.new ≡ self.old) }
    {
        let spare = self.spare.max(bytes);
        let spare_calls = self.spare_calls.max(u64::from(calls));
        self.bytes.reserve(spare as usize)?;
        self.log.reserve(self.bytes.len() + spare as usize)?;
        self.done.reserve(spare_calls as usize)?;
        self.spare = spare;
        self.spare_calls = spare_calls;
        Ok(())
    }
}

// Writes over the bytes from `at` on, and keeps those that stood there in the log. Answers how many
// these are.
fn overwrite(bytes: &mut Vec<u8>, log: &mut Vec<u8>, at: usize, from: &[u8]) -> usize
    requires at { at ≤ length bytes.old.items }
    requires room { vec_len bytes.old + length from.now ≤ vec_capacity bytes.old }
    requires log { vec_len log.old + length from.now ≤ vec_capacity log.old }
    ensures written { Holds bytes.old.items at from.now bytes.new.items }
    ensures over { result ≡ min (length from.now) (length bytes.old.items - at) }
    ensures log { log.new.items ≡ log.old.items ++ take result (drop at bytes.old.items) }
    ensures bytes_len { vec_len bytes.new ≡ vec_len bytes.old + (length from.now - result) }
    ensures log_len { vec_len log.new ≡ vec_len log.old + result }
    ensures bytes_capacity { vec_capacity bytes.old ≤ vec_capacity bytes.new }
    ensures log_capacity { vec_capacity log.old ≤ vec_capacity log.new }
{
    let behind = bytes.len() - at;
    let over = if from.len() < behind {
        from.len()
    } else {
        behind
    };
    log.extend_from_slice(&bytes[at..at + over]).unwrap();
    bytes[at..at + over].copy_from_slice(&from[..over]);
    bytes.extend_from_slice(&from[over..]).unwrap();
    over
}

// Cuts the bytes to a length, and keeps those that it cuts off in the log. Answers how many these
// are.
fn shorten(bytes: &mut Vec<u8>, log: &mut Vec<u8>, len: usize) -> usize
    requires at { len ≤ length bytes.old.items }
    requires log { vec_len log.old + vec_len bytes.old ≤ vec_capacity log.old }
    ensures cut { bytes.new.items ≡ take len bytes.old.items }
    ensures over { result ≡ length bytes.old.items - len }
    ensures log { log.new.items ≡ log.old.items ++ drop len bytes.old.items }
    ensures bytes_len { vec_len bytes.new ≡ len }
    ensures log_len { vec_len log.new ≡ vec_len log.old + result }
    ensures bytes_capacity { vec_capacity bytes.old ≤ vec_capacity bytes.new }
    ensures log_capacity { vec_capacity log.old ≤ vec_capacity log.new }
{
    let over = bytes.len() - len;
    log.extend_from_slice(&bytes[len..]).unwrap();
    bytes.truncate(len);
    over
}
