//! The bytes that are taken of a source and not read yet. They stand in one room, which grows by a
//! read at a time and is used again; a source that fails leaves them as they were.
ghost use Rattle.std.specs.Prelude.{◌≡◌, ◌↔◌, ◌+◌, ◌-◌, ◌≤◌, length, take, drop, [], IfOk, IfSome, OnOk, OnErr, IfErr, vec_len};
ghost use Rattle.tl_device.specs.Known.{prepend_known, Rose};
ghost use Rattle.tl_script.specs.InHand.{Refills};
ghost use Rattle.tl_script.specs.Reader.{NextFaults};

use crate::phases::NextError;
use std::alloc::Global;
use std::marker::Model;
use tl_device::{Failed, Source};
use tl_types::NoMemory;

// How many bytes one read asks for.
const PIECE: usize = 65536;

// The bytes from `place` up to `end` are not read yet; those behind are room for one read. A
// contract sees the bytes that are not read as their list.
#[derive(Drop)]
pub(crate) struct Pending {
    room: Vec<u8>,
    place: usize,
    end: usize,
}

impl Model for Pending {
    ghost use Rattle.std.specs.Prelude.{ℕ, ◌≤◌, List, drop, take, vec_len};

    ghost Value = { List ℕ };

    ghost view = { λ p. drop p.place (take p.end p.room.items) };

    ghost invariant = { λ p. (p.place ≤ p.end) × (p.end ≤ vec_len p.room) };
}

// Moves the bytes from `place` up to `end` to the start.
fn move_to_start(room: &mut Vec<u8>, place: usize, end: usize)
    requires ordered { place ≤ end }
    requires within { end ≤ vec_len room.old }
    ensures same { take (end - place) room.new.items ≡ drop place (take end room.old.items) }
    ensures len { vec_len room.new ≡ vec_len room.old }
{
    room.copy_within(place..end, 0);
}

// Gives the room as many bytes as one read asks for behind the first `end`.
fn make_room(room: &mut Vec<u8>, end: usize) -> Result<(), NoMemory>
    requires { end ≤ vec_len room.old }
    ensures same { take end room.new.items ≡ take end room.old.items }
    ensures within { end ≤ vec_len room.new }
    ensures len { OnOk result (vec_len room.new ≡ end + 65536) }
{
    room.resize(end + PIECE, 0)?;
    Ok(())
}

// Reads bytes behind the first `end`.
fn read_behind<S: Source>(room: &mut [u8], end: usize, source: &mut S) -> Result<usize, Failed>
    requires { length room.old ≡ end + 65536 }
    ensures len { length room.new ≡ length room.old }
    ensures same { take end room.new ≡ take end room.old }
    ensures bound { IfOk result (λ n. n ≤ 65536) }
    ensures taken { IfOk result (λ n. S.left source.old
        ≡ prepend_known (take n (drop end room.new)) (S.left source.new)) }
    ensures ends { IfOk result (λ n. IfSome (S.left source.old)
        (λ bytes. (n ≡ 0) ↔ (bytes ≡ []))) }
    ensures sure { OnOk result (S.faults source.new ≡ S.faults source.old) }
    ensures untaken { OnErr result (S.left source.new ≡ S.left source.old) }
    ensures rose { OnErr result (Rose (S.faults source.old) (S.faults source.new)) }
{
    let (_, behind) = room.split_at_mut(end);
    source.read(behind)
}

impl Pending {
    /// No bytes, and no room yet: the first read makes it.
    pub fn new(alloc: Global) -> Pending
        ensures { result ≡ [] }
    {
        Pending {
            room: Vec::new(alloc),
            place: 0,
            end: 0,
        }
    }

    /// The bytes that are not read yet, lent.
    pub fn as_slice(&self) -> &[u8]
        ensures { result.now ≡ self.now }
    {
        self.room
            .as_slice()
            .split_at(self.end)
            .0
            .split_at(self.place)
            .1
    }

    /// The number of bytes.
    pub fn len(&self) -> usize
        ensures { result ≡ length self.now }
    {
        self.end - self.place
    }

    /// Leaves out so many bytes at the start, which are read now.
    pub fn pass(&mut self, number: usize)
        requires { number ≤ length self.old }
        ensures { self.new ≡ drop number self.old }
    {
        self.place += number;
    }

    /// Leaves out all bytes, which are read now; the room stays.
    pub fn clear(&mut self)
        ensures { self.new ≡ [] }
    {
        self.place = 0;
        self.end = 0;
    }

    /// The bytes as a `Vec`.
    pub fn into_vec(self) -> Result<Vec<u8>, NoMemory>
        ensures { IfOk result (λ bytes. bytes.items ≡ self) }
    {
        let place = self.place;
        let end = self.end;
        let mut bytes = self.room;
        bytes.truncate(end);
        if place == 0 {
            return Ok(bytes);
        }
        bytes.split_off(place)
    }

    // Moves the bytes to the start of the room.
    fn tidy(&mut self)
        ensures { self.new ≡ self.old }
    {
        let place = self.place;
        if place == 0 {
            return;
        }
        let end = self.end;
        move_to_start(&mut self.room, place, end);
        self.place = 0;
        self.end = end - place;
    }

    /// Takes further bytes of a source. It answers false at the end of input, where there are none.
    /// `Source`: the source failed; its count of faults, which rose in this call, is handed on.
    /// `NoMemory`: memory ran out.
    pub fn refill<S: Source>(&mut self, alloc: Global, source: &mut S) -> Result<bool, NextError>
        ensures refills { Refills self.old (S.left source.old) result self.new
            (S.left source.new) }
        ensures sure { OnOk result (S.faults source.new ≡ S.faults source.old) }
        ensures faults { IfErr result (λ e. NextFaults e (S.faults source.old)
            (S.faults source.new)) }
    {
        self.tidy();
        let end = self.end;
        make_room(&mut self.room, end)?;
        match read_behind(&mut self.room, end, source) {
            Ok(0) => Ok(false),
            Ok(number) => {
                self.end = end + number;
                Ok(true)
            }
            Err(Failed) => Err(NextError::Source {
                faults: source.faults(),
            }),
        }
    }
}
