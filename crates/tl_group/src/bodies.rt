//! The body with which the commits that wait are appended: their records, each with a gate behind
//! it. The gates are open, but for the last, which is closed. It keeps how long it may become in
//! the memory and on the journal's disk that are taken for it. Each time that this is too little,
//! room for twice as many bytes as are needed is taken: so the steps in which room for n bytes is
//! taken cost n together, and no byte that waits is looked at again.
ghost use Rattle.std.specs.Prelude.{◌≡◌, ◌==◌, ◌+◌, ◌*◌, ◌≤◌, ◌<◌, ◌^◌, ◌++◌, ◌∷◌, [], ℕ, List, length, OnOk, OnErr, vec_len, vec_capacity};
ghost use Rattle.tl_types.specs.declared.commits.Commit.{Commit as CommitValue};
ghost use Rattle.tl_history.specs.Committing.{TakesRoom};
ghost use Rattle.tl_journal.specs.Image.{IsBodyOf, body_of};
ghost use Rattle.tl_group.specs.Bodies.{MayWait, PutsRecords};

use std::alloc::{AllocError, Global};
use std::marker::Model;
use tl_device::Disk;
use tl_journal::Journal;
use tl_record::encode_with_gate;
use tl_types::{Bytes, Commit, NoMemory};

/// The body of the commits that wait, and how many bytes it may become with the memory and the
/// journal's room that are taken.
#[derive(Drop)]
pub(crate) struct GroupBody {
    bytes: Vec<u8>,
    room: u64,
}

impl Model for GroupBody {
    ghost use Rattle.std.specs.Prelude.{◌≤◌, vec_len, vec_capacity};
    ghost use Rattle.tl_group.specs.Plain as plain;

    ghost Value = { plain.GroupBody };

    ghost view = { λ b. record { bytes = b.bytes.items; room = b.room } };

    ghost invariant = { λ b. (vec_len b.bytes ≤ b.room) × (b.room ≤ vec_capacity b.bytes) };
}

// Opens the last gate of a body, if it has one.
fn open_last(bytes: &mut Vec<u8>)
    ensures opened { (front : List ℕ) → bytes.old.items ≡ front ++ 0 ∷ [] →
        bytes.new.items ≡ front ++ 1 ∷ [] }
    ensures none { bytes.old.items ≡ [] → bytes.new.items ≡ [] }
    ensures len { vec_len bytes.new ≡ vec_len bytes.old }
    ensures capacity { vec_capacity bytes.old ≤ vec_capacity bytes.new }
{
    let len = bytes.len();
    if len > 0 {
        bytes[len - 1] = 1;
    }
}

// Puts the record of one commit more, which has a closed gate behind it, behind the body of a
// group, whose last gate is opened. There is room for it.
fn put_behind(bytes: &mut Vec<u8>, spelled: &[u8])
    requires room { vec_len bytes.old + length spelled.now ≤ vec_capacity bytes.old }
    ensures body { (group : List CommitValue) (c : CommitValue) → MayWait group →
        IsBodyOf c spelled.now → bytes.old.items ≡ body_of group →
        bytes.new.items ≡ body_of (group ++ c ∷ []) }
    ensures len { vec_len bytes.new ≡ vec_len bytes.old + length spelled.now }
    ensures capacity { vec_capacity bytes.old ≤ vec_capacity bytes.new }
{
    open_last(bytes);
    bytes.extend_from_slice(spelled).unwrap();
}

impl GroupBody {
    /// The body of no commit, for which no room is taken.
    pub(crate) fn empty(alloc: Global) -> GroupBody
        ensures { result ≡ record { bytes = []; room = 0 } }
    {
        GroupBody {
            bytes: Vec::new(alloc),
            room: 0,
        }
    }

    // Takes memory and the disk's room for a body of so many bytes, more than there was room for.
    // The error is `NoMemory`, and leaves the body and its room as they are.
    fn grow<D: Disk>(&mut self, journal: &mut Journal<D>, room: u64) -> Result<(), NoMemory>
        requires most { room < 2 ^ 63 }
        requires more { self.old.room ≤ room }
        requires spare { self.old.room ≤ journal.old.spare }
        ensures bytes { self.new.bytes ≡ self.old.bytes }
        ensures room { OnOk result (self.new.room ≡ room) }
        ensures kept { OnErr result (self.new.room ≡ self.old.room) }
        ensures spare { self.new.room ≤ journal.new.spare }
        ensures journal { TakesRoom D.reads D.may_leave D.moment D.left_since D.faults
            journal.old journal.new }
        ensures back { (image : List ℕ) → D.may_leave journal.old.disk image →
            D.may_leave journal.new.disk image }
    {
        let more = room as usize - self.bytes.len();
        self.bytes.reserve(more)?;
        journal.reserve(room)?;
        self.room = room;
        Ok(())
    }

    /// Takes the memory for a record behind the body, and the room of the journal's disk for both,
    /// where there is too little: then for twice as many bytes as the body has with the record.
    /// The error is `NoMemory`, and leaves the body and its room as they are.
    pub(crate) fn take_room<D: Disk>(
        &mut self,
        journal: &mut Journal<D>,
        spelled: &[u8],
    ) -> Result<(), NoMemory>
        requires spare { self.old.room ≤ journal.old.spare }
        ensures bytes { self.new.bytes ≡ self.old.bytes }
        ensures room { OnOk result (length self.old.bytes + length spelled.now ≤ self.new.room) }
        ensures enough { length self.old.bytes + length spelled.now ≤ self.old.room
            → self.new.room ≡ self.old.room }
        ensures most { self.old.room < length self.old.bytes + length spelled.now
            → self.new.room ≤ 2 * (length self.old.bytes + length spelled.now) }
        ensures kept { OnErr result (self.new.room ≡ self.old.room) }
        ensures spare { self.new.room ≤ journal.new.spare }
        ensures journal { TakesRoom D.reads D.may_leave D.moment D.left_since D.faults
            journal.old journal.new }
        ensures back { (image : List ℕ) → D.may_leave journal.old.disk image →
            D.may_leave journal.new.disk image }
    {
        let needed = self.bytes.len() as u64 + spelled.len() as u64;
        if needed <= self.room {
            return Ok(());
        }
        if needed >= 4611686018427387904 {
            return Err(AllocError);
        }
        self.grow(journal, needed * 2)
    }

    /// Puts the record of one commit more, which has a closed gate behind it, behind the body,
    /// whose last gate is opened. There is room for it.
    pub(crate) fn put_record(&mut self, spelled: &[u8])
        requires room { length self.old.bytes + length spelled.now ≤ self.old.room }
        ensures body { (group : List CommitValue) (c : CommitValue) → MayWait group →
            IsBodyOf c spelled.now → self.old.bytes ≡ body_of group →
            self.new.bytes ≡ body_of (group ++ c ∷ []) }
        ensures room { self.new.room ≡ self.old.room }
    {
        put_behind(&mut self.bytes, spelled);
    }

    /// Puts the record of a commit behind the body, with the room that it wants. The error is
    /// `NoMemory`.
    pub(crate) fn put_commit<D: Disk>(
        &mut self,
        alloc: Global,
        journal: &mut Journal<D>,
        commit: &Commit,
    ) -> Result<(), NoMemory>
        requires spare { self.old.room ≤ journal.old.spare }
        ensures body { OnOk result
            (PutsRecords (commit.now ∷ []) self.old.bytes self.new.bytes) }
        ensures spare { self.new.room ≤ journal.new.spare }
        ensures journal { TakesRoom D.reads D.may_leave D.moment D.left_since D.faults
            journal.old journal.new }
    {
        let spelled = encode_with_gate(alloc, commit)?;
        self.take_room(journal, spelled.as_slice())?;
        self.put_record(spelled.as_slice());
        Ok(())
    }

    /// Puts the records of commits behind the body, with the room that they want. The error is
    /// `NoMemory`.
    pub(crate) fn put_commits<D: Disk>(
        &mut self,
        alloc: Global,
        journal: &mut Journal<D>,
        commits: &[Commit],
    ) -> Result<(), NoMemory>
        requires spare { self.old.room ≤ journal.old.spare }
        ensures body { OnOk result (PutsRecords commits.now self.old.bytes self.new.bytes) }
        ensures spare { self.new.room ≤ journal.new.spare }
        ensures journal { TakesRoom D.reads D.may_leave D.moment D.left_since D.faults
            journal.old journal.new }
    {
        for commit in commits {
            self.put_commit(alloc, journal, commit)?;
        }
        Ok(())
    }

    /// Whether the body has no byte.
    pub(crate) fn is_empty(&self) -> bool
        ensures { result ≡ (length self.now.bytes == 0) }
    {
        self.bytes.is_empty()
    }

    /// The bytes of the body. It takes no memory.
    pub(crate) fn into_bytes(self) -> Bytes
        ensures bytes { result ≡ self.bytes }
        ensures room { length result ≤ self.room }
    {
        let GroupBody { bytes, .. } = self;
        Bytes::from_vec(bytes)
    }
}
