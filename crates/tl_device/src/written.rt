//! Bytes in memory that are appended to, and the room that was made for more. What has its room
//! takes no memory.
ghost use Rattle.std.specs.Prelude.{◌≡◌, ◌+◌, ◌-◌, ◌≤◌, ◌++◌, [], length, max, OnOk, OnErr, vec_len, vec_capacity};

use crate::failed::NoMemory;
use std::alloc::Global;
use std::marker::Model;

// The room that is left lies within the capacity of `bytes`.
#[derive(Drop)]
pub struct Written {
    bytes: Vec<u8>,
    spare: u64,
}

impl Model for Written {
    ghost use Rattle.std.specs.Prelude.{◌+◌, ◌≤◌, vec_len, vec_capacity};
    ghost use Rattle.tl_device.specs.Plain as plain;

    ghost Value = { plain.SureSink };

    ghost view = { λ w. record { bytes = w.bytes.items; spare = w.spare } };

    ghost invariant = { λ w. vec_len w.bytes + w.spare ≤ vec_capacity w.bytes };
}

impl Written {
    /// No byte written, and room for none. `alloc` is the memory that it will take.
    pub fn none(alloc: Global) -> Written
        ensures bytes { result.bytes ≡ [] }
        ensures spare { result.spare ≡ 0 }
    {
        Written {
            bytes: Vec::new(alloc),
            spare: 0,
        }
    }

    /// All bytes written so far, in the order of the writes; none at first.
    pub fn bytes(&self) -> &[u8]
        ensures { result.now ≡ self.now.bytes }
    {
        &self.bytes
    }

    /// Appends `from`, for which there is room.
    pub fn append(&mut self, from: &[u8])
        requires { length from.now ≤ self.old.spare }
        ensures bytes { self.new.bytes ≡ self.old.bytes ++ from.now }
        ensures spare { self.new.spare ≡ self.old.spare - length from.now }
    {
        self.spare -= from.len() as u64;
        self.bytes.extend_from_slice(from).unwrap();
    }

    /// Makes room for `bytes` bytes more, and keeps what there is.
    pub fn room(&mut self, bytes: u64) -> Result<(), NoMemory>
        ensures bytes { self.new.bytes ≡ self.old.bytes }
        ensures ok { OnOk result (self.new.spare ≡ max self.old.spare bytes) }
        ensures err { OnErr result (self.new.spare ≡ self.old.spare) }
    {
        self.bytes.reserve(bytes as usize)?;
        self.spare = self.spare.max(bytes);
        Ok(())
    }
}
