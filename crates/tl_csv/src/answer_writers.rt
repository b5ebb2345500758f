//! A writer of the rows of many answers, which keeps csv's writer from one answer to the next. It
//! refuses nothing but memory.
ghost use Rattle.std.specs.Prelude.{◌≡◌, ◌++◌, ◌≤◌, length, drop, IfOk, OnOk};
ghost use Rattle.csv.specs.Writing.{writer_under};
ghost use Rattle.tl_csv.specs.Answers.{answer_text};
ghost use Rattle.tl_csv.specs.Writing.{bytes_written, IsIdle, IsWriting};

use crate::answers::{answer_bytes, write_answer, writer_of};
use crate::field_texts::FieldText;
use csv::Writer;
use std::alloc::{AllocError, Global};
use std::marker::Model;
use tl_rows::AnswerRows;
use tl_types::{Bytes, NoMemory};

// How many bytes of answers stay in a writer at most, and for how many it takes room at once.
const MOST_KEPT: usize = 65_536;

// An answer of more rows has a writer of its own, of which its bytes are taken over.
const MOST_ROWS: usize = 512;

/// A writer of the rows of answers, which keeps `csv`'s writer from one answer to the next: to make
/// one clears its buffer of 8 KB, and to get the bytes out of one moves it. The bytes of answers of
/// few rows stay in it, until they are more than 64 KB together.
#[derive(Drop)]
pub struct AnswerWriter {
    writer: Option<Box<Writer<Vec<u8>>>>,
}

impl Model for AnswerWriter {
    ghost use Rattle.std.specs.Prelude.{IfSome, ⊤};
    ghost use Rattle.tl_csv.specs.Writing.{IsIdle};

    ghost Value = { ⊤ };

    ghost view = { λ w. tt };

    ghost invariant = { λ w. IfSome w.writer (λ kept. IsIdle kept.value) };
}

// Writes out what the writer holds in its buffer.
fn flush(writer: &mut Writer<Vec<u8>>) -> Result<(), NoMemory>
    requires { IsWriting writer.old }
    ensures idle { OnOk result (IsIdle writer.new) }
    ensures under { OnOk result ((writer_under writer.new).items ≡ bytes_written writer.old) }
    ensures same { OnOk result (bytes_written writer.new ≡ bytes_written writer.old) }
{
    let Ok(()) = writer.flush() else {
        return Err(AllocError);
    };
    Ok(())
}

// A copy of the bytes from a place on.
fn copy_from(alloc: Global, bytes: &[u8], place: usize) -> Result<Bytes, NoMemory>
    requires { place ≤ length bytes.now }
    ensures { IfOk result (λ copy. copy ≡ drop place bytes.now) }
{
    let (_, behind) = bytes.split_at(place);
    let mut copy = Vec::new(alloc);
    copy.extend_from_slice(behind)?;
    Ok(Bytes::from_vec(copy))
}

// Writes the rows of an answer behind what an idle writer has written.
fn write_behind(
    alloc: Global,
    writer: &mut Writer<Vec<u8>>,
    answer: &AnswerRows,
) -> Result<(), NoMemory>
    requires { IsIdle writer.old }
    ensures idle { OnOk result (IsIdle writer.new) }
    ensures rows { OnOk result ((writer_under writer.new).items
        ≡ (writer_under writer.old).items ++ answer_text answer.now) }
{
    let mut text = FieldText::new(alloc);
    write_answer(writer, &mut text, answer)?;
    flush(writer)?;
    Ok(())
}

impl AnswerWriter {
    /// A writer that has written nothing. It takes no memory.
    pub fn new() -> AnswerWriter {
        AnswerWriter { writer: None }
    }

    // The writer that is kept, or a new one.
    fn take(&mut self, alloc: Global) -> Result<Box<Writer<Vec<u8>>>, NoMemory>
        ensures { IfOk result (λ writer. IsIdle writer.value) }
    {
        match self.writer.take() {
            Some(writer) => Ok(writer),
            None => writer_of(alloc, Vec::with_capacity(alloc, MOST_KEPT)?),
        }
    }

    /// The rows of an answer, as `answer_bytes` gives them. The error is `NoMemory`.
    pub fn bytes_of(&mut self, alloc: Global, answer: &AnswerRows) -> Result<Bytes, NoMemory>
        ensures { IfOk result (λ bytes. bytes ≡ answer_text answer.now) }
    {
        if answer.len() > MOST_ROWS {
            return answer_bytes(alloc, answer);
        }
        let mut writer = self.take(alloc)?;
        let before = writer.get_ref().len();
        write_behind(alloc, &mut writer, answer)?;
        let bytes = copy_from(alloc, writer.get_ref().as_slice(), before)?;
        if writer.get_ref().len() <= MOST_KEPT {
            self.writer = Some(writer);
        }
        Ok(bytes)
    }
}
