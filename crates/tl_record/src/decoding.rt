//! Commits from bytes: one record from an offset on, and where it ends. Bytes that are cut off are
//! `Short`; a record that no commit is spelled as, such as one of an unknown kind, is `Bad`.
ghost use Rattle.std.specs.Prelude.{◌≡◌, ◌≤◌, ◌+◌, List, ℕ, ◌++◌, length, drop, IfOk, IfErr, IsErrOf};
ghost use Rattle.tl_types.specs.declared.commits.Commit.{Commit as CommitValue};
ghost use Rattle.tl_record.specs.Spelling.{spelling, IsCommit};
ghost use Rattle.tl_record.specs.Reading.{Gives, floor_at, body_without_rows, body_of, body_at, commit_at};
ghost use Rattle.tl_record.specs.Decoding.{
  BeginsWith,
  IsCutRecord,
  IsNoRecord,
  IsAt,
  IsDecoded,
  FindsUnlessMemory,
  FailsUnlessMemory,
};

use crate::faults::{Fault, ReadError, RecordFault};
use crate::{changes, numbers, tables};
use std::alloc::Global;
use tl_types::{Body, Commit};

/// A commit that was read, and where its record ends.
#[derive(Debug, Drop)]
pub struct Decoded {
    /// The commit that the record spells. Whether it fits is not asked.
    pub commit: Commit,
    /// The byte offset behind its record in the bytes that are read, from 0.
    pub end: usize,
}

#[tactic(auto, unfolding(crate::specs::Reading::floor_at))]
fn floor(bytes: &[u8]) -> Result<(Body, &[u8]), ReadError>
    ensures { Gives (λ x. (x.0, x.1.now)) result (floor_at bytes.now) }
{
    let (table, rest) = numbers::short_number(bytes)?;
    let (floor, rest) = numbers::number(0, u32::MAX, rest)?;
    Ok((Body::Forget { table, floor }, rest))
}

fn body_without_rows(kind: u8, bytes: &[u8]) -> Result<(Body, &[u8]), ReadError>
    ensures { Gives (λ x. (x.0, x.1.now)) result (body_without_rows kind bytes.now) }
{
    if kind == 4 {
        let (moment, rest) = numbers::signed(i64::MIN, i64::MAX, bytes)?;
        return Ok((Body::Moment { moment }, rest));
    }
    let (body, rest) = floor(bytes)?;
    Ok((body, rest))
}

fn body_of(alloc: Global, kind: u8, bytes: &[u8]) -> Result<(Body, &[u8]), ReadError>
    ensures { Gives (λ x. (x.0, x.1.now)) result (body_of kind bytes.now) }
{
    if kind == 1 {
        let (schema, rest) = tables::schema(alloc, bytes)?;
        return Ok((Body::Create(schema), rest));
    }
    if kind == 2 {
        let (change, rest) = changes::change(alloc, bytes)?;
        return Ok((Body::Change(change), rest));
    }
    let (body, rest) = body_without_rows(kind, bytes)?;
    Ok((body, rest))
}

#[tactic(auto, unfolding(crate::specs::Reading::body_at))]
fn body(alloc: Global, bytes: &[u8]) -> Result<(Body, &[u8]), ReadError>
    ensures { Gives (λ x. (x.0, x.1.now)) result (body_at bytes.now) }
{
    let (kind, rest) = numbers::kind(bytes)?;
    let (body, rest) = body_of(alloc, kind, rest)?;
    Ok((body, rest))
}

#[tactic(auto, unfolding(crate::specs::Reading::commit_at))]
fn commit(alloc: Global, bytes: &[u8]) -> Result<(Commit, &[u8]), ReadError>
    ensures { Gives (λ x. (x.0, x.1.now)) result (commit_at bytes.now) }
{
    let (author, rest) = numbers::number(0, u32::MAX, bytes)?;
    let (body, rest) = body(alloc, rest)?;
    Ok((Commit { author, body }, rest))
}

fn read(alloc: Global, bytes: &[u8], at: usize) -> Result<Decoded, RecordFault>
    requires { at ≤ length bytes.now }
    ensures { IsDecoded at (length bytes.now) result (commit_at (drop at bytes.now)) }
{
    let (_, behind) = bytes.split_at(at);
    match commit(alloc, behind) {
        Ok((commit, rest)) => Ok(Decoded {
            commit,
            end: bytes.len() - rest.len(),
        }),
        Err(ReadError::Fault(Fault::Short)) => Err(RecordFault::Short { at }),
        Err(ReadError::Fault(Fault::Bad)) => Err(RecordFault::Bad { at }),
        Err(ReadError::Memory) => Err(RecordFault::NoMemory),
    }
}

/// The commit whose record begins at the offset `at`, which is at most the number of bytes. Bytes
/// may follow the record. The error is `Short` exactly where the bytes from `at` on begin a record
/// and end before it does, `Bad` exactly where they neither begin a record nor begin with one, and
/// `NoMemory`.
pub fn decode(alloc: Global, bytes: &[u8], at: usize) -> Result<Decoded, RecordFault>
    requires { at ≤ length bytes.now }
    // What is read is spelled so, and ends there.
    ensures ok { IfOk result (λ d. (rest : List ℕ) × BeginsWith (drop at bytes.now) d.commit rest) }
    ensures end { IfOk result (λ d. d.end ≡ at + length (spelling d.commit)) }
    ensures within { IfOk result (λ d. d.end ≤ length bytes.now) }
    // What each fault says of the bytes.
    ensures short { IsErrOf result (RecordFault.Short at) → IsCutRecord (drop at bytes.now) }
    ensures bad { IsErrOf result (RecordFault.Bad at) → IsNoRecord (drop at bytes.now) }
    ensures place { IfErr result (IsAt at) }
    // What is spelled is read, and what is cut is told, unless memory runs out.
    ensures found { (c : CommitValue) (rest : List ℕ) → BeginsWith (drop at bytes.now) c rest →
        FindsUnlessMemory c result }
    ensures cut { IsCutRecord (drop at bytes.now) →
        FailsUnlessMemory (RecordFault.Short at) result }
    ensures none { IsNoRecord (drop at bytes.now) → FailsUnlessMemory (RecordFault.Bad at) result }
{
    read(alloc, bytes, at)
}

/// No record begins another, and each record is that of one commit.
#[tactic(auto, using(crate::proofs::RecordsRead::no_prefix))]
pub fn one_record()
    ensures { (c d : CommitValue) (r s : List ℕ) → IsCommit c → IsCommit d →
        spelling c ++ r ≡ spelling d ++ s → (c ≡ d) × (r ≡ s) }
{}
