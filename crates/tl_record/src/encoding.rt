//! Commits as bytes: each has one spelling. Its memory is taken once, at the length of the record;
//! nothing but memory is refused.
ghost use Rattle.std.specs.Prelude.{◌≡◌, ◌+◌, ◌<◌, ◌++◌, ◌∷◌, [], IfOk, OnOk, IsTrue, length};
ghost use Rattle.std.specs.List.{flat_map, list_all};
ghost use Rattle.tl_types.specs.Names.{is_name};
ghost use Rattle.tl_record.specs.Spelling.{number, name_bytes, column_bytes, schema_bytes, row_bytes, change_bytes, spelling, IsCommit};

use crate::{lengths, placing};
use std::alloc::Global;
use tl_types::{Body, Bytes, Change, Column, Commit, NoMemory, Opened, Schema, Text};

/// The record of a commit. Its memory is taken once, at its length. The error is `NoMemory`.
pub fn encode(alloc: Global, commit: &Commit) -> Result<Bytes, NoMemory>
    ensures record { IfOk result (λ b. b ≡ spelling commit.now) }
    ensures fits { IfOk result (λ b. IsCommit commit.now) }
{
    let len = lengths::record_len(commit);
    let mut out = Vec::with_capacity(alloc, len)?;
    put_commit(&mut out, len, commit)?;
    Ok(Bytes::from_vec(out))
}

/// The record of a commit with a closed gate, the byte 0, behind it: what an append writes. Its
/// memory is taken once, at its length. The error is `NoMemory`.
pub fn encode_with_gate(alloc: Global, commit: &Commit) -> Result<Bytes, NoMemory>
    ensures record { IfOk result (λ b. b ≡ spelling commit.now ++ 0 ∷ []) }
    ensures fits { IfOk result (λ b. IsCommit commit.now) }
{
    let len = lengths::record_len(commit);
    let mut out = Vec::with_capacity(alloc, len + 1)?;
    put_commit(&mut out, len, commit)?;
    out.push(0)?;
    Ok(Bytes::from_vec(out))
}

// Puts a record behind what `out` has; `len` is its length with it.
fn put_commit(out: &mut Vec<u8>, len: usize, commit: &Commit) -> Result<(), NoMemory>
    requires { len ≡ length out.old.items + length (spelling commit.now) }
    ensures { OnOk result (out.new.items ≡ out.old.items ++ spelling commit.now) }
{
    put_number(out, commit.author)?;
    match &commit.body {
        Body::Create(schema) => {
            out.push(1)?;
            put_schema(out, schema)?;
        }
        Body::Change(change) => {
            out.push(2)?;
            put_change(out, len, change)?;
        }
        Body::Moment { moment } => {
            out.push(4)?;
            out.extend_from_slice(&moment.to_be_bytes())?;
        }
        Body::Forget { table, floor } => {
            out.push(5)?;
            out.extend_from_slice(&table.to_be_bytes())?;
            put_number(out, *floor)?;
        }
    }
    Ok(())
}

fn put_number(out: &mut Vec<u8>, n: u32) -> Result<(), NoMemory>
    ensures { OnOk result (out.new.items ≡ out.old.items ++ number n) }
{
    out.extend_from_slice(&n.to_be_bytes())?;
    Ok(())
}

fn put_name(out: &mut Vec<u8>, name: &Text) -> Result<(), NoMemory>
    requires { IsTrue (is_name name.now) }
    ensures { OnOk result (out.new.items ≡ out.old.items ++ name_bytes name.now) }
{
    out.push(name.as_bytes().len() as u8)?;
    out.extend_from_slice(name.as_bytes())?;
    Ok(())
}

fn put_columns(out: &mut Vec<u8>, columns: &[Column]) -> Result<(), NoMemory>
    requires { IsTrue (list_all (λ c. is_name c.name) columns.now) }
    ensures { OnOk result (out.new.items ≡ out.old.items ++ flat_map column_bytes columns.now) }
{
    match columns {
        [] => Ok(()),
        [first, rest @ ..] => {
            put_name(out, &first.name)?;
            out.push(lengths::kind_byte(first.kind))?;
            put_columns(out, rest)?;
            Ok(())
        }
    }
}

fn put_schema(out: &mut Vec<u8>, schema: &Schema) -> Result<(), NoMemory>
    ensures { OnOk result (out.new.items ≡ out.old.items ++ schema_bytes schema.now) }
{
    put_name(out, schema.name())?;
    let count = schema.columns().len() as u8;
    out.extend_from_slice(&[lengths::flag_byte(schema.valid()), count])?;
    put_columns(out, schema.columns())?;
    out.push(schema.key())?;
    Ok(())
}

fn put_ids(out: &mut Vec<u8>, ids: &[u32]) -> Result<(), NoMemory>
    ensures { OnOk result (out.new.items ≡ out.old.items ++ flat_map number ids.now) }
{
    for id in ids {
        put_number(out, *id)?;
    }
    Ok(())
}

// Puts rows behind what `out` has; `len` is its length with them.
fn put_rows(out: &mut Vec<u8>, len: usize, rows: &[Opened]) -> Result<(), NoMemory>
    requires { len ≡ length out.old.items + length (flat_map row_bytes rows.now) }
    ensures { OnOk result (out.new.items ≡ out.old.items ++ flat_map row_bytes rows.now) }
{
    let at = out.len();
    out.resize(len, 0)?;
    let _end = placing::place_rows(out.as_mut_slice(), at, rows); // the end, which is the length
    Ok(())
}

// Puts a change behind what `out` has; `len` is its length with it.
fn put_change(out: &mut Vec<u8>, len: usize, change: &Change) -> Result<(), NoMemory>
    requires { len ≡ length out.old.items + length (change_bytes change.now) }
    ensures { OnOk result (out.new.items ≡ out.old.items ++ change_bytes change.now) }
{
    out.extend_from_slice(&change.table().to_be_bytes())?;
    put_number(out, change.closes().len() as u32)?;
    put_ids(out, change.closes())?;
    put_number(out, change.opens().len() as u32)?;
    put_rows(out, len, change.opens())?;
    Ok(())
}
