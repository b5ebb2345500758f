//! A batch that is lent, where scripts hand theirs over; and one that is read of a block by a
//! reader of its own.
use crate::worked::{opened, schema};
use std::alloc::Global;
use std::test::Fail;
use tl_batch::Keys;
use tl_csv::{BatchKind, CsvFault, read_batch};
use tl_store::Store;
use tl_types::{Batch, Body, Cell, KeyLine, Limits, Opened, Schema, Seq, Text};

// Whether a batch, lent to the first commit, becomes a commit that makes a table of three columns.
fn makes_a_table(alloc: Global, batch: &Batch) -> bool {
    let mut keys = Keys::empty(alloc);
    let store = Store::empty(alloc);
    match keys.resolve(alloc, &store, batch, 7, &Limits::standard()) {
        Ok(commit) => match &commit.body {
            Body::Create(made) => commit.author == 7 && made.columns().len() == 3,
            _ => false,
        },
        Err(_) => false,
    }
}

fn is_lent(alloc: Global, schema: Schema) -> bool {
    let batch = Batch::Create(schema);
    makes_a_table(alloc, &batch)
}

#[test]
fn a_batch_is_lent(rt: HostRuntime) -> Result<(), Fail> {
    assert!(rt; is_lent(rt.alloc(), schema(rt.alloc(), "emp", false)?));
    Ok(())
}

// Whether a block is read as this batch.
fn is_read(alloc: Global, block: &str, schema: &Schema, kind: BatchKind, wanted: &Batch) -> bool {
    match read_batch(alloc, block.as_bytes(), schema, kind, &Limits::standard()) {
        Ok(batch) => batch == *wanted,
        Err(_) => false,
    }
}

// A batch of one row of the table `emp`.
fn rows(alloc: Global, row: Opened) -> Option<Batch> {
    let mut lines = Seq::new(alloc);
    lines.push(row).ok()?;
    let table = Text::new(alloc, "emp").ok()?;
    Some(Batch::Put { table, lines })
}

// A batch of one key of it.
fn keys(alloc: Global, key: i64) -> Option<Batch> {
    let mut lines = Seq::new(alloc);
    let key = Cell::Int(key);
    lines.push(KeyLine { key, period: None }).ok()?;
    let table = Text::new(alloc, "emp").ok()?;
    Some(Batch::Remove { table, lines })
}

fn are_read(alloc: Global, schema: &Schema, row: Opened) -> bool {
    match rows(alloc, row) {
        Some(batch) => {
            let block = "pay,id,dept\r\n-7,1,\"o\"\"ps\"\r\n";
            is_read(alloc, block, schema, BatchKind::PutKind, &batch)
        }
        None => false,
    }
}

fn keys_are_read(alloc: Global, schema: &Schema) -> bool {
    match keys(alloc, 2) {
        Some(batch) => is_read(alloc, "id\n+2\n", schema, BatchKind::RemoveKind, &batch),
        None => false,
    }
}

// Whether a block is no batch of rows, for this fault.
fn is_refused(alloc: Global, block: &str, schema: &Schema, fault: CsvFault) -> bool {
    let kind = BatchKind::PutKind;
    match read_batch(alloc, block.as_bytes(), schema, kind, &Limits::standard()) {
        Ok(_) => false,
        Err(found) => found == fault,
    }
}

#[test]
fn a_block_is_read(rt: HostRuntime) -> Result<(), Fail> {
    let alloc = rt.alloc();
    let schema = schema(alloc, "emp", false)?;
    assert!(rt; are_read(alloc, &schema, opened(alloc, 1, "o\"ps", -7, None)?));
    assert!(rt; keys_are_read(alloc, &schema));
    let missing = CsvFault::HeaderMissing { column: 2 };
    assert!(rt; is_refused(alloc, "id,pay\n1,2\n", &schema, missing));
    let no_number = CsvFault::NotInt { rec: 3, column: 1 };
    assert!(rt; is_refused(alloc, "id,dept,pay\n1,,2\nx,,\n", &schema, no_number));
    Ok(())
}
