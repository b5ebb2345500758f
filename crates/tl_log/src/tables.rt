//! The listing of tables: a line of CSV a column, with what is so of its table. It counts the rows
//! that are current and looks for last versions by reading all commits again, and refuses nothing
//! but where memory runs out.
ghost use Rattle.std.specs.Prelude.{◌≡◌, ℕ, ◌++◌, ◌<◌, ◌==◌, IfOk, OnOk, Some, List, set, get_or, slice_get, length, cond};
ghost use Rattle.std.specs.String.{string_bytes};
ghost use Rattle.tl_types.specs.History.{database_of, is_open, rows_of};
ghost use Rattle.tl_types.specs.Plain as plain;
ghost use Rattle.tl_log.specs.Listing.{column_line, column_lines, kind_word, last_versions, lasts_after, lines_of_tables, open_rows, table_lines, table_words, tables_text, yes_word};

use crate::lines::{begun_with, put_text};
use std::alloc::Global;
use std::marker::Brand;
use std::sync::ledger::{Blank, Ledger};
use tl_store::Store;
use tl_types::{Body, Bytes, Column, ColumnKind, NoMemory, OPEN, Schema, Steps};

// Lays a version at the place of a table, where there is one.
#[tactic(auto, using(crate::proofs::TableLemmas::set_past_end))]
fn set_last(lasts: &mut Vec<u32>, table: u16, version: u32)
    ensures { lasts.new.items ≡ set lasts.old.items table version }
{
    let place = table as usize;
    if lasts.len() <= place {
        return;
    }
    lasts[place] = version;
}

// Takes a commit into the last versions of the tables.
fn note_last(lasts: &mut Vec<u32>, version: u32, body: &Body) -> Result<(), NoMemory>
    ensures { OnOk result (lasts.new.items ≡ lasts_after version body.now lasts.old.items) }
{
    match body {
        Body::Create(_) => lasts.push(version)?,
        Body::Change(change) => set_last(lasts, change.table(), version),
        Body::Moment { .. } => {}
        Body::Forget { .. } => {}
    }
    Ok(())
}

// Of each table the version of the last commit that created it or changed its rows.
#[tactic(auto, using(crate::proofs::TableLemmas::lasts_step, crate::proofs::TableLemmas::lasts_end))]
fn last_versions<L: Ledger>(
    alloc: Global,
    store: &Store,
    steps: &mut Steps<L>,
) -> Result<Vec<u32>, NoMemory>
    ensures { IfOk result (λ lasts. lasts.items ≡ last_versions store.now) }
{
    let mut lasts = Vec::new(alloc);
    for before in 0..store.versions() {
        let commit = store.commit_at(alloc, before + 1, steps)?;
        note_last(&mut lasts, before + 1, &commit.body)?;
    }
    Ok(lasts)
}

// 1 where a row of a table is current, and else 0.
#[tactic(auto, using(crate::proofs::TableLemmas::row_open))]
fn current_count<L: Ledger>(store: &Store, table: u16, row: u32, steps: &mut Steps<L>) -> u32
    requires { row < length (rows_of (database_of store.now) table) }
    ensures { (d : plain.Row) → result
        ≡ cond {A = ℕ} (is_open (get_or (rows_of (database_of store.now) table) row d)) 1 0 }
{
    if store.period_at(table, row, steps).to == OPEN {
        1
    } else {
        0
    }
}

// How many rows of a table are current.
#[tactic(auto, using(crate::proofs::TableLemmas::counts_none, crate::proofs::TableLemmas::counts_more, crate::proofs::TableLemmas::open_all))]
fn open_rows<L: Ledger>(store: &Store, table: u16, steps: &mut Steps<L>) -> u32
    requires { table < length (database_of store.now).tables }
    ensures { result ≡ open_rows (rows_of (database_of store.now) table) }
{
    let mut count = 0;
    for row in 0..store.rows(table) {
        count += current_count(store, table, row, steps);
    }
    count
}

fn kind_word(kind: ColumnKind) -> &'static str
    ensures { result.now ≡ kind_word kind }
{
    match kind {
        ColumnKind::IntKind => "INT",
        ColumnKind::TextKind => "TEXT",
    }
}

fn yes_word(is_so: bool) -> &'static str
    ensures { result.now ≡ yes_word is_so }
{
    if is_so { "yes" } else { "no" }
}

// How many rows of a table are current, how many it has, its last version, whether its rows have a
// valid period, its floor, and the end of the line.
#[tactic(auto, using(crate::proofs::TableLemmas::words_there))]
fn table_words<L: Ledger>(
    alloc: Global,
    store: &Store,
    table: u16,
    last: u32,
    steps: &mut Steps<L>,
) -> Result<String, NoMemory>
    requires { table < length (database_of store.now).tables }
    ensures { (t : plain.Table) → slice_get (database_of store.now).tables table ≡ Some t →
        IfOk result (λ text. string_bytes text ≡ table_words last t) }
{
    let current = open_rows(store, table, steps);
    let rows = store.rows(table);
    let valid = yes_word(store.schema(table).valid());
    let floor = store.floor(table);
    format!(in alloc; "{current},{rows},{last},{valid},{floor}\n")
}

// Puts the line of the column at a place, which ends with these words.
fn put_column(
    alloc: Global,
    out: &mut Vec<u8>,
    schema: &Schema,
    words: &str,
    place: usize,
    column: &Column,
) -> Result<(), NoMemory>
    ensures { OnOk result (out.new.items
        ≡ out.old.items ++ column_line schema.now words.now place column.now) }
{
    let table = schema.name().as_str();
    let name = column.name.as_str();
    let kind = kind_word(column.kind);
    let key = yes_word(place == schema.key() as usize);
    let line = format!(in alloc; "{table},{name},{kind},{key},{words}")?;
    put_text(out, line.as_str())
}

// Puts the lines of all columns of a schema.
#[tactic(auto, using(crate::proofs::TableLemmas::columns_more, crate::proofs::TableLemmas::columns_end))]
fn put_columns(
    alloc: Global,
    out: &mut Vec<u8>,
    schema: &Schema,
    words: &str,
) -> Result<(), NoMemory>
    ensures { OnOk result (out.new.items
        ≡ out.old.items ++ column_lines schema.now words.now 0 schema.now.columns) }
{
    let columns = schema.columns();
    for place in 0..columns.len() {
        put_column(alloc, out, schema, words, place, &columns[place])?;
    }
    Ok(())
}

// Puts the lines of a table with a last version.
fn put_table<L: Ledger>(
    alloc: Global,
    out: &mut Vec<u8>,
    store: &Store,
    table: u16,
    last: u32,
    steps: &mut Steps<L>,
) -> Result<(), NoMemory>
    requires { table < length (database_of store.now).tables }
    ensures { (t : plain.Table) → slice_get (database_of store.now).tables table ≡ Some t →
        OnOk result (out.new.items ≡ out.old.items ++ table_lines last t) }
{
    let words = table_words(alloc, store, table, last, steps)?;
    put_columns(alloc, out, store.schema(table), words.as_str())?;
    Ok(())
}

// The version at a place of a list, 0 past its end.
#[tactic(auto, using(crate::proofs::TableLemmas::version_past))]
fn version_at(lasts: &[u32], place: usize) -> u32
    ensures { result ≡ get_or lasts.now place 0 }
{
    if lasts.len() <= place {
        return 0;
    }
    lasts[place]
}

// Puts the lines of all tables, with their last versions.
#[tactic(auto, using(crate::proofs::TableLemmas::tables_more, crate::proofs::TableLemmas::tables_end))]
fn put_tables<L: Ledger>(
    alloc: Global,
    out: &mut Vec<u8>,
    store: &Store,
    lasts: &[u32],
    steps: &mut Steps<L>,
) -> Result<(), NoMemory>
    ensures { OnOk result (out.new.items ≡ out.old.items
        ++ lines_of_tables lasts.now 0 (database_of store.now).tables) }
{
    for number in 0..store.tables() {
        let last = version_at(lasts, number as usize);
        put_table(alloc, out, store, number, last, steps)?;
    }
    Ok(())
}

// The listing of tables, whose steps are counted and not told.
fn tables_text<L: Ledger>(alloc: Global, store: &Store, blank: Blank) -> Result<Bytes, NoMemory>
    requires name { blank.name ≡ L.name }
    requires parts { blank.parts ≡ L.parts }
    requires some { 0 < blank.parts }
    ensures { IfOk result (λ bytes. bytes ≡ tables_text store.now) }
{
    let mut steps = Steps::<L>::new(blank);
    let lasts = last_versions(alloc, store, &mut steps)?;
    let mut out = begun_with(
        alloc,
        "table,column,type,key,open,rows,version,valid,floor\n",
    )?;
    put_tables(alloc, &mut out, store, &lasts, &mut steps)?;
    Ok(Bytes::from_vec(out))
}

/// The listing of the tables that the commits of a store make, in order of their numbers: a line of
/// names, and then a line a column with its table, its name, what it holds, whether it is the key,
/// and of its table how many rows are current, how many it has with those that have ended, the
/// version of the last commit that created it or changed its rows, whether its rows have a valid
/// period, and its floor, which is the least version that may be asked of it. The error is
/// `NoMemory`.
pub fn tables_bytes(alloc: Global, store: &Store) -> Result<Bytes, NoMemory>
    ensures { IfOk result (λ bytes. bytes ≡ tables_text store.now) }
{
    tables_text::<Brand>(alloc, store, Blank::new(1))
}
