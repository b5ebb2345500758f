//! The listing of commits: a line of CSV each, with what the commit does. It reads them one after
//! the other, and refuses nothing but where memory runs out.
ghost use Rattle.std.specs.Prelude.{◌≡◌, ◌++◌, ◌<◌, ◌+◌, IfOk, OnOk, Some, length, slice_get};
ghost use Rattle.std.specs.String.{string_bytes};
ghost use Rattle.tl_types.specs.History.{closed_by, database_of, opened_by};
ghost use Rattle.tl_log.specs.Listing.{name_at, table_name, deed_words, commit_line, lines_from, log_text};

use crate::lines::{begun_with, put_text};
use std::alloc::Global;
use std::marker::Brand;
use std::sync::ledger::{Blank, Ledger};
use tl_store::Store;
use tl_types::{Body, Bytes, Commit, NoMemory, Steps};

// The name of the table with a number, the empty text where there is none.
#[tactic(auto, using(crate::proofs::LineLemmas::name_there, crate::proofs::LineLemmas::name_missing))]
fn name_at(store: &Store, table: u16) -> &str
    ensures { result.now ≡ name_at (database_of store.now) table }
{
    if table < store.tables() {
        store.schema(table).name().as_str()
    } else {
        ""
    }
}

// The name of the table that a commit creates, changes or sets the floor of, the empty text for a
// moment, which has none.
fn table_name<'a>(store: &'a Store, body: &'a Body) -> &'a str
    ensures { result.now ≡ table_name (database_of store.now) body.now }
{
    match body {
        Body::Create(schema) => schema.name().as_str(),
        Body::Change(change) => name_at(store, change.table()),
        Body::Moment { .. } => "",
        Body::Forget { table, .. } => name_at(store, *table),
    }
}

fn closed_count(body: &Body) -> usize
    ensures { result ≡ length (closed_by body.now) }
{
    match body {
        Body::Change(change) => change.closes().len(),
        _ => 0,
    }
}

fn opened_count(body: &Body) -> usize
    ensures { result ≡ length (opened_by body.now) }
{
    match body {
        Body::Change(change) => change.opens().len(),
        _ => 0,
    }
}

// What a commit does, how many rows it closes and opens, and the moment and the floor that it
// states: the end of its line.
fn deed_words(alloc: Global, body: &Body) -> Result<String, NoMemory>
    ensures { IfOk result (λ text. string_bytes text ≡ deed_words body.now) }
{
    let closed = closed_count(body);
    let opened = opened_count(body);
    match body {
        Body::Create(_) => format!(in alloc; "create,{closed},{opened},,\n"),
        Body::Change(_) => format!(in alloc; "change,{closed},{opened},,\n"),
        Body::Moment { moment } => format!(in alloc; "moment,{closed},{opened},{moment},\n"),
        Body::Forget { floor, .. } => format!(in alloc; "forget,{closed},{opened},,{floor}\n"),
    }
}

// Puts the line of the commit that made a version.
fn put_commit(
    alloc: Global,
    out: &mut Vec<u8>,
    store: &Store,
    version: u32,
    commit: &Commit,
) -> Result<(), NoMemory>
    ensures { OnOk result (out.new.items
        ≡ out.old.items ++ commit_line (database_of store.now) version commit.now) }
{
    let author = commit.author;
    let name = table_name(store, &commit.body);
    let deed = deed_words(alloc, &commit.body)?;
    let line = format!(in alloc; "{version},{author},{name},{deed}")?;
    put_text(out, line.as_str())
}

// Puts the lines of all commits, which are read one after the other. The steps of reading them are
// not told.
#[tactic(auto, using(crate::proofs::LineLemmas::lines_more, crate::proofs::LineLemmas::lines_end))]
fn put_commits<L: Ledger>(
    alloc: Global,
    out: &mut Vec<u8>,
    store: &Store,
    blank: Blank,
) -> Result<(), NoMemory>
    requires name { blank.name ≡ L.name }
    requires parts { blank.parts ≡ L.parts }
    requires some { 0 < blank.parts }
    ensures { OnOk result (out.new.items
        ≡ out.old.items ++ lines_from (database_of store.now) 1 store.now) }
{
    let mut steps = Steps::<L>::new(blank);
    for before in 0..store.versions() {
        let commit = store.commit_at(alloc, before + 1, &mut steps)?;
        put_commit(alloc, out, store, before + 1, &commit)?;
    }
    Ok(())
}

/// The listing of the commits of a store, in order: a line of names, and then a line a commit with
/// its version, the number of the session that made it, its table, one of the words `create`,
/// `change`, `moment` and `forget`, how many rows it closes and opens, its moment in the user's
/// unit, and its floor, a version. The table is empty where it is a moment, the moment where it is
/// none, and the floor where it is no forget. The error is `NoMemory`.
pub fn log_bytes(alloc: Global, store: &Store) -> Result<Bytes, NoMemory>
    ensures { IfOk result (λ bytes. bytes ≡ log_text store.now) }
{
    let mut out = begun_with(
        alloc,
        "version,session,table,what,closed,opened,moment,floor\n",
    )?;
    put_commits::<Brand>(alloc, &mut out, store, Blank::new(1))?;
    Ok(Bytes::from_vec(out))
}
