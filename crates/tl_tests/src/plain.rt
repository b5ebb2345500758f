//! Plain tables: a first commit, and the answers to a query of each kind over histories that are
//! worked out by hand.
ghost use Rattle.std.specs.Prelude.{◌≡◌, [], OnOk};
ghost use Rattle.tl_query.specs.Parsed.{IsParsed, IsQuery};

use crate::rows::rows_are;
use crate::worked::{commits, create, store_of, valid_commits};
use std::alloc::Global;
use std::test::Fail;
use tl_check::check;
use tl_plain::{Tables, answer_plain};
use tl_query::{Query, Statement, Typed, parse};
use tl_rows::{FieldRef, RowsWriter};
use tl_store::Store;
use tl_types::{Answer, Commit, Field, Limits, NoMemory};

// Whether a first commit, which makes a table, fits, and leaves one table without rows.
fn is_first(alloc: Global, commit: &Commit) -> bool {
    let mut tables = Tables::empty(alloc);
    if !tables.fits(commit, &Limits::standard()) || tables.apply(alloc, commit).is_err() {
        return false;
    }
    tables.version() == 1 && tables.tables() == 1 && tables.rows(0).is_empty()
}

#[test]
fn a_first_commit(rt: HostRuntime) -> Result<(), Fail> {
    let commit = create(rt.alloc(), "emp", false)?;
    assert!(rt; is_first(rt.alloc(), &commit));
    Ok(())
}

// A query, and its answer as CSV.
type Case = (&'static str, &'static str);

const CASES: [Case; 5] = [
    ("SELECT id, pay FROM emp AS OF 4", "1,150\n"),
    (
        "SELECT * FROM emp WHERE dept = 'dev' OR pay > 100 AS OF 3",
        "2,dev,50\n1,ops,150\n",
    ),
    (
        "AVG pay FROM emp OVER SYSTEM 1 TO 6",
        "1,2,\n2,3,150/2\n3,4,200/2\n4,5,150/1\n5,6,200/2\n",
    ),
    (
        "MAX pay FROM emp BY dept OVER SYSTEM ALL",
        "dev,2,4,50\ndev,5,6,50\nops,2,3,100\nops,3,6,150\n",
    ),
    (
        "JOIN emp WITH emp ON id = id OVER SYSTEM 2 TO 6",
        "2,3,1,ops,100,1,ops,100\n2,4,2,dev,50,2,dev,50\n3,6,1,ops,150,1,ops,150\n\
         5,6,2,dev,50,2,dev,50\n",
    ),
];

const VALID_CASES: [Case; 4] = [
    ("SELECT id, valid_to FROM emp VALID AT 7", "1,10\n2,20\n"),
    (
        "COUNT FROM emp OVER VALID 0 TO 30",
        "0,5,1\n5,10,2\n10,20,1\n20,30,0\n",
    ),
    (
        "SUM pay FROM emp BY dept OVER VALID 0 TO FOREVER AS OF 2",
        "ops,0,10,100\n",
    ),
    (
        "JOIN emp WITH emp ON id = id OVER VALID 7 TO 12",
        "7,10,1,ops,100,1,ops,100\n7,12,2,dev,50,2,dev,50\n",
    ),
];

// Writes a row of these fields.
fn write_row(rows: &mut RowsWriter, fields: &[Field]) -> Result<(), NoMemory>
    ensures { OnOk result (rows.new.row ≡ []) }
{
    for field in fields {
        rows.push(FieldRef::from(field))?;
    }
    rows.end_row()?;
    Ok(())
}

fn write_rows(rows: &mut RowsWriter, answer: &Answer) -> Result<(), NoMemory>
    requires { rows.old.row ≡ [] }
    ensures { OnOk result (rows.new.row ≡ []) }
{
    for row in answer.rows.as_slice() {
        write_row(rows, row.as_slice())?;
    }
    Ok(())
}

// Whether the text of an answer is this one.
fn answer_is(alloc: Global, answer: &Answer, text: &str) -> bool {
    let mut rows = RowsWriter::new(alloc);
    match write_rows(&mut rows, answer) {
        Ok(()) => rows_are(alloc, rows.finish(), answer.rows.len(), text),
        Err(_) => false,
    }
}

// Whether a query is answered so over plain tables.
fn is_answered(alloc: Global, tables: &Tables, query: &Typed, text: &str) -> bool {
    match answer_plain(alloc, tables, query) {
        Ok(answer) => answer_is(alloc, &answer, text),
        Err(_) => false,
    }
}

// The same of one that is checked against a store first.
fn checked_is(alloc: Global, store: &Store, tables: &Tables, query: &Query, text: &str) -> bool
    requires { IsQuery query.now }
{
    match check(alloc, query, store) {
        Ok(typed) => is_answered(alloc, tables, &typed, text),
        Err(_) => false,
    }
}

fn asked_is(
    alloc: Global,
    store: &Store,
    tables: &Tables,
    statement: &Statement,
    text: &str,
) -> bool
    requires { IsParsed statement.now }
{
    match statement {
        Statement::Ask(query) => checked_is(alloc, store, tables, query, text),
        _ => false,
    }
}

// Whether a case holds over a store and plain tables of the same commits.
fn holds(alloc: Global, store: &Store, tables: &Tables, case: &Case) -> bool {
    let (query, text) = case;
    match parse(alloc, query) {
        Ok(statement) => asked_is(alloc, store, tables, &statement, text),
        Err(_) => false,
    }
}

// Whether each case does.
fn each_holds(alloc: Global, store: &Store, tables: &Tables, cases: &[Case]) -> bool {
    for case in cases {
        if !holds(alloc, store, tables, case) {
            return false;
        }
    }
    true
}

// The plain tables of these commits, where each fits those before it.
fn tables_of(alloc: Global, commits: &[Commit]) -> Option<Tables> {
    let mut tables = Tables::empty(alloc);
    for commit in commits {
        if !tables.fits(commit, &Limits::standard()) || tables.apply(alloc, commit).is_err() {
            return None;
        }
    }
    Some(tables)
}

fn hold_beside(alloc: Global, store: &Store, commits: &[Commit], cases: &[Case]) -> bool {
    match tables_of(alloc, commits) {
        Some(tables) => each_holds(alloc, store, &tables, cases),
        None => false,
    }
}

fn hold_over(alloc: Global, commits: &[Commit], cases: &[Case]) -> bool {
    match store_of(alloc, commits) {
        Some(store) => hold_beside(alloc, &store, commits, cases),
        None => false,
    }
}

#[test]
fn plain_answers(rt: HostRuntime) -> Result<(), Fail> {
    let worked = commits(rt.alloc())?;
    let valid = valid_commits(rt.alloc())?;
    assert!(rt; hold_over(rt.alloc(), &worked, &CASES));
    assert!(rt; hold_over(rt.alloc(), &valid, &VALID_CASES));
    Ok(())
}
