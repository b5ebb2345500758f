//! The worked history: a table of employees, of whom one gets more pay, and the other leaves and
//! comes back. The same with moments and a floor behind it, and a history of valid time; and the
//! store of a history.
ghost use Rattle.std.specs.Prelude.{◌≤◌, ◌<◌, ◌^◌, length};

use std::alloc::Global;
use std::test::Fail;
use tl_store::Store;
use tl_types::{
    Body, Cell, Change, Column, ColumnKind, Commit, Limits, NoMemory, Opened, Period, Schema, Seq,
    SmallSeq, Text,
};

pub(crate) fn column(alloc: Global, name: &str, kind: ColumnKind) -> Result<Column, NoMemory>
    requires { length name.now ≤ 65535 }
{
    Ok(Column {
        name: Text::new(alloc, name)?,
        kind,
    })
}

// The schema of a table with the columns `id INT, dept TEXT, pay INT` and the key `id`.
pub(crate) fn schema(alloc: Global, name: &str, valid: bool) -> Result<Schema, Fail>
    requires { length name.now ≤ 65535 }
{
    let mut columns = Vec::new(alloc);
    columns.push(column(alloc, "id", ColumnKind::IntKind)?)?;
    columns.push(column(alloc, "dept", ColumnKind::TextKind)?)?;
    columns.push(column(alloc, "pay", ColumnKind::IntKind)?)?;
    let schema = Schema::new(Text::new(alloc, name)?, Seq::from_vec(columns), 0, valid);
    Ok(schema.ok_or("no schema")?)
}

// A new table of this schema.
pub(crate) fn create(alloc: Global, name: &str, valid: bool) -> Result<Commit, Fail>
    requires { length name.now ≤ 65535 }
{
    Ok(Commit {
        author: 3,
        body: Body::Create(schema(alloc, name, valid)?),
    })
}

// A row of such a table.
pub(crate) fn opened(
    alloc: Global,
    id: i64,
    dept: &str,
    pay: i64,
    period: Option<Period>,
) -> Result<Opened, NoMemory>
    requires { length dept.now ≤ 65535 }
{
    let mut cells = Vec::new(alloc);
    cells.push(Cell::Int(id))?;
    cells.push(Cell::Text(Text::new(alloc, dept)?))?;
    cells.push(Cell::Int(pay))?;
    Ok(Opened::new(SmallSeq::from_vec(cells), period))
}

// A change of the first table.
pub(crate) fn change(
    alloc: Global,
    closed: Option<u32>,
    opens: Vec<Opened>,
) -> Result<Commit, NoMemory>
    requires { length opens.items < 2 ^ 32 }
{
    let mut closes = Vec::new(alloc);
    if let Some(id) = closed {
        closes.push(id)?;
    }
    Ok(Commit {
        author: 4,
        body: Body::Change(Change::new(0, Seq::from_vec(closes), Seq::from_vec(opens))),
    })
}

// A change of the first table that opens one row.
pub(crate) fn put(alloc: Global, closed: Option<u32>, row: Opened) -> Result<Commit, NoMemory> {
    let mut opens = Vec::new(alloc);
    opens.push(row)?;
    change(alloc, closed, opens)
}

fn first_rows(alloc: Global) -> Result<Commit, NoMemory> {
    let mut opens = Vec::new(alloc);
    opens.push(opened(alloc, 1, "ops", 100, None)?)?;
    opens.push(opened(alloc, 2, "dev", 50, None)?)?;
    change(alloc, None, opens)
}

// The commits of the worked history.
pub(crate) fn commits(alloc: Global) -> Result<Vec<Commit>, Fail> {
    let mut commits = Vec::new(alloc);
    commits.push(create(alloc, "emp", false)?)?;
    commits.push(first_rows(alloc)?)?;
    commits.push(put(alloc, Some(0), opened(alloc, 1, "ops", 150, None)?)?)?;
    commits.push(change(alloc, Some(1), Vec::new(alloc))?)?;
    commits.push(put(alloc, None, opened(alloc, 2, "dev", 50, None)?)?)?;
    Ok(commits)
}

// A commit that states a moment.
pub(crate) fn stated(moment: i64) -> Commit {
    Commit {
        author: 5,
        body: Body::Moment { moment },
    }
}

// A commit that sets the floor of the first table.
pub(crate) fn floored(floor: u32) -> Commit {
    Commit {
        author: 5,
        body: Body::Forget { table: 0, floor },
    }
}

// The worked history, moments at the versions 6 and 8 with a row between them, and a floor.
pub(crate) fn timed_commits(alloc: Global) -> Result<Vec<Commit>, Fail> {
    let mut commits = commits(alloc)?;
    commits.push(stated(1000))?;
    commits.push(put(alloc, None, opened(alloc, 3, "dev", 70, None)?)?)?;
    commits.push(stated(2000))?;
    commits.push(floored(3))?;
    Ok(commits)
}

// A table with valid time, and two rows whose periods overlap, one a version.
pub(crate) fn valid_commits(alloc: Global) -> Result<Vec<Commit>, Fail> {
    let first = opened(alloc, 1, "ops", 100, Some(Period::new(0, 10)))?;
    let second = opened(alloc, 2, "dev", 50, Some(Period::new(5, 20)))?;
    let mut commits = Vec::new(alloc);
    commits.push(create(alloc, "emp", true)?)?;
    commits.push(put(alloc, None, first)?)?;
    commits.push(put(alloc, None, second)?)?;
    Ok(commits)
}

// The store of these commits, where each fits those before it.
pub(crate) fn store_of(alloc: Global, commits: &[Commit]) -> Option<Store> {
    let mut store = Store::empty(alloc);
    for commit in commits {
        if !store.fits(commit, &Limits::standard()) {
            return None;
        }
        store = store.apply(alloc, commit).ok()?;
    }
    Some(store)
}
