//! Batches that are offered to an engine, and whether it answers them as it should. What was read
//! before a batch stays as it was.
ghost use Rattle.std.specs.Prelude.{◌≡◌, ◌<◌, IsTrue, is_some};
ghost use Rattle.std.specs.Bool.{OnTrue};
ghost use Rattle.tl_types.specs.History.{database_of};
ghost use Rattle.tl_types.specs.Resolving.{find_table};
ghost use Rattle.tl_batch.specs.Made.{batch_matches, names_table, rows_fit_found};

use std::alloc::Global;
use std::sync::Wait;
use tl_device::SureDisk;
use tl_engine::{Closed, CommitFault, Engine, Named, Pass, Share};
use tl_index::Snapshot;
use tl_store::Store;
use tl_types::{
    Batch, Cell, Column, ColumnKind, KeyLine, NoMemory, Opened, Schema, Seq, SmallSeq, Text,
    all_match,
};

// What a batch does: it makes the table of a name, puts or removes a row for each key below a
// number, makes such rows all of the table, states a moment, or sets the table's floor.
#[derive(Clone, Copy)]
pub(crate) enum Kind {
    Create,
    Put(i64),
    Remove(i64),
    Sync(i64),
    Moment(i64),
    Forget(i64),
}

// A batch, and what the engine answers to it.
pub(crate) type Case = (Kind, &'static str, Result<u32, CommitFault>);

// The column of the key.
fn key(alloc: Global) -> Option<Column> {
    Some(Column {
        name: Text::new(alloc, "k").ok()?,
        kind: ColumnKind::IntKind,
    })
}

// The schema of a table of one column, which is its key.
fn schema(alloc: Global, name: Text) -> Option<Schema> {
    let mut columns = Seq::new(alloc);
    columns.push(key(alloc)?).ok()?;
    Schema::new(name, columns, 0, false)
}

// So many rows, of the keys from 0 on.
fn rows(alloc: Global, keys: i64) -> Result<Seq<Opened>, NoMemory> {
    let mut rows = Seq::new(alloc);
    for key in 0..keys {
        let mut cells = SmallSeq::with_capacity(alloc, 1)?;
        cells.push(Cell::Int(key))?;
        rows.push(Opened::new(cells, None))?;
    }
    Ok(rows)
}

// So many keys from 0 on.
fn keys_below(alloc: Global, keys: i64) -> Result<Seq<KeyLine>, NoMemory> {
    let mut lines = Seq::new(alloc);
    for key in 0..keys {
        let key = Cell::Int(key);
        lines.push(KeyLine { key, period: None })?;
    }
    Ok(lines)
}

// The batch of a kind for a table, where there is memory for it.
fn batch_of(alloc: Global, kind: Kind, table: Text) -> Option<Batch> {
    match kind {
        Kind::Create => match schema(alloc, table) {
            Some(schema) => Some(Batch::Create(schema)),
            None => None,
        },
        Kind::Put(keys) => match rows(alloc, keys) {
            Ok(lines) => Some(Batch::Put { table, lines }),
            Err(_) => None,
        },
        Kind::Remove(keys) => match keys_below(alloc, keys) {
            Ok(lines) => Some(Batch::Remove { table, lines }),
            Err(_) => None,
        },
        Kind::Sync(keys) => match rows(alloc, keys) {
            Ok(lines) => Some(Batch::Sync { table, lines }),
            Err(_) => None,
        },
        Kind::Moment(moment) => Some(Batch::Moment { moment }),
        Kind::Forget(floor) => Some(Batch::Forget { table, floor }),
    }
}

fn batch(alloc: Global, kind: Kind, name: &str) -> Option<Batch> {
    if name.len() > 100 {
        return None;
    }
    match Text::new(alloc, name) {
        Ok(table) => batch_of(alloc, kind, table),
        Err(_) => None,
    }
}

// Whether a table of the store has the name, and its schema these rows.
fn fits_table(store: &Store, table: &Text, lines: &[Opened]) -> bool
    ensures known { OnTrue result
        (IsTrue (is_some (find_table table.now (database_of store.now).tables))) }
    ensures matching { OnTrue result
        (IsTrue (rows_fit_found lines.now (find_table table.now (database_of store.now).tables))) }
{
    match store.find(table.as_str()) {
        Some(number) => all_match(store.schema(number), lines),
        None => false,
    }
}

// Whether a table of the store has the name in a batch of rows, and its schema these rows.
fn may_commit(store: &Store, batch: &Batch) -> bool
    ensures known { OnTrue result (IsTrue (names_table (database_of store.now) batch.now)) }
    ensures matching { OnTrue result (IsTrue (batch_matches (database_of store.now) batch.now)) }
{
    match batch {
        Batch::Create(_) => true,
        Batch::Put { table, lines } => fits_table(store, table, lines.as_slice()),
        Batch::Remove { table, .. } => store.find(table.as_str()).is_some(),
        Batch::Sync { table, lines } => fits_table(store, table, lines.as_slice()),
        Batch::Moment { .. } => true,
        Batch::Forget { .. } => true,
    }
}

// What a store tells of time: the number of commits, the last moment, and the first table's floor
// where there is one.
pub(crate) type Times = (u32, Option<i64>, Option<u32>);

fn first_floor(store: &Store) -> Option<u32> {
    if store.tables() == 0 {
        return None;
    }
    Some(store.floor(0))
}

pub(crate) fn times_of(store: &Store) -> Times {
    (store.versions(), store.last_moment(), first_floor(store))
}

// What the engine answers to a batch, which may be offered over what the pass then sees. `None`
// also where the snapshot that was read before it is then another.
fn answer_of<J: Named, R: AllocGlobal + Wait>(
    rt: &R,
    engine: &Engine<SureDisk, J>,
    pass: &mut Pass<Snapshot>,
    share: &mut Share<J>,
    batch: Batch,
) -> Option<Result<u32, CommitFault>>
    requires own { pass.old.table ≡ J.table }
    requires part { 0 < share.old.parts }
    ensures own { pass.new.table ≡ J.table }
    ensures parts { share.new.parts ≡ share.old.parts }
{
    let Ok(snapshot) = engine.read(rt, pass) else {
        return None;
    };
    let before = times_of(snapshot.store());
    if !may_commit(snapshot.store(), &batch) {
        return None;
    }
    let answer = engine.commit(rt, pass, share, 7, batch);
    if times_of(snapshot.store()) != before {
        return None;
    }
    Some(answer)
}

// The same of a kind of batch for the table of a name.
pub(crate) fn answer_to<J: Named, R: AllocGlobal + Wait>(
    rt: &R,
    engine: &Engine<SureDisk, J>,
    pass: &mut Pass<Snapshot>,
    share: &mut Share<J>,
    kind: Kind,
    name: &str,
) -> Option<Result<u32, CommitFault>>
    requires own { pass.old.table ≡ J.table }
    requires part { 0 < share.old.parts }
    ensures own { pass.new.table ≡ J.table }
    ensures parts { share.new.parts ≡ share.old.parts }
{
    match batch(rt.alloc(), kind, name) {
        Some(batch) => answer_of(rt, engine, pass, share, batch),
        None => None,
    }
}

// Whether the engine answers as a case says.
pub(crate) fn holds<J: Named, R: AllocGlobal + Wait>(
    rt: &R,
    engine: &Engine<SureDisk, J>,
    pass: &mut Pass<Snapshot>,
    share: &mut Share<J>,
    case: &Case,
) -> bool
    requires own { pass.old.table ≡ J.table }
    requires part { 0 < share.old.parts }
    ensures own { pass.new.table ≡ J.table }
    ensures parts { share.new.parts ≡ share.old.parts }
{
    let (kind, name, wanted) = case;
    match answer_to(rt, engine, pass, share, *kind, name) {
        Some(answer) => answer == *wanted,
        None => false,
    }
}

// Whether each case holds, one after the other.
pub(crate) fn each_holds<J: Named, R: AllocGlobal + Wait>(
    rt: &R,
    engine: &Engine<SureDisk, J>,
    pass: &mut Pass<Snapshot>,
    share: &mut Share<J>,
    cases: &[Case],
) -> bool
    requires own { pass.old.table ≡ J.table }
    requires part { 0 < share.old.parts }
    ensures own { pass.new.table ≡ J.table }
    ensures parts { share.new.parts ≡ share.old.parts }
{
    for case in cases {
        if !holds(rt, engine, pass, share, case) {
            return false;
        }
    }
    true
}

// What a thread that commits has left: its pass, its share, and whether all answers were right.
#[derive(Drop)]
pub(crate) struct Committed<J: Named> {
    pub(crate) pass: Pass<Snapshot>,
    pub(crate) share: Share<J>,
    pub(crate) is_right: bool,
}

// What an engine has left: its snapshot and its disk, and whether all answers were right.
#[derive(Drop)]
pub(crate) struct Left {
    pub(crate) closed: Closed<SureDisk>,
    pub(crate) is_right: bool,
}
