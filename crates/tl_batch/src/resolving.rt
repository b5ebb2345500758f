//! The commit that a batch becomes over the tables of a store, or its first fault: for each kind of
//! batch the tests in their order, and then the commit. What is refused changes nothing.
ghost use Rattle.std.specs.Prelude.{◌≡◌, ◌+◌, ◌<◌, ◌^◌, Some, Ok, Err, ◌⊎◌, IsTrue, IfOk, IfErr, IfSome, false, true, nat_le, length, slice_get, option_map};
ghost use Rattle.std.specs.List.{list_any, list_all};
ghost use Rattle.tl_types.specs.declared.batches.Batch.TheVariants as batch;
ghost use Rattle.tl_types.specs.declared.batches.BatchFault.TheVariants as fault;
ghost use Rattle.tl_types.specs.Facts.{AscendFrom};
ghost use Rattle.tl_types.specs.History.{database_of, fits, has_name, matches};
ghost use Rattle.tl_types.specs.Resolving.{find_table, resolved, removal_lines, put_lines};
ghost use Rattle.tl_batch.specs.Made.{made_by, change_made, committed, floor_set, rows_fit_found, IsMade, IsClosed};
ghost use Rattle.tl_batch.specs.PutRows.{rows_put};
ghost use Rattle.tl_batch.specs.Standing.{rows_match};
ghost use Rattle.tl_batch.specs.Syncing.{synced_by};

use crate::changing::{RowChanges, put_timed, remove_timed};
use crate::open_table::OpenTable;
use crate::open_tables::OpenTables;
use crate::put_rows::PutRows;
use crate::syncing::sync_made;
use crate::untimed::{closes_of_keys, keys_of_lines, keys_of_rows};
use std::alloc::{AllocError, Global};
use std::marker::Brand;
use std::sync::ledger::Blank;
use tl_store::Store;
use tl_types::{
    BatchFault, Body, Change, Commit, KeyLine, Limits, NoMemory, Opened, Schema, Seq, Text,
};

// A batch of this many lines has no record number of 32 bits for the last one.
const TOO_MANY_LINES: usize = 4_294_967_295;

// Whether there are as many commits as the limits allow.
fn has_all_versions(store: &Store, limits: &Limits) -> bool
    ensures { result ≡ nat_le limits.now.versions (database_of store.now).version }
{
    store.versions() as u64 >= limits.versions
}

#[tactic(auto, using(crate::proofs::CommitLemmas::found_is))]
fn is_named(store: &Store, name: &Text) -> bool
    ensures { result ≡ list_any (has_name name.now) (database_of store.now).tables }
{
    store.find(name.as_str()).is_some()
}

/// The commit of this author that creates a table of this schema, or its first fault: `TableExists`
/// where a table has the name, `TablesFull` where there are as many tables as the limits allow,
/// `VersionsFull` where there are as many commits as they allow.
pub(crate) fn resolve_create(
    store: &Store,
    author: u32,
    schema: Schema,
    limits: &Limits,
) -> Result<Commit, BatchFault>
    ensures value { result ≡ resolved limits.now (database_of store.now) author
        (batch.Create schema) }
    ensures fit { IfOk result (λ c. IsTrue (fits limits.now (database_of store.now) c)) }
{
    if is_named(store, schema.name()) {
        return Err(BatchFault::TableExists);
    }
    if store.tables() as u64 >= limits.tables {
        return Err(BatchFault::TablesFull);
    }
    if has_all_versions(store, limits) {
        return Err(BatchFault::VersionsFull);
    }
    Ok(Commit {
        author,
        body: Body::Create(schema),
    })
}

/// The commit of this author that states a moment, or its first fault: `VersionsFull` where there
/// are as many commits as the limits allow, `MomentFalls` where the moment is not greater than the
/// last one.
pub(crate) fn resolve_moment(
    store: &Store,
    author: u32,
    moment: i64,
    limits: &Limits,
) -> Result<Commit, BatchFault>
    ensures value { result ≡ resolved limits.now (database_of store.now) author
        (batch.Moment moment) }
    ensures fit { IfOk result (λ c. IsTrue (fits limits.now (database_of store.now) c)) }
{
    if has_all_versions(store, limits) {
        return Err(BatchFault::VersionsFull);
    }
    if let Some(now) = store.last_moment() {
        if now >= moment {
            return Err(BatchFault::MomentFalls { now });
        }
    }
    Ok(Commit {
        author,
        body: Body::Moment { moment },
    })
}

// The commit of this author that raises the floor of the table with this number from `least` to
// `floor`, where there are `now` commits, or its first fault.
fn floor_set(
    author: u32,
    number: u16,
    now: u32,
    least: u32,
    floor: i64,
) -> Result<Commit, BatchFault>
    ensures { result ≡ floor_set author number now least floor }
{
    if (now as i64) < floor {
        return Err(BatchFault::FloorAhead { now });
    }
    if (least as i64) >= floor {
        return Err(BatchFault::FloorFalls { floor: least });
    }
    Ok(Commit {
        author,
        body: Body::Forget {
            table: number,
            floor: floor as u32,
        },
    })
}

/// The commit of this author that sets the floor of the table with this name, or its first fault:
/// `UnknownTable` where no table has the name, `VersionsFull` where there are as many commits as
/// the limits allow, `FloorAhead` where the floor is greater than the number of commits,
/// `FloorFalls` where it is not greater than that of the table.
pub(crate) fn resolve_floor(
    store: &Store,
    author: u32,
    name: &Text,
    floor: i64,
    limits: &Limits,
) -> Result<Commit, BatchFault>
    ensures value { result ≡ resolved limits.now (database_of store.now) author
        (batch.Forget name.now floor) }
    ensures fit { IfOk result (λ c. IsTrue (fits limits.now (database_of store.now) c)) }
{
    let Some(number) = store.find(name.as_str()) else {
        return Err(BatchFault::UnknownTable);
    };
    if has_all_versions(store, limits) {
        return Err(BatchFault::VersionsFull);
    }
    let commit = floor_set(author, number, store.versions(), store.floor(number), floor);
    commit
}

// The change of what was made in the table with this number, or `RowsFull` where the table would
// then have more rows than the limit. The error is `NoMemory`.
fn change_within(
    number: u16,
    rows: u32,
    made: Result<RowChanges, BatchFault>,
    limit: u64,
) -> Result<Result<Change, BatchFault>, NoMemory>
    requires ascending { IfOk made (λ c. AscendFrom 0 c.closes) }
    requires few { IfOk made (λ c. length c.closes < 2 ^ 32) }
    ensures { IfOk result (λ change. change ≡ change_made limit number rows made) }
{
    let RowChanges { closes, opens } = match made {
        Ok(changes) => changes,
        Err(fault) => return Ok(Err(fault)),
    };
    if rows as u64 + opens.len() as u64 > limit {
        return Ok(Err(BatchFault::RowsFull));
    }
    if opens.len() > u32::MAX as usize {
        return Err(AllocError);
    }
    let change = Change::new(number, closes, Seq::from_vec(opens));
    Ok(Ok(change))
}

// The rows that rows put into a table without valid time close, or their first fault.
fn put_closes(
    alloc: Global,
    table: &OpenTable<'_>,
    rows: &[Opened],
) -> Result<Result<Seq<u32>, BatchFault>, NoMemory>
    requires few { length rows.now + 1 < 2 ^ 32 }
    requires untimed { table.now.schema.valid ≡ false }
    requires matching { IsTrue (list_all (matches table.now.schema) rows.now) }
    ensures matching { rows_match (Some table.now) ≡ true }
    ensures made { IfOk result (IsClosed false table.now.schema table.now.rows
        (put_lines table.now.schema rows.now)) }
{
    let keys = keys_of_rows(alloc, rows, table.schema().key())?;
    let closes = closes_of_keys(alloc, table, false, &keys)?;
    Ok(closes)
}

// What rows that are put change in a table without valid time, or their first fault.
fn put_untimed(
    alloc: Global,
    table: &OpenTable<'_>,
    rows: PutRows<'_>,
) -> Result<Result<RowChanges, BatchFault>, NoMemory>
    requires few { length (rows_put rows) + 1 < 2 ^ 32 }
    requires untimed { table.now.schema.valid ≡ false }
    requires matching { IsTrue (list_all (matches table.now.schema) (rows_put rows)) }
    ensures { IfOk result (IsMade false table.now.schema table.now.rows
        (put_lines table.now.schema (rows_put rows.entry))) }
{
    match put_closes(alloc, table, rows.as_slice())? {
        Ok(closes) => {
            let opens = rows.into_vec(alloc)?;
            Ok(Ok(RowChanges { closes, opens }))
        }
        Err(fault) => Ok(Err(fault)),
    }
}

// What rows that are put change in a table, or their first fault.
fn put_made(
    alloc: Global,
    table: &OpenTable<'_>,
    rows: PutRows<'_>,
) -> Result<Result<RowChanges, BatchFault>, NoMemory>
    requires few { length (rows_put rows) + 1 < 2 ^ 32 }
    requires matching { IsTrue (list_all (matches table.now.schema) (rows_put rows)) }
    ensures { IfOk result (IsMade false table.now.schema table.now.rows
        (put_lines table.now.schema (rows_put rows.entry))) }
{
    if table.schema().valid() {
        let changes = put_timed::<Brand>(alloc, table, rows.as_slice(), Blank::new(1))?;
        return Ok(Ok(changes));
    }
    let made = put_untimed(alloc, table, rows)?;
    Ok(made)
}

// What the lines of a removal change in a table without valid time, or their first fault.
fn remove_untimed(
    alloc: Global,
    table: &OpenTable<'_>,
    lines: &[KeyLine],
) -> Result<Result<RowChanges, BatchFault>, NoMemory>
    requires few { length lines.now + 1 < 2 ^ 32 }
    requires untimed { table.now.schema.valid ≡ false }
    ensures { IfOk result (IsMade true table.now.schema table.now.rows (removal_lines lines.now)) }
{
    let keys = keys_of_lines(alloc, lines)?;
    match closes_of_keys(alloc, table, true, &keys)? {
        Ok(closes) => Ok(Ok(RowChanges {
            closes,
            opens: Vec::new(alloc),
        })),
        Err(fault) => Ok(Err(fault)),
    }
}

// What the lines of a removal change in a table, or their first fault.
fn remove_made(
    alloc: Global,
    table: &OpenTable<'_>,
    lines: &[KeyLine],
) -> Result<Result<RowChanges, BatchFault>, NoMemory>
    requires few { length lines.now + 1 < 2 ^ 32 }
    ensures { IfOk result (IsMade true table.now.schema table.now.rows (removal_lines lines.now)) }
{
    if table.schema().valid() {
        let made = remove_timed::<Brand>(alloc, table, lines, Blank::new(1))?;
        return Ok(made);
    }
    let made = remove_untimed(alloc, table, lines)?;
    Ok(made)
}

// The change that rows make which are put into the table with this number, or their first fault.
fn rows_change(
    alloc: Global,
    tables: &OpenTables<'_>,
    number: u16,
    rows: PutRows<'_>,
    limit: u64,
) -> Result<Result<Change, BatchFault>, NoMemory>
    requires found { tables.now.found ≡ Some number }
    requires there { number < length (database_of tables.now.commits).tables }
    requires few { length (rows_put rows) + 1 < 2 ^ 32 }
    requires matching { IfSome (slice_get (database_of tables.now.commits).tables number)
        (λ t. IsTrue (list_all (matches t.schema) (rows_put rows))) }
    ensures { IfOk result (λ made. Some made
        ≡ option_map (λ t. made_by limit number false t.schema t.rows
        (put_lines t.schema (rows_put rows.entry)))
        (slice_get (database_of tables.now.commits).tables number)) }
{
    let table = tables.table(number);
    let made = put_made(alloc, &table, rows)?;
    let change = change_within(number, table.rows(), made, limit)?;
    Ok(change)
}

// The change that the lines of a removal make in the table with this number, or their first fault.
fn keys_change(
    alloc: Global,
    tables: &OpenTables<'_>,
    number: u16,
    lines: &[KeyLine],
    limit: u64,
) -> Result<Result<Change, BatchFault>, NoMemory>
    requires found { tables.now.found ≡ Some number }
    requires there { number < length (database_of tables.now.commits).tables }
    requires few { length lines.now + 1 < 2 ^ 32 }
    ensures { IfOk result (λ made. Some made
        ≡ option_map (λ t. made_by limit number true t.schema t.rows (removal_lines lines.now))
        (slice_get (database_of tables.now.commits).tables number)) }
{
    let table = tables.table(number);
    let made = remove_made(alloc, &table, lines)?;
    let change = change_within(number, table.rows(), made, limit)?;
    Ok(change)
}

// The change that rows make that say all of the table with this number, or their first fault.
fn whole_change(
    alloc: Global,
    tables: &OpenTables<'_>,
    number: u16,
    rows: PutRows<'_>,
    limit: u64,
) -> Result<Result<Change, BatchFault>, NoMemory>
    requires found { tables.now.found ≡ Some number }
    requires there { number < length (database_of tables.now.commits).tables }
    requires few { length (rows_put rows) + 1 < 2 ^ 32 }
    requires matching { IfSome (slice_get (database_of tables.now.commits).tables number)
        (λ t. IsTrue (list_all (matches t.schema) (rows_put rows))) }
    ensures { IfOk result (λ made. Some made
        ≡ option_map (λ t. synced_by limit number t (rows_put rows.entry))
        (slice_get (database_of tables.now.commits).tables number)) }
{
    let table = tables.table(number);
    let made = sync_made(alloc, &table, rows)?;
    let change = change_within(number, table.rows(), made, limit)?;
    Ok(change)
}

// The commit of a change, by this author.
fn commit_of(author: u32, made: Result<Change, BatchFault>) -> Result<Commit, BatchFault>
    ensures { result ≡ committed author made }
{
    match made {
        Ok(change) => Ok(Commit {
            author,
            body: Body::Change(change),
        }),
        Err(fault) => Err(fault),
    }
}

/// The commit of this author that puts rows into the table with this name, which is the one that
/// was found, or its first fault.
pub(crate) fn resolve_put(
    alloc: Global,
    tables: &OpenTables<'_>,
    author: u32,
    name: &Text,
    rows: PutRows<'_>,
    limits: &Limits,
) -> Result<Commit, BatchFault>
    requires found { tables.now.found ≡ option_map (λ found. found.0)
        (find_table name.now (database_of tables.now.commits).tables) }
    requires matching { IsTrue (rows_fit_found (rows_put rows)
        (find_table name.now (database_of tables.now.commits).tables)) }
    ensures ok { IfOk result (λ c. resolved limits.now (database_of tables.now.commits) author
        (batch.Put name.now (rows_put rows.entry)) ≡ Ok c) }
    ensures fit { IfOk result (λ c. IsTrue (fits limits.now (database_of tables.now.commits) c)) }
    ensures err { IfErr result (λ e. (e ≡ fault.NoMemory)
        ⊎ (resolved limits.now (database_of tables.now.commits) author
        (batch.Put name.now (rows_put rows.entry)) ≡ Err e)) }
{
    let store = tables.store();
    let Some(number) = tables.found() else {
        return Err(BatchFault::UnknownTable);
    };
    if has_all_versions(store, limits) {
        return Err(BatchFault::VersionsFull);
    }
    if rows.as_slice().len() >= TOO_MANY_LINES {
        return Err(BatchFault::NoMemory);
    }
    let Ok(made) = rows_change(alloc, tables, number, rows, limits.rows) else {
        return Err(BatchFault::NoMemory);
    };
    commit_of(author, made)
}

/// The commit of this author that makes rows all the open rows of the table with this name, which
/// is the one that was found, or its first fault.
pub(crate) fn resolve_sync(
    alloc: Global,
    tables: &OpenTables<'_>,
    author: u32,
    name: &Text,
    rows: PutRows<'_>,
    limits: &Limits,
) -> Result<Commit, BatchFault>
    requires found { tables.now.found ≡ option_map (λ found. found.0)
        (find_table name.now (database_of tables.now.commits).tables) }
    requires matching { IsTrue (rows_fit_found (rows_put rows)
        (find_table name.now (database_of tables.now.commits).tables)) }
    ensures ok { IfOk result (λ c. resolved limits.now (database_of tables.now.commits) author
        (batch.Sync name.now (rows_put rows.entry)) ≡ Ok c) }
    ensures fit { IfOk result (λ c. IsTrue (fits limits.now (database_of tables.now.commits) c)) }
    ensures err { IfErr result (λ e. (e ≡ fault.NoMemory)
        ⊎ (resolved limits.now (database_of tables.now.commits) author
        (batch.Sync name.now (rows_put rows.entry)) ≡ Err e)) }
{
    let store = tables.store();
    let Some(number) = tables.found() else {
        return Err(BatchFault::UnknownTable);
    };
    if has_all_versions(store, limits) {
        return Err(BatchFault::VersionsFull);
    }
    if rows.as_slice().len() >= TOO_MANY_LINES {
        return Err(BatchFault::NoMemory);
    }
    let Ok(made) = whole_change(alloc, tables, number, rows, limits.rows) else {
        return Err(BatchFault::NoMemory);
    };
    commit_of(author, made)
}

/// The commit of this author that removes rows from the table with this name, which is the one that
/// was found, or its first fault.
pub(crate) fn resolve_remove(
    alloc: Global,
    tables: &OpenTables<'_>,
    author: u32,
    name: &Text,
    lines: &[KeyLine],
    limits: &Limits,
) -> Result<Commit, BatchFault>
    requires found { tables.now.found ≡ option_map (λ found. found.0)
        (find_table name.now (database_of tables.now.commits).tables) }
    ensures ok { IfOk result (λ c. resolved limits.now (database_of tables.now.commits) author
        (batch.Remove name.now lines.now) ≡ Ok c) }
    ensures fit { IfOk result (λ c. IsTrue (fits limits.now (database_of tables.now.commits) c)) }
    ensures err { IfErr result (λ e. (e ≡ fault.NoMemory)
        ⊎ (resolved limits.now (database_of tables.now.commits) author (batch.Remove name.now lines.now)
        ≡ Err e)) }
{
    let store = tables.store();
    let Some(number) = tables.found() else {
        return Err(BatchFault::UnknownTable);
    };
    if has_all_versions(store, limits) {
        return Err(BatchFault::VersionsFull);
    }
    if lines.len() >= TOO_MANY_LINES {
        return Err(BatchFault::NoMemory);
    }
    let Ok(made) = keys_change(alloc, tables, number, lines, limits.rows) else {
        return Err(BatchFault::NoMemory);
    };
    commit_of(author, made)
}
