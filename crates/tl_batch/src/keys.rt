//! The open rows of each key of a store, table by table: those of a table are made when a batch
//! first wants them, and then follow each commit. A batch becomes its commit or its first fault.
//! Without memory the keys stand for the store that they stood for.
ghost use Rattle.std.specs.Prelude.{◌≡◌, ◌+◌, ◌<◌, ◌++◌, ◌∷◌, [], ℕ, IsTrue, IfOk, IfErr, OnOk, OnErr, ◌⊎◌, Ok, Err, is_some, slice_get};
ghost use Rattle.tl_types.specs.declared.batches.BatchFault.TheVariants as fault;
ghost use Rattle.tl_types.specs.declared.commits.Body.TheVariants as body;
ghost use Rattle.tl_types.specs.History.{database_of, fits, fits_body};
ghost use Rattle.tl_types.specs.Limits.{standard_limits};
ghost use Rattle.tl_types.specs.Resolving.{resolved};
ghost use Rattle.tl_batch.specs.Made.{AreWithin, batch_matches};
ghost use Rattle.tl_batch.specs.Standing.{StandFor, StandStill, IsIndexIfMade, IsIndexOfTable, after_doing, is_made, number_of};

use crate::following::{change_index, closed_keys};
use crate::key_index::KeyIndex;
use crate::making::make_for;
use crate::open_tables::OpenTables;
use crate::put_rows::PutRows;
use crate::resolving::{
    resolve_create, resolve_floor, resolve_moment, resolve_put, resolve_remove, resolve_sync,
};
use std::alloc::Global;
use std::marker::Model;
use tl_store::Store;
use tl_types::{Batch, BatchFault, Body, Change, Commit, Limits, NoMemory};

/// The ids of the current rows of each key, table by table, where they are made: those of a table
/// are made when a batch first puts, removes or syncs its rows. `StandFor` says which tables the
/// keys stand for, and a contract sees of each table whether they are made.
#[derive(Drop)]
pub struct Keys {
    tables: Vec<Option<KeyIndex>>,
}

impl Model for Keys {
    ghost use Rattle.std.specs.Prelude.{List, Option};
    ghost use Rattle.tl_batch.specs.KeyIndex.{IdsByKey};

    ghost Value = { List (Option IdsByKey) };

    ghost view = { λ k. k.tables.items };
}

impl Keys {
    /// The keys of a store without commits. It takes no memory.
    #[tactic(auto, using(crate::proofs::FollowLemmas::stands_empty))]
    pub fn empty(alloc: Global) -> Keys
        ensures { StandFor result (database_of []) }
    {
        Keys {
            tables: Vec::new(alloc),
        }
    }

    /// Follows a commit that fits the store that the keys stand for: they then stand for the store
    /// after it. What is not made of a table stays so, and takes no time by row; what is made stays
    /// made. The error is `NoMemory`, after which the keys stand for the store before the commit,
    /// as they did.
    pub fn follow(&mut self, alloc: Global, before: &Store, commit: &Commit) -> Result<(), NoMemory>
        requires stands { StandFor self.old (database_of before.now) }
        requires fit { IsTrue (fits standard_limits (database_of before.now) commit.now) }
        ensures ok { OnOk result (StandFor self.new (database_of (before.now ++ commit.now ∷ []))) }
        ensures err { OnErr result (StandFor self.new (database_of before.now)) }
        ensures made { (table : ℕ) → is_made self.new table ≡ is_made self.old table }
    {
        follow_body(&mut self.tables, alloc, before, &commit.body)?;
        Ok(())
    }

    /// What a batch of this author becomes over the store that the keys stand for: its one commit,
    /// which fits the store, or its first fault. The keys of the table whose rows the batch puts,
    /// removes or syncs are made first, where they are not, by one pass over its rows; the keys
    /// stand for the same store then, whatever is answered.
    ///
    /// The rows that a batch puts or syncs match the schema of the table that it names, where there
    /// is one. The first fault of a new table is `TableExists` where a table has the name,
    /// `TablesFull` where there are as many tables as the limits allow, `VersionsFull` where there
    /// are as many commits as they allow. That of rows or keys is `UnknownTable` where no table has
    /// the name; `VersionsFull`; then line by line `KeyTwice` where the table has no valid time and
    /// an earlier line has the key, or where the batch syncs a table with valid time and an earlier
    /// line of the key has a period that overlaps the line's, and `NoRow` where the line removes and
    /// affects no row; last `RowsFull` where the rows of the table and the opened ones together are
    /// more than the limits allow. The record number of a line is its place from 0, plus 2. That of
    /// a moment is `VersionsFull`; `MomentFalls` where it is not greater than the last one. That of
    /// a floor is `UnknownTable`; `VersionsFull`; `FloorAhead` where it is greater than the number
    /// of commits; `FloorFalls` where it is not greater than that of the table. `NoMemory`: memory
    /// ran out, or a batch is so large that its record numbers, or the number of rows that it opens,
    /// have no place in 32 bits.
    pub fn resolve(
        &mut self,
        alloc: Global,
        store: &Store,
        batch: &Batch,
        author: u32,
        limits: &Limits,
    ) -> Result<Commit, BatchFault>
        requires stands { StandFor self.old (database_of store.now) }
        requires matching { IsTrue (batch_matches (database_of store.now) batch.now) }
        ensures ok { IfOk result (λ c. resolved limits.now (database_of store.now) author batch.now
            ≡ Ok c) }
        ensures fit { IfOk result (λ c. IsTrue (fits limits.now (database_of store.now) c)) }
        ensures standard { AreWithin limits.now standard_limits
            → IfOk result (λ c. IsTrue (fits standard_limits (database_of store.now) c)) }
        ensures err { IfErr result (λ e. (e ≡ fault.NoMemory)
            ⊎ (resolved limits.now (database_of store.now) author batch.now ≡ Err e)) }
        ensures same { StandStill self.old self.new (database_of store.now) }
    {
        let Ok(found) = make_for(&mut self.tables, alloc, store, batch) else {
            return Err(BatchFault::NoMemory);
        };
        let tables = OpenTables::new(store, self.tables.as_slice(), found);
        resolve_lent(alloc, &tables, batch, author, limits)
    }

    /// As `resolve`, of a batch that is handed over: a commit of rows that are put takes the rows
    /// over and makes no copies of them, and so does one of rows that are synced where no row
    /// stands.
    pub fn resolve_owned(
        &mut self,
        alloc: Global,
        store: &Store,
        batch: Batch,
        author: u32,
        limits: &Limits,
    ) -> Result<Commit, BatchFault>
        requires stands { StandFor self.old (database_of store.now) }
        requires matching { IsTrue (batch_matches (database_of store.now) batch) }
        ensures ok { IfOk result (λ c. resolved limits.now (database_of store.now) author batch
            ≡ Ok c) }
        ensures fit { IfOk result (λ c. IsTrue (fits limits.now (database_of store.now) c)) }
        ensures standard { AreWithin limits.now standard_limits
            → IfOk result (λ c. IsTrue (fits standard_limits (database_of store.now) c)) }
        ensures err { IfErr result (λ e. (e ≡ fault.NoMemory)
            ⊎ (resolved limits.now (database_of store.now) author batch ≡ Err e)) }
        ensures same { StandStill self.old self.new (database_of store.now) }
    {
        let Ok(found) = make_for(&mut self.tables, alloc, store, &batch) else {
            return Err(BatchFault::NoMemory);
        };
        let tables = OpenTables::new(store, self.tables.as_slice(), found);
        resolve_given(alloc, &tables, batch, author, limits)
    }
}

// As `Keys::resolve`, where the ids by key that the batch wants are made.
fn resolve_lent(
    alloc: Global,
    tables: &OpenTables<'_>,
    batch: &Batch,
    author: u32,
    limits: &Limits,
) -> Result<Commit, BatchFault>
    requires found { tables.now.found ≡ number_of (database_of tables.now.commits) batch.now }
    requires matching { IsTrue (batch_matches (database_of tables.now.commits) batch.now) }
    ensures ok { IfOk result (λ c. resolved limits.now (database_of tables.now.commits) author
        batch.now ≡ Ok c) }
    ensures fit { IfOk result (λ c. IsTrue (fits limits.now (database_of tables.now.commits) c)) }
    ensures standard { AreWithin limits.now standard_limits
        → IfOk result (λ c. IsTrue (fits standard_limits (database_of tables.now.commits) c)) }
    ensures err { IfErr result (λ e. (e ≡ fault.NoMemory)
        ⊎ (resolved limits.now (database_of tables.now.commits) author batch.now ≡ Err e)) }
{
    let store = tables.store();
    match batch {
        Batch::Create(schema) => {
            let Ok(schema) = schema.clone() else {
                return Err(BatchFault::NoMemory);
            };
            resolve_create(store, author, schema, limits)
        }
        Batch::Put { table, lines } => {
            let rows = PutRows::Lent(lines.as_slice());
            resolve_put(alloc, tables, author, table, rows, limits)
        }
        Batch::Remove { table, lines } => {
            let lines = lines.as_slice();
            resolve_remove(alloc, tables, author, table, lines, limits)
        }
        Batch::Sync { table, lines } => {
            let rows = PutRows::Lent(lines.as_slice());
            resolve_sync(alloc, tables, author, table, rows, limits)
        }
        Batch::Moment { moment } => resolve_moment(store, author, *moment, limits),
        Batch::Forget { table, floor } => resolve_floor(store, author, table, *floor, limits),
    }
}

// As `Keys::resolve_owned`, where the ids by key that the batch wants are made.
fn resolve_given(
    alloc: Global,
    tables: &OpenTables<'_>,
    batch: Batch,
    author: u32,
    limits: &Limits,
) -> Result<Commit, BatchFault>
    requires found { tables.now.found ≡ number_of (database_of tables.now.commits) batch }
    requires matching { IsTrue (batch_matches (database_of tables.now.commits) batch) }
    ensures ok { IfOk result (λ c. resolved limits.now (database_of tables.now.commits) author batch
        ≡ Ok c) }
    ensures fit { IfOk result (λ c. IsTrue (fits limits.now (database_of tables.now.commits) c)) }
    ensures standard { AreWithin limits.now standard_limits
        → IfOk result (λ c. IsTrue (fits standard_limits (database_of tables.now.commits) c)) }
    ensures err { IfErr result (λ e. (e ≡ fault.NoMemory)
        ⊎ (resolved limits.now (database_of tables.now.commits) author batch ≡ Err e)) }
{
    let store = tables.store();
    match batch {
        Batch::Create(schema) => resolve_create(store, author, schema, limits),
        Batch::Put { table, lines } => {
            let rows = PutRows::Owned(lines.into_vec());
            resolve_put(alloc, tables, author, &table, rows, limits)
        }
        Batch::Remove { table, lines } => {
            let lines = lines.as_slice();
            resolve_remove(alloc, tables, author, &table, lines, limits)
        }
        Batch::Sync { table, lines } => {
            let rows = PutRows::Owned(lines.into_vec());
            resolve_sync(alloc, tables, author, &table, rows, limits)
        }
        Batch::Moment { moment } => resolve_moment(store, author, moment, limits),
        Batch::Forget { table, floor } => resolve_floor(store, author, &table, floor, limits),
    }
}

// As `Keys::follow`, by what the commit does.
fn follow_body(
    tables: &mut Vec<Option<KeyIndex>>,
    alloc: Global,
    before: &Store,
    body: &Body,
) -> Result<(), NoMemory>
    requires stands { StandFor tables.old.items (database_of before.now) }
    requires version { (database_of before.now).version < 16777215 }
    requires fit { IsTrue (fits_body standard_limits (database_of before.now) body.now) }
    ensures ok { OnOk result (StandFor tables.new.items
        (after_doing (database_of before.now) body.now)) }
    ensures err { OnErr result (StandFor tables.new.items (database_of before.now)) }
    ensures made { (table : ℕ) → is_made tables.new.items table ≡ is_made tables.old.items table }
{
    match body {
        Body::Create(_) => {
            tables.push(None)?;
            Ok(())
        }
        Body::Change(change) => {
            follow_change(tables, alloc, before, change)?;
            Ok(())
        }
        Body::Moment { .. } => Ok(()),
        Body::Forget { .. } => Ok(()),
    }
}

// As `Keys::follow`, of a commit that changes rows.
fn follow_change(
    tables: &mut Vec<Option<KeyIndex>>,
    alloc: Global,
    before: &Store,
    change: &Change,
) -> Result<(), NoMemory>
    requires stands { StandFor tables.old.items (database_of before.now) }
    requires version { (database_of before.now).version < 16777215 }
    requires fit { IsTrue (fits_body standard_limits (database_of before.now)
        (body.Change change.now)) }
    ensures ok { OnOk result (StandFor tables.new.items
        (after_doing (database_of before.now) (body.Change change.now))) }
    ensures err { OnErr result (StandFor tables.new.items (database_of before.now)) }
    ensures made { (table : ℕ) → is_made tables.new.items table ≡ is_made tables.old.items table }
{
    let index = &mut tables[change.table() as usize];
    follow_if_made(index, alloc, before, change)?;
    Ok(())
}

// Lets the ids by key of a table follow a change of it, where they are made. The error is
// `NoMemory`, and leaves them as they were.
fn follow_if_made(
    index: &mut Option<KeyIndex>,
    alloc: Global,
    before: &Store,
    change: &Change,
) -> Result<(), NoMemory>
    requires is { IsIndexIfMade index.old
        (slice_get (database_of before.now).tables change.now.table) }
    requires version { (database_of before.now).version < 16777215 }
    requires fit { IsTrue (fits_body standard_limits (database_of before.now)
        (body.Change change.now)) }
    ensures ok { OnOk result (IsIndexIfMade index.new
        (slice_get (after_doing (database_of before.now) (body.Change change.now)).tables
        change.now.table)) }
    ensures err { OnErr result (IsIndexIfMade index.new
        (slice_get (database_of before.now).tables change.now.table)) }
    ensures made { is_some index.new ≡ is_some index.old }
{
    match index {
        Some(index) => {
            follow_made(index, alloc, before, change)?;
            Ok(())
        }
        None => Ok(()),
    }
}

// Lets the ids by key of a table follow a change of it. The error is `NoMemory`, and leaves them as
// they were.
fn follow_made(
    index: &mut KeyIndex,
    alloc: Global,
    before: &Store,
    change: &Change,
) -> Result<(), NoMemory>
    requires is { IsIndexOfTable index.old
        (slice_get (database_of before.now).tables change.now.table) }
    requires version { (database_of before.now).version < 16777215 }
    requires fit { IsTrue (fits_body standard_limits (database_of before.now)
        (body.Change change.now)) }
    ensures ok { OnOk result (IsIndexOfTable index.new
        (slice_get (after_doing (database_of before.now) (body.Change change.now)).tables
        change.now.table)) }
    ensures err { OnErr result (IsIndexOfTable index.new
        (slice_get (database_of before.now).tables change.now.table)) }
{
    let number = change.table();
    let place = before.schema(number).key();
    let closed = closed_keys(alloc, before, change, place)?;
    let first = before.rows(number);
    change_index(index, alloc, change, &closed, place, first)?;
    Ok(())
}
