//! The check of a query over a store: the tables that it names, the versions that may be asked of
//! them, and then the check of its kind. It refuses a query at the first place where it is wrong.
ghost use Rattle.std.specs.Prelude.{◌≡◌, ◌⊎◌, IfErr, IfOk, length};
ghost use Rattle.tl_types.specs.History.{database_of};
ghost use Rattle.tl_query.specs.Checking.{IsUnlessMemory};
ghost use Rattle.tl_query.specs.CheckingQueries.{checked, checked_at, faults_of, query_floor, IsFaultless, IsFirst};
ghost use Rattle.tl_query.specs.declared.check_faults.CheckFault.TheVariants as fault;
ghost use Rattle.tl_query.specs.TypedFor.{IsTypedFor};
ghost use Rattle.tl_query.specs.Parsed.{IsQuery};

use crate::aggregates::check_agg;
use crate::columns::{floor_named, table_named};
use crate::joins::check_join;
use crate::selects::check_select;
use crate::times::StoreTimes;
use std::alloc::Global;
use tl_query::{CheckFault, Query, Typed};
use tl_store::Store;

// The greatest floor of the tables that the query names.
fn query_floor(query: &Query, store: &Store) -> u32
    ensures { result ≡ query_floor (database_of store.now) query.now }
{
    match query {
        Query::Select(form) => floor_named(store, &form.table),
        Query::Agg(form) => floor_named(store, &form.table),
        Query::Join(form) => floor_named(store, &form.left).max(floor_named(store, &form.right)),
    }
}

// The check of a query of each kind, over the tables that its names mean.
fn check_at(
    alloc: Global,
    times: &StoreTimes<'_>,
    query: &Query,
    store: &Store,
) -> Result<Typed, CheckFault>
    requires { IsQuery query.now }
    ensures { IsUnlessMemory result (checked_at times.now (database_of store.now) query.now) }
{
    match query {
        Query::Select(form) => check_select(alloc, times, table_named(store, &form.table), form),
        Query::Agg(form) => check_agg(alloc, times, table_named(store, &form.table), form),
        Query::Join(form) => {
            let left = table_named(store, &form.left);
            let right = table_named(store, &form.right);
            check_join(alloc, times, left, right, form)
        }
    }
}

/// The query by numbers over a store, or its first fault: of all places of the query at which
/// something is wrong the one that stands furthest to the left, and of several faults at one place
/// the one that comes first here.
///
/// - `UnknownTable` stands at the name of a table that the store lacks.
/// - `UnknownColumn` stands at the name of a column that its table lacks, where the table is known.
/// - `WrongType` stands at `<`, `<=`, `>` or `>=` after a TEXT column; at a constant that is not of
///   its column's kind; at the column of SUM, AVG, MIN or MAX where it is TEXT; and at the right
///   column after ON where both are known and of two kinds.
/// - `NotValidTable` stands at `VALID`, `valid_from` or `valid_to`, where the rows of a known table
///   of the query have no valid period.
/// - `VersionAhead` stands at the version after AS OF, where it is spelled without MOMENT and is
///   after the last commit, and at the end of a range of versions where it is greater than the
///   number of commits and one.
/// - `EmptyRange` stands at the first bound of a range where it is not less than the second.
/// - `NoMemory` says that memory ran out.
/// - `Forgotten` stands at the number after AS OF, with MOMENT or without, where the version that
///   it stands for is below the greatest floor of the known tables of the query, and at the first
///   bound of a range of versions where that is.
///
/// `*` stands for all columns in order, and then the ends of the valid period where the table's
/// rows have one. Without AS OF the version is the last one, and `SYSTEM ALL` is all versions from
/// the greatest floor of the query's tables up to it. `AS OF MOMENT` is the version before the
/// first one that states a greater moment, or the last one where none does.
pub fn check(alloc: Global, query: &Query, store: &Store) -> Result<Typed, CheckFault>
    requires { IsQuery query.now }
    // What is answered is the definition's answer, unless memory runs out.
    ensures value { IsUnlessMemory result
        (checked (length store.now) (database_of store.now) query.now) }
    // A fault is one of those at the places of the query, and no other comes before it.
    ensures first { IfErr result (λ e. (e ≡ fault.NoMemory)
        ⊎ IsFirst e (faults_of (length store.now) (database_of store.now) query.now)) }
    // What is given has no fault at any place.
    ensures right { IfOk result (λ _. IsFaultless
        (faults_of (length store.now) (database_of store.now) query.now)) }
    // What is given suits the tables of the store.
    ensures typed { IfOk result (λ t. IsTypedFor (database_of store.now) t) }
{
    let _versions = store.versions(); // says that versions and stamps are in order
    let times = StoreTimes::new(store, query_floor(query, store));
    check_at(alloc, &times, query, store)
}
