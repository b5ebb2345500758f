//! The check of a query for rows: its items, its table, its predicate, its moment of valid time and
//! its version. It refuses what it finds wrong furthest to the left.
ghost use Rattle.std.specs.Prelude.{◌≡◌, ◌≤◌, IfOk, length, map, option_map};
ghost use Rattle.std.specs.List.{enumerate_from};
ghost use Rattle.std.specs.Option.{ForSome};
ghost use Rattle.tl_query.specs.Checking.{
  all_items,
  first_of,
  item_fault,
  typed_item_of,
  typed_items_of,
  IsUnlessMemory,
};
ghost use Rattle.tl_query.specs.CheckingQueries.{select_checked, select_faults, where_known};
ghost use Rattle.tl_query.specs.declared.typed_queries.TypedItem.TheVariants as typed_item;
ghost use Rattle.tl_query.specs.Parsed.{IsGiven};
ghost use Rattle.tl_check.specs.Known.{known};

use crate::columns::{column_fault, column_place, is_timeless, table_fault};
use crate::first_fault::{earlier, first_of};
use crate::predicates::{pred_fault, typed_pred};
use crate::ranges::{forgotten_fault, point_fault, version_fault, version_of};
use crate::times::StoreTimes;
use std::alloc::Global;
use tl_query::{CheckFault, Item, SelectForm, Typed, TypedItem};
use tl_types::{Column, NoMemory, Schema, Seq};

fn item_fault(schema: &Schema, item: &Item) -> Option<CheckFault>
    ensures { result ≡ item_fault schema.now item.now }
{
    match item {
        Item::Column(name) => column_fault(schema, name),
        Item::ValidFrom(at) | Item::ValidTo(at) => {
            if schema.valid() {
                None
            } else {
                Some(CheckFault::NotValidTable { at: *at })
            }
        }
    }
}

fn items_fault(schema: &Schema, items: &[Item]) -> Option<CheckFault>
    ensures { result ≡ first_of (map (item_fault schema.now) items.now) }
{
    let mut first = None;
    for item in items {
        first = earlier(first, item_fault(schema, item));
    }
    first
}

// The first fault of the items, where the table is known.
fn known_items_fault(table: Option<(u16, &Schema)>, form: &SelectForm) -> Option<CheckFault>
    ensures { result ≡ first_of
        (where_known (known table.entry) (λ s. map (item_fault s) form.now.items)) }
{
    match table {
        None => None,
        Some((_, schema)) => items_fault(schema, form.items.as_slice()),
    }
}

#[tactic(auto, using(crate::proofs::FirstLemmas::parts_of_select))]
fn select_fault(
    times: &StoreTimes<'_>,
    table: Option<(u16, &Schema)>,
    form: &SelectForm,
) -> Option<CheckFault>
    requires { ForSome form.now.as_of IsGiven }
    ensures { result ≡ first_of (select_faults times.now (known table.entry) form.now) }
{
    let items = known_items_fault(table, form);
    let name = table_fault(table, &form.table);
    let pred = pred_fault(table, &form.pred);
    let point = point_fault(is_timeless(table), form.valid_at);
    let version = version_fault(times, form.as_of);
    let forgotten = forgotten_fault(times, form.as_of);
    first_of([items, name, pred, point, version, forgotten].as_slice())
}

fn typed_item(schema: &Schema, item: &Item) -> TypedItem
    ensures { result ≡ typed_item_of schema.now item.now }
{
    match item {
        Item::Column(name) => TypedItem::Column(column_place(schema, name)),
        Item::ValidFrom(_) => TypedItem::ValidFrom,
        Item::ValidTo(_) => TypedItem::ValidTo,
    }
}

fn typed_items(alloc: Global, schema: &Schema, items: &[Item]) -> Result<Seq<TypedItem>, NoMemory>
    ensures { IfOk result (λ typed. typed ≡ map (typed_item_of schema.now) items.now) }
{
    let mut typed = Vec::with_capacity(alloc, items.len())?;
    for item in items {
        typed.push(typed_item(schema, item))?;
    }
    Ok(Seq::from_vec(typed))
}

// Each of at most 16 columns by its place.
fn column_items(alloc: Global, columns: &[Column]) -> Result<Vec<TypedItem>, NoMemory>
    requires { length columns.now ≤ 16 }
    ensures { IfOk result (λ typed. typed.items
        ≡ map (λ c. typed_item.Column c.0) (enumerate_from 0 columns.now)) }
{
    let mut typed = Vec::new(alloc);
    for (place, _column) in columns.iter().enumerate() {
        typed.push(TypedItem::Column(place as u8))?;
    }
    Ok(typed)
}

// What `*` stands for.
fn all_items(alloc: Global, schema: &Schema) -> Result<Seq<TypedItem>, NoMemory>
    ensures { IfOk result (λ typed. typed ≡ all_items schema.now) }
{
    let mut typed = column_items(alloc, schema.columns())?;
    if schema.valid() {
        typed.push(TypedItem::ValidFrom)?;
        typed.push(TypedItem::ValidTo)?;
    }
    Ok(Seq::from_vec(typed))
}

// The items that are asked for.
fn typed_items_of(
    alloc: Global,
    schema: &Schema,
    form: &SelectForm,
) -> Result<Seq<TypedItem>, NoMemory>
    ensures { IfOk result (λ typed. typed ≡ typed_items_of schema.now form.now) }
{
    if form.all {
        all_items(alloc, schema)
    } else {
        typed_items(alloc, schema, form.items.as_slice())
    }
}

fn moment_of(form: &SelectForm) -> Option<i64>
    ensures { result ≡ option_map (λ p. p.value) form.now.valid_at }
{
    match form.valid_at {
        None => None,
        Some(point) => Some(point.value),
    }
}

/// The query by numbers over the table that its name means, if it means one, or its first fault.
/// `*` stands for all columns in order, and then the ends of the valid period where the table's
/// rows have one. `NoMemory` says that memory ran out.
pub(crate) fn check_select(
    alloc: Global,
    times: &StoreTimes<'_>,
    table: Option<(u16, &Schema)>,
    form: &SelectForm,
) -> Result<Typed, CheckFault>
    requires { ForSome form.now.as_of IsGiven }
    ensures { IsUnlessMemory result (select_checked times.now (known table.entry) form.now) }
{
    match (select_fault(times, table, form), table) {
        (Some(fault), _) => Err(fault),
        (None, None) => Err(CheckFault::UnknownTable { at: form.table.at }),
        (None, Some((number, schema))) => Ok(Typed::Select {
            table: number,
            items: typed_items_of(alloc, schema, form)?,
            pred: typed_pred(alloc, schema, &form.pred)?,
            valid_at: moment_of(form),
            version: version_of(times, form.as_of),
        }),
    }
}
