//! The checkpoints of a history's marks, by table and in order of version. The nearest one to a
//! version is found by halving; a mark that comes last shares the others.
ghost use Rattle.std.specs.Prelude.{◌≡◌, ◌+◌, ◌-◌, ◌<◌, ◌≤◌, ◌++◌, ◌∷◌, [], length, take, drop, None, Some, IfOk, IfSome, IfNone, slice_get, slice_index_or, replicate};
ghost use Rattle.tl_ckpt.specs.Marks.{Climb, EachClimbs, ArePartedAt, marks_for, mark_put, mark_put_at, with_mark, nearest_in};

use crate::checkpoints::Checkpoint;
use std::alloc::Global;
use std::marker::Model;
use tl_shared::{FineList, Shareable, Shared, share_all};
use tl_types::NoMemory;

/// The checkpoints of a history's marks. A contract sees, of each table by its number, the list of
/// its checkpoints in order of version. A further mark gives further marks, which share with the
/// older ones all but the last pointers of its table's list.
#[derive(Drop)]
pub struct Marks {
    lists: Vec<Shared<FineList<Shared<Checkpoint>>>>,
}

impl Model for Marks {
    ghost use Rattle.std.specs.Prelude.{List};
    ghost use Rattle.tl_types.specs.Checkpoints as plain;
    ghost use Rattle.tl_ckpt.specs.Marks.{EachClimbs};

    ghost Value = { List (List plain.Checkpoint) };

    ghost view = { λ m. m.lists.items };

    ghost invariant = { λ m. EachClimbs m.lists.items };
}

// How many of a table's marks are not after the version: these are the first ones.
fn marks_to(list: &FineList<Shared<Checkpoint>>, version: u32) -> u64
    requires { Climb list.now }
    ensures { ArePartedAt list.now version result }
{
    let mut low = 0;
    let mut high = list.len();
    'halving: while low < high {
        let middle = low + (high - low) / 2;
        if list.at(middle).get().version() <= version {
            low = middle + 1;
        } else {
            high = middle;
        }
    }
    low
}

// The marks as a list of their own.
fn items_of(
    alloc: Global,
    list: &FineList<Shared<Checkpoint>>,
) -> Result<Vec<Shared<Checkpoint>>, NoMemory>
    ensures { IfOk result (λ items. items.items ≡ list.now) }
{
    let mut items = Vec::new(alloc);
    for i in 0..list.len() {
        items.push(list.at(i).share(alloc)?)?;
    }
    Ok(items)
}

// A table's marks with one more in front of those from a place on.
fn put_inside(
    alloc: Global,
    list: &FineList<Shared<Checkpoint>>,
    place: u64,
    mark: Shared<Checkpoint>,
) -> Result<FineList<Shared<Checkpoint>>, NoMemory>
    requires { place ≤ length list.now }
    ensures { IfOk result (λ marks. marks ≡ take place list.now ++ mark ∷ drop place list.now) }
{
    let mut items = items_of(alloc, list)?;
    items.insert(place as usize, mark)?;
    let marks = FineList::none(alloc).push_all(alloc, &items)?;
    Ok(marks)
}

// A table's marks with one more. Where it is the latest, as marks come, the others are shared.
fn put_mark(
    alloc: Global,
    list: &FineList<Shared<Checkpoint>>,
    mark: Checkpoint,
) -> Result<FineList<Shared<Checkpoint>>, NoMemory>
    requires { Climb list.now }
    ensures { IfOk result (λ marks. marks ≡ mark_put mark list.now) }
{
    let place = marks_to(list, mark.version());
    let mark = Shared::new(alloc, mark)?;
    if place == list.len() {
        let marks = list.push_all(alloc, &[mark])?;
        return Ok(marks);
    }
    let marks = put_inside(alloc, list, place, mark)?;
    Ok(marks)
}

// The lists, shared, with lists of no mark behind them so that there are as many as asked.
fn lists_to(
    alloc: Global,
    lists: &[Shared<FineList<Shared<Checkpoint>>>],
    count: usize,
) -> Result<Vec<Shared<FineList<Shared<Checkpoint>>>>, NoMemory>
    ensures { IfOk result
        (λ more. more.items ≡ lists.now ++ replicate (count - length lists.now) []) }
{
    let mut more = share_all(alloc, lists)?;
    for _ in lists.len()..count {
        more.push(Shared::new(alloc, FineList::none(alloc))?)?;
    }
    Ok(more)
}

impl Marks {
    /// No mark. It takes no memory.
    pub fn none(alloc: Global) -> Marks
        ensures { result ≡ [] }
    {
        Marks {
            lists: Vec::new(alloc),
        }
    }

    // The marks of these lists.
    fn of_lists(lists: Vec<Shared<FineList<Shared<Checkpoint>>>>) -> Marks
        requires { EachClimbs lists.items }
        ensures { result ≡ lists.items }
    {
        Marks { lists }
    }

    // The marks of the table, where it has a list.
    fn list_of(&self, table: u16) -> Option<&FineList<Shared<Checkpoint>>>
        ensures found { IfSome result
            (λ list. (marks_for self.now table ≡ list.now) × Climb list.now) }
        ensures none { IfNone result (marks_for self.now table ≡ []) }
    {
        match self.lists.get(table as usize) {
            None => None,
            Some(list) => Some(list.get()),
        }
    }

    /// The marks with one more: `checkpoint` at its place among those of its table, of which none
    /// has its version. These marks stay as they are. The error is `NoMemory`.
    pub fn with(&self, alloc: Global, checkpoint: Checkpoint) -> Result<Marks, NoMemory>
        ensures { IfOk result (λ marks. marks ≡ with_mark checkpoint self.now) }
    {
        let table = checkpoint.table() as usize;
        let mut lists = lists_to(alloc, &self.lists, table + 1)?;
        let list = put_mark(alloc, lists[table].get(), checkpoint)?;
        lists[table] = Shared::new(alloc, list)?;
        Ok(Marks::of_lists(lists))
    }

    /// The mark of the table that has the greatest version not after `version`; `None` exactly
    /// where the table has no such mark.
    pub fn nearest(&self, table: u16, version: u32) -> Option<&Checkpoint>
        ensures found { IfSome result
            (λ mark. nearest_in (marks_for self.now table) version ≡ Some mark.now) }
        ensures none { IfNone result (nearest_in (marks_for self.now table) version ≡ None) }
        ensures climb { Climb (marks_for self.now table) }
    {
        match self.list_of(table) {
            None => None,
            Some(list) => last_to(list, version),
        }
    }

    /// How many marks the table has.
    pub fn count(&self, table: u16) -> u64
        ensures count { result ≡ length (marks_for self.now table) }
        ensures climb { Climb (marks_for self.now table) }
    {
        match self.list_of(table) {
            None => 0,
            Some(list) => list.len(),
        }
    }

    /// Mark `i` of the table, counted from 0 in order of version.
    pub fn at(&self, table: u16, i: u64) -> &Checkpoint
        requires { i < length (marks_for self.now table) }
        ensures { slice_get (marks_for self.now table) i ≡ Some result.now }
    {
        self.lists[table as usize].get().at(i).get()
    }
}

// The last of a table's marks that is not after the version.
fn last_to(list: &FineList<Shared<Checkpoint>>, version: u32) -> Option<&Checkpoint>
    requires { Climb list.now }
    ensures found { IfSome result (λ mark. nearest_in list.now version ≡ Some mark.now) }
    ensures none { IfNone result (nearest_in list.now version ≡ None) }
{
    let count = marks_to(list, version);
    if count == 0 {
        None
    } else {
        Some(list.at(count - 1).get())
    }
}
