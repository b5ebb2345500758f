//! A heap of rows whose ends are known when they come, which tells the greatest value of those that
//! have not ended. A row that ends stays in it until it is the first, so nothing is taken out of
//! its middle; and one that another row covers, which is not below it and does not end before it,
//! is never put in.
ghost use Rattle.std.specs.Prelude.{◌≡◌, ◌⊎◌, ℤ, ◌≤ℤ◌, ◌<◌, true, false, Some, option_map, List, [], OnOk, IfSome, IfNone};
ghost use Rattle.std.specs.BinaryHeap.{IsHeap, heap_items, heap_len};
ghost use Rattle.tl_running.specs.declared.lasting.Lasting.{Lasting};
ghost use Rattle.tl_running.specs.Lasting.{lasting_cmp, covers, IsGreatestAt, LastFor, Takes, SameFrom, IsFirst, IsOver, FirstLasts};

use crate::lasting::Lasting;
use std::alloc::Global;
use std::collections::BinaryHeap;
use std::marker::Model;
use tl_types::NoMemory;

/// A heap of rows with their ends, and the one of all that came which ends last, where there is
/// one. A contract sees both.
#[derive(Drop)]
pub(crate) struct LastingHeap {
    rows: BinaryHeap<Lasting>,
    cover: Option<Lasting>,
}

impl Model for LastingHeap {
    ghost use Rattle.std.specs.BinaryHeap.{IsHeap, heap_items};
    ghost use Rattle.tl_running.specs.Lasting.{LastingRows, lasting_cmp};

    ghost Value = { LastingRows };

    ghost view = { λ h. record { rows = heap_items h.rows; cover = h.cover } };

    ghost invariant = { λ h. IsHeap lasting_cmp (heap_items h.rows) };
}

// Whether a row covers another one: it is not below it, and does not end before it.
#[inline(always)]
fn covers(cover: Option<Lasting>, row: Lasting) -> bool
    ensures { result ≡ covers cover row }
{
    match cover {
        Some(cover) => row.value <= cover.value && row.end <= cover.end,
        None => false,
    }
}

// The row of two that ends last.
fn later(cover: Option<Lasting>, row: Lasting) -> Option<Lasting>
    ensures { (result ≡ cover) ⊎ (result ≡ Some row) }
{
    match cover {
        Some(first) => {
            if row.end < first.end {
                cover
            } else {
                Some(row)
            }
        }
        None => Some(row),
    }
}

// The row that is lent.
fn row(row: &Lasting) -> Lasting
    ensures { result ≡ row.now }
{
    *row
}

// The first row, which no other one is above.
fn first(rows: &BinaryHeap<Lasting>) -> Option<Lasting>
    requires { IsHeap lasting_cmp (heap_items rows.now) }
    ensures some { IfSome result (λ top. IsFirst (heap_items rows.now) top) }
    ensures none { IfNone result (heap_items rows.now ≡ []) }
{
    let top = rows.peek()?;
    Some(row(top))
}

// Whether there is a first row, and it has ended at a moment.
fn is_over(rows: &BinaryHeap<Lasting>, now: i64) -> bool
    requires { IsHeap lasting_cmp (heap_items rows.now) }
    ensures over { result ≡ true → IsOver now (heap_items rows.now) }
    ensures lasts { result ≡ false → FirstLasts now (heap_items rows.now) }
{
    match first(rows) {
        Some(top) => top.end <= now,
        None => false,
    }
}

// Takes the first row out.
fn drop_first(rows: &mut BinaryHeap<Lasting>, now: i64)
    requires heap { IsHeap lasting_cmp (heap_items rows.old) }
    requires over { IsOver now (heap_items rows.old) }
    ensures heap { IsHeap lasting_cmp (heap_items rows.new) }
    ensures same { SameFrom now (heap_items rows.old) (heap_items rows.new) }
    ensures fewer { heap_len rows.new < heap_len rows.old }
{
    let _now = now; // says that it is of 64 bits
    let Some(_first) = rows.pop() else {
        unreachable!()
    };
}

// Takes out the first rows, as long as they have ended at a moment.
fn drop_ended(rows: &mut BinaryHeap<Lasting>, now: i64)
    requires { IsHeap lasting_cmp (heap_items rows.old) }
    ensures heap { IsHeap lasting_cmp (heap_items rows.new) }
    ensures same { SameFrom now (heap_items rows.old) (heap_items rows.new) }
    ensures lasts { FirstLasts now (heap_items rows.new) }
{
    'ending: while is_over(rows, now) {
        drop_first(rows, now);
    }
}

// The value of a row, where there is one.
fn value_of(row: Option<Lasting>) -> Option<i64>
    ensures { result ≡ option_map (λ r. r.value) row }
{
    match row {
        Some(row) => Some(row.value),
        None => None,
    }
}

impl LastingHeap {
    /// The heap of no row. It takes no memory.
    pub(crate) fn none(alloc: Global) -> LastingHeap
        ensures { (floor : ℤ) → LastFor result floor [] }
    {
        LastingHeap {
            rows: BinaryHeap::new(alloc),
            cover: None,
        }
    }

    /// Whether a row of a value that ends at a moment or before it is above none of those that came.
    #[inline(always)]
    pub(crate) fn covers(&self, row: Lasting) -> bool
        ensures { result ≡ covers self.now.cover row }
    {
        covers(self.cover, row)
    }

    // Puts a row in, where no other one covers it. The error is `NoMemory`.
    #[inline(never)]
    fn push(&mut self, row: Lasting) -> Result<(), NoMemory>
        ensures { OnOk result (Takes self.old self.new row) }
    {
        self.rows.push(row)?;
        self.cover = later(self.cover, row);
        Ok(())
    }

    /// Puts a row in, where no other one covers it. The error is `NoMemory`.
    #[inline(always)]
    pub(crate) fn put(&mut self, row: Lasting) -> Result<(), NoMemory>
        ensures { OnOk result (Takes self.old self.new row) }
    {
        let is_covered = covers(self.cover, row);
        if is_covered {
            return Ok(());
        }
        self.push(row)
    }

    /// The greatest value of the rows that have not ended at a moment, where there is one. The
    /// moments that are asked for may not fall.
    pub(crate) fn greatest(&mut self, now: i64) -> Option<i64>
        ensures value { (floor : ℤ) (rows : List Lasting) → LastFor self.old floor rows
            → floor ≤ℤ now → IsGreatestAt now rows result }
        ensures kept { (floor : ℤ) (rows : List Lasting) → LastFor self.old floor rows
            → floor ≤ℤ now → LastFor self.new now rows }
    {
        drop_ended(&mut self.rows, now);
        let top = first(&self.rows);
        value_of(top)
    }
}
