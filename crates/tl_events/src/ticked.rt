//! A shared list that is read in steps: its items are seen through `at` and `run` alone, which
//! take a step for each.
ghost use Rattle.std.specs.Prelude.{◌≡◌, ◌+◌, ◌-◌, ◌%◌, ◌^◌, ◌<◌, ◌≤◌, ◌++◌, [], length, take, drop, min, slice_index_or, IfOk};

use std::alloc::Global;
use std::marker::Model;
use std::sync::ledger::Ledger;
use tl_shared::{CHUNK, ListInChunks, Shareable};
use tl_types::{NoMemory, Steps};

// A shared list, in chunks of `SIZE`, of which no item is seen without a step: who reads one
// through it takes a step for each. Contracts see it as the list of its items.
#[derive(Drop)]
pub(crate) struct TickedList<T, const SIZE: usize> {
    items: ListInChunks<T, SIZE>,
}

impl<T, const SIZE: usize> Model for TickedList<T, SIZE> {
    ghost use Rattle.std.specs.Prelude.{List};

    ghost Value = { List T };

    ghost view = { λ l. l.items };
}

impl<T: Shareable, const SIZE: usize> TickedList<T, SIZE> {
    // The list of no items.
    pub(crate) fn none(alloc: Global) -> TickedList<T, SIZE>
        requires some { 0 < SIZE }
        requires few { SIZE < 2 ^ 63 }
        ensures { result ≡ [] }
    {
        TickedList {
            items: ListInChunks::none(alloc),
        }
    }

    // How many items there are.
    pub(crate) fn len(&self) -> u64
        ensures { result ≡ length self.now }
    {
        self.items.len()
    }

    // The list followed by the items, which takes this one over: what of it has no other owner is
    // not copied.
    pub(crate) fn append(self, alloc: Global, items: &[T]) -> Result<TickedList<T, SIZE>, NoMemory>
        ensures { IfOk result (λ list. list ≡ self ++ items.now) }
    {
        Ok(TickedList {
            items: self.items.append(alloc, items)?,
        })
    }

    // The item at `at`, counted from 0. It takes one step.
    pub(crate) fn at<L: Ledger>(&self, at: u64, steps: &mut Steps<L>) -> &T
        requires { at < length self.now }
        ensures item { result.now ≡ slice_index_or self.now at result.now }
        ensures steps { steps.new ≡ steps.old + 1 }
    {
        steps.tick();
        self.items.at(at)
    }
}

impl<T: Shareable> TickedList<T, CHUNK> {
    // The items from `from` on, up to the end of the chunk that the first of them is in, and before
    // `to`. It takes a step for each.
    pub(crate) fn run<L: Ledger>(&self, from: u64, to: u64, steps: &mut Steps<L>) -> &[T]
        requires some { from < to }
        requires within { to ≤ length self.now }
        ensures run { result.now ≡ take (length result.now) (drop from self.now) }
        ensures len { length result.now ≡ min (to - from) (CHUNK - from % CHUNK) }
        ensures steps { steps.new ≡ steps.old + length result.now }
    {
        let (_, rest) = self
            .items
            .chunk(from / CHUNK as u64)
            .split_at((from % CHUNK as u64) as usize);
        let (run, _) = rest.split_at(rest.len().min((to - from) as usize));
        steps.tick_many(run.len() as u64);
        run
    }
}

impl<T: Shareable, const SIZE: usize> Shareable for TickedList<T, SIZE> {
    fn share(&self, alloc: Global) -> Result<TickedList<T, SIZE>, NoMemory> {
        Ok(TickedList {
            items: self.items.share(alloc)?,
        })
    }
}
