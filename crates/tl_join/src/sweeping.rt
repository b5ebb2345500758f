//! The walk over two sides, in order of the moments at which rows begin: each row meets those of
//! the other side that wait in its key's chain. It gives the pairs in order, and refuses none.
ghost use Rattle.std.specs.Prelude.{◌≡◌, ◌+◌, ◌<◌, ◌≤◌, ◌⊎◌, ◌++◌, [], false, List, length, take, drop, reverse, replicate, IfOk, OnOk, IsTrue};
ghost use Rattle.std.specs.List.{AllByRecursion};
ghost use Rattle.tl_query.specs.Ordered.{in_order, pair_before};
ghost use Rattle.tl_join.specs.declared.entries.Entry.{Entry};
ghost use Rattle.tl_join.specs.Sweep.{AreSame, grid, IsEntry, Rises, AreOne, IsNextOf};
ghost use Rattle.tl_join.specs.Chains.{AreLinked, found, AreMatched, chain_of, key_slot};

use crate::chains::{empty_links, match_chain, put_front};
use crate::entries::Entry;
use std::alloc::Global;
use tl_types::{NoMemory, Pair};

// Two lists of rows, and the number of their keys.
#[derive(Clone, Copy)]
struct Sides<'a> {
    lefts: &'a [Entry],
    rights: &'a [Entry],
    codes: u32,
}

// Turns the pairs from a place on around.
fn turn_from(pairs: &mut Vec<Pair>, place: usize)
    requires { place ≤ length pairs.old.items }
    ensures { pairs.new.items
        ≡ take place pairs.old.items ++ reverse (drop place pairs.old.items) }
{
    pairs[place..].reverse();
}

// Appends the pairs of a row that begins with those of its key's chain, the oldest of these first,
// where it begins not before the first moment. So the pairs come nearly in order.
fn match_row(
    pairs: &mut Vec<Pair>,
    links: &mut [usize],
    rows: &[Entry],
    entry: Entry,
    first: i64,
    turned: bool,
) -> Result<(), NoMemory>
    requires linked { AreLinked (length rows.now) links.old }
    requires key { key_slot (length rows.now) entry.code < length links.old }
    ensures pairs { OnOk result (pairs.new.items ≡ pairs.old.items
        ++ found first turned entry (chain_of rows.now links.old entry.code)) }
    ensures kept { OnOk result (AreMatched rows.now first entry links.old links.new) }
{
    if first <= entry.begin {
        let place = pairs.len();
        match_chain(pairs, links, rows, entry, turned)?;
        turn_from(pairs, place);
    }
    Ok(())
}

// Whether the next row is the left one: there is one, and it begins not after the next right one.
fn is_left_next(lefts: &[Entry], rights: &[Entry], i: usize, j: usize) -> bool
    requires some { i < length lefts.now ⊎ j < length rights.now }
    ensures left { IsTrue result → IsNextOf lefts.now i rights.now j }
    ensures right { result ≡ false → IsNextOf rights.now j lefts.now i }
{
    if i >= lefts.len() {
        return false;
    }
    if j >= rights.len() {
        return true;
    }
    lefts[i].begin <= rights[j].begin
}

// Appends the pairs of both sides, in the order in which a walk finds them. The error is out of
// memory.
fn walk(
    pairs: &mut Vec<Pair>,
    left_links: &mut [usize],
    right_links: &mut [usize],
    sides: &Sides,
    first: i64,
) -> Result<(), NoMemory>
    requires none { pairs.old.items ≡ [] }
    requires left_links { left_links.old
        ≡ replicate (key_slot (length sides.now.lefts.now) sides.now.codes) 0 }
    requires right_links { right_links.old
        ≡ replicate (key_slot (length sides.now.rights.now) sides.now.codes) 0 }
    requires lefts { AllByRecursion (IsEntry sides.now.codes) sides.now.lefts.now }
    requires rights { AllByRecursion (IsEntry sides.now.codes) sides.now.rights.now }
    requires left_order { Rises sides.now.lefts.now }
    requires right_order { Rises sides.now.rights.now }
    ensures { OnOk result (AreSame pairs.new.items
        (grid first sides.now.lefts.now sides.now.rights.now)) }
{
    let lefts = sides.lefts;
    let rights = sides.rights;
    let mut i = 0;
    let mut j = 0;
    'merging: while i < lefts.len() || j < rights.len() {
        if is_left_next(lefts, rights, i, j) {
            match_row(pairs, right_links, rights, lefts[i], first, false)?;
            put_front(left_links, lefts.len(), i + 1, lefts[i].code);
            i += 1;
        } else {
            match_row(pairs, left_links, lefts, rights[j], first, true)?;
            put_front(right_links, rights.len(), j + 1, rights[j].code);
            j += 1;
        }
    }
    Ok(())
}

// The pairs of both sides, in the order in which a walk finds them. The error is out of memory.
fn found_pairs(alloc: Global, sides: &Sides, first: i64) -> Result<Vec<Pair>, NoMemory>
    requires lefts { AllByRecursion (IsEntry sides.now.codes) sides.now.lefts.now }
    requires rights { AllByRecursion (IsEntry sides.now.codes) sides.now.rights.now }
    requires left_order { Rises sides.now.lefts.now }
    requires right_order { Rises sides.now.rights.now }
    ensures { IfOk result (λ pairs. AreSame pairs.items
        (grid first sides.now.lefts.now sides.now.rights.now)) }
{
    let mut left_links = empty_links(alloc, sides.lefts.len(), sides.codes)?;
    let mut right_links = empty_links(alloc, sides.rights.len(), sides.codes)?;
    let mut pairs = Vec::new(alloc);
    walk(&mut pairs, &mut left_links, &mut right_links, sides, first)?;
    Ok(pairs)
}

/// The pairs of two lists of rows, each in order of the moments at which its rows begin, that have
/// a key in common and hold together: those that begin not before the first moment, each with all
/// that its rows have in common, in order of their first moments, left ids and right ids. They are
/// those of the same rows in any order. The keys have numbers below `codes`. The error is out of
/// memory.
pub(crate) fn swept_pairs(
    alloc: Global,
    lefts: &[Entry],
    rights: &[Entry],
    codes: u32,
    first: i64,
) -> Result<Vec<Pair>, NoMemory>
    requires lefts { AllByRecursion (IsEntry codes) lefts.now }
    requires rights { AllByRecursion (IsEntry codes) rights.now }
    requires left_order { Rises lefts.now }
    requires right_order { Rises rights.now }
    requires left_rows { AreOne lefts.now }
    requires right_rows { AreOne rights.now }
    ensures pairs { IfOk result
        (λ pairs. pairs.items ≡ in_order pair_before (grid first lefts.now rights.now)) }
    ensures any_order { (ls rs : List Entry) → AreSame lefts.now ls → AreSame rights.now rs
        → AreOne ls → AreOne rs
        → IfOk result (λ pairs. pairs.items ≡ in_order pair_before (grid first ls rs)) }
{
    let sides = Sides {
        lefts,
        rights,
        codes,
    };
    let mut pairs = found_pairs(alloc, &sides, first)?;
    pairs.sort_unstable_by_key(|pair| (pair.from, pair.left, pair.right));
    Ok(pairs)
}
