//! A set of the rows of a table, and a bag with equal values.
ghost use Rattle.std.specs.Prelude.{◌≡◌, ◌<◌};

use std::alloc::Global;
use std::marker::Brand;
use std::sync::ledger::{Blank, Ledger};
use std::test::Fail;
use tl_bits::{Bag, RowSet};
use tl_types::Steps;

// Whether the set shows the rows 3 and 64 alone.
fn has_two<L: Ledger>(set: &RowSet, steps: &mut Steps<L>) -> bool {
    if set.rows() != 65 {
        return false;
    }
    set.count(steps) == 2
        && set.word(0, steps) == 8
        && set.word(1, steps) == 1
        && set.next(0, steps) == Some(3)
        && set.next(4, steps) == Some(64)
        && set.next(65, steps).is_none()
}

// Whether a longer copy of the set still has row 64, and no row past it.
fn is_kept<L: Ledger>(alloc: Global, set: &RowSet, steps: &mut Steps<L>) -> bool {
    if set.rows() != 65 {
        return false;
    }
    match set.grown(alloc, 70) {
        Ok(grown) => grown.test(64, steps) && !grown.test(69, steps),
        Err(_) => false,
    }
}

// Puts rows into a set of 65 and takes some out again; whether it shows that.
fn is_changed<L: Ledger>(alloc: Global, set: &mut RowSet, steps: &mut Steps<L>) -> bool {
    if set.rows() != 65 {
        return false;
    }
    set.set(3);
    set.set(4);
    set.clear(4);
    set.put_word(1, 1);
    has_two(set, steps) && is_kept(alloc, set, steps)
}

fn a_set_changes<L: Ledger>(alloc: Global, blank: Blank) -> bool
    requires name { blank.name ≡ L.name }
    requires parts { blank.parts ≡ L.parts }
    requires some { 0 < blank.parts }
{
    let mut steps: Steps<L> = Steps::new(blank);
    match RowSet::none(alloc, 65) {
        Ok(mut set) => is_changed(alloc, &mut set, &mut steps),
        Err(_) => false,
    }
}

#[test]
fn a_set_of_rows(rt: HostRuntime) -> Result<(), Fail> {
    assert!(rt; a_set_changes::<Brand>(rt.alloc(), Blank::new(1)));
    Ok(())
}

// Whether least and greatest are these.
fn has_ends(bag: &Bag, least: Option<i64>, greatest: Option<i64>) -> bool {
    bag.least() == least && bag.greatest() == greatest
}

// Adds a value and takes one of its equals out; whether it could be added.
fn add_and_remove(bag: &mut Bag, value: i64) -> bool {
    match bag.add(value) {
        Ok(()) => {
            bag.remove(value);
            true
        }
        Err(_) => false,
    }
}

fn keeps_equals_apart(bag: &mut Bag) -> bool {
    has_ends(bag, None, None)
        && bag.add(7).is_ok()
        && bag.add(-1).is_ok()
        && add_and_remove(bag, 7)
        && add_and_remove(bag, i64::MAX)
        && has_ends(bag, Some(-1), Some(7))
}

fn a_bag_keeps_equals(alloc: Global) -> bool {
    let mut bag = Bag::none(alloc);
    keeps_equals_apart(&mut bag)
}

#[test]
fn a_bag_of_values(rt: HostRuntime) -> Result<(), Fail> {
    assert!(rt; a_bag_keeps_equals(rt.alloc()));
    Ok(())
}
