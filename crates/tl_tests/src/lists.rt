//! A list of several chunks and blocks, looked at after it was followed, changed and shared.
use std::alloc::Global;
use std::test::Fail;
use tl_shared::{CHUNK, Shareable, SharedList};
use tl_types::NoMemory;

// The list of the numbers from 0 on, 70,000 of them.
fn numbers(alloc: Global) -> Result<SharedList<u64>, NoMemory> {
    let mut numbers = Vec::new(alloc);
    for number in 0..70000u64 {
        numbers.push(number)?;
    }
    SharedList::none(alloc).push_all(alloc, &numbers)
}

// Whether the list is the numbers from 0 on, `count` of them.
fn counts_up(list: &SharedList<u64>, count: u64) -> bool {
    if list.len() != count {
        return false;
    }
    for number in 0..count {
        if *list.at(number) != number {
            return false;
        }
    }
    true
}

// Whether the list has this item at a place.
fn has_at(list: &SharedList<u64>, at: u64, item: u64) -> bool {
    at < list.len() && *list.at(at) == item
}

fn is_followed(alloc: Global, list: &SharedList<u64>) -> bool {
    match list.push_all(alloc, [70000u64, 70001].as_slice()) {
        Ok(longer) => counts_up(&longer, 70002),
        Err(_) => false,
    }
}

fn one_changes(alloc: Global, list: &SharedList<u64>) -> bool {
    if list.len() <= 65536 {
        return false;
    }
    match list.with(alloc, 65536, 7777) {
        Ok(newer) => has_at(&newer, 65536, 7777) && has_at(&newer, 65535, 65535),
        Err(_) => false,
    }
}

// Whether a list with new items at several places has them there and the old ones elsewhere.
fn several_change(alloc: Global, list: &SharedList<u64>) -> bool {
    if list.len() != 70000 {
        return false;
    }
    match list.with_each(alloc, [69999u32, 0, 1023, 1024].as_slice(), &7777) {
        Ok(newer) => {
            has_at(&newer, 0, 7777)
                && has_at(&newer, 1, 1)
                && has_at(&newer, 1024, 7777)
                && has_at(&newer, 69999, 7777)
        }
        Err(_) => false,
    }
}

// Takes what threads may share.
fn shared_by_threads<T: Send + Sync>(_value: &T) {}

fn is_shared(alloc: Global, list: &SharedList<u64>) -> bool {
    shared_by_threads(list);
    match list.share(alloc) {
        Ok(shared) => shared.len() == 70000 && shared.chunk(1).len() == CHUNK,
        Err(_) => false,
    }
}

fn all_hold(alloc: Global, list: &SharedList<u64>) -> bool {
    is_followed(alloc, list)
        && one_changes(alloc, list)
        && several_change(alloc, list)
        && is_shared(alloc, list)
        && counts_up(list, 70000)
}

fn a_list_holds(alloc: Global) -> bool {
    match numbers(alloc) {
        Ok(list) => all_hold(alloc, &list),
        Err(_) => false,
    }
}

#[test]
fn a_list_of_several_blocks(rt: HostRuntime) -> Result<(), Fail> {
    assert!(rt; a_list_holds(rt.alloc()));
    Ok(())
}

// Whether a number of each width is shared as it is.
fn are_shared(alloc: Global) -> bool {
    matches!(7u8.share(alloc), Ok(7))
        && matches!(7u16.share(alloc), Ok(7))
        && matches!(7u32.share(alloc), Ok(7))
        && matches!(7u64.share(alloc), Ok(7))
}

#[test]
fn whole_numbers(rt: HostRuntime) -> Result<(), Fail> {
    assert!(rt; are_shared(rt.alloc()));
    Ok(())
}
