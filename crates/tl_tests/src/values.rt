//! Values and their copies.
use crate::worked::{change, create, floored, opened, stated};
use std::alloc::Global;
use std::test::Fail;
use tl_types::{Bytes, Commit, Entry, Line, Opened, Period, has_break};

// Whether a copy of a row is equal to it.
fn row_is_copied(row: &Opened) -> bool {
    match row.clone() {
        Ok(copy) => copy == *row,
        Err(_) => false,
    }
}

// Whether a copy of an entry is equal to it.
fn entry_is_copied(entry: &Entry) -> bool {
    match entry.clone() {
        Ok(copy) => copy == *entry,
        Err(_) => false,
    }
}

// Whether a break with a commit is one, and a copy of it is equal to it.
fn break_is_copied(commit: Commit) -> bool {
    let entries = [Entry::Break { commit }];
    has_break(&entries) && entry_is_copied(&entries[0])
}

#[test]
fn copies_are_equal(rt: HostRuntime) -> Result<(), Fail> {
    let alloc = rt.alloc();
    let period = Some(Period::new(0, 10));
    assert!(rt; row_is_copied(&opened(alloc, -1, "ops", 9, period)?));
    assert!(rt; break_is_copied(create(alloc, "emp", true)?));
    assert!(rt; break_is_copied(change(alloc, Some(1), Vec::new(alloc))?));
    assert!(rt; break_is_copied(stated(-1)));
    assert!(rt; break_is_copied(floored(3)));
    Ok(())
}

// Whether a line is handed out as it was put in.
fn line_is_handed_out(alloc: Global) -> bool {
    match Line::new(alloc, "SELECT") {
        Ok(line) => line.as_str() == "SELECT",
        Err(_) => false,
    }
}

// Whether bytes are handed out as they were put in.
fn bytes_are_handed_out(bytes: Vec<u8>) -> bool {
    Bytes::from_vec(bytes).as_slice() == [1, 2].as_slice()
}

#[test]
fn lines_and_bytes(rt: HostRuntime) -> Result<(), Fail> {
    assert!(rt; line_is_handed_out(rt.alloc()));
    assert!(rt; bytes_are_handed_out(vec![in rt.alloc(); 1, 2]?));
    Ok(())
}
