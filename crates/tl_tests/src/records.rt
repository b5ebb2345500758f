//! Records, cut short and bad ones among them.
ghost use Rattle.std.specs.Prelude.{◌≡◌};

use std::alloc::Global;
use std::test::Fail;
use tl_record::{RecordFault, decode, encode};
use tl_types::{Body, Commit};

// The record of the commit that ends row 1 of the first table.
const CLOSED: [u8; 19] = [0, 0, 0, 0, 2, 0, 0, 0, 0, 0, 1, 0, 0, 0, 1, 0, 0, 0, 0];

// A commit of author 7 that opens a row with the number -1 at all times.
const PERIOD: [u8; 42] = [
    0, 0, 0, 7, 2, 0, 0, 0, 0, 0, 0, 0, 0, 0, 1, 1, 1, 255, 255, 255, 255, 255, 255, 255, 255, 1,
    128, 0, 0, 0, 0, 0, 0, 0, 127, 255, 255, 255, 255, 255, 255, 255,
];

// A commit that states the moment 1000, and one that sets the floor of the first table to 3.
const STATED: [u8; 13] = [0, 0, 0, 0, 4, 0, 0, 0, 0, 0, 0, 3, 232];

const FLOORED: [u8; 11] = [0, 0, 0, 0, 5, 0, 0, 0, 0, 0, 3];

fn is_spelled(alloc: Global, commit: &Commit, record: &[u8]) -> bool {
    match encode(alloc, commit) {
        Ok(bytes) => bytes.as_slice() == record,
        Err(_) => false,
    }
}

// Whether bytes begin with a record of so many, which is what its commit is spelled as.
fn is_read(alloc: Global, bytes: &[u8], len: usize) -> bool {
    if len > bytes.len() {
        return false;
    }
    match decode(alloc, bytes, 0) {
        Ok(decoded) => decoded.end == len && is_spelled(alloc, &decoded.commit, &bytes[..len]),
        Err(_) => false,
    }
}

// Whether a body without an author is spelled as a record.
fn is_spelled_by(alloc: Global, body: Body, record: &[u8]) -> bool {
    is_spelled(alloc, &Commit { author: 0, body }, record)
}

#[test]
fn records_are_read_and_spelled(rt: HostRuntime) -> Result<(), Fail> {
    assert!(rt; is_read(rt.alloc(), &CLOSED, 19));
    assert!(rt; is_read(rt.alloc(), &PERIOD, 42));
    assert!(rt; is_read(rt.alloc(), &STATED, 13));
    assert!(rt; is_read(rt.alloc(), &FLOORED, 11));
    let moment = Body::Moment { moment: 1000 };
    assert!(rt; is_spelled_by(rt.alloc(), moment, &STATED));
    let floor = Body::Forget { table: 0, floor: 3 };
    assert!(rt; is_spelled_by(rt.alloc(), floor, &FLOORED));
    Ok(())
}

// Whether bytes are no record, cut short or bad.
fn is_refused(alloc: Global, bytes: &[u8], fault: RecordFault) -> bool {
    match decode(alloc, bytes, 0) {
        Ok(_) => false,
        Err(found) => found == fault,
    }
}

const SHORT: RecordFault = RecordFault::Short { at: 0 };

const BAD: RecordFault = RecordFault::Bad { at: 0 };

#[test]
fn short_records_and_bad_ones(rt: HostRuntime) -> Result<(), Fail> {
    let alloc = rt.alloc();
    // Cut short, and no byte.
    assert!(rt; is_refused(alloc, &CLOSED[..18], SHORT));
    assert!(rt; is_refused(alloc, &[], SHORT));
    // A moment and a floor cut short.
    assert!(rt; is_refused(alloc, &STATED[..12], SHORT));
    assert!(rt; is_refused(alloc, &FLOORED[..10], SHORT));
    // Of no kind; ids that do not ascend.
    assert!(rt; is_refused(alloc, &[0, 0, 0, 0, 3], BAD));
    assert!(rt; is_refused(alloc, &[0, 0, 0, 0, 6], BAD));
    let twice = [0, 0, 0, 0, 2, 0, 0, 0, 0, 0, 2, 0, 0, 0, 1, 0, 0, 0, 1];
    assert!(rt; is_refused(alloc, &twice, BAD));
    // Two ids from the greatest on: nothing completes them.
    let greatest = [0, 0, 0, 0, 2, 0, 0, 0, 0, 0, 2, 255, 255, 255, 255];
    assert!(rt; is_refused(alloc, &greatest, BAD));
    // As many ids as there may be.
    let many = [0, 0, 0, 0, 2, 0, 0, 255, 255, 255, 255, 0, 0, 0];
    assert!(rt; is_refused(alloc, &many, SHORT));
    // Half a letter of two bytes, in a text of two bytes and of one.
    let letter = [0, 0, 0, 0, 2, 0, 0, 0, 0, 0, 0, 0, 0, 0, 1, 1, 2, 0, 2, 195];
    assert!(rt; is_refused(alloc, &letter, SHORT));
    let half = [0, 0, 0, 0, 2, 0, 0, 0, 0, 0, 0, 0, 0, 0, 1, 1, 2, 0, 1, 195];
    assert!(rt; is_refused(alloc, &half, BAD));
    Ok(())
}
