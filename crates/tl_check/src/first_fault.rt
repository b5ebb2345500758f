//! The first of several faults: the one that stands furthest to the left, and of those at one place
//! the one with the least number.
ghost use Rattle.std.specs.Prelude.{◌≡◌};
ghost use Rattle.tl_query.specs.Checking.{comes_before, earlier, first_of, place_of, rank_of};

use tl_query::CheckFault;

// Where a fault stands, as an offset in bytes.
fn place_of(fault: &CheckFault) -> u32
    ensures { result ≡ place_of fault.now }
{
    match fault {
        CheckFault::UnknownTable { at } => *at,
        CheckFault::UnknownColumn { at } => *at,
        CheckFault::WrongType { at } => *at,
        CheckFault::NotValidTable { at } => *at,
        CheckFault::VersionAhead { at, .. } => *at,
        CheckFault::EmptyRange { at } => *at,
        CheckFault::ColumnTwice { at } => *at,
        CheckFault::NoMemory => 0,
        CheckFault::Forgotten { at, .. } => *at,
    }
}

// The number of a fault, which decides between two at one place.
fn rank_of(fault: &CheckFault) -> u8
    ensures { result ≡ rank_of fault.now }
{
    match fault {
        CheckFault::UnknownTable { .. } => 1,
        CheckFault::UnknownColumn { .. } => 2,
        CheckFault::WrongType { .. } => 3,
        CheckFault::NotValidTable { .. } => 4,
        CheckFault::VersionAhead { .. } => 5,
        CheckFault::EmptyRange { .. } => 6,
        CheckFault::ColumnTwice { .. } => 7,
        CheckFault::NoMemory => 8,
        CheckFault::Forgotten { .. } => 9,
    }
}

fn comes_before(first: &CheckFault, second: &CheckFault) -> bool
    ensures { result ≡ comes_before first.now second.now }
{
    let left = place_of(first);
    let right = place_of(second);
    left < right || (left == right && rank_of(first) < rank_of(second))
}

/// The earlier of two faults, where there are two: the one that stands further to the left, at one
/// place the one of the lesser number.
pub(crate) fn earlier(first: Option<CheckFault>, second: Option<CheckFault>) -> Option<CheckFault>
    ensures { result ≡ earlier first second }
{
    match (first, second) {
        (None, other) => other,
        (Some(one), None) => Some(one),
        (Some(one), Some(other)) => {
            if comes_before(&other, &one) {
                Some(other)
            } else {
                Some(one)
            }
        }
    }
}

/// The first of the faults that there are.
pub(crate) fn first_of(faults: &[Option<CheckFault>]) -> Option<CheckFault>
    ensures { result ≡ first_of faults.now }
{
    let mut first = None;
    for fault in faults {
        first = earlier(first, *fault);
    }
    first
}
