//! The versions and the ranges of time that a query names: their faults, and where there are none
//! the versions that they stand for. A version after the last commit, one that is forgotten and a
//! range with nothing in it are refused.
ghost use Rattle.std.specs.Prelude.{◌≡◌, ◌≤◌, ◌+◌, None, nat_abs};
ghost use Rattle.std.specs.Option.{ForSome};
ghost use Rattle.tl_query.specs.Checking.{
  ahead_fault,
  fault_if,
  first_of,
  forgotten_fault,
  stamp_of,
  version_fault,
  version_meant,
  version_of,
};
ghost use Rattle.tl_query.specs.CheckingQueries.{
  end_fault,
  moments_fault,
  over_faults,
  point_fault,
  span_of,
  start_fault,
  versions_fault,
};
ghost use Rattle.tl_query.specs.declared.check_faults.CheckFault.TheVariants as fault;
ghost use Rattle.tl_query.specs.Parsed.{HasVersions, IsGiven, IsVersion};

use crate::first_fault::first_of;
use crate::times::StoreTimes;
use tl_query::{AsOf, CheckFault, Over, Span, Stamp, ValidPoint};

// `VersionAhead` at a version that is after the last commit. A moment never is.
fn ahead_fault(now: u32, as_of: AsOf) -> Option<CheckFault>
    requires { IsGiven as_of }
    ensures { result ≡ ahead_fault now as_of }
{
    match as_of {
        AsOf::Version(stamp) => {
            let version = stamp.value as u64;
            if version > now as u64 {
                Some(CheckFault::VersionAhead {
                    at: stamp.at,
                    asked: version,
                    now,
                })
            } else {
                None
            }
        }
        AsOf::Moment(_) => None,
    }
}

/// `VersionAhead` at the version that is asked for, where it is after the last commit.
pub(crate) fn version_fault(times: &StoreTimes<'_>, asked: Option<AsOf>) -> Option<CheckFault>
    requires { ForSome asked IsGiven }
    ensures { result ≡ version_fault times.now asked }
{
    match asked {
        None => None,
        Some(as_of) => ahead_fault(times.now(), as_of),
    }
}

// The version that what follows AS OF stands for, which may be after the last commit.
fn version_meant(times: &StoreTimes<'_>, as_of: AsOf) -> u64
    requires { IsGiven as_of }
    ensures { result ≡ version_meant times.now as_of }
{
    match as_of {
        AsOf::Version(stamp) => stamp.value as u64,
        AsOf::Moment(stamp) => times.at(stamp.value) as u64,
    }
}

// The number after AS OF, with MOMENT or without.
fn stamp_of(as_of: AsOf) -> Stamp
    ensures { result ≡ stamp_of as_of }
{
    match as_of {
        AsOf::Version(stamp) => stamp,
        AsOf::Moment(stamp) => stamp,
    }
}

/// `Forgotten` at the version that is asked for, where it is before the least one that may be
/// asked.
pub(crate) fn forgotten_fault(times: &StoreTimes<'_>, asked: Option<AsOf>) -> Option<CheckFault>
    requires { ForSome asked IsGiven }
    ensures { result ≡ forgotten_fault times.now asked }
{
    match asked {
        None => None,
        Some(as_of) => {
            let floor = times.floor();
            if version_meant(times, as_of) < floor as u64 {
                Some(CheckFault::Forgotten {
                    at: stamp_of(as_of).at,
                    floor,
                })
            } else {
                None
            }
        }
    }
}

// The version that what follows AS OF stands for, where it is not after the last commit.
fn reached_version(times: &StoreTimes<'_>, as_of: AsOf) -> u32
    requires given { IsGiven as_of }
    requires reached { ahead_fault times.now.now as_of ≡ None }
    ensures { result ≡ version_meant times.now as_of }
{
    let now = times.now();
    match as_of {
        AsOf::Version(stamp) => (stamp.value as u64).min(now as u64) as u32,
        AsOf::Moment(stamp) => times.at(stamp.value),
    }
}

/// The version that is asked for: the last one where none is given.
pub(crate) fn version_of(times: &StoreTimes<'_>, asked: Option<AsOf>) -> u32
    requires positive { ForSome asked IsGiven }
    requires reached { version_fault times.now asked ≡ None }
    ensures { result ≡ version_of times.now asked }
{
    match asked {
        None => times.now(),
        Some(as_of) => reached_version(times, as_of),
    }
}

// `NotValidTable` at `VALID`, where the rows of a known table have no valid period: are timeless.
fn valid_fault(timeless: bool, at: u32) -> Option<CheckFault>
    ensures { result ≡ fault_if timeless (fault.NotValidTable at) }
{
    if timeless {
        Some(CheckFault::NotValidTable { at })
    } else {
        None
    }
}

/// `NotValidTable` at VALID AT, where that is asked for of a timeless table.
pub(crate) fn point_fault(timeless: bool, point: Option<ValidPoint>) -> Option<CheckFault>
    ensures { result ≡ point_fault timeless point }
{
    match point {
        None => None,
        Some(point) => valid_fault(timeless, point.pos),
    }
}

// `VersionAhead` at the end of a range of versions, where it is after the version that follows the
// last commit.
fn end_fault(now: u32, to: Stamp) -> Option<CheckFault>
    requires { IsVersion to }
    ensures { result ≡ end_fault now to }
{
    let end = to.value as u64;
    if end > now as u64 + 1 {
        Some(CheckFault::VersionAhead {
            at: to.at,
            asked: end,
            now,
        })
    } else {
        None
    }
}

// `EmptyRange` at the first bound, where no version is in the range.
fn versions_fault(from: Stamp, to: Stamp) -> Option<CheckFault>
    requires from { IsVersion from }
    requires to { IsVersion to }
    ensures { result ≡ versions_fault from to }
{
    let first = from.value as u64;
    let end = to.value as u64;
    if first < end {
        None
    } else {
        Some(CheckFault::EmptyRange { at: from.at })
    }
}

// `Forgotten` at the first bound of a range of versions, where it is before the least version that
// may be asked.
fn start_fault(floor: u32, from: Stamp) -> Option<CheckFault>
    requires { IsVersion from }
    ensures { result ≡ start_fault floor from }
{
    if (from.value as u64) < floor as u64 {
        Some(CheckFault::Forgotten { at: from.at, floor })
    } else {
        None
    }
}

// `EmptyRange` at the first bound, where no moment of valid time is in the range.
fn moments_fault(from: Stamp, to: Stamp) -> Option<CheckFault>
    ensures { result ≡ moments_fault from to }
{
    if from.value < to.value {
        None
    } else {
        Some(CheckFault::EmptyRange { at: from.at })
    }
}

/// The first fault of a range of time: `EmptyRange` at the first bound where it is not less than
/// the second, `VersionAhead` at a version that is too great, `Forgotten` at one that is too small,
/// and `NotValidTable` at `VALID`, where the rows of a known table of the query are timeless.
pub(crate) fn over_fault(times: &StoreTimes<'_>, timeless: bool, over: Over) -> Option<CheckFault>
    requires { HasVersions over }
    ensures { result ≡ first_of (over_faults times.now timeless over) }
{
    match over {
        Over::SystemAll => None,
        Over::System { from, to } => {
            let end = end_fault(times.now(), to);
            let start = start_fault(times.floor(), from);
            first_of([versions_fault(from, to), end, start].as_slice())
        }
        Over::Valid {
            pos,
            from,
            to,
            as_of,
        } => {
            let valid = valid_fault(timeless, pos);
            let version = version_fault(times, as_of);
            let forgotten = forgotten_fault(times, as_of);
            first_of([valid, moments_fault(from, to), version, forgotten].as_slice())
        }
    }
}

// A version up to the one that follows the last commit.
fn bound_of(now: u32, bound: Stamp) -> u32
    requires positive { IsVersion bound }
    requires few { now ≤ 16777215 }
    requires reached { nat_abs bound.value ≤ now + 1 }
    ensures { result ≡ nat_abs bound.value }
{
    (bound.value as u64).min(now as u64 + 1) as u32
}

/// The span that a range of time without a fault stands for. `SYSTEM ALL` is all versions from the
/// least one that may be asked on.
pub(crate) fn span_of(times: &StoreTimes<'_>, timeless: bool, over: Over) -> Span
    requires positive { HasVersions over }
    requires right { first_of (over_faults times.now timeless over) ≡ None }
    ensures { result ≡ span_of times.now over }
{
    let now = times.now();
    match over {
        Over::SystemAll => Span::System {
            from: times.floor(),
            to: now + 1,
        },
        Over::System { from, to } => Span::System {
            from: bound_of(now, from),
            to: bound_of(now, to),
        },
        Over::Valid {
            from,
            to,
            as_of,
            ..
        } => Span::Valid {
            version: version_of(times, as_of),
            from: from.value,
            to: to.value,
        },
    }
}
