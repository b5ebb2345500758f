//! A row as a walk takes it: its id, the number of its key, and the moments at which it holds;
//! whether it holds at a moment, and the pair that two such rows make.
ghost use Rattle.std.specs.Prelude.{◌≡◌};
ghost use Rattle.tl_join.specs.Sweep.{pair_at, stands_at};

use tl_types::Pair;

/// A row of one side: when it begins and ends, and the number of its key.
#[derive(Clone, Copy)]
pub(crate) struct Entry {
    /// The row's id: its place among all rows of its table, from 0.
    pub id: u32,
    /// The number of its key: equal for equal keys of both sides, from 0 on.
    pub code: u32,
    /// The first moment at which it stands: a version or a valid time.
    pub begin: i64,
    /// The moment after the last.
    pub end: i64,
}

/// Whether a row stands at a moment, if it began by then.
pub(crate) fn stands_at(moment: i64, entry: Entry) -> bool
    ensures { result ≡ stands_at moment entry }
{
    moment < entry.end
}

/// The pair of a row that begins with one that stood before: the first of them left, or right where
/// `turned`.
pub(crate) fn pair_at(turned: bool, entry: Entry, other: Entry) -> Pair
    ensures { result ≡ pair_at turned entry other }
{
    Pair {
        from: entry.begin,
        to: entry.end.min(other.end),
        left: if turned { other.id } else { entry.id },
        right: if turned { entry.id } else { other.id },
    }
}
