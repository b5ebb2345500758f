//! Events of a table: the ends and the beginnings of its rows, version by version; and the
//! beginnings and the ends of their periods of valid time.
ghost use Rattle.std.specs.Prelude.{◌≡◌};
ghost use Rattle.tl_types.specs.Checkpoints.{comes_before};

/// One event of a table: at its version a row begins to stand, or ends.
#[derive(Clone, Copy, Debug, PartialEq, Eq)]
pub struct Event {
    /// The row's id: its place among all rows of its table, from 0.
    pub row: u32,
    /// Whether the row begins to stand (an activation), or ends (an invalidation).
    pub opens: bool,
}

/// An event of valid time: at its time the period of a row begins, or ends. Events are ordered by
/// time, at one time ends before beginnings, and then by row.
#[derive(Clone, Copy, Debug, PartialEq, Eq, PartialOrd, Ord)]
pub struct ValidEvent {
    /// The valid time at which the period begins or ends, in the user's unit.
    pub time: i64,
    /// Whether the period begins (an activation), or ends (an invalidation).
    pub opens: bool,
    /// The row's id: its place among all rows of its table, from 0.
    pub row: u32,
}

impl ValidEvent {
    /// Whether the event comes before the other in the order of events.
    pub fn comes_before(&self, other: &ValidEvent) -> bool
        ensures { result ≡ comes_before self.now other.now }
    {
        self < other
    }
}
