//! What holds of the entries of a table's version map, said in the contract of a function that does
//! nothing.
ghost use Rattle.std.specs.Prelude.{ℕ, ◌≤◌, List, drop};
ghost use Rattle.tl_types.specs.Plain as plain;
ghost use Rattle.tl_events.specs.Timeline.{IsSplit, Follow, ends_of};

/// Carries a law in its contract, and does nothing: of a table's entries up to a last version,
/// those that are after a version are the versions behind it that have events, in order, with the
/// places at which these end.
pub fn entries_follow_a_version()
    ensures { (rows : List plain.Row) (last version count : ℕ) → version ≤ last
        → IsSplit (ends_of rows last) version count
        → Follow rows last version (drop count (ends_of rows last)) }
{}
