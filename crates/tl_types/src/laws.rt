//! What holds of every history, said in contracts of functions that do nothing.
ghost use Rattle.std.specs.Prelude.{◌≡◌, ℕ, ℤ, ◌≤◌, ◌≤ℤ◌, IsTrue, List, ◌++◌, length, None};
ghost use Rattle.tl_types.specs.declared.answers.Field.{Field};
ghost use Rattle.tl_types.specs.declared.commits.Commit.{Commit};
ghost use Rattle.tl_types.specs.declared.commits.Entry.{Entry};
ghost use Rattle.tl_types.specs.Checkpoints.{checkpoint_at};
ghost use Rattle.tl_types.specs.Entries.{commits_of};
ghost use Rattle.tl_types.specs.History.{database_of, rows_of, version_at_moment, without_floors};
ghost use Rattle.tl_types.specs.Legality.{FitInTurn, are_legal, database_behind, has_table};
ghost use Rattle.tl_types.specs.Limits.{standard_limits};
ghost use Rattle.tl_types.specs.Marks.{paced};
ghost use Rattle.tl_types.specs.Plain as plain;
ghost use Rattle.tl_types.specs.Walks.{standing, after_events, ChangesEach, events_between};
ghost use Rattle.tl_types.specs.Runs.{runs_of, seam};
ghost use Rattle.tl_types.specs.WellFormed.{AreWellFormed, BeginInOrder, HaveReachedFloors, HaveReachedStamps, Rise};

/// Carries a law in its contract, and does nothing: the checkpoint of a table, at a version, both
/// of which some entries have, is the same over every longer legal list of entries.
pub fn checkpoints_stand()
    ensures { (before more : List Entry) (table version : ℕ) → IsTrue (are_legal (before ++ more))
        → IsTrue (has_table before table) → version ≤ length (commits_of before)
        → checkpoint_at (database_behind (before ++ more)) table version
        ≡ checkpoint_at (database_behind before) table version }
{}

/// Carries a law in its contract, and does nothing: each row of a table of commits that fit one
/// after the other begins at version 1 or later and not after the last version, ends after it
/// begins, and has ended by the last version or is open; and rows begin in order of their ids.
pub fn rows_are_well_formed()
    ensures formed { (commits : List Commit) (table : ℕ) → FitInTurn standard_limits commits
        → AreWellFormed (database_of commits).version (rows_of (database_of commits) table) }
    ensures order { (commits : List Commit) (table : ℕ) → FitInTurn standard_limits commits
        → BeginInOrder 0 (rows_of (database_of commits) table) }
{}

/// Carries a law in its contract, and does nothing: of commits that fit one after the other, the
/// versions and the moments of the stamps rise; each stamp, each floor and the version at each
/// moment is no later than the last version.
pub fn times_are_reached()
    ensures stamps { (commits : List Commit) → FitInTurn standard_limits commits
        → Rise None (database_of commits).stamps }
    ensures reached { (commits : List Commit) → FitInTurn standard_limits commits
        → HaveReachedStamps (database_of commits).version (database_of commits).stamps }
    ensures floors { (commits : List Commit) → FitInTurn standard_limits commits
        → HaveReachedFloors (database_of commits).version (database_of commits).tables }
    ensures moments { (commits : List Commit) (moment : ℤ) → FitInTurn standard_limits commits
        → version_at_moment (database_of commits).version (database_of commits).stamps moment
        ≤ (database_of commits).version }
{}

/// Carries a law in its contract, and does nothing: the rows of a table do not depend on the floors
/// of the database.
pub fn rows_have_no_floor()
    ensures { (db : plain.Database) (table : ℕ) →
        rows_of (without_floors db) table ≡ rows_of db table }
{}

/// Carries a law in its contract, and does nothing: the events behind the place of a version and up
/// to that of a later one turn the set of the rows that stand at the one into that of the other,
/// and each of them changes the set.
pub fn events_lead()
    ensures set { (last : ℕ) (rows : List plain.Row) (from to : ℕ) → AreWellFormed last rows
        → from ≤ to → after_events (standing rows from) (events_between rows from to)
        ≡ standing rows to }
    ensures changes { (last : ℕ) (rows : List plain.Row) (from to : ℕ) → AreWellFormed last rows
        → from ≤ to → ChangesEach (standing rows from) (events_between rows from to) }
{}

/// Carries a law in its contract, and does nothing: commits that fit one after the other, each with
/// its mark where it is due, are a legal list of entries, of these commits.
pub fn paced_entries_are_legal()
    ensures commits { (commits : List Commit) (k : ℕ) → commits_of (paced commits k) ≡ commits }
    ensures legal { (commits : List Commit) (k : ℕ) → FitInTurn standard_limits commits
        → IsTrue (are_legal (paced commits k)) }
{}

/// Carries a law in its contract, and does nothing: the runs of a function of time over two ranges
/// of which the second begins where the first ends, put together, are its runs over both.
pub fn runs_join_at_a_seam()
    ensures { (value : ℤ → Field) (from mid to : ℤ) → from ≤ℤ mid → mid ≤ℤ to
        → seam (runs_of value from mid) (runs_of value mid to) ≡ runs_of value from to }
{}
