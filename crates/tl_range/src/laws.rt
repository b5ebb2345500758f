//! How many versions with marks are inside a range, said in the contract of a function that does
//! nothing.
ghost use Rattle.std.specs.Prelude.{◌≡◌, ℕ, List, length};
ghost use Rattle.std.specs.List.{filter};
ghost use Rattle.tl_types.specs.Checkpoints.{Checkpoint};
ghost use Rattle.tl_ckpt.specs.Marks.{ClimbStrictly};
ghost use Rattle.tl_range.specs.Dividing.{inside, is_inside};

/// Carries a law in its contract, and does nothing: where no two marks of a table have one version,
/// as many versions with marks are inside a range as there are marks inside it.
pub fn marks_inside_count()
    ensures { (from to : ℕ) (marks : List Checkpoint) → ClimbStrictly marks
        → length (inside from to marks) ≡ length (filter (is_inside from to) marks) }
{}
