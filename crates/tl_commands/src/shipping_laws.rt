//! What holds of everything that is shipped, said in contracts of functions that do nothing.
ghost use Rattle.std.specs.Prelude.{◌≡◌, ◌+◌, ◌≤◌, ◌++◌, ℕ, List, length, take};
ghost use Rattle.std.specs.List.{AllByRecursion};
ghost use Rattle.tl_types.specs.declared.commits.Commit.{Commit};
ghost use Rattle.tl_types.specs.Legality.{FitInTurn};
ghost use Rattle.tl_types.specs.Limits.{standard_limits};
ghost use Rattle.tl_record.specs.Spelling.{IsCommit};
ghost use Rattle.tl_journal.specs.Image.{ImageStandsFor};
ghost use Rattle.tl_follow.specs.Following.{IsPrefixOf};
ghost use Rattle.tl_follow.specs.Inputs.{FollowsInput};
ghost use Rattle.tl_follow.specs.Packets.{IsPacket};
ghost use Rattle.tl_follow.specs.Shipping.{packets_between, shipment};

/// Carries a law in its contract, and does nothing: the commits of a journal can be spelled, and
/// where they fit one after the other, as those of an opening do, each shipment of them is of
/// packets that can be spelled.
pub fn journals_are_shipped()
    ensures spelled { (commits : List Commit) (image : List ℕ) → ImageStandsFor commits image
        → AllByRecursion IsCommit commits }
    ensures packets { (commits : List Commit) (image : List ℕ) (from to : ℕ)
        → ImageStandsFor commits image → FitInTurn standard_limits commits
        → AllByRecursion IsPacket (packets_between from to commits) }
{}

/// Carries a law in its contract, and does nothing: who follows a shipment of a journal's commits,
/// and began with the first ones of these, ends with first ones of them; and where the shipment
/// begins at the next version or before it, and ends at a version that the journal has, with those
/// up to that version.
pub fn shipments_of_a_journal()
    ensures first { (leader start commits : List Commit) (image : List ℕ) (from to : ℕ)
        → ImageStandsFor leader image → FitInTurn standard_limits leader
        → IsPrefixOf start leader
        → FollowsInput standard_limits start (shipment from to leader) commits
        → IsPrefixOf (start ++ commits) leader }
    ensures up_to { (leader start commits : List Commit) (image : List ℕ) (from to : ℕ)
        → ImageStandsFor leader image → FitInTurn standard_limits leader
        → IsPrefixOf start leader → from ≤ length start + 1 → length start ≤ to
        → to ≤ length leader
        → FollowsInput standard_limits start (shipment from to leader) commits
        → start ++ commits ≡ take to leader }
{}
