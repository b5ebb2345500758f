//! What holds of every follower, said in contracts of functions that do nothing.
ghost use Rattle.std.specs.Prelude.{◌≡◌, ◌+◌, ◌<◌, ◌≤◌, ◌++◌, ℕ, List, [], length, take, None, Some, slice_get};
ghost use Rattle.std.specs.List.{AllByRecursion};
ghost use Rattle.tl_types.specs.declared.answers.Field.{Field};
ghost use Rattle.tl_types.specs.declared.commits.Commit.{Commit};
ghost use Rattle.tl_types.specs.declared.commits.Entry.{Entry};
ghost use Rattle.tl_types.specs.declared.limits.Limits.{Limits};
ghost use Rattle.tl_types.specs.Entries.{commits_of};
ghost use Rattle.tl_types.specs.History.{database_of, database_at};
ghost use Rattle.tl_types.specs.Legality.{FitInTurn};
ghost use Rattle.tl_types.specs.Limits.{standard_limits};
ghost use Rattle.tl_query.specs.declared.typed_queries.Typed.{Typed};
ghost use Rattle.tl_query.specs.Answers.{answer_of};
ghost use Rattle.tl_record.specs.Spelling.{IsCommit};
ghost use Rattle.tl_follow.specs.declared.packets.Packet.{Packet};
ghost use Rattle.tl_follow.specs.Following.{Following, IsFollowing, IsPrefixOf, commits_in, next_held, next_of, followed};
ghost use Rattle.tl_follow.specs.Calls.{Call, follower_of, after_calls, packets_of};
ghost use Rattle.tl_follow.specs.Leading.{AreFrom, IsLed};
ghost use Rattle.tl_follow.specs.Packets.{packet_spelling, IsPacket};
ghost use Rattle.tl_follow.specs.declared.faults.PacketFault.{PacketFault};
ghost use Rattle.tl_follow.specs.declared.faults.PacketFault.TheVariants as fault;
ghost use Rattle.tl_follow.specs.Inputs.{FollowsInput, IsInput, IsInputFault, input_fault, input_limit};
ghost use Rattle.tl_follow.specs.Shipping.{packet_of, packets_between, shipment};

/// Carries a law in its contract, and does nothing: what packets make of commits ends, since no
/// packet leads further from there.
pub fn packets_end()
    ensures { (limits : Limits) (packets : List Packet) (start : List Commit)
        → next_of limits packets (followed limits start packets) ≡ None }
{}

/// Carries a law in its contract, and does nothing: after any calls, with any packets lost,
/// repeated or out of order among those that were taken, the follower is one that follows the
/// packets taken, and once no packet of the next version is held its commits are what the packets
/// make of the first ones.
pub fn after_any_calls()
    ensures follows { (limits : Limits) (start : List Entry) (calls : List Call)
        → IsFollowing start (packets_of calls) (after_calls (follower_of limits start) calls) }
    ensures end { (limits : Limits) (start : List Entry) (calls : List Call)
        → next_held (after_calls (follower_of limits start) calls) ≡ None
        → commits_in (after_calls (follower_of limits start) calls)
        ≡ followed limits (commits_of start) (packets_of calls) }
{}

/// Carries a law in its contract, and does nothing: where the leader's commits fit one after the
/// other by the follower's limits, the follower began with the first ones of them, and the packets
/// are commits of the leader's with their versions, the packets lead along the leader's commits and
/// are never stuck, and at each moment the follower's commits are the first ones of the leader's.
pub fn packets_of_a_leader()
    ensures led { (limits : Limits) (leader start : List Commit) (packets : List Packet)
        → AreFrom limits leader start packets → IsLed limits leader start packets }
    ensures moment { (leader : List Commit) (start : List Entry) (packets : List Packet)
        (f : Following) → AreFrom f.limits leader (commits_of start) packets
        → IsFollowing start packets f → IsPrefixOf (commits_in f) leader }
{}

/// Carries a law in its contract, and does nothing: where the leader's commits fit one after the
/// other by the follower's limits, the follower began with the first ones of them, and the packets
/// are commits of the leader's with their versions, the follower's tables are at each moment the
/// leader's at the version that it reached, and so what answers a query over its tables answers it
/// over the leader's at that version.
pub fn answers_of_a_leader()
    ensures tables { (leader : List Commit) (start : List Entry) (packets : List Packet)
        (f : Following) → AreFrom f.limits leader (commits_of start) packets
        → IsFollowing start packets f
        → database_of (commits_in f) ≡ database_at leader (length (commits_in f)) }
    ensures answers { (leader : List Commit) (start : List Entry) (packets : List Packet)
        (f : Following) (query : Typed) (rows : List (List Field))
        → AreFrom f.limits leader (commits_of start) packets → IsFollowing start packets f
        → rows ≡ answer_of (database_of (commits_in f)) query
        → rows ≡ answer_of (database_at leader (length (commits_in f))) query }
{}

/// Carries a law in its contract, and does nothing: no packet's bytes begin another's, and bytes
/// are packets, and what begins with none, in one way.
pub fn inputs_are_read_once()
    ensures packet { (p q : Packet) (r s : List ℕ) → IsPacket p → IsPacket q
        → packet_spelling p ++ r ≡ packet_spelling q ++ s → (p ≡ q) × (r ≡ s) }
    ensures input { (bytes : List ℕ) (ps qs : List Packet) (r s : List ℕ) → IsInput bytes ps r
        → IsInput bytes qs s → (ps ≡ qs) × (r ≡ s) }
{}

/// Carries a law in its contract, and does nothing: what is shipped of a history begins with
/// nothing, has one packet more with each version from the first one on, and no more behind the
/// last commit.
pub fn shipments_grow()
    ensures none { (commits : List Commit) (from to : ℕ) → to < from
        → shipment from to commits ≡ [] }
    ensures more { (commits : List Commit) (c : Commit) (from to : ℕ) → from ≤ to + 1
        → slice_get commits to ≡ Some c
        → shipment from (to + 1) commits
        ≡ shipment from to commits ++ packet_spelling (packet_of (to + 1) c) }
    ensures end { (commits : List Commit) (from to : ℕ) → length commits ≤ to
        → shipment from to commits ≡ shipment from (length commits) commits }
{}

/// Carries a law in its contract, and does nothing: commits that fit one after the other, and can
/// be spelled, are shipped as packets that can be spelled; what is shipped is an input of just
/// these; and where the follower begins with the first ones of the leader's commits, which fit by
/// its limits, that input has no fault, if it is no longer than one may be.
pub fn shipments_are_inputs()
    ensures packets { (commits : List Commit) (from to : ℕ)
        → FitInTurn standard_limits commits → AllByRecursion IsCommit commits
        → AllByRecursion IsPacket (packets_between from to commits) }
    ensures input { (commits : List Commit) (from to : ℕ)
        → AllByRecursion IsPacket (packets_between from to commits)
        → IsInput (shipment from to commits) (packets_between from to commits) [] }
    ensures whole { (limits : Limits) (leader start : List Commit) (from to : ℕ)
        → FitInTurn limits leader → IsPrefixOf start leader
        → length (shipment from to leader) ≤ input_limit
        → input_fault limits start (shipment from to leader) (packets_between from to leader) []
        ≡ None }
{}

/// Carries a law in its contract, and does nothing: where the leader's commits fit one after the
/// other by the follower's limits, and the follower begins with the first ones of them, each
/// shipment of them has the leader's commits with their versions, and so have several together.
/// One that begins at the follower's next version or before it, and ends at a version that the
/// leader has, leads the follower to just that version: who follows that input ends there. And
/// whatever is shipped, who follows it ends with first commits of the leader's.
pub fn shipments_of_a_leader()
    ensures come { (limits : Limits) (leader start : List Commit) (from to : ℕ)
        → FitInTurn limits leader → IsPrefixOf start leader
        → AreFrom limits leader start (packets_between from to leader) }
    ensures several { (limits : Limits) (leader start : List Commit) (packets more : List Packet)
        → AreFrom limits leader start packets → AreFrom limits leader start more
        → AreFrom limits leader start (packets ++ more) }
    ensures leads { (limits : Limits) (leader start : List Commit) (from to : ℕ)
        → FitInTurn limits leader → IsPrefixOf start leader → from ≤ length start + 1
        → length start ≤ to → to ≤ length leader
        → followed limits start (packets_between from to leader) ≡ take to leader }
    ensures copies { (limits : Limits) (leader start commits : List Commit) (from to : ℕ)
        → AllByRecursion IsPacket (packets_between from to leader) → FitInTurn limits leader
        → IsPrefixOf start leader → from ≤ length start + 1 → length start ≤ to
        → to ≤ length leader → FollowsInput limits start (shipment from to leader) commits
        → start ++ commits ≡ take to leader }
    ensures first { (limits : Limits) (leader start commits : List Commit) (from to : ℕ)
        → AllByRecursion IsPacket (packets_between from to leader) → FitInTurn limits leader
        → IsPrefixOf start leader → FollowsInput limits start (shipment from to leader) commits
        → IsPrefixOf (start ++ commits) leader }
{}

/// Carries a law in its contract, and does nothing: where the leader's commits fit one after the
/// other by the follower's limits, the follower begins with the first ones of them, and all those
/// behind them are shipped, what is shipped leads the follower to all of the leader's commits; so
/// who follows that input ends with these. And whatever is shipped, no byte of it is named as a
/// fault, if it is no longer than an input may be.
pub fn shipments_lead()
    ensures leads { (limits : Limits) (leader start : List Commit) (from to : ℕ)
        → FitInTurn limits leader → IsPrefixOf start leader → from ≤ length start + 1
        → length leader ≤ to
        → followed limits start (packets_between from to leader) ≡ leader }
    ensures copies { (limits : Limits) (leader start commits : List Commit) (from to : ℕ)
        → AllByRecursion IsPacket (packets_between from to leader) → FitInTurn limits leader
        → IsPrefixOf start leader → from ≤ length start + 1 → length leader ≤ to
        → FollowsInput limits start (shipment from to leader) commits
        → start ++ commits ≡ leader }
    ensures sound { (limits : Limits) (leader start : List Commit) (from to : ℕ)
        (found : PacketFault) → AllByRecursion IsPacket (packets_between from to leader)
        → FitInTurn limits leader → IsPrefixOf start leader
        → length (shipment from to leader) ≤ input_limit
        → IsInputFault limits start (shipment from to leader) found
        → found ≡ fault.NoMemory }
{}
