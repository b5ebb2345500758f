//! The calls of an engine are steps of the world of tl_core, by what they promise. Each function's
//! contract is a law; calling it does nothing.
ghost use Rattle.std.specs.Prelude.{◌≡◌, ℕ, ◌+◌, IsTrue, List, length, Some, None, Result};
ghost use Rattle.std.specs.declared.option.Option.{Option};
ghost use mathlib.Core.List.{IsPrefix};
ghost use Rattle.atomic_table.specs.Table.{State};
ghost use Rattle.tl_head.specs.declared.views.View.{View};
ghost use Rattle.tl_head.specs.Rule.{DoorState, FitsTable};
ghost use Rattle.tl_types.specs.declared.batches.Batch.{Batch};
ghost use Rattle.tl_types.specs.declared.batches.BatchFault.{BatchFault};
ghost use Rattle.tl_types.specs.declared.commits.Commit.{Commit};
ghost use Rattle.tl_types.specs.declared.commits.Entry.{Entry};
ghost use Rattle.tl_types.specs.declared.limits.Limits.{Limits};
ghost use Rattle.tl_types.specs.Legality.{are_legal, has_table};
ghost use Rattle.tl_core.specs.World.{IsLegal, start_of};
ghost use Rattle.tl_history.specs.declared.faults.CommitFault.{CommitFault};
ghost use Rattle.tl_engine.specs.declared.faults.TendFault.{TendFault};
ghost use Rattle.tl_engine.specs.declared.faults.Tended.{Tended};
ghost use Rattle.tl_engine.specs.Calls.{AreCallsOfTend, Call, HasBase, IsAllowed, IsCallIn, IsCallOf, IsRun, IsRunOfWorld, MarkTakesEffect, TakesEffect, after_call, left_by};
ghost use Rattle.tl_engine.specs.Heads.{HasBegun, HasBuild, HeadState, IsLegalState, ShowsWorld, seen_in, start_state, world_of};
ghost use Rattle.tl_engine.specs.Saying.{CommitSays, becomes};
ghost use Rattle.tl_engine.specs.Tending.{TendSays};

use tl_types::Published;

/// Carries the law in its contract, and does nothing: what a commit promises gives the list over
/// which it is answered, and what a commit and a read promise makes each a call of its pass, which
/// keeps the promise that all calls keep. What tends a table is such a call that reads; or, where
/// a mark is due, one that begins a build and then one that publishes its mark, or only reads.
pub fn every_answer_is_of_a_call()
    ensures base { (meaning : List Entry → Result Commit BatchFault) (first_count : ℕ)
        (old new : List Entry) (before after : ℕ) (answer : Result ℕ CommitFault) →
        CommitSays meaning first_count old new before after answer →
        HasBase meaning first_count old new before after answer }
    ensures commit { (limits : Limits) (author : ℕ) (batch : Batch) (first_count pass : ℕ)
        (old new : List Entry) (before after : ℕ) (answer : Result ℕ CommitFault) →
        CommitSays (becomes limits author batch) first_count old new before after answer →
        (count : ℕ) × (after ≡ before + count) × IsCallOf limits first_count pass old new count }
    ensures read { (limits : Limits) (first_count pass : ℕ) (old new : List Entry) →
        IsPrefix old new → IsCallOf limits first_count pass old new 0 }
    ensures tend { (limits : Limits) (first_count pass table k : ℕ) (old new : List Entry)
        (answer : Result Tended TendFault) → IsTrue (has_table old table) →
        TendSays table k old new answer →
        AreCallsOfTend limits first_count pass table old new answer }
{}

/// Carries the law in its contract, and does nothing: what is written on a head and what its passes
/// have seen and build make a legal world, which begins as worlds do. A call whose base is all that
/// is written, and which keeps its promise, is allowed steps of it, to the world of what is written
/// and seen after the call; a mark is to be that of its pass's build. A call that begins a build
/// leaves its pass with it, and calls of other passes leave it there.
pub fn every_call_is_allowed()
    ensures world { (state : HeadState) → IsLegalState state → IsLegal (world_of state) }
    ensures start { (entries : List Entry) (passes : ℕ) →
        world_of (start_state entries passes) ≡ start_of entries passes }
    ensures begins { (entries : List Entry) (passes : ℕ) → IsTrue (are_legal entries) →
        IsLegalState (start_state entries passes) }
    ensures steps { (limits : Limits) (first_count : ℕ) (state : HeadState) (call : Call) →
        IsLegalState state → IsCallIn limits first_count state call →
        IsAllowed state call (after_call state call) }
    ensures begun { (state : HeadState) (call : Call) (table : ℕ) →
        seen_in state call.pass ≡ Some call.old → call.begins ≡ Some table →
        HasBegun (after_call state call) call.pass table (length call.base) }
    ensures kept { (state : HeadState) (call : Call) (pass table base : ℕ) →
        HasBegun state pass table base → (call.pass ≡ pass → ⊥) →
        HasBegun (after_call state call) pass table base }
{}

/// Carries the law in its contract, and does nothing: a commit under the lock is allowed steps from
/// the world of all that is written then to the world of all that it leaves.
pub fn every_locked_commit_is_allowed()
    ensures { (meaning : List Entry → Result Commit BatchFault) (first_count : ℕ)
        (state : HeadState) (pass : ℕ) (more old new : List Entry)
        (answer : Result ℕ CommitFault) →
        (effect : TakesEffect meaning first_count state.written more old new answer) →
        IsLegalState state → seen_in state pass ≡ Some old → IsTrue (are_legal new) →
        (call : Call) → call ≡ record {
          pass = pass;
          old = old;
          base = state.written;
          begins = None;
          entry = effect.entry;
        } →
        IsAllowed state call (left_by state call more new) }
{}

/// Carries the law in its contract, and does nothing: the mark of a checkpoint under the lock,
/// where its pass builds that checkpoint, is allowed steps from the world of all that is written
/// then to the world of all that it leaves.
pub fn every_locked_mark_is_allowed()
    ensures { (table version read : ℕ) (state : HeadState) (pass : ℕ) (more old new : List Entry)
        (answer : Result Tended TendFault) →
        (effect : MarkTakesEffect table version read state.written more old new answer) →
        IsLegalState state → seen_in state pass ≡ Some old →
        HasBuild state pass table version → IsTrue (are_legal new) →
        (call : Call) → call ≡ record {
          pass = pass;
          old = old;
          base = state.written;
          begins = None;
          entry = effect.entry;
        } →
        IsAllowed state call (left_by state call more new) }
{}

/// Carries the law in its contract, and does nothing: a table that keeps the rule of a door shows a
/// legal world, by its history word, the value at home and what its seats have seen, where what is
/// written is legal.
pub fn every_door_shows_a_world<V: Published>()
    ensures { (d : DoorState) (s : State (Option V) View) →
        FitsTable V.entries d s → IsTrue (are_legal d.written) → ShowsWorld V.entries d s }
{}

/// Carries the law in its contract, and does nothing: calls that keep their promises, and come in
/// the order of what was written when they took effect, are a run of the world. The last list is
/// legal, as `Engine::close` says, and begins with all that is seen.
pub fn every_run_is_of_the_world()
    ensures { (limits : Limits) (first_count : ℕ) (last : List Entry) (state : HeadState)
        (calls : List Call) → IsTrue (are_legal last) → IsLegalState state →
        IsPrefix state.written last → IsRun limits first_count last state calls →
        IsRunOfWorld last state calls }
{}
