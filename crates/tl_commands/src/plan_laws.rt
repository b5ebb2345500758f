//! What holds of every text that is to name a plan, said in the contract of a function that does
//! nothing.
ghost use Rattle.std.specs.Prelude.{◌≡◌, ◌⊎◌, ℕ, List, length, Ok, Err};
ghost use Rattle.tl_types.specs.declared.commits.Commit.{Commit};
ghost use Rattle.tl_types.specs.History.{database_of};
ghost use Rattle.tl_query.specs.declared.ast.Statement.{Statement};
ghost use Rattle.tl_query.specs.declared.faults.TextFault.{TextFault};
ghost use Rattle.tl_query.specs.Texts.{Spells, IsFault};
ghost use Rattle.tl_jobs.specs.declared.replies.Refusal.{Refusal};
ghost use Rattle.tl_jobs.specs.declared.replies.Refusal.TheVariants as refusal;
ghost use Rattle.tl_watch.specs.declared.plans.WatchPlan.{WatchPlan};
ghost use Rattle.tl_commands.specs.Plans.{IsSpelledPlan, IsTextFault, plan_reading, statement_plan};

/// Carries a law in its contract, and does nothing: the plan that is read of a text is that of the
/// statement that the text spells; a text with a fault is refused for it; and what is refused is
/// refused for the text's fault, or the statement that it spells is.
pub fn plans_are_spelled()
    ensures named { (commits : List Commit) (text : List ℕ) (plan : WatchPlan)
        → plan_reading commits text ≡ Ok plan → IsSpelledPlan commits text (Ok plan) }
    ensures spelled { (commits : List Commit) (text : List ℕ) (s : Statement)
        → Spells text s
        → plan_reading commits text ≡ statement_plan (database_of commits) (length commits) s }
    ensures fault { (commits : List Commit) (text : List ℕ) (f : TextFault) → IsFault text f
        → plan_reading commits text ≡ Err (refusal.TextFault f) }
    ensures refused { (commits : List Commit) (text : List ℕ) (why : Refusal)
        → plan_reading commits text ≡ Err why
        → IsTextFault text why ⊎ IsSpelledPlan commits text (Err why) }
{}
