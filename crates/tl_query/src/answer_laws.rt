//! What holds of every answer, said in contracts of functions that do nothing.
ghost use Rattle.std.specs.Prelude.{◌≡◌};
ghost use Rattle.tl_types.specs.History.{without_floors};
ghost use Rattle.tl_types.specs.Plain as plain;
ghost use Rattle.tl_query.specs.declared.typed_queries.Typed.{Typed};
ghost use Rattle.tl_query.specs.Answers.{answer_of};

/// Carries a law in its contract, and does nothing: over two databases that differ in the floors of
/// their tables alone, each query has one answer.
pub fn answers_have_no_floor()
    ensures { (db other : plain.Database) (query : Typed) →
        without_floors db ≡ without_floors other → answer_of db query ≡ answer_of other query }
{}
