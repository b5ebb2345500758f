//! What holds of every answer and the names of its columns, said in the contract of a function that
//! does nothing.
ghost use Rattle.tl_types.specs.declared.commits.Commit.{Commit};
ghost use Rattle.std.specs.Prelude.{List};
ghost use Rattle.tl_types.specs.History.{database_of};
ghost use Rattle.tl_types.specs.Legality.{FitInTurn};
ghost use Rattle.tl_types.specs.Limits.{standard_limits};
ghost use Rattle.tl_query.specs.declared.typed_queries.Typed.{Typed};
ghost use Rattle.tl_query.specs.TypedFor.{IsTypedFor};
ghost use Rattle.tl_asking.specs.Names.{HasNamedRows};

/// Carries a law in its contract, and does nothing: over commits that fit one after the other, each
/// row of the answer to a query that suits them has exactly as many fields as the columns of the
/// query have names.
pub fn rows_have_their_names()
    ensures { (commits : List Commit) (query : Typed) → FitInTurn standard_limits commits
        → IsTypedFor (database_of commits) query → HasNamedRows (database_of commits) query }
{}
