//! What holds of the pairs of pieces, said in the contract of a function that does nothing: those
//! of pieces that follow on each other are those of both, and those of the whole range are all.
ghost use Rattle.std.specs.Prelude.{◌≡◌, ℕ, ◌++◌};
ghost use Rattle.tl_types.specs.declared.runs.Piece.{Piece};
ghost use Rattle.tl_types.specs.Plain as plain;
ghost use Rattle.tl_query.specs.declared.typed_queries.JoinPlan.{JoinPlan};
ghost use Rattle.tl_query.specs.declared.typed_queries.Span.TheVariants as span;
ghost use Rattle.tl_query.specs.declared.typed_queries.TypedPred.{TypedPred};
ghost use Rattle.tl_query.specs.Joins.{joined_pairs};
ghost use Rattle.tl_join.specs.Pieces.{pairs_in};

/// Carries a law in its contract, and does nothing: the pairs of two pieces of which the second
/// begins where the first ends, put behind each other, are those of both; and the pairs of the
/// piece that is the whole range are all pairs of the join.
#[tactic(auto, using(crate::proofs::PartLemmas::laws_of_pieces))]
pub fn pieces_follow()
    ensures both { (db : plain.Database) (plan : JoinPlan) (left_pred right_pred : TypedPred)
        (a b : ℕ) (first second both : Piece) → first.from ≡ both.from → first.to ≡ second.from
        → second.to ≡ both.to → pairs_in db plan first left_pred right_pred a b
        ++ pairs_in db plan second left_pred right_pred a b
        ≡ pairs_in db plan both left_pred right_pred a b }
    ensures whole { (db : plain.Database) (plan : JoinPlan) (left_pred right_pred : TypedPred)
        (a b : ℕ) (piece : Piece) → piece.from ≡ a → piece.to ≡ b
        → pairs_in db plan piece left_pred right_pred a b
        ≡ joined_pairs db plan.left left_pred plan.right right_pred plan.left_on plan.right_on
        (span.System a b) }
{}
