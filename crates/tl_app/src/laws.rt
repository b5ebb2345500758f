//! What holds of the plans that are scanned, said in the contract of a function that does nothing:
//! the plan of a checked query suits its table.
ghost use Rattle.std.specs.Prelude.{ℕ, ℤ, Option};
ghost use Rattle.tl_types.specs.Plain as plain;
ghost use Rattle.tl_query.specs.TypedFor.{IsTypedFor};
ghost use Rattle.tl_query.specs.declared.ast.AggKind.{AggKind};
ghost use Rattle.tl_query.specs.declared.typed_queries.Typed.TheVariants as typed;
ghost use Rattle.tl_query.specs.declared.typed_queries.TypedPred.{TypedPred};
ghost use Rattle.tl_query.specs.declared.typed_queries.Span.TheVariants as span;
ghost use Rattle.tl_app.specs.Scans.{plan_of, IsValidTimePlanFor};

/// Carries a law in its contract, and does nothing: the plan of a checked query for an aggregate
/// over valid time suits its table.
pub fn a_checked_plan_suits()
    ensures { (db : plain.Database) (table : ℕ) (kind : AggKind) (column by : Option ℕ)
        (pred : TypedPred) (version : ℕ) (from to : ℤ)
        → IsTypedFor db (typed.Agg table kind column by pred (span.Valid version from to))
        → IsValidTimePlanFor db (plan_of table kind column by) }
{}
