//! What holds of the rows of a plan and of their runs, said in the contracts of functions that do
//! nothing.
ghost use Rattle.std.specs.Prelude.{◌≡◌, ℕ, IsTrue, Bool, List, map};
ghost use Rattle.tl_types.specs.declared.commits.Entry.{Entry};
ghost use Rattle.tl_types.specs.Entries.{commits_of};
ghost use Rattle.tl_types.specs.Legality.{are_legal};
ghost use Rattle.tl_types.specs.Plain as plain;
ghost use Rattle.tl_types.specs.History.{database_of, rows_of};
ghost use Rattle.tl_query.specs.declared.typed_queries.AggPlan.{AggPlan};
ghost use Rattle.tl_query.specs.declared.typed_queries.TypedPred.{TypedPred};
ghost use Rattle.tl_query.specs.declared.typed_queries.Span.TheVariants as span;
ghost use Rattle.tl_query.specs.Aggregates.{aggregate_runs};
ghost use Rattle.tl_query.specs.Passing.{passes};
ghost use Rattle.tl_running.specs.Standing.{Suits};
ghost use Rattle.tl_agg.specs.Runs.{system_runs};
ghost use Rattle.tl_agg.specs.Scans.{IsSystemTimePlanFor, table_in};

/// Carries a law in its contract, and does nothing: where the rows that are kept are those that
/// pass a predicate, the runs of a plan are those with which its query is answered.
pub fn kept_rows_pass()
    ensures { (db : plain.Database) (plan : AggPlan) (pred : TypedPred) (keep : List Bool)
        (from to : ℕ) → keep ≡ map (passes pred) (rows_of db plan.table)
        → system_runs plan (rows_of db plan.table) keep from to
        ≡ aggregate_runs db plan.table plan.kind plan.column plan.by pred (span.System from to) }
{}

/// Carries a law in its contract, and does nothing: where a plan is one for a table of a legal list
/// of entries, it suits the rows of that table: each has a number in the column that is aggregated,
/// unless they are counted.
pub fn plans_suit()
    ensures { (entries : List Entry) (plan : AggPlan) → IsTrue (are_legal entries)
        → IsSystemTimePlanFor (table_in entries plan.table) plan
        → Suits plan.kind plan.column (rows_of (database_of (commits_of entries)) plan.table) }
{}
