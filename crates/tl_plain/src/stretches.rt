//! The maximal runs of an aggregate over the moments of a range: worked out moment by moment, and a
//! run goes on as long as the value stays the same.
ghost use Rattle.std.specs.Prelude.{◌≡◌, ◌<◌, ◌^◌, length, IfOk};
ghost use Rattle.tl_query.specs.Aggregates.{span_start, span_end, runs_in};
ghost use Rattle.tl_plain.specs.Choosing.{lent, there_at};

use crate::counting::value_at;
use crate::rows::Row;
use crate::times::next_change;
use std::alloc::Global;
use tl_query::{AggPlan, Span};
use tl_types::{NoMemory, Run, add_stretch};

/// The first moment of a range.
pub(crate) fn span_start(span: Span) -> i64
    ensures { result ≡ span_start span }
{
    match span {
        Span::System { from, to: _ } => i64::from(from),
        Span::Valid {
            version: _,
            from,
            to: _,
        } => from,
    }
}

/// The moment that ends a range.
pub(crate) fn span_end(span: Span) -> i64
    ensures { result ≡ span_end span }
{
    match span {
        Span::System { from: _, to } => i64::from(to),
        Span::Valid {
            version: _,
            from: _,
            to,
        } => to,
    }
}

/// The runs of an aggregate over the rows that are there at each moment of the range. It looks at
/// the aggregate at the first moment and where a row begins or ends, and nowhere else. The error is
/// out of memory.
pub(crate) fn runs_in(
    alloc: Global,
    plan: AggPlan,
    span: Span,
    rows: &[&Row],
) -> Result<Vec<Run>, NoMemory>
    requires { length rows.now < 2 ^ 32 }
    ensures { IfOk result (λ runs. runs.items ≡
        runs_in plan.kind plan.column span (there_at span (lent rows.now))) }
{
    let end = span_end(span);
    let mut at = span_start(span);
    let mut runs = Vec::new(alloc);
    while at < end {
        let next = next_change(span, rows, at, end);
        let value = value_at(alloc, plan, span, rows, at)?;
        let stretch = Run {
            group: None,
            from: at,
            to: next,
            value,
        };
        add_stretch(&mut runs, stretch)?;
        at = next;
    }
    Ok(runs)
}
