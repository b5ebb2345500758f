//! Standing aggregates: the value of each plan over the rows that stand, kept while commits come. A
//! watch looks at a commit alone, and at the rows that it closes; no other row is read again.
#![tactic(auto)]

mod closing;
mod comparing;
mod follows;
mod gathered;
mod gathering;
mod groups;
pub mod laws;
mod numbers;
mod opening;
mod plans;
mod row_readers;
mod standings;
mod starts;
mod states;
mod sums;
mod value_numbers;
mod watch;
mod watched;

pub use plans::WatchPlan;
pub use standings::Standing;
pub use watch::Watch;
