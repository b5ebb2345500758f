//! Sessions: the run of any number of sessions at once over an engine, phase by phase, each with
//! the jobs of its own; and in specs/ the transcript of any number of sessions, which is the play
//! of their jobs where nobody is at once. What a job is and is answered with is passed on from
//! tl_jobs.
#![tactic(auto)]

mod access;
pub mod laws;
mod phases;
mod runs;
mod sessions;
mod statements;

pub use access::AccessParts;
pub use phases::{SharedAccess, run_phase};
pub use runs::run_all;
pub use sessions::Session;
pub use statements::run_statement;
pub use tl_jobs::{AnswerText, JobReading, LentJob, Pace, Refusal, Reply, ReplyBody, put_reply};
