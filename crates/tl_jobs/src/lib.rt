//! Jobs over a snapshot: what the statements of sessions are and what they are answered with, how
//! replies are spelled, and in specs/ the play: jobs done one after the other. It keeps no history
//! and makes no commit: a job that is a batch is read, and what it becomes is settled elsewhere.
//! No engine, no head and no lock is known here.
#![tactic(auto)]

mod crews;
mod jobs;
pub mod laws;
mod paces;
mod readings;
mod replies;

pub use crews::Crew;
pub use jobs::LentJob;
pub use paces::Pace;
pub use readings::{JobReading, check_refusal, read_job, text_refusal};
pub use replies::{AnswerText, Refusal, Reply, ReplyBody, put_reply, refusal_words};
