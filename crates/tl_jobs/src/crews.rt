//! The crew of a session's statements: what they are read and answered with, from the first job of
//! a session in a phase to its last.

use crate::paces::Pace;
use tl_csv::{AnswerWriter, BlockReader};

/// What the statements of a session are answered with: the pace, the gate that the pieces of the
/// work of a query pass, the reader of the session's blocks, at which of these the job is that is
/// answered, and the writer of answers.
#[derive(Drop)]
pub struct Crew<'a, 'b, G> {
    /// How many workers share the work of a query, and when a mark is due.
    pub pace: &'a Pace,
    /// What the pieces of the work of a query pass.
    pub gate: &'a G,
    /// What reads the blocks of the session's jobs, one for each job, in order.
    pub reader: BlockReader<'b>,
    /// The place of the job among these.
    pub place: usize,
    /// What writes their answers.
    pub writer: AnswerWriter,
}
