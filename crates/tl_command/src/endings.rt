//! How a command ended: its status, and the disk that it was given.
use crate::statuses::Status;

/// How a run ended, and the disk that it was given.
#[derive(Drop)]
pub struct Ending<D> {
    /// How it ended, which is the exit status of the program.
    pub status: Status,
    /// The disk that was handed in, as the run left it.
    pub disk: D,
}
