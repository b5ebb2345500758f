//! A range of versions in pieces: where it is divided, so that each piece but the first begins at a
//! mark, and the work over the pieces by fork and join.
#![tactic(auto)]

mod dividing;
pub mod laws;
mod ranges;
mod working;

pub use ranges::pieces;
pub use working::{PieceWork, run_pieces};
