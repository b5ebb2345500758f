//! The commands of the program over a script, a block, packets or a plan: `run`, `load`, `sample`,
//! `group`, `transact`, `watch`, `ship` and `follow`. Each opens its journal, and hands the disk
//! back.
//!
//! A run starts an engine over its journal; then for each phase its sessions do their jobs at once,
//! and their replies are written before the next phase is read. It stops at the end of the phases,
//! at a fault of the script, the source or the sink, or where memory runs out; then the engine is
//! closed, and the disk has all commits of which the replies tell.
//!
//! `group`, `transact` and `watch` do the jobs of a whole script one after the other over what the
//! journal and the jobs before them have committed; nothing of that is on the disk yet. Then the
//! sink's room is taken for the replies, all commits are appended as one group, and the replies are
//! written. Where the script has a fault, its source fails or memory runs out, and for `transact`
//! where a statement is refused, the disk keeps the journal that it had. No thread but those of a
//! query is started, and no lock is taken. What is played is taken over by each step and handed on:
//! the group's snapshot and the watch change in place, and a step that memory runs out in hands the
//! disk back. A watch follows one plan, commit by commit, and tells its value behind each reply
//! that is done, spelled as the rows of an answer.
//!
//! `ship` knows of each commit only that it fits those before it, by an outline of the tables; its
//! record goes into its packet as it stands in the journal. The packets are made before the first
//! is written, so that none is where memory runs out. The journal keeps its commits.
//!
//! `follow` reads the source to its end, piece by piece; the commits that its packets make behind
//! the journal's are appended as one group. An input that is too long, that is not packets to its
//! end, or whose packets come to a commit that does not fit, is refused as a whole, with the
//! offset; the journal then keeps the commits that it had.
#![tactic(auto)]

mod alone;
mod following;
mod grouping;
mod no_source;
mod opened;
pub mod plan_laws;
mod plans;
mod playing;
mod running;
mod runs;
mod samples;
mod shipments;
mod shipping;
pub mod shipping_laws;
mod steps;
mod watch_rows;
mod watches;
mod watching;

pub use following::follow;
pub use grouping::{group, transact};
pub use runs::{Paced, load, run_sample, run_script};
pub use shipping::ship;
pub use watching::{WatchText, watch};
