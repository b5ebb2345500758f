//! The timeline of one table: the list of its events, in order of version and within a version the
//! rows that end and then the rows that begin, each by ascending id; and the version map, which
//! leads from a version to the place in the list where its events end. A longer list shares with
//! the older one, which stays as it was.
#![tactic(auto)]

mod event_lists;
pub mod laws;
mod ticked;
mod version_maps;

pub use event_lists::{EventList, PackedEvent};
pub use tl_types::Event;
pub use version_maps::{VersionEnd, VersionMap};
