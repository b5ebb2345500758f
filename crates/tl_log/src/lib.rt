//! What a journal has, as lines of CSV: its commits, the tables that they make, and the rows of a
//! table. Nothing here writes to a disk: the journal's bytes come from a source.
#![tactic(auto)]

mod commits;
mod files;
mod lines;
mod listings;
mod reading;
mod reports;
mod rows;
mod table_rows;
mod tables;
mod top;
mod writing;

pub use commits::log_bytes;
pub use files::FileSource;
pub use listings::{Listing, listing_of};
pub use reading::{ReadFault, read_all};
pub use reports::ListFault;
pub use rows::write_rows;
pub use tables::tables_bytes;
pub use top::{ListStatus, list};
pub use writing::WriteFault;
