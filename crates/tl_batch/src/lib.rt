//! What a batch becomes over a store: its one commit, or its first fault. Beside the store stand
//! the ids of the open rows of each key of the tables that a batch has changed, which follow each
//! commit.
#![tactic(auto)]

mod affected;
mod changing;
mod cover;
mod faults;
mod few_by_key;
mod few_ids;
mod few_periods;
mod following;
mod further_ids;
mod id_list;
mod ids;
mod key_flags;
mod key_index;
mod key_set;
mod keys;
mod line_matching;
mod line_places;
mod making;
mod many_periods;
mod open_table;
mod open_tables;
mod opening;
mod parts;
mod period_set;
mod periods_by_key;
mod put_rows;
mod resolving;
mod small_keys;
mod syncing;
mod two_ids;
mod untimed;

pub use keys::Keys;
