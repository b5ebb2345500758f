//! A head: one published value, which many read while one writer publishes the next; and the door
//! by which threads take the value in turns.
//!
//! The value stands for a list of entries. The writer's pass has written a list, and each publish
//! adds one entry to it. A reader's pass has seen a list. A read gives a value that stands for what
//! the pass has then seen, and what it had seen before is a prefix of that. Of what two passes have
//! seen one is a prefix of the other.
//!
//! A door has three words and a slot. A seat draws a number from the first word, `ticket`, and
//! waits until the second, `serving`, is that number. It then has the turn: it takes the value out
//! of the slot, lays it back, and raises `serving`. The third word, `history`, counts the entries
//! for which the value stands. Each seat has seen a prefix of these, and one seat, the writer's,
//! adds to them.
#![tactic(auto)]

mod door;
mod head;
mod held;
mod passes;
mod plays;
mod seats;
mod steps;
mod views;

pub use head::{Head, NewHead};
pub use passes::{Pass, WriterPass};
pub use views::{Stage, View};
