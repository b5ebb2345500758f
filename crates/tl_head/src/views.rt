//! What a seat knows of a door: its ticket or its turn, and the entries that it has seen. No value
//! of it is made.
use tl_types::{Entry, Seq};

/// Whether a seat has a ticket. No value of it is made.
pub enum Stage {
    /// It has none.
    Idle,
    /// It has this ticket, and waits.
    Waits(u64),
    /// It has the turn with this ticket, and a value that stands for this list.
    Served(u64, Seq<Entry>),
}

/// What a seat knows. No value of it is made.
pub struct View {
    /// Whether the seat has a ticket.
    pub stage: Stage,
    /// The entries that it has seen.
    pub seen: Seq<Entry>,
    /// The entries that a seat had seen which it took in, until it compares the two.
    pub told: Seq<Entry>,
    /// Whether it is the writer's.
    pub writes: bool,
}
