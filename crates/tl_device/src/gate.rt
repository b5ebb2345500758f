//! Where statements and pieces of work pass before they start. A gate waits for nobody; a test may
//! look at who passes.

/// What is about to start.
#[derive(Clone, Copy)]
pub enum Place {
    /// A statement of the session with this number, from 0.
    Statement(u32),
    /// The range piece with this number, from 0.
    Piece(u32),
}

/// A gate that is called at the start of each statement and of each range piece, from any thread.
pub trait Gate: Sync {
    /// Returns after a bounded number of turns, and waits for nobody.
    fn pass(&self, place: Place);
}

/// A gate that lets all pass at once.
#[derive(Clone, Copy)]
pub struct OpenGate;

impl Gate for OpenGate {
    fn pass(&self, _place: Place) {}
}
