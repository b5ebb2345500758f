//! A row whose end is known when it comes.

/// The value of a row, and the first moment at which it does not stand.
#[derive(Clone, Copy, PartialEq, Eq, PartialOrd, Ord)]
pub(crate) struct Lasting {
    /// Its value.
    pub(crate) value: i64,
    /// The first moment at which it does not stand.
    pub(crate) end: i64,
}
