//! What a disk in memory did, call by call, so that it can be undone: enough of each to tell what
//! a crash may leave.

/// A call of a disk in memory that may change what a crash leaves.
#[derive(Clone, Copy)]
pub enum Call {
    /// A write: where, how many bytes, and how many of these were over bytes that stood there.
    Wrote(u64, usize, usize),
    /// A failed write, after which a read gives what it gave: where, and how many bytes.
    Tore(u64, usize),
    /// A cut: the length after it, and how many bytes it cut off.
    Cut(u64, usize),
    /// A failed cut, after which a read gives what it gave: the length that it wanted.
    MayCut(u64),
    /// A sync: a crash undoes no call before it.
    Synced,
}
