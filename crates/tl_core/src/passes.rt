//! What a world knows of each pass: how many entries it has seen, and the mark that it builds.

/// The build of a checkpoint.
#[derive(Clone, Copy, Debug, PartialEq, Eq)]
pub struct Build {
    /// The number of the table, from 0.
    pub table: u16,
    /// The length of its base: how many entries the checkpoint stands on.
    pub base: u64,
}

/// How far a pass is: how many entries it has seen, and what it builds.
#[derive(Clone, Copy, Debug, PartialEq, Eq)]
pub struct PassState {
    /// The length of the prefix that it has seen.
    pub seen: u64,
    /// The build that it has begun, if it has one.
    pub build: Option<Build>,
}
