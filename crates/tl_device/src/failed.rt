//! The two plain answers of the outside: memory ran out, or the object failed.
use std::alloc::AllocError;

/// Memory ran out. It is the whole error of a call that can fail for nothing else.
pub type NoMemory = AllocError;

/// The outside failed in this call: the object's count of faults rose.
#[derive(Clone, Copy, Debug, PartialEq, Eq)]
pub struct Failed;
