//! Values that are published, as a snapshot is: each stands for a list of entries, tells how many
//! they are, and can be shared without being copied.
ghost use Rattle.std.specs.Prelude.{◌≡◌, List, length, IfOk};
ghost use Rattle.tl_types.specs.declared.commits.Entry.{Entry};

use crate::NoMemory;

/// A value that stands for a list of fewer than 2^32 entries, and that one thread may hand to
/// another.
pub trait Published: Drop + Send {
    // The entries that it stands for.
    ghost entries: { Self → List Entry };

    /// The number of entries that it stands for.
    fn len(&self) -> u32
        ensures { result ≡ length (entries self.now) };

    /// A further value that stands for the same list. The error is `NoMemory`.
    fn share(&self) -> Result<Self, NoMemory>
        ensures { IfOk result (λ v. entries v ≡ entries self.now) };
}
