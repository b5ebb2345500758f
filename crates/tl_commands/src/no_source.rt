//! No source: it stands where none is read, gives nothing and never fails.
use tl_device::{Failed, Source};

/// A source that is at its end from the start, for runs that read none.
#[derive(Drop)]
pub(crate) struct NoSource;

impl Source for NoSource {
    ghost use Rattle.std.specs.Prelude.{None};

    ghost left = { λ _. None };

    ghost faults = { λ _. 0 };

    fn read(&mut self, _into: &mut [u8]) -> Result<usize, Failed> {
        Ok(0)
    }

    fn faults(&self) -> u64 {
        0
    }
}
