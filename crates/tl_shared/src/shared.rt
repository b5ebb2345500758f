//! A value with any number of owners. A further owner takes no copy, and who takes the value over
//! gets the value itself where it was the only owner, and else an equal one.
ghost use Rattle.std.specs.Prelude.{◌≡◌, IfOk};

use crate::shareable::Shareable;
use std::alloc::Global;
use std::marker::Model;
use std::sync::Arc;
use tl_types::NoMemory;

/// A value of which further owners take no copy. Contracts see it as the value.
#[derive(Drop)]
pub struct Shared<T> {
    value: Arc<T>,
}

impl<T> Model for Shared<T> {
    ghost use Rattle.std.specs.Arc.{arc_value};

    ghost Value = { T };

    ghost view = { λ s. arc_value s.value };
}

impl<T: Drop> Shared<T> {
    /// The value, for sharing. The error is `NoMemory`.
    pub fn new(alloc: Global, value: T) -> Result<Shared<T>, NoMemory>
        ensures { IfOk result (λ shared. shared ≡ value) }
    {
        Ok(Shared {
            value: Arc::new(alloc, value)?,
        })
    }

    /// The value, lent.
    pub fn get(&self) -> &T
        ensures { result.now ≡ self.now }
    {
        &self.value
    }
}

impl<T: Shareable> Shared<T> {
    /// The value, taken over where this is its only owner, and else an equal one. `alloc` is the
    /// memory to take. The error is `NoMemory`.
    pub fn take(self, alloc: Global) -> Result<T, NoMemory>
        ensures { IfOk result (λ value. value ≡ self) }
    {
        match Arc::try_unwrap(self.value) {
            Ok(value) => Ok(value),
            Err(shared) => shared.share(alloc),
        }
    }
}

impl<T: Drop> Shareable for Shared<T> {
    fn share(&self, _alloc: Global) -> Result<Shared<T>, NoMemory> {
        Ok(Shared {
            value: Arc::try_clone(&self.value)?,
        })
    }
}
