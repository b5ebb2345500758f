//! Items of which an equal value can be made: what a list that shares its parts asks of its items.
//! Whole numbers are copied as one slice, and what is counted by owners gets one owner more.
ghost use Rattle.std.specs.Prelude.{◌≡◌, ◌++◌, IfOk};

use std::alloc::Global;
use tl_types::NoMemory;

/// An item of a `SharedList`: a value of which an equal one can be made.
pub trait Shareable: Drop {
    /// A value equal to this one.
    ///
    /// `alloc` is the memory to take. The error is `NoMemory`.
    fn share(&self, alloc: Global) -> Result<Self, NoMemory>
        ensures { IfOk result (λ v. v ≡ self.now) };

    /// Puts a value equal to each of the items, in their order, behind those of `values`.
    ///
    /// `alloc` is the memory to take. The error is `NoMemory`.
    fn share_onto(alloc: Global, items: &[Self], values: &mut Vec<Self>) -> Result<(), NoMemory>
        ensures { IfOk result (λ _. values.new.items ≡ values.old.items ++ items.now) }
    {
        for item in items {
            values.push(item.share(alloc)?)?;
        }
        Ok(())
    }
}

impl Shareable for u8 {
    fn share(&self, _alloc: Global) -> Result<u8, NoMemory> {
        Ok(*self)
    }

    fn share_onto(_alloc: Global, items: &[u8], values: &mut Vec<u8>) -> Result<(), NoMemory> {
        values.extend_from_slice(items)?;
        Ok(())
    }
}

impl Shareable for u16 {
    fn share(&self, _alloc: Global) -> Result<u16, NoMemory> {
        Ok(*self)
    }

    fn share_onto(_alloc: Global, items: &[u16], values: &mut Vec<u16>) -> Result<(), NoMemory> {
        values.extend_from_slice(items)?;
        Ok(())
    }
}

impl Shareable for u32 {
    fn share(&self, _alloc: Global) -> Result<u32, NoMemory> {
        Ok(*self)
    }

    fn share_onto(_alloc: Global, items: &[u32], values: &mut Vec<u32>) -> Result<(), NoMemory> {
        values.extend_from_slice(items)?;
        Ok(())
    }
}

impl Shareable for u64 {
    fn share(&self, _alloc: Global) -> Result<u64, NoMemory> {
        Ok(*self)
    }

    fn share_onto(_alloc: Global, items: &[u64], values: &mut Vec<u64>) -> Result<(), NoMemory> {
        values.extend_from_slice(items)?;
        Ok(())
    }
}

impl Shareable for i64 {
    fn share(&self, _alloc: Global) -> Result<i64, NoMemory> {
        Ok(*self)
    }

    fn share_onto(_alloc: Global, items: &[i64], values: &mut Vec<i64>) -> Result<(), NoMemory> {
        values.extend_from_slice(items)?;
        Ok(())
    }
}

/// A value equal to each of the items, in their order. The error is `NoMemory`.
pub fn share_all<T: Shareable>(alloc: Global, items: &[T]) -> Result<Vec<T>, NoMemory>
    ensures { IfOk result (λ shared. shared.items ≡ items.now) }
{
    let mut shared = Vec::with_capacity(alloc, items.len())?;
    T::share_onto(alloc, items, &mut shared)?;
    Ok(shared)
}
