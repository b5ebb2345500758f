//! Lines, put behind each other in a list of bytes. What stands there is kept, and only memory that
//! runs out refuses a further one.
ghost use Rattle.std.specs.Prelude.{◌≡◌, ◌++◌, IfOk, OnOk};

use std::alloc::Global;
use tl_types::{Bytes, NoMemory};

// Puts a text behind what is there.
pub(crate) fn put_text(out: &mut Vec<u8>, text: &str) -> Result<(), NoMemory>
    ensures { OnOk result (out.new.items ≡ out.old.items ++ text.now) }
{
    out.extend_from_slice(text.as_bytes())?;
    Ok(())
}

// A list that begins with a text.
pub(crate) fn begun_with(alloc: Global, text: &str) -> Result<Vec<u8>, NoMemory>
    ensures { IfOk result (λ out. out.items ≡ text.now) }
{
    let mut out = Vec::new(alloc);
    put_text(&mut out, text)?;
    Ok(out)
}
