//! The rows of one side that wait for others of their key, as chains in one array of links. The
//! entry at place i has slot i + 1, and the key with number c has the slot behind all entries and c
//! more. The link of a key is the slot of its last row, and the link of an entry that of the row
//! before it; 0 ends a chain.
ghost use Rattle.std.specs.Prelude.{◌≡◌, ◌+◌, ◌<◌, ◌++◌, ◌^◌, length, map, replicate, IfOk, OnOk};
ghost use Rattle.std.specs.List.{filter};
ghost use Rattle.tl_join.specs.Sweep.{pair_at, stands_at};
ghost use Rattle.tl_join.specs.Chains.{AreLinked, AreKept, chain_of, with_front, key_slot};

use crate::entries::{Entry, pair_at, stands_at};
use std::alloc::Global;
use tl_types::{NoMemory, Pair};

/// The links of so many entries and keys, none of which is in a chain. The error is out of memory.
pub(crate) fn empty_links(alloc: Global, rows: usize, codes: u32) -> Result<Vec<usize>, NoMemory>
    requires { rows < 2 ^ 62 }
    ensures { IfOk result (λ links. links.items ≡ replicate (key_slot rows codes) 0) }
{
    Ok(vec![in alloc; 0usize; rows + 1 + codes as usize]?)
}

/// Appends the pairs of a row that begins with the rows of its key's chain that stand then, and
/// takes the others out of the chain. The error is out of memory.
pub(crate) fn match_chain(
    pairs: &mut Vec<Pair>,
    links: &mut [usize],
    rows: &[Entry],
    entry: Entry,
    turned: bool,
) -> Result<(), NoMemory>
    requires linked { AreLinked (length rows.now) links.old }
    requires key { key_slot (length rows.now) entry.code < length links.old }
    ensures pairs { OnOk result (pairs.new.items ≡ pairs.old.items
        ++ map (pair_at turned entry)
        (filter (stands_at entry.begin) (chain_of rows.now links.old entry.code))) }
    ensures kept { OnOk result (AreKept rows.now entry.begin links.old links.new) }
{
    let mut slot = rows.len() + 1 + entry.code as usize;
    'following: while links[slot] != 0 {
        let at = links[slot];
        let other = rows[at - 1];
        if stands_at(entry.begin, other) {
            pairs.push(pair_at(turned, entry, other))?;
            slot = at;
        } else {
            links[slot] = links[at];
        }
    }
    Ok(())
}

/// Puts the entry with a slot in front of its key's chain.
pub(crate) fn put_front(links: &mut [usize], rows: usize, slot: usize, code: u32)
    requires slot { slot < rows + 1 }
    requires key { key_slot rows code < length links.old }
    ensures { links.new ≡ with_front rows slot code links.old }
{
    let key = rows + 1 + code as usize;
    links[slot] = links[key];
    links[key] = slot;
}
