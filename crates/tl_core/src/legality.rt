//! Which lists of entries are legal: commits that fit in turn, marks of versions that are there,
//! once each, and nothing behind a break.
ghost use Rattle.std.specs.Prelude.{◌≡◌, IfOk};
ghost use Rattle.tl_types.specs.Entries.{commits_of, has_break};
ghost use Rattle.tl_types.specs.Legality.{are_legal, may_follow};

use crate::entries::{followed_by, has_mark, takes_commit};
use std::alloc::Global;
use tl_store::Store;
use tl_types::{Entry, NoMemory};

/// Whether each of the entries may stand behind those before it: nothing follows a break; a commit,
/// that of a break too, fits the commits before it; a mark names a table and a version that are
/// there before it, and no mark before it names both. The error is `NoMemory`.
pub fn is_legal(alloc: Global, entries: &[Entry]) -> Result<bool, NoMemory>
    ensures { IfOk result (λ legal. legal ≡ are_legal entries.now) }
{
    let mut store = Store::empty(alloc);
    let mut broken = false;
    for (at, entry) in entries.iter().enumerate() {
        let (before, _) = entries.split_at(at);
        if !may_follow(before, &store, broken, entry) {
            return Ok(false);
        }
        store = followed_by(alloc, store, entry)?;
        broken = entry.is_break();
    }
    Ok(true)
}

// Whether the entry may stand behind those before it, whose commits the store has, and among which
// the flag says whether there is a break.
fn may_follow(before: &[Entry], store: &Store, broken: bool, entry: &Entry) -> bool
    requires commits { store.now ≡ commits_of before.now }
    requires flag { broken ≡ has_break before.now }
    ensures { result ≡ may_follow before.now entry.now }
{
    match entry {
        Entry::Commit(commit) => takes_commit(store, broken, commit),
        Entry::Mark { table, version } => {
            !broken
                && *table < store.tables()
                && *version <= store.versions()
                && !has_mark(before, *table, *version)
        }
        Entry::Break { commit } => takes_commit(store, broken, commit),
    }
}
