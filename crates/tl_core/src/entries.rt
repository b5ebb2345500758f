//! Lists of entries: their commits, as a store and as a number, and their marks. What does not fit
//! the entries before it is no entry of a legal list.
ghost use Rattle.std.specs.Prelude.{◌≡◌, ◌≤◌, ◌++◌, ◌∷◌, [], IsTrue, IfOk, drop, length};
ghost use Rattle.tl_types.specs.Entries.{commits_of};
ghost use Rattle.tl_types.specs.Legality.{are_legal, is_mark, has_mark};
ghost use Rattle.tl_core.specs.Kept.{fits_store, takes};

use std::alloc::Global;
use tl_store::Store;
use tl_types::{Commit, Entry, Limits, NoMemory};

// The store of the commits among the entries.
#[tactic(auto, using(tl_types::proofs::EntryLemmas::commits_more, crate::proofs::KeptLemmas::fits_at))]
pub(crate) fn store_of(alloc: Global, entries: &[Entry]) -> Result<Store, NoMemory>
    requires { IsTrue (are_legal entries.now) }
    ensures { IfOk result (λ store. store ≡ commits_of entries.now) }
{
    let mut store = Store::empty(alloc);
    for entry in entries {
        store = followed_by(alloc, store, entry)?;
    }
    Ok(store)
}

// The store once it has followed the entry.
pub(crate) fn followed_by(alloc: Global, store: Store, entry: &Entry) -> Result<Store, NoMemory>
    requires { IsTrue (fits_store store entry.now) }
    ensures { IfOk result (λ next. next ≡ store ++ commits_of (entry.now ∷ [])) }
{
    match entry {
        Entry::Commit(commit) => store.apply(alloc, commit),
        _ => Ok(store),
    }
}

// Whether a commit may be appended behind the commits of the store, among which the flag says
// whether there is a break.
pub(crate) fn takes_commit(store: &Store, broken: bool, commit: &Commit) -> bool
    ensures { result ≡ takes broken store.now commit.now }
{
    !broken && store.fits(commit, &Limits::standard())
}

// The number of commits behind the first entries, so many.
pub(crate) fn count_behind(entries: &[Entry], first: usize) -> usize
    requires { first ≤ length entries.now }
    ensures { result ≡ length (commits_of (drop first entries.now)) }
{
    let (_, behind) = entries.split_at(first);
    count_commits(behind)
}

// The number of commits among the entries.
#[tactic(auto, using(tl_types::proofs::EntryLemmas::count_more))]
fn count_commits(entries: &[Entry]) -> usize
    ensures { result ≡ length (commits_of entries.now) }
{
    let mut count = 0;
    for entry in entries {
        count += count_commit(entry);
    }
    count
}

// 1 for a commit, 0 for another entry.
fn count_commit(entry: &Entry) -> usize
    ensures number { result ≡ length (commits_of (entry.now ∷ [])) }
    ensures one { result ≤ 1 }
{
    match entry {
        Entry::Commit(_) => 1,
        _ => 0,
    }
}

// Whether the entry is a mark of this table at this version.
fn is_mark(entry: &Entry, table: u16, version: u32) -> bool
    ensures { result ≡ is_mark table version entry.now }
{
    match entry {
        Entry::Mark {
            table: named,
            version: at,
        } => *named == table && *at == version,
        _ => false,
    }
}

// Whether a mark of this table at this version is among the entries.
pub(crate) fn has_mark(entries: &[Entry], table: u16, version: u32) -> bool
    ensures { result ≡ has_mark entries.now table version }
{
    entries.iter().any(|entry| is_mark(entry, table, version))
}
