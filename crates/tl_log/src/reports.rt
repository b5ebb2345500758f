//! The history whose journal some bytes are, or why they are not listed, with the line that says so.
//! They are refused where they are too few or damaged, or where a commit does not fit those before
//! it.
ghost use Rattle.std.specs.Prelude.{◌≡◌, ◌++◌, ℕ, codes, IfOk, IfErr};
ghost use Rattle.std.specs.String.{string_bytes};
ghost use Rattle.tl_journal.specs.Image.{ImageStandsOnlyFor};
ghost use Rattle.tl_journal.specs.declared.faults.JournalFault.TheVariants as journal;
ghost use Rattle.tl_types.specs.Entries.{commits_of};
ghost use Rattle.tl_types.specs.Legality.{FitInTurn};
ghost use Rattle.tl_types.specs.Limits.{standard_limits};
ghost use Rattle.tl_log.specs.Reading.{refusal_line, table_asked, IsRefusedFor};
ghost use Rattle.tl_log.specs.declared.listings.Listing.{Listing};
ghost use Rattle.tl_log.specs.declared.reports.ListFault.TheVariants as listed;

use crate::listings::Listing;
use std::alloc::Global;
use tl_device::SureDisk;
use tl_history::History;
use tl_journal::{JournalFault, Refused};
use tl_types::{Limits, NoMemory};

/// Why the bytes of a journal are not listed.
#[derive(Clone, Copy)]
pub enum ListFault {
    /// They are `len` bytes, which are too few for a journal.
    NotInitialised {
        /// The number of bytes.
        len: u64,
    },
    /// They are no journal, or one with a commit that does not fit those before it.
    Damaged {
        /// The byte offset where they are damaged, or of the gate before that commit.
        at: u64,
    },
    /// They are a journal, and no table of it has the name whose rows are to be listed.
    UnknownTable,
    /// Memory ran out.
    NoMemory,
}

// The fault of a listing for one of an opening over a disk that never fails.
fn fault_of(fault: JournalFault) -> ListFault
    requires sure { (faults : ℕ) → fault ≡ journal.Device faults → ⊥ }
    requires not_long { (len : ℕ) → fault ≡ journal.AlreadyInitialised len → ⊥ }
    ensures short { (len : ℕ) → result ≡ listed.NotInitialised len
        → fault ≡ journal.NotInitialised len }
    ensures damaged { (at : ℕ) → result ≡ listed.Damaged at → fault ≡ journal.Damaged at }
    ensures known { result ≡ listed.UnknownTable → ⊥ }
{
    match fault {
        JournalFault::NotInitialised { len } => ListFault::NotInitialised { len },
        JournalFault::Damaged { at } => ListFault::Damaged { at },
        JournalFault::NoMemory => ListFault::NoMemory,
        JournalFault::Device { .. } => unreachable!(),
        JournalFault::AlreadyInitialised { .. } => unreachable!(),
    }
}

/// The history whose journal these bytes are. `NotInitialised`: they are fewer than 17. `Damaged`:
/// they are no journal, or one with a commit that does not fit those before it with the program's
/// limits. `NoMemory`: memory ran out.
pub(crate) fn history_of(alloc: Global, image: Vec<u8>) -> Result<History<SureDisk>, ListFault>
    ensures whole { IfOk result (λ h. ImageStandsOnlyFor (commits_of h.entries) image.items) }
    ensures fitting { IfOk result (λ h. FitInTurn standard_limits (commits_of h.entries)) }
    ensures refused { IfErr result (λ e. (listing : Listing) →
        IsRefusedFor listing image.items e) }
{
    let disk = SureDisk::new(alloc, image);
    match History::open(alloc, disk, &Limits::standard(), 0) {
        Ok(history) => Ok(history),
        Err(Refused { fault, .. }) => Err(fault_of(fault)),
    }
}

// The name of the table whose rows are to be listed, empty where none are.
fn table_asked(listing: &Listing) -> &str
    ensures { result.now ≡ table_asked listing.now }
{
    match listing {
        Listing::Commits => "",
        Listing::Tables => "",
        Listing::Rows { table } => table.as_str(),
    }
}

// The line that says that no table has the name.
fn unknown_line(alloc: Global, table: &str) -> Result<String, NoMemory>
    ensures { IfOk result (λ text. string_bytes text
        ≡ codes "! rows UnknownTable " ++ (table.now ++ codes "\n")) }
{
    format!(in alloc; "! rows UnknownTable {table}\n")
}

/// The line that says why bytes are not listed; it is empty where memory ran out. The error is
/// `NoMemory`.
pub(crate) fn refusal_line(
    alloc: Global,
    listing: &Listing,
    fault: &ListFault,
) -> Result<String, NoMemory>
    ensures { IfOk result (λ text. string_bytes text ≡ refusal_line listing.now fault.now) }
{
    match fault {
        ListFault::NotInitialised { len } => format!(in alloc; "! journal NotInitialised {len}\n"),
        ListFault::Damaged { at } => format!(in alloc; "! journal Damaged {at}\n"),
        ListFault::UnknownTable => unknown_line(alloc, table_asked(listing)),
        ListFault::NoMemory => Ok(String::new(alloc)),
    }
}
