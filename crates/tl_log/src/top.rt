//! The call that lists: it reads a source to its end, opens the journal in memory, and writes the
//! listing, or the line that says why there is none. It writes to no disk.
ghost use Rattle.std.specs.Prelude.{◌≡◌, ◌<◌, ℕ, List, Some, length, slice_get};
ghost use Rattle.tl_types.specs.History.{database_of};
ghost use Rattle.tl_types.specs.Legality.{FitInTurn};
ghost use Rattle.tl_types.specs.Limits.{standard_limits};
ghost use Rattle.tl_types.specs.Plain as plain;
ghost use Rattle.tl_journal.specs.Image.{ImageStandsOnlyFor};
ghost use Rattle.tl_device.specs.Known.{Rose};
ghost use Rattle.tl_log.specs.Ending.{fault_status, EndsListing, WritesAll, WritesPieces};
ghost use Rattle.tl_log.specs.Listing.{log_text, tables_text};
ghost use Rattle.tl_log.specs.Reading.{refusal_line};
ghost use Rattle.tl_log.specs.Rows.{rows_text};
ghost use Rattle.tl_log.specs.declared.top.ListStatus.TheVariants as status;

use crate::commits::log_bytes;
use crate::listings::Listing;
use crate::reading::{ReadFault, read_all};
use crate::reports::{ListFault, history_of, refusal_line};
use crate::rows::write_rows;
use crate::tables::tables_bytes;
use crate::writing::{WriteFault, write_bytes};
use std::alloc::Global;
use tl_device::{Sink, Source};
use tl_store::Store;

/// How a listing ends. Its number is the program's exit status, the same as of a run that ends so.
#[derive(Clone, Copy)]
pub enum ListStatus {
    /// The listing is written.
    Done,
    /// Memory ran out. Nothing is written, or of rows some first part of their listing.
    NoMemory,
    /// The source failed, and nothing is written. `faults` is its count of faults, which rose in
    /// this call.
    SourceFault {
        /// Its count of faults.
        faults: u64,
    },
    /// The sink failed behind some first part of what was to be written. `faults` is its count of
    /// faults, which rose in this call.
    SinkFault {
        /// Its count of faults.
        faults: u64,
    },
    /// The source's bytes are not listed, for this fault, and the line that says so is written.
    Refused(ListFault),
}

impl ListStatus {
    ghost use Rattle.tl_log.specs.Ending.{exit_status};

    /// The program's exit status: 0, 1, 3 or 4 in this order, 7 where the bytes are too few for a
    /// journal, 9 where they are damaged, and 14 where no table has the name.
    pub fn number(&self) -> u8
        ensures { result ≡ exit_status self.now }
    {
        match self {
            ListStatus::Done => 0,
            ListStatus::NoMemory => 1,
            ListStatus::SourceFault { .. } => 3,
            ListStatus::SinkFault { .. } => 4,
            ListStatus::Refused(fault) => fault_number(fault),
        }
    }
}

fn fault_number(fault: &ListFault) -> u8
    ensures { result ≡ fault_status fault.now }
{
    match fault {
        ListFault::NotInitialised { .. } => 7,
        ListFault::Damaged { .. } => 9,
        ListFault::UnknownTable => 14,
        ListFault::NoMemory => 1,
    }
}

// Writes a text, or nothing where memory ran out, and answers how the call ends that was to end so.
fn write_text<K: Sink>(sink: &mut K, text: &[u8], wanted: ListStatus) -> ListStatus
    ensures all { WritesAll text.now wanted (K.written sink.old) (K.written sink.new)
        (K.faults sink.old) (K.faults sink.new) result }
    ensures wanted { (faults : ℕ) → result ≡ status.SourceFault faults → result ≡ wanted }
{
    match write_bytes(sink, text) {
        Ok(()) => wanted,
        Err(WriteFault::Sink { faults }) => ListStatus::SinkFault { faults },
        Err(WriteFault::NoMemory) => ListStatus::NoMemory,
    }
}

// Writes the line that says why a journal is not listed.
fn refuse<K: Sink>(alloc: Global, listing: &Listing, fault: ListFault, sink: &mut K) -> ListStatus
    ensures all { WritesAll (refusal_line listing.now fault) (status.Refused fault)
        (K.written sink.old) (K.written sink.new) (K.faults sink.old) (K.faults sink.new)
        result }
    ensures no_source { (faults : ℕ) → result ≡ status.SourceFault faults → ⊥ }
{
    match refusal_line(alloc, listing, &fault) {
        Ok(line) => write_text(sink, line.as_bytes(), ListStatus::Refused(fault)),
        Err(_) => ListStatus::NoMemory,
    }
}

// Writes the listing of commits.
fn list_commits<K: Sink>(alloc: Global, store: &Store, sink: &mut K) -> ListStatus
    ensures all { WritesAll (log_text store.now) status.Done (K.written sink.old)
        (K.written sink.new) (K.faults sink.old) (K.faults sink.new) result }
    ensures no_source { (faults : ℕ) → result ≡ status.SourceFault faults → ⊥ }
{
    match log_bytes(alloc, store) {
        Ok(bytes) => write_text(sink, bytes.as_slice(), ListStatus::Done),
        Err(_) => ListStatus::NoMemory,
    }
}

// Writes the listing of tables.
fn list_tables<K: Sink>(alloc: Global, store: &Store, sink: &mut K) -> ListStatus
    ensures all { WritesAll (tables_text store.now) status.Done (K.written sink.old)
        (K.written sink.new) (K.faults sink.old) (K.faults sink.new) result }
    ensures no_source { (faults : ℕ) → result ≡ status.SourceFault faults → ⊥ }
{
    match tables_bytes(alloc, store) {
        Ok(bytes) => write_text(sink, bytes.as_slice(), ListStatus::Done),
        Err(_) => ListStatus::NoMemory,
    }
}

// Writes the listing of the rows of a table, by its number.
fn list_found<K: Sink>(alloc: Global, store: &Store, table: u16, sink: &mut K) -> ListStatus
    requires { table < length (database_of store.now).tables }
    ensures all { (t : plain.Table) → slice_get (database_of store.now).tables table ≡ Some t →
        WritesPieces (rows_text t) (K.written sink.old) (K.written sink.new)
        (K.faults sink.old) (K.faults sink.new) result }
    ensures no_source { (faults : ℕ) → result ≡ status.SourceFault faults → ⊥ }
{
    match write_rows(alloc, store, table, sink) {
        Ok(()) => ListStatus::Done,
        Err(WriteFault::Sink { faults }) => ListStatus::SinkFault { faults },
        Err(WriteFault::NoMemory) => ListStatus::NoMemory,
    }
}

// Writes the listing over the commits of a store, or the line that says that no table of theirs has
// the name whose rows are to be listed.
fn list_store<K: Sink>(alloc: Global, listing: &Listing, store: &Store, sink: &mut K) -> ListStatus
    ensures ends { (image : List ℕ) → ImageStandsOnlyFor store.now image
        → FitInTurn standard_limits store.now
        → EndsListing listing.now (Some image) (K.written sink.old) (K.written sink.new)
        (K.faults sink.old) (K.faults sink.new) result }
    ensures no_source { (faults : ℕ) → result ≡ status.SourceFault faults → ⊥ }
{
    match listing {
        Listing::Commits => list_commits(alloc, store, sink),
        Listing::Tables => list_tables(alloc, store, sink),
        Listing::Rows { table } => match store.find(table.as_str()) {
            Some(number) => list_found(alloc, store, number, sink),
            None => refuse(alloc, listing, ListFault::UnknownTable, sink),
        },
    }
}

// Writes the listing of a journal's bytes, or the line that says why they are not listed.
fn list_bytes<K: Sink>(alloc: Global, listing: &Listing, image: Vec<u8>, sink: &mut K) -> ListStatus
    ensures ends { EndsListing listing.now (Some image.items) (K.written sink.old)
        (K.written sink.new) (K.faults sink.old) (K.faults sink.new) result }
    ensures no_source { (faults : ℕ) → result ≡ status.SourceFault faults → ⊥ }
{
    match history_of(alloc, image) {
        Ok(history) => list_store(alloc, listing, history.store(), sink),
        Err(ListFault::NoMemory) => ListStatus::NoMemory,
        Err(fault) => refuse(alloc, listing, fault, sink),
    }
}

/// Lists the journal whose bytes the source has left. The source is read to its end, the journal
/// is opened in memory, and the listing is written to the sink; nothing else is written anywhere.
/// Rows are written in pieces, and the other listings at once.
///
/// The listing is CSV. Of commits: a line of names, and a line a commit with its version, the
/// number of its session, its table, what it does (`create`, `change`, `moment` or `forget`), how
/// many rows it closes and opens, its moment and its floor. Of tables: a line of names, and a line
/// a column with its table, its name, what it holds, whether it is the key, and of its table how
/// many rows are current, how many it has, its last version, whether its rows have a valid period,
/// and its floor. Of the rows of a table: a line of names, and a line a row in order of id, with its
/// id, the version that opened it, the version that ended it, which is empty while the row stands,
/// the ends of its valid period where the table's rows have one, and its cells; versions below the
/// floor are no exception.
///
/// `Refused`: the bytes are too few for a journal, or damaged, or no table has the name whose rows
/// are to be listed; the line that says so is written.
/// `SourceFault`: only where the source's count of faults rose in this call; it is that count, and
/// nothing is written. `SinkFault`: only where the sink's count rose; it is that count, and some
/// first part of the listing or of the line is written. `NoMemory`: memory ran out, and nothing is
/// written, or of rows some first part of their listing.
pub fn list<S: Source, K: Sink>(
    alloc: Global,
    listing: &Listing,
    source: &mut S,
    sink: &mut K,
) -> ListStatus
    ensures ends { EndsListing listing.now (S.left source.old) (K.written sink.old)
        (K.written sink.new) (K.faults sink.old) (K.faults sink.new) result }
    ensures source { (faults : ℕ) → result ≡ status.SourceFault faults
        → (faults ≡ S.faults source.new) × Rose (S.faults source.old) (S.faults source.new) }
{
    match read_all(alloc, source) {
        Ok(image) => list_bytes(alloc, listing, image, sink),
        Err(ReadFault::Source { faults }) => ListStatus::SourceFault { faults },
        Err(ReadFault::NoMemory) => ListStatus::NoMemory,
    }
}
