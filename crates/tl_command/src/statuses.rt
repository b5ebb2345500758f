//! How a run ends: thirteen statuses, each with its number and its closing line. Both are
//! the same for every run that ends so.
ghost use Rattle.std.specs.Prelude.{◌≡◌, IfOk};
ghost use Rattle.std.specs.String.{string_bytes};
ghost use Rattle.tl_command.specs.Status.{script_fault_words, script_line, watch_line, closing_line};

use std::alloc::Global;
use tl_jobs::{Refusal, refusal_words};
use tl_script::ScriptFault;
use tl_types::NoMemory;

/// How a run ends. Its number is the program's exit status.
#[derive(Clone, Copy)]
pub enum Status {
    /// The input was read to its end, and all replies are written.
    Done,
    /// Memory ran out. The replies of the phases before that are written.
    NoMemory,
    /// The words are no command.
    Usage,
    /// The source failed. `faults` is its count of faults, which rose in this call.
    SourceFault {
        /// Its count of faults.
        faults: u64,
    },
    /// The sink failed. `faults` is its count of faults, which rose in this call.
    SinkFault {
        /// Its count of faults.
        faults: u64,
    },
    /// The disk failed: while the journal was made or opened, and nothing was run; or when a commit
    /// was appended, behind which queries are still answered and batches refused. `faults` is its
    /// count of faults, which rose in this call.
    DiskFault {
        /// Its count of faults.
        faults: u64,
    },
    /// The script has this fault, and no statement of its phase is run.
    ScriptFault(ScriptFault),
    /// The disk has `len` bytes, which are too few for a journal.
    NotInitialised {
        /// How many bytes the disk has, fewer than 17.
        len: u64,
    },
    /// The disk has `len` bytes already, more than the empty journal.
    AlreadyInitialised {
        /// How many bytes the disk has, more than 17.
        len: u64,
    },
    /// The disk's bytes are no journal, or one with a commit that does not fit those before it.
    /// `at` is the offset where they are damaged, or of the gate before that commit.
    Damaged {
        /// The byte offset in the journal, from 0.
        at: u64,
    },
    /// The source's bytes are no packets that make a history of the journal's commits: it has more
    /// than 2,147,483,648 bytes, and `at` is that number; no packet begins at the offset `at`; or
    /// the first packet of the version that comes next, at that offset, has a commit that does not
    /// fit.
    PacketFault {
        /// The byte offset in what the source gave, from 0.
        at: u64,
    },
    /// The text that was to name what is watched has this fault over the journal's commits: it is
    /// no statement, none that can be watched, or one that does not fit the tables. Nothing of the
    /// source is read.
    WatchFault(Refusal),
    /// A statement was refused of a script that is kept whole or not at all, and nothing of it is
    /// kept. The replies up to the one that refuses it are written.
    StatementRefused {
        /// The statement's number in its script, from 1.
        number: u64,
    },
}

impl Status {
    ghost use Rattle.tl_command.specs.Status.{exit_status};

    /// The program's exit status: 0 for `Done`, and so on in order.
    pub fn number(&self) -> u8
        ensures { result ≡ exit_status self.now }
    {
        match self {
            Status::Done => 0,
            Status::NoMemory => 1,
            Status::Usage => 2,
            Status::SourceFault { .. } => 3,
            Status::SinkFault { .. } => 4,
            Status::DiskFault { .. } => 5,
            Status::ScriptFault(_) => 6,
            Status::NotInitialised { .. } => 7,
            Status::AlreadyInitialised { .. } => 8,
            Status::Damaged { .. } => 9,
            Status::PacketFault { .. } => 10,
            Status::WatchFault(_) => 11,
            Status::StatementRefused { .. } => 12,
        }
    }
}

fn script_fault_words(alloc: Global, fault: &ScriptFault) -> Result<String, NoMemory>
    ensures { IfOk result (λ text. string_bytes text ≡ script_fault_words fault.now) }
{
    match fault {
        ScriptFault::PhasesFull { line } => format!(in alloc; "PhasesFull {line}"),
        ScriptFault::LineTooLong { line } => format!(in alloc; "LineTooLong {line}"),
        ScriptFault::PhaseTooLong { line } => format!(in alloc; "PhaseTooLong {line}"),
        ScriptFault::NotUtf8 { line } => format!(in alloc; "NotUtf8 {line}"),
        ScriptFault::NoSession { line } => format!(in alloc; "NoSession {line}"),
        ScriptFault::SessionsFull { line } => format!(in alloc; "SessionsFull {line}"),
        ScriptFault::BlockOpen { line } => format!(in alloc; "BlockOpen {line}"),
    }
}

fn script_line(alloc: Global, fault: &ScriptFault) -> Result<String, NoMemory>
    ensures { IfOk result (λ text. string_bytes text ≡ script_line fault.now) }
{
    let words = script_fault_words(alloc, fault)?;
    format!(in alloc; "! script {words}\n")
}

fn watch_line(alloc: Global, fault: &Refusal) -> Result<String, NoMemory>
    ensures { IfOk result (λ text. string_bytes text ≡ watch_line fault.now) }
{
    let words = refusal_words(alloc, fault)?;
    format!(in alloc; "! watch {words}\n")
}

/// The line that is written last where a run ends so; it is empty where none is. The error is
/// `NoMemory`.
pub fn closing_line(alloc: Global, status: &Status) -> Result<String, NoMemory>
    ensures { IfOk result (λ text. string_bytes text ≡ closing_line status.now) }
{
    match status {
        Status::Done => Ok(String::new(alloc)),
        Status::NoMemory => Ok(String::new(alloc)),
        Status::Usage => String::from_str(alloc, "! usage\n"),
        Status::SourceFault { .. } => String::from_str(alloc, "! source\n"),
        Status::SinkFault { .. } => Ok(String::new(alloc)),
        Status::DiskFault { .. } => String::from_str(alloc, "! device\n"),
        Status::ScriptFault(fault) => script_line(alloc, fault),
        Status::NotInitialised { len } => format!(in alloc; "! journal NotInitialised {len}\n"),
        Status::AlreadyInitialised { len } => {
            format!(in alloc; "! journal AlreadyInitialised {len}\n")
        }
        Status::Damaged { at } => format!(in alloc; "! journal Damaged {at}\n"),
        Status::PacketFault { at } => format!(in alloc; "! packet {at}\n"),
        Status::WatchFault(fault) => watch_line(alloc, fault),
        Status::StatementRefused { number } => format!(in alloc; "! refused {number}\n"),
    }
}
