//! Looks at the journal of this folder: it runs a script over the journal as it is when it is read,
//! and forgets what the script commits. It opens the file for reading alone, with no lock, and
//! hands it, the words after its name, its standard input and output to the call `look`, which does
//! all.
#![tactic(auto)]

use std::fs;
use std::process::ExitCode;
use std::rt::Env;
use tl_device::{OpenGate, RealSink, RealSource};
use tl_log::FileSource;
use tl_look::look;
use tl_program::{EnvWords, Status, given_words, words_of};
use tl_types::NoMemory;

// The file of the journal, in the folder where the program is run.
const JOURNAL: &str = "timeline.tlj";

// What stands in the place of a standard input or output that is not open: the root folder, which
// can be neither read nor written, so that these fail.
const NOTHING: &str = "/";

// The words that the program goes by.
fn own_words(rt: &(impl Env + AllocGlobal)) -> Result<Vec<String>, NoMemory> {
    let alloc = rt.alloc();
    words_of(alloc, &given_words(alloc, &EnvWords { rt })?)
}

fn main(rt: HostRuntime) -> ExitCode {
    // Kept to the end: otherwise the journal, which is opened later, would take such a place.
    let _input = fs::open(&rt, NOTHING);
    let _output = fs::open(&rt, NOTHING);
    let _errors = fs::open(&rt, NOTHING);
    let Ok(words) = own_words(&rt) else {
        return ExitCode::from(Status::NoMemory.number());
    };
    let mut file = FileSource::new(&rt, JOURNAL);
    let mut source = RealSource::new(rt.stdin());
    let mut sink = RealSink::new(rt.stdout());
    let ended = look(&rt, &words, &mut file, &mut source, &mut sink, &OpenGate);
    ExitCode::from(ended.number())
}
