//! Lists what the journal of this folder has. It opens the file for reading alone, with no lock,
//! and hands it to the call `list`, which does the rest.
#![tactic(auto)]

use std::process::ExitCode;
use std::rt::Env;
use tl_device::RealSink;
use tl_log::{FileSource, list, listing_of};
use tl_program::{EnvWords, Status, given_words, words_of};
use tl_types::NoMemory;

// The file of the journal, in the folder where the program is run.
const JOURNAL: &str = "timeline.tlj";

// The words that the program goes by.
fn own_words(rt: &(impl Env + AllocGlobal)) -> Result<Vec<String>, NoMemory> {
    let alloc = rt.alloc();
    words_of(alloc, &given_words(alloc, &EnvWords { rt })?)
}

fn main(rt: HostRuntime) -> ExitCode {
    let alloc = rt.alloc();
    let Ok(words) = own_words(&rt) else {
        return ExitCode::from(Status::NoMemory.number());
    };
    let Ok(named) = listing_of(alloc, &words) else {
        return ExitCode::from(Status::NoMemory.number());
    };
    let Some(listing) = named else {
        return ExitCode::from(Status::Usage.number());
    };
    let mut source = FileSource::new(&rt, JOURNAL);
    let mut sink = RealSink::new(rt.stdout());
    ExitCode::from(list(alloc, &listing, &mut source, &mut sink).number())
}
