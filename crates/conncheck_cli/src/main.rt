//! The program: the files of the system and standard output, handed to `run` with the words of the command line.
#![tactic(auto)]

mod real_shelf;
mod real_sink;

use conncheck::{Status, run, wrong_word};
use real_shelf::RealShelf;
use real_sink::RealSink;
use std::alloc::Global;
use std::process::ExitCode;
use std::{env, io};

const USAGE: &str =
    "usage: conncheck check --top M --table F [--define LIST] FILE.. | conncheck lrat FORMULA [LOG]";

// The words after the program's name; none where some of them are no text. `None` where memory is wanting.
fn words_after_name(rt: &HostRuntime, alloc: Global) -> Option<Vec<String>> {
    match env::args(rt) {
        Ok(words) => words.skip(1).collect(alloc).ok(),
        Err(error) if error.kind() == io::ErrorKind::InvalidData => Some(Vec::new(alloc)),
        Err(_) => None,
    }
}

// Says on standard error which word is wrong. That this can't be written is passed over.
fn tell_words(rt: &HostRuntime, words: &[String]) {
    let _ = match wrong_word(words) {
        Some(word) => eprintln!(rt; "conncheck: no place for the word '{word}'"),
        None => eprintln!(rt;
            "conncheck: an option or a file is missing, or a list of macros has another form"
        ),
    };
    let _ = eprintln!(rt; "{USAGE}");
}

// Says on standard error why a file could not be read.
fn tell_reason(rt: &HostRuntime, reason: Option<io::Error>) {
    if let Some(reason) = reason {
        let _ = eprintln!(rt; "conncheck: {reason}");
    }
}

fn main(rt: HostRuntime) -> ExitCode {
    let alloc = rt.alloc();
    let Some(words) = words_after_name(&rt, alloc) else {
        return ExitCode::from(Status::NoMemory.code());
    };
    let mut shelf = RealShelf::new(&rt);
    let mut sink = RealSink::new(&rt);
    let status = run(alloc, words.as_slice(), &mut shelf, &mut sink);
    match status {
        Status::BadWords => tell_words(&rt, words.as_slice()),
        Status::ReadFault => tell_reason(&rt, shelf.reason()),
        _ => {}
    }
    ExitCode::from(status.code())
}
