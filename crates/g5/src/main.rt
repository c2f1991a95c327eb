//! The program: the top call over the host's files and streams.
#![tactic(auto)]

use g5_outside::{HostShelf, HostSink, HostSource, Sink};
use g5_run::{Status, g5_top};
use silicon::ScriptSilicon;
use std::fs::File;
use std::io::ErrorKind;
use std::os::fd::AsRawFd;
use std::process::ExitCode;
use std::{env, fs, io};

// Takes the number of a standard stream that is closed. The next file that is opened would have it, and what
// is meant for the stream would go into that file. A folder can be neither read nor written.
fn hold_closed_stream(rt: &HostRuntime) -> Option<File> {
    match fs::open(rt, "/") {
        Ok(folder) if folder.as_raw_fd() < 3 => Some(folder),
        _ => None,
    }
}

// The words after the program's name.
fn words_of(rt: &HostRuntime) -> io::Result<Vec<String>> {
    let mut words = Vec::new(rt.alloc());
    for word in env::args(rt)?.skip(1) {
        words.push(word)?;
    }
    Ok(words)
}

fn main(rt: HostRuntime) -> ExitCode {
    let alloc = rt.alloc();
    let _held = [
        hold_closed_stream(&rt),
        hold_closed_stream(&rt),
        hold_closed_stream(&rt),
    ];
    let mut keys = HostSource::new(rt.stdin());
    let mut out = HostSink::new(rt.stdout());
    let mut err = HostSink::new(rt.stderr());
    let words = match words_of(&rt) {
        Ok(words) => words,
        Err(error) if error.kind() == ErrorKind::OutOfMemory => {
            let _ = err.write(b"no memory\n");
            return ExitCode::from(Status::NoMemory.number());
        }
        // A word that is no text is of no job's form.
        Err(_) => Vec::new(alloc),
    };
    let mut shelf = HostShelf::new(rt);
    let mut silicon = ScriptSilicon::new();
    let status = g5_top(
        alloc,
        &words,
        &mut shelf,
        &mut keys,
        &mut out,
        &mut err,
        &mut silicon,
    );
    ExitCode::from(status.number())
}
