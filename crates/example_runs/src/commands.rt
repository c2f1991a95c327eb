// The commands of an example.
use crate::folder::Said;
use g5_outside::{HostShelf, MemorySink, MemorySource, NoMemory};
use g5_run::g5_top;
use silicon::ScriptSilicon;
use std::io::ErrorKind;
use std::{fs, io};

// Room for what the commands of one example write on an output.
const ROOM: usize = 65_536;

fn no_memory(_: NoMemory) -> io::Error {
    io::Error::from(ErrorKind::OutOfMemory)
}

// What standard input has: the file `stdin`, or nothing.
fn keys_of(rt: &HostRuntime) -> io::Result<MemorySource> {
    let alloc = rt.alloc();
    let bytes = match fs::read(rt, "stdin") {
        Ok(bytes) => bytes,
        Err(error) if error.kind() == ErrorKind::NotFound => Vec::new(alloc),
        Err(error) => return Err(error),
    };
    Ok(MemorySource::new(bytes, Vec::new(alloc)))
}

// Obeys a line, which is the status that is wanted and the words; says whether it ended with that status.
fn obey(rt: &HostRuntime, line: &str, said: &mut Said) -> io::Result<bool> {
    let alloc = rt.alloc();
    let Some((wanted, rest)) = line.split_once(' ') else {
        return Ok(false);
    };
    let mut words = Vec::new(alloc);
    for word in rest.split(' ') {
        words.push(String::from_str(alloc, word)?)?;
    }
    let mut shelf = HostShelf::new(rt);
    let mut keys = keys_of(rt)?;
    let mut silicon = ScriptSilicon::new();
    let status = g5_top(
        alloc,
        &words,
        &mut shelf,
        &mut keys,
        &mut said.out,
        &mut said.err,
        &mut silicon,
    );
    Ok(wanted.parse::<u8>() == Ok(status.number()))
}

/// Obeys the lines of the file `commands`: what they wrote, or the first whose status is another.
pub fn obey_all(rt: &HostRuntime) -> io::Result<Result<Said, String>> {
    let alloc = rt.alloc();
    let mut said = Said {
        out: MemorySink::new(alloc, Vec::new(alloc), ROOM).map_err(no_memory)?,
        err: MemorySink::new(alloc, Vec::new(alloc), ROOM).map_err(no_memory)?,
    };
    let commands = fs::read_to_string(rt, "commands")?;
    for line in commands.lines() {
        if !obey(rt, line, &mut said)? {
            return Ok(Err(String::from_str(alloc, line)?));
        }
    }
    Ok(Ok(said))
}
