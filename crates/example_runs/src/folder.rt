// What lies in the folder of an example, and what should.
use g5_outside::MemorySink;
use std::{fs, io};

/// What the commands of an example wrote on the two outputs.
#[derive(Drop)]
pub struct Said {
    pub out: MemorySink,
    pub err: MemorySink,
}

/// How many files and folders there are.
pub fn count(rt: &HostRuntime, path: &str) -> io::Result<u64> {
    let mut found: u64 = 0;
    for entry in fs::read_dir(rt, path)? {
        let _ = entry?;
        found = found.saturating_add(1);
    }
    Ok(found)
}

// Whether what was written under this name, on an output or into a file, are these bytes.
fn is_written(rt: &HostRuntime, said: &Said, name: &str, wanted: &[u8]) -> io::Result<bool> {
    match name {
        "stdout" => Ok(said.out.taken() == wanted),
        "stderr" => Ok(said.err.taken() == wanted),
        _ => Ok(fs::read(rt, name)?.as_slice() == wanted),
    }
}

/// The first file of the folder `expected` that was not written so, or what was made besides, where there
/// were so many files before.
pub fn first_difference(rt: &HostRuntime, said: &Said, before: u64) -> io::Result<Option<String>> {
    let mut files = before;
    for entry in fs::read_dir(rt, "expected")? {
        let entry = entry?;
        let name = entry.file_name();
        if name != "stdout" && name != "stderr" {
            files = files.saturating_add(1);
        }
        if !is_written(rt, said, name, &fs::read(rt, entry.path())?)? {
            return Ok(Some(String::from_str(rt.alloc(), name)?));
        }
    }
    if count(rt, ".")? == files {
        Ok(None)
    } else {
        Ok(Some(String::from_str(rt.alloc(), "a further file")?))
    }
}
