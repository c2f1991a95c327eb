//! Inputs of files in memory.
use crate::{ReadRefusal, read_input, read_whole};
use g5_outside::{MemoryShelf, NamedFile};
use program_model::inputs::Input;
use program_model::status::Status;
use std::alloc::Global;
use std::test::Fail;

// One file D of three bytes, of whose calls this one fails.
fn shelf_of(alloc: Global, failing: u64) -> Result<MemoryShelf, Fail> {
    let mut files = Vec::new(alloc);
    files.push(NamedFile {
        name: String::from_str(alloc, "D")?,
        bytes: Vec::from_slice(alloc, &[1, 2, 3])?,
    })?;
    Ok(MemoryShelf::new(alloc, files, Vec::from_slice(alloc, &[failing])?, 100)?)
}

fn refusal_of(
    alloc: Global,
    name: &str,
    limit: u16,
    failing: u64,
) -> Result<Option<ReadRefusal>, Fail> {
    let mut shelf = shelf_of(alloc, failing)?;
    match read_whole(alloc, &mut shelf, name, usize::from(limit)) {
        Ok(_) => Ok(None),
        Err(refusal) => Ok(Some(refusal)),
    }
}

#[test]
fn files_up_to_their_limit(rt: HostRuntime) -> Result<(), Fail> {
    let alloc = rt.alloc();
    let mut shelf = shelf_of(alloc, 1000)?;
    match read_whole(alloc, &mut shelf, "D", 3) {
        Ok(bytes) => assert_eq!(rt; bytes.as_slice(), [1, 2, 3].as_slice()),
        Err(_) => assert!(rt; false, "a file of three bytes is within three"),
    }
    for (name, limit, failing, refusal) in [
        ("D", 3, 1000, None),
        ("D", 2, 1000, Some(ReadRefusal::TooLarge)),
        ("D", 0, 1000, Some(ReadRefusal::TooLarge)),
        ("E", 3, 1000, Some(ReadRefusal::NoFile)),
        ("D", 3, 1, Some(ReadRefusal::Fault)),
        ("D", 3, 2, Some(ReadRefusal::Fault)),
    ] {
        assert_eq!(rt;
            refusal_of(alloc, name, limit, failing)?,
            refusal,
            "{name} within {limit}"
        );
    }
    Ok(())
}

#[test]
fn inputs_by_their_status(rt: HostRuntime) -> Result<(), Fail> {
    let alloc = rt.alloc();
    for (name, failing, status) in [
        ("D", 1000, None),
        ("E", 1000, Some(Status::NoFile(Input::Log))),
        ("D", 1, Some(Status::ReadFault)),
        ("D", 2, Some(Status::ReadFault)),
    ] {
        let mut shelf = shelf_of(alloc, failing)?;
        let refused = read_input(alloc, &mut shelf, Input::Log, name).err();
        assert_eq!(rt; refused, status, "{name}, where call {failing} fails");
    }
    Ok(())
}
