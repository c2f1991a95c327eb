// Logs of version 1 in memory, and what is made of them.
use crate::migrate_file;
use g5_outside::{FileNo, MemoryShelf, NamedFile};
use program_model::inputs::Input;
use program_model::status::Status;
use run_model::logs::MigrateRefusal;
use std::test::Fail;

#[derive(Drop)]
struct Case<'a> {
    old: &'a [u8],
    name: &'a str,
    failing: u64,
    made: Result<(), Status>,
    new: &'a [u8],
}

const OLD: &[u8] = b"G5LOG 1 CPUS 1 SPARES 0 THRESHOLD 3\nEND 10\n";

const NEW: &[u8] = b"G5LOG 2 CPUS 1 SPARES 0 THRESHOLD 3\nEND 10 RETURNED 0\n";
// No call of this number is made.
const NONE: u64 = 1000;

// 'A log of version 1', 'A log whose second line is none', and what fails.
#[test]
fn logs_of_version_1(rt: HostRuntime) -> Result<(), Fail> {
    let alloc = rt.alloc();
    let bad = Err(Status::LogRefused(MigrateRefusal::BadLine(2)));
    let cases = [
        Case {
            old: OLD,
            name: "O",
            failing: NONE,
            made: Ok(()),
            new: NEW,
        },
        Case {
            old: b"G5LOG 1 CPUS 1 SPARES 0 THRESHOLD 3\nx\n",
            name: "O",
            failing: NONE,
            made: bad,
            new: b"",
        },
        Case {
            old: OLD,
            name: "P",
            failing: NONE,
            made: Err(Status::NoFile(Input::Log)),
            new: b"",
        },
        Case {
            old: OLD,
            name: "O",
            failing: 1,
            made: Err(Status::ReadFault),
            new: b"",
        },
    ];
    for case in &cases {
        let mut files = Vec::new(alloc);
        files.push(NamedFile {
            name: String::from_str(alloc, "O")?,
            bytes: Vec::from_slice(alloc, case.old)?,
        })?;
        let failing = Vec::from_slice(alloc, &[case.failing])?;
        let mut shelf = MemoryShelf::new(alloc, files, failing, 100)?;
        assert_eq!(rt; migrate_file(alloc, case.name, "N", &mut shelf), case.made);
        assert_eq!(rt; shelf.text_of(FileNo(0)), case.new);
    }
    Ok(())
}
