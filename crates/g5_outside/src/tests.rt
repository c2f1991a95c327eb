ghost use Rattle.std.specs.Prelude.{◌≡◌, ◌<◌, [], IfOk, length};
ghost use Rattle.g5_outside.specs.MemoryShelves.{shelf_view};

use crate::{
    Failed, FileNo, HostShelf, HostSink, HostSource, MemoryShelf, MemorySink, MemorySource,
    NamedFile, Shelf, Sink, Source,
};
use std::alloc::Global;
use std::fs;
use std::test::Fail;

// Copies the first bytes of a file, at most eight, and says how many; None where there is no such file.
fn copy_eight<F: Shelf>(shelf: &mut F, from: &str, to: &str) -> Result<Option<usize>, Failed>
    requires { (F.seen shelf.old).numbers ≡ [] }
{
    match shelf.find(from) {
        Err(failed) => return Err(failed),
        Ok(false) => return Ok(None),
        Ok(true) => {}
    }
    let mut bytes = [0u8; 8];
    let count = match shelf.read(&mut bytes) {
        Err(failed) => return Err(failed),
        Ok(count) => count,
    };
    let file = match shelf.create(to) {
        Err(failed) => return Err(failed),
        Ok(file) => file,
    };
    if count == 0 {
        return Ok(Some(0));
    }
    match shelf.write(file, &bytes[..count]) {
        Err(failed) => Err(failed),
        Ok(count) => Ok(Some(count)),
    }
}

fn memory_shelf(alloc: Global, failing: &[u64], room: usize) -> Result<MemoryShelf, Fail>
    ensures { IfOk result (λ s. (shelf_view s).numbers ≡ []) }
{
    let mut files = Vec::new(alloc);
    for bytes in [b"ABCDEFGHIJ", b"abcdefghij"] {
        files.push(NamedFile {
            name: String::from_str(alloc, "deck")?,
            bytes: Vec::from_slice(alloc, bytes)?,
        })?;
    }
    Ok(MemoryShelf::new(alloc, files, Vec::from_slice(alloc, failing)?, room)?)
}

// Creates three files and writes into the last.
fn write_third<F: Shelf>(shelf: &mut F, bytes: &[u8]) -> Result<usize, Failed>
    requires none { (F.seen shelf.old).numbers ≡ [] }
    requires some { 0 < length bytes.now }
{
    shelf.create("L")?;
    shelf.create("T")?;
    let file = shelf.create("V")?;
    shelf.write(file, bytes)
}

#[test]
fn three_files_created(rt: HostRuntime) -> Result<(), Fail> {
    let mut shelf = memory_shelf(rt.alloc(), &[], 4)?;
    assert_eq!(rt; write_third(&mut shelf, b"save"), Ok(4));
    assert_eq!(rt; shelf.name_of(FileNo(2)), b"V".as_slice());
    assert_eq!(rt; shelf.text_of(FileNo(2)), b"save".as_slice());
    assert_eq!(rt; shelf.text_of(FileNo(1)), b"".as_slice());
    Ok(())
}

#[test]
fn files_in_memory(rt: HostRuntime) -> Result<(), Fail> {
    let alloc = rt.alloc();
    let cases: [(&[u64], usize, Result<Option<usize>, Failed>, &[u8]); 8] = [
        (&[], 100, Ok(Some(8)), b"ABCDEFGH"),
        (&[1], 100, Err(Failed), b""),
        (&[2], 100, Err(Failed), b""),
        (&[3], 100, Err(Failed), b""),
        (&[4], 100, Err(Failed), b""),
        (&[5], 100, Ok(Some(8)), b"ABCDEFGH"),
        (&[], 5, Ok(Some(5)), b"ABCDE"),
        (&[], 3, Err(Failed), b""),
    ];
    for (failing, room, want, text) in cases {
        let mut shelf = memory_shelf(alloc, failing, room)?;
        assert_eq!(rt; copy_eight(&mut shelf, "deck", "copy"), want);
        assert_eq!(rt; shelf.text_of(FileNo(0)), text);
    }
    let mut shelf = memory_shelf(alloc, &[], 4)?;
    assert_eq!(rt; copy_eight(&mut shelf, "dec", "copy"), Ok(None));
    Ok(())
}

#[test]
fn streams_in_memory(rt: HostRuntime) -> Result<(), Fail> {
    let alloc = rt.alloc();
    let mut source = MemorySource::new(
        Vec::from_slice(alloc, b"abc")?,
        Vec::from_slice(alloc, &[2])?,
    );
    let mut into = [0u8; 2];
    assert_eq!(rt; source.read(&mut into), Ok(2));
    assert_eq!(rt; into, [97, 98]);
    assert_eq!(rt; source.read(&mut into), Err(Failed));
    assert_eq!(rt; source.read(&mut into), Ok(1));
    assert_eq!(rt; source.read(&mut into), Ok(0));
    let mut sink = MemorySink::new(alloc, Vec::from_slice(alloc, &[2])?, 4)?;
    assert_eq!(rt; sink.write(b"abc"), Ok(3));
    assert_eq!(rt; sink.write(b"de"), Err(Failed));
    assert_eq!(rt; sink.write(b"de"), Ok(1));
    assert_eq!(rt; sink.write(b"e"), Ok(0));
    assert_eq!(rt; sink.taken(), b"abcd".as_slice());
    Ok(())
}

#[test]
fn small_steps(rt: HostRuntime) -> Result<(), Fail> {
    let alloc = rt.alloc();
    let mut shelf = memory_shelf(alloc, &[], 100)?;
    shelf.set_step(3);
    assert_eq!(rt; copy_eight(&mut shelf, "deck", "copy"), Ok(Some(3)));
    assert_eq!(rt; shelf.text_of(FileNo(0)), b"ABC".as_slice());
    let mut source = MemorySource::new(Vec::from_slice(alloc, b"abc")?, Vec::new(alloc));
    source.set_step(2);
    let mut into = [0u8; 4];
    assert_eq!(rt; source.read(&mut into), Ok(2));
    assert_eq!(rt; source.read(&mut into), Ok(1));
    assert_eq!(rt; source.read(&mut into), Ok(0));
    let mut sink = MemorySink::new(alloc, Vec::new(alloc), 4)?;
    sink.set_step(1);
    assert_eq!(rt; sink.write(b"ab"), Ok(1));
    assert_eq!(rt; sink.write(b"b"), Ok(1));
    assert_eq!(rt; sink.taken(), b"ab".as_slice());
    Ok(())
}

#[test]
fn files_of_the_host(rt: HostRuntime) -> Result<(), Fail> {
    let (from, to) = ("files_of_the_host_from", "files_of_the_host_to");
    fs::write(&rt, from, "ABCDEFGHIJ")?;
    let mut shelf = HostShelf::new(&rt);
    assert_eq!(rt; copy_eight(&mut shelf, from, to), Ok(Some(8)));
    let mut absent = HostShelf::new(&rt);
    assert_eq!(rt;
        copy_eight(&mut absent, "files_of_the_host_absent", to),
        Ok(None)
    );
    let mut folder = HostShelf::new(&rt);
    assert_eq!(rt;
        copy_eight(&mut folder, from, "files_of_the_host_absent/to"),
        Err(Failed)
    );
    let mut source = HostSource::new(fs::open(&rt, to)?);
    let mut into = [0u8; 9];
    assert_eq!(rt; source.read(&mut into), Ok(8));
    assert_eq!(rt; &into[..8], b"ABCDEFGH".as_slice());
    let mut sink = HostSink::new(fs::create(&rt, to)?);
    assert_eq!(rt; sink.write(b"abc"), Ok(3));
    fs::remove_file(&rt, from)?;
    fs::remove_file(&rt, to)?;
    Ok(())
}
