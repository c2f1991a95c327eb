use crate::{Place, add_to_sink, put_all, start_files, write_file};
use g5_outside::{Failed, FileNo, MemoryShelf, MemorySink};
use std::test::Fail;

#[test]
fn lines_until_there_is_no_room(rt: HostRuntime) -> Result<(), Fail> {
    let alloc = rt.alloc();
    let mut shelf = MemoryShelf::new(alloc, Vec::new(alloc), Vec::new(alloc), 5)?;
    let mut out = MemorySink::new(alloc, Vec::new(alloc), 4)?;
    match start_files(&mut shelf, "L", "T") {
        Err(failed) => assert_eq!(rt; failed, Failed, "no files"),
        Ok(files) => {
            let lines: [&[u8]; 3] = [b"ab", b"", b"c"];
            assert_eq!(rt;
                put_all(&mut shelf, &mut out, files, Place::Trace, &lines),
                Ok(())
            );
            assert_eq!(rt;
                put_all(&mut shelf, &mut out, files, Place::Trace, &lines),
                Err(Failed)
            );
        }
    }
    assert_eq!(rt; shelf.text_of(FileNo(0)), b"".as_slice());
    assert_eq!(rt; shelf.text_of(FileNo(1)), b"abcab".as_slice());
    assert_eq!(rt; add_to_sink(&mut out, b"abc"), Ok(()));
    assert_eq!(rt; add_to_sink(&mut out, b"def"), Err(Failed));
    assert_eq!(rt; out.taken(), b"abcd".as_slice());
    Ok(())
}

#[test]
fn a_file_with_its_text(rt: HostRuntime) -> Result<(), Fail> {
    let alloc = rt.alloc();
    let whole: (&[u8], Result<(), Failed>) = (b"abc", Ok(()));
    for (text, made) in [whole, (b"abcdef", Err(Failed))] {
        let mut shelf = MemoryShelf::new(alloc, Vec::new(alloc), Vec::new(alloc), 5)?;
        assert_eq!(rt; write_file(&mut shelf, "N", text), made);
        assert_eq!(rt; shelf.text_of(FileNo(0)), &text[..text.len().min(5)]);
    }
    Ok(())
}
