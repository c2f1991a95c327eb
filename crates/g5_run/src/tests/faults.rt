// Writes that fail.
use super::{DECK, Given, HEAD, TRACE, WORDS, run};
use crate::Status;
use g5_outside::FileNo;
use std::test::Fail;

// The head of the log is call 13, and the first trace line call 14. Of the line on `err` there is room for 4 bytes.
#[test]
fn write_faults(rt: HostRuntime) -> Result<(), Fail> {
    let cases: [(u64, &[u8], usize, &[u8]); 3] = [
        (11, b"", 0, b""),
        (13, b"", 0, b""),
        (24, HEAD, 231, &[0xC8, 0xC9]),
    ];
    for (call, log, length, console) in cases {
        let given = Given {
            deck: &DECK,
            console: b"",
            schedule: b"0*10",
            script: b"",
            failing: &[call],
        };
        let left = run(rt.alloc(), WORDS, &given, 4)?;
        assert_eq!(rt; left.status, Status::WriteFault);
        assert_eq!(rt; left.shelf.text_of(FileNo(0)), log);
        assert_eq!(rt; left.shelf.text_of(FileNo(1)).len(), length);
        assert!(rt; TRACE.starts_with(left.shelf.text_of(FileNo(1))));
        assert_eq!(rt; left.out.taken(), console);
        assert_eq!(rt; left.err.taken().len(), 4);
    }
    Ok(())
}

// Call 16 is the third trace line.
#[test]
fn write_fault_at_the_third_trace_line(rt: HostRuntime) -> Result<(), Fail> {
    let given = Given {
        deck: &DECK,
        console: b"",
        schedule: b"0*10",
        script: b"",
        failing: &[16],
    };
    let left = run(rt.alloc(), WORDS, &given, 400)?;
    assert_eq!(rt; left.status.number(), 5);
    assert_eq!(rt; left.err.taken(), b"write fault\n".as_slice());
    assert_eq!(rt; left.shelf.text_of(FileNo(0)), HEAD);
    assert_eq!(rt;
        left.shelf.text_of(FileNo(1)),
        b"1 C0 00080000 80010004\n2 C0 00082000 80010006\n".as_slice()
    );
    Ok(())
}
