// Runs of generated inputs: their summaries, and how they end.
use super::{Given, run};
use crate::Status;
use std::test::Fail;

const NOTHING: Given<'_> = Given {
    deck: b"",
    console: b"",
    schedule: b"",
    script: b"",
    failing: &[],
};

#[derive(Clone, Copy)]
struct Case<'a> {
    words: &'a [&'a str],
    status: Status,
    out: &'a [u8],
    err: &'a [u8],
}

// 'Generated, small' and 'Generated, large'; numbers out of their ranges, and words of no form.
#[test]
fn generated_runs(rt: HostRuntime) -> Result<(), Fail> {
    let alloc = rt.alloc();
    let cases = [
        Case {
            words: &["gen", "1", "2"],
            status: Status::Done,
            out: b"turns 2\ncommits 2\nfails 0\nretries 0\ncorrected 0\nspared 0\nstopped 0\ntrace 78\n",
            err: b"premise within\nturns 2 commits 2 retries 0 spared 0 stopped 0\n",
        },
        Case {
            words: &["gen", "7", "100000"],
            status: Status::Done,
            out: b"\
turns 100000\n\
commits 99704\n\
fails 148\n\
retries 148\n\
corrected 51\n\
spared 0\n\
stopped 0\n\
trace 3266920\n",
            err: b"premise within\nturns 100000 commits 99704 retries 148 spared 0 stopped 0\n",
        },
        Case {
            words: &["gen", "4294967296", "2"],
            status: Status::Usage,
            out: b"",
            err: b"usage\n",
        },
        Case {
            words: &["gen", "1", "0"],
            status: Status::Usage,
            out: b"",
            err: b"usage\n",
        },
        Case {
            words: &["gen", "--cpus=8", "1", "2"],
            status: Status::Usage,
            out: b"",
            err: b"usage\n",
        },
    ];
    for case in &cases {
        let left = run(alloc, case.words, &NOTHING, 400)?;
        assert_eq!(rt; left.status, case.status);
        assert_eq!(rt; left.out.taken(), case.out);
        assert_eq!(rt; left.err.taken(), case.err);
    }
    Ok(())
}
