use crate::{Changed, put_line};
use arrayvec::ArrayVec;
use esa_model::machine::{CpuNo, Psw};

#[test]
fn nothing_changed(rt: HostRuntime) {
    let psw = Psw {
        w0: 0x0008_0000,
        w1: 0x8001_0004,
    };
    let mut text = ArrayVec::new();
    put_line(&mut text, 1, CpuNo(0), psw, &[]);
    assert_eq!(rt; text.as_slice(), b"1 C0 00080000 80010004\n".as_slice());
}

// A program interruption for overflow stores its old PSW, length, code and the new condition code.
#[test]
fn overflow(rt: HostRuntime) {
    let psw = Psw {
        w0: 0x0008_0000,
        w1: 0x8001_0080,
    };
    let changed = [
        Changed {
            at: 0x29,
            byte: 0x08,
        },
        Changed {
            at: 0x2A,
            byte: 0x38,
        },
        Changed {
            at: 0x2C,
            byte: 0x80,
        },
        Changed {
            at: 0x2D,
            byte: 0x01,
        },
        Changed {
            at: 0x2F,
            byte: 0x22,
        },
        Changed {
            at: 0x8D,
            byte: 0x02,
        },
        Changed {
            at: 0x8F,
            byte: 0x08,
        },
    ];
    let mut text = ArrayVec::new();
    put_line(&mut text, 1000000, CpuNo(7), psw, &changed);
    let wanted =
        b"1000000 C7 00080000 80010080 000029=0838 00002C=8001 00002F=22 00008D=02 00008F=08\n";
    assert_eq!(rt; text.as_slice(), wanted.as_slice());
}

// Address 0 and the last address of the largest storage.
#[test]
fn ends_of_storage(rt: HostRuntime) {
    let psw = Psw { w0: 0, w1: 0 };
    let changed = [
        Changed { at: 0, byte: 0xFF },
        Changed {
            at: 0xFF_FFFF,
            byte: 0,
        },
    ];
    let mut text = ArrayVec::new();
    put_line(&mut text, 2, CpuNo(0), psw, &changed);
    assert_eq!(rt;
        text.as_slice(),
        b"2 C0 00000000 00000000 000000=FF FFFFFF=00\n".as_slice()
    );
}
