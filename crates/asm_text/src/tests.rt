use crate::{dis_line, text};
use arrayvec::ArrayVec;
use esa_table::decode;
use std::test::Fail;

/// Bytes at address 0, and the line that they give.
fn gives(bytes: &[u8; 6], wanted: &[u8]) -> bool {
    let (line, _) = dis_line(bytes, 0);
    line.as_slice() == wanted
}

// Forms of two bytes; the bits that SPM ignores are ones.
#[test]
fn register_forms(rt: HostRuntime) {
    assert!(rt; gives(&[0x04, 0x3F, 0, 0, 0, 0], b"000000 SPM 3\n"));
    assert!(rt; gives(&[0x0A, 0xC9, 0, 0, 0, 0], b"000000 SVC 201\n"));
    assert!(rt; gives(&[0x1A, 0x1F, 0, 0, 0, 0], b"000000 AR 1,15\n"));
    assert!(rt; gives(&[0xB2, 0x22, 0, 0xF0, 0, 0], b"000000 IPM 15\n"));
    assert!(rt; gives(&[0xB2, 0x52, 0, 0x12, 0, 0], b"000000 MSR 1,2\n"));
}

// An address without index and base, and the greatest.
#[test]
fn address_forms(rt: HostRuntime) {
    assert!(rt; gives(&[0x41, 0x10, 0x08, 0x00, 0, 0], b"000000 LA 1,2048(0,0)\n"));
    assert!(rt;
        gives(
            &[0x5A, 0xFE, 0xDF, 0xFF, 0, 0],
            b"000000 A 15,4095(14,13)\n"
        )
    );
    assert!(rt; gives(&[0x83, 0x12, 0x01, 0x00, 0, 0], b"000000 DIAG 1,2,256(0)\n"));
    assert!(rt; gives(&[0x8D, 0x4F, 0x20, 0x3F, 0, 0], b"000000 SLDL 4,63(2)\n"));
    assert!(rt; gives(&[0x98, 0xEC, 0xD0, 0x0C, 0, 0], b"000000 LM 14,12,12(13)\n"));
    assert!(rt; gives(&[0x92, 0xC8, 0x18, 0x01, 0, 0], b"000000 MVI 2049(1),200\n"));
    assert!(rt; gives(&[0x93, 0x00, 0x18, 0x01, 0, 0], b"000000 TS 2049(1)\n"));
    assert!(rt; gives(&[0xB2, 0x10, 0xF0, 0x04, 0, 0], b"000000 SPX 4(15)\n"));
}

// Halfwords with a sign, but for the mask of TMH and TML.
#[test]
fn halfword_forms(rt: HostRuntime) {
    assert!(rt; gives(&[0xA7, 0x10, 0xFF, 0xFF, 0, 0], b"000000 TMH 1,65535\n"));
    assert!(rt; gives(&[0xA7, 0x11, 0x80, 0x00, 0, 0], b"000000 TML 1,32768\n"));
    assert!(rt; gives(&[0xA7, 0xF4, 0x7F, 0xFF, 0, 0], b"000000 BRC 15,32767\n"));
    assert!(rt; gives(&[0xA7, 0x25, 0xFF, 0xFE, 0, 0], b"000000 BRAS 2,-2\n"));
    assert!(rt; gives(&[0xA7, 0x3A, 0x80, 0x00, 0, 0], b"000000 AHI 3,-32768\n"));
    assert!(rt; gives(&[0x85, 0xFE, 0xFF, 0xFF, 0, 0], b"000000 BRXLE 15,14,-1\n"));
}

// A length is one more than its code.
#[test]
fn storage_forms(rt: HostRuntime) {
    assert!(rt;
        gives(
            &[0xD2, 0xFF, 0x1F, 0xFF, 0x20, 0x00],
            b"000000 MVC 4095(256,1),0(2)\n"
        )
    );
    assert!(rt;
        gives(
            &[0xF3, 0xFF, 0xFF, 0xFF, 0xFF, 0xFF],
            b"000000 UNPK 4095(16,15),4095(16,15)\n"
        )
    );
    assert!(rt;
        gives(
            &[0xF0, 0x35, 0x10, 0x10, 0x00, 0x3E],
            b"000000 SRP 16(4,1),62(0),5\n"
        )
    );
}

// No row has the opcode.
#[test]
fn no_instruction(rt: HostRuntime) {
    assert!(rt; gives(&[0x00, 0x5A, 0, 0, 0, 0], b"000000 DC X'005A'\n"));
    assert!(rt; gives(&[0xB2, 0x1B, 0, 0, 0, 0], b"000000 DC X'B21B'\n"));
}

#[test]
fn without_its_line(rt: HostRuntime) -> Result<(), Fail> {
    let Some(d) = decode(&[0xDF, 0x00, 0x1F, 0xFF, 0x20, 0x01]) else {
        return Err("no row for EDMK".into());
    };
    assert_eq!(rt; text(&d).as_slice(), b"EDMK 4095(1,1),1(2)".as_slice());
    Ok(())
}

/// The line of an address that there is.
fn line_in(storage: &[u8], at: Option<u32>) -> Result<(ArrayVec<u8, 64>, Option<u32>), Fail> {
    match at {
        Some(at) if storage.len() <= 0x100_0000 => Ok(dis_line(storage, at)),
        _ => Err("no line".into()),
    }
}

// LA and AR at X'10000', and the end of the storage: an instruction that passes it, and one byte.
#[test]
fn line_after_line(rt: HostRuntime) -> Result<(), Fail> {
    let mut storage = vec![in rt.alloc(); 0u8; 0x10000]?;
    storage.extend_from_slice(&[0x41, 0x10, 0x08, 0x00, 0x1A, 0x11, 0x5A, 0x12, 0x30])?;
    let (line, next) = line_in(&storage, Some(0x10000))?;
    assert_eq!(rt; line.as_slice(), b"010000 LA 1,2048(0,0)\n".as_slice());
    let (line, next) = line_in(&storage, next)?;
    assert_eq!(rt; line.as_slice(), b"010004 AR 1,1\n".as_slice());
    let (line, next) = line_in(&storage, next)?;
    assert_eq!(rt; line.as_slice(), b"010006 DC X'5A12'\n".as_slice());
    let (line, next) = line_in(&storage, next)?;
    assert_eq!(rt; line.as_slice(), b"010008 outside\n".as_slice());
    assert!(rt; next.is_none());
    Ok(())
}

// Addresses have six digits.
#[test]
fn past_the_greatest_storage(rt: HostRuntime) {
    let (line, next) = dis_line(&[0x1A, 0x11], 0x100_0000);
    assert_eq!(rt; line.as_slice(), b"000000 outside\n".as_slice());
    assert!(rt; next.is_none());
}
