ghost use Rattle.std.specs.Prelude.{◌<◌, ◌^◌, length};
ghost use Rattle.fault_script.specs.Walks.{IsBegun};

use crate::{Script, ScriptRefusal, Strike, Unit, Walk, parse, within};
use esa_words::decimal;
use run_model::faults::CoreNo;
use std::alloc::{AllocError, Global};
use std::test::Fail;

// Every form, empty lines, and a last line without line feed.
#[test]
fn every_form_of_line(rt: HostRuntime) {
    let text = b"U 0 2 A 2000 *\n\n\nU 15 999999 B 4095 1000000\nF 0 1 64\nS 0 1 4096\nW 0 0 39 71";
    match parse(rt.alloc(), text) {
        Ok(script) => {
            let wanted = [
                Strike::Packet(CoreNo(0), 2, Unit::A, 2000, None),
                Strike::Packet(CoreNo(15), 999999, Unit::B, 4095, Some(1000000)),
                Strike::Fetch(CoreNo(0), 1, 64),
                Strike::Store(CoreNo(0), 1, 4096),
                Strike::Word(CoreNo(0), 0, 39, 71),
            ];
            assert_eq!(rt; script.strikes(), wanted.as_slice());
        }
        Err(_) => assert!(rt; false),
    }
}

// Whether the script is refused so.
fn refuses(alloc: Global, text: &[u8], wanted: ScriptRefusal) -> bool
    requires { length text.now < 2 ^ 32 }
{
    match parse(alloc, text) {
        Ok(_) => false,
        Err(refusal) => refusal == wanted,
    }
}

#[test]
fn lines_without_a_form(rt: HostRuntime) {
    let texts: [&[u8]; 12] = [
        b"W 16 1000000 40 72",
        b"U 16 2 A 0 0",
        b"U 0 2 A 0 1000001",
        b"U 0 2 C 0 1",
        b"x\nS 0 1 4097",
        b"F +0 1 0",
        b"F 0 01 0",
        b"F 0  1 0",
        b"F 0 1 0 ",
        b" F 0 1 0",
        b"F 0 1 0\r\n",
        b"F 0 18446744073709551616 0",
    ];
    for text in texts {
        assert!(rt; refuses(rt.alloc(), text, ScriptRefusal::BadLine(1)));
    }
}

#[test]
fn bits_past_their_range(rt: HostRuntime) {
    let texts: [&[u8]; 6] = [
        b"W 0 1 36 72",
        b"W 0 1 35 39",
        b"U 0 2 A 4096 1",
        b"S 0 1 4097\nx",
        b"F 0 1 65",
        b"F 0 1 9999999999999999999999999999999999999999",
    ];
    for text in texts {
        assert!(rt; refuses(rt.alloc(), text, ScriptRefusal::BadBit(1)));
    }
}

// Each other refusal, also where a later line or a later rule would refuse as well.
#[test]
fn first_refusal(rt: HostRuntime) {
    assert!(rt; refuses(rt.alloc(), b"W 0 1 40 0", ScriptRefusal::BadWord(1)));
    assert!(rt; refuses(rt.alloc(), b"W 16 1 40 72", ScriptRefusal::BadCore(1)));
    assert!(rt;
        refuses(
            rt.alloc(),
            b"F 18446744073709551616 1 0",
            ScriptRefusal::BadCore(1)
        )
    );
    assert!(rt; refuses(rt.alloc(), b"\n \n", ScriptRefusal::BadLine(2)));
    assert!(rt; refuses(rt.alloc(), b"F 0 1 0\nF 0 1 65", ScriptRefusal::BadBit(2)));
    assert!(rt;
        refuses(
            rt.alloc(),
            b"F 0 1 0\nF 0 1 9",
            ScriptRefusal::TwoAtOneAttempt(2)
        )
    );
    assert!(rt;
        refuses(
            rt.alloc(),
            b"S 0 1 0\nF 0 1 0\n\nS 0 1 9\nx",
            ScriptRefusal::TwoAtOneAttempt(4)
        )
    );
}

// Ten thousand lines that all end with a line feed are accepted, one more is not, though empty.
#[test]
fn most_lines(rt: HostRuntime) -> Result<(), Fail> {
    let mut text = vec![in rt.alloc(); 10u8; 10000]?;
    assert!(rt; text.len() == 10000);
    match parse(rt.alloc(), &text) {
        Ok(script) => assert_eq!(rt; script.strikes().len(), 0),
        Err(_) => assert!(rt; false),
    }
    text.push(10)?;
    assert!(rt; text.len() == 10001);
    assert!(rt; refuses(rt.alloc(), &text, ScriptRefusal::TooMany(10001)));
    Ok(())
}

// Whether the script is accepted, and within the premise or not as wanted.
fn stands(alloc: Global, text: &[u8], wanted: bool) -> bool
    requires { length text.now < 2 ^ 32 }
{
    match parse(alloc, text) {
        Ok(script) => within(&script) == wanted,
        Err(_) => false,
    }
}

// A third strike of a word is beyond the premise in the 16 attempts of the first two alone.
#[test]
fn three_strikes_of_a_word(rt: HostRuntime) {
    assert!(rt; stands(rt.alloc(), b"W 0 3 5 10\nW 0 15 5 11\nW 0 16 5 12", true));
    assert!(rt; stands(rt.alloc(), b"W 0 3 5 10\nW 0 15 5 11\nW 0 12 5 12", false));
    assert!(rt; stands(rt.alloc(), b"W 0 3 5 10\nW 0 15 6 11\nW 0 12 5 12", true));
    assert!(rt; stands(rt.alloc(), b"W 0 3 5 10\nW 1 15 5 11\nW 0 12 5 12", true));
}

// Both units struck alike at one attempt; the last only once a line has ended.
#[test]
fn units_struck_alike(rt: HostRuntime) {
    let texts: [&[u8]; 4] = [
        b"U 0 2 A 2000 1\nU 0 2 B 2000 1",
        b"U 0 2 A 2000 *\nU 0 1 B 2000 2",
        b"U 15 999999 A 4095 1\nU 15 0 B 4095 1000000",
        b"U 0 2 A 7 *\nU 0 2 A 8 3\nU 0 2 B 7 *",
    ];
    for text in texts {
        assert!(rt; stands(rt.alloc(), text, false));
    }
}

// At other attempts, of another bit or core; a bit struck twice is not flipped.
#[test]
fn units_struck_apart(rt: HostRuntime) {
    let texts: [&[u8]; 6] = [
        b"",
        b"U 0 2 A 2000 *",
        b"U 0 2 A 2000 1\nU 0 3 B 2000 1",
        b"U 0 2 A 2000 1\nU 0 2 B 2001 1",
        b"U 0 2 A 2000 1\nU 1 2 B 2000 1",
        b"U 0 2 A 7 1\nU 0 2 A 7 1",
    ];
    for text in texts {
        assert!(rt; stands(rt.alloc(), text, true));
    }
}

// The lines of one core and attempt are found, in their order, and those that last kept apart.
#[test]
fn found_by_attempt(rt: HostRuntime) {
    let text = b"U 0 3 A 7 1\nU 0 2 B 8 *\nW 1 3 5 10\nF 0 3 0\nU 0 1 A 9 2\nS 0 2 9\nW 0 3 5 11";
    match parse(rt.alloc(), text) {
        Ok(script) => {
            let third = [
                Strike::Packet(CoreNo(0), 3, Unit::A, 7, Some(1)),
                Strike::Fetch(CoreNo(0), 3, 0),
                Strike::Word(CoreNo(0), 3, 5, 11),
            ];
            let lasting = [
                Strike::Packet(CoreNo(0), 2, Unit::B, 8, None),
                Strike::Packet(CoreNo(0), 1, Unit::A, 9, Some(2)),
            ];
            assert_eq!(rt; script.at(CoreNo(0), 3), third.as_slice());
            assert_eq!(rt; script.at(CoreNo(1), 3).len(), 1);
            assert_eq!(rt; script.at(CoreNo(1), 2).len(), 0);
            assert_eq!(rt; script.lasting(), lasting.as_slice());
        }
        Err(_) => assert!(rt; false),
    }
}

// The lines `F 0 n 0` for 9,999 attempts, and one for the last of them again.
#[test]
fn many_latches(rt: HostRuntime) -> Result<(), Fail> {
    let mut text = Vec::new(rt.alloc());
    for n in 0..9_999_u64 {
        text.extend_from_slice(b"F 0 ")?;
        text.extend_from_slice(decimal(n).as_slice())?;
        text.extend_from_slice(b" 0\n")?;
    }
    assert!(rt; text.len() < 200_000);
    match parse(rt.alloc(), &text) {
        Ok(script) => assert_eq!(rt; script.at(CoreNo(0), 9_998).len(), 1),
        Err(_) => assert!(rt; false),
    }
    text.extend_from_slice(b"F 0 9998 64\n")?;
    assert!(rt; text.len() < 200_000);
    assert!(rt; refuses(rt.alloc(), &text, ScriptRefusal::TwoAtOneAttempt(10_000)));
    Ok(())
}

// A script after so many attempts of a core, and none of the others.
fn after(script: Script, core: CoreNo, attempts: u64) -> Walk
    requires core { core.0 < 16 }
    requires some { 0 < attempts }
    ensures { IsBegun result core.0 }
{
    let mut walk = script.walk();
    walk.begin(core, 0);
    for n in 1..attempts {
        walk.begin(core, n);
    }
    walk
}

fn bit_of(s: &Strike) -> u64 {
    match *s {
        Strike::Packet(_, _, _, bit, _) => u64::from(bit),
        Strike::Fetch(_, _, bit) => u64::from(bit),
        Strike::Store(_, _, bit) => u64::from(bit),
        Strike::Word(_, _, _, bit) => u64::from(bit),
    }
}

// Their bits in a row, each below 10, as a decimal.
fn bits_of(strikes: &[Strike]) -> u64 {
    let mut bits = 0_u64;
    for s in strikes {
        bits = bits.wrapping_mul(10).wrapping_add(bit_of(s));
    }
    bits
}

// Whether these are the bits of the last attempt begun, and of the lasting strikes of the core.
fn has(alloc: Global, text: &[u8], after_core: (u8, u64), last: u64, lasting: u64) -> bool
    requires text { length text.now < 2 ^ 32 }
    requires core { after_core.0 < 16 }
    requires some { 0 < after_core.1 }
{
    let (core, attempts) = after_core;
    match parse(alloc, text) {
        Ok(script) => {
            let walk = after(script, CoreNo(core), attempts);
            let found = bits_of(walk.under(CoreNo(core)));
            let found_lasting = bits_of(walk.lasting_under(CoreNo(core)));
            found == last && found_lasting == lasting
        }
        Err(_) => false,
    }
}

// For a core and so many attempts. Each strike has a bit of its own.
#[test]
fn walked_by_attempt(rt: HostRuntime) {
    let text = b"U 0 3 A 8 *\nF 0 1 3\nU 1 1 B 9 5\nU 0 0 A 7 2\n\
          S 0 1 4\nW 0 1 5 6\nU 0 1 B 2 1\nU 0 1 B 5 *";
    assert!(rt; has(rt.alloc(), text, (0, 1), 7, 7));
    assert!(rt; has(rt.alloc(), text, (0, 2), 34625, 75));
    assert!(rt; has(rt.alloc(), text, (0, 3), 0, 5));
    assert!(rt; has(rt.alloc(), text, (0, 4), 8, 58));
    assert!(rt; has(rt.alloc(), text, (0, 9), 0, 58));
    assert!(rt; has(rt.alloc(), text, (1, 1), 0, 0));
    assert!(rt; has(rt.alloc(), text, (1, 2), 9, 9));
    assert!(rt; has(rt.alloc(), text, (1, 6), 0, 9));
    assert!(rt; has(rt.alloc(), text, (1, 7), 0, 0));
    assert!(rt; has(rt.alloc(), text, (15, 2), 0, 0));
}

// How many strikes of a core last and strike at the last of so many attempts.
fn lasting_after(alloc: Global, text: &[u8], core: u8, attempts: u64) -> usize
    requires text { length text.now < 2 ^ 32 }
    requires core { core < 16 }
    requires some { 0 < attempts }
{
    match parse(alloc, text) {
        Ok(script) => {
            let walk = after(script, CoreNo(core), attempts);
            walk.lasting_under(CoreNo(core)).len()
        }
        Err(_) => 0xffff,
    }
}

// The lines `U c n A b` with this end: b from 0 to 99, c the 16 cores in turn, n one more after each
// sixteen.
fn hundred(alloc: Global, end: &[u8]) -> Result<Vec<u8>, AllocError> {
    let mut text = Vec::new(alloc);
    for bit in 0..100_u64 {
        text.extend_from_slice(b"U ")?;
        text.extend_from_slice(decimal(bit % 16).as_slice())?;
        text.extend_from_slice(b" ")?;
        text.extend_from_slice(decimal(bit / 16).as_slice())?;
        text.extend_from_slice(b" A ")?;
        text.extend_from_slice(decimal(bit).as_slice())?;
        text.extend_from_slice(end)?;
    }
    Ok(text)
}

#[test]
fn many_that_last(rt: HostRuntime) -> Result<(), Fail> {
    let text = hundred(rt.alloc(), b" *\n")?;
    assert!(rt; text.len() < 2_000);
    assert_eq!(rt; lasting_after(rt.alloc(), &text, 0, 3), 3);
    assert_eq!(rt; lasting_after(rt.alloc(), &text, 3, 7), 7);
    assert_eq!(rt; lasting_after(rt.alloc(), &text, 4, 7), 6);
    assert_eq!(rt; lasting_after(rt.alloc(), &text, 15, 1), 1);
    assert_eq!(rt; lasting_after(rt.alloc(), &text, 15, 1000), 6);
    Ok(())
}

// What is over is not there.
#[test]
fn many_that_are_over(rt: HostRuntime) -> Result<(), Fail> {
    let text = hundred(rt.alloc(), b" 2\n")?;
    assert!(rt; text.len() < 2_000);
    assert_eq!(rt; lasting_after(rt.alloc(), &text, 3, 1), 1);
    assert_eq!(rt; lasting_after(rt.alloc(), &text, 3, 7), 2);
    assert_eq!(rt; lasting_after(rt.alloc(), &text, 3, 8), 1);
    assert_eq!(rt; lasting_after(rt.alloc(), &text, 3, 9), 0);
    assert_eq!(rt; lasting_after(rt.alloc(), &text, 4, 7), 1);
    Ok(())
}
