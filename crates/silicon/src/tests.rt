ghost use Rattle.std.specs.Prelude.{◌<◌, ◌^◌, length};

use crate::{Handed, ScriptSilicon, Silicon, TapSilicon};
use esa_words::decimal;
use fault_script::{ScriptRefusal, Unit, parse};
use result_packet::{FetchLatch, Packet, StoreLatch};
use run_model::faults::CoreNo;
use std::alloc::Global;
use std::test::Fail;

fn armed(alloc: Global, text: &[u8]) -> Result<ScriptSilicon, ScriptRefusal>
    requires { length text.now < 2 ^ 32 }
{
    let script = parse(alloc, text)?;
    let mut z = ScriptSilicon::new();
    z.arm(script);
    Ok(z)
}

// What the next attempt of core 0 makes of two packets of zeros.
fn next_packets(z: &mut ScriptSilicon) -> (Packet, Packet) {
    let mut a = Packet::zeros();
    let mut b = Packet::zeros();
    if z.begun(CoreNo(0)) < 1_000_000 {
        z.begin(CoreNo(0));
        z.pass(CoreNo(0), Unit::A, &mut a);
        z.pass(CoreNo(0), Unit::B, &mut b);
    }
    (a, b)
}

// What it makes of latches of zeros.
fn next_latches(z: &mut ScriptSilicon) -> (FetchLatch, StoreLatch) {
    let mut fetch = FetchLatch {
        bytes: [0; 8],
        odd: false,
    };
    let mut store = StoreLatch {
        packet: Packet::zeros(),
        odd: false,
    };
    if z.begun(CoreNo(0)) < 1_000_000 {
        z.begin(CoreNo(0));
        z.pass_fetch(CoreNo(0), &mut fetch);
        z.pass_store(CoreNo(0), &mut store);
    }
    (fetch, store)
}

// Bit 2000 is the first of byte 250, bit 4095 the last of all; core 1 is another core.
#[test]
fn struck_packets(rt: HostRuntime) {
    match armed(
        rt.alloc(),
        b"U 0 1 A 2000 1\nU 0 0 B 7 *\nU 0 1 A 4095 2\nU 1 0 A 0 1",
    ) {
        Ok(mut z) => {
            for wanted in [[0, 0, 0, 1], [0, 0x80, 1, 1], [0, 0, 1, 1], [0, 0, 0, 1]] {
                let (a, b) = next_packets(&mut z);
                assert_eq!(rt; [a.byte(0), a.byte(250), a.byte(511), b.byte(0)], wanted);
            }
        }
        Err(_) => assert!(rt; false),
    }
}

#[test]
fn struck_latches(rt: HostRuntime) {
    match armed(
        rt.alloc(),
        b"F 0 0 64\nS 0 0 4096\nF 0 1 0\nS 0 1 4095\nS 1 2 9",
    ) {
        Ok(mut z) => {
            for wanted in [
                (true, 0, true, 0),
                (false, 0x80, false, 1),
                (false, 0, false, 0),
            ] {
                let (fetch, store) = next_latches(&mut z);
                let got = (fetch.odd, fetch.bytes[0], store.odd, store.packet.byte(511));
                assert_eq!(rt; got, wanted);
            }
        }
        Err(_) => assert!(rt; false),
    }
}

// As the attempt begins; a bit struck twice is not flipped.
#[test]
fn struck_words(rt: HostRuntime) {
    match armed(
        rt.alloc(),
        b"W 0 0 5 10\nW 0 0 36 71\nW 0 0 6 1\nW 0 0 6 1\nW 1 0 5 0",
    ) {
        Ok(mut z) => {
            z.put_word(CoreNo(0), 5, 1);
            if z.begun(CoreNo(0)) == 0 {
                z.begin(CoreNo(0));
            }
            assert_eq!(rt; z.get_word(CoreNo(0), 5), 0x401);
            assert_eq!(rt; z.get_word(CoreNo(0), 36), 1 << 71);
            assert_eq!(rt; z.get_word(CoreNo(0), 6), 0);
            assert_eq!(rt; z.get_word(CoreNo(1), 5), 0);
        }
        Err(_) => assert!(rt; false),
    }
}

// Hands in the latches and unit B's packet of the first attempt of core 9. Byte 0 of the packet.
fn hand_in(z: &mut TapSilicon) -> u8 {
    let mut packet = Packet::zeros();
    if z.begun(CoreNo(9)) > 0 {
        return 0;
    }
    let mut fetch = FetchLatch {
        bytes: [7; 8],
        odd: true,
    };
    z.begin(CoreNo(9));
    z.pass_fetch(CoreNo(9), &mut fetch);
    z.pass(CoreNo(9), Unit::B, &mut packet);
    let mut store = StoreLatch { packet, odd: false };
    z.pass_store(CoreNo(9), &mut store);
    packet.byte(0)
}

// Whether these are the fetch latch and the packet as they were handed in.
fn are_told(told: &[Handed]) -> bool {
    match told {
        [Handed::Fetch(c, n, latch), Handed::Packet(d, m, unit, p)] => {
            let numbers = c.0 == 9 && *n == 0 && d.0 == 9 && *m == 0;
            numbers && latch.bytes[7] == 7 && latch.odd && *unit == Unit::B && p.byte(0) == 0
        }
        _ => false,
    }
}

// A tape of two has no store latch.
#[test]
fn tape_of_two(rt: HostRuntime) {
    match (
        TapSilicon::new(rt.alloc(), 2),
        parse(rt.alloc(), b"F 9 0 0\nU 9 0 B 0 1"),
    ) {
        (Ok(mut z), Ok(script)) => {
            z.arm(script);
            assert_eq!(rt; hand_in(&mut z), 0x80);
            assert!(rt; are_told(z.told()));
        }
        _ => assert!(rt; false),
    }
}

// The lines `W 0 n 5 10` and `U 0 n A 2000 1` for 5,000 attempts, all of which are made.
#[test]
fn script_of_10000_lines(rt: HostRuntime) -> Result<(), Fail> {
    let mut text = Vec::new(rt.alloc());
    for n in 0..5_000_u64 {
        text.extend_from_slice(b"W 0 ")?;
        text.extend_from_slice(decimal(n).as_slice())?;
        text.extend_from_slice(b" 5 10\nU 0 ")?;
        text.extend_from_slice(decimal(n).as_slice())?;
        text.extend_from_slice(b" A 2000 1\n")?;
    }
    assert!(rt; text.len() < 400_000);
    match armed(rt.alloc(), &text) {
        Ok(mut z) => {
            for _ in 0..5_000_u64 {
                let (a, b) = next_packets(&mut z);
                assert_eq!(rt; [a.byte(250), b.byte(250)], [0x80, 0]);
            }
            assert_eq!(rt; z.begun(CoreNo(0)), 5_000);
            assert_eq!(rt; z.get_word(CoreNo(0), 5), 0);
            let (a, _) = next_packets(&mut z);
            assert_eq!(rt; a.byte(250), 0);
        }
        Err(_) => assert!(rt; false),
    }
    Ok(())
}
