ghost use Rattle.std.specs.Prelude.{◌<◌, ◌^◌, length};

use crate::{Run, RunKind, ScheduleRefusal, parse};
use esa_model::machine::CpuNo;
use run_model::faults::CoreNo;
use std::alloc::Global;

fn turns(cpu: u8, count: u32) -> Run {
    let what = RunKind::Turns(CpuNo(cpu));
    Run { what, count }
}

fn key(cpu: u8) -> Run {
    let what = RunKind::Key(CpuNo(cpu));
    Run { what, count: 1 }
}

fn returned(core: u8) -> Run {
    let what = RunKind::Return(CoreNo(core));
    Run { what, count: 1 }
}

// Whether a machine of one CPU refuses the schedule so.
fn refuses(alloc: Global, text: &[u8], wanted: ScheduleRefusal) -> bool
    requires { length text.now < 2 ^ 32 }
{
    match parse(alloc, text, 1) {
        Ok(_) => false,
        Err(refusal) => refusal == wanted,
    }
}

// Blanks and line feeds in any number part the words, and nothing is needed before or after them.
#[test]
fn runs_are_the_words(rt: HostRuntime) {
    match parse(rt.alloc(), b"\n 0*12  K7\n\n1*1000 9 R15 \n", 10) {
        Ok(schedule) => {
            let wanted = [
                turns(0, 12),
                key(7),
                turns(1, 1000),
                turns(9, 1),
                returned(15),
            ];
            assert_eq!(rt; schedule.runs(), wanted.as_slice());
            assert_eq!(rt; schedule.turns(), 1015);
        }
        Err(_) => assert!(rt; false),
    }
}

#[test]
fn repaired_core(rt: HostRuntime) {
    match parse(rt.alloc(), b"0*10 R0 0*9", 1) {
        Ok(schedule) => {
            let wanted = [turns(0, 10), returned(0), turns(0, 9)];
            assert_eq!(rt; schedule.runs(), wanted.as_slice());
            assert_eq!(rt; schedule.turns(), 20);
        }
        Err(_) => assert!(rt; false),
    }
}

#[test]
fn no_words(rt: HostRuntime) {
    for text in [b"".as_slice(), b" \n ".as_slice()] {
        match parse(rt.alloc(), text, 1) {
            Ok(schedule) => assert_eq!(rt; schedule.turns(), 0),
            Err(_) => assert!(rt; false),
        }
    }
}

#[test]
fn longest(rt: HostRuntime) {
    match parse(rt.alloc(), b"0*999999 R0", 1) {
        Ok(schedule) => assert_eq!(rt; schedule.turns(), 1000000),
        Err(_) => assert!(rt; false),
    }
}

#[test]
fn schedule_and_script(rt: HostRuntime) {
    assert!(rt; refuses(rt.alloc(), b"0 x", ScheduleRefusal::BadWord(2)));
    assert!(rt; refuses(rt.alloc(), b"0 1", ScheduleRefusal::BadCpu(2)));
    assert!(rt; refuses(rt.alloc(), b"0*1000000 0", ScheduleRefusal::TooLong(2)));
}

#[test]
fn words_without_a_form(rt: HostRuntime) {
    let texts: [&[u8]; 16] = [
        b"0*0",
        b"0*01",
        b"0*+1",
        b"0*-1",
        b"0*",
        b"00",
        b"0\r\n0",
        b"k0",
        b"K0*2",
        b"R16",
        b"R00",
        b"R",
        b"R-1",
        b"R0*2",
        b"R340282366920938463463374607431768211456",
        b"x 1",
    ];
    for text in texts {
        assert!(rt; refuses(rt.alloc(), text, ScheduleRefusal::BadWord(1)));
    }
}

// The form comes before the CPU and the CPU before the length, and an earlier word before a later.
#[test]
fn first_refusal(rt: HostRuntime) {
    assert!(rt; refuses(rt.alloc(), b"0 1 x", ScheduleRefusal::BadCpu(2)));
    assert!(rt; refuses(rt.alloc(), b"1*1000001", ScheduleRefusal::BadCpu(1)));
    assert!(rt; refuses(rt.alloc(), b"K1", ScheduleRefusal::BadCpu(1)));
    assert!(rt; refuses(rt.alloc(), b"0*1000001 x", ScheduleRefusal::TooLong(1)));
    assert!(rt;
        refuses(
            rt.alloc(),
            b"0*18446744073709551616",
            ScheduleRefusal::TooLong(1)
        )
    );
    assert!(rt; refuses(rt.alloc(), b"0*1000000\n\nR0", ScheduleRefusal::TooLong(2)));
}
