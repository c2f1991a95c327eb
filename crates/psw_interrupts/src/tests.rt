use crate::{
    CpuNo, Due, Interruption, Psw, Registers, Request, due, early_fault, enabled, places_of,
    swap_of,
};
use sigp_bus::Bus;
use std::test::Fail;

const A: CpuNo = CpuNo(0);

const B: CpuNo = CpuNo(1);

const C: CpuNo = CpuNo(2);

#[test]
fn bits_of_an_early_exception(rt: HostRuntime) {
    for (w0, w1, is_early) in [
        (0x0008_0000, 0x8000_0000, false),
        (0x0008_0000, 0x00FF_FFFF, false),
        (0x030F_3F00, 0xFFFF_FFFF, false),
        (0x8008_0000, 0x8000_0000, true),
        (0x4008_0000, 0x8000_0000, true),
        (0x2008_0000, 0x8000_0000, true),
        (0x1008_0000, 0x8000_0000, true),
        (0x0808_0000, 0x8000_0000, true),
        (0x0408_0000, 0x8000_0000, true),
        (0x0008_8000, 0x8000_0000, true),
        (0x0008_4000, 0x8000_0000, true),
        (0x0008_0080, 0x8000_0000, true),
        (0x0008_0040, 0x8000_0000, true),
        (0x0008_0020, 0x8000_0000, true),
        (0x0008_0010, 0x8000_0000, true),
        (0x0008_0008, 0x8000_0000, true),
        (0x0008_0004, 0x8000_0000, true),
        (0x0008_0002, 0x8000_0000, true),
        (0x0008_0001, 0x8000_0000, true),
        (0x0000_0000, 0x8000_0000, true),
        (0x0008_0000, 0x4000_0000, true),
        (0x0008_0000, 0x2000_0000, true),
        (0x0008_0000, 0x1000_0000, true),
        (0x0008_0000, 0x0800_0000, true),
        (0x0008_0000, 0x0400_0000, true),
        (0x0008_0000, 0x0200_0000, true),
        (0x0008_0000, 0x0100_0000, true),
        (0x0000_0000, 0x0000_0000, true),
    ] {
        assert_eq!(rt; early_fault(Psw { w0, w1 }), is_early, "{w0:08X} {w1:08X}");
    }
}

#[test]
fn requests_by_mask_and_order(rt: HostRuntime) -> Result<(), Fail> {
    let mut bus = Bus::new(rt.alloc(), 8)?;
    bus.key(A);
    bus.signal(C, A, 3);
    bus.signal(B, A, 3);
    bus.signal(C, A, 2);
    bus.check_stop(CpuNo(7));
    bus.check_stop(CpuNo(5));
    for (w0, cr0, want) in [
        (0x0108_0000, 0x0000_E040, Some(Request::Key)),
        (
            0x0108_0000,
            0x0000_E000,
            Some(Request::Malfunction(CpuNo(5))),
        ),
        (0x0108_0000, 0x0000_6000, Some(Request::Emergency(B))),
        (0x0108_0000, 0x0000_2000, Some(Request::ExternalCall(C))),
        (0x0108_0000, 0x0000_0040, Some(Request::Key)),
        (
            0x0108_0000,
            0x0000_8000,
            Some(Request::Malfunction(CpuNo(5))),
        ),
        (0x0108_0000, 0x0000_4000, Some(Request::Emergency(B))),
        (0x0108_0000, 0xFFFF_1FBF, None),
        (0x0108_0000, 0x0000_0000, None),
        (0xFE08_0000, 0xFFFF_FFFF, None),
    ] {
        let r = registers(w0, cr0);
        assert_eq!(rt; enabled(&r, 0, &bus, A), want, "{w0:08X} {cr0:08X}");
    }
    assert_eq!(rt;
        enabled(&registers(0x0108_0000, 0xE040), 0, &bus, CpuNo(8)),
        None
    );
    Ok(())
}

fn registers(w0: u32, cr0: u32) -> Registers {
    let mut control = [0; 16];
    control[0] = cr0;
    Registers {
        general: [0; 16],
        control,
        psw: Psw {
            w0,
            w1: 0x8000_0000,
        },
        prefix: 0,
        clocks: [0; 4],
    }
}

/// The requests of the clock come after the external call, the comparator's before the timer's. The
/// comparator's holds while the clock is greater, the timer's while its leftmost bit is one.
#[test]
fn requests_of_the_clock(rt: HostRuntime) -> Result<(), Fail> {
    let mut bus = Bus::new(rt.alloc(), 2)?;
    for (comparator, end, clock, cr0, want) in [
        (0x2000, 0x3000, 0x2000, 0x0000_08E0, None),
        (
            0x2000,
            0x3000,
            0x3000,
            0x0000_08E0,
            Some(Request::Comparator),
        ),
        (
            0x2000,
            0x2FFF,
            0x3000,
            0x0000_0CE0,
            Some(Request::Comparator),
        ),
        (0x3000, 0x2FFF, 0x3000, 0x0000_0CE0, Some(Request::Timer)),
        (0x2000, 0x2FFF, 0x3000, 0x0000_04E0, Some(Request::Timer)),
        (0x2000, 0x2FFF, 0x3000, 0x0000_00E0, None),
        (0x2000, 0x8000_0000_0000_2FFF, 0x3000, 0x0000_0400, None),
        (
            0x2000,
            0x8000_0000_0000_3000,
            0x3000,
            0x0000_0400,
            Some(Request::Timer),
        ),
        (
            0xFFFF_FFFF_FFFF_FFFF,
            0,
            0xFFFF_FFFF_FFFF_F000,
            0x0000_0C00,
            None,
        ),
    ] {
        let mut r = registers(0x0108_0000, cr0);
        r.clocks = [comparator, end, 0, 0];
        assert_eq!(rt;
            enabled(&r, clock, &bus, A),
            want,
            "{comparator:X} {end:X} {cr0:08X}"
        );
    }
    bus.signal(B, A, 2);
    let mut r = registers(0x0108_0000, 0x0000_2C00);
    r.clocks = [0, 0, 0, 0];
    assert_eq!(rt; enabled(&r, 1, &bus, A), Some(Request::ExternalCall(B)));
    Ok(())
}

/// A waiting CPU is idle at the clock of its comparator, and takes the comparator's request an
/// event later.
#[test]
fn a_wait_ends_by_the_clock_comparator(rt: HostRuntime) -> Result<(), Fail> {
    let bus = Bus::new(rt.alloc(), 1)?;
    let mut waiting = registers(0x010A_0000, 0x0000_08E0);
    waiting.clocks = [0x2000, 0, 0, 0];
    assert_eq!(rt; due(&waiting, 0x2000, &bus, A), Due::Idle);
    assert_eq!(rt;
        due(&waiting, 0x3000, &bus, A),
        Due::External(Request::Comparator)
    );
    Ok(())
}

#[test]
fn events_by_state(rt: HostRuntime) -> Result<(), Fail> {
    let mut bus = Bus::new(rt.alloc(), 4)?;
    let open = registers(0x0108_0000, 0x0000_E040);
    let waiting = registers(0x010A_0000, 0x0000_E040);
    let closed = registers(0x000A_0000, 0x0000_E040);
    let early = registers(0, 0x0000_E040);
    assert_eq!(rt; due(&open, 0, &bus, A), Due::UnitOfOperation);
    assert_eq!(rt; due(&waiting, 0, &bus, A), Due::Idle);
    assert_eq!(rt; due(&early, 0, &bus, A), Due::Early);
    assert_eq!(rt; due(&early, 0, &bus, B), Due::Idle);
    bus.signal(B, A, 6);
    bus.signal(A, B, 6);
    assert_eq!(rt; due(&open, 0, &bus, A), Due::Restart);
    assert_eq!(rt; due(&waiting, 0, &bus, A), Due::Restart);
    assert_eq!(rt; due(&early, 0, &bus, A), Due::Early);
    assert_eq!(rt; due(&early, 0, &bus, B), Due::Restart);
    bus.key(A);
    bus.key(B);
    bus.key(C);
    assert_eq!(rt; due(&open, 0, &bus, A), Due::External(Request::Key));
    assert_eq!(rt; due(&waiting, 0, &bus, A), Due::External(Request::Key));
    assert_eq!(rt; due(&closed, 0, &bus, A), Due::Restart);
    assert_eq!(rt; due(&open, 0, &bus, B), Due::Restart);
    assert_eq!(rt; due(&open, 0, &bus, C), Due::Idle);
    bus.check_stop(A);
    assert_eq!(rt; due(&open, 0, &bus, A), Due::Idle);
    assert_eq!(rt; due(&open, 0, &bus, CpuNo(4)), Due::Idle);
    Ok(())
}

#[test]
fn places(rt: HostRuntime) {
    for (number, kind, old_at, new_at, identification) in [
        (1, Interruption::Program, 40, 104, 140),
        (2, Interruption::SupervisorCall, 32, 96, 136),
        (3, Interruption::External, 24, 88, 132),
        (4, Interruption::Restart, 8, 0, 0),
        (0, Interruption::Restart, 8, 0, 0),
    ] {
        let swap = places_of(kind);
        assert_eq!(rt; swap_of(number), swap);
        assert_eq!(rt; swap.old_at, old_at);
        assert_eq!(rt; swap.new_at, new_at);
        assert_eq!(rt; swap.identification, identification);
    }
}
