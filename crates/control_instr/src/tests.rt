ghost use Rattle.std.specs.Prelude.{◌≡◌};
ghost use Rattle.esa_model.specs.Clocks.{is_clock_row};

use crate::{ClockRow, CpuNo, Decoded, Psw, Registers, clock_row, console_call, control};

const CPU: CpuNo = CpuNo(5);

const SIZE: u32 = 0x2_0000;

const PSW: Psw = Psw {
    w0: 0x4308_2000,
    w1: 0x8001_2344,
};

/// General registers 2 and 3 with words, and control registers that tell themselves apart.
fn registers() -> Registers {
    let mut general = [0; 16];
    general[2] = 0x1000_00FF;
    general[3] = 0x1000_00A5;
    let mut control = [0; 16];
    for n in 0..16u8 {
        control[n as usize] = 0x2000_0000 + u32::from(n);
    }
    Registers {
        general,
        control,
        psw: PSW,
        prefix: 0x8000_4321,
        clocks: [0; 4],
    }
}

fn fields(r1: u8, r2: u8, d2: u16, imm: u16) -> Decoded
    ensures first { result.r1 ≡ r1 }
    ensures second { result.r2 ≡ r2 }
    ensures base { result.b2 ≡ 0 }
    ensures displacement { result.d2 ≡ d2 }
{
    Decoded {
        row: 0,
        r1,
        r2,
        b1: 0,
        d1: 0,
        b2: 0,
        d2,
        imm,
        len: 0,
    }
}

// SSM, STNSM and STOSM: the mask of X'43' is set to X'01', and-ed with X'F0' and or-ed with X'0C'.
#[tactic(auto, unfolding(esa_model::specs::ControlRows::fetched_len))]
#[test]
fn masks_are_stored_before_they_change(rt: HostRuntime) {
    let r = registers();
    let set = control(0x80, CPU, SIZE, 0, &r, &fields(0, 0, 0x801, 0), &[0x01]);
    assert_eq!(rt; set.registers.psw.w0, 0x0108_2000);
    let and = control(0xAC, CPU, SIZE, 0, &r, &fields(0, 0, 0, 0xF0), &[]);
    assert_eq!(rt; and.stored.as_slice(), [0x43].as_slice());
    assert_eq!(rt; and.registers.psw.w0, 0x4008_2000);
    let or = control(0xAD, CPU, SIZE, 0, &r, &fields(0, 0, 0, 0x0C), &[]);
    assert_eq!(rt; or.stored.as_slice(), [0x43].as_slice());
    assert_eq!(rt; or.registers.psw.w0, 0x4F08_2000);
}

// LPSW at X'808', and at X'804', which is a specification exception.
#[tactic(auto, unfolding(esa_model::specs::ControlRows::fetched_len))]
#[test]
fn psw_is_loaded_from_a_doubleword(rt: HostRuntime) {
    let r = registers();
    let operand = [1, 2, 3, 4, 5, 6, 7, 8];
    let load = control(0x82, CPU, SIZE, 0, &r, &fields(0, 0, 0x808, 0), &operand);
    assert_eq!(rt; load.fault, 0);
    assert_eq!(rt;
        load.registers.psw,
        Psw {
            w0: 0x0102_0304,
            w1: 0x0506_0708
        }
    );
    let early = control(0x82, CPU, SIZE, 0, &r, &fields(0, 0, 0x804, 0), &operand);
    assert_eq!(rt; early.fault, 6);
    assert_eq!(rt; early.registers.psw, PSW);
}

// SPX of a page inside the storage, of one outside and on a halfword; then STPX and STAP.
#[tactic(auto, unfolding(esa_model::specs::ControlRows::fetched_len))]
#[test]
fn prefix_has_bits_1_to_19(rt: HostRuntime) {
    let r = registers();
    for (word, d2, fault, prefix) in [
        ([0x80, 0x01, 0xF1, 0x23], 0x804, 0, 0x1_F000),
        ([0x00, 0x02, 0x00, 0x00], 0x804, 5, 0x8000_4321),
        ([0x80, 0x01, 0xF1, 0x23], 0x806, 6, 0x8000_4321),
    ] {
        let set = control(0xB210, CPU, SIZE, 0, &r, &fields(0, 0, d2, 0), &word);
        assert_eq!(rt; set.fault, fault);
        assert_eq!(rt; set.registers.prefix, prefix);
    }
    let prefix = control(0xB211, CPU, SIZE, 0, &r, &fields(0, 0, 0x804, 0), &[]);
    assert_eq!(rt; prefix.stored.as_slice(), [0, 0, 0x40, 0].as_slice());
    let number = control(0xB212, CPU, SIZE, 0, &r, &fields(0, 0, 0x802, 0), &[]);
    assert_eq!(rt; number.stored.as_slice(), [0, 5].as_slice());
}

// ISKE of X'3E', RRBE of each reference and change bit, SSKE from registers 2 and 3.
#[tactic(auto, unfolding(esa_model::specs::ControlRows::fetched_len))]
#[test]
fn reference_bit_goes_off(rt: HostRuntime) {
    let r = registers();
    let inserted = control(0xB229, CPU, SIZE, 0x3E, &r, &fields(3, 0, 0, 0), &[]);
    assert_eq!(rt; inserted.registers.general[3], 0x1000_003E);
    assert_eq!(rt; inserted.set_key, None);
    for (key, left, w0) in [
        (0xF8, 0xF8, 0x4308_0000),
        (0x1A, 0x1A, 0x4308_1000),
        (0xFC, 0xF8, 0x4308_2000),
        (0x1E, 0x1A, 0x4308_3000),
    ] {
        let reset = control(0xB22A, CPU, SIZE, key, &r, &fields(0, 0, 0, 0), &[]);
        assert_eq!(rt; reset.set_key, Some(left));
        assert_eq!(rt; reset.registers.psw.w0, w0);
    }
    for (n, key) in [(2, 0xFE), (3, 0xA4)] {
        let set = control(0xB22B, CPU, SIZE, 0, &r, &fields(n, 0, 0, 0), &[]);
        assert_eq!(rt; set.set_key, Some(key));
    }
}

// STCTL and LCTL of registers 14 to 1.
#[tactic(auto, unfolding(esa_model::specs::ControlRows::fetched_len))]
#[test]
fn register_0_follows_15(rt: HostRuntime) {
    let r = registers();
    let d = fields(14, 1, 0x804, 0);
    let stored = control(0xB6, CPU, SIZE, 0, &r, &d, &[]);
    let words = [0x20, 0, 0, 14, 0x20, 0, 0, 15, 0x20, 0, 0, 0, 0x20, 0, 0, 1];
    assert_eq!(rt; stored.stored.as_slice(), words.as_slice());
    let operand = [0, 0, 0, 1, 0, 0, 0, 2, 0, 0, 0, 3, 0, 0, 0, 4];
    let loaded = control(0xB7, CPU, SIZE, 0, &r, &d, &operand);
    let mut control = r.control;
    control[14] = 1;
    control[15] = 2;
    control[0] = 3;
    control[1] = 4;
    assert!(rt; loaded.registers.control == control);
}

#[test]
fn console_takes_1_to_256_bytes(rt: HostRuntime) {
    for (function, count, reads) in [
        (0x100, 1, Some(false)),
        (0x100, 256, Some(false)),
        (0x104, 256, Some(true)),
        (0x100, 0, None),
        (0x104, 257, None),
        (0x102, 1, None),
        (0x8000_0100, 1, None),
    ] {
        assert_eq!(rt; console_call(function, count), reads);
    }
}

fn is_row(op: u16) -> bool
    ensures { result ≡ is_clock_row op }
{
    matches!(op, 0xB205..=0xB209)
}

fn row(comparator: u64, end: u64, stored: Option<u64>) -> ClockRow {
    ClockRow {
        words: [comparator, end, 0, 0],
        stored,
    }
}

// STCK, SCKC, STCKC, SPT and STPT, from the comparator 7 and the timer's end 9: the timer is set to
// 5 at the clock 4,096, and to 4,096 at 4,096 before the clock's end; at 4,096 past its end it is
// below zero.
#[test]
fn timer_runs_down_with_the_clock(rt: HostRuntime) {
    for (op, clock, operand, answer) in [
        (0xB205, 0x1000, 1, row(7, 9, Some(0x1000))),
        (0xB206, 0x1000, 0x2000, row(0x2000, 9, None)),
        (0xB207, 0x1000, 1, row(7, 9, Some(7))),
        (0xB208, 0x1000, 5, row(7, 0x1005, None)),
        (0xB208, 0xFFFF_FFFF_FFFF_F000, 0x1000, row(7, 0, None)),
        (0xB209, 4, 1, row(7, 9, Some(5))),
        (0xB209, 0x1009, 1, row(7, 9, Some(0xFFFF_FFFF_FFFF_F000))),
    ] {
        assert!(rt; is_row(op));
        let made = clock_row(op, &[7, 9, 0, 0], clock, operand);
        assert!(rt; made == answer, "row {op}, clock {clock}");
    }
}
