// One packet of an SVC interruption after a store in two pieces.
use crate::{Fields, told};
use esa_model::machine::{Psw, Registers};

fn call() -> Fields {
    Fields {
        registers: Registers {
            general: [0x0102_0304; 16],
            control: [0xE0; 16],
            psw: Psw {
                w0: 0x0008_0000,
                w1: 0x8000_1000,
            },
            prefix: 0x2000,
            clocks: [0x0102_0304_0506_0708, 0x3000, 0, 0],
        },
        kind: 2,
        old: Psw {
            w0: 0x0708_0000,
            w1: 0x8000_0202,
        },
        identification: 0x0002_00FF,
        request: 0,
        sender: 0,
        order_to: 0xFF,
        order: 0,
        block: 0xFFFF,
        key: 0,
        console: 0,
        count: 0,
        first_len: 1,
        first_at: 0x1FFF,
        second_len: 2,
        second_at: 0x3000,
        block_count: 1,
        blocks: [1, 0, 0, 0, 0, 0, 0, 0],
        tail: [0xC1; 256],
    }
}

#[test]
fn a_packet_tells_its_fields(rt: HostRuntime) {
    let p = told(&call());
    assert_eq!(rt; p.psw().w1, 0x8000_1000);
    assert_eq!(rt; p.general(15), 0x0102_0304);
    assert_eq!(rt; p.clock_word(0), 0x0102_0304_0506_0708);
    assert_eq!(rt; p.clock_word(1), 0x3000);
    assert_eq!(rt; p.kind(), 2);
    assert_eq!(rt; p.identification(), 0x0002_00FF);
    assert_eq!(rt;
        [p.byte(166), p.byte(167), p.byte(168), p.byte(169)],
        [0, 0, 0x1F, 0xFF]
    );
    assert_eq!(rt; p.byte(142), 7);
    assert_eq!(rt; p.tail_byte(255), 0xC1);
}
