use crate::agree;
use result_packet::Packet;
use std::test::Fail;

#[test]
fn one_byte_differs(rt: HostRuntime) -> Result<(), Fail> {
    let zeros = Packet::zeros();
    for at in [0, 3, 64, 143, 144, 255, 256, 300, 510, 511] {
        for value in [0x01, 0x80, 0xFF] {
            let mut other = zeros;
            other.set_byte(at, value);
            assert!(rt; !agree(&zeros, &other), "byte {at} is {value}");
            assert!(rt; !agree(&other, &zeros), "byte {at} is {value}");
            assert!(rt; agree(&other, &other), "byte {at} is {value}");
            other.set_byte(at, 0);
            assert!(rt; agree(&zeros, &other), "byte {at} is 0 again");
        }
    }
    Ok(())
}

#[test]
fn one_bit_differs(rt: HostRuntime) -> Result<(), Fail> {
    let mut packet = Packet::zeros();
    packet.set_byte(7, 0x5A);
    packet.set_byte(511, 0xA5);
    for bit in [0, 7, 61, 2000, 4088, 4095] {
        let mut other = packet;
        other.flip(bit);
        assert!(rt; !agree(&packet, &other), "bit {bit}");
        other.flip(bit);
        assert!(rt; agree(&packet, &other), "bit {bit} flipped twice");
    }
    Ok(())
}
