//! Bytes and constants in the storage.
ghost use Rattle.std.specs.Prelude.{◌≡◌, ◌+◌, ◌%◌, ◌<◌, ◌≤◌, ◌^◌, length, take, slice_index};
ghost use Rattle.byteorder.specs.Endian.{big_number, big_bytes};
ghost use Rattle.deck_model.specs.Image.{added, bytes_from};
ghost use Rattle.deck_loader.specs.Written.{stored, relocated};

use abs_storage::AbsStorage;
use arrayvec::ArrayVec;
use byteorder::{BigEndian, ByteOrder};

/// Stores bytes from a place on.
pub fn store_all(storage: &mut AbsStorage, at: u32, bytes: &[u8])
    requires inside { at + length bytes.now ≤ length storage.old }
    requires most { length storage.old ≤ 16777216 }
    ensures value { storage.new ≡ stored at bytes.now storage.old }
    ensures long { length storage.new ≡ length storage.old }
{
    let mut rest = bytes;
    let mut place = at;
    while let Some((b, after)) = rest.split_first() {
        let _ = storage.store(place, *b);
        place += 1;
        rest = after;
    }
}

/// The byte of the storage at an address, and 0 outside.
pub fn byte_at(storage: &AbsStorage, at: u32) -> u8
    ensures { result ≡ slice_index storage.now at }
{
    match storage.fetch(at) {
        Some(b) => b,
        None => 0,
    }
}

// The bytes of a constant.
fn constant_bytes(storage: &AbsStorage, at: u32, width: u8) -> ArrayVec<u8, 4>
    requires width { width ≤ 4 }
    requires inside { at + width ≤ length storage.now }
    requires most { length storage.now ≤ 16777216 }
    ensures bytes { result.items ≡ bytes_from (slice_index storage.now) at width }
    ensures long { length result.items ≡ width }
{
    let mut bytes = ArrayVec::new();
    for i in 0..width {
        bytes.push(byte_at(storage, at + u32::from(i)));
    }
    bytes
}

fn limit_of(width: u8) -> u128
    requires low { 1 ≤ width }
    requires high { width ≤ 4 }
    ensures value { result ≡ 256 ^ width }
    ensures positive { 0 < result }
    ensures small { result ≤ 4294967296 }
{
    match width {
        1 => 0x100,
        2 => 0x1_0000,
        3 => 0x100_0000,
        _ => 0x1_0000_0000,
    }
}

fn rest_of(n: u128, limit: u128) -> u128
    requires { 0 < limit }
    ensures value { result ≡ n % limit }
    ensures below { result < limit }
{
    n % limit
}

fn sum_of(minus: bool, width: u8, value: u64, constant: u64) -> u64
    requires low { 1 ≤ width }
    requires high { width ≤ 4 }
    ensures sum { result ≡ added minus width value constant }
    ensures fits { result < 256 ^ width }
{
    let limit = limit_of(width);
    let value = u128::from(value);
    let constant = u128::from(constant);
    if minus {
        rest_of(constant + 0x1_0000_0000 - value % 0x1_0000_0000, limit) as u64
    } else {
        rest_of(constant + value, limit) as u64
    }
}

fn constant_in(bytes: &[u8], width: u8) -> u64
    requires low { 1 ≤ width }
    requires high { width ≤ 4 }
    requires long { length bytes.now ≡ width }
    ensures { result ≡ big_number width bytes.now }
{
    BigEndian::read_uint(bytes, usize::from(width))
}

// The bytes of a sum, highest first.
fn bytes_of(sum: u64, width: u8) -> [u8; 8]
    requires low { 1 ≤ width }
    requires high { width ≤ 4 }
    requires fits { sum < 256 ^ width }
    ensures { take width result ≡ big_bytes width sum }
{
    let mut bytes = [0; 8];
    BigEndian::write_uint(&mut bytes, sum, usize::from(width));
    bytes
}

/// Adds a value to a constant, or subtracts it.
#[tactic(auto, unfolding(crate::specs::Written::relocated))]
pub fn relocate_one(storage: &mut AbsStorage, at: u32, width: u8, minus: bool, value: u64)
    requires low { 1 ≤ width }
    requires high { width ≤ 4 }
    requires inside { at + width ≤ length storage.old }
    requires most { length storage.old ≤ 16777216 }
    ensures value { storage.new ≡ relocated at width minus value storage.old }
    ensures long { length storage.new ≡ length storage.old }
{
    let constant = constant_in(&constant_bytes(storage, at, width), width);
    let sum = bytes_of(sum_of(minus, width, value, constant), width);
    store_all(storage, at, &sum[..usize::from(width)]);
}
