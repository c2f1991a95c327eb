//! Numbers and bytes in the columns of a card.
ghost use Rattle.std.specs.Prelude.{◌≡◌, ◌+◌, ◌<◌, ◌≤◌, length, take, drop, IsTrue};
ghost use Rattle.byteorder.specs.Endian.{big_bytes};
ghost use Rattle.deck_model.specs.Card.{number_at, put};
ghost use Rattle.deck_model.specs.CardWriting.{fits_24};

use byteorder::{BigEndian, ByteOrder};

// The number in two bytes from a place.
pub fn two_at(bytes: &[u8], at: usize) -> u16
    requires { at + 2 ≤ length bytes.now }
    ensures { result ≡ number_at 2 at bytes.now }
{
    BigEndian::read_u16(&bytes[at..])
}

// The number in three bytes from a place.
pub fn three_at(bytes: &[u8], at: usize) -> u32
    requires { at + 3 ≤ length bytes.now }
    ensures value { result ≡ number_at 3 at bytes.now }
    ensures small { result < 16777216 }
{
    BigEndian::read_u24(&bytes[at..])
}

// Columns 17 on.
pub fn data_of(card: &[u8]) -> &[u8]
    requires { length card.now ≡ 80 }
    ensures value { result.now ≡ drop 16 card.now }
    ensures long { length result.now ≡ 64 }
{
    &card[16..]
}

pub fn first_of(bytes: &[u8], count: usize) -> &[u8]
    requires { count ≤ length bytes.now }
    ensures value { result.now ≡ take count bytes.now }
    ensures long { length result.now ≡ count }
{
    &bytes[..count]
}

#[tactic(auto, unfolding(deck_model::specs::Card::put))]
pub fn put_at(out: &mut [u8], at: usize, bytes: &[u8])
    requires { at + length bytes.now ≤ length out.old }
    ensures { out.new ≡ put at bytes.now out.old }
{
    out[at..at + bytes.len()].copy_from_slice(bytes);
}

pub fn two_bytes(n: u16) -> [u8; 2]
    ensures { result ≡ big_bytes 2 n }
{
    n.to_be_bytes()
}

pub fn three_bytes(n: u32) -> [u8; 3]
    requires { IsTrue (fits_24 n) }
    ensures { result ≡ big_bytes 3 n }
{
    [
        (n / 0x1_0000) as u8,
        (n / 0x100 % 0x100) as u8,
        (n % 0x100) as u8,
    ]
}
