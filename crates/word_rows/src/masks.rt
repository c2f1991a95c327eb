// The bytes of a word that a mask of four bits selects.
// Source: Principles of Operation, chapter on general instructions.
ghost use Rattle.std.specs.Prelude.{◌≡◌, ◌+◌, ◌-◌, ◌^◌, ◌≤◌, ◌<◌, ◌++◌, ◌∷◌, [], if◌then◌else◌, length, map};
ghost use Rattle.std.specs.List.{list_all};
ghost use Rattle.esa_model.specs.MaskRows.{byte_of, insert_under_mask_row, inserted, inserted_code, is_zero, order_of_bytes, places, selected, with_byte};
ghost use Rattle.esa_model.specs.Rows.Stores.{masked_len};

use arrayvec::ArrayVec;
use esa_model::machine::Value;

/// Puts a place at the end where it is wanted.
fn note(out: &mut ArrayVec<u8, 4>, wanted: bool, place: u8)
    requires { length out.old.items < 4 }
    ensures places { out.new.items ≡ out.old.items ++ (if wanted then place ∷ [] else []) }
    ensures room { length out.new.items ≤ length out.old.items + 1 }
{
    if wanted {
        out.push(place);
    }
}

/// What the bit of a place counts in a mask.
fn weight(place: u8) -> u8
    requires { place < 4 }
    ensures value { result ≡ 2 ^ (3 - place) }
    ensures some { 0 < result }
{
    1u8 << (3 - place)
}

/// The places of the bytes that a mask selects, from the left.
#[tactic(auto, using(crate::proofs::Selected::places_more, crate::proofs::Selected::places_none, crate::proofs::Selected::places_all))]
pub(crate) fn places_of(mask: u8) -> ArrayVec<u8, 4>
    ensures places { result.items ≡ places mask }
    ensures few { length result.items ≤ 4 }
{
    let mut out = ArrayVec::new();
    for k in 0..4u8 {
        note(&mut out, mask / weight(k) % 2 == 1, k);
    }
    out
}

/// How many bytes a mask fetches: as many as it selects; a zero mask fetches one.
pub(crate) fn masked_count(mask: u8) -> u32
    ensures count { result ≡ masked_len mask }
    ensures few { result ≤ 4 }
    ensures enough { length (places mask) ≤ result }
{
    let places = places_of(mask);
    if mask == 0 { 1 } else { places.len() as u32 }
}

/// How many bytes a mask selects.
pub(crate) fn selected_count(mask: u8) -> u32
    ensures count { result ≡ length (places mask) }
    ensures few { result ≤ 4 }
{
    places_of(mask).len() as u32
}

/// A byte of a word, by its place from the left.
#[tactic(auto, using(crate::proofs::Selected::unit_last))]
fn byte_at_place(word: u32, place: u8) -> u8
    ensures { result ≡ byte_of word place }
{
    match place {
        0 => (word / 0x100_0000 % 256) as u8,
        1 => (word / 0x1_0000 % 256) as u8,
        2 => (word / 0x100 % 256) as u8,
        _ => (word % 256) as u8,
    }
}

/// A word with another byte at a place from the left.
#[tactic(auto, using(crate::proofs::Selected::unit_last))]
pub(crate) fn put_byte(word: u32, place: u8, byte: u8) -> u32
    ensures { result ≡ with_byte word place byte }
{
    match place {
        0 => word - word / 0x100_0000 % 256 * 0x100_0000 + byte as u32 * 0x100_0000,
        1 => word - word / 0x1_0000 % 256 * 0x1_0000 + byte as u32 * 0x1_0000,
        2 => word - word / 0x100 % 256 * 0x100 + byte as u32 * 0x100,
        _ => word - word % 256 + byte as u32,
    }
}

/// The bytes of a word at some places.
fn bytes_at(word: u32, places: &[u8]) -> ArrayVec<u8, 256>
    requires { length places.now ≤ 4 }
    ensures bytes { result.items ≡ map (byte_of word) places.now }
    ensures len { length result.items ≡ length places.now }
{
    let mut out = ArrayVec::new();
    for k in places {
        out.push(byte_at_place(word, *k));
    }
    out
}

/// The bytes of a word that a mask selects, from the left.
#[tactic(auto, unfolding(esa_model::specs::MaskRows::selected))]
pub(crate) fn selected_of(word: u32, mask: u8) -> ArrayVec<u8, 256>
    ensures bytes { result.items ≡ selected word mask }
    ensures len { length result.items ≡ length (places mask) }
    ensures few { length result.items ≤ 4 }
{
    bytes_at(word, places_of(mask).as_slice())
}

/// The word with successive bytes at some places.
fn inserted_at(word: u32, places: &[u8], bytes: &[u8]) -> u32
    requires { length places.now ≤ length bytes.now }
    ensures { result ≡ inserted word places.now bytes.now }
{
    let mut out = word;
    for n in 0..places.len() {
        out = put_byte(out, places[n], bytes[n]);
    }
    out
}

/// Whether bytes are all zero.
fn all_zero(bytes: &[u8]) -> bool
    ensures { result ≡ list_all is_zero bytes.now }
{
    bytes.iter().all(|b| *b == 0)
}

/// The condition code of inserted bytes.
#[tactic(auto, using(crate::proofs::Selected::code_by, crate::proofs::Selected::some_by))]
fn code_inserted(bytes: &[u8]) -> u8
    ensures code { result ≡ inserted_code bytes.now }
    ensures small { result < 3 }
{
    if all_zero(bytes) {
        0
    } else if bytes[0] < 128 {
        2
    } else {
        1
    }
}

/// ICM, from as many bytes as the mask selects, or more.
#[tactic(auto, unfolding(esa_model::specs::MaskRows::insert_under_mask_row))]
pub(crate) fn insert_under_mask(word: u32, mask: u8, bytes: &[u8]) -> Value
    requires { length (places mask) ≤ length bytes.now }
    ensures value { result ≡ insert_under_mask_row word mask bytes.now }
    ensures code { result.cc < 5 }
{
    let places = places_of(mask);
    Value {
        word: inserted_at(word, places.as_slice(), bytes),
        low: 0,
        cc: code_inserted(&bytes[..places.len()]),
        fault: 0,
    }
}

/// The comparison of bytes with as many others, or more.
pub(crate) fn order_of(xs: &[u8], ys: &[u8]) -> u8
    requires { length xs.now ≤ length ys.now }
    ensures code { result ≡ order_of_bytes xs.now ys.now }
    ensures small { result < 3 }
{
    for k in 0..xs.len() {
        if xs[k] != ys[k] {
            return if xs[k] < ys[k] { 1 } else { 2 };
        }
    }
    0
}
