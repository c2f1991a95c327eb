// The lines of a storage.
#![tactic(auto)]

ghost use Rattle.std.specs.Prelude.{◌≡◌, ◌+◌, ◌≤◌, ◌^◌, ℕ, suc, nat_le, ◌++◌, length, slice_index};
ghost use Rattle.arrayvec.specs.ArrayVec.{array_vec_len};
ghost use Rattle.esa_model.specs.Table.{length_of};
ghost use Rattle.asm_text.specs.Lines.{IsSound, IsWithin, item_at, item_text, line_at, line_by};
ghost use Rattle.asm_text.specs.Lines.{listing, next_at, next_by, on_next, six_at};

use crate::texts::{put, text};
use arrayvec::ArrayVec;
use esa_model::instructions::Decoded;
use esa_table::decode;
use esa_words::{hex2, hex6};

/// What is at an address of a storage.
#[derive(Clone, Copy, Debug, PartialEq, Eq)]
pub enum Item {
    /// An instruction of the table that lies in the storage.
    Instruction(Decoded),
    /// Two bytes that begin none.
    Constant(u8, u8),
    /// Fewer than two bytes.
    Outside,
}

/// The byte at an address, and zero past the storage.
fn byte_at(storage: &[u8], at: usize) -> u8
    ensures { result ≡ slice_index storage.now at }
{
    match storage.get(at) {
        Some(byte) => *byte,
        None => 0,
    }
}

fn six_bytes(storage: &[u8], at: u32) -> [u8; 6]
    ensures { result ≡ six_at storage.now at }
{
    let at = at as usize;
    [
        byte_at(storage, at),
        byte_at(storage, at + 1),
        byte_at(storage, at + 2),
        byte_at(storage, at + 3),
        byte_at(storage, at + 4),
        byte_at(storage, at + 5),
    ]
}

/// The length of an instruction in bytes, by its first byte.
fn instruction_length(first: u8) -> u32
    ensures { result ≡ length_of first }
{
    if first < 64 {
        2
    } else if first < 192 {
        4
    } else {
        6
    }
}

/// Whether so many bytes from an address on lie in a storage.
fn lies(storage: &[u8], at: u32, count: u32) -> bool
    ensures { result ≡ nat_le (at + count) (length storage.now) }
{
    u64::from(at) + u64::from(count) <= storage.len() as u64
}

/// What is at an address of a storage: the instruction, where a row of the table has its opcode and
/// all of it lies in the storage; else the next two bytes; and Outside where they pass the storage.
#[tactic(auto, unfolding(crate::specs::Lines::item_at))]
pub fn item_from(storage: &[u8], at: u32) -> Item
    ensures is { result ≡ item_at storage.now at }
    ensures within { IsWithin storage.now at result }
{
    if !lies(storage, at, 2) {
        return Item::Outside;
    }
    let bytes = six_bytes(storage, at);
    match decode(&bytes) {
        Some(d) if lies(storage, at, instruction_length(bytes[0])) => Item::Instruction(d),
        _ => Item::Constant(bytes[0], bytes[1]),
    }
}

fn put_item(out: &mut ArrayVec<u8, 64>, item: Item)
    requires room { array_vec_len out.old ≤ 7 }
    requires sound { IsSound item }
    ensures text { out.new.items ≡ out.old.items ++ item_text item }
    ensures room { array_vec_len out.new ≤ 47 }
{
    match item {
        Item::Instruction(d) => put(out, &text(&d)),
        Item::Constant(a, b) => {
            put(out, b"DC X'");
            put(out, &hex2(a));
            put(out, &hex2(b));
            put(out, b"'");
        }
        Item::Outside => put(out, b"outside"),
    }
}

fn line(at: u32, item: Item) -> ArrayVec<u8, 64>
    requires { IsSound item }
    ensures { result.items ≡ line_by at item }
{
    let mut out = ArrayVec::new();
    put(&mut out, &hex6(at));
    put(&mut out, b" ");
    put_item(&mut out, item);
    put(&mut out, b"\n");
    out
}

/// The address behind what is at an address.
fn next(storage: &[u8], at: u32, item: Item) -> Option<u32>
    requires size { length storage.now ≤ 2 ^ 24 }
    requires within { IsWithin storage.now at item }
    ensures { result ≡ next_by storage.now at item }
{
    match item {
        Item::Instruction(_) => Some(at + instruction_length(byte_at(storage, at as usize))),
        Item::Constant(_, _) => Some(at + 2),
        Item::Outside => None,
    }
}

/// The line of an address of a storage of at most 16,777,216 bytes, and the address of the line
/// after it; None where this one says `outside` and is the last. A line is the address in six
/// hexadecimal digits (its low 24 bits), a blank, and the instruction's text, or `DC X'hhhh'` of
/// the next two bytes where there is no instruction, and ends with a line feed.
#[tactic(auto, unfolding(crate::specs::Lines::line_at, crate::specs::Lines::next_at, crate::specs::Lines::listing))]
pub fn dis_line(storage: &[u8], at: u32) -> (ArrayVec<u8, 64>, Option<u32>)
    requires { length storage.now ≤ 2 ^ 24 }
    ensures line { result.0.items ≡ line_at storage.now at }
    ensures next { result.1 ≡ next_at storage.now at }
    ensures listing { (n : ℕ) → listing storage.now (suc n) at
        ≡ result.0.items ++ on_next result.1 (λ a. listing storage.now n a) }
{
    let found = item_from(storage, at);
    (line(at, found), next(storage, at, found))
}
