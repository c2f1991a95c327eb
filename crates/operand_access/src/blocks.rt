ghost use Rattle.std.specs.Prelude.{◌≡◌, ◌≤◌, ◌<◌, ◌+◌, ◌/◌, ◌^◌, true, length, All};
ghost use Rattle.esa_model.specs.Access.{place, has, noted, noted_all, noted_of, referenced};
ghost use Rattle.operand_access.specs.Seen.{IsInside, AreInside};

use crate::{Operand, Operands, place_of};
use arrayvec::ArrayVec;
use esa_model::machine::Registers;

fn has_block(blocks: &[u16], b: u16) -> bool
    ensures { result ≡ has b blocks.now }
{
    for x in blocks {
        if *x == b {
            return true;
        }
    }
    false
}

/// One block more, where it is not there.
#[tactic(auto, using(crate::proofs::TwoBlocks::length_noted), unfolding(esa_model::specs::Access::noted))]
fn note(blocks: &mut ArrayVec<u16, 8>, b: u16)
    requires { length (noted blocks.old.items b) ≤ 8 }
    ensures { blocks.new.items ≡ noted blocks.old.items b }
{
    if !has_block(blocks.as_slice(), b) {
        blocks.push(b);
    }
}

/// The blocks of the bytes at some offsets.
fn note_all(r: &Registers, at: u32, offsets: &[u8], blocks: &mut ArrayVec<u16, 8>)
    requires inside { All (λ k. place r.now (at + k) < 2 ^ 24) offsets.now }
    requires room { length (noted_all r.now at offsets.now blocks.old.items) ≤ 8 }
    ensures { blocks.new.items ≡ noted_all r.now at offsets.now blocks.old.items }
{
    for k in offsets {
        note(blocks, (place_of(r, at as u64 + *k as u64) / 4096) as u16);
    }
}

/// The same where there is room for two more.
fn note_within(r: &Registers, at: u32, offsets: &[u8], blocks: &mut ArrayVec<u16, 8>)
    requires inside { All (λ k. place r.now (at + k) < 2 ^ 24) offsets.now }
    requires room { length blocks.old.items ≤ 6 }
    ensures blocks { blocks.new.items ≡ noted_all r.now at offsets.now blocks.old.items }
    ensures room { length blocks.new.items ≤ length blocks.old.items + 2 }
{
    note_all(r, at, offsets, blocks);
}

/// Adds the blocks of an operand that is tested for fetching, each once, in the order of use. Its
/// bytes lie in at most two blocks.
#[tactic(auto, unfolding(esa_model::specs::Access::noted_of))]
pub fn note_operand(r: &Registers, o: &Operand, blocks: &mut ArrayVec<u16, 8>)
    requires inside { IsInside r.now (2 ^ 24) o.now }
    requires room { length blocks.old.items ≤ 6 }
    ensures blocks { blocks.new.items ≡ noted_of r.now o.now blocks.old.items }
    ensures room { length blocks.new.items ≤ length blocks.old.items + 2 }
{
    if o.fetch {
        note_within(r, o.at, o.offsets.as_slice(), blocks);
    }
}

/// The same for two operands, first those of the first.
#[tactic(auto, unfolding(esa_model::specs::Access::referenced))]
pub fn note_operands(r: &Registers, os: &Operands, blocks: &mut ArrayVec<u16, 8>)
    requires inside { AreInside r.now (2 ^ 24) os.now }
    requires room { length blocks.old.items ≤ 4 }
    ensures blocks { blocks.new.items ≡ referenced r.now os.now blocks.old.items }
    ensures room { length blocks.new.items ≤ length blocks.old.items + 4 }
{
    note_operand(r, &os.first, blocks);
    note_operand(r, &os.second, blocks);
}
