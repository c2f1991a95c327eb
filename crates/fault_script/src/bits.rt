// A set of bits that knows whether it is empty.
#![tactic(auto)]

ghost use Rattle.std.specs.Prelude.{◌≡◌, ℕ, ◌<◌, ◌↔◌, false, IsTrue, IfOk, length, slice_index_or};
ghost use Rattle.std.specs.Prelude.{count_by, Bool};

use std::alloc::{AllocError, Global};

#[derive(Drop)]
pub struct Bits {
    odd: Vec<bool>,
    ones: usize,
    ghost counted: { ones ≡ count_by (λ (x : Bool). x) odd.items },
}

impl Bits {
    ghost use Rattle.fault_script.specs.Changes.{flipped};

    // The empty set of the bits 0 to 4095.
    pub fn new(alloc: Global) -> Result<Bits, AllocError>
        ensures size { IfOk result (λ t. length t.odd.items ≡ 4096) }
        ensures empty { IfOk result (λ t. (b : ℕ) → slice_index_or t.odd.items b false ≡ false) }
    {
        zeros(alloc, 4096)
    }

    // Puts the bit in or takes it out, where it was hit.
    pub fn flip(&mut self, hit: bool, i: usize)
        ensures { self.new.odd.items ≡ flipped self.old.odd.items hit i }
    {
        if hit && i < self.odd.len() {
            let was = self.odd[i];
            self.odd[i] = !was;
            self.ones = if was { self.ones - 1 } else { self.ones + 1 };
        }
    }

    pub fn is_empty(&self) -> bool
        ensures { IsTrue result ↔ ((b : ℕ) → b < length self.now.odd.items
            → slice_index_or self.now.odd.items b false ≡ false) }
    {
        self.ones == 0
    }
}

fn zeros(alloc: Global, n: usize) -> Result<Bits, AllocError>
    ensures size { IfOk result (λ t. length t.odd.items ≡ n) }
    ensures empty { IfOk result (λ t. (b : ℕ) → slice_index_or t.odd.items b false ≡ false) }
{
    let odd = vec![in alloc; false; n]?;
    Ok(Bits { odd, ones: 0 })
}
