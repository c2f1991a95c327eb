// The numbers in registers have their widths.
ghost use Rattle.std.specs.Prelude.{◌≡◌, ◌<◌, ◌^◌, ℕ, length, slice_index};
ghost use Rattle.core_turns.specs.Held.{AreStorable};

use esa_model::machine::Registers;

// What is said of numbers by their type is known where they are read.
fn are_words(words: [u32; 16])
    ensures count { length words ≡ 16 }
    ensures small { (k : ℕ) → slice_index words k < 2 ^ 32 }
{
    let _words = words;
}

fn are_clocks(words: [u64; 4])
    ensures count { length words ≡ 4 }
    ensures small { (k : ℕ) → slice_index words k < 2 ^ 64 }
{
    let _words = words;
}

fn is_word(word: u32)
    ensures { word < 2 ^ 32 }
{
    let _word = word;
}

/// Registers are so many words: of the clocks each of 64 bits, the others each of 32.
#[tactic(auto, using(crate::proofs::Widths::registers_fit))]
pub fn are_registers(r: &Registers)
    ensures { AreStorable r.now }
{
    are_words(r.general);
    are_words(r.control);
    is_word(r.psw.w0);
    is_word(r.psw.w1);
    is_word(r.prefix);
    are_clocks(r.clocks);
}
