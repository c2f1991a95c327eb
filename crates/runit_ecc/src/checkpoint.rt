ghost use Rattle.std.specs.Prelude.{◌≡◌, ◌<◌, length, map};
ghost use Rattle.run_model.specs.Checkpoint.{low_half, registers_of, word_of};

use esa_model::machine::{Psw, Registers};

/// The checkpoint word of this number: 0 to 15 are the general registers, 16 to 31 the control
/// registers, 32 and 33 the PSW, 34 the prefix, 35 is zero, 36 to 39 are the clock words.
#[tactic(auto, unfolding(run_model::specs::Checkpoint::word_of))]
pub fn word_of(r: &Registers, word: u8) -> u64
    requires { word < 40 }
    ensures { result ≡ word_of r.now word }
{
    match word {
        0..=15 => u64::from(r.general[usize::from(word)]),
        16..=31 => u64::from(r.control[usize::from(word - 16)]),
        32 => u64::from(r.psw.w0),
        33 => u64::from(r.psw.w1),
        34 => u64::from(r.prefix),
        35 => 0,
        _ => r.clocks[usize::from(word - 36)],
    }
}

fn low_half(word: u64) -> u32
    ensures { result ≡ low_half word }
{
    (word % (1 << 32)) as u32
}

// The low 32 bits of 16 words.
#[tactic(auto, using(crate::proofs::Restored::halved))]
fn low_halves(words: &[u64]) -> [u32; 16]
    requires { length words.now ≡ 16 }
    ensures { result ≡ map low_half words.now }
{
    let mut halves = [0; 16];
    for i in 0..16 {
        halves[i] = low_half(words[i]);
    }
    halves
}

/// The registers that 40 checkpoint words say; of a word that is kept in 32 bits, the low ones.
#[tactic(auto, unfolding(run_model::specs::Checkpoint::registers_of))]
pub fn registers_of(words: &[u64; 40]) -> Registers
    ensures { result ≡ registers_of words.now }
{
    let mut clocks = [0; 4];
    clocks.copy_from_slice(&words[36..]);
    Registers {
        general: low_halves(&words[..16]),
        control: low_halves(&words[16..32]),
        psw: Psw {
            w0: low_half(words[32]),
            w1: low_half(words[33]),
        },
        prefix: low_half(words[34]),
        clocks,
    }
}
