ghost use Rattle.std.specs.Prelude.{◌≡◌, ◌+◌, ◌-◌, ◌<◌, ◌≤◌, ◌^◌, ℕ, true, bit_xor, List, length, slice_index};
ghost use Rattle.esa_model.specs.declared.machine.Registers.{Registers};
ghost use Rattle.run_model.specs.declared.readings.Read.TheVariants.{Clean, Corrected, Uncorrectable};
ghost use Rattle.run_model.specs.Code.{IsCodeword, is_codeword, distance, flip, ones, highest, places, value_of, read_of, encoded};
ghost use Rattle.run_model.specs.Checkpoint.{registers_of, word_of};
ghost use Rattle.runit_ecc.specs.Bounds.{AreRegisters};

/// Two codewords that differ do so in at least four positions.
pub fn codewords_far_apart()
    ensures { (n c a b : ℕ) → n ≤ 2 ^ (c - 1) → IsCodeword n c a → IsCodeword n c b → (a ≡ b → ⊥) → 4 ≤ distance n a b }
{}

/// The test of a codeword holds exactly at the codewords.
#[tactic(auto, using(crate::proofs::Deciding::codeword_test, crate::proofs::Deciding::codeword_tested))]
pub fn codewords_are_tested()
    ensures tested { (n c w : ℕ) → is_codeword n c w ≡ true → IsCodeword n c w }
    ensures found { (n c w : ℕ) → IsCodeword n c w → is_codeword n c w ≡ true }
{}

/// A word is one position from at most one codeword.
#[tactic(auto, using(crate::proofs::Deciding::one_position))]
pub fn one_wrong_position()
    ensures { (n c w p q : ℕ) → n ≤ 2 ^ (c - 1) → p < n → q < n → IsCodeword n c (flip w p) → IsCodeword n c (flip w q) → p ≡ q }
{}

/// A codeword with no, one or two changed bits reads as its value, as its value with the position, and as lost.
#[tactic(auto, using(crate::proofs::Flipped::read_none, crate::proofs::Flipped::read_one, crate::proofs::Flipped::read_two))]
pub fn codewords_flipped()
    ensures none { (n c x e : ℕ) → n ≤ 2 ^ (c - 1) → IsCodeword n c x → e < 2 ^ n → ones n e ≡ 0 → read_of n c (bit_xor x e) ≡ Clean (value_of n x) }
    ensures one { (n c x e : ℕ) → n ≤ 2 ^ (c - 1) → IsCodeword n c x → e < 2 ^ n → ones n e ≡ 1 → read_of n c (bit_xor x e) ≡ Corrected (value_of n x) (highest n e) }
    ensures two { (n c x e : ℕ) → n ≤ 2 ^ (c - 1) → IsCodeword n c x → e < 2 ^ n → ones n e ≡ 2 → read_of n c (bit_xor x e) ≡ Uncorrectable }
{}

/// A codeword is determined by its value.
#[tactic(auto, using(crate::proofs::Unique::by_value))]
pub fn codewords_by_value()
    ensures { (n c a b : ℕ) → n ≤ 2 ^ (c - 1) → IsCodeword n c a → IsCodeword n c b → value_of n a ≡ value_of n b → a ≡ b }
{}

/// What is encoded is a codeword with the value.
#[tactic(auto, using(crate::proofs::Encoding::encoded_codeword, crate::proofs::Encoding::encoded_value))]
pub fn encoded_words()
    ensures codeword { (n c v : ℕ) → n ≤ 2 ^ (c - 1) → 2 ^ (c - 2) < n → IsCodeword n c (encoded n c v) }
    ensures value { (n c v : ℕ) → v < 2 ^ places n → value_of n (encoded n c v) ≡ v }
{}

/// Registers are what their 40 checkpoint words say, and word 35 is zero.
pub fn registers_restored()
    ensures restored { (words : List ℕ) (r : Registers) → AreRegisters r → length words ≡ 40 → ((w : ℕ) → w < 40 → slice_index words w ≡ word_of r w) → registers_of words ≡ r }
    ensures zero { (r : Registers) → word_of r 35 ≡ 0 }
{}
