ghost use Rattle.std.specs.Prelude.{◌≡◌, ◌≢◌, ◌≤◌, ◌<◌, ◌+◌, ◌-◌, ◌*◌, ◌%◌, ◌^◌, ℕ, List, true, count_by};
ghost use Rattle.std.specs.Int.{bit_at};
ghost use Rattle.run_model.specs.declared.faults.Strike.{Strike};
ghost use Rattle.run_model.specs.declared.faults.Unit.{Unit};
ghost use Rattle.run_model.specs.declared.faults.Unit.TheVariants.{A, B};
ghost use Rattle.run_model.specs.Checkpoint.{width};
ghost use Rattle.run_model.specs.Code.{ones};
ghost use Rattle.run_model.specs.Premise.{hits_packet, hits_word, Within};
ghost use Rattle.run_model.specs.Script.{AllInRange};
ghost use Rattle.run_model.specs.Strikes.{flips, mask_byte, same_masks, struck, WithinAt};

/// A bit of a mask, and a flipped position of a word, is one that an odd number of lines hit.
#[tactic(auto, using(crate::proofs::Masks::lines_bit, crate::proofs::Masks::mask_small, crate::proofs::Masks::flips_bit))]
pub fn flipped_where_hit_oddly()
    ensures packets { (ls : List Strike) (c : ℕ) (u : Unit) (n k j : ℕ) → j < 8
        → bit_at (mask_byte ls c u n k) (7 - j) ≡ count_by (hits_packet c u n (8 * k + j)) ls % 2 }
    ensures bytes { (ls : List Strike) (c : ℕ) (u : Unit) (n k : ℕ) → mask_byte ls c u n k < 2 ^ 8 }
    ensures words { (ls : List Strike) (c n w b : ℕ)
        → bit_at (flips ls c n w) b ≡ count_by (hits_word c n w b) ls % 2 }
{}

/// The masks of both packets are the same exactly where their bytes are.
#[tactic(auto, using(crate::proofs::Masks::bytes_alike, crate::proofs::Masks::masks_alike))]
pub fn same_masks_have_same_bytes()
    ensures bytes { (ls : List Strike) (c n : ℕ) → same_masks ls c n ≡ true
        → (k : ℕ) → k < 512 → mask_byte ls c A n k ≡ mask_byte ls c B n k }
    ensures masks { (ls : List Strike) (c n : ℕ)
        → ((k : ℕ) → k < 512 → mask_byte ls c A n k ≡ mask_byte ls c B n k)
        → same_masks ls c n ≡ true }
{}

/// The premise on a whole script gives it at each attempt of each core.
#[tactic(auto, using(crate::proofs::Masks::within_at))]
pub fn premise_at_each_attempt()
    ensures { (ls : List Strike) → Within ls → (c n : ℕ) → c < 16 → WithinAt ls c n }
{}

/// The positions that an attempt flips in a word are the word's, and at most as many as the lines that
/// strike it then; so the sum with those of the attempts before it in its block is not above all these.
#[tactic(auto, using(crate::proofs::Struck::flips_small, crate::proofs::Struck::struck_first, crate::proofs::Struck::struck_step))]
pub fn flips_at_most_as_lines()
    ensures range { (ls : List Strike) (c n w : ℕ) → AllInRange ls → flips ls c n w < 2 ^ width w }
    ensures first { (ls : List Strike) (c n w : ℕ)
        → ones (width w) (flips ls c n w) ≤ struck ls c n w }
    ensures next { (ls : List Strike) (c n w : ℕ) → 0 < n → n % 16 ≢ 0
        → ones (width w) (flips ls c n w) + struck ls c (n - 1) w ≤ struck ls c n w }
{}
