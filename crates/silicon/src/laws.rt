ghost use Rattle.std.specs.Prelude.{◌≡◌, ◌<◌, ℕ, List, length};
ghost use Rattle.silicon.specs.Chip.{masked};

/// Two masks that make the same of some bytes are one mask over them, a mask of zeros leaves them,
/// and none changes how many there are.
#[tactic(auto, using(crate::proofs::Masked::told_alike, crate::proofs::Masked::told_none, crate::proofs::Masked::masked_length))]
pub fn masks_of_passed_packets()
    ensures same { (f g : ℕ → ℕ) (bs : List ℕ) → masked f 0 bs ≡ masked g 0 bs
        → (k : ℕ) → k < length bs → f k ≡ g k }
    ensures alike { (f g : ℕ → ℕ) (bs : List ℕ) → ((k : ℕ) → k < length bs → f k ≡ g k)
        → masked f 0 bs ≡ masked g 0 bs }
    ensures none { (f : ℕ → ℕ) (bs : List ℕ) → ((k : ℕ) → k < length bs → f k ≡ 0)
        → masked f 0 bs ≡ bs }
    ensures size { (f : ℕ → ℕ) (bs : List ℕ) → length (masked f 0 bs) ≡ length bs }
{}
