ghost use Rattle.std.specs.Prelude.{◌≡◌, ◌≢◌, ◌<◌, ◌==◌, ℕ, Bool, true, false, Option, bit_xor, not, if◌then◌else◌};
ghost use Rattle.esa_model.specs.declared.machine.Registers.{Registers};
ghost use Rattle.run_model.specs.Checkpoint.{word_of};
ghost use Rattle.run_model.specs.Reading.{mended};
ghost use Rattle.run_model.specs.Script.{InForm};
ghost use Rattle.run_model.specs.Strikes.{flips};
ghost use Rattle.silicon.specs.Chip.{Chip};
ghost use Rattle.core_states.specs.Words.{Attempts, Changes, Fills, Rewrites, Scrubs, is_due};
ghost use Rattle.checkpoint_laws.specs.Stored.{FewWrong, KeepsOthers, StoredAs, after_strikes};

/// A core whose words were read up to the lost one stores the same registers. Where corrected words
/// were written back these have no wrong position; where nothing was written all are as they were.
pub fn words_read_back()
    ensures recovering { (z z2 : Chip) (c : ℕ) (r : Registers) (e : ℕ → ℕ) (lost : Option ℕ)
        → StoredAs z c r e → FewWrong e → Rewrites true c lost z z2
        → StoredAs z2 c r (mended e lost) }
    ensures running { (z z2 : Chip) (c : ℕ) (r : Registers) (e : ℕ → ℕ) (lost : Option ℕ)
        → StoredAs z c r e → FewWrong e → is_due z c ≡ true → Scrubs c lost z z2
        → StoredAs z2 c r (mended e lost) }
    ensures alone { (z z2 : Chip) (c : ℕ) (r : Registers) (e : ℕ → ℕ) (lost : Option ℕ)
        → StoredAs z c r e → Rewrites false c lost z z2 → StoredAs z2 c r e }
{}

/// A core stores the same registers as strikes land; a position that they flip is wrong where it
/// was not. So it is as an attempt begins.
pub fn words_struck()
    ensures strikes { (z z2 : Chip) (c n : ℕ) (r : Registers) (e : ℕ → ℕ) → StoredAs z c r e
        → InForm z.lines
        → ((w : ℕ) → w < 40 → z2.word c w ≡ bit_xor (z.word c w) (flips z.lines c n w))
        → StoredAs z2 c r (λ w. bit_xor (e w) (flips z.lines c n w)) }
    ensures attempts { (z z2 : Chip) (c : ℕ) (r : Registers) (e : ℕ → ℕ) → StoredAs z c r e
        → FewWrong e → InForm z.lines → Attempts c z z2 → StoredAs z2 c r (after_strikes z c e) }
{}

/// A core stores registers that are written to it. A word that is written has no wrong position;
/// where only the words were written whose value changed, the others keep theirs.
pub fn words_written()
    ensures changes { (z z2 : Chip) (c : ℕ) (r r2 : Registers) (e : ℕ → ℕ) → StoredAs z c r e
        → Changes c r r2 z z2
        → StoredAs z2 c r2 (λ w. if not (word_of r2 w == word_of r w) then 0 else e w) }
    ensures fills { (z z2 : Chip) (k : ℕ) (r : Registers) → Fills k r z z2
        → StoredAs z2 k r (λ w. 0) }
{}

/// A core stores what it did while its words stay, and each call on a core leaves the words of the
/// others.
pub fn words_kept()
    ensures stays { (z z2 : Chip) (c : ℕ) (r : Registers) (e e2 : ℕ → ℕ) → StoredAs z c r e
        → ((w : ℕ) → w < 40 → z2.word c w ≡ z.word c w)
        → ((w : ℕ) → w < 40 → e2 w ≡ e w) → StoredAs z2 c r e2 }
    ensures others { (z z2 : Chip) (c k : ℕ) (r : Registers) (e : ℕ → ℕ) → KeepsOthers c z z2
        → k ≢ c → StoredAs z k r e → StoredAs z2 k r e }
    ensures rewrites { (c : ℕ) (z z2 : Chip) (back : Bool) (lost : Option ℕ)
        → Rewrites back c lost z z2 → KeepsOthers c z z2 }
    ensures scrubs { (c : ℕ) (z z2 : Chip) (lost : Option ℕ) → Scrubs c lost z z2
        → KeepsOthers c z z2 }
    ensures attempts { (c : ℕ) (z z2 : Chip) → Attempts c z z2 → KeepsOthers c z z2 }
    ensures changes { (c : ℕ) (z z2 : Chip) (r r2 : Registers) → Changes c r r2 z z2
        → KeepsOthers c z z2 }
    ensures fills { (c : ℕ) (z z2 : Chip) (r : Registers) → Fills c r z z2
        → KeepsOthers c z z2 }
{}
