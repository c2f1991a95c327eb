ghost use Rattle.std.specs.Prelude.{◌≡◌, ◌<◌, ◌^◌, ℕ, List, None};
ghost use Rattle.esa_model.specs.declared.machine.Registers.{Registers};
ghost use Rattle.run_model.specs.declared.faults.Strike.{Strike};
ghost use Rattle.run_model.specs.Checkpoint.{width};
ghost use Rattle.run_model.specs.Reading.{BoundAt, mended, read_words};
ghost use Rattle.run_model.specs.Strikes.{WithinAt};
ghost use Rattle.runit_ecc.specs.Bounds.{AreRegisters};
ghost use Rattle.silicon.specs.Chip.{Chip};
ghost use Rattle.core_states.specs.Words.{read_core};
ghost use Rattle.core_states.specs.Read.{registers_read};
ghost use Rattle.checkpoint_laws.specs.Stored.{ClocksFit, FewWrong, StoredAs};

/// The words of a core read by their wrong positions, where each word has at most two. Where none
/// is lost they say the registers that are stored, and the reading leaves no wrong position.
#[tactic(auto, using(crate::proofs::ReadAs::read_as, crate::proofs::ReadAs::registers_are, crate::proofs::ReadAs::none_left))]
pub fn stored_words_read()
    ensures reading { (z : Chip) (c : ℕ) (r : Registers) (e : ℕ → ℕ) → StoredAs z c r e
        → FewWrong e → read_core z c ≡ read_words e }
    ensures registers { (z : Chip) (c : ℕ) (r : Registers) (e : ℕ → ℕ) → StoredAs z c r e
        → FewWrong e → AreRegisters r → ClocksFit r → (read_words e).lost ≡ None
        → registers_read z c ≡ r }
    ensures none_left { (e : ℕ → ℕ) → FewWrong e → ((w : ℕ) → w < 40 → e w < 2 ^ width w)
        → (read_words e).lost ≡ None → (w : ℕ) → w < 40 → mended e None w ≡ 0 }
{}

/// Of a core whose attempts were all within the premise at most two positions in each word are
/// wrong.
pub fn bounded_words_have_few_wrong()
    ensures { (ls : List Strike) (c n : ℕ) (e : ℕ → ℕ) → BoundAt ls c n e
        → ((k : ℕ) → k < n → WithinAt ls c k) → FewWrong e }
{}
