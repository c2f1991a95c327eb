ghost use Rattle.std.specs.Prelude.{◌≡◌, ◌≢◌, ◌<◌, ◌%◌, ◌==◌, ℕ, Bool, true, false, Option, Some, None, nat_lt, not};
ghost use Rattle.esa_model.specs.declared.machine.Registers.{Registers};
ghost use Rattle.esa_model.specs.Machine.{Machine, idle, next};
ghost use Rattle.run_model.specs.declared.faults.Cause.{Cause};
ghost use Rattle.run_model.specs.declared.logs.Config.{Config};
ghost use Rattle.run_model.specs.Script.{InForm};
ghost use Rattle.run_model.specs.Checkpoint.{word_of};
ghost use Rattle.run_model.specs.Cores.{lowest};
ghost use Rattle.run_model.specs.Fate.{Bits, Fate, Sight, bits, first_fate, read, recover_bits, run_bits, sight};
ghost use Rattle.run_model.specs.Strikes.{cause};
ghost use Rattle.runit_ecc.specs.Bounds.{AreRegisters};
ghost use Rattle.silicon.specs.Chip.{Chip, Stays};
ghost use Rattle.core_states.specs.Words.{Attempts, Changes, Fills, Rewrites, Scrubs, is_due, read_core, scrub_reading};
ghost use Rattle.core_states.specs.Read.{registers_read};
ghost use Rattle.checkpoint_laws.specs.Stored.{ClocksFit, StoredAs};
ghost use Rattle.checkpoint_laws.specs.Turn.{AfterTurn, BeforeTurn};

/// Before a turn the words of its core are to be read where the fate says so, they read as the fate
/// does, and where none is lost they say the core's registers.
pub fn read_as_the_fate_reads()
    ensures due { (z : Chip) (s : Fate) (c : ℕ) (r : Registers) → BeforeTurn z s c r
        → is_due z c ≡ (s.begun c % 16 == 0) }
    ensures reading { (z : Chip) (s : Fate) (c : ℕ) (r : Registers) → BeforeTurn z s c r
        → read_core z c ≡ read s c }
    ensures lost { (z : Chip) (s : Fate) (c : ℕ) (r : Registers) (lost : Option ℕ)
        → BeforeTurn z s c r → (scrub_reading z c).lost ≡ lost → (s.begun c % 16 == 0) ≡ true
        → (read s c).lost ≡ lost }
    ensures registers { (z : Chip) (s : Fate) (c : ℕ) (r : Registers) → BeforeTurn z s c r
        → AreRegisters r → ClocksFit r → (read_core z c).lost ≡ None
        → registers_read z c ≡ r }
{}

/// A turn of a running core leaves what the fate gives: where its CPU is idle, where a word is
/// lost, where an attempt fails, and where it commits, which writes the words that the step
/// changed.
pub fn turns_of_running_cores()
    ensures waits { (z z2 : Chip) (s : Fate) (g : Sight) (c : ℕ) (r : Registers)
        → BeforeTurn z s c r → g.waits ≡ true → Stays z z2
        → AfterTurn z z2 s (run_bits z.lines g s c) c r }
    ensures loses { (z z2 : Chip) (s : Fate) (g : Sight) (c w : ℕ) (r : Registers)
        → BeforeTurn z s c r → g.waits ≡ false → (scrub_reading z c).lost ≡ Some w
        → Scrubs c (Some w) z z2 → AfterTurn z z2 s (run_bits z.lines g s c) c r }
    ensures fails { (z z2 : Chip) (s : Fate) (g : Sight) (c : ℕ) (r : Registers) (why : Cause)
        → BeforeTurn z s c r → g.waits ≡ false → (scrub_reading z c).lost ≡ None
        → Attempts c z z2 → cause z.lines c (z.begun c) ≡ Some why
        → AfterTurn z z2 s (run_bits z.lines g s c) c r }
    ensures commits { (z z1 z2 : Chip) (s : Fate) (g : Sight) (c : ℕ) (r r2 : Registers)
        → BeforeTurn z s c r → g.waits ≡ false → (scrub_reading z c).lost ≡ None
        → Attempts c z z1 → cause z.lines c (z.begun c) ≡ None → Changes c r r2 z1 z2
        → ((w : ℕ) → w < 40 → g.changes w ≡ not (word_of r2 w == word_of r w))
        → AfterTurn z z2 s (run_bits z.lines g s c) c r2 }
    ensures steps { (z z1 z2 : Chip) (s : Fate) (m : Machine) (i c : ℕ) (r r2 : Registers)
        → BeforeTurn z s c r → idle m i ≡ false → (scrub_reading z c).lost ≡ None
        → Attempts c z z1 → cause z.lines c (z.begun c) ≡ None → Changes c r r2 z1 z2
        → r ≡ m.registers i → r2 ≡ (next m i).registers i
        → AfterTurn z z2 s (run_bits z.lines (sight m i) s c) c r2 }
{}

/// A turn of a recovering core leaves what the fate gives: below the threshold its words are read
/// and corrected; from there on a spare gets its registers, unless a word is lost or there is no
/// spare.
pub fn turns_of_recovering_cores()
    ensures retries { (z z2 : Chip) (t : ℕ) (s : Fate) (i c : ℕ) (r : Registers)
        (lost : Option ℕ) → BeforeTurn z s c r → nat_lt (s.cores.retries i) t ≡ true
        → (read_core z c).lost ≡ lost → Rewrites true c lost z z2
        → AfterTurn z z2 s (recover_bits t s i c) c r }
    ensures hands_over { (z z2 : Chip) (t : ℕ) (s : Fate) (i c k : ℕ) (r : Registers)
        → BeforeTurn z s c r → nat_lt (s.cores.retries i) t ≡ false
        → lowest s.cores.spare 0 16 ≡ Some k → (read_core z c).lost ≡ None → Fills k r z z2
        → AfterTurn z z2 s (recover_bits t s i c) k r }
    ensures loses { (z z2 : Chip) (t : ℕ) (s : Fate) (i c k w : ℕ) (r : Registers)
        → BeforeTurn z s c r → nat_lt (s.cores.retries i) t ≡ false
        → lowest s.cores.spare 0 16 ≡ Some k → (read_core z c).lost ≡ Some w → Stays z z2
        → AfterTurn z z2 s (recover_bits t s i c) c r }
    ensures has_no_spare { (z z2 : Chip) (t : ℕ) (s : Fate) (i c : ℕ) (r : Registers)
        → BeforeTurn z s c r → nat_lt (s.cores.retries i) t ≡ false
        → lowest s.cores.spare 0 16 ≡ None → Stays z z2
        → AfterTurn z z2 s (recover_bits t s i c) c r }
{}

/// A turn leaves every other core as it is, and one that does nothing leaves the turn's too. With
/// the first registers stored and no attempt begun the silicon is as the first fate wants it.
pub fn turns_leave_other_cores()
    ensures others { (z z2 : Chip) (s : Fate) (b : Bits) (c k : ℕ) (r q : Registers)
        → AfterTurn z z2 s b c r → k ≢ c → StoredAs z k q (s.wrong k)
        → StoredAs z2 k q (b.wrong k) }
    ensures quiet { (z z2 : Chip) (s : Fate) (c : ℕ) (r : Registers) → BeforeTurn z s c r
        → Stays z z2 → AfterTurn z z2 s (bits s) c r }
    ensures first { (z : Chip) (config : Config) (c : ℕ) (r : Registers) → InForm z.lines
        → z.begun c ≡ 0 → StoredAs z c r (λ w. 0) → BeforeTurn z (first_fate config) c r }
{}
