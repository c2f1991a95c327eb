// What follows of the clauses of an attempt.
ghost use Rattle.std.specs.Prelude.{◌≡◌, ◌<◌, ℕ, length, Option};
ghost use Rattle.run_model.specs.Strikes.{mask_byte};
ghost use Rattle.run_model.specs.declared.faults.Cause.{Cause};
ghost use Rattle.run_model.specs.declared.faults.Unit.TheVariants.{A};
ghost use Rattle.core_states.specs.Trial.{Trial, FailsBy, passed_a};

/// An attempt fails by one cause or by none.
pub fn one_cause()
    ensures { (t : Trial) (o p : Option Cause) → FailsBy t o → FailsBy t p → o ≡ p }
{}

/// Where no bit of unit A is struck its packet passes as it was handed in.
pub fn passes_unstruck()
    ensures { (t : Trial) → ((k : ℕ) → k < length t.a
        → mask_byte t.lines t.core.0 A t.number k ≡ 0) → passed_a t ≡ t.a }
{}
