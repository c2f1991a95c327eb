//! What machines of one save have in common, as the clause of a function that does nothing.
ghost use Rattle.std.specs.Prelude.{◌≡◌};
ghost use Rattle.run_model.specs.Runs.{Model};
ghost use Rattle.silicon.specs.Chip.{Chip};
ghost use Rattle.g5_machine.specs.Standing.{StandsFor};
ghost use Rattle.g5_machine.specs.declared.machine.Machine.{Machine};
ghost use Rattle.saved_machine.specs.Again.{HasCallers, IsSized, IsTyped};
ghost use Rattle.saved_machine.specs.Saved.{saved};
ghost use Rattle.saved_machine.specs.declared.counts.Counts.{Counts};

/// Where a machine and its silicon stand for a state, another machine of the same save, with the
/// same console input left, stands for that state too.
#[tactic(auto, using(crate::proofs::StandingAgain::stands_again))]
pub fn machines_of_one_save_stand_alike()
    ensures { (m m2 : Machine) (n n2 : Counts) (z z2 : Chip) (x : Model) → StandsFor m z x
        → saved m n z ≡ saved m2 n2 z2 → m2.side.console ≡ m.side.console → IsTyped m → IsTyped m2
        → HasCallers m → HasCallers m2 → IsSized m → IsSized m2 → StandsFor m2 z2 x }
{}
