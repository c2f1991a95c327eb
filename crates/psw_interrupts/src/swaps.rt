// The places of old and new PSW and of the identification.
ghost use Rattle.std.specs.Prelude.{◌≡◌, ◌<◌};
ghost use Rattle.esa_model.specs.Places.{old_at, new_at, identification_at};
ghost use Rattle.psw_interrupts.specs.Parts.{kind_of};

use esa_model::events::Interruption;

/// Where an interruption stores the old PSW, takes the new one, and stores its identification, as
/// real addresses. A restart has no identification, which 0 stands for.
#[derive(Clone, Copy, Debug, PartialEq, Eq)]
pub struct Swap {
    pub old_at: u16,
    pub new_at: u16,
    pub identification: u16,
}

/// The places of an interruption.
///
/// Source: Principles of Operation, assigned storage locations.
pub fn places_of(kind: Interruption) -> Swap
    ensures old { result.old_at ≡ old_at kind }
    ensures new { result.new_at ≡ new_at kind }
    ensures identification { result.identification ≡ identification_at kind }
    ensures low { result.old_at < 256 }
    ensures near { result.new_at < 256 }
    ensures short { result.identification < 256 }
{
    match kind {
        Interruption::Program => Swap {
            old_at: 40,
            new_at: 104,
            identification: 140,
        },
        Interruption::SupervisorCall => Swap {
            old_at: 32,
            new_at: 96,
            identification: 136,
        },
        Interruption::External => Swap {
            old_at: 24,
            new_at: 88,
            identification: 132,
        },
        Interruption::Restart => Swap {
            old_at: 8,
            new_at: 0,
            identification: 0,
        },
    }
}

/// The places of an interruption by the number that packets have for it: 1 is program, 2 SVC, 3
/// external, 4 restart; any other has those of a restart.
pub fn swap_of(kind: u8) -> Swap
    ensures old { result.old_at ≡ old_at (kind_of kind) }
    ensures new { result.new_at ≡ new_at (kind_of kind) }
    ensures identification { result.identification ≡ identification_at (kind_of kind) }
{
    match kind {
        1 => places_of(Interruption::Program),
        2 => places_of(Interruption::SupervisorCall),
        3 => places_of(Interruption::External),
        _ => places_of(Interruption::Restart),
    }
}
