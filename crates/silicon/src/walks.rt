// A script, where there is one, as its attempts are begun.
#![tactic(auto)]

ghost use Rattle.std.specs.Prelude.{◌≡◌, ◌≢◌, ℕ, ◌+◌, ◌<◌};
ghost use Rattle.silicon.specs.Lines.{lines_of, IsWalked};

use fault_script::Walk;
use run_model::faults::CoreNo;

/// One attempt of a core more is begun, after so many.
pub fn begin(walk: &mut Option<Walk>, core: CoreNo, begun: u64)
    requires { IsWalked walk.old core.0 begun }
    ensures lines { lines_of walk.new ≡ lines_of walk.old }
    ensures walked { IsWalked walk.new core.0 (begun + 1) }
    ensures others { (c n : ℕ) → c ≢ core.0 → IsWalked walk.old c n → IsWalked walk.new c n }
{
    match walk {
        None => {}
        Some(walk) => walk.begin(core, begun),
    }
}

/// So many attempts of a core are begun, of which none was begun.
pub fn begin_all(walk: &mut Option<Walk>, core: CoreNo, begun: u64)
    requires { IsWalked walk.old core.0 0 }
    ensures lines { lines_of walk.new ≡ lines_of walk.old }
    ensures walked { IsWalked walk.new core.0 begun }
    ensures others { (c n : ℕ) → c ≢ core.0 → IsWalked walk.old c n → IsWalked walk.new c n }
{
    for n in 0..begun {
        begin(walk, core, n);
    }
}
