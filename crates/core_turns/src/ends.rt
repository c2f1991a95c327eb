// The ends of turns: with or without an event, and the change of pool and side that goes with it.
ghost use Rattle.std.specs.Prelude.{◌≡◌, ℕ, ◌+◌, ◌≤◌, ◌<◌, [], ◌∷◌, MatchOption};
ghost use Rattle.std.specs.Option.{option_map};
ghost use Rattle.sparing.specs.Pools.{lowest_number, put};
ghost use Rattle.core_turns.specs.Ends.{idle_side, stopped_side, Quits};
ghost use Rattle.core_turns.specs.Held.{CorePool, spare_number};
ghost use Rattle.core_turns.specs.Made.{made};
ghost use Rattle.core_turns.specs.Places.{on, in_pool};
ghost use Rattle.core_turns.specs.declared.held.Held.TheVariants as holding;

use crate::clock::advance_clock;
use crate::held::{Held, SparePool, Turned};
use crate::outcomes::Outcome;
use core_states::{FencedCore, SpareCore};
use esa_model::machine::{CpuNo, Psw};
use result_packet::{Side, Written};

/// A turn that commits nothing.
pub fn end_without_commit(held: Held, outcome: Outcome, written: &mut Written) -> Turned
    ensures { Quits held outcome (made result written.new) }
{
    written.changed.clear();
    written.console.clear();
    Turned {
        held,
        outcome,
        psw: Psw { w0: 0, w1: 0 },
    }
}

/// An idle turn.
pub fn end_idle(held: Held, side: &mut Side, written: &mut Written) -> Turned
    ensures turned { Quits held Outcome.Idle (made result written.new) }
    ensures side { side.new ≡ idle_side side.old }
{
    advance_clock(side);
    end_without_commit(held, Outcome::Idle, written)
}

/// A CPU is check-stopped.
fn check_stop(cpu: CpuNo, side: &mut Side)
    ensures { side.new ≡ stopped_side cpu.0 side.old }
{
    side.bus.check_stop(cpu);
    advance_clock(side);
}

/// A core is fenced.
#[tactic(auto, using(crate::proofs::Pools::absent_once, crate::proofs::Pools::one_fenced))]
fn fence(f: FencedCore, pool: &mut SparePool)
    requires { (n : ℕ) → on f.core.0 n + in_pool n pool.old ≤ 1 }
    ensures spares { pool.new.spares ≡ pool.old.spares }
    ensures moves { (n : ℕ) → in_pool n pool.new ≡ on f.core.0 n + in_pool n pool.old }
{
    pool.fence(f);
}

/// A transfer fences the core that the CPU had.
pub fn leave(f: FencedCore, pool: &mut SparePool)
    requires { (n : ℕ) → on f.core.0 n + in_pool n pool.old ≤ 1 }
    ensures spares { pool.new.spares ≡ pool.old.spares }
    ensures moves { (n : ℕ) → in_pool n pool.new ≡ on f.core.0 n + in_pool n pool.old }
{
    fence(f, pool);
}

/// A CPU is check-stopped, and its core is fenced. What is held keeps the core and its retries.
pub fn end_stopped(
    f: FencedCore,
    retries: u8,
    cpu: CpuNo,
    side: &mut Side,
    pool: &mut SparePool,
    written: &mut Written,
) -> Turned
    requires { (n : ℕ) → on f.core.0 n + in_pool n pool.old ≤ 1 }
    ensures turned { Quits (holding.Lost f.core retries) Outcome.Stopped (made result written.new) }
    ensures side { side.new ≡ stopped_side cpu.0 side.old }
    ensures spares { pool.new.spares ≡ pool.old.spares }
    ensures moves { (n : ℕ) → in_pool n pool.new ≡ on f.core.0 n + in_pool n pool.old }
{
    let core = f.core();
    check_stop(cpu, side);
    fence(f, pool);
    end_without_commit(Held::Lost(core, retries), Outcome::Stopped, written)
}

/// The spare of the lowest number.
pub fn take_spare(pool: &mut SparePool) -> Option<SpareCore>
    ensures lowest { option_map spare_number result ≡ lowest_number spare_number pool.old.spares }
    ensures taken { MatchOption result (pool.new ≡ pool.old)
        (λ s. pool.old.spares ≡ s ∷ pool.new.spares) }
    ensures moves { MatchOption result (pool.new ≡ pool.old)
        (λ s. (n : ℕ) → on s.core.0 n + in_pool n pool.new ≡ in_pool n pool.old) }
{
    pool.take()
}

/// A spare that was taken and not used is a spare again.
#[tactic(auto, using(crate::proofs::Pools::absent_once, crate::proofs::Pools::one_spare))]
pub fn put_spare_back(spare: SpareCore, pool: &mut SparePool)
    requires { (n : ℕ) → on spare.core.0 n + in_pool n pool.old ≤ 1 }
    ensures spares { pool.new ≡ record pool.old { spares = put spare_number spare pool.old.spares } }
    ensures moves { (n : ℕ) → in_pool n pool.new ≡ on spare.core.0 n + in_pool n pool.old }
{
    pool.put_back(spare);
}
