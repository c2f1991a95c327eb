// What an attempt does once it has begun: a latch, two units, their comparison, a latch.
ghost use Rattle.std.specs.Prelude.{◌≡◌, ◌+◌, ◌-◌, ◌^◌, ◌<◌, IsTrue, IsSome, false};
ghost use Rattle.run_model.specs.Strikes.{mask_byte};
ghost use Rattle.run_model.specs.declared.faults.Unit.TheVariants as unit;
ghost use Rattle.silicon.specs.Chip.{Stays, last};
ghost use Rattle.silicon.specs.Tape.{tell, tells};
ghost use Rattle.silicon.specs.declared.handed.Handed.TheVariants as handed;
ghost use Rattle.core_states.specs.Trial.{setting, fetch_latch as latch_due, waits, packet_due, IsDue, IsStepAt};
ghost use Rattle.core_states.specs.Trial.{last_trial, bytes_in, hands_by, calls_by};
ghost use Rattle.core_states.specs.Tried.{TriedAs, TriedFails, TriedSteps, PassedBoth, why};

use crate::latches::{fetch_latch, passes_fetch, passes_store, store_latch};
use abs_storage::View;
use comparator::agree;
use esa_model::machine::{CpuNo, Registers};
use result_packet::{FetchLatch, Packet, Side};
use run_model::faults::{Cause, CoreNo, Unit};
use silicon::Silicon;
use twin_units::ResultUnit;

/// The packet that is to be carried out, or why there is none.
pub(crate) enum Tried {
    Done(Packet),
    Failed(Cause),
}

// The packets of two units, passed and compared: unit A's, where they agree.
fn both<V: View, Z: Silicon, P: ResultUnit, Q: ResultUnit>(
    core: CoreNo,
    latch: &FetchLatch,
    r: &Registers,
    cpu: CpuNo,
    view: &mut V,
    side: &Side,
    z: &mut Z,
    a: &mut P,
    b: &mut Q,
) -> Option<Packet>
    requires core { core.0 < 16 }
    requires begun { 0 < (Z.seen z.old).begun core.0 }
    requires calls_a { (P.seen a.old).calls < 2 ^ 64 - 1 }
    requires calls_b { (Q.seen b.old).calls < 2 ^ 64 - 1 }
    requires latch { latch.now.bytes
        ≡ (latch_due (setting r.now cpu.0 (V.bytes view.old) side.now)).bytes }
    ensures due_a { IsTrue (P.seen a.old).exact → IsDue
        (setting r.now cpu.0 (V.bytes view.old) side.now) (bytes_in (P.seen a.new).last) }
    ensures due_b { IsTrue (Q.seen b.old).exact → IsDue
        (setting r.now cpu.0 (V.bytes view.old) side.now) (bytes_in (Q.seen b.new).last) }
    ensures step_a { IsTrue (P.seen a.old).exact → IsStepAt
        (setting r.now cpu.0 (V.bytes view.old) side.now) (bytes_in (P.seen a.new).last) }
    ensures passed { PassedBoth
        (mask_byte (Z.seen z.old).lines core.0 unit.A (last (Z.seen z.old) core.0))
        (mask_byte (Z.seen z.old).lines core.0 unit.B (last (Z.seen z.old) core.0))
        (P.seen a.new).last (Q.seen b.new).last result }
    ensures calls_a { (P.seen a.new).calls ≡ (P.seen a.old).calls + 1 }
    ensures calls_b { (Q.seen b.new).calls ≡ (Q.seen b.old).calls + 1 }
    ensures kind_a { (P.seen a.new).exact ≡ (P.seen a.old).exact }
    ensures kind_b { (Q.seen b.new).exact ≡ (Q.seen b.old).exact }
    ensures said_a { IsSome (P.seen a.new).last }
    ensures said_b { IsSome (Q.seen b.new).last }
    ensures stays { Stays (Z.seen z.old) (Z.seen z.new) }
    ensures tape { Z.tape z.new ≡ tell (tell (Z.tape z.old)
        (handed.Packet core (last (Z.seen z.old) core.0) unit.A (bytes_in (P.seen a.new).last)))
        (handed.Packet core (last (Z.seen z.old) core.0) unit.B (bytes_in (Q.seen b.new).last)) }
    ensures view { V.bytes view.new ≡ V.bytes view.old }
{
    let mut p = a.work(latch, r, cpu, view, side);
    let mut q = b.work(latch, r, cpu, view, side);
    z.pass(core, Unit::A, &mut p);
    z.pass(core, Unit::B, &mut q);
    if agree(&p, &q) { Some(p) } else { None }
}

/// The last attempt that a core began: its packet, or why it failed.
#[tactic(auto, using(crate::proofs::Tries::tried_fetch, crate::proofs::Tries::tried_mismatch, crate::proofs::Tries::tried_store, crate::proofs::Tries::tried_done, crate::proofs::Tries::tried_steps), unfolding(crate::specs::Trial::passed_a, crate::specs::Trial::passed_b, crate::specs::Trial::fetch_good, crate::specs::Trial::store_good))]
pub(crate) fn finish<V: View, Z: Silicon, P: ResultUnit, Q: ResultUnit>(
    core: CoreNo,
    r: &Registers,
    cpu: CpuNo,
    view: &mut V,
    side: &Side,
    z: &mut Z,
    a: &mut P,
    b: &mut Q,
) -> Tried
    requires core { core.0 < 16 }
    requires begun { 0 < (Z.seen z.old).begun core.0 }
    requires calls_a { (P.seen a.old).calls < 2 ^ 64 - 1 }
    requires calls_b { (Q.seen b.old).calls < 2 ^ 64 - 1 }
    ensures exact { IsTrue (P.seen a.old).exact → IsTrue (Q.seen b.old).exact
        → waits (setting r.now cpu.0 (V.bytes view.old) side.now) ≡ false
        → TriedAs (Z.seen z.old).lines core.0 (last (Z.seen z.old) core.0)
        (packet_due (setting r.now cpu.0 (V.bytes view.old) side.now)) result }
    ensures steps { IsTrue (P.seen a.old).exact
        → TriedSteps (Z.seen z.old).lines core.0 (last (Z.seen z.old) core.0)
        (setting r.now cpu.0 (V.bytes view.old) side.now) result }
    ensures fails { TriedFails (last_trial (Z.seen z.old) core
        (setting r.now cpu.0 (V.bytes view.old) side.now) (P.seen a.new) (Q.seen b.new)) result }
    ensures tape { Z.tape z.new ≡ tells (Z.tape z.old) (hands_by (last_trial (Z.seen z.old) core
        (setting r.now cpu.0 (V.bytes view.old) side.now) (P.seen a.new) (Q.seen b.new))
        (why result)) }
    ensures calls_a { (P.seen a.new).calls ≡ (P.seen a.old).calls + calls_by (why result) }
    ensures calls_b { (Q.seen b.new).calls ≡ (Q.seen b.old).calls + calls_by (why result) }
    ensures kind_a { (P.seen a.new).exact ≡ (P.seen a.old).exact }
    ensures kind_b { (Q.seen b.new).exact ≡ (Q.seen b.old).exact }
    ensures said_a { calls_by (why result) ≡ 1 → IsSome (P.seen a.new).last }
    ensures said_b { calls_by (why result) ≡ 1 → IsSome (Q.seen b.new).last }
    ensures due_a { IsTrue (P.seen a.old).exact → calls_by (why result) ≡ 1 → IsDue
        (setting r.now cpu.0 (V.bytes view.old) side.now) (bytes_in (P.seen a.new).last) }
    ensures due_b { IsTrue (Q.seen b.old).exact → calls_by (why result) ≡ 1 → IsDue
        (setting r.now cpu.0 (V.bytes view.old) side.now) (bytes_in (Q.seen b.new).last) }
    ensures step_a { IsTrue (P.seen a.old).exact → calls_by (why result) ≡ 1 → IsStepAt
        (setting r.now cpu.0 (V.bytes view.old) side.now) (bytes_in (P.seen a.new).last) }
    ensures stays { Stays (Z.seen z.old) (Z.seen z.new) }
    ensures view { V.bytes view.new ≡ V.bytes view.old }
{
    let mut latch = fetch_latch(r, cpu, view, side);
    if !passes_fetch(core, &mut latch, z) {
        return Tried::Failed(Cause::Fetch);
    }
    match both(core, &latch, r, cpu, view, side, z, a, b) {
        None => Tried::Failed(Cause::Mismatch),
        Some(p) => {
            let mut store = store_latch(&p);
            if passes_store(core, &mut store, z) {
                Tried::Done(p)
            } else {
                Tried::Failed(Cause::Store)
            }
        }
    }
}
