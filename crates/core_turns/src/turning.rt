// A turn of a CPU, whatever is held for it.
ghost use Rattle.std.specs.Prelude.{◌≡◌, ◌+◌, ◌-◌, ◌^◌, ◌<◌, ◌≤◌, ℕ, IsTrue, length};
ghost use Rattle.esa_model.specs.Changes.{stretches};
ghost use Rattle.run_model.specs.Runs.{Model, turned};
ghost use Rattle.run_model.specs.declared.logs.Config.{Config};
ghost use Rattle.run_model.specs.declared.schedules.RunKind.TheVariants as kinds;
ghost use Rattle.core_turns.specs.ChipAfter.{Rises, TurnChanges};
ghost use Rattle.core_turns.specs.Following.{Followed, IsBefore};
ghost use Rattle.core_turns.specs.Giving.{IsSureCommit, StaysUnlessCommitted, TurnGives};
ghost use Rattle.core_turns.specs.Handing.{AnswersDue, Finds, HandsIn, calls_of, hands};
ghost use Rattle.silicon.specs.Tape.{tells};
ghost use Rattle.core_turns.specs.Held.{IsThere, HoldsRegisters, core_of};
ghost use Rattle.core_turns.specs.Journals.{IsBlank, noted};
ghost use Rattle.core_turns.specs.Made.{made};
ghost use Rattle.core_turns.specs.Meeting.{TurnGoes, next_cause, why_met};
ghost use Rattle.core_turns.specs.Places.{with_cpu, in_pool};
ghost use Rattle.core_turns.specs.Recovered.{Recovers};

use crate::ends::end_idle;
use crate::held::{Held, SparePool, Turned};
use crate::journal::Stamp;
use crate::recovering::turn_recovering;
use crate::running::turn_running;
use arrayvec::ArrayVec;
use esa_model::machine::CpuNo;
use result_packet::{Side, Written};
use run_model::logs::Entry;
use seen_memory::Memory;
use silicon::Silicon;
use twin_units::ResultUnit;

// The same by what is held.
fn turn_in_mode<Z: Silicon, P: ResultUnit, Q: ResultUnit>(
    held: Held,
    cpu: CpuNo,
    threshold: u8,
    memory: &mut Memory,
    side: &mut Side,
    pool: &mut SparePool,
    z: &mut Z,
    a: &mut P,
    b: &mut Q,
    stamp: Stamp,
    entries: &mut ArrayVec<Entry, 44>,
    written: &mut Written,
) -> Turned
    requires known { cpu.0 < 8 }
    requires blank { IsBlank (noted stamp entries.old.items) cpu.0 (core_of held) }
    requires small { threshold ≤ 15 }
    requires begun { (Z.seen z.old).begun (core_of held) < 2 ^ 64 - 1 }
    requires calls_a { (P.seen a.old).calls < 2 ^ 64 - 1 }
    requires calls_b { (Q.seen b.old).calls < 2 ^ 64 - 1 }
    requires once { (n : ℕ) → with_cpu n held + in_pool n pool.old ≤ 1 }
    ensures goes { TurnGoes threshold stamp.turn cpu.0 held side.old pool.old
        (Z.seen z.old) entries.new.items result.outcome result.held pool.new }
    ensures chip { TurnChanges threshold cpu.0 held side.old pool.old
        (why_met (Z.seen z.old) held result.outcome) result.held (Z.seen z.old) (Z.seen z.new) }
    ensures finds { Finds held (Z.seen z.old) cpu.0 memory.old.bytes side.old
        (P.seen a.new) (Q.seen b.new) result.outcome }
    ensures causes { IsTrue (P.seen a.old).exact → IsTrue (Q.seen b.old).exact
        → why_met (Z.seen z.old) held result.outcome ≡ next_cause (Z.seen z.old) (core_of held) }
    ensures recovered { Recovers held (Z.seen z.old) result.held }
    ensures gives { IsSureCommit result.outcome (P.seen a.old).exact (Q.seen b.old).exact
        (Z.seen z.old) (core_of held)
        → TurnGives cpu.0 held memory.old.bytes side.old entries.new.items
        (made result written.new) memory.new.bytes side.new }
    ensures quiet { StaysUnlessCommitted result.outcome memory.old.bytes memory.new.bytes }
    ensures moves { (n : ℕ) → with_cpu n result.held + in_pool n pool.new
        ≡ with_cpu n held + in_pool n pool.old }
    ensures tape { HandsIn held (Z.seen z.old) cpu.0 memory.old.bytes side.old
        (P.seen a.new) (Q.seen b.new) result.outcome (Z.tape z.old) (Z.tape z.new) }
    ensures due_a { IsTrue (P.seen a.old).exact → AnswersDue held cpu.0 memory.old.bytes side.old
        result.outcome (P.seen a.new) }
    ensures due_b { IsTrue (Q.seen b.old).exact → AnswersDue held cpu.0 memory.old.bytes side.old
        result.outcome (Q.seen b.new) }
    ensures calls_a { (P.seen a.new).calls ≡ (P.seen a.old).calls + calls_of result.outcome }
    ensures calls_b { (Q.seen b.new).calls ≡ (Q.seen b.old).calls + calls_of result.outcome }
    ensures kind_a { (P.seen a.new).exact ≡ (P.seen a.old).exact }
    ensures kind_b { (Q.seen b.new).exact ≡ (Q.seen b.old).exact }
    ensures rises { Rises (Z.seen z.old) (Z.seen z.new) }
    ensures there { IsThere held → IsThere result.held }
    ensures widths { HoldsRegisters result.held }
    ensures stretches { length (stretches written.new.changed.items) ≤ 135 }
{
    match held {
        Held::Running(k) => turn_running(
            k, cpu, memory, side, pool, z, a, b, stamp, entries, written,
        ),
        Held::Recovering(k) => turn_recovering(
            k, cpu, threshold, side, pool, z, stamp, entries, written,
        ),
        Held::Lost(core, retries) => end_idle(Held::Lost(core, retries), side, written),
        Held::Taken => end_idle(Held::Taken, side, written),
    }
}

/// One turn of a CPU, over the parts of its machine: what is held for the CPU, the storage, what
/// stands beside it, the pool of cores, the silicon, and two units. The entries bear the stamp,
/// and are put into an empty list. A CPU that is lost is idle.
pub fn turn_held<Z: Silicon, P: ResultUnit, Q: ResultUnit>(
    held: Held,
    cpu: CpuNo,
    threshold: u8,
    memory: &mut Memory,
    side: &mut Side,
    pool: &mut SparePool,
    z: &mut Z,
    a: &mut P,
    b: &mut Q,
    stamp: Stamp,
    entries: &mut ArrayVec<Entry, 44>,
    written: &mut Written,
) -> Turned
    requires known { cpu.0 < 8 }
    requires blank { IsBlank (noted stamp entries.old.items) cpu.0 (core_of held) }
    requires small { threshold ≤ 15 }
    requires begun { (Z.seen z.old).begun (core_of held) < 2 ^ 64 - 1 }
    requires calls_a { (P.seen a.old).calls < 2 ^ 64 - 1 }
    requires calls_b { (Q.seen b.old).calls < 2 ^ 64 - 1 }
    requires once { (n : ℕ) → with_cpu n held + in_pool n pool.old ≤ 1 }
    ensures goes { TurnGoes threshold stamp.turn cpu.0 held side.old pool.old
        (Z.seen z.old) entries.new.items result.outcome result.held pool.new }
    ensures chip { TurnChanges threshold cpu.0 held side.old pool.old
        (why_met (Z.seen z.old) held result.outcome) result.held (Z.seen z.old) (Z.seen z.new) }
    ensures finds { Finds held (Z.seen z.old) cpu.0 memory.old.bytes side.old
        (P.seen a.new) (Q.seen b.new) result.outcome }
    ensures causes { IsTrue (P.seen a.old).exact → IsTrue (Q.seen b.old).exact
        → why_met (Z.seen z.old) held result.outcome ≡ next_cause (Z.seen z.old) (core_of held) }
    ensures recovered { Recovers held (Z.seen z.old) result.held }
    ensures gives { IsSureCommit result.outcome (P.seen a.old).exact (Q.seen b.old).exact
        (Z.seen z.old) (core_of held)
        → TurnGives cpu.0 held memory.old.bytes side.old entries.new.items
        (made result written.new) memory.new.bytes side.new }
    ensures quiet { StaysUnlessCommitted result.outcome memory.old.bytes memory.new.bytes }
    ensures moves { (n : ℕ) → with_cpu n result.held + in_pool n pool.new
        ≡ with_cpu n held + in_pool n pool.old }
    ensures tape { HandsIn held (Z.seen z.old) cpu.0 memory.old.bytes side.old
        (P.seen a.new) (Q.seen b.new) result.outcome (Z.tape z.old) (Z.tape z.new) }
    ensures due_a { IsTrue (P.seen a.old).exact → AnswersDue held cpu.0 memory.old.bytes side.old
        result.outcome (P.seen a.new) }
    ensures due_b { IsTrue (Q.seen b.old).exact → AnswersDue held cpu.0 memory.old.bytes side.old
        result.outcome (Q.seen b.new) }
    ensures calls_a { (P.seen a.new).calls ≡ (P.seen a.old).calls + calls_of result.outcome }
    ensures calls_b { (Q.seen b.new).calls ≡ (Q.seen b.old).calls + calls_of result.outcome }
    ensures kind_a { (P.seen a.new).exact ≡ (P.seen a.old).exact }
    ensures kind_b { (Q.seen b.new).exact ≡ (Q.seen b.old).exact }
    ensures rises { Rises (Z.seen z.old) (Z.seen z.new) }
    ensures there { IsThere held → IsThere result.held }
    ensures widths { HoldsRegisters result.held }
    ensures stretches { length (stretches written.new.changed.items) ≤ 135 }
    ensures follows { IsTrue (P.seen a.old).exact → IsTrue (Q.seen b.old).exact
        → (c : Config) (x : Model) → c.threshold ≡ threshold
        → IsBefore c stamp.turn cpu held (Z.seen z.old) memory.old.bytes side.old pool.old x
        → Followed c cpu (Z.seen z.old) (Z.seen z.new) memory.new.bytes side.new pool.new
        entries.new.items (made result written.new) x
        (turned (Z.seen z.old).lines c x (kinds.Turns cpu)) }
    ensures hands { IsTrue (P.seen a.old).exact → IsTrue (Q.seen b.old).exact
        → (c : Config) (x : Model) → c.threshold ≡ threshold
        → IsBefore c stamp.turn cpu held (Z.seen z.old) memory.old.bytes side.old pool.old x
        → Z.tape z.new ≡ tells (Z.tape z.old) (hands (Z.seen z.old).lines x (kinds.Turns cpu)) }
{
    turn_in_mode(
        held, cpu, threshold, memory, side, pool, z, a, b, stamp, entries, written,
    )
}
