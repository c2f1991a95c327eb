// A turn of a CPU whose core runs.
ghost use Rattle.std.specs.Prelude.{◌≡◌, ◌+◌, ◌-◌, ◌^◌, ◌<◌, ◌≤◌, ℕ, IsTrue, length};
ghost use Rattle.esa_model.specs.Changes.{stretches};
ghost use Rattle.core_turns.specs.ChipAfter.{Rises, TurnChanges};
ghost use Rattle.core_turns.specs.Giving.{IsSureCommit, StaysUnlessCommitted, TurnGives};
ghost use Rattle.core_turns.specs.Handing.{AnswersDue, Finds, HandsIn, calls_of};
ghost use Rattle.core_turns.specs.Held.{IsThere, HoldsRegisters};
ghost use Rattle.core_turns.specs.Journals.{IsBlank, noted};
ghost use Rattle.core_turns.specs.Made.{made};
ghost use Rattle.core_turns.specs.Meeting.{TurnGoes, next_cause, why_met};
ghost use Rattle.core_turns.specs.Places.{on, with_cpu, in_pool};
ghost use Rattle.core_turns.specs.declared.held.Held.TheVariants as holding;

use crate::clock::advance_clock;
use crate::ends::{end_idle, end_stopped, end_without_commit};
use crate::held::{Held, SparePool, Turned};
use crate::idling::is_waiting;
use crate::journal::Stamp;
use crate::outcomes::Outcome;
use crate::registers::are_registers;
use arrayvec::ArrayVec;
use core_states::{Attempt, Notes, RunningCore};
use esa_model::machine::CpuNo;
use result_packet::{Side, Written};
use run_model::logs::Entry;
use seen_memory::Memory;
use silicon::Silicon;
use twin_units::ResultUnit;

/// The turn is idle, or makes an attempt: the event that is due is carried out, or the core is to be
/// recovered, or a word is lost and the CPU stops. A core that did not commit is left with an empty
/// cache; until it is woken again nothing is fetched by it.
pub fn turn_running<Z: Silicon, P: ResultUnit, Q: ResultUnit>(
    k: RunningCore,
    cpu: CpuNo,
    memory: &mut Memory,
    side: &mut Side,
    pool: &mut SparePool,
    z: &mut Z,
    a: &mut P,
    b: &mut Q,
    stamp: Stamp,
    entries: &mut ArrayVec<Entry, 44>,
    written: &mut Written,
) -> Turned
    requires known { cpu.0 < 8 }
    requires blank { IsBlank (noted stamp entries.old.items) cpu.0 k.core.0 }
    requires begun { (Z.seen z.old).begun k.core.0 < 2 ^ 64 - 1 }
    requires calls_a { (P.seen a.old).calls < 2 ^ 64 - 1 }
    requires calls_b { (Q.seen b.old).calls < 2 ^ 64 - 1 }
    requires once { (n : ℕ) → on k.core.0 n + in_pool n pool.old ≤ 1 }
    ensures goes { (t : ℕ) → TurnGoes t stamp.turn cpu.0 (holding.Running k) side.old pool.old
        (Z.seen z.old) entries.new.items result.outcome result.held pool.new }
    ensures chip { (t : ℕ) → TurnChanges t cpu.0 (holding.Running k) side.old pool.old
        (why_met (Z.seen z.old) (holding.Running k) result.outcome) result.held
        (Z.seen z.old) (Z.seen z.new) }
    ensures finds { Finds (holding.Running k) (Z.seen z.old) cpu.0 memory.old.bytes side.old
        (P.seen a.new) (Q.seen b.new) result.outcome }
    ensures causes { IsTrue (P.seen a.old).exact → IsTrue (Q.seen b.old).exact
        → why_met (Z.seen z.old) (holding.Running k) result.outcome
        ≡ next_cause (Z.seen z.old) k.core.0 }
    ensures gives { IsSureCommit result.outcome (P.seen a.old).exact (Q.seen b.old).exact
        (Z.seen z.old) k.core.0
        → TurnGives cpu.0 (holding.Running k) memory.old.bytes side.old entries.new.items
        (made result written.new) memory.new.bytes side.new }
    ensures quiet { StaysUnlessCommitted result.outcome memory.old.bytes memory.new.bytes }
    ensures moves { (n : ℕ) → with_cpu n result.held + in_pool n pool.new
        ≡ on k.core.0 n + in_pool n pool.old }
    ensures tape { HandsIn (holding.Running k) (Z.seen z.old) cpu.0 memory.old.bytes side.old
        (P.seen a.new) (Q.seen b.new) result.outcome (Z.tape z.old) (Z.tape z.new) }
    ensures due_a { IsTrue (P.seen a.old).exact → AnswersDue (holding.Running k) cpu.0
        memory.old.bytes side.old result.outcome (P.seen a.new) }
    ensures due_b { IsTrue (Q.seen b.old).exact → AnswersDue (holding.Running k) cpu.0
        memory.old.bytes side.old result.outcome (Q.seen b.new) }
    ensures calls_a { (P.seen a.new).calls ≡ (P.seen a.old).calls + calls_of result.outcome }
    ensures calls_b { (Q.seen b.new).calls ≡ (Q.seen b.old).calls + calls_of result.outcome }
    ensures kind_a { (P.seen a.new).exact ≡ (P.seen a.old).exact }
    ensures kind_b { (Q.seen b.new).exact ≡ (Q.seen b.old).exact }
    ensures rises { Rises (Z.seen z.old) (Z.seen z.new) }
    ensures there { IsThere result.held }
    ensures widths { HoldsRegisters result.held }
    ensures stretches { length (stretches written.new.changed.items) ≤ 135 }
{
    if is_waiting(k.registers(), cpu, side) {
        are_registers(k.registers());
        return end_idle(Held::Running(k), side, written);
    }
    let retries = k.retries();
    let mut notes = Notes::new();
    memory.lend_to(cpu, k.core());
    match k.attempt(cpu, memory, side, z, a, b, &mut notes) {
        Attempt::Committed(k, packet) => {
            stamp.log_notes(entries, notes.as_slice());
            let mut r = *k.registers();
            memory.carry_out(side, cpu, &mut r, &packet, written);
            advance_clock(side);
            are_registers(&r);
            Turned {
                held: Held::Running(k.committed(r, z)),
                outcome: Outcome::Committed,
                psw: r.psw,
            }
        }
        Attempt::Failed(k, why, attempt) => {
            stamp.log_failed(entries, notes.as_slice(), why, attempt);
            memory.empty_cache();
            end_without_commit(Held::Recovering(k), Outcome::Failed(why), written)
        }
        Attempt::Lost(f, word) => {
            stamp.log_lost(entries, notes.as_slice(), word);
            memory.empty_cache();
            end_stopped(f, retries, cpu, side, pool, written)
        }
    }
}
