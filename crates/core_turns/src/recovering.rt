// A turn of a CPU whose core is to be recovered.
ghost use Rattle.std.specs.Prelude.{◌≡◌, ◌+◌, ◌-◌, ◌^◌, ◌<◌, ◌≤◌, ℕ, IsTrue, length, [], List};
ghost use Rattle.core_turns.specs.ChipAfter.{Rises, TurnChanges};
ghost use Rattle.core_turns.specs.Giving.{TurnGives};
ghost use Rattle.core_turns.specs.Handing.{IsWithoutAttempt};
ghost use Rattle.core_turns.specs.Held.{IsThere, HoldsRegisters};
ghost use Rattle.core_turns.specs.Journals.{IsBlank, noted};
ghost use Rattle.core_turns.specs.Made.{made};
ghost use Rattle.core_turns.specs.Meeting.{TurnGoes, why_met};
ghost use Rattle.core_turns.specs.Places.{on, with_cpu, in_pool};
ghost use Rattle.core_turns.specs.Recovered.{Recovers};
ghost use Rattle.core_turns.specs.declared.held.Held.TheVariants as holding;

use crate::ends::{end_stopped, end_without_commit, leave, put_spare_back, take_spare};
use crate::held::{Held, SparePool, Turned};
use crate::journal::Stamp;
use crate::outcomes::Outcome;
use crate::registers::are_registers;
use arrayvec::ArrayVec;
use core_states::{HandedOver, Notes, Recovered, RecoveringCore};
use esa_model::machine::CpuNo;
use result_packet::{Side, Written};
use run_model::logs::Entry;
use silicon::Silicon;

/// A retry, while there were fewer of them than the threshold; else the words of the core go to the
/// lowest spare. Without a spare, or where a word is lost, the CPU stops.
pub fn turn_recovering<Z: Silicon>(
    k: RecoveringCore,
    cpu: CpuNo,
    threshold: u8,
    side: &mut Side,
    pool: &mut SparePool,
    z: &mut Z,
    stamp: Stamp,
    entries: &mut ArrayVec<Entry, 44>,
    written: &mut Written,
) -> Turned
    requires blank { IsBlank (noted stamp entries.old.items) cpu.0 k.core.0 }
    requires small { threshold ≤ 15 }
    requires once { (n : ℕ) → on k.core.0 n + in_pool n pool.old ≤ 1 }
    ensures goes { TurnGoes threshold stamp.turn cpu.0 (holding.Recovering k) side.old pool.old
        (Z.seen z.old) entries.new.items result.outcome result.held pool.new }
    ensures chip { TurnChanges threshold cpu.0 (holding.Recovering k) side.old pool.old
        (why_met (Z.seen z.old) (holding.Recovering k) result.outcome) result.held
        (Z.seen z.old) (Z.seen z.new) }
    ensures recovered { Recovers (holding.Recovering k) (Z.seen z.old) result.held }
    ensures gives { (bytes : List ℕ) → TurnGives cpu.0 (holding.Recovering k) bytes side.old
        entries.new.items (made result written.new) bytes side.new }
    ensures quiet { IsWithoutAttempt result.outcome }
    ensures moves { (n : ℕ) → with_cpu n result.held + in_pool n pool.new
        ≡ on k.core.0 n + in_pool n pool.old }
    ensures tape { Z.tape z.new ≡ Z.tape z.old }
    ensures rises { Rises (Z.seen z.old) (Z.seen z.new) }
    ensures there { IsThere result.held }
    ensures widths { HoldsRegisters result.held }
    ensures changed { written.new.changed.items ≡ [] }
{
    if k.retries() < threshold {
        recover(k, cpu, side, pool, z, stamp, entries, written)
    } else {
        transfer(k, cpu, side, pool, z, stamp, entries, written)
    }
}

// A retry.
fn recover<Z: Silicon>(
    k: RecoveringCore,
    cpu: CpuNo,
    side: &mut Side,
    pool: &mut SparePool,
    z: &mut Z,
    stamp: Stamp,
    entries: &mut ArrayVec<Entry, 44>,
    written: &mut Written,
) -> Turned
    requires blank { IsBlank (noted stamp entries.old.items) cpu.0 k.core.0 }
    requires few { k.retries < 15 }
    requires once { (n : ℕ) → on k.core.0 n + in_pool n pool.old ≤ 1 }
    ensures goes { (t : ℕ) → k.retries < t
        → TurnGoes t stamp.turn cpu.0 (holding.Recovering k) side.old pool.old
        (Z.seen z.old) entries.new.items result.outcome result.held pool.new }
    ensures chip { (t : ℕ) → k.retries < t
        → TurnChanges t cpu.0 (holding.Recovering k) side.old pool.old
        (why_met (Z.seen z.old) (holding.Recovering k) result.outcome) result.held
        (Z.seen z.old) (Z.seen z.new) }
    ensures recovered { Recovers (holding.Recovering k) (Z.seen z.old) result.held }
    ensures gives { (bytes : List ℕ) → TurnGives cpu.0 (holding.Recovering k) bytes side.old
        entries.new.items (made result written.new) bytes side.new }
    ensures quiet { IsWithoutAttempt result.outcome }
    ensures moves { (n : ℕ) → with_cpu n result.held + in_pool n pool.new
        ≡ on k.core.0 n + in_pool n pool.old }
    ensures tape { Z.tape z.new ≡ Z.tape z.old }
    ensures rises { Rises (Z.seen z.old) (Z.seen z.new) }
    ensures there { IsThere result.held }
    ensures widths { HoldsRegisters result.held }
    ensures changed { written.new.changed.items ≡ [] }
{
    let retries = k.retries();
    let mut notes = Notes::new();
    match k.recover(z, &mut notes) {
        Recovered::Running(k) => {
            are_registers(k.registers());
            stamp.log_retry(entries, notes.as_slice(), retries + 1);
            end_without_commit(Held::Running(k), Outcome::Retried(retries + 1), written)
        }
        Recovered::Lost(f, word) => {
            stamp.log_lost(entries, notes.as_slice(), word);
            end_stopped(f, retries, cpu, side, pool, written)
        }
    }
}

// The words of a core that was retried so often as may be go to a spare, if there is one.
fn transfer<Z: Silicon>(
    k: RecoveringCore,
    cpu: CpuNo,
    side: &mut Side,
    pool: &mut SparePool,
    z: &mut Z,
    stamp: Stamp,
    entries: &mut ArrayVec<Entry, 44>,
    written: &mut Written,
) -> Turned
    requires blank { IsBlank (noted stamp entries.old.items) cpu.0 k.core.0 }
    requires once { (n : ℕ) → on k.core.0 n + in_pool n pool.old ≤ 1 }
    ensures goes { (t : ℕ) → t ≤ k.retries
        → TurnGoes t stamp.turn cpu.0 (holding.Recovering k) side.old pool.old
        (Z.seen z.old) entries.new.items result.outcome result.held pool.new }
    ensures chip { (t : ℕ) → t ≤ k.retries
        → TurnChanges t cpu.0 (holding.Recovering k) side.old pool.old
        (why_met (Z.seen z.old) (holding.Recovering k) result.outcome) result.held
        (Z.seen z.old) (Z.seen z.new) }
    ensures recovered { Recovers (holding.Recovering k) (Z.seen z.old) result.held }
    ensures gives { (bytes : List ℕ) → TurnGives cpu.0 (holding.Recovering k) bytes side.old
        entries.new.items (made result written.new) bytes side.new }
    ensures quiet { IsWithoutAttempt result.outcome }
    ensures moves { (n : ℕ) → with_cpu n result.held + in_pool n pool.new
        ≡ on k.core.0 n + in_pool n pool.old }
    ensures tape { Z.tape z.new ≡ Z.tape z.old }
    ensures rises { Rises (Z.seen z.old) (Z.seen z.new) }
    ensures there { IsThere result.held }
    ensures widths { HoldsRegisters result.held }
    ensures changed { written.new.changed.items ≡ [] }
{
    let retries = k.retries();
    let mut notes = Notes::new();
    match take_spare(pool) {
        None => {
            stamp.log_no_spare(entries);
            end_stopped(k.give_up(), retries, cpu, side, pool, written)
        }
        Some(spare) => {
            let number = spare.core();
            match k.hand_over(spare, z, &mut notes) {
                HandedOver::Running(k, f) => {
                    are_registers(k.registers());
                    stamp.log_spared(entries, notes.as_slice(), number);
                    leave(f, pool);
                    end_without_commit(Held::Running(k), Outcome::Spared(number), written)
                }
                HandedOver::Lost(f, spare, word) => {
                    stamp.log_not_handed(entries, notes.as_slice(), word);
                    put_spare_back(spare, pool);
                    end_stopped(f, retries, cpu, side, pool, written)
                }
            }
        }
    }
}
