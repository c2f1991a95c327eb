// A turn of a CPU.
ghost use Rattle.std.specs.Prelude.{◌≡◌, ◌≤◌, ◌<◌, ◌+◌, ◌-◌, ◌^◌, IsTrue, Some, length, slice_get};
ghost use Rattle.esa_model.specs.Changes.{stretches};
ghost use Rattle.run_model.specs.Cores.{Cores};
ghost use Rattle.run_model.specs.declared.schedules.RunKind.TheVariants as kinds;
ghost use Rattle.core_turns.specs.ChipAfter.{Rises, TurnChanges};
ghost use Rattle.core_turns.specs.Giving.{StaysUnlessCommitted};
ghost use Rattle.core_turns.specs.Handing.{Finds, HandsIn, calls_of};
ghost use Rattle.core_turns.specs.Held.{core_of};
ghost use Rattle.core_turns.specs.Meeting.{TurnGoes, next_cause, why_met};
ghost use Rattle.core_turns.specs.Recovered.{Recovers};
ghost use Rattle.g5_machine.specs.Standing.{StandsByMode};
ghost use Rattle.g5_machine.specs.Turning.{FollowsAll, HandsAll, Obeys, core_at, told_by};

use crate::machine::Machine;
use crate::turns::Turn;
use arrayvec::ArrayVec;
use core_turns::{Held, Stamp, turn_held};
use esa_model::machine::CpuNo;
use result_packet::{Side, Written};
use run_model::faults::CoreNo;
use run_model::logs::Entry;
use silicon::Silicon;
use std::mem;
use twin_units::ResultUnit;

/// How many bytes of the console input are left.
fn console_left(side: &Side) -> u32
    ensures { result ≡ length side.now.console }
{
    side.console.left()
}

/// The core that is held for a CPU; one that was lost keeps its number.
pub(crate) fn core_held(held: &Held) -> CoreNo
    ensures { result.0 ≡ core_of held.now }
{
    match held {
        Held::Running(k) => k.core(),
        Held::Recovering(k) => k.core(),
        Held::Lost(core, _) => *core,
        Held::Taken => CoreNo(0),
    }
}

impl Machine {
    /// One turn of a CPU: the event that is due there is tried on its core, or the core is
    /// recovered. It takes no memory. Its entries in the log, and what it wrote, are put in place of
    /// what the lists have; nothing was written where nothing was committed.
    pub fn turn<Z: Silicon, P: ResultUnit, Q: ResultUnit>(
        &mut self,
        cpu: CpuNo,
        z: &mut Z,
        a: &mut P,
        b: &mut Q,
        entries: &mut ArrayVec<Entry, 44>,
        written: &mut Written,
    ) -> Turn
        requires known { cpu.0 < self.old.config.cpus }
        requires room { self.old.counts.turns < 2 ^ 48 }
        requires begun { (Z.seen z.old).begun (core_at self.old.cpus.items cpu.0) < 2 ^ 64 - 1 }
        requires calls_a { (P.seen a.old).calls < 2 ^ 64 - 1 }
        requires calls_b { (Q.seen b.old).calls < 2 ^ 64 - 1 }
        ensures follows { IsTrue (P.seen a.old).exact → IsTrue (Q.seen b.old).exact
            → FollowsAll (Z.seen z.old).lines self.old.config self.old (Z.seen z.old)
            (kinds.Turns cpu) (told_by cpu.0 result entries.new.items written.new) self.new (Z.seen z.new) }
        ensures hands { IsTrue (P.seen a.old).exact → IsTrue (Q.seen b.old).exact
            → HandsAll (Z.seen z.old).lines self.old.config self.old (Z.seen z.old)
            (kinds.Turns cpu) (Z.tape z.old) (Z.tape z.new) }
        ensures obeys { (s : Cores) → StandsByMode self.old s
            → Obeys self.old.config s (kinds.Turns cpu) (told_by cpu.0 result entries.new.items written.new) self.new }
        ensures goes { (h after : Held) → slice_get self.old.cpus.items cpu.0 ≡ Some h
            → slice_get self.new.cpus.items cpu.0 ≡ Some after
            → TurnGoes self.old.config.threshold (self.old.counts.turns + 1) cpu.0 h
            self.old.side self.old.pool (Z.seen z.old) entries.new.items result.outcome after
            self.new.pool }
        ensures chip { (h after : Held) → slice_get self.old.cpus.items cpu.0 ≡ Some h
            → slice_get self.new.cpus.items cpu.0 ≡ Some after
            → TurnChanges self.old.config.threshold cpu.0 h self.old.side self.old.pool
            (why_met (Z.seen z.old) h result.outcome) after (Z.seen z.old) (Z.seen z.new) }
        ensures recovered { (h after : Held) → slice_get self.old.cpus.items cpu.0 ≡ Some h
            → slice_get self.new.cpus.items cpu.0 ≡ Some after
            → Recovers h (Z.seen z.old) after }
        ensures causes { IsTrue (P.seen a.old).exact → IsTrue (Q.seen b.old).exact
            → (h : Held) → slice_get self.old.cpus.items cpu.0 ≡ Some h
            → why_met (Z.seen z.old) h result.outcome ≡ next_cause (Z.seen z.old) (core_of h) }
        ensures finds { (h : Held) → slice_get self.old.cpus.items cpu.0 ≡ Some h
            → Finds h (Z.seen z.old) cpu.0 self.old.memory.bytes self.old.side
            (P.seen a.new) (Q.seen b.new) result.outcome }
        ensures tape { (h : Held) → slice_get self.old.cpus.items cpu.0 ≡ Some h
            → HandsIn h (Z.seen z.old) cpu.0 self.old.memory.bytes self.old.side
            (P.seen a.new) (Q.seen b.new) result.outcome (Z.tape z.old) (Z.tape z.new) }
        ensures quiet { StaysUnlessCommitted result.outcome self.old.memory.bytes
            self.new.memory.bytes }
        ensures calls_a { (P.seen a.new).calls ≡ (P.seen a.old).calls + calls_of result.outcome }
        ensures calls_b { (Q.seen b.new).calls ≡ (Q.seen b.old).calls + calls_of result.outcome }
        ensures kind_a { (P.seen a.new).exact ≡ (P.seen a.old).exact }
        ensures kind_b { (Q.seen b.new).exact ≡ (Q.seen b.old).exact }
        ensures config { self.new.config ≡ self.old.config }
        ensures rises { Rises (Z.seen z.old) (Z.seen z.new) }
        ensures turns { self.new.counts.turns ≡ self.old.counts.turns + 1 }
        ensures stretches { length (stretches written.new.changed.items) ≤ 135 }
    {
        let held = mem::replace(&mut self.cpus[cpu.0 as usize], Held::Taken);
        let stamp = Stamp {
            turn: self.counts.turns() + 1,
            cpu,
            core: core_held(&held),
        };
        entries.clear();
        let left = console_left(&self.side);
        let turned = turn_held(
            held,
            cpu,
            self.config.threshold,
            &mut self.memory,
            &mut self.side,
            &mut self.pool,
            z,
            a,
            b,
            stamp,
            entries,
            written,
        );
        self.cpus[cpu.0 as usize] = turned.held;
        let read = left.saturating_sub(console_left(&self.side)).min(256);
        self.counts
            .count(turned.outcome, read, written.console.len());
        Turn {
            outcome: turned.outcome,
            psw: turned.psw,
        }
    }
}
