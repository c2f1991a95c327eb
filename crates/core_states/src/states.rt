// A core is spare, running, recovering or fenced. Each call takes the state before it.
ghost use Rattle.std.specs.Prelude.{◌≡◌, ℕ, ◌+◌, ◌-◌, ◌^◌, ◌<◌, [], length, IsTrue, IsSome, true, false};
ghost use Rattle.silicon.specs.Tape.{tells};
ghost use Rattle.core_states.specs.Words.{Rewrites, Fills, Changes};
ghost use Rattle.core_states.specs.Words.{read_core as reading_of, scrub_reading};
ghost use Rattle.core_states.specs.Trial.{setting, waits, packet_due, IsDue, IsStepAt};
ghost use Rattle.core_states.specs.Trial.{next_trial, bytes_in};
ghost use Rattle.core_states.specs.States.{AttemptKeeps, AttemptDoes, AttemptGives, AttemptSteps};
ghost use Rattle.core_states.specs.States.{AttemptFails, AttemptHolds, attempt_hands, calls_in};
ghost use Rattle.core_states.specs.States.{lost_in};
ghost use Rattle.core_states.specs.States.{RecoversAs, lost_word, HandsOver, lost_by};

use crate::cores::{
    Attempt, FencedCore, HandedOver, Recovered, RecoveringCore, RunningCore, SpareCore,
};
use crate::holding::hold_stores;
use crate::tried::{Tried, finish};
use crate::words::{Notes, fill, read_core, scrub, write_changed};
use abs_storage::View;
use esa_model::machine::{CpuNo, Registers};
use result_packet::Side;
use run_model::faults::{CoreNo, Numbered};
use runit_ecc::registers_of;
use silicon::Silicon;
use store_buffer::Holder;
use twin_units::ResultUnit;

impl SpareCore {
    /// A core that no CPU has.
    pub fn new(core: CoreNo) -> SpareCore
        requires { core.0 < 16 }
        ensures { result.core ≡ core }
    {
        SpareCore { core }
    }

    /// Its number.
    pub fn core(&self) -> CoreNo
        ensures { result ≡ self.now.core }
    {
        self.core
    }

    /// The core runs with these registers, which are stored as its words.
    pub fn wake<Z: Silicon>(self, r: Registers, z: &mut Z) -> RunningCore
        ensures core { result.core ≡ self.core }
        ensures registers { result.registers ≡ r }
        ensures retries { result.retries ≡ 0 }
        ensures words { Fills self.core.0 r (Z.seen z.old) (Z.seen z.new) }
        ensures tape { Z.tape z.new ≡ Z.tape z.old }
    {
        fill(self.core, &r, z);
        RunningCore {
            core: self.core,
            registers: r,
            retries: 0,
        }
    }
}

impl Numbered for SpareCore {
    ghost number_of = { λ s. s.core.0 };

    fn number(&self) -> CoreNo {
        self.core
    }
}

impl RunningCore {
    /// Its number.
    pub fn core(&self) -> CoreNo
        ensures { result ≡ self.now.core }
    {
        self.core
    }

    /// How many retries there were since the last commit or transfer.
    pub fn retries(&self) -> u8
        ensures { result ≡ self.now.retries }
    {
        self.retries
    }

    /// The registers of its last commit.
    pub fn registers(&self) -> &Registers
        ensures { result.now ≡ self.now.registers }
    {
        &self.registers
    }

    /// One attempt at the event that is due at a CPU with its registers. Before each 16th attempt
    /// all words of the core are read; it is not begun where one is lost. An attempt makes the
    /// sealed fetch latch of the event, one packet in each of the two units, and the sealed store
    /// latch of unit A's packet, and each of them passes the silicon. It fails where a latch comes
    /// back with even parity, or the two packets differ; else unit A's packet is to be carried out,
    /// and its stores are held. Where it is not, nothing is held.
    pub fn attempt<V: Holder, Z: Silicon, P: ResultUnit, Q: ResultUnit>(
        self,
        cpu: CpuNo,
        view: &mut V,
        side: &Side,
        z: &mut Z,
        a: &mut P,
        b: &mut Q,
        notes: &mut Notes,
    ) -> Attempt
        requires empty { notes.old.items ≡ [] }
        requires room { (Z.seen z.old).begun self.core.0 < 2 ^ 64 - 1 }
        requires calls_a { (P.seen a.old).calls < 2 ^ 64 - 1 }
        requires calls_b { (Q.seen b.old).calls < 2 ^ 64 - 1 }
        ensures keeps { AttemptKeeps self.core self.registers self.retries
            ((Z.seen z.old).begun self.core.0) result }
        ensures read { scrub_reading (Z.seen z.old) self.core.0
            ≡ record { notes = notes.new.items; lost = lost_in result } }
        ensures does { AttemptDoes self.core.0 (Z.seen z.old) (Z.seen z.new) result }
        ensures gives { IsTrue (P.seen a.old).exact → IsTrue (Q.seen b.old).exact
            → waits (setting self.registers cpu.0 (V.bytes view.old) side.now) ≡ false
            → AttemptGives (Z.seen z.old).lines self.core.0 ((Z.seen z.old).begun self.core.0)
            (packet_due (setting self.registers cpu.0 (V.bytes view.old) side.now)) result }
        ensures steps { IsTrue (P.seen a.old).exact
            → AttemptSteps (Z.seen z.old).lines self.core.0 ((Z.seen z.old).begun self.core.0)
            (setting self.registers cpu.0 (V.bytes view.old) side.now) result }
        ensures fails { AttemptFails (next_trial (Z.seen z.old) self.core
            (setting self.registers cpu.0 (V.bytes view.old) side.now)
            (P.seen a.new) (Q.seen b.new)) result }
        ensures tape { Z.tape z.new ≡ tells (Z.tape z.old)
            (attempt_hands (next_trial (Z.seen z.old) self.core
            (setting self.registers cpu.0 (V.bytes view.old) side.now)
            (P.seen a.new) (Q.seen b.new)) result) }
        ensures calls_a { (P.seen a.new).calls ≡ (P.seen a.old).calls + calls_in result }
        ensures calls_b { (Q.seen b.new).calls ≡ (Q.seen b.old).calls + calls_in result }
        ensures kind_a { (P.seen a.new).exact ≡ (P.seen a.old).exact }
        ensures kind_b { (Q.seen b.new).exact ≡ (Q.seen b.old).exact }
        ensures said_a { calls_in result ≡ 1 → IsSome (P.seen a.new).last }
        ensures said_b { calls_in result ≡ 1 → IsSome (Q.seen b.new).last }
        ensures due_a { IsTrue (P.seen a.old).exact → calls_in result ≡ 1
            → IsDue (setting self.registers cpu.0 (V.bytes view.old) side.now)
            (bytes_in (P.seen a.new).last) }
        ensures due_b { IsTrue (Q.seen b.old).exact → calls_in result ≡ 1
            → IsDue (setting self.registers cpu.0 (V.bytes view.old) side.now)
            (bytes_in (Q.seen b.new).last) }
        ensures step_a { IsTrue (P.seen a.old).exact → calls_in result ≡ 1
            → IsStepAt (setting self.registers cpu.0 (V.bytes view.old) side.now)
            (bytes_in (P.seen a.new).last) }
        ensures view { V.bytes view.new ≡ V.bytes view.old }
        ensures held { AttemptHolds self.registers.prefix (length (V.bytes view.old)) result
            (V.held view.new) }
    {
        let n = z.begun(self.core);
        if let Some(word) = scrub(self.core, z, notes) {
            view.drop_held();
            return Attempt::Lost(FencedCore { core: self.core }, word);
        }
        z.begin(self.core);
        match finish(self.core, &self.registers, cpu, view, side, z, a, b) {
            Tried::Done(packet) => {
                hold_stores(view, self.registers.prefix, &packet);
                Attempt::Committed(self, packet)
            }
            Tried::Failed(cause) => {
                view.drop_held();
                Attempt::Failed(
                    RecoveringCore {
                        core: self.core,
                        retries: self.retries,
                    },
                    cause,
                    n,
                )
            }
        }
    }

    /// The packet was carried out, and the registers are these: the words that changed are stored.
    pub fn committed<Z: Silicon>(self, r: Registers, z: &mut Z) -> RunningCore
        ensures core { result.core ≡ self.core }
        ensures registers { result.registers ≡ r }
        ensures retries { result.retries ≡ 0 }
        ensures words { Changes self.core.0 self.registers r (Z.seen z.old) (Z.seen z.new) }
        ensures tape { Z.tape z.new ≡ Z.tape z.old }
    {
        write_changed(self.core, &self.registers, &r, z);
        RunningCore {
            core: self.core,
            registers: r,
            retries: 0,
        }
    }
}

impl RecoveringCore {
    /// Its number.
    pub fn core(&self) -> CoreNo
        ensures { result ≡ self.now.core }
    {
        self.core
    }

    /// How many retries there were since the last commit or transfer.
    pub fn retries(&self) -> u8
        ensures { result ≡ self.now.retries }
    {
        self.retries
    }

    /// A retry: the core runs again, with the registers that its stored words say. Corrected words
    /// are noted and written back. It is fenced where a word is lost.
    pub fn recover<Z: Silicon>(self, z: &mut Z, notes: &mut Notes) -> Recovered
        requires empty { notes.old.items ≡ [] }
        requires few { self.retries < 15 }
        ensures recovers { RecoversAs self.core self.retries (Z.seen z.old) result }
        ensures read { reading_of (Z.seen z.old) self.core.0
            ≡ record { notes = notes.new.items; lost = lost_word result } }
        ensures rewrites { Rewrites true self.core.0 (lost_word result)
            (Z.seen z.old) (Z.seen z.new) }
        ensures tape { Z.tape z.new ≡ Z.tape z.old }
    {
        let mut words = [0; 40];
        match read_core(self.core, true, z, notes, &mut words) {
            Some(word) => Recovered::Lost(FencedCore { core: self.core }, word),
            None => Recovered::Running(RunningCore {
                core: self.core,
                registers: registers_of(&words),
                retries: self.retries + 1,
            }),
        }
    }

    /// A transfer: the spare runs, with the registers that the stored words of this core say, and
    /// this one is fenced. Corrected words are noted. Where a word is lost the spare is left.
    pub fn hand_over<Z: Silicon>(self, spare: SpareCore, z: &mut Z, notes: &mut Notes) -> HandedOver
        requires { notes.old.items ≡ [] }
        ensures hands { HandsOver self.core spare.core (Z.seen z.old) (Z.seen z.new) result }
        ensures read { reading_of (Z.seen z.old) self.core.0
            ≡ record { notes = notes.new.items; lost = lost_by result } }
        ensures tape { Z.tape z.new ≡ Z.tape z.old }
    {
        let mut words = [0; 40];
        match read_core(self.core, false, z, notes, &mut words) {
            Some(word) => HandedOver::Lost(FencedCore { core: self.core }, spare, word),
            None => HandedOver::Running(
                spare.wake(registers_of(&words), z),
                FencedCore { core: self.core },
            ),
        }
    }

    /// The core is fenced.
    pub fn give_up(self) -> FencedCore
        ensures { result.core ≡ self.core }
    {
        FencedCore { core: self.core }
    }
}

impl FencedCore {
    /// Its number.
    pub fn core(&self) -> CoreNo
        ensures { result ≡ self.now.core }
    {
        self.core
    }

    /// The core was repaired: it is a spare.
    pub fn repaired(self) -> SpareCore
        ensures { result.core ≡ self.core }
    {
        SpareCore { core: self.core }
    }
}

impl Numbered for FencedCore {
    ghost number_of = { λ f. f.core.0 };

    fn number(&self) -> CoreNo {
        self.core
    }
}
