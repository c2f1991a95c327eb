#![tactic(auto)]

ghost use Rattle.std.specs.Prelude.{◌≡◌, ◌≤◌, [], ◌∷◌, ◌++◌, length, IfOk, nat_lt, if◌then◌else◌};
ghost use Rattle.std.specs.Vec.{vec_capacity};

use crate::Silicon;
use crate::handed::Handed;
use crate::script_silicon::ScriptSilicon;
use esa_model::memory::NoMemory;
use fault_script::{Script, Unit};
use result_packet::{FetchLatch, Packet, StoreLatch};
use run_model::faults::CoreNo;
use std::alloc::Global;

/// A silicon that lands the strikes of a script, and tells what it is handed up to its room.
#[derive(Drop)]
pub struct TapSilicon {
    pub(crate) under: ScriptSilicon,
    pub(crate) room: usize,
    pub(crate) told: Vec<Handed>,
    ghost fits: { room ≤ vec_capacity told },
}

impl TapSilicon {
    ghost use Rattle.silicon.specs.Chip.{Fresh};
    ghost use Rattle.silicon.specs.SeenTap.{tap_chip, tap_tape};
    ghost use Rattle.silicon.specs.Tape.{empty};

    /// Fresh silicon with room for so many latches and packets.
    pub fn new(alloc: Global, room: usize) -> Result<TapSilicon, NoMemory>
        ensures fresh { IfOk result (λ s. Fresh (tap_chip s)) }
        ensures tape { IfOk result (λ s. tap_tape s ≡ empty room) }
    {
        let told = Vec::with_capacity(alloc, room)?;
        Ok(TapSilicon {
            under: ScriptSilicon::new(),
            room,
            told,
        })
    }

    /// The latches and packets that were handed in, up to the room.
    pub fn told(&self) -> &[Handed]
        ensures { result.now ≡ (tap_tape self.now).items }
    {
        &self.told
    }
}

// Tells one more, where there is room.
fn add(told: &mut Vec<Handed>, room: usize, h: Handed)
    requires { room ≤ vec_capacity told.old }
    ensures items { told.new.items ≡ (if nat_lt (length told.old.items) room
        then told.old.items ++ h ∷ [] else told.old.items) }
    ensures room { room ≤ vec_capacity told.new }
{
    if told.len() < room {
        match told.push(h) {
            Ok(()) => {}
            Err(_) => {}
        }
    }
}

impl Silicon for TapSilicon {
    ghost use Rattle.silicon.specs.SeenTap.{tap_chip, tap_tape};

    ghost seen = { λ s. tap_chip s };

    ghost tape = { λ s. tap_tape s };

    fn arm(&mut self, script: Script) {
        self.under.arm(script);
    }

    fn begun(&self, core: CoreNo) -> u64 {
        self.under.begun(core)
    }

    fn begin(&mut self, core: CoreNo) {
        self.under.begin(core);
    }

    #[tactic(auto, unfolding(crate::specs::Tape::tell))]
    fn pass_fetch(&mut self, core: CoreNo, latch: &mut FetchLatch) {
        let n = self.under.begun(core) - 1;
        add(&mut self.told, self.room, Handed::Fetch(core, n, *latch));
        self.under.pass_fetch(core, latch);
    }

    #[tactic(auto, unfolding(crate::specs::Tape::tell))]
    fn pass(&mut self, core: CoreNo, unit: Unit, packet: &mut Packet) {
        let n = self.under.begun(core) - 1;
        add(
            &mut self.told,
            self.room,
            Handed::Packet(core, n, unit, *packet),
        );
        self.under.pass(core, unit, packet);
    }

    #[tactic(auto, unfolding(crate::specs::Tape::tell))]
    fn pass_store(&mut self, core: CoreNo, latch: &mut StoreLatch) {
        let n = self.under.begun(core) - 1;
        add(&mut self.told, self.room, Handed::Store(core, n, *latch));
        self.under.pass_store(core, latch);
    }

    fn put_word(&mut self, core: CoreNo, word: u8, stored: u128) {
        self.under.put_word(core, word, stored);
    }

    fn resume_at(&mut self, core: CoreNo, begun: u64) {
        self.under.resume_at(core, begun);
    }

    fn get_word(&self, core: CoreNo, word: u8) -> u128 {
        self.under.get_word(core, word)
    }

    ghost formed = { λ s. s.under.form };
}
