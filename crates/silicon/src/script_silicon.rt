#![tactic(auto)]

ghost use Rattle.std.specs.Prelude.{◌≡◌, ◌+◌, ◌<◌, None, replicate};
ghost use Rattle.run_model.specs.Script.{InForm};
ghost use Rattle.silicon.specs.Lines.{lines_of, Follow, form_prop, follow_prop};

use crate::Silicon;
use crate::landing::{fetch_struck, land, store_struck, strike_packet};
use crate::passing::{strike_fetch, strike_store};
use crate::walks::{begin, begin_all};
use fault_script::{Script, Unit, Walk};
use result_packet::{FetchLatch, Packet, StoreLatch};
use run_model::faults::CoreNo;

/// A silicon that lands the strikes of a script.
#[derive(Drop)]
pub struct ScriptSilicon {
    pub(crate) walk: Option<Walk>,
    pub(crate) begun: [u64; 16],
    pub(crate) words: [u128; 640],
    ghost form: { InForm (lines_of walk) } by { form_prop (lines_of walk) },
    ghost follow: { Follow walk begun } by { follow_prop walk begun },
}

fn blank() -> ScriptSilicon
    ensures walk { result.walk ≡ None }
    ensures begun { result.begun ≡ replicate 16 0 }
    ensures words { result.words ≡ replicate 640 0 }
{
    ScriptSilicon {
        walk: None,
        begun: [0; 16],
        words: [0; 640],
    }
}

impl ScriptSilicon {
    ghost use Rattle.std.specs.Prelude.{◌≡◌, ◌+◌, ◌<◌};
    ghost use Rattle.silicon.specs.Chip.{Fresh, last};
    ghost use Rattle.silicon.specs.Lines.{IsWalked};
    ghost use Rattle.silicon.specs.Seen.{chip};

    /// Fresh silicon: no script, no attempt begun, zero in every word.
    pub fn new() -> ScriptSilicon
        ensures { Fresh (chip result) }
    {
        blank()
    }

    // The last attempt of a core that was begun.
    fn last(&self, core: CoreNo) -> u64
        requires core { core.0 < 16 }
        requires begun { 0 < (chip self.now).begun core.0 }
        ensures attempt { result ≡ last (chip self.now) core.0 }
        ensures walked { IsWalked self.now.walk core.0 (result + 1) }
    {
        self.begun[core.0 as usize] - 1
    }
}

impl Silicon for ScriptSilicon {
    ghost use Rattle.silicon.specs.Seen.{chip};
    ghost use Rattle.silicon.specs.Tape.{empty};

    ghost seen = { λ s. chip s };

    ghost tape = { λ s. empty 0 };

    fn arm(&mut self, script: Script) {
        self.walk = Some(script.walk());
    }

    fn begun(&self, core: CoreNo) -> u64 {
        self.begun[core.0 as usize]
    }

    fn begin(&mut self, core: CoreNo) {
        let i = core.0 as usize;
        let n = self.begun[i];
        begin(&mut self.walk, core, n);
        land(&mut self.words, &self.walk, core, n);
        self.begun[i] = n + 1;
    }

    #[tactic(auto, unfolding(crate::specs::Tape::tell))]
    fn pass_fetch(&mut self, core: CoreNo, latch: &mut FetchLatch) {
        let n = self.last(core);
        strike_fetch(latch, fetch_struck(&self.walk, core, n));
    }

    #[tactic(auto, unfolding(crate::specs::Tape::tell))]
    fn pass(&mut self, core: CoreNo, unit: Unit, packet: &mut Packet) {
        let n = self.last(core);
        strike_packet(packet, &self.walk, core, unit, n);
    }

    #[tactic(auto, unfolding(crate::specs::Tape::tell))]
    fn pass_store(&mut self, core: CoreNo, latch: &mut StoreLatch) {
        let n = self.last(core);
        strike_store(latch, store_struck(&self.walk, core, n));
    }

    fn put_word(&mut self, core: CoreNo, word: u8, stored: u128) {
        self.words[core.0 as usize * 40 + word as usize] = stored;
    }

    fn resume_at(&mut self, core: CoreNo, begun: u64) {
        begin_all(&mut self.walk, core, begun);
        self.begun[core.0 as usize] = begun;
    }

    fn get_word(&self, core: CoreNo, word: u8) -> u128 {
        self.words[core.0 as usize * 40 + word as usize]
    }

    ghost formed = { λ s. s.form };
}
