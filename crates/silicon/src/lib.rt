//! The silicon: what each core stores, the strikes that a script lands, and what is handed in.
#![tactic(auto)]

ghost use Rattle.std.specs.Prelude.{◌≡◌, ◌-◌, ◌^◌, ◌<◌};
ghost use Rattle.run_model.specs.Script.{InForm};
ghost use Rattle.silicon.specs.Chip.{Chip, Fresh, Arms, Begins, Puts, Stays, last};
ghost use Rattle.silicon.specs.Resumed.{Resumes};
ghost use Rattle.silicon.specs.Chip.{passed_fetch, passed_packet, passed_store};
ghost use Rattle.silicon.specs.Tape.{Tape, tell};
ghost use Rattle.silicon.specs.declared.handed.Handed.TheVariants as handed;

mod handed;
mod landing;
mod laws;
mod passing;
mod script_silicon;
mod tap_silicon;
#[cfg(test)]
mod tests;
mod walks;

use fault_script::{Script, Unit};
pub use handed::Handed;
pub use laws::masks_of_passed_packets;
use result_packet::{FetchLatch, Packet, StoreLatch};
use run_model::faults::CoreNo;
pub use script_silicon::ScriptSilicon;
pub use tap_silicon::TapSilicon;

/// What lies between the units of a core, and stores its checkpoint words. Cores have the numbers 0
/// to 15, words 0 to 39. Contracts see a chip, which is script, attempts begun and stored words,
/// and a tape of what was handed in, as far as that is told.
pub trait Silicon {
    ghost seen: { Self → Chip };

    ghost tape: { Self → Tape };

    /// Takes its script, while it is fresh.
    fn arm(&mut self, script: Script)
        requires { Fresh (seen self.old) }
        ensures arms { Arms script (seen self.old) (seen self.new) }
        ensures tape { tape self.new ≡ tape self.old };

    /// How many attempts of a core were begun.
    fn begun(&self, core: CoreNo) -> u64
        requires { core.0 < 16 }
        ensures { result ≡ (seen self.now).begun core.0 };

    /// Begins the next attempt of a core: its strikes on words land.
    fn begin(&mut self, core: CoreNo)
        requires core { core.0 < 16 }
        requires room { (seen self.old).begun core.0 < 2 ^ 64 - 1 }
        ensures begins { Begins core.0 (seen self.old) (seen self.new) }
        ensures tape { tape self.new ≡ tape self.old };

    /// Passes the fetch latch of the last attempt that was begun.
    fn pass_fetch(&mut self, core: CoreNo, latch: &mut FetchLatch)
        requires core { core.0 < 16 }
        requires begun { 0 < (seen self.old).begun core.0 }
        ensures latch { latch.new ≡ passed_fetch (seen self.old) core.0 latch.old }
        ensures stays { Stays (seen self.old) (seen self.new) }
        ensures tape { tape self.new ≡ tell (tape self.old)
            (handed.Fetch core (last (seen self.old) core.0) latch.old) };

    /// Passes the packet of a unit of the last attempt that was begun.
    fn pass(&mut self, core: CoreNo, unit: Unit, packet: &mut Packet)
        requires core { core.0 < 16 }
        requires begun { 0 < (seen self.old).begun core.0 }
        ensures packet { packet.new ≡ passed_packet (seen self.old) core.0 unit packet.old }
        ensures stays { Stays (seen self.old) (seen self.new) }
        ensures tape { tape self.new ≡ tell (tape self.old)
            (handed.Packet core (last (seen self.old) core.0) unit packet.old) };

    /// Passes the store latch of the last attempt that was begun.
    fn pass_store(&mut self, core: CoreNo, latch: &mut StoreLatch)
        requires core { core.0 < 16 }
        requires begun { 0 < (seen self.old).begun core.0 }
        ensures latch { latch.new ≡ passed_store (seen self.old) core.0 latch.old }
        ensures stays { Stays (seen self.old) (seen self.new) }
        ensures tape { tape self.new ≡ tell (tape self.old)
            (handed.Store core (last (seen self.old) core.0) latch.old) };

    /// Stores a word, check bits and all.
    fn put_word(&mut self, core: CoreNo, word: u8, stored: u128)
        requires core { core.0 < 16 }
        requires word { word < 40 }
        ensures puts { Puts core.0 word stored (seen self.old) (seen self.new) }
        ensures tape { tape self.new ≡ tape self.old };

    /// So many attempts of a core were begun, of which none was begun here. No strike lands.
    fn resume_at(&mut self, core: CoreNo, begun: u64)
        requires core { core.0 < 16 }
        requires none { (seen self.old).begun core.0 ≡ 0 }
        ensures resumes { Resumes core.0 begun (seen self.old) (seen self.new) }
        ensures tape { tape self.new ≡ tape self.old };

    /// The word as it is stored now.
    fn get_word(&self, core: CoreNo, word: u8) -> u128
        requires core { core.0 < 16 }
        requires word { word < 40 }
        ensures { result ≡ (seen self.now).word core.0 word };

    /// The strikes are those of a script, so each is in form.
    ghost formed: { (s : Self) → InForm (seen s).lines };
}
