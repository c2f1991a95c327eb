// A machine is stood up of the parts that were brought from a save.
ghost use Rattle.std.specs.Prelude.{◌≡◌, ◌≤◌, length};
ghost use Rattle.save_model.specs.Parts.{config_of};
ghost use Rattle.save_model.specs.Save.{IsSave};
ghost use Rattle.save_writing.specs.Written.{save_of};
ghost use Rattle.silicon.specs.Chip.{Chip};
ghost use Rattle.saved_machine.specs.Again.{HasCallers, IsSized, IsTyped, SaysHeld};
ghost use Rattle.saved_machine.specs.Again.{SaysSignals};
ghost use Rattle.machine_save.specs.Bringing.{Brought, PoolTo, StoresTo};
ghost use Rattle.saved_machine.specs.Saved.{counts_of, saved};

use core_turns::{Held, SparePool};
use g5_machine::{Machine, Tally};
use result_packet::Side;
use run_model::logs::Config;
use save_model::parts::{SaveHead, SavedNumbers};
use save_reading::SavedRun;
use saved_machine::Counts;
use seen_memory::Memory;

// The machine of a head that tells one.
fn config_of(head: &SaveHead) -> Config
    requires { head.now.pages ≤ 4096 }
    ensures { result ≡ config_of head.now }
{
    Config {
        cpus: head.cpus,
        spares: head.spares,
        pages: head.pages as u16,
        threshold: head.threshold,
    }
}

/// What the run of a save had counted.
pub fn counts_of(numbers: &SavedNumbers) -> Counts
    ensures { result ≡ counts_of numbers.now }
{
    Counts {
        retries: numbers.retries,
        spared: numbers.spared,
        stopped: numbers.stopped,
        returned: numbers.returned,
    }
}

fn tally_of(numbers: &SavedNumbers) -> Tally
    ensures turns { result.turns ≡ numbers.now.turns }
    ensures commits { result.commits ≡ numbers.now.commits }
    ensures read { result.read ≡ numbers.now.console_read }
    ensures written { result.written ≡ numbers.now.console_written }
{
    Tally {
        turns: numbers.turns,
        commits: numbers.commits,
        read: numbers.console_read,
        written: numbers.console_written,
    }
}

/// The machine of a save, of its parts.
pub fn stand_up(
    s: &SavedRun,
    cpus: Vec<Held>,
    pool: SparePool,
    memory: Memory,
    side: Side,
) -> Machine
    requires save { IsSave (save_of s.now.head s.now.numbers s.now.cpus.items s.now.cores
        s.now.keys.now s.now.storage.now) }
    requires cpus { Brought SaysHeld s.now.cpus.items (length s.now.cpus.items) cpus.items }
    requires bus { Brought SaysSignals s.now.cpus.items (length s.now.cpus.items) side.bus }
    requires pool { PoolTo 16 s.now.cores pool }
    requires memory { memory.bytes ≡ s.now.storage.now }
    requires keys { side.keys ≡ s.now.keys.now }
    requires clock { side.clock ≡ s.now.numbers.clock }
    ensures again { (z z2 : Chip) → StoresTo 16 s.now.cores z z2
        → saved result (counts_of s.now.numbers) z2 ≡ save_of s.now.head s.now.numbers
        s.now.cpus.items s.now.cores s.now.keys.now s.now.storage.now }
    ensures side { result.side ≡ side }
    ensures typed { IsTyped result }
    ensures callers { HasCallers result }
    ensures sized { IsSized result }
{
    Machine::resumed(
        config_of(&s.head),
        cpus,
        pool,
        memory,
        side,
        tally_of(&s.numbers),
    )
}
