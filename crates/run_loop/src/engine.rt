// What makes turns.
ghost use Rattle.std.specs.Prelude.{◌≡◌, ◌+◌, ◌<◌, ◌≤◌, ◌^◌, length};
ghost use Rattle.esa_model.specs.Changes.{stretches};
ghost use Rattle.run_model.specs.Cores.{Cores};
ghost use Rattle.run_model.specs.Runs.{Model};
ghost use Rattle.run_model.specs.Schedule.{Fits};
ghost use Rattle.silicon.specs.Chip.{Chip};
ghost use Rattle.silicon.specs.Tape.{Tape};
ghost use Rattle.run_loop.specs.Engines.{EngineView, FailsAsStruck, Kept, Obeys, Follows, SoundTurn, told_of};

use arrayvec::ArrayVec;
use esa_model::machine::{Event, Psw};
use result_packet::Written;
use run_model::logs::Entry;
use run_model::schedules::RunKind;
use silicon::Silicon;

/// What a turn tells: its log entries, its event, and at a commit the PSW after it and what it wrote.
#[derive(Drop)]
pub struct Turn {
    pub entries: ArrayVec<Entry, 44>,
    pub event: Option<Event>,
    pub psw: Psw,
    pub written: Written,
}

impl Turn {
    /// A turn that tells nothing. It is lent to turn after turn, each of which is told there.
    pub fn new() -> Turn {
        Turn {
            entries: ArrayVec::new(),
            event: None,
            psw: Psw { w0: 0, w1: 0 },
            written: Written::new(),
        }
    }
}

/// A machine that makes the turns of a schedule under a fault script, on silicon that is lent to each.
pub trait Engine {
    /// What clauses see of it on a silicon, and on what the silicon tells of what was handed in.
    ghost seen: { Self → Chip → Tape → EngineView };

    /// Makes one turn: of a CPU, of the interrupt key of a CPU, or of the return of a core. It is told
    /// in the place of the turn before it.
    fn turn<Z: Silicon>(&mut self, silicon: &mut Z, kind: RunKind, told: &mut Turn)
        requires ready { (seen self.old (Z.seen silicon.old) (Z.tape silicon.old)).ready }
        requires fits { Fits
            (seen self.old (Z.seen silicon.old) (Z.tape silicon.old)).config.cpus kind }
        requires room { (seen self.old (Z.seen silicon.old) (Z.tape silicon.old)).turns < 2 ^ 47 }
        ensures ready { (seen self.new (Z.seen silicon.new) (Z.tape silicon.new)).ready }
        ensures turns { (seen self.new (Z.seen silicon.new) (Z.tape silicon.new)).turns
            ≡ (seen self.old (Z.seen silicon.old) (Z.tape silicon.old)).turns + 1 }
        ensures kept { Kept (seen self.old (Z.seen silicon.old) (Z.tape silicon.old))
            (seen self.new (Z.seen silicon.new) (Z.tape silicon.new)) }
        ensures stretches { length (stretches told.new.written.changed.items) ≤ 135 }
        ensures causes { FailsAsStruck
            (seen self.old (Z.seen silicon.old) (Z.tape silicon.old)).lines
            told.new.entries.items }
        ensures obeys { (s : Cores)
            → (seen self.old (Z.seen silicon.old) (Z.tape silicon.old)).stands_by_mode s
            → Obeys s kind (seen self.old (Z.seen silicon.old) (Z.tape silicon.old))
            (seen self.new (Z.seen silicon.new) (Z.tape silicon.new)) (told_of told.new) }
        ensures follows { (x : Model)
            → (seen self.old (Z.seen silicon.old) (Z.tape silicon.old)).stands x
            → SoundTurn (seen self.old (Z.seen silicon.old) (Z.tape silicon.old)) x kind
            → Follows x kind (seen self.old (Z.seen silicon.old) (Z.tape silicon.old))
            (seen self.new (Z.seen silicon.new) (Z.tape silicon.new)) (told_of told.new) };
}
