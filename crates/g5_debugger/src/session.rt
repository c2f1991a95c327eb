// A session.
ghost use Rattle.std.specs.Prelude.{◌≡◌, ◌+◌, ◌*◌, ◌≤◌, true, length};
ghost use Rattle.run_loop.specs.Bounds.{Below};
ghost use Rattle.run_model.specs.Places.{Apart};
ghost use Rattle.twin_units.specs.UnitsSeen.{plain};
ghost use Rattle.g5_debugger.specs.CoresOf.{cores_of};
ghost use Rattle.g5_debugger.specs.Fitting.{all_fit};
ghost use Rattle.g5_debugger.specs.Left.{left};

use crate::making::Reached;
use arrayvec::ArrayVec;
use machine_runs::TwinMachine;
use turn_schedule::Schedule;

/// A debugger's session: a machine, the schedule whose turns it makes when it is asked to, and how far
/// it came. The silicon is lent to each command.
#[derive(Drop)]
pub struct Session {
    pub(crate) engine: TwinMachine,
    pub(crate) schedule: Schedule,
    pub(crate) reached: Reached,
    ghost fits: { all_fit engine.machine.config.cpus schedule ≡ true },
    ghost turns: { reached.made.turns ≡ engine.machine.counts.turns },
    ghost few: { reached.made.turns + length (left schedule reached.place) ≤ 1000000 },
    ghost below: { Below (45 * reached.made.turns) reached.made },
    ghost calls_a: { (plain engine.a).calls ≤ engine.machine.counts.turns },
    ghost calls_b: { (plain engine.b).calls ≤ engine.machine.counts.turns },
    ghost apart: { Apart engine.machine.config (cores_of engine.machine) },
}

/// What a command is answered: a line of text without its line feed, that it is unknown, or nothing,
/// since the session ends.
#[derive(Drop)]
pub enum Answer {
    Text(ArrayVec<u8, 256>),
    Unknown,
    Quit,
}

/// The turns that a session made, the commits among them, and their retries, transfers to a spare and
/// check-stops.
#[derive(Clone, Copy, Debug, PartialEq, Eq)]
pub struct Report {
    pub turns: u64,
    pub commits: u64,
    pub retries: u64,
    pub spared: u64,
    pub stopped: u64,
}
