// The start of a session, and the report on it.
ghost use Rattle.std.specs.Prelude.{◌≡◌, ◌≤◌, All};
ghost use Rattle.g5_machine.specs.Standing.{StandsByMode};
ghost use Rattle.run_model.specs.Cores.{first_cores};
ghost use Rattle.run_model.specs.Counts.{none_made};
ghost use Rattle.run_model.specs.Schedule.{Fits, kinds_of, turns_of};
ghost use Rattle.g5_debugger.specs.Sessions.{IsUnused, left_of, report_on};

use crate::making::Reached;
use crate::places::Place;
use crate::session::{Report, Session};
use g5_machine::Machine;
use machine_runs::TwinMachine;
use run_loop::none_made;
use run_model::outputs::Counts;
use turn_schedule::Schedule;

impl Session {
    /// A session that has made no turn, over a machine that has made none, with a schedule of its CPUs.
    pub fn new(machine: Machine, schedule: Schedule) -> Session
        requires start { StandsByMode machine (first_cores machine.config) }
        requires fits { All (λ r. Fits machine.config.cpus r.what) schedule }
        requires few { turns_of schedule ≤ 1000000 }
        ensures machine { result.engine.machine ≡ machine }
        ensures left { left_of result ≡ kinds_of schedule }
        ensures made { result.reached.made ≡ none_made }
    {
        Session::with_units(TwinMachine::new(machine), schedule)
    }

    /// The same over a machine with its two units, which were not called.
    pub fn with_units(engine: TwinMachine, schedule: Schedule) -> Session
        requires unused { IsUnused engine }
        requires fits { All (λ r. Fits engine.machine.config.cpus r.what) schedule }
        requires few { turns_of schedule ≤ 1000000 }
        ensures engine { result.engine ≡ engine }
        ensures left { left_of result ≡ kinds_of schedule }
        ensures made { result.reached.made ≡ none_made }
    {
        let place = Place { run: 0, done: 0 };
        let reached = Reached {
            place,
            made: none_made(),
        };
        Session {
            engine,
            schedule,
            reached,
        }
    }

    /// All that is counted of the turns that the session made.
    pub fn made(&self) -> Counts
        ensures { result ≡ self.now.reached.made }
    {
        self.reached.made
    }

    /// The counts of the turns that the session made, as a report has them.
    pub fn report(&self) -> Report
        ensures { result ≡ report_on self.now.reached.made }
    {
        let made = self.made();
        Report {
            turns: made.turns,
            commits: made.commits,
            retries: made.retries,
            spared: made.spared,
            stopped: made.stopped,
        }
    }
}
