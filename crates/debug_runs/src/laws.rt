// Laws of sessions that are held over a job: what follows from the clause of `hold_session`, as clauses
// of functions that do nothing. The silicon is `z` after the lines; it told `v` before them and `w`
// after them.
ghost use Rattle.std.specs.Prelude.{◌≡◌, ◌≤◌, ℕ, List, Ok, Err, length, take};
ghost use Rattle.g5_outside.specs.Views.{SinkView};
ghost use Rattle.g5_outside.specs.declared.outside.Failed.{Failed};
ghost use Rattle.machine_runs.specs.Jobs.{IsReadyJob};
ghost use Rattle.machine_runs.specs.declared.ready.Ready.{Ready};
ghost use Rattle.program_model.specs.Accepted.{Job};
ghost use Rattle.program_model.specs.Session.{Session, session, with_turns};
ghost use Rattle.run_model.specs.Script.{lines};
ghost use Rattle.run_model.specs.declared.faults.Strike.{Strike};
ghost use Rattle.run_model.specs.declared.logs.Config.{Config};
ghost use Rattle.run_model.specs.declared.outputs.Counts.{Counts};
ghost use Rattle.silicon.specs.Chip.{Chip};
ghost use Rattle.silicon.specs.Tape.{Tape};
ghost use Rattle.debug_runs.specs.CommandLines.{before_quit, turns_in};
ghost use Rattle.debug_runs.specs.Consequences.{CanBeHeld, IsSoundSession, SaysCut, SaysFirst, SaysWhole};
ghost use Rattle.debug_runs.specs.Holding.{HoldsJob, IsSoundFor, said_of_job, session_of_job};

/// Where all turns are sound, the output has the whole text of the definitions' session.
pub fn whole_answers()
    ensures { (c : Config) (j : Job) (commands : List ℕ) (z : Chip) (v w : Tape) (o p : SinkView)
        (n : Counts) → HoldsJob {E = Failed} c j commands z v w o p (Ok n)
        → IsSoundSession c j commands → SaysWhole c j commands z v w o p }
{}

/// Where the turns that were made are sound, the output that failed has the text of the definitions'
/// session up to a place in one of its lines.
pub fn cut_answers()
    ensures { (c : Config) (j : Job) (commands : List ℕ) (z : Chip) (v w : Tape) (o p : SinkView)
        (e : Failed) → (m : HoldsJob c j commands z v w o p (Err e)) → IsSoundFor c j m.asked
        → SaysCut (session_of_job c j commands) o p }
{}

/// For every script: where the turns of the first n lines are sound, what the output has more begins with
/// what the definitions' session says to them.
pub fn first_answers()
    ensures { (c : Config) (j : Job) (commands : List ℕ) (z : Chip) (v w : Tape) (o p : SinkView)
        (made : Counts) (n : ℕ) → HoldsJob {E = Failed} c j commands z v w o p (Ok made)
        → n ≤ length (before_quit c.cpus (lines commands))
        → IsSoundFor c j (take n (before_quit c.cpus (lines commands)))
        → SaysFirst (said_of_job c j (take n (before_quit c.cpus (lines commands)))) o p }
{}

/// The definitions' session at its end has made as many turns as its lines before the first `quit` ask
/// for, or all that were left.
pub fn turns_of_session()
    ensures { (ls : List Strike) (c : Config) (d : Session) (commands : List ℕ)
        → (session ls c d commands).after
        ≡ with_turns ls c (turns_in c.cpus (before_quit c.cpus (lines commands))) d }
{}

/// A session over a job that is ready to run can be held.
pub fn ready_to_hold()
    ensures { (c : Config) (j : Job) (z : Chip) (r : Ready) → IsReadyJob c j z r → CanBeHeld r z }
{}
