// Laws of the first turns of a run and of the rest of it, as clauses of functions that do nothing.
ghost use Rattle.std.specs.Prelude.{◌≡◌, ◌≤◌, ◌++◌, ℕ, List, length, take, drop, Result, Ok};
ghost use Rattle.std.specs.List.{All};
ghost use Rattle.g5_outside.specs.Views.{ShelfView, SinkView};
ghost use Rattle.g5_outside.specs.declared.outside.Failed.{Failed};
ghost use Rattle.g5_writing.specs.declared.outputs.OutputFiles.{OutputFiles};
ghost use Rattle.program_model.specs.Accepted.{Job};
ghost use Rattle.run_model.specs.declared.logs.Config.{Config};
ghost use Rattle.run_model.specs.declared.outputs.Counts.{Counts};
ghost use Rattle.run_model.specs.declared.schedules.Run.{Run};
ghost use Rattle.run_model.specs.declared.schedules.RunKind.{RunKind};
ghost use Rattle.run_model.specs.Cores.{Cores};
ghost use Rattle.run_model.specs.Runs.{Model, Told};
ghost use Rattle.run_model.specs.Schedule.{Fits};
ghost use Rattle.silicon.specs.Chip.{Chip};
ghost use Rattle.silicon.specs.Tape.{Tape};
ghost use Rattle.g5_machine.specs.Standing.{StandsByMode, StandsFor};
ghost use Rattle.run_loop.specs.Making.{SoundAfter, Tells};
ghost use Rattle.machine_runs.specs.Jobs.{StartsJob};
ghost use Rattle.machine_runs.specs.RunTells.{state_after, turns};
ghost use Rattle.machine_runs.specs.Views.{Stands, view_of};
ghost use Rattle.machine_runs.specs.declared.twin_machine.TwinMachine.{TwinMachine};
ghost use Rattle.saved_runs.specs.Counting.{SameCounts};
ghost use Rattle.saved_runs.specs.Jobs.{IsRestOfJob, IsRunInTwo};
ghost use Rattle.saved_runs.specs.Joined.{IsOneRun, Resumes, TellsJoined};
ghost use Rattle.saved_runs.specs.Parts.{MakesFirst, MakesRest};

/// For every script: the first turns, a machine that is stood up again, and the rest of the turns tell
/// what one machine tells. Where all of them are sound, that is what the definitions say.
pub fn first_then_rest()
    ensures joined { (e f g h : TwinMachine) (w x y z : Chip) (s t u v : Tape)
        (ks js : List RunKind) (ts us : List Told)
        → Tells ks ts (view_of e w s) (view_of f x t)
        → Resumes (view_of f x t) (view_of g y u)
        → Tells js us (view_of g y u) (view_of h z v)
        → TellsJoined (ks ++ js) (ts ++ us) (view_of e w s) (view_of h z v) }
    ensures sound { (e h : TwinMachine) (w z : Chip) (s v : Tape) (ks : List RunKind)
        (ts : List Told) (x : Model)
        → TellsJoined ks ts (view_of e w s) (view_of h z v)
        → (view_of e w s).stands x → SoundAfter (view_of e w s) x ks
        → IsOneRun x ks ts (view_of e w s) (view_of h z v) }
{}

/// A machine is stood up again for another where it has the configuration, its silicon has the script, and
/// it stands for the modes and the states that the other one stands for.
pub fn stands_again()
    ensures { (f g : TwinMachine) (x y : Chip) (t u : Tape) → y.lines ≡ x.lines
        → g.machine.config ≡ f.machine.config
        → ((s : Cores) → StandsByMode f.machine s → StandsByMode g.machine s)
        → ((m : Model) → StandsFor f.machine x m → StandsFor g.machine y m)
        → Resumes (view_of f x t) (view_of g y u) }
{}

/// The first turns of a job, as `make_first` makes them, and the rest, as `make_rest` makes them of a
/// machine that is stood up again with the counts of the first turns: together they are one run of the
/// job, for every script, also where an output of the rest has a fault.
pub fn job_in_two_parts()
    ensures { (c : Config) (j : Job) (n : ℕ) (e f g h : TwinMachine) (w x y z : Chip)
        (s t u v : Tape) (files more : OutputFiles) (a b k d : ShelfView) (o p q i : SinkView)
        (sum start : Counts) (r : Result Counts Failed)
        → StartsJob c j w e → All (λ (run : Run). Fits c.cpus run.what) j.runs
        → n ≤ length (turns j)
        → (first : MakesFirst {E = Failed} files (take n (turns j)) (view_of e w s)
        (view_of f x t) a b o p (Ok sum))
        → Resumes (view_of f x t) (view_of g y u) → SameCounts start sum
        → (rest : MakesRest more start (drop n (turns j)) (view_of g y u) (view_of h z v)
        k d q i r)
        → IsRunInTwo c j start first.told rest.told rest.ended z }
{}

/// The rest of a job's run, as `make_rest` makes it of a machine that stands for the state after the first
/// n turns of the definitions' run: as far as the turns are sound, it tells what the definitions say of
/// them, for every script, also where an output has a fault.
pub fn rest_of_a_job()
    ensures { (c : Config) (j : Job) (n : ℕ) (g h : TwinMachine) (y z : Chip) (u v : Tape)
        (files : OutputFiles) (a b : ShelfView) (o p : SinkView) (start : Counts)
        (r : Result Counts Failed) → y.lines ≡ j.strikes → g.machine.config ≡ c
        → Stands g y (state_after c j n) → n ≤ length (turns j)
        → (rest : MakesRest files start (drop n (turns j)) (view_of g y u) (view_of h z v)
        a b o p r)
        → IsRestOfJob c j n rest.told rest.ended z }
{}
