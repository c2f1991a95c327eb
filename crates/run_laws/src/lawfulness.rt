ghost use Rattle.std.specs.Prelude.{◌≡◌, ◌≤◌, ◌+◌, ◌++◌, ℕ, List, [], ◌∷◌, true, length, map};
ghost use Rattle.std.specs.List.{list_any};
ghost use Rattle.esa_model.specs.Machine.{Machine};
ghost use Rattle.run_model.specs.declared.faults.Strike.{Strike};
ghost use Rattle.run_model.specs.declared.logs.Config.{Config};
ghost use Rattle.run_model.specs.declared.logs.Entry.{Entry};
ghost use Rattle.run_model.specs.declared.schedules.RunKind.{RunKind};
ghost use Rattle.run_model.specs.Cores.{Choice, is_spare_number};
ghost use Rattle.run_model.specs.Counts.{counts};
ghost use Rattle.run_model.specs.Lawful.{AllMeet, Lawful, OnePlace, back, bit, gone};
ghost use Rattle.run_model.specs.Runs.{Told, entries, outline_of};
ghost use Rattle.run_model.specs.Since.{pushed, since};
ghost use Rattle.run_model.specs.Sorts.{is_fail, is_no_spare, is_retry, of_core, of_cpu};
ghost use Rattle.run_laws.specs.Counted.{Counted};
ghost use Rattle.run_laws.specs.Rules.{ByTable, KeepsRules};
ghost use Rattle.run_laws.specs.Runs.{Tells, ValidKinds, ValidTurns, told_of_run};

/// Whatever turns meet: since its last commit or transfer a CPU has at most as many retries as the
/// threshold, and where no spare is left its core has failed once more than that.
#[tactic(auto, using(crate::proofs::Tellings::retries_told, crate::proofs::Tellings::no_spare_told))]
pub fn retries_below_threshold()
    ensures retries { (c : Config) (xs : List Choice) (ts : List Told) (i : ℕ) → Tells c xs ts
        → since i (of_cpu i is_retry) (pushed (map outline_of ts) []) ≤ c.threshold }
    ensures no_spare { (c : Config) (xs : List Choice) (ts : List Told) (t : Told) (i k : ℕ)
        → Tells c xs (ts ++ t ∷ []) → list_any (of_core i k is_no_spare) t.entries ≡ true
        → since i (of_core i k is_fail) (pushed (map outline_of ts) []) ≡ c.threshold + 1 }
{}

/// Every log that turns tell is lawful, whatever they meet, and so is that of every run.
pub fn logs_are_lawful()
    ensures told { (c : Config) (xs : List Choice) (ts : List Told)
        → c.cpus ≤ 8 → ValidTurns c xs → Tells c xs ts
        → Lawful c (length ts) (counts ts).returned (entries ts) }
    ensures run { (ls : List Strike) (c : Config) (m : Machine) (ks : List RunKind)
        → c.cpus ≤ 8 → ValidKinds c ks
        → Lawful c (length (told_of_run ls c m ks)) (counts (told_of_run ls c m ks)).returned
        (entries (told_of_run ls c m ks)) }
{}

/// After each entry of a lawful log no core is with two CPUs, and none is both with a CPU and on hand.
#[tactic(auto, using(crate::proofs::Placing::one_place))]
pub fn one_place_in_lawful_logs()
    ensures { (c : Config) (last : ℕ) (es more : List Entry) → c.cpus ≤ 8
        → AllMeet c last [] (es ++ more) → OnePlace c (pushed es []) }
{}

/// In a lawful log a core is taken at most as often as it was returned, a spare by number once more.
#[tactic(auto, using(crate::proofs::Placing::taken_most))]
pub fn taken_as_often_as_on_hand()
    ensures { (c : Config) (last : ℕ) (es : List Entry) (k : ℕ) → c.cpus ≤ 8 → AllMeet c last [] es
        → gone k (pushed es []) ≤ back k (pushed es []) + bit (is_spare_number c k) }
{}

/// The counts of a run are the numbers of its turns, its commits, and its log entries of each sort.
#[tactic(auto, using(crate::proofs::Summing::counted))]
pub fn counts_count()
    ensures { (ts : List Told) → Counted ts (counts ts) }
{}

/// Turns of the table keep the rules, whatever they meet.
pub fn rules_of_every_run()
    ensures { (c : Config) (kinds : List RunKind) (told : List Told) → c.cpus ≤ 8
        → ByTable c kinds told → KeepsRules c told }
{}
