ghost use Rattle.std.specs.Prelude.{◌≡◌, ◌≤◌, ◌<◌, ℕ, List, false};
ghost use Rattle.std.specs.List.{list_any};
ghost use Rattle.esa_model.specs.Machine.{Machine};
ghost use Rattle.esa_model.specs.Run.{run};
ghost use Rattle.run_model.specs.declared.faults.Strike.{Strike};
ghost use Rattle.run_model.specs.declared.logs.Config.{Config};
ghost use Rattle.run_model.specs.declared.outputs.Place.{Place};
ghost use Rattle.run_model.specs.declared.outputs.Place.TheVariants.{Log, Trace, Out};
ghost use Rattle.run_model.specs.declared.schedules.RunKind.{RunKind};
ghost use Rattle.run_model.specs.Checkpoint.{width};
ghost use Rattle.run_model.specs.Code.{ones};
ghost use Rattle.run_model.specs.Cores.{Choice, Cores, Met, does};
ghost use Rattle.run_model.specs.Fate.{Fate, Sight, Sound, fate, first_fate};
ghost use Rattle.run_model.specs.Pieces.{same_place, text};
ghost use Rattle.run_model.specs.Places.{Apart};
ghost use Rattle.run_model.specs.Premise.{Within};
ghost use Rattle.run_model.specs.Reading.{BoundAt};
ghost use Rattle.run_model.specs.Runs.{Model, entries, order, run_after, run_tells, turned};
ghost use Rattle.run_model.specs.Sorts.{is_stop_entry};
ghost use Rattle.run_model.specs.Texts.{turns_pieces};
ghost use Rattle.run_laws.specs.Bounds.{BoundedCpus, Others};
ghost use Rattle.run_laws.specs.EventRuns.{events_tell};
ghost use Rattle.run_laws.specs.Runs.{Tells, ValidKind, ValidKinds, cores_of_run, fate_of_run, met_of_run, told_of_run, told_without};
ghost use Rattle.run_laws.specs.TurnModes.{TurnModes};

/// Modes, retries and log entries of a turn of a CPU belong together, whatever it meets.
#[tactic(auto, using(crate::proofs::Modes::modes_of_turn))]
pub fn modes_and_entries_of_turns()
    ensures { (t : ℕ) (s : Cores) (i : ℕ) (x : Met) → TurnModes t s i (does t s i x) }
{}

/// Each core stands in one place after all turns, whatever they meet and whatever cores are returned.
#[tactic(auto, using(crate::proofs::Standing::apart_run, crate::proofs::Standing::apart_first))]
pub fn one_place_for_each_core()
    ensures { (c : Config) → c.cpus ≤ 8 → (xs : List Choice) → Apart c (cores_of_run c xs) }
{}

/// The turns of a run tell what some choices make: those that they meet.
#[tactic(auto, using(crate::proofs::Tellings::run_told))]
pub fn runs_tell_what_they_meet()
    ensures { (ls : List Strike) (c : Config) (m : Machine) (ks : List RunKind)
        → Tells c (met_of_run ls c m ks) (told_of_run ls c m ks) }
{}

/// The machine after turns is that of the run over their events, in their order.
#[tactic(auto, using(crate::proofs::Turns::run_machine))]
pub fn machine_after_events()
    ensures { (ls : List Strike) (c : Config) (x : Model) (ks : List RunKind)
        → (run_after ls c x ks).machine ≡ run x.machine (order (run_tells ls c x ks)) }
{}

/// Where a run is sound after a turn, it was sound before it.
pub fn sound_before_turns()
    ensures { (ls : List Strike) (c : Config) (x : Model) (k : RunKind)
        → Sound ls (turned ls c x k).fate → Sound ls x.fate }
{}

/// Under the premise every run is sound.
pub fn sound_under_the_premise()
    ensures { (ls : List Strike) (c : Config) (m : Machine) (ks : List RunKind) → Within ls
        → c.cpus ≤ 8 → ValidKinds c ks → Sound ls (fate_of_run ls c m ks) }
{}

/// In every run the wrong positions of a word are at most as many as the lines that struck it in the
/// block of its core's last begun attempt, and none before the first; where the run is sound, at most
/// two.
#[tactic(auto, using(crate::proofs::Bounded::wrong_bounded, crate::proofs::Bounded::at_most_two))]
pub fn few_wrong_positions()
    ensures bound { (ls : List Strike) (c : Config) (m : Machine) (ks : List RunKind) (k : ℕ)
        → BoundAt ls k ((fate_of_run ls c m ks).begun k) ((fate_of_run ls c m ks).wrong k) }
    ensures two { (ls : List Strike) (c : Config) (m : Machine) (ks : List RunKind)
        → Sound ls (fate_of_run ls c m ks) → (k w : ℕ) → w < 40
        → ones (width w) ((fate_of_run ls c m ks).wrong k w) ≤ 2 }
{}

/// A turn of any kind keeps the bound on the wrong positions of the cores of all CPUs that are not lost,
/// and these are within it at the start.
#[tactic(auto, using(crate::proofs::BoundedTurns::bounded_first))]
pub fn turns_keep_the_bound()
    ensures kept { (ls : List Strike) (c : Config) (g : ℕ → Sight) (s : Fate) (k : RunKind)
        → ValidKind c k → BoundedCpus ls c s → BoundedCpus ls c (fate ls c g s k).after }
    ensures first { (ls : List Strike) (c : Config) → BoundedCpus ls c (first_fate c) }
{}

/// A turn of a CPU leaves core, mode and retries of the others.
#[tactic(auto, using(crate::proofs::Others::others_stay))]
pub fn turns_leave_the_others()
    ensures { (t : ℕ) (s : Cores) (i : ℕ) (x : Met) → Others s i (does t s i x) }
{}

/// Where no CPU stops, trace and console are those of the run without strikes from whose schedule the
/// turns that make no event are left out.
pub fn same_without_recovery()
    ensures trace { (ls : List Strike) (c : Config) (m : Machine) (ks : List RunKind)
        → list_any is_stop_entry (entries (told_of_run ls c m ks)) ≡ false
        → text Trace (turns_pieces 0 (told_of_run ls c m ks))
        ≡ text Trace (turns_pieces 0 (told_without ls c m ks)) }
    ensures console { (ls : List Strike) (c : Config) (m : Machine) (ks : List RunKind)
        → list_any is_stop_entry (entries (told_of_run ls c m ks)) ≡ false
        → text Out (turns_pieces 0 (told_of_run ls c m ks))
        ≡ text Out (turns_pieces 0 (told_without ls c m ks)) }
{}

/// What a run writes besides its log is what the machine without faults writes over the run's events, in
/// their order.
#[tactic(auto, using(crate::proofs::Events::writes_alike))]
pub fn texts_of_the_machine_without_faults()
    ensures { (p : Place) (ls : List Strike) (c : Config) (n : ℕ) (x : Model) (ks : List RunKind)
        → same_place p Log ≡ false
        → text p (turns_pieces n (run_tells ls c x ks))
        ≡ text p (turns_pieces n (events_tell x.machine (order (run_tells ls c x ks)))) }
{}
