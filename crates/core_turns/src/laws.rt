// What follows of the places of cores, of events, and of the turns of other CPUs.
ghost use Rattle.std.specs.Prelude.{◌≡◌, ◌≢◌, ◌≤◌, ◌+◌, ℕ, List, Option, Some, false, length, slice_get, slice_set};
ghost use Rattle.esa_model.specs.declared.machine.CpuNo.{CpuNo};
ghost use Rattle.esa_model.specs.declared.machine.Event.{Event};
ghost use Rattle.esa_model.specs.Line.{Side};
ghost use Rattle.esa_model.specs.Machine.{Machine};
ghost use Rattle.esa_model.specs.Run.{run};
ghost use Rattle.run_model.specs.declared.logs.Config.{Config};
ghost use Rattle.run_model.specs.declared.logs.Entry.{Entry};
ghost use Rattle.run_model.specs.declared.schedules.RunKind.TheVariants.{Turns};
ghost use Rattle.run_model.specs.Cores.{Cores, is_lost};
ghost use Rattle.run_model.specs.Runs.{Model, events_of, turned};
ghost use Rattle.silicon.specs.Chip.{Chip};
ghost use Rattle.core_turns.specs.Following.{Followed};
ghost use Rattle.core_turns.specs.Held.{CorePool, HeldBy, SparesAre};
ghost use Rattle.core_turns.specs.Made.{Made};
ghost use Rattle.core_turns.specs.Places.{EachInOnePlace, in_pool, with_cpu};
ghost use Rattle.core_turns.specs.Standing.{StandsAt};
ghost use Rattle.core_turns.specs.declared.held.Held.{Held};

/// Where each core stands in one place, it stands at most once with a CPU and in the pool, and a turn
/// of a CPU that takes no core from the two together, and adds none, keeps it so. No two CPUs that
/// are not lost have one core, and none of their cores is a spare.
pub fn cores_stand_in_one_place()
    ensures once { (c : Config) (hs : List Held) (p : CorePool) (i : ℕ) (h : Held)
        → slice_get hs i ≡ Some h → EachInOnePlace c hs p
        → (k : ℕ) → with_cpu k h + in_pool k p ≤ 1 }
    ensures kept { (c : Config) (hs : List Held) (p p2 : CorePool) (i : ℕ) (h h2 : Held)
        → slice_get hs i ≡ Some h → EachInOnePlace c hs p
        → ((k : ℕ) → with_cpu k h2 + in_pool k p2 ≡ with_cpu k h + in_pool k p)
        → EachInOnePlace c (slice_set hs i h2) p2 }
    ensures apart { (c : Config) (hs : List Held) (p : CorePool) (s : Cores) (i j : ℕ)
        (h g : Held) → EachInOnePlace c hs p → slice_get hs i ≡ Some h → slice_get hs j ≡ Some g
        → HeldBy h s i → HeldBy g s j → i ≢ j → is_lost (s.mode i) ≡ false
        → is_lost (s.mode j) ≡ false → s.core j ≢ s.core i }
    ensures free { (c : Config) (hs : List Held) (p : CorePool) (s : Cores) (i : ℕ) (h : Held)
        → EachInOnePlace c hs p → slice_get hs i ≡ Some h → HeldBy h s i → SparesAre p s.spare
        → is_lost (s.mode i) ≡ false → s.spare (s.core i) ≡ false }
{}

/// After a turn of a CPU within the premise each other CPU stands for the state after it, as it stood
/// for the one before; and an event leaves as many CPUs as there were.
pub fn other_cpus_stand()
    ensures others { (c : Config) (cpu : CpuNo) (z z2 : Chip) (bytes2 : List ℕ) (seen2 : Side)
        (p p2 : CorePool) (es : List Entry) (t : Made) (x : Model) (hs : List Held)
        (h g : Held) (j : ℕ)
        → Followed c cpu z z2 bytes2 seen2 p2 es t x (turned z.lines c x (Turns cpu))
        → EachInOnePlace c hs p → SparesAre p x.fate.cores.spare
        → slice_get hs cpu.0 ≡ Some h → slice_get hs j ≡ Some g → StandsAt h z x cpu.0
        → j ≢ cpu.0 → StandsAt g z x j
        → StandsAt g z2 (turned z.lines c x (Turns cpu)) j }
    ensures cpus { (m : Machine) (e : Option Event)
        → length (run m (events_of e)).bus ≡ length m.bus }
{}
