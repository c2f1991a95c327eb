// Laws of turns that were made: what follows from the loop's clause, as clauses of functions that do
// nothing. `old` and `y` stand for the engine and its silicon before the turns, `new` and `z` for them
// after the turns.
ghost use Rattle.std.specs.Prelude.{◌≡◌, ◌≤◌, ◌+◌, ◌++◌, ℕ, List, [], ◌∷◌, IsTrue, true, Result, Ok, length, map, take};
ghost use Rattle.std.specs.List.{All, list_any};
ghost use Rattle.g5_outside.specs.Views.{ShelfView, SinkView};
ghost use Rattle.g5_outside.specs.declared.outside.Failed.{Failed};
ghost use Rattle.g5_writing.specs.Outputs.{Puts};
ghost use Rattle.g5_writing.specs.declared.outputs.OutputFiles.{OutputFiles};
ghost use Rattle.run_model.specs.declared.outputs.Counts.{Counts};
ghost use Rattle.run_model.specs.declared.outputs.Place.TheVariants.{Log, Trace, Out};
ghost use Rattle.run_model.specs.declared.schedules.RunKind.{RunKind};
ghost use Rattle.run_model.specs.Cores.{first_cores};
ghost use Rattle.run_model.specs.Counts.{count_turns, counts, none_made};
ghost use Rattle.run_model.specs.Lawful.{Lawful};
ghost use Rattle.run_model.specs.Pieces.{Piece, text};
ghost use Rattle.run_model.specs.Runs.{Model, Told, entries, outline_of};
ghost use Rattle.run_model.specs.Schedule.{Fits};
ghost use Rattle.run_model.specs.Since.{pushed, since};
ghost use Rattle.run_model.specs.Sorts.{is_fail, is_no_spare, is_retry, of_core, of_cpu};
ghost use Rattle.run_model.specs.Texts.{turns_pieces};
ghost use Rattle.silicon.specs.Chip.{Chip};
ghost use Rattle.silicon.specs.Tape.{Tape};
ghost use Rattle.run_loop.specs.Engines.{FailsAsStruck};
ghost use Rattle.run_loop.specs.Making.{MakesFrom, SoundAfter, tells_by, state_by};
ghost use Rattle.run_loop.specs.Fronts.{PutsFront, Begins, ToldByTurns};

use crate::engine::Engine;

/// For every script: the outputs have the pieces of the definition for the turns in front that are sound,
/// and behind them those of the other turns. At a fault all of these are cut short.
pub fn front_of_turns<E: Engine>(old: &E, new: &E)
    ensures { (y z : Chip) (v w : Tape) (files : OutputFiles) (start : Counts) (ks : List RunKind)
        (a b : ShelfView) (o p : SinkView) (r : Result Counts Failed) (x : Model) (j : ℕ)
        → MakesFrom files start ks (E.seen old.now y v) (E.seen new.now z w) a b o p r
        → (E.seen old.now y v).stands x → j ≤ length ks
        → SoundAfter (E.seen old.now y v) x (take j ks)
        → PutsFront files (turns_pieces start.commits (tells_by (E.seen old.now y v) x (take j ks)))
        a b o p r }
{}

/// Where all turns are sound, all that was written is the definition's, up to a fault.
pub fn pieces_of_sound_turns<E: Engine>(old: &E, new: &E)
    ensures { (y z : Chip) (v w : Tape) (files : OutputFiles) (start : Counts) (ks : List RunKind)
        (a b : ShelfView) (o p : SinkView) (r : Result Counts Failed) (x : Model)
        → MakesFrom files start ks (E.seen old.now y v) (E.seen new.now z w) a b o p r
        → (E.seen old.now y v).stands x → SoundAfter (E.seen old.now y v) x ks
        → Puts files (turns_pieces start.commits (tells_by (E.seen old.now y v) x ks)) a b o p r }
{}

/// And so are the counts, and the state that the engine stands for.
#[tactic(auto, using(crate::proofs::Ends::sound_counts))]
pub fn counts_of_sound_turns<E: Engine>(old: &E, new: &E)
    ensures { (y z : Chip) (v w : Tape) (files : OutputFiles) (start : Counts) (ks : List RunKind)
        (a b : ShelfView) (o p : SinkView) (n : Counts) (x : Model)
        → MakesFrom {E = Failed} files start ks (E.seen old.now y v) (E.seen new.now z w) a b o p
        (Ok n)
        → (E.seen old.now y v).stands x → SoundAfter (E.seen old.now y v) x ks
        → (n ≡ count_turns start (tells_by (E.seen old.now y v) x ks))
        × (E.seen new.now z w).stands (state_by (E.seen old.now y v) x ks) }
{}

/// The text of each output that is told begins with what it had and its part of the front.
pub fn texts_begin()
    ensures log { (files : OutputFiles) (front : List Piece) (a b : ShelfView) (o p : SinkView)
        (n : Counts) → PutsFront {E = Failed} files front a b o p (Ok n) → IsTrue a.told
        → Begins (b.text_of files.log.0) (a.text_of files.log.0 ++ text Log front) }
    ensures trace { (files : OutputFiles) (front : List Piece) (a b : ShelfView) (o p : SinkView)
        (n : Counts) → PutsFront {E = Failed} files front a b o p (Ok n) → IsTrue a.told
        → Begins (b.text_of files.trace.0) (a.text_of files.trace.0 ++ text Trace front) }
    ensures console { (files : OutputFiles) (front : List Piece) (a b : ShelfView) (o p : SinkView)
        (n : Counts) → PutsFront {E = Failed} files front a b o p (Ok n) → IsTrue o.told
        → Begins p.taken (o.taken ++ text Out front) }
{}

/// For every script: no failure is in the log without its strike.
pub fn failures_have_strikes<E: Engine>(old: &E, new: &E)
    ensures { (y z : Chip) (v w : Tape) (files : OutputFiles) (start : Counts) (ks : List RunKind)
        (a b : ShelfView) (o p : SinkView) (r : Result Counts Failed)
        → (m : MakesFrom files start ks (E.seen old.now y v) (E.seen new.now z w) a b o p r)
        → FailsAsStruck (E.seen old.now y v).lines (entries m.told) }
{}

/// For every script: what an engine at its start told is what some turns of CPUs that it has tell, so that
/// the laws of such turns hold of it, and it stands by its modes for the cores after them.
pub fn told_by_turns<E: Engine>(old: &E, new: &E)
    ensures { (y z : Chip) (v w : Tape) (files : OutputFiles) (ks : List RunKind) (a b : ShelfView)
        (o p : SinkView) (r : Result Counts Failed)
        → (m : MakesFrom files none_made ks (E.seen old.now y v) (E.seen new.now z w) a b o p r)
        → (E.seen old.now y v).stands_by_mode (first_cores (E.seen old.now y v).config)
        → All (λ (k : RunKind). Fits (E.seen old.now y v).config.cpus k) ks
        → ToldByTurns (E.seen old.now y v) (E.seen new.now z w) m.told }
{}

/// For every script: the log of an engine from its start is lawful, since its last commit or transfer a
/// CPU has at most as many retries as the threshold, and where no spare is left its core has failed once
/// more than that.
pub fn lawful_and_few_retries<E: Engine>(old: &E, new: &E)
    ensures lawful { (y z : Chip) (v w : Tape) (told : List Told) → (E.seen old.now y v).config.cpus ≤ 8
        → ToldByTurns (E.seen old.now y v) (E.seen new.now z w) told
        → Lawful (E.seen old.now y v).config (length told) (counts told).returned (entries told) }
    ensures retries { (y z : Chip) (v w : Tape) (told : List Told) (i : ℕ)
        → ToldByTurns (E.seen old.now y v) (E.seen new.now z w) told
        → since i (of_cpu i is_retry) (pushed (map outline_of told) [])
        ≤ (E.seen old.now y v).config.threshold }
    ensures no_spare { (y z : Chip) (v w : Tape) (before : List Told) (t : Told) (i k : ℕ)
        → ToldByTurns (E.seen old.now y v) (E.seen new.now z w) (before ++ t ∷ [])
        → list_any (of_core i k is_no_spare) t.entries ≡ true
        → since i (of_core i k is_fail) (pushed (map outline_of before) [])
        ≡ (E.seen old.now y v).config.threshold + 1 }
{}
