// Laws of the texts and the counts of a run in two parts, as clauses of functions that do nothing.
ghost use Rattle.std.specs.Prelude.{◌≡◌, ◌≤◌, ◌++◌, ℕ, List, true, false, length, take, drop};
ghost use Rattle.program_model.specs.Accepted.{Job, job_tells};
ghost use Rattle.run_model.specs.declared.logs.Config.{Config};
ghost use Rattle.run_model.specs.declared.outputs.Counts.{Counts};
ghost use Rattle.run_model.specs.declared.schedules.RunKind.{RunKind};
ghost use Rattle.run_model.specs.Counts.{count_turns, counts};
ghost use Rattle.run_model.specs.Runs.{Told};
ghost use Rattle.run_model.specs.Schedule.{kinds_of};
ghost use Rattle.run_model.specs.Texts.{front, turns_pieces, whole};
ghost use Rattle.run_laws.specs.Rules.{ByTable};
ghost use Rattle.saved_runs.specs.Counting.{FewCounts, SameCounts};
ghost use Rattle.saved_runs.specs.Parts.{rest_by};

/// The texts of the first turns and of the rest, one behind the other, are those of the whole run, where
/// the rest begins with the counts of the first turns. They are cut after any number of turns.
#[tactic(auto, using(crate::proofs::Carrying::pieces_then, crate::proofs::Carrying::front_then, crate::proofs::Carrying::whole_cut))]
pub fn texts_of_both_parts()
    ensures turns { (start : Counts) (ts us : List Told) → SameCounts start (counts ts)
        → turns_pieces 0 ts ++ turns_pieces start.commits us ≡ turns_pieces 0 (ts ++ us) }
    ensures front { (c : Config) (start : Counts) (ts us : List Told)
        → SameCounts start (counts ts)
        → front c ts ++ rest_by false start us ≡ front c (ts ++ us) }
    ensures whole { (c : Config) (start : Counts) (ts : List Told) (n : ℕ)
        → SameCounts start (counts (take n ts))
        → front c (take n ts) ++ rest_by true start (drop n ts) ≡ whole c ts }
{}

/// And so are the counts. Failures and corrections may begin anew.
#[tactic(auto, using(crate::proofs::Carrying::same_counts, crate::proofs::Carrying::same_cut))]
pub fn counts_of_both_parts()
    ensures joined { (start : Counts) (ts us : List Told) → SameCounts start (counts ts)
        → SameCounts (count_turns start us) (counts (ts ++ us)) }
    ensures cut { (start : Counts) (ts : List Told) (n : ℕ)
        → SameCounts start (counts (take n ts))
        → SameCounts (count_turns start (drop n ts)) (counts ts) }
{}

/// For every script: a turn commits at most once, and retries, takes a spare, stops and is returned at
/// most once. So each of these counts is at most the turns.
pub fn counts_are_few()
    ensures table { (c : Config) (ks : List RunKind) (ts : List Told) → ByTable c ks ts
        → FewCounts (counts ts) (length ts) }
    ensures job { (c : Config) (j : Job) (n : ℕ) → n ≤ length (kinds_of j.runs)
        → FewCounts (counts (take n (job_tells c j))) n }
{}
