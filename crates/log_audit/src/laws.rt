// Laws of audits, as clauses of functions that do nothing.
#![tactic(auto)]

ghost use Rattle.log_audit.specs.Verdict.{YesExactlyWhereLawful};
ghost use Rattle.log_audit.specs.Written.{CoresInOnePlace, LawfulIsYes, RunsAreYes, WrittenIsRead};

/// A log is judged lawful exactly where its lines have their form and its entries are lawful under
/// the numbers of its head and of its tail.
pub fn yes_exactly_where_lawful()
    ensures { YesExactlyWhereLawful }
{}

/// A log that is written is read as what was written, and is judged lawful where its entries are.
/// So the log of every run is, whatever its turns meet.
pub fn written_logs()
    ensures read { WrittenIsRead }
    ensures lawful { LawfulIsYes }
    ensures runs { RunsAreYes }
{}

/// After each entry of a log that is judged lawful no core is with two CPUs, and none is both with
/// a CPU and on hand.
pub fn cores_in_one_place()
    ensures { CoresInOnePlace }
{}
