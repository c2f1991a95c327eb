// Laws of reading and writing, as clauses of functions that do nothing.
#![tactic(auto)]

ghost use Rattle.run_model.specs.LogReading.{ReadIsWritten, WrittenIsRead};
ghost use Rattle.service_log.specs.Headings.{HeadIsRead, TailIsRead};

/// The line of an entry is read as that entry.
#[tactic(auto, using(crate::proofs::Written::written_is_read))]
pub fn written_is_read()
    ensures { WrittenIsRead }
{}

/// A line that is read is the line of its entry, whose numbers are in their ranges.
pub fn read_is_written()
    ensures { ReadIsWritten }
{}

/// A head and a tail that are written are read as their numbers.
#[tactic(auto, using(crate::proofs::EndsRead::head_is_read, crate::proofs::EndsRead::tail_is_read))]
pub fn ends_are_read()
    ensures head { HeadIsRead }
    ensures tail { TailIsRead }
{}
