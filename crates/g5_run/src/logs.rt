// Commands on a log.
ghost use Rattle.std.specs.Prelude.{◌≡◌, []};
ghost use Rattle.g5_run.specs.Converts.{MigrateEnds};
ghost use Rattle.g5_run.specs.Judges.{AuditEnds};

use g5_outside::{Shelf, Sink};
use g5_words::Command;
use log_commands::{audit_file, migrate_file};
use program_model::status::Status;
use status_lines::say_line;
use std::alloc::Global;

/// Makes a file with the text of version 2 of a log, and says why it could not.
pub fn migrate_and_say<F: Shelf, E: Sink>(
    alloc: Global,
    old: &str,
    new: &str,
    shelf: &mut F,
    err: &mut E,
) -> Status
    requires shelf { (F.seen shelf.old).numbers ≡ [] }
    ensures { MigrateEnds old.now new.now (F.seen shelf.old) (F.seen shelf.new) (E.seen err.old)
        (E.seen err.new) result }
{
    match migrate_file(alloc, old, new, shelf) {
        Ok(()) => Status::Done,
        Err(status) => {
            say_line(err, &Command::Migrate { old, new }, status);
            status
        }
    }
}

/// Writes on the output whether a log is lawful, and says why it could not.
pub fn audit_and_say<F: Shelf, O: Sink, E: Sink>(
    alloc: Global,
    log: &str,
    shelf: &mut F,
    out: &mut O,
    err: &mut E,
) -> Status
    ensures { AuditEnds log.now (F.seen shelf.old) (F.seen shelf.new) (O.seen out.old)
        (O.seen out.new) (E.seen err.old) (E.seen err.new) result }
{
    match audit_file(alloc, log, shelf, out) {
        Ok(None) => Status::Done,
        Ok(Some(refusal)) => Status::AuditNo(refusal),
        Err(status) => {
            say_line(err, &Command::Audit { log }, status);
            status
        }
    }
}
