// A log, judged from its file.
ghost use Rattle.std.specs.Prelude.{IfErr, IfOk};
ghost use Rattle.log_commands.specs.Audits.{Audits, FailsToAudit};

use g5_outside::{Shelf, Sink};
use g5_reading::read_input;
use g5_writing::add_to_sink;
use log_audit::audit;
use program_model::inputs::Input;
use program_model::refusals::AuditRefusal;
use program_model::status::Status;
use status_lines::audit_line_of;
use std::alloc::Global;

/// Reads a log of version 2 and writes on the output whether it is lawful; answers why it is not, if it
/// is not.
///
/// # Errors
///
/// Before the first byte is written: `NoFile`, `ReadFault`, `TooLarge`, `NoMemory`. Then `WriteFault`.
pub fn audit_file<F: Shelf, O: Sink>(
    alloc: Global,
    name: &str,
    shelf: &mut F,
    out: &mut O,
) -> Result<Option<AuditRefusal>, Status>
    ensures judged { IfOk result (λ v. Audits name.now (F.seen shelf.old) (F.seen shelf.new)
        (O.seen out.old) (O.seen out.new) v) }
    ensures fails { IfErr result (FailsToAudit name.now (F.seen shelf.old) (F.seen shelf.new)
        (O.seen out.old) (O.seen out.new)) }
{
    let log = match read_input(alloc, shelf, Input::Log, name) {
        Ok(log) => log,
        Err(status) => return Err(status),
    };
    let verdict = audit(&log).err();
    match add_to_sink(out, &audit_line_of(verdict)) {
        Ok(()) => Ok(verdict),
        Err(_) => Err(Status::WriteFault),
    }
}
