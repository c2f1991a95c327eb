// Events that are no unit of operation, and the unit whose fetch is refused.
ghost use Rattle.std.specs.Prelude.{◌≡◌, ◌<◌, ◌^◌, [], Some};
ghost use Rattle.esa_model.specs.declared.codes.TheConstants.{SPECIFICATION as SPECIFICATION_CODE};
ghost use Rattle.esa_model.specs.declared.events.Interruption.TheVariants.{Program as ProgramOf, Restart as RestartOf};
ghost use Rattle.esa_model.specs.declared.events.Taken.TheVariants.{Restart as TakenRestart};
ghost use Rattle.esa_model.specs.Event.{request_code, sender_of};
ghost use Rattle.esa_model.specs.Machine.{request_identification};
ghost use Rattle.esa_model.specs.Table.{length_of};
ghost use Rattle.esa_model.specs.Unit.{interrupted, suppressed};
ghost use Rattle.twin_units.specs.Events.{interrupted_by, requested};

use crate::done::{Done, interrupt, suppress};
use crate::operation::length_by;
use arrayvec::ArrayVec;
use esa_model::codes::SPECIFICATION;
use esa_model::events::{Interruption, Taken};
use esa_model::machine::{Registers, Request};
use result_packet::sender_number;

/// The code that the external interruption of a request stores.
///
/// Source: Principles of Operation, chapter on interruptions (external).
fn code_of(request: Request) -> u32
    ensures code { result ≡ request_code request }
    ensures small { result < 2 ^ 16 }
{
    match request {
        Request::Key => 0x0040,
        Request::Malfunction(_) => 0x1200,
        Request::Emergency(_) => 0x1201,
        Request::ExternalCall(_) => 0x1202,
        Request::Comparator => 0x1004,
        Request::Timer => 0x1005,
    }
}

/// The identification that the external interruption of a request stores: its sender and its code.
fn identify(request: Request) -> u32
    ensures { result ≡ request_identification request }
{
    sender_number(request) as u32 * 0x1_0000 + code_of(request)
}

/// An interruption that takes what is pending.
fn interrupt_by(r: &Registers, kind: Interruption, identification: u32, taken: Taken) -> Done
    ensures { result ≡ interrupted_by r.now kind identification taken }
{
    let mut d = interrupt(*r, Some(kind), identification, ArrayVec::new());
    d.taken = Some(taken);
    d
}

/// The external interruption of the request that is enabled. Where none is, nothing happens.
pub(crate) fn external(r: &Registers, request: Option<Request>) -> Done
    ensures { result ≡ requested r.now request }
{
    match request {
        Some(q) => interrupt_by(r, Interruption::External, identify(q), Taken::Request(q)),
        None => interrupt(*r, None, 0, ArrayVec::new()),
    }
}

/// A restart, which has no identification.
pub(crate) fn restart(r: &Registers) -> Done
    ensures { result ≡ interrupted_by r.now RestartOf 0 TakenRestart }
{
    interrupt_by(r, Interruption::Restart, 0, Taken::Restart)
}

/// An early specification exception: the identification has no length.
pub(crate) fn early(r: &Registers) -> Done
    ensures { result ≡ interrupted r.now (Some ProgramOf) SPECIFICATION_CODE [] }
{
    interrupt(
        *r,
        Some(Interruption::Program),
        SPECIFICATION as u32,
        ArrayVec::new(),
    )
}

/// A unit whose fetch a program exception refuses; its length is by the first byte, which is zero where
/// the first halfword was refused.
pub(crate) fn refused_fetch(r: &Registers, first: u8, code: u8) -> Done
    ensures { result ≡ suppressed r.now (length_of first) code [] }
{
    suppress(r, length_by(first), code, ArrayVec::new())
}
