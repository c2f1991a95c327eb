//! The numbers that packets have for interruptions, what is taken, keys that are set and orders.
//! Source: choice of this project. A number that is none of these is nothing.

ghost use Rattle.std.specs.Prelude.{◌≡◌};
ghost use Rattle.esa_model.specs.Event.{sender_of};
ghost use Rattle.esa_model.specs.PacketCodes.{interruption_number as number_of_interruption};
ghost use Rattle.esa_model.specs.PacketCodes.{interruption_of as numbered_interruption};
ghost use Rattle.esa_model.specs.PacketCodes.{request_number as number_of_request};
ghost use Rattle.esa_model.specs.PacketCodes.{taken_number as number_of_taken};
ghost use Rattle.esa_model.specs.PacketCodes.{taken_sender as sender_of_taken};
ghost use Rattle.esa_model.specs.PacketCodes.{taken_of as numbered_taken};
ghost use Rattle.esa_model.specs.PacketCodes.{key_block as block_of_key, key_byte as byte_of_key};
ghost use Rattle.esa_model.specs.PacketCodes.{key_set_of as numbered_key};
ghost use Rattle.esa_model.specs.PacketCodes.{order_number as number_of_order};
ghost use Rattle.esa_model.specs.PacketCodes.{order_target as target_of_order};

use esa_model::events::{Interruption, KeySet, SentOrder, Taken};
use esa_model::machine::{CpuNo, Request};

/// The number of an interruption: 0 none, 1 program, 2 SVC, 3 external, 4 restart.
pub fn interruption_number(kind: Option<Interruption>) -> u8
    ensures { result ≡ number_of_interruption kind }
{
    match kind {
        None => 0,
        Some(Interruption::Program) => 1,
        Some(Interruption::SupervisorCall) => 2,
        Some(Interruption::External) => 3,
        Some(Interruption::Restart) => 4,
    }
}

/// The interruption of a number; a number above 4 is none.
pub fn interruption_of(number: u8) -> Option<Interruption>
    ensures { result ≡ numbered_interruption number }
{
    match number {
        1 => Some(Interruption::Program),
        2 => Some(Interruption::SupervisorCall),
        3 => Some(Interruption::External),
        4 => Some(Interruption::Restart),
        _ => None,
    }
}

fn request_number(request: Request) -> u8
    ensures { result ≡ number_of_request request }
{
    match request {
        Request::Key => 1,
        Request::Malfunction(_) => 2,
        Request::Emergency(_) => 3,
        Request::ExternalCall(_) => 4,
        Request::Comparator => 6,
        Request::Timer => 7,
    }
}

/// The number of the CPU that sent a request; 0 for one that no CPU sent.
pub fn sender_number(request: Request) -> u8
    ensures { result ≡ sender_of request }
{
    match request {
        Request::Malfunction(sender) | Request::Emergency(sender) | Request::ExternalCall(sender) =>
            sender.0,
        Request::Key | Request::Comparator | Request::Timer => 0,
    }
}

/// The number of what is taken: 0 nothing, 1 key, 2 malfunction alert, 3 emergency signal, 4
/// external call, 5 restart, 6 clock comparator, 7 CPU timer.
pub fn taken_number(taken: Option<Taken>) -> u8
    ensures { result ≡ number_of_taken taken }
{
    match taken {
        None => 0,
        Some(Taken::Request(request)) => request_number(request),
        Some(Taken::Restart) => 5,
    }
}

/// The number of the CPU that sent what is taken, or 0.
pub fn taken_sender(taken: Option<Taken>) -> u8
    ensures { result ≡ sender_of_taken taken }
{
    match taken {
        Some(Taken::Request(request)) => sender_number(request),
        Some(Taken::Restart) | None => 0,
    }
}

/// What a number says is taken, and its sender where it has one; a number above 7 says nothing.
pub fn taken_of(number: u8, sender: u8) -> Option<Taken>
    ensures { result ≡ numbered_taken number sender }
{
    let from = CpuNo(sender);
    match number {
        1 => Some(Taken::Request(Request::Key)),
        2 => Some(Taken::Request(Request::Malfunction(from))),
        3 => Some(Taken::Request(Request::Emergency(from))),
        4 => Some(Taken::Request(Request::ExternalCall(from))),
        5 => Some(Taken::Restart),
        6 => Some(Taken::Request(Request::Comparator)),
        7 => Some(Taken::Request(Request::Timer)),
        _ => None,
    }
}

/// The block whose key is set, X'FFFF' for none.
pub fn key_block(set: Option<KeySet>) -> u16
    ensures { result ≡ block_of_key set }
{
    match set {
        None => 0xFFFF,
        Some(set) => set.block,
    }
}

/// The key that is set, 0 for none.
pub fn key_byte(set: Option<KeySet>) -> u8
    ensures { result ≡ byte_of_key set }
{
    match set {
        None => 0,
        Some(set) => set.key,
    }
}

/// The key that a packet sets; block X'FFFF' is none.
pub fn key_set_of(block: u16, key: u8) -> Option<KeySet>
    ensures { result ≡ numbered_key block key }
{
    if block == 0xFFFF {
        None
    } else {
        Some(KeySet { block, key })
    }
}

/// The number of an order, 0 for none.
pub fn order_number(sent: Option<SentOrder>) -> u8
    ensures { result ≡ number_of_order sent }
{
    match sent {
        None => 0,
        Some(sent) => sent.order,
    }
}

/// The number of the CPU to which an order goes, X'FF' for none.
pub fn order_target(sent: Option<SentOrder>) -> u8
    ensures { result ≡ target_of_order sent }
{
    match sent {
        None => 0xFF,
        Some(sent) => sent.to,
    }
}
