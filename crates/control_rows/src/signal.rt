// SIGNAL PROCESSOR.
ghost use Rattle.std.specs.Prelude.{◌≡◌, ◌<◌, None, IsTrue};
ghost use Rattle.esa_model.specs.Rows.Controls.{sent_to, signal_line, with_status as status_put};
ghost use Rattle.esa_model.specs.SigpAnswers.{answer_of};
ghost use Rattle.control_rows.specs.Orders.{Sends};
ghost use Rattle.row_frame.specs.Made.{situation, IsInRange, IsPlain};

use abs_storage::View;
use esa_model::events::SentOrder;
use esa_model::machine::{CpuNo, Registers};
use esa_model::signalling::SigpAnswer;
use result_packet::Side;
use row_frame::{Effect, Instruction, after, general_of, leave, second_of};
use sigp_bus::Bus;

/// The answer to an order: one that is accepted is an order to a CPU that is there.
#[tactic(auto, unfolding(esa_model::specs::SigpAnswers::answer_of, esa_model::specs::SigpAnswers::answer_in))]
fn answer_to(bus: &Bus, to: u16, order: u8) -> SigpAnswer
    ensures answer { result ≡ answer_of bus.now to order }
    ensures code { result.cc < 4 }
    ensures there { IsTrue result.accepted → to < 256 }
{
    let _cpus = bus.cpus();
    bus.answer(to, order)
}

/// The registers with the condition code, and with a status in R1 where that is 1.
fn with_status(r: &Registers, r1: u8, a: &SigpAnswer) -> Registers
    requires target { r1 < 16 }
    requires code { a.now.cc < 4 }
    ensures { result ≡ status_put r.now r1 a.now }
{
    let mut out = *r;
    if a.cc == 1 {
        out.general[r1 as usize] = a.status;
    }
    out.psw = r.psw.with_condition_code(a.cc);
    out
}

/// The order that goes to the CPU: one other than sense, where it is accepted.
fn order_sent(order: u8, to: u16, a: &SigpAnswer) -> Option<SentOrder>
    requires there { IsTrue a.now.accepted → to < 256 }
    ensures { result ≡ sent_to order to a.now }
{
    if a.accepted && 1 < order {
        Some(SentOrder {
            order,
            to: to as u8,
        })
    } else {
        None
    }
}

/// An order to a CPU, which takes effect when the sender commits.
#[tactic(auto, using(crate::proofs::Quiet::sends_accepted))]
pub fn signal_effect<V: View>(
    r: &Registers,
    cpu: CpuNo,
    view: &V,
    side: &Side,
    i: &Instruction,
) -> Effect
    requires fields { IsInRange i.now.decoded }
    ensures effect { result ≡ signal_line.effect
        (situation r.now cpu.0 (V.bytes view.now) side.now i.now) }
    ensures plain { IsPlain result }
    ensures console_in { result.console_in ≡ None }
    ensures sends { Sends side.now.bus result.sent }
    ensures set_key { result.set_key ≡ None }
{
    let d = &i.decoded;
    let order = (second_of(r, d) % 256) as u8;
    let to = (general_of(r, d.r2) % 0x1_0000) as u16;
    let a = answer_to(&side.bus, to, order);
    let mut e = leave(with_status(&after(r, i.len), d.r1, &a));
    e.sent = order_sent(order, to, &a);
    e
}
