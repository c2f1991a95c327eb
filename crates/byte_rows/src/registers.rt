// Registers as these rows put them, and effects that store bytes.
ghost use Rattle.std.specs.Prelude.{◌≡◌, [], length};
ghost use Rattle.esa_model.specs.Line.{marked, stores};
ghost use Rattle.row_frame.specs.Made.{IsQuiet};

use arrayvec::ArrayVec;
use esa_model::machine::Registers;
use row_frame::{Effect, store};

/// Register 1 with an address in it: of its bits 0 to 7 all stay in 24-bit mode, none in 31-bit
/// mode.
#[tactic(auto, unfolding(esa_model::specs::Line::marked))]
pub(crate) fn address_marked(r: &Registers, at: u64) -> u32
    ensures { result ≡ marked r.now at }
{
    let address = r.psw.wrapped(at);
    if r.psw.is_wide() {
        address
    } else {
        r.general[1] / 0x100_0000 * 0x100_0000 + address
    }
}

/// The registers, and bytes for the first operand.
pub(crate) fn stored(registers: Registers, bytes: ArrayVec<u8, 256>) -> Effect
    ensures effect { result ≡ stores registers bytes.items }
    ensures short { length result.stored ≡ length bytes.items }
    ensures console { result.console_out ≡ [] }
    ensures quiet { IsQuiet result }
{
    store(registers, bytes)
}
