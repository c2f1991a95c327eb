// The clock, which each event advances.
ghost use Rattle.std.specs.Prelude.{◌≡◌};
ghost use Rattle.esa_model.specs.Clocks.{advanced_clock};

use result_packet::Side;

/// The clock after an event: 4,096 on, modulo 2^64.
fn later(clock: u64) -> u64
    ensures { result ≡ advanced_clock clock }
{
    clock.wrapping_add(4096)
}

/// An event was made, of whatever kind.
pub fn advance_clock(side: &mut Side)
    ensures { side.new ≡ record side.old { clock = advanced_clock side.old.clock } }
{
    side.clock = later(side.clock);
}
