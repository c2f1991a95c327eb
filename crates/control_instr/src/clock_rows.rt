// The rows on the clock, the clock comparator and the CPU timer.
ghost use Rattle.std.specs.Prelude.{◌≡◌, ◌<◌, slice_set, true};
ghost use Rattle.esa_model.specs.Clocks.{clock_row as row_of, is_clock_row, keeps, sets, timer};

use esa_model::clocks::ClockRow;

/// The timer: the clock's value at which it is zero, less the clock.
fn timer_of(words: &[u64; 4], clock: u64) -> u64
    ensures { result ≡ timer words.now clock }
{
    words[1].wrapping_sub(clock)
}

/// The clock words with another one at a place.
fn set_word(words: &[u64; 4], place: usize, value: u64) -> ClockRow
    requires { place < 4 }
    ensures { result ≡ sets (slice_set words.now place value) }
{
    let mut words = *words;
    words[place] = value;
    ClockRow {
        words,
        stored: None,
    }
}

/// The clock words as they are, and a value that is stored.
fn store(words: &[u64; 4], value: u64) -> ClockRow
    ensures { result ≡ keeps words.now value }
{
    ClockRow {
        words: *words,
        stored: Some(value),
    }
}

/// What a row on clocks makes, by its opcode: STCK X'B205', SCKC X'B206', STCKC X'B207', SPT
/// X'B208', STPT X'B209'. SCKC and SPT store nothing, each other row does.
///
/// `words` are the clock words of the CPU, `clock` is the clock before the event, and `operand` the
/// eight bytes that SCKC and SPT fetch, as a number; the other rows do not look at it.
///
/// Source: Principles of Operation, control instructions.
#[tactic(auto, unfolding(esa_model::specs::Clocks::clock_row))]
pub fn clock_row(op: u16, words: &[u64; 4], clock: u64, operand: u64) -> ClockRow
    requires { is_clock_row op ≡ true }
    ensures { result ≡ row_of op words.now clock operand }
{
    match op {
        0xB205 => store(words, clock),
        0xB206 => set_word(words, 0, operand),
        0xB207 => store(words, words[0]),
        0xB208 => set_word(words, 1, operand.wrapping_add(clock)),
        0xB209 => store(words, timer_of(words, clock)),
        _ => unreachable!(),
    }
}
