//! PACK, UNPK and MVO.

ghost use Rattle.std.specs.Prelude.{◌≡◌, ◌<◌, ◌≤◌, IsTrue, length};
ghost use Rattle.esa_model.specs.DecimalRows.{is_halves};
ghost use Rattle.esa_model.specs.Halves.{byte_back, half_back, exchanged, packed_byte, unpacked_byte, offset_byte, moved_byte, moved_halves};

/// The byte so many places left of the last one, zero past the left end.
fn byte_from_right(bytes: &[u8], j: usize) -> u8
    ensures { result ≡ byte_back bytes.now j }
{
    if j < bytes.len() {
        bytes[bytes.len() - 1 - j]
    } else {
        0
    }
}

/// The half-byte so many places left of the last one.
fn half_from_right(bytes: &[u8], k: usize) -> u8
    ensures value { result ≡ half_back bytes.now k }
    ensures small { result < 16 }
{
    let byte = byte_from_right(bytes, k / 2);
    if k % 2 == 0 { byte % 16 } else { byte / 16 }
}

fn exchange(b: u8) -> u8
    ensures { result ≡ exchanged b }
{
    b % 16 * 16 + b / 16
}

#[tactic(auto, unfolding(esa_model::specs::Halves::packed_byte))]
fn pack_byte(second: &[u8], j: usize) -> u8
    requires { j < 16 }
    ensures { result ≡ packed_byte second.now j }
{
    if j == 0 {
        return exchange(byte_from_right(second, 0));
    }
    let high = byte_from_right(second, 2 * j);
    let low = byte_from_right(second, 2 * j - 1);
    high % 16 * 16 + low % 16
}

#[tactic(auto, unfolding(esa_model::specs::Halves::unpacked_byte))]
fn unpack_byte(second: &[u8], j: usize) -> u8
    requires { j < 16 }
    ensures { result ≡ unpacked_byte second.now j }
{
    if j == 0 {
        return exchange(byte_from_right(second, 0));
    }
    0xF0 + half_from_right(second, j + 1)
}

#[tactic(auto, unfolding(esa_model::specs::Halves::offset_byte))]
fn offset_byte_of(second: &[u8], kept: u8, j: usize) -> u8
    requires place { j < 16 }
    requires half { kept < 16 }
    ensures { result ≡ offset_byte second.now kept j }
{
    if j == 0 {
        return half_from_right(second, 0) * 16 + kept;
    }
    let high = half_from_right(second, 2 * j);
    let low = half_from_right(second, 2 * j - 1);
    high * 16 + low
}

#[tactic(auto, unfolding(esa_model::specs::Halves::moved_byte))]
fn byte_of(op: u8, second: &[u8], kept: u8, j: usize) -> u8
    requires row { IsTrue (is_halves op) }
    requires place { j < 16 }
    requires half { kept < 16 }
    ensures { result ≡ moved_byte op second.now kept j }
{
    match op {
        0xF2 => pack_byte(second, j),
        0xF3 => unpack_byte(second, j),
        _ => offset_byte_of(second, kept, j),
    }
}

/// Moves half-bytes from the right; what does not fit is lost.
pub(crate) fn move_halves(op: u8, first: &mut [u8], second: &[u8])
    requires row { IsTrue (is_halves op) }
    requires some { 1 ≤ length first.old }
    requires few { length first.old ≤ 16 }
    ensures { first.new ≡ moved_halves op first.old second.now }
{
    let n = first.len();
    let kept = first[n - 1] % 16;
    for k in 0..n {
        first[k] = byte_of(op, second, kept, n - 1 - k);
    }
}
