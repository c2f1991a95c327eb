ghost use Rattle.std.specs.Prelude.{◌≡◌, ◌*◌, ◌<◌, ◌≤◌, ◌^◌, ◌==◌, if◌then◌else◌};
ghost use Rattle.std.specs.Int.{bit_at};
ghost use Rattle.run_model.specs.Code.{flip};
ghost use Rattle.runit_ecc.specs.Syndrome.{parity, check_parity, parities, check_mask, check_masks, set_checks};

/// The check position with the number 2^j.
#[tactic(auto, using(crate::proofs::Room::check_number))]
pub(crate) fn check_position(j: u32) -> u32
    requires { j < 7 }
    ensures value { result ≡ 2 ^ j }
    ensures few { result ≤ 64 }
    ensures past { j < result }
{
    1 << j
}

/// 1 where w has an odd number of ones, else 0.
#[tactic(auto, using(crate::proofs::Counting::count_parity))]
pub(crate) fn parity_of(w: u128) -> u32
    ensures value { result ≡ parity w }
    ensures few { result < 2 }
{
    w.count_ones() % 2
}

// The parity of the positions with the bit 2^j, which the mask names, in the place of that bit.
#[tactic(auto, using(crate::proofs::Counting::masked_parity))]
fn check_bit(positions: u128, j: u32, w: u128) -> u32
    requires few { j < 7 }
    requires masked { positions ≡ check_mask j }
    ensures value { result ≡ check_parity j w * 2 ^ j }
    ensures small { result ≤ 64 }
{
    if parity_of(w & positions) == 1 {
        check_position(j)
    } else {
        0
    }
}

/// The parities of the first checks, as the number that names the position of a single wrong bit.
#[tactic(auto, using(crate::proofs::Counting::masks_are))]
pub(crate) fn syndrome_of(masks: &[u128], checks: u32, w: u128) -> u32
    requires masks { masks.now ≡ check_masks }
    requires few { checks ≤ 7 }
    ensures { result ≡ parities checks w }
{
    let mut syndrome: u32 = 0;
    for j in 0..checks {
        syndrome += check_bit(masks[j as usize], j, w);
    }
    syndrome
}

/// w with one position changed.
pub(crate) fn changed(w: u128, p: u32) -> u128
    requires { p < 128 }
    ensures { result ≡ flip w p }
{
    w ^ (1 << p)
}

// One check position changed, where s has the bit.
fn with_check(w: u128, s: u32, j: u32) -> u128
    requires { j < 7 }
    ensures { result ≡ (if bit_at s j == 1 then flip w (2 ^ j) else w) }
{
    if (s >> j) & 1 == 1 {
        changed(w, check_position(j))
    } else {
        w
    }
}

/// w with the check positions changed whose bits s has.
pub(crate) fn with_all_checks(checks: u32, s: u32, w: u128) -> u128
    requires { checks ≤ 7 }
    ensures { result ≡ set_checks checks s w }
{
    let mut r = w;
    for j in 0..checks {
        r = with_check(r, s, j);
    }
    r
}
