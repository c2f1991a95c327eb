// What a packet stores, noted with reference and change of each block; the storing itself is left.
ghost use Rattle.std.specs.Prelude.{◌≡◌, ◌≤◌, ◌<◌, ◌+◌, ◌^◌, length, slice_set};
ghost use Rattle.esa_model.specs.Access.{written};
ghost use Rattle.esa_model.specs.Machine.{changed};
ghost use Rattle.esa_model.specs.Apply.{put_all, change_all, piece, piece_keys};
ghost use Rattle.result_packet.specs.Changes.{Notes};
ghost use Rattle.result_packet.specs.Stores.{changed_at};

use crate::change_log::ChangeLog;
use abs_storage::View;
use esa_model::machine::Registers;
use operand_access::place_of;
use storage_keys::Keys;

/// Notes that a byte is stored at an absolute address; one outside is not stored. The view shows
/// the bytes before the event.
fn note_byte<V: View>(view: &mut V, keys: &mut Keys, log: &mut ChangeLog, a: u32, x: u8)
    requires { length log.old < 268 }
    ensures keys { keys.new ≡ changed_at (length (V.bytes view.old)) a keys.old }
    ensures same { V.bytes view.new ≡ V.bytes view.old }
    ensures room { length log.new ≤ length log.old + 1 }
    ensures log { Notes (V.bytes view.old) log.old log.new (λ s. slice_set s a x) }
{
    if a >= view.size() {
        return;
    }
    log.store(a, view.byte(a).unwrap_or(0), x);
    keys.touch((a / 4096) as u16, true);
}

/// Notes bytes at successive absolute addresses, all of them inside.
fn note_all<V: View>(view: &mut V, keys: &mut Keys, log: &mut ChangeLog, a: u32, xs: &[u8])
    requires inside { a + length xs.now ≤ length (V.bytes view.old) }
    requires small { a + length xs.now ≤ 2 ^ 24 }
    requires room { length log.old + length xs.now ≤ 268 }
    ensures keys { keys.new ≡ change_all a xs.now keys.old }
    ensures same { V.bytes view.new ≡ V.bytes view.old }
    ensures room { length log.new ≤ length log.old + length xs.now }
    ensures log { Notes (V.bytes view.old) log.old log.new (λ s. put_all a xs.now s) }
{
    for k in 0..xs.len() {
        note_byte(view, keys, log, a + k as u32, xs[k]);
    }
}

/// Notes a piece; one that is not wholly inside is passed over.
pub fn note_piece<V: View>(view: &mut V, keys: &mut Keys, log: &mut ChangeLog, a: u32, xs: &[u8])
    requires { length log.old + length xs.now ≤ 268 }
    ensures keys { keys.new ≡ piece_keys (length (V.bytes view.old)) a xs.now keys.old }
    ensures same { V.bytes view.new ≡ V.bytes view.old }
    ensures room { length log.new ≤ length log.old + length xs.now }
    ensures log { Notes (V.bytes view.old) log.old log.new (λ s. piece a xs.now s) }
{
    if a as u64 + xs.len() as u64 <= view.size() as u64 {
        note_all(view, keys, log, a, xs);
    }
}

/// Notes bytes at successive effective addresses; one outside is not stored.
pub fn note_from<V: View>(
    r: &Registers,
    view: &mut V,
    keys: &mut Keys,
    log: &mut ChangeLog,
    at: u32,
    xs: &[u8],
)
    requires { length log.old + length xs.now ≤ 268 }
    ensures keys { keys.new ≡ changed r.now (length (V.bytes view.old)) at xs.now keys.old }
    ensures same { V.bytes view.new ≡ V.bytes view.old }
    ensures room { length log.new ≤ length log.old + length xs.now }
    ensures log { Notes (V.bytes view.old) log.old log.new (λ s. written r.now at xs.now s) }
{
    for k in 0..xs.len() {
        note_byte(view, keys, log, place_of(r, at as u64 + k as u64), xs[k]);
    }
}
