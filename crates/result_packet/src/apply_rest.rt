// Carrying out what a packet says, but for the storing.
ghost use Rattle.std.specs.Prelude.{◌≡◌, ◌≤◌, length};
ghost use Rattle.esa_model.specs.Machine.{reference_all, with_key};
ghost use Rattle.esa_model.specs.Packet.{read};
ghost use Rattle.esa_model.specs.PacketCodes.{key_set_of as numbered_key};
ghost use Rattle.esa_model.specs.Apply.{told_blocks, applied_storage, applied_keys, console_out};
ghost use Rattle.esa_model.specs.Changes.{changed_bytes, stretches};
ghost use Rattle.result_packet.specs.Applied.{keys_left, bus_left, console_left};
ghost use Rattle.result_packet.specs.Applied.{pieces_stored, pieces_changed};
ghost use Rattle.result_packet.specs.Applied.{interruption_stored, interruption_changed};
ghost use Rattle.result_packet.specs.Changes.{Notes};

use crate::change_log::ChangeLog;
use crate::codes::{key_set_of, taken_of};
use crate::fields::blocks_at;
use crate::notes::{note_from, note_piece};
use crate::swap_bytes::{identification_bytes, old_psw_bytes};
use crate::taken::{console_taken, put_console, take};
use crate::told::{first_of, interruption_in, second_of};
use crate::{Packet, Side, Written, registers_of};
use abs_storage::View;
use arrayvec::ArrayVec;
use esa_model::changes::Changed;
use esa_model::machine::{CpuNo, Registers};
use psw_interrupts::places_of;
use storage_keys::Keys;

fn reference(keys: &mut Keys, blocks: &[u16])
    ensures { keys.new ≡ reference_all blocks.now keys.old }
{
    for block in blocks {
        keys.touch(*block, false);
    }
}

/// Sets the reference bits that a packet tells.
#[tactic(auto, unfolding(esa_model::specs::Packet::read))]
fn reference_told(p: &Packet, keys: &mut Keys)
    ensures { keys.new ≡ reference_all (told_blocks (read p.now)) keys.old }
{
    let count = p.block_count() as usize;
    if count <= 8 {
        reference(keys, &blocks_at(p)[..count]);
    }
}

/// Notes the pieces.
#[tactic(auto, unfolding(esa_model::specs::Packet::read))]
fn note_pieces<V: View>(p: &Packet, view: &mut V, keys: &mut Keys, log: &mut ChangeLog)
    requires { length log.old ≡ 0 }
    ensures keys { let size = length (V.bytes view.old) in
        keys.new ≡ pieces_changed (read p.now) size keys.old }
    ensures same { V.bytes view.new ≡ V.bytes view.old }
    ensures room { length log.new ≤ 256 }
    ensures log { Notes (V.bytes view.old) log.old log.new (λ s. pieces_stored (read p.now) s) }
{
    note_piece(view, keys, log, p.piece_at(0), first_of(p));
    note_piece(view, keys, log, p.piece_at(1), second_of(p));
}

/// Notes the old PSW and the identification.
#[tactic(auto, unfolding(esa_model::specs::Packet::read))]
fn note_interruption<V: View>(
    p: &Packet,
    r: &Registers,
    view: &mut V,
    keys: &mut Keys,
    log: &mut ChangeLog,
)
    requires { length log.old ≤ 256 }
    ensures keys { let size = length (V.bytes view.old) in
        keys.new ≡ interruption_changed r.now (read p.now) size keys.old }
    ensures same { V.bytes view.new ≡ V.bytes view.old }
    ensures log { Notes (V.bytes view.old) log.old log.new
        (λ s. interruption_stored r.now (read p.now) s) }
{
    let Some(kind) = interruption_in(p) else {
        return;
    };
    let places = places_of(kind);
    let old = old_psw_bytes(p.old_psw());
    note_from(r, view, keys, log, places.old_at as u32, old.as_slice());
    let own = identification_bytes(kind, p.identification());
    note_from(
        r,
        view,
        keys,
        log,
        places.identification as u32,
        own.as_slice(),
    );
}

/// Carries out what a packet says of the keys, but for a key that it sets, and puts the bytes that
/// its stores change into a list, in place of what it has. They are noted in the log.
#[tactic(auto, unfolding(esa_model::specs::Apply::applied_keys))]
fn note_told<V: View>(
    p: &Packet,
    r: &Registers,
    view: &mut V,
    keys: &mut Keys,
    log: &mut ChangeLog,
    changed: &mut ArrayVec<Changed, 268>,
)
    ensures keys { let size = length (V.bytes view.old) in
        keys.new ≡ applied_keys r.now (read p.now) size keys.old }
    ensures same { V.bytes view.new ≡ V.bytes view.old }
    ensures changed { let before = V.bytes view.old in
        changed.new.items ≡ changed_bytes before (applied_storage r.now (read p.now) before) }
{
    reference_told(p, keys);
    log.clear();
    note_pieces(p, view, keys, log);
    note_interruption(p, r, view, keys, log);
    log.put_differing(changed);
}

/// Sets the key that a packet tells.
#[tactic(auto, unfolding(esa_model::specs::Packet::read))]
fn set_told_key(p: &Packet, keys: &mut Keys)
    ensures { keys.new ≡ with_key (numbered_key (read p.now).block (read p.now).key) keys.old }
{
    if let Some(set) = key_set_of(p.key_block(), p.key()) {
        keys.set(set.block, set.key);
    }
}

impl Packet {
    /// Carries out what the packet says for a CPU, but for the storing, over a view of the bytes
    /// before: reference bits; the keys of what is stored; the key; the request; the order to
    /// another CPU; the console; the registers. What lies outside its range is ignored. What the
    /// event wrote is put in place of what `written` has.
    #[tactic(auto, unfolding(esa_model::specs::Packet::read))]
    pub fn apply_rest<V: View>(
        &self,
        cpu: CpuNo,
        r: &mut Registers,
        view: &mut V,
        side: &mut Side,
        written: &mut Written,
    )
        ensures registers { r.new ≡ (read self.now).registers }
        ensures same { V.bytes view.new ≡ V.bytes view.old }
        ensures keys { let size = length (V.bytes view.old) in
            side.new.keys ≡ keys_left r.old (read self.now) size side.old.keys }
        ensures bus { side.new.bus ≡ bus_left cpu.0 (read self.now) side.old.bus }
        ensures console { side.new.console ≡ console_left (read self.now) side.old.console }
        ensures clock { side.new.clock ≡ side.old.clock }
        ensures written { written.new.console.items ≡ console_out (read self.now) }
        ensures changed { let before = V.bytes view.old in
            let after = applied_storage r.old (read self.now) before in
            written.new.changed.items ≡ changed_bytes before after }
        ensures stretches { length (stretches written.new.changed.items) ≤ 135 }
    {
        let (log, changed) = (&mut written.log, &mut written.changed);
        note_told(self, r, view, &mut side.keys, log, changed);
        set_told_key(self, &mut side.keys);
        take(&mut side.bus, cpu, taken_of(self.request(), self.sender()));
        side.bus
            .signal(cpu, CpuNo(self.sigp_cpu()), self.sigp_order());
        let read = console_taken(self, side.console.left());
        side.console.skip(read);
        put_console(self, &mut written.console);
        *r = registers_of(self);
    }
}
