// IC, and ICM, CLM and STCM, which take the bytes of R1 that a mask selects.
// Source: Principles of Operation, chapter on general instructions.
ghost use Rattle.std.specs.Prelude.{◌≡◌, ◌≤◌, ◌<◌, length, []};
ghost use Rattle.esa_model.specs.MaskRows.{compare_under_mask_code, insert_character_row, places};
ghost use Rattle.esa_model.specs.Rows.Stores.{compare_under_mask as compare_line, insert_character as character_line, insert_under_mask as insert_line, masked_bytes, masked_len, store_under_mask as store_line};
ghost use Rattle.row_frame.specs.Made.{inputs, IsInRange, IsPlain, Covers, IsQuiet};

use crate::masks::{insert_under_mask, masked_count, order_of, put_byte, selected_of};
use crate::values::plain_value;
use abs_storage::View;
use arrayvec::ArrayVec;
use esa_model::machine::{Registers, Value};
use operand_access::byte_at;
use row_frame::{
    Effect, Instruction, after, after_coded, bytes_of, general_of, indexed_of, leave, second_of,
    store, value,
};

/// The value of IC.
#[tactic(auto, unfolding(esa_model::specs::MaskRows::insert_character_row))]
fn character_value(word: u32, byte: u8) -> Value
    ensures value { result ≡ insert_character_row word byte }
    ensures code { result.cc < 5 }
{
    plain_value(put_byte(word, 3, byte))
}

/// INSERT CHARACTER: a byte becomes the last of R1.
pub(crate) fn insert_character<V: View>(r: &Registers, view: &mut V, i: &Instruction) -> Effect
    requires { IsInRange i.now.decoded }
    ensures effect { result ≡ character_line.effect (inputs r.now (V.bytes view.old) i.now) }
    ensures plain { IsPlain result }
    ensures quiet { IsQuiet result }
    ensures same { V.bytes view.new ≡ V.bytes view.old }
{
    let d = &i.decoded;
    let byte = byte_at(r, view, u64::from(indexed_of(r, d)));
    value(r, d, i.len, &character_value(general_of(r, d.r1), byte))
}

/// The bytes that ICM and CLM fetch.
fn fetched_of<V: View>(r: &Registers, view: &mut V, i: &Instruction) -> ArrayVec<u8, 256>
    requires { IsInRange i.now.decoded }
    ensures bytes { result.items ≡ masked_bytes (inputs r.now (V.bytes view.old) i.now) }
    ensures enough { length (places i.now.decoded.r2) ≤ length result.items }
    ensures same { V.bytes view.new ≡ V.bytes view.old }
{
    let d = &i.decoded;
    bytes_of(r, view, second_of(r, d), masked_count(d.r2))
}

/// INSERT CHARACTERS UNDER MASK: successive bytes go to the places that the mask selects.
pub(crate) fn insert_masked<V: View>(r: &Registers, view: &mut V, i: &Instruction) -> Effect
    requires { IsInRange i.now.decoded }
    ensures effect { result ≡ insert_line.effect (inputs r.now (V.bytes view.old) i.now) }
    ensures plain { IsPlain result }
    ensures quiet { IsQuiet result }
    ensures same { V.bytes view.new ≡ V.bytes view.old }
{
    let d = &i.decoded;
    let bytes = fetched_of(r, view, i);
    let v = insert_under_mask(general_of(r, d.r1), d.r2, bytes.as_slice());
    value(r, d, i.len, &v)
}

/// The condition code of CLM.
#[tactic(auto, unfolding(esa_model::specs::MaskRows::compare_under_mask_code))]
fn compare_under_mask(word: u32, mask: u8, bytes: &[u8]) -> u8
    requires { length (places mask) ≤ length bytes.now }
    ensures code { result ≡ compare_under_mask_code word mask bytes.now }
    ensures small { result < 3 }
{
    order_of(selected_of(word, mask).as_slice(), bytes)
}

/// COMPARE LOGICAL CHARACTERS UNDER MASK: the selected bytes against successive ones.
pub(crate) fn compare_masked<V: View>(r: &Registers, view: &mut V, i: &Instruction) -> Effect
    requires { IsInRange i.now.decoded }
    ensures effect { result ≡ compare_line.effect (inputs r.now (V.bytes view.old) i.now) }
    ensures plain { IsPlain result }
    ensures quiet { IsQuiet result }
    ensures same { V.bytes view.new ≡ V.bytes view.old }
{
    let d = &i.decoded;
    let bytes = fetched_of(r, view, i);
    let code = compare_under_mask(general_of(r, d.r1), d.r2, bytes.as_slice());
    leave(after_coded(r, i.len, code))
}

/// STORE CHARACTERS UNDER MASK: the selected bytes.
pub(crate) fn store_masked(r: &Registers, i: &Instruction) -> Effect
    requires { IsInRange i.now.decoded }
    ensures effect { result ≡ store_line.effect (inputs r.now [] i.now) }
    ensures covers { Covers (store_line.operands (inputs r.now [] i.now)) result }
    ensures quiet { IsQuiet result }
{
    let d = &i.decoded;
    store(after(r, i.len), selected_of(general_of(r, d.r1), d.r2))
}
