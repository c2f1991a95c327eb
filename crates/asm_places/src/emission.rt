//! The bytes of an operation, and its address word.
ghost use Rattle.std.specs.Prelude.{◌≡◌, ◌+◌, ◌-◌, ◌≤◌, ◌<◌, ◌++◌, length, replicate, OnOk};
ghost use Rattle.byteorder.specs.Endian.{big_bytes};
ghost use Rattle.esa_table.specs.Encoding.{IsInstruction, IsInRange, instruction_bytes};
ghost use Rattle.asm_model.specs.Places.{standing_at};
ghost use Rattle.asm_model.specs.Refused.{resolved};
ghost use Rattle.asm_model.specs.Program.{fields_given, operation_bytes, placed_bytes};
ghost use Rattle.asm_places.specs.Fitting.{FieldsFit};
ghost use Rattle.asm_places.specs.Spots.{at, IsLow};
ghost use Rattle.asm_places.specs.WrittenLines.{words_of};

use crate::fields::resolved;
use crate::naming::Names;
use crate::places::Places;
use crate::spots::{self, Spot};
use arrayvec::ArrayVec;
use asm_model::operands::Given;
use asm_model::program::Constant;
use asm_model::statements::Operation;
use byteorder::{BigEndian, ByteOrder};
use esa_table::{Decoded, encode};
use std::alloc::AllocError;

#[tactic(auto, using(crate::proofs::OperationBytes::zeros_more, crate::proofs::OperationBytes::zeros_all))]
fn push_zeros(out: &mut Vec<u8>, count: u64) -> Result<(), AllocError>
    ensures { OnOk result (out.new.items ≡ out.old.items ++ replicate count 0) }
{
    for _ in 0..count {
        out.push(0)?;
    }
    Ok(())
}

fn push_all(out: &mut Vec<u8>, bytes: &[u8]) -> Result<(), AllocError>
    ensures { OnOk result (out.new.items ≡ out.old.items ++ bytes.now) }
{
    out.extend_from_slice(bytes)?;
    Ok(())
}

fn word_bytes(n: u32) -> [u8; 4]
    ensures { result ≡ big_bytes 4 n }
{
    let mut bytes = [0; 4];
    BigEndian::write_u32(&mut bytes, n);
    bytes
}

// The word of an address, modulo 2^32.
#[tactic(auto, using(crate::proofs::OperationBytes::low_word))]
fn address_bytes(to: u64) -> [u8; 4]
    ensures { result ≡ big_bytes 4 to }
{
    word_bytes((to % 4_294_967_296) as u32)
}

fn decoded(given: &Given) -> Decoded
    requires { IsInRange (fields_given given.now) }
    ensures { result ≡ fields_given given.now }
{
    Decoded {
        row: given.row,
        r1: given.r1 as u8,
        r2: given.r2 as u8,
        b1: given.b1 as u8,
        d1: given.d1 as u16,
        b2: given.b2 as u8,
        d2: given.d2 as u16,
        imm: given.imm as u16,
        len: given.len as u8,
    }
}

fn instruction_bytes(names: &Names, there: Spot, given: &Given) -> ArrayVec<u8, 6>
    requires { IsInstruction (fields_given (resolved names.now (at there) given.now)) }
    ensures { result.items
        ≡ instruction_bytes (fields_given (resolved names.now (at there) given.now)) }
{
    encode(&decoded(&resolved(names, there, given)))
}

// Puts the bytes of an operation that stands there.
fn push_operation(
    out: &mut Vec<u8>,
    names: &Names,
    there: Spot,
    operation: &Operation,
) -> Result<(), AllocError>
    requires { FieldsFit names.now (at there) operation.now }
    ensures { OnOk result (out.new.items
        ≡ out.old.items ++ operation_bytes names.now (at there) operation.now) }
{
    match operation {
        Operation::Bytes(bytes) => push_all(out, bytes),
        Operation::Word(n) => push_all(out, &word_bytes(*n)),
        Operation::Address(name, plus) => {
            let to = names.place_of(*name).offset + u64::from(*plus);
            push_all(out, &address_bytes(to))
        }
        Operation::External(_) => push_zeros(out, 4),
        Operation::Space(count) => push_zeros(out, u64::from(*count)),
        Operation::Instruction(given) => push_all(out, &instruction_bytes(names, there, given)),
        Operation::Section
        | Operation::AlignWord
        | Operation::AlignDouble
        | Operation::Using(_, _)
        | Operation::End(_) => Ok(()),
    }
}

/// Puts zeros up to where an operation lies, and its bytes.
pub fn push_placed(
    out: &mut Vec<u8>,
    places: &Places,
    spot: Spot,
    operation: &Operation,
) -> Result<(), AllocError>
    requires low { IsLow spot }
    requires fields { FieldsFit places.now.names (standing_at (at spot) operation.now) operation.now }
    ensures { OnOk result (out.new.items
        ≡ out.old.items ++ placed_bytes places.now (at spot) operation.now) }
{
    let there = spots::standing_at(spot, operation);
    push_zeros(out, there.offset.saturating_sub(spot.offset))?;
    push_operation(out, places.names(), there, operation)?;
    Ok(())
}

/// Puts the address word of an operation that has one.
pub fn push_word(
    out: &mut Vec<Constant>,
    places: &Places,
    spot: Spot,
    operation: &Operation,
) -> Result<(), AllocError>
    requires low { IsLow spot }
    requires count { places.now.section + length places.now.externals ≤ 65535 }
    ensures { OnOk result (out.new.items
        ≡ out.old.items ++ words_of places.now (at spot) operation.now) }
{
    let there = spots::standing_at(spot, operation);
    match operation {
        Operation::Address(name, _) => out.push(Constant {
            section: there.section,
            offset: there.offset,
            target: places.names().place_of(*name).section,
            external: false,
        })?,
        Operation::External(name) => out.push(Constant {
            section: there.section,
            offset: there.offset,
            target: places.section() + 1 + places.externals().place_in(*name) as u32,
            external: true,
        })?,
        _ => {}
    }
    Ok(())
}
