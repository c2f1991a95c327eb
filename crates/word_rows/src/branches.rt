// The rows that branch or link, SPM, IPM, EX and SVC.
// Source: Principles of Operation, chapter on general instructions.
ghost use Rattle.std.specs.Prelude.{◌≡◌, true, IsTrue, []};
ghost use Rattle.esa_model.specs.BranchRows.{is_branch};
ghost use Rattle.esa_model.specs.Rows.Branches.{branches, branches_line, has_branch, supervisor_call};
ghost use Rattle.word_rows.specs.Classes.{branches_effect, branches_operands, branches_order};
ghost use Rattle.row_frame.specs.Made.{inputs, IsInRange, IsPlain, Fits, Covers, IsQuiet};

use abs_storage::View;
use esa_model::events::Interruption;
use esa_model::kinds::BranchKind;
use esa_model::machine::Registers;
use general_branch::branch;
use operand_access::{Operands, relative};
use row_frame::{Effect, Instruction, after, indexed_of, leave, no_operands, second_of};

/// A branch to a target: the length code is half the length in bytes, and the next address follows
/// the instruction.
fn branch_to(opcode: u16, target: u32, r: &Registers, i: &Instruction) -> Effect
    requires fields { IsInRange i.now.decoded }
    requires known { IsTrue (is_branch opcode) }
    ensures effect { result ≡ (branches opcode (λ j. target)).effect (inputs r.now [] i.now) }
    ensures plain { IsPlain result }
    ensures quiet { IsQuiet result }
{
    let next = r.psw.address() + u32::from(i.len);
    leave(branch(opcode, i.len / 2, next, target, r, &i.decoded))
}

/// SUPERVISOR CALL: its code is the second byte of the instruction.
fn call(r: &Registers, i: &Instruction) -> Effect
    requires fields { IsInRange i.now.decoded }
    ensures effect { result ≡ supervisor_call.effect (inputs r.now [] i.now) }
    ensures plain { IsPlain result }
    ensures quiet { IsQuiet result }
{
    let mut e = leave(after(r, i.len));
    e.interruption = Some(Interruption::SupervisorCall);
    e.code = i.decoded.r1 * 16 + i.decoded.r2;
    e
}

/// Whether a row is in order: each is.
#[tactic(auto, using(crate::proofs::Always::in_order))]
pub fn in_order<V: View>(
    kind: BranchKind,
    opcode: u16,
    r: &Registers,
    view: &V,
    i: &Instruction,
) -> bool
    requires fields { IsInRange i.now.decoded }
    requires known { IsTrue (has_branch kind opcode) }
    ensures { result ≡ branches_order kind opcode r.now (V.bytes view.now) i.now }
{
    true
}

/// The operands of a row: none of these has one.
#[tactic(auto, using(crate::proofs::Always::operands))]
pub fn operands<V: View>(
    kind: BranchKind,
    opcode: u16,
    r: &Registers,
    view: &V,
    i: &Instruction,
) -> Operands
    requires fields { IsInRange i.now.decoded }
    requires known { IsTrue (has_branch kind opcode) }
    requires order { branches_order kind opcode r.now (V.bytes view.now) i.now ≡ true }
    ensures operands { result ≡ branches_operands kind opcode r.now (V.bytes view.now) i.now }
    ensures fits { Fits result }
{
    no_operands()
}

/// What a row does.
#[tactic(auto, unfolding(esa_model::specs::Rows::Branches::branches_line, esa_model::specs::Rows::Branches::has_branch))]
pub fn effect_of<V: View>(
    kind: BranchKind,
    opcode: u16,
    r: &Registers,
    view: &mut V,
    i: &Instruction,
) -> Effect
    requires fields { IsInRange i.now.decoded }
    requires known { IsTrue (has_branch kind opcode) }
    requires order { branches_order kind opcode r.now (V.bytes view.old) i.now ≡ true }
    ensures effect { result ≡ branches_effect kind opcode r.now (V.bytes view.old) i.now }
    ensures covers { Covers (branches_operands kind opcode r.now (V.bytes view.old) i.now) result }
    ensures quiet { IsQuiet result }
    ensures same { V.bytes view.new ≡ V.bytes view.old }
{
    let d = &i.decoded;
    match kind {
        BranchKind::ByRegister => branch_to(opcode, 0, r, i),
        BranchKind::ByIndex => branch_to(opcode, indexed_of(r, d), r, i),
        BranchKind::ByBase => branch_to(opcode, second_of(r, d), r, i),
        BranchKind::ByDistance => branch_to(opcode, relative(r, i.own, d.imm), r, i),
        BranchKind::Call => call(r, i),
        BranchKind::Execute => leave(*r),
    }
}
