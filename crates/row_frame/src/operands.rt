// The operands of a row, as the frame tests them.
ghost use Rattle.std.specs.Prelude.{◌≡◌};
ghost use Rattle.esa_model.specs.Line.{one as one_of, two as two_of};
ghost use Rattle.esa_model.specs.Access.{none as none_of};

use operand_access::{Operand, Operands, none};

/// One operand.
pub fn one(first: Operand) -> Operands
    ensures { result ≡ one_of first }
{
    Operands {
        first,
        second: none(),
        paired: false,
    }
}

/// No operand.
pub fn no_operands() -> Operands
    ensures { result ≡ one_of none_of }
{
    one(none())
}

/// Two operands, one after the other.
pub fn two(first: Operand, second: Operand) -> Operands
    ensures { result ≡ two_of first second }
{
    Operands {
        first,
        second,
        paired: false,
    }
}
