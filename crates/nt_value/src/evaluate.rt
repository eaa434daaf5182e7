// The values of operators.
ghost use Rattle.std.specs.Prelude.{◌≡◌};
ghost use Rattle.nt_value.specs.Operators.{AreOperands, binary_of, unary_of};

use crate::logic::{one_digit, truth};
use crate::{Binary, Bits, Digit, Unary};

/// The value of an operator of one operand (IEEE 1800-2017, 11.4).
///
/// `+`, `-` and `~` answer the operand's leaf, the others one unsigned digit. Arithmetic with an x or z gives all x. A
/// result in a leaf of two states has 0 for x.
pub fn unary(op: Unary, a: Bits) -> Bits
    ensures { result ≡ unary_of op a }
{
    let four = a.leaf.four;
    match op {
        Unary::Plus => a.plus(),
        Unary::Minus => a.negate(),
        Unary::Not => a.invert(),
        Unary::LogicalNot => one_digit(four, truth(a).not()),
        Unary::RedAnd => one_digit(four, a.reduce_and()),
        Unary::RedNand => one_digit(four, a.reduce_and().not()),
        Unary::RedOr => one_digit(four, a.reduce_or()),
        Unary::RedNor => one_digit(four, a.reduce_or().not()),
        Unary::RedXor => one_digit(four, a.reduce_xor()),
        Unary::RedXnor => one_digit(four, a.reduce_xor().not()),
    }
}

/// The value of an operator of two operands (IEEE 1800-2017, 11.4).
///
/// The operands have one leaf, but for shifts and logical operators. Arithmetic, bitwise operators and shifts answer the
/// first operand's leaf, the others one unsigned digit. Arithmetic and relations with an x or z, a division by 0 and a
/// shift by an amount with x or z give x. A result in a leaf of two states has 0 for x.
pub fn binary(op: Binary, a: Bits, b: Bits) -> Bits
    requires { AreOperands op a b }
    ensures { result ≡ binary_of op a b }
{
    let four = a.leaf.four | b.leaf.four;
    match op {
        Binary::Add => a.add(b),
        Binary::Sub => a.subtract(b),
        Binary::Mul => a.multiply(b),
        Binary::Div => a.divide(b),
        Binary::Rem => a.remainder(b),
        Binary::And => a.and(b),
        Binary::Or => a.or(b),
        Binary::Xor => a.xor(b),
        Binary::Xnor => a.xnor(b),
        Binary::Shl => a.shift_up(b),
        Binary::Shr => a.shift_down(b),
        Binary::Sshr => a.shift_down_signed(b),
        Binary::Lt => one_digit(four, a.less(b)),
        Binary::Le => one_digit(four, a.less_or_equal(b)),
        Binary::Gt => one_digit(four, a.greater(b)),
        Binary::Ge => one_digit(four, a.greater_or_equal(b)),
        Binary::Eq => one_digit(four, a.equality(b)),
        Binary::Ne => one_digit(four, a.equality(b).not()),
        Binary::CaseEq => one_digit(four, Digit::from_test(a.is_same_digits(b))),
        Binary::CaseNe => one_digit(four, Digit::from_test(!a.is_same_digits(b))),
        Binary::LogicalAnd => one_digit(four, truth(a).and(truth(b))),
        Binary::LogicalOr => one_digit(four, truth(a).or(truth(b))),
    }
}
