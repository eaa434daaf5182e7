// Values of one leaf.
ghost use Rattle.std.specs.Prelude.{◌≡◌, IfOk};
ghost use Rattle.nt_value.specs.Operators.{AreOperands};
ghost use Rattle.nt_value.specs.declared.operator.Binary.TheVariants.{CaseEq};
ghost use Rattle.nt_design.specs.Parts as parts;

use nt_value::{Binary, Bits, Digit, Leaf, Value, binary, truth};
use std::alloc::{AllocError, Global};

/// The leaf of a value that has one. Where there is none, it is one digit x.
pub fn only_of(value: &Value) -> Bits
    ensures { result ≡ parts.only value.now }
{
    match value.items() {
        [first, ..] => *first,
        [] => Bits::default(Leaf {
            width: 1,
            signed: false,
            four: true,
        }),
    }
}

/// A value of one leaf.
pub fn of_bits(alloc: Global, bits: Bits) -> Result<Value, AllocError>
    ensures { IfOk result (λ v. v ≡ parts.one bits) }
{
    let mut leaves = Vec::new(alloc);
    leaves.push(bits)?;
    Ok(Value::new(leaves))
}

/// A value as a test: true, false or unknown (IEEE 1800-2017, 12.4).
pub fn test_of(value: &Value) -> Digit
    ensures { result ≡ parts.test_of value.now }
{
    truth(only_of(value))
}

/// A number as an `int` (6.11.1).
pub fn int_value(alloc: Global, number: u32) -> Result<Value, AllocError>
    ensures { IfOk result (λ v. v ≡ parts.int_value number) }
{
    of_bits(alloc, Bits::number(Leaf::INT, u64::from(number)))
}

/// A moment as a `time` (6.11.1, 20.3.1).
pub fn time_value(alloc: Global, moment: u64) -> Result<Value, AllocError>
    ensures { IfOk result (λ v. v ≡ parts.time_value moment) }
{
    let leaf = Leaf {
        width: 64,
        signed: false,
        four: true,
    };
    of_bits(alloc, Bits::number(leaf, moment))
}

/// Whether two values of one leaf are the same, x and z too, as `case` compares them (12.5).
pub fn is_same_value(a: &Value, b: &Value) -> bool
    requires { AreOperands CaseEq (parts.only a.now) (parts.only b.now) }
    ensures { result ≡ parts.is_same_value a.now b.now }
{
    match truth(binary(Binary::CaseEq, only_of(a), only_of(b))) {
        Digit::One => true,
        _ => false,
    }
}
