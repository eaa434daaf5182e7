// The values of numbers.
ghost use Rattle.std.specs.Prelude.{◌≡◌, ◌<◌, ◌^◌, IfOk};
ghost use Rattle.nt_small.specs.Grammar.{IsNumber};
ghost use Rattle.nt_small.specs.Elaboration.{number_of_digits, int_value};

use nt_value::{Bits, Leaf, Value};
use std::alloc::{AllocError, Global};

fn number(digits: &[u8]) -> u64
    requires { IsNumber digits.now }
    ensures value { result ≡ number_of_digits digits.now }
    ensures small { result < 10 ^ 9 }
{
    let mut number = 0;
    for digit in digits {
        number = 10 * number + u64::from(*digit - b'0');
    }
    number
}

/// The `int` of a number.
///
/// # Errors
///
/// `AllocError` alone.
pub fn int(alloc: Global, digits: &[u8]) -> Result<Value, AllocError>
    requires { IsNumber digits.now }
    ensures { IfOk result (λ value. value ≡ int_value (number_of_digits digits.now)) }
{
    let number = number(digits);
    Ok(Value::new(vec![in alloc; Bits::number(Leaf::INT, number)]?))
}
