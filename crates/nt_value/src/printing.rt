// The text of a value.
ghost use Rattle.std.specs.Prelude.{◌≡◌, ◌++◌, OnOk, true};
ghost use Rattle.nt_value.specs.Digits.{all_known};
ghost use Rattle.nt_value.specs.Texts.{digit_code, digits_text, leaf_text, number_text, rest_text, value_text};

use crate::{Bits, Digit, Text, Value};
use std::alloc::AllocError;

impl Digit {
    fn code(self) -> u8
        ensures { result ≡ digit_code self }
    {
        match self {
            Digit::Zero => b'0',
            Digit::One => b'1',
            Digit::X => b'x',
            Digit::Z => b'z',
        }
    }
}

fn print_number(bits: Bits, out: &mut Text) -> Result<(), AllocError>
    requires { all_known bits.digits ≡ true }
    ensures { OnOk result (out.new ≡ out.old ++ number_text bits) }
{
    if bits.leaf().signed && bits.is_top_one() {
        out.push(b'-')?;
        out.push_number(bits.complement())
    } else {
        out.push_number(bits.magnitude())
    }
}

fn print_digits(bits: Bits, out: &mut Text) -> Result<(), AllocError>
    ensures { OnOk result (out.new ≡ out.old ++ digits_text bits) }
{
    let width = bits.width();
    out.push_number(u64::from(width))?;
    out.push_bytes(b"'b")?;
    for at in (0..width).rev() {
        out.push(bits.digit(at).code())?;
    }
    Ok(())
}

/// Adds the text of one leaf. Without memory the text may hold a part of it.
pub fn print_leaf(bits: Bits, out: &mut Text) -> Result<(), AllocError>
    ensures { OnOk result (out.new ≡ out.old ++ leaf_text bits) }
{
    if bits.is_known() {
        print_number(bits, out)
    } else {
        print_digits(bits, out)
    }
}

fn print_rest(leaves: &[Bits], out: &mut Text) -> Result<(), AllocError>
    ensures { OnOk result (out.new ≡ out.old ++ rest_text leaves.now) }
{
    for bits in leaves {
        out.push(b',')?;
        print_leaf(*bits, out)?;
    }
    Ok(())
}

/// Adds the text of a value. Without memory the text may hold a part of it.
pub fn print(value: &Value, out: &mut Text) -> Result<(), AllocError>
    ensures { OnOk result (out.new ≡ out.old ++ value_text value.now) }
{
    match value.items() {
        [] => out.push_bytes(b"{}"),
        [only] => print_leaf(*only, out),
        [first, rest @ ..] => {
            out.push(b'{')?;
            print_leaf(*first, out)?;
            print_rest(rest, out)?;
            out.push(b'}')
        }
    }
}
