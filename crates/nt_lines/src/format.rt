// One leaf in a format.
ghost use Rattle.std.specs.Prelude.{◌≡◌, ◌≤◌, ◌++◌, ◌∷◌, [], OnOk, length};
ghost use Rattle.std.specs.List.{list_all, list_any};
ghost use Rattle.nt_value.specs.Logic.{is_same_digit};
ghost use Rattle.nt_value.specs.Texts.{digit_code};
ghost use Rattle.nt_value.specs.declared.digit.Digit.TheVariants.{X, Z};
ghost use Rattle.nt_semantics.specs.Lines.{formatted, hex_code, hex_text, in_binary, in_decimal, in_hex, unknown_code};

use nt_value::{Bits, Digit, Text, part, print_leaf};
use std::alloc::AllocError;

fn is_x(digit: Digit) -> bool
    ensures { result ≡ is_same_digit X digit }
{
    match digit {
        Digit::X => true,
        Digit::Zero | Digit::One | Digit::Z => false,
    }
}

fn is_z(digit: Digit) -> bool
    ensures { result ≡ is_same_digit Z digit }
{
    match digit {
        Digit::Z => true,
        Digit::Zero | Digit::One | Digit::X => false,
    }
}

fn all_x(bits: Bits) -> bool
    ensures { result ≡ list_all (is_same_digit X) bits.digits }
{
    for at in 0..bits.width() {
        if !is_x(bits.digit(at)) {
            return false;
        }
    }
    true
}

fn all_z(bits: Bits) -> bool
    ensures { result ≡ list_all (is_same_digit Z) bits.digits }
{
    for at in 0..bits.width() {
        if !is_z(bits.digit(at)) {
            return false;
        }
    }
    true
}

fn some_x(bits: Bits) -> bool
    ensures { result ≡ list_any (is_same_digit X) bits.digits }
{
    for at in 0..bits.width() {
        if is_x(bits.digit(at)) {
            return true;
        }
    }
    false
}

// The letter of digits that aren't all known (IEEE 1800-2017, 21.2.1.3).
fn unknown_letter(bits: Bits) -> u8
    ensures { result ∷ [] ≡ unknown_code bits.digits }
{
    if all_x(bits) {
        return b'x';
    }
    if all_z(bits) {
        return b'z';
    }
    if some_x(bits) { b'X' } else { b'Z' }
}

// A number below 16 as a digit of base 16.
fn hex_code(number: u8) -> u8
    requires { number ≤ 15 }
    ensures { result ≡ hex_code number }
{
    if number < 10 {
        b'0' + number
    } else {
        b'a' - 10 + number
    }
}

// Up to four digits as one of base 16.
fn hex_letter(bits: Bits) -> u8
    requires { bits.leaf.width ≤ 4 }
    ensures { result ∷ [] ≡ hex_text bits.digits }
{
    if bits.is_known() {
        hex_code(bits.magnitude() as u8)
    } else {
        unknown_letter(bits)
    }
}

// `%h`: a digit of base 16 for each four, the highest first (21.2.1.2).
fn put_hex(bits: Bits, out: &mut Text) -> Result<(), AllocError>
    ensures { OnOk result (out.new ≡ out.old ++ in_hex bits) }
{
    let width = bits.width();
    let count = (width + 3) / 4;
    for at in (0..count).rev() {
        let low = 4 * at;
        out.push(hex_letter(part(bits, low, (width - low).min(4))))?;
    }
    Ok(())
}

fn digit_code(digit: Digit) -> u8
    ensures { result ≡ digit_code digit }
{
    match digit {
        Digit::Zero => b'0',
        Digit::One => b'1',
        Digit::X => b'x',
        Digit::Z => b'z',
    }
}

// `%b`: all digits, the most significant first.
fn put_binary(bits: Bits, out: &mut Text) -> Result<(), AllocError>
    ensures { OnOk result (out.new ≡ out.old ++ in_binary bits) }
{
    for at in (0..bits.width()).rev() {
        out.push(digit_code(bits.digit(at)))?;
    }
    Ok(())
}

// `%0d`: the number, without leading zeros.
fn put_decimal(bits: Bits, out: &mut Text) -> Result<(), AllocError>
    ensures { OnOk result (out.new ≡ out.old ++ in_decimal bits) }
{
    if bits.is_known() {
        print_leaf(bits, out)
    } else {
        out.push(unknown_letter(bits))
    }
}

// A leaf by the letter of its format.
pub(crate) fn put_formatted(letter: u8, bits: Bits, out: &mut Text) -> Result<(), AllocError>
    ensures { OnOk result (out.new ≡ out.old ++ formatted letter bits) }
{
    match letter {
        b'b' => put_binary(bits, out),
        b'h' => put_hex(bits, out),
        _ => put_decimal(bits, out),
    }
}
