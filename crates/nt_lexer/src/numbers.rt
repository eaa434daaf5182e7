// Literal numbers.
ghost use Rattle.std.specs.Prelude.{◌≡◌, ◌+◌, ◌^◌, ◌%◌, ◌<◌, ◌≤◌, ◌++◌, ◌∷◌, [], reverse, get_or, IfSome, IfOk, OnOk, MatchOption, drop, length, false, true};
ghost use Rattle.std.specs.List.{list_all, prefix_len};
ghost use Rattle.nt_value.specs.Arithmetic.{padded};
ghost use Rattle.nt_value.specs.Digits.{IsLeaf};
ghost use Rattle.nt_value.specs.declared.leaf.TheConstants.{WIDEST};
ghost use Rattle.nt_value.specs.Values.{binary};
ghost use Rattle.nt_lexer.specs.Numbers as spec;

use crate::kinds::{Based, Radix};
use nt_value::{Bits, Digit, Leaf, Literal};
use std::alloc::{AllocError, Global};

// x, z and ? are unknown digits.
#[tactic(auto, unfolding(crate::specs::Numbers::unknown_of))]
fn unknown_of(b: u8) -> Option<Digit>
    ensures { result ≡ spec.unknown_of b }
{
    if b == b'x' || b == b'X' {
        Some(Digit::X)
    } else if b == b'z' || b == b'Z' || b == b'?' {
        Some(Digit::Z)
    } else {
        None
    }
}

#[tactic(auto, unfolding(crate::specs::Numbers::radix_of))]
fn radix_of(b: u8) -> Option<Radix>
    ensures { result ≡ spec.radix_of b }
{
    if b == b'b' || b == b'B' {
        Some(Radix::Binary)
    } else if b == b'o' || b == b'O' {
        Some(Radix::Octal)
    } else if b == b'd' || b == b'D' {
        Some(Radix::Decimal)
    } else if b == b'h' || b == b'H' {
        Some(Radix::Hex)
    } else {
        None
    }
}

fn is_unknown(b: u8) -> bool
    ensures { result ≡ spec.is_unknown b }
{
    b == b'x' || b == b'X' || (b == b'z' || b == b'Z' || b == b'?')
}

// Whether the byte may begin the digits.
#[tactic(auto, unfolding(crate::specs::Numbers::is_radix_digit))]
fn is_radix_digit(radix: Radix, b: u8) -> bool
    ensures { result ≡ spec.is_radix_digit radix b }
{
    match radix {
        Radix::Binary => (b'0' <= b && b <= b'1') || is_unknown(b),
        Radix::Octal => (b'0' <= b && b <= b'7') || is_unknown(b),
        Radix::Decimal => b.is_ascii_digit(),
        Radix::Hex => b.is_ascii_hexdigit() || is_unknown(b),
    }
}

// Whether the byte may be the one unknown digit of a decimal literal.
#[tactic(auto, unfolding(crate::specs::Numbers::is_lone))]
fn is_lone(radix: Radix, b: u8) -> bool
    ensures { result ≡ spec.is_lone radix b }
{
    match radix {
        Radix::Decimal => b == b'x' || b == b'X' || (b == b'z' || b == b'Z'),
        _ => false,
    }
}

#[tactic(auto, unfolding(crate::specs::Numbers::goes_on))]
fn goes_on(radix: Radix, b: u8) -> bool
    ensures { result ≡ spec.goes_on radix b }
{
    is_radix_digit(radix, b) || b == b'_'
}

fn more_digits(radix: Radix, text: &[u8]) -> usize
    ensures value { result ≡ prefix_len (spec.goes_on radix) text.now }
    ensures within { result ≤ length text.now }
{
    let mut end = 0;
    while end < text.len() && goes_on(radix, text[end]) {
        end += 1;
    }
    end
}

fn underscores_len(text: &[u8]) -> usize
    ensures value { result ≡ prefix_len spec.is_underscore text.now }
    ensures within { result ≤ length text.now }
{
    let mut end = 0;
    while end < text.len() && text[end] == b'_' {
        end += 1;
    }
    end
}

// How many bytes at the front are digits of the radix.
#[tactic(auto, unfolding(crate::specs::Numbers::digits_len))]
fn digits_len(radix: Radix, text: &[u8]) -> usize
    ensures value { result ≡ spec.digits_len radix text.now }
    ensures within { result ≤ length text.now }
{
    let [first, rest @ ..] = text else {
        return 0;
    };
    if is_radix_digit(radix, *first) {
        1 + more_digits(radix, rest)
    } else if is_lone(radix, *first) {
        1 + underscores_len(rest)
    } else {
        0
    }
}

#[tactic(auto, unfolding(crate::specs::Numbers::with_radix))]
fn with_radix(signed: bool, before: usize, text: &[u8]) -> Option<Based>
    requires { before ≤ 2 }
    ensures value { result ≡ spec.with_radix signed before text.now }
    ensures some { IfSome result (λ based. 0 < based.len) }
    ensures within { IfSome result (λ based. based.before + based.len ≤ before + length text.now) }
{
    let [letter, digits @ ..] = text else {
        return None;
    };
    let radix = radix_of(*letter)?;
    let len = digits_len(radix, digits);
    if len == 0 {
        return None;
    }
    Some(Based {
        signed,
        radix,
        before: before + 1,
        len,
    })
}

// The based literal, without its size, at the front.
#[tactic(auto, unfolding(crate::specs::Numbers::based_front))]
pub(crate) fn based_front(text: &[u8]) -> Option<Based>
    ensures value { result ≡ spec.based_front text.now }
    ensures some { IfSome result (λ based. 0 < based.len) }
    ensures within { IfSome result (λ based. based.before + based.len ≤ length text.now) }
{
    let [tick, rest @ ..] = text else {
        return None;
    };
    let [letter, after @ ..] = rest else {
        return None;
    };
    if *tick != b'\'' {
        return None;
    }
    if *letter == b's' || *letter == b'S' {
        with_radix(true, 2, after)
    } else {
        with_radix(false, 1, rest)
    }
}

#[tactic(auto, unfolding(crate::specs::Numbers::filling_of))]
fn filling_of(b: u8) -> Option<Digit>
    ensures { result ≡ spec.filling_of b }
{
    if b == b'0' {
        Some(Digit::Zero)
    } else if b == b'1' {
        Some(Digit::One)
    } else if b == b'x' || b == b'X' {
        Some(Digit::X)
    } else if b == b'z' || b == b'Z' {
        Some(Digit::Z)
    } else {
        None
    }
}

// The digit of a literal that fills its context.
#[tactic(auto, unfolding(crate::specs::Numbers::filling_front))]
pub(crate) fn filling_front(text: &[u8]) -> Option<Digit>
    ensures value { result ≡ spec.filling_front text.now }
    ensures within { IfSome result (λ digit. 2 ≤ length text.now) }
{
    let [tick, letter, ..] = text else {
        return None;
    };
    if *tick == b'\'' {
        filling_of(*letter)
    } else {
        None
    }
}

// The number with one decimal digit more; `_` counts for nothing.
fn with_digit(number: u64, b: u8) -> u64
    requires { number ≤ 4294967295 }
    ensures { result ≡ spec.with_digit number b }
{
    if b == b'_' {
        number
    } else {
        10 * number + u64::from(b.saturating_sub(b'0'))
    }
}

// The low 64 binary digits of the number with one decimal digit more.
fn with_low_digit(number: u64, b: u8) -> u64
    ensures { result ≡ spec.with_digit number b % 18446744073709551616 }
{
    if b == b'_' {
        return number;
    }
    let next = 10 * u128::from(number) + u128::from(b.saturating_sub(b'0'));
    (next % 18446744073709551616) as u64
}

// The value of the decimal digits, if it is no larger than this.
pub(crate) fn decimal(text: &[u8], most: u64) -> Option<u64>
    requires { most ≤ 4294967295 }
    ensures { MatchOption result (most < spec.decimal text.now) (λ v. (v ≡ spec.decimal text.now) × (v ≤ most)) }
{
    let mut number = 0;
    for b in text {
        number = with_digit(number, *b);
        if number > most {
            return None;
        }
    }
    Some(number)
}

// The low 64 binary digits of the value of the decimal digits.
fn low_decimal(text: &[u8]) -> u64
    ensures { result ≡ spec.decimal text.now % 18446744073709551616 }
{
    let mut number = 0;
    for b in text {
        number = with_low_digit(number, *b);
    }
    number
}

// The number that a known digit writes.
#[tactic(auto, unfolding(crate::specs::Numbers::digit_value))]
fn digit_value(b: u8) -> u8
    ensures { result ≡ spec.digit_value b }
{
    if b < b'A' {
        b.saturating_sub(b'0')
    } else if b < b'a' {
        b.saturating_sub(b'A' - 10)
    } else {
        b.saturating_sub(b'a' - 10)
    }
}

// The digit of the lowest bit.
fn low_bit(number: u8) -> Digit
    ensures { result ≡ spec.low_bit number }
{
    if number % 2 == 1 {
        Digit::One
    } else {
        Digit::Zero
    }
}

// How many of four digits a digit of the radix doesn't stand for.
fn missing_bits(radix: Radix) -> usize
    ensures value { result + spec.digit_bits radix ≡ 4 }
    ensures within { result ≤ 3 }
{
    match radix {
        Radix::Binary => 3,
        Radix::Octal => 1,
        Radix::Decimal | Radix::Hex => 0,
    }
}

// Adds the binary digits that a digit stands for.
fn push_group(radix: Radix, b: u8, digits: &mut Vec<Digit>) -> Result<(), AllocError>
    ensures { OnOk result (digits.new.items ≡ digits.old.items ++ spec.group radix b) }
{
    let from = missing_bits(radix);
    match unknown_of(b) {
        Some(unknown) => {
            let four = [unknown, unknown, unknown, unknown];
            digits.extend_from_slice(&four[from..])?;
            Ok(())
        }
        None => {
            let number = digit_value(b);
            let half = number / 2;
            let quarter = half / 2;
            let four = [
                low_bit(quarter / 2),
                low_bit(quarter),
                low_bit(half),
                low_bit(number),
            ];
            digits.extend_from_slice(&four[from..])?;
            Ok(())
        }
    }
}

// Adds the binary digits that a byte stands for; `_` stands for none.
fn push_digit(radix: Radix, b: u8, digits: &mut Vec<Digit>) -> Result<(), AllocError>
    ensures { OnOk result (digits.new.items ≡ digits.old.items ++ spec.digit_group radix b) }
{
    if b == b'_' {
        return Ok(());
    }
    push_group(radix, b, digits)?;
    Ok(())
}

// The binary digits that are written, the most significant first.
fn written(alloc: Global, radix: Radix, text: &[u8]) -> Result<Vec<Digit>, AllocError>
    ensures { IfOk result (λ digits. digits.items ≡ spec.written radix text.now) }
{
    let mut digits = Vec::new(alloc);
    for b in text {
        push_digit(radix, *b, &mut digits)?;
    }
    Ok(digits)
}

// The binary digits that are written, the least significant first.
fn low_first(alloc: Global, radix: Radix, text: &[u8]) -> Result<Vec<Digit>, AllocError>
    ensures { IfOk result (λ digits. digits.items ≡ reverse (spec.written radix text.now)) }
{
    let mut digits = written(alloc, radix, text)?;
    digits.reverse();
    Ok(digits)
}

fn first_unknown(text: &[u8]) -> Option<Digit>
    ensures { result ≡ spec.first_unknown text.now }
{
    match text {
        [first, ..] => unknown_of(*first),
        [] => None,
    }
}

// What a shorter literal is filled with.
#[tactic(auto, unfolding(crate::specs::Numbers::fill))]
fn fill(text: &[u8]) -> Digit
    ensures { result ≡ spec.fill text.now }
{
    match first_unknown(text) {
        Some(unknown) => unknown,
        None => Digit::Zero,
    }
}

// The digit at a place, or the fill above the digits.
fn digit_or(digits: &[Digit], at: usize, fill: Digit) -> Digit
    ensures { result ≡ get_or digits.now at fill }
{
    if at < digits.len() { digits[at] } else { fill }
}

// A leaf with these low digits, and above them the fill.
fn fit(leaf: Leaf, fill: Digit, digits: &[Digit]) -> Bits
    requires leaf { IsLeaf leaf }
    requires four { leaf.four ≡ true }
    ensures { result ≡ record { leaf = leaf; digits = padded leaf.width fill digits.now } }
{
    let mut bits = Bits::zero(leaf);
    for at in 0..leaf.width {
        bits = bits.with_digit(at, digit_or(digits, usize::from(at), fill));
    }
    bits
}

// The low digits of a decimal number, or one unknown digit throughout.
fn decimal_value(leaf: Leaf, text: &[u8]) -> Bits
    requires leaf { IsLeaf leaf }
    requires four { leaf.four ≡ true }
    ensures { result ≡ record { leaf = leaf; digits = spec.decimal_digits leaf.width text.now (spec.first_unknown text.now) } }
{
    match first_unknown(text) {
        Some(unknown) => fit(leaf, unknown, &[]),
        None => {
            let low = u128::from(low_decimal(text)) % (1u128 << leaf.width);
            Bits::number(leaf, low as u64)
        }
    }
}

// The value of a based literal.
#[tactic(auto, unfolding(crate::specs::Numbers::digits_at))]
pub(crate) fn based_value(
    alloc: Global,
    width: u8,
    signed: bool,
    radix: Radix,
    text: &[u8],
) -> Result<Bits, AllocError>
    requires some { 1 ≤ width }
    requires within { width ≤ WIDEST }
    ensures { IfOk result (λ bits. bits ≡ spec.based_value width signed radix text.now) }
{
    let leaf = Leaf {
        width,
        signed,
        four: true,
    };
    if radix == Radix::Decimal {
        return Ok(decimal_value(leaf, text));
    }
    let digits = low_first(alloc, radix, text)?;
    Ok(fit(leaf, fill(text), &digits))
}

fn is_high_zero(digits: &[Digit]) -> bool
    ensures { result ≡ list_all spec.is_zero (drop 32 digits.now) }
{
    if digits.len() <= 32 {
        return true;
    }
    are_zero(&digits[32..])
}

fn are_zero(digits: &[Digit]) -> bool
    ensures { result ≡ list_all spec.is_zero digits.now }
{
    for digit in digits {
        if *digit != Digit::Zero {
            return false;
        }
    }
    true
}

fn decimal_fits(text: &[u8]) -> bool
    ensures { result ≡ spec.decimal_fits text.now (spec.first_unknown text.now) }
{
    match first_unknown(text) {
        Some(_) => true,
        None => decimal(text, 4294967295).is_some(),
    }
}

// Whether no digit above the low 32 is other than 0.
#[tactic(auto, unfolding(crate::specs::Numbers::fits_word))]
pub(crate) fn fits_word(alloc: Global, radix: Radix, text: &[u8]) -> Result<bool, AllocError>
    ensures { IfOk result (λ fits. fits ≡ spec.fits_word radix text.now) }
{
    if radix == Radix::Decimal {
        return Ok(decimal_fits(text));
    }
    let digits = low_first(alloc, radix, text)?;
    Ok(is_high_zero(&digits))
}

// A decimal number.
pub(crate) fn decimal_literal(number: u64) -> Literal
    requires { number ≤ 2147483647 }
    ensures { result ≡ spec.decimal_literal number }
{
    let leaf = Leaf {
        width: 32,
        signed: true,
        four: true,
    };
    Literal {
        bits: Bits::number(leaf, number),
        sized: false,
        fill: false,
    }
}

// One digit that fills its context.
pub(crate) fn fill_literal(digit: Digit) -> Literal
    ensures { result ≡ spec.fill_literal digit }
{
    let leaf = Leaf {
        width: 1,
        signed: false,
        four: true,
    };
    Literal {
        bits: fit(leaf, digit, &[]),
        sized: false,
        fill: true,
    }
}

// The based literal, without its size, at the front of a text, at a width.
pub(crate) fn based_literal(
    alloc: Global,
    width: u8,
    sized: bool,
    based: Based,
    text: &[u8],
) -> Result<Literal, AllocError>
    requires some { 1 ≤ width }
    requires within { width ≤ WIDEST }
    requires fits { based.before + based.len ≤ length text.now }
    ensures { IfOk result (λ literal. literal ≡ spec.based_literal width sized based text.now) }
{
    let digits = &text[based.before..based.before + based.len];
    let bits = based_value(alloc, width, based.signed, based.radix, digits)?;
    Ok(Literal {
        bits,
        sized,
        fill: false,
    })
}
