// The words of cases.
//
// A leaf is s or u for its sign, its width, and t with the number of its states. A value is a decimal number, one below 0, or
// b with digits, of which the first, if it is x or z, stands for all above, else 0.
ghost use Rattle.std.specs.Prelude.{◌≡◌, IfSome};
ghost use Rattle.nt_value.specs.Digits.{IsLeaf};

use nt_value::{Binary, Bits, Digit, Leaf, Unary, unary};
use std::alloc::AllocError;

// Why a case is not read.
#[derive(Debug, Drop)]
pub(crate) enum Unread {
    Words,
    Memory(AllocError),
}

impl From<AllocError> for Unread {
    fn from(e: AllocError) -> Unread {
        Unread::Memory(e)
    }
}

pub(crate) fn some<T: Drop>(value: Option<T>) -> Result<T, Unread> {
    value.ok_or(Unread::Words)
}

// Whether a word is the first of two, and `None` where it is neither.
fn is_first(word: &str, first: &str, second: &str) -> Option<bool> {
    if word == first {
        return Some(true);
    }
    if word == second { Some(false) } else { None }
}

pub(crate) fn leaf_of(text: &str) -> Option<Leaf>
    ensures { IfSome result (λ leaf. IsLeaf leaf) }
{
    let (sign, rest) = text.split_at_checked(1)?;
    let (width, states) = rest.split_once('t')?;
    let leaf = Leaf {
        width: width.parse().ok()?,
        signed: is_first(sign, "s", "u")?,
        four: is_first(states, "4", "2")?,
    };
    if leaf.is_valid() { Some(leaf) } else { None }
}

fn digit_of(code: u8) -> Option<Digit> {
    match code {
        b'0' => Some(Digit::Zero),
        b'1' => Some(Digit::One),
        b'x' => Some(Digit::X),
        b'z' => Some(Digit::Z),
        _ => None,
    }
}

// The digit that stands above all that are written.
fn above(text: &[u8]) -> Option<Digit> {
    let first = digit_of(*text.first()?)?;
    if first.is_known() {
        Some(Digit::Zero)
    } else {
        Some(first)
    }
}

// The least significant digit stands last.
fn digits(leaf: Leaf, text: &[u8]) -> Option<Bits>
    requires { IsLeaf leaf }
    ensures { IfSome result (λ bits. bits.leaf ≡ leaf) }
{
    let mut bits = Bits::zero(leaf);
    let mut rest = text;
    for at in 0..leaf.width {
        let digit = match rest.split_last() {
            Some((last, front)) => {
                rest = front;
                digit_of(*last)?
            }
            None => above(text)?,
        };
        if !leaf.four && !digit.is_known() {
            return None;
        }
        bits = bits.with_digit(at, digit);
    }
    Some(bits)
}

// The lowest digits of a number.
fn number(leaf: Leaf, number: u64) -> Bits
    requires { IsLeaf leaf }
    ensures { result.leaf ≡ leaf }
{
    let mut bits = Bits::zero(leaf);
    for at in 0..leaf.width {
        if number >> at & 1 == 1 {
            bits = bits.with_digit(at, Digit::One);
        }
    }
    bits
}

fn value_of(leaf: Leaf, text: &str) -> Option<Bits>
    requires { IsLeaf leaf }
{
    match text.split_at_checked(1)? {
        ("b", rest) => digits(leaf, rest.as_bytes()),
        ("-", rest) => Some(unary(Unary::Minus, number(leaf, rest.parse().ok()?))),
        _ => Some(number(leaf, text.parse().ok()?)),
    }
}

pub(crate) fn bits_of(leaf: &str, value: &str) -> Option<Bits> {
    value_of(leaf_of(leaf)?, value)
}

pub(crate) fn unary_named(name: &str) -> Option<Unary> {
    match name {
        "pos" => Some(Unary::Plus),
        "neg" => Some(Unary::Minus),
        "~" => Some(Unary::Not),
        "!" => Some(Unary::LogicalNot),
        "r&" => Some(Unary::RedAnd),
        "r~&" => Some(Unary::RedNand),
        "r|" => Some(Unary::RedOr),
        "r~|" => Some(Unary::RedNor),
        "r^" => Some(Unary::RedXor),
        "r~^" => Some(Unary::RedXnor),
        _ => None,
    }
}

pub(crate) fn arithmetic_named(name: &str) -> Option<Binary> {
    match name {
        "+" => Some(Binary::Add),
        "-" => Some(Binary::Sub),
        "*" => Some(Binary::Mul),
        "/" => Some(Binary::Div),
        "%" => Some(Binary::Rem),
        "&" => Some(Binary::And),
        "|" => Some(Binary::Or),
        "^" => Some(Binary::Xor),
        "~^" => Some(Binary::Xnor),
        "<<" => Some(Binary::Shl),
        ">>" => Some(Binary::Shr),
        ">>>" => Some(Binary::Sshr),
        _ => None,
    }
}

pub(crate) fn comparison_named(name: &str) -> Option<Binary> {
    match name {
        "<" => Some(Binary::Lt),
        "<=" => Some(Binary::Le),
        ">" => Some(Binary::Gt),
        ">=" => Some(Binary::Ge),
        "==" => Some(Binary::Eq),
        "!=" => Some(Binary::Ne),
        "===" => Some(Binary::CaseEq),
        "!==" => Some(Binary::CaseNe),
        "&&" => Some(Binary::LogicalAnd),
        "||" => Some(Binary::LogicalOr),
        _ => None,
    }
}
