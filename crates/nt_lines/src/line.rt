// A text with its formats replaced.
ghost use Rattle.std.specs.Prelude.{◌≡◌, ◌++◌, ◌∷◌, ℕ, List, IfOk, drop};
ghost use Rattle.nt_semantics.specs.Lines.{first_leaf, line_of, others, text_from};
ghost use Rattle.nt_lines.specs.Formats.{expected_in};

use crate::format::put_formatted;
use nt_parts::only_of;
use nt_value::{Bits, Leaf, Text, Value};
use std::alloc::{AllocError, Global};

/// What comes next in a text.
#[derive(Clone, Copy, Debug, PartialEq, Eq)]
pub(crate) enum Next {
    /// Anything.
    Anything,
    /// What follows `%`.
    Format,
    /// What follows `%0`.
    Letter,
}

// The leaf of the first value. Where there is none, it is one digit x.
fn first_leaf(values: &[Value]) -> Bits
    ensures { result ≡ first_leaf values.now }
{
    match values {
        [] => Bits::default(Leaf {
            width: 1,
            signed: false,
            four: true,
        }),
        [first, ..] => only_of(first),
    }
}

// The values after the first.
fn others<'a>(values: &'a [Value]) -> &'a [Value]
    ensures { result.now ≡ others values.now }
{
    match values {
        [] => values,
        [_, rest @ ..] => rest,
    }
}

// One byte of the text: what comes next, and the values that are left.
fn put_byte<'a>(
    byte: u8,
    next: Next,
    values: &'a [Value],
    line: &mut Text,
) -> Result<(Next, &'a [Value]), AllocError>
    ensures { IfOk result (λ p. (cs : List ℕ) → line.new ++ text_from (expected_in p.0) cs p.1.now ≡ line.old ++ text_from (expected_in next) (byte ∷ cs) values.now) }
{
    match (next, byte) {
        (Next::Anything, b'%') => Ok((Next::Format, values)),
        (Next::Anything, b'\n') => {
            line.push(b' ')?;
            Ok((Next::Anything, values))
        }
        (Next::Anything, other) => {
            line.push(other)?;
            Ok((Next::Anything, values))
        }
        (Next::Format, b'%') => {
            line.push(b'%')?;
            Ok((Next::Anything, values))
        }
        (Next::Format, b'0') => Ok((Next::Letter, values)),
        (Next::Format, letter) => {
            put_formatted(letter, first_leaf(values), line)?;
            Ok((Next::Anything, others(values)))
        }
        (Next::Letter, letter) => {
            put_formatted(letter, first_leaf(values), line)?;
            Ok((Next::Anything, others(values)))
        }
    }
}

/// The line that `$display` prints for a text with formats and the values that they print (IEEE 1800-2017, 21.2.1).
///
/// # Errors
///
/// Where memory is refused.
pub fn line_of(alloc: Global, text: &Text, values: &[Value]) -> Result<Text, AllocError>
    ensures { IfOk result (λ line. line ≡ line_of text.now values.now) }
{
    let mut line = Text::new(Vec::new(alloc));
    let mut next = Next::Anything;
    let mut left = values;
    for byte in text.items() {
        let (expected, rest) = put_byte(*byte, next, left, &mut line)?;
        next = expected;
        left = rest;
    }
    Ok(line)
}
