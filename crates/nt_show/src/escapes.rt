// Bytes that a line cannot hold as themselves.
ghost use Rattle.std.specs.Prelude.{◌≤◌, length};

use nt_value::Text;
use std::alloc::{AllocError, Global};

fn hex(digit: u8) -> u8 {
    match digit {
        b'0'..=b'9' => digit - b'0',
        b'a'..=b'f' => digit - b'a' + 10,
        _ => 0,
    }
}

// The byte that an escape stands for, and the text after it.
fn one_escape(after: &[u8]) -> (u8, &[u8])
    ensures { length result.1.now ≤ length after.now }
{
    match after {
        [b'n', rest @ ..] => (10, rest),
        [b't', rest @ ..] => (9, rest),
        [b'x', high, low, rest @ ..] => (hex(*high) << 4 | hex(*low), rest),
        [other, rest @ ..] => (*other, rest),
        [] => (b'\\', after),
    }
}

/// The bytes of a text with escapes.
pub(crate) fn unescaped(alloc: Global, text: &str) -> Result<Text, AllocError> {
    let mut out = Text::new(Vec::new(alloc));
    let mut rest = text.as_bytes();
    while let [first, after @ ..] = rest {
        if *first == b'\\' {
            let (byte, later) = one_escape(after);
            out.push(byte)?;
            rest = later;
        } else {
            out.push(*first)?;
            rest = after;
        }
    }
    Ok(out)
}

fn hex_code(digit: u8) -> u8 {
    if digit < 10 {
        b'0' + digit
    } else {
        b'a' + (digit & 15) - 10
    }
}

fn push_escaped(byte: u8, out: &mut Text) -> Result<(), AllocError> {
    match byte {
        10 => out.push_bytes(b"\\n"),
        9 => out.push_bytes(b"\\t"),
        b'\\' => out.push_bytes(b"\\\\"),
        32..=126 => out.push(byte),
        _ => {
            out.push_bytes(b"\\x")?;
            out.push(hex_code(byte >> 4))?;
            out.push(hex_code(byte & 15))
        }
    }
}

/// The text with escapes of bytes.
pub(crate) fn escaped(alloc: Global, bytes: &[u8]) -> Result<Text, AllocError> {
    let mut out = Text::new(Vec::new(alloc));
    for byte in bytes {
        push_escaped(*byte, &mut out)?;
    }
    Ok(out)
}
