// Texts and comments.
ghost use Rattle.std.specs.Prelude.{◌≡◌, ◌+◌, ◌<◌, ◌≤◌, ◌++◌, IfSome, IfOk, OnOk, false, length, true};
ghost use Rattle.nt_lexer.specs.Pieces as spec;

use std::alloc::{AllocError, Global};

#[tactic(auto, unfolding(crate::specs::Pieces::is_escape))]
fn is_escape(b: u8) -> bool
    ensures { result ≡ spec.is_escape b }
{
    b == b'n' || b == b'"' || b == b'\\'
}

// Whether the byte goes on with a text; the flag tells that the byte before is an escaping backslash.
fn goes_inside(escaped: bool, b: u8) -> bool
    ensures { result ≡ spec.goes_inside escaped b }
{
    if escaped {
        is_escape(b)
    } else {
        !(b == b'"' || b == b'\n')
    }
}

// How many bytes stand before the closing quote.
pub(crate) fn inside_len(text: &[u8]) -> Option<usize>
    ensures value { result ≡ spec.inside_len false text.now }
    ensures within { IfSome result (λ len. len < length text.now) }
{
    let mut escaped = false;
    let mut at = 0;
    while at < text.len() {
        let b = text[at];
        if !goes_inside(escaped, b) {
            return if !escaped && b == b'"' {
                Some(at)
            } else {
                None
            };
        }
        escaped = !escaped && b == b'\\';
        at += 1;
    }
    None
}

// Adds what a byte inside a text says.
#[tactic(auto, unfolding(crate::specs::Pieces::said))]
fn push_said(escaped: bool, b: u8, said: &mut Vec<u8>) -> Result<(), AllocError>
    ensures { OnOk result (said.new.items ≡ said.old.items ++ spec.said escaped b) }
{
    if !escaped && b == b'\\' {
        return Ok(());
    }
    let byte = if escaped && b == b'n' { 10 } else { b };
    said.push(byte)?;
    Ok(())
}

// What a text says.
pub(crate) fn text_value(alloc: Global, inside: &[u8]) -> Result<Vec<u8>, AllocError>
    ensures { IfOk result (λ said. said.items ≡ spec.text_value false inside.now) }
{
    let mut said = Vec::new(alloc);
    let mut escaped = false;
    for b in inside {
        push_said(escaped, *b, &mut said)?;
        escaped = !escaped && *b == b'\\';
    }
    Ok(said)
}

// Whether a text begins with these two bytes.
#[tactic(auto, unfolding(crate::specs::Pieces::begins_with))]
pub(crate) fn begins_with(one: u8, two: u8, text: &[u8]) -> bool
    ensures value { result ≡ spec.begins_with one two text.now }
    ensures within { result ≡ true → 2 ≤ length text.now }
{
    match text {
        [a, b, ..] => *a == one && *b == two,
        _ => false,
    }
}

// How many bytes there are to the end of the next mark that closes a comment.
pub(crate) fn closing(text: &[u8]) -> Option<usize>
    ensures value { result ≡ spec.closing text.now }
    ensures within { IfSome result (λ len. len ≤ length text.now) }
{
    let mut at = 0;
    while at < text.len() {
        if begins_with(b'*', b'/', &text[at..]) {
            return Some(at + 2);
        }
        at += 1;
    }
    None
}
