// Bytes, runs of bytes, and tables of spellings.
ghost use Rattle.std.specs.Prelude.{◌≡◌, ◌-◌, ◌<◌, ◌≤◌, drop, length, map, take};
ghost use Rattle.std.specs.List.{prefix_len};
ghost use Rattle.nt_lexer.specs.Bytes as spec;
ghost use Rattle.nt_lexer.specs.Directives.{named};
ghost use Rattle.nt_lexer.specs.Pieces.{front_len as front};

use crate::kinds::{Run, Sort};

// Whether the byte is white space.
#[tactic(auto, unfolding(crate::specs::Bytes::is_blank))]
fn is_blank(b: u8) -> bool
    ensures { result ≡ spec.is_blank b }
{
    b == b'\t' || b == b'\n' || b == b'\x0C' || b == b'\r' || b == b' '
}

// Whether a text may have the byte.
#[tactic(auto, unfolding(crate::specs::Bytes::is_plain))]
fn is_plain(b: u8) -> bool
    ensures { result ≡ spec.is_plain b }
{
    is_blank(b) || (b'!' <= b && b <= b'~')
}

// What the byte begins.
#[tactic(auto, unfolding(crate::specs::Bytes::sort))]
pub(crate) fn sort(b: u8) -> Sort
    ensures { result ≡ spec.sort b }
{
    if is_blank(b) {
        Sort::Blank
    } else if b.is_ascii_alphabetic() || b == b'_' {
        Sort::Letter
    } else if b.is_ascii_digit() {
        Sort::Digit
    } else if b == b'$' {
        Sort::Dollar
    } else if b == b'"' {
        Sort::Quote
    } else if b == b'\'' {
        Sort::Tick
    } else if b == b'`' {
        Sort::Grave
    } else if b'!' <= b && b <= b'~' && b != b'\\' {
        Sort::Sign
    } else {
        Sort::Bad
    }
}

#[tactic(auto, unfolding(crate::specs::Bytes::in_run))]
fn in_run(run: Run, b: u8) -> bool
    ensures { result ≡ spec.in_run run b }
{
    match run {
        Run::Blank => is_blank(b),
        Run::Name => matches!(sort(b), Sort::Letter | Sort::Digit | Sort::Dollar),
        Run::Number => b.is_ascii_digit() || b == b'_',
        Run::Line => b != b'\n',
        Run::Text => is_plain(b),
    }
}

// How many bytes at the front go on with the run.
pub(crate) fn run_len(run: Run, text: &[u8]) -> usize
    ensures value { result ≡ prefix_len (spec.in_run run) text.now }
    ensures within { result ≤ length text.now }
{
    let mut end = 0;
    while end < text.len() && in_run(run, text[end]) {
        end += 1;
    }
    end
}

// How long the front is that is a first byte and all bytes that go on with it.
pub(crate) fn front_len(run: Run, text: &[u8]) -> usize
    ensures value { result ≡ front run text.now }
    ensures some { 0 < length text.now → 0 < result }
    ensures within { result ≤ length text.now }
{
    match text {
        [] => 0,
        [_, rest @ ..] => 1 + run_len(run, rest),
    }
}

// What the table says of the spelling.
pub(crate) fn lookup<T: Copy>(mut table: &[(&[u8], T)], text: &[u8]) -> Option<T>
    ensures { result ≡ named (map (λ m. (m.0.now, m.1)) table.entry.now) text.now }
{
    while let [entry, rest @ ..] = table {
        if entry.0 == text {
            return Some(entry.1);
        }
        table = rest;
    }
    None
}

// What a part of the table says of the spelling.
pub(crate) fn lookup_in<T: Copy>(
    table: &[(&[u8], T)],
    part: (usize, usize),
    text: &[u8],
) -> Option<T>
    requires ordered { part.0 ≤ part.1 }
    requires inside { part.1 ≤ length table.now }
    ensures { result ≡ named (take (part.1 - part.0) (drop part.0 (map (λ m. (m.0.now, m.1)) table.now))) text.now }
{
    lookup(&table[part.0..part.1], text)
}
