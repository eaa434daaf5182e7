// The formats of texts (IEEE 1800-2017, 21.2.1).
ghost use Rattle.std.specs.Prelude.{◌≡◌, ◌∷◌, [], List, ℕ};
ghost use Rattle.nt_stmt_parts.specs.Texts.{after, coming, more};
ghost use Rattle.nt_typed_stmts.specs.Tables.{formats_of, is_taken, taken_from};

use nt_value::Text;

/// What comes next in a text.
#[derive(Clone, Copy, Debug, PartialEq, Eq)]
pub(crate) enum Next {
    /// Anything.
    Anything,
    /// What follows `%`.
    Format,
    /// What follows `%0`.
    Letter,
}

// One value is taken, where one is left.
fn taken(left: usize) -> Option<(Next, usize)>
    ensures { (cs : List ℕ) → is_taken (more cs) left ≡ after result cs }
{
    if left == 0 {
        None
    } else {
        Some((Next::Anything, left - 1))
    }
}

// One byte of a text, where so many values are left; `None` where it is no format, or takes a value that isn't there.
fn step(byte: u8, next: Next, left: usize) -> Option<(Next, usize)>
    ensures { (cs : List ℕ) → is_taken (taken_from (coming next) (byte ∷ cs)) left ≡ after result cs }
{
    match (next, byte) {
        (Next::Anything, b'%') => Some((Next::Format, left)),
        (Next::Anything, _) => Some((Next::Anything, left)),
        (Next::Format, b'%') => Some((Next::Anything, left)),
        (Next::Format, b'0') => Some((Next::Letter, left)),
        (Next::Format, b'b' | b'h') => taken(left),
        (Next::Format, _) => None,
        (Next::Letter, b'd') => taken(left),
        (Next::Letter, _) => None,
    }
}

// The same where a byte before it may have been no format.
fn step_on(byte: u8, state: Option<(Next, usize)>) -> Option<(Next, usize)>
    ensures { (cs : List ℕ) → after state (byte ∷ cs) ≡ after result cs }
{
    match state {
        None => None,
        Some((next, left)) => step(byte, next, left),
    }
}

fn is_end(state: Option<(Next, usize)>) -> bool
    ensures { result ≡ after state [] }
{
    match state {
        Some((Next::Anything, left)) => left == 0,
        _ => false,
    }
}

/// Whether the formats of a text are `%0d`, `%b`, `%h` and `%%` alone, and take so many values.
pub fn takes(text: &Text, count: usize) -> bool
    ensures { result ≡ is_taken (formats_of text.now) count }
{
    let mut state = Some((Next::Anything, count));
    for byte in text.items() {
        state = step_on(*byte, state);
    }
    is_end(state)
}
