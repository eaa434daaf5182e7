// The pieces of a text: words, and other bytes one by one, without the white space.
ghost use Rattle.std.specs.Prelude.{◌≡◌, ◌<◌, ◌≤◌, ◌↔◌, IsTrue, IfOk, length};
ghost use Rattle.nt_small.specs.Pieces.{pieces_of, word_len};

use crate::bytes::{is_white, is_word_byte, same};
use std::alloc::{AllocError, Global};
use std::marker::Model;

/// A part of a text, seen as its bytes.
#[derive(Drop)]
pub struct Piece<'a> {
    bytes: &'a [u8],
}

impl<'a> Model for Piece<'a> {
    ghost use Rattle.std.specs.Prelude.{List, ℕ};

    ghost Value = { List ℕ };

    ghost view = { λ p. p.bytes.now };
}

impl<'a> Piece<'a> {
    pub fn new(bytes: &'a [u8]) -> Piece<'a>
        ensures { result ≡ bytes.now }
    {
        Piece { bytes }
    }

    pub fn bytes(&self) -> &'a [u8]
        ensures { result.now ≡ self.now }
    {
        self.bytes
    }

    pub fn is(&self, text: &[u8]) -> bool
        ensures { IsTrue result ↔ (self.now ≡ text.now) }
    {
        same(self.bytes(), text)
    }
}

// How many bytes of a word the text begins with.
fn word_len(text: &[u8]) -> usize
    ensures value { result ≡ word_len text.now }
    ensures within { result ≤ length text.now }
{
    let mut len = 0;
    while len < text.len() && is_word_byte(text[len]) {
        len += 1;
    }
    len
}

/// The pieces of a text.
pub fn pieces<'a>(alloc: Global, text: &'a [u8]) -> Result<Vec<Piece<'a>>, AllocError>
    ensures { IfOk result (λ v. v.items ≡ pieces_of text.now) }
{
    let mut found = Vec::new(alloc);
    let mut rest = text;
    while let [first, after @ ..] = rest {
        if is_white(*first) {
            rest = after;
        } else {
            let len = word_len(rest).max(1);
            found.push(Piece::new(&rest[..len]))?;
            rest = &rest[len..];
        }
    }
    Ok(found)
}
