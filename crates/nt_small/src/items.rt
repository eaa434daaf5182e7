// The items of a module, read from its pieces.
ghost use Rattle.std.specs.Prelude.{◌≡◌, ◌≢◌, ◌<◌, ◌≤◌, ◌↔◌, ◌++◌, ◌∷◌, [], IsTrue, IfOk, IfSome, IfNone, List, ℕ, length, drop, map, codes};
ghost use Rattle.nt_small.specs.Said.{item_of};
ghost use Rattle.nt_small.specs.Grammar.{Item, item_tokens, items_tokens};

use crate::pieces::Piece;
use std::alloc::{AllocError, Global};

/// An item, with the names and the digits as they stand in the text.
#[derive(Clone, Copy)]
pub enum ParsedItem<'a> {
    Declare(&'a [u8]),
    Drive(&'a [u8], &'a [u8]),
}

fn is_end(pieces: &[Piece<'_>]) -> bool
    ensures { IsTrue result ↔ (pieces.now ≡ codes "endmodule" ∷ []) }
{
    match pieces {
        [only] => only.is(b"endmodule"),
        _ => false,
    }
}

// The net of a declaration, which has three pieces.
fn declaration<'a>(nettype: &[u8], pieces: &[Piece<'a>]) -> Option<&'a [u8]>
    ensures within { IfSome result (λ net. 3 ≤ length pieces.now) }
    ensures found { IfSome result (λ net. pieces.now ≡ nettype.now ∷ net.now ∷ codes ";" ∷ drop 3 pieces.now) }
    ensures none { IfNone result ((net : List ℕ) (rest : List (List ℕ)) → pieces.now ≡ nettype.now ∷ net ∷ codes ";" ∷ rest → ⊥) }
{
    let [first, net, end, ..] = pieces else {
        return None;
    };
    if !first.is(nettype) || !end.is(b";") {
        return None;
    }
    Some(net.bytes())
}

// The net and the digits of an assignment, which has five pieces.
fn assignment<'a>(pieces: &[Piece<'a>]) -> Option<(&'a [u8], &'a [u8])>
    ensures within { IfSome result (λ r. 5 ≤ length pieces.now) }
    ensures found { IfSome result (λ r. pieces.now ≡ codes "assign" ∷ r.0.now ∷ codes "=" ∷ r.1.now ∷ codes ";" ∷ drop 5 pieces.now) }
    ensures none { IfNone result ((net digits : List ℕ) (rest : List (List ℕ)) → pieces.now ≡ codes "assign" ∷ net ∷ codes "=" ∷ digits ∷ codes ";" ∷ rest → ⊥) }
{
    let [first, net, equals, digits, end, ..] = pieces else {
        return None;
    };
    if !first.is(b"assign") || !equals.is(b"=") || !end.is(b";") {
        return None;
    }
    Some((net.bytes(), digits.bytes()))
}

// The item that these pieces begin with, and how many pieces it has.
fn next_item<'a>(nettype: &[u8], pieces: &[Piece<'a>]) -> Option<(ParsedItem<'a>, usize)>
    ensures within { IfSome result (λ r. (0 < r.1) × (r.1 ≤ length pieces.now)) }
    ensures found { IfSome result (λ r. pieces.now ≡ item_tokens nettype.now (item_of r.0) ++ drop r.1 pieces.now) }
    ensures none { IfNone result ((item : Item) (rest : List (List ℕ)) → pieces.now ≡ item_tokens nettype.now item ++ rest → ⊥) }
{
    if let Some(net) = declaration(nettype, pieces) {
        return Some((ParsedItem::Declare(net), 3));
    }
    let (net, digits) = assignment(pieces)?;
    Some((ParsedItem::Drive(net, digits), 5))
}

/// The items that these pieces spell, with the module's end behind them.
pub fn items<'a>(
    alloc: Global,
    nettype: &[u8],
    pieces: &[Piece<'a>],
) -> Result<Option<Vec<ParsedItem<'a>>>, AllocError>
    requires { nettype.now ≢ codes "assign" }
    ensures found { IfOk result (λ o. IfSome o (λ v. items_tokens nettype.now (map item_of v.items) ≡ pieces.now)) }
    ensures none { IfOk result (λ o. IfNone o ((its : List Item) → items_tokens nettype.now its ≡ pieces.now → ⊥)) }
{
    let mut found = Vec::new(alloc);
    let mut rest = pieces;
    while !is_end(rest) {
        let Some((item, len)) = next_item(nettype, rest) else {
            return Ok(None);
        };
        found.push(item)?;
        rest = &rest[len..];
    }
    Ok(Some(found))
}
