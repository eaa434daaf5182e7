// What a text says.
ghost use Rattle.std.specs.Prelude.{◌≡◌, ◌≤◌, ◌∷◌, IfOk, IfSome, IfNone, List, ℕ, codes, drop, length};
ghost use Rattle.nt_small.specs.Grammar.{Source, Says, IsSource, tokens};
ghost use Rattle.nt_small.specs.Elaboration.{design_of};
ghost use Rattle.nt_small.specs.Law.{SaysOne};
ghost use Rattle.nt_design.specs.Plain.{IsPlain};
ghost use Rattle.nt_design.specs.WellFormed.{IsDesign};

use crate::elaborate::elaborate;
use crate::items::items;
use crate::names::is_name;
use crate::pieces::{Piece, pieces};
use crate::table::table_of;
use nt_design::Design;
use std::alloc::{AllocError, Global};

/// The most bytes that a text may have.
pub const MOST_BYTES: usize = 4_194_304;

// The most nets that a module may declare.
const MOST_NETS: usize = 16_384;

// The name of the nettype, where the pieces begin as those of the module `top`: with seven pieces.
fn heading<'a>(top: &[u8], pieces: &[Piece<'a>]) -> Option<&'a [u8]>
    ensures within { IfSome result (λ nettype. 7 ≤ length pieces.now) }
    ensures found { IfSome result (λ nettype. pieces.now ≡ codes "module" ∷ top.now ∷ codes ";" ∷ codes "nettype" ∷ codes "int" ∷ nettype.now ∷ codes ";" ∷ drop 7 pieces.now) }
    ensures none { IfNone result ((nettype : List ℕ) (rest : List (List ℕ)) → pieces.now ≡ codes "module" ∷ top.now ∷ codes ";" ∷ codes "nettype" ∷ codes "int" ∷ nettype ∷ codes ";" ∷ rest → ⊥) }
{
    let [module, name, end, word, int, nettype, second_end, ..] = pieces else {
        return None;
    };
    if !module.is(b"module") || !name.is(top) || !end.is(b";") {
        return None;
    }
    if !word.is(b"nettype") || !int.is(b"int") || !second_end.is(b";") {
        return None;
    }
    Some(nettype.bytes())
}

// The design of the source whose tokens these pieces are.
fn design_from_pieces(
    alloc: Global,
    top: &[u8],
    pieces: &[Piece<'_>],
) -> Result<Option<Design>, AllocError>
    requires { length pieces.now ≤ 4194304 }
    ensures some { IfOk result (λ o. IfSome o (λ d. (s : Source) × IsSource s × (s.top ≡ top.now) × (pieces.now ≡ tokens s) × (d ≡ design_of s))) }
    ensures well_formed { IfOk result (λ o. IfSome o (λ d. IsDesign d)) }
    ensures plain { IfOk result (λ o. IfSome o (λ d. IsPlain d)) }
    ensures none { IfOk result (λ o. IfNone o ((s : Source) → IsSource s → s.top ≡ top.now → pieces.now ≡ tokens s → ⊥)) }
{
    let Some(nettype) = heading(top, pieces) else {
        return Ok(None);
    };
    if !is_name(top) || !is_name(nettype) {
        return Ok(None);
    }
    let Some(items) = items(alloc, nettype, &pieces[7..])? else {
        return Ok(None);
    };
    let Some(table) = table_of(alloc, nettype, &items)? else {
        return Ok(None);
    };
    if table.names.len() > MOST_NETS {
        return Ok(None);
    }
    Ok(Some(elaborate(alloc, top, table)?))
}

/// The design that a text says of the module `top`, or none where it says nothing of it.
///
/// # Errors
///
/// Memory was refused.
pub fn design_from_text(
    alloc: Global,
    text: &[u8],
    top: &[u8],
) -> Result<Option<Design>, AllocError>
    ensures some { IfOk result (λ o. IfSome o (λ d. (s : Source) × Says top.now text.now s × (d ≡ design_of s))) }
    ensures well_formed { IfOk result (λ o. IfSome o (λ d. IsDesign d)) }
    ensures plain { IfOk result (λ o. IfSome o (λ d. IsPlain d)) }
    ensures none { IfOk result (λ o. IfNone o ((s : Source) → Says top.now text.now s → ⊥)) }
{
    if text.len() > MOST_BYTES {
        return Ok(None);
    }
    let pieces = pieces(alloc, text)?;
    design_from_pieces(alloc, top, &pieces)
}

/// A text says at most one thing of a module, so its bytes determine the design.
pub fn says_one()
    ensures { SaysOne }
{}
