// Parts of items.
ghost use Rattle.std.specs.Prelude.{◌≡◌, IfOk};
ghost use Rattle.nt_read_expr.specs.Gives.{Gives};
ghost use Rattle.nt_read_item.specs.Tables as tables;
ghost use Rattle.nt_read_item.specs.Reader as spec;

use nt_ast::{Declared, Expr, Path, TypeTree, copy_type};
use nt_lexer::{Mark, Token, Word};
use nt_read_expr::{Stop, expect, expression_in, is_at, reference, start};
use nt_read_stmt::{is_word, take_name};
use nt_read_unit::one_bit;
use nt_value::{Name, Place};
use sqlite_items::{Boxed, Items};
use std::alloc::{AllocError, Global};

/// A name, or a name of a package.
#[tactic(auto, unfolding(crate::specs::Reader::path))]
fn path(alloc: Global, tokens: &[Token]) -> Result<(Path, &[Token]), Stop>
    ensures { Gives (λ x. (x.0, x.1.now)) result (spec.path tokens.now) }
{
    let (name, rest) = take_name(alloc, tokens)?;
    reference(alloc, start(tokens), &name, rest)
}

/// The resolver of a nettype, where one is written.
#[tactic(auto, unfolding(crate::specs::Reader::maybe_with))]
pub(crate) fn maybe_with(alloc: Global, tokens: &[Token]) -> Result<(Option<Path>, &[Token]), Stop>
    ensures { Gives (λ x. (x.0, x.1.now)) result (spec.maybe_with tokens.now) }
{
    if !is_word(Word::With, tokens) {
        return Ok((None, tokens));
    }
    let (x, rest) = path(alloc, &tokens[1..])?;
    Ok((Some(x), rest))
}

/// The initial value, where one is written.
#[tactic(auto, unfolding(crate::specs::Reader::maybe_start))]
pub(crate) fn maybe_start(
    alloc: Global,
    limit: u32,
    tokens: &[Token],
) -> Result<(Option<Boxed<Expr>>, &[Token]), Stop>
    ensures { Gives (λ x. (x.0, x.1.now)) result (spec.maybe_start limit tokens.now) }
{
    if !is_at(Mark::Assign, tokens) {
        return Ok((None, tokens));
    }
    let (x, rest) = expression_in(alloc, limit, limit, &tokens[1..])?;
    Ok((Some(x), rest))
}

/// The type of what is declared at this place, where none may be written: one bit of `logic` then.
pub fn type_at(
    alloc: Global,
    of: &Option<Boxed<TypeTree>>,
    at: Place,
) -> Result<Boxed<TypeTree>, AllocError>
    ensures { IfOk result (λ x. x ≡ tables.type_at of.now at) }
{
    match of {
        None => one_bit(alloc, at),
        Some(of) => Boxed::new(alloc, copy_type(alloc, of.get())?),
    }
}

/// A declared name without dimensions.
pub fn plain_name(
    alloc: Global,
    at: Place,
    name: Name,
    start: Option<Boxed<Expr>>,
) -> Result<Boxed<Declared>, AllocError>
    ensures { IfOk result (λ x. x ≡ tables.plain_name at name start) }
{
    let dims = Items::new(alloc);
    match start {
        None => Boxed::new(
            alloc,
            Declared {
                at,
                name,
                dims,
                start: None,
            },
        ),
        Some(start) => Boxed::new(
            alloc,
            Declared {
                at,
                name,
                dims,
                start: Some(start.into_inner()),
            },
        ),
    }
}

/// The same name with an initial value.
pub(crate) fn started(
    alloc: Global,
    what: Boxed<Declared>,
    start: Option<Boxed<Expr>>,
) -> Result<Boxed<Declared>, AllocError>
    ensures { IfOk result (λ x. x ≡ tables.started what start) }
{
    let Declared { at, name, dims, .. } = what.into_inner();
    match start {
        None => Boxed::new(
            alloc,
            Declared {
                at,
                name,
                dims,
                start: None,
            },
        ),
        Some(start) => Boxed::new(
            alloc,
            Declared {
                at,
                name,
                dims,
                start: Some(start.into_inner()),
            },
        ),
    }
}
