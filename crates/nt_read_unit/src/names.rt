// Declared names, with their dimensions.
ghost use Rattle.std.specs.Prelude.{◌≡◌, ⊤, ◌∷◌, [], Some, None};
ghost use Rattle.nt_read_expr.specs.Gives.{Gives};
ghost use Rattle.nt_read_unit.specs.Reader as spec;

use crate::front::dim_goes;
use crate::groups::{GroupReader, groups_of};
use nt_ast::{Declared, Expr};
use nt_lexer::{Mark, Token};
use nt_read_expr::{Stop, expect, expression_in, is_at, start};
use nt_read_stmt::take_name;
use sqlite_items::{Boxed, Items};
use std::alloc::Global;

type Dimension = (Expr, Option<Expr>);

/// The two ends of a range.
#[tactic(auto, unfolding(crate::specs::Reader::range))]
pub(crate) fn range(
    alloc: Global,
    limit: u32,
    depth: u32,
    tokens: &[Token],
) -> Result<((Boxed<Expr>, Boxed<Expr>), &[Token]), Stop>
    ensures { Gives (λ x. ((x.0.0, x.0.1), x.1.now)) result (spec.range limit depth tokens.now) }
{
    let rest = expect(Mark::LeftBracket, tokens)?;
    let (left, rest) = expression_in(alloc, limit, depth, rest)?;
    let rest = expect(Mark::Colon, rest)?;
    let (right, rest) = expression_in(alloc, limit, depth, rest)?;
    let rest = expect(Mark::RightBracket, rest)?;
    Ok(((left, right), rest))
}

/// A range where one is written.
#[tactic(auto, unfolding(crate::specs::Reader::maybe_range))]
pub(crate) fn maybe_range(
    alloc: Global,
    limit: u32,
    depth: u32,
    tokens: &[Token],
) -> Result<(Option<(Boxed<Expr>, Boxed<Expr>)>, &[Token]), Stop>
    ensures { Gives (λ x. (x.0, x.1.now)) result (spec.maybe_range limit depth tokens.now) }
{
    if !is_at(Mark::LeftBracket, tokens) {
        return Ok((None, tokens));
    }
    let (ends, rest) = range(alloc, limit, depth, tokens)?;
    Ok((Some(ends), rest))
}

/// The only dimension of a list.
fn one_dim(
    alloc: Global,
    left: Boxed<Expr>,
    right: Option<Boxed<Expr>>,
) -> Result<Items<Dimension>, Stop>
    ensures { Gives (λ x. x) result (Some ((left, right) ∷ [])) }
{
    let mut all = Items::new(alloc);
    match right {
        None => all.push((left.into_inner(), None))?,
        Some(right) => all.push((left.into_inner(), Some(right.into_inner())))?,
    }
    Ok(all)
}

/// A dimension after its first expression, whose second end a colon begins.
#[tactic(auto, unfolding(crate::specs::Reader::dim_end))]
fn dim_end(
    alloc: Global,
    limit: u32,
    depth: u32,
    left: Boxed<Expr>,
    tokens: &[Token],
) -> Result<(Items<Dimension>, &[Token]), Stop>
    ensures { Gives (λ x. (x.0, x.1.now)) result (spec.dim_end limit depth left tokens.now) }
{
    let rest = expect(Mark::Colon, tokens)?;
    let (right, rest) = expression_in(alloc, limit, depth, rest)?;
    let rest = expect(Mark::RightBracket, rest)?;
    Ok((one_dim(alloc, left, Some(right))?, rest))
}

/// What reads dimensions.
#[derive(Clone, Copy)]
struct DimReader {
    alloc: Global,
    limit: u32,
    depth: u32,
}

impl GroupReader for DimReader {
    type Item = Dimension;

    ghost can_read = { λ _. ⊤ };

    ghost goes_on = { λ _. spec.dim_goes };

    ghost reads = { λ s. spec.dim s.limit s.depth };

    fn goes(&self, tokens: &[Token]) -> bool {
        dim_goes(tokens)
    }

    #[tactic(auto, unfolding(crate::specs::Reader::dim))]
    fn read_group<'a>(&self, tokens: &'a [Token]) -> Result<(Items<Dimension>, &'a [Token]), Stop> {
        let rest = expect(Mark::LeftBracket, tokens)?;
        let (left, rest) = expression_in(self.alloc, self.limit, self.depth, rest)?;
        if is_at(Mark::RightBracket, rest) {
            Ok((one_dim(self.alloc, left, None)?, &rest[1..]))
        } else {
            dim_end(self.alloc, self.limit, self.depth, left, rest)
        }
    }
}

/// A declared name with its unpacked dimensions, and what follows (IEEE 1800-2017, 7.4, A.2.4).
///
/// # Errors
///
/// `Refused` where no name stands first, or a dimension is not whole, `Memory` where memory ran out.
#[tactic(auto, unfolding(crate::specs::Reader::named))]
pub fn named_in(
    alloc: Global,
    limit: u32,
    depth: u32,
    tokens: &[Token],
) -> Result<(Boxed<Declared>, &[Token]), Stop>
    ensures { Gives (λ x. (x.0, x.1.now)) result (spec.named limit depth tokens.now) }
{
    let at = start(tokens);
    let (name, rest) = take_name(alloc, tokens)?;
    let reader = DimReader {
        alloc,
        limit,
        depth,
    };
    let (dims, rest) = groups_of(alloc, &reader, rest)?;
    let start = None;
    Ok((
        Boxed::new(
            alloc,
            Declared {
                at,
                name,
                dims,
                start,
            },
        )?,
        rest,
    ))
}
