// Left sides of assignments.
ghost use Rattle.std.specs.Prelude.{◌≡◌, true};
ghost use Rattle.nt_ast.specs.declared.expr.Expr.TheVariants as e;
ghost use Rattle.nt_read_expr.specs.LeftSide as spec;
ghost use Rattle.nt_read_expr.specs.Reader.{below};
ghost use Rattle.nt_read_expr.specs.Gives.{Gives};

use crate::front::reference;
use crate::reading::selects;
use crate::stop::Stop;
use nt_ast::Expr;
use nt_lexer::{Token, TokenKind};
use sqlite_items::Boxed;
use std::alloc::Global;

/// A name and its selects, at most `limit`, where `.size` is a member (IEEE 1800-2017, A.8.5).
///
/// # Errors
///
/// `Refused` where no name stands first, or a select is not whole, or one too many, `Memory` where memory ran out.
#[tactic(auto, unfolding(crate::specs::LeftSide::left_side))]
pub fn left_side(
    alloc: Global,
    limit: u32,
    depth: u32,
    tokens: &[Token],
) -> Result<(Boxed<Expr>, &[Token]), Stop>
    ensures { Gives (λ x. (x.0, x.1.now)) result (spec.left_side limit (below limit depth) tokens.now) }
{
    let [
        Token {
            kind: TokenKind::Name(name),
            at,
        },
        rest @ ..,
    ] = tokens
    else {
        return Err(Stop::Refused);
    };
    let (path, rest) = reference(alloc, *at, name, rest)?;
    let read = Boxed::new(alloc, Expr::Read { at: *at, path })?;
    selects(alloc, limit, depth, true, *at, read, rest)
}
