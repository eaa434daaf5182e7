// Statements that have none inside. `depth` bounds the open nodes, `limit` the links of a chain.
ghost use Rattle.std.specs.Prelude.{◌≡◌, [], Some, IfOk};
ghost use Rattle.nt_ast.specs.declared.expr.Expr.TheVariants as e;
ghost use Rattle.nt_read_stmt.specs.Reader as spec;
ghost use Rattle.nt_read_expr.specs.Gives.{Gives};

use crate::build::compound_tree;
use crate::front::{Task, compound_of, one, past_number, step_of, task_of, text_first};
use nt_ast::{Expr, Path, Stmt};
use nt_lexer::{Mark, Token, TokenKind, Word};
use nt_read_expr::{Stop, expect, expression_in, is_at, others, reference, selects, several};
use nt_value::{Binary, Name, Place, Text};
use sqlite_items::{Boxed, Items};
use std::alloc::{AllocError, Global};

/// An expression in brackets.
#[tactic(auto, unfolding(crate::specs::Reader::tested))]
pub(crate) fn tested(
    alloc: Global,
    limit: u32,
    depth: u32,
    tokens: &[Token],
) -> Result<(Boxed<Expr>, &[Token]), Stop>
    ensures { Gives (λ x. (x.0, x.1.now)) result (spec.tested limit depth tokens.now) }
{
    let rest = expect(Mark::LeftParen, tokens)?;
    let (x, rest) = expression_in(alloc, limit, depth, rest)?;
    let rest = expect(Mark::RightParen, rest)?;
    Ok((x, rest))
}

#[tactic(auto, unfolding(crate::specs::Reader::compound))]
fn compound<'a>(
    alloc: Global,
    limit: u32,
    depth: u32,
    at: Place,
    left: &Expr,
    op: Option<Binary>,
    tokens: &'a [Token],
) -> Result<(Boxed<Expr>, &'a [Token]), Stop>
    ensures { Gives (λ x. (x.0, x.1.now)) result (spec.compound limit depth at left.now op tokens.now) }
{
    let Some(op) = op else {
        return Err(Stop::Refused);
    };
    let rest = expect(Mark::Assign, tokens)?;
    let (right, rest) = expression_in(alloc, limit, depth, rest)?;
    Ok((compound_tree(alloc, at, op, left, right)?, rest))
}

#[tactic(auto, unfolding(crate::specs::Reader::stepped))]
fn stepped<'a>(
    alloc: Global,
    limit: u32,
    depth: u32,
    at: Place,
    left: &Expr,
    mark: Mark,
    place: Place,
    tokens: &'a [Token],
) -> Result<(Boxed<Expr>, &'a [Token]), Stop>
    ensures { Gives (λ x. (x.0, x.1.now)) result (spec.stepped limit depth at left.now mark place tokens.now) }
{
    let Some(op) = step_of(mark) else {
        return compound(alloc, limit, depth, at, left, compound_of(mark), tokens);
    };
    let right = Boxed::new(
        alloc,
        Expr::Literal {
            at: place,
            value: one(),
        },
    )?;
    Ok((compound_tree(alloc, at, op, left, right)?, tokens))
}

/// What the left side, which stands at a place, gets.
#[tactic(auto, unfolding(crate::specs::Reader::value))]
pub(crate) fn value<'a>(
    alloc: Global,
    limit: u32,
    depth: u32,
    at: Place,
    left: &Expr,
    tokens: &'a [Token],
) -> Result<(Boxed<Expr>, &'a [Token]), Stop>
    ensures { Gives (λ x. (x.0, x.1.now)) result (spec.value limit depth at left.now tokens.now) }
{
    let [
        Token {
            kind: TokenKind::Mark(mark),
            at: place,
        },
        rest @ ..,
    ] = tokens
    else {
        return Err(Stop::Refused);
    };
    match *mark {
        Mark::Assign => expression_in(alloc, limit, depth, rest),
        mark => stepped(alloc, limit, depth, at, left, mark, *place, rest),
    }
}

/// What ends at a semicolon.
#[tactic(auto, unfolding(crate::specs::Reader::closed))]
fn closed(x: Boxed<Stmt>, tokens: &[Token]) -> Result<(Boxed<Stmt>, &[Token]), Stop>
    ensures { Gives (λ x. (x.0, x.1.now)) result (spec.closed x tokens.now) }
{
    let rest = expect(Mark::Semicolon, tokens)?;
    Ok((x, rest))
}

#[tactic(auto, unfolding(crate::specs::Reader::nonblocking))]
fn nonblocking(
    alloc: Global,
    limit: u32,
    depth: u32,
    at: Place,
    left: Boxed<Expr>,
    tokens: &[Token],
) -> Result<(Boxed<Stmt>, &[Token]), Stop>
    ensures { Gives (λ x. (x.0, x.1.now)) result (spec.nonblocking limit depth at left tokens.now) }
{
    let (right, rest) = expression_in(alloc, limit, depth, tokens)?;
    let left = left.into_inner();
    let right = right.into_inner();
    closed(
        Boxed::new(alloc, Stmt::Nonblocking { at, left, right })?,
        rest,
    )
}

#[tactic(auto, unfolding(crate::specs::Reader::blocking))]
fn blocking(
    alloc: Global,
    limit: u32,
    depth: u32,
    at: Place,
    left: Boxed<Expr>,
    tokens: &[Token],
) -> Result<(Boxed<Stmt>, &[Token]), Stop>
    ensures { Gives (λ x. (x.0, x.1.now)) result (spec.blocking limit depth at left tokens.now) }
{
    let (right, rest) = value(alloc, limit, depth, at, left.get(), tokens)?;
    let left = left.into_inner();
    let right = right.into_inner();
    closed(Boxed::new(alloc, Stmt::Assign { at, left, right })?, rest)
}

/// An assignment whose reference was taken.
#[tactic(auto, unfolding(crate::specs::Reader::assignment))]
fn assignment(
    alloc: Global,
    limit: u32,
    depth: u32,
    at: Place,
    path: Path,
    tokens: &[Token],
) -> Result<(Boxed<Stmt>, &[Token]), Stop>
    ensures { Gives (λ x. (x.0, x.1.now)) result (spec.assignment limit depth at path tokens.now) }
{
    let read = Boxed::new(alloc, Expr::Read { at, path })?;
    let (left, rest) = selects(alloc, limit, depth, true, at, read, tokens)?;
    if is_at(Mark::LessEqual, rest) {
        nonblocking(alloc, limit, depth, at, left, &rest[1..])
    } else {
        blocking(alloc, limit, depth, at, left, rest)
    }
}

#[tactic(auto, unfolding(crate::specs::Reader::call, crate::specs::Reader::call_of))]
fn call(
    alloc: Global,
    limit: u32,
    depth: u32,
    at: Place,
    path: Path,
    tokens: &[Token],
) -> Result<(Boxed<Stmt>, &[Token]), Stop>
    ensures { Gives (λ x. (x.0, x.1.now)) result (spec.call limit depth at path tokens.now) }
{
    if is_at(Mark::RightParen, tokens) {
        let args = Items::new(alloc);
        return closed(
            Boxed::new(alloc, Stmt::Call { at, path, args })?,
            &tokens[1..],
        );
    }
    let (args, rest) = several(alloc, limit, depth, tokens)?;
    let rest = expect(Mark::RightParen, rest)?;
    closed(Boxed::new(alloc, Stmt::Call { at, path, args })?, rest)
}

#[tactic(auto, unfolding(crate::specs::Reader::named))]
fn named<'a>(
    alloc: Global,
    limit: u32,
    depth: u32,
    at: Place,
    name: &Name,
    tokens: &'a [Token],
) -> Result<(Boxed<Stmt>, &'a [Token]), Stop>
    ensures { Gives (λ x. (x.0, x.1.now)) result (spec.named limit depth at name.now tokens.now) }
{
    let (path, rest) = reference(alloc, at, name, tokens)?;
    if is_at(Mark::LeftParen, rest) {
        call(alloc, limit, depth, at, path, &rest[1..])
    } else {
        assignment(alloc, limit, depth, at, path, rest)
    }
}

#[tactic(auto, unfolding(crate::specs::Reader::returned))]
fn returned(
    alloc: Global,
    limit: u32,
    depth: u32,
    at: Place,
    tokens: &[Token],
) -> Result<(Boxed<Stmt>, &[Token]), Stop>
    ensures { Gives (λ x. (x.0, x.1.now)) result (spec.returned limit depth at tokens.now) }
{
    if is_at(Mark::Semicolon, tokens) {
        return Ok((
            Boxed::new(alloc, Stmt::Return { at, value: None })?,
            &tokens[1..],
        ));
    }
    let (x, rest) = expression_in(alloc, limit, depth, tokens)?;
    let value = Some(x.into_inner());
    closed(Boxed::new(alloc, Stmt::Return { at, value })?, rest)
}

/// `$display` with nothing to print.
fn blank_line(alloc: Global, at: Place) -> Result<Boxed<Stmt>, AllocError>
    ensures { IfOk result (λ x. x ≡ spec.blank_line at) }
{
    let text = Text::new(Vec::new(alloc));
    let args = Items::new(alloc);
    Boxed::new(alloc, Stmt::Display { at, text, args })
}

#[tactic(auto, unfolding(crate::specs::Reader::display_of))]
fn display_of(
    alloc: Global,
    limit: u32,
    depth: u32,
    at: Place,
    tokens: &[Token],
) -> Result<(Boxed<Stmt>, &[Token]), Stop>
    ensures { Gives (λ x. (x.0, x.1.now)) result (spec.display_of limit depth at tokens.now) }
{
    if depth == 0 {
        return Err(Stop::Refused);
    }
    let text = text_first(alloc, tokens)?;
    let (args, rest) = others(alloc, limit, depth, Items::new(alloc), &tokens[1..])?;
    let rest = expect(Mark::RightParen, rest)?;
    closed(Boxed::new(alloc, Stmt::Display { at, text, args })?, rest)
}

#[tactic(auto, unfolding(crate::specs::Reader::display, crate::specs::Reader::display_in))]
fn display(
    alloc: Global,
    limit: u32,
    depth: u32,
    at: Place,
    tokens: &[Token],
) -> Result<(Boxed<Stmt>, &[Token]), Stop>
    ensures { Gives (λ x. (x.0, x.1.now)) result (spec.display limit depth at tokens.now) }
{
    if !is_at(Mark::LeftParen, tokens) {
        return closed(blank_line(alloc, at)?, tokens);
    }
    let rest = &tokens[1..];
    if is_at(Mark::RightParen, rest) {
        closed(blank_line(alloc, at)?, &rest[1..])
    } else {
        display_of(alloc, limit, depth, at, rest)
    }
}

#[tactic(auto, unfolding(crate::specs::Reader::finish))]
fn finish(alloc: Global, at: Place, tokens: &[Token]) -> Result<(Boxed<Stmt>, &[Token]), Stop>
    ensures { Gives (λ x. (x.0, x.1.now)) result (spec.finish at tokens.now) }
{
    if !is_at(Mark::LeftParen, tokens) {
        return closed(Boxed::new(alloc, Stmt::Finish { at })?, tokens);
    }
    let rest = expect(Mark::RightParen, past_number(&tokens[1..]))?;
    closed(Boxed::new(alloc, Stmt::Finish { at })?, rest)
}

#[tactic(auto, unfolding(crate::specs::Reader::task))]
fn task(
    alloc: Global,
    limit: u32,
    depth: u32,
    at: Place,
    what: Option<Task>,
    tokens: &[Token],
) -> Result<(Boxed<Stmt>, &[Token]), Stop>
    ensures { Gives (λ x. (x.0, x.1.now)) result (spec.task limit depth at what tokens.now) }
{
    match what {
        None => Err(Stop::Refused),
        Some(Task::Display) => display(alloc, limit, depth, at, tokens),
        Some(Task::Finish) => finish(alloc, at, tokens),
    }
}

/// A statement that has none inside.
#[tactic(auto, unfolding(crate::specs::Reader::simple))]
pub(crate) fn simple(
    alloc: Global,
    limit: u32,
    depth: u32,
    tokens: &[Token],
) -> Result<(Boxed<Stmt>, &[Token]), Stop>
    ensures { Gives (λ x. (x.0, x.1.now)) result (spec.simple limit depth tokens.now) }
{
    let [Token { kind, at }, rest @ ..] = tokens else {
        return Err(Stop::Refused);
    };
    match kind {
        TokenKind::Mark(Mark::Semicolon) => Ok((Boxed::new(alloc, Stmt::Null { at: *at })?, rest)),
        TokenKind::Word(Word::Return) => returned(alloc, limit, depth, *at, rest),
        TokenKind::Word(Word::Break) => closed(Boxed::new(alloc, Stmt::Break { at: *at })?, rest),
        TokenKind::Word(Word::Continue) => closed(
            Boxed::new(alloc, Stmt::Continue { at: *at })?,
            rest,
        ),
        TokenKind::Name(name) => named(alloc, limit, depth, *at, name, rest),
        TokenKind::System(name) => task(alloc, limit, depth, *at, task_of(name), rest),
        _ => Err(Stop::Refused),
    }
}
