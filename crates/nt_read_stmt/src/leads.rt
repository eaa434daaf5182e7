// What stands before the one statement inside a statement. `depth` bounds the open nodes, `limit` the links of a chain.
ghost use Rattle.std.specs.Prelude.{◌≡◌, ⊤, [], ◌∷◌, Some};
ghost use Rattle.nt_read_stmt.specs.Reader as spec;
ghost use Rattle.nt_read_expr.specs.Gives.{Gives};

use crate::front::{edge_first, is_word, past_int, take_name};
use crate::lead::Lead;
use crate::simple::{tested, value};
use nt_ast::{Expr, Path, Stmt};
use nt_lexer::{Mark, Token, TokenKind, Word};
use nt_read_expr::{
    ItemReader, Separator, Stop, expect, expression_in, is_at, list_of, reference, start,
};
use nt_value::{Edge, Name, Place};
use sqlite_items::{Boxed, Items};
use std::alloc::Global;

#[tactic(auto, unfolding(crate::specs::Reader::foreach))]
fn foreach(alloc: Global, tokens: &[Token]) -> Result<(Lead, &[Token]), Stop>
    ensures { Gives (λ x. (x.0, x.1.now)) result (spec.foreach tokens.now) }
{
    let rest = expect(Mark::LeftParen, tokens)?;
    let array_at = start(rest);
    let (array, rest) = take_name(alloc, rest)?;
    let rest = expect(Mark::LeftBracket, rest)?;
    let index_at = start(rest);
    let (index, rest) = take_name(alloc, rest)?;
    let rest = expect(Mark::RightBracket, rest)?;
    let rest = expect(Mark::RightParen, rest)?;
    Ok((
        Lead::Foreach {
            array_at,
            array,
            index_at,
            index,
        },
        rest,
    ))
}

/// The name and the first value of the variable of `for`.
#[tactic(auto, unfolding(crate::specs::Reader::entering))]
fn entering(
    alloc: Global,
    limit: u32,
    depth: u32,
    tokens: &[Token],
) -> Result<(Name, Boxed<Expr>, &[Token]), Stop>
    ensures { Gives (λ x. (x.0, x.1, x.2.now)) result (spec.entering limit depth tokens.now) }
{
    let (name, rest) = take_name(alloc, tokens)?;
    let rest = expect(Mark::Assign, rest)?;
    let (first, rest) = expression_in(alloc, limit, depth, rest)?;
    let rest = expect(Mark::Semicolon, rest)?;
    Ok((name, first, rest))
}

/// A name as a tree.
fn plain_read(alloc: Global, at: Place, name: &Name) -> Result<Boxed<Expr>, Stop>
    ensures { Gives (λ x. x) result (Some (spec.plain_read at name.now)) }
{
    let name = name.copy(alloc)?;
    let path = Path {
        at,
        scope: None,
        name,
    };
    Ok(Boxed::new(alloc, Expr::Read { at, path })?)
}

/// The step of `for`.
#[tactic(auto, unfolding(crate::specs::Reader::step))]
fn step(
    alloc: Global,
    limit: u32,
    depth: u32,
    tokens: &[Token],
) -> Result<(Boxed<Stmt>, &[Token]), Stop>
    ensures { Gives (λ x. (x.0, x.1.now)) result (spec.step limit depth tokens.now) }
{
    let at = start(tokens);
    let (name, rest) = take_name(alloc, tokens)?;
    let left = plain_read(alloc, at, &name)?;
    let (right, rest) = value(alloc, limit, depth, at, left.get(), rest)?;
    let left = left.into_inner();
    let right = right.into_inner();
    Ok((Boxed::new(alloc, Stmt::Assign { at, left, right })?, rest))
}

/// What `for` writes after its first value.
#[tactic(auto, unfolding(crate::specs::Reader::stepping))]
fn stepping(
    alloc: Global,
    limit: u32,
    depth: u32,
    fresh: bool,
    name_at: Place,
    name: Name,
    first: Boxed<Expr>,
    tokens: &[Token],
) -> Result<(Lead, &[Token]), Stop>
    ensures { Gives (λ x. (x.0, x.1.now)) result (spec.stepping limit depth fresh name_at name first tokens.now) }
{
    let (test, rest) = expression_in(alloc, limit, depth, tokens)?;
    let rest = expect(Mark::Semicolon, rest)?;
    let (step, rest) = step(alloc, limit, depth, rest)?;
    let rest = expect(Mark::RightParen, rest)?;
    Ok((
        Lead::For {
            fresh,
            name_at,
            name,
            first,
            test,
            step,
        },
        rest,
    ))
}

#[tactic(auto, unfolding(crate::specs::Reader::for_lead))]
fn for_lead(
    alloc: Global,
    limit: u32,
    depth: u32,
    tokens: &[Token],
) -> Result<(Lead, &[Token]), Stop>
    ensures { Gives (λ x. (x.0, x.1.now)) result (spec.for_lead limit depth tokens.now) }
{
    let rest = expect(Mark::LeftParen, tokens)?;
    let fresh = is_word(Word::Int, rest);
    let rest = past_int(rest);
    let name_at = start(rest);
    let (name, first, rest) = entering(alloc, limit, depth, rest)?;
    stepping(alloc, limit, depth, fresh, name_at, name, first, rest)
}

/// What `#` waits for.
#[tactic(auto, unfolding(crate::specs::Reader::delay))]
fn delay(alloc: Global, limit: u32, depth: u32, tokens: &[Token]) -> Result<(Lead, &[Token]), Stop>
    ensures { Gives (λ x. (x.0, x.1.now)) result (spec.delay limit depth tokens.now) }
{
    match tokens {
        [
            Token {
                kind: TokenKind::Number(value),
                at,
            },
            rest @ ..,
        ] => Ok((
            Lead::Delay(Boxed::new(
                alloc,
                Expr::Literal {
                    at: *at,
                    value: *value,
                },
            )?),
            rest,
        )),
        [
            Token {
                kind: TokenKind::Name(name),
                at,
            },
            rest @ ..,
        ] => {
            let (path, rest) = reference(alloc, *at, name, rest)?;
            let read = Boxed::new(alloc, Expr::Read { at: *at, path })?;
            Ok((Lead::Delay(read), rest))
        }
        _ => {
            let (x, rest) = tested(alloc, limit, depth, tokens)?;
            Ok((Lead::Delay(x), rest))
        }
    }
}

/// What reads an event.
#[derive(Clone, Copy)]
struct EventReader {
    alloc: Global,
    limit: u32,
    depth: u32,
}

impl ItemReader for EventReader {
    type Item = (Edge, Expr);

    ghost can_read = { λ _. ⊤ };

    ghost reads = { λ s. spec.event s.limit s.depth };

    #[tactic(auto, unfolding(crate::specs::Reader::event))]
    fn read_item<'a>(&self, tokens: &'a [Token]) -> Result<((Edge, Expr), &'a [Token]), Stop> {
        let Some(edge) = edge_first(tokens) else {
            let (x, rest) = expression_in(self.alloc, self.limit, self.depth, tokens)?;
            return Ok(((Edge::Any, x.into_inner()), rest));
        };
        let (x, rest) = expression_in(self.alloc, self.limit, self.depth, &tokens[1..])?;
        Ok(((edge, x.into_inner()), rest))
    }
}

#[tactic(auto, unfolding(crate::specs::Reader::events))]
fn events(alloc: Global, limit: u32, depth: u32, tokens: &[Token]) -> Result<(Lead, &[Token]), Stop>
    ensures { Gives (λ x. (x.0, x.1.now)) result (spec.events limit depth tokens.now) }
{
    let reader = EventReader {
        alloc,
        limit,
        depth,
    };
    let (on, rest) = list_of(alloc, Separator::CommaOrWord, &reader, tokens)?;
    let rest = expect(Mark::RightParen, rest)?;
    Ok((Lead::Event { any: false, on }, rest))
}

/// What `@` waits for in brackets.
#[tactic(auto, unfolding(crate::specs::Reader::event_in))]
fn event_in(
    alloc: Global,
    limit: u32,
    depth: u32,
    tokens: &[Token],
) -> Result<(Lead, &[Token]), Stop>
    ensures { Gives (λ x. (x.0, x.1.now)) result (spec.event_in limit depth tokens.now) }
{
    if !is_at(Mark::Star, tokens) {
        return events(alloc, limit, depth, tokens);
    }
    let rest = expect(Mark::RightParen, &tokens[1..])?;
    Ok((
        Lead::Event {
            any: true,
            on: Items::new(alloc),
        },
        rest,
    ))
}

/// What `@` waits for.
#[tactic(auto, unfolding(crate::specs::Reader::control))]
fn control(
    alloc: Global,
    limit: u32,
    depth: u32,
    tokens: &[Token],
) -> Result<(Lead, &[Token]), Stop>
    ensures { Gives (λ x. (x.0, x.1.now)) result (spec.control limit depth tokens.now) }
{
    let [Token { kind, at }, rest @ ..] = tokens else {
        return Err(Stop::Refused);
    };
    match kind {
        TokenKind::Name(name) => {
            let mut on = Items::new(alloc);
            let read = plain_read(alloc, *at, name)?;
            on.push((Edge::Any, read.into_inner()))?;
            Ok((Lead::Event { any: false, on }, rest))
        }
        TokenKind::Mark(Mark::Star) => Ok((
            Lead::Event {
                any: true,
                on: Items::new(alloc),
            },
            rest,
        )),
        TokenKind::Mark(Mark::LeftParen) => event_in(alloc, limit, depth, rest),
        _ => Err(Stop::Refused),
    }
}

/// What stands before the one statement inside.
#[tactic(auto, unfolding(crate::specs::Reader::lead))]
pub(crate) fn lead(
    alloc: Global,
    limit: u32,
    depth: u32,
    tokens: &[Token],
) -> Result<(Lead, &[Token]), Stop>
    ensures { Gives (λ x. (x.0, x.1.now)) result (spec.lead limit depth tokens.now) }
{
    let [Token { kind, .. }, rest @ ..] = tokens else {
        return Err(Stop::Refused);
    };
    match kind {
        TokenKind::Word(Word::While) => {
            let (test, rest) = tested(alloc, limit, depth, rest)?;
            Ok((Lead::While(test), rest))
        }
        TokenKind::Word(Word::Repeat) => {
            let (count, rest) = tested(alloc, limit, depth, rest)?;
            Ok((Lead::Repeat(count), rest))
        }
        TokenKind::Word(Word::Wait) => {
            let (test, rest) = tested(alloc, limit, depth, rest)?;
            Ok((Lead::Wait(test), rest))
        }
        TokenKind::Word(Word::Forever) => Ok((Lead::Forever, rest)),
        TokenKind::Word(Word::Foreach) => foreach(alloc, rest),
        TokenKind::Word(Word::For) => for_lead(alloc, limit, depth, rest),
        TokenKind::Mark(Mark::Hash) => delay(alloc, limit, depth, rest),
        TokenKind::Mark(Mark::At) => control(alloc, limit, depth, rest),
        _ => Err(Stop::Refused),
    }
}
