// Statements, by descent with one token of look-ahead. `depth` bounds the open nodes, `limit` the links of a chain. A chain of
// `else` is read by a loop, so reading goes no deeper than the open nodes.
ghost use Rattle.std.specs.Prelude.{◌≡◌, ◌+◌, ⊤, true, length, [], ◌∷◌, Some, IfOk};
ghost use Rattle.nt_ast.specs.declared.stmt.Stmt.TheVariants as s;
ghost use Rattle.nt_read_stmt.specs.Reader as spec;
ghost use Rattle.nt_read_stmt.specs.Reader.{inside};
ghost use Rattle.nt_read_expr.specs.Gives.{Gives};
ghost use Rattle.nt_read_expr.specs.Reader.{below, whole};

use crate::build::{Arm, Link, case_tree, if_tree, linked};
use crate::front::{Form, expect_word, form_of, is_word, past_colon, past_label};
use crate::lead::with_body;
use crate::leads::lead;
use crate::simple::{simple, tested};
use nt_ast::{Expr, Stmt};
use nt_lexer::{Mark, Token, Word};
use nt_read_expr::{ItemReader, Separator, Stop, expect, expression_in, list_of, start};
use nt_value::Place;
use sqlite_items::{Boxed, Items};
use std::alloc::{AllocError, Global};

/// What is read of a chain of `else` in one turn.
#[derive(Drop)]
enum Piece {
    /// The next link, with its `else`.
    Goes(Link),
    /// The statement that ends the chain.
    Ends(Boxed<Stmt>),
}

/// A statement inside a statement.
#[cycle(stating)]
fn nested(
    alloc: Global,
    limit: u32,
    depth: u32,
    tokens: &[Token],
) -> Result<(Boxed<Stmt>, &[Token]), Stop>
    ensures { Gives (λ x. (x.0, x.1.now)) result (inside limit depth tokens.now) }
{
    if depth == 0 {
        return Err(Stop::Refused);
    }
    statement_in(alloc, limit, depth - 1, tokens)
}

#[cycle(stating)]
#[tactic(auto, unfolding(crate::specs::Reader::led))]
fn led(
    alloc: Global,
    limit: u32,
    depth: u32,
    tokens: &[Token],
) -> Result<(Boxed<Stmt>, &[Token]), Stop>
    ensures { Gives (λ x. (x.0, x.1.now)) result (spec.led limit depth (inside limit depth) tokens.now) }
{
    let at = start(tokens);
    let (lead, rest) = lead(alloc, limit, depth, tokens)?;
    let (body, rest) = nested(alloc, limit, depth, rest)?;
    Ok((with_body(alloc, at, lead, body)?, rest))
}

/// The statements of a block, and its `end`.
#[cycle(stating)]
fn statements(
    alloc: Global,
    limit: u32,
    depth: u32,
    tokens: &[Token],
) -> Result<(Items<Stmt>, &[Token]), Stop>
    ensures { Gives (λ x. (x.0, x.1.now)) result (spec.statements limit depth (inside limit depth) (length tokens.now + 1) [] tokens.now) }
{
    let mut all = Items::new(alloc);
    let mut rest = tokens;
    for _turn in 0..tokens.len() {
        if is_word(Word::End, rest) {
            return Ok((all, &rest[1..]));
        }
        let (x, after) = nested(alloc, limit, depth, rest)?;
        all.push(x.into_inner())?;
        rest = after;
    }
    let rest = expect_word(Word::End, rest)?;
    Ok((all, rest))
}

#[cycle(stating)]
#[tactic(auto, unfolding(crate::specs::Reader::block))]
fn block(
    alloc: Global,
    limit: u32,
    depth: u32,
    at: Place,
    tokens: &[Token],
) -> Result<(Boxed<Stmt>, &[Token]), Stop>
    ensures { Gives (λ x. (x.0, x.1.now)) result (spec.block limit depth (inside limit depth) at tokens.now) }
{
    let rest = past_label(tokens)?;
    let (items, rest) = statements(alloc, limit, depth, rest)?;
    let rest = past_label(rest)?;
    Ok((Boxed::new(alloc, Stmt::Block { at, items })?, rest))
}

/// What reads a value of an arm, which opens no node.
#[derive(Clone, Copy)]
struct ValueReader {
    alloc: Global,
    limit: u32,
    depth: u32,
}

impl ItemReader for ValueReader {
    type Item = Expr;

    ghost can_read = { λ _. ⊤ };

    ghost reads = { λ s. whole s.limit (below s.limit s.depth) };

    fn read_item<'a>(&self, tokens: &'a [Token]) -> Result<(Expr, &'a [Token]), Stop> {
        let (x, rest) = expression_in(self.alloc, self.limit, self.depth, tokens)?;
        Ok((x.into_inner(), rest))
    }
}

/// The values of an arm.
fn values(
    alloc: Global,
    limit: u32,
    depth: u32,
    tokens: &[Token],
) -> Result<(Items<Expr>, &[Token]), Stop>
    ensures { Gives (λ x. (x.0, x.1.now)) result (spec.values limit depth tokens.now) }
{
    let reader = ValueReader {
        alloc,
        limit,
        depth,
    };
    list_of(alloc, Separator::Comma, &reader, tokens)
}

/// Whether an arm begins here.
fn arm_first(tokens: &[Token]) -> bool
    ensures { result ≡ spec.arm_first tokens.now }
{
    if is_word(Word::Default, tokens) {
        false
    } else {
        !is_word(Word::EndCase, tokens)
    }
}

#[cycle(stating)]
#[tactic(auto, unfolding(crate::specs::Reader::arm))]
fn arm(
    alloc: Global,
    limit: u32,
    depth: u32,
    tokens: &[Token],
) -> Result<((Items<Expr>, Boxed<Stmt>), &[Token]), Stop>
    ensures { Gives (λ x. (x.0, x.1.now)) result (spec.arm limit depth (inside limit depth) tokens.now) }
{
    let (found, rest) = values(alloc, limit, depth, tokens)?;
    let rest = expect(Mark::Colon, rest)?;
    let (body, rest) = nested(alloc, limit, depth, rest)?;
    Ok(((found, body), rest))
}

/// The arms of a case statement.
#[cycle(stating)]
fn arms(
    alloc: Global,
    limit: u32,
    depth: u32,
    tokens: &[Token],
) -> Result<(Items<Arm>, &[Token]), Stop>
    ensures { Gives (λ x. (x.0, x.1.now)) result (spec.arms limit depth (inside limit depth) (length tokens.now + 1) [] tokens.now) }
{
    let mut all = Items::new(alloc);
    let mut rest = tokens;
    for _turn in 0..tokens.len() {
        if !arm_first(rest) {
            return Ok((all, rest));
        }
        let (x, after) = arm(alloc, limit, depth, rest)?;
        all.push((x.0, x.1.into_inner()))?;
        rest = after;
    }
    if arm_first(rest) {
        return Err(Stop::Refused);
    }
    Ok((all, rest))
}

/// What a case statement does where no arm fits.
#[cycle(stating)]
#[tactic(auto, unfolding(crate::specs::Reader::default))]
fn default(
    alloc: Global,
    limit: u32,
    depth: u32,
    tokens: &[Token],
) -> Result<(Option<Boxed<Stmt>>, &[Token]), Stop>
    ensures { Gives (λ x. (x.0, x.1.now)) result (spec.default limit depth (inside limit depth) tokens.now) }
{
    if !is_word(Word::Default, tokens) {
        return Ok((None, tokens));
    }
    let (body, rest) = nested(alloc, limit, depth, past_colon(&tokens[1..]))?;
    Ok((Some(body), rest))
}

#[cycle(stating)]
#[tactic(auto, unfolding(crate::specs::Reader::case_of))]
fn case_of(
    alloc: Global,
    limit: u32,
    depth: u32,
    at: Place,
    tokens: &[Token],
) -> Result<(Boxed<Stmt>, &[Token]), Stop>
    ensures { Gives (λ x. (x.0, x.1.now)) result (spec.case_of limit depth (inside limit depth) at tokens.now) }
{
    let (test, rest) = tested(alloc, limit, depth, tokens)?;
    let (arms, rest) = arms(alloc, limit, depth, rest)?;
    let (other, rest) = default(alloc, limit, depth, rest)?;
    let rest = expect_word(Word::EndCase, rest)?;
    Ok((case_tree(alloc, at, test, arms, other)?, rest))
}

/// An `if` after its word, up to the `else` that follows its statement, or whole where none does.
#[cycle(stating)]
#[tactic(auto, unfolding(crate::specs::Reader::choice_turn))]
fn choice_turn(
    alloc: Global,
    limit: u32,
    depth: u32,
    at: Place,
    tokens: &[Token],
) -> Result<(Piece, &[Token]), Stop>
    ensures { Gives (λ x. (x.0, x.1.now)) result (spec.choice_turn limit depth (inside limit depth) at tokens.now) }
{
    let (test, rest) = tested(alloc, limit, depth, tokens)?;
    let (yes, rest) = nested(alloc, limit, depth, rest)?;
    if is_word(Word::Else, rest) {
        return Ok((Piece::Goes(Link { at, test, yes }), &rest[1..]));
    }
    let tree = if_tree(alloc, at, test, yes, None)?;
    Ok((Piece::Ends(tree), rest))
}

/// A statement up to the first `else` of its chain, or whole where it has none.
#[cycle(stating)]
#[tactic(auto, unfolding(crate::specs::Reader::turn))]
fn turn(alloc: Global, limit: u32, depth: u32, tokens: &[Token]) -> Result<(Piece, &[Token]), Stop>
    ensures { Gives (λ x. (x.0, x.1.now)) result (spec.turn limit depth (inside limit depth) tokens.now) }
{
    let [first, rest @ ..] = tokens else {
        return Err(Stop::Refused);
    };
    match form_of(&first.kind) {
        Form::Choice => choice_turn(alloc, limit, depth, first.at, rest),
        Form::Block => {
            let (x, rest) = block(alloc, limit, depth, first.at, rest)?;
            Ok((Piece::Ends(x), rest))
        }
        Form::Case => {
            let (x, rest) = case_of(alloc, limit, depth, first.at, rest)?;
            Ok((Piece::Ends(x), rest))
        }
        Form::Led => {
            let (x, rest) = led(alloc, limit, depth, tokens)?;
            Ok((Piece::Ends(x), rest))
        }
        Form::Simple => {
            let (x, rest) = simple(alloc, limit, depth, tokens)?;
            Ok((Piece::Ends(x), rest))
        }
    }
}

/// A statement with at most `depth` open nodes over one another, and at most `limit` links in a chain, whatever follows it (IEEE
/// 1800-2017, A.6.4).
///
/// # Errors
///
/// `Refused` where no such statement is read, `Memory` where memory ran out.
#[cycle(stating)]
pub fn statement_in(
    alloc: Global,
    limit: u32,
    depth: u32,
    tokens: &[Token],
) -> Result<(Boxed<Stmt>, &[Token]), Stop>
    ensures { Gives (λ x. (x.0, x.1.now)) result (spec.statement limit depth (inside limit depth) (limit + 1) tokens.now) }
{
    let mut links = Items::new(alloc);
    let mut rest = tokens;
    let turns = u64::from(limit) + 1;
    for _turn in 0..turns {
        let (piece, after) = turn(alloc, limit, depth, rest)?;
        match piece {
            Piece::Goes(link) => links.push(link)?,
            Piece::Ends(last) => return Ok((linked(alloc, links, last)?, after)),
        }
        rest = after;
    }
    Err(Stop::Refused)
}
