// Connections of ports and parameters.
ghost use Rattle.std.specs.Prelude.{◌≡◌, ⊤, [], ◌∷◌, ◌++◌, Some, None, IfOk};
ghost use Rattle.nt_read_expr.specs.Gives.{Gives};
ghost use Rattle.nt_read_item.specs.Tables as tables;
ghost use Rattle.nt_read_item.specs.Reader as spec;

use nt_ast::{Expr, Path};
use nt_items::Conn;
use nt_lexer::{Mark, Token};
use nt_read_expr::{ItemReader, Separator, Stop, expect, expression_in, is_at, list_of, start};
use nt_read_stmt::take_name;
use nt_read_unit::{GroupReader, groups_of};
use nt_value::{Name, Place};
use sqlite_items::{Boxed, Items};
use std::alloc::{AllocError, Global};

/// A name as an expression.
fn name_read(alloc: Global, at: Place, name: &Name) -> Result<Boxed<Expr>, AllocError>
    ensures { IfOk result (λ x. x ≡ tables.name_read at name.now) }
{
    let name = name.copy(alloc)?;
    let path = Path {
        at,
        scope: None,
        name,
    };
    Boxed::new(alloc, Expr::Read { at, path })
}

/// A connection by name after its opening bracket.
#[tactic(auto, unfolding(crate::specs::Reader::conn_value))]
fn conn_value(
    alloc: Global,
    limit: u32,
    at: Place,
    name: Name,
    tokens: &[Token],
) -> Result<(Conn, &[Token]), Stop>
    ensures { Gives (λ x. (x.0, x.1.now)) result (spec.conn_value limit at name tokens.now) }
{
    let name = Some(name);
    if is_at(Mark::RightParen, tokens) {
        return Ok((
            Conn {
                at,
                name,
                value: None,
            },
            &tokens[1..],
        ));
    }
    let (x, rest) = expression_in(alloc, limit, limit, tokens)?;
    let rest = expect(Mark::RightParen, rest)?;
    Ok((
        Conn {
            at,
            name,
            value: Some(x),
        },
        rest,
    ))
}

/// A connection by name after that; `place` is the name's.
#[tactic(auto, unfolding(crate::specs::Reader::conn_named))]
fn conn_named(
    alloc: Global,
    limit: u32,
    at: Place,
    place: Place,
    name: Name,
    tokens: &[Token],
) -> Result<(Conn, &[Token]), Stop>
    ensures { Gives (λ x. (x.0, x.1.now)) result (spec.conn_named limit at place name tokens.now) }
{
    if is_at(Mark::LeftParen, tokens) {
        return conn_value(alloc, limit, at, name, &tokens[1..]);
    }
    let value = Some(name_read(alloc, place, &name)?);
    let name = Some(name);
    Ok((Conn { at, name, value }, tokens))
}

/// What reads connections.
#[derive(Clone, Copy)]
struct ConnReader {
    alloc: Global,
    limit: u32,
}

/// By name.
impl ItemReader for ConnReader {
    type Item = Conn;

    ghost can_read = { λ _. ⊤ };

    ghost reads = { λ s. spec.named_conn s.limit };

    #[tactic(auto, unfolding(crate::specs::Reader::named_conn))]
    fn read_item<'a>(&self, tokens: &'a [Token]) -> Result<(Conn, &'a [Token]), Stop> {
        let at = start(tokens);
        let rest = expect(Mark::Dot, tokens)?;
        let place = start(rest);
        let (name, rest) = take_name(self.alloc, rest)?;
        conn_named(self.alloc, self.limit, at, place, name, rest)
    }
}

/// A list of this connection alone.
fn one_conn(alloc: Global, at: Place, value: Option<Boxed<Expr>>) -> Result<Items<Conn>, AllocError>
    ensures { IfOk result (λ xs. xs ≡ record { at = at; name = None; value = value } ∷ []) }
{
    let mut all = Items::new(alloc);
    all.push(Conn {
        at,
        name: None,
        value,
    })?;
    Ok(all)
}

/// Whether no expression follows the mark of a connection.
#[tactic(auto, unfolding(crate::specs::Reader::slot_ends))]
fn slot_ends(tokens: &[Token]) -> bool
    ensures { result ≡ spec.slot_ends tokens.now }
{
    if is_at(Mark::Comma, tokens) {
        true
    } else {
        is_at(Mark::RightParen, tokens)
    }
}

/// A connection by order, after a comma.
#[tactic(auto, unfolding(crate::specs::Reader::slot))]
fn slot(alloc: Global, limit: u32, tokens: &[Token]) -> Result<(Items<Conn>, &[Token]), Stop>
    ensures { Gives (λ x. (x.0, x.1.now)) result (spec.slot limit tokens.now) }
{
    let at = start(tokens);
    let rest = expect(Mark::Comma, tokens)?;
    if slot_ends(rest) {
        return Ok((one_conn(alloc, at, None)?, rest));
    }
    let at = start(rest);
    let (x, rest) = expression_in(alloc, limit, limit, rest)?;
    Ok((one_conn(alloc, at, Some(x))?, rest))
}

/// By order.
impl GroupReader for ConnReader {
    type Item = Conn;

    ghost can_read = { λ _. ⊤ };

    ghost goes_on = { λ _. spec.slot_goes };

    ghost reads = { λ s. spec.slot s.limit };

    #[tactic(auto, unfolding(crate::specs::Reader::slot_goes))]
    fn goes(&self, tokens: &[Token]) -> bool {
        is_at(Mark::Comma, tokens)
    }

    fn read_group<'a>(&self, tokens: &'a [Token]) -> Result<(Items<Conn>, &'a [Token]), Stop> {
        slot(self.alloc, self.limit, tokens)
    }
}

#[tactic(auto, unfolding(crate::specs::Reader::by_name))]
fn by_name(alloc: Global, limit: u32, tokens: &[Token]) -> Result<(Items<Conn>, &[Token]), Stop>
    ensures { Gives (λ x. (x.0, x.1.now)) result (spec.by_name limit tokens.now) }
{
    let reader = ConnReader { alloc, limit };
    let (all, rest) = list_of(alloc, Separator::Comma, &reader, tokens)?;
    let rest = expect(Mark::RightParen, rest)?;
    Ok((all, rest))
}

#[tactic(auto, unfolding(crate::specs::Reader::after_hole))]
fn after_hole(
    alloc: Global,
    limit: u32,
    at: Place,
    tokens: &[Token],
) -> Result<(Items<Conn>, &[Token]), Stop>
    ensures { Gives (λ x. (x.0, x.1.now)) result (spec.after_hole limit at tokens.now) }
{
    let reader = ConnReader { alloc, limit };
    let mut all = one_conn(alloc, at, None)?;
    let (second, rest) = slot(alloc, limit, tokens)?;
    let (more, rest) = groups_of(alloc, &reader, rest)?;
    let rest = expect(Mark::RightParen, rest)?;
    all.append(second)?;
    all.append(more)?;
    Ok((all, rest))
}

#[tactic(auto, unfolding(crate::specs::Reader::by_order))]
fn by_order(alloc: Global, limit: u32, tokens: &[Token]) -> Result<(Items<Conn>, &[Token]), Stop>
    ensures { Gives (λ x. (x.0, x.1.now)) result (spec.by_order limit tokens.now) }
{
    let reader = ConnReader { alloc, limit };
    let at = start(tokens);
    let (x, rest) = expression_in(alloc, limit, limit, tokens)?;
    let (more, rest) = groups_of(alloc, &reader, rest)?;
    let rest = expect(Mark::RightParen, rest)?;
    let mut all = one_conn(alloc, at, Some(x))?;
    all.append(more)?;
    Ok((all, rest))
}

/// Connections and their brackets.
#[tactic(auto, unfolding(crate::specs::Reader::conns, crate::specs::Reader::conns_in))]
pub(crate) fn conns(
    alloc: Global,
    limit: u32,
    tokens: &[Token],
) -> Result<(Items<Conn>, &[Token]), Stop>
    ensures { Gives (λ x. (x.0, x.1.now)) result (spec.conns limit tokens.now) }
{
    let at = start(tokens);
    let rest = expect(Mark::LeftParen, tokens)?;
    if is_at(Mark::RightParen, rest) {
        return Ok((Items::new(alloc), &rest[1..]));
    }
    if is_at(Mark::Dot, rest) {
        return by_name(alloc, limit, rest);
    }
    if is_at(Mark::Comma, rest) {
        return after_hole(alloc, limit, at, rest);
    }
    by_order(alloc, limit, rest)
}

/// Connections of parameters, after a `#`, where they are written.
#[tactic(auto, unfolding(crate::specs::Reader::maybe_params))]
pub(crate) fn maybe_params(
    alloc: Global,
    limit: u32,
    tokens: &[Token],
) -> Result<(Items<Conn>, &[Token]), Stop>
    ensures { Gives (λ x. (x.0, x.1.now)) result (spec.maybe_params limit tokens.now) }
{
    if is_at(Mark::Hash, tokens) {
        conns(alloc, limit, &tokens[1..])
    } else {
        Ok((Items::new(alloc), tokens))
    }
}
