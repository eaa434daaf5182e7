// Expressions, by descent with one token of look-ahead, and two for `.` and keys. `depth` bounds the open nodes, `limit` the
// operators and selects of a chain.
ghost use Rattle.std.specs.Prelude.{◌≡◌, ◌+◌, ◌≤◌, ◌<◌, false, true, suc, length, [], ◌∷◌, IfOk, Some, nat_lt};
ghost use Rattle.nt_ast.specs.declared.expr.Expr.TheVariants as e;
ghost use Rattle.nt_read_expr.specs.Reader as spec;
ghost use Rattle.nt_read_expr.specs.Reader.{below};
ghost use Rattle.nt_read_expr.specs.Gives.{Gives};
ghost use Rattle.nt_read_expr.specs.Nests.{Nests};
ghost use Rattle.nt_read_expr.specs.declared.list.Separator.TheVariants.{Comma};

use crate::build::{binary_tree, choose_tree, indexed_tree, part_tree};
use crate::front::{
    System, binary_at, expect, is_at, is_sized, key_first, member_first, past_parens, reference,
    start, system_of, unary_of, upward,
};
use crate::list::{ItemReader, Separator, list_of, more_of};
use crate::stop::Stop;
use nt_ast::{Expr, Key, Path};
use nt_lexer::{Mark, Token, TokenKind};
use nt_value::{Name, Place, Unary};
use sqlite_items::{Boxed, Items};
use std::alloc::Global;

/// The level of the operators that bind least.
const MAX_LEVEL: u8 = 10;

/// The rules of an expression with at most `depth` open nodes, over what reads one level deeper: a whole expression, or
/// an operand where the bool holds.
#[derive(Clone, Copy)]
pub struct Grammar<F> {
    alloc: Global,
    limit: u32,
    depth: u32,
    inner: F,
}

/// What reads the items of a pattern: with keys where the bool holds.
#[derive(Clone, Copy)]
struct Entries<'g, F> {
    rules: &'g Grammar<F>,
    keyed: bool,
}

/// `.size` where it follows.
#[tactic(auto, unfolding(crate::specs::Reader::sized))]
fn sized(
    alloc: Global,
    at: Place,
    of: Boxed<Expr>,
    tokens: &[Token],
) -> Result<(Boxed<Expr>, &[Token]), Stop>
    ensures { Gives (λ x. (x.0, x.1.now)) result (spec.sized at of tokens.now) }
{
    if !is_sized(tokens) {
        return Ok((of, tokens));
    }
    Ok((
        Boxed::new(alloc, Expr::Size { at, of })?,
        past_parens(&tokens[2..]),
    ))
}

/// The items are expressions in an open node.
impl<F: Fn(Global, u32, u32, bool, &[Token]) -> Result<(Boxed<Expr>, &[Token]), Stop>> ItemReader
    for Grammar<F> {
    type Item = Expr;

    ghost can_read = { λ s. Nests s.limit s.depth (F.pre s.inner) (F.post s.inner) };

    ghost reads = { λ s. (below s.limit s.depth).whole };

    fn read_item<'a>(&self, tokens: &'a [Token]) -> Result<(Expr, &'a [Token]), Stop> {
        let (x, rest) = self.nested(tokens)?;
        Ok((x.into_inner(), rest))
    }
}

impl<
    'g,
    F: Fn(Global, u32, u32, bool, &[Token]) -> Result<(Boxed<Expr>, &[Token]), Stop>,
> ItemReader for Entries<'g, F> {
    type Item = (Option<Key>, Expr);

    ghost can_read = { λ s. Nests s.rules.now.limit s.rules.now.depth (F.pre s.rules.now.inner) (F.post s.rules.now.inner) };

    ghost reads = { λ s. spec.entry s.rules.now.limit (below s.rules.now.limit s.rules.now.depth) s.keyed };

    #[tactic(auto, unfolding(crate::specs::Reader::entry))]
    fn read_item<'a>(
        &self,
        tokens: &'a [Token],
    ) -> Result<((Option<Key>, Expr), &'a [Token]), Stop> {
        if self.keyed {
            let Some(key) = key_first(self.rules.alloc, tokens)? else {
                return Err(Stop::Refused);
            };
            let (x, rest) = self.rules.nested(&tokens[2..])?;
            Ok(((Some(key), x.into_inner()), rest))
        } else {
            let (x, rest) = self.rules.nested(tokens)?;
            Ok(((None, x.into_inner()), rest))
        }
    }
}

impl<F: Fn(Global, u32, u32, bool, &[Token]) -> Result<(Boxed<Expr>, &[Token]), Stop>> Grammar<F> {
    fn nested<'a>(&self, tokens: &'a [Token]) -> Result<(Boxed<Expr>, &'a [Token]), Stop>
        requires nests { Nests self.now.limit self.now.depth (F.pre self.now.inner) (F.post self.now.inner) }
        ensures { Gives (λ x. (x.0, x.1.now)) result ((below self.now.limit self.now.depth).whole tokens.now) }
    {
        (self.inner)(self.alloc, self.limit, self.depth, false, tokens)
    }

    fn nested_operand<'a>(&self, tokens: &'a [Token]) -> Result<(Boxed<Expr>, &'a [Token]), Stop>
        requires nests { Nests self.now.limit self.now.depth (F.pre self.now.inner) (F.post self.now.inner) }
        ensures { Gives (λ x. (x.0, x.1.now)) result ((below self.now.limit self.now.depth).operand tokens.now) }
    {
        (self.inner)(self.alloc, self.limit, self.depth, true, tokens)
    }

    #[tactic(auto, unfolding(crate::specs::Reader::closing))]
    fn part<'a>(
        &self,
        at: Place,
        of: Boxed<Expr>,
        left: Boxed<Expr>,
        tokens: &'a [Token],
    ) -> Result<(Boxed<Expr>, &'a [Token]), Stop>
        requires nests { Nests self.now.limit self.now.depth (F.pre self.now.inner) (F.post self.now.inner) }
        ensures { Gives (λ x. (x.0, x.1.now)) result (spec.closing self.now.limit (below self.now.limit self.now.depth) (λ z. e.Part at of left z) tokens.now) }
    {
        let (right, rest) = self.nested(tokens)?;
        let rest = expect(Mark::RightBracket, rest)?;
        Ok((part_tree(self.alloc, at, of, left, right)?, rest))
    }

    #[tactic(auto, unfolding(crate::specs::Reader::direction, crate::specs::Reader::closing))]
    fn indexed<'a>(
        &self,
        at: Place,
        of: Boxed<Expr>,
        base: Boxed<Expr>,
        up: Option<bool>,
        tokens: &'a [Token],
    ) -> Result<(Boxed<Expr>, &'a [Token]), Stop>
        requires nests { Nests self.now.limit self.now.depth (F.pre self.now.inner) (F.post self.now.inner) }
        ensures { Gives (λ x. (x.0, x.1.now)) result (spec.direction self.now.limit (below self.now.limit self.now.depth) at of base up tokens.now) }
    {
        let Some(up) = up else {
            return Err(Stop::Refused);
        };
        let (width, rest) = self.nested(tokens)?;
        let rest = expect(Mark::RightBracket, rest)?;
        Ok((indexed_tree(self.alloc, at, of, base, width, up)?, rest))
    }

    #[tactic(auto, unfolding(crate::specs::Reader::index))]
    fn index<'a>(
        &self,
        at: Place,
        of: Boxed<Expr>,
        tokens: &'a [Token],
    ) -> Result<(Boxed<Expr>, &'a [Token]), Stop>
        requires nests { Nests self.now.limit self.now.depth (F.pre self.now.inner) (F.post self.now.inner) }
        ensures { Gives (λ x. (x.0, x.1.now)) result (spec.index self.now.limit (below self.now.limit self.now.depth) at of tokens.now) }
    {
        let (index, after) = self.nested(tokens)?;
        let [
            Token {
                kind: TokenKind::Mark(mark),
                ..
            },
            rest @ ..,
        ] = after
        else {
            return Err(Stop::Refused);
        };
        match *mark {
            Mark::RightBracket => {
                Ok((Boxed::new(self.alloc, Expr::Item { at, of, index })?, rest))
            }
            Mark::Colon => self.part(at, of, index, rest),
            mark => self.indexed(at, of, index, upward(mark), rest),
        }
    }

    /// One select where one stands first, and whether it does. Where `free`, `.size` is a member.
    #[tactic(auto, unfolding(crate::specs::Reader::select))]
    fn select<'a>(
        &self,
        free: bool,
        at: Place,
        of: Boxed<Expr>,
        tokens: &'a [Token],
    ) -> Result<(bool, Boxed<Expr>, &'a [Token]), Stop>
        requires nests { Nests self.now.limit self.now.depth (F.pre self.now.inner) (F.post self.now.inner) }
        ensures { Gives (λ x. (x.0, x.1, x.2.now)) result (spec.select self.now.limit (below self.now.limit self.now.depth) free at of tokens.now) }
    {
        if is_at(Mark::LeftBracket, tokens) {
            let (x, rest) = self.index(at, of, &tokens[1..])?;
            return Ok((true, x, rest));
        }
        let Some(name) = member_first(self.alloc, free, tokens)? else {
            return Ok((false, of, tokens));
        };
        let name_at = start(&tokens[1..]);
        let member = Boxed::new(
            self.alloc,
            Expr::Member {
                at,
                of,
                name_at,
                name,
            },
        )?;
        Ok((true, member, &tokens[2..]))
    }

    /// The tree with the selects that follow it. Where `free`, `.size` is a member.
    fn selects<'a>(
        &self,
        free: bool,
        at: Place,
        of: Boxed<Expr>,
        tokens: &'a [Token],
    ) -> Result<(Boxed<Expr>, &'a [Token]), Stop>
        requires nests { Nests self.now.limit self.now.depth (F.pre self.now.inner) (F.post self.now.inner) }
        ensures { Gives (λ x. (x.0, x.1.now)) result (spec.selects self.now.limit (below self.now.limit self.now.depth) free (self.now.limit + 1) at of tokens.now) }
    {
        let mut whole = of;
        let mut rest = tokens;
        let turns = u64::from(self.limit) + 1;
        for _turn in 0..turns {
            let (found, x, after) = self.select(free, at, whole, rest)?;
            if !found {
                return Ok((x, after));
            }
            whole = x;
            rest = after;
        }
        Err(Stop::Refused)
    }

    #[tactic(auto, unfolding(crate::specs::Reader::bracketed))]
    fn bracketed<'a>(&self, tokens: &'a [Token]) -> Result<(Boxed<Expr>, &'a [Token]), Stop>
        requires nests { Nests self.now.limit self.now.depth (F.pre self.now.inner) (F.post self.now.inner) }
        ensures { Gives (λ x. (x.0, x.1.now)) result (spec.bracketed self.now.limit (below self.now.limit self.now.depth) tokens.now) }
    {
        let (x, rest) = self.nested(tokens)?;
        let rest = expect(Mark::RightParen, rest)?;
        Ok((x, rest))
    }

    #[tactic(auto, unfolding(crate::specs::Reader::call))]
    fn call<'a>(
        &self,
        at: Place,
        path: Path,
        tokens: &'a [Token],
    ) -> Result<(Boxed<Expr>, &'a [Token]), Stop>
        requires nests { Nests self.now.limit self.now.depth (F.pre self.now.inner) (F.post self.now.inner) }
        ensures { Gives (λ x. (x.0, x.1.now)) result (spec.call self.now.limit (below self.now.limit self.now.depth) at path tokens.now) }
    {
        if is_at(Mark::RightParen, tokens) {
            let args = Items::new(self.alloc);
            return Ok((
                Boxed::new(self.alloc, Expr::Call { at, path, args })?,
                &tokens[1..],
            ));
        }
        let (args, rest) = list_of(self.alloc, Separator::Comma, self, tokens)?;
        let rest = expect(Mark::RightParen, rest)?;
        Ok((Boxed::new(self.alloc, Expr::Call { at, path, args })?, rest))
    }

    /// A repetition after its count and its second brace.
    #[tactic(auto, unfolding(crate::specs::Reader::repetition))]
    fn repetition<'a>(
        &self,
        at: Place,
        count: Boxed<Expr>,
        tokens: &'a [Token],
    ) -> Result<(Boxed<Expr>, &'a [Token]), Stop>
        requires nests { Nests self.now.limit self.now.depth (F.pre self.now.inner) (F.post self.now.inner) }
        ensures { Gives (λ x. (x.0, x.1.now)) result (spec.repetition self.now.limit (below self.now.limit self.now.depth) at count tokens.now) }
    {
        let (parts, rest) = list_of(self.alloc, Separator::Comma, self, tokens)?;
        let rest = expect(Mark::RightBrace, rest)?;
        let rest = expect(Mark::RightBrace, rest)?;
        Ok((
            Boxed::new(self.alloc, Expr::Repeat { at, count, parts })?,
            rest,
        ))
    }

    /// A concatenation after its first part.
    #[tactic(auto, unfolding(crate::specs::Reader::concat))]
    fn concat<'a>(
        &self,
        at: Place,
        first: Boxed<Expr>,
        tokens: &'a [Token],
    ) -> Result<(Boxed<Expr>, &'a [Token]), Stop>
        requires nests { Nests self.now.limit self.now.depth (F.pre self.now.inner) (F.post self.now.inner) }
        ensures { Gives (λ x. (x.0, x.1.now)) result (spec.concat self.now.limit (below self.now.limit self.now.depth) at first tokens.now) }
    {
        let mut found = Items::new(self.alloc);
        found.push(first.into_inner())?;
        let (parts, rest) = more_of(Separator::Comma, self, found, tokens)?;
        let rest = expect(Mark::RightBrace, rest)?;
        Ok((Boxed::new(self.alloc, Expr::Concat { at, parts })?, rest))
    }

    #[tactic(auto, unfolding(crate::specs::Reader::braced))]
    fn braced<'a>(&self, at: Place, tokens: &'a [Token]) -> Result<(Boxed<Expr>, &'a [Token]), Stop>
        requires nests { Nests self.now.limit self.now.depth (F.pre self.now.inner) (F.post self.now.inner) }
        ensures { Gives (λ x. (x.0, x.1.now)) result (spec.braced self.now.limit (below self.now.limit self.now.depth) at tokens.now) }
    {
        let (x, rest) = self.nested(tokens)?;
        if is_at(Mark::LeftBrace, rest) {
            self.repetition(at, x, &rest[1..])
        } else {
            self.concat(at, x, rest)
        }
    }

    #[tactic(auto, unfolding(crate::specs::Reader::pattern_of))]
    fn pattern_of<'a>(
        &self,
        at: Place,
        tokens: &'a [Token],
    ) -> Result<(Boxed<Expr>, &'a [Token]), Stop>
        requires nests { Nests self.now.limit self.now.depth (F.pre self.now.inner) (F.post self.now.inner) }
        ensures { Gives (λ x. (x.0, x.1.now)) result (spec.pattern_of self.now.limit (below self.now.limit self.now.depth) at tokens.now) }
    {
        let keyed = match key_first(self.alloc, tokens)? {
            None => false,
            Some(_) => true,
        };
        let entries = Entries { rules: self, keyed };
        let (items, rest) = list_of(self.alloc, Separator::Comma, &entries, tokens)?;
        let rest = expect(Mark::RightBrace, rest)?;
        Ok((Boxed::new(self.alloc, Expr::Pattern { at, items })?, rest))
    }

    #[tactic(auto, unfolding(crate::specs::Reader::prefixed))]
    fn prefixed<'a>(
        &self,
        at: Place,
        op: Option<Unary>,
        tokens: &'a [Token],
    ) -> Result<(Boxed<Expr>, &'a [Token]), Stop>
        requires nests { Nests self.now.limit self.now.depth (F.pre self.now.inner) (F.post self.now.inner) }
        ensures { Gives (λ x. (x.0, x.1.now)) result (spec.prefixed self.now.limit (below self.now.limit self.now.depth) at op tokens.now) }
    {
        let Some(op) = op else {
            return Err(Stop::Refused);
        };
        let (of, rest) = self.nested_operand(tokens)?;
        Ok((Boxed::new(self.alloc, Expr::Unary { at, op, of })?, rest))
    }

    #[tactic(auto, unfolding(crate::specs::Reader::system))]
    fn system<'a>(
        &self,
        at: Place,
        what: Option<System>,
        tokens: &'a [Token],
    ) -> Result<(Boxed<Expr>, &'a [Token]), Stop>
        requires nests { Nests self.now.limit self.now.depth (F.pre self.now.inner) (F.post self.now.inner) }
        ensures { Gives (λ x. (x.0, x.1.now)) result (spec.system self.now.limit (below self.now.limit self.now.depth) at what tokens.now) }
    {
        match what {
            None => Err(Stop::Refused),
            Some(System::Time) => Ok((Boxed::new(self.alloc, Expr::Time { at })?, tokens)),
            Some(System::Sign(signed)) => {
                let rest = expect(Mark::LeftParen, tokens)?;
                let (of, rest) = self.nested(rest)?;
                let rest = expect(Mark::RightParen, rest)?;
                Ok((Boxed::new(self.alloc, Expr::Sign { at, signed, of })?, rest))
            }
        }
    }

    #[tactic(auto, unfolding(crate::specs::Reader::left))]
    fn left<'a>(
        &self,
        at: Place,
        path: Path,
        tokens: &'a [Token],
    ) -> Result<(Boxed<Expr>, &'a [Token]), Stop>
        requires nests { Nests self.now.limit self.now.depth (F.pre self.now.inner) (F.post self.now.inner) }
        ensures { Gives (λ x. (x.0, x.1.now)) result (spec.left self.now.limit (below self.now.limit self.now.depth) at path tokens.now) }
    {
        let read = Boxed::new(self.alloc, Expr::Read { at, path })?;
        let (x, rest) = self.selects(false, at, read, tokens)?;
        sized(self.alloc, at, x, rest)
    }

    #[tactic(auto, unfolding(crate::specs::Reader::named))]
    fn named<'a>(
        &self,
        at: Place,
        name: &Name,
        tokens: &'a [Token],
    ) -> Result<(Boxed<Expr>, &'a [Token]), Stop>
        requires nests { Nests self.now.limit self.now.depth (F.pre self.now.inner) (F.post self.now.inner) }
        ensures { Gives (λ x. (x.0, x.1.now)) result (spec.named self.now.limit (below self.now.limit self.now.depth) at name.now tokens.now) }
    {
        let (path, rest) = reference(self.alloc, at, name, tokens)?;
        if is_at(Mark::LeftParen, rest) {
            self.call(at, path, &rest[1..])
        } else {
            self.left(at, path, rest)
        }
    }

    #[tactic(auto, unfolding(crate::specs::Reader::operand))]
    fn operand<'a>(&self, tokens: &'a [Token]) -> Result<(Boxed<Expr>, &'a [Token]), Stop>
        requires nests { Nests self.now.limit self.now.depth (F.pre self.now.inner) (F.post self.now.inner) }
        ensures { Gives (λ x. (x.0, x.1.now)) result (spec.operand self.now.limit (below self.now.limit self.now.depth) tokens.now) }
    {
        let [Token { kind, at }, rest @ ..] = tokens else {
            return Err(Stop::Refused);
        };
        match kind {
            TokenKind::Number(value) => Ok((
                Boxed::new(
                    self.alloc,
                    Expr::Literal {
                        at: *at,
                        value: *value,
                    },
                )?,
                rest,
            )),
            TokenKind::Name(name) => self.named(*at, name, rest),
            TokenKind::System(name) => self.system(*at, system_of(name), rest),
            TokenKind::Mark(Mark::LeftParen) => self.bracketed(rest),
            TokenKind::Mark(Mark::LeftBrace) => self.braced(*at, rest),
            TokenKind::Mark(Mark::TickBrace) => self.pattern_of(*at, rest),
            TokenKind::Mark(mark) => self.prefixed(*at, unary_of(*mark), rest),
            _ => Err(Stop::Refused),
        }
    }

    /// Operands and operators of levels up to `height`, and how many operators there are.
    fn chain<'a>(
        &self,
        height: u8,
        tokens: &'a [Token],
    ) -> Result<(Boxed<Expr>, u32, &'a [Token]), Stop>
        requires nests { Nests self.now.limit self.now.depth (F.pre self.now.inner) (F.post self.now.inner) }
        requires low { height ≤ 10 }
        ensures value { Gives (λ x. (x.0, x.1, x.2.now)) result (spec.chain self.now.limit (below self.now.limit self.now.depth) height tokens.now) }
        ensures few { IfOk result (λ x. x.1 ≤ self.now.limit) }
    {
        if height == 0 {
            let (x, rest) = self.operand(tokens)?;
            return Ok((x, 0, rest));
        }
        let at = start(tokens);
        let (mut left, mut count, mut rest) = self.chain(height - 1, tokens)?;
        let turns = u64::from(self.limit) + 1;
        for _turn in 0..turns {
            let Some(op) = binary_at(height, rest) else {
                return Ok((left, count, rest));
            };
            let (right, links, after) = self.chain(height - 1, &rest[1..])?;
            if !has_room(self.limit, count, links) {
                return Err(Stop::Refused);
            }
            let joined = binary_tree(self.alloc, at, op, left, right)?;
            left = joined;
            count = count + links + 1;
            rest = after;
        }
        Err(Stop::Refused)
    }

    #[tactic(auto, unfolding(crate::specs::Reader::choose))]
    fn choose<'a>(
        &self,
        at: Place,
        test: Boxed<Expr>,
        tokens: &'a [Token],
    ) -> Result<(Boxed<Expr>, &'a [Token]), Stop>
        requires nests { Nests self.now.limit self.now.depth (F.pre self.now.inner) (F.post self.now.inner) }
        ensures { Gives (λ x. (x.0, x.1.now)) result (spec.choose self.now.limit (below self.now.limit self.now.depth) at test tokens.now) }
    {
        let (yes, rest) = self.nested(tokens)?;
        let rest = expect(Mark::Colon, rest)?;
        let (no, rest) = self.nested(rest)?;
        Ok((choose_tree(self.alloc, at, test, yes, no)?, rest))
    }

    /// An expression with at most `depth` open nodes over one another, whatever follows it.
    #[tactic(auto, unfolding(crate::specs::Reader::whole))]
    fn whole<'a>(&self, tokens: &'a [Token]) -> Result<(Boxed<Expr>, &'a [Token]), Stop>
        requires nests { Nests self.now.limit self.now.depth (F.pre self.now.inner) (F.post self.now.inner) }
        ensures { Gives (λ x. (x.0, x.1.now)) result (spec.whole self.now.limit (below self.now.limit self.now.depth) tokens.now) }
    {
        let at = start(tokens);
        let (x, _links, rest) = self.chain(MAX_LEVEL, tokens)?;
        if is_at(Mark::Question, rest) {
            self.choose(at, x, &rest[1..])
        } else {
            Ok((x, rest))
        }
    }
}

/// Whether a chain of `count` operators may take one more, after which `links` stand.
fn has_room(limit: u32, count: u32, links: u32) -> bool
    requires { count ≤ limit }
    ensures value { result ≡ nat_lt (count + links) limit }
    ensures within { result ≡ true → count + links < limit }
{
    links < limit - count
}

/// An expression, or an operand where `only` holds, with fewer than `depth` open nodes.
fn inner(
    alloc: Global,
    limit: u32,
    depth: u32,
    only: bool,
    tokens: &[Token],
) -> Result<(Boxed<Expr>, &[Token]), Stop>
    ensures { Gives (λ x. (x.0, x.1.now)) result (spec.inner limit depth only tokens.now) }
{
    if depth == 0 {
        return Err(Stop::Refused);
    }
    let rules = Grammar {
        alloc,
        limit,
        depth: depth - 1,
        inner,
    };
    if only {
        rules.operand(tokens)
    } else {
        rules.whole(tokens)
    }
}

/// An expression with at most `depth` open nodes over one another, and at most `limit` operators or selects in a chain, whatever
/// follows it (IEEE 1800-2017, A.8.3).
///
/// # Errors
///
/// `Refused` where no such expression is read, `Memory` where memory ran out.
pub fn expression_in(
    alloc: Global,
    limit: u32,
    depth: u32,
    tokens: &[Token],
) -> Result<(Boxed<Expr>, &[Token]), Stop>
    ensures { Gives (λ x. (x.0, x.1.now)) result (spec.whole limit (below limit depth) tokens.now) }
{
    Grammar {
        alloc,
        limit,
        depth,
        inner,
    }
    .whole(tokens)
}

/// More expressions, each after a comma, behind those that were found. They stand in an open node (A.8.1, A.8.2).
///
/// # Errors
///
/// `Refused` where a comma stands before no expression, `Memory` where memory ran out.
pub fn others(
    alloc: Global,
    limit: u32,
    depth: u32,
    found: Items<Expr>,
    tokens: &[Token],
) -> Result<(Items<Expr>, &[Token]), Stop>
    ensures { Gives (λ x. (x.0, x.1.now)) result (spec.more_of Comma (below limit depth).whole (length tokens.now + 1) found tokens.now) }
{
    let rules = Grammar {
        alloc,
        limit,
        depth,
        inner,
    };
    more_of(Separator::Comma, &rules, found, tokens)
}

/// One or more expressions, with commas between. They stand in an open node (A.8.1, A.8.2).
///
/// # Errors
///
/// `Refused` where no expression stands first, or after a comma, `Memory` where memory ran out.
pub fn several(
    alloc: Global,
    limit: u32,
    depth: u32,
    tokens: &[Token],
) -> Result<(Items<Expr>, &[Token]), Stop>
    ensures { Gives (λ x. (x.0, x.1.now)) result (spec.several limit (below limit depth) tokens.now) }
{
    let rules = Grammar {
        alloc,
        limit,
        depth,
        inner,
    };
    list_of(alloc, Separator::Comma, &rules, tokens)
}

/// The tree with the selects that follow it, at most `limit` (A.8.4, A.8.5). Where `free`, `.size` is a member.
///
/// # Errors
///
/// `Refused` where a select is not whole, or one too many, `Memory` where memory ran out.
pub fn selects(
    alloc: Global,
    limit: u32,
    depth: u32,
    free: bool,
    at: Place,
    of: Boxed<Expr>,
    tokens: &[Token],
) -> Result<(Boxed<Expr>, &[Token]), Stop>
    ensures { Gives (λ x. (x.0, x.1.now)) result (spec.selects limit (below limit depth) free (limit + 1) at of tokens.now) }
{
    Grammar {
        alloc,
        limit,
        depth,
        inner,
    }
    .selects(free, at, of, tokens)
}
