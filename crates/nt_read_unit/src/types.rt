// Types, by descent with one token of look-ahead. `depth` bounds the open nodes, `limit` the links of a chain.
ghost use Rattle.std.specs.Prelude.{◌≡◌, ⊤, [], Some, None, IfOk};
ghost use Rattle.nt_ast.specs.declared.types.IntWord.TheVariants as int;
ghost use Rattle.nt_ast.specs.declared.types.TypeTree.TheVariants as t;
ghost use Rattle.nt_read_expr.specs.Gives.{Gives};
ghost use Rattle.nt_read_unit.specs.Nests.{Nests};
ghost use Rattle.nt_read_unit.specs.Reader as spec;
ghost use Rattle.nt_read_unit.specs.Reader.{inside};

use crate::front::{atom_first, is_bare, sign, sign_first, vector_first};
use crate::groups::{GroupReader, groups_of};
use crate::names::{maybe_range, named_in, range};
use nt_ast::{Declared, Expr, IntWord, TypeTree, copy_type};
use nt_lexer::{Mark, Token, TokenKind, Word};
use nt_read_expr::{ItemReader, Separator, Stop, expect, is_at, list_of, reference, start};
use nt_read_stmt::{expect_word, is_word};
use nt_value::Place;
use sqlite_items::{Boxed, Items};
use std::alloc::{AllocError, Global};

/// The two ends of a range.
type Ends = (Boxed<Expr>, Boxed<Expr>);

fn integral(
    alloc: Global,
    at: Place,
    word: IntWord,
    signed: Option<bool>,
    range: Option<Ends>,
) -> Result<Boxed<TypeTree>, AllocError>
    ensures { IfOk result (λ x. x ≡ t.Integral at word signed range) }
{
    match range {
        None => Boxed::new(
            alloc,
            TypeTree::Integral {
                at,
                word,
                signed,
                range: None,
            },
        ),
        Some((left, right)) => Boxed::new(
            alloc,
            TypeTree::Integral {
                at,
                word,
                signed,
                range: Some((left.into_inner(), right.into_inner())),
            },
        ),
    }
}

#[tactic(auto, unfolding(crate::specs::Reader::vector))]
fn vector(
    alloc: Global,
    limit: u32,
    depth: u32,
    word: IntWord,
    at: Place,
    tokens: &[Token],
) -> Result<(Boxed<TypeTree>, &[Token]), Stop>
    ensures { Gives (λ x. (x.0, x.1.now)) result (spec.vector limit depth word at tokens.now) }
{
    let (signed, rest) = sign(tokens);
    let (range, rest) = maybe_range(alloc, limit, depth, rest)?;
    Ok((integral(alloc, at, word, signed, range)?, rest))
}

#[tactic(auto, unfolding(crate::specs::Reader::atom))]
fn atom(
    alloc: Global,
    word: IntWord,
    at: Place,
    tokens: &[Token],
) -> Result<(Boxed<TypeTree>, &[Token]), Stop>
    ensures { Gives (λ x. (x.0, x.1.now)) result (spec.atom word at tokens.now) }
{
    let (signed, rest) = sign(tokens);
    Ok((integral(alloc, at, word, signed, None)?, rest))
}

/// The type of a name.
fn known(alloc: Global, tokens: &[Token]) -> Result<(Boxed<TypeTree>, &[Token]), Stop>
    ensures { Gives (λ x. (x.0, x.1.now)) result (spec.known tokens.now) }
{
    let [
        Token {
            kind: TokenKind::Name(name),
            at,
        },
        rest @ ..,
    ] = tokens
    else {
        return Err(Stop::Refused);
    };
    let (path, rest) = reference(alloc, *at, name, rest)?;
    Ok((Boxed::new(alloc, TypeTree::Named { at: *at, path })?, rest))
}

/// A type that is no structure.
#[tactic(auto, unfolding(crate::specs::Reader::plain))]
fn plain(
    alloc: Global,
    limit: u32,
    depth: u32,
    tokens: &[Token],
) -> Result<(Boxed<TypeTree>, &[Token]), Stop>
    ensures { Gives (λ x. (x.0, x.1.now)) result (spec.plain limit depth tokens.now) }
{
    if let Some(word) = vector_first(tokens) {
        return vector(alloc, limit, depth, word, start(tokens), &tokens[1..]);
    }
    if let Some(word) = atom_first(tokens) {
        return atom(alloc, word, start(tokens), &tokens[1..]);
    }
    known(alloc, tokens)
}

/// The rules of a structure whose members have at most `depth` open nodes, over what reads a structure one level deeper.
#[derive(Clone, Copy)]
pub struct Structures<F> {
    alloc: Global,
    limit: u32,
    depth: u32,
    inner: F,
}

/// What reads members of a type.
#[derive(Clone, Copy)]
struct MemberNames<'t> {
    alloc: Global,
    limit: u32,
    depth: u32,
    of: &'t Boxed<TypeTree>,
}

impl<'t> ItemReader for MemberNames<'t> {
    type Item = (TypeTree, Declared);

    ghost can_read = { λ _. ⊤ };

    ghost reads = { λ s. spec.member_name s.limit s.depth s.of.now };

    #[tactic(auto, unfolding(crate::specs::Reader::member_name))]
    fn read_item<'a>(
        &self,
        tokens: &'a [Token],
    ) -> Result<((TypeTree, Declared), &'a [Token]), Stop> {
        let (what, rest) = named_in(self.alloc, self.limit, self.depth, tokens)?;
        let of = copy_type(self.alloc, self.of.get())?;
        Ok(((of, what.into_inner()), rest))
    }
}

impl<F: Fn(Global, u32, u32, &[Token]) -> Result<(Boxed<TypeTree>, &[Token]), Stop>> GroupReader
    for Structures<F> {
    type Item = (TypeTree, Declared);

    ghost can_read = { λ s. Nests s.limit s.depth (F.pre s.inner) (F.post s.inner) };

    ghost goes_on = { λ s. spec.member_goes s.limit s.depth (inside s.limit s.depth) };

    ghost reads = { λ s. spec.member s.limit s.depth (inside s.limit s.depth) };

    #[tactic(auto, unfolding(crate::specs::Reader::member_goes))]
    fn goes(&self, tokens: &[Token]) -> bool {
        !is_at(Mark::RightBrace, tokens)
    }

    #[tactic(auto, unfolding(crate::specs::Reader::member))]
    fn read_group<'a>(
        &self,
        tokens: &'a [Token],
    ) -> Result<(Items<(TypeTree, Declared)>, &'a [Token]), Stop> {
        let (of, rest) = self.member_type(tokens)?;
        let names = MemberNames {
            alloc: self.alloc,
            limit: self.limit,
            depth: self.depth,
            of: &of,
        };
        let (all, rest) = list_of(self.alloc, Separator::Comma, &names, rest)?;
        let rest = expect(Mark::Semicolon, rest)?;
        Ok((all, rest))
    }
}

impl<F: Fn(Global, u32, u32, &[Token]) -> Result<(Boxed<TypeTree>, &[Token]), Stop>> Structures<F> {
    fn nested<'a>(&self, tokens: &'a [Token]) -> Result<(Boxed<TypeTree>, &'a [Token]), Stop>
        requires nests { Nests self.now.limit self.now.depth (F.pre self.now.inner) (F.post self.now.inner) }
        ensures { Gives (λ x. (x.0, x.1.now)) result (inside self.now.limit self.now.depth tokens.now) }
    {
        (self.inner)(self.alloc, self.limit, self.depth, tokens)
    }

    #[tactic(auto, unfolding(crate::specs::Reader::member_type))]
    fn member_type<'a>(&self, tokens: &'a [Token]) -> Result<(Boxed<TypeTree>, &'a [Token]), Stop>
        requires nests { Nests self.now.limit self.now.depth (F.pre self.now.inner) (F.post self.now.inner) }
        ensures { Gives (λ x. (x.0, x.1.now)) result (spec.member_type self.now.limit self.now.depth (inside self.now.limit self.now.depth) tokens.now) }
    {
        if is_word(Word::Struct, tokens) {
            self.nested(tokens)
        } else {
            plain(self.alloc, self.limit, self.depth, tokens)
        }
    }

    #[tactic(auto, unfolding(crate::specs::Reader::structure))]
    fn structure<'a>(&self, tokens: &'a [Token]) -> Result<(Boxed<TypeTree>, &'a [Token]), Stop>
        requires nests { Nests self.now.limit self.now.depth (F.pre self.now.inner) (F.post self.now.inner) }
        ensures { Gives (λ x. (x.0, x.1.now)) result (spec.structure self.now.limit self.now.depth (inside self.now.limit self.now.depth) tokens.now) }
    {
        let at = start(tokens);
        let rest = expect_word(Word::Struct, tokens)?;
        let rest = expect(Mark::LeftBrace, rest)?;
        let (members, rest) = groups_of(self.alloc, self, rest)?;
        let rest = expect(Mark::RightBrace, rest)?;
        Ok((
            Boxed::new(self.alloc, TypeTree::Struct { at, members })?,
            rest,
        ))
    }
}

/// A structure with fewer than `depth` open nodes over one another.
fn nested(
    alloc: Global,
    limit: u32,
    depth: u32,
    tokens: &[Token],
) -> Result<(Boxed<TypeTree>, &[Token]), Stop>
    ensures { Gives (λ x. (x.0, x.1.now)) result (inside limit depth tokens.now) }
{
    if depth == 0 {
        return Err(Stop::Refused);
    }
    Structures {
        alloc,
        limit,
        depth: depth - 1,
        inner: nested,
    }
    .structure(tokens)
}

/// A type with at most `depth` open nodes over one another, and what follows (IEEE 1800-2017, clause 6, 7.2, A.2.2.1).
///
/// # Errors
///
/// `Refused` where no such type is read, `Memory` where memory ran out.
#[tactic(auto, unfolding(crate::specs::Reader::type_in))]
pub fn type_in(
    alloc: Global,
    limit: u32,
    depth: u32,
    tokens: &[Token],
) -> Result<(Boxed<TypeTree>, &[Token]), Stop>
    ensures { Gives (λ x. (x.0, x.1.now)) result (spec.type_in limit depth tokens.now) }
{
    if !is_word(Word::Struct, tokens) {
        return plain(alloc, limit, depth, tokens);
    }
    Structures {
        alloc,
        limit,
        depth,
        inner: nested,
    }
    .structure(tokens)
}

#[tactic(auto, unfolding(crate::specs::Reader::only_sign))]
fn only_sign(
    alloc: Global,
    limit: u32,
    depth: u32,
    signed: bool,
    at: Place,
    tokens: &[Token],
) -> Result<(Option<Boxed<TypeTree>>, &[Token]), Stop>
    ensures { Gives (λ x. (x.0, x.1.now)) result (spec.only_sign limit depth signed at tokens.now) }
{
    let (ends, rest) = maybe_range(alloc, limit, depth, tokens)?;
    let x = integral(alloc, at, IntWord::Logic, Some(signed), ends)?;
    Ok((Some(x), rest))
}

#[tactic(auto, unfolding(crate::specs::Reader::only_range))]
fn only_range(
    alloc: Global,
    limit: u32,
    depth: u32,
    tokens: &[Token],
) -> Result<(Option<Boxed<TypeTree>>, &[Token]), Stop>
    ensures { Gives (λ x. (x.0, x.1.now)) result (spec.only_range limit depth tokens.now) }
{
    let at = start(tokens);
    let (ends, rest) = range(alloc, limit, depth, tokens)?;
    let x = integral(alloc, at, IntWord::Logic, None, Some(ends))?;
    Ok((Some(x), rest))
}

/// The type of a net, a port, a parameter or a function, which may be written in part or not at all, and what follows (IEEE
/// 1800-2017, A.2.2.1).
///
/// # Errors
///
/// `Refused` where what stands first is no such type, and no name that could be declared without one, `Memory` where memory ran
/// out.
#[tactic(auto, unfolding(crate::specs::Reader::maybe_type, crate::specs::Reader::some_type))]
pub fn maybe_type(
    alloc: Global,
    limit: u32,
    depth: u32,
    tokens: &[Token],
) -> Result<(Option<Boxed<TypeTree>>, &[Token]), Stop>
    ensures { Gives (λ x. (x.0, x.1.now)) result (spec.maybe_type limit depth tokens.now) }
{
    if is_bare(tokens) {
        return Ok((None, tokens));
    }
    if is_at(Mark::LeftBracket, tokens) {
        return only_range(alloc, limit, depth, tokens);
    }
    if let Some(signed) = sign_first(tokens) {
        return only_sign(alloc, limit, depth, signed, start(tokens), &tokens[1..]);
    }
    let (x, rest) = type_in(alloc, limit, depth, tokens)?;
    Ok((Some(x), rest))
}
