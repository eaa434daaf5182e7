// Items that packages and modules have.
ghost use Rattle.std.specs.Prelude.{◌≡◌, ⊤, [], ◌∷◌, Some, IfOk};
ghost use Rattle.nt_read_expr.specs.Gives.{Gives};
ghost use Rattle.nt_read_item.specs.Reader as spec;

use crate::front::{Form, form_of, param_first};
use crate::functions::function;
use crate::parts::{maybe_with, plain_name};
use nt_ast::TypeTree;
use nt_items::{Item, NettypeItem, copy_kind};
use nt_lexer::{Mark, Token, Word};
use nt_read_expr::{ItemReader, Separator, Stop, expect, expression_in, is_at, list_of, start};
use nt_read_stmt::{expect_word, take_name};
use nt_read_unit::{maybe_type, named_in, type_in};
use sqlite_items::{Boxed, Items};
use std::alloc::{AllocError, Global};

/// A list of this item alone.
fn one_item(alloc: Global, item: Item) -> Result<Items<Item>, AllocError>
    ensures { IfOk result (λ xs. xs ≡ item ∷ []) }
{
    let mut all = Items::new(alloc);
    all.push(item)?;
    Ok(all)
}

/// What reads the names that are imported.
#[derive(Clone, Copy)]
struct ImportReader {
    alloc: Global,
}

impl ItemReader for ImportReader {
    type Item = Item;

    ghost can_read = { λ _. ⊤ };

    ghost reads = { λ _. spec.import_name };

    #[tactic(auto, unfolding(crate::specs::Reader::import_name, crate::specs::Reader::imported))]
    fn read_item<'a>(&self, tokens: &'a [Token]) -> Result<(Item, &'a [Token]), Stop> {
        let at = start(tokens);
        let (scope, rest) = take_name(self.alloc, tokens)?;
        let rest = expect(Mark::Scope, rest)?;
        if is_at(Mark::Star, rest) {
            let name = None;
            return Ok((Item::Import { at, scope, name }, &rest[1..]));
        }
        let (name, rest) = take_name(self.alloc, rest)?;
        let name = Some(name);
        Ok((Item::Import { at, scope, name }, rest))
    }
}

/// Imports, and what follows (IEEE 1800-2017, 26.3).
///
/// # Errors
///
/// `Refused` where what stands first is no import, `Memory` where memory ran out.
#[tactic(auto, unfolding(crate::specs::Reader::imports))]
pub fn imports(alloc: Global, tokens: &[Token]) -> Result<(Items<Item>, &[Token]), Stop>
    ensures { Gives (λ x. (x.0, x.1.now)) result (spec.imports tokens.now) }
{
    let rest = expect_word(Word::Import, tokens)?;
    let (all, rest) = list_of(alloc, Separator::Comma, &ImportReader { alloc }, rest)?;
    let rest = expect(Mark::Semicolon, rest)?;
    Ok((all, rest))
}

/// What reads the names of parameters.
#[derive(Clone, Copy)]
struct ParamReader<'t> {
    alloc: Global,
    limit: u32,
    local: bool,
    of: &'t Option<Boxed<TypeTree>>,
}

impl<'t> ItemReader for ParamReader<'t> {
    type Item = Item;

    ghost can_read = { λ _. ⊤ };

    ghost reads = { λ s. spec.param_name s.limit s.local s.of.now };

    #[tactic(auto, unfolding(crate::specs::Reader::param_name))]
    fn read_item<'a>(&self, tokens: &'a [Token]) -> Result<(Item, &'a [Token]), Stop> {
        let at = start(tokens);
        let (name, rest) = take_name(self.alloc, tokens)?;
        let rest = expect(Mark::Assign, rest)?;
        let (x, rest) = expression_in(self.alloc, self.limit, self.limit, rest)?;
        let what = plain_name(self.alloc, at, name, Some(x))?;
        let kind = copy_kind(self.alloc, self.of)?;
        Ok((
            Item::Param {
                at,
                local: self.local,
                kind,
                what,
            },
            rest,
        ))
    }
}

#[tactic(auto, unfolding(crate::specs::Reader::params, crate::specs::Reader::first_by))]
fn params(alloc: Global, limit: u32, tokens: &[Token]) -> Result<(Items<Item>, &[Token]), Stop>
    ensures { Gives (λ x. (x.0, x.1.now)) result (spec.params limit tokens.now) }
{
    let Some(local) = param_first(tokens) else {
        return Err(Stop::Refused);
    };
    let (of, rest) = maybe_type(alloc, limit, limit, &tokens[1..])?;
    let reader = ParamReader {
        alloc,
        limit,
        local,
        of: &of,
    };
    let (all, rest) = list_of(alloc, Separator::Comma, &reader, rest)?;
    let rest = expect(Mark::Semicolon, rest)?;
    Ok((all, rest))
}

#[tactic(auto, unfolding(crate::specs::Reader::typedef))]
fn typedef(alloc: Global, limit: u32, tokens: &[Token]) -> Result<(Items<Item>, &[Token]), Stop>
    ensures { Gives (λ x. (x.0, x.1.now)) result (spec.typedef limit tokens.now) }
{
    let rest = expect_word(Word::Typedef, tokens)?;
    let (kind, rest) = type_in(alloc, limit, limit, rest)?;
    let (what, rest) = named_in(alloc, limit, limit, rest)?;
    let rest = expect(Mark::Semicolon, rest)?;
    let at = what.get().at;
    Ok((one_item(alloc, Item::Typedef { at, kind, what })?, rest))
}

#[tactic(auto, unfolding(crate::specs::Reader::nettype))]
fn nettype(alloc: Global, limit: u32, tokens: &[Token]) -> Result<(Items<Item>, &[Token]), Stop>
    ensures { Gives (λ x. (x.0, x.1.now)) result (spec.nettype limit tokens.now) }
{
    let rest = expect_word(Word::Nettype, tokens)?;
    let (base, rest) = type_in(alloc, limit, limit, rest)?;
    let at = start(rest);
    let (name, rest) = take_name(alloc, rest)?;
    let (resolver, rest) = maybe_with(alloc, rest)?;
    let rest = expect(Mark::Semicolon, rest)?;
    let item = NettypeItem {
        at,
        base,
        name,
        resolver,
    };
    Ok((one_item(alloc, Item::Nettype(item))?, rest))
}

#[tactic(auto, unfolding(crate::specs::Reader::one_function))]
fn one_function(
    alloc: Global,
    limit: u32,
    tokens: &[Token],
) -> Result<(Items<Item>, &[Token]), Stop>
    ensures { Gives (λ x. (x.0, x.1.now)) result (spec.one_function limit tokens.now) }
{
    let (item, rest) = function(alloc, limit, tokens)?;
    Ok((one_item(alloc, Item::Function(item))?, rest))
}

/// The items of a package of this form.
pub(crate) fn package_by(
    alloc: Global,
    limit: u32,
    form: Form,
    tokens: &[Token],
) -> Result<(Items<Item>, &[Token]), Stop>
    ensures { Gives (λ x. (x.0, x.1.now)) result (spec.package_by limit form tokens.now) }
{
    match form {
        Form::Import => imports(alloc, tokens),
        Form::Params => params(alloc, limit, tokens),
        Form::Typedef => typedef(alloc, limit, tokens),
        Form::Nettype => nettype(alloc, limit, tokens),
        Form::Function => one_function(alloc, limit, tokens),
        _ => Err(Stop::Refused),
    }
}

/// The items of a package that are declared at once, one for each name, and what follows (IEEE 1800-2017, A.1.11).
///
/// # Errors
///
/// `Refused` where no such item stands first, `Memory` where memory ran out.
#[tactic(auto, unfolding(crate::specs::Reader::package_item))]
pub fn package_item(
    alloc: Global,
    limit: u32,
    tokens: &[Token],
) -> Result<(Items<Item>, &[Token]), Stop>
    ensures { Gives (λ x. (x.0, x.1.now)) result (spec.package_item limit tokens.now) }
{
    package_by(alloc, limit, form_of(tokens), tokens)
}
