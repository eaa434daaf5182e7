// Items that modules alone have.
ghost use Rattle.std.specs.Prelude.{◌≡◌, ⊤, [], ◌∷◌, Some, IfOk};
ghost use Rattle.nt_read_expr.specs.Gives.{Gives};
ghost use Rattle.nt_read_item.specs.Reader as spec;

use crate::conns::{conns, maybe_params};
use crate::front::{Form, flag, form_of, proc_first, wire_first};
use crate::package_items::package_by;
use crate::parts::{maybe_start, plain_name, started, type_at};
use nt_ast::{TypeTree, copy_type};
use nt_items::{Conn, Item, PortKind, ProcedureItem, copy_conns};
use nt_lexer::{Mark, Token, Word};
use nt_read_expr::{ItemReader, Separator, Stop, expect, expression_in, left_side, list_of, start};
use nt_read_stmt::{expect_word, statement_in, take_name};
use nt_read_unit::{maybe_type, named_in, one_bit, type_in};
use nt_value::{Name, Place};
use sqlite_items::{Boxed, Items};
use std::alloc::Global;

/// What reads the names of wires.
#[derive(Clone, Copy)]
struct WireReader<'t> {
    alloc: Global,
    limit: u32,
    of: &'t Option<Boxed<TypeTree>>,
}

impl<'t> ItemReader for WireReader<'t> {
    type Item = Item;

    ghost can_read = { λ _. ⊤ };

    ghost reads = { λ s. spec.wire_name s.limit s.of.now };

    #[tactic(auto, unfolding(crate::specs::Reader::wire_name))]
    fn read_item<'a>(&self, tokens: &'a [Token]) -> Result<(Item, &'a [Token]), Stop> {
        let at = start(tokens);
        let (name, rest) = take_name(self.alloc, tokens)?;
        let (x, rest) = maybe_start(self.alloc, self.limit, rest)?;
        let what = plain_name(self.alloc, at, name, x)?;
        let of = type_at(self.alloc, self.of, at)?;
        let kind = PortKind::Wire;
        Ok((Item::Net { at, kind, of, what }, rest))
    }
}

/// Wires after their word.
#[tactic(auto, unfolding(crate::specs::Reader::wires))]
fn wires(alloc: Global, limit: u32, tokens: &[Token]) -> Result<(Items<Item>, &[Token]), Stop>
    ensures { Gives (λ x. (x.0, x.1.now)) result (spec.wires limit tokens.now) }
{
    let (of, rest) = maybe_type(alloc, limit, limit, tokens)?;
    let reader = WireReader {
        alloc,
        limit,
        of: &of,
    };
    let (all, rest) = list_of(alloc, Separator::Comma, &reader, rest)?;
    let rest = expect(Mark::Semicolon, rest)?;
    Ok((all, rest))
}

/// What reads the names of interconnects.
#[derive(Clone, Copy)]
struct LinkReader {
    alloc: Global,
}

impl ItemReader for LinkReader {
    type Item = Item;

    ghost can_read = { λ _. ⊤ };

    ghost reads = { λ _. spec.link_name };

    #[tactic(auto, unfolding(crate::specs::Reader::link_name))]
    fn read_item<'a>(&self, tokens: &'a [Token]) -> Result<(Item, &'a [Token]), Stop> {
        let at = start(tokens);
        let (name, rest) = take_name(self.alloc, tokens)?;
        let what = plain_name(self.alloc, at, name, None)?;
        let of = one_bit(self.alloc, at)?;
        let kind = PortKind::Interconnect;
        Ok((Item::Net { at, kind, of, what }, rest))
    }
}

#[tactic(auto, unfolding(crate::specs::Reader::links))]
fn links(alloc: Global, tokens: &[Token]) -> Result<(Items<Item>, &[Token]), Stop>
    ensures { Gives (λ x. (x.0, x.1.now)) result (spec.links tokens.now) }
{
    let rest = expect_word(Word::Interconnect, tokens)?;
    let (all, rest) = list_of(alloc, Separator::Comma, &LinkReader { alloc }, rest)?;
    let rest = expect(Mark::Semicolon, rest)?;
    Ok((all, rest))
}

#[tactic(auto, unfolding(crate::specs::Reader::nets))]
fn nets(alloc: Global, limit: u32, tokens: &[Token]) -> Result<(Items<Item>, &[Token]), Stop>
    ensures { Gives (λ x. (x.0, x.1.now)) result (spec.nets limit tokens.now) }
{
    if wire_first(tokens) {
        wires(alloc, limit, &tokens[1..])
    } else {
        links(alloc, tokens)
    }
}

/// What reads the names of variables.
#[derive(Clone, Copy)]
struct VarReader<'t> {
    alloc: Global,
    limit: u32,
    of: &'t Boxed<TypeTree>,
}

impl<'t> ItemReader for VarReader<'t> {
    type Item = Item;

    ghost can_read = { λ _. ⊤ };

    ghost reads = { λ s. spec.var_name s.limit s.of.now };

    #[tactic(auto, unfolding(crate::specs::Reader::var_name))]
    fn read_item<'a>(&self, tokens: &'a [Token]) -> Result<(Item, &'a [Token]), Stop> {
        let (what, rest) = named_in(self.alloc, self.limit, self.limit, tokens)?;
        let (start, rest) = maybe_start(self.alloc, self.limit, rest)?;
        let at = what.get().at;
        let what = started(self.alloc, what, start)?;
        let of = Boxed::new(self.alloc, copy_type(self.alloc, self.of.get())?)?;
        Ok((Item::Var { at, of, what }, rest))
    }
}

#[tactic(auto, unfolding(crate::specs::Reader::vars))]
fn vars(alloc: Global, limit: u32, tokens: &[Token]) -> Result<(Items<Item>, &[Token]), Stop>
    ensures { Gives (λ x. (x.0, x.1.now)) result (spec.vars limit tokens.now) }
{
    let (_var, rest) = flag(Word::Var, tokens);
    let (of, rest) = type_in(alloc, limit, limit, rest)?;
    let reader = VarReader {
        alloc,
        limit,
        of: &of,
    };
    let (all, rest) = list_of(alloc, Separator::Comma, &reader, rest)?;
    let rest = expect(Mark::Semicolon, rest)?;
    Ok((all, rest))
}

/// What reads assignments.
#[derive(Clone, Copy)]
struct SetReader {
    alloc: Global,
    limit: u32,
}

impl ItemReader for SetReader {
    type Item = Item;

    ghost can_read = { λ _. ⊤ };

    ghost reads = { λ s. spec.set s.limit };

    #[tactic(auto, unfolding(crate::specs::Reader::set))]
    fn read_item<'a>(&self, tokens: &'a [Token]) -> Result<(Item, &'a [Token]), Stop> {
        let at = start(tokens);
        let (left, rest) = left_side(self.alloc, self.limit, self.limit, tokens)?;
        let rest = expect(Mark::Assign, rest)?;
        let (right, rest) = expression_in(self.alloc, self.limit, self.limit, rest)?;
        Ok((Item::Assign { at, left, right }, rest))
    }
}

#[tactic(auto, unfolding(crate::specs::Reader::assigns))]
fn assigns(alloc: Global, limit: u32, tokens: &[Token]) -> Result<(Items<Item>, &[Token]), Stop>
    ensures { Gives (λ x. (x.0, x.1.now)) result (spec.assigns limit tokens.now) }
{
    let rest = expect_word(Word::Assign, tokens)?;
    let (all, rest) = list_of(alloc, Separator::Comma, &SetReader { alloc, limit }, rest)?;
    let rest = expect(Mark::Semicolon, rest)?;
    Ok((all, rest))
}

/// What reads the instances of a module.
#[derive(Clone, Copy)]
struct InstanceReader<'t> {
    alloc: Global,
    limit: u32,
    at: Place,
    of: &'t Name,
    params: &'t Items<Conn>,
}

impl<'t> ItemReader for InstanceReader<'t> {
    type Item = Item;

    ghost can_read = { λ _. ⊤ };

    ghost reads = { λ s. spec.instance_name s.limit s.at s.of.now s.params.now };

    #[tactic(auto, unfolding(crate::specs::Reader::instance_name))]
    fn read_item<'a>(&self, tokens: &'a [Token]) -> Result<(Item, &'a [Token]), Stop> {
        let at = start(tokens);
        let (name, rest) = take_name(self.alloc, tokens)?;
        let (ports, rest) = conns(self.alloc, self.limit, rest)?;
        let of = self.of.copy(self.alloc)?;
        let params = copy_conns(self.alloc, self.params)?;
        Ok((
            Item::Instance {
                at,
                module_at: self.at,
                module: of,
                params,
                name,
                ports,
            },
            rest,
        ))
    }
}

#[tactic(auto, unfolding(crate::specs::Reader::instances))]
fn instances(alloc: Global, limit: u32, tokens: &[Token]) -> Result<(Items<Item>, &[Token]), Stop>
    ensures { Gives (λ x. (x.0, x.1.now)) result (spec.instances limit tokens.now) }
{
    let at = start(tokens);
    let (of, rest) = take_name(alloc, tokens)?;
    let (params, rest) = maybe_params(alloc, limit, rest)?;
    let reader = InstanceReader {
        alloc,
        limit,
        at,
        of: &of,
        params: &params,
    };
    let (all, rest) = list_of(alloc, Separator::Comma, &reader, rest)?;
    let rest = expect(Mark::Semicolon, rest)?;
    Ok((all, rest))
}

#[tactic(auto, unfolding(crate::specs::Reader::procedure, crate::specs::Reader::first_by))]
fn procedure(alloc: Global, limit: u32, tokens: &[Token]) -> Result<(Items<Item>, &[Token]), Stop>
    ensures { Gives (λ x. (x.0, x.1.now)) result (spec.procedure limit tokens.now) }
{
    let at = start(tokens);
    let Some(kind) = proc_first(tokens) else {
        return Err(Stop::Refused);
    };
    let (body, rest) = statement_in(alloc, limit, limit, &tokens[1..])?;
    let mut all = Items::new(alloc);
    all.push(Item::Procedure(ProcedureItem { at, kind, body }))?;
    Ok((all, rest))
}

/// The items of a module that are declared at once, one for each name, and what follows (IEEE 1800-2017, A.1.4).
///
/// # Errors
///
/// `Refused` where no such item stands first, `Memory` where memory ran out.
#[tactic(auto, unfolding(crate::specs::Reader::module_item))]
pub fn module_item(
    alloc: Global,
    limit: u32,
    tokens: &[Token],
) -> Result<(Items<Item>, &[Token]), Stop>
    ensures { Gives (λ x. (x.0, x.1.now)) result (spec.module_item limit tokens.now) }
{
    match form_of(tokens) {
        Form::Nets => nets(alloc, limit, tokens),
        Form::Vars => vars(alloc, limit, tokens),
        Form::Assigns => assigns(alloc, limit, tokens),
        Form::Instances => instances(alloc, limit, tokens),
        Form::Procedure => procedure(alloc, limit, tokens),
        form => package_by(alloc, limit, form, tokens),
    }
}
