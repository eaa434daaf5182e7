// Ports, parameters and heads of modules.
ghost use Rattle.std.specs.Prelude.{◌≡◌, ⊤, [], ◌+◌, Some};
ghost use Rattle.nt_read_expr.specs.Gives.{Gives};
ghost use Rattle.nt_read_item.specs.Reader as items;
ghost use Rattle.nt_read_module.specs.Reader as spec;

use crate::carried::{Head, ParamText, PortText, params_from, ports_from};
use crate::front::{net, way};
use nt_ast::{Declared, TypeTree};
use nt_items::{Item, Port};
use nt_lexer::{Mark, Token, Word};
use nt_read_expr::{ItemReader, Separator, Stop, expect, expression_in, is_at, list_of, start};
use nt_read_item::{flag, imports, plain_name};
use nt_read_stmt::{is_word, take_name};
use nt_read_unit::{GroupReader, groups_of, maybe_type, named_in};
use sqlite_items::{Boxed, Items};
use std::alloc::Global;

/// A parameter of a module: its type, and its name with its value.
type Param = (Option<Boxed<TypeTree>>, Boxed<Declared>);

/// What reads ports.
#[derive(Clone, Copy)]
struct PortReader {
    alloc: Global,
    limit: u32,
}

impl ItemReader for PortReader {
    type Item = PortText;

    ghost can_read = { λ _. ⊤ };

    ghost reads = { λ s. spec.port s.limit };

    #[tactic(auto, unfolding(crate::specs::Reader::port))]
    fn read_item<'a>(&self, tokens: &'a [Token]) -> Result<(PortText, &'a [Token]), Stop> {
        let (way, rest) = way(tokens);
        let (kind, rest) = net(rest);
        let (of, rest) = maybe_type(self.alloc, self.limit, self.limit, rest)?;
        let (what, rest) = named_in(self.alloc, self.limit, self.limit, rest)?;
        Ok((
            PortText {
                way,
                kind,
                of,
                what,
            },
            rest,
        ))
    }
}

/// What reads parameters.
#[derive(Clone, Copy)]
struct ParamReader {
    alloc: Global,
    limit: u32,
}

impl ItemReader for ParamReader {
    type Item = ParamText;

    ghost can_read = { λ _. ⊤ };

    ghost reads = { λ s. spec.param s.limit };

    #[tactic(auto, unfolding(crate::specs::Reader::param))]
    fn read_item<'a>(&self, tokens: &'a [Token]) -> Result<(ParamText, &'a [Token]), Stop> {
        let (word, rest) = flag(Word::Parameter, tokens);
        let (of, rest) = maybe_type(self.alloc, self.limit, self.limit, rest)?;
        let at = start(rest);
        let (name, rest) = take_name(self.alloc, rest)?;
        let rest = expect(Mark::Assign, rest)?;
        let (x, rest) = expression_in(self.alloc, self.limit, self.limit, rest)?;
        let what = plain_name(self.alloc, at, name, Some(x))?;
        Ok((ParamText { word, of, what }, rest))
    }
}

/// The parameters of a module, where they are written.
#[tactic(auto, unfolding(crate::specs::Reader::param_list, crate::specs::Reader::params_in))]
fn param_list(alloc: Global, limit: u32, tokens: &[Token]) -> Result<(Items<Param>, &[Token]), Stop>
    ensures { Gives (λ x. (x.0, x.1.now)) result (spec.param_list limit tokens.now) }
{
    if !is_at(Mark::Hash, tokens) {
        return Ok((Items::new(alloc), tokens));
    }
    let rest = expect(Mark::LeftParen, &tokens[1..])?;
    let (texts, rest) = list_of(alloc, Separator::Comma, &ParamReader { alloc, limit }, rest)?;
    let rest = expect(Mark::RightParen, rest)?;
    Ok((params_from(alloc, &texts)?, rest))
}

/// The ports of a module after their opening bracket.
#[tactic(auto, unfolding(crate::specs::Reader::some_ports))]
fn some_ports(alloc: Global, limit: u32, tokens: &[Token]) -> Result<(Items<Port>, &[Token]), Stop>
    ensures { Gives (λ x. (x.0, x.1.now)) result (spec.some_ports limit tokens.now) }
{
    let (texts, rest) = list_of(
        alloc,
        Separator::Comma,
        &PortReader { alloc, limit },
        tokens,
    )?;
    let rest = expect(Mark::RightParen, rest)?;
    Ok((ports_from(alloc, &texts)?, rest))
}

/// The ports of a module, where they are written.
#[tactic(auto, unfolding(crate::specs::Reader::port_list))]
fn port_list(alloc: Global, limit: u32, tokens: &[Token]) -> Result<(Items<Port>, &[Token]), Stop>
    ensures { Gives (λ x. (x.0, x.1.now)) result (spec.port_list limit tokens.now) }
{
    if !is_at(Mark::LeftParen, tokens) {
        return Ok((Items::new(alloc), tokens));
    }
    if is_at(Mark::RightParen, &tokens[1..]) {
        return Ok((Items::new(alloc), &tokens[2..]));
    }
    some_ports(alloc, limit, &tokens[1..])
}

/// What reads the imports in a head.
#[derive(Clone, Copy)]
struct ImportReader {
    alloc: Global,
}

impl GroupReader for ImportReader {
    type Item = Item;

    ghost can_read = { λ _. ⊤ };

    ghost goes_on = { λ _. spec.import_goes };

    ghost reads = { λ _. items.imports };

    #[tactic(auto, unfolding(crate::specs::Reader::import_goes))]
    fn goes(&self, tokens: &[Token]) -> bool {
        is_word(Word::Import, tokens)
    }

    fn read_group<'a>(&self, tokens: &'a [Token]) -> Result<(Items<Item>, &'a [Token]), Stop> {
        imports(self.alloc, tokens)
    }
}

/// The head of a module from its name on.
#[tactic(auto, unfolding(crate::specs::Reader::head))]
pub(crate) fn head(alloc: Global, limit: u32, tokens: &[Token]) -> Result<(Head, &[Token]), Stop>
    ensures { Gives (λ x. (x.0, x.1.now)) result (spec.head limit tokens.now) }
{
    let at = start(tokens);
    let (name, rest) = take_name(alloc, tokens)?;
    let (imports, rest) = groups_of(alloc, &ImportReader { alloc }, rest)?;
    let (params, rest) = param_list(alloc, limit, rest)?;
    let (ports, rest) = port_list(alloc, limit, rest)?;
    let rest = expect(Mark::Semicolon, rest)?;
    Ok((
        Head {
            at,
            name,
            imports,
            params,
            ports,
        },
        rest,
    ))
}
