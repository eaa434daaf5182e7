// Modules, packages, and the units of a file.
ghost use Rattle.std.specs.Prelude.{◌≡◌, ⊤, [], ◌∷◌, ◌++◌, ◌+◌, Some, IfOk};
ghost use Rattle.nt_items.specs.declared.item.Item.TheVariants as i;
ghost use Rattle.nt_read_expr.specs.Gives.{Gives};
ghost use Rattle.nt_read_item.specs.Reader as items;
ghost use Rattle.nt_read_module.specs.Reader as spec;

use crate::carried::Head;
use crate::front::is_end;
use crate::heads::head;
use nt_items::Item;
use nt_lexer::{Mark, Token, Word};
use nt_read_expr::{Stop, expect, start};
use nt_read_item::{module_item, package_item};
use nt_read_stmt::{expect_word, is_word, past_label, take_name};
use nt_read_unit::{GroupReader, groups_of};
use nt_value::{Name, Place};
use sqlite_items::Items;
use std::alloc::{AllocError, Global};

/// What reads the items of a module.
#[derive(Clone, Copy)]
struct ModuleReader {
    alloc: Global,
    limit: u32,
}

impl GroupReader for ModuleReader {
    type Item = Item;

    ghost can_read = { λ _. ⊤ };

    ghost goes_on = { λ _. spec.module_goes };

    ghost reads = { λ s. items.module_item s.limit };

    #[tactic(auto, unfolding(crate::specs::Reader::module_goes))]
    fn goes(&self, tokens: &[Token]) -> bool {
        !is_word(Word::EndModule, tokens)
    }

    fn read_group<'a>(&self, tokens: &'a [Token]) -> Result<(Items<Item>, &'a [Token]), Stop> {
        module_item(self.alloc, self.limit, tokens)
    }
}

/// What reads the items of a package.
#[derive(Clone, Copy)]
struct PackageReader {
    alloc: Global,
    limit: u32,
}

impl GroupReader for PackageReader {
    type Item = Item;

    ghost can_read = { λ _. ⊤ };

    ghost goes_on = { λ _. spec.package_goes };

    ghost reads = { λ s. items.package_item s.limit };

    #[tactic(auto, unfolding(crate::specs::Reader::package_goes))]
    fn goes(&self, tokens: &[Token]) -> bool {
        !is_word(Word::EndPackage, tokens)
    }

    fn read_group<'a>(&self, tokens: &'a [Token]) -> Result<(Items<Item>, &'a [Token]), Stop> {
        package_item(self.alloc, self.limit, tokens)
    }
}

/// A list of the module with this head and these items.
fn one_module(alloc: Global, head: Head, more: Items<Item>) -> Result<Items<Item>, AllocError>
    ensures { IfOk result (λ xs. xs ≡ i.Module head.at head.name head.params head.ports (head.imports ++ more) ∷ []) }
{
    let Head {
        at,
        name,
        imports,
        params,
        ports,
    } = head;
    let mut items = imports;
    items.append(more)?;
    let mut all = Items::new(alloc);
    all.push(Item::Module {
        at,
        name,
        params,
        ports,
        items,
    })?;
    Ok(all)
}

#[tactic(auto, unfolding(crate::specs::Reader::module_unit))]
fn module_unit(alloc: Global, limit: u32, tokens: &[Token]) -> Result<(Items<Item>, &[Token]), Stop>
    ensures { Gives (λ x. (x.0, x.1.now)) result (spec.module_unit limit tokens.now) }
{
    let rest = expect_word(Word::Module, tokens)?;
    let (head, rest) = head(alloc, limit, rest)?;
    let (items, rest) = groups_of(alloc, &ModuleReader { alloc, limit }, rest)?;
    let rest = expect_word(Word::EndModule, rest)?;
    let rest = past_label(rest)?;
    Ok((one_module(alloc, head, items)?, rest))
}

/// A list of this package alone.
fn one_package(
    alloc: Global,
    at: Place,
    name: Name,
    items: Items<Item>,
) -> Result<Items<Item>, AllocError>
    ensures { IfOk result (λ xs. xs ≡ i.Package at name items ∷ []) }
{
    let mut all = Items::new(alloc);
    all.push(Item::Package { at, name, items })?;
    Ok(all)
}

#[tactic(auto, unfolding(crate::specs::Reader::package_unit))]
fn package_unit(
    alloc: Global,
    limit: u32,
    tokens: &[Token],
) -> Result<(Items<Item>, &[Token]), Stop>
    ensures { Gives (λ x. (x.0, x.1.now)) result (spec.package_unit limit tokens.now) }
{
    let rest = expect_word(Word::Package, tokens)?;
    let at = start(rest);
    let (name, rest) = take_name(alloc, rest)?;
    let rest = expect(Mark::Semicolon, rest)?;
    let (items, rest) = groups_of(alloc, &PackageReader { alloc, limit }, rest)?;
    let rest = expect_word(Word::EndPackage, rest)?;
    let rest = past_label(rest)?;
    Ok((one_package(alloc, at, name, items)?, rest))
}

/// A module, a package, or items outside of both, and what follows (IEEE 1800-2017, A.1.2).
///
/// # Errors
///
/// `Refused` where no unit stands first, `Memory` where memory ran out.
#[tactic(auto, unfolding(crate::specs::Reader::unit))]
pub fn unit(alloc: Global, limit: u32, tokens: &[Token]) -> Result<(Items<Item>, &[Token]), Stop>
    ensures { Gives (λ x. (x.0, x.1.now)) result (spec.unit limit tokens.now) }
{
    if is_word(Word::Module, tokens) {
        return module_unit(alloc, limit, tokens);
    }
    if is_word(Word::Package, tokens) {
        return package_unit(alloc, limit, tokens);
    }
    package_item(alloc, limit, tokens)
}

/// What reads units.
#[derive(Clone, Copy)]
struct UnitReader {
    alloc: Global,
    limit: u32,
}

impl GroupReader for UnitReader {
    type Item = Item;

    ghost can_read = { λ _. ⊤ };

    ghost goes_on = { λ _. spec.unit_goes };

    ghost reads = { λ s. spec.unit s.limit };

    #[tactic(auto, unfolding(crate::specs::Reader::unit_goes))]
    fn goes(&self, tokens: &[Token]) -> bool {
        !is_end(tokens)
    }

    fn read_group<'a>(&self, tokens: &'a [Token]) -> Result<(Items<Item>, &'a [Token]), Stop> {
        unit(self.alloc, self.limit, tokens)
    }
}

/// The units of a file, up to its end (IEEE 1800-2017, A.1.2).
///
/// # Errors
///
/// `Refused` where one begins that is no unit, `Memory` where memory ran out.
#[tactic(auto, unfolding(crate::specs::Reader::source))]
pub fn source(alloc: Global, limit: u32, tokens: &[Token]) -> Result<(Items<Item>, &[Token]), Stop>
    ensures { Gives (λ x. (x.0, x.1.now)) result (spec.source limit tokens.now) }
{
    groups_of(alloc, &UnitReader { alloc, limit }, tokens)
}
