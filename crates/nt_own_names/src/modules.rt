// The names of a module.
ghost use Rattle.std.specs.Prelude.{◌≡◌, ◌++◌, map, IfOk, OnOk};
ghost use Rattle.std.specs.List.{flat_map};
ghost use Rattle.nt_diag.specs.Order.{IsLeastOf};
ghost use Rattle.nt_own_names.specs.Twice.{Twice, item_named, module_names, named};

use crate::named::{Named, add, add_declared, twice};
use nt_ast::{Declared, TypeTree};
use nt_diag::Refusal;
use nt_items::{Item, Port};
use sqlite_items::{Boxed, Items};
use std::alloc::{AllocError, Global};

fn add_params(
    alloc: Global,
    all: &mut Items<Named>,
    params: &[(Option<Boxed<TypeTree>>, Boxed<Declared>)],
) -> Result<(), AllocError>
    ensures { OnOk result (all.new ≡ all.old ++ map (λ p. named p.1) params.now) }
{
    for (_kind, what) in params {
        add_declared(alloc, all, what.get())?;
    }
    Ok(())
}

fn add_ports(alloc: Global, all: &mut Items<Named>, ports: &[Port]) -> Result<(), AllocError>
    ensures { OnOk result (all.new ≡ all.old ++ map (λ p. named p.what) ports.now) }
{
    for port in ports {
        add_declared(alloc, all, port.what.get())?;
    }
    Ok(())
}

fn add_item(alloc: Global, all: &mut Items<Named>, item: &Item) -> Result<(), AllocError>
    ensures { OnOk result (all.new ≡ all.old ++ item_named item.now) }
{
    match item {
        Item::Package { at, name, .. } => add(alloc, all, name, *at),
        Item::Module { at, name, .. } => add(alloc, all, name, *at),
        Item::Import { .. } => Ok(()),
        Item::Typedef { at, what, .. } => add(alloc, all, &what.get().name, *at),
        Item::Nettype(item) => add(alloc, all, &item.name, item.at),
        Item::Function(item) => add(alloc, all, &item.name, item.at),
        Item::Param { at, what, .. } => add(alloc, all, &what.get().name, *at),
        Item::Net { at, what, .. } => add(alloc, all, &what.get().name, *at),
        Item::Var { at, what, .. } => add(alloc, all, &what.get().name, *at),
        Item::Assign { .. } => Ok(()),
        Item::Instance { at, name, .. } => add(alloc, all, name, *at),
        Item::Procedure(_) => Ok(()),
    }
}

fn add_items(alloc: Global, all: &mut Items<Named>, items: &[Item]) -> Result<(), AllocError>
    ensures { OnOk result (all.new ≡ all.old ++ flat_map item_named items.now) }
{
    for item in items {
        add_item(alloc, all, item)?;
    }
    Ok(())
}

/// The least fault of the names of a module: T5 at a parameter, a port or an item of a name that stands there before, where parameters and
/// ports stand before the items (IEEE 1800-2017, 3.13, 23.2).
///
/// # Errors
///
/// `AllocError` alone.
pub fn module_twice(
    alloc: Global,
    params: &[(Option<Boxed<TypeTree>>, Boxed<Declared>)],
    ports: &[Port],
    items: &[Item],
) -> Result<Option<Refusal>, AllocError>
    ensures { IfOk result (λ r. IsLeastOf (Twice (module_names params.now ports.now items.now)) r) }
{
    let mut all = Items::new(alloc);
    add_params(alloc, &mut all, params)?;
    add_ports(alloc, &mut all, ports)?;
    add_items(alloc, &mut all, items)?;
    twice(alloc, all.as_slice())
}
