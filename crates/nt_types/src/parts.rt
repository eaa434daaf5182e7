// What the items of a scope declare.
ghost use Rattle.std.specs.Prelude.{◌≡◌, ◌∷◌, [], map, IfOk, OnOk, None, Some};
ghost use Rattle.nt_items.specs.declared.item.Item.TheViews.{out-Item};
ghost use Rattle.nt_types.specs.Parts.{Adds, all_parts, object_part, param_part, parts_of, port_part, value_end};
ghost use Rattle.nt_types.specs.declared.parts.What.TheVariants as whats;

use crate::ends::end;
use nt_ast::{Declared, Path, TypeTree, copy_expr, copy_type};
use nt_items::{Item, Port};
use nt_scopes::{Entry, Scope};
use nt_type_trees::Dimension;
use nt_value::{Name, Place};
use sqlite_items::{Boxed, Items};
use std::alloc::{AllocError, Global};

/// What is declared under a name.
#[derive(Drop)]
pub enum What {
    /// A type, by the tree and the dimensions of its declaration (IEEE 1800-2017, 6.18).
    Type {
        of: Boxed<TypeTree>,
        dims: Items<Dimension>,
    },
    /// A constant, by the path under which its value is known.
    Constant(Path),
    /// A function, by the place of its declaration (13.4).
    Function(Place),
    /// A nettype, by the place of its declaration (6.6.7).
    Nettype(Place),
    /// Something else.
    Other,
}

// One declaration more.
fn add(
    scope: &mut Scope,
    all: &mut Items<What>,
    name: Name,
    from: Option<Place>,
    what: What,
) -> Result<(), AllocError>
    ensures { OnOk result (Adds scope.old scope.new all.old all.new (record { name = name; from = from; what = what } ∷ [])) }
{
    let number = all.as_slice().len();
    scope.declare(name, Entry { from, number })?;
    all.push(what)?;
    Ok(())
}

fn add_other(
    alloc: Global,
    scope: &mut Scope,
    all: &mut Items<What>,
    name: &Name,
    from: Option<Place>,
) -> Result<(), AllocError>
    ensures { OnOk result (Adds scope.old scope.new all.old all.new (record { name = name.now; from = from; what = whats.Other } ∷ [])) }
{
    let name = name.copy(alloc)?;
    add(scope, all, name, from, What::Other)
}

fn add_function(
    alloc: Global,
    scope: &mut Scope,
    all: &mut Items<What>,
    name: &Name,
    at: Place,
) -> Result<(), AllocError>
    ensures { OnOk result (Adds scope.old scope.new all.old all.new (record { name = name.now; from = None; what = whats.Function at } ∷ [])) }
{
    let name = name.copy(alloc)?;
    add(scope, all, name, None, What::Function(at))
}

fn add_nettype(
    alloc: Global,
    scope: &mut Scope,
    all: &mut Items<What>,
    name: &Name,
    at: Place,
) -> Result<(), AllocError>
    ensures { OnOk result (Adds scope.old scope.new all.old all.new (record { name = name.now; from = Some at; what = whats.Nettype at } ∷ [])) }
{
    let name = name.copy(alloc)?;
    add(scope, all, name, Some(at), What::Nettype(at))
}

fn copy_dims(alloc: Global, dims: &Items<Dimension>) -> Result<Items<Dimension>, AllocError>
    ensures { IfOk result (λ copy. copy ≡ dims.now) }
{
    let mut all = Items::new(alloc);
    for (left, right) in dims.as_slice() {
        let left = Boxed::new(alloc, copy_expr(alloc, left)?)?;
        let right = match right {
            None => None,
            Some(right) => Some(copy_expr(alloc, right)?),
        };
        all.push((left.into_inner(), right))?;
    }
    Ok(all)
}

fn add_type(
    alloc: Global,
    scope: &mut Scope,
    all: &mut Items<What>,
    of: &TypeTree,
    what: &Declared,
) -> Result<(), AllocError>
    ensures { OnOk result (Adds scope.old scope.new all.old all.new (record { name = what.now.name; from = Some what.now.at; what = whats.Type of.now what.now.dims } ∷ [])) }
{
    let of = Boxed::new(alloc, copy_type(alloc, of)?)?;
    let dims = copy_dims(alloc, &what.dims)?;
    let name = what.name.copy(alloc)?;
    add(scope, all, name, Some(what.at), What::Type { of, dims })
}

// Where the value of a parameter ends.
fn value_end_of(what: &Declared) -> Place
    ensures { result ≡ value_end what.now.at what.now.start }
{
    match &what.start {
        None => what.at,
        Some(start) => end(start),
    }
}

pub(crate) fn copy_name(alloc: Global, name: &Option<Name>) -> Result<Option<Name>, AllocError>
    ensures { IfOk result (λ copy. copy ≡ name.now) }
{
    match name {
        None => Ok(None),
        Some(name) => Ok(Some(name.copy(alloc)?)),
    }
}

fn add_param(
    alloc: Global,
    scope: &mut Scope,
    all: &mut Items<What>,
    prefix: &Option<Name>,
    what: &Declared,
) -> Result<(), AllocError>
    ensures { OnOk result (Adds scope.old scope.new all.old all.new (param_part prefix.now what.now ∷ [])) }
{
    let path = Path {
        at: what.at,
        scope: copy_name(alloc, prefix)?,
        name: what.name.copy(alloc)?,
    };
    let name = what.name.copy(alloc)?;
    add(
        scope,
        all,
        name,
        Some(value_end_of(what)),
        What::Constant(path),
    )
}

/// What an item declares.
pub(crate) fn add_item(
    alloc: Global,
    scope: &mut Scope,
    all: &mut Items<What>,
    prefix: &Option<Name>,
    item: &Item,
) -> Result<(), AllocError>
    ensures { OnOk result (Adds scope.old scope.new all.old all.new (parts_of prefix.now (out-Item item.now))) }
{
    match item {
        Item::Package { at, name, .. } => add_other(alloc, scope, all, name, Some(*at)),
        Item::Module { name, .. } => add_other(alloc, scope, all, name, None),
        Item::Import { .. } => Ok(()),
        Item::Typedef { kind, what, .. } => add_type(alloc, scope, all, kind.get(), what.get()),
        Item::Nettype(item) => add_nettype(alloc, scope, all, &item.name, item.at),
        Item::Function(item) => add_function(alloc, scope, all, &item.name, item.at),
        Item::Param { what, .. } => add_param(alloc, scope, all, prefix, what.get()),
        Item::Net { what, .. } => add_object(alloc, scope, all, what.get()),
        Item::Var { what, .. } => add_object(alloc, scope, all, what.get()),
        Item::Assign { .. } => Ok(()),
        Item::Instance { at, name, .. } => add_other(alloc, scope, all, name, Some(*at)),
        Item::Procedure(_) => Ok(()),
    }
}

fn add_object(
    alloc: Global,
    scope: &mut Scope,
    all: &mut Items<What>,
    what: &Declared,
) -> Result<(), AllocError>
    ensures { OnOk result (Adds scope.old scope.new all.old all.new (object_part what.now.at what.now.name ∷ [])) }
{
    add_other(alloc, scope, all, &what.name, Some(what.at))
}

/// What items declare.
pub(crate) fn add_items(
    alloc: Global,
    scope: &mut Scope,
    all: &mut Items<What>,
    prefix: &Option<Name>,
    items: &[Item],
) -> Result<(), AllocError>
    ensures { OnOk result (Adds scope.old scope.new all.old all.new (all_parts prefix.now items.now)) }
{
    for item in items {
        add_item(alloc, scope, all, prefix, item)?;
    }
    Ok(())
}

/// What ports declare.
pub(crate) fn add_ports(
    alloc: Global,
    scope: &mut Scope,
    all: &mut Items<What>,
    ports: &[Port],
) -> Result<(), AllocError>
    ensures { OnOk result (Adds scope.old scope.new all.old all.new (map port_part ports.now)) }
{
    for port in ports {
        add_object(alloc, scope, all, port.what.get())?;
    }
    Ok(())
}

// What a parameter of a module declares.
fn add_own_param(
    alloc: Global,
    scope: &mut Scope,
    all: &mut Items<What>,
    what: &Declared,
) -> Result<(), AllocError>
    ensures { OnOk result (Adds scope.old scope.new all.old all.new (param_part None what.now ∷ [])) }
{
    let prefix = None;
    add_param(alloc, scope, all, &prefix, what)
}

/// What the parameters of a module declare.
pub(crate) fn add_params(
    alloc: Global,
    scope: &mut Scope,
    all: &mut Items<What>,
    params: &[(Option<Boxed<TypeTree>>, Boxed<Declared>)],
) -> Result<(), AllocError>
    ensures { OnOk result (Adds scope.old scope.new all.old all.new (map (λ p. param_part None p.1) params.now)) }
{
    for (_kind, what) in params {
        add_own_param(alloc, scope, all, what.get())?;
    }
    Ok(())
}
