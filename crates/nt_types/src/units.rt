// The scopes of units.
ghost use Rattle.std.specs.Prelude.{◌≡◌, ◌++◌, map, IfOk, OnOk, None, Some};
ghost use Rattle.nt_ast.specs.declared.types.TypeTree.TheViews.{out-TypeTree};
ghost use Rattle.nt_items.specs.declared.item.Item.TheViews.{out-Item};
ghost use Rattle.nt_type_trees.specs.Types.{type_place};
ghost use Rattle.nt_scopes.specs.Means.{counts as counts_at};
ghost use Rattle.nt_types.specs.Units.{AreParts, IsInner, IsScope, IsUnit, all_imports, homes_from, import_by, imports_of, package_added, packages_from, packages_of, start_of};
ghost use Rattle.nt_types.specs.Parts.{Adds, all_parts, param_part, port_part};
ghost use Rattle.nt_types.specs.Units.{home_scope as scope_at};
ghost use Rattle.nt_unit_names.specs.Faults.{unit_of};

use crate::ends::is_before;
use crate::parts::{What, add_item, add_items, add_params, add_ports, copy_name};
use nt_ast::{Declared, TypeTree};
use nt_items::{Item, Port, Units};
use nt_scopes::{Entry, Import, Scope};
use nt_value::{Name, Place};
use sqlite_items::{Boxed, Items};
use std::alloc::{AllocError, Global};

/// Where an item of the unit begins, and the number of the scope of what stands in it, beside the unit's own.
#[derive(Clone, Copy, Debug)]
pub struct Home {
    pub start: Place,
    pub scope: Option<usize>,
}

fn add_refs<'a>(all: &mut Vec<&'a Item>, items: &'a [Item]) -> Result<(), AllocError>
    ensures { OnOk result (map (λ x. x.now) all.new.items ≡ map (λ x. x.now) all.old.items ++ items.now) }
{
    for item in items {
        all.push(item)?;
    }
    Ok(())
}

// The items of all files.
pub(crate) fn items_of(alloc: Global, units: &[Units]) -> Result<Vec<&Item>, AllocError>
    ensures { IfOk result (λ all. map (λ x. x.now) all.items ≡ unit_of units.now) }
{
    let mut all = Vec::new(alloc);
    for file in units {
        add_refs(&mut all, file.items.as_slice())?;
    }
    Ok(all)
}

// Where a type begins.
fn type_start(tree: &TypeTree) -> Place
    ensures { result ≡ type_place (out-TypeTree tree.now) }
{
    match tree {
        TypeTree::Integral { at, .. } => *at,
        TypeTree::Struct { at, .. } => *at,
        TypeTree::Named { at, .. } => *at,
        TypeTree::Void { at } => *at,
    }
}

// Where an item begins.
fn start(item: &Item) -> Place
    ensures { result ≡ start_of (out-Item item.now) }
{
    match item {
        Item::Package { at, .. } => *at,
        Item::Module { at, .. } => *at,
        Item::Import { at, .. } => *at,
        Item::Typedef { kind, .. } => type_start(kind.get()),
        Item::Nettype(item) => type_start(item.base.get()),
        Item::Function(item) => type_start(item.result.get()),
        Item::Param { at, kind, .. } => match kind {
            None => *at,
            Some(kind) => type_start(kind.get()),
        },
        Item::Net { of, .. } => type_start(of.get()),
        Item::Var { of, .. } => type_start(of.get()),
        Item::Assign { at, .. } => *at,
        Item::Instance { module_at, .. } => *module_at,
        Item::Procedure(item) => item.at,
    }
}

pub(crate) fn counts(from: Option<Place>, at: Place) -> bool
    ensures { result ≡ counts_at from at }
{
    match from {
        None => true,
        Some(from) => is_before(from, at),
    }
}

fn home_scope(number: usize, item: &Item) -> Option<usize>
    ensures { result ≡ scope_at number (out-Item item.now) }
{
    match item {
        Item::Package { .. } => Some(number),
        Item::Module { .. } => Some(number),
        _ => None,
    }
}

pub(crate) fn homes(alloc: Global, unit: &[&Item]) -> Result<Items<Home>, AllocError>
    ensures { IfOk result (λ all. all ≡ homes_from 1 (map (λ x. x.now) unit.now)) }
{
    let mut all = Items::new(alloc);
    for k in 0..unit.len() {
        let item = unit[k];
        all.push(Home {
            start: start(item),
            scope: home_scope(k + 1, item),
        })?;
    }
    Ok(all)
}

fn add_package(
    alloc: Global,
    packages: &mut Scope,
    number: usize,
    item: &Item,
) -> Result<(), AllocError>
    ensures { OnOk result (packages.new.names ≡ package_added packages.old.names number (out-Item item.now)) }
{
    match item {
        Item::Package { at, name, .. } => {
            let name = name.copy(alloc)?;
            packages.declare(
                name,
                Entry {
                    from: Some(*at),
                    number,
                },
            )?;
            Ok(())
        }
        _ => Ok(()),
    }
}

// The packages of the unit.
pub(crate) fn packages(alloc: Global, unit: &[&Item]) -> Result<Scope, AllocError>
    ensures { IfOk result (λ all. all.names ≡ packages_of (map (λ x. x.now) unit.now)) }
{
    let mut all = Scope::new(alloc);
    for k in 0..unit.len() {
        add_package(alloc, &mut all, k + 1, unit[k])?;
    }
    Ok(all)
}

// What an item imports.
fn add_import(
    alloc: Global,
    scope: &mut Scope,
    packages: &Scope,
    item: &Item,
) -> Result<(), AllocError>
    ensures imports { OnOk result (scope.new.imports ≡ scope.old.imports ++ imports_of packages.now.names (out-Item item.now)) }
    ensures names { scope.new.names ≡ scope.old.names }
{
    match item {
        Item::Import {
            at,
            scope: from,
            name,
        } => add_found(alloc, scope, packages.find(from), *at, name),
        _ => Ok(()),
    }
}

fn add_found(
    alloc: Global,
    scope: &mut Scope,
    found: Option<Entry>,
    at: Place,
    name: &Option<Name>,
) -> Result<(), AllocError>
    ensures imports { OnOk result (scope.new.imports ≡ scope.old.imports ++ import_by found at name.now) }
    ensures names { scope.new.names ≡ scope.old.names }
{
    match found {
        None => Ok(()),
        Some(entry) => {
            if !counts(entry.from, at) {
                return Ok(());
            }
            let name = copy_name(alloc, name)?;
            scope.import(Import {
                at,
                package: entry.number,
                name,
            })
        }
    }
}

// What items import.
fn add_imports(
    alloc: Global,
    scope: &mut Scope,
    packages: &Scope,
    items: &[Item],
) -> Result<(), AllocError>
    ensures imports { OnOk result (scope.new.imports ≡ scope.old.imports ++ all_imports packages.now.names items.now) }
    ensures names { scope.new.names ≡ scope.old.names }
{
    for item in items {
        add_import(alloc, scope, packages, item)?;
    }
    Ok(())
}

fn package_scope(
    alloc: Global,
    packages: &Scope,
    all: &mut Items<What>,
    name: &Name,
    items: &[Item],
) -> Result<Scope, AllocError>
    ensures { IfOk result (λ s. IsScope packages.now.names all.old all.new (all_parts (Some name.now) items.now) items.now s) }
{
    let mut scope = Scope::new(alloc);
    let prefix = Some(name.copy(alloc)?);
    add_items(alloc, &mut scope, all, &prefix, items)?;
    add_imports(alloc, &mut scope, packages, items)?;
    Ok(scope)
}

// What the items of a module declare.
fn add_own_items(
    alloc: Global,
    scope: &mut Scope,
    all: &mut Items<What>,
    items: &[Item],
) -> Result<(), AllocError>
    ensures { OnOk result (Adds scope.old scope.new all.old all.new (all_parts None items.now)) }
{
    let prefix = None;
    add_items(alloc, scope, all, &prefix, items)
}

fn module_scope(
    alloc: Global,
    packages: &Scope,
    all: &mut Items<What>,
    params: &[(Option<Boxed<TypeTree>>, Boxed<Declared>)],
    ports: &[Port],
    items: &[Item],
) -> Result<Scope, AllocError>
    ensures { IfOk result (λ s. IsScope packages.now.names all.old all.new ((map (λ p. param_part None p.1) params.now ++ map port_part ports.now) ++ all_parts None items.now) items.now s) }
{
    let mut scope = Scope::new(alloc);
    add_params(alloc, &mut scope, all, params)?;
    add_ports(alloc, &mut scope, all, ports)?;
    add_own_items(alloc, &mut scope, all, items)?;
    add_imports(alloc, &mut scope, packages, items)?;
    Ok(scope)
}

// The scope of a package or a module, and an empty one for anything else.
fn inner_scope(
    alloc: Global,
    packages: &Scope,
    all: &mut Items<What>,
    item: &Item,
) -> Result<Scope, AllocError>
    ensures { IfOk result (λ s. IsInner packages.now.names item.now all.old all.new s) }
{
    match item {
        Item::Package { name, items, .. } => {
            let scope = package_scope(alloc, packages, all, name, items.as_slice())?;
            Ok(scope)
        }
        Item::Module {
            params,
            ports,
            items,
            ..
        } => {
            let scope = module_scope(
                alloc,
                packages,
                all,
                params.as_slice(),
                ports.as_slice(),
                items.as_slice(),
            )?;
            Ok(scope)
        }
        _ => Ok(Scope::new(alloc)),
    }
}

// What the items of the unit declare, each before what is declared in it, and the scopes of packages and modules.
fn add_parts(
    alloc: Global,
    packages: &Scope,
    first: &mut Scope,
    inner: &mut Vec<Scope>,
    all: &mut Items<What>,
    prefix: &Option<Name>,
    unit: &[&Item],
) -> Result<(), AllocError>
    ensures { OnOk result (AreParts prefix.now packages.now.names (map (λ x. x.now) unit.now) all.old all.new first.old first.new inner.old.items inner.new.items) }
{
    for item in unit {
        add_item(alloc, first, all, prefix, item)?;
        let scope = inner_scope(alloc, packages, all, item)?;
        inner.push(scope)?;
    }
    Ok(())
}

// The scope of the unit, and those in it.
pub(crate) fn unit_scope(
    alloc: Global,
    packages: &Scope,
    inner: &mut Vec<Scope>,
    all: &mut Items<What>,
    unit: &[&Item],
) -> Result<Scope, AllocError>
    ensures { IfOk result (λ s. IsUnit packages.now.names (map (λ x. x.now) unit.now) all.old all.new inner.old.items inner.new.items s) }
{
    let mut scope = Scope::new(alloc);
    let prefix = Some(Name::from_slice(alloc, b"$unit")?);
    add_parts(alloc, packages, &mut scope, inner, all, &prefix, unit)?;
    import_unit(alloc, &mut scope, packages, unit)?;
    Ok(scope)
}

fn import_unit(
    alloc: Global,
    scope: &mut Scope,
    packages: &Scope,
    unit: &[&Item],
) -> Result<(), AllocError>
    ensures imports { OnOk result (scope.new.imports ≡ scope.old.imports ++ all_imports packages.now.names (map (λ x. x.now) unit.now)) }
    ensures names { scope.new.names ≡ scope.old.names }
{
    for item in unit {
        add_import(alloc, scope, packages, item)?;
    }
    Ok(())
}
