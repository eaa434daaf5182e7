// Names and places of items.
ghost use Rattle.std.specs.Prelude.{◌≡◌, ◌||◌, option_map};
ghost use Rattle.std.specs.Str.{bytes_eq};
ghost use Rattle.nt_items.specs.declared.item.Item.TheViews.{out-Item};
ghost use Rattle.std.specs.List.{list_any};
ghost use Rattle.nt_unit_names.specs.Faults.{unit_of};
ghost use Rattle.nt_unit_names.specs.Items.{declared_name, declares, is_declared, is_package_at, is_package_with, item_place};
ghost use Rattle.nt_unit_names.specs.Items.{is_before as before, is_there as there};

use nt_items::{Item, Units};
use nt_value::{Name, Place};

// The name that an item declares.
pub(crate) fn name_of(item: &Item) -> Option<&Name>
    ensures { option_map (λ n. n.now) result ≡ declared_name (out-Item item.now) }
{
    match item {
        Item::Package { name, .. } => Some(name),
        Item::Module { name, .. } => Some(name),
        Item::Import { .. } => None,
        Item::Typedef { what, .. } => Some(&what.get().name),
        Item::Nettype(item) => Some(&item.name),
        Item::Function(item) => Some(&item.name),
        Item::Param { what, .. } => Some(&what.get().name),
        Item::Net { what, .. } => Some(&what.get().name),
        Item::Var { what, .. } => Some(&what.get().name),
        Item::Assign { .. } => None,
        Item::Instance { name, .. } => Some(name),
        Item::Procedure(_) => None,
    }
}

// Where an item stands.
pub(crate) fn place(item: &Item) -> Place
    ensures { result ≡ item_place (out-Item item.now) }
{
    match item {
        Item::Package { at, .. } => *at,
        Item::Module { at, .. } => *at,
        Item::Import { at, .. } => *at,
        Item::Typedef { at, .. } => *at,
        Item::Nettype(item) => item.at,
        Item::Function(item) => item.at,
        Item::Param { at, .. } => *at,
        Item::Net { at, .. } => *at,
        Item::Var { at, .. } => *at,
        Item::Assign { at, .. } => *at,
        Item::Instance { at, .. } => *at,
        Item::Procedure(item) => item.at,
    }
}

pub(crate) fn is_before(a: Place, b: Place) -> bool
    ensures { result ≡ before a b }
{
    a.file < b.file || (a.file == b.file && a.offset < b.offset)
}

pub(crate) fn same(a: &Name, b: &Name) -> bool
    ensures { result ≡ bytes_eq a.now b.now }
{
    a == b
}

// Whether an item declares this name.
fn is_of(name: &Name, item: &Item) -> bool
    ensures { result ≡ declares name.now item.now }
{
    match name_of(item) {
        None => false,
        Some(own) => same(name, own),
    }
}

// Whether one of several does.
pub(crate) fn any_declares(name: &Name, items: &[Item]) -> bool
    ensures { result ≡ is_declared name.now items.now }
{
    items.iter().any(|item| is_of(name, item))
}

// Whether an item is a package of this name before a place.
fn is_package_at(at: Place, scope: &Name, item: &Item) -> bool
    ensures { result ≡ is_package_at at scope.now (out-Item item.now) }
{
    match item {
        Item::Package { at: own, name, .. } => same(scope, name) && is_before(*own, at),
        _ => false,
    }
}

// Whether it declares a name besides.
fn is_package_with(at: Place, scope: &Name, name: &Name, item: &Item) -> bool
    ensures { result ≡ is_package_with at scope.now name.now (out-Item item.now) }
{
    match item {
        Item::Package {
            at: own,
            name: package,
            items,
        } => { same(scope, package) && is_before(*own, at) && any_declares(name, items.as_slice()) }
        _ => false,
    }
}

fn any_package(at: Place, scope: &Name, items: &[Item]) -> bool
    ensures { result ≡ list_any (λ x. is_package_at at scope.now (out-Item x)) items.now }
{
    items.iter().any(|item| is_package_at(at, scope, item))
}

fn any_package_with(at: Place, scope: &Name, name: &Name, items: &[Item]) -> bool
    ensures { result ≡ list_any (λ x. is_package_with at scope.now name.now (out-Item x)) items.now }
{
    items
        .iter()
        .any(|item| is_package_with(at, scope, name, item))
}

// Whether items have what an import names.
fn have(items: &[Item], at: Place, scope: &Name, name: &Option<Name>) -> bool
    ensures { result ≡ there items.now at scope.now name.now }
{
    match name {
        None => any_package(at, scope, items),
        Some(name) => any_package_with(at, scope, name, items),
    }
}

fn either(a: bool, b: bool) -> bool
    ensures { result ≡ (a || b) }
{
    a || b
}

// Whether the unit has.
pub(crate) fn is_there(units: &[Units], at: Place, scope: &Name, name: &Option<Name>) -> bool
    ensures { result ≡ there (unit_of units.now) at scope.now name.now }
{
    let mut found = false;
    for file in units {
        found = either(found, have(file.items.as_slice(), at, scope, name));
    }
    found
}
