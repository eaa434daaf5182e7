// The modules of the unit.
ghost use Rattle.std.specs.Prelude.{◌≡◌, ◌++◌, map, length, option_map, option_to_list, slice_get, IfOk, OnOk};
ghost use Rattle.std.specs.List.{filter, flat_map};
ghost use Rattle.nt_items.specs.declared.item.Item.TheViews.{out-Item};
ghost use Rattle.nt_unit_names.specs.Faults.{unit_of};
ghost use Rattle.nt_unit_names.specs.Items.{declares};
ghost use Rattle.nt_instances.specs.Modules.{find_module, items_in, items_of, modules_of, param_name, param_names, param_names_in, port_names, port_names_in, settable};
ghost use Rattle.nt_instances.specs.Modules.{is_module as is_module_node};

use nt_ast::{Declared, TypeTree};
use nt_items::{Item, Port, Units};
use nt_value::Name;
use sqlite_items::{Boxed, Items};
use std::alloc::{AllocError, Global};
use std::marker::Model;

fn is_module(item: &Item) -> bool
    ensures { result ≡ is_module_node (out-Item item.now) }
{
    matches!(item, Item::Module { .. })
}

fn is_named(name: &Name, item: &Item) -> bool
    ensures { result ≡ declares name.now item.now }
{
    let own = match item {
        Item::Package { name, .. } => name,
        Item::Module { name, .. } => name,
        Item::Import { .. } => return false,
        Item::Typedef { what, .. } => &what.get().name,
        Item::Nettype(item) => &item.name,
        Item::Function(item) => &item.name,
        Item::Param { what, .. } => &what.get().name,
        Item::Net { what, .. } => &what.get().name,
        Item::Var { what, .. } => &what.get().name,
        Item::Assign { .. } => return false,
        Item::Instance { name, .. } => name,
        Item::Procedure(_) => return false,
    };
    name.items() == own.items()
}

fn add_modules<'a>(all: &mut Vec<&'a Item>, items: &'a [Item]) -> Result<(), AllocError>
    ensures { OnOk result (map (λ x. x.now) all.new.items ≡ map (λ x. x.now) all.old.items ++ modules_of items.now) }
{
    for item in items {
        if is_module(item) {
            all.push(item)?;
        }
    }
    Ok(())
}

fn inner_items(of: &Item) -> &[Item]
    ensures { result.now ≡ items_in (out-Item of.now) }
{
    match of {
        Item::Module { items, .. } => items.as_slice(),
        _ => &[],
    }
}

fn names_of_ports(alloc: Global, ports: &[Port]) -> Result<Vec<&Name>, AllocError>
    ensures { IfOk result (λ all. map (λ n. n.now) all.items ≡ map (λ p. (p.what).name) ports.now) }
{
    let mut all = Vec::new(alloc);
    for port in ports {
        all.push(&port.what.get().name)?;
    }
    Ok(all)
}

fn names_of_params(
    alloc: Global,
    params: &[(Option<Boxed<TypeTree>>, Boxed<Declared>)],
) -> Result<Vec<&Name>, AllocError>
    ensures { IfOk result (λ all. map (λ n. n.now) all.items ≡ map (λ p. (p.1).name) params.now) }
{
    let mut all = Vec::new(alloc);
    for (_kind, what) in params {
        all.push(&what.get().name)?;
    }
    Ok(all)
}

// A parameter that is no local one.
fn param_of(item: &Item) -> Option<&Name>
    ensures { param_name (out-Item item.now) ≡ option_to_list (option_map (λ n. n.now) result) }
{
    match item {
        Item::Param { local, what, .. } => { if *local { None } else { Some(&what.get().name) } }
        _ => None,
    }
}

fn names_of_items(alloc: Global, items: &[Item]) -> Result<Vec<&Name>, AllocError>
    ensures { IfOk result (λ all. map (λ n. n.now) all.items ≡ flat_map (λ x. param_name (out-Item x)) items.now) }
{
    let mut all = Vec::new(alloc);
    for item in items {
        if let Some(name) = param_of(item) {
            all.push(name)?;
        }
    }
    Ok(all)
}

fn find_in(modules: &[&Item], name: &Name) -> Option<usize>
    ensures { result ≡ find_module (map (λ x. x.now) modules.now) name.now }
{
    for number in 0..modules.len() {
        if is_named(name, modules[number]) {
            return Some(number);
        }
    }
    None
}

/// The modules of the unit in the order of the source. Contracts see the list of these items; a module's number is its place there.
#[derive(Drop)]
pub struct Modules<'a> {
    modules: Vec<&'a Item>,
}

impl<'a> Model for Modules<'a> {
    ghost use Rattle.std.specs.Prelude.{List, map};
    ghost use Rattle.std.specs.Coded.{codes};
    ghost use Rattle.nt_items.specs.declared.item.Item.{Item};
    ghost use Rattle.nt_items.specs.contracts.item.Item as item;

    ghost Value = { List Item };

    ghost coded = { Prim.hlevel (codes, item.the_row.coded) };

    ghost view = { λ m. map (λ x. x.now) m.modules.items };
}

impl<'a> Modules<'a> {
    /// The modules of all files (IEEE 1800-2017, 3.3).
    ///
    /// # Errors
    ///
    /// `AllocError` alone.
    pub fn of(alloc: Global, units: &'a [Units]) -> Result<Modules<'a>, AllocError>
        ensures { IfOk result (λ m. m ≡ modules_of (unit_of units.now)) }
    {
        let mut all = Vec::new(alloc);
        for file in units {
            add_modules(&mut all, file.items.as_slice())?;
        }
        Ok(Modules { modules: all })
    }

    /// How many there are.
    pub fn len(&self) -> usize
        ensures { result ≡ length self.now }
    {
        self.modules.len()
    }

    /// The number of the first module of a name. It takes no memory. The time is that of their number.
    pub fn find(&self, name: &Name) -> Option<usize>
        ensures { result ≡ find_module self.now name.now }
    {
        find_in(&self.modules, name)
    }

    /// The items of a module. It takes no memory.
    pub fn items(&self, number: usize) -> &'a [Item]
        ensures { result.now ≡ items_of (slice_get self.now number) }
    {
        match self.modules.get(number) {
            Some(module) => inner_items(module),
            None => &[],
        }
    }

    /// The names of its ports, in order (23.2.2).
    ///
    /// # Errors
    ///
    /// `AllocError` alone.
    pub fn port_names(&self, alloc: Global, number: usize) -> Result<Vec<&'a Name>, AllocError>
        ensures { IfOk result (λ all. map (λ n. n.now) all.items ≡ port_names (slice_get self.now number)) }
    {
        match self.modules.get(number) {
            Some(Item::Module { ports, .. }) => names_of_ports(alloc, ports.as_slice()),
            _ => Ok(Vec::new(alloc)),
        }
    }

    /// The names of the parameters that an instance may set: those of its head, or, where the head has none, those of its items (6.20.1).
    ///
    /// # Errors
    ///
    /// `AllocError` alone.
    pub fn param_names(&self, alloc: Global, number: usize) -> Result<Vec<&'a Name>, AllocError>
        ensures { IfOk result (λ all. map (λ n. n.now) all.items ≡ param_names (slice_get self.now number)) }
    {
        match self.modules.get(number) {
            Some(Item::Module { params, items, .. }) => {
                if params.is_empty() {
                    names_of_items(alloc, items.as_slice())
                } else {
                    names_of_params(alloc, params.as_slice())
                }
            }
            _ => Ok(Vec::new(alloc)),
        }
    }
}
