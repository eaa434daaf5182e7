// The design of a table.
ghost use Rattle.std.specs.Prelude.{◌≡◌, ◌<◌, ◌≤◌, ◌++◌, ◌∷◌, [], List, ℕ, IfOk, codes, length, map, option_to_list};
ghost use Rattle.nt_small.specs.Elaboration.{net_of_name, scopes_of, design_of, file_start, int_leaf};
ghost use Rattle.nt_small.specs.Grammar.{Source};
ghost use Rattle.nt_small.specs.Tables.{IsTable, drivers_of};
ghost use Rattle.nt_design.specs.declared.object.NetKind.TheVariants.{Unresolved};

use crate::table::{FILE_START, Table};
use nt_design::{Design, Net, NetKind, Object, Scoped};
use nt_value::{Base, Leaf, Name, Shape, Unit};
use sqlite_items::Items;
use std::alloc::{AllocError, Global};

fn path(alloc: Global, top: &[u8], net: &[u8]) -> Result<Name, AllocError>
    ensures { IfOk result (λ name. name ≡ top.now ++ (codes "." ++ net.now)) }
{
    let mut bytes = Vec::from_slice(alloc, top)?;
    bytes.extend_from_slice(b".")?;
    bytes.extend_from_slice(net)?;
    Ok(Name::new(bytes))
}

fn int_shape(alloc: Global) -> Result<Shape, AllocError>
    ensures { IfOk result (λ shape. shape ≡ int_leaf ∷ []) }
{
    Ok(Shape::new(vec![in alloc; Leaf::INT]?))
}

// The slot of a net that has a driver.
fn slots(alloc: Global, driver: Option<u32>) -> Result<Items<u32>, AllocError>
    ensures { IfOk result (λ slots. slots ≡ option_to_list driver) }
{
    match driver {
        Some(at) => Items::from_slice(alloc, &[at]),
        None => Ok(Items::new(alloc)),
    }
}

fn net(alloc: Global, top: &[u8], name: &[u8], driver: Option<u32>) -> Result<Net, AllocError>
    ensures { IfOk result (λ net. net ≡ record { name = top.now ++ (codes "." ++ name.now); shape = int_leaf ∷ []; kind = Unresolved; slots = option_to_list driver; at = file_start }) }
{
    Ok(Net {
        name: path(alloc, top, name)?,
        shape: int_shape(alloc)?,
        kind: NetKind::Unresolved,
        slots: slots(alloc, driver)?,
        at: FILE_START,
    })
}

fn nets(alloc: Global, top: &[u8], table: &Table<'_>) -> Result<Items<Net>, AllocError>
    requires { length table.now.drivers ≡ length table.now.names }
    ensures { IfOk result (λ nets. (driven : List (List ℕ)) → table.now.drivers ≡ drivers_of driven table.now.names → nets ≡ map (net_of_name top.now driven) table.now.names) }
{
    let mut nets = Items::new(alloc);
    for at in 0..table.names.len() {
        nets.push(net(alloc, top, table.names.name(at), table.driver(at))?)?;
    }
    Ok(nets)
}

// A scope, or a name in one.
fn scoped(
    alloc: Global,
    depth: u32,
    name: &[u8],
    object: Option<Object>,
) -> Result<Scoped, AllocError>
    ensures { IfOk result (λ scoped. scoped ≡ record { depth = depth; name = name.now; object = object }) }
{
    Ok(Scoped {
        depth,
        name: Name::from_slice(alloc, name)?,
        object,
    })
}

// The module, and in it each net with its number.
fn scopes(alloc: Global, top: &[u8], table: &Table<'_>) -> Result<Items<Scoped>, AllocError>
    requires { length table.now.names ≤ 16384 }
    ensures { IfOk result (λ scopes. scopes ≡ scopes_of top.now table.now.names) }
{
    let mut scopes = Items::new(alloc);
    scopes.push(scoped(alloc, 0, top, None)?)?;
    for at in 0..table.names.len() {
        let net = Object::Net(at as u32);
        scopes.push(scoped(alloc, 1, table.names.name(at), Some(net))?)?;
    }
    Ok(scopes)
}

/// The design of a module `top` whose items made this table.
pub fn elaborate(alloc: Global, top: &[u8], table: Table<'_>) -> Result<Design, AllocError>
    requires columns { length table.drivers ≡ length table.names }
    requires few { length table.names ≤ 16384 }
    ensures { IfOk result (λ design. (s : Source) → s.top ≡ top.now → IsTable table.entry s.items → design ≡ design_of s) }
{
    let nets = nets(alloc, top, &table)?;
    let scopes = scopes(alloc, top, &table)?;
    Ok(Design {
        nets,
        assigns: table.assigns,
        vars: Items::new(alloc),
        procs: Items::new(alloc),
        functions: Items::new(alloc),
        scopes,
        unit: Unit {
            ten: 0,
            base: Base::Ns,
        },
    })
}
