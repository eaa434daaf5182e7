// The design.
use crate::{Assign, Function, Net, Object, Proc, Var};
use nt_value::{Name, Unit};
use sqlite_items::Items;

/// A scope, or a name in one with its object: a line of the list in which scopes and names stand as a tree, by depth.
#[derive(Debug, Drop)]
pub struct Scoped {
    pub depth: u32,
    pub name: Name,
    pub object: Option<Object>,
}

/// An elaborated design. Nets, variables, procedures, assignments and functions are numbered from 0 in the order of
/// these lists.
#[derive(Drop)]
pub struct Design {
    pub nets: Items<Net>,
    pub vars: Items<Var>,
    pub procs: Items<Proc>,
    pub assigns: Items<Assign>,
    pub functions: Items<Function>,
    pub scopes: Items<Scoped>,
    pub unit: Unit,
}
