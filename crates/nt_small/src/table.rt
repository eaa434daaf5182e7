// The nets and the assignments of a module, gathered from its items.
ghost use Rattle.std.specs.Prelude.{◌≡◌, ◌<◌, ◌≤◌, ◌≢◌, ◌↔◌, ◌++◌, ◌∷◌, [], IsTrue, IfOk, IfSome, IfNone, OnOk, List, ℕ, length, map, Some, None, slice_get, slice_set};
ghost use Rattle.nt_small.specs.Grammar.{Item, IsName, IsNumber, IsAllowed, AreAllowed};
ghost use Rattle.nt_small.specs.Elaboration.{file_start, position_of, number_of_digits, int_value};
ghost use Rattle.nt_small.specs.Said.{item_of};
ghost use Rattle.nt_small.specs.Tables.{IsTable};
ghost use Rattle.nt_design.specs.declared.target.Target.TheVariants.{Slot};
ghost use Rattle.nt_design.specs.declared.tree.Tree.TheVariants.{Const};

use crate::bytes::same;
use crate::items::ParsedItem;
use crate::names::{is_name, is_number};
use crate::numbers::int;
use indexmap::IndexSet;
use nt_design::{Assign, Target, Tree};
use nt_value::Place;
use sqlite_items::Items;
use std::alloc::{AllocError, Global};
use std::marker::Model;

/// Names that differ from one another, in the order in which they came.
#[derive(Drop)]
pub struct Names<'a> {
    names: IndexSet<&'a [u8]>,
}

impl<'a> Model for Names<'a> {
    ghost use Rattle.std.specs.Prelude.{List, ℕ, map};

    ghost Value = { List (List ℕ) };

    ghost view = { λ n. map (λ k. k.now) n.names.keys };
}

impl<'a> Names<'a> {
    pub fn new(alloc: Global) -> Names<'a>
        ensures { result ≡ [] }
    {
        Names {
            names: IndexSet::new(alloc),
        }
    }

    pub fn len(&self) -> usize
        ensures { result ≡ length self.now }
    {
        self.names.len()
    }

    /// The name of this number.
    pub fn name(&self, at: usize) -> &'a [u8]
        requires { at < length self.now }
        ensures { slice_get self.now at ≡ Some result.now }
    {
        self.names[at]
    }

    /// The number of a name.
    pub fn number_of(&self, name: &'a [u8]) -> Option<usize>
        ensures { result ≡ position_of name.now self.now }
    {
        self.names.get_index_of(name)
    }

    /// Adds a new name.
    pub fn push(&mut self, name: &'a [u8]) -> Result<(), AllocError>
        requires { position_of name.now self.old ≡ None }
        ensures { OnOk result (self.new ≡ self.old ++ name.now ∷ []) }
    {
        self.names.insert(name)?;
        Ok(())
    }
}

/// The start of the file: the small language keeps no places.
pub const FILE_START: Place = Place {
    file: 0,
    offset: 0,
    line: 1,
    column: 1,
};

/// The declared nets, for each of them the number of the assignment that drives it, and the assignments.
#[derive(Drop)]
pub struct Table<'a> {
    pub names: Names<'a>,
    pub drivers: Items<Option<u32>>,
    pub assigns: Items<Assign>,
}

impl<'a> Table<'a> {
    fn new(alloc: Global) -> Table<'a>
        ensures { IsTable result [] }
    {
        Table {
            names: Names::new(alloc),
            drivers: Items::new(alloc),
            assigns: Items::new(alloc),
        }
    }

    /// The assignment that drives the net of this number.
    pub fn driver(&self, at: usize) -> Option<u32>
        requires { at < length self.now.drivers }
        ensures { slice_get self.now.drivers at ≡ Some result }
    {
        self.drivers.as_slice()[at]
    }

    // Whether this is a new name, which a net may have.
    fn is_new(&self, nettype: &[u8], net: &'a [u8]) -> bool
        ensures { IsTrue result ↔ (IsName net.now × (net.now ≢ nettype.now) × (position_of net.now self.now.names ≡ None)) }
    {
        is_name(net) && !same(net, nettype) && self.names.number_of(net).is_none()
    }

    // The number of a net that is declared and not driven.
    fn free_net(&self, net: &'a [u8]) -> Option<usize>
        ensures found { IfSome result (λ at. (position_of net.now self.now.names ≡ Some at) × (slice_get self.now.drivers at ≡ Some None)) }
        ensures none { IfNone result ((at : ℕ) → position_of net.now self.now.names ≡ Some at → slice_get self.now.drivers at ≡ Some None → ⊥) }
    {
        let at = self.names.number_of(net)?;
        match self.drivers.get(at) {
            Some(None) => Some(at),
            _ => None,
        }
    }

    // Adds a net without a driver.
    fn declare(&mut self, net: &'a [u8]) -> Result<(), AllocError>
        requires { position_of net.now self.old.names ≡ None }
        ensures names { OnOk result (self.new.names ≡ self.old.names ++ net.now ∷ []) }
        ensures drivers { OnOk result (self.new.drivers ≡ self.old.drivers ++ None ∷ []) }
        ensures assigns { OnOk result (self.new.assigns ≡ self.old.assigns) }
    {
        self.names.push(net)?;
        self.drivers.push(None)
    }

    // Adds the assignment of a number to the net of number `at`.
    fn drive(&mut self, alloc: Global, at: usize, digits: &[u8]) -> Result<(), AllocError>
        requires net { at < length self.old.drivers }
        requires digits { IsNumber digits.now }
        requires few_nets { length self.old.drivers ≤ 4194304 }
        requires few_assigns { length self.old.assigns ≤ 4194304 }
        ensures names { OnOk result (self.new.names ≡ self.old.names) }
        ensures drivers { OnOk result (self.new.drivers ≡ slice_set self.old.drivers at (Some (length self.old.assigns))) }
        ensures assigns { OnOk result (self.new.assigns ≡ self.old.assigns ++ record { target = Slot at 0 0 0; right = Const (int_value (number_of_digits digits.now)); reads = []; at = file_start } ∷ []) }
    {
        let value = int(alloc, digits)?;
        self.drivers.set(at, Some(self.assigns.len() as u32));
        self.assigns.push(Assign {
            target: Target::Slot {
                net: at as u32,
                slot: 0,
                low: 0,
                width: 0,
            },
            right: Tree::Const(value),
            reads: Items::new(alloc),
            at: FILE_START,
        })
    }

    // Adds an item, and says whether it is allowed behind those before it.
    fn add(
        &mut self,
        alloc: Global,
        nettype: &[u8],
        item: &ParsedItem<'a>,
    ) -> Result<bool, AllocError>
        requires columns { length self.old.drivers ≡ length self.old.names }
        requires few_nets { length self.old.drivers ≤ 4194304 }
        requires few_assigns { length self.old.assigns ≤ 4194304 }
        ensures added { IfOk result (λ added. (done : List Item) → IsTable self.old done → IsTrue added → IsAllowed nettype.now done (item_of item.now) × IsTable self.new (done ++ item_of item.now ∷ [])) }
        ensures refused { IfOk result (λ added. (done : List Item) → IsTable self.old done → IsAllowed nettype.now done (item_of item.now) → IsTrue added) }
    {
        match *item {
            ParsedItem::Declare(net) => {
                if !self.is_new(nettype, net) {
                    return Ok(false);
                }
                self.declare(net)?;
            }
            ParsedItem::Drive(net, digits) => {
                let Some(at) = self.free_net(net) else {
                    return Ok(false);
                };
                if !is_number(digits) {
                    return Ok(false);
                }
                self.drive(alloc, at, digits)?;
            }
        }
        Ok(true)
    }
}

/// The table of these items, if each is allowed behind those before it.
pub fn table_of<'a>(
    alloc: Global,
    nettype: &[u8],
    items: &[ParsedItem<'a>],
) -> Result<Option<Table<'a>>, AllocError>
    requires { length items.now ≤ 4194304 }
    ensures allowed { IfOk result (λ o. IfSome o (λ table. AreAllowed nettype.now (map item_of items.now))) }
    ensures table { IfOk result (λ o. IfSome o (λ table. IsTable table (map item_of items.now))) }
    ensures none { IfOk result (λ o. IfNone o (AreAllowed nettype.now (map item_of items.now) → ⊥)) }
{
    let mut table = Table::new(alloc);
    for item in items {
        if !table.add(alloc, nettype, item)? {
            return Ok(None);
        }
    }
    Ok(Some(table))
}
