// Instances as a table.
ghost use Rattle.std.specs.Prelude.{◌≡◌, ◌++◌, ◌∷◌, ◌==◌, [], IfOk};
ghost use Rattle.std.specs.List.{list_any};
ghost use Rattle.nt_items.specs.declared.item.Item.TheViews.{out-Item};
ghost use Rattle.nt_instances.specs.Rows.{inside};
ghost use Rattle.nt_instances.specs.Rows.{child as child_of, is_open as is_open_in};

use crate::Modules;
use nt_items::Item;
use nt_value::Place;
use sqlite_items::Items;
use std::alloc::{AllocError, Global};

/// The item that an instance comes from: its number among those of the module of the instance of this number.
#[derive(Clone, Copy, Debug, PartialEq, Eq)]
pub struct Parent {
    pub row: usize,
    pub item: usize,
}

/// An instance of a module (IEEE 1800-2017, 23.3). A row's number is its place in the order of elaboration.
#[derive(Drop)]
pub struct Row {
    /// Where its name stands; of the top, the start of the first file.
    pub at: Place,
    /// The number of its module.
    pub definition: usize,
    /// `None` for the top.
    pub parent: Option<Parent>,
    /// The modules of the instances that it stands in, from the top on.
    pub around: Items<usize>,
}

pub(crate) fn copy_row(alloc: Global, row: &Row) -> Result<Row, AllocError>
    ensures { IfOk result (λ copy. copy ≡ row.now) }
{
    let around = Items::from_slice(alloc, row.around.as_slice())?;
    Ok(Row {
        at: row.at,
        definition: row.definition,
        parent: row.parent,
        around,
    })
}

fn is_among(around: &[usize], definition: usize) -> bool
    ensures { result ≡ list_any (λ o. definition == o) around.now }
{
    around.iter().any(|other| definition == *other)
}

/// Whether a module is that of the instance, or of one around it.
pub(crate) fn is_open(row: &Row, definition: usize) -> bool
    ensures { result ≡ is_open_in row.now definition }
{
    definition == row.definition || is_among(row.around.as_slice(), definition)
}

fn inside_of(
    alloc: Global,
    at: Place,
    here: usize,
    row: &Row,
    item: usize,
    definition: usize,
) -> Result<Row, AllocError>
    ensures { IfOk result (λ new. new ≡ inside at here row.now item definition) }
{
    let mut around = Items::from_slice(alloc, row.around.as_slice())?;
    around.push(row.definition)?;
    Ok(Row {
        at,
        definition,
        parent: Some(Parent { row: here, item }),
        around,
    })
}

/// The instance that an item of an instance makes, if it makes one.
pub(crate) fn child(
    alloc: Global,
    modules: &Modules,
    here: usize,
    row: &Row,
    index: usize,
    item: &Item,
) -> Result<Option<Row>, AllocError>
    ensures { IfOk result (λ new. new ≡ child_of modules.now here row.now index (out-Item item.now)) }
{
    let Item::Instance { at, module, .. } = item else {
        return Ok(None);
    };
    let Some(found) = modules.find(module) else {
        return Ok(None);
    };
    if is_open(row, found) {
        return Ok(None);
    }
    Ok(Some(inside_of(alloc, *at, here, row, index, found)?))
}
