// The walk over instances.
ghost use Rattle.std.specs.Prelude.{◌≡◌, ◌≤◌, ◌++◌, IfOk, OnOk, length, take};
ghost use Rattle.nt_instances.specs.Rows.{instances, most_instances, top_row};
ghost use Rattle.nt_instances.specs.Rows.{rows_of as table_of};

use crate::Modules;
use crate::rows::{Row, child, copy_row};
use nt_value::Place;
use sqlite_items::Items;
use std::alloc::{AllocError, Global};

/// A design has so many instances at most, its top among them.
pub const MOST_INSTANCES: usize = 4096;

const FILE_START: Place = Place {
    file: 0,
    offset: 0,
    line: 1,
    column: 1,
};

// Appends an instance and those inside it, up to a limit.
fn walk(
    alloc: Global,
    modules: &Modules,
    limit: usize,
    depth: usize,
    row: Row,
    rows: &mut Items<Row>,
) -> Result<(), AllocError>
    requires room { length rows.old ≤ limit }
    ensures { OnOk result (rows.new ≡ take limit (rows.old ++ instances depth modules.now (length rows.old) row)) }
{
    if depth == 0 || rows.len() >= limit {
        return Ok(());
    }
    let here = rows.len();
    let copy = copy_row(alloc, &row)?;
    rows.push(copy)?;
    let items = modules.items(row.definition);
    for index in 0..items.len() {
        if let Some(next) = child(alloc, modules, here, &row, index, &items[index])? {
            walk(alloc, modules, limit, depth - 1, next, rows)?;
        }
    }
    Ok(())
}

/// The instances below a top module, in the order of elaboration (IEEE 1800-2017, 23.3): the top, and then those of its items in the order of
/// the source, each with all that is inside it. An item makes none where there is no such module, or where its module is that of an
/// instance around it. Of instances past the limit of 4,096 the first alone is there.
///
/// # Errors
///
/// `AllocError` alone.
pub fn rows_of(alloc: Global, modules: &Modules, top: usize) -> Result<Items<Row>, AllocError>
    ensures { IfOk result (λ rows. rows ≡ table_of modules.now top) }
{
    let row = Row {
        at: FILE_START,
        definition: top,
        parent: None,
        around: Items::new(alloc),
    };
    let mut rows = Items::new(alloc);
    walk(
        alloc,
        modules,
        MOST_INSTANCES + 1,
        modules.len(),
        row,
        &mut rows,
    )?;
    Ok(rows)
}
