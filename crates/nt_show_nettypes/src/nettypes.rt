// The functions and nettypes of files, in the order of the sources.
use nt_items::{FunctionItem, Item, NettypeItem, Units};
use std::alloc::{AllocError, Global};

// What stands in packages and modules.
fn inner(item: &Item) -> &[Item] {
    match item {
        Item::Package { items, .. } => items.as_slice(),
        Item::Module { items, .. } => items.as_slice(),
        _ => &[],
    }
}

fn add_functions<'a>(all: &mut Vec<&'a FunctionItem>, items: &'a [Item]) -> Result<(), AllocError> {
    for item in items {
        if let Item::Function(function) = item {
            all.push(function)?;
        }
    }
    Ok(())
}

fn add_all_functions<'a>(
    all: &mut Vec<&'a FunctionItem>,
    items: &'a [Item],
) -> Result<(), AllocError> {
    for item in items {
        if let Item::Function(function) = item {
            all.push(function)?;
        }
        add_functions(all, inner(item))?;
    }
    Ok(())
}

pub(crate) fn functions_in(
    alloc: Global,
    units: &[Units],
) -> Result<Vec<&FunctionItem>, AllocError> {
    let mut all = Vec::new(alloc);
    for file in units {
        add_all_functions(&mut all, file.items.as_slice())?;
    }
    Ok(all)
}

fn add_nettypes<'a>(all: &mut Vec<&'a NettypeItem>, items: &'a [Item]) -> Result<(), AllocError> {
    for item in items {
        if let Item::Nettype(nettype) = item {
            all.push(nettype)?;
        }
    }
    Ok(())
}

fn add_all_nettypes<'a>(
    all: &mut Vec<&'a NettypeItem>,
    items: &'a [Item],
) -> Result<(), AllocError> {
    for item in items {
        if let Item::Nettype(nettype) = item {
            all.push(nettype)?;
        }
        add_nettypes(all, inner(item))?;
    }
    Ok(())
}

pub(crate) fn nettypes_in(alloc: Global, units: &[Units]) -> Result<Vec<&NettypeItem>, AllocError> {
    let mut all = Vec::new(alloc);
    for file in units {
        add_all_nettypes(&mut all, file.items.as_slice())?;
    }
    Ok(all)
}
