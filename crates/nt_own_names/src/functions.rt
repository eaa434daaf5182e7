// The names of a function.
ghost use Rattle.std.specs.Prelude.{◌≡◌, ◌++◌, map, IfOk, OnOk};
ghost use Rattle.nt_diag.specs.Order.{IsLeastOf};
ghost use Rattle.nt_own_names.specs.Twice.{Twice, function_names, named};

use crate::named::{Named, add, add_declared, twice};
use nt_ast::{Declared, TypeTree};
use nt_diag::Refusal;
use nt_items::FunctionItem;
use sqlite_items::{Boxed, Items};
use std::alloc::{AllocError, Global};

fn add_args(
    alloc: Global,
    all: &mut Items<Named>,
    args: &[(Boxed<TypeTree>, Boxed<Declared>, bool)],
) -> Result<(), AllocError>
    ensures { OnOk result (all.new ≡ all.old ++ map (λ a. named a.1) args.now) }
{
    for (_kind, what, _many) in args {
        add_declared(alloc, all, what.get())?;
    }
    Ok(())
}

fn add_locals(
    alloc: Global,
    all: &mut Items<Named>,
    locals: &[(Boxed<TypeTree>, Boxed<Declared>)],
) -> Result<(), AllocError>
    ensures { OnOk result (all.new ≡ all.old ++ map (λ l. named l.1) locals.now) }
{
    for (_kind, what) in locals {
        add_declared(alloc, all, what.get())?;
    }
    Ok(())
}

/// What a function declares itself, in this order: its name, its arguments, its locals (IEEE 1800-2017, 13.4).
///
/// # Errors
///
/// `AllocError` alone.
pub fn names_of(alloc: Global, item: &FunctionItem) -> Result<Items<Named>, AllocError>
    ensures { IfOk result (λ all. all ≡ function_names item.now) }
{
    let mut all = Items::new(alloc);
    add(alloc, &mut all, &item.name, item.at)?;
    add_args(alloc, &mut all, item.args.as_slice())?;
    add_locals(alloc, &mut all, item.locals.as_slice())?;
    Ok(all)
}

/// The least fault of the names of a function: T5 at an argument or a local of the name of the function, or of one that stands before it
/// (IEEE 1800-2017, 13.4).
///
/// # Errors
///
/// `AllocError` alone.
pub fn function_twice(alloc: Global, item: &FunctionItem) -> Result<Option<Refusal>, AllocError>
    ensures { IfOk result (λ r. IsLeastOf (Twice (function_names item.now)) r) }
{
    let names = names_of(alloc, item)?;
    twice(alloc, names.as_slice())
}
