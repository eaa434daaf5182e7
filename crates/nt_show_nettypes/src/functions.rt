// The functions of files, with the types of their arguments and results.
ghost use Rattle.std.specs.Prelude.{◌≡◌, ◌≤◌, ◌++◌, ◌∷◌, [], All, IfOk, OnOk, length};
ghost use Rattle.nt_kinds.specs.Kinds.{leaves};
ghost use Rattle.nt_nettype.specs.Resolvers.{IsWithin};
ghost use Rattle.nt_show_nettypes.specs.Within.{ResultWithin};

use nt_ast::{Declared, TypeTree};
use nt_diag::Fault;
use nt_items::{FunctionItem, copy_function};
use nt_kinds::Kind;
use nt_named_types::TypeView;
use nt_typing::Callable;
use nt_uses::use_others;
use sqlite_items::{Boxed, Items};
use std::alloc::{AllocError, Global};

// A type of at most 64 leaves.
fn kind_of_arg(
    alloc: Global,
    types: &TypeView,
    tree: &TypeTree,
    what: &Declared,
) -> Result<Kind, Fault>
    ensures { IfOk result (λ k. length (leaves k) ≤ 64) }
{
    types.kind_of_name(alloc, tree, what.dims.as_slice())
}

fn args_of(
    alloc: Global,
    types: &TypeView,
    args: &[(Boxed<TypeTree>, Boxed<Declared>, bool)],
) -> Result<Items<Kind>, Fault>
    ensures { IfOk result (λ all. All (λ k. length (leaves k) ≤ 64) all) }
{
    let mut all = Items::new(alloc);
    for (tree, what, _many) in args {
        let kind = kind_of_arg(alloc, types, tree.get(), what.get())?;
        all.push(kind)?;
    }
    Ok(all)
}

fn kind_of_value(alloc: Global, types: &TypeView, tree: &TypeTree) -> Result<Kind, Fault>
    ensures { IfOk result (λ k. length (leaves k) ≤ 64) }
{
    types.kind_of(alloc, tree)
}

fn result_of(alloc: Global, types: &TypeView, tree: &TypeTree) -> Result<Option<Kind>, Fault>
    ensures { IfOk result (λ o. ResultWithin o) }
{
    match tree {
        TypeTree::Void { .. } => Ok(None),
        _ => {
            let kind = kind_of_value(alloc, types, tree)?;
            Ok(Some(kind))
        }
    }
}

// Whether the one argument is a dynamic array.
fn is_many(args: &[(Boxed<TypeTree>, Boxed<Declared>, bool)]) -> bool {
    match args {
        [(_tree, _what, many)] => *many,
        _ => false,
    }
}

// A copy that lies in a box, so that it is no large value where the function can leave.
fn copied(alloc: Global, item: &FunctionItem) -> Result<Boxed<FunctionItem>, AllocError> {
    let copy = copy_function(alloc, item)?;
    Boxed::new(alloc, copy)
}

fn callable(
    alloc: Global,
    types: &TypeView,
    item: &FunctionItem,
    number: u32,
    own: bool,
) -> Result<Callable, Fault>
    ensures { IfOk result (λ f. IsWithin f) }
{
    let copy = copied(alloc, item)?;
    let args = args_of(alloc, types, item.args.as_slice())?;
    let result = result_of(alloc, types, item.result.get())?;
    Ok(Callable {
        item: copy.into_inner(),
        number,
        args,
        many: is_many(item.args.as_slice()),
        result,
        own,
    })
}

// A function of this number; there are fewer than 2^32 in any text.
fn number_of(k: usize) -> u32 {
    match u32::try_from(k) {
        Ok(number) => number,
        Err(_) => u32::MAX,
    }
}

fn is_own(others: &[bool], k: usize) -> bool {
    others.get(k) == Some(&false)
}

fn add(all: &mut Vec<Callable>, function: Callable) -> Result<(), AllocError>
    ensures { OnOk result (all.new.items ≡ all.old.items ++ function ∷ []) }
{
    all.push(function)?;
    Ok(())
}

/// The functions of files.
pub(crate) fn callables(
    alloc: Global,
    types: &TypeView,
    items: &[&FunctionItem],
) -> Result<Vec<Callable>, Fault>
    ensures { IfOk result (λ all. All IsWithin all.items) }
{
    let others = use_others(alloc, types.names.scopes, items)?;
    let mut all = Vec::new(alloc);
    for k in 0..items.len() {
        let own = is_own(others.as_slice(), k);
        let function = callable(alloc, types, items[k], number_of(k), own)?;
        add(&mut all, function)?;
    }
    Ok(all)
}
