// Copies of types.
ghost use Rattle.std.specs.Prelude.{◌≡◌, IfOk};

use crate::copy::copy_expr;
use crate::copy_parts::copy_path;
use crate::{Declared, Expr, TypeTree};
use sqlite_items::Items;
use std::alloc::{AllocError, Global};

type Dimension = (Expr, Option<Expr>);

pub(crate) fn copy_some(alloc: Global, expr: &Option<Expr>) -> Result<Option<Expr>, AllocError>
    ensures { IfOk result (λ copy. copy ≡ expr.now) }
{
    match expr {
        None => Ok(None),
        Some(expr) => Ok(Some(copy_expr(alloc, expr)?)),
    }
}

fn copy_range(
    alloc: Global,
    range: &Option<(Expr, Expr)>,
) -> Result<Option<(Expr, Expr)>, AllocError>
    ensures { IfOk result (λ copy. copy ≡ range.now) }
{
    match range {
        None => Ok(None),
        Some((left, right)) => {
            let left = copy_expr(alloc, left)?;
            Ok(Some((left, copy_expr(alloc, right)?)))
        }
    }
}

fn copy_dims(alloc: Global, dims: &Items<Dimension>) -> Result<Items<Dimension>, AllocError>
    ensures { IfOk result (λ copy. copy ≡ dims.now) }
{
    let mut all = Items::new(alloc);
    for (left, right) in dims.as_slice() {
        let left = copy_expr(alloc, left)?;
        all.push((left, copy_some(alloc, right)?))?;
    }
    Ok(all)
}

fn copy_declared(alloc: Global, what: &Declared) -> Result<Declared, AllocError>
    ensures { IfOk result (λ copy. copy ≡ what.now) }
{
    let name = what.name.copy(alloc)?;
    let dims = copy_dims(alloc, &what.dims)?;
    Ok(Declared {
        at: what.at,
        name,
        dims,
        start: copy_some(alloc, &what.start)?,
    })
}

/// An equal tree.
///
/// # Errors
///
/// `AllocError` alone.
#[cycle(copy_types)]
pub fn copy_type(alloc: Global, kind: &TypeTree) -> Result<TypeTree, AllocError>
    ensures { IfOk result (λ copy. copy ≡ kind.now) }
{
    match kind {
        TypeTree::Integral {
            at,
            word,
            signed,
            range,
        } => Ok(TypeTree::Integral {
            at: *at,
            word: *word,
            signed: *signed,
            range: copy_range(alloc, range)?,
        }),
        TypeTree::Struct { at, members } => Ok(TypeTree::Struct {
            at: *at,
            members: copy_members(alloc, members)?,
        }),
        TypeTree::Named { at, path } => Ok(TypeTree::Named {
            at: *at,
            path: copy_path(alloc, path)?,
        }),
        TypeTree::Void { at } => Ok(TypeTree::Void { at: *at }),
    }
}

#[cycle(copy_types)]
fn copy_members(
    alloc: Global,
    members: &Items<(TypeTree, Declared)>,
) -> Result<Items<(TypeTree, Declared)>, AllocError>
    ensures { IfOk result (λ copy. copy ≡ members.now) }
{
    let mut all = Items::new(alloc);
    for (kind, what) in members.as_slice() {
        let kind = copy_type(alloc, kind)?;
        all.push((kind, copy_declared(alloc, what)?))?;
    }
    Ok(all)
}
