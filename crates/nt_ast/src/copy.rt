// Copies of expressions. A tree may be some 8,500 nodes deep, and each node takes a frame of `copy_expr` and one of
// `copy_boxed`: what takes much room on the stack stands apart from both.
ghost use Rattle.std.specs.Prelude.{◌≡◌, IfOk};
ghost use Rattle.nt_ast.specs.declared.expr.Expr.TheVariants as variant;

use crate::copy_parts::{copy_key, copy_path};
use crate::{Expr, Key, Path};
use nt_value::{Name, Place};
use sqlite_items::{Boxed, Items};
use std::alloc::{AllocError, Global};

/// An equal tree.
///
/// # Errors
///
/// `AllocError` alone.
#[cycle(copy)]
pub fn copy_expr(alloc: Global, expr: &Expr) -> Result<Expr, AllocError>
    ensures { IfOk result (λ e. e ≡ expr.now) }
{
    match expr {
        Expr::Literal { at, value } => Ok(Expr::Literal {
            at: *at,
            value: *value,
        }),
        Expr::Read { at, path } => copy_read(alloc, *at, path),
        Expr::Member {
            at,
            of,
            name_at,
            name,
        } => {
            let of = copy_boxed(alloc, of)?;
            member(alloc, *at, of, *name_at, name)
        }
        Expr::Item { at, of, index } => {
            let of = copy_boxed(alloc, of)?;
            Ok(Expr::Item {
                at: *at,
                of,
                index: copy_boxed(alloc, index)?,
            })
        }
        Expr::Part {
            at,
            of,
            left,
            right,
        } => {
            let of = copy_boxed(alloc, of)?;
            let left = copy_boxed(alloc, left)?;
            Ok(Expr::Part {
                at: *at,
                of,
                left,
                right: copy_boxed(alloc, right)?,
            })
        }
        Expr::Indexed {
            at,
            of,
            base,
            width,
            up,
        } => {
            let of = copy_boxed(alloc, of)?;
            let base = copy_boxed(alloc, base)?;
            let width = copy_boxed(alloc, width)?;
            Ok(Expr::Indexed {
                at: *at,
                of,
                base,
                width,
                up: *up,
            })
        }
        Expr::Unary { at, op, of } => {
            Ok(Expr::Unary {
                at: *at,
                op: *op,
                of: copy_boxed(alloc, of)?,
            })
        }
        Expr::Binary {
            at,
            op,
            left,
            right,
        } => {
            let left = copy_boxed(alloc, left)?;
            Ok(Expr::Binary {
                at: *at,
                op: *op,
                left,
                right: copy_boxed(alloc, right)?,
            })
        }
        Expr::Choose { at, test, yes, no } => {
            let test = copy_boxed(alloc, test)?;
            let yes = copy_boxed(alloc, yes)?;
            Ok(Expr::Choose {
                at: *at,
                test,
                yes,
                no: copy_boxed(alloc, no)?,
            })
        }
        Expr::Concat { at, parts } => copy_concat(alloc, *at, parts),
        Expr::Repeat { at, count, parts } => {
            let count = copy_boxed(alloc, count)?;
            let parts = copy_all(alloc, parts)?;
            Ok(Expr::Repeat {
                at: *at,
                count,
                parts,
            })
        }
        Expr::Pattern { at, items } => copy_pattern(alloc, *at, items),
        Expr::Call { at, path, args } => copy_call(alloc, *at, path, args),
        Expr::Size { at, of } => Ok(Expr::Size {
            at: *at,
            of: copy_boxed(alloc, of)?,
        }),
        Expr::Time { at } => Ok(Expr::Time { at: *at }),
        Expr::Sign { at, signed, of } => {
            Ok(Expr::Sign {
                at: *at,
                signed: *signed,
                of: copy_boxed(alloc, of)?,
            })
        }
    }
}

#[inline(never)]
fn copy_read(alloc: Global, at: Place, path: &Path) -> Result<Expr, AllocError>
    ensures { IfOk result (λ e. e ≡ variant.Read at path.now) }
{
    let path = copy_path(alloc, path)?;
    Ok(Expr::Read { at, path })
}

#[inline(never)]
fn member(
    alloc: Global,
    at: Place,
    of: Boxed<Expr>,
    name_at: Place,
    name: &Name,
) -> Result<Expr, AllocError>
    ensures { IfOk result (λ e. e ≡ variant.Member at of name_at name.now) }
{
    let name = name.copy(alloc)?;
    Ok(Expr::Member {
        at,
        of,
        name_at,
        name,
    })
}

#[cycle(copy)]
#[inline(never)]
fn copy_concat(alloc: Global, at: Place, parts: &Items<Expr>) -> Result<Expr, AllocError>
    ensures { IfOk result (λ e. e ≡ variant.Concat at parts.now) }
{
    let parts = copy_all(alloc, parts)?;
    Ok(Expr::Concat { at, parts })
}

#[cycle(copy)]
#[inline(never)]
fn copy_pattern(
    alloc: Global,
    at: Place,
    items: &Items<(Option<Key>, Expr)>,
) -> Result<Expr, AllocError>
    ensures { IfOk result (λ e. e ≡ variant.Pattern at items.now) }
{
    let items = copy_keyed(alloc, items)?;
    Ok(Expr::Pattern { at, items })
}

#[cycle(copy)]
#[inline(never)]
fn copy_call(alloc: Global, at: Place, path: &Path, args: &Items<Expr>) -> Result<Expr, AllocError>
    ensures { IfOk result (λ e. e ≡ variant.Call at path.now args.now) }
{
    let path = copy_path(alloc, path)?;
    let args = copy_all(alloc, args)?;
    Ok(Expr::Call { at, path, args })
}

#[cycle(copy)]
#[inline(never)]
pub(crate) fn copy_boxed(alloc: Global, expr: &Boxed<Expr>) -> Result<Boxed<Expr>, AllocError>
    ensures { IfOk result (λ e. e ≡ expr.now) }
{
    Boxed::new(alloc, copy_expr(alloc, expr.get())?)
}

#[cycle(copy)]
#[inline(never)]
pub(crate) fn copy_all(alloc: Global, parts: &Items<Expr>) -> Result<Items<Expr>, AllocError>
    ensures { IfOk result (λ all. all ≡ parts.now) }
{
    let mut all = Items::new(alloc);
    for part in parts.as_slice() {
        all.push(copy_expr(alloc, part)?)?;
    }
    Ok(all)
}

#[cycle(copy)]
#[inline(never)]
fn copy_keyed(
    alloc: Global,
    parts: &Items<(Option<Key>, Expr)>,
) -> Result<Items<(Option<Key>, Expr)>, AllocError>
    ensures { IfOk result (λ all. all ≡ parts.now) }
{
    let mut all = Items::new(alloc);
    for (key, part) in parts.as_slice() {
        let key = copy_key(alloc, key)?;
        all.push((key, copy_expr(alloc, part)?))?;
    }
    Ok(all)
}
