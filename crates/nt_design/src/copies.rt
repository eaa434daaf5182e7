// Equal copies of expressions.
ghost use Rattle.std.specs.Prelude.{◌≡◌, IfOk};

use crate::Tree;
use nt_value::copy;
use sqlite_items::{Boxed, Items};
use std::alloc::{AllocError, Global};

/// An equal expression.
///
/// # Errors
///
/// `AllocError` alone.
pub fn copy_tree(alloc: Global, tree: &Tree) -> Result<Tree, AllocError>
    ensures { IfOk result (λ t. t ≡ tree.now) }
{
    match tree {
        Tree::Const(value) => Ok(Tree::Const(copy(alloc, value)?)),
        Tree::Read(object) => Ok(Tree::Read(*object)),
        Tree::Local(local) => Ok(Tree::Local(*local)),
        Tree::Leaves { of, first, count } => {
            let of = Boxed::new(alloc, copy_tree(alloc, of.get())?)?;
            Ok(Tree::Leaves {
                of,
                first: *first,
                count: *count,
            })
        }
        Tree::Item {
            of,
            index,
            low,
            size,
            up,
        } => {
            let of = Boxed::new(alloc, copy_tree(alloc, of.get())?)?;
            let index = Boxed::new(alloc, copy_tree(alloc, index.get())?)?;
            Ok(Tree::Item {
                of,
                index,
                low: *low,
                size: *size,
                up: *up,
            })
        }
        Tree::Element { index } => {
            let index = Boxed::new(alloc, copy_tree(alloc, index.get())?)?;
            Ok(Tree::Element { index })
        }
        Tree::Part { of, low, width } => {
            let of = Boxed::new(alloc, copy_tree(alloc, of.get())?)?;
            let low = Boxed::new(alloc, copy_tree(alloc, low.get())?)?;
            Ok(Tree::Part {
                of,
                low,
                width: *width,
            })
        }
        Tree::Unary { op, of } => {
            let of = Boxed::new(alloc, copy_tree(alloc, of.get())?)?;
            Ok(Tree::Unary { op: *op, of })
        }
        Tree::Binary { op, left, right } => {
            let left = Boxed::new(alloc, copy_tree(alloc, left.get())?)?;
            let right = Boxed::new(alloc, copy_tree(alloc, right.get())?)?;
            Ok(Tree::Binary {
                op: *op,
                left,
                right,
            })
        }
        Tree::Choose { test, yes, no } => {
            let test = Boxed::new(alloc, copy_tree(alloc, test.get())?)?;
            let yes = Boxed::new(alloc, copy_tree(alloc, yes.get())?)?;
            let no = Boxed::new(alloc, copy_tree(alloc, no.get())?)?;
            Ok(Tree::Choose { test, yes, no })
        }
        Tree::Concat { parts } => {
            let mut copies = Items::new(alloc);
            for part in parts.as_slice() {
                copies.push(copy_tree(alloc, part)?)?;
            }
            Ok(Tree::Concat { parts: copies })
        }
        Tree::Gather { parts } => {
            let mut copies = Items::new(alloc);
            for member in parts.as_slice() {
                copies.push(copy_tree(alloc, member)?)?;
            }
            Ok(Tree::Gather { parts: copies })
        }
        Tree::Resize { of, to } => {
            let of = Boxed::new(alloc, copy_tree(alloc, of.get())?)?;
            Ok(Tree::Resize { of, to: *to })
        }
        Tree::Call { function, args } => {
            let mut copies = Items::new(alloc);
            for arg in args.as_slice() {
                copies.push(copy_tree(alloc, arg)?)?;
            }
            Ok(Tree::Call {
                function: *function,
                args: copies,
            })
        }
        Tree::Size => Ok(Tree::Size),
        Tree::Time => Ok(Tree::Time),
    }
}
