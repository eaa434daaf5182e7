// The tree of a draft in its context.
ghost use Rattle.std.specs.Prelude.{◌≡◌, IfOk};
ghost use Rattle.nt_drafts.specs.Drafts.{draft_tree};
ghost use Rattle.nt_design.specs.declared.tree.Tree.TheVariants as t;
ghost use Rattle.nt_typing.specs.Tables as spec;

use crate::drafts::Draft;
use crate::operators::{binary_leaf, fitted, left_of, right_of, unary_leaf};
use nt_const::{Size, literal_at, unary_context};
use nt_design::Tree;
use nt_value::{Binary, Bits, Unary, Value};
use sqlite_items::Boxed;
use std::alloc::{AllocError, Global};

/// A constant of one leaf.
///
/// # Errors
///
/// `AllocError` alone.
pub fn constant_tree(alloc: Global, value: Bits) -> Result<Boxed<Tree>, AllocError>
    ensures { IfOk result (λ tree. tree ≡ spec.constant_tree value) }
{
    let mut leaves = Vec::new(alloc);
    leaves.push(value)?;
    Boxed::new(alloc, Tree::Const(Value::new(leaves)))
}

fn unary_tree(alloc: Global, op: Unary, of: Boxed<Tree>) -> Result<Boxed<Tree>, AllocError>
    ensures { IfOk result (λ tree. tree ≡ t.Unary op of) }
{
    Boxed::new(alloc, Tree::Unary { op, of })
}

pub(crate) fn binary_tree(
    alloc: Global,
    op: Binary,
    left: Boxed<Tree>,
    right: Boxed<Tree>,
) -> Result<Boxed<Tree>, AllocError>
    ensures { IfOk result (λ tree. tree ≡ t.Binary op left right) }
{
    Boxed::new(alloc, Tree::Binary { op, left, right })
}

pub(crate) fn choose_tree(
    alloc: Global,
    test: Boxed<Tree>,
    yes: Boxed<Tree>,
    no: Boxed<Tree>,
) -> Result<Boxed<Tree>, AllocError>
    ensures { IfOk result (λ tree. tree ≡ t.Choose test yes no) }
{
    Boxed::new(alloc, Tree::Choose { test, yes, no })
}

/// The tree of a draft in its context (IEEE 1800-2017, 11.6.1, 11.8.2). What has no leaf stands as it is.
///
/// # Errors
///
/// `AllocError` alone.
pub fn close(alloc: Global, draft: Boxed<Draft>, context: Size) -> Result<Boxed<Tree>, AllocError>
    ensures { IfOk result (λ tree. tree ≡ draft_tree draft context) }
{
    match draft.into_inner() {
        Draft::Closed { size, tree, .. } => fitted(alloc, size, context, tree),
        Draft::Whole { tree, .. } => Ok(tree),
        Draft::Many { .. } => Boxed::new(alloc, Tree::Size),
        Draft::Literal { value, .. } => constant_tree(alloc, literal_at(&value, context)),
        Draft::Unary { op, inner, of, .. } => {
            let operand = unary_context(op, context, inner);
            let of = close(alloc, of, operand)?;
            let tree = unary_tree(alloc, op, of)?;
            fitted(alloc, unary_leaf(op, operand), context, tree)
        }
        Draft::Binary {
            op,
            first,
            left,
            second,
            right,
            ..
        } => {
            let a = left_of(op, context, first, second);
            let b = right_of(op, context, first, second);
            let left = close(alloc, left, a)?;
            let right = close(alloc, right, b)?;
            let tree = binary_tree(alloc, op, left, right)?;
            fitted(alloc, binary_leaf(op, a, b), context, tree)
        }
        Draft::Choose { test, yes, no, .. } => {
            let yes = close(alloc, yes, context)?;
            let no = close(alloc, no, context)?;
            choose_tree(alloc, test, yes, no)
        }
    }
}
