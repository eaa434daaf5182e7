// The leaves of operands in equal states, and of what operators answer.
ghost use Rattle.std.specs.Prelude.{◌≡◌, ◌||◌, IfOk};
ghost use Rattle.nt_design.specs.Shapes.{binary_answer, is_same_leaf, unary_answer};
ghost use Rattle.nt_design.specs.declared.tree.Tree.TheVariants as t;
ghost use Rattle.nt_typing.specs.Tables as spec;

use nt_const::{Size, left_context, one_bit, right_context};
use nt_design::Tree;
use nt_value::{Binary, Leaf, Unary};
use sqlite_items::Boxed;
use std::alloc::{AllocError, Global};

// Whether the left operand alone may decide.
fn decides(op: Binary) -> bool
    ensures { result ≡ spec.decides op }
{
    matches!(op, Binary::LogicalAnd | Binary::LogicalOr)
}

fn in_states(four: bool, size: Size) -> Size
    ensures { result ≡ spec.in_states four size }
{
    let leaf = size.leaf();
    Size::of(leaf.width, leaf.signed, four)
}

fn either(a: bool, b: bool) -> bool
    ensures { result ≡ (a || b) }
{
    a || b
}

fn in_equal_states(op: Binary, a: Size, b: Size, size: Size) -> Size
    ensures { result ≡ spec.in_equal_states op a b size }
{
    if decides(op) {
        in_states(either(a.leaf().four, b.leaf().four), size)
    } else {
        size
    }
}

/// The leaf that the left operand takes, of operands of leaves `a` and `b`.
pub(crate) fn left_of(op: Binary, context: Size, a: Size, b: Size) -> Size
    ensures { result ≡ spec.left_context op context a b }
{
    in_equal_states(op, a, b, left_context(op, context, a, b))
}

/// The leaf that the right operand takes.
pub(crate) fn right_of(op: Binary, context: Size, a: Size, b: Size) -> Size
    ensures { result ≡ spec.right_context op context a b }
{
    in_equal_states(op, a, b, right_context(op, context, a, b))
}

/// What an operator of one operand answers.
pub(crate) fn unary_leaf(op: Unary, a: Size) -> Size
    ensures { result ≡ unary_answer op a }
{
    match op {
        Unary::Plus | Unary::Minus | Unary::Not => a,
        _ => one_bit(a.leaf().four),
    }
}

/// What an operator of two operands answers.
pub(crate) fn binary_leaf(op: Binary, a: Size, b: Size) -> Size
    ensures { result ≡ binary_answer op a b }
{
    match op {
        Binary::Add
        | Binary::Sub
        | Binary::Mul
        | Binary::Div
        | Binary::Rem
        | Binary::And
        | Binary::Or
        | Binary::Xor
        | Binary::Xnor
        | Binary::Shl
        | Binary::Shr
        | Binary::Sshr => a,
        _ => one_bit(either(a.leaf().four, b.leaf().four)),
    }
}

fn is_same(a: Leaf, b: Leaf) -> bool
    ensures { result ≡ is_same_leaf a b }
{
    a.width == b.width && a.signed == b.signed && a.four == b.four
}

fn resized(alloc: Global, of: Boxed<Tree>, to: Leaf) -> Result<Boxed<Tree>, AllocError>
    ensures { IfOk result (λ tree. tree ≡ t.Resize of to) }
{
    Boxed::new(alloc, Tree::Resize { of, to })
}

/// A tree of one leaf where another is wanted: bare where it is the same.
///
/// # Errors
///
/// `AllocError` alone.
pub fn fitted(
    alloc: Global,
    from: Size,
    to: Size,
    of: Boxed<Tree>,
) -> Result<Boxed<Tree>, AllocError>
    ensures { IfOk result (λ tree. tree ≡ spec.fitted from to of) }
{
    if is_same(from.leaf(), to.leaf()) {
        Ok(of)
    } else {
        resized(alloc, of, to.leaf())
    }
}
