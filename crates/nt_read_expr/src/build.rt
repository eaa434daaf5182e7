// Nodes with several operands.
ghost use Rattle.std.specs.Prelude.{◌≡◌, IfOk};
ghost use Rattle.nt_ast.specs.declared.expr.Expr.TheVariants as e;

use nt_ast::Expr;
use nt_value::{Binary, Place};
use sqlite_items::Boxed;
use std::alloc::{AllocError, Global};

pub(crate) fn part_tree(
    alloc: Global,
    at: Place,
    of: Boxed<Expr>,
    left: Boxed<Expr>,
    right: Boxed<Expr>,
) -> Result<Boxed<Expr>, AllocError>
    ensures { IfOk result (λ x. x ≡ e.Part at of left right) }
{
    Boxed::new(
        alloc,
        Expr::Part {
            at,
            of,
            left,
            right,
        },
    )
}

pub(crate) fn indexed_tree(
    alloc: Global,
    at: Place,
    of: Boxed<Expr>,
    base: Boxed<Expr>,
    width: Boxed<Expr>,
    up: bool,
) -> Result<Boxed<Expr>, AllocError>
    ensures { IfOk result (λ x. x ≡ e.Indexed at of base width up) }
{
    Boxed::new(
        alloc,
        Expr::Indexed {
            at,
            of,
            base,
            width,
            up,
        },
    )
}

pub(crate) fn choose_tree(
    alloc: Global,
    at: Place,
    test: Boxed<Expr>,
    yes: Boxed<Expr>,
    no: Boxed<Expr>,
) -> Result<Boxed<Expr>, AllocError>
    ensures { IfOk result (λ x. x ≡ e.Choose at test yes no) }
{
    Boxed::new(alloc, Expr::Choose { at, test, yes, no })
}

/// The tree of an operator and its two operands.
///
/// # Errors
///
/// `AllocError` alone.
pub fn binary_tree(
    alloc: Global,
    at: Place,
    op: Binary,
    left: Boxed<Expr>,
    right: Boxed<Expr>,
) -> Result<Boxed<Expr>, AllocError>
    ensures { IfOk result (λ x. x ≡ e.Binary at op left right) }
{
    Boxed::new(
        alloc,
        Expr::Binary {
            at,
            op,
            left,
            right,
        },
    )
}
