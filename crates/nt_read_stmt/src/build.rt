// Nodes of statements.
ghost use Rattle.std.specs.Prelude.{◌≡◌, IfOk, Some};
ghost use Rattle.nt_ast.specs.declared.expr.Expr.TheVariants as e;
ghost use Rattle.nt_ast.specs.declared.stmt.Stmt.TheVariants as s;
ghost use Rattle.nt_read_stmt.specs.Reader as spec;

use nt_ast::{Expr, Stmt, copy_expr};
use nt_read_expr::binary_tree;
use nt_value::{Binary, Place};
use sqlite_items::{Boxed, Items};
use std::alloc::{AllocError, Global};

/// The value of a compound assignment: the left side and the right one, joined by the operator (IEEE 1800-2017, 11.4.1).
pub(crate) fn compound_tree(
    alloc: Global,
    at: Place,
    op: Binary,
    left: &Expr,
    right: Boxed<Expr>,
) -> Result<Boxed<Expr>, AllocError>
    ensures { IfOk result (λ x. x ≡ e.Binary at op left.now right) }
{
    let left = Boxed::new(alloc, copy_expr(alloc, left)?)?;
    binary_tree(alloc, at, op, left, right)
}

/// An arm of a case statement: the values that it is for, and its statement.
pub(crate) type Arm = (Items<Expr>, Stmt);

/// An `if` that an `else` follows: its condition, and the statement that is done where that holds.
#[derive(Drop)]
pub(crate) struct Link {
    pub(crate) at: Place,
    pub(crate) test: Boxed<Expr>,
    pub(crate) yes: Boxed<Stmt>,
}

pub(crate) fn if_tree(
    alloc: Global,
    at: Place,
    test: Boxed<Expr>,
    yes: Boxed<Stmt>,
    no: Option<Boxed<Stmt>>,
) -> Result<Boxed<Stmt>, AllocError>
    ensures { IfOk result (λ x. x ≡ s.If at test yes no) }
{
    let test = test.into_inner();
    Boxed::new(alloc, Stmt::If { at, test, yes, no })
}

/// The tree of a chain of `else`, from its last link to its first.
#[tactic(auto, using(crate::proofs::Turns::linked_more))]
pub(crate) fn linked(
    alloc: Global,
    links: Items<Link>,
    last: Boxed<Stmt>,
) -> Result<Boxed<Stmt>, AllocError>
    ensures { IfOk result (λ x. x ≡ spec.linked links last) }
{
    let mut left = links;
    let mut tree = last;
    while let Some(link) = left.pop() {
        tree = if_tree(alloc, link.at, link.test, link.yes, Some(tree))?;
    }
    Ok(tree)
}

pub(crate) fn case_tree(
    alloc: Global,
    at: Place,
    test: Boxed<Expr>,
    arms: Items<Arm>,
    other: Option<Boxed<Stmt>>,
) -> Result<Boxed<Stmt>, AllocError>
    ensures { IfOk result (λ x. x ≡ s.Case at test arms other) }
{
    let test = test.into_inner();
    Boxed::new(
        alloc,
        Stmt::Case {
            at,
            test,
            arms,
            other,
        },
    )
}
