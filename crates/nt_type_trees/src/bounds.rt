// Bounds and dimensions of types.
ghost use Rattle.std.specs.Prelude.{◌≡◌, IfOk};
ghost use Rattle.nt_ast.specs.Places.{place_of};
ghost use Rattle.nt_ast.specs.declared.expr.Expr.TheViews.{out-Expr};
ghost use Rattle.nt_type_trees.specs.Answers.{TellsBound, TellsDim, TellsDims, both_of, extended, first_of};
ghost use Rattle.nt_type_trees.specs.Answers.{sized as sized_of};

use nt_ast::Expr;
use nt_const::{Lookup, constant_by, counts};
use nt_diag::{Fault, Refusal, Rule, earlier};
use nt_value::Place;
use sqlite_items::Items;
use std::alloc::{AllocError, Global};

/// A dimension as it is written.
pub type Dimension = (Expr, Option<Expr>);

// Where an expression begins.
fn place(expr: &Expr) -> Place
    ensures { result ≡ place_of (out-Expr expr.now) }
{
    match expr {
        Expr::Literal { at, .. } => *at,
        Expr::Read { at, .. } => *at,
        Expr::Member { at, .. } => *at,
        Expr::Item { at, .. } => *at,
        Expr::Part { at, .. } => *at,
        Expr::Indexed { at, .. } => *at,
        Expr::Unary { at, .. } => *at,
        Expr::Binary { at, .. } => *at,
        Expr::Choose { at, .. } => *at,
        Expr::Concat { at, .. } => *at,
        Expr::Repeat { at, .. } => *at,
        Expr::Pattern { at, .. } => *at,
        Expr::Call { at, .. } => *at,
        Expr::Size { at, .. } => *at,
        Expr::Time { at } => *at,
        Expr::Sign { at, .. } => *at,
    }
}

// The first of two faults.
fn first(r: Refusal, s: Refusal) -> Refusal
    ensures { result ≡ first_of r s }
{
    match earlier(Some(r), Some(s)) {
        Some(first) => first,
        None => r,
    }
}

/// Both, or the first fault of the two.
pub(crate) fn both<A: Drop, B: Drop>(
    a: Result<A, Refusal>,
    b: Result<B, Refusal>,
) -> Result<(A, B), Refusal>
    ensures { result ≡ both_of a b }
{
    match (a, b) {
        (Ok(a), Ok(b)) => Ok((a, b)),
        (Ok(_), Err(s)) => Err(s),
        (Err(r), Ok(_)) => Err(r),
        (Err(r), Err(s)) => Err(first(r, s)),
    }
}

// Some, and one more, or the first fault of them.
pub(crate) fn extend<T: Drop>(
    all: Result<Items<T>, Refusal>,
    one: Result<T, Refusal>,
) -> Result<Result<Items<T>, Refusal>, AllocError>
    ensures { IfOk result (λ r. r ≡ extended all one) }
{
    match both(all, one) {
        Ok((mut all, one)) => {
            all.push(one)?;
            Ok(Ok(all))
        }
        Err(refusal) => Ok(Err(refusal)),
    }
}

// A bound or size.
pub(crate) fn bound<L: Lookup>(
    alloc: Global,
    expr: &Expr,
    known: &L,
) -> Result<Result<u32, Refusal>, AllocError>
    ensures { IfOk result (λ r. TellsBound (L.sees known.now) expr.now r) }
{
    match constant_by(alloc, expr, known, None) {
        Ok(value) => {
            if counts(value) {
                Ok(Ok(value.magnitude() as u32))
            } else {
                Ok(Err(Refusal {
                    rule: Rule::T3,
                    place: place(expr),
                }))
            }
        }
        Err(Fault::Refused(refusal)) => Ok(Err(refusal)),
        Err(Fault::OutOfMemory(refused)) => Err(refused),
    }
}

// The bounds of a dimension that is written as a size.
fn sized(at: Place, size: Result<u32, Refusal>) -> Result<(u32, u32), Refusal>
    ensures { result ≡ sized_of at size }
{
    match size {
        Ok(size) => {
            if size == 0 {
                Err(Refusal {
                    rule: Rule::T3,
                    place: at,
                })
            } else {
                Ok((0, size - 1))
            }
        }
        Err(refusal) => Err(refusal),
    }
}

fn dimension<L: Lookup>(
    alloc: Global,
    left: &Expr,
    right: &Option<Expr>,
    known: &L,
) -> Result<Result<(u32, u32), Refusal>, AllocError>
    ensures { IfOk result (λ r. TellsDim (L.sees known.now) (left.now, right.now) r) }
{
    let first = bound(alloc, left, known)?;
    match right {
        None => Ok(sized(place(left), first)),
        Some(right) => {
            let second = bound(alloc, right, known)?;
            Ok(both(first, second))
        }
    }
}

/// The bounds of dimensions.
pub(crate) fn dimensions<L: Lookup>(
    alloc: Global,
    dims: &[Dimension],
    known: &L,
) -> Result<Result<Items<(u32, u32)>, Refusal>, AllocError>
    ensures { IfOk result (λ r. TellsDims (L.sees known.now) dims.now r) }
{
    let mut all = Ok(Items::new(alloc));
    for (left, right) in dims {
        let one = dimension(alloc, left, right, known)?;
        all = extend(all, one)?;
    }
    Ok(all)
}
