// Whether all in an expression is constant.
ghost use Rattle.std.specs.Prelude.{◌≡◌, ◌||◌, IfOk};
ghost use Rattle.nt_ast.specs.declared.expr.Expr.TheOpen.{Expr-F};
ghost use Rattle.nt_ast.specs.declared.expr.Expr.TheViews.{out-Expr};
ghost use Rattle.nt_value.specs.declared.place.Place.{Place as Spot};
ghost use Rattle.nt_const.specs.Forms.{AnyIs, HidesIs};

use crate::{Lookup, Seen};
use nt_ast::{Expr, Path};
use std::alloc::{AllocError, Global};

fn either(a: bool, b: bool) -> bool
    ensures { result ≡ (a || b) }
{
    a || b
}

// Whether a name is that of something else than a constant.
fn is_other<L: Lookup>(alloc: Global, path: &Path, known: &L) -> Result<bool, AllocError>
    ensures { IfOk result (λ b. (at : Spot) → HidesIs (L.sees known.now) b (Expr-F.Read at path.now)) }
{
    match known.look(alloc, path)? {
        Seen::Other => Ok(true),
        Seen::Value(_) => Ok(false),
        Seen::Unknown => Ok(false),
        Seen::Ambiguous => Ok(false),
    }
}

// Whether what is no constant stands in an expression.
#[cycle(forms)]
pub(crate) fn hides<L: Lookup>(alloc: Global, expr: &Expr, known: &L) -> Result<bool, AllocError>
    ensures { IfOk result (λ b. HidesIs (L.sees known.now) b (out-Expr expr.now)) }
{
    match expr {
        Expr::Literal { .. } => Ok(false),
        Expr::Read { path, .. } => is_other(alloc, path, known),
        Expr::Member { .. } => Ok(true),
        Expr::Pattern { .. } => Ok(true),
        Expr::Call { .. } => Ok(true),
        Expr::Size { .. } => Ok(true),
        Expr::Time { .. } => Ok(true),
        Expr::Item { of, index, .. } => {
            let a = hides(alloc, of.get(), known)?;
            let b = hides(alloc, index.get(), known)?;
            Ok(either(a, b))
        }
        Expr::Part {
            of,
            left,
            right,
            ..
        } => {
            let a = hides(alloc, of.get(), known)?;
            let b = hides(alloc, left.get(), known)?;
            let c = hides(alloc, right.get(), known)?;
            Ok(either(a, either(b, c)))
        }
        Expr::Indexed {
            of,
            base,
            width,
            ..
        } => {
            let a = hides(alloc, of.get(), known)?;
            let b = hides(alloc, base.get(), known)?;
            let c = hides(alloc, width.get(), known)?;
            Ok(either(a, either(b, c)))
        }
        Expr::Unary { of, .. } => hides(alloc, of.get(), known),
        Expr::Binary { left, right, .. } => {
            let a = hides(alloc, left.get(), known)?;
            let b = hides(alloc, right.get(), known)?;
            Ok(either(a, b))
        }
        Expr::Choose { test, yes, no, .. } => {
            let a = hides(alloc, test.get(), known)?;
            let b = hides(alloc, yes.get(), known)?;
            let c = hides(alloc, no.get(), known)?;
            Ok(either(a, either(b, c)))
        }
        Expr::Concat { parts, .. } => any_hides(alloc, parts.as_slice(), known),
        Expr::Repeat { count, parts, .. } => {
            let a = hides(alloc, count.get(), known)?;
            let b = any_hides(alloc, parts.as_slice(), known)?;
            Ok(either(a, b))
        }
        Expr::Sign { of, .. } => hides(alloc, of.get(), known),
    }
}

#[cycle(forms)]
fn any_hides<L: Lookup>(alloc: Global, parts: &[Expr], known: &L) -> Result<bool, AllocError>
    ensures { IfOk result (λ b. AnyIs (L.sees known.now) b parts.now) }
{
    for part in parts {
        let found = hides(alloc, part, known)?;
        if found {
            return Ok(true);
        }
    }
    Ok(false)
}
