// Bounds, counts and widths.
ghost use Rattle.std.specs.Prelude.{◌≡◌};
ghost use Rattle.nt_ast.specs.declared.expr.Expr.TheViews.{out-Expr};
ghost use Rattle.nt_forms.specs.Walks.{CountsTo, MeasuresTo};

use nt_ast::Expr;
use nt_const::{constant_by, counts, width_of};
use nt_diag::{Fault, Rule};
use nt_things::ScopeNames;
use nt_typing::Scope;
use std::alloc::Global;

/// A bound or count: a constant, known, from 0 to 2^32 - 1 (IEEE 1800-2017, 11.2.1).
///
/// # Errors
///
/// Those of `constant_by`, and T3 at the expression.
pub fn counted(alloc: Global, scope: &Scope, expr: &Expr) -> Result<u32, Fault>
    ensures { CountsTo scope.now (out-Expr expr.now) result }
{
    let names = ScopeNames { scope };
    let value = constant_by(alloc, expr, &names, None)?;
    if counts(value) {
        Ok(value.magnitude() as u32)
    } else {
        Err(Fault::refused(Rule::T3, expr.at()))
    }
}

/// A width, which may be below 1: a known constant.
///
/// # Errors
///
/// Those of `constant_by`, and T3 at the expression.
pub fn measured(alloc: Global, scope: &Scope, expr: &Expr) -> Result<u64, Fault>
    ensures { MeasuresTo scope.now (out-Expr expr.now) result }
{
    let names = ScopeNames { scope };
    let value = constant_by(alloc, expr, &names, None)?;
    if value.is_known() {
        Ok(width_of(value))
    } else {
        Err(Fault::refused(Rule::T3, expr.at()))
    }
}
