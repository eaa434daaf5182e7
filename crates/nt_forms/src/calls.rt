// Calls of functions.
ghost use Rattle.std.specs.Prelude.{◌≡◌, List, Ok, length};
ghost use Rattle.nt_ast.specs.declared.expr.Expr.TheOpen.{Expr-F};
ghost use Rattle.nt_ast.specs.declared.expr.Expr.{Expr as Operand};
ghost use Rattle.nt_ast.specs.declared.path.Path.{Path as Named};
ghost use Rattle.nt_forms.specs.Walks.{Calls, Drafts};
ghost use Rattle.nt_things.specs.Usable.{UsableFunction};
ghost use Rattle.nt_typing.specs.Names.{meaning_of};
ghost use Rattle.nt_typing.specs.Tables.{called, given};
ghost use Rattle.nt_typing.specs.Typing.{AllGo};
ghost use Rattle.nt_typing.specs.declared.scope.Scope.{Scope as Names};

use crate::finish::{fault_at, finish};
use nt_ast::{Expr, Path};
use nt_design::Tree;
use nt_diag::Fault;
use nt_drafts::Draft;
use nt_things::{answer_of, callee};
use nt_typing::{Callable, Scope};
use nt_value::Place;
use sqlite_items::{Boxed, Items};
use std::alloc::Global;

/// The function of a call (IEEE 1800-2017, 13.4).
///
/// # Errors
///
/// T4, T8, T12 or T16 at the call, and `OutOfMemory`.
pub fn callee_at<'a>(
    alloc: Global,
    scope: &'a Scope,
    at: Place,
    path: &Path,
    args: &[Expr],
) -> Result<&'a Callable, Fault>
    ensures { Calls (λ f. f.now) scope.now at path.now args.now result }
{
    match callee(alloc, scope, path, args.len()) {
        Ok(function) => Ok(function),
        Err(unfit) => Err(fault_at(unfit, at)),
    }
}

/// A call of a function with these operands (13.4.1).
///
/// # Errors
///
/// T8 at the call, and `OutOfMemory`.
pub fn call_form(
    alloc: Global,
    at: Place,
    function: &Callable,
    args: Items<Tree>,
) -> Result<Boxed<Draft>, Fault>
    requires { UsableFunction function.now }
    ensures { (s : Names) (path : Named) (xs : List Operand) → called (meaning_of s path) (length xs) ≡ Ok function.now → AllGo s (given xs function.now.args) args
        → Drafts s (Expr-F.Call at path xs) result }
{
    finish(
        alloc,
        at,
        answer_of(alloc, &function.result, function.number, args),
    )
}
