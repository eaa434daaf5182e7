// What goes to a left side.
ghost use Rattle.std.specs.Prelude.{◌≡◌};
ghost use Rattle.nt_ast.specs.Places.{Node, place_of};
ghost use Rattle.nt_ast.specs.declared.expr.Expr.TheViews.{out-Expr};
ghost use Rattle.nt_stmt_parts.specs.Parts.{AssignedTo, DeferredTo, Lefts, OnUsableLeft};
ghost use Rattle.nt_things.specs.Usable.{UsableScope};
ghost use Rattle.nt_typed_stmts.specs.Binds.{is_own_from};

use crate::joined::with_rule;
use crate::lefts::Left;
use nt_ast::Expr;
use nt_bind::bind_to;
use nt_design::{Target, Tree};
use nt_diag::{Fault, Rule};
use nt_typing::Scope;
use nt_value::Place;
use sqlite_items::Boxed;
use std::alloc::Global;

/// What an assignment writes, and the value that it writes there.
#[derive(Drop)]
pub struct Assigned {
    pub target: Target,
    pub right: Boxed<Tree>,
}

/// An assignment to a left side (IEEE 1800-2017, 10.4.1).
///
/// # Errors
///
/// The fault of the left side, or the least fault of the right one, which rests on it; and `OutOfMemory`.
pub fn assigned_to(
    alloc: Global,
    scope: &Scope,
    left: Result<Left, Fault>,
    right: &Expr,
) -> Result<Assigned, Fault>
    requires scope { UsableScope scope.now }
    requires left { OnUsableLeft left }
    ensures { (x : Node) → Lefts scope.now x left → AssignedTo scope.now x right.now result }
{
    let Left { kind, target } = left?;
    let right = bind_to(alloc, scope, right, kind.get())?;
    Ok(Assigned { target, right })
}

// Whether a target is one of the locals from this number on.
fn is_own(first: u32, target: &Target) -> bool
    ensures { result ≡ is_own_from first target.now }
{
    match target {
        Target::Local { local, .. } => first <= *local,
        _ => false,
    }
}

/// A nonblocking assignment to a left side, which writes no loop variable (10.4.2); these are the locals from `first` on.
///
/// # Errors
///
/// T8 at the left side, `at`, where it is a loop variable; the fault of the left side; the least fault of the right one; and
/// `OutOfMemory`.
pub fn deferred_to(
    alloc: Global,
    scope: &Scope,
    first: u32,
    at: Place,
    left: Result<Left, Fault>,
    right: &Expr,
) -> Result<Assigned, Fault>
    requires scope { UsableScope scope.now }
    requires left { OnUsableLeft left }
    ensures { (x : Node) → at ≡ place_of x → Lefts scope.now x left → DeferredTo scope.now first x right.now result }
{
    let left = left?;
    let own = is_own(first, &left.target);
    let assigned = assigned_to(alloc, scope, Ok(left), right);
    with_rule(own, Rule::T8, at, assigned)
}
