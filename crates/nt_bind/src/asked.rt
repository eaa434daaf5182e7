// What statements ask of expressions.
ghost use Rattle.nt_ast.specs.declared.expr.Expr.TheViews.{out-Expr};
ghost use Rattle.nt_forms.specs.Walks.{AllSent, Bases, Drafts, Leafs, Selves, Sends};
ghost use Rattle.nt_things.specs.Usable.{AllUsable, IsUsable, UsableScope};
ghost use Rattle.nt_typing.specs.Tables.{given};

use crate::walk::{all_sent, base, draft, integral, own, sent_to};
use nt_ast::Expr;
use nt_design::Tree;
use nt_diag::Fault;
use nt_drafts::Draft;
use nt_forms::{Leafed, Selfed};
use nt_kinds::Kind;
use nt_typing::{Scope, Thing};
use sqlite_items::{Boxed, Items};
use std::alloc::Global;

/// The draft of an expression: what it is before its context is known.
///
/// # Errors
///
/// Its least fault, and `OutOfMemory`.
pub fn bind_draft(alloc: Global, scope: &Scope, expr: &Expr) -> Result<Boxed<Draft>, Fault>
    requires { UsableScope scope.now }
    ensures { Drafts scope.now (out-Expr expr.now) result }
{
    draft(alloc, scope, expr)
}

/// What an expression stands for, as what is selected from or written: T8 at it where it takes its context.
///
/// # Errors
///
/// Its least fault, and `OutOfMemory`.
pub fn bind_base(alloc: Global, scope: &Scope, expr: &Expr) -> Result<Thing, Fault>
    requires { UsableScope scope.now }
    ensures { Bases scope.now (out-Expr expr.now) result }
{
    base(alloc, scope, expr)
}

/// An integral expression before its context is known: T8 at it where it has no leaf (IEEE 1800-2017, 11.6.1).
///
/// # Errors
///
/// Its least fault, and `OutOfMemory`.
pub fn bind_integral(alloc: Global, scope: &Scope, expr: &Expr) -> Result<Leafed, Fault>
    requires { UsableScope scope.now }
    ensures { Leafs scope.now (out-Expr expr.now) result }
{
    integral(alloc, scope, expr)
}

/// An integral expression in its own leaf.
///
/// # Errors
///
/// Those of `bind_integral`.
pub fn bind_self(alloc: Global, scope: &Scope, expr: &Expr) -> Result<Selfed, Fault>
    requires { UsableScope scope.now }
    ensures { Selves scope.now (out-Expr expr.now) result }
{
    own(alloc, scope, expr)
}

/// The right side of an assignment to a type (10.7, 10.9, 6.22.2).
///
/// # Errors
///
/// Its least fault, and `OutOfMemory`.
pub fn bind_to(alloc: Global, scope: &Scope, expr: &Expr, kind: &Kind) -> Result<Boxed<Tree>, Fault>
    requires scope { UsableScope scope.now }
    requires kind { IsUsable kind.now }
    ensures { Sends scope.now (out-Expr expr.now) kind.now result }
{
    sent_to(alloc, scope, expr, kind)
}

/// The operands of a call, each as an assignment to the type of its argument (13.5).
///
/// # Errors
///
/// The least fault among them, and `OutOfMemory`.
pub fn bind_args(
    alloc: Global,
    scope: &Scope,
    args: &[Expr],
    kinds: &[Kind],
) -> Result<Items<Tree>, Fault>
    requires scope { UsableScope scope.now }
    requires kinds { AllUsable kinds.now }
    ensures { AllSent scope.now (given args.now kinds.now) result }
{
    all_sent(alloc, scope, args, kinds)
}
