// What an expression is bound to.
ghost use Rattle.std.specs.Prelude.{◌≡◌, None, Some, option_map};
ghost use Rattle.nt_ast.specs.Places.{Node, place_of};
ghost use Rattle.nt_ast.specs.declared.expr.Expr.TheViews.{out-Expr};
ghost use Rattle.nt_bind.specs.Binding.{BindsTo, own_context};
ghost use Rattle.nt_drafts.specs.Drafts.{DraftOf};
ghost use Rattle.nt_drafts.specs.declared.drafts.Draft.TheViews.{out-Draft};
ghost use Rattle.nt_bind.specs.Patterns.{OnUsableKind};
ghost use Rattle.nt_things.specs.Usable.{UsableScope};
ghost use Rattle.nt_typing.specs.declared.scope.Scope.{Scope as Names};

use crate::walk::{draft, sent_to};
use nt_ast::Expr;
use nt_const::{Size, one_bit};
use nt_design::Tree;
use nt_diag::{Fault, Rule};
use nt_drafts::{Draft, close};
use nt_kinds::Kind;
use nt_typing::Scope;
use nt_value::Place;
use sqlite_items::Boxed;
use std::alloc::Global;

// The context in which a draft becomes the tree of its expression by itself.
fn context_of(draft: &Draft) -> Option<Size>
    ensures { result ≡ own_context (out-Draft draft.now) }
{
    match draft {
        Draft::Closed { size, .. } => Some(*size),
        Draft::Whole { .. } => Some(one_bit(false)),
        Draft::Many { .. } => None,
        Draft::Literal { size, .. } => Some(*size),
        Draft::Unary { size, .. } => Some(*size),
        Draft::Binary { size, .. } => Some(*size),
        Draft::Choose { size, .. } => Some(*size),
    }
}

// The tree of an expression by itself, from its draft (IEEE 1800-2017, 11.6.1): in its own leaf where it is integral, else that of
// its structure or array. T8 at the expression where it is a resolver's argument.
fn bind_alone(alloc: Global, draft: Boxed<Draft>, at: Place) -> Result<Boxed<Tree>, Fault>
    ensures { (s : Names) (x : Node) → at ≡ place_of x → DraftOf s x (out-Draft draft) → BindsTo s x None result }
{
    match context_of(draft.get()) {
        None => Err(Fault::refused(Rule::T8, at)),
        Some(size) => Ok(close(alloc, draft, size)?),
    }
}

/// The typed tree of an expression by itself, or, with a type, as an assignment to it (IEEE 1800-2017, clause 11; 6.22.2, 10.7, 10.9).
/// The time is that of one walk; an item of a pattern that serves several members or elements is gone through once for each.
///
/// # Errors
///
/// The least fault of the expression, by its place: T1 to T4, T8, T9, T12 or T16. `OutOfMemory`.
pub fn bind_expr(
    alloc: Global,
    scope: &Scope,
    expr: &Expr,
    to: Option<&Kind>,
) -> Result<Boxed<Tree>, Fault>
    requires scope { UsableScope scope.now }
    requires to { OnUsableKind (λ k. k.now) to }
    ensures { BindsTo scope.now (out-Expr expr.now) (option_map (λ k. k.now) to.entry) result }
{
    match to {
        None => {
            let draft = draft(alloc, scope, expr)?;
            bind_alone(alloc, draft, expr.at())
        }
        Some(kind) => sent_to(alloc, scope, expr, kind),
    }
}
