// The right side of an assignment to a type.
ghost use Rattle.std.specs.Prelude.{◌≡◌, ◌≤◌, None, Some, false, length};
ghost use Rattle.nt_ast.specs.Places.{Node, place_of};
ghost use Rattle.nt_drafts.specs.Drafts.{DraftOf};
ghost use Rattle.nt_drafts.specs.declared.drafts.Draft.TheViews.{out-Draft};
ghost use Rattle.nt_forms.specs.Walks.{Sends, UsableDraft};
ghost use Rattle.nt_kinds.specs.declared.kind.Kind.{Kind as Form};
ghost use Rattle.nt_things.specs.Usable.{IsUsable};
ghost use Rattle.nt_typing.specs.Faults.{is_pattern};
ghost use Rattle.nt_typing.specs.Kinds.{leaf_of};
ghost use Rattle.nt_typing.specs.Tables.{wider};
ghost use Rattle.nt_typing.specs.declared.scope.Scope.{Scope};

use crate::operands::size_of;
use nt_const::Size;
use nt_design::Tree;
use nt_diag::{Fault, Rule};
use nt_drafts::{Draft, close, fitted};
use nt_kinds::Kind;
use nt_value::Place;
use sqlite_items::Boxed;
use std::alloc::Global;

// The leaf that an expression takes where its value goes to another.
fn wider_of(to: Size, size: Size) -> Size
    ensures { result ≡ wider to size }
{
    let to = to.leaf();
    let leaf = size.leaf();
    Size::of(to.width.max(leaf.width), leaf.signed, leaf.four)
}

// To an integral type (IEEE 1800-2017, 10.7).
fn to_leaf(alloc: Global, draft: Boxed<Draft>, at: Place, to: Size) -> Result<Boxed<Tree>, Fault>
    ensures { (s : Scope) (x : Node) (k : Form) → leaf_of k ≡ Some to → is_pattern x ≡ false → at ≡ place_of x → DraftOf s x (out-Draft draft) → Sends s x k result }
{
    match size_of(draft.get()) {
        None => Err(Fault::refused(Rule::T8, at)),
        Some(size) => {
            let context = wider_of(to, size);
            let tree = close(alloc, draft, context)?;
            Ok(fitted(alloc, context, to, tree)?)
        }
    }
}

// To a structure or an array: only a value of an equivalent type (6.22.2).
fn to_kind(draft: Boxed<Draft>, at: Place, kind: &Kind) -> Result<Boxed<Tree>, Fault>
    requires draft { UsableDraft (out-Draft draft) }
    requires kind { IsUsable kind.now }
    ensures { (s : Scope) (x : Node) → leaf_of kind.now ≡ None → is_pattern x ≡ false → at ≡ place_of x → DraftOf s x (out-Draft draft) → Sends s x kind.now result }
{
    match draft.into_inner() {
        Draft::Whole { kind: own, tree } => {
            if own.get().equivalent(kind) {
                Ok(tree)
            } else {
                Err(Fault::refused(Rule::T8, at))
            }
        }
        Draft::Closed { .. } => Err(Fault::refused(Rule::T8, at)),
        Draft::Many { .. } => Err(Fault::refused(Rule::T8, at)),
        Draft::Literal { .. } => Err(Fault::refused(Rule::T8, at)),
        Draft::Unary { .. } => Err(Fault::refused(Rule::T8, at)),
        Draft::Binary { .. } => Err(Fault::refused(Rule::T8, at)),
        Draft::Choose { .. } => Err(Fault::refused(Rule::T8, at)),
    }
}

/// The tree of what is assigned to a type, where it is no pattern (10.7, 6.22.2).
///
/// # Errors
///
/// T8 at the expression, and `OutOfMemory`.
pub fn sent(
    alloc: Global,
    draft: Boxed<Draft>,
    at: Place,
    kind: &Kind,
) -> Result<Boxed<Tree>, Fault>
    requires draft { UsableDraft (out-Draft draft) }
    requires kind { IsUsable kind.now }
    ensures { (s : Scope) (x : Node) → is_pattern x ≡ false → at ≡ place_of x → DraftOf s x (out-Draft draft) → Sends s x kind.now result }
{
    match kind {
        Kind::One { leaf, .. } => to_leaf(alloc, draft, at, Size::new(*leaf)),
        _ => to_kind(draft, at, kind),
    }
}
