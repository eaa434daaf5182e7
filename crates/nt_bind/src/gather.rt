// What goes to a type, and the items of a pattern.
ghost use Rattle.std.specs.Prelude.{◌≡◌, ℕ, false, IfOk, List, None, Option, Some, [], option_map, slice_get};
ghost use Rattle.nt_ast.specs.Places.{Node, place_of};
ghost use Rattle.nt_ast.specs.declared.expr.Expr.TheOpen.{Expr-F};
ghost use Rattle.nt_ast.specs.declared.expr.Expr.{Expr};
ghost use Rattle.nt_ast.specs.declared.expr.Key.{Key};
ghost use Rattle.nt_bind.specs.Patterns.{IsKindOf, Joins, OnUsableDraft, OnUsableKind, ended};
ghost use Rattle.nt_forms.specs.Walks.{Drafts, Sends, SomeSent};
ghost use Rattle.nt_kinds.specs.declared.kind.Kind.TheViews.{out-Kind};
ghost use Rattle.nt_kinds.specs.declared.kind.Kind.{Kind as Form};
ghost use Rattle.nt_things.specs.Usable.{AllUsable, IsUsable};
ghost use Rattle.nt_typing.specs.Faults.{is_pattern};
ghost use Rattle.nt_typing.specs.Tables.{planned, slots_of};
ghost use Rattle.nt_typing.specs.declared.scope.Scope.{Scope};
ghost use Rattle.nt_value.specs.declared.place.Place.{Place as Spot};

use nt_design::Tree;
use nt_diag::{Fault, Refusal, earlier};
use nt_drafts::Draft;
use nt_forms::sent;
use nt_kinds::Kind;
use nt_value::Place;
use sqlite_items::{Boxed, Items};
use std::alloc::{AllocError, Global};

/// What is assigned to a type and is no pattern.
pub(crate) fn plain_sent(
    alloc: Global,
    draft: Result<Boxed<Draft>, Fault>,
    at: Place,
    kind: &Kind,
) -> Result<Boxed<Tree>, Fault>
    requires draft { OnUsableDraft draft }
    requires kind { IsUsable kind.now }
    ensures { (s : Scope) (x : Node) → is_pattern x ≡ false → at ≡ place_of x → Drafts s x draft → Sends s x kind.now result }
{
    sent(alloc, draft?, at, kind)
}

/// The trees of the items of a pattern so far, and the least fault among them.
#[derive(Drop)]
pub(crate) struct Gathered {
    pub(crate) trees: Items<Tree>,
    pub(crate) least: Option<Refusal>,
}

pub(crate) fn nothing(alloc: Global) -> Gathered
    ensures { result ≡ record { trees = []; least = None } }
{
    Gathered {
        trees: Items::new(alloc),
        least: None,
    }
}

/// One item more, or its fault.
pub(crate) fn join(all: Gathered, tree: Result<Boxed<Tree>, Fault>) -> Result<Gathered, AllocError>
    ensures { IfOk result (λ next. Joins all tree next) }
{
    let Gathered { mut trees, least } = all;
    match tree {
        Ok(tree) => {
            trees.push(tree.into_inner())?;
            Ok(Gathered { trees, least })
        }
        Err(Fault::Refused(refusal)) => Ok(Gathered {
            trees,
            least: earlier(least, Some(refusal)),
        }),
        Err(Fault::OutOfMemory(refused)) => Err(refused),
    }
}

pub(crate) fn finished(all: Gathered) -> Result<Items<Tree>, Fault>
    ensures { result ≡ ended all }
{
    let Gathered { trees, least } = all;
    match least {
        None => Ok(trees),
        Some(refusal) => Err(Fault::Refused(refusal)),
    }
}

/// The type of a structure's member or of an array's element, by its number.
pub(crate) fn slot_kind(kind: &Kind, index: usize) -> Option<&Kind>
    requires { IsUsable kind.now }
    ensures usable { OnUsableKind (λ k. k.now) result }
    ensures is { (slots : List (Option (List ℕ) × Form)) (slot : Option (List ℕ) × Form) → slots_of (out-Kind kind.now) ≡ Some slots → slice_get slots index ≡ Some slot → IsKindOf (λ k. k.now) slot result }
{
    match kind {
        Kind::One { .. } => None,
        Kind::Struct { members, .. } => match members.as_slice().get(index) {
            None => None,
            Some((_name, own)) => Some(own),
        },
        Kind::Array { element, .. } => Some(element.get()),
    }
}

/// The type of an argument, by its number.
pub(crate) fn kind_at(kinds: &[Kind], index: usize) -> Option<&Kind>
    requires { AllUsable kinds.now }
    ensures usable { OnUsableKind (λ k. k.now) result }
    ensures is { option_map (λ k. k.now) result ≡ slice_get kinds.now index }
{
    match kinds.get(index) {
        None => None,
        Some(own) => Some(own),
    }
}

/// A pattern from the trees of its items.
pub(crate) fn pattern_arm(
    alloc: Global,
    trees: Result<Items<Tree>, Fault>,
) -> Result<Boxed<Tree>, Fault>
    ensures { (s : Scope) (k : Form) (at : Spot) (items : List (Option Key × Expr)) (plan : List (Expr × Form)) → planned k items ≡ Some plan → SomeSent s plan trees
        → Sends s (Expr-F.Pattern at items) k result }
{
    let parts = trees?;
    Ok(Boxed::new(alloc, Tree::Gather { parts })?)
}
