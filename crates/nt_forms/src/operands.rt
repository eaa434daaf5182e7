// What operands are asked to be.
ghost use Rattle.std.specs.Prelude.{◌≡◌, ◌≤◌, ◌||◌, IfOk, [], false};
ghost use Rattle.nt_ast.specs.Places.{Node, place_of};
ghost use Rattle.nt_drafts.specs.Drafts.{DraftOf, draft_leaf};
ghost use Rattle.nt_drafts.specs.declared.drafts.Draft.TheViews.{out-Draft};
ghost use Rattle.nt_forms.specs.Walks.{Bases, IsLeafed, Leafs, grown};
ghost use Rattle.nt_typing.specs.Typing.{Itself};
ghost use Rattle.nt_typing.specs.declared.scope.Scope.{Scope};

use nt_const::Size;
use nt_design::Tree;
use nt_diag::{Fault, Rule};
use nt_drafts::{Draft, close};
use nt_typing::Thing;
use nt_value::Place;
use sqlite_items::{Boxed, Items};
use std::alloc::{AllocError, Global};

/// An integral operand before its context is known (IEEE 1800-2017, 11.6.1).
#[derive(Drop)]
pub struct Leafed {
    pub size: Size,
    pub draft: Boxed<Draft>,
}

/// An integral operand that takes nothing from its context.
#[derive(Drop)]
pub struct Selfed {
    pub size: Size,
    pub tree: Boxed<Tree>,
}

/// Several such operands: the sum of their widths, of which all over 64 are one, and whether one has four states (11.4.12).
#[derive(Drop)]
pub struct Several {
    pub width: u8,
    pub four: bool,
    pub parts: Items<Tree>,
}

/// What an operand is where it is selected from: T8 at it where it takes its context.
///
/// # Errors
///
/// `Refused` with T8.
pub fn base_of(draft: Boxed<Draft>, at: Place) -> Result<Thing, Fault>
    ensures { (s : Scope) (x : Node) → at ≡ place_of x → DraftOf s x (out-Draft draft) → Bases s x result }
{
    match draft.into_inner() {
        Draft::Closed { kind, tree, .. } => Ok(Thing::Value { kind, tree }),
        Draft::Whole { kind, tree } => Ok(Thing::Value { kind, tree }),
        Draft::Many { element } => Ok(Thing::Many { element }),
        Draft::Literal { .. } => Err(Fault::refused(Rule::T8, at)),
        Draft::Unary { .. } => Err(Fault::refused(Rule::T8, at)),
        Draft::Binary { .. } => Err(Fault::refused(Rule::T8, at)),
        Draft::Choose { .. } => Err(Fault::refused(Rule::T8, at)),
    }
}

// The leaf of a draft by itself.
pub(crate) fn size_of(draft: &Draft) -> Option<Size>
    ensures { result ≡ draft_leaf (out-Draft draft.now) }
{
    match draft {
        Draft::Closed { size, .. } => Some(*size),
        Draft::Whole { .. } => None,
        Draft::Many { .. } => None,
        Draft::Literal { size, .. } => Some(*size),
        Draft::Unary { size, .. } => Some(*size),
        Draft::Binary { size, .. } => Some(*size),
        Draft::Choose { size, .. } => Some(*size),
    }
}

/// An operand with its leaf: T8 at it where it has none.
///
/// # Errors
///
/// `Refused` with T8.
pub fn leafed_of(draft: Boxed<Draft>, at: Place) -> Result<Leafed, Fault>
    ensures { (s : Scope) (x : Node) → at ≡ place_of x → DraftOf s x (out-Draft draft) → Leafs s x result }
{
    match size_of(draft.get()) {
        Some(size) => Ok(Leafed { size, draft }),
        None => Err(Fault::refused(Rule::T8, at)),
    }
}

/// An operand in its own leaf.
///
/// # Errors
///
/// `AllocError` alone.
pub fn self_of(alloc: Global, one: Leafed) -> Result<Selfed, AllocError>
    ensures { IfOk result (λ own. (s : Scope) (x : Node) → IsLeafed s x one → Itself s x own.size own.tree) }
{
    let Leafed { size, draft } = one;
    let tree = close(alloc, draft, size)?;
    Ok(Selfed { size, tree })
}

/// No operands.
pub fn no_parts(alloc: Global) -> Several
    ensures { result ≡ record { width = 0; four = false; parts = [] } }
{
    Several {
        width: 0,
        four: false,
        parts: Items::new(alloc),
    }
}

fn either(a: bool, b: bool) -> bool
    ensures { result ≡ (a || b) }
{
    a || b
}

/// One operand more.
///
/// # Errors
///
/// `AllocError` alone.
pub fn grow(all: Several, one: Selfed) -> Result<Several, AllocError>
    requires { all.width ≤ 65 }
    ensures { IfOk result (λ more. more ≡ grown all one.size one.tree) }
{
    let Several {
        width,
        four,
        mut parts,
    } = all;
    let Selfed { size, tree } = one;
    let leaf = size.leaf();
    parts.push(tree.into_inner())?;
    Ok(Several {
        width: (leaf.width + width).min(65),
        four: either(four, leaf.four),
        parts,
    })
}
