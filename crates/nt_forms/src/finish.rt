// The draft of what a table gives.
ghost use Rattle.std.specs.Prelude.{◌≡◌, IfOk, Result, Ok, Err};
ghost use Rattle.nt_ast.specs.Places.{Node};
ghost use Rattle.nt_drafts.specs.Drafts.{DraftOf};
ghost use Rattle.nt_drafts.specs.Gives.{Gives};
ghost use Rattle.nt_drafts.specs.declared.drafts.Draft.TheViews.{out-Draft};
ghost use Rattle.nt_forms.specs.Walks.{Drafts, fault_at};
ghost use Rattle.nt_things.specs.Usable.{IsUsable, OnUsable, UsableThing};
ghost use Rattle.nt_typing.specs.Kinds.{leaf_of};
ghost use Rattle.nt_typing.specs.declared.thing.Thing.TheVariants.{Value};
ghost use Rattle.nt_typing.specs.Faults.{Wrong};
ghost use Rattle.nt_typing.specs.Typing.{Stands};
ghost use Rattle.nt_typing.specs.declared.scope.Scope.{Scope};
ghost use Rattle.nt_diag.specs.declared.rule.Rule.{Rule as Number};
ghost use Rattle.nt_typing.specs.declared.thing.Thing.{Thing as Given};

use nt_const::Size;
use nt_design::Tree;
use nt_diag::Fault;
use nt_drafts::{Draft, Unfit};
use nt_kinds::Kind;
use nt_typing::Thing;
use nt_value::Place;
use sqlite_items::Boxed;
use std::alloc::{AllocError, Global};

// A broken rule as a fault at this place.
pub(crate) fn fault_at(unfit: Unfit, at: Place) -> Fault
    ensures { result ≡ fault_at unfit at }
{
    match unfit {
        Unfit::Breaks(rule) => Fault::refused(rule, at),
        Unfit::OutOfMemory(refused) => Fault::OutOfMemory(refused),
    }
}

// The leaf of an integral type.
fn leaf_of(kind: &Kind) -> Option<Size>
    requires { IsUsable kind.now }
    ensures { result ≡ leaf_of kind.now }
{
    match kind {
        Kind::One { leaf, .. } => Some(Size::new(*leaf)),
        Kind::Struct { .. } => None,
        Kind::Array { .. } => None,
    }
}

fn value_draft(
    alloc: Global,
    kind: Boxed<Kind>,
    tree: Boxed<Tree>,
) -> Result<Boxed<Draft>, AllocError>
    requires { IsUsable kind }
    ensures { IfOk result (λ d. (s : Scope) (x : Node) → Stands s x (Value kind tree) → DraftOf s x (out-Draft d)) }
{
    match leaf_of(kind.get()) {
        Some(size) => Boxed::new(alloc, Draft::Closed { size, kind, tree }),
        None => Boxed::new(alloc, Draft::Whole { kind, tree }),
    }
}

// The draft of what takes nothing from its context.
pub(crate) fn thing_draft(alloc: Global, thing: Thing) -> Result<Boxed<Draft>, AllocError>
    requires { UsableThing thing }
    ensures { IfOk result (λ d. (s : Scope) (x : Node) → Stands s x thing → DraftOf s x (out-Draft d)) }
{
    match thing {
        Thing::Value { kind, tree } => value_draft(alloc, kind, tree),
        Thing::Many { element } => Boxed::new(alloc, Draft::Many { element }),
    }
}

// The draft of what a table gives, or its rule at this place.
pub(crate) fn finish(
    alloc: Global,
    at: Place,
    thing: Result<Thing, Unfit>,
) -> Result<Boxed<Draft>, Fault>
    requires { OnUsable thing }
    ensures { (s : Scope) (x : Node) (table : Result Given Number) → Gives table thing
        → ((h : Given) → table ≡ Ok h → Stands s x h) → ((r : Number) → table ≡ Err r → Wrong s x r at) → Drafts s x result }
{
    match thing {
        Ok(thing) => Ok(thing_draft(alloc, thing)?),
        Err(unfit) => Err(fault_at(unfit, at)),
    }
}
