// What an operand is, from its draft or its fault.
ghost use Rattle.std.specs.Prelude.{◌≡◌};
ghost use Rattle.nt_ast.specs.Places.{Node, place_of};
ghost use Rattle.nt_forms.specs.Walks.{Bases, Drafts, Leafs, Selves};
ghost use Rattle.nt_typing.specs.declared.scope.Scope.{Scope};

use nt_diag::Fault;
use nt_drafts::Draft;
use nt_forms::{Leafed, Selfed, base_of, leafed_of, self_of};
use nt_typing::Thing;
use nt_value::Place;
use sqlite_items::Boxed;
use std::alloc::Global;

/// What can be selected from.
pub(crate) fn based(draft: Result<Boxed<Draft>, Fault>, at: Place) -> Result<Thing, Fault>
    ensures { (s : Scope) (x : Node) → at ≡ place_of x → Drafts s x draft → Bases s x result }
{
    base_of(draft?, at)
}

/// An integral operand before its context is known.
pub(crate) fn leafed(draft: Result<Boxed<Draft>, Fault>, at: Place) -> Result<Leafed, Fault>
    ensures { (s : Scope) (x : Node) → at ≡ place_of x → Drafts s x draft → Leafs s x result }
{
    leafed_of(draft?, at)
}

/// An integral operand in its own leaf.
pub(crate) fn selfed(alloc: Global, one: Result<Leafed, Fault>) -> Result<Selfed, Fault>
    ensures { (s : Scope) (x : Node) → Leafs s x one → Selves s x result }
{
    Ok(self_of(alloc, one?)?)
}
