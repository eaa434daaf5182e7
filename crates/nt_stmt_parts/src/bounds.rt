// Over what a `foreach` counts (IEEE 1800-2017, 12.7.3).
ghost use Rattle.std.specs.Prelude.{◌≡◌, Ok};
ghost use Rattle.nt_stmt_parts.specs.Parts.{BoundsAt};
ghost use Rattle.nt_typed_stmts.specs.Tables.{bounds_of};

use crate::lefts::told_at;
use nt_ast::Path;
use nt_diag::{Fault, Rule};
use nt_kinds::Kind;
use nt_things::read_of;
use nt_typing::{Scope, Thing};
use nt_value::{Name, Place};
use std::alloc::Global;

// The bounds of what is counted over; a resolver's argument has none.
fn bounds_of(thing: &Thing) -> Result<Option<(u32, u32)>, Rule>
    ensures { result ≡ bounds_of (Ok thing.now) }
{
    match thing {
        Thing::Many { .. } => Ok(None),
        Thing::Value { kind, .. } => match kind.get() {
            Kind::Array { left, right, .. } => Ok(Some((*left, *right))),
            Kind::One { .. } => Err(Rule::T8),
            Kind::Struct { .. } => Err(Rule::T8),
        },
    }
}

/// The bounds of the array that a `foreach` counts over, the left one first; `None` for a resolver's argument.
///
/// # Errors
///
/// T4, T8 or T12 at the array's name, and `OutOfMemory`.
pub fn foreach_bounds(
    alloc: Global,
    scope: &Scope,
    at: Place,
    array: &Name,
) -> Result<Option<(u32, u32)>, Fault>
    ensures { BoundsAt scope.now at array.now result }
{
    let path = Path {
        at,
        scope: None,
        name: array.copy(alloc)?,
    };
    match read_of(alloc, scope, &path) {
        Err(unfit) => Err(told_at(unfit, at)),
        Ok(thing) => match bounds_of(&thing) {
            Ok(bounds) => Ok(bounds),
            Err(rule) => Err(Fault::refused(rule, at)),
        },
    }
}
