// The values of event expressions.
ghost use Rattle.std.specs.Prelude.{◌≡◌, ◌≤◌};
ghost use Rattle.nt_design.specs.Expressions.{values_of};
ghost use Rattle.nt_design.specs.Reads.{event_trees};
ghost use Rattle.nt_values.specs.Tells.{Tells};
ghost use Rattle.nt_values.specs.Typed.{AllTyped, world_in};

use nt_design::{Edge, Stop, Tree};
use nt_value::Value;
use nt_values::{Caller, World, value_of};
use sqlite_items::Items;
use std::alloc::Global;

// The values of the expressions of an event control in order (IEEE 1800-2017, 9.4.2).
pub(crate) fn event_values<C: Caller>(
    alloc: Global,
    caller: &C,
    world: &World,
    on: &[(Edge, Tree)],
    locals: &[Value],
    left: u32,
) -> Result<(Items<Value>, u32), Stop>
    requires may { C.can_call caller.now }
    requires typed { AllTyped (C.signatures caller.now) (C.calls caller.now) (world_in world.now) locals.now (event_trees on.now) }
    requires few { left ≤ C.most caller.now }
    ensures { Tells left (values_of (C.calls caller.now) (world_in world.now) (event_trees on.now) locals.now left) result }
{
    let mut values = Items::new(alloc);
    let mut turns = left;
    for event in on {
        let (value, l) = value_of(alloc, caller, world, &event.1, locals, turns)?;
        values.push(value)?;
        turns = l;
    }
    Ok((values, turns))
}
