// What stays the same while an expression is evaluated.
ghost use Rattle.std.specs.Prelude.{◌≡◌, IfOk};
ghost use Rattle.nt_design.specs.Expressions.{object_in};
ghost use Rattle.nt_values.specs.Typed.{world_in};

use nt_design::Object;
use nt_parts::value_at;
use nt_value::{Shape, Value};
use std::alloc::{AllocError, Global};

/// What stays the same while an expression is evaluated: the moment, in units of the design's time unit, the values of
/// nets and variables, and the elements of a resolver's argument with the leaves of each.
#[derive(Drop)]
pub struct World<'a> {
    pub time: u64,
    pub nets: &'a [Value],
    pub vars: &'a [Value],
    pub many: &'a [Value],
    pub element: &'a Shape,
}

// The value of a net or a variable.
pub(crate) fn object_at(alloc: Global, world: &World, object: Object) -> Result<Value, AllocError>
    ensures { IfOk result (λ v. v ≡ object_in (world_in world.now) object) }
{
    match object {
        Object::Net(net) => value_at(alloc, world.nets, net as usize),
        Object::Var(var) => value_at(alloc, world.vars, var as usize),
    }
}
