// The value of an expression, and what a function gives, within the turns of an event.
ghost use Rattle.std.specs.Prelude.{◌≡◌, [], Err, IfOk, List, None, Some, get_or, slice_get};
ghost use Rattle.nt_design.specs.declared.env.Stop.TheVariants as stop;
ghost use Rattle.nt_value.specs.Values.{IsValueOf, shape_of};
ghost use Rattle.nt_value.specs.declared.leaf.Leaf.{Leaf};
ghost use Rattle.nt_design.specs.Meaning.{call_meaning, meaning};
ghost use Rattle.nt_design.specs.Shapes.{tree_shape};
ghost use Rattle.nt_design.specs.WellFormed.{Fits, IsDesign, env_scope};
ghost use Rattle.nt_design.specs.declared.function.Function.{Function};
ghost use Rattle.nt_eval.specs.Callable.{MayRun};

use crate::called::{Called, call_within};
use nt_design::{Design, Env, Stop, Tree};
use nt_parts::shape_of;
use nt_value::{Shape, Value};
use nt_values::{World, value_of};
use sqlite_items::Items;
use std::alloc::{AllocError, Global};

/// The turns of an event, this project's limit.
pub const MOST_TURNS: u32 = 65_536;

// The leaves of the first of some values.
fn first_shape(alloc: Global, values: &[Value]) -> Result<Shape, AllocError>
    ensures { IfOk result (λ shape. shape ≡ shape_of (get_or values.now 0 [])) }
{
    match values {
        [] => Ok(Shape::new(Vec::new(alloc))),
        [first, ..] => shape_of(alloc, first),
    }
}

/// The value of an expression in an environment of its design (IEEE 1800-2017, clause 11).
///
/// # Errors
///
/// `TooLong` exactly where its evaluation has no end, or takes more turns of functions than an event has. `OutOfMemory`
/// where memory is refused.
pub fn meaning(alloc: Global, design: &Design, tree: &Tree, env: &Env) -> Result<Value, Stop>
    requires design { IsDesign design.now }
    requires fits { Fits design.now env.now tree.now }
    ensures value { IfOk result (λ value. meaning design.now.functions env.now tree.now ≡ Some value) }
    ensures too_long { result ≡ Err stop.TooLong → meaning design.now.functions env.now tree.now ≡ None }
    ensures shape { IfOk result (λ value. (shape : List Leaf) → tree_shape (env_scope design.now env.now) tree.now ≡ Some shape → IsValueOf shape value) }
{
    let element = first_shape(alloc, env.many.as_slice())?;
    let world = World {
        time: env.time,
        nets: env.nets.as_slice(),
        vars: env.vars.as_slice(),
        many: env.many.as_slice(),
        element: &element,
    };
    let caller = Called {
        functions: design.functions.as_slice(),
        most: MOST_TURNS,
        inner: call_within,
    };
    let locals = env.locals.as_slice();
    let (value, _left) = value_of(alloc, &caller, &world, tree, locals, MOST_TURNS)?;
    Ok(value)
}

/// What a function gives for argument values, those of a resolver being the elements of its argument (13.4, 6.6.7).
///
/// # Errors
///
/// `TooLong` exactly where its body has no end, or takes more turns than an event has. `OutOfMemory` where memory is refused.
pub fn call(
    alloc: Global,
    design: &Design,
    function: u32,
    args: Items<Value>,
) -> Result<Value, Stop>
    requires design { IsDesign design.now }
    requires may { MayRun design.now.functions function args }
    ensures value { IfOk result (λ value. call_meaning design.now.functions function args ≡ Some value) }
    ensures too_long { result ≡ Err stop.TooLong → call_meaning design.now.functions function args ≡ None }
    ensures shape { IfOk result (λ value. (f : Function) → slice_get design.now.functions function ≡ Some f → IsValueOf f.result value) }
{
    let functions = design.functions.as_slice();
    let (value, _left) = call_within(alloc, functions, MOST_TURNS, function, args, MOST_TURNS)?;
    Ok(value)
}
