// Statements without statements in them.
ghost use Rattle.std.specs.Prelude.{◌≤◌, Some, option_copied, option_to_list};
ghost use Rattle.nt_value.specs.Digits.{is_one};
ghost use Rattle.nt_design.specs.Expressions.{values_of};
ghost use Rattle.nt_design.specs.Parts as parts;
ghost use Rattle.nt_design.specs.Statements.{assign, nothing, return_of};
ghost use Rattle.nt_design.specs.Turns.{and_then};
ghost use Rattle.nt_values.specs.Tells.{Tells};
ghost use Rattle.nt_values.specs.Typed.{AllTyped, world_in};
ghost use Rattle.nt_acts.specs.Endings.{test_or_always};
ghost use Rattle.nt_acts.specs.Doable.{Assigned, Called, Returned, with_locals};

use crate::forms::{put_name, write};
use nt_design::{Flow, Stop, Target, Tree};
use nt_parts::test_of;
use nt_value::{Digit, Value};
use nt_values::{Caller, World, path_of, value_of, values_of};
use sqlite_items::Items;
use std::alloc::Global;

// A blocking assignment: the right side, then the path of the left one (IEEE 1800-2017, 10.4.1).
pub(crate) fn assigned<C: Caller>(
    alloc: Global,
    caller: &C,
    world: &World,
    target: &Target,
    right: &Tree,
    locals: &mut Items<Value>,
    left: u32,
) -> Result<(Flow, u32), Stop>
    requires may { C.can_call caller.now }
    requires typed { Assigned (C.signatures caller.now) (C.calls caller.now) (world_in world.now) locals.old target.now right.now }
    requires few { left ≤ C.most caller.now }
    ensures { Tells left (assign (C.calls caller.now) (world_in world.now) target.now right.now locals.old left) (with_locals locals.new result) }
{
    let Target::Local { local, path } = target else {
        return Ok((Flow::Next, left));
    };
    let (value, turns) = value_of(alloc, caller, world, right, locals.as_slice(), left)?;
    let (steps, turns) = path_of(
        alloc,
        caller,
        world,
        path.as_slice(),
        locals.as_slice(),
        turns,
    )?;
    write(alloc, locals, *local as usize, steps.as_slice(), value)?;
    Ok((Flow::Next, turns))
}

// `return`: the value goes to the function's name (13.4.1).
pub(crate) fn returned<C: Caller>(
    alloc: Global,
    caller: &C,
    world: &World,
    name: usize,
    value: &Option<Tree>,
    locals: &mut Items<Value>,
    left: u32,
) -> Result<(Flow, u32), Stop>
    requires may { C.can_call caller.now }
    requires typed { Returned (C.signatures caller.now) (C.calls caller.now) (world_in world.now) locals.old value.now }
    requires few { left ≤ C.most caller.now }
    ensures { Tells left (return_of (C.calls caller.now) (world_in world.now) name value.now locals.old left) (with_locals locals.new result) }
{
    let Some(tree) = value else {
        return Ok((Flow::Returned, left));
    };
    let (value, turns) = value_of(alloc, caller, world, tree, locals.as_slice(), left)?;
    put_name(locals, name, value);
    Ok((Flow::Returned, turns))
}

// A call of a function for its effect alone (13.4.1).
pub(crate) fn called<C: Caller>(
    alloc: Global,
    caller: &C,
    world: &World,
    function: u32,
    args: &[Tree],
    locals: &[Value],
    left: u32,
) -> Result<(Flow, u32), Stop>
    requires may { C.can_call caller.now }
    requires typed { Called (C.signatures caller.now) (C.calls caller.now) (world_in world.now) locals.now function args.now }
    requires few { left ≤ C.most caller.now }
    ensures { Tells left (and_then (values_of (C.calls caller.now) (world_in world.now) args.now locals.now left) (λ vs l. and_then (C.calls caller.now function vs l) (λ v k. nothing locals.now k))) (with_locals locals.now result) }
{
    let (values, turns) = values_of(alloc, caller, world, args, locals, left)?;
    let (_value, turns) = caller.call(alloc, function, values, turns)?;
    Ok((Flow::Next, turns))
}

// Whether a loop or a branch goes on: its test is true, or it has none (12.4, 12.7).
pub(crate) fn goes_on<C: Caller>(
    alloc: Global,
    caller: &C,
    world: &World,
    test: Option<&Tree>,
    locals: &[Value],
    left: u32,
) -> Result<(bool, u32), Stop>
    requires may { C.can_call caller.now }
    requires typed { AllTyped (C.signatures caller.now) (C.calls caller.now) (world_in world.now) locals.now (option_to_list (option_copied test)) }
    requires few { left ≤ C.most caller.now }
    ensures { Tells left (and_then (test_or_always (C.calls caller.now) (world_in world.now) (option_copied test.entry) locals.now left) (λ t l. Some (is_one (parts.test_of t), l))) result }
{
    let Some(test) = test else {
        return Ok((true, left));
    };
    let (value, turns) = value_of(alloc, caller, world, test, locals, left)?;
    let on = match test_of(&value) {
        Digit::One => true,
        _ => false,
    };
    Ok((on, turns))
}
