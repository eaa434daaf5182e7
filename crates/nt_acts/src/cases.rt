// Which arm of a `case` is taken.
ghost use Rattle.std.specs.Prelude.{◌≤◌, ◌<◌, IfOk, IfSome, length, map};
ghost use Rattle.nt_design.specs.Expressions.{value_of};
ghost use Rattle.nt_design.specs.Statements.{is_among};
ghost use Rattle.nt_values.specs.Tells.{Tells};
ghost use Rattle.nt_values.specs.Typed.{world_in};
ghost use Rattle.nt_acts.specs.Arms.{AllAlike, ArmsAlike, arm_at};

use nt_design::{Act, Stop, Tree};
use nt_parts::is_same_value;
use nt_value::Value;
use nt_values::{Caller, World, value_of};
use sqlite_items::Items;
use std::alloc::Global;

// Whether one of the items of an arm is the same as the test: in order, up to the first that is (IEEE 1800-2017, 12.5).
fn is_among<C: Caller>(
    alloc: Global,
    caller: &C,
    world: &World,
    test: &Value,
    items: &[Tree],
    locals: &[Value],
    left: u32,
) -> Result<(bool, u32), Stop>
    requires may { C.can_call caller.now }
    requires typed { AllAlike (C.signatures caller.now) (C.calls caller.now) (world_in world.now) locals.now test.now items.now }
    requires few { left ≤ C.most caller.now }
    ensures { Tells left (is_among test.now (map (value_of (C.calls caller.now) (world_in world.now)) items.now) locals.now left) result }
{
    let mut turns = left;
    for item in items {
        let (value, l) = value_of(alloc, caller, world, item, locals, turns)?;
        if is_same_value(test, &value) {
            return Ok((true, l));
        }
        turns = l;
    }
    Ok((false, turns))
}

// The number of the first arm with such an item, if there is one.
pub(crate) fn arm_of<C: Caller>(
    alloc: Global,
    caller: &C,
    world: &World,
    test: &Value,
    arms: &[(Items<Tree>, Act)],
    locals: &[Value],
    left: u32,
) -> Result<(Option<usize>, u32), Stop>
    requires may { C.can_call caller.now }
    requires typed { ArmsAlike (C.signatures caller.now) (C.calls caller.now) (world_in world.now) locals.now test.now arms.now }
    requires few { left ≤ C.most caller.now }
    ensures value { Tells left (arm_at (C.calls caller.now) (world_in world.now) test.now arms.now 0 locals.now left) result }
    ensures inside { IfOk result (λ p. IfSome p.0 (λ at. at < length arms.now)) }
{
    let mut turns = left;
    for at in 0..arms.len() {
        let (found, l) = is_among(
            alloc,
            caller,
            world,
            test,
            arms[at].0.as_slice(),
            locals,
            turns,
        )?;
        if found {
            return Ok((Some(at), l));
        }
        turns = l;
    }
    Ok((None, turns))
}
