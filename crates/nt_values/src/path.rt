// Paths into values, their indices and bases evaluated.
ghost use Rattle.std.specs.Prelude.{◌≡◌, ◌≤◌, ◌<◌, ℕ, All, IfOk, Some};
ghost use Rattle.nt_design.specs.Parts as parts;
ghost use Rattle.nt_design.specs.Statements.{path_of, step_of};
ghost use Rattle.nt_design.specs.Turns.{Timed, and_then};
ghost use Rattle.nt_parts.specs.Steps.{IsStep, step_at, steps_at};
ghost use Rattle.nt_values.specs.Tells.{Tells, seen};
ghost use Rattle.nt_values.specs.Typed.{AllPicked, Picked, world_in};

use crate::{Caller, World, value_of};
use nt_design::{Pick, Stop};
use nt_parts::{Step, index_of, position_of};
use nt_value::Value;
use sqlite_items::Items;
use std::alloc::Global;

// A step to an element, from what its index answered.
fn item_step(
    index: Result<(Value, u32), Stop>,
    low: u32,
    size: u32,
    up: bool,
) -> Result<(Step, u32), Stop>
    requires { 0 < size }
    ensures value { (most : ℕ) (m : Timed parts.Value) → Tells most m index → Tells most (and_then m (λ i l. Some (parts.IntoItem (parts.position_of low size up (parts.number_in i)) size, l))) (seen step_at result) }
    ensures step { IfOk result (λ p. IsStep p.0) }
{
    let (i, left) = index?;
    let size = size as usize;
    let position = position_of(low, size, up, index_of(&i));
    Ok((Step::Item { position, size }, left))
}

// A step to a bit or part, from what its base answered.
fn part_step(low: Result<(Value, u32), Stop>, width: u8) -> Result<(Step, u32), Stop>
    requires some { 1 ≤ width }
    requires few { width ≤ 64 }
    ensures value { (most : ℕ) (m : Timed parts.Value) → Tells most m low → Tells most (and_then m (λ i l. Some (parts.IntoPart (parts.number_in i) width, l))) (seen step_at result) }
    ensures step { IfOk result (λ p. IsStep p.0) }
{
    let (i, left) = low?;
    Ok((
        Step::Part {
            low: index_of(&i),
            width,
        },
        left,
    ))
}

// A step of a path, its index or base evaluated.
fn step_of<C: Caller>(
    alloc: Global,
    caller: &C,
    world: &World,
    pick: &Pick,
    locals: &[Value],
    left: u32,
) -> Result<(Step, u32), Stop>
    requires may { C.can_call caller.now }
    requires typed { Picked (C.signatures caller.now) (C.calls caller.now) (world_in world.now) locals.now pick.now }
    requires few { left ≤ C.most caller.now }
    ensures value { Tells left (step_of (C.calls caller.now) (world_in world.now) pick.now locals.now left) (seen step_at result) }
    ensures step { IfOk result (λ p. IsStep p.0) }
{
    match pick {
        Pick::Leaves { first, count } => Ok((
            Step::Leaves {
                first: *first,
                count: *count,
            },
            left,
        )),
        Pick::Item {
            index,
            low,
            size,
            up,
        } => {
            let index = value_of(alloc, caller, world, index, locals, left);
            item_step(index, *low, *size, *up)
        }
        Pick::Part { low, width } => {
            let low = value_of(alloc, caller, world, low, locals, left);
            part_step(low, *width)
        }
    }
}

/// A path, its steps evaluated in order (IEEE 1800-2017, 10.4).
///
/// # Errors
///
/// As those of `value_of`.
pub fn path_of<C: Caller>(
    alloc: Global,
    caller: &C,
    world: &World,
    path: &[Pick],
    locals: &[Value],
    left: u32,
) -> Result<(Items<Step>, u32), Stop>
    requires may { C.can_call caller.now }
    requires typed { AllPicked (C.signatures caller.now) (C.calls caller.now) (world_in world.now) locals.now path.now }
    requires few { left ≤ C.most caller.now }
    ensures value { Tells left (path_of (C.calls caller.now) (world_in world.now) path.now locals.now left) (seen steps_at result) }
    ensures steps { IfOk result (λ p. All IsStep p.0) }
{
    let mut steps = Items::new(alloc);
    let mut turns = left;
    for pick in path {
        let (step, l) = step_of(alloc, caller, world, pick, locals, turns)?;
        steps.push(step)?;
        turns = l;
    }
    Ok((steps, turns))
}
