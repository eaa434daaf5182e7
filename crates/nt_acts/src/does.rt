// What statements of functions do.
ghost use Rattle.std.specs.Prelude.{◌≡◌, ◌≤◌, ◌<◌, [], ◌∷◌, IfOk, None, Some, map, option_copied, option_map, option_to_list};
ghost use Rattle.nt_design.specs.Expressions.{value_of};
ghost use Rattle.nt_design.specs.Parts.{test_of};
ghost use Rattle.nt_design.specs.Statements.{do_all, does, each_of, first_arm, loop, or_nothing, repeat_of};
ghost use Rattle.nt_design.specs.Turns.{and_then, pick};
ghost use Rattle.nt_values.specs.Tells.{Tells};
ghost use Rattle.nt_values.specs.Typed.{world_in};
ghost use Rattle.nt_acts.specs.Doable.{CaseDoable, Doable, EachDoable, with_locals};
ghost use Rattle.nt_acts.specs.Endings.{once, step_or_nothing, test_or_always, turn};
ghost use Rattle.nt_acts.specs.Spans.{IsSpan, span_indices};

use crate::cases::arm_of;
use crate::forms::{end_of, passed, put};
use crate::plain::{assigned, called, goes_on, returned};
use crate::span::{Span, span_of};
use nt_design::{Act, Flow, Stop, Tree};
use nt_parts::{count_of, index_of, int_value, test_of};
use nt_value::{Digit, Value};
use nt_values::{Caller, World, value_of};
use sqlite_items::{Boxed, Items};
use std::alloc::Global;

/// Statements in order (IEEE 1800-2017, 9.3.1): where they leave off, and the turns that are left of those there were. The
/// locals are then those after them.
///
/// # Errors
///
/// `TooLong` exactly where they take more turns than there were. `OutOfMemory` where memory is refused.
#[cycle(deeds)]
pub fn do_all<C: Caller>(
    alloc: Global,
    caller: &C,
    world: &World,
    name: usize,
    acts: &[Act],
    locals: &mut Items<Value>,
    left: u32,
) -> Result<(Flow, u32), Stop>
    requires may { C.can_call caller.now }
    requires typed { Doable (C.signatures caller.now) (C.calls caller.now) (world_in world.now) name locals.old [] acts.now }
    requires few { left ≤ C.most caller.now }
    ensures { Tells left (do_all (C.calls caller.now) (world_in world.now) name acts.now locals.old left) (with_locals locals.new result) }
{
    let mut turns = left;
    for act in acts {
        let (flow, l) = does(alloc, caller, world, name, act, locals, turns)?;
        turns = l;
        match flow {
            Flow::Next => {}
            flow => return Ok((flow, l)),
        }
    }
    Ok((Flow::Next, turns))
}

// One statement. Those that no function has do nothing.
#[cycle(deeds)]
fn does<C: Caller>(
    alloc: Global,
    caller: &C,
    world: &World,
    name: usize,
    act: &Act,
    locals: &mut Items<Value>,
    left: u32,
) -> Result<(Flow, u32), Stop>
    requires may { C.can_call caller.now }
    requires typed { Doable (C.signatures caller.now) (C.calls caller.now) (world_in world.now) name locals.old [] (act.now ∷ []) }
    requires few { left ≤ C.most caller.now }
    ensures { Tells left (does (C.calls caller.now) (world_in world.now) name act.now locals.old left) (with_locals locals.new result) }
{
    match act {
        Act::Null { .. } => Ok((Flow::Next, left)),
        Act::Block { items, .. } => {
            do_all(alloc, caller, world, name, items.as_slice(), locals, left)
        }
        Act::Assign {
            left: to,
            right,
            ..
        } => { assigned(alloc, caller, world, to, right, locals, left) }
        Act::Nonblocking { .. } => Ok((Flow::Next, left)),
        Act::If { test, yes, no, .. } => {
            if_does(
                alloc,
                caller,
                world,
                name,
                test,
                yes.get(),
                no,
                locals,
                left,
            )
        }
        Act::Case {
            test,
            arms,
            other,
            ..
        } => case_does(
            alloc,
            caller,
            world,
            name,
            test,
            arms.as_slice(),
            other,
            locals,
            left,
        ),
        Act::While { test, body, .. } => {
            loops(
                alloc,
                caller,
                world,
                name,
                Some(test),
                None,
                body.get(),
                locals,
                left,
            )
        }
        Act::Repeat { count, body, .. } => {
            let (number, turns) = value_of(alloc, caller, world, count, locals.as_slice(), left)?;
            let many = count_of(index_of(&number));
            repeats(alloc, caller, world, name, many, body.get(), locals, turns)
        }
        Act::For {
            left: to,
            first,
            test,
            step,
            body,
            ..
        } => {
            let (_flow, turns) = assigned(alloc, caller, world, to, first, locals, left)?;
            loops(
                alloc,
                caller,
                world,
                name,
                Some(test),
                Some(step.get()),
                body.get(),
                locals,
                turns,
            )
        }
        Act::Forever { body, .. } => {
            loops(
                alloc,
                caller,
                world,
                name,
                None,
                None,
                body.get(),
                locals,
                left,
            )
        }
        Act::Foreach {
            bounds,
            index,
            body,
            ..
        } => {
            let span = span_of(world.many.len(), *bounds);
            each(
                alloc,
                caller,
                world,
                name,
                span,
                *index as usize,
                body.get(),
                locals,
                left,
            )
        }
        Act::Delay { .. } => Ok((Flow::Next, left)),
        Act::Event { .. } => Ok((Flow::Next, left)),
        Act::Wait { .. } => Ok((Flow::Next, left)),
        Act::Return { value, .. } => returned(alloc, caller, world, name, value, locals, left),
        Act::Break { .. } => Ok((Flow::Broke, left)),
        Act::Continue { .. } => Ok((Flow::Continued, left)),
        Act::Call { function, args, .. } => {
            called(
                alloc,
                caller,
                world,
                *function,
                args.as_slice(),
                locals.as_slice(),
                left,
            )
        }
        Act::Display { .. } => Ok((Flow::Next, left)),
        Act::Finish { .. } => Ok((Flow::Next, left)),
    }
}

// The statement that there may be.
#[cycle(deeds)]
fn maybe_does<C: Caller>(
    alloc: Global,
    caller: &C,
    world: &World,
    name: usize,
    act: &Option<Boxed<Act>>,
    locals: &mut Items<Value>,
    left: u32,
) -> Result<(Flow, u32), Stop>
    requires may { C.can_call caller.now }
    requires typed { Doable (C.signatures caller.now) (C.calls caller.now) (world_in world.now) name locals.old [] (option_to_list act.now) }
    requires few { left ≤ C.most caller.now }
    ensures { Tells left (or_nothing (option_map (does (C.calls caller.now) (world_in world.now) name) act.now) locals.old left) (with_locals locals.new result) }
{
    match act {
        None => Ok((Flow::Next, left)),
        Some(act) => does(alloc, caller, world, name, act.get(), locals, left),
    }
}

// `if` (12.4).
#[cycle(deeds)]
fn if_does<C: Caller>(
    alloc: Global,
    caller: &C,
    world: &World,
    name: usize,
    test: &Tree,
    yes: &Act,
    no: &Option<Boxed<Act>>,
    locals: &mut Items<Value>,
    left: u32,
) -> Result<(Flow, u32), Stop>
    requires may { C.can_call caller.now }
    requires typed { Doable (C.signatures caller.now) (C.calls caller.now) (world_in world.now) name locals.old (test.now ∷ []) (yes.now ∷ option_to_list no.now) }
    requires few { left ≤ C.most caller.now }
    ensures { Tells left
        (and_then (value_of (C.calls caller.now) (world_in world.now) test.now locals.old left) (λ t l. pick (test_of t)
        (does (C.calls caller.now) (world_in world.now) name yes.now locals.old l)
        (or_nothing (option_map (does (C.calls caller.now) (world_in world.now) name) no.now) locals.old l)
        (or_nothing (option_map (does (C.calls caller.now) (world_in world.now) name) no.now) locals.old l)))
        (with_locals locals.new result) }
{
    let (on, turns) = goes_on(alloc, caller, world, Some(test), locals.as_slice(), left)?;
    if on {
        does(alloc, caller, world, name, yes, locals, turns)
    } else {
        maybe_does(alloc, caller, world, name, no, locals, turns)
    }
}

// `case` (12.5).
#[cycle(deeds)]
fn case_does<C: Caller>(
    alloc: Global,
    caller: &C,
    world: &World,
    name: usize,
    test: &Tree,
    arms: &[(Items<Tree>, Act)],
    other: &Option<Boxed<Act>>,
    locals: &mut Items<Value>,
    left: u32,
) -> Result<(Flow, u32), Stop>
    requires may { C.can_call caller.now }
    requires typed { CaseDoable (C.signatures caller.now) (C.calls caller.now) (world_in world.now) name locals.old test.now arms.now other.now }
    requires few { left ≤ C.most caller.now }
    ensures { Tells left
        (and_then (value_of (C.calls caller.now) (world_in world.now) test.now locals.old left) (λ t l.
        first_arm (C.calls caller.now) (world_in world.now) t (map (λ arm. (arm.0, does (C.calls caller.now) (world_in world.now) name arm.1)) arms.now) (or_nothing (option_map (does (C.calls caller.now) (world_in world.now) name) other.now)) locals.old l))
        (with_locals locals.new result) }
{
    let (value, l) = value_of(alloc, caller, world, test, locals.as_slice(), left)?;
    let (arm, k) = arm_of(alloc, caller, world, &value, arms, locals.as_slice(), l)?;
    match arm {
        Some(at) => does(alloc, caller, world, name, &arms[at].1, locals, k),
        None => maybe_does(alloc, caller, world, name, other, locals, k),
    }
}

// One turn of a loop's body.
#[cycle(deeds)]
fn once<C: Caller>(
    alloc: Global,
    caller: &C,
    world: &World,
    name: usize,
    body: &Act,
    locals: &mut Items<Value>,
    left: u32,
) -> Result<(Option<Flow>, u32), Stop>
    requires may { C.can_call caller.now }
    requires typed { Doable (C.signatures caller.now) (C.calls caller.now) (world_in world.now) name locals.old [] (body.now ∷ []) }
    requires few { left ≤ C.most caller.now }
    ensures value { Tells left (once (does (C.calls caller.now) (world_in world.now) name body.now) locals.old left) (with_locals locals.new result) }
    ensures spent { IfOk result (λ p. p.1 < left) }
{
    if left == 0 {
        return Err(Stop::TooLong);
    }
    end_of(does(alloc, caller, world, name, body, locals, left - 1))
}

// One turn of a loop with a test and a step, if it has them.
#[cycle(deeds)]
fn turn<C: Caller>(
    alloc: Global,
    caller: &C,
    world: &World,
    name: usize,
    test: Option<&Tree>,
    step: Option<&Act>,
    body: &Act,
    locals: &mut Items<Value>,
    left: u32,
) -> Result<(Option<Flow>, u32), Stop>
    requires may { C.can_call caller.now }
    requires typed { Doable (C.signatures caller.now) (C.calls caller.now) (world_in world.now) name locals.old (option_to_list (option_copied test)) (body.now ∷ option_to_list (option_copied step)) }
    requires few { left ≤ C.most caller.now }
    ensures value { Tells left (turn (test_or_always (C.calls caller.now) (world_in world.now) (option_copied test.entry)) (step_or_nothing (option_map (does (C.calls caller.now) (world_in world.now) name) (option_copied step.entry))) (does (C.calls caller.now) (world_in world.now) name body.now) locals.old left) (with_locals locals.new result) }
    ensures spent { IfOk result (λ p. p.0 ≡ None → p.1 < left) }
{
    let (on, turns) = goes_on(alloc, caller, world, test, locals.as_slice(), left)?;
    if !on {
        return Ok((Some(Flow::Next), turns));
    }
    let (end, l) = once(alloc, caller, world, name, body, locals, turns)?;
    match end {
        Some(flow) => Ok((Some(flow), l)),
        None => match step {
            None => Ok((None, l)),
            Some(next) => passed(does(alloc, caller, world, name, next, locals, l)),
        },
    }
}

// A loop with a test and a step, if it has them (12.7.1, 12.7.4, 12.7.6).
#[cycle(deeds)]
fn loops<C: Caller>(
    alloc: Global,
    caller: &C,
    world: &World,
    name: usize,
    test: Option<&Tree>,
    step: Option<&Act>,
    body: &Act,
    locals: &mut Items<Value>,
    left: u32,
) -> Result<(Flow, u32), Stop>
    requires may { C.can_call caller.now }
    requires typed { Doable (C.signatures caller.now) (C.calls caller.now) (world_in world.now) name locals.old (option_to_list (option_copied test)) (body.now ∷ option_to_list (option_copied step)) }
    requires few { left ≤ C.most caller.now }
    ensures { Tells left (loop (test_or_always (C.calls caller.now) (world_in world.now) (option_copied test.entry)) (step_or_nothing (option_map (does (C.calls caller.now) (world_in world.now) name) (option_copied step.entry))) (does (C.calls caller.now) (world_in world.now) name body.now) locals.old left) (with_locals locals.new result) }
{
    let mut turns = left;
    loop {
        let (end, l) = turn(alloc, caller, world, name, test, step, body, locals, turns)?;
        turns = l;
        match end {
            None => {}
            Some(flow) => return Ok((flow, l)),
        }
    }
}

// So many turns of a body (12.7.2).
#[cycle(deeds)]
fn repeats<C: Caller>(
    alloc: Global,
    caller: &C,
    world: &World,
    name: usize,
    count: u64,
    body: &Act,
    locals: &mut Items<Value>,
    left: u32,
) -> Result<(Flow, u32), Stop>
    requires may { C.can_call caller.now }
    requires typed { Doable (C.signatures caller.now) (C.calls caller.now) (world_in world.now) name locals.old [] (body.now ∷ []) }
    requires few { left ≤ C.most caller.now }
    ensures { Tells left (repeat_of count (does (C.calls caller.now) (world_in world.now) name body.now) locals.old left) (with_locals locals.new result) }
{
    let mut turns = left;
    for _turn in 0..count {
        let (end, l) = once(alloc, caller, world, name, body, locals, turns)?;
        turns = l;
        match end {
            None => {}
            Some(flow) => return Ok((flow, l)),
        }
    }
    Ok((Flow::Next, turns))
}

// A turn of a body for each index of a span, which a local holds (12.7.3).
#[cycle(deeds)]
fn each<C: Caller>(
    alloc: Global,
    caller: &C,
    world: &World,
    name: usize,
    span: Span,
    at: usize,
    body: &Act,
    locals: &mut Items<Value>,
    left: u32,
) -> Result<(Flow, u32), Stop>
    requires may { C.can_call caller.now }
    requires typed { EachDoable (C.signatures caller.now) (C.calls caller.now) (world_in world.now) name locals.old at body.now }
    requires few { left ≤ C.most caller.now }
    requires span { IsSpan span }
    ensures { Tells left (each_of (span_indices span) at (does (C.calls caller.now) (world_in world.now) name body.now) locals.old left) (with_locals locals.new result) }
{
    let mut turns = left;
    for k in 0..span.many {
        put(locals, at, int_value(alloc, span.index(k))?);
        let (end, l) = once(alloc, caller, world, name, body, locals, turns)?;
        turns = l;
        match end {
            None => {}
            Some(flow) => return Ok((flow, l)),
        }
    }
    Ok((Flow::Next, turns))
}
