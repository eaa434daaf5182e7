// What a change of an object does to a procedure.
ghost use Rattle.std.specs.Prelude.{◌≡◌, ◌≤◌, ◌++◌, ◌∷◌, IfOk, List};
ghost use Rattle.nt_design.specs.Meaning.{most_turns};
ghost use Rattle.nt_design.specs.declared.act.Act.{out-Act};
ghost use Rattle.nt_values.specs.Typed.{world_in};
ghost use Rattle.nt_semantics.specs.Same.{is_one_of};
ghost use Rattle.nt_semantics.specs.State.{to_do};
ghost use Rattle.nt_semantics.specs.Wake as wake;
ghost use Rattle.nt_semantics.specs.declared.work.Work.TheVariants as work;
ghost use Rattle.nt_semantics.specs.declared.work.Work.{Work as WorkValue};
ghost use Rattle.nt_wake.specs.Typed.{EventsTyped, HeadTyped};
ghost use Rattle.nt_wake.specs.Wakings.{waking_in, waking_with};

use crate::Waking;
use crate::statements::{again, body_next, tested};
use nt_design::{Act, Object};
use nt_semantics::{Standing, Work};
use nt_sensitivity::{act_reads, event_reads, is_one_of, tree_reads};
use nt_value::Value;
use nt_values::{Caller, World};
use nt_work::{Plan, Todo, add_to_do};
use sqlite_items::Items;
use std::alloc::{AllocError, Global};

// A procedure that waits at a statement: at an event control, which is tested where it reads the object (IEEE 1800-2017,
// 9.4.2), at `@*`, which goes on after a change of what its statement reads (9.4.2.2), or at a `wait`, which is then tested
// again (9.4.3).
fn statement_waking<C: Caller>(
    alloc: Global,
    caller: &C,
    world: &World,
    object: Object,
    kept: &[Value],
    act: &Act,
    locals: &[Value],
) -> Result<Waking, AllocError>
    requires may { C.can_call caller.now }
    requires typed { EventsTyped (C.signatures caller.now) (C.calls caller.now) (world_in world.now) locals.now (out-Act act.now) }
    requires few { most_turns ≤ C.most caller.now }
    ensures { IfOk result (λ w. (rest : List WorkValue) → waking_in w (work.Do act.now) rest ≡ wake.statement_wakes (C.calls caller.now) (world_in world.now) object kept.now act.now rest locals.now (out-Act act.now)) }
{
    match act {
        Act::Event {
            any: true,
            body,
            ..
        } => {
            if act_reads(body.get(), object) {
                return body_next(alloc, body.get());
            }
            Ok(Waking::Asleep)
        }
        Act::Event {
            any: false,
            on,
            body,
            ..
        } => {
            if event_reads(on.as_slice(), object) {
                return tested(
                    alloc,
                    caller,
                    world,
                    on.as_slice(),
                    body.get(),
                    kept,
                    locals,
                );
            }
            Ok(Waking::Asleep)
        }
        Act::Wait { test, .. } => {
            if tree_reads(test, object) {
                return Ok(again(alloc));
            }
            Ok(Waking::Asleep)
        }
        _ => Ok(Waking::Asleep),
    }
}

// An `always_comb` does its body again (9.2.2.2.1).
fn comb_waking(
    alloc: Global,
    object: Object,
    reads: &[Object],
    body: &Act,
) -> Result<Waking, AllocError>
    ensures { IfOk result (λ w. (rest : List WorkValue) → waking_in w (work.Awaiting reads.now body.now) rest ≡ wake.wakes_if (is_one_of reads.now object) (to_do body.now ++ work.Awaiting reads.now body.now ∷ rest)) }
{
    if !is_one_of(reads, object) {
        return Ok(Waking::Asleep);
    }
    let mut items = Items::new(alloc);
    add_to_do(alloc, body, &mut items)?;
    Ok(Waking::Wakes {
        plan: Plan::Onto { items },
    })
}

/// What a change of an object does to a procedure: nothing where it doesn't wait.
///
/// # Errors
///
/// Where memory is refused.
pub fn waking_of<C: Caller>(
    alloc: Global,
    caller: &C,
    world: &World,
    object: Object,
    standing: &Standing,
    todo: &Todo,
    locals: &[Value],
) -> Result<Waking, AllocError>
    requires may { C.can_call caller.now }
    requires typed { HeadTyped (C.signatures caller.now) (C.calls caller.now) (world_in world.now) locals.now todo.now }
    requires few { most_turns ≤ C.most caller.now }
    ensures { IfOk result (λ w. waking_with w todo.now ≡ wake.waking (C.calls caller.now) (world_in world.now) object standing.now todo.now locals.now) }
{
    let Standing::Waits { kept } = standing else {
        return Ok(Waking::Asleep);
    };
    match todo.first() {
        None => Ok(Waking::Asleep),
        Some(Work::Do { act }) => {
            statement_waking(
                alloc,
                caller,
                world,
                object,
                kept.as_slice(),
                act.get(),
                locals,
            )
        }
        Some(Work::Awaiting { reads, body }) => {
            comb_waking(alloc, object, reads.as_slice(), body.get())
        }
        Some(_) => Ok(Waking::Asleep),
    }
}
