// What a change of an object does to a procedure that waits at a statement.
ghost use Rattle.std.specs.Prelude.{◌≡◌, ◌≤◌, ◌++◌, ◌∷◌, IfOk, List};
ghost use Rattle.nt_design.specs.Expressions.{values_of};
ghost use Rattle.nt_design.specs.Meaning.{most_turns};
ghost use Rattle.nt_design.specs.Reads.{event_trees};
ghost use Rattle.nt_values.specs.Typed.{AllTyped, world_in};
ghost use Rattle.nt_semantics.specs.State.{to_do};
ghost use Rattle.nt_semantics.specs.Wake as wake;
ghost use Rattle.nt_semantics.specs.Wake.{tested};
ghost use Rattle.nt_semantics.specs.declared.work.Work.{Work as WorkValue};
ghost use Rattle.nt_wake.specs.Wakings.{waking_in};

use crate::events::event_values;
use nt_design::{Act, Edge, Stop, Tree};
use nt_eval::MOST_TURNS;
use nt_sensitivity::some_match;
use nt_value::Value;
use nt_values::{Caller, World};
use nt_work::{Plan, add_to_do};
use sqlite_items::Items;
use std::alloc::{AllocError, Global};

/// What a change does to a procedure that waits (IEEE 1800-2017, 4.3, 9.4.2).
#[derive(Drop)]
pub enum Waking {
    /// Nothing.
    Asleep,
    /// It keeps these values of its event expressions.
    Keeps { kept: Items<Value> },
    /// It is ready, and goes on by this plan.
    Wakes { plan: Plan },
}

// The statement that was waited for is next.
pub(crate) fn body_next(alloc: Global, body: &Act) -> Result<Waking, AllocError>
    ensures { IfOk result (λ w. (first : WorkValue) (rest : List WorkValue) → waking_in w first rest ≡ wake.Wakes (to_do body.now ++ rest)) }
{
    let mut items = Items::new(alloc);
    add_to_do(alloc, body, &mut items)?;
    Ok(Waking::Wakes {
        plan: Plan::First { items },
    })
}

// The values of an event control's expressions are tested.
pub(crate) fn tested<C: Caller>(
    alloc: Global,
    caller: &C,
    world: &World,
    on: &[(Edge, Tree)],
    body: &Act,
    kept: &[Value],
    locals: &[Value],
) -> Result<Waking, AllocError>
    requires may { C.can_call caller.now }
    requires typed { AllTyped (C.signatures caller.now) (C.calls caller.now) (world_in world.now) locals.now (event_trees on.now) }
    requires few { most_turns ≤ C.most caller.now }
    ensures { IfOk result (λ w. (first : WorkValue) (rest : List WorkValue) → waking_in w first rest ≡ tested on.now kept.now (to_do body.now ++ rest) (values_of (C.calls caller.now) (world_in world.now) (event_trees on.now) locals.now most_turns)) }
{
    match event_values(alloc, caller, world, on, locals, MOST_TURNS) {
        Ok((new, _)) => {
            if some_match(on, kept, new.as_slice()) {
                return body_next(alloc, body);
            }
            Ok(Waking::Keeps { kept: new })
        }
        Err(Stop::TooLong) => Ok(Waking::Asleep),
        Err(Stop::OutOfMemory(refused)) => Err(refused),
    }
}

// The same plan again: what comes first is to be done once more.
pub(crate) fn again(alloc: Global) -> Waking
    ensures { (first : WorkValue) (rest : List WorkValue) → waking_in result first rest ≡ wake.Wakes (first ∷ rest) }
{
    let items = Items::new(alloc);
    Waking::Wakes {
        plan: Plan::Onto { items },
    }
}
