// The procedures that a change wakes.
ghost use Rattle.std.specs.Prelude.{◌≡◌, ◌<◌, ◌∷◌, IfOk, List, OnOk, length, map};
ghost use Rattle.nt_design.specs.WellFormed.{IsDesign, signature_of};
ghost use Rattle.nt_semantics.specs.State.{locals_at, work_at, world_of_state};
ghost use Rattle.nt_semantics.specs.StateFits.{IsStateOf};
ghost use Rattle.nt_semantics.specs.Wake.{functions_of, waking_at};
ghost use Rattle.nt_semantics.specs.declared.work.Work.{Work as WorkValue};
ghost use Rattle.nt_wake.specs.Typed.{HeadTyped};
ghost use Rattle.nt_wake.specs.Wakings.{waking_in, waking_with};
ghost use Rattle.nt_changes.specs.Woken.{led, procs_woken, woken_at};

use nt_design::{Design, Object};
use nt_eval::EventCalls;
use nt_semantics::Standing;
use nt_state::State;
use nt_value::Shape;
use nt_values::World;
use nt_wake::{Waking, waking_of};
use std::alloc::{AllocError, Global};

// A procedure that has something to do goes on as a change makes it.
fn lead(state: &mut State, proc: u32, waking: Waking) -> Result<(), AllocError>
    requires standings { proc < length state.old.standings }
    requires work { proc < length state.old.work }
    ensures { OnOk result ((first : WorkValue) (rest : List WorkValue) → work_at state.old proc ≡ first ∷ rest → state.new ≡ led proc (waking_in waking first rest) state.old) }
{
    match waking {
        Waking::Asleep => Ok(()),
        Waking::Keeps { kept } => {
            state.set_standing(proc, Standing::Waits { kept });
            Ok(())
        }
        Waking::Wakes { plan } => {
            state.set_standing(proc, Standing::Ready);
            state.resume(proc, plan)
        }
    }
}

// What a change does to a procedure of a state.
fn waking_in_state(
    alloc: Global,
    design: &Design,
    state: &State,
    object: Object,
    proc: u32,
) -> Result<Waking, AllocError>
    requires design { IsDesign design.now }
    requires standings { proc < length state.now.standings }
    requires work { proc < length state.now.work }
    requires typed { HeadTyped (map signature_of design.now.functions) (functions_of design.now) (world_of_state state.now) (locals_at state.now proc) (work_at state.now proc) }
    ensures { IfOk result (λ w. waking_with w (work_at state.now proc) ≡ waking_at design.now object state.now proc) }
{
    let none = Shape::new(Vec::new(alloc));
    let world = World {
        time: state.time(),
        nets: state.nets(),
        vars: state.vars(),
        many: &[],
        element: &none,
    };
    let calls = EventCalls {
        functions: design.functions.as_slice(),
    };
    let at = proc as usize;
    waking_of(
        alloc,
        &calls,
        &world,
        object,
        &state.standings()[at],
        &state.work()[at],
        state.locals(proc),
    )
}

/// What a change of an object does to one procedure.
///
/// # Errors
///
/// Where memory is refused. The state is used no more then.
pub fn wake_proc(
    alloc: Global,
    design: &Design,
    state: &mut State,
    object: Object,
    proc: u32,
) -> Result<(), AllocError>
    requires design { IsDesign design.now }
    requires standings { proc < length state.old.standings }
    requires work { proc < length state.old.work }
    requires typed { HeadTyped (map signature_of design.now.functions) (functions_of design.now) (world_of_state state.old) (locals_at state.old proc) (work_at state.old proc) }
    ensures { OnOk result (state.new ≡ woken_at design.now object proc state.old) }
{
    if state.work()[proc as usize].first().is_none() {
        return Ok(());
    }
    let waking = waking_in_state(alloc, design, state, object, proc)?;
    lead(state, proc, waking)
}

/// What a change of an object does to the procedures (IEEE 1800-2017, 4.3): each that waits for it is ready, or keeps new
/// values.
///
/// # Errors
///
/// Where memory is refused. The state is used no more then.
pub fn wake_procs(
    alloc: Global,
    design: &Design,
    state: &mut State,
    object: Object,
) -> Result<(), AllocError>
    requires design { IsDesign design.now }
    requires state { IsStateOf design.now state.old }
    ensures { OnOk result (state.new ≡ procs_woken design.now object state.old) }
{
    let count = state.standings().len() as u32;
    for proc in 0..count {
        wake_proc(alloc, design, state, object, proc)?;
    }
    Ok(())
}
