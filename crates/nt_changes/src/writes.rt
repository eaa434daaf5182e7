// Writes of variables and values of nets, with what they wake.
ghost use Rattle.std.specs.Prelude.{◌≡◌, ◌<◌, ◌^◌, OnOk, length};
ghost use Rattle.nt_value.specs.Values.{IsValueOf};
ghost use Rattle.nt_design.specs.WellFormed.{IsDesign};
ghost use Rattle.nt_semantics.specs.State.{net_shape};
ghost use Rattle.nt_semantics.specs.StateFits.{AtMost, IsStateOf, PutFits};
ghost use Rattle.nt_semantics.specs.Step as step;
ghost use Rattle.nt_semantics.specs.Wake as wakes;

use crate::wake;
use nt_design::{Design, Edge, Object, Put};
use nt_puts::after_put;
use nt_sensitivity::matches;
use nt_state::State;
use nt_value::Value;
use std::alloc::{AllocError, Global};

fn wake_if(
    changed: bool,
    alloc: Global,
    design: &Design,
    state: &mut State,
    object: Object,
) -> Result<(), AllocError>
    requires design { IsDesign design.now }
    requires state { IsStateOf design.now state.old }
    requires few { AtMost (2 ^ 62) state.old }
    ensures { OnOk result (state.new ≡ wakes.wake design.now object changed state.old) }
{
    if changed {
        return wake(alloc, design, state, object);
    }
    Ok(())
}

/// A variable takes a write, and where it changes it wakes (IEEE 1800-2017, 4.3, 10.4).
///
/// # Errors
///
/// Where memory is refused. The state is used no more then.
pub fn put_var(
    alloc: Global,
    design: &Design,
    state: &mut State,
    put: &Put,
) -> Result<(), AllocError>
    requires design { IsDesign design.now }
    requires state { IsStateOf design.now state.old }
    requires few { AtMost (2 ^ 62) state.old }
    requires put { PutFits design.now put.now }
    ensures { OnOk result (state.new ≡ step.put_var design.now put.now state.old) }
{
    let old = state.var(put.var);
    let new = after_put(alloc, put, old)?;
    let changed = matches(Edge::Any, old, &new);
    state.set_var(put.var, new);
    wake_if(changed, alloc, design, state, Object::Var(put.var))?;
    Ok(())
}

/// A net takes a value, and where it changes it wakes (4.3, 6.6.7).
///
/// # Errors
///
/// Where memory is refused. The state is used no more then.
pub fn set_net(
    alloc: Global,
    design: &Design,
    state: &mut State,
    net: u32,
    new: Value,
) -> Result<(), AllocError>
    requires design { IsDesign design.now }
    requires state { IsStateOf design.now state.old }
    requires few { AtMost (2 ^ 62) state.old }
    requires net { net < length state.old.nets }
    requires value { IsValueOf (net_shape design.now net) new }
    ensures { OnOk result (state.new ≡ step.set_net design.now net new state.old) }
{
    let changed = matches(Edge::Any, state.net(net), &new);
    state.set_net(net, new);
    wake_if(changed, alloc, design, state, Object::Net(net))?;
    Ok(())
}
