// How turns of loops end, and writes of locals.
ghost use Rattle.std.specs.Prelude.{◌≡◌, ◌≤◌, ◌<◌, ℕ, List, [], Some, OnOk, get_or, slice_set};
ghost use Rattle.nt_design.specs.Parts as parts;
ghost use Rattle.nt_design.specs.Statements.{set_local, set_name};
ghost use Rattle.nt_design.specs.Turns.{Timed, and_then};
ghost use Rattle.nt_design.specs.declared.act.Flow.{Flow};
ghost use Rattle.nt_parts.specs.Steps.{IsWrite, steps_at};
ghost use Rattle.nt_values.specs.Tells.{Tells};
ghost use Rattle.nt_acts.specs.Doable.{with_locals};
ghost use Rattle.nt_acts.specs.Endings.{ends, passes};

use nt_design::{Flow, Stop};
use nt_parts::{Step, written};
use nt_value::Value;
use sqlite_items::Items;
use std::alloc::{AllocError, Global};

// Whether a body's flow ends its loop, and where the loop then leaves off.
pub(crate) fn end_of(answer: Result<(Flow, u32), Stop>) -> Result<(Option<Flow>, u32), Stop>
    ensures { (most : ℕ) (locals : List parts.Value) (m : Timed (List parts.Value × Flow)) → Tells most m (with_locals locals answer) → Tells most (and_then m (λ e k. Some ((e.0, ends e.1), k))) (with_locals locals result) }
{
    let (flow, left) = answer?;
    let end = match flow {
        Flow::Next | Flow::Continued => None,
        Flow::Broke => Some(Flow::Next),
        Flow::Returned => Some(Flow::Returned),
    };
    Ok((end, left))
}

// The same of a step's flow.
pub(crate) fn passed(answer: Result<(Flow, u32), Stop>) -> Result<(Option<Flow>, u32), Stop>
    ensures { (most : ℕ) (locals : List parts.Value) (m : Timed (List parts.Value × Flow)) → Tells most m (with_locals locals answer) → Tells most (and_then m (λ e k. Some ((e.0, passes e.1), k))) (with_locals locals result) }
{
    let (flow, left) = answer?;
    match flow {
        Flow::Next => Ok((None, left)),
        flow => Ok((Some(flow), left)),
    }
}

// A local takes a value. One that isn't there takes none.
pub(crate) fn put(locals: &mut Items<Value>, at: usize, value: Value)
    ensures { locals.new ≡ slice_set locals.old at value }
{
    if at < locals.len() {
        locals.set(at, value);
    }
}

// A function's name takes a value. One without leaves goes nowhere.
pub(crate) fn put_name(locals: &mut Items<Value>, name: usize, value: Value)
    ensures { locals.new ≡ set_name name value locals.old }
{
    if !value.items().is_empty() {
        put(locals, name, value);
    }
}

// A local takes a value at the end of a path.
pub(crate) fn write(
    alloc: Global,
    locals: &mut Items<Value>,
    at: usize,
    steps: &[Step],
    value: Value,
) -> Result<(), AllocError>
    requires { IsWrite steps.now value (get_or locals.old at []) }
    ensures { OnOk result (locals.new ≡ set_local at (steps_at steps.now) value locals.old) }
{
    if steps.is_empty() {
        put(locals, at, value);
        return Ok(());
    }
    let new = match locals.get(at) {
        None => return Ok(()),
        Some(old) => written(alloc, steps, &value, old)?,
    };
    put(locals, at, new);
    Ok(())
}
