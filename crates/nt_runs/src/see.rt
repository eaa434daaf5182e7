// What is seen of a slot.
ghost use Rattle.std.specs.Prelude.{◌≡◌, ◌<◌, ◌≤◌, ◌^◌, length, IfOk};
ghost use Rattle.nt_semantics.specs.Execution.{observation_of};
ghost use Rattle.std.specs.Prelude.{map};
ghost use Rattle.nt_runs.specs.Views.{observed};

use crate::end::Seen;
use nt_slot::Rounds;
use nt_value::{Text, Value, copy};
use sqlite_items::Items;
use std::alloc::{AllocError, Global};

fn vars_of<R: Rounds>(alloc: Global, rounds: &R, count: u32) -> Result<Items<Value>, AllocError>
    requires { count ≡ length (R.meaning rounds.now).state.vars }
    ensures { IfOk result (λ values. values ≡ (R.meaning rounds.now).state.vars) }
{
    let mut values = Items::new(alloc);
    for var in 0..count {
        values.push(copy(alloc, rounds.var(var))?)?;
    }
    Ok(values)
}

fn nets_of<R: Rounds>(alloc: Global, rounds: &R, count: u32) -> Result<Items<Value>, AllocError>
    requires { count ≡ length (R.meaning rounds.now).state.nets }
    ensures { IfOk result (λ values. values ≡ (R.meaning rounds.now).state.nets) }
{
    let mut values = Items::new(alloc);
    for net in 0..count {
        values.push(copy(alloc, rounds.net(net))?)?;
    }
    Ok(values)
}

fn lines_of<R: Rounds>(alloc: Global, rounds: &R) -> Result<Items<Text>, AllocError>
    ensures { IfOk result (λ lines. lines ≡ map (λ line. line.1) (R.meaning rounds.now).state.shown) }
{
    let mut lines = Items::new(alloc);
    for line in rounds.shown() {
        lines.push(line.copy(alloc)?)?;
    }
    Ok(lines)
}

pub(crate) fn seen_of<R: Rounds>(
    alloc: Global,
    rounds: &R,
    vars: u32,
    nets: u32,
) -> Result<Seen, AllocError>
    requires vars { vars ≡ length (R.meaning rounds.now).state.vars }
    requires nets { nets ≡ length (R.meaning rounds.now).state.nets }
    ensures { IfOk result (λ seen. observed seen ≡ observation_of (R.meaning rounds.now).state) }
{
    Ok(Seen {
        time: rounds.time(),
        vars: vars_of(alloc, rounds, vars)?,
        nets: nets_of(alloc, rounds, nets)?,
        shown: lines_of(alloc, rounds)?,
    })
}
