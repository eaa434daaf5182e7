// Paths into a value.
ghost use Rattle.std.specs.Prelude.{◌≡◌, ◌≤◌, IfOk, length};
ghost use Rattle.nt_design.specs.Parts as parts;
ghost use Rattle.nt_parts.specs.Steps.{IsStep, IsWrite, step_at, steps_at};

use crate::digits::{part_at, with_part};
use crate::{Index, item_at, leaves_at, of_bits, only_of, with_item, with_leaves};
use nt_value::{Value, copy};
use std::alloc::{AllocError, Global};

/// A step into a part of a value, its index or base evaluated (IEEE 1800-2017, 10.4).
#[derive(Clone, Copy, Debug, PartialEq, Eq)]
pub enum Step {
    /// So many leaves from one on.
    Leaves {
        first: u8,
        count: u8,
    },
    /// An element of an array of so many.
    Item {
        position: Option<usize>,
        size: usize,
    },
    /// So many digits of a leaf from one on.
    Part {
        low: Index,
        width: u8,
    },
}

/// The part of a value to which a step leads.
pub fn part_by(alloc: Global, step: Step, value: &Value) -> Result<Value, AllocError>
    requires { IsStep step }
    ensures { IfOk result (λ v. v ≡ parts.part_by (step_at step) value.now) }
{
    match step {
        Step::Leaves { first, count } => { leaves_at(alloc, value, first as usize, count as usize) }
        Step::Item { position, size } => item_at(alloc, size, position, value),
        Step::Part { low, width } => of_bits(alloc, part_at(low, width, only_of(value))),
    }
}

/// A value with the part to which a step leads replaced.
pub fn with_part_by(
    alloc: Global,
    step: Step,
    part: &Value,
    value: &Value,
) -> Result<Value, AllocError>
    requires step { IsStep step }
    requires few { length (parts.with_part_by (step_at step) part.now value.now) ≤ length value.now }
    ensures { IfOk result (λ v. v ≡ parts.with_part_by (step_at step) part.now value.now) }
{
    match step {
        Step::Leaves { first, count } => {
            with_leaves(alloc, first as usize, count as usize, part, value)
        }
        Step::Item { position, size } => with_item(alloc, size, position, part, value),
        Step::Part { low, .. } => of_bits(alloc, with_part(low, only_of(part), only_of(value))),
    }
}

/// A value with the part to which a path leads replaced (10.4).
pub fn written(alloc: Global, steps: &[Step], new: &Value, old: &Value) -> Result<Value, AllocError>
    requires { IsWrite steps.now new.now old.now }
    ensures { IfOk result (λ v. v ≡ parts.written (steps_at steps.now) new.now old.now) }
{
    let [first, rest @ ..] = steps else {
        return copy(alloc, new);
    };
    let part = part_by(alloc, *first, old)?;
    let changed = written(alloc, rest, new, &part)?;
    with_part_by(alloc, *first, &changed, old)
}
