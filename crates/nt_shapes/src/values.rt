// Values of a shape.
ghost use Rattle.std.specs.Prelude.{◌≡◌, All, IfOk, true};
ghost use Rattle.std.specs.List.{list_all};
ghost use Rattle.nt_design.specs.Shapes.{is_same_shape};
ghost use Rattle.nt_value.specs.Values.{IsValueOf, shape_of};

use crate::forms::is_same;
use nt_parts::shape_of;
use nt_value::{Shape, Value};
use std::alloc::{AllocError, Global};

/// Whether a value is one of a shape: it has the shape's leaves.
///
/// # Errors
///
/// `AllocError` alone.
pub fn is_of(alloc: Global, shape: &Shape, value: &Value) -> Result<bool, AllocError>
    ensures same { IfOk result (λ b. b ≡ is_same_shape (shape_of value.now) shape.now) }
    ensures valid { IfOk result (λ b. b ≡ true → IsValueOf shape.now value.now) }
{
    let own = shape_of(alloc, value)?;
    Ok(is_same(own.items(), shape.items()))
}

/// Whether values are all of a shape.
///
/// # Errors
///
/// `AllocError` alone.
pub fn are_of(alloc: Global, shape: &Shape, values: &[Value]) -> Result<bool, AllocError>
    ensures same { IfOk result (λ b. b ≡ list_all (λ v. is_same_shape (shape_of v) shape.now) values.now) }
    ensures valid { IfOk result (λ b. b ≡ true → All (IsValueOf shape.now) values.now) }
{
    let [first, rest @ ..] = values else {
        return Ok(true);
    };
    if !is_of(alloc, shape, first)? {
        return Ok(false);
    }
    are_of(alloc, shape, rest)
}
