// The value of a variable after a write.
ghost use Rattle.std.specs.Prelude.{◌≡◌, ◌<◌, IfOk};
ghost use Rattle.nt_value.specs.Values.{shape_of};
ghost use Rattle.nt_design.specs.Parts as parts;
ghost use Rattle.nt_design.specs.Puts.{PutInside, put_in};
ghost use Rattle.nt_design.specs.Puts as puts;
ghost use Rattle.nt_puts.specs.Placed.{digits_put};

use nt_design::Put;
use nt_parts::{Index, leaves_at, of_bits, only_of, with_leaves, with_part};
use nt_value::Value;
use std::alloc::{AllocError, Global};

// Some digits of a leaf become those of a value (IEEE 1800-2017, 11.5.1).
fn with_digits(
    alloc: Global,
    first: u8,
    low: u8,
    new: &Value,
    old: &Value,
) -> Result<Value, AllocError>
    ensures { IfOk result (λ value. value ≡ digits_put first low new.now old.now) }
{
    let leaf = leaves_at(alloc, old, first as usize, 1)?;
    of_bits(
        alloc,
        with_part(Index::Up(u64::from(low)), only_of(new), only_of(&leaf)),
    )
}

/// The value of a variable after a write that lies inside it (10.4).
///
/// # Errors
///
/// Where memory is refused.
pub fn after_put(alloc: Global, put: &Put, old: &Value) -> Result<Value, AllocError>
    requires { PutInside (shape_of old.now) put.now.first put.now.low put.now.width put.now.value }
    ensures { IfOk result (λ value. value ≡ puts.after_put put.now old.now) }
{
    let first = put.first as usize;
    let new = &put.value;
    let _old_leaves = old.items();
    if put.width == 0 {
        return with_leaves(alloc, first, new.items().len(), new, old);
    }
    let leaf = with_digits(alloc, put.first, put.low, new, old)?;
    with_leaves(alloc, first, 1, &leaf, old)
}
