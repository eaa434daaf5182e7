// What drivers contribute to a net.
ghost use Rattle.std.specs.Prelude.{◌≡◌, IfOk, get_or};
ghost use Rattle.nt_semantics.specs.Step as step;

use nt_parts::{Index, of_bits, only_of, value_at, with_part};
use nt_state::z_value;
use nt_value::{Shape, Value};
use sqlite_items::Items;
use std::alloc::{AllocError, Global};

/// What a driver contributes to a net of this shape: its value, or where it drives a part its value there and z elsewhere.
/// `width` is 0 where it drives the whole net.
///
/// # Errors
///
/// Where memory is refused.
pub fn contribution(
    alloc: Global,
    shape: &Shape,
    low: u8,
    width: u8,
    value: Value,
) -> Result<Value, AllocError>
    ensures { IfOk result (λ new. new ≡ step.contribution shape.now low width value) }
{
    if width == 0 {
        return Ok(value);
    }
    let released = z_value(alloc, shape)?;
    of_bits(
        alloc,
        with_part(
            Index::Up(u64::from(low)),
            only_of(&value),
            only_of(&released),
        ),
    )
}

// The number of the assignment that drives a slot.
fn driver_of(drivers: &[u32], slot: u32) -> u32
    ensures { result ≡ get_or drivers.now slot 0 }
{
    match drivers.get(slot as usize) {
        Some(driver) => *driver,
        None => 0,
    }
}

/// The values of a net's slots in an order (IEEE 1800-2017, 6.6.7). `drivers` gives the number of each slot's assignment.
///
/// # Errors
///
/// Where memory is refused.
pub fn in_order(
    alloc: Global,
    slots: &[Value],
    drivers: &[u32],
    order: &[u32],
) -> Result<Items<Value>, AllocError>
    ensures { IfOk result (λ values. values ≡ step.in_order slots.now drivers.now order.now) }
{
    let mut values = Items::new(alloc);
    for slot in order {
        let driver = driver_of(drivers, *slot);
        values.push(value_at(alloc, slots, driver as usize)?)?;
    }
    Ok(values)
}
