// What a case calls: a function's name, and after it the arguments, each with its leaves between commas.
ghost use Rattle.std.specs.Prelude.{◌≡◌, ◌+◌, IfOk, OnOk, length, true};
ghost use Rattle.nt_design.specs.WellFormed.{IsOwn, MayCall};
ghost use Rattle.nt_value.specs.Values.{AreValuesOf};

use crate::functions::{ADDER, ENDLESS, SUM};
use nt_design::Function;
use nt_shapes::{are_of, is_of};
use nt_value::{Bits, Leaf, Shape, Unary, Value, unary};
use sqlite_items::Items;
use std::alloc::{AllocError, Global};

/// Why a case is not read.
#[derive(Debug, Drop)]
pub(crate) enum Unread {
    Words,
    Memory(AllocError),
}

impl From<AllocError> for Unread {
    fn from(e: AllocError) -> Unread {
        Unread::Memory(e)
    }
}

/// The number of the function of a name.
pub(crate) fn function_named(name: &str) -> Option<u32> {
    match name {
        "chain" => Some(0),
        "endless" => Some(ENDLESS),
        "sum" => Some(SUM),
        "adder" => Some(ADDER),
        _ => None,
    }
}

// The `int` of a text.
fn leaf_of(text: &str) -> Option<Bits> {
    let (below, digits) = match text.strip_prefix('-') {
        Some(digits) => (true, digits),
        None => (false, text),
    };
    let number: u32 = digits.parse().ok()?;
    let bits = Bits::number(Leaf::INT, u64::from(number));
    if below {
        Some(unary(Unary::Minus, bits))
    } else {
        Some(bits)
    }
}

fn add(leaves: &mut Vec<Bits>, leaf: Bits) -> Result<(), AllocError>
    ensures { OnOk result (length leaves.new.items ≡ length leaves.old.items + 1) }
{
    leaves.push(leaf)?;
    Ok(())
}

// The value of a text.
fn argument(alloc: Global, text: &str) -> Result<Value, Unread> {
    let mut leaves = Vec::new(alloc);
    for part in text.split(',') {
        let leaf = leaf_of(part).ok_or(Unread::Words)?;
        if leaves.len() >= 64 {
            return Err(Unread::Words);
        }
        add(&mut leaves, leaf)?;
    }
    Ok(Value::new(leaves))
}

/// The values of the words after a name.
pub(crate) fn arguments(alloc: Global, text: &str) -> Result<Items<Value>, Unread> {
    let mut args = Items::new(alloc);
    for word in text.split(' ') {
        let value = argument(alloc, word)?;
        args.push(value)?;
    }
    Ok(args)
}

// Whether values are of these shapes, one each.
fn are_values(alloc: Global, shapes: &[Shape], values: &[Value]) -> Result<bool, AllocError>
    ensures { IfOk result (λ b. b ≡ true → AreValuesOf shapes.now values.now) }
{
    match (shapes, values) {
        ([], []) => Ok(true),
        ([shape, shapes @ ..], [value, values @ ..]) => {
            Ok(is_of(alloc, shape, value)? && are_values(alloc, shapes, values)?)
        }
        _ => Ok(false),
    }
}

/// Whether a function may be called with these values.
pub(crate) fn may_call(
    alloc: Global,
    function: &Function,
    args: &[Value],
) -> Result<bool, AllocError>
    requires own { IsOwn function.now }
    ensures { IfOk result (λ b. b ≡ true → MayCall function.now args.now) }
{
    let shapes = function.args.as_slice();
    if !function.many {
        return are_values(alloc, shapes, args);
    }
    match shapes {
        [shape] => Ok(args.len() <= 1024 && are_of(alloc, shape, args)?),
        _ => Ok(false),
    }
}
