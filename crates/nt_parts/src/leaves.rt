// Leaves of values, and elements of arrays.
ghost use Rattle.nt_value.specs.Digits.{IsFilled};
ghost use Rattle.std.specs.Prelude.{All, ◌≡◌, ◌≤◌, ◌<◌, ◌*◌, ℕ, IfOk, [], IfSome, get_or, length, take};
ghost use Rattle.nt_value.specs.Values.{default_value, shape_of};
ghost use Rattle.nt_design.specs.Parts as parts;

use crate::slices::{after, first_of};
use nt_value::{Bits, Shape, Value, copy, default_of};
use std::alloc::{AllocError, Global};

/// The leaves of a value, each of which has its digits.
pub fn shape_of(alloc: Global, value: &Value) -> Result<Shape, AllocError>
    ensures shape { IfOk result (λ shape. shape ≡ shape_of value.now) }
    ensures filled { All IsFilled value.now }
{
    let mut leaves = Vec::new(alloc);
    for bits in value.items() {
        leaves.push(bits.leaf())?;
    }
    Ok(Shape::new(leaves))
}

/// A copy of the value of this number, or a value without leaves where there is none.
pub fn value_at(alloc: Global, values: &[Value], at: usize) -> Result<Value, AllocError>
    ensures { IfOk result (λ v. v ≡ get_or values.now at []) }
{
    match values.get(at) {
        None => Ok(Value::new(Vec::new(alloc))),
        Some(value) => copy(alloc, value),
    }
}

/// So many leaves from one on.
pub fn leaves_at(
    alloc: Global,
    value: &Value,
    first: usize,
    count: usize,
) -> Result<Value, AllocError>
    ensures { IfOk result (λ v. v ≡ parts.leaves_at first count value.now) }
{
    let leaves = first_of(after(value.items(), first), count);
    Ok(Value::new(Vec::from_slice(alloc, leaves)?))
}

/// The same leaves replaced.
pub fn with_leaves(
    alloc: Global,
    first: usize,
    count: usize,
    part: &Value,
    value: &Value,
) -> Result<Value, AllocError>
    requires { length (parts.with_leaves first count part.now value.now) ≤ length value.now }
    ensures { IfOk result (λ v. v ≡ parts.with_leaves first count part.now value.now) }
{
    let mut leaves = Vec::from_slice(alloc, first_of(value.items(), first))?;
    leaves.extend_from_slice(part.items())?;
    leaves.extend_from_slice(after(after(value.items(), first), count))?;
    Ok(Value::new(leaves))
}

// How many leaves an element has.
fn leaves_each(size: usize, value: &Value) -> usize
    requires { 0 < size }
    ensures value { result ≡ parts.leaves_each size value.now }
    ensures within { (position : ℕ) → position < size → position * result ≤ 64 }
{
    value.items().len() / size
}

// So many leaves from the first on, each at its default.
fn defaults(alloc: Global, value: &Value, count: usize) -> Result<Value, AllocError>
    ensures { IfOk result (λ v. v ≡ default_value (shape_of (take count value.now))) }
{
    let mut leaves = Vec::new(alloc);
    for leaf in first_of(value.items(), count) {
        leaves.push(Bits::default(leaf.leaf()))?;
    }
    Ok(Value::new(leaves))
}

/// An element of an array of so many elements, or the default where there is none (IEEE 1800-2017, 7.4.6, Table 7-1).
pub fn item_at(
    alloc: Global,
    size: usize,
    position: Option<usize>,
    value: &Value,
) -> Result<Value, AllocError>
    requires some { 0 < size }
    requires within { IfSome position (λ p. p < size) }
    ensures { IfOk result (λ v. v ≡ parts.item_at size position value.now) }
{
    let each = leaves_each(size, value);
    match position {
        None => defaults(alloc, value, each),
        Some(position) => leaves_at(alloc, value, position * each, each),
    }
}

/// An element replaced. A write of none does nothing (7.4.6).
pub fn with_item(
    alloc: Global,
    size: usize,
    position: Option<usize>,
    part: &Value,
    value: &Value,
) -> Result<Value, AllocError>
    requires some { 0 < size }
    requires within { IfSome position (λ p. p < size) }
    requires few { length (parts.with_item size position part.now value.now) ≤ length value.now }
    ensures { IfOk result (λ v. v ≡ parts.with_item size position part.now value.now) }
{
    match position {
        None => copy(alloc, value),
        Some(position) => {
            let each = leaves_each(size, value);
            with_leaves(alloc, position * each, each, part, value)
        }
    }
}

/// An element of a resolver's argument, or the default of its leaves where there is none (7.4.6, Table 7-1).
pub fn element_at(
    alloc: Global,
    shape: &Shape,
    many: &[Value],
    position: Option<usize>,
) -> Result<Value, AllocError>
    ensures { IfOk result (λ v. v ≡ parts.element_at shape.now many.now position) }
{
    let Some(position) = position else {
        return default_of(alloc, shape);
    };
    match many.get(position) {
        None => default_of(alloc, shape),
        Some(value) => copy(alloc, value),
    }
}
