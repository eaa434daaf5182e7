// What forms of expressions give, from the answers for their parts.
ghost use Rattle.std.specs.Prelude.{◌≡◌, ◌≤◌, ◌<◌, ℕ, List, Some, IfOk, length, true};
ghost use Rattle.nt_value.specs.Digits.{IsLeaf};
ghost use Rattle.nt_value.specs.Operators as operators;
ghost use Rattle.nt_value.specs.Values.{shape_of};
ghost use Rattle.nt_design.specs.Expressions.{is_decided};
ghost use Rattle.nt_design.specs.Parts as parts;
ghost use Rattle.nt_design.specs.Turns.{Timed, and_then};
ghost use Rattle.nt_values.specs.Tells.{Tells};
ghost use Rattle.nt_values.specs.Typed.{IsCall, world_in};

use crate::{Caller, World};
use nt_design::Stop;
use nt_parts::{
    concatenated, element_at, gathered, index_of, item_at, leaves_at, merged, of_bits, only_of,
    part_at, position_of, test_of,
};
use nt_value::{Binary, Digit, Leaf, Unary, Value, binary, resize, unary};
use sqlite_items::Items;
use std::alloc::{AllocError, Global};

// So many leaves from one on.
pub(crate) fn leaves_form(
    alloc: Global,
    of: Result<(Value, u32), Stop>,
    first: u8,
    count: u8,
) -> Result<(Value, u32), Stop>
    ensures { (most : ℕ) (m : Timed parts.Value) → Tells most m of → Tells most (and_then m (λ x l. Some (parts.leaves_at first count x, l))) result }
{
    let (x, left) = of?;
    let value = leaves_at(alloc, &x, first as usize, count as usize)?;
    Ok((value, left))
}

// An element of an array, whose value is there.
pub(crate) fn item_form(
    alloc: Global,
    x: &Value,
    index: Result<(Value, u32), Stop>,
    low: u32,
    size: u32,
    up: bool,
) -> Result<(Value, u32), Stop>
    requires { 0 < size }
    ensures { (most : ℕ) (m : Timed parts.Value) → Tells most m index → Tells most (and_then m (λ i k. Some (parts.item_at size (parts.position_of low size up (parts.number_in i)) x.now, k))) result }
{
    let (i, left) = index?;
    let position = position_of(low, size as usize, up, index_of(&i));
    let value = item_at(alloc, size as usize, position, x)?;
    Ok((value, left))
}

// An element of a resolver's argument.
pub(crate) fn element_form(
    alloc: Global,
    world: &World,
    index: Result<(Value, u32), Stop>,
) -> Result<(Value, u32), Stop>
    ensures { (most : ℕ) (m : Timed parts.Value) → Tells most m index → Tells most (and_then m (λ i l. Some (parts.element_at world.now.element.now world.now.many.now (parts.position_of 0 (length world.now.many.now) true (parts.number_in i)), l))) result }
{
    let (i, left) = index?;
    let position = position_of(0, world.many.len(), true, index_of(&i));
    let value = element_at(alloc, world.element, world.many, position)?;
    Ok((value, left))
}

// A bit or part of a leaf, whose value is there.
pub(crate) fn part_form(
    alloc: Global,
    x: &Value,
    low: Result<(Value, u32), Stop>,
    width: u8,
) -> Result<(Value, u32), Stop>
    requires some { 1 ≤ width }
    requires few { width ≤ 64 }
    ensures { (most : ℕ) (m : Timed parts.Value) → Tells most m low → Tells most (and_then m (λ i k. Some (parts.one (parts.part_at (parts.number_in i) width (parts.only x.now)), k))) result }
{
    let (i, left) = low?;
    let value = of_bits(alloc, part_at(index_of(&i), width, only_of(x)))?;
    Ok((value, left))
}

// An operator of one operand.
pub(crate) fn unary_form(
    alloc: Global,
    op: Unary,
    of: Result<(Value, u32), Stop>,
) -> Result<(Value, u32), Stop>
    ensures { (most : ℕ) (m : Timed parts.Value) → Tells most m of → Tells most (and_then m (λ x l. Some (parts.one (operators.unary_of op (parts.only x)), l))) result }
{
    let (x, left) = of?;
    let value = of_bits(alloc, unary(op, only_of(&x)))?;
    Ok((value, left))
}

// Whether the left operand alone decides.
pub(crate) fn decides(op: Binary, x: &Value) -> bool
    ensures { result ≡ is_decided op (parts.test_of x.now) }
{
    match (op, test_of(x)) {
        (Binary::LogicalAnd, Digit::Zero) => true,
        (Binary::LogicalOr, Digit::One) => true,
        _ => false,
    }
}

// What it then answers: its truth.
pub(crate) fn decided(alloc: Global, x: &Value) -> Result<Value, AllocError>
    ensures { IfOk result (λ v. v ≡ parts.one (operators.one_digit (parts.only x.now).leaf.four (parts.test_of x.now))) }
{
    of_bits(alloc, binary(Binary::LogicalOr, only_of(x), only_of(x)))
}

// An operator of two operands, whose left one is there and doesn't decide.
pub(crate) fn binary_form(
    alloc: Global,
    op: Binary,
    x: &Value,
    right: Result<(Value, u32), Stop>,
) -> Result<(Value, u32), Stop>
    requires { IfOk right (λ p. operators.AreOperands op (parts.only x.now) (parts.only p.0)) }
    ensures { (most : ℕ) (m : Timed parts.Value) → Tells most m right → Tells most (and_then m (λ y k. Some (parts.one (operators.binary_of op (parts.only x.now) (parts.only y)), k))) result }
{
    let (y, left) = right?;
    let value = of_bits(alloc, binary(op, only_of(x), only_of(&y)))?;
    Ok((value, left))
}

// Both arms of a `?:` joined, of which the first is there.
pub(crate) fn merged_form(
    alloc: Global,
    x: &Value,
    no: Result<(Value, u32), Stop>,
) -> Result<(Value, u32), Stop>
    requires { IfOk no (λ p. shape_of x.now ≡ shape_of p.0) }
    ensures { (most : ℕ) (m : Timed parts.Value) → Tells most m no → Tells most (and_then m (λ y k. Some (parts.merged x.now y, k))) result }
{
    let (y, left) = no?;
    let value = merged(alloc, x, &y)?;
    Ok((value, left))
}

// A concatenation.
pub(crate) fn concat_form(
    alloc: Global,
    items: Result<(Items<Value>, u32), Stop>,
) -> Result<(Value, u32), Stop>
    requires { IfOk items (λ p. IsLeaf (parts.concatenated p.0).leaf) }
    ensures { (most : ℕ) (m : Timed (List parts.Value)) → Tells most m items → Tells most (and_then m (λ vs l. Some (parts.one (parts.concatenated vs), l))) result }
{
    let (values, left) = items?;
    let [first, others @ ..] = values.as_slice() else {
        unreachable!()
    };
    let value = of_bits(alloc, concatenated(first, others))?;
    Ok((value, left))
}

// The leaves of several values.
pub(crate) fn gather_form(
    alloc: Global,
    items: Result<(Items<Value>, u32), Stop>,
) -> Result<(Value, u32), Stop>
    requires { IfOk items (λ p. length (parts.gathered p.0) ≤ 64) }
    ensures { (most : ℕ) (m : Timed (List parts.Value)) → Tells most m items → Tells most (and_then m (λ vs l. Some (parts.gathered vs, l))) result }
{
    let (values, left) = items?;
    let value = gathered(alloc, values.as_slice())?;
    Ok((value, left))
}

// One leaf as another.
pub(crate) fn resize_form(
    alloc: Global,
    of: Result<(Value, u32), Stop>,
    to: Leaf,
) -> Result<(Value, u32), Stop>
    requires { IsLeaf to }
    ensures { (most : ℕ) (m : Timed parts.Value) → Tells most m of → Tells most (and_then m (λ x l. Some (parts.one (operators.resize_of (parts.only x) to), l))) result }
{
    let (x, left) = of?;
    let value = of_bits(alloc, resize(only_of(&x), to))?;
    Ok((value, left))
}

// A call of a function.
pub(crate) fn call_form<C: Caller>(
    alloc: Global,
    caller: &C,
    function: u32,
    args: Result<(Items<Value>, u32), Stop>,
) -> Result<(Value, u32), Stop>
    requires may { C.can_call caller.now }
    requires args { IfOk args (λ p. IsCall (C.signatures caller.now) function p.0 × (p.1 ≤ C.most caller.now)) }
    ensures { (most : ℕ) (m : Timed (List parts.Value)) → Tells most m args → Tells most (and_then m (λ vs l. C.calls caller.now function vs l)) result }
{
    let (values, left) = args?;
    caller.call(alloc, function, values, left)
}
