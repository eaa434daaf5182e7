// The value of an expression.
ghost use Rattle.std.specs.Prelude.{◌≡◌, ◌≤◌};
ghost use Rattle.nt_design.specs.Expressions.{value_of, values_of};
ghost use Rattle.nt_design.specs.declared.tree.Tree.TheViews as view;
ghost use Rattle.nt_values.specs.Tells.{Tells};
ghost use Rattle.nt_values.specs.Typed.{AllTyped, Typed, world_in};

use crate::forms::{
    binary_form, call_form, concat_form, decided, decides, element_form, gather_form, item_form,
    leaves_form, merged_form, part_form, resize_form, unary_form,
};
use crate::world::object_at;
use crate::{Caller, World};
use nt_design::{Stop, Tree};
use nt_parts::{int_value, test_of, time_value, value_at};
use nt_value::{Binary, Digit, Value, copy};
use sqlite_items::Items;
use std::alloc::Global;

/// The value of an expression with these locals, and the turns that are left of those there were (IEEE 1800-2017, clause
/// 11).
///
/// # Errors
///
/// `TooLong` exactly where there is none within the turns. `OutOfMemory` where memory is refused.
#[cycle(values)]
pub fn value_of<C: Caller>(
    alloc: Global,
    caller: &C,
    world: &World,
    tree: &Tree,
    locals: &[Value],
    left: u32,
) -> Result<(Value, u32), Stop>
    requires may { C.can_call caller.now }
    requires typed { Typed (C.signatures caller.now) (C.calls caller.now) (world_in world.now) locals.now tree.now }
    requires few { left ≤ C.most caller.now }
    ensures { Tells left (value_of (C.calls caller.now) (world_in world.now) tree.now locals.now left) result }
{
    match tree {
        Tree::Const(value) => Ok((copy(alloc, value)?, left)),
        Tree::Read(object) => Ok((object_at(alloc, world, *object)?, left)),
        Tree::Local(local) => Ok((value_at(alloc, locals, *local as usize)?, left)),
        Tree::Leaves { of, first, count } => {
            let of = value_of(alloc, caller, world, of.get(), locals, left);
            leaves_form(alloc, of, *first, *count)
        }
        Tree::Item {
            of,
            index,
            low,
            size,
            up,
        } => {
            item_value(
                alloc,
                caller,
                world,
                of.get(),
                index.get(),
                *low,
                *size,
                *up,
                locals,
                left,
            )
        }
        Tree::Element { index } => {
            let index = value_of(alloc, caller, world, index.get(), locals, left);
            element_form(alloc, world, index)
        }
        Tree::Part { of, low, width } => {
            part_value(
                alloc,
                caller,
                world,
                of.get(),
                low.get(),
                *width,
                locals,
                left,
            )
        }
        Tree::Unary { op, of } => {
            let of = value_of(alloc, caller, world, of.get(), locals, left);
            unary_form(alloc, *op, of)
        }
        Tree::Binary {
            op,
            left: a,
            right: b,
        } => binary_value(alloc, caller, world, *op, a.get(), b.get(), locals, left),
        Tree::Choose { test, yes, no } => {
            choice_value(
                alloc,
                caller,
                world,
                test.get(),
                yes.get(),
                no.get(),
                locals,
                left,
            )
        }
        Tree::Concat { parts } => {
            let parts = values_of(alloc, caller, world, parts.as_slice(), locals, left);
            concat_form(alloc, parts)
        }
        Tree::Gather { parts } => {
            let parts = values_of(alloc, caller, world, parts.as_slice(), locals, left);
            gather_form(alloc, parts)
        }
        Tree::Resize { of, to } => {
            let of = value_of(alloc, caller, world, of.get(), locals, left);
            resize_form(alloc, of, *to)
        }
        Tree::Call { function, args } => {
            let args = values_of(alloc, caller, world, args.as_slice(), locals, left);
            call_form(alloc, caller, *function, args)
        }
        Tree::Size => Ok((int_value(alloc, world.many.len() as u32)?, left)),
        Tree::Time => Ok((time_value(alloc, world.time)?, left)),
    }
}

// An element of an array: the array, then its index (11.5.1).
#[cycle(values)]
fn item_value<C: Caller>(
    alloc: Global,
    caller: &C,
    world: &World,
    of: &Tree,
    index: &Tree,
    low: u32,
    size: u32,
    up: bool,
    locals: &[Value],
    left: u32,
) -> Result<(Value, u32), Stop>
    requires may { C.can_call caller.now }
    requires typed { Typed (C.signatures caller.now) (C.calls caller.now) (world_in world.now) locals.now (view.Item of.now index.now low size up) }
    requires few { left ≤ C.most caller.now }
    ensures { Tells left (value_of (C.calls caller.now) (world_in world.now) (view.Item of.now index.now low size up) locals.now left) result }
{
    let (x, turns) = value_of(alloc, caller, world, of, locals, left)?;
    let index = value_of(alloc, caller, world, index, locals, turns);
    item_form(alloc, &x, index, low, size, up)
}

// A part of a leaf: the leaf, then the part's least digit (11.5.1).
#[cycle(values)]
fn part_value<C: Caller>(
    alloc: Global,
    caller: &C,
    world: &World,
    of: &Tree,
    low: &Tree,
    width: u8,
    locals: &[Value],
    left: u32,
) -> Result<(Value, u32), Stop>
    requires may { C.can_call caller.now }
    requires typed { Typed (C.signatures caller.now) (C.calls caller.now) (world_in world.now) locals.now (view.Part of.now low.now width) }
    requires few { left ≤ C.most caller.now }
    ensures { Tells left (value_of (C.calls caller.now) (world_in world.now) (view.Part of.now low.now width) locals.now left) result }
{
    let (x, turns) = value_of(alloc, caller, world, of, locals, left)?;
    let low = value_of(alloc, caller, world, low, locals, turns);
    part_form(alloc, &x, low, width)
}

// An operator of two operands. The right one is evaluated only where the left one doesn't decide (11.3.5).
#[cycle(values)]
fn binary_value<C: Caller>(
    alloc: Global,
    caller: &C,
    world: &World,
    op: Binary,
    a: &Tree,
    b: &Tree,
    locals: &[Value],
    left: u32,
) -> Result<(Value, u32), Stop>
    requires may { C.can_call caller.now }
    requires typed { Typed (C.signatures caller.now) (C.calls caller.now) (world_in world.now) locals.now (view.Binary op a.now b.now) }
    requires few { left ≤ C.most caller.now }
    ensures { Tells left (value_of (C.calls caller.now) (world_in world.now) (view.Binary op a.now b.now) locals.now left) result }
{
    let (x, turns) = value_of(alloc, caller, world, a, locals, left)?;
    if decides(op, &x) {
        return Ok((decided(alloc, &x)?, turns));
    }
    let right = value_of(alloc, caller, world, b, locals, turns);
    binary_form(alloc, op, &x, right)
}

// `?:`: the arm that is taken, or both joined where the test is unknown (11.4.11).
#[cycle(values)]
fn choice_value<C: Caller>(
    alloc: Global,
    caller: &C,
    world: &World,
    test: &Tree,
    yes: &Tree,
    no: &Tree,
    locals: &[Value],
    left: u32,
) -> Result<(Value, u32), Stop>
    requires may { C.can_call caller.now }
    requires typed { Typed (C.signatures caller.now) (C.calls caller.now) (world_in world.now) locals.now (view.Choose test.now yes.now no.now) }
    requires few { left ≤ C.most caller.now }
    ensures { Tells left (value_of (C.calls caller.now) (world_in world.now) (view.Choose test.now yes.now no.now) locals.now left) result }
{
    let (t, turns) = value_of(alloc, caller, world, test, locals, left)?;
    match test_of(&t) {
        Digit::One => value_of(alloc, caller, world, yes, locals, turns),
        Digit::Zero => value_of(alloc, caller, world, no, locals, turns),
        _ => {
            let (x, turns) = value_of(alloc, caller, world, yes, locals, turns)?;
            let no = value_of(alloc, caller, world, no, locals, turns);
            merged_form(alloc, &x, no)
        }
    }
}

/// The values of expressions in order.
///
/// # Errors
///
/// As those of `value_of`.
#[cycle(values)]
pub fn values_of<C: Caller>(
    alloc: Global,
    caller: &C,
    world: &World,
    trees: &[Tree],
    locals: &[Value],
    left: u32,
) -> Result<(Items<Value>, u32), Stop>
    requires may { C.can_call caller.now }
    requires typed { AllTyped (C.signatures caller.now) (C.calls caller.now) (world_in world.now) locals.now trees.now }
    requires few { left ≤ C.most caller.now }
    ensures { Tells left (values_of (C.calls caller.now) (world_in world.now) trees.now locals.now left) result }
{
    let mut values = Items::new(alloc);
    let mut turns = left;
    for tree in trees {
        let (value, l) = value_of(alloc, caller, world, tree, locals, turns)?;
        values.push(value)?;
        turns = l;
    }
    Ok((values, turns))
}
