// Whether an expression fits an environment.
ghost use Rattle.std.specs.Prelude.{◌≡◌, All, IfOk, IfSome, map, true};
ghost use Rattle.nt_value.specs.Digits.{IsFilled};
ghost use Rattle.nt_value.specs.Values.{shape_of};
ghost use Rattle.nt_eval_show.specs.Fitting.{FitsAny, IsElement};

use nt_design::{Env, Tree};
use nt_parts::shape_of;
use nt_shapes::{Names, are_of, is_of, shape_of as tree_shape};
use nt_value::{Shape, Value};
use sqlite_items::Items;
use std::alloc::{AllocError, Global};

// The shapes of values.
fn shapes_of(alloc: Global, values: &[Value]) -> Result<Items<Shape>, AllocError>
    ensures { IfOk result (λ shapes. shapes ≡ map shape_of values.now) }
{
    let mut shapes = Items::new(alloc);
    for value in values {
        shapes.push(shape_of(alloc, value)?)?;
    }
    Ok(shapes)
}

// Whether each value is one of its own shape.
fn are_filled(alloc: Global, values: &[Value]) -> Result<bool, AllocError>
    ensures { IfOk result (λ b. b ≡ true → All (All IsFilled) values.now) }
{
    let [first, rest @ ..] = values else {
        return Ok(true);
    };
    let own = shape_of(alloc, first)?;
    Ok(is_of(alloc, &own, first)? && are_filled(alloc, rest)?)
}

// The shape of the elements of a resolver's argument.
fn element_of(alloc: Global, many: &[Value]) -> Result<Option<Shape>, AllocError>
    ensures { IfOk result (λ o. IfSome o (IsElement many.now)) }
{
    let Some(first) = many.first() else {
        return Ok(None);
    };
    let element = shape_of(alloc, first)?;
    if many.len() <= 1024 && are_of(alloc, &element, many)? {
        Ok(Some(element))
    } else {
        Ok(None)
    }
}

// Whether an expression fits an environment of a design of nothing.
pub(crate) fn fits(alloc: Global, env: &Env, tree: &Tree) -> Result<bool, AllocError>
    ensures { IfOk result (λ b. b ≡ true → FitsAny env.now tree.now) }
{
    if !env.nets.is_empty() || !env.vars.is_empty() || !are_filled(alloc, env.locals.as_slice())? {
        return Ok(false);
    }
    let Some(element) = element_of(alloc, env.many.as_slice())? else {
        return Ok(false);
    };
    let mut many = Items::new(alloc);
    many.push(element)?;
    let locals = shapes_of(alloc, env.locals.as_slice())?;
    let names = Names {
        nets: &[],
        vars: &[],
        locals: locals.as_slice(),
        many: many.as_slice(),
    };
    let shape = tree_shape(alloc, &names, tree)?;
    Ok(shape.is_some())
}
