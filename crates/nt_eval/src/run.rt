// A function's body on argument values.
ghost use Rattle.std.specs.Prelude.{◌≡◌, ◌≤◌, ◌++◌, [], IfOk, Some, get_or, map};
ghost use Rattle.nt_value.specs.Values.{default_value};
ghost use Rattle.nt_design.specs.Meaning.{entry_of, name_local, name_of, own_world, result_of, run};
ghost use Rattle.nt_design.specs.Statements.{do_all};
ghost use Rattle.nt_design.specs.Turns.{and_then};
ghost use Rattle.nt_values.specs.Tells.{Tells};
ghost use Rattle.nt_values.specs.Typed.{world_in};
ghost use Rattle.nt_acts.specs.Doable.{Doable};

use nt_acts::do_all;
use nt_design::{Function, Stop};
use nt_parts::value_at;
use nt_value::{Shape, Value, default_of};
use nt_values::{Caller, World};
use sqlite_items::Items;
use std::alloc::{AllocError, Global};

// The locals where a body begins: those that are there, the function's name, and the others at their defaults (IEEE
// 1800-2017, 13.4.2).
fn entered(alloc: Global, f: &Function, own: Items<Value>) -> Result<Items<Value>, AllocError>
    ensures { IfOk result (λ locals. locals ≡ own ++ (name_local f.now.result ++ map default_value f.now.locals)) }
{
    let mut locals = own;
    if !f.result.items().is_empty() {
        locals.push(default_of(alloc, &f.result)?)?;
    }
    for shape in f.locals.as_slice() {
        locals.push(default_of(alloc, shape)?)?;
    }
    Ok(locals)
}

// The result: what the name holds at the end (13.4.1).
fn result_in(
    alloc: Global,
    shape: &Shape,
    name: usize,
    locals: &[Value],
) -> Result<Value, AllocError>
    ensures { IfOk result (λ v. v ≡ result_of shape.now name locals.now) }
{
    if shape.items().is_empty() {
        return Ok(Value::new(Vec::new(alloc)));
    }
    value_at(alloc, locals, name)
}

// The leaves of an element of a resolver's argument.
fn element_of<'a>(f: &'a Function, none: &'a Shape) -> &'a Shape
    requires { none.now ≡ [] }
    ensures { result.now ≡ get_or f.now.args 0 [] }
{
    match f.args.get(0) {
        None => none,
        Some(shape) => shape,
    }
}

// A function's body on the locals that are there at its entry.
fn body_value<C: Caller>(
    alloc: Global,
    caller: &C,
    world: &World,
    f: &Function,
    name: usize,
    own: Items<Value>,
    left: u32,
) -> Result<(Value, u32), Stop>
    requires may { C.can_call caller.now }
    requires typed { Doable (C.signatures caller.now) (C.calls caller.now) (world_in world.now) name (own ++ (name_local f.now.result ++ map default_value f.now.locals)) [] f.now.body }
    requires few { left ≤ C.most caller.now }
    ensures { Tells left (and_then (do_all (C.calls caller.now) (world_in world.now) name f.now.body (own ++ (name_local f.now.result ++ map default_value f.now.locals)) left) (λ e l. Some (result_of f.now.result name e.0, l))) result }
{
    let mut locals = entered(alloc, f, own)?;
    let (_flow, turns) = do_all(
        alloc,
        caller,
        world,
        name,
        f.body.as_slice(),
        &mut locals,
        left,
    )?;
    let value = result_in(alloc, &f.result, name, locals.as_slice())?;
    Ok((value, turns))
}

// A function's body on argument values (13.4). Those of a resolver are the elements of its argument (6.6.7).
pub(crate) fn run<C: Caller>(
    alloc: Global,
    caller: &C,
    f: &Function,
    args: Items<Value>,
    left: u32,
) -> Result<(Value, u32), Stop>
    requires may { C.can_call caller.now }
    requires typed { Doable (C.signatures caller.now) (C.calls caller.now) (own_world f.now args) (name_of f.now) (entry_of f.now args) [] f.now.body }
    requires few { left ≤ C.most caller.now }
    ensures { Tells left (run (C.calls caller.now) (Some f.now) args left) result }
{
    let none = Shape::new(Vec::new(alloc));
    let element = element_of(f, &none);
    if f.many {
        let world = World {
            time: 0,
            nets: &[],
            vars: &[],
            many: args.as_slice(),
            element,
        };
        body_value(alloc, caller, &world, f, 0, Items::new(alloc), left)
    } else {
        let world = World {
            time: 0,
            nets: &[],
            vars: &[],
            many: &[],
            element,
        };
        body_value(alloc, caller, &world, f, f.args.len(), args, left)
    }
}
