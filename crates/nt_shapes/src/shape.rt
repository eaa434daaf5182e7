// The shape of an expression.
ghost use Rattle.std.specs.Prelude.{◌≡◌, IfOk, map};
ghost use Rattle.nt_design.specs.Shapes.{object_shape, tree_shape};
ghost use Rattle.nt_shapes.specs.Scopes.{scope_in};

use crate::Names;
use crate::forms::{
    binary_shape, choose_shape, concat_shape, element_of, gather_shape, item_shape, leaves_shape,
    one_leaf, part_shape, resize_shape, shape_at, size_shape, unary_shape, value_shape,
};
use nt_design::{Object, Tree};
use nt_value::{Leaf, Shape};
use sqlite_items::Items;
use std::alloc::{AllocError, Global};

// The shape of a net or a variable.
fn object_shape(alloc: Global, names: &Names, object: Object) -> Result<Option<Shape>, AllocError>
    ensures { IfOk result (λ s. s ≡ object_shape (scope_in names.now) object) }
{
    match object {
        Object::Net(net) => shape_at(alloc, names.nets, net as usize),
        Object::Var(var) => shape_at(alloc, names.vars, var as usize),
    }
}

/// The shape of an expression whose parts have those that their places ask for, where no function may be called.
#[cycle(shapes)]
pub fn shape_of(alloc: Global, names: &Names, tree: &Tree) -> Result<Option<Shape>, AllocError>
    ensures { IfOk result (λ s. s ≡ tree_shape (scope_in names.now) tree.now) }
{
    match tree {
        Tree::Const(value) => value_shape(alloc, value),
        Tree::Read(object) => object_shape(alloc, names, *object),
        Tree::Local(local) => shape_at(alloc, names.locals, *local as usize),
        Tree::Leaves { of, first, count } => {
            let of = shape_of(alloc, names, of.get())?;
            leaves_shape(alloc, &of, *first, *count)
        }
        Tree::Item {
            of,
            index,
            size,
            ..
        } => {
            let of = shape_of(alloc, names, of.get())?;
            let index = shape_of(alloc, names, index.get())?;
            item_shape(alloc, &of, &index, *size)
        }
        Tree::Element { index } => {
            let index = shape_of(alloc, names, index.get())?;
            element_of(alloc, &index, names.many)
        }
        Tree::Part { of, low, width } => {
            let of = shape_of(alloc, names, of.get())?;
            let low = shape_of(alloc, names, low.get())?;
            part_shape(alloc, &of, &low, *width)
        }
        Tree::Unary { op, of } => {
            let of = shape_of(alloc, names, of.get())?;
            unary_shape(alloc, *op, &of)
        }
        Tree::Binary { op, left, right } => {
            let left = shape_of(alloc, names, left.get())?;
            let right = shape_of(alloc, names, right.get())?;
            binary_shape(alloc, *op, &left, &right)
        }
        Tree::Choose { test, yes, no } => {
            let test = shape_of(alloc, names, test.get())?;
            let yes = shape_of(alloc, names, yes.get())?;
            let no = shape_of(alloc, names, no.get())?;
            Ok(choose_shape(&test, yes, &no))
        }
        Tree::Concat { parts } => {
            let parts = shapes_of(alloc, names, parts.as_slice())?;
            concat_shape(alloc, parts.as_slice())
        }
        Tree::Gather { parts } => {
            let parts = shapes_of(alloc, names, parts.as_slice())?;
            gather_shape(alloc, parts.as_slice())
        }
        Tree::Resize { of, to } => {
            let of = shape_of(alloc, names, of.get())?;
            resize_shape(alloc, &of, *to)
        }
        Tree::Call { .. } => Ok(None),
        Tree::Size => size_shape(alloc, names.many),
        Tree::Time => {
            let leaf = Leaf {
                width: 64,
                signed: false,
                four: true,
            };
            one_leaf(alloc, leaf)
        }
    }
}

/// The shapes of expressions in order.
#[cycle(shapes)]
pub fn shapes_of(
    alloc: Global,
    names: &Names,
    trees: &[Tree],
) -> Result<Items<Option<Shape>>, AllocError>
    ensures { IfOk result (λ ss. ss ≡ map (tree_shape (scope_in names.now)) trees.now) }
{
    let mut shapes = Items::new(alloc);
    for tree in trees {
        shapes.push(shape_of(alloc, names, tree)?)?;
    }
    Ok(shapes)
}
