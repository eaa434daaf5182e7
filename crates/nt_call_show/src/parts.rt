// Parts of functions.
ghost use Rattle.std.specs.Prelude.{◌≡◌, IfOk, [], ◌∷◌};
ghost use Rattle.nt_design.specs.declared.act.Act.TheVariants as act;
ghost use Rattle.nt_design.specs.declared.target.Target.TheVariants as target;
ghost use Rattle.nt_design.specs.declared.tree.Tree.TheVariants as tree;
ghost use Rattle.nt_call_show.specs.Functions as functions;

use nt_design::{Act, Target, Tree};
use nt_parts::int_value;
use nt_value::{Binary, Leaf, Place, Shape};
use sqlite_items::{Boxed, Items};
use std::alloc::{AllocError, Global};

pub(crate) fn int(alloc: Global) -> Result<Shape, AllocError>
    ensures { IfOk result (λ s. s ≡ functions.int) }
{
    Ok(Shape::new(vec![in alloc; Leaf::INT]?))
}

pub(crate) fn pair(alloc: Global) -> Result<Shape, AllocError>
    ensures { IfOk result (λ s. s ≡ functions.pair) }
{
    Ok(Shape::new(vec![in alloc; Leaf::INT, Leaf::INT]?))
}

pub(crate) fn ints(alloc: Global) -> Result<Items<Shape>, AllocError>
    ensures { IfOk result (λ s. s ≡ functions.int ∷ []) }
{
    let mut shapes = Items::new(alloc);
    let shape = int(alloc)?;
    shapes.push(shape)?;
    Ok(shapes)
}

pub(crate) fn pairs(alloc: Global) -> Result<Items<Shape>, AllocError>
    ensures { IfOk result (λ s. s ≡ functions.pair ∷ []) }
{
    let mut shapes = Items::new(alloc);
    let shape = pair(alloc)?;
    shapes.push(shape)?;
    Ok(shapes)
}

pub(crate) fn number(alloc: Global, number: u32) -> Result<Boxed<Tree>, AllocError>
    ensures { IfOk result (λ t. t ≡ functions.number number) }
{
    let value = int_value(alloc, number)?;
    Boxed::new(alloc, Tree::Const(value))
}

pub(crate) fn local(alloc: Global, local: u32) -> Result<Boxed<Tree>, AllocError>
    ensures { IfOk result (λ t. t ≡ tree.Local local) }
{
    Boxed::new(alloc, Tree::Local(local))
}

pub(crate) fn binary(
    alloc: Global,
    op: Binary,
    left: Boxed<Tree>,
    right: Boxed<Tree>,
) -> Result<Boxed<Tree>, AllocError>
    ensures { IfOk result (λ t. t ≡ tree.Binary op left right) }
{
    Boxed::new(alloc, Tree::Binary { op, left, right })
}

// A local takes a value.
pub(crate) fn set(
    alloc: Global,
    local: u32,
    right: Boxed<Tree>,
    at: Place,
) -> Result<Boxed<Act>, AllocError>
    ensures { IfOk result (λ a. a ≡ functions.set local right at) }
{
    Boxed::new(
        alloc,
        Act::Assign {
            left: Target::Local {
                local,
                path: Items::new(alloc),
            },
            right: right.into_inner(),
            at,
        },
    )
}

// A local grows by another tree.
pub(crate) fn step(
    alloc: Global,
    grown: u32,
    by: Boxed<Tree>,
    at: Place,
) -> Result<Boxed<Act>, AllocError>
    ensures { IfOk result (λ a. a ≡ functions.set grown (functions.sum_of (tree.Local grown) by) at) }
{
    let own = local(alloc, grown)?;
    let sum = binary(alloc, Binary::Add, own, by)?;
    set(alloc, grown, sum, at)
}
