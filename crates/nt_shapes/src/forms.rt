// The shapes of forms of expressions, from those of their parts.
ghost use Rattle.std.specs.Prelude.{◌≡◌, ◌≤◌, [], ◌∷◌, IfOk, IfSome, Some, option_map};
ghost use Rattle.std.specs.List.{flat_map};
ghost use Rattle.std.specs.Prelude.{All, replicate, slice_get};
ghost use Rattle.nt_design.specs.Parts.{int_leaf};
ghost use Rattle.nt_value.specs.Digits.{IsLeaf, are_filled};
ghost use Rattle.nt_value.specs.Values.{shape_of};
ghost use Rattle.nt_design.specs.Shapes as shapes;
ghost use Rattle.nt_shapes.specs.Scopes.{capped, leaf_in};

use nt_parts::shape_of;
use nt_value::{Binary, Leaf, Shape, Unary, Value};
use std::alloc::{AllocError, Global};

// The leaf of a shape that has one.
pub(crate) fn leaf_in(shape: &Option<Shape>) -> Option<Leaf>
    ensures value { result ≡ leaf_in shape.now }
    ensures valid { IfSome result IsLeaf }
{
    match shape {
        None => None,
        Some(shape) => match shape.items() {
            [leaf] => Some(*leaf),
            _ => None,
        },
    }
}

// A shape of one leaf.
pub(crate) fn one_leaf(alloc: Global, leaf: Leaf) -> Result<Option<Shape>, AllocError>
    requires { IsLeaf leaf }
    ensures { IfOk result (λ s. s ≡ shapes.one_leaf leaf) }
{
    Ok(Some(Shape::new(vec![in alloc; leaf]?)))
}

// The leaves of a value.
pub(crate) fn value_shape(alloc: Global, value: &Value) -> Result<Option<Shape>, AllocError>
    ensures { IfOk result (λ s. s ≡ shapes.where_so (are_filled value.now) (shape_of value.now)) }
{
    Ok(Some(shape_of(alloc, value)?))
}

// A copy of the shape of this number, if there is one.
pub(crate) fn shape_at(
    alloc: Global,
    shapes: &[Shape],
    at: usize,
) -> Result<Option<Shape>, AllocError>
    ensures { IfOk result (λ s. s ≡ slice_get shapes.now at) }
{
    match shapes.get(at) {
        None => Ok(None),
        Some(shape) => Ok(Some(shape.copy(alloc)?)),
    }
}

// Some leaves of a shape that has them.
pub(crate) fn leaves_shape(
    alloc: Global,
    of: &Option<Shape>,
    first: u8,
    count: u8,
) -> Result<Option<Shape>, AllocError>
    ensures { IfOk result (λ s. s ≡ shapes.on_shape of.now (shapes.leaves_shape first count)) }
{
    let Some(shape) = of else {
        return Ok(None);
    };
    let leaves = shape.items();
    let first = first as usize;
    let end = first + count as usize;
    if end > leaves.len() {
        return Ok(None);
    }
    let leaves = Vec::from_slice(alloc, &leaves[first..end])?;
    Ok(Some(Shape::new(leaves)))
}

/// Whether two slices of leaves are the same.
pub fn is_same(a: &[Leaf], b: &[Leaf]) -> bool
    ensures { result ≡ shapes.is_same_shape a.now b.now }
{
    match a {
        [] => b.is_empty(),
        [x, xs @ ..] => match b {
            [] => false,
            [y, ys @ ..] => same_leaf(*x, *y) && is_same(xs, ys),
        },
    }
}

// A bit or part of a leaf.
pub(crate) fn part_shape(
    alloc: Global,
    of: &Option<Shape>,
    low: &Option<Shape>,
    width: u8,
) -> Result<Option<Shape>, AllocError>
    ensures { IfOk result (λ s. s ≡ shapes.on_leaf of.now (λ leaf. shapes.on_leaf low.now (λ i. shapes.part_shape width leaf))) }
{
    let Some(leaf) = leaf_in(of) else {
        return Ok(None);
    };
    if leaf_in(low).is_none() || width < 1 || width > 64 {
        return Ok(None);
    }
    one_leaf(
        alloc,
        Leaf {
            width,
            signed: false,
            four: leaf.four,
        },
    )
}

// What an operator of one operand answers.
fn unary_answer(op: Unary, a: Leaf) -> Leaf
    requires { IsLeaf a }
    ensures value { result ≡ shapes.unary_answer op a }
    ensures valid { IsLeaf result }
{
    match op {
        Unary::Plus | Unary::Minus | Unary::Not => a,
        _ => Leaf {
            width: 1,
            signed: false,
            four: a.four,
        },
    }
}

// An operator of one operand.
pub(crate) fn unary_shape(
    alloc: Global,
    op: Unary,
    of: &Option<Shape>,
) -> Result<Option<Shape>, AllocError>
    ensures { IfOk result (λ s. s ≡ shapes.on_leaf of.now (λ leaf. shapes.one_leaf (shapes.unary_answer op leaf))) }
{
    match leaf_in(of) {
        None => Ok(None),
        Some(leaf) => one_leaf(alloc, unary_answer(op, leaf)),
    }
}

// Whether two leaves are operands of an operator.
fn are_operands(op: Binary, a: Leaf, b: Leaf) -> bool
    ensures { result ≡ shapes.are_operand_leaves op a b }
{
    match op {
        Binary::LogicalAnd | Binary::LogicalOr => a.four == b.four,
        Binary::Shl | Binary::Shr | Binary::Sshr => true,
        _ => same_leaf(a, b),
    }
}

// Whether two leaves are the same.
fn same_leaf(a: Leaf, b: Leaf) -> bool
    ensures { result ≡ shapes.is_same_leaf a b }
{
    a.width == b.width && a.signed == b.signed && a.four == b.four
}

// What an operator of two operands answers.
fn binary_answer(op: Binary, a: Leaf, b: Leaf) -> Leaf
    requires { IsLeaf a }
    ensures value { result ≡ shapes.binary_answer op a b }
    ensures valid { IsLeaf result }
{
    match op {
        Binary::Add
        | Binary::Sub
        | Binary::Mul
        | Binary::Div
        | Binary::Rem
        | Binary::And
        | Binary::Or
        | Binary::Xor
        | Binary::Xnor
        | Binary::Shl
        | Binary::Shr
        | Binary::Sshr => a,
        _ => Leaf {
            width: 1,
            signed: false,
            four: a.four || b.four,
        },
    }
}

// An operator of two operands.
pub(crate) fn binary_shape(
    alloc: Global,
    op: Binary,
    left: &Option<Shape>,
    right: &Option<Shape>,
) -> Result<Option<Shape>, AllocError>
    ensures { IfOk result (λ s. s ≡ shapes.on_leaf left.now (λ l. shapes.on_leaf right.now (λ r. shapes.where_so (shapes.are_operand_leaves op l r) (shapes.binary_answer op l r ∷ [])))) }
{
    let Some(a) = leaf_in(left) else {
        return Ok(None);
    };
    let Some(b) = leaf_in(right) else {
        return Ok(None);
    };
    if !are_operands(op, a, b) {
        return Ok(None);
    }
    one_leaf(alloc, binary_answer(op, a, b))
}

// `?:`.
pub(crate) fn choose_shape(
    test: &Option<Shape>,
    yes: Option<Shape>,
    no: &Option<Shape>,
) -> Option<Shape>
    ensures { result ≡ shapes.on_leaf test.now (λ t. shapes.on_shape yes (λ s. shapes.on_shape no.now (λ r. shapes.where_so (shapes.is_same_shape s r) s))) }
{
    leaf_in(test)?;
    let yes = yes?;
    let no = no.as_ref()?;
    if is_same(yes.items(), no.items()) {
        Some(yes)
    } else {
        None
    }
}

// One leaf as another.
pub(crate) fn resize_shape(
    alloc: Global,
    of: &Option<Shape>,
    to: Leaf,
) -> Result<Option<Shape>, AllocError>
    ensures { IfOk result (λ s. s ≡ shapes.on_leaf of.now (λ leaf. shapes.where_so (shapes.is_width to.width) (to ∷ []))) }
{
    if leaf_in(of).is_none() || to.width < 1 || to.width > 64 {
        return Ok(None);
    }
    one_leaf(alloc, to)
}

// The leaf of a concatenation, of which all widths over 64 are one.
fn wide(parts: &[Option<Shape>]) -> Option<(u8, bool)>
    ensures value { result ≡ option_map capped (shapes.concat_leaf parts.now) }
    ensures within { IfSome result (λ w. w.0 ≤ 65) }
{
    let [first, rest @ ..] = parts else {
        return Some((0, false));
    };
    let leaf = leaf_in(first)?;
    let (width, four) = wide(rest)?;
    Some(((leaf.width + width).min(65), leaf.four || four))
}

// A concatenation.
pub(crate) fn concat_shape(
    alloc: Global,
    parts: &[Option<Shape>],
) -> Result<Option<Shape>, AllocError>
    ensures { IfOk result (λ s. s ≡ shapes.concat_shape parts.now) }
{
    match wide(parts) {
        None => Ok(None),
        Some((width, four)) => {
            if width < 1 || width > 64 {
                return Ok(None);
            }
            one_leaf(
                alloc,
                Leaf {
                    width,
                    signed: false,
                    four,
                },
            )
        }
    }
}

// The same leaves over and over.
fn repeated(alloc: Global, element: &[Leaf], size: u32) -> Result<Vec<Leaf>, AllocError>
    ensures { IfOk result (λ v. v.items ≡ flat_map (λ s. s) (replicate size element.now)) }
{
    let mut leaves = Vec::new(alloc);
    if element.is_empty() {
        return Ok(leaves);
    }
    for _turn in 0..size {
        leaves.extend_from_slice(element)?;
    }
    Ok(leaves)
}

// An element of an array of so many.
fn element_shape(alloc: Global, shape: &Shape, size: u32) -> Result<Option<Shape>, AllocError>
    ensures { IfOk result (λ s. s ≡ shapes.item_shape size shape.now) }
{
    if size == 0 {
        return Ok(None);
    }
    let leaves = shape.items();
    let element = &leaves[..leaves.len() / size as usize];
    let all = repeated(alloc, element, size)?;
    if !is_same(leaves, &all) {
        return Ok(None);
    }
    Ok(Some(Shape::new(Vec::from_slice(alloc, element)?)))
}

// An element of an array.
pub(crate) fn item_shape(
    alloc: Global,
    of: &Option<Shape>,
    index: &Option<Shape>,
    size: u32,
) -> Result<Option<Shape>, AllocError>
    ensures { IfOk result (λ s. s ≡ shapes.on_shape of.now (λ s. shapes.on_leaf index.now (λ i. shapes.item_shape size s))) }
{
    let Some(shape) = of else {
        return Ok(None);
    };
    match leaf_in(index) {
        None => Ok(None),
        Some(_) => element_shape(alloc, shape, size),
    }
}

// The leaves of all parts.
fn all_leaves(alloc: Global, parts: &[Option<Shape>]) -> Result<Option<Vec<Leaf>>, AllocError>
    ensures value { IfOk result (λ o. option_map (λ v. v.items) o ≡ shapes.all_leaves parts.now) }
    ensures valid { IfOk result (λ o. IfSome o (λ v. All IsLeaf v.items)) }
{
    let [first, rest @ ..] = parts else {
        return Ok(Some(Vec::new(alloc)));
    };
    let Some(shape) = first else {
        return Ok(None);
    };
    let Some(tail) = all_leaves(alloc, rest)? else {
        return Ok(None);
    };
    let mut leaves = Vec::from_slice(alloc, shape.items())?;
    leaves.extend_from_slice(&tail)?;
    Ok(Some(leaves))
}

// A structure or an array of its items.
pub(crate) fn gather_shape(
    alloc: Global,
    parts: &[Option<Shape>],
) -> Result<Option<Shape>, AllocError>
    ensures { IfOk result (λ s. s ≡ shapes.gather_shape parts.now) }
{
    match all_leaves(alloc, parts)? {
        None => Ok(None),
        Some(leaves) => {
            if leaves.len() > 64 {
                return Ok(None);
            }
            Ok(Some(Shape::new(leaves)))
        }
    }
}

// An element of a resolver's argument.
pub(crate) fn element_of(
    alloc: Global,
    index: &Option<Shape>,
    many: &[Shape],
) -> Result<Option<Shape>, AllocError>
    ensures { IfOk result (λ s. s ≡ shapes.on_leaf index.now (λ i. slice_get many.now 0)) }
{
    if leaf_in(index).is_none() {
        return Ok(None);
    }
    shape_at(alloc, many, 0)
}

// How many elements a resolver's argument has.
pub(crate) fn size_shape(alloc: Global, many: &[Shape]) -> Result<Option<Shape>, AllocError>
    ensures { IfOk result (λ s. s ≡ shapes.on_shape (slice_get many.now 0) (λ s. shapes.one_leaf int_leaf)) }
{
    match many.get(0) {
        None => Ok(None),
        Some(_) => one_leaf(alloc, Leaf::INT),
    }
}
