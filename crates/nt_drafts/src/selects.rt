// Selects from values and from resolvers' arguments.
ghost use Rattle.std.specs.Prelude.{◌≡◌, ◌<◌, ◌^◌, IfOk, false, min, nat_le, true};
ghost use Rattle.nt_design.specs.declared.tree.Tree.TheVariants as t;
ghost use Rattle.nt_drafts.specs.Gives.{FewElements, Gives};
ghost use Rattle.nt_kinds.specs.Kinds.{span as span_of};
ghost use Rattle.nt_typing.specs.Kinds.{plain};
ghost use Rattle.nt_typing.specs.Tables as spec;
ghost use Rattle.nt_typing.specs.declared.thing.Thing.TheVariants.{Value};

use crate::digits::{indexed_low, number_tree, part_tree};
use crate::unfit::Unfit;
use nt_const::Size;
use nt_design::Tree;
use nt_diag::Rule;
use nt_kinds::Kind;
use nt_typing::Thing;
use nt_value::Leaf;
use sqlite_items::Boxed;
use std::alloc::{AllocError, Global};

/// An integral type without a declared range: its digits count from 0.
///
/// # Errors
///
/// `AllocError` alone.
pub fn plain_kind(alloc: Global, size: Size) -> Result<Boxed<Kind>, AllocError>
    ensures { IfOk result (λ kind. kind ≡ plain size) }
{
    let leaf = size.leaf();
    Boxed::new(
        alloc,
        Kind::One {
            leaf,
            left: u32::from(leaf.width) - 1,
            right: 0,
        },
    )
}

// Some digits of an operand of this leaf, or T2 where there are none or too many.
fn digits_thing(
    alloc: Global,
    leaf: Leaf,
    of: Boxed<Tree>,
    low: Boxed<Tree>,
    width: u64,
) -> Result<Thing, Unfit>
    ensures { Gives (spec.digits_thing leaf of low width) result }
{
    if width == 0 || width > 64 {
        return Err(Unfit::Breaks(Rule::T2));
    }
    let tree = part_tree(alloc, of, low, width as u8)?;
    let kind = plain_kind(alloc, Size::of(width as u8, false, leaf.four))?;
    Ok(Thing::Value { kind, tree })
}

// How many indices lie between two bounds.
fn span(left: u32, right: u32) -> u32
    requires { span_of left right < 2 ^ 32 }
    ensures { result ≡ span_of left right }
{
    left.max(right) - left.min(right) + 1
}

// An item of an array.
fn array_item(
    alloc: Global,
    left: u32,
    right: u32,
    element: Boxed<Kind>,
    of: Boxed<Tree>,
    index: Boxed<Tree>,
) -> Result<Thing, AllocError>
    requires { span_of left right < 2 ^ 32 }
    ensures { IfOk result (λ thing. thing ≡ Value element (t.Item of index (min left right) (span_of left right) (nat_le left right))) }
{
    let size = span(left, right);
    let tree = Boxed::new(
        alloc,
        Tree::Item {
            of,
            index,
            low: left.min(right),
            size,
            up: left <= right,
        },
    )?;
    Ok(Thing::Value {
        kind: element,
        tree,
    })
}

// The digit of an integral value at an index.
fn digit_item(
    alloc: Global,
    leaf: Leaf,
    left: u32,
    right: u32,
    of: Boxed<Tree>,
    size: Size,
    index: Boxed<Tree>,
) -> Result<Thing, Unfit>
    ensures { Gives (spec.digits_thing leaf of (spec.indexed_low left right true 1 size index) 1) result }
{
    let low = indexed_low(alloc, left, right, true, 1, size, index)?;
    digits_thing(alloc, leaf, of, low, 1)
}

// An element of a resolver's argument.
fn element_thing(
    alloc: Global,
    element: Boxed<Kind>,
    index: Boxed<Tree>,
) -> Result<Thing, AllocError>
    ensures { IfOk result (λ thing. thing ≡ Value element (t.Element index)) }
{
    let tree = Boxed::new(alloc, Tree::Element { index })?;
    Ok(Thing::Value {
        kind: element,
        tree,
    })
}

/// `of[index]`: a digit of an integral value by its declared range, an element of an array, or one of a resolver's argument
/// (IEEE 1800-2017, 7.4.6, 11.5.1). The index has this leaf.
///
/// # Errors
///
/// `Breaks` with T8 where there is nothing to select from, and `OutOfMemory`.
pub fn item_of(alloc: Global, of: Thing, size: Size, index: Boxed<Tree>) -> Result<Thing, Unfit>
    requires { FewElements of }
    ensures { Gives (spec.item_of of size index) result }
{
    match of {
        Thing::Many { element } => Ok(element_thing(alloc, element, index)?),
        Thing::Value { kind, tree } => match kind.into_inner() {
            Kind::One { leaf, left, right } => digit_item(
                alloc, leaf, left, right, tree, size, index,
            ),
            Kind::Struct { .. } => Err(Unfit::Breaks(Rule::T8)),
            Kind::Array {
                left,
                right,
                element,
            } => Ok(array_item(alloc, left, right, element, tree, index)?),
        },
    }
}

// `[base +: width]` or `[base -: width]` of an integral value.
fn indexed_digits(
    alloc: Global,
    leaf: Leaf,
    left: u32,
    right: u32,
    of: Boxed<Tree>,
    up: bool,
    size: Size,
    base: Boxed<Tree>,
    width: u64,
) -> Result<Thing, Unfit>
    ensures { Gives (spec.digits_thing leaf of (spec.indexed_low left right up width size base) width) result }
{
    if width == 0 || width > 64 {
        return Err(Unfit::Breaks(Rule::T2));
    }
    let low = indexed_low(alloc, left, right, up, width, size, base)?;
    digits_thing(alloc, leaf, of, low, width)
}

/// `of[base +: width]`, and `of[base -: width]` where `up` is false, of an integral value by its declared range (11.5.1).
///
/// # Errors
///
/// `Breaks` with T2 where there are no digits or more than 64, with T8 where the operand is no integral value, and `OutOfMemory`.
pub fn indexed_of(
    alloc: Global,
    of: Thing,
    up: bool,
    size: Size,
    base: Boxed<Tree>,
    width: u64,
) -> Result<Thing, Unfit>
    ensures { Gives (spec.indexed_of of up size base width) result }
{
    match of {
        Thing::Many { .. } => Err(Unfit::Breaks(Rule::T8)),
        Thing::Value { kind, tree } => match kind.into_inner() {
            Kind::One { leaf, left, right } => indexed_digits(
                alloc, leaf, left, right, tree, up, size, base, width,
            ),
            _ => Err(Unfit::Breaks(Rule::T8)),
        },
    }
}

// Where the digits down to this bound begin.
fn low_of(left: u32, right: u32, bound: u32) -> u64
    ensures { result ≡ spec.part_low left right bound }
{
    if right <= left {
        u64::from(bound).wrapping_sub(u64::from(right))
    } else {
        u64::from(right).wrapping_sub(u64::from(bound))
    }
}

// How many digits stand between two bounds of a declared range.
fn width_between(left: u32, right: u32, first: u32, last: u32) -> u64
    ensures { result ≡ spec.part_width left right first last }
{
    if right <= left {
        (u64::from(first) + 1).saturating_sub(u64::from(last))
    } else {
        (u64::from(last) + 1).saturating_sub(u64::from(first))
    }
}

fn part_digits(
    alloc: Global,
    leaf: Leaf,
    left: u32,
    right: u32,
    of: Boxed<Tree>,
    first: u32,
    last: u32,
) -> Result<Thing, Unfit>
    ensures { Gives (spec.digits_thing leaf of (spec.number_tree false (spec.part_low left right last)) (spec.part_width left right first last)) result }
{
    let low = number_tree(alloc, false, low_of(left, right, last))?;
    digits_thing(
        alloc,
        leaf,
        of,
        low,
        width_between(left, right, first, last),
    )
}

/// `of[first:last]` of an integral value by its declared range (11.5.1).
///
/// # Errors
///
/// `Breaks` with T2 where there are no digits or more than 64, with T8 where the operand is no integral value, and `OutOfMemory`.
pub fn part_of(alloc: Global, of: Thing, first: u32, last: u32) -> Result<Thing, Unfit>
    ensures { Gives (spec.part_of of first last) result }
{
    match of {
        Thing::Many { .. } => Err(Unfit::Breaks(Rule::T8)),
        Thing::Value { kind, tree } => match kind.into_inner() {
            Kind::One { leaf, left, right } => part_digits(
                alloc, leaf, left, right, tree, first, last,
            ),
            _ => Err(Unfit::Breaks(Rule::T8)),
        },
    }
}
