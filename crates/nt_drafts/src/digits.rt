// Digits of an operand by its declared range (IEEE 1800-2017, 11.5.1).
ghost use Rattle.std.specs.Prelude.{◌≡◌, ◌+◌, ◌-◌, ◌<◌, ◌≤◌, ◌^◌, ◌&&◌, ◌==◌, nat_lt, not, suc, IfOk};
ghost use Rattle.nt_design.specs.declared.tree.Tree.TheVariants as t;
ghost use Rattle.nt_typing.specs.Tables as spec;
ghost use Rattle.nt_value.specs.declared.operator.Binary.TheVariants.{Sub};

use crate::closing::{binary_tree, choose_tree, constant_tree};
use crate::operators::fitted;
use nt_const::Size;
use nt_design::{Tree, copy_tree};
use nt_value::{Binary, Bits};
use sqlite_items::Boxed;
use std::alloc::{AllocError, Global};

// A number of 64 digits, signed.
fn wide(four: bool) -> Size
    ensures { result ≡ spec.wide four }
{
    Size::of(64, true, four)
}

/// A constant of 64 digits.
pub(crate) fn number_tree(alloc: Global, four: bool, number: u64) -> Result<Boxed<Tree>, AllocError>
    ensures { IfOk result (λ tree. tree ≡ spec.number_tree four number) }
{
    constant_tree(alloc, Bits::number(wide(four).leaf(), number))
}

// An index as a number of 64 digits: extended by its own sign, and then read as signed.
fn widened(alloc: Global, size: Size, index: Boxed<Tree>) -> Result<Boxed<Tree>, AllocError>
    ensures { IfOk result (λ tree. tree ≡ spec.widened size index) }
{
    let four = size.leaf().four;
    if size.leaf().signed {
        return fitted(alloc, size, wide(four), index);
    }
    let unsigned = Size::of(64, false, four);
    let extended = fitted(alloc, size, unsigned, index)?;
    fitted(alloc, unsigned, wide(four), extended)
}

// Whether the index could be read as below 0 where it is far above.
fn is_guarded(wraps: bool, size: Size) -> bool
    ensures { result ≡ (wraps && (size.width == 64 && not size.signed)) }
{
    wraps && (size.leaf().width == 64 && !size.leaf().signed)
}

pub(crate) fn part_tree(
    alloc: Global,
    of: Boxed<Tree>,
    low: Boxed<Tree>,
    width: u8,
) -> Result<Boxed<Tree>, AllocError>
    ensures { IfOk result (λ tree. tree ≡ t.Part of low width) }
{
    Boxed::new(alloc, Tree::Part { of, low, width })
}

// Where digits begin, of an index whose highest digit is looked at first.
fn guard(
    alloc: Global,
    size: Size,
    index: Boxed<Tree>,
    low: Boxed<Tree>,
) -> Result<Boxed<Tree>, AllocError>
    ensures { IfOk result (λ tree. tree ≡ t.Choose (t.Part index (spec.number_tree size.four 63) 1) (spec.number_tree size.four (2 ^ 62)) low) }
{
    let four = size.leaf().four;
    let highest = number_tree(alloc, four, 63)?;
    let test = part_tree(alloc, index, highest, 1)?;
    let outside = number_tree(alloc, four, 1 << 62)?;
    choose_tree(alloc, test, outside, low)
}

fn copied(alloc: Global, tree: &Boxed<Tree>) -> Result<Boxed<Tree>, AllocError>
    ensures { IfOk result (λ copy. copy ≡ tree.now) }
{
    Boxed::new(alloc, copy_tree(alloc, tree.get())?)
}

fn below(
    alloc: Global,
    size: Size,
    index: Boxed<Tree>,
    down: u64,
) -> Result<Boxed<Tree>, AllocError>
    ensures { IfOk result (λ tree. tree ≡ t.Binary Sub (spec.widened size index) (spec.number_tree size.four down)) }
{
    let wide = widened(alloc, size, index)?;
    let number = number_tree(alloc, size.leaf().four, down)?;
    binary_tree(alloc, Binary::Sub, wide, number)
}

fn above(alloc: Global, size: Size, index: Boxed<Tree>, up: u64) -> Result<Boxed<Tree>, AllocError>
    ensures { IfOk result (λ tree. tree ≡ t.Binary Sub (spec.number_tree size.four up) (spec.widened size index)) }
{
    let number = number_tree(alloc, size.leaf().four, up)?;
    let wide = widened(alloc, size, index)?;
    binary_tree(alloc, Binary::Sub, number, wide)
}

// `index - down`
fn minus(
    alloc: Global,
    wraps: bool,
    size: Size,
    index: Boxed<Tree>,
    down: u64,
) -> Result<Boxed<Tree>, AllocError>
    ensures { IfOk result (λ tree. tree ≡ spec.minus wraps size index down) }
{
    if down == 0 {
        return Ok(index);
    }
    if is_guarded(wraps, size) {
        let copy = copied(alloc, &index)?;
        let low = below(alloc, size, copy, down)?;
        guard(alloc, size, index, low)
    } else {
        below(alloc, size, index, down)
    }
}

// `up - index`
fn from_top(
    alloc: Global,
    wraps: bool,
    size: Size,
    index: Boxed<Tree>,
    up: u64,
) -> Result<Boxed<Tree>, AllocError>
    ensures { IfOk result (λ tree. tree ≡ spec.from_top wraps size index up) }
{
    if is_guarded(wraps, size) {
        let copy = copied(alloc, &index)?;
        let low = above(alloc, size, copy, up)?;
        guard(alloc, size, index, low)
    } else {
        above(alloc, size, index, up)
    }
}

/// Where the digits `[index +: width]`, or `[index -: width]` where `up` is false, of a declared range begin.
pub(crate) fn indexed_low(
    alloc: Global,
    left: u32,
    right: u32,
    up: bool,
    width: u64,
    size: Size,
    index: Boxed<Tree>,
) -> Result<Boxed<Tree>, AllocError>
    requires some { 1 ≤ width }
    requires high { width ≤ 64 }
    ensures { IfOk result (λ tree. tree ≡ spec.indexed_low left right up width size index) }
{
    if right <= left {
        if up {
            minus(alloc, width > 1, size, index, u64::from(right))
        } else {
            minus(alloc, false, size, index, u64::from(right) + (width - 1))
        }
    } else if up {
        let top = (u64::from(right) + 1).wrapping_sub(width);
        from_top(alloc, width > 1, size, index, top)
    } else {
        from_top(alloc, false, size, index, u64::from(right))
    }
}
