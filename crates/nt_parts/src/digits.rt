// Digits of one leaf.
ghost use Rattle.std.specs.Prelude.{◌≡◌, ◌≤◌, pos, negsuc, Some, None};
ghost use Rattle.nt_value.specs.Operators.{unsigned_leaf};
ghost use Rattle.nt_value.specs.Values.{default_leaf};
ghost use Rattle.nt_design.specs.Parts as parts;
ghost use Rattle.nt_parts.specs.Indices.{number_at};

use crate::Index;
use nt_value::{Bits, Leaf, part, put_part};

// Digits that are all outside.
fn outside(width: u8, of: Bits) -> Bits
    requires some { 1 ≤ width }
    requires few { width ≤ 64 }
    ensures { result ≡ default_leaf (unsigned_leaf width of.leaf.four) }
{
    Bits::default(Leaf {
        width,
        signed: false,
        four: of.leaf().four,
    })
}

// So many digits from one on.
fn part_from(low: u64, width: u8, of: Bits) -> Bits
    requires some { 1 ≤ width }
    requires few { width ≤ 64 }
    ensures { result ≡ parts.part_at (Some (pos low)) width of }
{
    of.has_digits();
    let there = of.width();
    let none = outside(width, of);
    if low >= u64::from(there) {
        return none;
    }
    let low = low as u8;
    let count = width.min(there - low);
    put_part(none, 0, part(of, low, count))
}

// So many digits, of which the lowest are below the least significant one: one more than `below`.
fn part_below(below: u64, width: u8, of: Bits) -> Bits
    requires some { 1 ≤ width }
    requires few { width ≤ 64 }
    ensures { result ≡ parts.part_at (Some (negsuc below)) width of }
{
    of.has_digits();
    let none = outside(width, of);
    if below >= u64::from(width - 1) {
        return none;
    }
    let first = below as u8 + 1;
    let count = of.width().min(width - first);
    put_part(none, first, part(of, 0, count))
}

/// A bit or part of a leaf, unsigned: x at each digit that is outside, or 0 in a leaf of two states (IEEE 1800-2017,
/// 11.5.1).
pub fn part_at(low: Index, width: u8, of: Bits) -> Bits
    requires some { 1 ≤ width }
    requires few { width ≤ 64 }
    ensures { result ≡ parts.part_at (number_at low) width of }
{
    match low {
        Index::Unknown => outside(width, of),
        Index::Up(low) => part_from(low, width, of),
        Index::Below(below) => part_below(below, width, of),
    }
}

// A leaf with digits replaced from one on.
fn with_from(low: u64, new: Bits, of: Bits) -> Bits
    ensures { result ≡ parts.with_part (Some (pos low)) new of }
{
    of.has_digits();
    new.has_digits();
    let there = of.width();
    if low >= u64::from(there) {
        return of;
    }
    let low = low as u8;
    let count = new.width().min(there - low);
    put_part(of, low, part(new, 0, count))
}

// A leaf with its lowest digits replaced by those that are left of others without the lowest: one more than `below`.
fn with_below(below: u64, new: Bits, of: Bits) -> Bits
    ensures { result ≡ parts.with_part (Some (negsuc below)) new of }
{
    of.has_digits();
    new.has_digits();
    let width = new.width();
    if below >= u64::from(width - 1) {
        return of;
    }
    let first = below as u8 + 1;
    let count = of.width().min(width - first);
    put_part(of, 0, part(new, first, count))
}

// A leaf as it is.
fn unchanged(of: Bits, new: Bits) -> Bits
    ensures { result ≡ parts.with_part None new of }
{
    of.has_digits();
    of
}

/// A bit or part of a leaf replaced: a write changes the digits inside alone (11.5.1).
pub fn with_part(low: Index, new: Bits, of: Bits) -> Bits
    ensures { result ≡ parts.with_part (number_at low) new of }
{
    match low {
        Index::Unknown => unchanged(of, new),
        Index::Up(low) => with_from(low, new, of),
        Index::Below(below) => with_below(below, new, of),
    }
}
