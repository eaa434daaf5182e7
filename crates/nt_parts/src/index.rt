// Indices and where they lead.
ghost use Rattle.std.specs.Prelude.{◌≡◌, ◌<◌, ◌≤◌, IfSome, true, negsuc};
ghost use Rattle.nt_value.specs.Arithmetic.{integer_of};
ghost use Rattle.nt_value.specs.Digits.{all_known, is_top_one};
ghost use Rattle.nt_design.specs.Parts as parts;
ghost use Rattle.nt_design.specs.Statements as statements;
ghost use Rattle.nt_parts.specs.Indices.{number_at};

use crate::only_of;
use nt_value::{Bits, Digit, Value};

/// The whole number that an index is.
#[derive(Clone, Copy, Debug, PartialEq, Eq)]
pub enum Index {
    /// None, for a digit is x or z.
    Unknown,
    /// This number.
    Up(u64),
    /// So far below -1: `Below(0)` is -1.
    Below(u64),
}

// Whether the most significant digit is 1.
fn is_top_one(bits: Bits) -> bool
    requires { all_known bits.digits ≡ true }
    ensures { result ≡ is_top_one bits.digits }
{
    match bits.digit(bits.width() - 1) {
        Digit::One => true,
        _ => false,
    }
}

// How far below -1 the number is that digits write in two's complement.
fn below(bits: Bits) -> u64
    requires known { all_known bits.digits ≡ true }
    requires top { is_top_one bits.digits ≡ true }
    ensures { negsuc result ≡ integer_of true bits.digits }
{
    let ones = u64::MAX >> (64 - bits.width());
    ones - bits.magnitude()
}

/// The number of a value of one leaf, or that there is none where a digit is x or z.
pub fn index_of(value: &Value) -> Index
    ensures { number_at result ≡ parts.number_in value.now }
{
    let bits = only_of(value);
    if !bits.is_known() {
        return Index::Unknown;
    }
    if bits.leaf().signed && is_top_one(bits) {
        return Index::Below(below(bits));
    }
    Index::Up(bits.magnitude())
}

/// Where an element stands, counted from the leftmost as 0: none past the bounds, and none for an index with x or z (IEEE
/// 1800-2017, 7.4.6).
pub fn position_of(low: u32, size: usize, up: bool, index: Index) -> Option<usize>
    ensures value { result ≡ parts.position_of low size up (number_at index) }
    ensures within { IfSome result (λ position. position < size) }
{
    let Index::Up(index) = index else {
        return None;
    };
    let low = u64::from(low);
    if index < low {
        return None;
    }
    let from_low = (index - low) as usize;
    if from_low >= size {
        return None;
    }
    if up {
        Some(from_low)
    } else {
        Some(size - 1 - from_low)
    }
}

/// The count of a `repeat`: 0 where it has x or z (12.7.2), or is below 0, which is this project's rule.
pub fn count_of(count: Index) -> u64
    ensures { result ≡ statements.count_of (number_at count) }
{
    match count {
        Index::Up(count) => count,
        Index::Unknown | Index::Below(_) => 0,
    }
}
