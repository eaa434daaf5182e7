// The digits of one leaf, in two words.
ghost use Rattle.std.specs.Prelude.{◌≡◌, ◌+◌, ◌-◌, ◌*◌, ◌<◌, ◌≤◌, ◌^◌, ◌↔◌, IsTrue, Some, false, length, slice_get, slice_set, true};
ghost use Rattle.nt_value.specs.Changes.{with_bit_at};
ghost use Rattle.nt_value.specs.Digits.{IsDigitOf, IsFilled, IsLeaf, all_known, is_top_one, number_of};
ghost use Rattle.nt_value.specs.Values.{binary, default_leaf, zero_leaf};

use crate::{Digit, Leaf};
use std::marker::Model;

/// A leaf with its digits, the least significant first.
// The lowest bits of the two words hold a digit: 0 is (0, 0), 1 is (1, 0), x is (1, 1) and z is
// (0, 1).
#[derive(Clone, Copy, Debug)]
pub struct Bits {
    pub(crate) leaf: Leaf,
    pub(crate) ones: u64,
    pub(crate) unknown: u64,
}

impl Model for Bits {
    ghost use Rattle.nt_value.specs.Digits.{LeafValue};

    ghost Value = { LeafValue };

    ghost use Rattle.nt_value.specs.Stored.{IsStored, seen_bits, stored_bits, stored_bits-seen_bits};

    ghost view = { seen_bits };

    ghost invariant = { IsStored };

    ghost inverse = { stored_bits };

    ghost inverse_ok = { stored_bits-seen_bits };
}

// The word whose lowest bits are 1.
pub(crate) fn low_ones(width: u8) -> u64
    requires low { 1 ≤ width }
    requires high { width ≤ 64 }
    ensures { result ≡ 2 ^ width - 1 }
{
    u64::MAX >> (64 - width)
}

// The word with one bit changed.
fn with_bit(word: u64, at: u8, bit: bool) -> u64
    requires { at < 64 }
    ensures { result ≡ with_bit_at word at bit }
{
    if bit {
        word | (1 << at)
    } else {
        word & !(1 << at)
    }
}

impl Bits {
    /// All digits 0.
    pub fn zero(leaf: Leaf) -> Bits
        requires { IsLeaf leaf }
        ensures { result ≡ zero_leaf leaf }
    {
        Bits {
            leaf,
            ones: 0,
            unknown: 0,
        }
    }

    /// All digits x in a leaf of four states, and 0 in one of two.
    pub fn default(leaf: Leaf) -> Bits
        requires { IsLeaf leaf }
        ensures { result ≡ default_leaf leaf }
    {
        if !leaf.four {
            return Bits::zero(leaf);
        }
        let ones = low_ones(leaf.width);
        Bits {
            leaf,
            ones,
            unknown: ones,
        }
    }

    /// The digits of a number.
    pub fn number(leaf: Leaf, number: u64) -> Bits
        requires leaf { IsLeaf leaf }
        requires fits { number < 2 ^ leaf.width }
        ensures value { result ≡ record { leaf = leaf; digits = binary leaf.width number } }
        ensures known { all_known result.digits ≡ true }
        ensures number { number_of result.digits ≡ number }
    {
        Bits {
            leaf,
            ones: number,
            unknown: 0,
        }
    }

    /// What the leaf is.
    pub fn leaf(self) -> Leaf
        ensures value { result ≡ self.leaf }
        ensures valid { IsLeaf result }
    {
        self.leaf
    }

    /// How many digits there are.
    pub fn width(self) -> u8
        ensures value { result ≡ self.leaf.width }
        ensures whole { length self.digits ≡ result }
        ensures some { 1 ≤ result }
        ensures within { result ≤ 64 }
    {
        self.leaf.width
    }

    /// The digit at a place, counted from the least significant one.
    pub fn digit(self, at: u8) -> Digit
        requires { at < self.leaf.width }
        ensures { slice_get self.digits at ≡ Some result }
    {
        Digit::from_bits(self.ones >> at & 1, self.unknown >> at & 1)
    }

    /// The same leaf with one digit changed.
    pub fn with_digit(self, at: u8, digit: Digit) -> Bits
        requires within { at < self.leaf.width }
        requires fits { IsDigitOf self.leaf digit }
        ensures { result ≡ record self { digits = slice_set self.digits at digit } }
    {
        Bits {
            leaf: self.leaf,
            ones: with_bit(self.ones, at, digit.is_one_bit()),
            unknown: with_bit(self.unknown, at, digit.is_unknown_bit()),
        }
    }

    /// Whether two leaves are equal, digits too.
    pub fn is_same(self, other: Bits) -> bool
        ensures { IsTrue result ↔ (self ≡ other) }
    {
        if !self.leaf.is_same(other.leaf) {
            return false;
        }
        if self.ones != other.ones {
            return false;
        }
        self.unknown == other.unknown
    }

    /// Does nothing. It says that there are as many digits as the leaf is wide, and in two states 0 and 1 alone.
    pub fn has_digits(self)
        ensures { IsFilled self }
    {
        let _width = self.width();
        let _known = self.is_known();
    }

    /// Whether no digit is x or z.
    pub fn is_known(self) -> bool
        ensures value { result ≡ all_known self.digits }
        ensures two { self.leaf.four ≡ false → IsTrue result }
    {
        self.unknown == 0
    }

    /// The number that the digits write in base 2.
    pub fn magnitude(self) -> u64
        requires { all_known self.digits ≡ true }
        ensures value { result ≡ number_of self.digits }
        ensures fits { result < 2 ^ self.leaf.width }
    {
        self.ones
    }

    // Whether the most significant digit is 1.
    pub(crate) fn is_top_one(self) -> bool
        requires { all_known self.digits ≡ true }
        ensures { result ≡ is_top_one self.digits }
    {
        (self.ones >> (self.leaf.width - 1)) == 1
    }

    // What is missing of the number to the next power of 2.
    pub(crate) fn complement(self) -> u64
        requires known { all_known self.digits ≡ true }
        requires top { is_top_one self.digits ≡ true }
        ensures { result ≡ 2 ^ self.leaf.width - number_of self.digits }
    {
        low_ones(self.leaf.width) - self.ones + 1
    }
}
