// The arithmetic operators and the comparisons, on words.
ghost use Rattle.std.specs.Prelude.{◌≡◌, ◌&&◌, if◌then◌else◌, int_le, int_lt, neg_ℤ, pos, replicate, true, unsigned_abs};
ghost use Rattle.nt_value.specs.Arithmetic.{low_digits};
ghost use Rattle.nt_value.specs.Digits.{IsLeaf, all_known, is_top_one};
ghost use Rattle.nt_value.specs.Logic.{digit_if};
ghost use Rattle.nt_value.specs.Operators.{binary_of, both_known, can_divide, in_leaf, number, unary_of};
ghost use Rattle.nt_value.specs.declared.digit.Digit.TheVariants.{X};
ghost use Rattle.nt_value.specs.declared.operator.Binary.TheVariants.{Add, Div, Mul, Rem, Sub};
ghost use Rattle.nt_value.specs.declared.operator.Unary.TheVariants.{Minus, Plus};

use crate::bits::low_ones;
use crate::{Bits, Digit, Leaf};

// All digits x, or 0 in a leaf of two states.
pub(crate) fn all_x(leaf: Leaf) -> Bits
    requires { IsLeaf leaf }
    ensures { result ≡ in_leaf leaf (replicate leaf.width X) }
{
    Bits::default(leaf)
}

// The lowest digits of a number.
pub(crate) fn wrapped(leaf: Leaf, word: u64) -> Bits
    requires { IsLeaf leaf }
    ensures { result ≡ in_leaf leaf (low_digits leaf.width (pos word)) }
{
    Bits {
        leaf,
        ones: word & low_ones(leaf.width),
        unknown: 0,
    }
}

// The lowest digits of a number below 0.
fn negated(leaf: Leaf, word: u64) -> Bits
    requires { IsLeaf leaf }
    ensures { result ≡ in_leaf leaf (low_digits leaf.width (neg_ℤ (pos word))) }
{
    wrapped(leaf, 0_u64.wrapping_sub(word))
}

// The lowest digits of a number with its sign.
fn with_sign(leaf: Leaf, negative: bool, word: u64) -> Bits
    requires { IsLeaf leaf }
    ensures { result ≡ in_leaf leaf
        (low_digits leaf.width (if negative then neg_ℤ (pos word) else pos word)) }
{
    if negative {
        return negated(leaf, word);
    }
    wrapped(leaf, word)
}

impl Bits {
    // Whether no digit of the two is x or z.
    pub(crate) fn is_known_with(self, other: Bits) -> bool
        ensures { result ≡ both_known self other }
    {
        self.is_known() && other.is_known()
    }

    // `+` of one operand.
    pub(crate) fn plus(self) -> Bits
        ensures { result ≡ unary_of Plus self }
    {
        if !self.is_known() {
            return all_x(self.leaf);
        }
        wrapped(self.leaf, self.ones)
    }

    // `-` of one operand.
    pub(crate) fn negate(self) -> Bits
        ensures { result ≡ unary_of Minus self }
    {
        if !self.is_known() {
            return all_x(self.leaf);
        }
        wrapped(self.leaf, 0_u64.wrapping_sub(self.ones))
    }

    // `+`, modulo 2 to the power of the width.
    pub(crate) fn add(self, other: Bits) -> Bits
        requires { self.leaf ≡ other.leaf }
        ensures { result ≡ binary_of Add self other }
    {
        if !self.is_known_with(other) {
            return all_x(self.leaf);
        }
        wrapped(self.leaf, self.ones.wrapping_add(other.ones))
    }

    // `-`, modulo 2 to the power of the width.
    pub(crate) fn subtract(self, other: Bits) -> Bits
        requires { self.leaf ≡ other.leaf }
        ensures { result ≡ binary_of Sub self other }
    {
        if !self.is_known_with(other) {
            return all_x(self.leaf);
        }
        wrapped(self.leaf, self.ones.wrapping_sub(other.ones))
    }

    // `*`, modulo 2 to the power of the width.
    pub(crate) fn multiply(self, other: Bits) -> Bits
        requires { self.leaf ≡ other.leaf }
        ensures { result ≡ binary_of Mul self other }
    {
        if !self.is_known_with(other) {
            return all_x(self.leaf);
        }
        wrapped(self.leaf, self.ones.wrapping_mul(other.ones))
    }

    // Whether no digit of the two is x or z, and the second isn't 0.
    fn can_divide(self, other: Bits) -> bool
        ensures { result ≡ can_divide self other }
    {
        self.is_known_with(other) && other.magnitude() != 0
    }

    // Whether the number is below 0.
    fn is_negative(self) -> bool
        requires { all_known self.digits ≡ true }
        ensures { result ≡ self.leaf.signed && is_top_one self.digits }
    {
        self.leaf.signed && self.is_top_one()
    }

    // The number without its sign.
    fn absolute(self) -> u64
        requires { all_known self.digits ≡ true }
        ensures { result ≡ unsigned_abs (number self) }
    {
        let ones = self.ones;
        if self.is_negative() {
            return self.complement();
        }
        ones
    }

    // `/`, rounded toward 0.
    pub(crate) fn divide(self, other: Bits) -> Bits
        requires { self.leaf ≡ other.leaf }
        ensures { result ≡ binary_of Div self other }
    {
        if !self.can_divide(other) {
            return all_x(self.leaf);
        }
        let negative = self.is_negative() != other.is_negative();
        with_sign(self.leaf, negative, self.absolute() / other.absolute())
    }

    // `%`, with the sign of the first operand.
    pub(crate) fn remainder(self, other: Bits) -> Bits
        requires { self.leaf ≡ other.leaf }
        ensures { result ≡ binary_of Rem self other }
    {
        if !self.can_divide(other) {
            return all_x(self.leaf);
        }
        with_sign(
            self.leaf,
            self.is_negative(),
            self.absolute() % other.absolute(),
        )
    }

    // Whether the number is less than another.
    fn is_below(self, other: Bits) -> bool
        requires leaf { self.leaf ≡ other.leaf }
        requires known { both_known self other ≡ true }
        ensures { result ≡ int_lt (number self) (number other) }
    {
        let negative = self.is_negative();
        if negative != other.is_negative() {
            return negative;
        }
        self.ones < other.ones
    }

    // The digit of `<`.
    pub(crate) fn less(self, other: Bits) -> Digit
        requires { self.leaf ≡ other.leaf }
        ensures { result
            ≡ (if both_known self other then digit_if (int_lt (number self) (number other)) else X) }
    {
        if !self.is_known_with(other) {
            return Digit::X;
        }
        Digit::from_test(self.is_below(other))
    }

    // The digit of `<=`.
    pub(crate) fn less_or_equal(self, other: Bits) -> Digit
        requires { self.leaf ≡ other.leaf }
        ensures { result
            ≡ (if both_known self other then digit_if (int_le (number self) (number other)) else X) }
    {
        if !self.is_known_with(other) {
            return Digit::X;
        }
        Digit::from_test(!other.is_below(self))
    }

    // The digit of `>`.
    pub(crate) fn greater(self, other: Bits) -> Digit
        requires { self.leaf ≡ other.leaf }
        ensures { result
            ≡ (if both_known self other then digit_if (int_lt (number other) (number self)) else X) }
    {
        other.less(self)
    }

    // The digit of `>=`.
    pub(crate) fn greater_or_equal(self, other: Bits) -> Digit
        requires { self.leaf ≡ other.leaf }
        ensures { result
            ≡ (if both_known self other then digit_if (int_le (number other) (number self)) else X) }
    {
        other.less_or_equal(self)
    }
}
