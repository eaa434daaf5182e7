// Operators on the digits at the same place, and what all digits of a leaf together answer.
ghost use Rattle.std.specs.Prelude.{◌≡◌, ◌<◌, ◌^◌};
ghost use Rattle.nt_value.specs.Digits.{IsLeaf};
ghost use Rattle.nt_value.specs.Logic.{and_digit, equal_of, is_same_digits as same_digits, reduced, merge_digit, or_digit, pairwise, truth_of, xor_digit};
ghost use Rattle.nt_value.specs.Operators.{binary_of, in_leaf, merge_of, one_digit as one_digit_of, unary_of, wire_of};
ghost use Rattle.nt_value.specs.Stored.{digits_of};
ghost use Rattle.nt_value.specs.declared.digit.Digit.TheVariants.{One, Zero};
ghost use Rattle.nt_value.specs.declared.operator.Binary.TheVariants.{And, Or, Xnor, Xor};
ghost use Rattle.nt_value.specs.declared.operator.Unary.TheVariants.{Not};

use crate::bits::low_ones;
use crate::{Bits, Digit, Leaf};

/// A leaf as a test (IEEE 1800-2017, 11.4.7 and 12.4): 1 where some digit is 1, x where none is and
/// one is x or z, and else 0.
pub fn truth(a: Bits) -> Digit
    ensures { result ≡ truth_of a.digits }
{
    if a.ones & !a.unknown != 0 {
        return Digit::One;
    }
    if a.unknown != 0 {
        return Digit::X;
    }
    Digit::Zero
}

/// The value of `test ? a : b` (IEEE 1800-2017, 11.4.11): `a` on a test that is 1, and `b` on 0. On
/// an unknown test the known digits stay that are equal in `a` and `b`. All others are x, or 0 in a
/// leaf of two states.
pub fn merge(test: Bits, a: Bits, b: Bits) -> Bits
    requires { a.leaf ≡ b.leaf }
    ensures { result ≡ merge_of test a b }
{
    match truth(test) {
        Digit::One => a,
        Digit::Zero => b,
        Digit::X | Digit::Z => a.merged(b),
    }
}

/// The value of a wire with two drivers (IEEE 1800-2017, 6.6.1): z yields to the other digit, equal
/// digits stay, and all else is x, or 0 in a leaf of two states.
pub fn wire_pair(a: Bits, b: Bits) -> Bits
    requires { a.leaf ≡ b.leaf }
    ensures { result ≡ wire_of a b }
{
    // A driver pulls up at 1 and x, where its bit of `ones` is 1. It doesn't pull down at 1 and z,
    // where its two bits differ.
    let ones = a.ones | b.ones;
    let unknown = ones ^ ((a.ones ^ a.unknown) & (b.ones ^ b.unknown));
    Bits::from_words(a.leaf, ones, unknown)
}

// An unsigned leaf of one digit, 0 for x and z in two states.
pub(crate) fn one_digit(four: bool, digit: Digit) -> Bits
    ensures { result ≡ one_digit_of four digit }
{
    let leaf = Leaf {
        width: 1,
        signed: false,
        four,
    };
    let one = u64::from(digit.is_one_bit());
    let unknown = u64::from(digit.is_unknown_bit());
    Bits::from_words(leaf, one, unknown)
}

impl Bits {
    // The digits of two words, 0 for x and z in a leaf of two states.
    pub(crate) fn from_words(leaf: Leaf, ones: u64, unknown: u64) -> Bits
        requires leaf { IsLeaf leaf }
        requires ones { ones < 2 ^ leaf.width }
        requires unknown { unknown < 2 ^ leaf.width }
        ensures { result ≡ in_leaf leaf (digits_of leaf.width ones unknown) }
    {
        if leaf.four {
            return Bits {
                leaf,
                ones,
                unknown,
            };
        }
        Bits {
            leaf,
            ones: ones & !unknown,
            unknown: 0,
        }
    }

    // `~` of each digit.
    pub(crate) fn invert(self) -> Bits
        ensures { result ≡ unary_of Not self }
    {
        let ones = (self.ones ^ low_ones(self.leaf.width)) | self.unknown;
        Bits::from_words(self.leaf, ones, self.unknown)
    }

    // `&` of the digits at the same place.
    pub(crate) fn and(self, other: Bits) -> Bits
        requires { self.leaf ≡ other.leaf }
        ensures { result ≡ binary_of And self other }
    {
        let ones = (self.ones | self.unknown) & (other.ones | other.unknown);
        Bits::from_words(self.leaf, ones, ones & (self.unknown | other.unknown))
    }

    // `|` of the digits at the same place.
    pub(crate) fn or(self, other: Bits) -> Bits
        requires { self.leaf ≡ other.leaf }
        ensures { result ≡ binary_of Or self other }
    {
        let ones = self.ones | self.unknown | other.ones | other.unknown;
        let known_ones = (self.ones & !self.unknown) | (other.ones & !other.unknown);
        Bits::from_words(self.leaf, ones, ones ^ known_ones)
    }

    // `^` of the digits at the same place.
    pub(crate) fn xor(self, other: Bits) -> Bits
        requires { self.leaf ≡ other.leaf }
        ensures { result ≡ binary_of Xor self other }
    {
        let unknown = self.unknown | other.unknown;
        Bits::from_words(self.leaf, (self.ones ^ other.ones) | unknown, unknown)
    }

    // `~^` of the digits at the same place.
    pub(crate) fn xnor(self, other: Bits) -> Bits
        requires { self.leaf ≡ other.leaf }
        ensures { result ≡ binary_of Xnor self other }
    {
        let unknown = self.unknown | other.unknown;
        let ones = self.ones ^ other.ones ^ low_ones(self.leaf.width);
        Bits::from_words(self.leaf, ones | unknown, unknown)
    }

    // The known digits that are equal in both, and x for all others.
    fn merged(self, other: Bits) -> Bits
        requires { self.leaf ≡ other.leaf }
        ensures { result ≡ in_leaf self.leaf (pairwise merge_digit self.digits other.digits) }
    {
        let unknown = (self.ones ^ other.ones) | self.unknown | other.unknown;
        Bits::from_words(self.leaf, self.ones | unknown, unknown)
    }

    // 0 where two known digits differ, else x where a digit is x or z, and else 1.
    pub(crate) fn equality(self, other: Bits) -> Digit
        requires { self.leaf ≡ other.leaf }
        ensures { result ≡ equal_of self.digits other.digits }
    {
        let unknown = self.unknown | other.unknown;
        if (self.ones ^ other.ones) & !unknown != 0 {
            return Digit::Zero;
        }
        if unknown != 0 {
            return Digit::X;
        }
        Digit::One
    }

    // Whether all digits are the same, x and z too.
    pub(crate) fn is_same_digits(self, other: Bits) -> bool
        requires { self.leaf ≡ other.leaf }
        ensures { result ≡ same_digits self.digits other.digits }
    {
        if self.ones != other.ones {
            return false;
        }
        self.unknown == other.unknown
    }

    // All digits joined by `&`.
    pub(crate) fn reduce_and(self) -> Digit
        ensures { result ≡ reduced and_digit One self.digits }
    {
        if self.ones | self.unknown != low_ones(self.leaf.width) {
            return Digit::Zero;
        }
        if self.unknown != 0 {
            return Digit::X;
        }
        Digit::One
    }

    // All digits joined by `|`.
    pub(crate) fn reduce_or(self) -> Digit
        ensures { result ≡ reduced or_digit Zero self.digits }
    {
        truth(self)
    }

    // All digits joined by `^`.
    pub(crate) fn reduce_xor(self) -> Digit
        ensures { result ≡ reduced xor_digit Zero self.digits }
    {
        if self.unknown != 0 {
            return Digit::X;
        }
        if self.ones.count_ones() % 2 == 0 {
            return Digit::Zero;
        }
        Digit::One
    }
}
