// Shifts (IEEE 1800-2017, 11.4.10).
ghost use Rattle.std.specs.Prelude.{◌≡◌, ◌+◌, ◌-◌, ◌*◌, ◌/◌, ◌%◌, ◌^◌, ◌<◌, ◌≤◌, ℕ, true, if◌then◌else◌, replicate};
ghost use Rattle.nt_value.specs.Arithmetic.{fill_of, moved_down, moved_up};
ghost use Rattle.nt_value.specs.Changes.{all_bits, extended_word};
ghost use Rattle.nt_value.specs.Digits.{IsLeaf, all_known, number_of};
ghost use Rattle.nt_value.specs.Operators.{binary_of, in_leaf};
ghost use Rattle.nt_value.specs.Stored.{bit_of};
ghost use Rattle.nt_value.specs.declared.digit.Digit.TheVariants.{X, Zero};
ghost use Rattle.nt_value.specs.declared.operator.Binary.TheVariants.{Shl, Shr, Sshr};

use crate::arithmetic::all_x;
use crate::bits::low_ones;
use crate::sizes::extended;
use crate::{Bits, Digit, Leaf};

// A word moved down by fewer places than its width, with a bit at each place above.
fn moved_word(word: u64, width: u8, amount: u64, bit: u64) -> u64
    requires high { width ≤ 64 }
    requires fits { word < 2 ^ width }
    requires inside { amount < width }
    ensures { result ≡ extended_word (word / 2 ^ amount) (width - amount) bit }
{
    extended(word >> amount, width - amount as u8, bit)
}

// The same bit at the lowest places.
fn spread(bit: bool, width: u8) -> u64
    requires low { 1 ≤ width }
    requires high { width ≤ 64 }
    ensures { result ≡ all_bits (bit_of bit) width }
{
    if bit { low_ones(width) } else { 0 }
}

impl Bits {
    // The same digit at all places. One of two states takes 0 for x and z.
    pub(crate) fn filled(leaf: Leaf, digit: Digit) -> Bits
        requires { IsLeaf leaf }
        ensures { result ≡ in_leaf leaf (replicate leaf.width digit) }
    {
        let ones = spread(digit.is_one_bit(), leaf.width);
        let unknown = spread(digit.is_unknown_bit(), leaf.width);
        Bits::fitted(leaf, ones, unknown)
    }

    fn up(self, amount: u64) -> Bits
        ensures { result ≡ in_leaf self.leaf (moved_up amount self.digits) }
    {
        if amount >= self.leaf.width as u64 {
            return Bits::filled(self.leaf, Digit::Zero);
        }
        Bits::fitted(self.leaf, self.ones << amount, self.unknown << amount)
    }

    fn down(self, amount: u64, fill: Digit) -> Bits
        ensures { result ≡ in_leaf self.leaf (moved_down fill amount self.digits) }
    {
        if amount >= self.leaf.width as u64 {
            return Bits::filled(self.leaf, fill);
        }
        let width = self.leaf.width;
        let ones = moved_word(self.ones, width, amount, fill.is_one_bit() as u64);
        let unknown = moved_word(self.unknown, width, amount, fill.is_unknown_bit() as u64);
        Bits::fitted(self.leaf, ones, unknown)
    }

    // `<<`
    pub(crate) fn shift_up(self, amount: Bits) -> Bits
        ensures { result ≡ binary_of Shl self amount }
    {
        if !amount.is_known() {
            return all_x(self.leaf);
        }
        self.up(amount.magnitude())
    }

    // `>>`
    pub(crate) fn shift_down(self, amount: Bits) -> Bits
        ensures { result ≡ binary_of Shr self amount }
    {
        if !amount.is_known() {
            return all_x(self.leaf);
        }
        self.down(amount.magnitude(), Digit::Zero)
    }

    // The digit that fills a signed shift.
    fn fill(self) -> Digit
        ensures { result ≡ fill_of self.leaf.signed self.digits }
    {
        if self.leaf.signed {
            self.digit(self.leaf.width - 1)
        } else {
            Digit::Zero
        }
    }

    // `>>>`
    pub(crate) fn shift_down_signed(self, amount: Bits) -> Bits
        ensures { result ≡ binary_of Sshr self amount }
    {
        if !amount.is_known() {
            return all_x(self.leaf);
        }
        self.down(amount.magnitude(), self.fill())
    }
}
