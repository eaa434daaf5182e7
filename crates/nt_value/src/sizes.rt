// Leaves of other widths: resizing, parts and concatenation.
ghost use Rattle.std.specs.Prelude.{◌≡◌, ◌+◌, ◌-◌, ◌*◌, ◌/◌, ◌%◌, ◌^◌, ◌<◌, ◌≤◌, ℕ};
ghost use Rattle.nt_value.specs.Digits.{IsLeaf};
ghost use Rattle.nt_value.specs.Operators.{concat_of, in_leaf, part_of, put_part_of, resize_of};
ghost use Rattle.nt_value.specs.Stored.{digits_of};
ghost use Rattle.nt_value.specs.Changes.{extended_word, put_word, top_bit};

use crate::bits::low_ones;
use crate::{Bits, Leaf};

impl Bits {
    // The lowest digits of two words in a leaf. One of two states takes 0 for x and z.
    pub(crate) fn fitted(leaf: Leaf, ones: u64, unknown: u64) -> Bits
        requires { IsLeaf leaf }
        ensures { result ≡ in_leaf leaf (digits_of leaf.width ones unknown) }
    {
        let low = low_ones(leaf.width);
        Bits::from_words(leaf, ones & low, unknown & low)
    }
}

// The bit that extends a word.
fn top_bit(word: u64, width: u8, signed: bool) -> u64
    requires low { 1 ≤ width }
    requires high { width ≤ 64 }
    requires fits { word < 2 ^ width }
    ensures value { result ≡ top_bit signed word width }
    ensures bit { result < 2 }
{
    if signed { word >> (width - 1) } else { 0 }
}

// The word with a bit at each place from the width on.
pub(crate) fn extended(word: u64, width: u8, bit: u64) -> u64
    requires low { 1 ≤ width }
    requires high { width ≤ 64 }
    requires fits { word < 2 ^ width }
    ensures { result ≡ extended_word word width bit }
{
    if bit == 0 {
        word
    } else {
        word | !low_ones(width)
    }
}

/// The digits at another leaf: the low ones where it is narrower. Where it is wider they are extended by the most
/// significant digit if the new leaf is signed, else by 0. A new leaf of two states takes 0 for x and z (IEEE 1800-2017,
/// 10.7, 11.8.2).
pub fn resize(a: Bits, to: Leaf) -> Bits
    requires { IsLeaf to }
    ensures { result ≡ resize_of a to }
{
    let width = a.leaf.width;
    let ones = extended(a.ones, width, top_bit(a.ones, width, to.signed));
    let unknown = extended(a.unknown, width, top_bit(a.unknown, width, to.signed));
    Bits::fitted(to, ones, unknown)
}

/// The digits from `low` on, as many as `width`: a part select inside its operand, unsigned (IEEE 1800-2017, 11.5.1).
pub fn part(a: Bits, low: u8, width: u8) -> Bits
    requires some { 1 ≤ width }
    requires inside { low + width ≤ a.leaf.width }
    ensures { result ≡ part_of a low width }
{
    let leaf = Leaf {
        width,
        signed: false,
        four: a.leaf.four,
    };
    let mask = low_ones(width);
    Bits {
        leaf,
        ones: a.ones >> low & mask,
        unknown: a.unknown >> low & mask,
    }
}

// One word above the lowest bits of another.
fn packed(high: u64, width: u8, low: u64) -> u64
    requires width { width < 64 }
    requires high { high < 2 ^ (64 - width) }
    requires low { low < 2 ^ width }
    ensures { result ≡ low + 2 ^ width * high }
{
    high << width | low
}

// The word with other bits from `low` on, as many as `width`.
fn put_word(word: u64, low: u8, width: u8, part: u64) -> u64
    requires some { 1 ≤ width }
    requires inside { low + width ≤ 64 }
    requires fits { part < 2 ^ width }
    ensures { result ≡ put_word word low width part }
{
    let below = word % (1 << low);
    let end = low + width;
    if end == 64 {
        return packed(part, low, below);
    }
    packed(packed(word >> end, width, part), low, below)
}

/// The leaf with the digits of `b` from `low` on. A leaf of two states takes 0 for x and z.
pub fn put_part(a: Bits, low: u8, b: Bits) -> Bits
    requires { low + b.leaf.width ≤ a.leaf.width }
    ensures { result ≡ put_part_of a low b }
{
    let ones = put_word(a.ones, low, b.leaf.width, b.ones);
    let unknown = put_word(a.unknown, low, b.leaf.width, b.unknown);
    Bits::fitted(a.leaf, ones, unknown)
}

/// A concatenation: the digits of `a` above those of `b`, unsigned (IEEE 1800-2017, 11.4.12).
pub fn concat(a: Bits, b: Bits) -> Bits
    requires { a.leaf.width + b.leaf.width ≤ 64 }
    ensures { result ≡ concat_of a b }
{
    let leaf = Leaf {
        width: a.leaf.width + b.leaf.width,
        signed: false,
        four: a.leaf.four | b.leaf.four,
    };
    Bits {
        leaf,
        ones: packed(a.ones, b.leaf.width, b.ones),
        unknown: packed(a.unknown, b.leaf.width, b.unknown),
    }
}
