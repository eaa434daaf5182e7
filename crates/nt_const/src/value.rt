// Values that need no other expression.
ghost use Rattle.std.specs.Prelude.{◌≡◌, ◌≤◌, ◌<◌, ◌-◌, ◌^◌, ◌↔◌, true, false, IsTrue, Some};
ghost use Rattle.nt_value.specs.Digits.{all_known, is_one as one_digit};
ghost use Rattle.nt_const.specs.Tables.{Counts, added, by_highest as by_highest_of, count_of, depth as depth_of, highest as highest_of, indexed_of, is_negative as negative, literal_in, outside as outside_of, spreads as spreads_of, taken as taken_of, taken_below as taken_below_of, times, width_of as asked};

use crate::size::{Size, signed_as};
use nt_value::{Bits, Digit, Leaf, Literal, concat, part, put_part, resize};

// The most significant digit.
fn highest(a: Bits) -> Digit
    ensures { result ≡ highest_of a }
{
    a.digit(a.width() - 1)
}

// Digits extended by the most significant one, whatever the sign.
fn by_highest(a: Bits, to: Size) -> Bits
    ensures { result ≡ by_highest_of a to }
{
    resize(resize(a, signed_as(to, true).leaf()), to.leaf())
}

fn spreads(value: &Literal) -> bool
    ensures { result ≡ spreads_of value.now }
{
    if value.fill {
        return true;
    }
    if value.sized {
        return false;
    }
    if value.bits.leaf().signed {
        return false;
    }
    !highest(value.bits).is_known()
}

/// The value of a literal in a context (IEEE 1800-2017, 5.7.1, 11.8.2).
pub fn literal_at(value: &Literal, context: Size) -> Bits
    ensures { result ≡ literal_in value.now context }
{
    let bits = value.bits;
    if spreads(value) {
        by_highest(bits, context)
    } else {
        resize(bits, context.leaf())
    }
}

fn is_one(digit: Digit) -> bool
    ensures { result ≡ one_digit digit }
{
    match digit {
        Digit::One => true,
        Digit::Zero | Digit::X | Digit::Z => false,
    }
}

// Whether a number is below 0.
fn is_negative(a: Bits) -> bool
    ensures { result ≡ negative a }
{
    if a.leaf().signed {
        is_one(highest(a))
    } else {
        false
    }
}

/// Whether a value is a bound or count: known, not below 0, and below 2^32.
pub fn counts(a: Bits) -> bool
    ensures { IsTrue result ↔ Counts a }
{
    if !a.is_known() {
        return false;
    }
    if is_negative(a) {
        return false;
    }
    a.magnitude() <= u64::from(u32::MAX)
}

/// The width that a known value asks for: below 0 it is none, as 0 is.
pub fn width_of(a: Bits) -> u64
    requires known { all_known a.digits ≡ true }
    ensures { result ≡ asked a }
{
    if is_negative(a) { 0 } else { a.magnitude() }
}

// All digits outside an operand.
fn outside(a: Bits, width: u8) -> Bits
    requires some { 1 ≤ width }
    requires high { width ≤ 64 }
    ensures { result ≡ outside_of a width }
{
    Bits::default(Leaf {
        width,
        signed: false,
        four: a.leaf().four,
    })
}

// The digits from a place on.
pub(crate) fn taken(a: Bits, low: u64, width: u8) -> Bits
    requires some { 1 ≤ width }
    requires high { width ≤ 64 }
    ensures { result ≡ taken_of a low width }
{
    let all = outside(a, width);
    if low < a.width() as u64 {
        let low = low as u8;
        let size = width.min(a.width() - low);
        put_part(all, 0, part(a, low, size))
    } else {
        all
    }
}

// The digits from a place on that lies below the lowest digit.
fn taken_below(a: Bits, below: u64, width: u8) -> Bits
    requires some { 1 ≤ width }
    requires high { width ≤ 64 }
    ensures { result ≡ taken_below_of a below width }
{
    let all = outside(a, width);
    if below < width as u64 {
        let below = below as u8;
        let size = (width - below).min(a.width());
        put_part(all, below, part(a, 0, size))
    } else {
        all
    }
}

// How far a number is below 0.
fn depth(a: Bits) -> u64
    requires known { all_known a.digits ≡ true }
    requires below { negative a ≡ true }
    ensures { result ≡ depth_of a }
{
    low_ones(a.width()) - a.magnitude() + 1
}

// The word whose lowest bits are 1.
fn low_ones(width: u8) -> u64
    requires low { 1 ≤ width }
    requires high { width ≤ 64 }
    ensures { result ≡ 2 ^ width - 1 }
{
    u64::MAX >> (64 - width)
}

// The digits from an index up, or down to one.
pub(crate) fn indexed(up: bool, a: Bits, base: Bits, width: u8) -> Bits
    requires some { 1 ≤ width }
    requires high { width ≤ 64 }
    ensures { result ≡ indexed_of up a base width }
{
    if !base.is_known() {
        return outside(a, width);
    }
    if up {
        indexed_up(a, base, width)
    } else {
        indexed_down(a, base, width)
    }
}

fn indexed_up(a: Bits, base: Bits, width: u8) -> Bits
    requires known { all_known base.digits ≡ true }
    requires some { 1 ≤ width }
    requires high { width ≤ 64 }
    ensures { result ≡ indexed_of true a base width }
{
    if is_negative(base) {
        taken_below(a, depth(base), width)
    } else {
        taken(a, base.magnitude(), width)
    }
}

fn indexed_down(a: Bits, base: Bits, width: u8) -> Bits
    requires known { all_known base.digits ≡ true }
    requires some { 1 ≤ width }
    requires high { width ≤ 64 }
    ensures { result ≡ indexed_of false a base width }
{
    if is_negative(base) {
        return outside(a, width);
    }
    let top = base.magnitude();
    let below = (width - 1) as u64;
    if below <= top {
        taken(a, top - below, width)
    } else {
        taken_below(a, below - top, width)
    }
}

// One more operand of a concatenation.
pub(crate) fn add(start: Option<Bits>, a: Bits) -> Option<Bits>
    ensures { result ≡ added start a }
{
    match start {
        None => Some(a),
        Some(b) => Some(add_to(b, a)),
    }
}

fn add_to(start: Bits, a: Bits) -> Bits
    ensures { Some result ≡ added (Some start) a }
{
    if start.width() + a.width() <= 64 {
        concat(start, a)
    } else {
        start
    }
}

// The same so many times.
pub(crate) fn repeat(count: u64, a: Bits) -> Option<Bits>
    ensures { result ≡ times count a }
{
    let mut all = None;
    for _i in 0..count {
        all = add(all, a);
    }
    all
}
