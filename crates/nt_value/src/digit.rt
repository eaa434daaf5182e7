// A digit and the two bits that hold it.
ghost use Rattle.std.specs.Prelude.{◌≡◌, ◌↔◌, IsTrue};

/// A digit of a leaf: one of the four logic values of IEEE 1800-2017, 6.3.1.
#[derive(Clone, Copy, Debug, PartialEq, Eq)]
pub enum Digit {
    /// A logic zero.
    Zero,
    /// A logic one.
    One,
    /// An unknown value.
    X,
    /// A high impedance.
    Z,
}

impl Digit {
    ghost use Rattle.nt_value.specs.Digits.{is_known};
    ghost use Rattle.nt_value.specs.Logic.{digit_if, and_digit, not_digit, or_digit, xor_digit};
    ghost use Rattle.nt_value.specs.Stored.{digit_of, is_one_bit, is_unknown_bit};

    /// Whether the digit is 0 or 1.
    pub fn is_known(self) -> bool
        ensures { result ≡ is_known self }
    {
        match self {
            Digit::Zero | Digit::One => true,
            Digit::X | Digit::Z => false,
        }
    }

    // A digit by its bit in each of the two words.
    pub(crate) fn from_bits(one: u64, unknown: u64) -> Digit
        ensures { result ≡ digit_of one unknown }
    {
        match (one, unknown) {
            (0, 0) => Digit::Zero,
            (_, 0) => Digit::One,
            (0, _) => Digit::Z,
            _ => Digit::X,
        }
    }

    // Whether the bit in the word of ones is 1.
    pub(crate) fn is_one_bit(self) -> bool
        ensures { result ≡ is_one_bit self }
    {
        match self {
            Digit::One | Digit::X => true,
            Digit::Zero | Digit::Z => false,
        }
    }

    // Whether the bit in the word of unknown digits is 1.
    pub(crate) fn is_unknown_bit(self) -> bool
        ensures { result ≡ is_unknown_bit self }
    {
        match self {
            Digit::X | Digit::Z => true,
            Digit::Zero | Digit::One => false,
        }
    }

    // `~` of the digit.
    pub(crate) fn not(self) -> Digit
        ensures { result ≡ not_digit self }
    {
        match self {
            Digit::Zero => Digit::One,
            Digit::One => Digit::Zero,
            Digit::X | Digit::Z => Digit::X,
        }
    }

    // `&`: 0 where one is 0, 1 where both are 1, else x.
    pub(crate) fn and(self, other: Digit) -> Digit
        ensures { result ≡ and_digit self other }
    {
        match (self, other) {
            (Digit::Zero, _) | (_, Digit::Zero) => Digit::Zero,
            (Digit::One, Digit::One) => Digit::One,
            _ => Digit::X,
        }
    }

    // `|`: 1 where one is 1, 0 where both are 0, else x.
    pub(crate) fn or(self, other: Digit) -> Digit
        ensures { result ≡ or_digit self other }
    {
        match (self, other) {
            (Digit::One, _) | (_, Digit::One) => Digit::One,
            (Digit::Zero, Digit::Zero) => Digit::Zero,
            _ => Digit::X,
        }
    }

    // `^`: x where one is x or z, else 1 where they differ.
    pub(crate) fn xor(self, other: Digit) -> Digit
        ensures { result ≡ xor_digit self other }
    {
        match (self, other) {
            (Digit::Zero, Digit::Zero) | (Digit::One, Digit::One) => Digit::Zero,
            (Digit::Zero, Digit::One) | (Digit::One, Digit::Zero) => Digit::One,
            _ => Digit::X,
        }
    }

    // The digit of a test.
    pub(crate) fn from_test(holds: bool) -> Digit
        ensures { result ≡ digit_if holds }
    {
        if holds { Digit::One } else { Digit::Zero }
    }
}
