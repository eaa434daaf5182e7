// What a leaf of a type is.
ghost use Rattle.std.specs.Prelude.{◌≡◌, ◌↔◌, IsTrue};

/// How many digits a leaf may have (this project's limit).
pub const WIDEST: u8 = 64;

/// A leaf of a type: its width of 1 to 64 digits, whether it is signed, and whether it has four
/// states.
#[derive(Clone, Copy, Debug, PartialEq, Eq)]
pub struct Leaf {
    pub width: u8,
    pub signed: bool,
    pub four: bool,
}

impl Leaf {
    ghost use Rattle.nt_value.specs.Digits.{IsLeaf};

    /// The leaf of `int`.
    pub const INT: Leaf = Leaf {
        width: 32,
        signed: true,
        four: false,
    };

    /// Whether two leaves are equal.
    pub fn is_same(self, other: Leaf) -> bool
        ensures { IsTrue result ↔ (self ≡ other) }
    {
        self == other
    }

    /// Whether the width is one that a leaf may have.
    pub fn is_valid(self) -> bool
        ensures { IsTrue result ↔ IsLeaf self }
    {
        1 <= self.width && self.width <= WIDEST
    }
}
