// A unit of time.
ghost use Rattle.std.specs.Prelude.{◌↔◌, IsTrue};

/// The base of a unit of time, from seconds down to femtoseconds (IEEE 1800-2017, 5.8).
#[derive(Clone, Copy, Debug, PartialEq, Eq)]
pub enum Base {
    S,
    Ms,
    Us,
    Ns,
    Ps,
    Fs,
}

/// A unit of time: 1, 10 or 100 of its base, by the power of ten (IEEE 1800-2017, 3.14.2.1).
#[derive(Clone, Copy, Debug, PartialEq, Eq)]
pub struct Unit {
    pub ten: u8,
    pub base: Base,
}

impl Unit {
    ghost use Rattle.nt_value.specs.Units.{IsUnit};

    /// Whether the power of ten is one that a unit may have.
    pub fn is_valid(self) -> bool
        ensures { IsTrue result ↔ IsUnit self }
    {
        self.ten <= 2
    }
}
