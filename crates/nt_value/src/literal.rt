// A number as it is written.
use crate::Bits;

/// A literal number of a source text (IEEE 1800-2017, 5.7.1).
#[derive(Clone, Copy, Debug)]
pub struct Literal {
    pub bits: Bits,
    /// Whether a size was written.
    pub sized: bool,
    /// Whether it is one of `'0`, `'1`, `'x` and `'z`, which fill their context.
    pub fill: bool,
}
