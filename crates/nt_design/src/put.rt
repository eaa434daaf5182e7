// Writes of variables.
use nt_value::Value;

/// A write into a variable, its path evaluated (IEEE 1800-2017, 10.4): the leaves from `first` on become those of
/// `value`. Where `width` isn't 0, `width` digits of the leaf `first`, from the digit `low` on, become those of `value`
/// (11.5.1). A value without leaves writes nothing.
#[derive(Debug, Drop)]
pub struct Put {
    pub var: u32,
    pub first: u8,
    pub low: u8,
    pub width: u8,
    pub value: Value,
}
