// What a constant expression sees of a name.
use nt_value::Bits;

/// What a constant expression sees of a name at the place where it stands.
#[derive(Clone, Copy, Debug)]
pub enum Seen {
    /// A constant, by its value.
    Value(Bits),
    /// Something that is no constant, such as a variable: T1 at the whole expression (IEEE 1800-2017, 11.2.1).
    Other,
    /// Nothing: T4 at the name (23.9).
    Unknown,
    /// What two wildcard imports give: T9 at the name (26.3).
    Ambiguous,
}
