// Where a text stands.

/// A place in a file: the file's number, the byte's offset, and the line and column for a reader.
#[derive(Clone, Copy, Debug, PartialEq, Eq)]
pub struct Place {
    pub file: u32,
    pub offset: u32,
    pub line: u32,
    pub column: u32,
}
