// Processes.

/// A process of a design: a procedure (IEEE 1800-2017, 9.2) or a continuous assignment (10.3), by its number.
#[derive(Clone, Copy, Debug, PartialEq, Eq)]
pub enum Process {
    Procedure { proc: u32 },
    Assignment { assign: u32 },
}
