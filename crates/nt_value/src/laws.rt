// Laws of the operators, each proved of all operands that its statement names.
ghost use Rattle.nt_value.specs.Laws.{AdditionIsModular, DivisionRestores, MultiplicationIsModular, PartsOfConcat, ResizeReturns, SubtractionIsModular, XnorIsNotXor};

/// A sum is that of the numbers modulo 2 to the power of the width, in signed leaves too.
pub fn addition_is_modular()
    ensures { AdditionIsModular }
{}

/// A difference is that of the numbers modulo 2 to the power of the width.
pub fn subtraction_is_modular()
    ensures { SubtractionIsModular }
{}

/// A product is that of the numbers modulo 2 to the power of the width.
pub fn multiplication_is_modular()
    ensures { MultiplicationIsModular }
{}

/// A quotient times its divisor, and the remainder, make the dividend again.
pub fn division_restores()
    ensures { DivisionRestores }
{}

/// `~^` is `~` of `^`.
pub fn xnor_is_not_xor()
    ensures { XnorIsNotXor }
{}

/// Digits taken to a wider leaf and back are as they were.
pub fn resize_returns()
    ensures { ResizeReturns }
{}

/// The parts of a concatenation are its operands.
pub fn parts_of_concat()
    ensures { PartsOfConcat }
{}
