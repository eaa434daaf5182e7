// Why a part of an expression is not read.
ghost use Rattle.std.specs.Prelude.{◌≡◌};
ghost use Rattle.nt_read_expr.specs.declared.stop.Stop.TheVariants.{Memory};

use std::alloc::{AllocError, AllocFailed};

/// Why a part of an expression is not read.
#[derive(Drop)]
pub enum Stop {
    /// Memory ran out.
    Memory,
    /// The grammar derives no such part there.
    Refused,
}

impl From<AllocError> for Stop {
    ghost from_gives = { λ _ e. e ≡ Memory };

    fn from(_e: AllocError) -> Stop {
        Stop::Memory
    }
}

impl<T: Drop> From<AllocFailed<T>> for Stop {
    ghost from_gives = { λ _ e. e ≡ Memory };

    fn from(_e: AllocFailed<T>) -> Stop {
        Stop::Memory
    }
}
