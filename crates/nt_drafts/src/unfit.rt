// Why there is no thing.
ghost use Rattle.std.specs.Prelude.{◌≡◌};
ghost use Rattle.nt_drafts.specs.declared.unfit.Unfit.TheVariants.{OutOfMemory};

use nt_diag::Rule;
use std::alloc::AllocError;

/// Why an expression stands for nothing: the rule that it breaks, or want of memory.
#[derive(Debug, Drop)]
pub enum Unfit {
    Breaks(Rule),
    OutOfMemory(AllocError),
}

impl From<AllocError> for Unfit {
    ghost from_gives = { λ e r. r ≡ OutOfMemory e };

    fn from(e: AllocError) -> Unfit {
        Unfit::OutOfMemory(e)
    }
}
