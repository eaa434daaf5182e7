// The values of trees.
ghost use Rattle.std.specs.Prelude.{◌≡◌, IfOk, IsSome, Some, None, Err};
ghost use Rattle.nt_design.specs.Meaning.{meaning};
ghost use Rattle.nt_design.specs.Rules.{constant_of};
ghost use Rattle.nt_design.specs.WellFormed.{IsEnvOf};

use crate::{Design, Tree};
use nt_value::{Value, copy};
use sqlite_items::Items;
use std::alloc::{AllocError, Global};

/// What a tree may read: the moment, in units of the design's time unit, the values of nets, variables and locals, and
/// the elements of a resolver's argument.
#[derive(Debug, Drop)]
pub struct Env {
    pub time: u64,
    pub nets: Items<Value>,
    pub vars: Items<Value>,
    pub locals: Items<Value>,
    pub many: Items<Value>,
}

/// Why a tree has no value.
#[derive(Debug, Drop)]
pub enum Stop {
    /// Its evaluation takes more turns of functions than an event may have.
    TooLong,
    /// Memory was refused.
    OutOfMemory(AllocError),
}

impl From<AllocError> for Stop {
    ghost use Rattle.std.specs.Prelude.{◌≡◌};
    ghost use Rattle.nt_design.specs.declared.env.Stop.TheVariants.{OutOfMemory};

    ghost from_gives = { λ refused stop. stop ≡ OutOfMemory refused };

    fn from(refused: AllocError) -> Stop {
        Stop::OutOfMemory(refused)
    }
}

/// The value of a constant in an environment of its design.
///
/// # Errors
///
/// `TooLong` exactly where the tree has no value. `OutOfMemory` where memory is refused.
pub fn meaning(alloc: Global, design: &Design, tree: &Tree, env: &Env) -> Result<Value, Stop>
    requires constant { IsSome (constant_of tree.now) }
    requires fits { IsEnvOf design.now env.now }
    ensures value { IfOk result (λ value. meaning design.now.functions env.now tree.now ≡ Some value) }
    ensures too_long { result ≡ Err Stop.TooLong → meaning design.now.functions env.now tree.now ≡ None }
{
    match tree {
        Tree::Const(value) => Ok(copy(alloc, value)?),
        _ => unreachable!(),
    }
}
