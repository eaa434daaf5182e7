// What a type tree sees of the names in it.
ghost use Rattle.std.specs.Prelude.{◌≡◌, IfOk};
ghost use Rattle.nt_type_trees.specs.Types.{Types as Meanings};
ghost use Rattle.nt_type_trees.specs.Types.{IsSoundSeen};

use nt_ast::Path;
use nt_const::Lookup;
use nt_diag::Refusal;
use nt_kinds::Kind;
use std::alloc::{AllocError, Global};

/// What is seen of a name where a type is asked for.
#[derive(Drop)]
pub enum TypeSeen {
    /// A type.
    Known(Kind),
    /// A type whose declaration has a fault, by the least one.
    Faulty(Refusal),
    /// Something that is no type: T6 at the name.
    Other,
    /// Nothing: T4 at the name (IEEE 1800-2017, 23.9).
    Unknown,
    /// What two wildcard imports give: T9 at the name (26.3).
    Ambiguous,
}

/// Whoever knows which types names mean, and the constants by which these are measured.
pub trait Types: Lookup {
    ghost means: { Self → Meanings };

    /// What is seen of a path. A type that is seen is one that a value may have, within the limits.
    ///
    /// # Errors
    ///
    /// `AllocError` where memory ran out.
    fn type_at(&self, alloc: Global, path: &Path) -> Result<TypeSeen, AllocError>
        ensures seen { IfOk result (λ seen. seen ≡ means self.now path.now) }
        ensures sound { IfOk result (λ seen. IsSoundSeen seen) };
}
