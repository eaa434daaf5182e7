// Constants as they are seen from where a path stands.
ghost use Rattle.std.specs.Prelude.{◌≡◌, IfOk, slice_get};
ghost use Rattle.nt_types.specs.Looks.{seen_at, seen_what};
ghost use Rattle.nt_types.specs.Opened.{view_of};

use crate::{Scopes, What};
use nt_ast::Path;
use nt_const::{Constants, Lookup, Seen};
use nt_scopes::Look;
use std::alloc::{AllocError, Global};

/// The scopes of units and the values of constants that are known: of a package p under `p::x`, of the unit under `$unit::x`, of a module
/// under `x`. A constant expression sees a name from the scope in which the name stands (IEEE 1800-2017, 23.9, 26.3).
#[derive(Clone, Copy)]
pub struct View<'a> {
    pub scopes: &'a Scopes,
    pub known: &'a Constants,
}

impl<'a> View<'a> {
    // What is seen of a declaration.
    fn see(&self, alloc: Global, number: usize) -> Result<Seen, AllocError>
        ensures { IfOk result (λ s. s ≡ seen_what self.now.known.now (slice_get (view_of self.now.scopes.now).whats number)) }
    {
        match self.scopes.what(number) {
            None => Ok(Seen::Unknown),
            Some(What::Constant(path)) => self.known.look(alloc, path),
            Some(What::Type { .. }) => Ok(Seen::Other),
            Some(What::Function(_)) => Ok(Seen::Other),
            Some(What::Nettype(_)) => Ok(Seen::Other),
            Some(What::Other) => Ok(Seen::Other),
        }
    }
}

impl<'a> Lookup for View<'a> {
    ghost sees = { λ v. seen_at (view_of v.scopes.now) v.known.now };

    fn look(&self, alloc: Global, path: &Path) -> Result<Seen, AllocError> {
        match self.scopes.meaning(path) {
            Look::Unknown => Ok(Seen::Unknown),
            Look::Ambiguous => Ok(Seen::Ambiguous),
            Look::One(number) => {
                let seen = self.see(alloc, number)?;
                Ok(seen)
            }
        }
    }
}
