// Names in trees.
ghost use Rattle.std.specs.Prelude.{◌≡◌, ◌++◌, codes, IfOk};
ghost use Rattle.nt_ast.specs.Names.{full_name, path_name};

use crate::Expr;
use nt_value::{Name, Place};
use sqlite_items::Items;
use std::alloc::{AllocError, Global};

/// A name, with the package that it is taken from where one is written (IEEE 1800-2017, 26.3).
#[derive(Drop)]
pub struct Path {
    pub at: Place,
    pub scope: Option<Name>,
    pub name: Name,
}

fn package_name(alloc: Global, scope: &Name, name: &Name) -> Result<Name, AllocError>
    ensures { IfOk result (λ n. n ≡ scope.now ++ codes "::" ++ name.now) }
{
    let mut bytes = Vec::from_slice(alloc, scope.items())?;
    bytes.extend_from_slice(b"::")?;
    bytes.extend_from_slice(name.items())?;
    Ok(Name::new(bytes))
}

impl Path {
    /// The name `x`, or `p::x` where the package `p` is written (IEEE 1800-2017, 26.3).
    ///
    /// # Errors
    ///
    /// `AllocError` alone.
    pub fn full_name(&self, alloc: Global) -> Result<Name, AllocError>
        ensures { IfOk result (λ name. name ≡ path_name self.now) }
    {
        match &self.scope {
            None => self.name.copy(alloc),
            Some(scope) => package_name(alloc, scope, &self.name),
        }
    }
}

/// A name that is declared, with its unpacked dimensions and its initial value. A dimension is a range, or a size alone
/// (IEEE 1800-2017, 7.4.2).
#[derive(Drop)]
pub struct Declared {
    pub at: Place,
    pub name: Name,
    pub dims: Items<(Expr, Option<Expr>)>,
    pub start: Option<Expr>,
}
