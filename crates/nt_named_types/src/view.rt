// Types as they are seen from where a path stands.
ghost use Rattle.std.specs.Prelude.{◌≡◌, IfOk};
ghost use Rattle.nt_ast.specs.declared.types.TypeTree.TheViews.{out-TypeTree};
ghost use Rattle.nt_named_types.specs.Judged.{types_at};
ghost use Rattle.nt_type_trees.specs.Tells.{DeclaredTells, KindTells, ShapeTells};
ghost use Rattle.nt_types.specs.Looks.{seen_at};
ghost use Rattle.nt_types.specs.Opened.{view_of};

use crate::table::Table;
use nt_ast::{Path, TypeTree};
use nt_const::{Lookup, Seen};
use nt_diag::Fault;
use nt_kinds::Kind;
use nt_scopes::Look;
use nt_type_trees::{Dimension, TypeSeen, Types, kind_of_declared, kind_of_type, shape_of_type};
use nt_types::View;
use nt_value::Shape;
use std::alloc::{AllocError, Global};

/// The scopes of units, the values of constants that are known, and what is seen of the types that are declared. A name of a type is seen from
/// where it stands (IEEE 1800-2017, 23.9, 26.3).
#[derive(Clone, Copy)]
pub struct TypeView<'a> {
    pub names: View<'a>,
    pub table: &'a Table,
}

impl<'a> Lookup for TypeView<'a> {
    ghost sees = { λ v. seen_at (view_of v.names.scopes.now) v.names.known.now };

    fn look(&self, alloc: Global, path: &Path) -> Result<Seen, AllocError> {
        self.names.look(alloc, path)
    }
}

impl<'a> Types for TypeView<'a> {
    ghost means = { λ v. types_at (view_of v.names.scopes.now) v.table.now };

    fn type_at(&self, alloc: Global, path: &Path) -> Result<TypeSeen, AllocError> {
        match self.names.scopes.meaning(path) {
            Look::Unknown => Ok(TypeSeen::Unknown),
            Look::Ambiguous => Ok(TypeSeen::Ambiguous),
            Look::One(number) => {
                let seen = self.table.see(alloc, number)?;
                Ok(seen)
            }
        }
    }
}

impl<'a> TypeView<'a> {
    /// The type of a tree, as the names in it are seen from where they stand.
    ///
    /// # Errors
    ///
    /// `Refused` with its least fault, as of `kind_of_type` of nt_type_trees. `OutOfMemory`.
    pub fn kind_of(&self, alloc: Global, tree: &TypeTree) -> Result<Kind, Fault>
        ensures { KindTells (seen_at (view_of self.now.names.scopes.now) self.now.names.known.now) (types_at (view_of self.now.names.scopes.now) self.now.table.now) (out-TypeTree tree.now) result }
    {
        kind_of_type(alloc, tree, self)
    }

    /// The type of a name that is declared with a tree and dimensions.
    ///
    /// # Errors
    ///
    /// Those of `kind_of`.
    pub fn kind_of_name(
        &self,
        alloc: Global,
        tree: &TypeTree,
        dims: &[Dimension],
    ) -> Result<Kind, Fault>
        ensures { DeclaredTells (seen_at (view_of self.now.names.scopes.now) self.now.names.known.now) (types_at (view_of self.now.names.scopes.now) self.now.table.now) tree.now dims.now result }
    {
        kind_of_declared(alloc, tree, dims, self)
    }

    /// The leaves of the type of a tree.
    ///
    /// # Errors
    ///
    /// Those of `kind_of`.
    pub fn shape_of(&self, alloc: Global, tree: &TypeTree) -> Result<Shape, Fault>
        ensures { ShapeTells (seen_at (view_of self.now.names.scopes.now) self.now.names.known.now) (types_at (view_of self.now.names.scopes.now) self.now.table.now) (out-TypeTree tree.now) result }
    {
        shape_of_type(alloc, tree, self)
    }
}
